//! `Walk`: a walk over the files that labels reach in a folder, one file at a time.

ghost use Rattle.std.specs.Prelude.{◌≡◌, IfOk, IfSome, None, map};
ghost use Rattle.star_label.specs.View.{text_of};
ghost use Rattle.star_repo.specs.Views.{labels_of};
ghost use Rattle.star_graph.specs.Line.{IsLine, IsLineOf};

use crate::line::line_of;
use star_bundle::error::ServeError;
use star_label::label::Label;
use star_repo::error::RepoError;
use star_repo::repo::Repo;
use star_repo::text::{loads_of, text_at};
use std::alloc::{AllocError, Global};
use std::collections::BTreeSet;

/// A walk over the files that labels reach: the labels that were looked up, and those that are still to be.
#[derive(Drop)]
pub struct Walk {
    looked: BTreeSet<Label>,
    waiting: BTreeSet<Label>,
}

/// Labels as a row, in their order.
fn in_row(alloc: Global, mut labels: BTreeSet<Label>) -> Result<Vec<Label>, AllocError>
    ensures { IfOk result (λ row. map text_of row.items ≡ labels_of labels.keys) }
{
    let mut row = Vec::new(alloc);
    while let Some(label) = labels.pop_first() {
        row.push(label)?;
    }
    Ok(row)
}

/// The refusal of the file at a label.
fn refused(label: Label, error: ServeError) -> RepoError {
    match error {
        ServeError::Memory => RepoError::Run { error },
        error => RepoError::File { label, error },
    }
}

/// The refusal if an allocation failed.
fn without_memory() -> RepoError {
    RepoError::Run {
        error: ServeError::Memory,
    }
}

impl Walk {
    /// A walk that begins with these labels.
    pub fn new(alloc: Global, labels: BTreeSet<Label>) -> Walk {
        Walk {
            looked: BTreeSet::new(alloc),
            waiting: labels,
        }
    }

    /// Labels that were not looked up wait.
    fn add(&mut self, labels: Vec<Label>) -> Result<(), AllocError> {
        for label in labels {
            if !self.looked.contains(&label) {
                self.waiting.insert(label)?;
            }
        }
        Ok(())
    }

    /// The line of the file with this label and text, whose loads wait then.
    fn line(&mut self, alloc: Global, label: Label, text: &str) -> Result<Vec<u8>, AllocError>
        ensures { IfOk result (λ l. IsLineOf (text_of label) text.now l.items) }
    {
        let loads = in_row(alloc, loads_of(alloc, &label, text)?)?;
        let line = line_of(alloc, &label, text, loads.as_slice())?;
        self.looked.insert(label)?;
        self.add(loads)?;
        Ok(line)
    }

    /// The line of the file at a label, if there is one; else no further label waits.
    fn look_up<F: Repo>(
        &mut self,
        alloc: Global,
        folder: &mut F,
        label: Label,
    ) -> Result<Option<Vec<u8>>, RepoError>
        ensures waiting { IfOk result (λ o. o ≡ None → self.new.waiting.keys ≡ self.old.waiting.keys) }
        ensures line { IfOk result (λ o. IfSome o (λ line. IsLine (F.says folder.old) line.items)) }
        ensures same { F.says folder.new ≡ F.says folder.old }
    {
        match text_at(alloc, folder, &label) {
            Ok(None) => match self.looked.insert(label) {
                Ok(_) => Ok(None),
                Err(_) => Err(without_memory()),
            },
            Ok(Some(text)) => match self.line(alloc, label, text.as_str()) {
                Ok(line) => Ok(Some(line)),
                Err(_) => Err(without_memory()),
            },
            Err(error) => Err(refused(label, error)),
        }
    }

    /// The line of the next file; `None` if there is no further one. The loads of a file are looked up after it. A file
    /// that cannot be read, has more than 1,048,576 bytes or is not UTF-8 is refused, as in a run.
    pub fn next<F: Repo>(
        &mut self,
        alloc: Global,
        folder: &mut F,
    ) -> Result<Option<Vec<u8>>, RepoError>
        ensures line { IfOk result (λ o. IfSome o (λ line. IsLine (F.says folder.old) line.items)) }
        ensures same { F.says folder.new ≡ F.says folder.old }
    {
        while let Some(label) = self.waiting.pop_first() {
            if let Some(line) = self.look_up(alloc, folder, label)? {
                return Ok(Some(line));
            }
        }
        Ok(None)
    }
}
