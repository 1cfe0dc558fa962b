//! The files below a folder, for words of the command line such as `//app/...`.

use crate::repo::{Refusal, RepoAsked};
use star_bundle::error::ServeError;
use star_folder::system::SystemDisk;
use star_label::label::Label;
use star_repo::disk::DiskRepo;
use star_repo::error::RepoError;
use star_repo::text::text_at;
use star_repo::top::Top;
use star_words::exclude::patterns_in;
use star_words::pattern::{Filter, files_below, label_below};
use std::alloc::{AllocError, Global};
use std::collections::{BTreeMap, BTreeSet};

/// The label of the file that says what is left out.
const IGNORED: &str = "//:.starloadignore";

/// The most bytes of that file.
const IGNORED_BYTES: usize = 65_536;

/// The labels of the roots, and why files that were found are not among them.
#[derive(Drop)]
pub(crate) struct Roots {
    pub labels: Vec<String>,
    pub left_out: BTreeMap<Label, ServeError>,
}

/// How a word that asks for the files below a folder is read.
#[derive(Clone, Copy)]
pub(crate) struct Below<'a> {
    /// Where the folder of all files is.
    pub top: Top<'a>,
    /// The package of the folder that the program was called in.
    pub here: &'a str,
    /// Which files are asked for.
    pub filter: Filter<'a>,
    /// A file that cannot be one of a run is left out.
    pub keeps_going: bool,
}

/// The refusal of a file.
fn refused(label: Label, error: ServeError) -> Refusal {
    match error {
        ServeError::Memory => Refusal::from(ServeError::Memory),
        error => Refusal::from(RepoError::File { label, error }),
    }
}

/// The patterns of what is left out: those of the command line, and those in the folder's own file.
pub(crate) fn left_out(
    rt: &HostRuntime,
    alloc: Global,
    asked: &RepoAsked,
    top: Top<'_>,
) -> Result<Vec<String>, Refusal> {
    let mut patterns = copied(alloc, asked.left_out.as_slice())?;
    let label = Label::read(alloc, IGNORED, "")?;
    let disk = SystemDisk::new(rt);
    let mut folder = DiskRepo::new(&disk, top);
    match text_at(alloc, &mut folder, &label) {
        Ok(Some(text)) => {
            if text.len() > IGNORED_BYTES {
                return Err(refused(label, ServeError::TooLong));
            }
            patterns.append(&mut patterns_in(alloc, text.as_str())?)?;
        }
        Ok(None) => {}
        Err(error) => return Err(refused(label, error)),
    }
    Ok(patterns)
}

/// The same texts once more.
fn copied(alloc: Global, texts: &[String]) -> Result<Vec<String>, AllocError> {
    let mut copies = Vec::new(alloc);
    for text in texts {
        copies.push(String::from_str(alloc, text.as_str())?)?;
    }
    Ok(copies)
}

impl<'a> Below<'a> {
    /// The files below a folder that a word asks for: none if no label names a file there.
    fn found(
        &self,
        rt: &HostRuntime,
        alloc: Global,
        word: &str,
        front: &str,
    ) -> Result<BTreeSet<Label>, Refusal> {
        let Some(label) = label_below(alloc, self.here, front)? else {
            return Ok(BTreeSet::new(alloc));
        };
        let disk = SystemDisk::new(rt);
        let mut folder = DiskRepo::new(&disk, self.top);
        match files_below(alloc, &mut folder, label.package(), self.filter) {
            Ok(found) => Ok(found),
            Err(ServeError::BadDir) => {
                let word = String::from_str(alloc, word)?;
                Err(Refusal::Unlisted { word })
            }
            Err(error) => Err(Refusal::from(error)),
        }
    }

    /// Why a file that was found is left out, if it is.
    fn unfit(
        &self,
        rt: &HostRuntime,
        alloc: Global,
        label: &Label,
    ) -> Result<Option<ServeError>, Refusal> {
        if !self.keeps_going {
            return Ok(None);
        }
        let disk = SystemDisk::new(rt);
        let mut folder = DiskRepo::new(&disk, self.top);
        match text_at(alloc, &mut folder, label) {
            Ok(_) => Ok(None),
            Err(ServeError::Memory) => Err(Refusal::from(ServeError::Memory)),
            Err(error) => Ok(Some(error)),
        }
    }

    /// Takes the files below a folder that a word asks for, in the order of their labels.
    pub(crate) fn push(
        &self,
        rt: &HostRuntime,
        alloc: Global,
        word: &str,
        front: &str,
        roots: &mut Roots,
    ) -> Result<(), Refusal> {
        let found = self.found(rt, alloc, word, front)?;
        if found.is_empty() {
            let word = String::from_str(alloc, word)?;
            return Err(Refusal::Unmatched { word });
        }
        for label in found.iter() {
            match self.unfit(rt, alloc, label)? {
                Some(error) => {
                    let label = Label::read(alloc, label.text(), "")?;
                    roots.left_out.insert(label, error)?;
                }
                None => roots.labels.push(String::from_str(alloc, label.text())?)?,
            }
        }
        Ok(())
    }
}

/// Says which of the files that were found are left out, and why.
pub(crate) fn say_left_out(rt: &HostRuntime, left_out: &BTreeMap<Label, ServeError>) {
    for (label, error) in left_out.iter() {
        let _ = eprintln!(rt; "starload: left out: {label}: {}", error.text());
    }
}
