//! The load statement that asks for a label, for the text of a refusal.

ghost use Rattle.std.specs.Prelude.{◌≡◌, true};
ghost use Rattle.star_label.specs.Label.{is_package};

use crate::repo::Repo;
use crate::round::add_loads;
use star_folder::folder::FolderError;
use star_label::error::LabelError;
use star_label::label::Label;
use star_reading::parses::parsed;
use star_tree::tree::{Form, Statement, Tree};
use std::alloc::{AllocError, Global};
use std::collections::BTreeSet;
use std::sync::Wait;

/// The most labels that are looked at.
const LABELS: usize = 1_000_000;

/// The place of a load statement.
#[derive(Debug, Drop)]
pub struct LoadAt {
    /// The label of its file.
    pub file: Label,
    /// Its line, from 1.
    pub line: usize,
}

/// Whether a statement of a file in this package loads a label.
fn loads(
    alloc: Global,
    package: &str,
    statement: &Statement,
    sought: &Label,
) -> Result<bool, AllocError>
    requires { is_package «package».now ≡ true }
{
    let Form::Load {
        module: module_string,
        names: _,
    } = &statement.form
    else {
        return Ok(false);
    };
    match Label::read(alloc, module_string.text.as_str(), package) {
        Ok(label) => Ok(label == *sought),
        Err(LabelError::BadLabel) => Ok(false),
        Err(_) => Err(AllocError),
    }
}

/// The line of the first of these statements that loads a label.
fn line_of(
    alloc: Global,
    package: &str,
    statements: &[Statement],
    sought: &Label,
) -> Result<Option<usize>, AllocError>
    requires { is_package «package».now ≡ true }
{
    for statement in statements {
        if loads(alloc, package, statement, sought)? {
            return Ok(Some(statement.position.line));
        }
    }
    Ok(None)
}

/// The tree of the file at a label. `None` if there is no file, or one that cannot be read or does not parse.
fn tree_at<'t, R: Wait, F: Repo>(
    rt: &R,
    alloc: Global,
    folder: &mut F,
    trees: &'t boxcar::Vec<Tree>,
    label: &Label,
) -> Result<Option<&'t Tree>, AllocError> {
    let bytes = match folder.find(alloc, label) {
        Ok(Some(bytes)) => bytes,
        Ok(None) => return Ok(None),
        Err(FolderError::Failed) => return Ok(None),
        Err(FolderError::Memory) => return Err(AllocError),
    };
    let Ok(text) = String::from_utf8(bytes) else {
        return Ok(None);
    };
    match parsed(rt, alloc, trees, text.as_str())? {
        Ok(tree) => Ok(Some(tree)),
        Err(_) => Ok(None),
    }
}

/// A load statement that asks for a label, in the files that these labels reach in a folder. `None` if only the labels
/// themselves ask for it. It reads the files anew, in the order of their labels as they are met, and is for the text of
/// a refusal.
pub fn wanting<R: Wait, F: Repo>(
    rt: &R,
    alloc: Global,
    folder: &mut F,
    trees: &boxcar::Vec<Tree>,
    words: BTreeSet<Label>,
    sought: &Label,
) -> Result<Option<LoadAt>, AllocError> {
    let mut waiting = words;
    let mut looked = BTreeSet::new(alloc);
    for _ in 0..LABELS {
        let Some(label) = waiting.pop_first() else {
            return Ok(None);
        };
        if looked.contains(&label) {
            continue;
        }
        if let Some(tree) = tree_at(rt, alloc, folder, trees, &label)? {
            let statements = tree.statements.as_slice();
            if let Some(line) = line_of(alloc, label.package(), statements, sought)? {
                return Ok(Some(LoadAt { file: label, line }));
            }
            add_loads(alloc, &mut waiting, label.package(), statements)?;
        }
        looked.insert(label)?;
    }
    Ok(None)
}
