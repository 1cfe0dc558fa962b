//! Words such as `//app/...`: the labels of all files below a folder.

ghost use Rattle.std.specs.Prelude.{◌≡◌, ◌+◌, ◌≤◌, ◌∷◌, ◌++◌, [], ℕ, List, IfOk, IfSome, MatchOption, OnOk, length, true, vec_len};
ghost use Rattle.star_label.specs.Label.{label_text};
ghost use Rattle.star_label.specs.View.{text_of};
ghost use Rattle.star_words.specs.Below.{AreBelow, IsThere, IsWalked, left_out, named};
ghost use Rattle.star_words.specs.Excluded.{IsLeftOut};
ghost use Rattle.star_words.specs.Glob.{Matches};
ghost use Rattle.star_words.specs.Named.{labels_of};

use crate::exclude::is_left_out;
use crate::glob::matches;
use crate::walk::Walk;
use crate::words::label_of;
use star_bundle::error::ServeError;
use star_folder::folder::{FolderError, Kind};
use star_folder::path::inside;
use star_label::error::LabelError;
use star_label::label::Label;
use star_label::segment::is_segment;
use std::alloc::{AllocError, Global};
use std::collections::{BTreeMap, BTreeSet};

/// The most entries that may be listed.
const ENTRIES: usize = 1_000_000;

/// Why what a path leads to is no file of a folder, by where it lies.
#[derive(Clone, Copy, Debug, PartialEq, Eq)]
pub enum Apart {
    /// A link leads out of the folder.
    Outside,
    /// A link leads there, and none is followed.
    Linked,
    /// It is below `/proc`, where the system makes what is read.
    System,
}

/// A folder whose folders can be listed.
pub trait Listing {
    /// The entries of the folder at a path, by their names. The path has a slash between two folders. At the top it is
    /// empty.
    fn entries(&mut self, alloc: Global, path: &str) -> Result<BTreeMap<String, Kind>, FolderError>;

    /// Why what the path of a label leads to is no file of the folder, by where it lies. `None` if it may be one, or if
    /// the path leads to nothing.
    fn apart(&self, alloc: Global, label: &Label) -> Option<Apart>;
}

/// Which of the files below a folder are asked for.
#[derive(Clone, Copy, Debug)]
pub struct Filter<'a> {
    /// The pattern that their names match.
    pub named: &'a str,
    /// The patterns of the files and folders that are left out.
    pub left_out: &'a [String],
}

/// The folder of a word that asks for all files below it: the text before `...` in `...`, `a/...`, `//...` or
/// `//a/...`.
pub fn front_of(word: &str) -> Option<&str> {
    let front = word.strip_suffix("...")?;
    if front == "" || front.ends_with('/') {
        Some(front)
    } else {
        None
    }
}

/// A label in the folder that such a word asks for, in the package `here`: its package is that folder. `None` if no
/// label names a file there.
pub fn label_below(alloc: Global, here: &str, front: &str) -> Result<Option<Label>, LabelError> {
    let (from, path) = match front.strip_prefix("//") {
        Some(path) => ("", path),
        None => (here, front),
    };
    if path.starts_with('/') {
        return Ok(None);
    }
    let mut file = String::from_str(alloc, path)?;
    file.push('x')?;
    label_of(alloc, from, file.as_str())
}

/// The label of a file in the folder at a path. `None` if its name is not a segment.
fn file_label(alloc: Global, path: &str, name: &str) -> Result<Option<Label>, AllocError>
    ensures { IfOk result (λ found. IfSome found (λ label. text_of label ≡ label_text path.now name.now)) }
{
    let mut text = String::from_str(alloc, "//")?;
    text.push_str(path)?;
    text.push(':')?;
    text.push_str(name)?;
    match Label::read(alloc, text.as_str(), "") {
        Ok(label) => Ok(Some(label)),
        Err(LabelError::BadLabel) => Ok(None),
        Err(_) => Err(AllocError),
    }
}

/// The folders of other tools that a walk leaves out.
const LEFT_OUT: [&str; 2] = [".git", "node_modules"];

/// Whether a walk goes into the folder of this name in the folder at a path.
fn is_entered(alloc: Global, path: &str, name: &str, filter: Filter<'_>) -> Result<bool, AllocError>
    ensures { IfOk result (λ is. is ≡ true → IsLeftOut (left_out filter.entry) Kind.Folder path.now name.now → ⊥) }
{
    if !is_segment(name) || name == LEFT_OUT[0] || name == LEFT_OUT[1] {
        return Ok(false);
    }
    Ok(!is_left_out(alloc, filter.left_out, Kind::Folder, path, name)?)
}

/// Whether the file of this name in the folder at a path is asked for.
fn is_asked_for(
    alloc: Global,
    path: &str,
    name: &str,
    filter: Filter<'_>,
) -> Result<bool, AllocError>
    ensures named { IfOk result (λ is. is ≡ true → Matches (named filter.entry) name.now) }
    ensures kept { IfOk result (λ is. is ≡ true → IsLeftOut (left_out filter.entry) Kind.File path.now name.now → ⊥) }
{
    if !matches(filter.named.as_bytes(), name.as_bytes()) {
        return Ok(false);
    }
    Ok(!is_left_out(alloc, filter.left_out, Kind::File, path, name)?)
}

/// Follows an entry of the folder at a path.
fn enter(
    alloc: Global,
    walk: &mut Walk,
    path: &str,
    name: &str,
    kind: Kind,
    filter: Filter<'_>,
) -> Result<(), AllocError>
    ensures walked { OnOk result ((top : List ℕ) → IsThere (left_out filter.entry) top path.now
        → IsWalked top filter.entry walk.old → IsWalked top filter.entry walk.new) }
    ensures listed { walk.new.listed ≡ walk.old.listed }
    ensures places { OnOk result (vec_len walk.new.places ≤ vec_len walk.old.places + 1) }
{
    match kind {
        Kind::File => {
            if is_asked_for(alloc, path, name, filter)? {
                if let Some(label) = file_label(alloc, path, name)? {
                    walk.found.insert(label)?;
                }
            }
        }
        Kind::Folder => {
            if is_entered(alloc, path, name, filter)? {
                walk.places.push(inside(alloc, path, name)?)?;
            }
        }
        Kind::Other => {}
    }
    Ok(())
}

/// Follows the entries of the folder at a path.
fn enter_all(
    alloc: Global,
    walk: &mut Walk,
    path: &str,
    mut entries: BTreeMap<String, Kind>,
    filter: Filter<'_>,
) -> Result<(), AllocError>
    ensures walked { OnOk result ((top : List ℕ) → IsThere (left_out filter.entry) top path.now
        → IsWalked top filter.entry walk.old → IsWalked top filter.entry walk.new) }
    ensures listed { walk.new.listed ≡ walk.old.listed }
    ensures places { OnOk result (vec_len walk.new.places ≤ vec_len walk.old.places + length entries.entries) }
{
    while let Some((name, kind)) = entries.pop_first() {
        enter(alloc, walk, path, name.as_str(), kind, filter)?;
    }
    Ok(())
}

/// Lists a folder. `BadDir` if it cannot be listed, `TooMany` if more than 1,000,000 entries would be listed then.
fn listed<F: Listing>(
    alloc: Global,
    folder: &mut F,
    walk: &mut Walk,
    path: &str,
    filter: Filter<'_>,
) -> Result<(), ServeError>
    ensures walked { OnOk result ((top : List ℕ) → IsThere (left_out filter.entry) top path.now
        → IsWalked top filter.entry walk.old → IsWalked top filter.entry walk.new) }
    ensures left { OnOk result (1000000 + vec_len walk.new.places + walk.old.listed
        ≤ 1000000 + vec_len walk.old.places + walk.new.listed) }
{
    let entries = match folder.entries(alloc, path) {
        Ok(entries) => entries,
        Err(FolderError::Failed) => return Err(ServeError::BadDir),
        Err(FolderError::Memory) => return Err(ServeError::Memory),
    };
    if entries.len() > ENTRIES - walk.listed {
        return Err(ServeError::TooMany);
    }
    walk.listed += entries.len();
    enter_all(alloc, walk, path, entries, filter)?;
    Ok(())
}

/// Takes the folder that comes next.
fn next_place(walk: &mut Walk) -> Option<String>
    ensures place { MatchOption result
        (walk.old.places.items ≡ [])
        (λ path. walk.old.places.items ≡ walk.new.places.items ++ path ∷ []) }
    ensures found { walk.new.found ≡ walk.old.found }
    ensures listed { walk.new.listed ≡ walk.old.listed }
{
    walk.places.pop()
}

/// The labels of all files below the folder at `top` that a filter lets through. Names that are not segments are left
/// out, a folder with all that it has, and so are entries that are neither a file nor a folder, such as a link, and
/// folders named `.git` or `node_modules`. No pattern leaves out the folder at `top` itself.
/// `BadDir` if a folder cannot be listed, `TooMany` if more than 1,000,000 entries are listed.
pub fn files_below<F: Listing>(
    alloc: Global,
    folder: &mut F,
    top: &str,
    filter: Filter<'_>,
) -> Result<BTreeSet<Label>, ServeError>
    ensures { IfOk result (λ found. AreBelow top.now filter.entry (labels_of found.keys)) }
{
    let mut walk = Walk {
        places: vec![in alloc; String::from_str(alloc, top)?]?,
        found: BTreeSet::new(alloc),
        listed: 0,
    };
    while let Some(path) = next_place(&mut walk) {
        listed(alloc, folder, &mut walk, path.as_str(), filter)?;
    }
    let Walk { found, .. } = walk;
    Ok(found)
}
