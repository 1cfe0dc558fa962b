//! From the entries of a folder to labels of files and paths of folders.

ghost use Rattle.std.specs.Prelude.{◌≡◌, [], ◌∷◌, ◌++◌, Some, None, IfOk, IfErr, OnOk, if◌then◌else◌, map, option_map, string_bytes};
ghost use Rattle.std.specs.List.{cons_option, filter};
ghost use Rattle.star_label.specs.Label.{is_segment, label_text};
ghost use Rattle.star_label.specs.View.{text_of};
ghost use Rattle.star_folder.specs.Folder.{entry_of};
ghost use Rattle.star_folder.specs.Views.{left_of, path_of, place_view};
ghost use Rattle.star_folder.specs.Walk.{Listed, is_file, is_folder, leads_to, opened};

use crate::folder::Kind;
use crate::path::FolderPath;
use star_bundle::error::ServeError;
use star_label::error::LabelError;
use star_label::label::Label;
use star_label::segment::is_segment;
use std::alloc::{AllocError, Global};
use std::collections::BTreeMap;

/// A file or a folder that a walk goes to.
#[derive(Debug, Drop)]
pub(crate) enum Found {
    File(Label),
    Folder(FolderPath),
}

/// The name of a file as a load in its own folder has it: `:NAME`.
fn relative(alloc: Global, name: &str) -> Result<String, AllocError>
    ensures { IfOk result (λ t. string_bytes t ≡ 58 ∷ name.now) }
{
    let mut text = String::with_capacity(alloc, name.len().saturating_add(1))?;
    text.push(':')?;
    text.push_str(name)?;
    Ok(text)
}

/// The label of a file in a folder. `None` if its name is not a segment.
fn label_in(alloc: Global, path: &FolderPath, name: &str) -> Result<Option<Label>, ServeError>
    ensures label { IfOk result (λ o. option_map text_of o
        ≡ (if is_segment name.now then Some (label_text (path_of path.now) name.now) else None)) }
    ensures only { IfErr result (λ e. e ≡ ServeError.Memory) }
{
    let text = relative(alloc, name)?;
    match Label::read(alloc, text.as_str(), path.text()) {
        Ok(label) => Ok(Some(label)),
        Err(LabelError::BadLabel) => Ok(None),
        Err(_) => Err(ServeError::Memory),
    }
}

/// A file whose name ends in `.star`.
fn file_in(alloc: Global, path: &FolderPath, name: &str) -> Result<Option<Found>, ServeError>
    ensures place { IfOk result (λ o. option_map place_view o ≡ leads_to Kind.File (path_of path.now) name.now) }
    ensures only { IfErr result (λ e. e ≡ ServeError.Memory) }
{
    if !name.ends_with(".star") {
        return Ok(None);
    }
    match label_in(alloc, path, name)? {
        Some(label) => Ok(Some(Found::File(label))),
        None => Ok(None),
    }
}

/// A folder.
fn folder_in(alloc: Global, path: &FolderPath, name: &str) -> Result<Option<Found>, ServeError>
    ensures place { IfOk result (λ o. option_map place_view o ≡ leads_to Kind.Folder (path_of path.now) name.now) }
    ensures only { IfErr result (λ e. e ≡ ServeError.Memory) }
{
    if !is_segment(name) {
        return Ok(None);
    }
    let inside = path.inside(alloc, name)?;
    Ok(Some(Found::Folder(inside)))
}

/// Where an entry of the folder at a path leads.
fn place_in(
    alloc: Global,
    path: &FolderPath,
    name: &str,
    kind: Kind,
) -> Result<Option<Found>, ServeError>
    ensures place { IfOk result (λ o. option_map place_view o ≡ leads_to kind (path_of path.now) name.now) }
    ensures only { IfErr result (λ e. e ≡ ServeError.Memory) }
{
    match kind {
        Kind::File => file_in(alloc, path, name),
        Kind::Folder => folder_in(alloc, path, name),
        Kind::Other => Ok(None),
    }
}

/// Puts a place on the stack of the files or on the stack of the folders.
fn push_place(
    place: Option<Found>,
    files: &mut Vec<Found>,
    folders: &mut Vec<Found>,
) -> Result<(), AllocError>
    ensures files { OnOk result (left_of files.new.items
        ≡ filter is_file (cons_option (option_map place_view place) []) ++ left_of files.old.items) }
    ensures folders { OnOk result (left_of folders.new.items
        ≡ filter is_folder (cons_option (option_map place_view place) []) ++ left_of folders.old.items) }
{
    match place {
        Some(Found::File(label)) => Ok(files.push(Found::File(label))?),
        Some(Found::Folder(path)) => Ok(folders.push(Found::Folder(path))?),
        None => Ok(()),
    }
}

/// Puts the entries of the folder at a path on the stack: the files on top of the folders, both in the order of their
/// names.
pub(crate) fn push_entries(
    alloc: Global,
    path: &FolderPath,
    mut listing: BTreeMap<String, Kind>,
    mut places: Vec<Found>,
) -> Result<Vec<Found>, ServeError>
    ensures places { IfOk result (λ ps. left_of ps.items
        ≡ opened (Listed (path_of path.now) (map entry_of listing.entries)) ++ left_of places.items) }
    ensures only { IfErr result (λ e. e ≡ ServeError.Memory) }
{
    let mut files = Vec::new(alloc);
    while let Some((name, kind)) = listing.pop_last() {
        let place = place_in(alloc, path, name.as_str(), kind)?;
        push_place(place, &mut files, &mut places)?;
    }
    places.append(&mut files)?;
    Ok(places)
}
