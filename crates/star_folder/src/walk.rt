//! `files_in`: the walk through a folder, up to its end or the first refusal.
//!
//! Folders wait on a stack on the heap, so a deep folder needs no stack of the machine. The walk is a relation on its
//! visits, the last one first, so no law about the end of a list is needed.

ghost use Rattle.std.specs.Prelude.{◌≡◌, ◌+◌, ◌≤◌, ◌∷◌, [], None, IfOk, IfErr, length, map, string_bytes};
ghost use Rattle.std.specs.Str.{IsUtf8};
ghost use Rattle.star_label.specs.Files.{file_of, limit_passed};
ghost use Rattle.star_label.specs.View.{text_of};
ghost use Rattle.star_folder.specs.Folder.{Says, entry_of};
ghost use Rattle.star_folder.specs.Refusal.{FileStops, FolderStops, IsStopped, IsUnread, StopsAt, files_failed, listings_failed};
ghost use Rattle.star_folder.specs.Views.{Goes, left_of, path_of, place_view};
ghost use Rattle.star_folder.specs.Walk.{AreFilesOf, FileOf, FolderAt, Listed, Tells, Visit};

use crate::folder::{Folder, FolderError, Kind};
use crate::path::FolderPath;
use crate::places::{Found, push_entries};
use crate::state::Walk;
use star_bundle::error::ServeError;
use star_label::error::LabelError;
use star_label::files::Files;
use star_label::label::Label;
use std::alloc::Global;
use std::collections::BTreeMap;

/// The most entries that may be listed.
const ENTRIES: usize = 100_000;

/// The most files.
const FILES: usize = 10_000;

/// The most bytes of a text.
const BYTES: usize = 1_048_576;

/// The most bytes of all texts.
const ALL_BYTES: usize = 268_435_456;

/// A walk that begins at the top.
fn begun(alloc: Global) -> Result<Walk, ServeError>
    ensures places { IfOk result (λ w. left_of w.places.items ≡ FolderAt [] ∷ []) }
    ensures found { IfOk result (λ w. w.found.entries ≡ []) }
    ensures none { IfOk result (λ w. (w.listed ≡ 0) × (w.count ≡ 0) × (w.size ≡ 0)) }
    ensures only { IfErr result (λ e. e ≡ ServeError.Memory) }
{
    let mut places = Vec::new(alloc);
    places.push(Found::Folder(FolderPath::top(alloc)))?;
    Ok(Walk {
        places,
        found: BTreeMap::new(alloc),
        listed: 0,
        count: 0,
        size: 0,
    })
}

/// The entries of a folder. `BadDir` if they cannot be listed, `TooMany` if more than 100,000 entries would then be
/// listed.
fn list_folder<F: Folder>(
    alloc: Global,
    folder: &mut F,
    path: &FolderPath,
    listed: usize,
) -> Result<BTreeMap<String, Kind>, ServeError>
    requires { listed ≤ 100000 }
    ensures tells { IfOk result (λ m. Tells (F.holds folder.old) (Listed (path_of path.now) (map entry_of m.entries))) }
    ensures within { IfOk result (λ m. listed + length m.entries ≤ 100000) }
    ensures stops { IfErr result (FolderStops (F.holds folder.old) listed (path_of path.now)) }
    ensures same { F.holds folder.new ≡ F.holds folder.old }
    ensures listings { F.failed_listings folder.new ≡ F.failed_listings folder.old + listings_failed result }
    ensures reads { F.failed_reads folder.new ≡ F.failed_reads folder.old + files_failed result }
{
    let listing = match folder.list(alloc, path.text()) {
        Ok(listing) => listing,
        Err(FolderError::Failed) => return Err(ServeError::BadDir),
        Err(FolderError::Memory) => return Err(ServeError::Memory),
    };
    if listing.len() > ENTRIES - listed {
        return Err(ServeError::TooMany);
    }
    Ok(listing)
}

/// The text of a file. `BadFile` if it cannot be read, `TooLong` if it has more than 1,048,576 bytes, `NotText` if they
/// are not UTF-8.
fn read_text<F: Folder>(alloc: Global, folder: &mut F, label: &Label) -> Result<String, ServeError>
    ensures tells { IfOk result (λ t. Says ((F.holds folder.old).bytes (text_of label.now)) (string_bytes t)) }
    ensures short { IfOk result (λ t. length (string_bytes t) ≤ 1048576) }
    ensures is_text { IfOk result (λ t. IsUtf8 (string_bytes t)) }
    ensures stops { IfErr result (IsUnread (F.holds folder.old) (text_of label.now)) }
    ensures same { F.holds folder.new ≡ F.holds folder.old }
    ensures listings { F.failed_listings folder.new ≡ F.failed_listings folder.old + listings_failed result }
    ensures reads { F.failed_reads folder.new ≡ F.failed_reads folder.old + files_failed result }
{
    let bytes = match folder.read(alloc, label) {
        Ok(bytes) => bytes,
        Err(FolderError::Failed) => return Err(ServeError::BadFile),
        Err(FolderError::Memory) => return Err(ServeError::Memory),
    };
    if bytes.len() > BYTES {
        return Err(ServeError::TooLong);
    }
    match str::from_utf8(bytes.as_slice()) {
        Ok(text) => Ok(String::from_str(alloc, text)?),
        Err(_) => Err(ServeError::NotText),
    }
}

/// Lists a folder.
fn after_folder<F: Folder>(
    alloc: Global,
    folder: &mut F,
    walk: Walk,
    path: &FolderPath,
) -> Result<Walk, ServeError>
    ensures goes { IfOk result (λ after. (v : Visit)
        × Goes (F.holds folder.old) walk after (FolderAt (path_of path.now)) v) }
    ensures stops { IfErr result (FolderStops (F.holds folder.old) walk.listed (path_of path.now)) }
    ensures same { F.holds folder.new ≡ F.holds folder.old }
    ensures listings { F.failed_listings folder.new ≡ F.failed_listings folder.old + listings_failed result }
    ensures reads { F.failed_reads folder.new ≡ F.failed_reads folder.old + files_failed result }
{
    let Walk {
        places,
        found,
        listed,
        count,
        size,
    } = walk;
    let listing = list_folder(alloc, folder, path, listed)?;
    let listed = listed + listing.len();
    let places = push_entries(alloc, path, listing, places)?;
    Ok(Walk {
        places,
        found,
        listed,
        count,
        size,
    })
}

/// Reads a file.
fn after_file<F: Folder>(
    alloc: Global,
    folder: &mut F,
    walk: Walk,
    label: Label,
) -> Result<Walk, ServeError>
    ensures goes { IfOk result (λ after. (v : Visit)
        × Goes (F.holds folder.old) walk after (FileOf (text_of label)) v) }
    ensures stops { IfErr result (FileStops (F.holds folder.old) walk.count walk.size (text_of label)) }
    ensures same { F.holds folder.new ≡ F.holds folder.old }
    ensures listings { F.failed_listings folder.new ≡ F.failed_listings folder.old + listings_failed result }
    ensures reads { F.failed_reads folder.new ≡ F.failed_reads folder.old + files_failed result }
{
    let Walk {
        places,
        mut found,
        listed,
        count,
        size,
    } = walk;
    if count == FILES {
        return Err(ServeError::TooMany);
    }
    let text = read_text(alloc, folder, &label)?;
    let bytes = text.len();
    if bytes > ALL_BYTES - size {
        return Err(ServeError::TooBig);
    }
    found.insert(label, text)?;
    Ok(Walk {
        places,
        found,
        listed,
        count: count + 1,
        size: size + bytes,
    })
}

/// Visits a place.
fn visited<F: Folder>(
    alloc: Global,
    folder: &mut F,
    walk: Walk,
    place: Found,
) -> Result<Walk, ServeError>
    ensures goes { IfOk result (λ after. (v : Visit) × Goes (F.holds folder.old) walk after (place_view place) v) }
    ensures stops { IfErr result (StopsAt (F.holds folder.old) walk.listed walk.count walk.size (place_view place)) }
    ensures same { F.holds folder.new ≡ F.holds folder.old }
    ensures listings { F.failed_listings folder.new ≡ F.failed_listings folder.old + listings_failed result }
    ensures reads { F.failed_reads folder.new ≡ F.failed_reads folder.old + files_failed result }
{
    match place {
        Found::Folder(path) => after_folder(alloc, folder, walk, &path),
        Found::File(label) => after_file(alloc, folder, walk, label),
    }
}

/// Numbers files that are within the limits.
fn numbered(alloc: Global, found: BTreeMap<Label, String>) -> Result<Files, ServeError>
    requires { limit_passed (map file_of found.entries) ≡ None }
    ensures files { IfOk result (λ files. files ≡ map file_of found.entries) }
    ensures only { IfErr result (λ e. e ≡ ServeError.Memory) }
{
    match Files::new(alloc, found) {
        Ok(files) => Ok(files),
        Err(LabelError::Memory) => Err(ServeError::Memory),
        Err(_) => unreachable!(),
    }
}

/// The files of a folder: those whose names end in `.star`, in it and in the folders below it. Names that are not
/// segments are left out, a folder with all that it has, and so are entries that are neither a file nor a folder.
///
/// The walk goes through a folder's files and then through its folders, each in the byte order of their names, and
/// stops at the first of these: `BadDir`, a folder cannot be listed; `TooMany`, more than 100,000 entries are listed,
/// or a file is the 10,001st; `BadFile`, a file cannot be read; `TooLong`, it has more than 1,048,576 bytes; `NotText`,
/// it is not UTF-8; `TooBig`, the texts together have more than 268,435,456 bytes.
pub fn files_in<F: Folder>(alloc: Global, folder: &mut F) -> Result<Files, ServeError>
    ensures files { IfOk result (AreFilesOf (F.holds folder.old)) }
    ensures stopped { IfErr result (IsStopped (F.holds folder.old)) }
    ensures same { F.holds folder.new ≡ F.holds folder.old }
    ensures listings { F.failed_listings folder.new ≡ F.failed_listings folder.old + listings_failed result }
    ensures reads { F.failed_reads folder.new ≡ F.failed_reads folder.old + files_failed result }
{
    let mut walk = begun(alloc)?;
    while let Some(place) = walk.places.pop() {
        walk = visited(alloc, folder, walk, place)?;
    }
    let Walk { found, .. } = walk;
    numbered(alloc, found)
}
