//! The trait `Disk`: the few calls by which a disk is looked at, and by ghost members what it holds.
//!
//! `SystemDisk` is the disk of the system. It tells nothing by its ghost members, since no contract can know what is on
//! a disk: that each of its four calls looks at the path that it is given is to be believed. All that stands on a
//! `Disk` is proved for every disk, so also for one that tells everything.

ghost use Rattle.std.specs.Prelude.{◌≡◌, ◌≤◌, IfOk, map, option_map, string_bytes, vec_len};
ghost use Rattle.std.specs.Fs.{dir_entry_name};
ghost use Rattle.star_folder.specs.Disk.{kind_of};
ghost use Rattle.star_folder.specs.Drive.{Drive, ReadsFirst, TellsSize, untold};
ghost use Rattle.star_folder.specs.Folder.{Says, entry_of};

use crate::folder::Kind;
use std::alloc::{AllocError, Global};
use std::collections::BTreeMap;
use std::fs::{self, DirEntry, File, FileType};
use std::io::{self, ErrorKind, Read};
use std::rt::Files;

/// The entries of a folder by their names.
#[derive(Drop)]
pub struct Entries {
    /// Those whose names are UTF-8.
    pub named: BTreeMap<String, Kind>,
    /// Whether these are all entries.
    pub are_all: bool,
}

/// A disk.
pub trait Disk {
    /// What lies at its paths, as far as it tells.
    ghost holds: { Self → Drive };

    /// The entries of the folder at a path.
    fn list(&self, alloc: Global, path: &str) -> io::Result<Entries>
        ensures tells { IfOk result (λ found. Says ((holds self.now).entries path.now) (map entry_of found.named.entries)) };

    /// The size in bytes of the file that a path leads to, through links too. `None` if it leads to no file.
    fn size(&self, path: &str) -> io::Result<Option<u64>>
        ensures tells { IfOk result (TellsSize ((holds self.now).file path.now)) };

    /// The first bytes of the file that a path leads to: all of them, or `most` if it has more. `size` is a guess of how
    /// many it has.
    fn read(&self, alloc: Global, path: &str, most: usize, size: u64) -> io::Result<Vec<u8>>
        ensures tells { IfOk result (λ bytes. ReadsFirst most ((holds self.now).file path.now) bytes.items) }
        ensures few { IfOk result (λ bytes. vec_len bytes ≤ most) };

    /// The real path of what a path leads to, which has no links: empty if it is not UTF-8. `None` if the path leads to
    /// nothing.
    fn real(&self, alloc: Global, path: &str) -> io::Result<Option<String>>
        ensures tells { IfOk result (λ real. Says ((holds self.now).real path.now) (option_map string_bytes real)) };
}

/// The disk of the system.
#[derive(Debug, Drop)]
pub struct SystemDisk<'a, R> {
    rt: &'a R,
}

impl<'a, R> SystemDisk<'a, R> {
    /// The disk that this runtime reaches.
    pub fn new(rt: &'a R) -> Self {
        SystemDisk { rt }
    }
}

impl<'a, R: Files + AllocGlobal + Clone + Drop> Disk for SystemDisk<'a, R> {
    ghost holds = { λ s. untold };

    fn list(&self, alloc: Global, path: &str) -> io::Result<Entries> {
        let mut found = Entries {
            named: BTreeMap::new(alloc),
            are_all: true,
        };
        for entry in fs::read_dir(self.rt, path)? {
            match named(alloc, entry)? {
                Some((name, kind)) => {
                    found.named.insert(name, kind)?;
                }
                None => found.are_all = false,
            }
        }
        Ok(found)
    }

    fn size(&self, path: &str) -> io::Result<Option<u64>> {
        match unless_nowhere(fs::metadata(self.rt, path))? {
            Some(metadata) if metadata.is_file() => Ok(Some(metadata.len())),
            _ => Ok(None),
        }
    }

    fn read(&self, alloc: Global, path: &str, most: usize, size: u64) -> io::Result<Vec<u8>> {
        let file = File::open(self.rt, path)?;
        // With room for one byte more than the file has, one read finds all of it, and one its end.
        let room = size.saturating_add(1).min(most as u64);
        let mut bytes = Vec::with_capacity(alloc, room as usize)?;
        file.take(most as u64).read_to_end(&mut bytes)?;
        bytes.truncate(most);
        Ok(bytes)
    }

    fn real(&self, alloc: Global, path: &str) -> io::Result<Option<String>> {
        match unless_nowhere(fs::canonicalize(self.rt, path))? {
            Some(real) => Ok(Some(String::from_str(alloc, real.to_str().unwrap_or(""))?)),
            None => Ok(None),
        }
    }
}

/// The kind of an entry, by its type.
pub fn kind_of(found: FileType) -> Kind
    ensures { result ≡ kind_of found }
{
    if found.is_file() {
        Kind::File
    } else if found.is_dir() {
        Kind::Folder
    } else {
        Kind::Other
    }
}

/// The name and the kind of an entry. `None` if its name is not UTF-8.
fn named<R: Files + AllocGlobal + Clone + Drop>(
    alloc: Global,
    entry: io::Result<DirEntry<R>>,
) -> io::Result<Option<(String, Kind)>> {
    match entry {
        Ok(entry) => Ok(Some(entry_of(alloc, &entry)?)),
        Err(error) => {
            if error.kind() == ErrorKind::InvalidFilename {
                Ok(None)
            } else {
                Err(error)
            }
        }
    }
}

/// The name and the kind of an entry.
fn entry_of<R: Files + AllocGlobal + Clone + Drop>(
    alloc: Global,
    entry: &DirEntry<R>,
) -> io::Result<(String, Kind)>
    ensures { IfOk result (λ e. string_bytes e.0 ≡ dir_entry_name entry.now) }
{
    let kind = kind_of(entry.file_type()?);
    Ok((String::from_str(alloc, entry.file_name())?, kind))
}

/// Whether an error says that the path leads to nothing.
fn leads_nowhere(kind: ErrorKind) -> bool {
    matches!(
        kind,
        ErrorKind::NotFound
            | ErrorKind::NotADirectory
            | ErrorKind::FilesystemLoop
            | ErrorKind::InvalidFilename
    )
}

/// The answer of a look-up, or `None` if its error says that the path leads to nothing.
fn unless_nowhere<T>(found: io::Result<T>) -> io::Result<Option<T>> {
    match found {
        Ok(found) => Ok(Some(found)),
        Err(error) => {
            if leads_nowhere(error.kind()) {
                Ok(None)
            } else {
                Err(error)
            }
        }
    }
}
