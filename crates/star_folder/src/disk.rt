//! A `Folder` of a disk.

ghost use Rattle.std.specs.Prelude.{◌≡◌, ◌⊎◌, ◌+◌, ◌^◌, Err, IfOk, map, string_bytes};
ghost use Rattle.star_label.specs.Label.{name_of};
ghost use Rattle.star_label.specs.View.{text_of};
ghost use Rattle.star_folder.specs.Disk.{IsOfMemory, file_at};
ghost use Rattle.star_folder.specs.Drive.{contents_at};
ghost use Rattle.star_folder.specs.Folder.{Reads, Says, entry_of, has_failed};

use crate::folder::{FRONT, Folder, FolderError, Kind};
use crate::path::inside;
use crate::system::Disk;
use star_label::label::Label;
use std::alloc::{AllocError, Global};
use std::collections::BTreeMap;
use std::io::{self, ErrorKind};

/// The folder at a path of a disk: it holds what the disk tells of the paths in it. It counts its failures. A name that
/// is not UTF-8 makes the listing of its folder fail. A link is neither a file nor a folder, but the path itself may be
/// one.
#[derive(Drop)]
pub struct DiskFolder<'a, D> {
    disk: &'a D,
    top: &'a str,
    failed_listings: u64,
    failed_reads: u64,
}

impl<'a, D> DiskFolder<'a, D> {
    /// The folder at this path. Nothing has failed yet.
    pub fn new(disk: &'a D, top: &'a str) -> Self
        ensures disk { result.disk.now ≡ disk.now }
        ensures top { result.top.now ≡ top.now }
        ensures listings { result.failed_listings ≡ 0 }
        ensures reads { result.failed_reads ≡ 0 }
    {
        DiskFolder {
            disk,
            top,
            failed_listings: 0,
            failed_reads: 0,
        }
    }
}

impl<'a, D: Disk> Folder for DiskFolder<'a, D> {
    ghost holds = { λ s. contents_at (D.holds s.disk.now) s.top.now };

    ghost failed_listings = { λ s. s.failed_listings };

    ghost failed_reads = { λ s. s.failed_reads };

    fn list(&mut self, alloc: Global, path: &str) -> Result<BTreeMap<String, Kind>, FolderError> {
        match entries_of(alloc, self.disk, self.top, path) {
            Ok(entries) => Ok(entries),
            Err(error) => counted(error, &mut self.failed_listings),
        }
    }

    fn read(&mut self, alloc: Global, label: &Label) -> Result<Vec<u8>, FolderError> {
        match front_of(alloc, self.disk, self.top, label) {
            Ok(bytes) => Ok(bytes),
            Err(error) => counted(error, &mut self.failed_reads),
        }
    }
}

/// The error of a call that the disk refused: `Memory` if an allocation failed, else `Failed`.
pub fn refused(error: io::Error) -> FolderError
    ensures memory { result ≡ FolderError.Memory → IsOfMemory error }
    ensures failed { result ≡ FolderError.Failed → IsOfMemory error → ⊥ }
{
    if error.kind() == ErrorKind::OutOfMemory {
        FolderError::Memory
    } else {
        FolderError::Failed
    }
}

/// The result of a call that the disk refused, for a caller that counts its failures: `Memory` if an allocation failed,
/// which is not counted, or if the count is full; else `Failed`, which is counted.
pub fn counted<T>(error: io::Error, failures: &mut u64) -> Result<T, FolderError>
    ensures none { IfOk result (λ _. ⊥) }
    ensures memory { result ≡ Err FolderError.Memory → IsOfMemory error ⊎ failures.old + 1 ≡ 2 ^ 64 }
    ensures failed { result ≡ Err FolderError.Failed → IsOfMemory error → ⊥ }
    ensures failures { failures.new ≡ failures.old + has_failed result }
{
    let why = refused(error);
    if why == FolderError::Failed {
        match failures.checked_add(1) {
            Some(more) => *failures = more,
            None => return Err(FolderError::Memory),
        }
    }
    Err(why)
}

/// Lists a folder of the folder at `top`.
fn entries_of<D: Disk>(
    alloc: Global,
    disk: &D,
    top: &str,
    path: &str,
) -> io::Result<BTreeMap<String, Kind>>
    ensures { IfOk result (λ m. Says ((contents_at (D.holds disk.now) top.now).entries path.now) (map entry_of m.entries)) }
{
    let path = inside(alloc, top, path)?;
    let found = disk.list(alloc, path.as_str())?;
    if !found.are_all {
        return Err(io::Error::from(ErrorKind::InvalidFilename));
    }
    Ok(found.named)
}

/// Where the file of a label lies in the folder at `top`.
pub fn path_of(alloc: Global, top: &str, label: &Label) -> Result<String, AllocError>
    ensures { IfOk result (λ path. string_bytes path ≡ file_at top.now (text_of label.now)) }
{
    let mut path = inside(alloc, top, label.package())?;
    path.push('/')?;
    path.push_str(name_of(label))?;
    Ok(path)
}

/// The name of a label: the text after its colon.
pub fn name_of(label: &Label) -> &str
    ensures { result.now ≡ name_of (text_of label.now) }
{
    match label.text().split_once(':') {
        Some((_, name)) => name,
        None => "",
    }
}

/// The first 1,048,577 bytes of the file of a label in the folder at `top`.
fn front_of<D: Disk>(alloc: Global, disk: &D, top: &str, label: &Label) -> io::Result<Vec<u8>>
    ensures { IfOk result (λ bytes. Reads ((contents_at (D.holds disk.now) top.now).bytes (text_of label.now)) bytes.items) }
{
    let path = path_of(alloc, top, label)?;
    match disk.size(path.as_str())? {
        Some(size) => disk.read(alloc, path.as_str(), FRONT, size),
        None => Err(io::Error::from(ErrorKind::NotFound)),
    }
}
