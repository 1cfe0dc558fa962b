//! A `Repo` of a disk: each file is found by its label.

ghost use Rattle.std.specs.Prelude.{◌≡◌, ⊤, IfOk, option_map, take};
ghost use Rattle.star_label.specs.View.{text_of};
ghost use Rattle.star_repo.specs.Below.{files_at, there};
ghost use Rattle.star_repo.specs.Held.{TellsFront, unmarked};

use crate::mark::{FRONT, FRONT_OF_FILE, MARK, front_of};
use crate::repo::Repo;
use crate::top::{Top, inner_of};
use star_folder::disk::{counted, path_of, refused};
use star_folder::folder::{FolderError, Kind};
use star_folder::system::Disk;
use star_label::label::Label;
use star_words::pattern::{Apart, Listing};
use std::alloc::{AllocError, Global};
use std::collections::BTreeMap;
use std::io;

/// The folder at a path of a disk: it has the files that the disk tells of, where links are followed so far, and none of
/// those below `/proc`. It counts its failures.
#[derive(Drop)]
pub struct DiskRepo<'a, D> {
    disk: &'a D,
    top: Top<'a>,
    failed: u64,
}

impl<'a, D> Copy for DiskRepo<'a, D> {}

impl<'a, D> Clone for DiskRepo<'a, D> {
    ghost is_clone = { λ x y. y ≡ x };

    ghost is_infallible = { λ _. ⊤ };

    fn clone(&self) -> Result<Self, AllocError> {
        Ok(*self)
    }
}

impl<'a, D> DiskRepo<'a, D> {
    /// The folder there. Nothing has failed yet.
    pub fn new(disk: &'a D, top: Top<'a>) -> Self
        ensures disk { result.disk.now ≡ disk.now }
        ensures top { result.top ≡ top.entry }
        ensures failed { result.failed ≡ 0 }
    {
        DiskRepo {
            disk,
            top,
            failed: 0,
        }
    }
}

impl<'a, D: Disk> Repo for DiskRepo<'a, D> {
    ghost says = { λ s. files_at (D.holds s.disk.now) s.top.path.now s.top.real.now s.top.links };

    ghost failed = { λ s. s.failed };

    fn find(&mut self, alloc: Global, label: &Label) -> Result<Option<Vec<u8>>, FolderError> {
        match found_of(alloc, self.disk, self.top, label) {
            Ok(found) => Ok(found),
            Err(error) => counted(error, &mut self.failed),
        }
    }
}

/// The text that the bytes of a file are, or its first 1,048,577 bytes.
fn text_in(alloc: Global, mut bytes: Vec<u8>) -> Result<Vec<u8>, AllocError>
    ensures { IfOk result (λ text. text.items ≡ take 1048577 (unmarked bytes.items)) }
{
    if let Some(text) = bytes.as_slice().strip_prefix(MARK.as_slice()) {
        return Ok(front_of(alloc, text)?);
    }
    bytes.truncate(FRONT);
    Ok(bytes)
}

/// The text of the file that a path leads to: its first bytes. `None` if it leads to no file.
fn read_at<D: Disk>(alloc: Global, disk: &D, path: &str) -> io::Result<Option<Vec<u8>>>
    ensures { IfOk result (λ found. TellsFront (option_map (option_map unmarked) ((D.holds disk.now).file path.now))
        (option_map (λ bytes. bytes.items) found)) }
{
    let size = disk.size(path)?;
    match size {
        Some(size) => {
            let bytes = disk.read(alloc, path, FRONT_OF_FILE, size)?;
            let text = text_in(alloc, bytes)?;
            Ok(Some(text))
        }
        None => Ok(None),
    }
}

/// The same, if what a path in the folder at `top` leads to is of the folder. `inner` is the path from the folder on.
fn found_at<D: Disk>(
    alloc: Global,
    disk: &D,
    top: Top<'_>,
    path: &str,
    inner: &str,
) -> io::Result<Option<Vec<u8>>>
    ensures { IfOk result (λ found. TellsFront
        (there top.entry.links top.entry.real.now inner.now
        ((D.holds disk.now).real path.now) ((D.holds disk.now).file path.now))
        (option_map (λ bytes. bytes.items) found)) }
{
    let real = disk.real(alloc, path)?;
    match real {
        Some(real) => match top.apart_by(inner, real.as_str()) {
            Some(_) => Ok(None),
            None => read_at(alloc, disk, path),
        },
        None => Ok(None),
    }
}

/// Looks the path of a label up in the folder at `top`: the first bytes of a text, or no file.
fn found_of<D: Disk>(
    alloc: Global,
    disk: &D,
    top: Top<'_>,
    label: &Label,
) -> io::Result<Option<Vec<u8>>>
    ensures { IfOk result (λ found. TellsFront
        (files_at (D.holds disk.now) top.entry.path.now top.entry.real.now top.entry.links (text_of label.now))
        (option_map (λ bytes. bytes.items) found)) }
{
    let path = path_of(alloc, top.path, label)?;
    let inner = inner_of(alloc, label)?;
    found_at(alloc, disk, top, path.as_str(), inner.as_str())
}

/// Why what a path in the folder at `top` leads to is not of the folder: `None` if it is, or if the path leads to
/// nothing.
fn apart_at<D: Disk>(
    alloc: Global,
    disk: &D,
    top: Top<'_>,
    path: &str,
    inner: &str,
) -> io::Result<Option<Apart>> {
    match disk.real(alloc, path)? {
        Some(real) => Ok(top.apart_by(inner, real.as_str())),
        None => Ok(None),
    }
}

/// The entries of the folder at a path in the folder at `top`, but those whose names are not UTF-8. There are none where
/// links lead that are not followed.
fn entries_of<D: Disk>(
    alloc: Global,
    disk: &D,
    top: Top<'_>,
    path: &str,
) -> io::Result<BTreeMap<String, Kind>> {
    let mut below = String::from_str(alloc, top.path)?;
    below.push('/')?;
    below.push_str(path)?;
    if path != "" && apart_at(alloc, disk, top, below.as_str(), path)?.is_some() {
        return Ok(BTreeMap::new(alloc));
    }
    Ok(disk.list(alloc, below.as_str())?.named)
}

impl<'a, D: Disk> Listing for DiskRepo<'a, D> {
    fn entries(
        &mut self,
        alloc: Global,
        path: &str,
    ) -> Result<BTreeMap<String, Kind>, FolderError> {
        entries_of(alloc, self.disk, self.top, path).map_err(refused)
    }

    fn apart(&self, alloc: Global, label: &Label) -> Option<Apart> {
        let path = path_of(alloc, self.top.path, label).ok()?;
        let inner = inner_of(alloc, label).ok()?;
        apart_at(alloc, self.disk, self.top, path.as_str(), inner.as_str()).ok()?
    }
}
