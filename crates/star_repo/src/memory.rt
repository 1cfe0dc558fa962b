//! A `Repo` in memory, for tests and for callers who have the files at hand.

ghost use Rattle.std.specs.Prelude.{◌≡◌, option_map};
ghost use Rattle.star_repo.specs.Memory.{bytes_among, said_by};

use crate::mark::{front_of, unmarked};
use crate::repo::Repo;
use star_folder::folder::FolderError;
use star_label::label::Label;
use std::alloc::Global;

/// A file of a folder in memory.
#[derive(Clone, Copy, Debug)]
pub struct FileAt<'a> {
    /// The text of its label.
    pub label: &'a str,
    /// Its bytes.
    pub bytes: &'a [u8],
}

/// A folder with just these files. It says all that it holds, and no read of it fails.
#[derive(Clone, Copy)]
pub struct MemoryRepo<'a> {
    files: &'a [FileAt<'a>],
}

impl<'a> Repo for MemoryRepo<'a> {
    ghost says = { λ s. said_by s.files.now };

    ghost failed = { λ s. 0 };

    fn find(&mut self, alloc: Global, label: &Label) -> Result<Option<Vec<u8>>, FolderError> {
        let Some(bytes) = bytes_of(self.files, label.text()) else {
            return Ok(None);
        };
        Ok(Some(front_of(alloc, unmarked(bytes))?))
    }
}

/// The bytes of the first file at a label.
fn bytes_of<'a>(files: &'a [FileAt<'a>], label: &str) -> Option<&'a [u8]>
    ensures { option_map (λ bytes. bytes.now) result ≡ bytes_among label.now files.now }
{
    for file in files {
        if file.label == label {
            return Some(file.bytes);
        }
    }
    None
}

impl<'a> MemoryRepo<'a> {
    ghost use Rattle.star_repo.specs.Memory.{files_of};

    /// The folder with these files.
    pub fn new(files: &'a [FileAt<'a>]) -> Self
        ensures { files_of result ≡ files.now }
    {
        MemoryRepo { files }
    }
}
