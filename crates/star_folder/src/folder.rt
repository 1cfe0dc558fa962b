//! The trait `Folder`: lists folders and reads files, and its ghost members are its content.
//!
//! A listing is a map, so its order is its type's and no walk sorts.

ghost use Rattle.std.specs.Prelude.{◌≡◌, ℕ, ◌+◌, IfOk, map};
ghost use Rattle.star_label.specs.View.{text_of};
ghost use Rattle.star_folder.specs.Folder.{Contents, Reads, Says, entry_of, has_failed};
ghost use Rattle.star_folder.specs.declared.folder.FolderError.TheVariants.{Memory};

use star_label::label::Label;
use std::alloc::{AllocError, AllocFailed, Global};
use std::collections::BTreeMap;

/// The most bytes that are read of a file: one more than a text may have.
pub(crate) const FRONT: usize = 1_048_577;

/// The kind of an entry of a folder.
#[derive(Clone, Copy, Debug, PartialEq, Eq)]
pub enum Kind {
    /// A file.
    File,
    /// A folder.
    Folder,
    /// Something else, such as a link.
    Other,
}

/// Why a folder does not answer.
#[derive(Clone, Copy, Debug, PartialEq, Eq)]
pub enum FolderError {
    /// The call failed.
    Failed,
    /// An allocation failed.
    Memory,
}

/// A folder with files and folders in it.
pub trait Folder {
    /// Its content, if it tells.
    ghost holds: { Self → Contents };

    /// How many of its listings have failed.
    ghost failed_listings: { Self → ℕ };

    /// How many of its reads have failed.
    ghost failed_reads: { Self → ℕ };

    /// The entries of the folder at a path, by their names. The path has a slash between two folders. At the top it is
    /// empty.
    fn list(&mut self, alloc: Global, path: &str) -> Result<BTreeMap<String, Kind>, FolderError>
        ensures tells { IfOk result (λ m. Says ((holds self.old).entries path.now) (map entry_of m.entries)) }
        ensures same { holds self.new ≡ holds self.old }
        ensures listings { failed_listings self.new ≡ failed_listings self.old + has_failed result }
        ensures reads { failed_reads self.new ≡ failed_reads self.old };

    /// The bytes of the file of a label: all of them, or the first 1,048,577 if it has more.
    fn read(&mut self, alloc: Global, label: &Label) -> Result<Vec<u8>, FolderError>
        ensures tells { IfOk result (λ bytes. Reads ((holds self.old).bytes (text_of label.now)) bytes.items) }
        ensures same { holds self.new ≡ holds self.old }
        ensures listings { failed_listings self.new ≡ failed_listings self.old }
        ensures reads { failed_reads self.new ≡ failed_reads self.old + has_failed result };
}

impl From<AllocError> for FolderError {
    ghost from_gives = { λ _ e. e ≡ Memory };

    fn from(_error: AllocError) -> FolderError {
        FolderError::Memory
    }
}

impl<T: Drop> From<AllocFailed<T>> for FolderError {
    ghost from_gives = { λ _ e. e ≡ Memory };

    fn from(_error: AllocFailed<T>) -> FolderError {
        FolderError::Memory
    }
}
