//! The folder, the file or the word that the refusal of a folder's files is about.

ghost use Rattle.std.specs.Prelude.{◌≡◌};

use crate::words::about_words;
use star_folder::folder::{Folder, FolderError, Kind};
use star_folder::walk::files_in;
use star_label::label::Label;
use star_mistakes::place::shown;
use std::alloc::{AllocError, Global};
use std::collections::BTreeMap;

/// A folder, with the path or the label that was asked for last.
#[derive(Drop)]
struct Followed<'a, F> {
    folder: &'a mut F,
    last: Option<String>,
}

impl<'a, F: Folder> Folder for Followed<'a, F> {
    ghost holds = { λ s. F.holds s.folder.now };

    ghost failed_listings = { λ s. F.failed_listings s.folder.now };

    ghost failed_reads = { λ s. F.failed_reads s.folder.now };

    fn list(&mut self, alloc: Global, path: &str) -> Result<BTreeMap<String, Kind>, FolderError> {
        self.last = String::from_str(alloc, path).ok();
        self.folder.list(alloc, path)
    }

    fn read(&mut self, alloc: Global, label: &Label) -> Result<Vec<u8>, FolderError> {
        self.last = String::from_str(alloc, label.text()).ok();
        self.folder.read(alloc, label)
    }
}

/// Lines about a refusal of the files of a folder, or of the words of the command line that name them. They name the
/// folder or file that stops the walk, or the word, and the label that was probably meant.
pub fn about_folder<F: Folder>(
    alloc: Global,
    folder: &mut F,
    roots: &[String],
    prelude: Option<&String>,
) -> Result<String, AllocError> {
    let mut followed = Followed { folder, last: None };
    if let Ok(files) = files_in(alloc, &mut followed) {
        return about_words(alloc, &files, roots, prelude);
    }
    match followed.last {
        Some(last) if !last.is_empty() => {
            let last = shown(alloc, last.as_str())?;
            format!(in alloc; "  at {last}\n")
        }
        _ => Ok(String::new(alloc)),
    }
}
