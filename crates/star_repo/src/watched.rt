//! A `Repo` on the disk that keeps why labels have no file, if a path leads to one that is none of the folder.

ghost use Rattle.std.specs.Prelude.{◌≡◌, []};
ghost use Rattle.star_repo.specs.Below.{files_at};

use crate::disk::DiskRepo;
use crate::repo::Repo;
use star_folder::folder::FolderError;
use star_folder::system::Disk;
use star_label::label::Label;
use star_words::pattern::{Apart, Listing};
use std::alloc::Global;

/// A folder of the disk, and the first labels that it has no file for, by where their paths lead.
#[derive(Drop)]
pub struct WatchedRepo<'a, D> {
    folder: DiskRepo<'a, D>,
    /// The most labels that are kept.
    most: usize,
    apart: Vec<(Label, Apart)>,
}

impl<'a, D: Disk> WatchedRepo<'a, D> {
    /// This folder. It keeps at most `most` labels, and none yet.
    pub fn new(alloc: Global, folder: DiskRepo<'a, D>, most: usize) -> Self
        ensures folder { result.folder ≡ folder.entry }
        ensures most { result.most ≡ most }
        ensures none { result.apart.items ≡ [] }
    {
        WatchedRepo {
            folder,
            most,
            apart: Vec::new(alloc),
        }
    }

    /// The labels that were asked for, and have no file by where their paths lead, in the order in which they were asked
    /// for.
    pub fn apart(&self) -> &[(Label, Apart)]
        ensures { result.now ≡ self.now.apart.items }
    {
        self.apart.as_slice()
    }

    /// Keeps a label that has no file, if there is room, and its path leads to one.
    fn keep(&mut self, alloc: Global, label: &Label)
        ensures { self.new.folder ≡ self.old.folder }
    {
        if self.apart.len() >= self.most {
            return;
        }
        let Some(why) = self.folder.apart(alloc, label) else {
            return;
        };
        if let Ok(label) = Label::read(alloc, label.text(), "") {
            let _ = self.apart.push((label, why));
        }
    }
}

impl<'a, D: Disk> Repo for WatchedRepo<'a, D> {
    ghost says = { λ s. files_at (D.holds s.folder.disk.now) s.folder.top.path.now s.folder.top.real.now s.folder.top.links };

    ghost failed = { λ s. s.folder.failed };

    fn find(&mut self, alloc: Global, label: &Label) -> Result<Option<Vec<u8>>, FolderError> {
        match self.folder.find(alloc, label) {
            Ok(None) => {
                self.keep(alloc, label);
                Ok(None)
            }
            found => found,
        }
    }
}
