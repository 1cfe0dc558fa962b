//! The trait `Repo`: finds a file by its label, and says by ghost members which files it has.

ghost use Rattle.std.specs.Prelude.{◌≡◌, ℕ, ◌+◌, IfOk, option_map};
ghost use Rattle.star_label.specs.View.{text_of};
ghost use Rattle.star_folder.specs.Folder.{has_failed};
ghost use Rattle.star_repo.specs.Held.{Said, TellsFront};

use star_folder::folder::FolderError;
use star_label::label::Label;
use std::alloc::Global;

/// A folder whose files are found by their labels. Nothing of it is listed.
pub trait Repo {
    /// For each label, as the folder tells: the text of a file, or no file.
    ghost says: { Self → Said };

    /// How many of its reads have failed.
    ghost failed: { Self → ℕ };

    /// The text of the file at a label, without the byte order mark at its front: all of it, or its first 1,048,577
    /// bytes if it has more. `None` if there is no file at the label.
    fn find(&mut self, alloc: Global, label: &Label) -> Result<Option<Vec<u8>>, FolderError>
        ensures tells { IfOk result (λ found. TellsFront (says self.old (text_of label.now))
            (option_map (λ bytes. bytes.items) found)) }
        ensures same { says self.new ≡ says self.old }
        ensures failed { failed self.new ≡ failed self.old + has_failed result };
}
