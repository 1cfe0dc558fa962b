//! The files as an editor has them: an open text stands for the disk's.

ghost use Rattle.std.specs.Prelude.{◌≡◌, option_map};
ghost use Rattle.star_lsp.specs.Overlay.{open_at, said_over};

use star_folder::folder::{FolderError, Kind};
use star_label::label::Label;
use star_repo::mark::front_of;
use star_repo::repo::Repo;
use star_text::Text;
use star_words::pattern::{Apart, Listing};
use std::alloc::{AllocError, Global};
use std::collections::BTreeMap;

/// A text that is open in the editor.
#[derive(Drop)]
pub(crate) struct OpenText {
    /// The URI by which the client knows it.
    uri: String,
    /// The text of its label.
    label: String,
    text: Text,
}

/// A folder below the open texts of an editor.
#[derive(Drop)]
pub(crate) struct Overlay<F> {
    texts: Vec<OpenText>,
    folder: F,
}

/// The first text that is open at a label.
fn open_text<'a>(texts: &'a [OpenText], label: &str) -> Option<&'a str>
    ensures { option_map (λ text. text.now) result ≡ open_at label.now texts.now }
{
    for open in texts {
        if open.label.as_str() == label {
            return Some(open.text.as_str());
        }
    }
    None
}

impl<F: Repo> Repo for Overlay<F> {
    ghost says = { λ s. said_over s.texts.items (F.says s.folder) };

    ghost failed = { λ s. F.failed s.folder };

    fn find(&mut self, alloc: Global, label: &Label) -> Result<Option<Vec<u8>>, FolderError> {
        match open_text(self.texts.as_slice(), label.text()) {
            Some(text) => Ok(Some(front_of(alloc, text.as_bytes())?)),
            None => self.folder.find(alloc, label),
        }
    }
}

impl<F: Listing> Listing for Overlay<F> {
    fn entries(
        &mut self,
        alloc: Global,
        path: &str,
    ) -> Result<BTreeMap<String, Kind>, FolderError> {
        self.folder.entries(alloc, path)
    }

    fn apart(&self, alloc: Global, label: &Label) -> Option<Apart> {
        self.folder.apart(alloc, label)
    }
}

impl<F> Overlay<F> {
    /// A folder, with no text open.
    pub(crate) fn new(alloc: Global, folder: F) -> Overlay<F> {
        Overlay {
            texts: Vec::new(alloc),
            folder,
        }
    }

    /// Opens a text at a label, in place of one with the same URI.
    pub(crate) fn open(
        &mut self,
        alloc: Global,
        uri: &str,
        label: &Label,
        text: Text,
    ) -> Result<(), AllocError> {
        self.close(uri);
        let open = OpenText {
            uri: String::from_str(alloc, uri)?,
            label: String::from_str(alloc, label.text())?,
            text,
        };
        self.texts.push(open)?;
        Ok(())
    }

    /// Closes the text with a URI.
    pub(crate) fn close(&mut self, uri: &str) {
        self.texts.retain(|open| open.uri.as_str() != uri);
    }
}
