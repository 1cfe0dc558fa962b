//! The path of a folder, from the top of a walk.

ghost use Rattle.std.specs.Prelude.{◌≡◌, [], true, IfOk, string_bytes};
ghost use Rattle.star_label.specs.Label.{is_package, is_segment, with_folder};

use std::alloc::{AllocError, Global};

/// The path of a folder from the top down, which is the package of its files: empty, or segments joined by `/`.
#[derive(Debug, Drop)]
pub(crate) struct FolderPath {
    text: String,
    ghost in_form: { is_package (string_bytes text) ≡ true },
}

impl FolderPath {
    ghost use Rattle.star_folder.specs.Views.{path_of};

    /// The path of the top.
    pub(crate) fn top(alloc: Global) -> FolderPath
        ensures { path_of result ≡ [] }
    {
        FolderPath {
            text: String::new(alloc),
        }
    }

    /// The path of a folder in this one.
    pub(crate) fn inside(&self, alloc: Global, name: &str) -> Result<FolderPath, AllocError>
        requires { is_segment name.now ≡ true }
        ensures { IfOk result (λ p. path_of p ≡ with_folder (path_of self.now) name.now) }
    {
        let text = inside(alloc, self.text.as_str(), name)?;
        Ok(FolderPath { text })
    }

    /// Its text.
    pub(crate) fn text(&self) -> &str
        ensures text { result.now ≡ path_of self.now }
        ensures in_form { is_package result.now ≡ true }
    {
        self.text.as_str()
    }
}

/// The path of a folder in the folder at a path: its name alone where that is the top.
pub fn inside(alloc: Global, path: &str, name: &str) -> Result<String, AllocError>
    ensures { IfOk result (λ t. string_bytes t ≡ with_folder path.now name.now) }
{
    if path == "" {
        return String::from_str(alloc, name);
    }
    let mut text = String::from_str(alloc, path)?;
    text.push('/')?;
    text.push_str(name)?;
    Ok(text)
}
