//! Where a folder of a disk is, and what is of it by where the paths below it lead.

ghost use Rattle.std.specs.Prelude.{◌≡◌, IfOk, IfSome, None, drop, false, length, string_bytes, true};
ghost use Rattle.star_label.specs.View.{text_of};
ghost use Rattle.star_repo.specs.Below.{belongs, inner_of, is_direct, is_within};

use star_folder::disk::name_of;
use star_folder::path::inside;
use star_label::label::Label;
use star_words::pattern::Apart;
use std::alloc::{AllocError, Global};

/// Which links are followed below the folder.
#[derive(Clone, Copy, Debug, PartialEq, Eq)]
pub enum Links {
    /// Those that lead to a file of the folder.
    Inside,
    /// All.
    Anywhere,
    /// None.
    Never,
}

/// Where a folder is: the path by which it was named, its real path, which has no links, and which links are followed
/// below it.
#[derive(Clone, Copy, Debug)]
pub struct Top<'a> {
    pub path: &'a str,
    pub real: &'a str,
    pub links: Links,
}

/// What follows the path of a folder in a path to it or below it; `None` if the path does not lead there.
fn rest_within<'p>(folder: &[u8], path: &'p [u8]) -> Option<&'p [u8]>
    ensures none { result ≡ None → is_within folder.now path.now ≡ false }
    ensures some { IfSome result (λ rest. (is_within folder.now path.now ≡ true) × (rest.now ≡ drop (length folder.now) path.now)) }
{
    let rest = path.strip_prefix(folder)?;
    if rest.is_empty() || rest.starts_with(b"/") || folder.ends_with(b"/") {
        Some(rest)
    } else {
        None
    }
}

/// Whether a path is that of a folder, or of what lies below it.
fn is_within(folder: &str, path: &str) -> bool
    ensures { result ≡ is_within folder.now path.now }
{
    rest_within(folder.as_bytes(), path.as_bytes()).is_some()
}

/// Whether a path in a folder leads there by itself, over no link.
fn is_direct(folder: &str, inner: &str, real: &str) -> bool
    ensures { result ≡ is_direct folder.now inner.now real.now }
{
    match rest_within(folder.as_bytes(), real.as_bytes()) {
        Some(rest) => rest.strip_prefix(b"/").unwrap_or(rest) == inner.as_bytes(),
        None => false,
    }
}

impl<'a> Top<'a> {
    /// Why what has this real path is not of the folder, though a path in it leads there; `None` if it is of it.
    pub(crate) fn apart_by(self, inner: &str, real: &str) -> Option<Apart>
        ensures none { result ≡ None → belongs self.entry.links self.entry.real.now inner.now real.now ≡ true }
        ensures some { IfSome result (λ _. belongs self.entry.links self.entry.real.now inner.now real.now ≡ false) }
    {
        if is_within("/proc", real) {
            return Some(Apart::System);
        }
        match self.links {
            Links::Anywhere => None,
            _ if !is_within(self.real, real) => Some(Apart::Outside),
            Links::Inside => None,
            Links::Never if is_direct(self.real, inner, real) => None,
            Links::Never => Some(Apart::Linked),
        }
    }
}

/// The path of the file of a label in its folder.
pub(crate) fn inner_of(alloc: Global, label: &Label) -> Result<String, AllocError>
    ensures { IfOk result (λ path. string_bytes path ≡ inner_of (text_of label.now)) }
{
    inside(alloc, label.package(), name_of(label))
}
