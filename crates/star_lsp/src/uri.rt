//! URIs of files, and the labels that they stand for: `file:///DIR/app/a.star` is `//app:a.star` of the folder `/DIR`.

use percent_encoding::{
    AsciiSet, DecodeError, NON_ALPHANUMERIC, percent_decode, utf8_percent_encode,
};
use star_folder::disk::name_of;
use star_folder::path::inside;
use star_label::label::Label;
use star_words::words::label_of;
use std::alloc::{AllocError, Global};

/// The characters of a path that a URI writes by their numbers.
fn escaped() -> AsciiSet {
    NON_ALPHANUMERIC
        .remove(b'/')
        .remove(b'-')
        .remove(b'.')
        .remove(b'_')
        .remove(b'~')
}

/// The path that a URI of a file names: `None` if it names none, or a path that is not UTF-8.
fn path_in(alloc: Global, uri: &str) -> Result<Option<String>, AllocError> {
    let Some(rest) = uri.strip_prefix("file://") else {
        return Ok(None);
    };
    let Some(at) = rest.find('/') else {
        return Ok(None);
    };
    let path = rest.get(at..).unwrap_or("");
    match percent_decode(path.as_bytes()).decode_utf8(alloc) {
        Ok(path) => Ok(Some(path.into_owned(alloc)?)),
        Err(DecodeError::OutOfMemory) => Err(AllocError),
        Err(_) => Ok(None),
    }
}

/// What follows a folder in the path of something below it.
fn below<'p>(root: &str, path: &'p str) -> Option<&'p str> {
    let root = root.strip_suffix('/').unwrap_or(root);
    path.strip_prefix(root)?.strip_prefix('/')
}

/// The label of the file that a URI names, in the folder with this real path: `None` if it is outside, or its path is no
/// label's.
pub fn label_in(alloc: Global, root: &str, uri: &str) -> Result<Option<Label>, AllocError> {
    let Some(path) = path_in(alloc, uri)? else {
        return Ok(None);
    };
    let Some(inner) = below(root, path.as_str()) else {
        return Ok(None);
    };
    match label_of(alloc, "", inner) {
        Ok(label) => Ok(label),
        Err(_) => Err(AllocError),
    }
}

/// The URI of the file of a label, in the folder with this real path.
pub fn uri_of(alloc: Global, root: &str, label: &Label) -> Result<String, AllocError> {
    let inner = inside(alloc, label.package(), name_of(label))?;
    let root = root.strip_suffix('/').unwrap_or(root);
    let mut uri = String::from_str(alloc, "file://")?;
    utf8_percent_encode(root, escaped()).append_to(&mut uri)?;
    uri.push('/')?;
    utf8_percent_encode(inner.as_str(), escaped()).append_to(&mut uri)?;
    Ok(uri)
}
