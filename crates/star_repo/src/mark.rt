//! The byte order mark at the front of a file, which does not belong to its text, and the number of bytes that are read
//! of a file.

ghost use Rattle.std.specs.Prelude.{◌≡◌, IfOk, take};
ghost use Rattle.star_repo.specs.Held.{unmarked};

use std::alloc::{AllocError, Global};

/// The most bytes that are read of a text: one more than a text may have.
pub(crate) const FRONT: usize = 1_048_577;

/// The most bytes that are read of a file: those of a text, and a mark before them.
pub(crate) const FRONT_OF_FILE: usize = 1_048_580;

/// The byte order mark, in UTF-8.
pub(crate) const MARK: [u8; 3] = [0xef, 0xbb, 0xbf];

/// The text of a file's bytes: a byte order mark at the front does not belong to it.
pub(crate) fn unmarked(bytes: &[u8]) -> &[u8]
    ensures { result.now ≡ unmarked bytes.now }
{
    match bytes.strip_prefix(MARK.as_slice()) {
        Some(text) => text,
        None => bytes,
    }
}

/// The first 1,048,577 bytes of a text.
pub fn front_of(alloc: Global, text: &[u8]) -> Result<Vec<u8>, AllocError>
    ensures { IfOk result (λ front. front.items ≡ take 1048577 text.now) }
{
    let front = Vec::from_slice(alloc, &text[..text.len().min(FRONT)])?;
    Ok(front)
}
