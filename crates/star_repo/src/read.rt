//! Reads the file of one label, and refuses it if it is one too many, too long or not text.

ghost use Rattle.std.specs.Prelude.{◌≡◌, ◌≢◌, ◌+◌, ◌<◌, ◌≤◌, None, Some, IfOk, IfErr, length, string_bytes, vec_len};
ghost use Rattle.std.specs.Str.{IsUtf8};
ghost use Rattle.star_repo.specs.Held.{Tells, TellsFront};
ghost use Rattle.star_repo.specs.Refusal.{Refuses};
ghost use Rattle.star_repo.specs.Views.{AllRead, FailsAt, FailsAtNew, LooksUp, LooksUpNew, reads_failed};

use crate::error::ReadError;
use crate::found::Found;
use crate::repo::Repo;
use star_bundle::error::ServeError;
use star_folder::folder::FolderError;
use star_label::label::Label;
use std::alloc::Global;

/// The most files.
const FILES: usize = 10_000;

/// The most bytes of a text.
const BYTES: usize = 1_048_576;

/// The most bytes of all texts.
const ALL_BYTES: usize = 268_435_456;

/// The text of a file with these bytes, read after `count` files of `size` bytes together. Refused as `TooMany`,
/// `TooLong`, `NotText`, `TooBig`, whichever comes first.
pub(crate) fn passed(count: usize, size: usize, bytes: Vec<u8>) -> Result<String, ServeError>
    requires count { count ≤ 10000 }
    requires size { size ≤ 268435456 }
    ensures text { IfOk result (λ text. string_bytes text ≡ bytes.items) }
    ensures few { IfOk result (λ text. count < 10000) }
    ensures short { IfOk result (λ text. length bytes.items ≤ 1048576) }
    ensures is_text { IfOk result (λ text. IsUtf8 bytes.items) }
    ensures small { IfOk result (λ text. size + length bytes.items ≤ 268435456) }
    ensures refused { IfErr result (Refuses count size bytes.items) }
    ensures read { IfErr result (λ e. e ≢ ServeError.BadFile) }
{
    if count == FILES {
        return Err(ServeError::TooMany);
    }
    if bytes.len() > BYTES {
        return Err(ServeError::TooLong);
    }
    let Ok(text) = String::from_utf8(bytes) else {
        return Err(ServeError::NotText);
    };
    if text.as_str().len() > ALL_BYTES - size {
        return Err(ServeError::TooBig);
    }
    Ok(text)
}

/// There is no file at a label.
fn without_file<'t>(found: Found<'t>, label: Label) -> Result<Found<'t>, ReadError>
    ensures on_way { IfOk result (LooksUpNew found.entry label (λ told. Tells told None)) }
    ensures memory { IfErr result (λ e. e ≡ ReadError.Memory) }
    ensures read { IfOk result (λ after. AllRead found.entry.looked → AllRead after.looked) }
    ensures count { IfOk result (λ after. after.count ≡ found.entry.count) }
    ensures fresh { IfOk result (λ after. vec_len after.fresh ≡ vec_len found.entry.fresh) }
{
    let Found {
        mut looked,
        fresh,
        count,
        size,
    } = found;
    looked.insert(label, None)?;
    Ok(Found {
        looked,
        fresh,
        count,
        size,
    })
}

/// The file of a label begins with these bytes.
fn with_file<'t>(found: Found<'t>, label: Label, bytes: Vec<u8>) -> Result<Found<'t>, ReadError>
    ensures on_way { IfOk result (LooksUpNew found.entry label (λ told. TellsFront told (Some bytes.items))) }
    ensures refused { IfErr result (FailsAtNew found.entry label (λ told. TellsFront told (Some bytes.items))) }
    ensures no_read_failed { reads_failed result ≡ 0 }
    ensures read { IfOk result (λ after. AllRead found.entry.looked → AllRead after.looked) }
    ensures count { IfOk result (λ after. after.count ≡ found.entry.count + 1) }
    ensures fresh { IfOk result (λ after. vec_len after.fresh ≡ vec_len found.entry.fresh + 1) }
{
    let Found {
        looked,
        mut fresh,
        count,
        size,
    } = found;
    let text = match passed(count, size, bytes) {
        Ok(text) => text,
        Err(error) => return Err(ReadError::Refused { label, error }),
    };
    let bytes = text.len();
    fresh.push((label, text))?;
    Ok(Found {
        looked,
        fresh,
        count: count + 1,
        size: size + bytes,
    })
}

/// Looks up a label, unless that was done.
pub(crate) fn after_label<'t, F: Repo>(
    alloc: Global,
    folder: &mut F,
    found: Found<'t>,
    label: Label,
) -> Result<Found<'t>, ReadError>
    ensures on_way { IfOk result (LooksUp (F.says folder.old) found.entry label) }
    ensures refused { IfErr result (FailsAt (F.says folder.old) found.entry label) }
    ensures read { IfOk result (λ after. AllRead found.entry.looked → AllRead after.looked) }
    ensures counted { IfOk result (λ after.
        after.count + vec_len found.entry.fresh ≡ found.entry.count + vec_len after.fresh) }
    ensures same { F.says folder.new ≡ F.says folder.old }
    ensures failed { F.failed folder.new ≡ F.failed folder.old + reads_failed result }
{
    if found.looked.contains_key(&label) {
        return Ok(found);
    }
    match folder.find(alloc, &label) {
        Ok(Some(bytes)) => with_file(found, label, bytes),
        Ok(None) => without_file(found, label),
        Err(FolderError::Failed) => Err(ReadError::Refused {
            label,
            error: ServeError::BadFile,
        }),
        Err(FolderError::Memory) => Err(ReadError::Memory),
    }
}
