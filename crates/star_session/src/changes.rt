//! The files after changes.
//!
//! If each change gives a text to a file that is there, the files after share all other texts with those before.
//! Otherwise they are made anew.

ghost use Rattle.std.specs.Prelude.{◌≡◌, true, IfOk, IfSome, IsSome, OnOk, map, option_map, string_bytes};
ghost use Rattle.star_bundle.specs.Bundle.{within_limits};
ghost use Rattle.star_bundle.specs.Refusal.{Gives};
ghost use Rattle.star_label.specs.Files.{file_of, limit_passed};
ghost use Rattle.star_label.specs.View.{text_of};
ghost use Rattle.star_memo.specs.Outcomes.{HaveLabels};
ghost use Rattle.star_session.specs.Changes as spec;
ghost use Rattle.star_session.specs.Changes.{AreTexts, HasFile, change_of};

use star_bundle::error::ServeError;
use star_label::error::LabelError;
use star_label::files::Files;
use star_label::label::Label;
use std::alloc::{AllocError, Global};
use std::collections::BTreeMap;

/// A copy of a label.
fn copied(alloc: Global, label: &Label) -> Result<Label, AllocError>
    ensures { IfOk result (λ copy. text_of copy ≡ text_of label.now) }
{
    match Label::read(alloc, label.text(), "") {
        Ok(label) => Ok(label),
        Err(LabelError::Memory) => Err(AllocError),
        Err(_) => unreachable!(),
    }
}

/// The texts of files by their labels.
fn texts_of(alloc: Global, files: &Files) -> Result<BTreeMap<Label, String>, AllocError>
    ensures { IfOk result (λ texts. map file_of texts.entries ≡ files.now) }
{
    let mut texts = BTreeMap::new(alloc);
    for n in 0..files.len() {
        let text = String::from_str(alloc, files.text(n))?;
        texts.insert(copied(alloc, files.label(n))?, text)?;
    }
    Ok(texts)
}

/// The same files, with labels and texts of their own. None if an allocation failed.
pub(crate) fn copy_of(alloc: Global, files: &Files) -> Option<Files>
    ensures { IfSome result (λ copy. copy ≡ files.now) }
{
    let texts = texts_of(alloc, files).ok()?;
    Files::new(alloc, texts).ok()
}

/// Puts the text of a change in its place, or takes the file away.
fn change(
    texts: &mut BTreeMap<Label, String>,
    label: Label,
    change: Option<String>,
) -> Result<(), AllocError>
    ensures { OnOk result (map file_of texts.new.entries
        ≡ spec.changed (map file_of texts.old.entries) (text_of label) (option_map string_bytes change)) }
{
    match change {
        Some(text) => {
            texts.insert(label, text)?;
        }
        None => {
            texts.remove(&label);
        }
    }
    Ok(())
}

/// The texts after changes, one after another.
fn changed(
    alloc: Global,
    files: &Files,
    changes: Vec<(Label, Option<String>)>,
) -> Result<BTreeMap<Label, String>, AllocError>
    ensures { IfOk result (λ texts.
        map file_of texts.entries ≡ spec.files_after files.now (map change_of changes.items)) }
{
    let mut texts = texts_of(alloc, files)?;
    for (label, text) in changes {
        change(&mut texts, label, text)?;
    }
    Ok(texts)
}

/// Whether a file is already as a change leaves it.
fn is_as(files: &Files, label: &Label, text: &Option<String>) -> bool
    ensures { result ≡ true
        → spec.changed files.now (text_of label.now) (option_map string_bytes text.now) ≡ files.now }
{
    let count = files.len();
    match (files.find(label), text) {
        (Some(n), Some(text)) => n < count && files.text(n) == text.as_str(),
        (None, None) => true,
        _ => false,
    }
}

/// Whether changes leave the files as they are.
pub(crate) fn are_as(files: &Files, changes: &[(Label, Option<String>)]) -> bool
    ensures { result ≡ true → spec.files_after files.now (map change_of changes.now) ≡ files.now }
{
    for change in changes {
        if !is_as(files, &change.0, &change.1) {
            return false;
        }
    }
    true
}

/// Whether a change gives a text to a file that is there.
fn gives_text(files: &Files, label: &Label, text: &Option<String>) -> bool
    ensures file { result ≡ true → HasFile files.now (text_of label.now) }
    ensures text { result ≡ true → IsSome text.now }
{
    text.is_some() && files.find(label).is_some()
}

/// Whether each change gives a text to a file that is there.
fn are_texts(files: &Files, changes: &[(Label, Option<String>)]) -> bool
    ensures { result ≡ true → AreTexts files.now changes.now }
{
    for change in changes {
        if !gives_text(files, &change.0, &change.1) {
            return false;
        }
    }
    true
}

/// Gives a text to the file with a label. The error: an allocation failed.
fn set(
    alloc: Global,
    files: &mut Files,
    label: &Label,
    text: Option<String>,
) -> Result<(), AllocError>
    requires file { HasFile files.old (text_of label.now) }
    requires text { IsSome text }
    ensures changed { OnOk result
        (files.new ≡ spec.changed files.old (text_of label.now) (option_map string_bytes text)) }
    ensures labels { OnOk result (HaveLabels files.old files.new) }
{
    // Its length says that the files are in order.
    let _ = files.len();
    let Some(n) = files.find(label) else {
        unreachable!()
    };
    let Some(text) = text else { unreachable!() };
    files.set_text(alloc, n, text)?;
    Ok(())
}

/// The files after changes that give texts to some of them. They share all other texts with those before. The error: an
/// allocation failed.
fn with_texts(
    alloc: Global,
    before: &Files,
    changes: Vec<(Label, Option<String>)>,
) -> Result<Files, AllocError>
    requires { AreTexts before.now changes.items }
    ensures { IfOk result (λ files. files ≡ spec.files_after before.now (map change_of changes.items)) }
{
    let mut files = before.again(alloc)?;
    for (label, text) in changes {
        set(alloc, &mut files, &label, text)?;
    }
    Ok(files)
}

/// These files, unless one of their texts is too long.
fn without_long_text(files: Files) -> Result<Files, ServeError>
    ensures files { IfOk result (λ same. same ≡ files) }
    ensures limits { Gives (λ same. same) result (within_limits files (limit_passed files)) }
{
    // Its length says that they are not too many.
    let _ = files.len();
    if files.has_long_text() {
        return Err(ServeError::TooLong);
    }
    Ok(files)
}

/// The files after changes.
pub(crate) fn files_after(
    alloc: Global,
    before: &Files,
    changes: Vec<(Label, Option<String>)>,
) -> Result<Files, ServeError>
    ensures files { IfOk result (λ files. files ≡ spec.files_after before.now (map change_of changes.items)) }
    ensures limits { let after = spec.files_after before.now (map change_of changes.items) in
        Gives (λ files. files) result (within_limits after (limit_passed after)) }
{
    if are_texts(before, changes.as_slice()) {
        return without_long_text(with_texts(alloc, before, changes)?);
    }
    match Files::new(alloc, changed(alloc, before, changes)?) {
        Ok(files) => Ok(files),
        Err(LabelError::TooMany) => Err(ServeError::TooMany),
        Err(LabelError::TooLong) => Err(ServeError::TooLong),
        Err(LabelError::Memory) => Err(ServeError::Memory),
        Err(LabelError::BadLabel) => unreachable!(),
    }
}
