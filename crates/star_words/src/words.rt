//! The label that a path or a label on the command line names.

ghost use Rattle.std.specs.Prelude.{◌≡◌, IfOk, IfErr, MatchOption, option_map, true};
ghost use Rattle.star_label.specs.Label.{is_package, parts};
ghost use Rattle.star_label.specs.View.{text_of};
ghost use Rattle.star_words.specs.Named.{AreNamed, Names, OneIsUnnamed, texts_of};
ghost use Rattle.star_words.specs.Words.{Leads, folders_of, label_of_path, led, led_by, path_named};

use star_label::error::LabelError;
use star_label::label::Label;
use std::alloc::{AllocError, Global};

/// Follows a part of a path: an empty part and `.` stay in the folder, `..` goes up. False if it leads out of the top.
fn enter<'a>(folders: &mut Vec<&'a str>, part: &'a str) -> Result<bool, AllocError>
    ensures { IfOk result (λ there.
        Leads (led (folders_of folders.old.items) part.now) there (folders_of folders.new.items)) }
{
    if part == "" || part == "." {
        return Ok(true);
    }
    if part == ".." {
        return Ok(folders.pop().is_some());
    }
    folders.push(part)?;
    Ok(true)
}

/// Follows a path.
fn enter_all<'a>(folders: &mut Vec<&'a str>, path: &'a str) -> Result<bool, AllocError>
    ensures { IfOk result (λ there.
        Leads (led_by (folders_of folders.old.items) (parts path.now)) there (folders_of folders.new.items)) }
{
    let mut rest = path;
    while let Some((first, more)) = rest.split_once('/') {
        if !enter(folders, first)? {
            return Ok(false);
        }
        rest = more;
    }
    enter(folders, rest)
}

/// The label of the file that a path leads to from the folder of the package `here`, if it lies below the top and its
/// folders and its name are segments.
pub fn label_of(alloc: Global, here: &str, path: &str) -> Result<Option<Label>, LabelError>
    ensures label { IfOk result (λ o. option_map text_of o ≡ label_of_path here.now path.now) }
    ensures only { IfErr result (λ e. e ≡ LabelError.Memory) }
{
    let mut folders = Vec::new(alloc);
    if !enter_all(&mut folders, here)? {
        return Ok(None);
    }
    if !enter_all(&mut folders, path)? {
        return Ok(None);
    }
    let Some(name) = folders.pop() else {
        return Ok(None);
    };
    match Label::at(alloc, folders.as_slice(), name) {
        Ok(label) => Ok(Some(label)),
        Err(LabelError::BadLabel) => Ok(None),
        Err(_) => Err(LabelError::Memory),
    }
}

/// The label that a word of the command line names in the package `here`: the word is a label, or else a path that leads
/// to a file, which does not begin with a slash.
pub fn label_of_word(alloc: Global, here: &str, word: &str) -> Result<Option<Label>, LabelError>
    requires { is_package «here».now ≡ true }
    ensures label { IfOk result (λ o. Names here.now word.now (option_map text_of o)) }
    ensures only { IfErr result (λ e. e ≡ LabelError.Memory) }
{
    match Label::read(alloc, word, here) {
        Ok(label) => Ok(Some(label)),
        Err(LabelError::BadLabel) => label_below(alloc, here, word),
        Err(_) => Err(LabelError::Memory),
    }
}

/// The label of the file that a path leads to, which does not begin with a slash.
fn label_below(alloc: Global, here: &str, path: &str) -> Result<Option<Label>, LabelError>
    ensures label { IfOk result (λ o. option_map text_of o ≡ path_named here.now path.now) }
    ensures only { IfErr result (λ e. e ≡ LabelError.Memory) }
{
    if path.starts_with('/') {
        return Ok(None);
    }
    label_of(alloc, here, path)
}

/// The texts of the labels that words name in the package `here`. `None` if one names no label.
pub fn labels_of_words(
    alloc: Global,
    here: &str,
    words: &[String],
) -> Result<Option<Vec<String>>, LabelError>
    requires { is_package «here».now ≡ true }
    ensures labels { IfOk result (λ o. MatchOption o (OneIsUnnamed here.now (texts_of words.now))
        (λ ls. AreNamed here.now (texts_of words.now) (texts_of ls.items))) }
    ensures only { IfErr result (λ e. e ≡ LabelError.Memory) }
{
    let mut labels = Vec::new(alloc);
    for word in words {
        let Some(label) = label_of_word(alloc, here, word.as_str())? else {
            return Ok(None);
        };
        labels.push(String::from_str(alloc, label.text())?)?;
    }
    Ok(Some(labels))
}
