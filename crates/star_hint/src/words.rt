//! Words of the command line that name no file, and the label that each was probably meant for.

use star_bundle::bundle::{prelude_in, roots_in};
use star_bundle::error::ServeError;
use star_label::files::Files;
use star_label::label::Label;
use star_mistakes::near::nearest;
use star_mistakes::place::shown;
use star_words::words::label_of;
use std::alloc::{AllocError, Global};
use std::slice;

/// How many files are named if there are few.
const NAMED: usize = 3;

/// A word that is refused.
#[derive(Clone, Copy, Debug)]
struct Refused<'a> {
    word: &'a str,
    /// Whether it is a label in normal form.
    is_label: bool,
}

impl<'a> Refused<'a> {
    /// A word with its refusal. `None` for want of memory.
    fn of(word: &'a str, error: ServeError) -> Option<Refused<'a>> {
        match error {
            ServeError::BadRoot | ServeError::BadPrelude => Some(Refused {
                word,
                is_label: false,
            }),
            ServeError::NoRoot | ServeError::NoPrelude => Some(Refused {
                word,
                is_label: true,
            }),
            _ => None,
        }
    }
}

/// The first root that is refused.
fn refused_root<'a>(alloc: Global, files: &Files, roots: &'a [String]) -> Option<Refused<'a>> {
    for root in roots {
        if let Err(error) = roots_in(alloc, files, slice::from_ref(root)) {
            return Refused::of(root.as_str(), error);
        }
    }
    None
}

/// The word that is refused: the first such root, else the prelude.
fn refused_word<'a>(
    alloc: Global,
    files: &Files,
    roots: &'a [String],
    prelude: Option<&'a String>,
) -> Option<Refused<'a>> {
    if let Some(refused) = refused_root(alloc, files, roots) {
        return Some(refused);
    }
    match prelude_in(alloc, files, prelude) {
        Ok(_) => None,
        Err(error) => Refused::of(prelude?.as_str(), error),
    }
}

/// The label that a word was probably meant for, by its folders and its name alone: `//a/b.star`, `./a/b.star`,
/// `a/b.star` and `@//a:b.star` are `//a:b.star`.
pub fn meant(alloc: Global, word: &str) -> Result<Option<Label>, AllocError> {
    let mut path = String::new(alloc);
    for c in word.trim_start_matches(['@', '/', ':']).chars() {
        path.push(if c == ':' { '/' } else { c })?;
    }
    match label_of(alloc, "", path.as_str()) {
        Ok(label) => Ok(label),
        Err(_) => Err(AllocError),
    }
}

/// The labels of all files.
fn labels_of(alloc: Global, files: &Files) -> Result<Vec<&str>, AllocError> {
    let mut labels = Vec::new(alloc);
    for n in 0..files.len() {
        labels.push(files.label(n).text())?;
    }
    Ok(labels)
}

/// The label of a file that a word was probably meant for: the one that it is by its folders and its name, else the
/// nearest one.
fn probable<'a>(
    alloc: Global,
    files: &'a Files,
    word: &str,
) -> Result<Option<&'a str>, AllocError> {
    let labels = labels_of(alloc, files)?;
    let Some(label) = meant(alloc, word)? else {
        return nearest(alloc, word, labels.as_slice());
    };
    if let Some(n) = files.find(&label) {
        if n < files.len() {
            return Ok(Some(files.label(n).text()));
        }
    }
    nearest(alloc, label.text(), labels.as_slice())
}

/// Names the first files.
fn push_files(all: &mut String, files: &Files) -> Result<(), AllocError> {
    let noun = if files.len() == 1 { "file" } else { "files" };
    write!(all, "  there are {} {noun}", files.len())?;
    for n in 0..files.len().min(NAMED) {
        all.push_str(if n == 0 { ": " } else { ", " })?;
        all.push_str(files.label(n).text())?;
    }
    if files.len() > NAMED {
        all.push_str(", ..")?;
    }
    all.push('\n')
}

/// Lines about the first word of the command line that does not name one of these files: the word, and the label that
/// was probably meant, or else the first files. Empty if each word names one.
pub fn about_words(
    alloc: Global,
    files: &Files,
    roots: &[String],
    prelude: Option<&String>,
) -> Result<String, AllocError> {
    let mut all = String::new(alloc);
    let Some(Refused { word, is_label }) = refused_word(alloc, files, roots, prelude) else {
        return Ok(all);
    };
    let short = shown(alloc, word)?;
    if is_label {
        write!(all, "  `{short}` is the label of no file\n")?;
    } else {
        write!(
            all,
            "  `{short}` is not a label; a label is written //FOLDER:NAME\n"
        )?;
    }
    match probable(alloc, files, word)? {
        Some(label) => write!(all, "  help: did you mean `{label}`?\n")?,
        None => push_files(&mut all, files)?,
    }
    Ok(all)
}
