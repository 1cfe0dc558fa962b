//! The name that was probably meant: the nearest one, by the number of edits between two words. And the help for words
//! that are known from elsewhere.

use crate::message::{Part, message};
use std::alloc::{AllocError, Global};
use strsim::osa_distance;

/// A word with more bytes than this has no near name.
const LONGEST: usize = 80;

/// A name with this many edits is too far from a word. One edit is allowed, or one for every three letters.
fn limit(word: &str) -> usize {
    let letters = word.chars().count();
    if letters < 4 { 2 } else { letters / 3 + 1 }
}

/// The nearest of some names to a word: the first of those with the fewest edits. `None` if all are too far, and for a
/// word of one letter.
pub fn nearest<'a>(
    alloc: Global,
    word: &str,
    names: &[&'a str],
) -> Result<Option<&'a str>, AllocError> {
    if word.len() < 2 || word.len() > LONGEST {
        return Ok(None);
    }
    let mut best = None;
    let mut least = limit(word);
    for name in names {
        if *name == word || name.len().abs_diff(word.len()) > LONGEST {
            continue;
        }
        let edits = osa_distance(alloc, word, *name)?;
        if edits < least {
            least = edits;
            best = Some(*name);
        }
    }
    Ok(best)
}

/// ``did you mean `NAME`?`` of the nearest name.
pub fn did_you_mean(
    alloc: Global,
    word: &str,
    names: &[&str],
) -> Result<Option<String>, AllocError> {
    match nearest(alloc, word, names)? {
        Some(name) => Ok(Some(message(alloc, &meant(name))?)),
        None => Ok(None),
    }
}

/// ``did you mean `NAME`?``
pub(crate) fn meant(name: &str) -> [Part<'_>; 3] {
    [
        Part::Plain("did you mean `"),
        Part::Plain(name),
        Part::Plain("`?"),
    ]
}

/// The help that a table has for a word.
pub(crate) fn help_of(table: &[(&'static str, &'static str)], word: &str) -> Option<&'static str> {
    for (name, help) in table {
        if *name == word {
            return Some(*help);
        }
    }
    None
}
