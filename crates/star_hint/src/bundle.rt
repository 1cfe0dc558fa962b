//! The key, the member or the place in the JSON that the refusal of a bundle is about.

use crate::words::{about_words, meant};
use serde_json::{Map, Value};
use star_bundle::bundle::files_in;
use star_bundle::error::ServeError;
use star_label::label::Label;
use star_mistakes::place::shown;
use std::alloc::{AllocError, Global};

/// The most bytes that a text may have.
const LONGEST: usize = 1_048_576;

/// The most files that a bundle may have.
const FILES: usize = 10_000;

/// A JSON value, by its kind.
fn kind_of(value: &Value) -> &'static str {
    match value {
        Value::Null => "null",
        Value::Bool(_) => "a boolean",
        Value::Number(_) => "a number",
        Value::String(_) => "a string",
        Value::Array(_) => "an array",
        Value::Object(_) => "an object",
    }
}

/// Whether a key is a label in normal form.
fn is_label(alloc: Global, key: &str) -> bool {
    match Label::read(alloc, key, "") {
        Ok(label) => label.text() == key,
        Err(_) => false,
    }
}

/// A line about the first member that is not a text.
fn about_values(alloc: Global, members: &Map<String, Value>) -> Result<String, AllocError> {
    let mut all = String::new(alloc);
    for (key, value) in members.iter() {
        if let Value::String(_) = value {
            continue;
        }
        let key = shown(alloc, key.as_str())?;
        write!(
            all,
            "  the text of `{key}` is {}, not a string\n",
            kind_of(value)
        )?;
        break;
    }
    Ok(all)
}

/// Lines about the first key that is not a label in normal form.
fn about_keys(alloc: Global, members: &Map<String, Value>) -> Result<String, AllocError> {
    let mut all = String::new(alloc);
    for (key, _) in members.iter() {
        let key = key.as_str();
        if is_label(alloc, key) {
            continue;
        }
        let short = shown(alloc, key)?;
        write!(
            all,
            "  the key `{short}` is not a label; a label is written //FOLDER:NAME\n"
        )?;
        if let Some(label) = meant(alloc, key)? {
            write!(all, "  help: did you mean `{label}`?\n")?;
        }
        break;
    }
    Ok(all)
}

/// A line about the first text that is too long.
fn about_length(alloc: Global, members: &Map<String, Value>) -> Result<String, AllocError> {
    let mut all = String::new(alloc);
    for (key, value) in members.iter() {
        let Value::String(text) = value else {
            continue;
        };
        if text.len() > LONGEST {
            let key = shown(alloc, key.as_str())?;
            write!(
                all,
                "  `{key}` has {} bytes; {LONGEST} are the most\n",
                text.len()
            )?;
            break;
        }
    }
    Ok(all)
}

/// Lines about the members of a bundle that is refused with this error.
fn about_members(
    alloc: Global,
    members: &Map<String, Value>,
    error: ServeError,
) -> Result<String, AllocError> {
    match error {
        ServeError::BadBundle => about_values(alloc, members),
        ServeError::BadKey => about_keys(alloc, members),
        ServeError::TooLong => about_length(alloc, members),
        ServeError::TooMany => {
            format!(in alloc;
                "  the bundle has {} files; {FILES} are the most\n",
                members.len()
            )
        }
        _ => Ok(String::new(alloc)),
    }
}

/// Lines about bytes that are not a bundle.
fn about_json(alloc: Global, bytes: &[u8], error: ServeError) -> Result<String, AllocError> {
    if bytes.is_empty() {
        return String::from_str(alloc, "  the input is empty\n");
    }
    match Value::from_slice(alloc, bytes) {
        Ok(Value::Object(members)) => about_members(alloc, &members, error),
        Ok(value) => {
            format!(in alloc;
                "  the input is {}, not an object from labels to texts\n",
                kind_of(&value)
            )
        }
        Err(why) => {
            if why.is_memory() {
                Err(AllocError)
            } else {
                format!(in alloc; "  {why}\n")
            }
        }
    }
}

/// Lines about a refusal of the bundle with these bytes, or of the words of the command line that name its files. They
/// name the key, the member, the place in the JSON or the word, and the label that was probably meant. Empty if no more
/// is known than the refusal.
pub fn about_bundle(
    alloc: Global,
    bytes: &[u8],
    roots: &[String],
    prelude: Option<&String>,
    error: ServeError,
) -> Result<String, AllocError> {
    match error {
        ServeError::BadBundle | ServeError::BadKey | ServeError::TooMany | ServeError::TooLong => {
            about_json(alloc, bytes, error)
        }
        ServeError::BadRoot | ServeError::NoRoot | ServeError::BadPrelude | ServeError::NoPrelude =>
            match files_in(alloc, bytes) {
                Ok(files) => about_words(alloc, &files, roots, prelude),
                Err(_) => Ok(String::new(alloc)),
            },
        _ => Ok(String::new(alloc)),
    }
}
