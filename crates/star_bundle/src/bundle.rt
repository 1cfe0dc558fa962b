//! The bundle, a JSON object from labels in normal form to texts, and the files that the command line names.

ghost use Rattle.std.specs.Prelude.{◌≡◌, ◌<◌, IfOk, IfSome, All, length, map, option_map, string_bytes};
ghost use Rattle.serde_json.specs.Find.{as_object, as_str};
ghost use Rattle.serde_json.specs.View.{view, members_view};
ghost use Rattle.star_label.specs.View.{text_of};
ghost use Rattle.star_bundle.specs.Bundle as bundle;
ghost use Rattle.star_bundle.specs.Bundle.{json_of, there_or};
ghost use Rattle.star_label.specs.Files.{file_of};
ghost use Rattle.star_bundle.specs.Refusal.{Gives, IsNamed};
ghost use Rattle.star_bundle.specs.declared.error.ServeError.TheVariants.{BadBundle};
ghost use Rattle.star_bundle.specs.View.{asked_view, if_label, member_view};

use crate::error::ServeError;
use serde_json::{Map, Value};
use star_label::error::LabelError;
use star_label::files::Files;
use star_label::label::Label;
use std::alloc::{AllocError, Global};
use std::collections::BTreeMap;

fn into_text(value: Value) -> Option<String>
    ensures { option_map string_bytes result ≡ as_str (view value) }
{
    match value {
        Value::String(text) => Some(text),
        _ => None,
    }
}

/// The members of an object. `None` for another value.
pub fn into_members(value: Value) -> Option<Map<String, Value>>
    ensures { option_map (λ m. members_view m.entries) result ≡ as_object (view value) }
{
    match value {
        Value::Object(members) => Some(members),
        _ => None,
    }
}

/// The JSON value of the bytes. `None` if they are not JSON.
pub fn json_in(alloc: Global, bytes: &[u8]) -> Result<Option<Value>, AllocError>
    ensures { IfOk result (λ value. option_map view value ≡ json_of bytes.now) }
{
    match Value::from_slice(alloc, bytes) {
        Ok(value) => Ok(Some(value)),
        Err(error) => {
            if error.is_memory() {
                Err(AllocError)
            } else {
                Ok(None)
            }
        }
    }
}

/// The label whose normal form a text is. `None` for another text.
pub fn normal_label(alloc: Global, text: &str) -> Result<Option<Label>, AllocError>
    ensures { IfOk result (λ label. option_map text_of label ≡ if_label text.now) }
{
    match Label::read(alloc, text, "") {
        Ok(label) => {
            if label.text() == text {
                Ok(Some(label))
            } else {
                Ok(None)
            }
        }
        Err(LabelError::BadLabel) => Ok(None),
        Err(LabelError::Memory) => Err(AllocError),
        Err(_) => unreachable!(),
    }
}

/// The members of the object. `BadBundle` if one is not a text.
fn texts_in(
    alloc: Global,
    mut members: Map<String, Value>,
) -> Result<Vec<(String, String)>, ServeError>
    ensures { Gives (λ texts. map member_view texts.items) result
        (there_or BadBundle (bundle.texts_of (members_view members.entries))) }
{
    let mut texts = Vec::new(alloc);
    while let Some((label, value)) = members.pop_first() {
        let Some(text) = into_text(value) else {
            return Err(ServeError::BadBundle);
        };
        texts.push((label, text))?;
    }
    Ok(texts)
}

/// The members by their labels. `BadKey` if a name is not a label in normal form.
#[tactic(auto, unfolding(crate::specs::Bundle::labelled))]
fn labelled(
    alloc: Global,
    texts: Vec<(String, String)>,
) -> Result<BTreeMap<Label, String>, ServeError>
    ensures { Gives (λ files. map file_of files.entries) result (bundle.labelled (map member_view texts.items)) }
{
    let mut files = BTreeMap::new(alloc);
    for (key, text) in texts {
        let Some(label) = normal_label(alloc, key.as_str())? else {
            return Err(ServeError::BadKey);
        };
        files.insert(label, text)?;
    }
    Ok(files)
}

/// The files of a bundle. `BadBundle` if the bytes are not a JSON object of texts, `BadKey` if a key is not a label in
/// normal form, then `TooMany` and `TooLong`.
#[tactic(auto, unfolding(crate::specs::Bundle::files_of))]
pub fn files_in(alloc: Global, bytes: &[u8]) -> Result<Files, ServeError>
    ensures { Gives (λ files. files) result (bundle.files_of bytes.now) }
{
    let Some(value) = json_in(alloc, bytes)? else {
        return Err(ServeError::BadBundle);
    };
    let Some(members) = into_members(value) else {
        return Err(ServeError::BadBundle);
    };
    let texts = texts_in(alloc, members)?;
    let files = labelled(alloc, texts)?;
    match Files::new(alloc, files) {
        Ok(files) => Ok(files),
        Err(LabelError::TooMany) => Err(ServeError::TooMany),
        Err(LabelError::TooLong) => Err(ServeError::TooLong),
        Err(_) => Err(ServeError::Memory),
    }
}

/// The number of the file that a word of the command line names: the error `bad` if the word is not a label in normal
/// form, `none` if no file has that label.
#[tactic(auto, unfolding(crate::specs::Bundle::number_of))]
fn number_in(
    alloc: Global,
    files: &Files,
    word: &str,
    bad: ServeError,
    none: ServeError,
) -> Result<usize, ServeError>
    requires bad_named { IsNamed bad }
    requires none_named { IsNamed none }
    ensures number { Gives (λ n. n) result (bundle.number_of bad none files.now word.now) }
    ensures within { IfOk result (λ n. n < length files.now) }
{
    let Some(label) = normal_label(alloc, word)? else {
        return Err(bad);
    };
    match files.find(&label) {
        Some(n) => Ok(n),
        None => Err(none),
    }
}

/// The numbers of the roots. `BadRoot`, then `NoRoot`, for each in order.
#[tactic(auto, unfolding(crate::specs::Bundle::roots_of))]
pub fn roots_in(alloc: Global, files: &Files, roots: &[String]) -> Result<Vec<usize>, ServeError>
    ensures numbers { Gives (λ ns. ns.items) result (bundle.roots_of files.now (map string_bytes roots.now)) }
    ensures within { IfOk result (λ ns. All (λ n. n < length files.now) ns.items) }
{
    let mut numbers = Vec::new(alloc);
    for root in roots {
        let n = number_in(
            alloc,
            files,
            root.as_str(),
            ServeError::BadRoot,
            ServeError::NoRoot,
        )?;
        numbers.push(n)?;
    }
    Ok(numbers)
}

/// The number of the prelude. `BadPrelude`, then `NoPrelude`.
#[tactic(auto, unfolding(crate::specs::Bundle::prelude_of))]
pub fn prelude_in(
    alloc: Global,
    files: &Files,
    prelude: Option<&String>,
) -> Result<Option<usize>, ServeError>
    ensures number { Gives (λ n. n)
        result (bundle.prelude_of files.now (option_map (λ p. string_bytes p.now) prelude.entry)) }
    ensures within { IfOk result (λ o. IfSome o (λ n. n < length files.now)) }
{
    let Some(word) = prelude else {
        return Ok(None);
    };
    let n = number_in(
        alloc,
        files,
        word.as_str(),
        ServeError::BadPrelude,
        ServeError::NoPrelude,
    )?;
    Ok(Some(n))
}

/// The input: the files, the numbers of the roots, and the number of the prelude.
#[derive(Drop)]
pub struct AskedFor {
    pub files: Files,
    pub roots: Vec<usize>,
    pub prelude: Option<usize>,
}

/// Finds the roots and the prelude, as the words of the command line name them, among these files. The refusals of the
/// roots come before those of the prelude.
#[tactic(auto, unfolding(crate::specs::Bundle::asked_among))]
pub fn asked_in(
    alloc: Global,
    files: Files,
    roots: &[String],
    prelude: Option<&String>,
) -> Result<AskedFor, ServeError>
    ensures asked { Gives asked_view result
        (bundle.asked_among (map string_bytes roots.now) (option_map (λ p. string_bytes p.now) prelude.entry) files) }
    ensures roots { IfOk result (λ a. All (λ n. n < length a.files) a.roots.items) }
    ensures prelude { IfOk result (λ a. IfSome a.prelude (λ n. n < length a.files)) }
{
    let roots = roots_in(alloc, &files, roots)?;
    let prelude = prelude_in(alloc, &files, prelude)?;
    Ok(AskedFor {
        files,
        roots,
        prelude,
    })
}

/// The input, by the bytes of a bundle and the words of the command line. The refusals of the bundle come first, then
/// those of the roots, then those of the prelude.
#[tactic(auto, unfolding(crate::specs::Bundle::asked_of))]
pub fn asked_for(
    alloc: Global,
    bytes: &[u8],
    roots: &[String],
    prelude: Option<&String>,
) -> Result<AskedFor, ServeError>
    ensures asked { Gives asked_view result
        (bundle.asked_of (map string_bytes roots.now) (option_map (λ p. string_bytes p.now) prelude.entry) bytes.now) }
    ensures roots { IfOk result (λ a. All (λ n. n < length a.files) a.roots.items) }
    ensures prelude { IfOk result (λ a. IfSome a.prelude (λ n. n < length a.files)) }
{
    asked_in(alloc, files_in(alloc, bytes)?, roots, prelude)
}
