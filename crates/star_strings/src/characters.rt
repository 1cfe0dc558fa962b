//! Strings as lists of their characters, and of their bytes.

ghost use Rattle.std.specs.Prelude.{◌≡◌, IfOk, map};
ghost use Rattle.std.specs.Char.{encode_utf8, is_ascii};
ghost use Rattle.std.specs.List.{list_all};
ghost use Rattle.std.specs.Str.{chars};
ghost use Rattle.star_strings.specs.Characters as numbered;
ghost use Rattle.star_strings.specs.Strings as spec;

use crate::table::Answer;
use sqlite_items::Items;
use star_text::Text;
use std::alloc::{AllocError, Global};

/// A string of one character. The error: an allocation failed.
pub fn one(alloc: Global, c: char) -> Result<Text, AllocError>
    ensures { IfOk result (λ t. t ≡ encode_utf8 c) }
{
    let mut made = String::new(alloc);
    made.push(c)?;
    Text::of(made)
}

/// Whether all bytes are ASCII.
fn are_ascii(bytes: &[u8]) -> bool
    ensures { result ≡ list_all is_ascii bytes.now }
{
    for byte in bytes {
        if !byte.is_ascii() {
            return false;
        }
    }
    true
}

/// A string of each byte, as the character with its number.
fn each_byte(alloc: Global, bytes: &[u8]) -> Result<Items<Text>, AllocError>
    ensures { IfOk result (λ ts. ts ≡ map encode_utf8 bytes.now) }
{
    let mut made = Items::new(alloc);
    for byte in bytes {
        made.push(one(alloc, char::from(*byte))?)?;
    }
    Ok(made)
}

/// `elems()`: a string of each byte. `Cut` if one is not ASCII.
#[tactic(auto, using(crate::proofs::OneByOne::ascii_each))]
pub(crate) fn elems(alloc: Global, text: &str) -> Result<Answer, AllocError>
    ensures { IfOk result (λ a. a ≡ spec.elems text.now) }
{
    let bytes = text.as_bytes();
    if !are_ascii(bytes) {
        return Ok(Answer::Cut);
    }
    Ok(Answer::List(each_byte(alloc, bytes)?))
}

/// A string of each character.
fn each_character(alloc: Global, text: &str) -> Result<Items<Text>, AllocError>
    ensures { IfOk result (λ ts. ts ≡ spec.codepoints text.now) }
{
    let mut made = Items::new(alloc);
    for c in text.chars() {
        made.push(one(alloc, c)?)?;
    }
    Ok(made)
}

/// `codepoints()`: a string of each character.
pub(crate) fn codepoints(alloc: Global, text: &str) -> Result<Answer, AllocError>
    ensures { IfOk result (λ a. a ≡ Answer.List (spec.codepoints text.now)) }
{
    Ok(Answer::List(each_character(alloc, text)?))
}

/// The number of each byte.
fn byte_numbers(alloc: Global, bytes: &[u8]) -> Result<Items<i64>, AllocError>
    ensures { IfOk result (λ ns. ns ≡ spec.numbers bytes.now) }
{
    let mut made = Items::new(alloc);
    for byte in bytes {
        made.push(i64::from(*byte))?;
    }
    Ok(made)
}

/// `elem_ords()`: the number of each byte.
pub(crate) fn elem_ords(alloc: Global, text: &str) -> Result<Answer, AllocError>
    ensures { IfOk result (λ a. a ≡ Answer.Numbers (spec.elem_ords text.now)) }
{
    Ok(Answer::Numbers(byte_numbers(alloc, text.as_bytes())?))
}

/// The number of each character.
fn character_numbers(alloc: Global, text: &str) -> Result<Items<i64>, AllocError>
    ensures { IfOk result (λ ns. ns ≡ spec.codepoint_ords text.now) }
{
    let mut made = Items::new(alloc);
    for c in text.chars() {
        made.push(i64::from(u32::from(c)))?;
    }
    Ok(made)
}

/// `codepoint_ords()`: the number of each character.
pub(crate) fn codepoint_ords(alloc: Global, text: &str) -> Result<Answer, AllocError>
    ensures { IfOk result (λ a. a ≡ Answer.Numbers (spec.codepoint_ords text.now)) }
{
    Ok(Answer::Numbers(character_numbers(alloc, text)?))
}

/// The character of a string that has just one.
pub fn only_char(text: &str) -> Option<char>
    ensures { result ≡ numbered.only_char (chars text.now) }
{
    let mut characters = text.chars();
    match characters.next() {
        None => None,
        Some(only) => match characters.next() {
            None => Some(only),
            Some(_) => None,
        },
    }
}

/// The character of a number; `None` for a number that no character has.
pub fn char_of(number: i64) -> Option<char>
    ensures { result ≡ numbered.char_of number }
{
    match u32::try_from(number) {
        Ok(number) => char::from_u32(number),
        Err(_) => None,
    }
}
