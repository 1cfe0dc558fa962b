//! Letters in another case.

ghost use Rattle.std.specs.Prelude.{◌≡◌, IfOk, false, map, nat_eq};
ghost use Rattle.std.specs.Char.{is_ascii_alphabetic};
ghost use Rattle.std.specs.Cmp.Lexicographic.{pointwise};
ghost use Rattle.std.specs.List.{list_any};
ghost use Rattle.star_strings.specs.Strings as spec;

use star_text::Text;
use std::alloc::{AllocError, Global};

/// Which letters stay small.
#[derive(Clone, Copy, Debug, PartialEq, Eq)]
pub(crate) enum Heads {
    /// `capitalize()`: all but the first character.
    Text,
    /// `title()`: those that follow a letter.
    Words,
}

/// A character whose letter is large, or small if it follows what makes it small.
fn cased(c: char, small: bool) -> char
    ensures { result ≡ spec.cased small c }
{
    if small {
        c.to_ascii_lowercase()
    } else {
        c.to_ascii_uppercase()
    }
}

/// Whether a letter after a character is small.
fn small_after(heads: Heads, c: char) -> bool
    ensures { result ≡ spec.small_after heads c }
{
    match heads {
        Heads::Text => true,
        Heads::Words => c.is_ascii_alphabetic(),
    }
}

/// A copy of a string whose ASCII letters are large at each head, and small elsewhere.
pub(crate) fn headed(alloc: Global, heads: Heads, text: &str) -> Result<Text, AllocError>
    ensures { IfOk result (λ t. t ≡ spec.headed heads text.now) }
{
    let mut made = String::new(alloc);
    let mut small = false;
    for c in text.chars() {
        made.push(cased(c, small))?;
        small = small_after(heads, c);
    }
    Text::of(made)
}

/// The case of a string's letters.
#[derive(Clone, Copy, Debug, PartialEq, Eq)]
pub(crate) enum Case {
    Lower,
    Upper,
    Title,
}

/// Whether a letter is among the bytes.
fn has_letter(bytes: &[u8]) -> bool
    ensures { result ≡ list_any is_ascii_alphabetic bytes.now }
{
    for byte in bytes {
        if byte.is_ascii_alphabetic() {
            return true;
        }
    }
    false
}

/// Whether no byte is a large letter.
fn is_small(bytes: &[u8]) -> bool
    ensures { result ≡ pointwise nat_eq (map spec.lower bytes.now) bytes.now }
{
    for byte in bytes {
        if byte.to_ascii_lowercase() != *byte {
            return false;
        }
    }
    true
}

/// Whether no byte is a small letter.
fn is_large(bytes: &[u8]) -> bool
    ensures { result ≡ pointwise nat_eq (map spec.upper bytes.now) bytes.now }
{
    for byte in bytes {
        if byte.to_ascii_uppercase() != *byte {
            return false;
        }
    }
    true
}

/// Whether a string is its own copy in title case.
fn is_title(alloc: Global, text: &str) -> Result<bool, AllocError>
    ensures { IfOk result (λ b. b ≡ pointwise nat_eq (spec.title text.now) text.now) }
{
    let title = headed(alloc, Heads::Words, text)?;
    Ok(title.as_str() == text)
}

/// Whether a string is its own copy in a case.
fn stays(alloc: Global, case: Case, text: &str) -> Result<bool, AllocError>
    ensures { IfOk result (λ b. b ≡ pointwise nat_eq (spec.in_case case text.now) text.now) }
{
    match case {
        Case::Lower => Ok(is_small(text.as_bytes())),
        Case::Upper => Ok(is_large(text.as_bytes())),
        Case::Title => is_title(alloc, text),
    }
}

/// `islower()`, `isupper()`, `istitle()`: whether there is a letter, and the string is its own copy in the case.
pub(crate) fn is_cased(alloc: Global, case: Case, text: &str) -> Result<bool, AllocError>
    ensures { IfOk result (λ b. b ≡ spec.is_cased case text.now) }
{
    if !has_letter(text.as_bytes()) {
        return Ok(false);
    }
    stays(alloc, case, text)
}
