//! Strings, character by character.

ghost use Rattle.std.specs.Prelude.{◌≡◌, ◌∷◌, ◌++◌, ◌<◌, ◌≤◌, ◌+◌, ℕ, IfOk, List, [], MatchOption, drop, false, get_or, length, take, true};
ghost use Rattle.std.specs.List.{list_all};
ghost use Rattle.star_meaning.specs.Texts as spec;
ghost use Rattle.star_method.specs.Sets.{has, test_of};

use star_text::Text;
use std::alloc::{AllocError, Global};
use std::collections::BTreeMap;
use std::marker::Model;

/// Whether a byte continues a character.
fn goes_on(byte: u8) -> bool
    ensures { result ≡ spec.goes_on byte }
{
    byte >= 128 && byte < 192
}

/// How many bytes at the front continue a character.
#[tactic(auto, using(crate::proofs::OneByOne::all_more))]
fn inner_bytes(bytes: &[u8]) -> usize
    ensures within { result ≤ length bytes.now }
    ensures inside { list_all spec.goes_on (take result bytes.now) ≡ true }
    ensures end { result < length bytes.now → spec.goes_on (get_or bytes.now result 0) ≡ false }
{
    for at in 0..bytes.len() {
        if !goes_on(bytes[at]) {
            return at;
        }
    }
    bytes.len()
}

/// The first character of a string, and the text after it.
#[tactic(auto, using(crate::proofs::OneByOne::first_is))]
pub fn first_character(text: &str) -> Option<(&str, &str)>
    ensures { MatchOption result (text.now ≡ [])
        (λ x. (spec.characters text.now ≡ x.0.now ∷ spec.characters x.1.now) × (length x.1.now < length text.now)) }
{
    if text.is_empty() {
        return None;
    }
    let end = inner_bytes(&text.as_bytes()[1..]) + 1;
    Some((&text[..end], &text[end..]))
}

/// Where the last character of a string begins.
fn last_start(bytes: &[u8]) -> usize
    requires { 0 < length bytes.now }
    ensures within { result < length bytes.now }
    ensures inside { list_all spec.goes_on (drop (result + 1) bytes.now) ≡ true }
    ensures start { 0 < result → spec.goes_on (get_or bytes.now result 0) ≡ false }
{
    let mut at = bytes.len() - 1;
    while at > 0 && goes_on(bytes[at]) {
        at -= 1;
    }
    at
}

/// The text before the last character of a string, and that character.
#[tactic(auto, using(crate::proofs::OneByOne::last_is))]
pub fn last_character(text: &str) -> Option<(&str, &str)>
    ensures { MatchOption result (text.now ≡ [])
        (λ x. (spec.characters text.now ≡ spec.characters x.0.now ++ x.1.now ∷ [])
        × (length x.0.now < length text.now)) }
{
    if text.is_empty() {
        return None;
    }
    let start = last_start(text.as_bytes());
    Some((&text[..start], &text[start..]))
}

/// A set of characters.
#[derive(Debug, Drop)]
pub enum Set {
    /// Space, and the bytes 9 to 13.
    Blanks,
    /// The characters of a string.
    Of(Text),
}

/// Whether a character is a space or one of the bytes 9 to 13.
fn is_blank(character: &str) -> bool
    ensures { result ≡ spec.is_blank character.now }
{
    match character.as_bytes() {
        [byte] => *byte == 32 || (*byte > 8 && *byte < 14),
        _ => false,
    }
}

/// Whether a character is in a string.
fn is_in(text: &str, character: &str) -> bool
    ensures { result ≡ spec.is_in text.now character.now }
{
    let mut rest = text;
    while let Some((first, more)) = first_character(rest) {
        if character == first {
            return true;
        }
        rest = more;
    }
    false
}

impl Set {
    /// Whether a character is in the set.
    pub fn has(&self, character: &str) -> bool
        ensures { result ≡ test_of self.now character.now }
    {
        match self {
            Set::Blanks => is_blank(character),
            Set::Of(text) => is_in(text.as_str(), character),
        }
    }
}

/// If a string or a set has no more bytes than this, going through the set is quicker than making a map of it.
const SET_ABOVE: usize = 32;

/// The characters of a string.
fn characters_of<'s>(alloc: Global, text: &'s str) -> Result<BTreeMap<&'s str, ()>, AllocError>
    ensures { IfOk result (λ found. (character : List ℕ) → has found character ≡ spec.is_in text.now character) }
{
    let mut found = BTreeMap::new(alloc);
    let mut rest = text;
    while let Some((first, more)) = first_character(rest) {
        found.insert(first, ())?;
        rest = more;
    }
    Ok(found)
}

/// A set of characters that are looked for: few by going through them, many in a map.
#[derive(Drop)]
pub struct Lookup<'s> {
    set: &'s Set,
    found: Option<BTreeMap<&'s str, ()>>,
}

impl<'s> Model for Lookup<'s> {
    ghost use Rattle.star_method.specs.declared.characters.Set.{Set as AnySet};
    ghost use Rattle.star_method.specs.Sets.{AreFound};

    ghost Value = { AnySet };

    ghost view = { λ l. l.set.now };

    ghost invariant = { λ l. AreFound l.set.now l.found };
}

impl<'s> Lookup<'s> {
    /// The characters of this set, which are looked for in a string of `bytes` bytes.
    pub fn of(alloc: Global, set: &'s Set, bytes: usize) -> Result<Lookup<'s>, AllocError>
        ensures { IfOk result (λ lookup. lookup ≡ set.now) }
    {
        match set {
            Set::Of(text) if bytes > SET_ABOVE && text.as_str().len() > SET_ABOVE => {
                let found = Some(characters_of(alloc, text.as_str())?);
                Ok(Lookup { set, found })
            }
            _ => Ok(Lookup { set, found: None }),
        }
    }

    /// Whether a character is in the set.
    pub fn has(&self, character: &str) -> bool
        ensures { result ≡ test_of self.now character.now }
    {
        match &self.found {
            Some(found) => found.contains_key(character),
            None => self.set.has(character),
        }
    }
}

/// The rest of a string after the characters at its front that are in a set.
#[tactic(auto, using(crate::proofs::OneByOne::front_stays))]
pub fn without_front<'a>(text: &'a str, set: &Lookup<'_>) -> &'a str
    ensures { spec.characters result.now ≡ spec.without_front (test_of set.now) (spec.characters text.now) }
{
    let mut rest = text;
    while let Some((first, more)) = first_character(rest) {
        if !set.has(first) {
            return rest;
        }
        rest = more;
    }
    rest
}

/// The rest of a string before the characters at its end that are in a set.
#[tactic(auto, using(crate::proofs::OneByOne::end_goes, crate::proofs::OneByOne::end_stays))]
pub fn without_end<'a>(text: &'a str, set: &Lookup<'_>) -> &'a str
    ensures { spec.characters result.now ≡ spec.without_end (test_of set.now) (spec.characters text.now) }
{
    let mut rest = text;
    while let Some((before, last)) = last_character(rest) {
        if !set.has(last) {
            return rest;
        }
        rest = before;
    }
    rest
}
