//! Entries: JSON objects with a label and a status.

ghost use Rattle.std.specs.Prelude.{◌≡◌, ◌++◌, ◌<◌, ◌≤◌, ℕ, List, None, IfSome, length, drop, option_map};
ghost use Rattle.std.specs.Option.{option_and_then};
ghost use Rattle.star_shards.specs.Entries as spec;
ghost use Rattle.star_shards.specs.Entries.{IsEntry, IsObject, label_front, status_front};
ghost use Rattle.star_shards.specs.Places.{front_end};
ghost use Rattle.star_shards.specs.Read.{IsRead};

use crate::members::{Keys, look};

/// An entry of a line.
#[derive(Clone, Copy, Debug, PartialEq, Eq)]
pub(crate) struct Entry<'a> {
    pub label: &'a [u8],
    /// The whole entry, as it stands in its line.
    pub text: &'a [u8],
    /// Whether nothing is at fault.
    pub is_good: bool,
}

/// An object, and where its label and its status begin, counted after its first byte.
#[derive(Clone, Copy, Debug, PartialEq, Eq)]
struct Object<'a> {
    pub text: &'a [u8],
    pub keys: Keys,
}

/// The bytes from a place on; none past the end.
pub(crate) fn rest_of(bytes: &[u8], at: usize) -> &[u8]
    ensures value { result.now ≡ drop at bytes.now }
    ensures len { length result.now ≤ length bytes.now }
{
    if at > bytes.len() {
        return &[];
    }
    &bytes[at..]
}

/// Where the quote stands that ends a string; `None` if it has an escape or does not end.
fn quote_in(bytes: &[u8]) -> Option<usize>
    ensures quote { result ≡ spec.quote_from 0 bytes.now }
    ensures within { IfSome result (λ n. n ≤ length bytes.now) }
{
    for (i, byte) in bytes.iter().enumerate() {
        if *byte == b'"' {
            return Some(i);
        }
        if *byte == b'\\' {
            return None;
        }
    }
    None
}

/// The string whose first quote stands before these bytes; `None` if it has an escape or does not end.
fn string_in(bytes: &[u8]) -> Option<&[u8]>
    ensures { option_map (λ t. t.now) result ≡ spec.string_in bytes.now }
{
    match quote_in(bytes) {
        Some(end) => Some(&bytes[..end]),
        None => None,
    }
}

/// The string that begins at a place.
fn string_at(bytes: &[u8], at: Option<usize>) -> Option<&[u8]>
    ensures { option_map (λ t. t.now) result ≡ option_and_then (λ n. spec.string_in (drop n bytes.now)) at }
{
    match at {
        Some(at) => string_in(rest_of(bytes, at)),
        None => None,
    }
}

/// What says that nothing is at fault.
const OK: &[u8] = b"ok";

const UNRUN: &[u8] = b"unrun";

/// Whether a status says that nothing is at fault.
fn is_good_word(word: &[u8]) -> bool
    ensures { result ≡ spec.is_good_word word.now }
{
    word == OK || word == UNRUN
}

/// The object at the front of a text.
fn first_object(text: &[u8]) -> Option<Object<'_>>
    ensures none { result ≡ None → (t rest : List ℕ) → IsObject t → text.now ≡ t ++ rest → ⊥ }
    ensures object { IfSome result (λ o. IsObject o.text.now) }
    ensures front { IfSome result (λ o. text.now ≡ o.text.now ++ drop (length o.text.now) text.now) }
    ensures label { IfSome result (λ o. o.keys.label ≡ front_end label_front (drop 1 o.text.now)) }
    ensures status { IfSome result (λ o. o.keys.status ≡ front_end status_front (drop 1 o.text.now)) }
{
    let Some((first, members)) = text.split_first() else {
        return None;
    };
    if *first != b'{' {
        return None;
    }
    let Some(found) = look(members) else {
        return None;
    };
    if members[found.end] != b'}' {
        return None;
    }
    Some(Object {
        text: &text[..found.end + 2],
        keys: found.keys,
    })
}

/// The entry at the front of a text.
pub(crate) fn first_entry(text: &[u8]) -> Option<Entry<'_>>
    ensures none { result ≡ None → (t rest : List ℕ) → IsEntry t → text.now ≡ t ++ rest → ⊥ }
    ensures entry { IfSome result (λ e. IsEntry e.text.now) }
    ensures read { IfSome result IsRead }
    ensures front { IfSome result (λ e. text.now ≡ e.text.now ++ drop (length e.text.now) text.now) }
{
    let Some(object) = first_object(text) else {
        return None;
    };
    let members = rest_of(object.text, 1);
    let Some(label) = string_at(members, object.keys.label) else {
        return None;
    };
    let Some(status) = string_at(members, object.keys.status) else {
        return None;
    };
    Some(Entry {
        label,
        text: object.text,
        is_good: is_good_word(status),
    })
}
