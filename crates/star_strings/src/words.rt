//! The words of a string.

ghost use Rattle.std.specs.Prelude.{◌≡◌, ◌<◌, ◌≤◌, ◌-◌, ◌++◌, IfOk, OnOk, drop, false, get_or, length, reverse, take, true};
ghost use Rattle.std.specs.List.{list_all};
ghost use Rattle.star_strings.specs.Cuts.{IsLastWord, IsNextWord, ends_word, not_space, only, without_space, without_space_after};
ghost use Rattle.star_strings.specs.Words as spec;

use crate::classes::is_space;
use crate::cuts::{may_cut, one_less};
use sqlite_items::Items;
use star_text::Text;
use std::alloc::{AllocError, Global};

/// How many bytes at the front are white space.
#[tactic(auto, using(crate::proofs::Runs::all_more))]
fn spaces(bytes: &[u8]) -> usize
    ensures within { result ≤ length bytes.now }
    ensures inside { list_all spec.is_space (take result bytes.now) ≡ true }
    ensures end { result < length bytes.now → spec.is_space (get_or bytes.now result 0) ≡ false }
{
    for at in 0..bytes.len() {
        if !is_space(bytes[at]) {
            return at;
        }
    }
    bytes.len()
}

/// How many bytes at the front are no white space.
#[tactic(auto, using(crate::proofs::Runs::all_more, crate::proofs::Runs::is_not_space))]
fn word_end(bytes: &[u8]) -> usize
    ensures within { result ≤ length bytes.now }
    ensures inside { list_all not_space (take result bytes.now) ≡ true }
    ensures end { result < length bytes.now → spec.is_space (get_or bytes.now result 0) ≡ true }
{
    for at in 0..bytes.len() {
        if is_space(bytes[at]) {
            return at;
        }
    }
    bytes.len()
}

/// The text after the white space at the front.
fn without_front(text: &str) -> &str
    ensures { result.now ≡ without_space text.now }
{
    let at = spaces(text.as_bytes());
    &text[at..]
}

/// A text, cut where its first word ends.
fn word_first(text: &str) -> (&str, &str)
    ensures inside { list_all not_space result.0.now ≡ true }
    ensures after { ends_word result.1.now ≡ true }
    ensures whole { result.0.now ++ result.1.now ≡ text.now }
{
    let end = word_end(text.as_bytes());
    (&text[..end], &text[end..])
}

/// The first word of a text, and what is after it; `None` if there is none, or no cut is left.
#[tactic(auto, using(crate::proofs::Runs::no_word_left))]
fn next_word(text: &str, left: Option<u64>) -> Option<(&str, &str)>
    ensures { IsNextWord left text.now result }
{
    let rest = without_front(text);
    if rest.is_empty() {
        return None;
    }
    if !may_cut(left) {
        return None;
    }
    let (word, after) = word_first(rest);
    Some((word, after))
}

/// A text as a part, if it has bytes.
#[tactic(auto, using(crate::proofs::Runs::only_some, crate::proofs::Runs::only_none))]
fn push_rest(parts: &mut Vec<Text>, alloc: Global, rest: &str) -> Result<(), AllocError>
    ensures { OnOk result (parts.new.items ≡ parts.old.items ++ only rest.now) }
{
    if rest.is_empty() {
        return Ok(());
    }
    parts.push(Text::new(alloc, rest)?)?;
    Ok(())
}

/// The words of a string, with at most `cuts` cuts, from the left.
pub(crate) fn words(alloc: Global, text: &str, cuts: Option<u64>) -> Result<Items<Text>, AllocError>
    ensures { IfOk result (λ ts. ts ≡ spec.words cuts text.now) }
{
    let mut made = Vec::new(alloc);
    let mut rest = text;
    let mut left = cuts;
    while let Some((word, after)) = next_word(rest, left) {
        made.push(Text::new(alloc, word)?)?;
        rest = after;
        left = one_less(left);
    }
    push_rest(&mut made, alloc, without_front(rest))?;
    Ok(Items::from_vec(made))
}

/// Where the white space at the end begins.
#[tactic(auto, using(crate::proofs::Runs::all_less))]
fn space_start(bytes: &[u8]) -> usize
    ensures within { result ≤ length bytes.now }
    ensures inside { list_all spec.is_space (drop result bytes.now) ≡ true }
    ensures end { 0 < result → spec.is_space (get_or bytes.now (result - 1) 0) ≡ false }
{
    let mut at = bytes.len();
    while at > 0 && is_space(bytes[at - 1]) {
        at -= 1;
    }
    at
}

/// Where the last word begins, if the bytes end with a word.
#[tactic(auto, using(crate::proofs::Runs::all_less, crate::proofs::Runs::is_not_space))]
fn word_start(bytes: &[u8]) -> usize
    ensures within { result ≤ length bytes.now }
    ensures inside { list_all not_space (drop result bytes.now) ≡ true }
    ensures end { 0 < result → spec.is_space (get_or bytes.now (result - 1) 0) ≡ true }
{
    let mut at = bytes.len();
    while at > 0 && !is_space(bytes[at - 1]) {
        at -= 1;
    }
    at
}

/// The text before the white space at the end.
fn without_end(text: &str) -> &str
    ensures { result.now ≡ without_space_after text.now }
{
    let at = space_start(text.as_bytes());
    &text[..at]
}

/// A text, cut where its last word begins.
#[tactic(auto, using(crate::proofs::Runs::word_before))]
fn word_last(text: &str) -> (&str, &str)
    ensures inside { list_all not_space result.1.now ≡ true }
    ensures before { ends_word (reverse result.0.now) ≡ true }
    ensures whole { result.0.now ++ result.1.now ≡ text.now }
{
    let start = word_start(text.as_bytes());
    (&text[..start], &text[start..])
}

/// What is before the last word of a text, and that word; `None` if there is none, or no cut is left.
#[tactic(auto, using(crate::proofs::Runs::no_word_left_back))]
fn last_word(text: &str, left: Option<u64>) -> Option<(&str, &str)>
    ensures { IsLastWord left text.now result }
{
    let rest = without_end(text);
    if rest.is_empty() {
        return None;
    }
    if !may_cut(left) {
        return None;
    }
    let (before, word) = word_last(rest);
    Some((before, word))
}

/// The words of a string, with at most `cuts` cuts, from the right.
#[tactic(auto, using(crate::proofs::CuttingBack::front_back, crate::proofs::Runs::only_back))]
pub(crate) fn words_from_end(
    alloc: Global,
    text: &str,
    cuts: Option<u64>,
) -> Result<Items<Text>, AllocError>
    ensures { IfOk result (λ ts. ts ≡ spec.rwords cuts text.now) }
{
    let mut made = Vec::new(alloc);
    let mut rest = text;
    let mut left = cuts;
    while let Some((before, word)) = last_word(rest, left) {
        made.push(Text::new(alloc, word)?)?;
        rest = before;
        left = one_less(left);
    }
    push_rest(&mut made, alloc, without_end(rest))?;
    made.as_mut_slice().reverse();
    Ok(Items::from_vec(made))
}
