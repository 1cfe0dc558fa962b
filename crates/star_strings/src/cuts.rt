//! Strings, cut at other strings.

ghost use Rattle.std.specs.Prelude.{◌≡◌, ◌<◌, ◌≤◌, ◌+◌, ◌∷◌, [], IfOk, None, Some, drop, length};
ghost use Rattle.star_strings.specs.Cuts.{IsAfterCut, IsFirstCut, IsLastCut};
ghost use Rattle.star_strings.specs.Places.{between};
ghost use Rattle.star_strings.specs.Strings as spec;
ghost use Rattle.star_strings.specs.Texts as texts;
ghost use Rattle.star_strings.specs.Texts.{parts};
ghost use Rattle.star_strings.specs.Words.{rparts};

use crate::places::bounds;
use crate::table::{Answer, Argument};
use memchr::memmem;
use sqlite_items::Items;
use star_text::Text;
use std::alloc::{AllocError, Global};

/// Whether a cut may still be made; `None` is no limit.
pub(crate) fn may_cut(left: Option<u64>) -> bool
    ensures { result ≡ texts.may_cut left }
{
    match left {
        None => true,
        Some(count) => count != 0,
    }
}

/// The cuts that are left after one.
pub(crate) fn one_less(left: Option<u64>) -> Option<u64>
    ensures { result ≡ texts.one_less left }
{
    match left {
        None => None,
        Some(count) => Some(count.saturating_sub(1)),
    }
}

/// The first cut of a string: the text before the separator, and the text after it.
#[tactic(auto, using(crate::proofs::Cutting::no_more))]
fn first_cut<'a>(text: &'a str, by: &str, left: Option<u64>) -> Option<(&'a str, &'a str)>
    requires { 0 < length by.now }
    ensures { IsFirstCut text.now by.now left result }
{
    if !may_cut(left) {
        return None;
    }
    text.split_once(by)
}

/// The last cut of a string: the text before the separator, and the text after it.
#[tactic(auto, using(crate::proofs::CuttingBack::no_more_back))]
fn last_cut<'a>(text: &'a str, by: &str, left: Option<u64>) -> Option<(&'a str, &'a str)>
    requires { 0 < length by.now }
    ensures { IsLastCut text.now by.now left result }
{
    if !may_cut(left) {
        return None;
    }
    text.rsplit_once(by)
}

/// The bytes from a place on.
#[tactic(auto, using(crate::proofs::CuttingBack::take_rest))]
pub(crate) fn rest_of(bytes: &[u8], at: usize) -> &[u8]
    requires { at ≤ length bytes.now }
    ensures value { result.now ≡ drop at bytes.now }
    ensures len { length result.now + at ≡ length bytes.now }
{
    &bytes[at..]
}

/// What is after the first cut of some bytes.
#[tactic(auto, using(crate::proofs::CuttingBack::after_there, crate::proofs::CuttingBack::after_none))]
fn after_cut<'a>(text: &'a [u8], by: &[u8]) -> Option<&'a [u8]>
    requires { 0 < length by.now }
    ensures { IsAfterCut text.now by.now result }
{
    match memmem::find(text, by) {
        Some(at) => Some(rest_of(text, at + by.len())),
        None => None,
    }
}

/// How many cuts some bytes have.
fn cuts_of(text: &[u8], by: &[u8]) -> usize
    requires { 0 < length by.now }
    ensures count { result + 1 ≡ length (parts text.now by.now None) }
    ensures within { result ≤ length text.now }
{
    let mut count = 0;
    let mut rest = text;
    while let Some(after) = after_cut(rest, by) {
        count += 1;
        rest = after;
    }
    count
}

/// The bytes within bounds.
fn part_of(bytes: &[u8], from: usize, to: usize) -> &[u8]
    requires { to ≤ length bytes.now }
    ensures { result.now ≡ between bytes.now (from, to) }
{
    if from >= to {
        return &[];
    }
    &bytes[from..to]
}

/// `count(t, [a, [b]])`: how many times `t` is in the string within the bounds, from the left, with no byte in two of
/// them. `Refused` for an empty `t`.
pub(crate) fn count(text: &str, by: &str, given: &[Argument]) -> Answer
    ensures { result ≡ spec.counted text.now by.now given.now }
{
    if by.is_empty() {
        return Answer::Refused;
    }
    let (from, to) = bounds(text.len(), given);
    Answer::Number(cuts_of(part_of(text.as_bytes(), from, to), by.as_bytes()) as i64)
}

/// A tuple of three strings.
fn three(alloc: Global, first: &str, second: &str, third: &str) -> Result<Answer, AllocError>
    ensures { IfOk result (λ a. a ≡ Answer.Tuple (first.now ∷ second.now ∷ third.now ∷ [])) }
{
    let mut parts = Items::new(alloc);
    parts.push(Text::new(alloc, first)?)?;
    parts.push(Text::new(alloc, second)?)?;
    parts.push(Text::new(alloc, third)?)?;
    Ok(Answer::Tuple(parts))
}

/// `partition(t)`: what is before the first `t`, that `t`, and what is after it. `Refused` for an empty `t`.
#[tactic(auto, using(crate::proofs::Cutting::parted_there, crate::proofs::Cutting::parted_whole))]
pub(crate) fn partition(alloc: Global, text: &str, by: &str) -> Result<Answer, AllocError>
    ensures { IfOk result (λ a. a ≡ spec.parted text.now by.now) }
{
    if by.is_empty() {
        return Ok(Answer::Refused);
    }
    match first_cut(text, by, Some(1)) {
        Some((before, after)) => three(alloc, before, by, after),
        None => three(alloc, text, "", ""),
    }
}

/// `rpartition(t)`: what is before the last `t`, that `t`, and what is after it. `Refused` for an empty `t`.
#[tactic(auto, using(crate::proofs::CuttingBack::parted_back, crate::proofs::CuttingBack::parted_whole_back))]
pub(crate) fn rpartition(alloc: Global, text: &str, by: &str) -> Result<Answer, AllocError>
    ensures { IfOk result (λ a. a ≡ spec.rparted text.now by.now) }
{
    if by.is_empty() {
        return Ok(Answer::Refused);
    }
    match last_cut(text, by, Some(1)) {
        Some((before, after)) => three(alloc, before, by, after),
        None => three(alloc, "", "", text),
    }
}

/// The parts of a string between cuts: at most `cuts` of them, from the left.
pub(crate) fn parts_at(
    alloc: Global,
    text: &str,
    by: &str,
    cuts: Option<u64>,
) -> Result<Items<Text>, AllocError>
    requires { 0 < length by.now }
    ensures { IfOk result (λ ts. ts ≡ parts text.now by.now cuts) }
{
    let mut made = Items::new(alloc);
    let mut rest = text;
    let mut left = cuts;
    while let Some((before, after)) = first_cut(rest, by, left) {
        made.push(Text::new(alloc, before)?)?;
        rest = after;
        left = one_less(left);
    }
    made.push(Text::new(alloc, rest)?)?;
    Ok(made)
}

/// The parts of a string between cuts: at most `cuts` of them, from the right.
#[tactic(auto, using(crate::proofs::CuttingBack::front_back))]
pub(crate) fn parts_from_end(
    alloc: Global,
    text: &str,
    by: &str,
    cuts: Option<u64>,
) -> Result<Items<Text>, AllocError>
    requires { 0 < length by.now }
    ensures { IfOk result (λ ts. ts ≡ rparts text.now by.now cuts) }
{
    let mut made = Vec::new(alloc);
    let mut rest = text;
    let mut left = cuts;
    while let Some((before, after)) = last_cut(rest, by, left) {
        made.push(Text::new(alloc, after)?)?;
        rest = before;
        left = one_less(left);
    }
    made.push(Text::new(alloc, rest)?)?;
    made.as_mut_slice().reverse();
    Ok(Items::from_vec(made))
}
