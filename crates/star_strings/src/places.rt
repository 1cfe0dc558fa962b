//! The places of a string in another one, within bounds.

ghost use Rattle.std.specs.Prelude.{◌≡◌, ◌<◌, ◌≤◌, ◌^◌, IfSome, length};
ghost use Rattle.star_strings.specs.Places as spec;
ghost use Rattle.star_strings.specs.Strings as strings;

use crate::table::{Answer, Argument};
use memchr::memmem;
use star_text::Text;

/// A place in `len` bytes, held within them: below 0 the length is added.
fn held(len: usize, place: i64) -> usize
    ensures value { result ≡ spec.held len place }
    ensures within { result ≤ len }
{
    if place < 0 {
        return len.saturating_sub(place.unsigned_abs() as usize);
    }
    (place as usize).min(len)
}

/// A bound in `len` bytes; `absent` without one.
fn bound(len: usize, absent: usize, place: Option<i64>) -> usize
    requires { absent ≤ len }
    ensures value { result ≡ spec.bound len absent place }
    ensures within { result ≤ len }
{
    match place {
        Some(place) => held(len, place),
        None => absent,
    }
}

/// The bounds in `len` bytes: the whole without arguments.
pub(crate) fn bounds(len: usize, given: &[Argument]) -> (usize, usize)
    ensures value { result ≡ spec.bounds len given.now }
    ensures from { result.0 ≤ len }
    ensures to { result.1 ≤ len }
{
    match given {
        [Argument::Place(from)] => (bound(len, 0, *from), len),
        [Argument::Place(from), Argument::Place(to)] => {
            (bound(len, 0, *from), bound(len, len, *to))
        }
        _ => (0, len),
    }
}

/// The least place of a part from one place on, with its end at most at another.
#[tactic(auto, using(crate::proofs::Windows::found_in_part, crate::proofs::Windows::empty_stands, crate::proofs::Windows::empty_past))]
fn first_between(text: &[u8], part: &[u8], from: usize, to: usize) -> Option<usize>
    requires { to ≤ length text.now }
    ensures { result ≡ spec.first_between text.now part.now from to }
{
    if from > to {
        return None;
    }
    if part.is_empty() {
        return Some(from);
    }
    match memmem::find(&text[from..to], part) {
        Some(at) => Some(from + at),
        None => None,
    }
}

/// The greatest place of a part from one place on, with its end at most at another.
#[tactic(auto, using(crate::proofs::LastWindows::last_in_part, crate::proofs::LastWindows::last_empty, crate::proofs::LastWindows::last_empty_past))]
fn last_between(text: &[u8], part: &[u8], from: usize, to: usize) -> Option<usize>
    requires { to ≤ length text.now }
    ensures { result ≡ spec.last_between text.now part.now from to }
{
    if from > to {
        return None;
    }
    if part.is_empty() {
        return Some(to);
    }
    match memmem::rfind(&text[from..to], part) {
        Some(at) => Some(from + at),
        None => None,
    }
}

/// The least place of a string within bounds.
#[tactic(auto, using(crate::proofs::LastWindows::first_inside))]
fn first_within(text: &str, part: &str, given: &[Argument]) -> Option<usize>
    ensures value { result ≡ spec.first_within text.now part.now given.now }
    ensures within { IfSome result (λ i. i ≤ length text.now) }
{
    let (from, to) = bounds(text.len(), given);
    first_between(text.as_bytes(), part.as_bytes(), from, to)
}

/// The greatest place of a string within bounds.
#[tactic(auto, using(crate::proofs::LastWindows::last_inside))]
fn last_within(text: &str, part: &str, given: &[Argument]) -> Option<usize>
    ensures value { result ≡ spec.last_within text.now part.now given.now }
    ensures within { IfSome result (λ i. i ≤ length text.now) }
{
    let (from, to) = bounds(text.len(), given);
    last_between(text.as_bytes(), part.as_bytes(), from, to)
}

/// A place, which has to be there.
fn wanted(place: Option<usize>) -> Answer
    requires { IfSome place (λ i. i < 2 ^ 63) }
    ensures { result ≡ strings.place_wanted place }
{
    match place {
        Some(at) => Answer::Number(at as i64),
        None => Answer::Refused,
    }
}

/// `index(t, [a, [b]])`: the least place of `t` within the bounds. `Refused` without one.
pub(crate) fn index(text: &str, part: &str, given: &[Argument]) -> Answer
    ensures { result ≡ strings.place_wanted (spec.first_within text.now part.now given.now) }
{
    wanted(first_within(text, part, given))
}

/// `rindex(t, [a, [b]])`: the greatest place of `t` within the bounds. `Refused` without one.
pub(crate) fn rindex(text: &str, part: &str, given: &[Argument]) -> Answer
    ensures { result ≡ strings.place_wanted (spec.last_within text.now part.now given.now) }
{
    wanted(last_within(text, part, given))
}

/// `rfind(t, [a, [b]])`: the greatest place of `t` within the bounds, else -1.
pub(crate) fn rfind(text: &str, part: &str, given: &[Argument]) -> Answer
    ensures { result ≡ Answer.Number (strings.place_or_none (spec.last_within text.now part.now given.now)) }
{
    match last_within(text, part, given) {
        Some(at) => Answer::Number(at as i64),
        None => Answer::Number(-1),
    }
}

/// Whether a part is within the bounds, at the first.
fn stands_first(text: &[u8], from: usize, to: usize, part: &[u8]) -> bool
    requires { from ≤ length text.now }
    ensures { result ≡ spec.stands_first text.now from to part.now }
{
    from + part.len() <= to && text[from..].starts_with(part)
}

/// Whether a part is within the bounds, at the second less its length.
fn stands_last(text: &[u8], from: usize, to: usize, part: &[u8]) -> bool
    requires { from ≤ length text.now × to ≤ length text.now }
    ensures { result ≡ spec.stands_last text.now from to part.now }
{
    from + part.len() <= to && text[to - part.len()..].starts_with(part)
}

/// `startswith(p, [a, [b]])`: whether one of some strings is within the bounds at `a`.
pub(crate) fn starts_with(text: &str, parts: &[Text], given: &[Argument]) -> bool
    ensures { result ≡ spec.starts text.now parts.now given.now }
{
    let (from, to) = bounds(text.len(), given);
    for part in parts {
        if stands_first(text.as_bytes(), from, to, part.as_str().as_bytes()) {
            return true;
        }
    }
    false
}

/// `endswith(p, [a, [b]])`: whether one of some strings is within the bounds at `b` less its length.
pub(crate) fn ends_with(text: &str, parts: &[Text], given: &[Argument]) -> bool
    ensures { result ≡ spec.ends text.now parts.now given.now }
{
    let (from, to) = bounds(text.len(), given);
    for part in parts {
        if stands_last(text.as_bytes(), from, to, part.as_str().as_bytes()) {
            return true;
        }
    }
    false
}
