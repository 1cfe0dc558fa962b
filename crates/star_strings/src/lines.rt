//! The lines of a string.

ghost use Rattle.std.specs.Prelude.{◌≡◌, ◌<◌, ◌≤◌, ◌+◌, if◌then◌else◌, IfOk, drop, get_or, length, take, true};
ghost use Rattle.std.specs.List.{list_all};
ghost use Rattle.star_strings.specs.Cuts.{IsNextLine, ends_line, goes_on};
ghost use Rattle.star_strings.specs.Words as spec;

use crate::cuts::rest_of;
use crate::table::Answer;
use sqlite_items::Items;
use star_text::Text;
use std::alloc::{AllocError, Global};

/// How many bytes at the front are before the first LF or CR.
#[tactic(auto, using(crate::proofs::Runs::all_more, crate::proofs::Endings::is_going_on))]
fn line_length(bytes: &[u8]) -> usize
    ensures within { result ≤ length bytes.now }
    ensures inside { list_all goes_on (take result bytes.now) ≡ true }
    ensures end { result < length bytes.now → ends_line (get_or bytes.now result 0) ≡ true }
{
    for at in 0..bytes.len() {
        if bytes[at] == 10 || bytes[at] == 13 {
            return at;
        }
    }
    bytes.len()
}

/// How many bytes of a line's end are at the front.
fn end_width(bytes: &[u8]) -> usize
    ensures value { result ≡ spec.line_end bytes.now }
{
    match bytes {
        [first, rest @ ..] => {
            if *first == 10 {
                return 1;
            }
            if *first != 13 {
                return 0;
            }
            if rest.starts_with(&[10]) { 2 } else { 1 }
        }
        _ => 0,
    }
}

/// Where the first line of a string ends, and where the next one begins.
fn line_ends(bytes: &[u8]) -> (usize, usize)
    ensures within { result.0 ≤ length bytes.now }
    ensures inside { list_all goes_on (take result.0 bytes.now) ≡ true }
    ensures end { result.0 < length bytes.now → ends_line (get_or bytes.now result.0 0) ≡ true }
    ensures next { result.1 ≡ result.0 + spec.line_end (drop result.0 bytes.now) }
{
    let end = line_length(bytes);
    (end, end + end_width(rest_of(bytes, end)))
}

/// The end of a line, or of its end if that is kept.
fn kept_to(keep: bool, end: usize, next: usize) -> usize
    ensures { result ≡ (if keep then next else end) }
{
    if keep { next } else { end }
}

/// The first line of a string, and what is after it.
fn next_line(text: &str, keep: bool) -> Option<(&str, &str)>
    ensures { IsNextLine keep text.now result }
{
    if text.is_empty() {
        return None;
    }
    let (end, next) = line_ends(text.as_bytes());
    Some((&text[..kept_to(keep, end, next)], &text[next..]))
}

/// The lines of a string, each with its end or without it.
fn lines(alloc: Global, text: &str, keep: bool) -> Result<Items<Text>, AllocError>
    ensures { IfOk result (λ ts. ts ≡ spec.lines keep text.now) }
{
    let mut made = Items::new(alloc);
    let mut rest = text;
    while let Some((line, after)) = next_line(rest, keep) {
        made.push(Text::new(alloc, line)?)?;
        rest = after;
    }
    Ok(made)
}

/// `splitlines([keep])`: the lines of a string, each with its end or without it.
pub(crate) fn splitlines(alloc: Global, text: &str, keep: bool) -> Result<Answer, AllocError>
    ensures { IfOk result (λ a. a ≡ Answer.List (spec.lines keep text.now)) }
{
    Ok(Answer::List(lines(alloc, text, keep)?))
}
