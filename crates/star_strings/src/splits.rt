//! `split` and `rsplit`.

ghost use Rattle.std.specs.Prelude.{◌≡◌, IfOk};
ghost use Rattle.star_strings.specs.Strings as spec;

use crate::cuts::{parts_at, parts_from_end};
use crate::table::{Answer, Argument};
use crate::words::{words, words_from_end};
use star_text::Text;
use std::alloc::{AllocError, Global};

/// The number of cuts that may be made: all below 0.
fn limit(cuts: i64) -> Option<u64>
    ensures { result ≡ spec.limit cuts }
{
    if cuts < 0 { None } else { Some(cuts as u64) }
}

/// The words of a string, or its parts between cuts at another one, from the left.
fn split_by(
    alloc: Global,
    text: &str,
    by: &Option<Text>,
    left: Option<u64>,
) -> Result<Answer, AllocError>
    ensures { IfOk result (λ a. a ≡ spec.split_by by.now left text.now) }
{
    match by {
        Some(by) => {
            if by.as_str().is_empty() {
                return Ok(Answer::Refused);
            }
            Ok(Answer::List(parts_at(alloc, text, by.as_str(), left)?))
        }
        None => Ok(Answer::List(words(alloc, text, left)?)),
    }
}

/// The words of a string, or its parts between cuts at another one, from the right.
fn rsplit_by(
    alloc: Global,
    text: &str,
    by: &Option<Text>,
    left: Option<u64>,
) -> Result<Answer, AllocError>
    ensures { IfOk result (λ a. a ≡ spec.rsplit_by by.now left text.now) }
{
    match by {
        Some(by) => {
            if by.as_str().is_empty() {
                return Ok(Answer::Refused);
            }
            Ok(Answer::List(parts_from_end(alloc, text, by.as_str(), left)?))
        }
        None => Ok(Answer::List(words_from_end(alloc, text, left)?)),
    }
}

/// `split([t, [n]])`: at most `n` cuts at `t` from the left, or words. `Refused` for an empty `t`.
pub(crate) fn split(alloc: Global, text: &str, given: &[Argument]) -> Result<Answer, AllocError>
    ensures { IfOk result (λ a. a ≡ spec.split text.now given.now) }
{
    match given {
        [] => split_by(alloc, text, &None, None),
        [Argument::MaybeText(by)] => split_by(alloc, text, by, None),
        [Argument::MaybeText(by), Argument::Int(cuts)] => split_by(alloc, text, by, limit(*cuts)),
        _ => Ok(Answer::Refused),
    }
}

/// `rsplit([t, [n]])`: at most `n` cuts at `t` from the right, or words. `Refused` for an empty `t`.
pub(crate) fn rsplit(alloc: Global, text: &str, given: &[Argument]) -> Result<Answer, AllocError>
    ensures { IfOk result (λ a. a ≡ spec.rsplit text.now given.now) }
{
    match given {
        [] => rsplit_by(alloc, text, &None, None),
        [Argument::MaybeText(by)] => rsplit_by(alloc, text, by, None),
        [Argument::MaybeText(by), Argument::Int(cuts)] => rsplit_by(alloc, text, by, limit(*cuts)),
        _ => Ok(Answer::Refused),
    }
}
