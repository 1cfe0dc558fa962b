//! The front and the end of a string.

ghost use Rattle.std.specs.Prelude.{◌≡◌, IfOk};
ghost use Rattle.star_strings.specs.Strings as spec;

use crate::table::Answer;
use star_text::Text;
use std::alloc::{AllocError, Global};

/// A string without another one at its front, if it is there.
fn prefix_off<'a>(text: &'a str, part: &str) -> &'a str
    ensures { result.now ≡ spec.without_prefix text.now part.now }
{
    match text.strip_prefix(part) {
        Some(rest) => rest,
        None => text,
    }
}

/// A string without another one at its end, if it is there.
fn suffix_off<'a>(text: &'a str, part: &str) -> &'a str
    ensures { result.now ≡ spec.without_suffix text.now part.now }
{
    match text.strip_suffix(part) {
        Some(rest) => rest,
        None => text,
    }
}

/// `removeprefix(p)`: the string without `p` at its front, if it is there.
pub(crate) fn without_prefix(alloc: Global, text: &str, part: &str) -> Result<Answer, AllocError>
    ensures { IfOk result (λ a. a ≡ Answer.Text (spec.without_prefix text.now part.now)) }
{
    Ok(Answer::Text(Text::new(alloc, prefix_off(text, part))?))
}

/// `removesuffix(p)`: the string without `p` at its end, if it is there.
pub(crate) fn without_suffix(alloc: Global, text: &str, part: &str) -> Result<Answer, AllocError>
    ensures { IfOk result (λ a. a ≡ Answer.Text (spec.without_suffix text.now part.now)) }
{
    Ok(Answer::Text(Text::new(alloc, suffix_off(text, part))?))
}
