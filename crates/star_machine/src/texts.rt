//! Finds a string in another one, between two places.

ghost use Rattle.std.specs.Prelude.{◌≡◌};
ghost use Rattle.star_meaning.specs.Operators.{place_between};

use memchr::memmem;

/// The least place of a part from one place on, with its end at most at another. Its time is in proportion to the
/// lengths of the two texts.
#[tactic(auto, using(crate::proofs::Windows::found_in_part, crate::proofs::Windows::past_all, crate::proofs::Windows::empty_stands, crate::proofs::Windows::empty_past))]
pub fn place_between(text: &[u8], part: &[u8], from: usize, to: usize) -> Option<usize>
    ensures { result ≡ place_between text.now part.now from to }
{
    if from > to {
        return None;
    }
    if part.is_empty() {
        return Some(from);
    }
    let end = to.min(text.len());
    if from > end {
        return None;
    }
    match memmem::find(&text[from..end], part) {
        Some(at) => Some(from + at),
        None => None,
    }
}
