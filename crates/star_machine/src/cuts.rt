//! Cuts strings at ASCII bytes, so that no character is cut.

ghost use Rattle.std.specs.Prelude.{◌≡◌, ◌<◌, ◌+◌, ◌∷◌, length, take, drop, get_or, MatchOption, true, false};
ghost use Rattle.std.specs.List.{list_all};
ghost use Rattle.star_machine.specs.Cuts.{IsCut, begins_plainly, is_neither};

/// The text before the first of two ASCII bytes, which of them it is, and the text after it.
#[tactic(auto, using(crate::proofs::Parts::cut_whole, crate::proofs::Parts::all_more))]
pub fn cut_at(text: &str, first: u8, second: u8) -> Option<(&str, u8, &str)>
    requires first { first < 128 }
    requires second { second < 128 }
    ensures { MatchOption result (list_all (is_neither first second) text.now ≡ true)
        (λ x. IsCut first second text.now x.0.now x.1 x.2.now) }
{
    for at in 0..text.len() {
        let byte = text.as_bytes()[at];
        if byte == first || byte == second {
            return Some(cut_here(text, at));
        }
    }
    None
}

/// The text before an ASCII byte, the byte, and the text after it.
fn cut_here(text: &str, at: usize) -> (&str, u8, &str)
    requires within { at < length text.now }
    requires ascii { get_or text.now at 0 < 128 }
    ensures { (result.0.now ≡ take at text.now) × (result.1 ≡ get_or text.now at 0)
        × (result.2.now ≡ drop (at + 1) text.now) }
{
    (&text[..at], text.as_bytes()[at], &text[at + 1..])
}

/// The first byte of a text, if it is ASCII, and the text after it.
pub fn first_ascii(text: &str) -> Option<(u8, &str)>
    ensures { MatchOption result (begins_plainly text.now ≡ false) (λ x. (text.now ≡ x.0 ∷ x.1.now) × (x.0 < 128)) }
{
    if text.is_empty() || text.as_bytes()[0] >= 128 {
        return None;
    }
    let (_before, byte, after) = cut_here(text, 0);
    Some((byte, after))
}
