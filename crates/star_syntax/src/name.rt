//! The form of a name, as a loaded name's string must have it.

ghost use Rattle.std.specs.Prelude.{◌≡◌};
ghost use Rattle.star_syntax.specs.Names as spec;

use star_lex::scan::keyword;

fn is_word(text: &[u8]) -> bool
    ensures { result ≡ spec.is_word text.now }
{
    let mut rest = text;
    while let [byte, more @ ..] = rest {
        if !byte.is_ascii_alphanumeric() && *byte != b'_' {
            return false;
        }
        rest = more;
    }
    true
}

/// Whether a text has the form of a name and is not a keyword.
#[tactic(auto, unfolding(crate::specs::Names::is_name))]
pub fn is_name(text: &[u8]) -> bool
    ensures { result ≡ spec.is_name text.now }
{
    let [first, ..] = text else {
        return false;
    };
    !first.is_ascii_digit() && is_word(text) && keyword(text).is_none()
}
