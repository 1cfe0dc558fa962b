//! Which names a host may have whose calls are recorded.

ghost use Rattle.std.specs.Prelude.{◌≡◌};
ghost use Rattle.std.specs.List.{list_all};
ghost use Rattle.star_reading.specs.Record.{are_recordable, begins_word, goes_on, is_recordable, is_word};

use star_dialect::Dialect;
use star_lex::scan::keyword;
use star_scope::chain::is_own;
use star_text::Text;

/// Whether a word may begin with a byte.
fn begins_word(byte: u8) -> bool
    ensures { result ≡ begins_word byte }
{
    byte.is_ascii_alphabetic() || byte == b'_'
}

/// Whether a word may go on with a byte.
fn goes_on(byte: u8) -> bool
    ensures { result ≡ goes_on byte }
{
    begins_word(byte) || byte.is_ascii_digit()
}

/// Whether a word may go on with all of these bytes.
fn all_go_on(bytes: &[u8]) -> bool
    ensures { result ≡ list_all goes_on bytes.now }
{
    for byte in bytes {
        if !goes_on(*byte) {
            return false;
        }
    }
    true
}

/// Whether a text is a word: letters, digits and `_`, and no digit first.
fn is_word(text: &str) -> bool
    ensures { result ≡ is_word text.now }
{
    match text.as_bytes() {
        [first, rest @ ..] => begins_word(*first) && all_go_on(rest),
        [] => false,
    }
}

/// Whether calls of a name may be recorded: a word that is no keyword, reserved ones included, and none of the extended
/// language's outermost block.
pub fn is_recordable(name: &str) -> bool
    ensures { result ≡ is_recordable name.now }
{
    is_word(name) && keyword(name.as_bytes()).is_none() && !is_own(Dialect::Extended, name)
}

/// Whether this is so of all these names.
pub fn are_recordable(names: &[Text]) -> bool
    ensures { result ≡ are_recordable names.now }
{
    for name in names {
        if !is_recordable(name.as_str()) {
            return false;
        }
    }
    true
}
