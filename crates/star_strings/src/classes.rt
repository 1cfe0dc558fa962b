//! Strings whose bytes are all of one class.

ghost use Rattle.std.specs.Prelude.{◌≡◌};
ghost use Rattle.std.specs.List.{list_all};
ghost use Rattle.star_strings.specs.Strings as spec;
ghost use Rattle.star_strings.specs.Words as words;

/// A class of bytes.
#[derive(Clone, Copy, Debug, PartialEq, Eq)]
pub(crate) enum Class {
    /// ASCII letters and digits.
    Alnum,
    /// ASCII letters.
    Alpha,
    /// ASCII digits.
    Digit,
    /// White space: the space and the bytes 9 to 13.
    Space,
}

/// Whether a byte is white space.
pub(crate) fn is_space(byte: u8) -> bool
    ensures { result ≡ words.is_space byte }
{
    byte == 32 || (byte > 8 && byte < 14)
}

/// Whether a byte is of a class.
fn is_in(class: Class, byte: u8) -> bool
    ensures { result ≡ spec.in_class class byte }
{
    match class {
        Class::Alnum => byte.is_ascii_alphanumeric(),
        Class::Alpha => byte.is_ascii_alphabetic(),
        Class::Digit => byte.is_ascii_digit(),
        Class::Space => is_space(byte),
    }
}

/// Whether all bytes are of a class.
fn are_all(class: Class, bytes: &[u8]) -> bool
    ensures { result ≡ list_all (spec.in_class class) bytes.now }
{
    for byte in bytes {
        if !is_in(class, *byte) {
            return false;
        }
    }
    true
}

/// `isalnum()`, `isalpha()`, `isdigit()`, `isspace()`: whether there is a byte, and each is of the class.
pub(crate) fn is_all(class: Class, text: &str) -> bool
    ensures { result ≡ spec.is_all class text.now }
{
    !text.is_empty() && are_all(class, text.as_bytes())
}
