//! Prefixes of a text: how many bytes of a class are at its front, whether it begins with a word, how long a line end
//! is.

ghost use Rattle.std.specs.Prelude.{◌≡◌, ◌≤◌, length, true};
ghost use Rattle.std.specs.List.{prefix_len};
ghost use Rattle.star_lex.specs.Values as spec;

/// A class of bytes.
#[derive(Clone, Copy)]
pub enum Class {
    /// A space.
    Space,
    /// A space or a tab.
    Blank,
    /// A letter, a digit or `_`.
    Word,
    /// Any byte that does not end a line.
    Line,
    /// A digit from 0 to 7.
    Octal,
}

pub fn is_line_end(byte: u8) -> bool
    ensures { result ≡ spec.is_line_end byte }
{
    byte == b'\n' || byte == b'\r'
}

pub fn is_in(class: Class, byte: u8) -> bool
    ensures { result ≡ spec.is_in class byte }
{
    match class {
        Class::Space => byte == b' ',
        Class::Blank => byte == b' ' || byte == b'\t',
        Class::Word => byte.is_ascii_alphanumeric() || byte == b'_',
        Class::Line => !is_line_end(byte),
        Class::Octal => b'0' <= byte && byte <= b'7',
    }
}

/// How many bytes at the front are of the class.
pub fn prefix_size(class: Class, text: &[u8]) -> usize
    ensures value { result ≡ prefix_len (spec.is_in class) text.now }
    ensures within { result ≤ length text.now }
    ensures moves { spec.Leads class text.now → 1 ≤ result }
{
    let mut size = 0;
    while size < text.len() && is_in(class, text[size]) {
        size += 1;
    }
    size
}

/// Whether the text begins with `front`.
pub fn starts_with(text: &[u8], front: &[u8]) -> bool
    ensures value { result ≡ spec.starts_with front.now text.now }
    ensures within { result ≡ true → length front.now ≤ length text.now }
{
    let mut rest = text;
    let mut left = front;
    while let [wanted, others @ ..] = left {
        let [byte, after @ ..] = rest else {
            return false;
        };
        if *byte != *wanted {
            return false;
        }
        rest = after;
        left = others;
    }
    true
}

/// How many bytes the line end at the front takes.
pub fn line_end_size(text: &[u8]) -> usize
    requires { 1 ≤ length text.now }
    ensures value { result ≡ spec.line_end_size text.now }
    ensures within { (1 ≤ result) × (result ≤ length text.now) }
{
    if starts_with(text, b"\r\n") { 2 } else { 1 }
}
