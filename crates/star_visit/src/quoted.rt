//! How a string is shown, and how it is written as JSON: in quotes, with escapes.

ghost use Rattle.std.specs.Prelude.{◌≡◌, ◌<◌, ◌++◌, OnOk, string_bytes};
ghost use Rattle.std.specs.Char.{digit_char};
ghost use Rattle.json.specs.Print as json;
ghost use Rattle.star_store.specs.Text.{plain_char, quoted, shown, shown_char};

use json::Writer;
use std::alloc::{AllocError, Global};

/// Puts a string in quotes after a text.
pub(crate) fn put_quoted(out: &mut String, text: &str) -> Result<(), AllocError>
    ensures { OnOk result (string_bytes out.new ≡ string_bytes out.old ++ quoted text.now) }
{
    out.push('"')?;
    put_chars(out, text)?;
    out.push('"')
}

/// Puts a string as JSON after a text. What the writer wrote is UTF-8; were it not, the answer would be as for want of
/// memory.
#[tactic(auto, using(crate::proofs::Sheets::print_string))]
pub(crate) fn put_json(alloc: Global, out: &mut String, text: &str) -> Result<(), AllocError>
    ensures { OnOk result (string_bytes out.new ≡ string_bytes out.old ++ json.quoted text.now) }
{
    let mut writer = Writer::new(Vec::new(alloc));
    writer.string(text)?;
    match String::from_utf8(writer.into_inner()) {
        Ok(written) => out.push_str(written.as_str()),
        Err(_) => Err(AllocError),
    }
}

/// Puts the characters of a string, as its text shows them, after a text.
fn put_chars(out: &mut String, text: &str) -> Result<(), AllocError>
    ensures { OnOk result (string_bytes out.new ≡ string_bytes out.old ++ shown text.now) }
{
    for c in text.chars() {
        put_char(out, c)?;
    }
    Ok(())
}

/// Puts a character of a string, as its text shows it, after a text.
#[tactic(auto, unfolding(star_store::specs::Text::shown_char))]
fn put_char(out: &mut String, c: char) -> Result<(), AllocError>
    ensures { OnOk result (string_bytes out.new ≡ string_bytes out.old ++ shown_char c) }
{
    match c {
        '"' => out.push_str("\\\""),
        '\\' => out.push_str("\\\\"),
        '\n' => out.push_str("\\n"),
        '\r' => out.push_str("\\r"),
        '\t' => out.push_str("\\t"),
        _ => put_plain(out, c),
    }
}

/// Puts a character as itself, or, below 32 and at 127, by `\x` and two lower-case hexadecimal digits.
fn put_plain(out: &mut String, c: char) -> Result<(), AllocError>
    ensures { OnOk result (string_bytes out.new ≡ string_bytes out.old ++ plain_char c) }
{
    if (c as u32) < 32 || c as u32 == 127 {
        out.push_str("\\x")?;
        out.push(hex_digit(c as u32 / 16))?;
        out.push(hex_digit(c as u32 % 16))
    } else {
        out.push(c)
    }
}

/// A lower-case hexadecimal digit.
fn hex_digit(n: u32) -> char
    requires { n < 16 }
    ensures value { result ≡ digit_char n }
    ensures ascii { result < 128 }
{
    if n < 10 {
        (b'0' + n as u8) as char
    } else {
        (b'a' + (n - 10) as u8) as char
    }
}
