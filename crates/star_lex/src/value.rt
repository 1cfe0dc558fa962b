//! The values of ints and strings: digits with their base, quotes, escapes.

ghost use Rattle.std.specs.Prelude.{◌≡◌, ◌+◌, ◌++◌, ◌-◌, ◌<◌, ◌≤◌, ◌^◌, length, take, IfSome, IfOk, pos, unwrap_or, true};
ghost use Rattle.std.specs.List.{prefix_len};
ghost use Rattle.star_lex.specs.Values as spec;

use crate::prefix::{Class, is_in, is_line_end, line_end_size, prefix_size, starts_with};
use crate::token::Span;
use std::alloc::{AllocError, Global};

/// How a string is quoted.
#[derive(Clone, Copy)]
pub struct Quoting {
    /// An `r` before the quotes: backslashes stay.
    pub raw: bool,
    /// `'` or `"`.
    pub quote: u8,
    /// Quoted three times: the string may have line ends.
    pub triple: bool,
}

/// The meaning of a part of a string's inside.
#[derive(Clone, Copy)]
pub enum EscapeValue {
    /// No byte, as for a backslash and a line end.
    Nothing,
    Byte(u8),
    /// A backslash and the byte.
    Kept(u8),
    /// The bytes of the character in UTF-8.
    Scalar(char),
}

const GREATEST: u64 = 0x7fff_ffff_ffff_ffff;

#[tactic(auto, using(crate::proofs::Parts::past_limit))]
fn number(base: u32, most: u64, text: &[u8]) -> Option<u64>
    requires base { (2 ≤ base) × (base ≤ 16) }
    requires most { most < 2 ^ 63 }
    ensures value { result ≡ spec.at_most most (spec.number base 0 text.now) }
    ensures within { IfSome result (λ n. n ≤ most) }
{
    let mut rest = text;
    let mut value: u64 = 0;
    while let [byte, more @ ..] = rest {
        let digit = (*byte as char).to_digit(base)?;
        let next = value as u128 * base as u128 + digit as u128;
        if next > most as u128 {
            return None;
        }
        value = next as u64;
        rest = more;
    }
    Some(value)
}

fn digits(base: u32, text: &[u8]) -> Option<u64>
    requires { (2 ≤ base) × (base ≤ 16) }
    ensures value { result ≡ spec.digits base spec.greatest text.now }
    ensures within { IfSome result (λ n. n < 2 ^ 63) }
{
    if text.is_empty() {
        return None;
    }
    number(base, GREATEST, text)
}

/// The value of an int; `None` if the text is not an int, or the int is above the greatest.
pub fn int_of(text: &[u8]) -> Option<u64>
    ensures value { result ≡ spec.int_of text.now }
    ensures within { IfSome result (λ n. n < 2 ^ 63) }
{
    if starts_with(text, b"0x") || starts_with(text, b"0X") {
        digits(16, &text[2..])
    } else if starts_with(text, b"0o") || starts_with(text, b"0O") {
        digits(8, &text[2..])
    } else if starts_with(text, b"0") {
        if text.len() == 1 { Some(0) } else { None }
    } else {
        digits(10, text)
    }
}

/// The bytes of a source that a span takes, as far as the source has them: the text of a token of that source.
#[tactic(auto, using(crate::proofs::Parts::taken_short, crate::proofs::Parts::taken_none))]
pub fn text_at(source: &[u8], span: Span) -> &[u8]
    ensures { result.now ≡ spec.text_at source.now span }
{
    let end = if span.end < source.len() {
        span.end
    } else {
        source.len()
    };
    if span.start < end {
        &source[span.start..end]
    } else {
        &[]
    }
}

/// The value of an int; 0 for a text that is not an int.
pub fn int_value(text: &[u8]) -> i64
    ensures { result ≡ pos (spec.int_value text.now) }
{
    int_of(text).unwrap_or(0) as i64
}

/// How the string at the front of a text is quoted; `None` if none begins.
pub fn quoting_of(text: &[u8]) -> Option<Quoting>
    ensures value { result ≡ spec.quoting text.now }
    ensures within { IfSome result (λ q. (1 ≤ spec.opening q) × (spec.opening q ≤ length text.now)) }
{
    let raw = starts_with(text, b"r");
    let start = if raw { &text[1..] } else { text };
    let [quote, rest @ ..] = start else {
        return None;
    };
    let quote = *quote;
    if quote != b'"' && quote != b'\'' {
        return None;
    }
    let triple = starts_with(rest, &[quote, quote]);
    Some(Quoting { raw, quote, triple })
}

/// The number of bytes before a string's inside.
pub fn opening(quoting: Quoting) -> usize
    ensures value { result ≡ spec.opening quoting }
    ensures within { (1 ≤ result) × (result ≤ 4) }
{
    let before = if quoting.raw { 1 } else { 0 };
    before + quotes_size(quoting)
}

/// How many bytes the quotes take that open or close a string.
fn quotes_size(quoting: Quoting) -> usize
    ensures value { result ≡ length (spec.quotes quoting) }
    ensures within { (1 ≤ result) × (result ≤ 3) }
{
    if quoting.triple { 3 } else { 1 }
}

fn closes(quoting: Quoting, text: &[u8]) -> bool
    ensures value { result ≡ spec.starts_with (spec.quotes quoting) text.now }
    ensures within { result ≡ true → length (spec.quotes quoting) ≤ length text.now }
{
    let [first, rest @ ..] = text else {
        return false;
    };
    *first == quoting.quote
        && (!quoting.triple || starts_with(rest, &[quoting.quote, quoting.quote]))
}

fn numbered(base: u32, size: usize, most: u64, text: &[u8]) -> Option<(usize, EscapeValue)>
    requires base { (2 ≤ base) × (base ≤ 16) }
    requires most { most ≤ 1114111 }
    ensures value { result ≡ spec.numbered base size most text.now }
    ensures within { IfSome result (λ p. (p.0 ≡ size) × (size ≤ length text.now)) }
{
    if text.len() < size {
        return None;
    }
    let value = number(base, most, &text[..size])?;
    let character = char::from_u32(value as u32)?;
    Some((size, EscapeValue::Scalar(character)))
}

fn letter(byte: u8) -> Option<(usize, EscapeValue)>
    ensures value { result ≡ spec.letter byte }
    ensures within { IfSome result (λ p. p.0 ≡ 1) }
{
    let meant = match byte {
        b'a' => 7,
        b'b' => 8,
        b'f' => 12,
        b'n' => 10,
        b'r' => 13,
        b't' => 9,
        b'v' => 11,
        b'\\' | b'"' | b'\'' => byte,
        _ => return None,
    };
    Some((1, EscapeValue::Byte(meant)))
}

fn octal_size(text: &[u8]) -> usize
    ensures value { result ≡ prefix_len (spec.is_in Class.Octal) (take 3 text.now) }
    ensures within { (result ≤ 3) × (result ≤ length text.now) }
{
    let most = if text.len() < 3 { text.len() } else { 3 };
    prefix_size(Class::Octal, &text[..most])
}

fn escape(text: &[u8]) -> Option<(usize, EscapeValue)>
    ensures value { result ≡ spec.escape text.now }
    ensures within { IfSome result (λ p. p.0 ≤ length text.now) }
{
    let [first, rest @ ..] = text else {
        return None;
    };
    if is_line_end(*first) {
        return Some((line_end_size(text), EscapeValue::Nothing));
    }
    if is_in(Class::Octal, *first) {
        return numbered(8, octal_size(text), 127, text);
    }
    let (size, meaning) = match *first {
        b'x' => numbered(16, 2, 127, rest)?,
        b'u' => numbered(16, 4, 0x10_ffff, rest)?,
        b'U' => numbered(16, 8, 0x10_ffff, rest)?,
        byte => return letter(byte),
    };
    Some((1 + size, meaning))
}

fn plain(triple: bool, text: &[u8]) -> Option<(usize, u8)>
    ensures value { result ≡ spec.plain triple text.now }
    ensures within { IfSome result (λ p. (1 ≤ p.0) × (p.0 ≤ length text.now)) }
{
    let [first, ..] = text else {
        return None;
    };
    if !is_line_end(*first) {
        return Some((1, *first));
    }
    if triple {
        Some((line_end_size(text), b'\n'))
    } else {
        None
    }
}

#[tactic(auto, unfolding(crate::specs::Values::part))]
fn part(quoting: Quoting, text: &[u8]) -> Option<(usize, EscapeValue)>
    ensures value { result ≡ spec.part quoting text.now }
    ensures within { IfSome result (λ p. (1 ≤ p.0) × (p.0 ≤ length text.now)) }
{
    let [first, rest @ ..] = text else {
        return None;
    };
    if *first != b'\\' {
        let (size, byte) = plain(quoting.triple, text)?;
        return Some((size, EscapeValue::Byte(byte)));
    }
    if quoting.raw {
        let (size, byte) = plain(quoting.triple, rest)?;
        return Some((1 + size, EscapeValue::Kept(byte)));
    }
    let (size, meaning) = escape(rest)?;
    Some((1 + size, meaning))
}

#[tactic(auto, using(crate::proofs::Parts::closed_here, crate::proofs::Parts::closed_never, crate::proofs::Parts::closed_later, crate::proofs::Parts::closed_nil, crate::proofs::Parts::more_more))]
/// The number of bytes from a string's inside up to its closing quotes, and with them; `None` if it does not end.
pub fn closed(quoting: Quoting, text: &[u8]) -> Option<usize>
    ensures value { result ≡ spec.closed quoting text.now }
    ensures within { IfSome result (λ n. n ≤ length text.now) }
{
    let mut rest = text;
    while !rest.is_empty() {
        if closes(quoting, rest) {
            return Some(text.len() - rest.len() + quotes_size(quoting));
        }
        let Some((size, _meaning)) = part(quoting, rest) else {
            return None;
        };
        rest = &rest[size..];
    }
    None
}

fn push_bytes(out: &mut Vec<u8>, bytes: &[u8]) -> Result<(), AllocError>
    ensures { IfOk result (λ _. out.new.items ≡ out.old.items ++ bytes.now) }
{
    for byte in bytes {
        out.push(*byte)?;
    }
    Ok(())
}

fn push_meant(out: &mut Vec<u8>, meaning: EscapeValue) -> Result<(), AllocError>
    ensures { IfOk result (λ _. out.new.items ≡ out.old.items ++ spec.meant meaning) }
{
    match meaning {
        EscapeValue::Nothing => {}
        EscapeValue::Byte(byte) => out.push(byte)?,
        EscapeValue::Kept(byte) => {
            out.push(b'\\')?;
            out.push(byte)?;
        }
        EscapeValue::Scalar(character) => {
            let mut room = [0; 4];
            push_bytes(out, character.encode_utf8(&mut room).as_bytes())?;
        }
    }
    Ok(())
}

#[tactic(auto, using(crate::proofs::Parts::decoded_none))]
fn decoded(alloc: Global, quoting: Quoting, text: &[u8]) -> Result<Vec<u8>, AllocError>
    ensures { IfOk result (λ v. v.items ≡ spec.decoded quoting text.now) }
{
    let mut out = Vec::new(alloc);
    let mut rest = text;
    'parts: loop {
        match part(quoting, rest) {
            None => return Ok(out),
            Some((size, meaning)) => {
                push_meant(&mut out, meaning)?;
                rest = &rest[size..];
            }
        }
    }
}

#[tactic(auto, using(crate::proofs::Parts::decoded_nil))]
/// The bytes that a string means: its inside with the escapes decoded and each line end read as LF. `text` is the text
/// of a token of kind `Text`. The answer is empty for a text that no string begins.
pub fn string_value(alloc: Global, text: &[u8]) -> Result<Vec<u8>, AllocError>
    ensures { IfOk result (λ v. v.items ≡ spec.string_value text.now) }
{
    let Some(quoting) = quoting_of(text) else {
        return Ok(Vec::new(alloc));
    };
    let start = opening(quoting);
    let quotes = quotes_size(quoting);
    if text.len() < start + quotes {
        return Ok(Vec::new(alloc));
    }
    decoded(alloc, quoting, &text[start..text.len() - quotes])
}
