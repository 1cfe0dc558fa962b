//! Ints as texts: in octal and hexadecimal, and as strings spell them in a base; and the hash of a string.
//!
//! Digits are valued up to 2^64 only, which is outside 64 bits either way. That all bytes are digits is tested first, so
//! a long string with another byte spells no int.

ghost use Rattle.std.specs.Prelude.{◌≡◌, ◌<◌, ◌≤◌, IfOk, IfSome, drop, length, string_bytes};
ghost use Rattle.std.specs.Char.{digit_value, is_digit};
ghost use Rattle.std.specs.List.{list_all};
ghost use Rattle.std.specs.Option.{option_map};
ghost use Rattle.star_strings.specs.Ints as spec;

use star_text::Text;
use std::alloc::{AllocError, Global};

/// A number above every int of 64 bits.
const BEYOND: u128 = 1 << 64;

/// How an int is written, beside decimals.
#[derive(Clone, Copy, Debug, PartialEq, Eq)]
pub enum Notation {
    Octal,
    LowerHex,
    UpperHex,
}

/// The digits of a number.
fn size_text(alloc: Global, notation: Notation, size: u64) -> Result<String, AllocError>
    ensures { IfOk result (λ t. string_bytes t ≡ spec.size_text notation size) }
{
    match notation {
        Notation::Octal => format!(in alloc; "{size:o}"),
        Notation::LowerHex => format!(in alloc; "{size:x}"),
        Notation::UpperHex => format!(in alloc; "{size:X}"),
    }
}

/// The text of an int. The error: an allocation failed.
pub fn int_text(alloc: Global, notation: Notation, int: i64) -> Result<Text, AllocError>
    ensures { IfOk result (λ t. t ≡ spec.int_text notation int) }
{
    let digits = size_text(alloc, notation, int.unsigned_abs())?;
    if int >= 0 {
        return Text::of(digits);
    }
    let mut text = String::from_str(alloc, "-")?;
    text.push_str(digits.as_str())?;
    Text::of(text)
}

/// The value of a digit or of a letter; 36 for another byte.
fn digit_value(byte: u8) -> u32
    ensures { result ≡ digit_value byte }
{
    if byte >= b'0' && byte <= b'9' {
        return (byte - b'0') as u32;
    }
    if byte >= b'A' && byte <= b'Z' {
        return (byte - b'A') as u32 + 10;
    }
    if byte >= b'a' && byte <= b'z' {
        return (byte - b'a') as u32 + 10;
    }
    36
}

/// Whether all bytes are digits of a base.
fn are_digits(base: u32, bytes: &[u8]) -> bool
    ensures { result ≡ list_all (λ d. is_digit d base) bytes.now }
{
    for byte in bytes {
        if digit_value(*byte) >= base {
            return false;
        }
    }
    true
}

/// The number that digits write, or 2^64 if it is not below.
#[tactic(auto, using(crate::proofs::Numbers::number_small))]
fn number_from(base: u32, digits: &[u8]) -> u128
    requires { 1 ≤ base }
    ensures { result ≡ spec.capped (spec.number_from base 0 digits.now) }
{
    let mut number = 0;
    for digit in digits {
        number = number * base as u128 + digit_value(*digit) as u128;
        if number >= BEYOND {
            return BEYOND;
        }
    }
    number
}

/// What comes after eight zeros.
fn past_zeros(bytes: &[u8]) -> Option<&[u8]>
    ensures zeros { IfSome result (λ rest. bytes.now ≡ spec.after_zeros rest.now) }
    ensures shorter { IfSome result (λ rest. length rest.now < length bytes.now) }
{
    match bytes {
        [b'0', b'0', b'0', b'0', b'0', b'0', b'0', b'0', rest @ ..] => Some(rest),
        _ => None,
    }
}

/// Bytes without leading zeros, taken off eight at a time; fewer than eight may be left. A program may ask for the int
/// of a long string of zeros again and again, and pays one step each time.
fn without_zeros(base: u32, bytes: &[u8]) -> &[u8]
    requires { 1 ≤ base }
    ensures digits { list_all (λ d. is_digit d base) result.now ≡ list_all (λ d. is_digit d base) bytes.now }
    ensures number { spec.number_from base 0 result.now ≡ spec.number_from base 0 bytes.now }
    ensures zeros { list_all spec.is_zero result.now ≡ list_all spec.is_zero bytes.now }
{
    let mut rest = bytes;
    while let Some(more) = past_zeros(rest) {
        rest = more;
    }
    rest
}

/// The number that digits of a base write, or 2^64 if it is not below; `None` for no digits, and for other bytes.
fn number_in(base: u32, bytes: &[u8]) -> Option<u128>
    requires { 1 ≤ base }
    ensures { result ≡ option_map spec.capped (spec.number_in base bytes.now) }
{
    if bytes.is_empty() {
        return None;
    }
    let digits = without_zeros(base, bytes);
    if !are_digits(base, digits) {
        return None;
    }
    Some(number_from(base, digits))
}

/// Whether all bytes are zeros.
fn are_zeros(bytes: &[u8]) -> bool
    ensures { result ≡ list_all spec.is_zero bytes.now }
{
    for byte in bytes {
        if *byte != b'0' {
            return false;
        }
    }
    true
}

/// Whether a zero is at the front, and not only zeros are there.
fn has_front_zero(text: &[u8]) -> bool
    ensures { result ≡ spec.has_front_zero text.now }
{
    match text {
        [b'0', rest @ ..] => !are_zeros(without_zeros(10, rest)),
        _ => false,
    }
}

/// The base that the letter of a prefix says.
fn letter_base(letter: u8) -> Option<u32>
    ensures base { result ≡ spec.letter_base letter }
    ensures some { IfSome result (λ base. 2 ≤ base) }
{
    match letter {
        b'b' => Some(2),
        b'o' => Some(8),
        b'x' => Some(16),
        _ => None,
    }
}

/// The base that the prefix of a text says, and what is after the prefix.
fn prefix_of(text: &[u8]) -> Option<(u32, &[u8])>
    ensures base { option_map (λ p. p.0) result ≡ spec.prefix_base text.now }
    ensures rest { IfSome result (λ p. p.1.now ≡ drop 2 text.now) }
    ensures some { IfSome result (λ p. 2 ≤ p.0) }
{
    let [b'0', letter, rest @ ..] = text else {
        return None;
    };
    match letter_base(letter.to_ascii_lowercase()) {
        Some(base) => Some((base, rest)),
        None => None,
    }
}

/// The number that a text without a prefix spells.
fn unprefixed(base: u32, text: &[u8]) -> Option<u128>
    ensures { result ≡ option_map spec.capped (spec.unprefixed base text.now) }
{
    if base > 0 {
        return number_in(base, text);
    }
    if has_front_zero(text) {
        return None;
    }
    number_in(10, text)
}

/// The number that a text without a sign spells, or 2^64 if it is not below; `None` if it spells none.
fn size_in(base: u32, text: &[u8]) -> Option<u128>
    ensures { result ≡ option_map spec.capped (spec.size_in base text.now) }
{
    let Some((own, rest)) = prefix_of(text) else {
        return unprefixed(base, text);
    };
    if base == 0 || base == own {
        return number_in(own, rest);
    }
    unprefixed(base, text)
}

/// The int above 0 that a text spells after its sign.
fn above(base: u32, text: &[u8]) -> Option<i128>
    ensures { result ≡ option_map spec.held_int (spec.above (spec.size_in base text.now)) }
{
    match size_in(base, text) {
        Some(size) => Some(size as i128),
        None => None,
    }
}

/// The int below 0 that a text spells after its sign.
#[tactic(auto, using(crate::proofs::Numbers::held_below))]
fn below(base: u32, text: &[u8]) -> Option<i128>
    ensures { result ≡ option_map spec.held_int (spec.below (spec.size_in base text.now)) }
{
    match size_in(base, text) {
        Some(size) => Some(-(size as i128)),
        None => None,
    }
}

/// The int that a string spells in a base: a sign, a prefix and the base of it, or digits. It is held within 2^64, which
/// is outside 64 bits on either side. `None` if it spells none.
pub fn int_in(base: u32, text: &[u8]) -> Option<i128>
    ensures { result ≡ option_map spec.held_int (spec.int_in base text.now) }
{
    match text {
        [] => None,
        [b'-', digits @ ..] => below(base, digits),
        [b'+', digits @ ..] => above(base, digits),
        digits => above(base, digits),
    }
}

/// Whether there is a base of this number: 0, and from 2 to 36.
pub fn base_of(number: i64) -> Option<u32>
    ensures { result ≡ spec.base_of number }
{
    if number == 0 || (number > 1 && number < 37) {
        return Some(number as u32);
    }
    None
}

/// The hash of a string.
pub fn hash(text: &str) -> i64
    ensures { result ≡ spec.hash text.now }
{
    let number = hash_of(text.as_bytes());
    if number < 1 << 31 {
        return number as i64;
    }
    number as i64 - (1 << 32)
}

/// The lowest 32 bits of the hash of bytes.
fn hash_of(bytes: &[u8]) -> u32
    ensures { result ≡ spec.hash_from 0 bytes.now }
{
    let mut number: u32 = 0;
    for byte in bytes {
        number = ((number as u64 * 31 + *byte as u64) % (1 << 32)) as u32;
    }
    number
}
