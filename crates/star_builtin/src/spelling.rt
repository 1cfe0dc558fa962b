//! The int that a string spells, for `int`.
//!
//! Digits are valued up to 2^64 only, which is outside 64 bits either way. That all bytes are digits is tested first,
//! so a long string with another byte is `BadValue` and not `Overflow`.

ghost use Rattle.std.specs.Prelude.{◌≡◌, ◌^◌, neg_ℤ, pos};
ghost use Rattle.std.specs.List.{list_all};
ghost use Rattle.std.specs.Option.{option_map};
ghost use Rattle.star_store.specs.Arithmetic.{checked};
ghost use Rattle.star_meaning.specs.Spelling as spec;
ghost use Rattle.star_builtin.specs.Parts.{capped};

use crate::ints::narrow;
use star_store::fault::StoreFault;

/// A number above every int of 64 bits.
const BEYOND: u128 = 1 << 64;

/// Whether all bytes are decimal digits.
fn are_digits(bytes: &[u8]) -> bool
    ensures { result ≡ list_all spec.is_digit bytes.now }
{
    for byte in bytes {
        if *byte < b'0' || *byte > b'9' {
            return false;
        }
    }
    true
}

/// The number that digits write, or 2^64 if it is not below.
#[tactic(auto, using(crate::proofs::Digits::number_small))]
fn number_from(digits: &[u8]) -> u128
    ensures { result ≡ capped (spec.number_from 0 digits.now) }
{
    let mut number = 0;
    for digit in digits {
        number = number * 10 + digit.saturating_sub(b'0') as u128;
        if number >= BEYOND {
            return BEYOND;
        }
    }
    number
}

/// Bytes without leading zeros, taken off eight at a time; fewer than eight may be left. A program may ask for the int
/// of a long string of zeros again and again, and pays one step each time.
fn without_zeros(bytes: &[u8]) -> &[u8]
    ensures digits { list_all spec.is_digit result.now ≡ list_all spec.is_digit bytes.now }
    ensures number { spec.number_from 0 result.now ≡ spec.number_from 0 bytes.now }
{
    let mut rest = bytes;
    while let [b'0', b'0', b'0', b'0', b'0', b'0', b'0', b'0', more @ ..] = rest {
        rest = more;
    }
    rest
}

/// The number that decimal digits write, or 2^64 if it is not below; `None` for no digits, and for other bytes.
fn decimal_of(bytes: &[u8]) -> Option<u128>
    ensures { result ≡ option_map capped (spec.decimal_of bytes.now) }
{
    if bytes.is_empty() {
        return None;
    }
    let digits = without_zeros(bytes);
    if !are_digits(digits) {
        return None;
    }
    Some(number_from(digits))
}

/// The int above 0 that digits write. `Overflow` outside 64 bits; `None` for other bytes.
fn above(bytes: &[u8]) -> Option<Result<i64, StoreFault>>
    ensures { result ≡ option_map checked (spec.signed_by pos (spec.decimal_of bytes.now)) }
{
    match decimal_of(bytes) {
        Some(number) => Some(narrow(number as i128)),
        None => None,
    }
}

/// The int below 0 that digits write after its sign. `Overflow` outside 64 bits; `None` for other bytes.
fn below(bytes: &[u8]) -> Option<Result<i64, StoreFault>>
    ensures { result ≡ option_map checked (spec.signed_by (λ n. neg_ℤ (pos n)) (spec.decimal_of bytes.now)) }
{
    match decimal_of(bytes) {
        Some(number) => Some(narrow(-(number as i128))),
        None => None,
    }
}

/// The int that a string spells: an optional sign, and decimal digits. `Overflow` outside 64 bits; `None` for another
/// string.
pub fn spelled(text: &[u8]) -> Option<Result<i64, StoreFault>>
    ensures { result ≡ option_map checked (spec.spelled text.now) }
{
    match text {
        [] => None,
        [b'-', digits @ ..] => below(digits),
        [b'+', digits @ ..] => above(digits),
        digits => above(digits),
    }
}
