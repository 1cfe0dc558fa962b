//! The fields of `format`: the text between two braces, and the value that it names: the next one, one by number, or
//! one by keyword.
//!
//! A field's number may have any number of digits: reading stops at the first digit that makes it reach the number of
//! values, so a larger one is `Index` and nothing wraps.

ghost use Rattle.std.specs.Prelude.{◌≡◌, ◌-◌, MatchOption, false, length, nat_eq, slice_get, take, true};
ghost use Rattle.std.specs.List.{ends_with, find, list_all};
ghost use Rattle.std.specs.Option.{option_map};
ghost use Rattle.star_attribute.specs.Fields.{as_found, as_numbering, next_value, numbered_value, text_and_numbering};
ghost use Rattle.star_meaning.specs.Spelling.{is_digit, number_from};
ghost use Rattle.star_meaning.specs.Format as spec;
ghost use Rattle.star_machine.specs.Refines.{Refines, RefinesBy};
ghost use Rattle.star_outline.specs.Names.{same_name};

use star_dialect::Dialect;
use star_machine::fault::{EvalError, fault_at};
use star_machine::machine::Machine;
use star_machine::setting::Setting;
use star_meaning::fault::FaultCode;
use star_meaning::given::{Arguments, KeywordArgument};
use star_store::values::Value;
use star_visit::draft::Draft;

/// How fields have found their values so far.
#[derive(Clone, Copy, Debug, PartialEq, Eq)]
pub enum Numbering {
    /// No positional one yet.
    Unused,
    /// Some by the next place: this one is next.
    Automatic(usize),
    /// Some by number.
    ByNumber,
}

/// Whether a byte is a decimal digit.
fn is_digit(byte: u8) -> bool
    ensures { result ≡ is_digit byte }
{
    byte >= b'0' && byte <= b'9'
}

/// Whether a byte is an ASCII letter or `_`.
fn is_letter(byte: u8) -> bool
    ensures { result ≡ spec.is_letter byte }
{
    byte == b'_' || (byte >= b'A' && byte <= b'Z') || (byte >= b'a' && byte <= b'z')
}

/// Whether all bytes are decimal digits.
fn are_digits(bytes: &[u8]) -> bool
    ensures { result ≡ list_all is_digit bytes.now }
{
    for byte in bytes {
        if !is_digit(*byte) {
            return false;
        }
    }
    true
}

/// Whether all bytes are ASCII letters, `_` or decimal digits.
fn are_word_bytes(bytes: &[u8]) -> bool
    ensures { result ≡ list_all spec.is_word_byte bytes.now }
{
    for byte in bytes {
        if !is_letter(*byte) && !is_digit(*byte) {
            return false;
        }
    }
    true
}

/// Whether bytes write a name: an ASCII letter or `_`, and then ASCII letters, `_` and digits.
fn is_field_name(bytes: &[u8]) -> bool
    ensures { result ≡ spec.is_field_name bytes.now }
{
    match bytes {
        [first, rest @ ..] => is_letter(*first) && are_word_bytes(rest),
        [] => false,
    }
}

/// The value at a place; `None` beyond all values.
fn value_in(values: &[Value], place: usize) -> Option<Value>
    ensures { result ≡ slice_get values.now place }
{
    values.get(place).copied()
}

/// The value at the place that digits write; `None` if it is beyond all values, however large it is.
fn value_at(values: &[Value], digits: &[u8]) -> Option<Value>
    ensures { result ≡ slice_get values.now (number_from 0 digits.now) }
{
    let mut place: u128 = 0;
    for digit in digits {
        place = place * 10 + digit.saturating_sub(b'0') as u128;
        if place >= values.len() as u128 {
            return None;
        }
    }
    value_in(values, place as usize)
}

/// The first of the values with a name.
fn value_named(values: &[KeywordArgument], name: &str) -> Option<Value>
    ensures { result ≡ option_map (λ n. n.value) (find (λ n. same_name n.name name.now) values.now) }
{
    for named in values {
        if named.name.as_str() == name {
            return Some(named.value);
        }
    }
    None
}

/// The value at the next place. `BadValue` beside fields with numbers, `Index` if no value is left.
fn next_value(
    machine: &Machine,
    line: usize,
    values: &[Value],
    numbering: Numbering,
) -> Result<(Value, Numbering), EvalError>
    ensures { RefinesBy as_found (next_value line values.now (as_numbering numbering) machine.now) result machine.now }
{
    let place = match numbering {
        Numbering::Unused => 0,
        Numbering::Automatic(place) => place,
        Numbering::ByNumber => return Err(fault_at(FaultCode::BadValue, line)),
    };
    let Some(value) = value_in(values, place) else {
        return Err(fault_at(FaultCode::Index, line));
    };
    Ok((value, Numbering::Automatic(place + 1)))
}

/// The value at the place that digits write. `BadValue` beside fields with none, `Index` if it is beyond all values.
fn numbered_value(
    machine: &Machine,
    line: usize,
    values: &[Value],
    digits: &[u8],
    numbering: Numbering,
) -> Result<(Value, Numbering), EvalError>
    ensures { RefinesBy as_found (numbered_value line values.now digits.now (as_numbering numbering) machine.now)
        result machine.now }
{
    if let Numbering::Automatic(_) = numbering {
        return Err(fault_at(FaultCode::BadValue, line));
    }
    let Some(value) = value_at(values, digits) else {
        return Err(fault_at(FaultCode::Index, line));
    };
    Ok((value, Numbering::ByNumber))
}

/// The value with a name. `Key` if it is not given.
fn named_value(
    machine: &Machine,
    line: usize,
    values: &[KeywordArgument],
    name: &str,
    numbering: Numbering,
) -> Result<(Value, Numbering), EvalError>
    ensures { RefinesBy as_found (spec.named_value line values.now name.now (as_numbering numbering) machine.now)
        result machine.now }
{
    match value_named(values, name) {
        Some(value) => Ok((value, numbering)),
        None => Err(fault_at(FaultCode::Key, line)),
    }
}

/// The value of a field: `{}` is the next one, `{0}` one by its number, `{name}` one by its name. `BadValue` for
/// another field and for numbers beside `{}`, `Index` for a place beyond all values, `Key` for a name that is not
/// given.
fn field_value(
    machine: &Machine,
    line: usize,
    given: &Arguments,
    field: &str,
    numbering: Numbering,
) -> Result<(Value, Numbering), EvalError>
    ensures { RefinesBy as_found (spec.field_value line given.now field.now (as_numbering numbering) machine.now)
        result machine.now }
{
    if field.is_empty() {
        return next_value(machine, line, given.positional.as_slice(), numbering);
    }
    if are_digits(field.as_bytes()) {
        let digits = field.as_bytes();
        return numbered_value(
            machine,
            line,
            given.positional.as_slice(),
            digits,
            numbering,
        );
    }
    if is_field_name(field.as_bytes()) {
        return named_value(machine, line, given.named.as_slice(), field, numbering);
    }
    Err(fault_at(FaultCode::BadValue, line))
}

/// The part of a field before its end; `None` if it does not end so.
fn before_end<'f>(field: &'f str, end: &str) -> Option<&'f str>
    ensures { MatchOption result (ends_with nat_eq field.now end.now ≡ false)
        (λ x. (ends_with nat_eq field.now end.now ≡ true)
        × (x.now ≡ take (length field.now - length end.now) field.now)) }
{
    field.strip_suffix(end)
}

/// A field without a conversion at its end, and whether that is `!r`.
fn conversion_at_end(field: &str) -> (&str, bool)
    ensures field { result.0.now ≡ (spec.conversion Dialect.Extended field.now).0 }
    ensures by_repr { result.1 ≡ (spec.conversion Dialect.Extended field.now).1 }
{
    if let Some(before) = before_end(field, "!r") {
        return (before, true);
    }
    if let Some(before) = before_end(field, "!s") {
        return (before, false);
    }
    (field, false)
}

/// A field without its conversion, and whether its text is `repr`.
fn conversion(dialect: Dialect, field: &str) -> (&str, bool)
    ensures field { result.0.now ≡ (spec.conversion dialect field.now).0 }
    ensures by_repr { result.1 ≡ (spec.conversion dialect field.now).1 }
{
    match dialect {
        Dialect::Core => (field, false),
        Dialect::Extended => conversion_at_end(field),
    }
}

/// The text of a value: its `repr`, or its `str`.
fn text_by(
    machine: &mut Machine,
    setting: &Setting,
    levels: u32,
    line: usize,
    by_repr: bool,
    value: Value,
    room: usize,
) -> Result<Draft, EvalError>
    ensures { Refines (spec.text_by setting.now levels line by_repr value machine.old) result machine.new }
{
    if by_repr {
        return machine.repr(setting, levels, line, value, room);
    }
    machine.str(setting, levels, line, value, room)
}

/// The text of the value of a field, a draft in which at most about `room` bytes of long strings are copied, and how
/// fields find their values from then on. The faults are those of the field and of the text.
pub fn field_text(
    machine: &mut Machine,
    setting: &Setting,
    levels: u32,
    line: usize,
    given: &Arguments,
    field: &str,
    numbering: Numbering,
    room: usize,
) -> Result<(Draft, Numbering), EvalError>
    ensures { RefinesBy text_and_numbering
        (spec.field_text setting.now levels line given.now field.now (as_numbering numbering) machine.old)
        result machine.new }
{
    let (field, by_repr) = conversion(setting.dialect(), field);
    let (value, numbering) = field_value(machine, line, given, field, numbering)?;
    let text = text_by(machine, setting, levels, line, by_repr, value, room)?;
    Ok((text, numbering))
}
