//! The letters of formats after a `%`: each makes the text of one value.

ghost use Rattle.std.specs.Prelude.{◌≡◌};
ghost use Rattle.star_machine.specs.Refines.{Refines};
ghost use Rattle.star_operators.specs.Fills.{character_put, value_under};
ghost use Rattle.star_meaning.specs.Percent as spec;

use star_dialect::Dialect;
use star_machine::content::Content;
use star_machine::fault::{EvalError, fault_at};
use star_machine::machine::Machine;
use star_machine::setting::Setting;
use star_meaning::fault::FaultCode;
use star_store::values::{Cell, Value};
use star_strings::characters::{char_of, one, only_char};
use star_strings::ints::{Notation, int_text};
use star_text::Text;
use star_visit::draft::Draft;

/// The text of an int in octal or hexadecimal. `BadType` for another value.
fn int_as(
    machine: &mut Machine,
    setting: &Setting,
    levels: u32,
    line: usize,
    notation: Notation,
    value: Value,
    room: usize,
) -> Result<Draft, EvalError>
    ensures { Refines (spec.int_as setting.now levels line notation value machine.old) result machine.new }
{
    let int = machine.want_int(setting, line, value)?;
    let _visited = machine.str(setting, levels, line, value, room)?;
    let text = int_text(machine.alloc(), notation, int)?;
    Ok(Draft::of(machine.alloc(), text, room))
}

/// The character of an int, or a string of one character. `BadValue` if there is no such character, or not just one,
/// `BadType` for another value.
fn character_in(
    machine: &Machine,
    setting: &Setting,
    line: usize,
    value: Value,
) -> Result<Text, EvalError>
    ensures { Refines (character_put setting.now line value machine.now) result machine.now }
{
    match machine.content(setting, value) {
        Content::Number(int) => match char_of(int) {
            Some(character) => Ok(one(machine.alloc(), character)?),
            None => Err(fault_at(FaultCode::BadValue, line)),
        },
        Content::Held(Cell::Text(text)) => match only_char(text.as_str()) {
            Some(_character) => Ok(text.share()?),
            None => Err(fault_at(FaultCode::BadValue, line)),
        },
        _ => Err(fault_at(FaultCode::BadType, line)),
    }
}

/// The character that a value is, with its visit.
fn character_of(
    machine: &mut Machine,
    setting: &Setting,
    levels: u32,
    line: usize,
    value: Value,
    room: usize,
) -> Result<Draft, EvalError>
    ensures { Refines (spec.character_of setting.now levels line value machine.old) result machine.new }
{
    let text = character_in(machine, setting, line, value)?;
    let _visited = machine.str(setting, levels, line, value, room)?;
    Ok(Draft::of(machine.alloc(), text, room))
}

/// The text for a letter of the extended language: `x` and `X` make hexadecimals, `o` octals, `c` a character. `BadValue`
/// for another letter.
fn further_letter(
    machine: &mut Machine,
    setting: &Setting,
    levels: u32,
    line: usize,
    letter: u8,
    value: Value,
    room: usize,
) -> Result<Draft, EvalError>
    ensures { Refines (spec.further_letter setting.now levels line letter value machine.old) result machine.new }
{
    match letter {
        b'x' => int_as(
            machine,
            setting,
            levels,
            line,
            Notation::LowerHex,
            value,
            room,
        ),
        b'X' => int_as(
            machine,
            setting,
            levels,
            line,
            Notation::UpperHex,
            value,
            room,
        ),
        b'o' => int_as(machine, setting, levels, line, Notation::Octal, value, room),
        b'c' => character_of(machine, setting, levels, line, value, room),
        _ => Err(fault_at(FaultCode::BadValue, line)),
    }
}

/// The text of one value for a letter: `s` and `r` make its two texts, `d` the text of an int. `BadValue` for another
/// letter, `BadType` for `d` if the value is not an int. It is a draft, in which at most about `room` bytes of long
/// strings are copied.
pub(crate) fn format_letter(
    machine: &mut Machine,
    setting: &Setting,
    levels: u32,
    line: usize,
    letter: u8,
    value: Value,
    room: usize,
) -> Result<Draft, EvalError>
    ensures { Refines (spec.format_letter setting.now levels line letter value machine.old) result machine.new }
{
    match letter {
        b's' => machine.str(setting, levels, line, value, room),
        b'r' => machine.repr(setting, levels, line, value, room),
        b'd' => {
            let _int = machine.want_int(setting, line, value)?;
            machine.repr(setting, levels, line, value, room)
        }
        _ => match setting.dialect() {
            Dialect::Core => Err(fault_at(FaultCode::BadValue, line)),
            Dialect::Extended => further_letter(
                machine, setting, levels, line, letter, value, room,
            ),
        },
    }
}

/// Whether a letter is known after a name.
fn is_letter(letter: u8) -> bool
    ensures { result ≡ spec.is_letter letter }
{
    match letter {
        b's' | b'r' | b'd' | b'x' | b'X' | b'o' | b'c' => true,
        _ => false,
    }
}

/// The value that a dictionary has for a string. `BadType` if it is not a dictionary, `Key` if the string is absent.
fn value_for(
    machine: &Machine,
    setting: &Setting,
    line: usize,
    dict: Value,
    name: &Text,
) -> Result<Value, EvalError>
    ensures { Refines (value_under setting.now line dict name.now machine.now) result machine.now }
{
    match machine.content(setting, dict) {
        Content::Held(Cell::Dict(_)) => match machine.text_value(setting, dict, name) {
            Some(value) => Ok(value),
            None => Err(fault_at(FaultCode::Key, line)),
        },
        _ => Err(fault_at(FaultCode::BadType, line)),
    }
}

/// The text of the value that a dictionary has for a string, for a letter. `BadValue` for another letter, then the
/// faults of the look-up and of the text.
pub(crate) fn named_text(
    machine: &mut Machine,
    setting: &Setting,
    levels: u32,
    line: usize,
    dict: Value,
    name: &str,
    letter: u8,
    room: usize,
) -> Result<Draft, EvalError>
    ensures { Refines (spec.named_text setting.now levels line dict name.now letter machine.old) result machine.new }
{
    if !is_letter(letter) {
        return Err(fault_at(FaultCode::BadValue, line));
    }
    let name = Text::new(machine.alloc(), name)?;
    let value = value_for(machine, setting, line, dict, &name)?;
    format_letter(machine, setting, levels, line, letter, value, room)
}
