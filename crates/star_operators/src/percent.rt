//! `%` on a string: walks over the format, letter by letter. The texts of values are made by `letters`.

ghost use Rattle.std.specs.Prelude.{◌≡◌, ◌≤◌, [], IfOk, length};
ghost use Rattle.star_machine.specs.Refines.{Refines};
ghost use Rattle.star_operators.specs.Fills.{Fills, FillsOn, FillsPast, letter_put, percent_of};
ghost use Rattle.star_meaning.specs.Percent as spec;
ghost use Rattle.star_meaning.specs.Values.{content};

use crate::letters::{format_letter, named_text};
use star_dialect::Dialect;
use star_machine::content::Content;
use star_machine::cuts::{cut_at, first_ascii};
use star_machine::fault::{EvalError, fault_at};
use star_machine::machine::Machine;
use star_machine::setting::Setting;
use star_meaning::fault::FaultCode;
use star_store::values::{Cell, Value};
use star_visit::draft::Draft;
use std::alloc::AllocError;

/// Puts the text that a letter after a `%` makes of the next value, or a `%` for another `%`. Returns the values that
/// are left. `BadValue` if the letter needs a value and there is none.
fn put_letter<'v>(
    machine: &mut Machine,
    setting: &Setting,
    levels: u32,
    line: usize,
    out: &mut Draft,
    letter: u8,
    values: &'v [Value],
) -> Result<&'v [Value], EvalError>
    ensures { Fills (letter_put setting.now levels line letter values.now out.old machine.old) result out.new
        machine.new }
{
    if letter == b'%' {
        out.say("%")?;
        return Ok(values);
    }
    let Some((value, left)) = values.split_first() else {
        return Err(fault_at(FaultCode::BadValue, line));
    };
    let room = out.room();
    let text = format_letter(machine, setting, levels, line, letter, *value, room)?;
    out.put_draft(text)?;
    Ok(left)
}

/// Whether a name begins after a `%`: in the extended language, with `(`.
fn opens(dialect: Dialect, letter: u8) -> bool
    ensures { result ≡ spec.opens dialect letter }
{
    match dialect {
        Dialect::Core => false,
        Dialect::Extended => letter == b'(',
    }
}

/// Puts the text of the value that a dictionary has for a name, which is in parentheses before a letter. Returns the rest
/// of the format. `BadValue` if no `)` follows, or no letter after it.
fn put_named<'f>(
    machine: &mut Machine,
    setting: &Setting,
    levels: u32,
    line: usize,
    out: &mut Draft,
    after: &'f str,
    dict: Value,
) -> Result<&'f str, EvalError>
    ensures reads { FillsOn setting.now levels line dict
        (spec.filled setting.now levels line dict (spec.Name []) after.now [] out.old machine.old)
        result out.new machine.new }
    ensures shorter { IfOk result (λ r. length r.now ≤ length after.now) }
{
    let Some((name, _close, after)) = cut_at(after, b')', b')') else {
        return Err(fault_at(FaultCode::BadValue, line));
    };
    let Some((letter, more)) = first_ascii(after) else {
        return Err(fault_at(FaultCode::BadValue, line));
    };
    let room = out.room();
    let text = named_text(machine, setting, levels, line, dict, name, letter, room)?;
    out.put_draft(text)?;
    Ok(more)
}

/// Puts what a `%` and all that belongs to it make: the text of the next value for a letter, of a value by its name, or
/// a `%`. Returns the rest of the format and the values that are left.
fn put_format<'f, 'v>(
    machine: &mut Machine,
    setting: &Setting,
    levels: u32,
    line: usize,
    out: &mut Draft,
    after: &'f str,
    right: Value,
    values: &'v [Value],
) -> Result<(&'f str, &'v [Value]), EvalError>
    ensures reads { FillsPast setting.now levels line right
        (spec.filled setting.now levels line right spec.Format after.now values.now out.old machine.old)
        result out.new machine.new }
    ensures shorter { IfOk result (λ r. length r.0.now ≤ length after.now) }
{
    let Some((letter, more)) = first_ascii(after) else {
        return Err(fault_at(FaultCode::BadValue, line));
    };
    if opens(setting.dialect(), letter) {
        let rest = put_named(machine, setting, levels, line, out, more, right)?;
        return Ok((rest, &[]));
    }
    let left = put_letter(machine, setting, levels, line, out, letter, values)?;
    Ok((more, left))
}

/// The format from left to right, with the texts of the values in place of its letters. `BadValue` for another letter,
/// and for too few or too many values.
fn filled(
    machine: &mut Machine,
    setting: &Setting,
    levels: u32,
    line: usize,
    format: &str,
    right: Value,
    values: &[Value],
) -> Result<Draft, EvalError>
    ensures { Refines (spec.filled setting.now levels line right spec.Between format.now values.now [] machine.old)
        result machine.new }
{
    let mut out = Draft::new(machine.alloc(), machine.steps_left() as usize);
    let mut rest = format;
    let mut left = values;
    while let Some((before, _percent, after)) = cut_at(rest, b'%', b'%') {
        out.say(before)?;
        let (more, others) = put_format(
            machine, setting, levels, line, &mut out, after, right, left,
        )?;
        rest = more;
        left = others;
    }
    out.say(rest)?;
    if !left.is_empty() {
        return Err(fault_at(FaultCode::BadValue, line));
    }
    Ok(out)
}

/// The values that are put in: a tuple's items, else the one value.
fn put_in(machine: &Machine, setting: &Setting, value: Value) -> Result<Vec<Value>, AllocError>
    ensures { IfOk result (λ xs. xs.items ≡ spec.put_in (content setting.now machine.now value) value) }
{
    if let Content::Held(Cell::Tuple(items)) = machine.content(setting, value) {
        return Vec::from_slice(machine.alloc(), items.as_slice());
    }
    Vec::from_slice(machine.alloc(), &[value])
}

/// `text % value`: the bytes of the string are paid, then the texts are made, then the new string is paid, and it is built
/// only if that can be paid.
pub fn percent(
    machine: &mut Machine,
    setting: &Setting,
    levels: u32,
    line: usize,
    text: Value,
    value: Value,
) -> Result<Value, EvalError>
    ensures { Refines (percent_of setting.now levels line text value machine.old) result machine.new }
{
    let format = machine.copied_text(setting, text)?;
    let values = put_in(machine, setting, value)?;
    machine.pay(line, format.as_str().len() as u128)?;
    let made = filled(
        machine,
        setting,
        levels,
        line,
        format.as_str(),
        value,
        &values,
    )?;
    machine.new_draft(line, made)
}
