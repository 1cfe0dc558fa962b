//! `abs`, `len`, and the int that a value is for `int`.

ghost use Rattle.std.specs.Prelude.{◌≡◌, unsigned_abs};
ghost use Rattle.star_meaning.specs.BuiltIns as spec;
ghost use Rattle.star_machine.specs.Refines.{Refines};
ghost use Rattle.star_machine.specs.Shown.{shown};
ghost use Rattle.star_builtin.specs.Parts as part;

use crate::ints::narrow;
use crate::spelling::spelled;
use star_machine::call::Call;
use star_machine::content::Content;
use star_machine::fault::{EvalError, fault_at};
use star_machine::machine::Machine;
use star_machine::setting::Setting;
use star_meaning::fault::FaultCode;
use star_store::values::{Cell, Value};

/// How far an int lies from 0. `Overflow` for the least one.
fn absolute(machine: &Machine, line: usize, int: i64) -> Result<Value, EvalError>
    ensures { Refines (spec.absolute line int machine.now) result machine.now }
{
    machine.new_int(line, narrow(int.unsigned_abs() as i128))
}

/// The int of a content: an int itself, a bool as 1 or 0, or the int that a string spells. `BadValue` for a string that
/// spells no int, `Overflow` for one outside 64 bits, `BadType` for another content.
pub(crate) fn to_int(machine: &Machine, line: usize, content: Content) -> Result<Value, EvalError>
    ensures { Refines (spec.to_int line (shown content.entry) machine.now) result machine.now }
{
    match content {
        Content::Number(int) => Ok(Value::Int(int)),
        Content::Truth(truth) => Ok(Value::Int(if truth { 1 } else { 0 })),
        Content::Held(Cell::Text(text)) => match spelled(text.as_str().as_bytes()) {
            Some(int) => machine.new_int(line, int),
            None => Err(fault_at(FaultCode::BadValue, line)),
        },
        _ => Err(fault_at(FaultCode::BadType, line)),
    }
}

/// How many bytes a string has, or items an iterable; `None` for another content.
fn length_in(content: Content) -> Option<usize>
    ensures { result ≡ spec.length_in (shown content.entry) }
{
    match content {
        Content::Held(Cell::Text(text)) => Some(text.as_str().len()),
        _ => content.count(),
    }
}

/// How many bytes a string has, or items an iterable. `BadType` for another value, `Overflow` for more than 2^63 - 1.
fn length_of(
    machine: &Machine,
    setting: &Setting,
    line: usize,
    value: Value,
) -> Result<Value, EvalError>
    ensures { Refines (part.length_of setting.now line value machine.now) result machine.now }
{
    match length_in(machine.content(setting, value)) {
        Some(length) => machine.new_int(line, narrow(length as i128)),
        None => Err(fault_at(FaultCode::BadType, line)),
    }
}

/// `abs(x)`: the distance of an int from 0. `Args` for another number of values and for a keyword argument, `BadType`
/// if it is not an int, `Overflow` for the least int.
pub fn call_abs(machine: &Machine, call: &Call) -> Result<Value, EvalError>
    ensures { Refines (spec.call_abs call.now.setting.now call.now.line call.now.given.now machine.now)
        result machine.now }
{
    let value = call.only_one(machine)?;
    let int = machine.want_int(call.setting, call.line, value)?;
    absolute(machine, call.line, int)
}

/// `len(x)`: the bytes of a string, or the items of an iterable. `Args` for another number of values and for a name,
/// `BadType` for another value.
pub fn call_len(machine: &Machine, call: &Call) -> Result<Value, EvalError>
    ensures { Refines (spec.call_len call.now.setting.now call.now.line call.now.given.now machine.now)
        result machine.now }
{
    let value = call.only_one(machine)?;
    length_of(machine, call.setting, call.line, value)
}
