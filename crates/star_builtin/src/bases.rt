//! `int`, which has a base in the extended language.

ghost use Rattle.std.specs.Prelude.{◌≡◌, Some};
ghost use Rattle.std.specs.Option.{option_map};
ghost use Rattle.star_store.specs.Arithmetic.{checked};
ghost use Rattle.star_strings.specs.Ints as strings;
ghost use Rattle.star_meaning.specs.BuiltIns as spec;
ghost use Rattle.star_machine.specs.Refines.{Refines};

use crate::ints::narrow;
use crate::numbers::to_int;
use star_dialect::Dialect;
use star_machine::call::Call;
use star_machine::fault::{EvalError, fault_at};
use star_machine::machine::Machine;
use star_machine::setting::Setting;
use star_meaning::fault::FaultCode;
use star_store::fault::StoreFault;
use star_store::values::Value;
use star_strings::ints::{base_of, int_in};

/// `int(x)`: an int, a bool as 1 or 0, or the int that a string of an optional sign and decimal digits spells. `Args`
/// for another number of values and for a keyword argument, `BadType` for another value, `BadValue` for another string,
/// `Overflow` outside 64 bits.
fn int_alone(machine: &Machine, call: &Call) -> Result<Value, EvalError>
    ensures { Refines (spec.int_alone call.now.setting.now call.now.line call.now.given.now machine.now)
        result machine.now }
{
    let value = call.only_one(machine)?;
    to_int(machine, call.line, machine.content(call.setting, value))
}

/// The base, which is given by place or by name. `Args` if it is given by both.
fn one_base(
    machine: &Machine,
    line: usize,
    placed: Option<Value>,
    named: Option<Value>,
) -> Result<Option<Value>, EvalError>
    ensures { Refines (spec.one_base line placed named machine.now) result machine.now }
{
    match (placed, named) {
        (None, named) => Ok(named),
        (Some(placed), None) => Ok(Some(placed)),
        (Some(_), Some(_)) => Err(fault_at(FaultCode::Args, line)),
    }
}

/// The int that a text spells in a base. `Overflow` outside 64 bits; `None` for another text.
fn spelled_in(base: u32, text: &[u8]) -> Option<Result<i64, StoreFault>>
    ensures { result ≡ option_map checked (strings.int_in base text.now) }
{
    match int_in(base, text) {
        Some(int) => Some(narrow(int)),
        None => None,
    }
}

/// The int that a string spells in a base. `BadType` if it is not a string, or the base not an int; `BadValue` if there is
/// no such base, or the string spells no int in it; `Overflow` outside 64 bits.
fn int_in_base(
    machine: &Machine,
    setting: &Setting,
    line: usize,
    value: Value,
    base: Value,
) -> Result<Value, EvalError>
    ensures { Refines (spec.int_by setting.now line value (Some base) machine.now) result machine.now }
{
    let text = machine.want_text(setting, line, value)?;
    let number = machine.want_int(setting, line, base)?;
    let Some(base) = base_of(number) else {
        return Err(fault_at(FaultCode::BadValue, line));
    };
    match spelled_in(base, text.as_str().as_bytes()) {
        Some(int) => machine.new_int(line, int),
        None => Err(fault_at(FaultCode::BadValue, line)),
    }
}

/// `int(x, [base])`: as without a base, or the int that a string spells in one.
fn int_with_base(machine: &Machine, call: &Call) -> Result<Value, EvalError>
    ensures { Refines (spec.int_with_base call.now.setting.now call.now.line call.now.given.now machine.now)
        result machine.now }
{
    let (values, named) = machine.with_name(call.line, "base", call.given)?;
    let (value, placed) = machine.one_or_two(call.line, values)?;
    match one_base(machine, call.line, placed, named)? {
        Some(base) => int_in_base(machine, call.setting, call.line, value, base),
        None => to_int(machine, call.line, machine.content(call.setting, value)),
    }
}

/// `int(x)`, and `int(x, [base])` in the extended language.
pub fn call_int(machine: &Machine, call: &Call) -> Result<Value, EvalError>
    ensures { Refines (spec.call_int call.now.setting.now call.now.line call.now.given.now machine.now)
        result machine.now }
{
    match call.setting.dialect() {
        Dialect::Core => int_alone(machine, call),
        Dialect::Extended => int_with_base(machine, call),
    }
}
