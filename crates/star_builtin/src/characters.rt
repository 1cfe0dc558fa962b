//! `ord`, `chr` and `hash`, of the extended language.

ghost use Rattle.star_meaning.specs.Characters as spec;
ghost use Rattle.star_machine.specs.Refines.{Refines};

use star_machine::call::Call;
use star_machine::fault::{EvalError, fault_at};
use star_machine::machine::Machine;
use star_meaning::fault::FaultCode;
use star_store::values::Value;
use star_strings::characters::{char_of, one, only_char};
use star_strings::ints::hash;

/// `ord(s)`: the number of the one character of a string. `Args` for another number of values and for a keyword
/// argument, `BadType` if it is not a string, `BadValue` if the string does not have just one character.
pub fn call_ord(machine: &Machine, call: &Call) -> Result<Value, EvalError>
    ensures { Refines (spec.call_ord call.now.setting.now call.now.line call.now.given.now machine.now)
        result machine.now }
{
    let value = call.only_one(machine)?;
    let text = machine.want_text(call.setting, call.line, value)?;
    match only_char(text.as_str()) {
        Some(only) => Ok(Value::Int(only as i64)),
        None => Err(fault_at(FaultCode::BadValue, call.line)),
    }
}

/// `chr(i)`: the character of a number, as a new string. `Args` for another number of values and for a keyword
/// argument, `BadType` if it is not an int, `BadValue` for a number that no character has.
pub fn call_chr(machine: &mut Machine, call: &Call) -> Result<Value, EvalError>
    ensures { Refines (spec.call_chr call.now.setting.now call.now.line call.now.given.now machine.old)
        result machine.new }
{
    let value = call.only_one(machine)?;
    let number = machine.want_int(call.setting, call.line, value)?;
    let Some(only) = char_of(number) else {
        return Err(fault_at(FaultCode::BadValue, call.line));
    };
    let text = one(machine.alloc(), only)?;
    machine.new_text(call.line, text)
}

/// `hash(s)`: the hash of a string, of which the bytes are paid. `Args` for another number of values and for a keyword
/// argument, `BadType` if it is not a string.
pub fn call_hash(machine: &mut Machine, call: &Call) -> Result<Value, EvalError>
    ensures { Refines (spec.call_hash call.now.setting.now call.now.line call.now.given.now machine.old)
        result machine.new }
{
    let value = call.only_one(machine)?;
    let text = machine.want_text(call.setting, call.line, value)?.share()?;
    machine.pay(call.line, text.as_str().len() as u128)?;
    Ok(Value::Int(hash(text.as_str())))
}
