//! `dir`, `getattr` and `hasattr`, of the extended language.

ghost use Rattle.star_meaning.specs.Attributes as spec;
ghost use Rattle.star_machine.specs.Refines.{Refines};

use star_attribute::attributes::{attribute_in, attribute_names, attribute_value};
use star_machine::call::Call;
use star_machine::fault::{EvalError, fault_at};
use star_machine::machine::Machine;
use star_meaning::fault::FaultCode;
use star_method::table::new_texts;
use star_store::values::Value;

/// `hasattr(x, name)`: whether a value has an attribute. `Args` for another number of values and for a keyword
/// argument, `BadType` if the name is not a string.
pub fn call_hasattr(machine: &Machine, call: &Call) -> Result<Value, EvalError>
    ensures { Refines (spec.call_hasattr call.now.setting.now call.now.line call.now.given.now machine.now)
        result machine.now }
{
    let (value, name) = call.two(machine)?;
    let name = machine.want_text(call.setting, call.line, name)?;
    let content = machine.content(call.setting, value);
    let found = attribute_in(call.setting.dialect(), content, name.as_str());
    Ok(Value::Bool(found.is_some()))
}

/// `getattr(x, name, [d])`: an attribute of a value, or `d` if the value does not have it. `Args` for another number of
/// values and for a keyword argument, `BadType` if the name is not a string, and without `d` if there is no such
/// attribute.
pub fn call_getattr(machine: &mut Machine, call: &Call) -> Result<Value, EvalError>
    ensures { Refines (spec.call_getattr call.now.setting.now call.now.line call.now.given.now machine.old)
        result machine.new }
{
    let (value, name, otherwise) = call.two_or_three(machine)?;
    let name = machine.want_text(call.setting, call.line, name)?;
    let content = machine.content(call.setting, value);
    match attribute_in(call.setting.dialect(), content, name.as_str()) {
        Some(attribute) => attribute_value(machine, call.line, value, attribute),
        None => match otherwise {
            Some(otherwise) => Ok(otherwise),
            None => Err(fault_at(FaultCode::BadType, call.line)),
        },
    }
}

/// `dir(x)`: the names of the attributes of a value in byte order, as new strings in a new list. `Args` for another
/// number of values and for a keyword argument.
pub fn call_dir(machine: &mut Machine, call: &Call) -> Result<Value, EvalError>
    ensures { Refines (spec.call_dir call.now.setting.now call.now.line call.now.given.now machine.old)
        result machine.new }
{
    let value = call.only_one(machine)?;
    let content = machine.content(call.setting, value);
    let names = attribute_names(machine.alloc(), call.setting.dialect(), content)?;
    let values = new_texts(machine, call.line, names.as_slice())?;
    machine.new_list(call.line, values)
}
