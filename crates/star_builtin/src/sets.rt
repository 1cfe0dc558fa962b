//! `set`: the items of an iterable, each once.

ghost use Rattle.star_machine.specs.Refines.{Refines};
ghost use Rattle.star_meaning.specs.SetMethods as spec;

use star_machine::call::Call;
use star_machine::fault::EvalError;
use star_machine::gathered::DictBuilder;
use star_machine::machine::Machine;
use star_machine::sets::{take_elements, with_elements};
use star_store::values::{Value, Values};

/// The items of the argument as elements; none without an argument. `BadType` if it is not iterable, or if an item is not
/// hashable.
fn elements_of(
    machine: &mut Machine,
    value: Option<Value>,
    call: &Call,
) -> Result<Values, EvalError>
    ensures { Refines (spec.elements_of call.now.setting.now call.now.levels call.now.line value machine.old)
        result machine.new }
{
    match value {
        Some(value) => take_elements(machine, call.setting, call.levels, call.line, value),
        None => Ok(Values::new(Vec::new(machine.alloc()))),
    }
}

/// `set([it])`: a new set of the items of an iterable. `Args` for more values, `BadType` if the value is not iterable or
/// an item is not hashable.
pub fn call_set(machine: &mut Machine, call: &Call) -> Result<Value, EvalError>
    ensures { Refines (spec.call_set call.now.setting.now call.now.levels call.now.line call.now.given.now machine.old)
        result machine.new }
{
    let value = call.none_or_one(machine)?;
    let items = elements_of(machine, value, call)?;
    let none = DictBuilder::new(machine.alloc());
    let set = with_elements(machine, call.setting, none, items.as_slice())?;
    machine.new_set(call.line, set.into_entries())
}
