//! `all`, `any` and `bool`.

ghost use Rattle.std.specs.Prelude.{◌≡◌};
ghost use Rattle.star_meaning.specs.BuiltIns as spec;
ghost use Rattle.star_machine.specs.Refines.{Refines};
ghost use Rattle.star_meaning.specs.Run.{Done, until};

use star_machine::call::Call;
use star_machine::fault::EvalError;
use star_machine::machine::Machine;
use star_machine::setting::Setting;
use star_store::values::Value;

/// Takes an item: whether its truth is the one looked for.
fn is_decided(
    machine: &mut Machine,
    wanted: bool,
    value: Value,
    at: usize,
    call: &Call,
) -> Result<bool, EvalError>
    ensures { Refines (spec.is_decided call.now.setting.now call.now.line wanted value at machine.old)
        result machine.new }
{
    let item = machine.take_item(call.setting, call.line, value, at)?;
    let truth = machine.is_true(call.setting, item);
    Ok(if truth { wanted } else { !wanted })
}

/// Takes items up to the first whose truth is `wanted`: whether one of the `count` items has it.
#[tactic(auto, using(star_machine::proofs::Turns::until_next))]
fn some_of(
    machine: &mut Machine,
    wanted: bool,
    value: Value,
    count: usize,
    call: &Call,
) -> Result<bool, EvalError>
    ensures { Refines (until (spec.is_decided call.now.setting.now call.now.line wanted value) count 0 machine.old)
        result machine.new }
{
    for i in 0..count {
        if is_decided(machine, wanted, value, i, call)? {
            return Ok(true);
        }
    }
    Ok(false)
}

/// The truth of a value, and of none False.
fn truth_of(machine: &Machine, setting: &Setting, value: Option<Value>) -> Value
    ensures { spec.truth_of setting.now value machine.now ≡ Done result machine.now }
{
    match value {
        Some(value) => Value::Bool(machine.is_true(setting, value)),
        None => Value::Bool(false),
    }
}

/// Whether one of the items of the one value has the truth `wanted`. `Args` for another number of values and for a
/// keyword argument, `BadType` if the value is not iterable.
fn some_item(machine: &mut Machine, wanted: bool, call: &Call) -> Result<bool, EvalError>
    ensures { Refines (spec.some_item call.now.setting.now call.now.line wanted call.now.given.now machine.old)
        result machine.new }
{
    let value = call.only_one(machine)?;
    let count = machine.count_of(call.setting, call.line, value)?;
    some_of(machine, wanted, value, count, call)
}

/// `all(it)`: whether all items count as true; items are taken up to the first that does not. `Args` for another number
/// of values and for a keyword argument, `BadType` if `it` is not iterable.
pub fn call_all(machine: &mut Machine, call: &Call) -> Result<Value, EvalError>
    ensures { Refines (spec.call_all call.now.setting.now call.now.line call.now.given.now machine.old)
        result machine.new }
{
    let some = some_item(machine, false, call)?;
    Ok(Value::Bool(!some))
}

/// `any(it)`: whether an item counts as true; items are taken up to the first that does. `Args` for another number of
/// values and for a keyword argument, `BadType` if `it` is not iterable.
pub fn call_any(machine: &mut Machine, call: &Call) -> Result<Value, EvalError>
    ensures { Refines (spec.call_any call.now.setting.now call.now.line call.now.given.now machine.old)
        result machine.new }
{
    let some = some_item(machine, true, call)?;
    Ok(Value::Bool(some))
}

/// `bool([x])`: whether a value counts as true, and False without one. `Args` for more values and for a name.
pub fn call_bool(machine: &Machine, call: &Call) -> Result<Value, EvalError>
    ensures { Refines (spec.call_bool call.now.setting.now call.now.line call.now.given.now machine.now)
        result machine.now }
{
    let value = call.none_or_one(machine)?;
    Ok(truth_of(machine, call.setting, value))
}
