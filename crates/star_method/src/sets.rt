//! The methods of sets. `clear` is in `lists`, the work of those with others in `star_machine::sets`.

ghost use Rattle.star_machine.specs.Refines.{Refines};
ghost use Rattle.star_meaning.specs.SetMethods as spec;

use crate::dicts::first_entry;
use crate::lists::call_clear;
use star_machine::call::Call;
use star_machine::fault::{EvalError, fault_at};
use star_machine::machine::Machine;
use star_machine::sets::{merge_into, merge_new, relate};
use star_machine::subscript::put_entry;
use star_meaning::fault::FaultCode;
use star_meaning::merge::{Merge, Relation};
use star_store::arena::write::Change;
use star_store::names::SetMethod;
use star_store::values::Value;

/// `add(x)`: the write guard, the check of the element, 1 if it is new, and it is put in.
fn call_add(machine: &mut Machine, set: Value, call: &Call) -> Result<Value, EvalError>
    ensures { Refines (spec.call_add call.now.setting.now call.now.levels call.now.line set call.now.given.now
        machine.old) result machine.new }
{
    let element = call.only_one(machine)?;
    machine.guard(call.setting, call.line, set)?;
    machine.check_key(call.setting, call.levels, call.line, element)?;
    put_entry(
        machine,
        call.setting,
        call.line,
        set,
        element,
        Value::NoneValue,
    )?;
    Ok(Value::NoneValue)
}

/// `discard(x)` or `remove(x)`: the write guard, the check of the element, and it is taken out. If it is absent, the
/// answer is `absent`, or `Key` without one.
fn call_out(
    machine: &mut Machine,
    absent: Option<Value>,
    set: Value,
    call: &Call,
) -> Result<Value, EvalError>
    ensures { Refines (spec.call_out call.now.setting.now call.now.levels call.now.line absent set call.now.given.now
        machine.old) result machine.new }
{
    let element = call.only_one(machine)?;
    machine.guard(call.setting, call.line, set)?;
    machine.check_key(call.setting, call.levels, call.line, element)?;
    match (machine.place_in(call.setting, set, element), absent) {
        (Some(_), _) => {
            let _old = machine.change(call.setting, call.line, set, Change::Delete(element))?;
            Ok(Value::NoneValue)
        }
        (None, Some(absent)) => Ok(absent),
        (None, None) => Err(fault_at(FaultCode::Key, call.line)),
    }
}

/// `pop()`: the write guard, `Key` for an empty set, then the first element is taken out.
fn call_first(machine: &mut Machine, set: Value, call: &Call) -> Result<Value, EvalError>
    ensures { Refines (spec.call_first call.now.setting.now call.now.line set call.now.given.now machine.old)
        result machine.new }
{
    call.no_value(machine)?;
    machine.guard(call.setting, call.line, set)?;
    let Some(entry) = first_entry(machine, call.setting, set) else {
        return Err(fault_at(FaultCode::Key, call.line));
    };
    let _old = machine.change(call.setting, call.line, set, Change::Delete(entry.0))?;
    Ok(entry.0)
}

/// `union(*others)` and the like: a new set.
fn call_merge(
    machine: &mut Machine,
    merge: Merge,
    set: Value,
    call: &Call,
) -> Result<Value, EvalError>
    ensures { Refines (spec.call_merge call.now.setting.now call.now.levels call.now.line merge set call.now.given.now
        machine.old) result machine.new }
{
    let others = machine.positional(call.line, call.given)?;
    merge_new(
        machine,
        call.setting,
        call.levels,
        call.line,
        merge,
        set,
        others,
    )
}

/// `update(*others)` and the like: the set is written.
fn call_merge_into(
    machine: &mut Machine,
    merge: Merge,
    set: Value,
    call: &Call,
) -> Result<Value, EvalError>
    ensures { Refines (spec.call_merge_into call.now.setting.now call.now.levels call.now.line merge set
        call.now.given.now machine.old) result machine.new }
{
    let others = machine.positional(call.line, call.given)?;
    merge_into(
        machine,
        call.setting,
        call.levels,
        call.line,
        merge,
        set,
        others,
    )?;
    Ok(Value::NoneValue)
}

/// `symmetric_difference(other)`: a new set.
fn call_merge_one(machine: &mut Machine, set: Value, call: &Call) -> Result<Value, EvalError>
    ensures { Refines (spec.call_merge_one call.now.setting.now call.now.levels call.now.line set call.now.given.now
        machine.old) result machine.new }
{
    let other = call.only_one(machine)?;
    let merge = Merge::SymmetricDifference;
    merge_new(
        machine,
        call.setting,
        call.levels,
        call.line,
        merge,
        set,
        &[other],
    )
}

/// `symmetric_difference_update(other)`: the set is written.
fn call_merge_one_into(machine: &mut Machine, set: Value, call: &Call) -> Result<Value, EvalError>
    ensures { Refines (spec.call_merge_one_into call.now.setting.now call.now.levels call.now.line set
        call.now.given.now machine.old) result machine.new }
{
    let other = call.only_one(machine)?;
    let merge = Merge::SymmetricDifference;
    merge_into(
        machine,
        call.setting,
        call.levels,
        call.line,
        merge,
        set,
        &[other],
    )?;
    Ok(Value::NoneValue)
}

/// `isdisjoint(other)`, `issubset(other)` or `issuperset(other)`.
fn call_relate(
    machine: &mut Machine,
    relation: Relation,
    set: Value,
    call: &Call,
) -> Result<Value, EvalError>
    ensures { Refines (spec.call_relate call.now.setting.now call.now.levels call.now.line relation set
        call.now.given.now machine.old) result machine.new }
{
    let other = call.only_one(machine)?;
    relate(
        machine,
        call.setting,
        call.levels,
        call.line,
        relation,
        set,
        other,
    )
}

/// Calls a method of a set. The faults are those of the method.
#[tactic(auto, unfolding(star_meaning::specs::SetMethods::call_on_set))]
pub fn call_on_set(
    machine: &mut Machine,
    method: SetMethod,
    set: Value,
    call: &Call,
) -> Result<Value, EvalError>
    ensures { Refines (spec.call_on_set call.now.setting.now call.now.levels call.now.line method set
        call.now.given.now machine.old) result machine.new }
{
    match method {
        SetMethod::Add => call_add(machine, set, call),
        SetMethod::Clear => call_clear(machine, set, call),
        SetMethod::Difference => call_merge(machine, Merge::Difference, set, call),
        SetMethod::DifferenceUpdate => call_merge_into(machine, Merge::Difference, set, call),
        SetMethod::Discard => call_out(machine, Some(Value::NoneValue), set, call),
        SetMethod::Intersection => call_merge(machine, Merge::Intersection, set, call),
        SetMethod::IntersectionUpdate => call_merge_into(machine, Merge::Intersection, set, call),
        SetMethod::Isdisjoint => call_relate(machine, Relation::IsDisjoint, set, call),
        SetMethod::Issubset => call_relate(machine, Relation::IsSubset, set, call),
        SetMethod::Issuperset => call_relate(machine, Relation::IsSuperset, set, call),
        SetMethod::Pop => call_first(machine, set, call),
        SetMethod::Remove => call_out(machine, None, set, call),
        SetMethod::SymmetricDifference => call_merge_one(machine, set, call),
        SetMethod::SymmetricDifferenceUpdate => call_merge_one_into(machine, set, call),
        SetMethod::Union => call_merge(machine, Merge::Union, set, call),
        SetMethod::Update => call_merge_into(machine, Merge::Union, set, call),
    }
}
