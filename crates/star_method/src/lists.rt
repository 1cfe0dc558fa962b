//! The methods of lists.

ghost use Rattle.std.specs.Prelude.{◌≡◌, ◌≤◌, length, slice_get};
ghost use Rattle.star_machine.specs.Refines.{Refines};
ghost use Rattle.star_meaning.specs.ListMethods as spec;
ghost use Rattle.star_meaning.specs.Run.{all_of};
ghost use Rattle.star_meaning.specs.Values.{content};

use star_dialect::Dialect;
use star_machine::call::Call;
use star_machine::content::{Content, Kind};
use star_machine::fault::{EvalError, fault_at};
use star_machine::machine::Machine;
use star_machine::setting::Setting;
use star_machine::slices::{bound_of, want_part};
use star_machine::subscript::place_from;
use star_meaning::fault::FaultCode;
use star_store::arena::write::Change;
use star_store::values::{Cell, Value};

/// How many items a list has; 0 for another value.
fn item_count(machine: &Machine, setting: &Setting, list: Value) -> usize
    ensures { result ≡ length (spec.items_of (content setting.now machine.now list)) }
{
    match machine.content(setting, list) {
        Content::Held(Cell::List(items)) => items.len(),
        _ => 0,
    }
}

/// Adds values after all others.
fn add_items(
    machine: &mut Machine,
    setting: &Setting,
    line: usize,
    list: Value,
    items: &[Value],
) -> Result<(), EvalError>
    ensures { Refines (all_of (spec.add_item setting.now line list) items.now machine.old) result machine.new }
{
    for item in items {
        let _old = machine.change(setting, line, list, Change::Append(*item))?;
    }
    Ok(())
}

/// `append(x)`: the write guard, then 1 is paid, then `x` is added at the end.
pub fn call_append(machine: &mut Machine, list: Value, call: &Call) -> Result<Value, EvalError>
    ensures { Refines (spec.call_append call.now.setting.now call.now.line list call.now.given.now machine.old)
        result machine.new }
{
    let item = call.only_one(machine)?;
    machine.guard(call.setting, call.line, list)?;
    machine.pay(call.line, 1)?;
    let _old = machine.change(call.setting, call.line, list, Change::Append(item))?;
    Ok(Value::NoneValue)
}

/// `clear()`, of a list or a dictionary: the write guard, then all is taken out.
pub fn call_clear(machine: &mut Machine, container: Value, call: &Call) -> Result<Value, EvalError>
    ensures { Refines (spec.call_clear call.now.setting.now call.now.line container call.now.given.now machine.old)
        result machine.new }
{
    call.no_value(machine)?;
    machine.guard(call.setting, call.line, container)?;
    let _old = machine.change(call.setting, call.line, container, Change::Clear)?;
    Ok(Value::NoneValue)
}

/// Adds the items of an iterable: `BadType` if it is not iterable, the write guard, all items, 1 for each.
#[tactic(auto, unfolding(star_meaning::specs::ListMethods::extend))]
pub fn extend(
    machine: &mut Machine,
    setting: &Setting,
    line: usize,
    list: Value,
    items: Value,
) -> Result<(), EvalError>
    ensures { Refines (spec.extend setting.now line list items machine.old) result machine.new }
{
    let count = machine.count_of(setting, line, items)?;
    machine.guard(setting, line, list)?;
    let taken = machine.take_items(setting, line, items, count)?;
    machine.pay(line, count as u128)?;
    add_items(machine, setting, line, list, taken.as_slice())
}

/// `extend(it)`: adds the items of `it` at the end.
pub fn call_extend(machine: &mut Machine, list: Value, call: &Call) -> Result<Value, EvalError>
    ensures { Refines (spec.call_extend call.now.setting.now call.now.line list call.now.given.now machine.old)
        result machine.new }
{
    let items = call.only_one(machine)?;
    extend(machine, call.setting, call.line, list, items)?;
    Ok(Value::NoneValue)
}

/// The place of the first item of a list that is equal to a value.
#[tactic(auto, unfolding(star_machine::specs::Search::found_place), using(crate::proofs::EqualPlaces::place_in_list, crate::proofs::EqualPlaces::place_in_none))]
fn equal_place(
    machine: &mut Machine,
    setting: &Setting,
    levels: u32,
    line: usize,
    list: Value,
    value: Value,
) -> Result<Option<usize>, EvalError>
    ensures { Refines (spec.with_items setting.now list (spec.equal_place setting.now levels line value 0) machine.old)
        result machine.new }
{
    match machine.kind(setting, list) {
        Kind::List => machine.equal_place(setting, levels, line, list, value),
        _ => Ok(None),
    }
}

/// The place of the first item that is equal to a value. `BadValue` if there is none.
fn place_with(
    machine: &mut Machine,
    list: Value,
    value: Value,
    call: &Call,
) -> Result<usize, EvalError>
    ensures { Refines (spec.place_with call.now.setting.now call.now.levels call.now.line list value machine.old)
        result machine.new }
{
    let place = equal_place(machine, call.setting, call.levels, call.line, list, value)?;
    place.ok_or(fault_at(FaultCode::BadValue, call.line))
}

/// The item of a list at a place; `None` outside, and for another value.
fn item_at(machine: &Machine, setting: &Setting, list: Value, at: usize) -> Option<Value>
    ensures { result ≡ slice_get (spec.items_of (content setting.now machine.now list)) at }
{
    match machine.content(setting, list) {
        Content::Held(Cell::List(items)) => items.get(at),
        _ => None,
    }
}

/// The place of the first item, from one place on and before another, that is equal to a value.
#[tactic(auto, using(crate::proofs::Between::rest_at, crate::proofs::Between::no_rest, crate::proofs::Between::past_end, crate::proofs::Between::same_items))]
fn equal_between(
    machine: &mut Machine,
    list: Value,
    value: Value,
    from: usize,
    to: usize,
    call: &Call,
) -> Result<Option<usize>, EvalError>
    // It is long since it names each argument of the definition.
    ensures { Refines (spec.with_items call.now.setting.now list (spec.equal_between call.now.setting.now
        call.now.levels call.now.line value from to) machine.old) result machine.new }
{
    let mut at = from;
    while at < to {
        let Some(item) = item_at(machine, call.setting, list, at) else {
            return Ok(None);
        };
        if machine.equal(call.setting, call.levels, call.line, item, value)? {
            return Ok(Some(at));
        }
        at += 1;
    }
    Ok(None)
}

/// A bound in a list, held within 0 and its length; `absent` without one.
fn item_bound(len: usize, absent: usize, place: Option<i64>) -> usize
    requires { absent ≤ len }
    ensures { result ≡ spec.item_bound len absent place }
{
    bound_of(len, 0, len as i128, absent as i128, place).unsigned_abs() as usize
}

/// The index of a value among the items from one bound on and before another. `BadType` for a bound that is neither an int
/// nor None, `BadValue` if no item is equal.
fn index_between(
    machine: &mut Machine,
    list: Value,
    value: Value,
    from: Option<Value>,
    to: Option<Value>,
    call: &Call,
) -> Result<Value, EvalError>
    // It is long since it names each argument of the definition.
    ensures { Refines (spec.index_between call.now.setting.now call.now.levels call.now.line list value from to
        machine.old) result machine.new }
{
    let from = want_part(machine, call.setting, call.line, from)?;
    let to = want_part(machine, call.setting, call.line, to)?;
    let len = item_count(machine, call.setting, list);
    let from = item_bound(len, 0, from);
    let to = item_bound(len, len, to);
    let place = equal_between(machine, list, value, from, to, call)?;
    let place = place.ok_or(fault_at(FaultCode::BadValue, call.line))?;
    machine.new_count(call.line, place)
}

/// The index of a value in a whole list. `BadValue` if no item is equal.
fn index_of(
    machine: &mut Machine,
    list: Value,
    value: Value,
    call: &Call,
) -> Result<Value, EvalError>
    ensures { Refines (spec.index_of call.now.setting.now call.now.levels call.now.line list value machine.old) result
        machine.new }
{
    let at = place_with(machine, list, value, call)?;
    machine.new_count(call.line, at)
}

/// `index(x, [a, [b]])`: the place of the first item that is equal to `x`, in the extended language within bounds.
/// `BadValue` if there is none.
pub fn call_index(machine: &mut Machine, list: Value, call: &Call) -> Result<Value, EvalError>
    ensures { Refines (spec.call_index call.now.setting.now call.now.levels call.now.line list call.now.given.now
        machine.old) result machine.new }
{
    let values = machine.positional(call.line, call.given)?;
    match (call.setting.dialect(), values) {
        (_, [value]) => index_of(machine, list, *value, call),
        (Dialect::Extended, [value, from]) => {
            index_between(machine, list, *value, Some(*from), None, call)
        }
        (Dialect::Extended, [value, from, to]) => {
            index_between(machine, list, *value, Some(*from), Some(*to), call)
        }
        _ => Err(fault_at(FaultCode::Args, call.line)),
    }
}

/// A place, counted from the end if it is below 0, and then clamped between 0 and a length.
fn insert_place(len: usize, place: i64) -> usize
    ensures { result ≡ spec.insert_place len place }
{
    bound_of(len, 0, len as i128, 0, Some(place)).unsigned_abs() as usize
}

/// `insert(i, x)`: `BadType` if `i` is not an int, the write guard, then 1 is paid, then `x` is put before the item at
/// `i`.
pub fn call_insert(machine: &mut Machine, list: Value, call: &Call) -> Result<Value, EvalError>
    ensures { Refines (spec.call_insert call.now.setting.now call.now.line list call.now.given.now machine.old)
        result machine.new }
{
    let (place, item) = machine.two(call.line, machine.positional(call.line, call.given)?)?;
    let place = machine.want_int(call.setting, call.line, place)?;
    machine.guard(call.setting, call.line, list)?;
    machine.pay(call.line, 1)?;
    let at = insert_place(item_count(machine, call.setting, list), place);
    let _old = machine.change(call.setting, call.line, list, Change::Insert(at, item))?;
    Ok(Value::NoneValue)
}

/// `pop([i])`: `BadType` if `i` is not an int, the write guard, `Index` outside; the item is taken out, the last one
/// without `i`.
pub fn call_pop(machine: &mut Machine, list: Value, call: &Call) -> Result<Value, EvalError>
    ensures { Refines (spec.call_pop call.now.setting.now call.now.line list call.now.given.now machine.old)
        result machine.new }
{
    let place = call.none_or_one(machine)?;
    let place = match place {
        Some(place) => machine.want_int(call.setting, call.line, place)?,
        None => -1,
    };
    machine.guard(call.setting, call.line, list)?;
    let Some(at) = place_from(item_count(machine, call.setting, list), place) else {
        return Err(fault_at(FaultCode::Index, call.line));
    };
    let item = machine.change(call.setting, call.line, list, Change::RemoveAt(at))?;
    item.ok_or(fault_at(FaultCode::Index, call.line))
}

/// `remove(x)`: the write guard, then the first item that is equal to `x` goes. `BadValue` if there is none.
pub fn call_remove(machine: &mut Machine, list: Value, call: &Call) -> Result<Value, EvalError>
    ensures { Refines (spec.call_remove call.now.setting.now call.now.levels call.now.line list call.now.given.now
        machine.old) result machine.new }
{
    let value = call.only_one(machine)?;
    machine.guard(call.setting, call.line, list)?;
    let at = place_with(machine, list, value, call)?;
    let _old = machine.change(call.setting, call.line, list, Change::RemoveAt(at))?;
    Ok(Value::NoneValue)
}
