//! The methods of dictionaries. `clear` is in `lists`.
//!
//! Entries are copied before they are gone through, since new tuples, puts and payments change the store meanwhile.

ghost use Rattle.std.specs.Prelude.{◌≡◌, IfOk, map, slice_get};
ghost use Rattle.star_meaning.specs.DictMethods as spec;
ghost use Rattle.star_machine.specs.Refines.{Refines};
ghost use Rattle.star_meaning.specs.Run.{each};
ghost use Rattle.star_meaning.specs.Subscript.{entries_in};
ghost use Rattle.star_meaning.specs.Values.{content};
ghost use Rattle.star_method.specs.Choices.{call_keyed, call_listed};

use star_machine::call::Call;
use star_machine::content::Content;
use star_machine::fault::{EvalError, fault_at};
use star_machine::machine::Machine;
use star_machine::pairs::{entries_of, update_with};
use star_machine::setting::Setting;
use star_machine::subscript::put_entry;
use star_meaning::fault::FaultCode;
use star_store::arena::write::Change;
use star_store::values::{Value, Values};
use std::alloc::{AllocError, Global};

/// The first entry of a dictionary, or of a set.
pub(crate) fn first_entry(
    machine: &Machine,
    setting: &Setting,
    value: Value,
) -> Option<(Value, Value)>
    ensures { result ≡ slice_get (entries_in (content setting.now machine.now value)) 0 }
{
    match machine.content(setting, value) {
        Content::Held(cell) => match cell.entries() {
            Some(entries) => entries.get(0),
            None => None,
        },
        _ => None,
    }
}

/// The value, else the one that is given, else None.
fn else_given(value: Option<Value>, given: Option<Value>) -> Value
    ensures { result ≡ spec.else_given value given }
{
    match value {
        Some(value) => value,
        None => given.unwrap_or(Value::NoneValue),
    }
}

/// `get(k, [d])`: the value under `k`, else `d`, else None. `BadType` if `k` is not hashable.
pub fn call_get(machine: &mut Machine, dict: Value, call: &Call) -> Result<Value, EvalError>
    ensures { Refines (spec.call_get call.now.setting.now call.now.levels call.now.line dict call.now.given.now
        machine.old) result machine.new }
{
    let (key, default) = call.one_or_two(machine)?;
    machine.check_key(call.setting, call.levels, call.line, key)?;
    let value = machine.value_in(call.setting, dict, key);
    Ok(else_given(value, default))
}

/// A new tuple of a key and its value.
fn pair_up(machine: &mut Machine, line: usize, entry: (Value, Value)) -> Result<Value, EvalError>
    ensures { Refines (spec.pair_up line entry machine.old) result machine.new }
{
    let (key, value) = entry;
    let pair = Vec::from_slice(machine.alloc(), &[key, value])?;
    machine.new_tuple(line, Values::new(pair))
}

/// A new tuple for each entry.
fn pairs_up(
    machine: &mut Machine,
    line: usize,
    entries: &[(Value, Value)],
) -> Result<Values, EvalError>
    ensures { Refines (each (spec.pair_up line) entries.now machine.old) result machine.new }
{
    let mut pairs = Vec::new(machine.alloc());
    for entry in entries {
        pairs.push(pair_up(machine, line, *entry)?)?;
    }
    Ok(Values::new(pairs))
}

/// The keys of entries.
fn keys_of(alloc: Global, entries: &[(Value, Value)]) -> Result<Vec<Value>, AllocError>
    ensures { IfOk result (λ v. v.items ≡ map (λ e. e.0) entries.now) }
{
    let mut keys = Vec::with_capacity(alloc, entries.len())?;
    for entry in entries {
        keys.push(entry.0)?;
    }
    Ok(keys)
}

/// The values of entries.
fn values_of(alloc: Global, entries: &[(Value, Value)]) -> Result<Vec<Value>, AllocError>
    ensures { IfOk result (λ v. v.items ≡ map (λ e. e.1) entries.now) }
{
    let mut values = Vec::with_capacity(alloc, entries.len())?;
    for entry in entries {
        values.push(entry.1)?;
    }
    Ok(values)
}

/// The parts of a dictionary's entries that a method lists: the entries, their keys or their values.
#[derive(Clone, Copy, Debug, PartialEq, Eq)]
pub enum Listed {
    Items,
    Keys,
    Values,
}

/// `items()`, `keys()` or `values()`: a new list of a new tuple for each entry, of the keys or of the values.
pub fn call_listed(
    machine: &mut Machine,
    listed: Listed,
    dict: Value,
    call: &Call,
) -> Result<Value, EvalError>
    ensures { Refines (call_listed call.now.setting.now call.now.line listed dict call.now.given.now machine.old)
        result machine.new }
{
    call.no_value(machine)?;
    let entries = entries_of(machine, call.setting, dict)?;
    let values = match listed {
        Listed::Items => pairs_up(machine, call.line, &entries)?,
        Listed::Keys => Values::new(keys_of(machine.alloc(), &entries)?),
        Listed::Values => Values::new(values_of(machine.alloc(), &entries)?),
    };
    machine.new_list(call.line, values)
}

/// A method of dictionaries that changes the entry of a key.
#[derive(Clone, Copy, Debug, PartialEq, Eq)]
pub enum Keyed {
    Pop,
    SetDefault,
}

/// `pop(k, [d])` or `setdefault(k, [d])`: the write guard, the check of the key, and then the value under `k`, which
/// `pop` takes out. If there is none, `pop` answers `d`, or `Key` without it; `setdefault` pays 1, and puts `d` or None
/// there.
pub fn call_keyed(
    machine: &mut Machine,
    keyed: Keyed,
    dict: Value,
    call: &Call,
) -> Result<Value, EvalError>
    ensures { Refines (call_keyed call.now.setting.now call.now.levels call.now.line keyed dict call.now.given.now
        machine.old) result machine.new }
{
    let (key, default) = call.one_or_two(machine)?;
    machine.guard(call.setting, call.line, dict)?;
    machine.check_key(call.setting, call.levels, call.line, key)?;
    match (keyed, machine.value_in(call.setting, dict, key)) {
        (Keyed::Pop, Some(value)) => {
            let _old = machine.change(call.setting, call.line, dict, Change::Delete(key))?;
            Ok(value)
        }
        (Keyed::Pop, None) => match default {
            Some(default) => Ok(default),
            None => Err(fault_at(FaultCode::Key, call.line)),
        },
        (Keyed::SetDefault, Some(value)) => Ok(value),
        (Keyed::SetDefault, None) => {
            let value = else_given(None, default);
            put_entry(machine, call.setting, call.line, dict, key, value)?;
            Ok(value)
        }
    }
}

/// `popitem()`: the write guard, `Key` for an empty dictionary, then the first entry as a new tuple, and it is taken
/// out.
pub fn call_popitem(machine: &mut Machine, dict: Value, call: &Call) -> Result<Value, EvalError>
    ensures { Refines (spec.call_popitem call.now.setting.now call.now.line dict call.now.given.now machine.old)
        result machine.new }
{
    call.no_value(machine)?;
    machine.guard(call.setting, call.line, dict)?;
    let Some(entry) = first_entry(machine, call.setting, dict) else {
        return Err(fault_at(FaultCode::Key, call.line));
    };
    let pair = pair_up(machine, call.line, entry)?;
    let _old = machine.change(call.setting, call.line, dict, Change::Delete(entry.0))?;
    Ok(pair)
}

/// `update([x], **kw)`: `BadType` if `x` is not iterable, the write guard, then the pairs of `x` and the keyword
/// arguments are put.
pub fn call_update(machine: &mut Machine, dict: Value, call: &Call) -> Result<Value, EvalError>
    ensures { Refines (spec.call_update call.now.setting.now call.now.levels call.now.line dict call.now.given.now
        machine.old) result machine.new }
{
    let source = machine.none_or_one(call.line, call.given.positional.as_slice())?;
    update_with(
        machine,
        call.setting,
        call.levels,
        call.line,
        dict,
        source,
        call.given.named.as_slice(),
    )?;
    Ok(Value::NoneValue)
}
