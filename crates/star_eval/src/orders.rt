//! Calls of `sorted`, `max` and `min` with `key` in the extended language: the function of `key` is called with each item,
//! before any comparison.
//!
//! The arguments are unpacked and the items compared in `star_builtin::orders`.

ghost use Rattle.std.specs.Prelude.{◌≡◌, IfOk};
ghost use Rattle.star_machine.specs.Refines.{Refines, RefinesBy};
ghost use Rattle.star_meaning.specs.Calls as calls;
ghost use Rattle.star_meaning.specs.Run.{each};
ghost use Rattle.star_builtin.specs.Best.{better};
ghost use Rattle.star_world.specs.World.{semantics};

use crate::evaluate::call_plainly;
use sqlite_items::Items;
use star_builtin::best::Best;
use star_builtin::calls::call_built_in;
use star_builtin::orders::{
    asked_for_best, asked_to_sort, best_by, each_by_itself, is_named, sort_by,
};
use star_dialect::Dialect;
use star_enter::calls::callee_of;
use star_machine::call::Call;
use star_machine::fault::EvalError;
use star_machine::machine::Machine;
use star_meaning::given::Arguments;
use star_meaning::site::Site;
use star_store::names::BuiltIn;
use star_store::values::{Value, Values};
use star_world::world::World;
use std::alloc::{AllocError, Global};

/// Whether a call of a built-in function may have a function of `key`: in the extended language, if the name is given.
pub(crate) fn takes_key(world: &World, given: &Arguments) -> bool
    ensures { result ≡ calls.takes_key world.now.setting.language.dialect given.now }
{
    match world.setting().dialect() {
        Dialect::Core => false,
        Dialect::Extended => is_named("key", given.named.as_slice()),
    }
}

/// A call of a built-in function with `key`. Those that call no function have the faults of a plain call.
#[cycle(run)]
#[inline(never)]
pub(crate) fn call_by_key(
    machine: &mut Machine,
    world: &World,
    levels: u32,
    site: &Site,
    function: BuiltIn,
    given: &Arguments,
) -> Result<Value, EvalError>
    ensures { Refines (calls.called_by_key world.now.setting levels (semantics world.now levels) site.now function
        given.now machine.old) result machine.new }
{
    match function {
        BuiltIn::Sorted => sorted_by_key(machine, world, levels, site, given),
        BuiltIn::Max => best_by_key(machine, world, levels, site, Best::Greatest, given),
        BuiltIn::Min => best_by_key(machine, world, levels, site, Best::Least, given),
        _ => call_built_in(machine, world.setting(), levels, site.line, function, given),
    }
}

/// `sorted(it, key=None, reverse=False)`: the items, their keys, the sorting, a new list.
#[cycle(run)]
fn sorted_by_key(
    machine: &mut Machine,
    world: &World,
    levels: u32,
    site: &Site,
    given: &Arguments,
) -> Result<Value, EvalError>
    ensures { Refines (calls.sorted_by_key world.now.setting levels (semantics world.now levels) site.now given.now
        machine.old) result machine.new }
{
    let line = site.line;
    let setting = world.setting();
    let call = Call {
        setting,
        levels,
        line,
        given,
    };
    let asked = asked_to_sort(machine, &call)?;
    let items = asked.items.as_slice();
    let pairs = with_keys(machine, world, levels, site, asked.key, items)?;
    sort_by(machine, setting, levels, line, asked.backwards, &pairs)
}

/// `max(x, .., key=None)` or `min(x, .., key=None)`: the items, their keys, the item of the first best key.
#[cycle(run)]
fn best_by_key(
    machine: &mut Machine,
    world: &World,
    levels: u32,
    site: &Site,
    wanted: Best,
    given: &Arguments,
) -> Result<Value, EvalError>
    ensures { Refines (calls.best_by_key world.now.setting levels (semantics world.now levels) site.now (better wanted)
        given.now machine.old) result machine.new }
{
    let line = site.line;
    let setting = world.setting();
    let call = Call {
        setting,
        levels,
        line,
        given,
    };
    let asked = asked_for_best(machine, &call)?;
    let items = asked.items.as_slice();
    let pairs = with_keys(machine, world, levels, site, asked.key, items)?;
    best_by(machine, setting, levels, line, wanted, &pairs)
}

/// Items beside their keys: without a function each is its own key.
#[cycle(run)]
fn with_keys(
    machine: &mut Machine,
    world: &World,
    levels: u32,
    site: &Site,
    function: Option<Value>,
    items: &[Value],
) -> Result<Vec<(Value, Value)>, EvalError>
    ensures { RefinesBy (λ ps. ps.items) (calls.with_keys world.now.setting levels (semantics world.now levels) site.now
        function items.now machine.old) result machine.new }
{
    match function {
        Some(function) => keyed_each(machine, world, levels, site, function, items),
        None => Ok(each_by_itself(machine.alloc(), items)?),
    }
}

/// Items beside their keys, by calls of a function, one after another.
#[cycle(run)]
fn keyed_each(
    machine: &mut Machine,
    world: &World,
    levels: u32,
    site: &Site,
    function: Value,
    items: &[Value],
) -> Result<Vec<(Value, Value)>, EvalError>
    ensures { RefinesBy (λ ps. ps.items) (each (calls.keyed world.now.setting levels (semantics world.now levels) site.now
        function) items.now machine.old) result machine.new }
{
    let mut pairs = Vec::new(machine.alloc());
    for item in items {
        let key = key_of(machine, world, levels, site, function, *item)?;
        pairs.push((key, *item))?;
    }
    Ok(pairs)
}

/// The arguments of a call with one value.
fn only(alloc: Global, value: Value) -> Result<Arguments, AllocError>
    ensures { IfOk result (λ g. g ≡ calls.only value) }
{
    let positional = Values::new(Vec::from_slice(alloc, &[value])?);
    Ok(Arguments {
        positional,
        named: Items::new(alloc),
    })
}

/// The key of an item: the answer of a function that is called with it.
#[cycle(run)]
fn key_of(
    machine: &mut Machine,
    world: &World,
    levels: u32,
    site: &Site,
    function: Value,
    item: Value,
) -> Result<Value, EvalError>
    ensures { Refines (calls.key_of world.now.setting levels (semantics world.now levels) site.now function item
        machine.old) result machine.new }
{
    let callee = callee_of(machine, world, site.line, function)?;
    let given = only(machine.alloc(), item)?;
    call_plainly(machine, world, levels, site, callee, &given)
}
