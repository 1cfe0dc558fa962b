//! The pairs that `dict` and `update` put into a dictionary.

ghost use Rattle.std.specs.Prelude.{◌≡◌, IfOk};
ghost use Rattle.star_machine.specs.Refines.{Refines, RefinesBy};
ghost use Rattle.star_meaning.specs.Pairs as spec;
ghost use Rattle.star_meaning.specs.Run.{all_of, each};
ghost use Rattle.star_meaning.specs.Subscript.{entries_in};
ghost use Rattle.star_meaning.specs.Values.{content, guard};
ghost use Rattle.star_machine.specs.Pairs.{as_pairs, taken_entry};

use crate::content::{Content, Kind};
use crate::fault::{EvalError, fault_at};
use crate::machine::Machine;
use crate::setting::Setting;
use crate::subscript::put_entry;
use star_meaning::fault::FaultCode;
use star_meaning::given::KeywordArgument;
use star_store::values::{Cell, Entries, Value};
use std::alloc::AllocError;

/// Pairs to put in, and whether their keys are keys already.
#[derive(Drop)]
pub struct Pairs {
    pub are_keys: bool,
    pub pairs: Entries,
}

/// The two items of an iterable: all are taken. `BadValue` if they are not two.
fn pair_of(
    machine: &mut Machine,
    setting: &Setting,
    line: usize,
    value: Value,
) -> Result<(Value, Value), EvalError>
    ensures { Refines (spec.pair_of setting.now line value machine.old) result machine.new }
{
    let items = machine.take_all(setting, line, value)?;
    match items.as_slice() {
        [key, value] => Ok((*key, *value)),
        _ => Err(fault_at(FaultCode::BadValue, line)),
    }
}

/// The two items of each iterable.
fn pairs_from(
    machine: &mut Machine,
    setting: &Setting,
    line: usize,
    items: &[Value],
) -> Result<Entries, EvalError>
    ensures { Refines (each (spec.pair_of setting.now line) items.now machine.old) result machine.new }
{
    let mut pairs = Entries::new(machine.alloc());
    for item in items {
        let (key, value) = pair_of(machine, setting, line, *item)?;
        pairs.push(key, value)?;
    }
    Ok(pairs)
}

/// An entry of a dictionary: 1 is paid before it.
fn taken_entry(
    machine: &mut Machine,
    line: usize,
    entry: (Value, Value),
) -> Result<(Value, Value), EvalError>
    ensures { Refines (taken_entry line entry machine.old) result machine.new }
{
    machine.pay(line, 1)?;
    Ok(entry)
}

/// The entries of a dictionary: 1 is paid before each.
fn taken_entries(
    machine: &mut Machine,
    line: usize,
    entries: &[(Value, Value)],
) -> Result<Entries, EvalError>
    ensures { Refines (spec.taken_entries line entries.now machine.old) result machine.new }
{
    let mut taken = Entries::new(machine.alloc());
    for entry in entries {
        let (key, value) = taken_entry(machine, line, *entry)?;
        taken.push(key, value)?;
    }
    Ok(taken)
}

/// A copy of the entries of a dictionary or a set; no entries for another value.
pub fn entries_of(
    machine: &Machine,
    setting: &Setting,
    dict: Value,
) -> Result<Vec<(Value, Value)>, AllocError>
    ensures { IfOk result (λ es. es.items ≡ entries_in (content setting.now machine.now dict)) }
{
    match machine.content(setting, dict) {
        Content::Held(Cell::Dict(entries)) => Vec::from_slice(machine.alloc(), entries.as_slice()),
        Content::Held(Cell::Set(entries)) => Vec::from_slice(machine.alloc(), entries.as_slice()),
        _ => Ok(Vec::new(machine.alloc())),
    }
}

/// The pairs of an iterable with `count` items: the entries of a dictionary, or the two items of each item.
#[tactic(auto, using(crate::proofs::PairCases::pairs_dict, crate::proofs::PairCases::pairs_other))]
fn pairs_in(
    machine: &mut Machine,
    setting: &Setting,
    line: usize,
    source: Value,
    count: usize,
) -> Result<Pairs, EvalError>
    ensures { RefinesBy as_pairs (spec.pairs_in setting.now line source count (content setting.now machine.old source)
        machine.old) result machine.new }
{
    match machine.kind(setting, source) {
        Kind::Dict => {
            let entries = entries_of(machine, setting, source)?;
            let pairs = taken_entries(machine, line, &entries)?;
            Ok(Pairs {
                are_keys: true,
                pairs,
            })
        }
        _ => {
            let items = machine.take_items(setting, line, source, count)?;
            let pairs = pairs_from(machine, setting, line, items.as_slice())?;
            Ok(Pairs {
                are_keys: false,
                pairs,
            })
        }
    }
}

/// The number of items of the argument: 0 without one. `BadType` if it is not iterable.
pub fn pairs_count(
    machine: &Machine,
    setting: &Setting,
    line: usize,
    source: Option<Value>,
) -> Result<usize, EvalError>
    ensures { Refines (spec.pairs_count setting.now line source machine.now) result machine.now }
{
    match source {
        None => Ok(0),
        Some(source) => machine.count_of(setting, line, source),
    }
}

/// The pairs of the argument with `count` items; no pairs without an argument. `BadType` if an item is not iterable,
/// `BadValue` for one without two items.
#[tactic(auto, unfolding(star_meaning::specs::Pairs::pairs_of))]
pub fn pairs_of(
    machine: &mut Machine,
    setting: &Setting,
    line: usize,
    source: Option<Value>,
    count: usize,
) -> Result<Pairs, EvalError>
    ensures { RefinesBy as_pairs (spec.pairs_of setting.now line source count machine.old) result machine.new }
{
    match source {
        None => Ok(Pairs {
            are_keys: true,
            pairs: Entries::new(machine.alloc()),
        }),
        Some(source) => pairs_in(machine, setting, line, source, count),
    }
}

/// Checks a key unless it is one already. `BadType` if it is not hashable.
pub fn check_pair(
    machine: &mut Machine,
    setting: &Setting,
    levels: u32,
    line: usize,
    are_keys: bool,
    key: Value,
) -> Result<(), EvalError>
    ensures answer { Refines (spec.check_pair setting.now levels line are_keys key machine.old) result machine.new }
    ensures kept { machine.new.store ≡ machine.old.store }
{
    if are_keys {
        return Ok(());
    }
    machine.check_key(setting, levels, line, key)
}

/// Puts pairs into an existing dictionary, in order.
fn put_each(
    machine: &mut Machine,
    setting: &Setting,
    levels: u32,
    line: usize,
    dict: Value,
    are_keys: bool,
    pairs: &[(Value, Value)],
) -> Result<(), EvalError>
    ensures { Refines (all_of (spec.put_pair setting.now levels line dict are_keys) pairs.now machine.old)
        result machine.new }
{
    for pair in pairs {
        let (key, value) = *pair;
        check_pair(machine, setting, levels, line, are_keys, key)?;
        put_entry(machine, setting, line, dict, key, value)?;
    }
    Ok(())
}

/// Puts a keyword argument into an existing dictionary.
fn put_named(
    machine: &mut Machine,
    setting: &Setting,
    line: usize,
    dict: Value,
    named: &KeywordArgument,
) -> Result<(), EvalError>
    ensures { Refines (spec.put_named setting.now line dict named.now machine.old) result machine.new }
{
    let key = machine.key_for(line, named)?;
    put_entry(machine, setting, line, dict, key, named.value)
}

/// Puts keyword arguments into an existing dictionary, in order.
fn put_each_named(
    machine: &mut Machine,
    setting: &Setting,
    line: usize,
    dict: Value,
    named: &[KeywordArgument],
) -> Result<(), EvalError>
    ensures { Refines (all_of (spec.put_named setting.now line dict) named.now machine.old) result machine.new }
{
    for value in named {
        put_named(machine, setting, line, dict, value)?;
    }
    Ok(())
}

/// Puts all pairs, then all keyword arguments, into an existing dictionary.
#[tactic(auto, unfolding(star_meaning::specs::Pairs::put_pairs))]
fn put_pairs(
    machine: &mut Machine,
    setting: &Setting,
    levels: u32,
    line: usize,
    dict: Value,
    pairs: &Pairs,
    named: &[KeywordArgument],
) -> Result<(), EvalError>
    ensures { Refines (spec.put_pairs setting.now levels line dict (as_pairs pairs.now) named.now machine.old)
        result machine.new }
{
    let are_keys = pairs.are_keys;
    put_each(
        machine,
        setting,
        levels,
        line,
        dict,
        are_keys,
        pairs.pairs.as_slice(),
    )?;
    put_each_named(machine, setting, line, dict, named)
}

/// `BadType` if the argument is not iterable, the write guard, all pairs, then the puts.
#[tactic(auto, unfolding(star_meaning::specs::Pairs::update_with))]
pub fn update_with(
    machine: &mut Machine,
    setting: &Setting,
    levels: u32,
    line: usize,
    dict: Value,
    source: Option<Value>,
    named: &[KeywordArgument],
) -> Result<(), EvalError>
    ensures { Refines (spec.update_with setting.now levels line dict source named.now (guard setting.now line dict)
        machine.old) result machine.new }
{
    let count = pairs_count(machine, setting, line, source)?;
    machine.guard(setting, line, dict)?;
    let pairs = pairs_of(machine, setting, line, source, count)?;
    put_pairs(machine, setting, levels, line, dict, &pairs, named)
}
