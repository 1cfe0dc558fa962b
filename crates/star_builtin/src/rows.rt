//! `list`, `tuple`, `reversed`, `enumerate` and `zip`.
//!
//! `enumerate` counts in 128 bits, so only a number that an item has can be `Overflow`.

ghost use Rattle.std.specs.Prelude.{◌≡◌, [], ◌∷◌, IfOk, reverse};
ghost use Rattle.star_meaning.specs.BuiltIns as spec;
ghost use Rattle.star_machine.specs.Refines.{Refines, RefinesBy};
ghost use Rattle.star_meaning.specs.Run.{collect, each};
ghost use Rattle.star_meaning.specs.Values.{count_of, take_item};
ghost use Rattle.star_builtin.specs.Forms.{call_row};
ghost use Rattle.star_builtin.specs.Parts as part;

use crate::ints::narrow;
use star_machine::call::Call;
use star_machine::fault::EvalError;
use star_machine::machine::Machine;
use star_machine::setting::Setting;
use star_store::values::{Value, Values};
use std::alloc::{AllocError, Global};

/// A list or a tuple.
#[derive(Clone, Copy, Debug, PartialEq, Eq)]
pub enum Row {
    List,
    Tuple,
}

/// The values of a row in the other order.
fn turned_round(alloc: Global, items: &[Value]) -> Result<Values, AllocError>
    ensures { IfOk result (λ r. r ≡ reverse items.now) }
{
    let mut turned = Vec::from_slice(alloc, items)?;
    turned.reverse();
    Ok(Values::new(turned))
}

/// A number and an item, as a new tuple. `Overflow` for a number outside 64 bits.
fn numbered_item(
    machine: &mut Machine,
    line: usize,
    number: i128,
    item: Value,
) -> Result<Value, EvalError>
    ensures { Refines (part.numbered_item line number item machine.old) result machine.new }
{
    let number = machine.new_int(line, narrow(number))?;
    let pair = Vec::from_slice(machine.alloc(), &[number, item])?;
    machine.new_tuple(line, Values::new(pair))
}

/// Each item with its number, from one on, as a new tuple. `Overflow` for a number outside 64 bits.
fn numbered(
    machine: &mut Machine,
    line: usize,
    start: i64,
    items: &[Value],
) -> Result<Values, EvalError>
    ensures { Refines (spec.numbered line start items.now machine.old) result machine.new }
{
    let mut pairs = Vec::new(machine.alloc());
    let mut number = start as i128;
    for item in items {
        pairs.push(numbered_item(machine, line, number, *item)?)?;
        number += 1;
    }
    Ok(Values::new(pairs))
}

/// The number of items of each value. `BadType` if one is not iterable.
fn counts(
    machine: &Machine,
    setting: &Setting,
    line: usize,
    values: &[Value],
) -> Result<Vec<usize>, EvalError>
    ensures { RefinesBy (λ v. v.items) (each (count_of setting.now line) values.now machine.now) result machine.now }
{
    let mut counts = Vec::new(machine.alloc());
    for value in values {
        counts.push(machine.count_of(setting, line, *value)?)?;
    }
    Ok(counts)
}

/// The least of a number and others.
#[tactic(auto, using(crate::proofs::Loops::least_next))]
fn least_of(first: usize, rest: &[usize]) -> usize
    ensures { result ≡ spec.least (first ∷ rest.now) }
{
    let mut least = first;
    for number in rest {
        least = least.min(*number);
    }
    least
}

/// The least of some numbers, and 0 of none.
fn least(numbers: &[usize]) -> usize
    ensures { result ≡ spec.least numbers.now }
{
    match numbers {
        [first, rest @ ..] => least_of(*first, rest),
        [] => 0,
    }
}

/// Takes the item at a place of each value.
fn items_at(
    machine: &mut Machine,
    setting: &Setting,
    line: usize,
    values: &[Value],
    at: usize,
) -> Result<Values, EvalError>
    ensures { Refines (each (λ v. take_item setting.now line v at) values.now machine.old) result machine.new }
{
    let mut items = Vec::new(machine.alloc());
    for value in values {
        items.push(machine.take_item(setting, line, *value, at)?)?;
    }
    Ok(Values::new(items))
}

/// Takes the item at a place of each value, as a new tuple.
fn row_at(
    machine: &mut Machine,
    setting: &Setting,
    line: usize,
    values: &[Value],
    at: usize,
) -> Result<Value, EvalError>
    ensures { Refines (spec.row_at setting.now line values.now at machine.old) result machine.new }
{
    let items = items_at(machine, setting, line, values, at)?;
    machine.new_tuple(line, items)
}

/// `count` rows, from the first place on.
#[tactic(auto, using(star_machine::proofs::Turns::collect_next))]
fn rows(
    machine: &mut Machine,
    setting: &Setting,
    line: usize,
    values: &[Value],
    count: usize,
) -> Result<Values, EvalError>
    ensures { Refines (collect (spec.row_at setting.now line values.now) count 0 machine.old) result machine.new }
{
    let mut rows = Vec::new(machine.alloc());
    for i in 0..count {
        rows.push(row_at(machine, setting, line, values, i)?)?;
    }
    Ok(Values::new(rows))
}

/// `list([it])` or `tuple([it])`: all items in a new list or a new tuple, and no items without `it`. `Args` for more
/// values and for a keyword argument, `BadType` if `it` is not iterable.
pub fn call_row(machine: &mut Machine, row: Row, call: &Call) -> Result<Value, EvalError>
    ensures { Refines (call_row call.now.setting.now call.now.line row call.now.given.now machine.old)
        result machine.new }
{
    let items = match call.none_or_one(machine)? {
        Some(value) => machine.take_all(call.setting, call.line, value)?,
        None => Values::new(Vec::new(machine.alloc())),
    };
    match row {
        Row::List => machine.new_list(call.line, items),
        Row::Tuple => machine.new_tuple(call.line, items),
    }
}

/// `reversed(it)`: all items in the other order, in a new list. `Args` for another number of values and for a keyword
/// argument, `BadType` if `it` is not iterable.
pub fn call_reversed(machine: &mut Machine, call: &Call) -> Result<Value, EvalError>
    ensures { Refines (spec.call_reversed call.now.setting.now call.now.line call.now.given.now machine.old)
        result machine.new }
{
    let value = call.only_one(machine)?;
    let items = machine.take_all(call.setting, call.line, value)?;
    let turned = turned_round(machine.alloc(), items.as_slice())?;
    machine.new_list(call.line, turned)
}

/// `enumerate(it, [start])`: for each item a new tuple of its number and itself, in a new list. `Args` for another
/// number of values and for a keyword argument, `BadType` if `it` is not iterable or `start` not an int, `Overflow` for
/// a number outside 64 bits.
pub fn call_enumerate(machine: &mut Machine, call: &Call) -> Result<Value, EvalError>
    ensures { Refines (spec.call_enumerate call.now.setting.now call.now.line call.now.given.now machine.old)
        result machine.new }
{
    let (value, start) = call.one_or_two(machine)?;
    let count = machine.count_of(call.setting, call.line, value)?;
    let start = match start {
        Some(start) => machine.want_int(call.setting, call.line, start)?,
        None => 0,
    };
    let items = machine.take_items(call.setting, call.line, value, count)?;
    let pairs = numbered(machine, call.line, start, items.as_slice())?;
    machine.new_list(call.line, pairs)
}

/// `zip(*it)`: as many new tuples as the shortest value has items, each of one item of each, in a new list. `Args` for
/// a keyword argument, `BadType` if a value is not iterable.
pub fn call_zip(machine: &mut Machine, call: &Call) -> Result<Value, EvalError>
    ensures { Refines (spec.call_zip call.now.setting.now call.now.line call.now.given.now machine.old)
        result machine.new }
{
    let values = machine.positional(call.line, call.given)?;
    let counts = counts(machine, call.setting, call.line, values)?;
    let rows = rows(machine, call.setting, call.line, values, least(&counts))?;
    machine.new_list(call.line, rows)
}
