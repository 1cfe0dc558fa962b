//! The order of values, which pays a step for each pair that it visits.

ghost use Rattle.std.specs.Prelude.{◌≡◌, List, ◌≤◌};
ghost use Rattle.star_store.specs.Store.{look};
ghost use Rattle.star_store.specs.Spend.{Spends};
ghost use Rattle.star_store.specs.Order.{bool_order, order, ordered_items};

use crate::equal::same_place;
use star_store::arena::{Arena, Homes};
use star_store::budget::Budget;
use star_store::fault::StoreFault;
use star_store::values::{Cell, Value, Values};
use std::cmp::Ordering;

/// Compares two ints, bools, strings, lists or tuples. It visits the pair; then, in lists and tuples, the pairs of
/// items by equality, and the first unequal pair by order. A visit opens a level (else `Deep`) and then pays a step
/// (else `Steps`). `BadType` for two types, and for types without an order.
pub fn order(
    arena: &Arena,
    homes: &Homes,
    budget: &mut Budget,
    x: Value,
    y: Value,
) -> Result<Ordering, StoreFault>
    ensures answer { Spends (order (look arena.now homes.now) budget.old.levels x y budget.old.steps)
        result budget.new.steps }
    ensures less { budget.new.steps ≤ budget.old.steps }
    ensures levels { budget.new.levels ≡ budget.old.levels }
{
    ordered(arena, homes, budget.levels, &mut budget.steps, x, y)
}

#[cycle(order)]
#[tactic(auto, using(crate::proofs::Orders::order_at, crate::proofs::Orders::order_at_none))]
fn ordered<'a>(
    arena: &'a Arena,
    homes: &'a Homes<'a>,
    levels: u32,
    steps: &mut u64,
    x: Value,
    y: Value,
) -> Result<Ordering, StoreFault>
    ensures answer { Spends (order (look arena.now homes.now) levels x y steps.old) result steps.new }
    ensures less { steps.new ≤ steps.old }
{
    if levels == 0 {
        return Err(StoreFault::Deep);
    }
    if *steps < 1 {
        return Err(StoreFault::Steps);
    }
    *steps -= 1;
    match (x, y) {
        (Value::Bool(b), Value::Bool(c)) => Ok(bool_order(b, c)),
        (Value::Int(m), Value::Int(n)) => Ok(m.cmp(&n)),
        (Value::Ref { .. }, Value::Ref { .. }) => {
            match (arena.read(homes, x), arena.read(homes, y)) {
                (Some(Cell::Text(t)), Some(Cell::Text(u))) => Ok(
                    t.as_str().as_bytes().cmp(u.as_str().as_bytes()),
                ),
                (Some(Cell::Tuple(xs)), Some(Cell::Tuple(ys))) => {
                    order_items(arena, homes, levels - 1, steps, xs, ys)
                }
                (Some(Cell::List(xs)), Some(Cell::List(ys))) => {
                    order_items(arena, homes, levels - 1, steps, xs, ys)
                }
                _ => Err(StoreFault::BadType),
            }
        }
        _ => Err(StoreFault::BadType),
    }
}

/// False comes before True.
fn bool_order(b: bool, c: bool) -> Ordering
    ensures { result ≡ bool_order b c }
{
    match (b, c) {
        (false, true) => Ordering::Less,
        (true, false) => Ordering::Greater,
        _ => Ordering::Equal,
    }
}

#[cycle(order)]
#[tactic(auto, using(crate::proofs::Orders::order_places_next))]
fn order_items<'a>(
    arena: &'a Arena,
    homes: &'a Homes<'a>,
    levels: u32,
    steps: &mut u64,
    xs: &'a Values,
    ys: &'a Values,
) -> Result<Ordering, StoreFault>
    ensures answer { Spends (ordered_items (look arena.now homes.now) levels xs.now ys.now steps.old) result steps.new }
    ensures less { steps.new ≤ steps.old }
{
    let count = xs.len().min(ys.len());
    for i in 0..count {
        if !same_place(arena, homes, levels, steps, xs, ys, i)? {
            return match (xs.get(i), ys.get(i)) {
                (Some(x), Some(y)) => ordered(arena, homes, levels, steps, x, y),
                _ => Ok(Ordering::Equal),
            };
        }
    }
    Ok(xs.len().cmp(&ys.len()))
}
