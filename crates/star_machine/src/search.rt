//! The first of some values that is equal to another one, for `in`, `index` and `remove`.

ghost use Rattle.std.specs.Prelude.{◌≡◌, ◌≤◌};
ghost use Rattle.star_store.specs.Spend.{Spends};
ghost use Rattle.star_store.specs.Store.{look};
ghost use Rattle.star_machine.specs.Search.{place_among, place_in_row};

use star_store::arena::{Arena, Homes};
use star_store::budget::Budget;
use star_store::fault::StoreFault;
use star_store::values::{Cell, Value};
use star_visit::equal::equal;

/// The place of the first item that is equal to a value, with a visit for each pair up to it.
fn equal_item(
    arena: &Arena,
    homes: &Homes,
    budget: &mut Budget,
    items: &[Value],
    value: Value,
) -> Result<Option<usize>, StoreFault>
    ensures answer { Spends (place_among (look arena.now homes.now) budget.old.levels value items.now budget.old.steps)
        result budget.new.steps }
    ensures less { budget.new.steps ≤ budget.old.steps }
    ensures levels { budget.new.levels ≡ budget.old.levels }
{
    let mut at = 0;
    for item in items {
        if equal(arena, homes, budget, *item, value)? {
            return Ok(Some(at));
        }
        at += 1;
    }
    Ok(None)
}

/// The place of the first item of a list or tuple that is equal to a value, with a visit for each pair up to it.
pub fn equal_place(
    arena: &Arena,
    homes: &Homes,
    budget: &mut Budget,
    row: Value,
    value: Value,
) -> Result<Option<usize>, StoreFault>
    ensures answer { Spends (place_in_row (look arena.now homes.now) budget.old.levels value row budget.old.steps)
        result budget.new.steps }
    ensures less { budget.new.steps ≤ budget.old.steps }
    ensures levels { budget.new.levels ≡ budget.old.levels }
{
    match arena.read(homes, row) {
        Some(Cell::List(items)) => equal_item(arena, homes, budget, items.as_slice(), value),
        Some(Cell::Tuple(items)) => equal_item(arena, homes, budget, items.as_slice(), value),
        _ => Ok(None),
    }
}
