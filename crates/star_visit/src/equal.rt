//! Equality of values, which pays a step for each pair that it visits.
//!
//! Equality of dictionaries takes no memory: the left one's index has the contents already.

ghost use Rattle.std.specs.Prelude.{◌≡◌, List, ◌≤◌, ◌&&◌, ◌-◌};
ghost use Rattle.star_store.specs.Store.{look};
ghost use Rattle.star_store.specs.Spend.{Spends};
ghost use Rattle.star_store.specs.Equal.{same, same_dict_entry, same_dicts, same_fields, same_items, same_place, same_read, same_values};
ghost use Rattle.star_store.specs.Range.{same_range};

use star_store::arena::{Arena, Homes};
use star_store::budget::Budget;
use star_store::fault::StoreFault;
use star_store::fields::Fields;
use star_store::range::Range;
use star_store::values::{Cell, Value, Values};

/// Whether two values are equal. It visits the pair, and in lists, tuples, dictionaries and structs the pairs that they
/// hold, up to the first difference: a visit opens a level (else `Deep`) and then pays a step (else `Steps`).
pub fn equal(
    arena: &Arena,
    homes: &Homes,
    budget: &mut Budget,
    x: Value,
    y: Value,
) -> Result<bool, StoreFault>
    ensures answer { Spends (same (look arena.now homes.now) budget.old.levels x y budget.old.steps)
        result budget.new.steps }
    ensures less { budget.new.steps ≤ budget.old.steps }
    ensures levels { budget.new.levels ≡ budget.old.levels }
{
    same(arena, homes, budget.levels, &mut budget.steps, x, y)
}

#[cycle(same)]
#[tactic(auto, using(crate::proofs::Equals::same_at, crate::proofs::Equals::same_at_none))]
fn same<'a>(
    arena: &'a Arena,
    homes: &'a Homes<'a>,
    levels: u32,
    steps: &mut u64,
    x: Value,
    y: Value,
) -> Result<bool, StoreFault>
    ensures answer { Spends (same (look arena.now homes.now) levels x y steps.old) result steps.new }
    ensures less { steps.new ≤ steps.old }
{
    if levels == 0 {
        return Err(StoreFault::Deep);
    }
    if *steps < 1 {
        return Err(StoreFault::Steps);
    }
    *steps -= 1;
    same_values(arena, homes, levels - 1, steps, x, y)
}

#[cycle(same)]
fn same_values<'a>(
    arena: &'a Arena,
    homes: &'a Homes<'a>,
    levels: u32,
    steps: &mut u64,
    x: Value,
    y: Value,
) -> Result<bool, StoreFault>
    ensures answer { Spends (same_values (look arena.now homes.now) (same (look arena.now homes.now) levels) x y
        steps.old) result steps.new }
    ensures less { steps.new ≤ steps.old }
{
    match (x, y) {
        (Value::NoneValue, Value::NoneValue) => Ok(true),
        (Value::Bool(b), Value::Bool(c)) => Ok(b == c),
        (Value::Int(m), Value::Int(n)) => Ok(m == n),
        (Value::Builtin(f), Value::Builtin(g)) => Ok(f.number() == g.number()),
        (Value::Ref { home: h, at: a }, Value::Ref { home: k, at: b }) => {
            same_cells(arena, homes, levels, steps, h == k && a == b, x, y)
        }
        _ => Ok(false),
    }
}

#[cycle(same)]
fn same_cells<'a>(
    arena: &'a Arena,
    homes: &'a Homes<'a>,
    levels: u32,
    steps: &mut u64,
    one: bool,
    x: Value,
    y: Value,
) -> Result<bool, StoreFault>
    ensures answer { Spends (same_read (look arena.now homes.now) levels one x y steps.old) result steps.new }
    ensures less { steps.new ≤ steps.old }
{
    match (arena.read(homes, x), arena.read(homes, y)) {
        (Some(Cell::Text(t)), Some(Cell::Text(u))) => Ok(
            t.as_str().as_bytes() == u.as_str().as_bytes(),
        ),
        (Some(Cell::Range(r)), Some(Cell::Range(s))) => Ok(same_range(*r, *s)),
        (Some(Cell::Tuple(xs)), Some(Cell::Tuple(ys))) => {
            same_items(arena, homes, levels, steps, xs, ys)
        }
        (Some(Cell::List(xs)), Some(Cell::List(ys))) => {
            same_items(arena, homes, levels, steps, xs, ys)
        }
        (Some(Cell::Dict(_)), Some(Cell::Dict(_))) => {
            same_entries(arena, homes, levels, steps, x, y)
        }
        (Some(Cell::Set(_)), Some(Cell::Set(_))) => same_entries(arena, homes, levels, steps, x, y),
        (Some(Cell::Func(_)), Some(Cell::Func(_))) => Ok(one),
        (Some(Cell::Bound(_, _)), Some(Cell::Bound(_, _))) => Ok(one),
        (Some(Cell::Struct(s)), Some(Cell::Struct(t))) => {
            same_fields(arena, homes, levels, steps, s.get(), t.get())
        }
        _ => Ok(false),
    }
}

#[cycle(same)]
fn same_fields<'a>(
    arena: &'a Arena,
    homes: &'a Homes<'a>,
    levels: u32,
    steps: &mut u64,
    s: &'a Fields,
    t: &'a Fields,
) -> Result<bool, StoreFault>
    ensures answer { Spends (same_fields (same (look arena.now homes.now) levels) s.now t.now steps.old)
        result steps.new }
    ensures less { steps.new ≤ steps.old }
{
    if !s.has_names_of(t) {
        return Ok(false);
    }
    same_items(arena, homes, levels, steps, s.values(), t.values())
}

/// Whether two ranges have the same ints.
fn same_range(r: Range, s: Range) -> bool
    ensures { result ≡ same_range r s }
{
    let count = r.len();
    count == s.len() && (count == 0 || (r.start == s.start && (count == 1 || r.step == s.step)))
}

#[cycle(same)]
#[tactic(auto, using(crate::proofs::Equals::all_places_next))]
fn same_items<'a>(
    arena: &'a Arena,
    homes: &'a Homes<'a>,
    levels: u32,
    steps: &mut u64,
    xs: &'a Values,
    ys: &'a Values,
) -> Result<bool, StoreFault>
    ensures answer { Spends (same_items (same (look arena.now homes.now) levels) xs.now ys.now steps.old)
        result steps.new }
    ensures less { steps.new ≤ steps.old }
{
    let count = xs.len();
    if count != ys.len() {
        return Ok(false);
    }
    for i in 0..count {
        if !same_place(arena, homes, levels, steps, xs, ys, i)? {
            return Ok(false);
        }
    }
    Ok(true)
}

/// Whether the items of two rows at a place are equal.
#[cycle(same)]
pub fn same_place<'a>(
    arena: &'a Arena,
    homes: &'a Homes<'a>,
    levels: u32,
    steps: &mut u64,
    xs: &'a Values,
    ys: &'a Values,
    i: usize,
) -> Result<bool, StoreFault>
    ensures answer { Spends (same_place (same (look arena.now homes.now) levels) xs.now ys.now i steps.old)
        result steps.new }
    ensures less { steps.new ≤ steps.old }
{
    match (xs.get(i), ys.get(i)) {
        (Some(x), Some(y)) => same(arena, homes, levels, steps, x, y),
        _ => Ok(true),
    }
}

#[cycle(same)]
#[tactic(auto, using(crate::proofs::Equals::all_places_next))]
fn same_entries<'a>(
    arena: &'a Arena,
    homes: &'a Homes<'a>,
    levels: u32,
    steps: &mut u64,
    x: Value,
    y: Value,
) -> Result<bool, StoreFault>
    ensures answer { Spends (same_dicts (look arena.now homes.now) levels x y steps.old) result steps.new }
    ensures less { steps.new ≤ steps.old }
{
    let count = arena.dict_len(homes, x);
    if count != arena.dict_len(homes, y) {
        return Ok(false);
    }
    for i in 0..count {
        if !same_entry(arena, homes, levels, steps, x, y, i)? {
            return Ok(false);
        }
    }
    Ok(true)
}

#[cycle(same)]
#[tactic(auto, using(star_store::proofs::Indexes::same_beside))]
fn same_entry<'a>(
    arena: &'a Arena,
    homes: &'a Homes<'a>,
    levels: u32,
    steps: &mut u64,
    x: Value,
    y: Value,
    i: usize,
) -> Result<bool, StoreFault>
    ensures answer { Spends (same_dict_entry (look arena.now homes.now) levels x y i steps.old) result steps.new }
    ensures less { steps.new ≤ steps.old }
{
    match arena.beside(homes, x, i, y) {
        Some((value, Some(other))) => same(arena, homes, levels, steps, value, other),
        Some((_value, None)) => Ok(false),
        None => Ok(true),
    }
}
