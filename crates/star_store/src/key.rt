//! Keys: which values are hashable, and which two are the same key.

ghost use Rattle.std.specs.Prelude.{◌≡◌, ◌≤◌, position};
ghost use Rattle.std.specs.List.{list_all};
ghost use Rattle.star_store.specs.Content.{only_atom};
ghost use Rattle.star_store.specs.Scalars.{is_only};
ghost use Rattle.star_store.specs.Spend.{Spends};
ghost use Rattle.star_store.specs.Store.{look};
ghost use Rattle.star_store.specs.Key.{check, check_each, is_key, key_levels, place_of, same_key, same_key_fields, same_key_items, value_of};

use crate::arena::{Arena, Homes};
use crate::budget::Budget;
use crate::content::{Scalar, is_scalar, scalar_key};
use crate::fault::StoreFault;
use crate::fields::Fields;
use crate::values::{Cell, Entries, Value, Values};

/// A key's tuples and structs nest at most 400 deep, and another value may be inside.
pub(crate) const KEY_LEVELS: u32 = 401;

/// Whether a value is a key: None, a bool, an int, a string, or a tuple or struct of keys.
pub fn may_be_key(arena: &Arena, homes: &Homes, value: Value) -> bool
    ensures { result ≡ is_key (look arena.now homes.now) key_levels value }
{
    is_key(arena, homes, KEY_LEVELS, value)
}

#[cycle(is_key)]
#[tactic(auto, using(crate::proofs::Keys::is_key_at, crate::proofs::Keys::is_key_at_none))]
fn is_key<'a>(arena: &'a Arena, homes: &'a Homes<'a>, levels: u32, value: Value) -> bool
    ensures { result ≡ is_key (look arena.now homes.now) levels value }
{
    if levels == 0 {
        return false;
    }
    match value {
        Value::NoneValue | Value::Bool(_) | Value::Int(_) => true,
        Value::Ref { .. } => match arena.read(homes, value) {
            Some(Cell::Text(_)) => true,
            Some(Cell::Tuple(items)) => all_keys(arena, homes, levels - 1, items),
            Some(Cell::Struct(fields)) => {
                all_keys(arena, homes, levels - 1, fields.get().values())
            }
            _ => false,
        },
        Value::Builtin(_) => false,
    }
}

#[cycle(is_key)]
fn all_keys<'a>(arena: &'a Arena, homes: &'a Homes<'a>, levels: u32, items: &'a Values) -> bool
    ensures { result ≡ list_all (is_key (look arena.now homes.now) levels) items.now }
{
    for item in items.as_slice() {
        if !is_key(arena, homes, levels, *item) {
            return false;
        }
    }
    true
}

#[cycle(same_key)]
#[tactic(auto, using(crate::proofs::Keys::same_key_at, crate::proofs::Keys::same_key_at_none))]
fn same_key<'a>(arena: &'a Arena, homes: &'a Homes<'a>, levels: u32, x: Value, y: Value) -> bool
    ensures { result ≡ same_key (look arena.now homes.now) levels x y }
{
    if levels == 0 {
        return false;
    }
    match (x, y) {
        (Value::NoneValue, Value::NoneValue) => true,
        (Value::Bool(b), Value::Bool(c)) => b == c,
        (Value::Int(m), Value::Int(n)) => m == n,
        (Value::Ref { .. }, Value::Ref { .. }) => {
            match (arena.read(homes, x), arena.read(homes, y)) {
                (Some(Cell::Text(t)), Some(Cell::Text(u))) => t.as_str().as_bytes()
                    == u.as_str().as_bytes(),
                (Some(Cell::Tuple(xs)), Some(Cell::Tuple(ys))) => {
                    same_key_items(arena, homes, levels - 1, xs, ys)
                }
                (Some(Cell::Struct(s)), Some(Cell::Struct(t))) => {
                    same_key_fields(arena, homes, levels - 1, s.get(), t.get())
                }
                _ => false,
            }
        }
        _ => false,
    }
}

#[cycle(same_key)]
#[tactic(auto, using(crate::proofs::Keys::all_pass_next))]
fn same_key_items<'a>(
    arena: &'a Arena,
    homes: &'a Homes<'a>,
    levels: u32,
    xs: &'a Values,
    ys: &'a Values,
) -> bool
    ensures { result ≡ same_key_items (same_key (look arena.now homes.now) levels) xs.now ys.now }
{
    let count = xs.len();
    if count != ys.len() {
        return false;
    }
    for i in 0..count {
        if let (Some(x), Some(y)) = (xs.get(i), ys.get(i)) {
            if !same_key(arena, homes, levels, x, y) {
                return false;
            }
        }
    }
    true
}

#[cycle(same_key)]
fn same_key_fields<'a>(
    arena: &'a Arena,
    homes: &'a Homes<'a>,
    levels: u32,
    s: &'a Fields,
    t: &'a Fields,
) -> bool
    ensures { result ≡ same_key_fields (same_key (look arena.now homes.now) levels) s.now t.now }
{
    s.has_names_of(t) && same_key_items(arena, homes, levels, s.values(), t.values())
}

/// Checks that a value is a key: None, a bool, an int, a string, or a tuple or struct of keys, else `BadType`. It
/// visits the value and, in tuples and structs, the items: a visit opens a level (else `Deep`) and then pays a step
/// (else `Steps`).
pub fn check_key(
    arena: &Arena,
    homes: &Homes,
    budget: &mut Budget,
    value: Value,
) -> Result<(), StoreFault>
    ensures answer { Spends (check (look arena.now homes.now) budget.old.levels value budget.old.steps)
        result budget.new.steps }
    ensures less { budget.new.steps ≤ budget.old.steps }
    ensures levels { budget.new.levels ≡ budget.old.levels }
{
    check(arena, homes, budget.levels, &mut budget.steps, value)
}

#[cycle(check)]
#[tactic(auto, using(crate::proofs::Keys::check_at, crate::proofs::Keys::check_at_none))]
fn check<'a>(
    arena: &'a Arena,
    homes: &'a Homes<'a>,
    levels: u32,
    steps: &mut u64,
    value: Value,
) -> Result<(), StoreFault>
    ensures answer { Spends (check (look arena.now homes.now) levels value steps.old) result steps.new }
    ensures less { steps.new ≤ steps.old }
{
    if levels == 0 {
        return Err(StoreFault::Deep);
    }
    if *steps < 1 {
        return Err(StoreFault::Steps);
    }
    *steps -= 1;
    match value {
        Value::NoneValue | Value::Bool(_) | Value::Int(_) => Ok(()),
        Value::Ref { .. } => match arena.read(homes, value) {
            Some(Cell::Text(_)) => Ok(()),
            Some(Cell::Tuple(items)) => check_each(arena, homes, levels - 1, steps, items),
            Some(Cell::Struct(fields)) => {
                check_each(arena, homes, levels - 1, steps, fields.get().values())
            }
            _ => Err(StoreFault::BadType),
        },
        Value::Builtin(_) => Err(StoreFault::BadType),
    }
}

#[cycle(check)]
fn check_each<'a>(
    arena: &'a Arena,
    homes: &'a Homes<'a>,
    levels: u32,
    steps: &mut u64,
    items: &'a Values,
) -> Result<(), StoreFault>
    ensures answer { Spends (check_each (check (look arena.now homes.now) levels) items.now steps.old) result
        steps.new }
    ensures less { steps.new ≤ steps.old }
{
    for item in items.as_slice() {
        check(arena, homes, levels, steps, *item)?;
    }
    Ok(())
}

/// The place of the entry with this key.
pub fn place_of(arena: &Arena, homes: &Homes, key: Value, entries: &Entries) -> Option<usize>
    ensures { result ≡ place_of (look arena.now homes.now) key entries.now }
{
    match scalar_key(arena, homes, key) {
        Some(scalar) => place_of_scalar(arena, homes, scalar.scalar, entries),
        None => place_of_any(arena, homes, key, entries),
    }
}

/// The place of the entry whose key is a scalar.
pub(crate) fn place_of_scalar<'a>(
    arena: &'a Arena,
    homes: &'a Homes<'a>,
    key: Scalar<'_>,
    entries: &Entries,
) -> Option<usize>
    ensures { result ≡ position (λ e. is_only key.entry (only_atom (look arena.now homes.now) e.0)) entries.now }
{
    let same = |entry: &(Value, Value)| is_scalar(arena, homes, key, entry.0);
    entries.as_slice().iter().position(same)
}

/// The place of the entry with this key, which may be a tuple.
fn place_of_any(arena: &Arena, homes: &Homes, key: Value, entries: &Entries) -> Option<usize>
    ensures { result ≡ place_of (look arena.now homes.now) key entries.now }
{
    let same = |entry: &(Value, Value)| same_key(arena, homes, KEY_LEVELS, key, entry.0);
    entries.as_slice().iter().position(same)
}

/// The value of the entry with this key.
pub fn value_of(arena: &Arena, homes: &Homes, key: Value, entries: &Entries) -> Option<Value>
    ensures { result ≡ value_of (look arena.now homes.now) key entries.now }
{
    match place_of(arena, homes, key, entries) {
        Some(place) => match entries.get(place) {
            Some(entry) => Some(entry.1),
            None => None,
        },
        None => None,
    }
}
