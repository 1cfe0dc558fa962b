//! The truth of values, for `if`, `and`, `or` and `not`.

ghost use Rattle.std.specs.Prelude.{◌≡◌};
ghost use Rattle.star_store.specs.Store.{look};
ghost use Rattle.star_store.specs.Truth.{truth};

use star_store::arena::{Arena, Homes};
use star_store::values::{Cell, Value};

/// Whether a value counts as true: all do but None, False, 0 and an empty string, list, tuple, dictionary, set or range.
pub fn is_true(arena: &Arena, homes: &Homes, value: Value) -> bool
    ensures { result ≡ truth (look arena.now homes.now) value }
{
    match value {
        Value::NoneValue => false,
        Value::Bool(b) => b,
        Value::Int(n) => n != 0,
        Value::Builtin(_) => true,
        Value::Ref { .. } => match arena.read(homes, value) {
            Some(Cell::Text(text)) => text.as_str().len() != 0,
            Some(Cell::Range(range)) => range.len() != 0,
            Some(Cell::Tuple(items)) => items.len() != 0,
            Some(Cell::List(items)) => items.len() != 0,
            Some(Cell::Dict(entries)) => entries.len() != 0,
            Some(Cell::Set(entries)) => entries.len() != 0,
            _ => true,
        },
    }
}
