//! Views of a value: `Content` is its heap object, borrowed; `Kind` is copied.
//!
//! The code matches on `Kind` if it then changes the machine, and on `Content` if it only reads.

ghost use Rattle.std.specs.Prelude.{◌≡◌};
ghost use Rattle.star_machine.specs.Kinds.{kind_of};
ghost use Rattle.star_machine.specs.Search.{some_above, some_under};
ghost use Rattle.star_machine.specs.Shown.{shown};
ghost use Rattle.std.specs.Option.{option_copied};
ghost use Rattle.star_meaning.specs.Values.{Held, count_in, held, item_in, range_item};

use star_store::names::{BuiltIn, Method};
use star_store::range::Range;
use star_store::values::{Cell, Value};

/// A value with its heap object looked up.
#[derive(Clone, Copy)]
pub enum Content<'a> {
    Nothing,
    Truth(bool),
    Number(i64),
    BuiltInFunction(BuiltIn),
    Held(&'a Cell),
    Nowhere,
}

/// The kind of a value, with the parts that are in the value itself or small.
#[derive(Clone, Copy)]
pub enum Kind {
    Nothing,
    Truth(bool),
    Number(i64),
    BuiltInFunction(BuiltIn),
    Text,
    Range(Range),
    Tuple,
    List,
    Dict,
    Set,
    Function,
    Frame,
    Method(Method, Value),
    Struct,
    Nowhere,
}

impl<'a> Content<'a> {
    /// Its kind.
    pub fn kind(self) -> Kind
        ensures { result ≡ kind_of (shown self.entry) }
    {
        match self {
            Content::Nothing => Kind::Nothing,
            Content::Truth(truth) => Kind::Truth(truth),
            Content::Number(number) => Kind::Number(number),
            Content::BuiltInFunction(function) => Kind::BuiltInFunction(function),
            Content::Held(cell) => kind_of_cell(cell),
            Content::Nowhere => Kind::Nowhere,
        }
    }

    /// The content of a cell, if there is one.
    pub fn of_cell(cell: Option<&'a Cell>) -> Content<'a>
        ensures { shown result ≡ held (option_copied cell.entry) }
    {
        match cell {
            Some(cell) => Content::Held(cell),
            None => Content::Nowhere,
        }
    }

    /// How many items an iterable has: a list, a tuple, a dictionary (its keys), a set or a range.
    pub fn count(self) -> Option<usize>
        ensures { result ≡ count_in (shown self.entry) }
    {
        match self {
            Content::Held(Cell::Tuple(items)) => Some(items.len()),
            Content::Held(Cell::List(items)) => Some(items.len()),
            Content::Held(Cell::Dict(entries)) => Some(entries.len()),
            Content::Held(Cell::Set(elements)) => Some(elements.len()),
            Content::Held(Cell::Range(range)) => Some(range.len() as usize),
            _ => None,
        }
    }

    /// Its item at a place: none outside.
    pub fn item(self, at: usize) -> Option<Value>
        ensures { result ≡ item_in (shown self.entry) at }
    {
        match self {
            Content::Held(cell) => item_of_cell(cell, at),
            _ => None,
        }
    }
}

/// The item of a cell at a place: none outside.
pub(crate) fn item_of_cell(cell: &Cell, at: usize) -> Option<Value>
    ensures { result ≡ item_in (Held cell.now) at }
{
    match cell {
        Cell::Tuple(items) => items.get(at),
        Cell::List(items) => items.get(at),
        Cell::Dict(entries) => match entries.get(at) {
            Some((key, _value)) => Some(key),
            None => None,
        },
        Cell::Range(range) => range_item(*range, at),
        Cell::Set(elements) => match elements.get(at) {
            Some((element, _none)) => Some(element),
            None => None,
        },
        _ => None,
    }
}

fn kind_of_cell(cell: &Cell) -> Kind
    ensures { result ≡ kind_of (Held cell.now) }
{
    match cell {
        Cell::Text(_) => Kind::Text,
        Cell::Range(range) => Kind::Range(*range),
        Cell::Tuple(_) => Kind::Tuple,
        Cell::List(_) => Kind::List,
        Cell::Dict(_) => Kind::Dict,
        Cell::Set(_) => Kind::Set,
        Cell::Func(_) => Kind::Function,
        Cell::Frame(_) => Kind::Frame,
        Cell::Bound(method, receiver) => Kind::Method(*method, *receiver),
        Cell::Struct(_) => Kind::Struct,
    }
}

/// The int of a range at a place: none outside. It divides nothing.
#[tactic(auto, using(crate::proofs::Ranges::item_still))]
fn range_item(range: Range, at: usize) -> Option<Value>
    ensures { result ≡ range_item range at }
{
    let way = at as u128 * range.step.unsigned_abs() as u128;
    if range.step > 0 {
        return int_above(range.start, range.stop, way);
    }
    if range.step < 0 {
        return int_below(range.start, range.stop, way);
    }
    None
}

/// The int at the distance `way` above a start, if it is below a stop.
#[tactic(auto, using(crate::proofs::Ranges::above_there, crate::proofs::Ranges::above_none))]
fn int_above(start: i64, stop: i64, way: u128) -> Option<Value>
    ensures { result ≡ some_above start stop way }
{
    if start < stop && way < stop.abs_diff(start) as u128 {
        return Some(Value::Int((start as i128 + way as i128) as i64));
    }
    None
}

/// The int at the distance `way` below a start, if it is above a stop.
#[tactic(auto, using(crate::proofs::Ranges::under_there, crate::proofs::Ranges::under_none))]
fn int_below(start: i64, stop: i64, way: u128) -> Option<Value>
    ensures { result ≡ some_under start stop way }
{
    if stop < start && way < start.abs_diff(stop) as u128 {
        return Some(Value::Int((start as i128 - way as i128) as i64));
    }
    None
}
