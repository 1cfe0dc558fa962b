//! Whether a value of a file is the same data before and after the file changed: atoms, or cells at the same places that
//! have the same content.

ghost use Rattle.std.specs.Prelude.{◌≡◌, ◌∷◌, [], IfOk, IfSome, Some, true};
ghost use Rattle.star_store.specs.Write.{cell_at};
ghost use Rattle.star_needs.specs.Changed.{one_range, same_at, same_cell, same_entries, same_fields, same_items, same_value};
ghost use Rattle.star_memo.specs.Lasting.{IsShared, is_data};

use star_store::arena::{Arena, Frozen, Homes};
use star_store::fields::Fields;
use star_store::range::Range;
use star_store::values::{Cell, Value};
use std::alloc::{AllocError, Global};
use std::marker::Model;

/// How many levels of cells are compared.
const MOST_LEVELS: u32 = 400;

/// How many cells are compared for one name.
const MOST_CELLS: usize = 65_536;

/// The stores of a file before and after it changed.
#[derive(Drop)]
pub(crate) struct Stores<'a> {
    file: u32,
    before: &'a Frozen,
    after: &'a Frozen,
    homes_before: Homes<'a>,
    homes_after: Homes<'a>,
    /// A store with no cell, by which the others are read.
    arena: Arena,
}

impl<'a> Model for Stores<'a> {
    ghost use Rattle.std.specs.Prelude.{◌≡◌, [], Some, slice_get};
    ghost use Rattle.star_memo.specs.Lasting.{StoresView};

    ghost Value = { StoresView };

    ghost view = { λ s. record { file = s.file; before = s.before.now; after = s.after.now } };

    ghost invariant = { λ s. record {
      one : slice_get s.homes_before s.file ≡ Some (Some s.before.now);
      other : slice_get s.homes_after s.file ≡ Some (Some s.after.now);
      empty : s.arena.cells ≡ [];
    } };
}

impl<'a> Stores<'a> {
    /// These stores of the file with this number. The error: an allocation failed.
    pub(crate) fn new(
        alloc: Global,
        file: u32,
        before: &'a Frozen,
        after: &'a Frozen,
    ) -> Result<Stores<'a>, AllocError>
        ensures { IfOk result (λ s. s ≡ record { file = file; before = before.now; after = after.now }) }
    {
        let mut homes_before = Homes::new(alloc);
        homes_before.add(file, before)?;
        let mut homes_after = Homes::new(alloc);
        homes_after.add(file, after)?;
        Ok(Stores {
            file,
            before,
            after,
            homes_before,
            homes_after,
            arena: Arena::new(alloc, u32::MAX),
        })
    }

    /// The number of the file.
    pub(crate) fn file(&self) -> u32
        ensures { result ≡ self.now.file }
    {
        self.file
    }

    /// The cell of the file at a place before the change.
    fn cell_before(&self, at: u32) -> Option<&Cell>
        ensures { IfSome result (λ c. cell_at self.now.before.cells at ≡ Some c.now) }
    {
        let home = self.file;
        self.arena.read(&self.homes_before, Value::Ref { home, at })
    }

    /// The cell of the file at a place after the change.
    fn cell_after(&self, at: u32) -> Option<&Cell>
        ensures { IfSome result (λ c. cell_at self.now.after.cells at ≡ Some c.now) }
    {
        let home = self.file;
        self.arena.read(&self.homes_after, Value::Ref { home, at })
    }

    /// Whether a global has the same value in both, which is the same data.
    pub(crate) fn share(&self, name: &str) -> bool
        ensures { result ≡ true → IsShared self.now name.now }
    {
        match (self.before.global(name), self.after.global(name)) {
            (Some(one), Some(other)) => {
                let mut cells = MOST_CELLS;
                same_value(one, other) && is_data(self, MOST_LEVELS, &mut cells, one)
            }
            _ => false,
        }
    }
}

/// Whether two items of cells are the same.
fn same_value(one: Value, other: Value) -> bool
    ensures { result ≡ same_value one other }
{
    match (one, other) {
        (Value::NoneValue, Value::NoneValue) => true,
        (Value::Bool(b), Value::Bool(c)) => b == c,
        (Value::Int(m), Value::Int(n)) => m == n,
        (Value::Ref { home: h, at: a }, Value::Ref { home: k, at: b }) => h == k && a == b,
        _ => false,
    }
}

/// Whether two ranges are the same.
fn one_range(r: Range, s: Range) -> bool
    ensures { result ≡ one_range r s }
{
    r.start == s.start && r.stop == s.stop && r.step == s.step
}

/// Whether a value is the same data in both stores.
#[cycle(same)]
fn is_data<'a>(stores: &Stores<'a>, levels: u32, cells: &mut usize, value: Value) -> bool
    ensures { result ≡ true → is_data stores.now levels value ≡ true }
{
    match value {
        Value::Ref { home, at } => home == stores.file() && is_same(stores, levels, cells, at),
        _ => true,
    }
}

/// Whether the cells of both stores at a place have the same data.
#[cycle(same)]
fn is_same<'a>(stores: &Stores<'a>, levels: u32, cells: &mut usize, at: u32) -> bool
    ensures { let s = stores.now in
        result ≡ true → same_at s.before.cells s.after.cells s.file levels at ≡ true }
{
    if levels == 0 || *cells == 0 {
        return false;
    }
    *cells -= 1;
    match (stores.cell_before(at), stores.cell_after(at)) {
        (Some(before), Some(after)) => are_one(stores, levels - 1, cells, before, after),
        _ => false,
    }
}

/// Whether two cells have the same content, which is the same data in both stores.
#[cycle(same)]
fn are_one<'a>(
    stores: &Stores<'a>,
    levels: u32,
    cells: &mut usize,
    before: &Cell,
    after: &Cell,
) -> bool
    ensures { result ≡ true → same_cell (is_data stores.now levels) (Some before.now) (Some after.now) ≡ true }
{
    match (before, after) {
        (Cell::Text(t), Cell::Text(u)) => t.as_str().as_bytes() == u.as_str().as_bytes(),
        (Cell::Range(r), Cell::Range(s)) => one_range(*r, *s),
        (Cell::Tuple(xs), Cell::Tuple(ys)) => {
            are_same(stores, levels, cells, xs.as_slice(), ys.as_slice())
        }
        (Cell::List(xs), Cell::List(ys)) => {
            are_same(stores, levels, cells, xs.as_slice(), ys.as_slice())
        }
        (Cell::Dict(xs), Cell::Dict(ys)) => {
            have_same(stores, levels, cells, xs.as_slice(), ys.as_slice())
        }
        (Cell::Struct(s), Cell::Struct(t)) => {
            are_fields(stores, levels, cells, s.get(), t.get())
        }
        _ => false,
    }
}

/// Whether two structs have the same names, and the same data.
#[cycle(same)]
fn are_fields<'a>(
    stores: &Stores<'a>,
    levels: u32,
    cells: &mut usize,
    s: &Fields,
    t: &Fields,
) -> bool
    ensures { result ≡ true → same_fields (is_data stores.now levels) s.now t.now ≡ true }
{
    s.has_names_of(t)
        && are_same(
            stores,
            levels,
            cells,
            s.values().as_slice(),
            t.values().as_slice(),
        )
}

/// Whether two rows of items are the same data.
#[cycle(same)]
fn are_same<'a>(
    stores: &Stores<'a>,
    levels: u32,
    cells: &mut usize,
    xs: &[Value],
    ys: &[Value],
) -> bool
    ensures { result ≡ true → same_items (is_data stores.now levels) xs.now ys.now ≡ true }
{
    if xs.len() != ys.len() {
        return false;
    }
    for i in 0..xs.len() {
        if !same_value(xs[i], ys[i]) || !is_data(stores, levels, cells, xs[i]) {
            return false;
        }
    }
    true
}

/// Whether two entries of dictionaries are the same data.
#[cycle(same)]
fn is_same_entry<'a>(
    stores: &Stores<'a>,
    levels: u32,
    cells: &mut usize,
    x: (Value, Value),
    y: (Value, Value),
) -> bool
    ensures { result ≡ true → same_entries (is_data stores.now levels) (x ∷ []) (y ∷ []) ≡ true }
{
    same_value(x.0, y.0)
        && is_data(stores, levels, cells, x.0)
        && same_value(x.1, y.1)
        && is_data(stores, levels, cells, x.1)
}

/// Whether two rows of entries are the same data.
#[cycle(same)]
fn have_same<'a>(
    stores: &Stores<'a>,
    levels: u32,
    cells: &mut usize,
    xs: &[(Value, Value)],
    ys: &[(Value, Value)],
) -> bool
    ensures { result ≡ true → same_entries (is_data stores.now levels) xs.now ys.now ≡ true }
{
    if xs.len() != ys.len() {
        return false;
    }
    for i in 0..xs.len() {
        if !is_same_entry(stores, levels, cells, xs[i], ys[i]) {
            return false;
        }
    }
    true
}
