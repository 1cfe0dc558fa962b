//! `Arena`: the store of a module while it runs. `Homes`: the published stores that it reaches. `freeze` publishes.
//!
//! `Homes` borrows the published stores in a row by file number: a running module copies and counts nothing, and `read`
//! takes constant time.

ghost use Rattle.std.specs.Prelude.{◌≡◌, List, [], ◌++◌, ◌+◌, ◌<◌, ◌^◌, length, OnOk, OnErr, IfOk, IfErr, IfSome, Some, slice_get, map, replicate, string_bytes, ◌-◌};
ghost use Rattle.std.specs.Option.{option_copied, option_flatten};
ghost use Rattle.star_store.specs.Store.{bound, bound_cell, changed_at, closed, closed_in, counted_at, global_of, is_container, is_taken, iterations_in, iterations_of, look, made, next_value, opened, opened_in, published_cells, put_up, slot_value, Shelf};
ghost use Rattle.star_store.specs.declared.fault.StoreFault.TheVariants.{Memory};

mod indexes;
mod places;
mod tables;
pub mod write;

use crate::fault::StoreFault;
use crate::globals::{ascend, global_among, global_in};
use crate::key_index::KeyIndex;
use crate::seed::SeededState;
use crate::table::TableSlot;
use crate::values::{Cell, HeapCell, Value};
use std::alloc::{AllocError, Global};
use std::marker::Model;

/// The store of a module while it runs. Its cells can change. A dictionary may have an index, which is kept under the
/// dictionary's address.
#[derive(Drop)]
pub struct Arena {
    alloc: Global,
    home: u32,
    cells: Vec<HeapCell>,
    indexes: Vec<Option<Box<KeyIndex>>>,
    state: SeededState,
    /// How many entries may still be gone through to make indexes.
    allowed: usize,
}

impl Model for Arena {
    ghost use Rattle.star_store.specs.Index.{AreIndexed};
    ghost use Rattle.star_store.specs.Store.{Store};

    ghost Value = { Store };

    ghost view = { λ a. record { home = a.home; cells = a.cells.items } };

    ghost invariant = { λ a. AreIndexed (record { home = a.home; cells = a.cells.items }) a.indexes.items };
}

/// The store of a published module: its cells and its globals, which nothing changes any more. The values of a module
/// with this number lead to its cells. Dictionaries of other modules that have its values for keys ask its table.
pub struct Frozen {
    home: u32,
    cells: Vec<HeapCell>,
    indexes: Vec<Option<Box<KeyIndex>>>,
    table: Option<TableSlot>,
    globals: Vec<(String, Value)>,
    is_ordered: bool,
}

impl Drop for Frozen {
    fn drop(self) {
        let Frozen {
            home: _,
            cells: _,
            indexes: _,
            table: _,
            globals: _,
            is_ordered: _,
        } = self;
    }
}

impl Model for Frozen {
    ghost use Rattle.std.specs.Prelude.{◌≡◌, IfSome, map, string_bytes, true};
    ghost use Rattle.star_store.specs.Index.{AreIndexed};
    ghost use Rattle.star_store.specs.Store.{Published, ascend};

    ghost Value = { Published };

    ghost view = { λ f. record { cells = f.cells.items; globals = map (λ g. (string_bytes g.0, g.1)) f.globals.items } };

    ghost invariant = { λ f. record {
      ordered : f.is_ordered ≡ true → ascend (map (λ g. string_bytes g.0) f.globals.items);
      indexed : AreIndexed (record { home = f.home; cells = f.cells.items }) f.indexes.items;
      table : IfSome f.table (λ slot. slot ≡ f.cells.items);
    } };
}

/// The published stores that a module reaches, each under the number of its file.
#[derive(Drop)]
pub struct Homes<'a> {
    stores: Vec<Option<&'a Frozen>>,
}

impl<'a> Model for Homes<'a> {
    ghost use Rattle.std.specs.Prelude.{map};
    ghost use Rattle.std.specs.Option.{option_copied};
    ghost use Rattle.star_store.specs.Store.{Shelf};

    ghost Value = { Shelf };

    ghost view = { λ h. map option_copied h.stores.items };
}

impl<'a> Homes<'a> {
    /// No published store.
    pub fn new(alloc: Global) -> Homes<'a>
        ensures { result ≡ [] }
    {
        Homes {
            stores: Vec::new(alloc),
        }
    }

    /// Adds the store of a file. A file that has one already keeps it.
    pub fn add(&mut self, home: u32, store: &'a Frozen) -> Result<(), AllocError>
        ensures added { OnOk result (self.new ≡ put_up home store.now self.old) }
        ensures refused { OnErr result (self.new ≡ self.old) }
    {
        add_store(&mut self.stores, home, store)
    }

    /// The store of a published module, or none.
    #[tactic(auto, using(crate::proofs::Store::copied_at))]
    pub fn published(&self, home: usize) -> Option<&Frozen>
        ensures { option_copied result ≡ option_flatten (slice_get self.now home) }
    {
        match self.stores.get(home) {
            Some(Some(store)) => Some(store),
            _ => None,
        }
    }

    /// The cells of a published module, or none.
    fn cells(&self, home: u32) -> &[HeapCell]
        ensures { result.now ≡ published_cells (slice_get self.now home) }
    {
        match self.stores.get(home as usize) {
            Some(Some(store)) => &store.cells,
            _ => &[],
        }
    }
}

impl Arena {
    /// The store of this file's module, with no cell. Its keys are hashed by the seed 0.
    pub fn new(alloc: Global, home: u32) -> Arena
        ensures { result ≡ record { home = home; cells = [] } }
    {
        Arena::with_seed(alloc, home, 0)
    }

    /// The same, with a seed for the hashes of keys: if it differs from run to run, nobody who writes a file can choose
    /// keys that all collide. No answer depends on it.
    pub fn with_seed(alloc: Global, home: u32, seed: u64) -> Arena
        ensures { result ≡ record { home = home; cells = [] } }
    {
        Arena {
            alloc,
            home,
            cells: Vec::new(alloc),
            indexes: Vec::new(alloc),
            state: SeededState::new(seed),
            allowed: 0,
        }
    }

    /// How many cells there are.
    pub fn len(&self) -> usize
        ensures { result ≡ length self.now.cells }
    {
        self.cells.len()
    }

    /// Adds a new cell, after all others. `Memory` if an allocation fails: then nothing has changed.
    pub fn make(&mut self, cell: Cell) -> Result<Value, StoreFault>
        requires { length self.old.cells + 1 < 2 ^ 32 }
        ensures made { IfOk result (λ v. (v ≡ next_value self.old) × (self.new ≡ made cell self.old)) }
        ensures refused { IfErr result (λ e. (e ≡ Memory) × (self.new ≡ self.old)) }
    {
        let home = self.home;
        let at = self.cells.len() as u32;
        let entry_count = match &cell {
            Cell::Dict(entries) | Cell::Set(entries) => entries.len(),
            _ => 0,
        };
        self.cells.push(HeapCell {
            iterations: 0,
            cell,
        })?;
        self.index_new(at, entry_count);
        Ok(Value::Ref { home, at })
    }

    /// The cell that a value leads to, with its open iterations.
    fn counted<'a>(&'a self, homes: &'a Homes, value: Value) -> Option<&'a HeapCell>
        ensures { option_copied result ≡ counted_at self.now homes.now value }
    {
        match value {
            Value::Ref { home, at } if home == self.home => self.cells.get(at as usize),
            Value::Ref { home, at } => homes.cells(home).get(at as usize),
            _ => None,
        }
    }

    /// The cell that a value leads to; `None` if the value is not a `Ref` or leads nowhere.
    pub fn read<'a>(&'a self, homes: &'a Homes, value: Value) -> Option<&'a Cell>
        ensures { option_copied result ≡ look self.now homes.now value }
    {
        match self.counted(homes, value) {
            Some(counted) => Some(&counted.cell),
            None => None,
        }
    }

    /// The value of a slot of a frame of this arena, if the slot has room in the frame's row. `None` does not mean that
    /// the slot has no value: `read` may find one.
    #[inline(always)]
    pub fn near(&self, frame: Value, slot: usize) -> Option<Value>
        ensures { IfSome result (λ v. (shelf : Shelf) → slot_value (look self.now shelf frame) slot ≡ Some v) }
    {
        let Value::Ref { home, at } = frame else {
            return None;
        };
        if home != self.home {
            return None;
        }
        match self.cells.get(at as usize) {
            Some(counted) => near_in(&counted.cell, slot),
            None => None,
        }
    }

    /// Sets a slot of a frame of this arena. If there is no such slot, nothing changes. `Memory` if an allocation
    /// fails: then nothing has changed.
    pub fn bind(&mut self, frame: Value, slot: usize, value: Value) -> Result<(), StoreFault>
        ensures bound { OnOk result (self.new ≡ bound frame slot value self.old) }
        ensures refused { IfErr result (λ e. (e ≡ Memory) × (self.new ≡ self.old)) }
    {
        let Value::Ref { home, at } = frame else {
            return Ok(());
        };
        if home != self.home {
            return Ok(());
        }
        bind_at(&mut self.cells, at, slot, value)?;
        Ok(())
    }

    /// Opens an iteration of a list or dictionary of this module. For another value nothing changes.
    pub fn open_iter(&mut self, value: Value)
        requires { iterations_of self.old value + 1 < 2 ^ 32 }
        ensures { self.new ≡ opened value self.old }
    {
        if let Value::Ref { home, at } = value {
            if home == self.home {
                open_at(&mut self.cells, at);
            }
        }
    }

    /// Closes an iteration of a list or dictionary of this module. For another value, and if none is open, nothing
    /// changes.
    pub fn close_iter(&mut self, value: Value)
        ensures { self.new ≡ closed value self.old }
    {
        if let Value::Ref { home, at } = value {
            if home == self.home {
                close_at(&mut self.cells, at);
            }
        }
    }
}

#[tactic(auto, using(crate::proofs::Store::shelved))]
fn add_store<'a>(
    stores: &mut Vec<Option<&'a Frozen>>,
    home: u32,
    store: &'a Frozen,
) -> Result<(), AllocError>
    ensures added { OnOk result (map option_copied stores.new.items
        ≡ put_up home store.now (map option_copied stores.old.items)) }
    ensures refused { OnErr result (stores.new.items ≡ stores.old.items) }
{
    let at = home as usize;
    if is_taken(stores, at) {
        return Ok(());
    }
    widen(stores, at + 1)?;
    stores[at] = Some(store);
    Ok(())
}

#[tactic(auto, using(crate::proofs::Store::copied_at))]
fn is_taken<'a>(stores: &[Option<&'a Frozen>], at: usize) -> bool
    ensures { result ≡ is_taken (slice_get (map option_copied stores.now) at) }
{
    match stores.get(at) {
        Some(Some(_)) => true,
        _ => false,
    }
}

/// Adds empty places, up to `count`.
fn widen<'a>(stores: &mut Vec<Option<&'a Frozen>>, count: usize) -> Result<(), AllocError>
    ensures widened { OnOk result (stores.new.items ≡ stores.old.items
        ++ replicate (count - length stores.old.items) None) }
    ensures refused { OnErr result (stores.new.items ≡ stores.old.items) }
{
    if stores.len() < count {
        stores.resize(count, None)?;
    }
    Ok(())
}

/// Publishes a module: its cells and its named globals, as they are.
pub fn freeze(arena: Arena, globals: Vec<(String, Value)>) -> Frozen
    ensures { result ≡ record { cells = arena.cells; globals = map (λ g. (string_bytes g.0, g.1)) globals.items } }
{
    let Arena {
        alloc: _,
        home,
        mut cells,
        mut indexes,
        state: _,
        allowed: _,
    } = arena;
    // Nothing is added any more.
    cells.shrink_to_fit();
    indexes.shrink_to_fit();
    let table = TableSlot::new(&cells);
    let is_ordered = ascend(&globals);
    Frozen {
        home,
        cells,
        indexes,
        table,
        globals,
        is_ordered,
    }
}

impl Frozen {
    /// The value of the first global with this name.
    pub fn global(&self, name: &str) -> Option<Value>
        ensures { result ≡ global_of name.now self.now.globals }
    {
        if self.is_ordered {
            return global_among(&self.globals, name);
        }
        global_in(&self.globals, name)
    }
}

/// The value of a slot of a frame, if the slot has room in the row.
#[inline(always)]
fn near_in(cell: &Cell, slot: usize) -> Option<Value>
    ensures { IfSome result (λ v. slot_value (Some cell.now) slot ≡ Some v) }
{
    match cell {
        Cell::Frame(frame) => frame.get().slots.near(slot),
        _ => None,
    }
}

#[tactic(auto, using(crate::proofs::Store::changed_in, crate::proofs::Store::changed_out))]
fn bind_at(cells: &mut [HeapCell], at: u32, slot: usize, value: Value) -> Result<(), AllocError>
    ensures bound { OnOk result (cells.new
        ≡ changed_at (λ e. record e { cell = bound_cell slot value e.cell }) cells.old at) }
    ensures refused { OnErr result (cells.new ≡ cells.old) }
{
    if (at as usize) >= cells.len() {
        return Ok(());
    }
    bind_in(&mut cells[at as usize], slot, value)?;
    Ok(())
}

fn bind_in(counted: &mut HeapCell, slot: usize, value: Value) -> Result<(), AllocError>
    ensures bound { OnOk result (counted.new ≡ record counted.old { cell = bound_cell slot value counted.old.cell }) }
    ensures refused { OnErr result (counted.new ≡ counted.old) }
{
    match &mut counted.cell {
        Cell::Frame(frame) => frame.set(slot, value),
        _ => Ok(()),
    }
}

#[tactic(auto, using(crate::proofs::Store::changed_in, crate::proofs::Store::changed_out))]
fn open_at(cells: &mut [HeapCell], at: u32)
    requires { iterations_in (slice_get cells.old at) + 1 < 2 ^ 32 }
    ensures { cells.new ≡ changed_at opened_in cells.old at }
{
    if (at as usize) < cells.len() {
        open_in(&mut cells[at as usize]);
    }
}

fn open_in(counted: &mut HeapCell)
    requires { iterations_in (Some counted.old) + 1 < 2 ^ 32 }
    ensures { counted.new ≡ opened_in counted.old }
{
    if is_container(&counted.cell) {
        counted.iterations += 1;
    }
}

#[tactic(auto, using(crate::proofs::Store::changed_in, crate::proofs::Store::changed_out))]
fn close_at(cells: &mut [HeapCell], at: u32)
    ensures { cells.new ≡ changed_at closed_in cells.old at }
{
    if (at as usize) < cells.len() {
        close_in(&mut cells[at as usize]);
    }
}

fn close_in(counted: &mut HeapCell)
    ensures { counted.new ≡ closed_in counted.old }
{
    if is_container(&counted.cell) && counted.iterations > 0 {
        counted.iterations -= 1;
    }
}

fn is_container(cell: &Cell) -> bool
    ensures { result ≡ is_container cell.now }
{
    matches!(cell, Cell::List(_) | Cell::Dict(_) | Cell::Set(_))
}
