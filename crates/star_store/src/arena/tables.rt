//! The keys of other files in an index: their places, by the tables of the stores that they are in.
//!
//! A store makes its table once the walks in its place have gone through as many entries as it has cells, so a large
//! store with a few look-ups makes none.

ghost use Rattle.std.specs.Prelude.{◌≡◌, ◌+◌, IfSome, IfOk, OnOk, length, position, Some, slice_get};
ghost use Rattle.std.specs.List.{list_all};
ghost use Rattle.std.specs.Option.{option_copied};
ghost use Rattle.star_store.specs.Index.{Shows, place_told};
ghost use Rattle.star_store.specs.Store.{look};
ghost use Rattle.star_store.specs.Table.{AreRows, AreRowsUpTo, IsRow, earlier, is_among, is_closed, is_closed_cell, is_from, is_home, or_none};

use crate::arena::{Arena, Frozen, Homes};
use crate::content::{KeyContent, content};
use crate::index::Index;
use crate::key_index::KeyIndex;
use crate::table::{Row, Rows, Table};
use crate::values::{Cell, HeapCell, Value};
use std::alloc::AllocError;

/// If this many keys of a store have one content, a walk may be faster.
const MANY_ALIKE: usize = 8;

impl Arena {
    /// The place of a key's content in an index that has keys of other files. `None` if a walk is called for: a store
    /// has no table, or memory was refused.
    #[inline(never)]
    pub(crate) fn place_told(
        &self,
        homes: &Homes,
        index: &KeyIndex,
        content: &KeyContent,
    ) -> Option<Option<usize>>
        ensures { IfSome result (λ place. place
            ≡ place_told (look self.now homes.now) content.now index.now) }
    {
        let keys = index.keys();
        let mut place = keys.place(content);
        for home in index.homes() {
            place = earlier(place, self.place_from(homes, *home, keys, content)?);
        }
        Some(place)
    }

    /// The place in an index of a file's key that has a content.
    fn place_from(
        &self,
        homes: &Homes,
        home: u32,
        keys: &Index,
        content: &KeyContent,
    ) -> Option<Option<usize>>
        ensures { IfSome result (λ place. place
            ≡ position (is_from (look self.now homes.now) content.now home) keys.now) }
    {
        let Some(row) = self.row(homes, home, content, keys.len())? else {
            return Some(None);
        };
        let others = row.others();
        if others.len() > MANY_ALIKE && others.len() > keys.len() / MANY_ALIKE {
            return None;
        }
        let first = keys.place(&KeyContent::far(home, row.first()));
        Some(earlier(first, earliest(keys, home, others)))
    }

    /// The addresses of a file's keys that have a content, for a dictionary of `entries` entries.
    fn row<'a>(
        &self,
        homes: &'a Homes<'a>,
        home: u32,
        content: &KeyContent,
        entries: usize,
    ) -> Option<Option<&'a Row>>
        ensures { IfSome result (λ row. IsRow (look self.now homes.now) content.now home
            (or_none (option_copied row))) }
    {
        if home == self.home {
            return None;
        }
        match homes.published(home as usize) {
            Some(store) => Some(self.table(homes, home, store, entries)?.find(content)),
            None => Some(None),
        }
    }

    /// The table of a published store: the one that is there, or a new one if it is due.
    fn table<'a>(
        &self,
        homes: &Homes,
        home: u32,
        store: &'a Frozen,
        entries: usize,
    ) -> Option<&'a Table>
        requires { Shows (look self.now homes.now) home store.now.cells }
        ensures home { IfSome result (λ table. table.now.home ≡ home) }
        ensures cells { IfSome result (λ table. table.now.cells.value.value.items ≡ store.now.cells) }
    {
        let slot = store.table.as_ref()?;
        let found = match slot.get() {
            Some(found) => found,
            None => {
                if !slot.is_due(entries, store.cells.len()) {
                    return None;
                }
                let rows = self.table_rows(homes, home, &store.cells).ok()?;
                slot.set(home, rows)?
            }
        };
        let table = found.as_ref()?;
        if table.home() != home {
            return None;
        }
        Some(table)
    }

    /// The rows of the table of some cells; none if another file made a part of a key.
    fn table_rows(
        &self,
        homes: &Homes,
        home: u32,
        cells: &[HeapCell],
    ) -> Result<Option<Rows>, AllocError>
        requires { Shows (look self.now homes.now) home cells.now }
        ensures { IfOk result (λ o. IfSome o (λ rows. AreRows home cells.now rows.contents rows.addresses.items)) }
    {
        if !is_closed(home, cells) {
            return Ok(None);
        }
        let Some(count) = cell_count(cells) else {
            return Ok(None);
        };
        Ok(Some(self.rows_to(homes, home, count)?))
    }

    /// The contents of a file's keys, up to an address, and for each the addresses of those that have it.
    fn rows_to(&self, homes: &Homes, home: u32, count: u32) -> Result<Rows, AllocError>
        ensures { IfOk result (λ rows. AreRowsUpTo (look self.now homes.now) home count
            rows.contents rows.addresses.items) }
    {
        let mut rows = Rows::new(self.alloc, self.state)?;
        for at in 0..count {
            self.add_key(homes, home, at, &mut rows)?;
        }
        Ok(rows)
    }

    /// Adds the key at an address to the rows, if there is one.
    fn add_key(&self, homes: &Homes, home: u32, at: u32, rows: &mut Rows) -> Result<(), AllocError>
        requires told { AreRowsUpTo (look self.now homes.now) home at rows.old.contents rows.old.addresses.items }
        requires even { length rows.old.addresses.items ≡ length rows.old.contents }
        ensures told { OnOk result (AreRowsUpTo (look self.now homes.now) home (at + 1)
            rows.new.contents rows.new.addresses.items) }
        ensures even { OnOk result (length rows.new.addresses.items ≡ length rows.new.contents) }
    {
        let Some(content) = content(self.alloc, self, homes, Value::Ref { home, at })? else {
            return Ok(());
        };
        rows.add(self.alloc, content, at)?;
        Ok(())
    }
}

/// How many cells there are, if their addresses have room for it.
fn cell_count(cells: &[HeapCell]) -> Option<u32>
    ensures { IfSome result (λ count. count ≡ length cells.now) }
{
    if cells.len() <= u32::MAX as usize {
        return Some(cells.len() as u32);
    }
    None
}

/// The place in an index of the first key of a file that is at one of these addresses.
fn earliest(keys: &Index, home: u32, row: &[u32]) -> Option<usize>
    ensures { result ≡ position (is_among home row.now) keys.now }
{
    let mut place = None;
    for at in row {
        place = earlier(place, keys.place(&KeyContent::far(home, *at)));
    }
    place
}

/// The lesser of two places.
fn earlier(one: Option<usize>, other: Option<usize>) -> Option<usize>
    ensures { result ≡ earlier one other }
{
    match (one, other) {
        (Some(i), Some(j)) => Some(i.min(j)),
        (Some(i), None) => Some(i),
        (None, other) => other,
    }
}

/// Whether no tuple or struct among the cells of a file has a value that another file made.
fn is_closed(home: u32, cells: &[HeapCell]) -> bool
    ensures { result ≡ is_closed home cells.now }
{
    for counted in cells {
        if !is_closed_cell(home, &counted.cell) {
            return false;
        }
    }
    true
}

fn is_closed_cell(home: u32, cell: &Cell) -> bool
    ensures { result ≡ is_closed_cell home cell.now }
{
    match cell {
        Cell::Tuple(items) => are_home(home, items.as_slice()),
        Cell::Struct(fields) => are_home(home, fields.get().values().as_slice()),
        _ => true,
    }
}

fn are_home(home: u32, items: &[Value]) -> bool
    ensures { result ≡ list_all (is_home home) items.now }
{
    for item in items {
        if !is_home(home, *item) {
            return false;
        }
    }
    true
}

/// Whether no other file made a value.
fn is_home(home: u32, value: Value) -> bool
    ensures { result ≡ is_home home value }
{
    match value {
        Value::Ref { home: other, .. } => other == home,
        _ => true,
    }
}
