//! The table of a published store: the addresses where it has the keys of a content. It is made once the walks in its
//! place have cost as much as it does, and is then kept.
//!
//! A table names its cells by a witness that a slot has a snapshot of them (`Written`, of no bytes). A slot has one
//! value for good, so the table beside a store is of the store's own cells.

ghost use Rattle.std.specs.Prelude.{◌≡◌, ◌<◌, ◌∷◌, ◌++◌, [], List, ℕ, Some, IfSome, IfOk, OnOk, length, drop, set, slice_get};
ghost use Rattle.std.specs.Option.{option_copied};
ghost use Rattle.star_store.specs.Table.{AreRows, IsAdded, IsRowOf, or_none, row_by};

use crate::content::KeyContent;
use crate::index::Index;
use crate::seed::SeededState;
use crate::values::HeapCell;
use boxcar::slot::{OnceSlot, SlotRule, Written};
use boxcar::tag::{Names, Tag};
use std::alloc::{AllocError, Global};
use std::marker::Model;
use std::snapshot::Snapshot;
use std::sync::atomic::{AtomicUsize, Ordering};

/// The witness that a slot has a snapshot of these cells.
pub(crate) type Cells = Written<Snapshot<Vec<HeapCell>>>;

/// The addresses of the keys that have one content: mostly one, which takes no memory of its own.
#[derive(Drop)]
pub(crate) struct Row {
    first: u32,
    others: Vec<u32>,
}

impl Model for Row {
    ghost use Rattle.std.specs.Prelude.{List, ℕ, ◌∷◌};

    ghost Value = { List ℕ };

    ghost view = { λ r. r.first ∷ r.others.items };
}

impl Row {
    /// The first address.
    pub(crate) fn first(&self) -> u32
        ensures { self.now ≡ result ∷ drop 1 self.now }
    {
        self.first
    }

    /// The addresses after the first.
    pub(crate) fn others(&self) -> &[u32]
        ensures { result.now ≡ drop 1 self.now }
    {
        &self.others
    }

    fn add(&mut self, at: u32) -> Result<(), AllocError>
        ensures { OnOk result (self.new ≡ self.old ++ at ∷ []) }
    {
        self.others.push(at)?;
        Ok(())
    }
}

/// The contents of keys, and for each the row of their addresses.
#[derive(Drop)]
pub(crate) struct Rows {
    contents: Index,
    addresses: Vec<Row>,
}

impl Rows {
    /// No row.
    pub(crate) fn new(alloc: Global, state: SeededState) -> Result<Rows, AllocError>
        ensures contents { IfOk result (λ rows. rows.contents ≡ []) }
        ensures addresses { IfOk result (λ rows. rows.addresses.items ≡ []) }
    {
        Ok(Rows {
            contents: Index::with_capacity(alloc, 0, state)?,
            addresses: Vec::new(alloc),
        })
    }

    /// The row of a content.
    pub(crate) fn find(&self, content: &KeyContent) -> Option<&Row>
        ensures { or_none (option_copied result) ≡ row_by self.now.contents self.now.addresses.items content.now }
    {
        self.addresses.get(self.contents.place(content)?)
    }

    /// Adds an address to the row of a content. After an error the rows are of no use.
    pub(crate) fn add(
        &mut self,
        alloc: Global,
        content: KeyContent,
        at: u32,
    ) -> Result<(), AllocError>
        requires { length self.old.addresses.items ≡ length self.old.contents }
        ensures added { OnOk result (IsAdded content at self.old.contents self.old.addresses.items
            self.new.contents self.new.addresses.items) }
        ensures even { OnOk result (length self.new.addresses.items ≡ length self.new.contents) }
    {
        if let Some(place) = self.contents.place(&content) {
            add_at(&mut self.addresses, place, at)?;
            return Ok(());
        }
        let others = Vec::new(alloc);
        self.addresses.push(Row { first: at, others })?;
        if !self.contents.push(content) {
            return Err(AllocError);
        }
        Ok(())
    }
}

/// Adds an address to the row at a place.
fn add_at(rows: &mut Vec<Row>, place: usize, at: u32) -> Result<(), AllocError>
    ensures added { OnOk result (rows.new.items
        ≡ set rows.old.items place (or_none (slice_get rows.old.items place) ++ at ∷ [])) }
    ensures within { OnOk result (place < length rows.old.items) }
{
    if place >= rows.len() {
        return Err(AllocError);
    }
    rows[place].add(at)
}

/// The table of a published store.
#[derive(Drop)]
pub(crate) struct Table {
    cells: Cells,
    home: u32,
    rows: Rows,
    pub ghost right: { AreRows home cells.value.value.items rows.contents rows.addresses.items },
}

impl Table {
    /// The file whose values lead to the cells.
    pub(crate) fn home(&self) -> u32
        ensures { result ≡ self.now.home }
    {
        self.home
    }

    /// The addresses of the keys that have a content.
    pub(crate) fn find(&self, content: &KeyContent) -> Option<&Row>
        ensures { IsRowOf self.now.home self.now.cells.value.value.items content.now (or_none (option_copied result)) }
    {
        self.rows.find(content)
    }
}

/// The finding about a store: its table, or that it has none, since another file made a part of its keys.
type Found = Option<Table>;

/// A snapshot may be of any cells.
struct OfAny;

impl SlotRule<Snapshot<Vec<HeapCell>>> for OfAny {
    ghost holds = { λ _ _. Unit {0} };
}

/// The number of the slot that has the snapshot.
struct ByNumber;

impl Names<Cells> for ByNumber {
    ghost numbers = { λ w. w.of ∷ [] };
}

/// A table is of the cells that the tag names.
struct OfCells;

impl SlotRule<Found> for OfCells {
    ghost use Rattle.std.specs.Prelude.{◌≡◌, ◌∷◌, [], IfSome};

    ghost holds = { λ tag found. IfSome found (λ t. tag ≡ t.cells.of ∷ []) };
}

/// The place of the table of some cells, and how many entries were walked in its place.
#[derive(Drop)]
pub(crate) struct TableSlot {
    cells: Cells,
    slot: OnceSlot<Found, OfCells>,
    walked: AtomicUsize,
}

impl Model for TableSlot {
    ghost use Rattle.std.specs.Prelude.{◌≡◌, ◌∷◌, [], List};
    ghost use Rattle.star_store.specs.declared.values.HeapCell.{HeapCell as AnyCounted};

    ghost Value = { List AnyCounted };

    ghost view = { λ t. t.cells.value.value.items };

    ghost invariant = { λ t. t.slot.tag ≡ t.cells.of ∷ [] };
}

impl TableSlot {
    /// A place for the table of these cells.
    pub(crate) fn new(cells: &Vec<HeapCell>) -> Option<TableSlot>
        ensures { IfSome result (λ slot. slot ≡ cells.now.items) }
    {
        let snapshots: OnceSlot<Snapshot<Vec<HeapCell>>, OfAny> = OnceSlot::new(&Tag::empty());
        let Ok(cells) = snapshots.set_written(Snapshot::of(cells)) else {
            return None;
        };
        let slot = OnceSlot::new(&Tag::of::<Cells, ByNumber>(&cells));
        let walked = AtomicUsize::new(0);
        Some(TableSlot {
            cells,
            slot,
            walked,
        })
    }

    /// Whether a table of `cells` cells is due, now that a dictionary of `entries` entries is asked. It is due once
    /// walks have cost as much as it does.
    pub(crate) fn is_due(&self, entries: usize, cells: usize) -> bool {
        self.walked.fetch_add(entries, Ordering::SeqCst) >= cells
    }

    /// The finding, if there is one already.
    pub(crate) fn get(&self) -> Option<&Found>
        ensures { IfSome result (λ found. IfSome found.now (λ t. t.cells.value.value.items ≡ self.now)) }
    {
        let found = self.slot.get()?;
        if let Some(table) = found {
            self.cells.agrees(&table.cells);
        }
        Some(found)
    }

    /// Keeps a table of these rows, or the finding that there is none. Returns the finding that is kept: another thread
    /// may have been first.
    pub(crate) fn set(&self, home: u32, rows: Option<Rows>) -> Option<&Found>
        requires { IfSome rows (λ r. AreRows home self.now r.contents r.addresses.items) }
        ensures { IfSome result (λ found. IfSome found.now (λ t. t.cells.value.value.items ≡ self.now)) }
    {
        let _kept = self.slot.set(match rows {
            Some(rows) => Some(Table {
                cells: self.cells.again(),
                home,
                rows,
            }),
            None => None,
        });
        self.get()
    }
}
