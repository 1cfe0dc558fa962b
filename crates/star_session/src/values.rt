//! How many bytes of memory the values take that runs have left. No answer depends on it.

use star_outcome::good_end::GoodEnd;
use star_outcome::module::Body;
use star_store::arena::{Arena, Homes};
use star_store::values::{Cell, Value};
use std::alloc::{AllocError, Global};

/// The bytes of a cell without its items.
const CELL_BYTES: usize = 96;

/// The bytes of an item of a list or a tuple. It has 16, its row may have room for as many again, and a row that grows
/// leaves shorter ones behind.
const ITEM_BYTES: usize = 64;

/// The bytes of an entry of a dictionary, also in its index.
const ENTRY_BYTES: usize = 192;

/// The bytes of a field of a struct: its name, which may be shared, and an item.
const FIELD_BYTES: usize = 128;

/// The bytes of a function, of a frame, or of the end of a file.
const LARGE_BYTES: usize = 256;

/// The bytes of a cell.
fn bytes_of(cell: &Cell) -> usize {
    let items = match cell {
        Cell::Text(text) => text.as_str().len(),
        Cell::Tuple(items) => items.len().saturating_mul(ITEM_BYTES),
        Cell::List(items) => items.len().saturating_mul(ITEM_BYTES),
        Cell::Dict(entries) | Cell::Set(entries) => entries.len().saturating_mul(ENTRY_BYTES),
        Cell::Func(_) => LARGE_BYTES,
        Cell::Frame(_) => LARGE_BYTES,
        Cell::Range(_) => 0,
        Cell::Bound(_, _) => 0,
        Cell::Struct(fields) => fields.get().len().saturating_mul(FIELD_BYTES),
    };
    items.saturating_add(CELL_BYTES)
}

/// The bytes of the texts of a file's globals, which a report has once more, and of the lines and calls that it has said.
fn shown_bytes(body: &Body) -> usize {
    let mut bytes = body.shown.json().len().saturating_mul(4);
    for line in &body.lines {
        bytes = bytes.saturating_add(line.len());
    }
    bytes.saturating_add(LARGE_BYTES)
}

/// The stores of some files.
#[derive(Drop)]
struct Stores<'a> {
    homes: Homes<'a>,
    /// A store with no cell, by which the others are read.
    arena: Arena,
}

impl<'a> Stores<'a> {
    /// The stores of some files, of those with ends. The error: an allocation failed.
    fn new(
        alloc: Global,
        ends: &'a [Option<GoodEnd>],
        numbers: &[usize],
    ) -> Result<Stores<'a>, AllocError> {
        let mut homes = Homes::new(alloc);
        for n in numbers {
            let (Some(Some(end)), Ok(home)) = (ends.get(*n), u32::try_from(*n)) else {
                continue;
            };
            if let Some(store) = end.body.own_store(home) {
                homes.add(home, store)?;
            }
        }
        let arena = Arena::new(alloc, u32::MAX);
        Ok(Stores { homes, arena })
    }

    /// The cell of a file at a place.
    fn cell(&self, home: u32, at: u32) -> Option<&Cell> {
        self.arena.read(&self.homes, Value::Ref { home, at })
    }

    /// The bytes of the cells of a file.
    fn bytes(&self, home: u32) -> usize {
        let mut bytes: usize = 0;
        for at in 0..u32::MAX {
            let Some(cell) = self.cell(home, at) else {
                return bytes;
            };
            bytes = bytes.saturating_add(bytes_of(cell));
        }
        bytes
    }
}

/// The bytes of all that the runs of some files have left, of those with ends. The error: an allocation failed.
pub(crate) fn value_bytes(
    alloc: Global,
    ends: &[Option<GoodEnd>],
    numbers: &[usize],
) -> Result<usize, AllocError> {
    let stores = Stores::new(alloc, ends, numbers)?;
    let mut bytes: usize = 0;
    for n in numbers {
        let (Some(Some(end)), Ok(home)) = (ends.get(*n), u32::try_from(*n)) else {
            continue;
        };
        let cells = stores.bytes(home);
        bytes = bytes
            .saturating_add(shown_bytes(&end.body))
            .saturating_add(cells);
    }
    Ok(bytes)
}
