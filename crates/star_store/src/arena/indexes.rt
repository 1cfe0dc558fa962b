//! The indexes of an arena's dictionaries, and how they follow each write.
//!
//! An index is tried when a cell is made, and when a new key makes the number of entries a power of two. Each new key
//! allows the arena to go through eight entries more, so all attempts together cost no more than the keys do.

ghost use Rattle.std.specs.Prelude.{◌≡◌, ◌≤◌, ◌+◌, ℕ, [], Some, None, map, max, length, IfSome, OnOk, option_and_then};
ghost use Rattle.std.specs.Bool.{OnTrue};
ghost use Rattle.star_store.specs.Index.{AreChanged, IsIndexed, IsPutAt, entries_by, index_after, index_at, key_entry};
ghost use Rattle.star_store.specs.Write.{cell_at, key_of};

use crate::arena::write::Change;
use crate::arena::{Arena, Homes};
use crate::content::{KeyContent, content};
use crate::key_index::{FEW_FAR, KeyIndex};
use crate::values::{Cell, Entries, Value};
use std::alloc::AllocError;

/// A dictionary that grows to this many entries gets an index: among fewer a walk is as fast.
const INDEX_FROM: usize = 8;

/// A new dictionary gets one if it has this many entries: it may be read a few times only.
const INDEX_NEW_FROM: usize = 16;

/// Each new key pays for this many entries that are gone through to make an index. A dictionary that grows asks for
/// two.
const ALLOWED: usize = 8;

impl Arena {
    /// The number of entries of the dictionary at an address; 0 if there is no dictionary there.
    fn entry_count(&self, at: u32) -> usize {
        match self.cells.get(at as usize) {
            Some(counted) => match &counted.cell {
                Cell::Dict(entries) | Cell::Set(entries) => entries.len(),
                _ => 0,
            },
            None => 0,
        }
    }

    fn has_index(&self, at: u32) -> bool {
        matches!(self.indexes.get(at as usize), Some(Some(_)))
    }

    /// Makes an index of the dictionary at an address that has got a new key, if it lacks one, is due, and new keys
    /// have paid for it.
    pub(crate) fn index_if_due(&mut self, at: u32, has_new_key: bool)
        ensures { self.new ≡ self.old }
    {
        if !has_new_key {
            return;
        }
        self.allowed = self.allowed.saturating_add(ALLOWED);
        let count = self.entry_count(at);
        if count >= INDEX_FROM
            && count.is_power_of_two()
            && count <= self.allowed
            && !self.has_index(at)
        {
            self.allowed -= count;
            self.add_index(at);
        }
    }

    /// Makes an index of a new cell of `count` entries, if there are many.
    #[inline(always)]
    pub(crate) fn index_new(&mut self, at: u32, count: usize)
        ensures { self.new ≡ self.old }
    {
        if count >= INDEX_NEW_FROM {
            self.add_index(at);
        }
    }

    /// Makes an index of the dictionary at an address, if each key of this file has its content in this store, and
    /// memory suffices. No value changes.
    #[inline(never)]
    pub(crate) fn add_index(&mut self, at: u32)
        ensures { self.new ≡ self.old }
    {
        if let Some(index) = self.made_index(at) {
            // Without memory for it the dictionary has no index, and look-ups walk.
            let _put = put_index(&mut self.indexes, at, index);
        }
    }

    fn made_index(&self, at: u32) -> Option<Box<KeyIndex>>
        ensures found { IfSome result (λ index. IsIndexed self.now (cell_at self.now.cells at) index.value) }
        ensures within { IfSome result (λ index. at + 1 ≤ length self.now.cells) }
    {
        let entries = self.cells.get(at as usize)?.cell.entries()?;
        let index = index_of(self, entries)?;
        Box::new(self.alloc, index).ok()
    }

    /// The entry that the index of a dictionary gets for the key that a change adds, if there is an index.
    pub(crate) fn new_content(
        &self,
        at: u32,
        change: Change,
        place: Option<usize>,
    ) -> Option<KeyContent>
        ensures { IfSome result (λ c. option_and_then (key_entry self.now) (key_of change) ≡ Some c) }
    {
        if place.is_some() || !self.has_index(at) {
            return None;
        }
        self.key_entry(&Homes::new(self.alloc), change.key()?)
    }

    /// The entry of an index for a key: the number of the value if another file made it, else the key's content, which
    /// needs no published store.
    fn key_entry(&self, nowhere: &Homes, key: Value) -> Option<KeyContent>
        requires { nowhere.now ≡ [] }
        ensures { IfSome result (λ c. key_entry self.now key ≡ Some c) }
    {
        match key {
            Value::Ref { home, at } if home != self.home => Some(KeyContent::far(home, at)),
            _ => content(self.alloc, self, nowhere, key).ok()?,
        }
    }

    /// The entry of a new index for a key. `None` for a key that another file made, if the keys are few.
    fn early_entry(&self, nowhere: &Homes, key: Value, are_few: bool) -> Option<KeyContent>
        requires { nowhere.now ≡ [] }
        ensures { IfSome result (λ c. key_entry self.now key ≡ Some c) }
    {
        let entry = self.key_entry(nowhere, key)?;
        if are_few && entry.far_home().is_some() {
            return None;
        }
        Some(entry)
    }
}

/// The index of entries, if each key of this file has its content in this store, and nothing occurs twice. `None` also
/// if the entries are few and another file made a key.
fn index_of(arena: &Arena, entries: &Entries) -> Option<KeyIndex>
    ensures { IfSome result (λ index. entries_by arena.now entries.now ≡ map Some index) }
{
    let homes = Homes::new(arena.alloc);
    let mut index = KeyIndex::with_capacity(arena.alloc, entries.len(), arena.state).ok()?;
    let are_few = entries.len() < FEW_FAR;
    for entry in entries.as_slice() {
        if !index.push(arena.early_entry(&homes, entry.0, are_few)?) {
            return None;
        }
    }
    Some(index)
}

/// Puts an index at an address.
fn put_index(
    indexes: &mut Vec<Option<Box<KeyIndex>>>,
    at: u32,
    index: Box<KeyIndex>,
) -> Result<(), AllocError>
    ensures each { IsPutAt at index.value indexes.old.items indexes.new.items }
    ensures within { length indexes.new.items ≤ max (length indexes.old.items) (at + 1) }
{
    widen(indexes, at)?;
    indexes[at as usize] = Some(index);
    Ok(())
}

#[tactic(auto, using(crate::proofs::Indexes::row_grown))]
/// Adds places with no index up to an address.
fn widen(indexes: &mut Vec<Option<Box<KeyIndex>>>, at: u32) -> Result<(), AllocError>
    ensures same { (i : ℕ) → index_at indexes.new.items i ≡ index_at indexes.old.items i }
    ensures within { length indexes.new.items ≤ max (length indexes.old.items) (at + 1) }
    ensures wide { OnOk result (at + 1 ≤ length indexes.new.items) }
{
    for _i in indexes.len()..at as usize + 1 {
        indexes.push(None)?;
    }
    Ok(())
}

/// Changes the index at an address as its dictionary was changed.
pub(crate) fn change_index_at(
    indexes: &mut [Option<Box<KeyIndex>>],
    at: u32,
    change: Change,
    place: Option<usize>,
    content: Option<KeyContent>,
)
    ensures { AreChanged at change place content indexes.old indexes.new }
{
    if (at as usize) < indexes.len() {
        change_index(&mut indexes[at as usize], change, place, content);
    }
}

fn change_index(
    slot: &mut Option<Box<KeyIndex>>,
    change: Change,
    place: Option<usize>,
    content: Option<KeyContent>,
)
    ensures { IfSome slot.new (λ index. option_and_then (λ b. index_after change place content b.value) slot.old
        ≡ Some index.value) }
{
    let keeps = match slot {
        Some(index) => follow(index, change, place, content),
        None => false,
    };
    if !keeps {
        *slot = None;
    }
}

/// Changes an index as its dictionary was changed, and says whether that could be done.
fn follow(
    index: &mut KeyIndex,
    change: Change,
    place: Option<usize>,
    content: Option<KeyContent>,
) -> bool
    ensures { OnTrue result (index_after change place content index.old ≡ Some index.new) }
{
    match (change, place) {
        (Change::Put(_, _), None) => match content {
            Some(content) => index.push(content),
            None => false,
        },
        (Change::Put(_, _), Some(_)) => true,
        (Change::Delete(_), Some(at)) => {
            index.remove(at);
            true
        }
        _ => false,
    }
}
