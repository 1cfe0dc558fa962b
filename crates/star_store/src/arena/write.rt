//! Reading dictionaries, and writing lists and dictionaries.

ghost use Rattle.std.specs.Prelude.{◌≡◌, ◌<◌};
ghost use Rattle.std.specs.Option.{option_copied};
ghost use Rattle.star_store.specs.Key.{find_in};
ghost use Rattle.star_store.specs.Store.{iterations_of, look};
ghost use Rattle.star_store.specs.Write.{Writes, allowed, cell_at, change_cell, change_entries, change_items, delete, in_cells, is_good_key, is_own, key_of, may_change, may_write, place_in, put, suits, write};

use crate::arena::indexes::change_index_at;
use crate::arena::{Arena, Homes, is_container};
use crate::fault::StoreFault;
use crate::key::may_be_key;
use crate::values::{Cell, Entries, HeapCell, Value, Values};

/// A change of a list or of a dictionary. Positions are counted from the front, from 0 on.
#[derive(Clone, Copy, Debug, PartialEq, Eq)]
pub enum Change {
    /// A list gets a value after all others.
    Append(Value),
    /// A list gets another value at a place that it has.
    Set(usize, Value),
    /// A list gets a value before the one at a place, or after all others.
    Insert(usize, Value),
    /// A list loses the value at a place.
    RemoveAt(usize),
    /// A dictionary gets a value for a key. A key that is there stays, in its place.
    Put(Value, Value),
    /// A dictionary loses the entry of a key.
    Delete(Value),
    /// A list or dictionary loses all its items or entries.
    Clear,
}

impl Change {
    pub(crate) fn key(self) -> Option<Value>
        ensures { result ≡ key_of self }
    {
        match self {
            Change::Put(key, _) | Change::Delete(key) => Some(key),
            _ => None,
        }
    }

    fn suits(self, cell: Option<&Cell>) -> bool
        ensures { result ≡ suits self (option_copied cell.entry) }
    {
        match cell {
            Some(Cell::List(_)) => !matches!(self, Change::Put(_, _) | Change::Delete(_)),
            Some(Cell::Dict(_)) | Some(Cell::Set(_)) => {
                matches!(self, Change::Put(_, _) | Change::Delete(_) | Change::Clear)
            }
            _ => false,
        }
    }
}

impl Arena {
    /// The value that a dictionary has for a key. `BadType` if the value is not a dictionary, or the key is not
    /// hashable.
    ///
    /// A run looks up by `key_value` (`places.rt`), which checks no key. This function is for programs that use the
    /// store alone.
    pub fn find(&self, homes: &Homes, dict: Value, key: Value) -> Result<Option<Value>, StoreFault>
        ensures { result ≡ find_in (look self.now homes.now) (look self.now homes.now dict) key }
    {
        let Some(Cell::Dict(_)) = self.read(homes, dict) else {
            return Err(StoreFault::BadType);
        };
        if !may_be_key(self, homes, key) {
            return Err(StoreFault::BadType);
        }
        Ok(self.key_value(homes, dict, key))
    }

    /// Whether a list or dictionary may be written. `BadType` for another value, `Frozen` if another module made it,
    /// `Iterating` if an iteration is open on it.
    pub fn may_write(&self, homes: &Homes, target: Value) -> Result<(), StoreFault>
        ensures { result ≡ may_write self.now homes.now target }
    {
        match self.read(homes, target) {
            Some(Cell::List(_)) | Some(Cell::Dict(_)) | Some(Cell::Set(_)) => {
                self.may_change(target)
            }
            _ => Err(StoreFault::BadType),
        }
    }

    fn may_change(&self, target: Value) -> Result<(), StoreFault>
        ensures { result ≡ may_change self.now target }
    {
        if !self.is_own(target) {
            return Err(StoreFault::Frozen);
        }
        if self.open_iterations(target) != 0 {
            return Err(StoreFault::Iterating);
        }
        Ok(())
    }

    fn is_own(&self, value: Value) -> bool
        ensures { result ≡ is_own self.now value }
    {
        match value {
            Value::Ref { home, .. } => home == self.home,
            _ => false,
        }
    }

    /// How many iterations are open on a list or dictionary of this module; none on another value.
    pub fn open_iterations(&self, value: Value) -> u32
        ensures { result ≡ iterations_of self.now value }
    {
        match value {
            Value::Ref { home, at } if home == self.home => match self.cells.get(at as usize) {
                Some(counted) if is_container(&counted.cell) => counted.iterations,
                _ => 0,
            },
            _ => 0,
        }
    }

    fn has_good_key(&self, homes: &Homes, change: Change) -> bool
        ensures { result ≡ is_good_key (look self.now homes.now) (key_of change) }
    {
        match change.key() {
            Some(key) => may_be_key(self, homes, key),
            None => true,
        }
    }

    fn place_in(&self, homes: &Homes, change: Change, target: Value) -> Option<usize>
        ensures { result ≡ place_in (look self.now homes.now) (key_of change) (look self.now homes.now target) }
    {
        match change.key() {
            Some(key) => self.key_place(homes, target, key),
            None => None,
        }
    }

    fn allow(&self, homes: &Homes, target: Value, change: Change) -> Result<(), StoreFault>
        ensures { result ≡ allowed self.now homes.now target change }
    {
        if !change.suits(self.read(homes, target)) {
            return Err(StoreFault::BadType);
        }
        if !self.is_own(target) {
            return Err(StoreFault::Frozen);
        }
        if self.open_iterations(target) != 0 {
            return Err(StoreFault::Iterating);
        }
        if !self.has_good_key(homes, change) {
            return Err(StoreFault::BadType);
        }
        Ok(())
    }

    /// Changes a list or dictionary, and returns the value that was replaced or taken out.
    ///
    /// The refusals, in this order: `BadType` if the target is not a list or dictionary, or the change is one for the
    /// other. Then `Frozen` if another module made it, and `Iterating` if an iteration is open on it. Then `BadType` if
    /// the key is not a key, `Index` if a list has no such index, and `Key` if the key of a `Delete` is absent. Last
    /// comes `Memory`. After a refusal all is as it was.
    pub fn write(
        &mut self,
        homes: &Homes,
        target: Value,
        change: Change,
    ) -> Result<Option<Value>, StoreFault>
        ensures { Writes (write self.old homes.now target change) result self.old self.new }
    {
        self.allow(homes, target, change)?;
        let place = self.place_in(homes, change, target);
        let Value::Ref { at, .. } = target else {
            return Err(StoreFault::BadType);
        };
        let content = self.new_content(at, change, place);
        let old = change_at(&mut self.cells, at, change, place)?;
        change_index_at(&mut self.indexes, at, change, place, content);
        self.index_if_due(at, place.is_none());
        Ok(old)
    }
}

fn change_at(
    cells: &mut [HeapCell],
    at: u32,
    change: Change,
    place: Option<usize>,
) -> Result<Option<Value>, StoreFault>
    ensures { Writes (in_cells cells.old at (change_cell change place (cell_at cells.old at)))
        result cells.old cells.new }
{
    if (at as usize) < cells.len() {
        return change_in(&mut cells[at as usize], change, place);
    }
    Err(StoreFault::BadType)
}

fn change_in(
    counted: &mut HeapCell,
    change: Change,
    place: Option<usize>,
) -> Result<Option<Value>, StoreFault>
    ensures answer { Writes (change_cell change place (Some counted.old.cell))
        result counted.old.cell counted.new.cell }
    ensures iterations { counted.new.iterations ≡ counted.old.iterations }
{
    match &mut counted.cell {
        Cell::List(items) => change_items(items, change),
        Cell::Dict(entries) => change_entries(entries, change, place),
        Cell::Set(entries) => change_entries(entries, change, place),
        _ => Err(StoreFault::BadType),
    }
}

fn change_items(items: &mut Values, change: Change) -> Result<Option<Value>, StoreFault>
    ensures { Writes (change_items change items.old) result items.old items.new }
{
    match change {
        Change::Append(value) => {
            items.push(value)?;
            Ok(None)
        }
        Change::Set(at, value) => {
            let Some(old) = items.get(at) else {
                return Err(StoreFault::Index);
            };
            items.set(at, value);
            Ok(Some(old))
        }
        Change::Insert(at, value) => {
            if at > items.len() {
                return Err(StoreFault::Index);
            }
            items.insert(at, value)?;
            Ok(None)
        }
        Change::RemoveAt(at) => {
            let Some(old) = items.get(at) else {
                return Err(StoreFault::Index);
            };
            items.remove(at);
            Ok(Some(old))
        }
        Change::Clear => {
            items.clear();
            Ok(None)
        }
        Change::Put(_, _) | Change::Delete(_) => Err(StoreFault::BadType),
    }
}

fn change_entries(
    entries: &mut Entries,
    change: Change,
    place: Option<usize>,
) -> Result<Option<Value>, StoreFault>
    ensures { Writes (change_entries change place entries.old) result entries.old entries.new }
{
    match change {
        Change::Put(key, value) => put(entries, key, value, place),
        Change::Delete(_) => delete(entries, place),
        Change::Clear => {
            entries.clear();
            Ok(None)
        }
        _ => Err(StoreFault::BadType),
    }
}

fn put(
    entries: &mut Entries,
    key: Value,
    value: Value,
    place: Option<usize>,
) -> Result<Option<Value>, StoreFault>
    ensures { Writes (put key value place entries.old) result entries.old entries.new }
{
    let Some(place) = place else {
        entries.push(key, value)?;
        return Ok(None);
    };
    let Some((key, old)) = entries.get(place) else {
        return Err(StoreFault::Key);
    };
    entries.set(place, key, value);
    Ok(Some(old))
}

fn delete(entries: &mut Entries, place: Option<usize>) -> Result<Option<Value>, StoreFault>
    ensures { Writes (delete place entries.old) result entries.old entries.new }
{
    let Some(place) = place else {
        return Err(StoreFault::Key);
    };
    let Some((_key, old)) = entries.get(place) else {
        return Err(StoreFault::Key);
    };
    entries.remove(place);
    Ok(Some(old))
}
