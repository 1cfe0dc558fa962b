//! Look-ups in dictionaries and sets: the place of a key's entry, by the dictionary's index if it has one, else by a walk.
//!
//! A walk compares a key that is not a tuple with each key in place (`place_of_scalar`), a tuple by the definition's
//! recursion. A look-up in a published dictionary uses its index only under the file number of its store, which
//! `Frozen` keeps; else it walks. If an index has keys of other files, a look-up asks the tables of their stores
//! (`tables.rt`).

ghost use Rattle.std.specs.Prelude.{◌≡◌, IfSome, Some, length, option_and_then, slice_get};
ghost use Rattle.std.specs.Option.{option_copied};
ghost use Rattle.star_store.specs.Content.{content};
ghost use Rattle.star_store.specs.Index.{IsIndexed, IsKnown, Places, PlacesAt, TextPlaces, beside_at, entries_of, held_entries, index_at, place_by, place_of_key, value_at};
ghost use Rattle.star_store.specs.Key.{key_levels, place_of, text_place, text_value, value_of};
ghost use Rattle.star_store.specs.Store.{look};
ghost use Rattle.star_store.specs.Write.{cell_at};

use crate::arena::{Arena, Frozen, Homes};
use crate::content::{KeyContent, Scalar, ScalarKey, content, scalar_key};
use crate::index::Index;
use crate::key::{place_of, place_of_scalar, value_of};
use crate::key_index::{FEW_FAR, KeyIndex};
use crate::values::{Entries, Value};
use star_text::Text;

impl Arena {
    /// The entries of a dictionary or a set.
    #[inline(always)]
    fn entries<'a>(&'a self, homes: &'a Homes, dict: Value) -> Option<&'a Entries>
        ensures { option_copied result ≡ held_entries (look self.now homes.now dict) }
    {
        match self.read(homes, dict) {
            Some(cell) => cell.entries(),
            None => None,
        }
    }

    /// The place of a dictionary's entry with this key; `None` if the value is not a dictionary.
    pub fn key_place(&self, homes: &Homes, dict: Value, key: Value) -> Option<usize>
        ensures { result ≡ place_of (look self.now homes.now) key (entries_of (look self.now homes.now dict)) }
    {
        match self.entries(homes, dict) {
            Some(entries) => self.place_among(homes, dict, entries, key),
            None => None,
        }
    }

    /// The value that a dictionary has for this key; `None` if the value is not a dictionary.
    #[inline(always)]
    pub fn key_value(&self, homes: &Homes, dict: Value, key: Value) -> Option<Value>
        ensures { result ≡ value_of (look self.now homes.now) key (entries_of (look self.now homes.now dict)) }
    {
        let entries = self.entries(homes, dict)?;
        let place = self.place_among(homes, dict, entries, key)?;
        let (_key, value) = entries.get(place)?;
        Some(value)
    }

    /// The place of the entry with this key among the entries of a dictionary: by its index if that can tell it, else
    /// by a walk.
    fn place_among(
        &self,
        homes: &Homes,
        dict: Value,
        entries: &Entries,
        key: Value,
    ) -> Option<usize>
        requires { held_entries (look self.now homes.now dict) ≡ Some entries.now }
        ensures { result ≡ place_of (look self.now homes.now) key entries.now }
    {
        match self.indexed_place(homes, dict, key) {
            Some(place) => place,
            None => place_of(self, homes, key, entries),
        }
    }

    /// The place of the entry of a dictionary with this key, if the dictionary's index can tell it.
    fn indexed_place(&self, homes: &Homes, dict: Value, key: Value) -> Option<Option<usize>>
        ensures { IfSome result (Places (look self.now homes.now) key (look self.now homes.now dict)) }
    {
        let index = self.index(homes, dict)?;
        if !index.is_near() {
            return self.far_place(homes, index, key);
        }
        match scalar_key(self, homes, key) {
            Some(scalar) => Some(index.keys().place_of_scalar(scalar)),
            None => place_of_content(self, homes, index.keys(), key),
        }
    }

    /// The place of a key in an index with keys of other files, if the index can tell it. The inner one is `None` if
    /// the value is not a key.
    fn far_place(&self, homes: &Homes, index: &KeyIndex, key: Value) -> Option<Option<usize>>
        ensures { IfSome result (λ place. place ≡ place_of_key (look self.now homes.now) key index.now) }
    {
        if index.keys().len() < FEW_FAR {
            return None;
        }
        match content(self.alloc, self, homes, key) {
            Ok(Some(content)) => self.place_told(homes, index, &content),
            Ok(None) => Some(None),
            Err(_) => None,
        }
    }

    /// The value that a dictionary has for a string of these bytes; `None` if the value is not a dictionary.
    pub fn text_value(&self, homes: &Homes, dict: Value, text: &Text) -> Option<Value>
        ensures { result ≡ text_value (look self.now homes.now) text.now (entries_of (look self.now homes.now dict)) }
    {
        let entries = self.entries(homes, dict)?;
        let place = self.text_place(homes, dict, entries, text)?;
        let (_key, value) = entries.get(place)?;
        Some(value)
    }

    /// The place of a string among the entries of a dictionary: by its index if that can tell it, else by a walk.
    fn text_place(
        &self,
        homes: &Homes,
        dict: Value,
        entries: &Entries,
        text: &Text,
    ) -> Option<usize>
        requires { held_entries (look self.now homes.now dict) ≡ Some entries.now }
        ensures { result ≡ text_place (look self.now homes.now) text.now entries.now }
    {
        match self.indexed_text(homes, dict, text) {
            Some(place) => place,
            None => place_of_scalar(self, homes, Scalar::Text(text), entries),
        }
    }

    /// The place of the entry of a dictionary for a string, if the dictionary's index can tell it.
    fn indexed_text(&self, homes: &Homes, dict: Value, text: &Text) -> Option<Option<usize>>
        ensures { IfSome result (TextPlaces (look self.now homes.now) text.now (look self.now homes.now dict)) }
    {
        let index = self.index(homes, dict)?;
        if index.is_near() {
            let scalar = Scalar::Text(text);
            return Some(index.keys().place_of_scalar(ScalarKey { scalar }));
        }
        if index.keys().len() < FEW_FAR {
            return None;
        }
        match KeyContent::of_text(text) {
            Ok(content) => self.place_told(homes, index, &content),
            Err(_) => None,
        }
    }

    /// The number of a dictionary's entries; 0 if the value is not a dictionary.
    pub fn dict_len(&self, homes: &Homes, dict: Value) -> usize
        ensures { result ≡ length (entries_of (look self.now homes.now dict)) }
    {
        match self.entries(homes, dict) {
            Some(entries) => entries.len(),
            None => 0,
        }
    }

    /// The key and the value of the entry of a dictionary at a place.
    fn dict_entry(&self, homes: &Homes, dict: Value, at: usize) -> Option<(Value, Value)>
        ensures { result ≡ slice_get (entries_of (look self.now homes.now dict)) at }
    {
        match self.entries(homes, dict) {
            Some(entries) => entries.get(at),
            None => None,
        }
    }

    /// The value of the entry of a dictionary at a place, and the value that another has for its key.
    pub fn beside(
        &self,
        homes: &Homes,
        dict: Value,
        at: usize,
        other: Value,
    ) -> Option<(Value, Option<Value>)>
        ensures { result ≡ beside_at (look self.now homes.now) dict at other }
    {
        let (key, value) = self.dict_entry(homes, dict, at)?;
        if let Some(place) = self.indexed_beside(homes, dict, at, other) {
            return Some((value, self.entry_value(homes, other, place)));
        }
        match self.indexed_place(homes, other, key) {
            Some(place) => Some((value, self.entry_value(homes, other, place))),
            None => Some((value, self.walked_value(homes, other, key))),
        }
    }

    /// The value of the entry of a dictionary at a place, if there is one.
    fn entry_value(&self, homes: &Homes, dict: Value, place: Option<usize>) -> Option<Value>
        ensures { result ≡ value_at (entries_of (look self.now homes.now dict)) place }
    {
        match place {
            Some(at) => match self.dict_entry(homes, dict, at) {
                Some((_key, value)) => Some(value),
                None => None,
            },
            None => None,
        }
    }

    /// The value that a dictionary has for this key, by a walk: which takes no memory.
    fn walked_value(&self, homes: &Homes, dict: Value, key: Value) -> Option<Value>
        ensures { result ≡ value_of (look self.now homes.now) key (entries_of (look self.now homes.now dict)) }
    {
        match self.entries(homes, dict) {
            Some(entries) => value_of(self, homes, key, entries),
            None => None,
        }
    }

    /// One dictionary's place for the key of another's entry, if both have an index with no key of another file: by the
    /// content in the other's index, so that no memory is taken.
    fn indexed_beside(
        &self,
        homes: &Homes,
        dict: Value,
        at: usize,
        other: Value,
    ) -> Option<Option<usize>>
        ensures { IfSome result (PlacesAt (look self.now homes.now) (look self.now homes.now dict) at
            (look self.now homes.now other)) }
    {
        let left = self.index(homes, dict)?;
        let right = self.index(homes, other)?;
        if !left.is_near() || !right.is_near() {
            return None;
        }
        Some(right.keys().place(left.keys().get(at)?))
    }

    /// The index of a dictionary.
    fn index<'a>(&'a self, homes: &'a Homes, dict: Value) -> Option<&'a KeyIndex>
        ensures { IfSome result (λ index. IsKnown (look self.now homes.now)
            (look self.now homes.now dict) index.now) }
    {
        let Value::Ref { home, at } = dict else {
            return None;
        };
        if home == self.home {
            return index_in(&self.indexes, at);
        }
        homes.published(home as usize)?.index(home, at)
    }
}

/// The place of a key's content in an index, if memory suffices; the inner one is `None` if the value is not a key.
fn place_of_content(
    arena: &Arena,
    homes: &Homes,
    index: &Index,
    key: Value,
) -> Option<Option<usize>>
    ensures { IfSome result (λ place. place
        ≡ option_and_then (λ atoms. place_by atoms index.now) (content (look arena.now homes.now) key_levels key)) }
{
    match content(arena.alloc, arena, homes, key) {
        Ok(Some(content)) => Some(index.place(&content)),
        Ok(None) => Some(None),
        Err(_) => None,
    }
}

impl Frozen {
    /// The index of the dictionary at an address, if values of this number lead to this module's cells.
    fn index(&self, home: u32, at: u32) -> Option<&KeyIndex>
        ensures { IfSome result (λ index. IsIndexed (record { home = home; cells = self.now.cells })
            (cell_at self.now.cells at) index.now) }
    {
        if self.home != home {
            return None;
        }
        index_in(&self.indexes, at)
    }
}

fn index_in(indexes: &[Option<Box<KeyIndex>>], at: u32) -> Option<&KeyIndex>
    ensures { option_copied result ≡ index_at indexes.now at }
{
    match indexes.get(at as usize) {
        Some(Some(index)) => Some(index),
        _ => None,
    }
}
