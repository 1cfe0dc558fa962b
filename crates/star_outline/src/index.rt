//! `Index`: the indexes of a list's items, by the items' numbers.

ghost use Rattle.std.specs.Prelude.{◌≡◌, ◌<◌, ◌+◌, length, ℕ, nat_eq, None, Some, OnOk, OnErr, if◌then◌else◌, ◌^◌};
ghost use Rattle.std.specs.Option.{option_or};
ghost use Rattle.star_outline.specs.Index.{place_at};

use std::alloc::{AllocError, Global};

/// The index of each numbered item of a list, found by its number in constant time. Numbers are token numbers or block
/// numbers.
#[derive(Debug, Drop)]
pub(crate) struct Index {
    places: Vec<Option<usize>>,
}

impl Index {
    pub(crate) fn new(alloc: Global) -> Index
        ensures { (number : ℕ) → place_at result number ≡ None }
    {
        Index {
            places: Vec::new(alloc),
        }
    }

    /// The index of the item with this number.
    pub(crate) fn get(&self, number: usize) -> Option<usize>
        ensures { result ≡ place_at self.now number }
    {
        match self.places.get(number) {
            Some(place) => *place,
            None => None,
        }
    }

    /// The index of the item whose number is one more than this one.
    pub(crate) fn get_after(&self, number: usize) -> Option<usize>
        ensures { result ≡ place_at self.now (1 + number) }
    {
        if number < self.places.len() {
            self.get(number + 1)
        } else {
            None
        }
    }

    /// Records the index of the item with this number, if no item has the number yet. If an allocation fails, the table
    /// is as it was.
    pub(crate) fn put(&mut self, number: usize, place: usize) -> Result<(), AllocError>
        ensures same { OnErr result ((n : ℕ) → place_at self.new n ≡ place_at self.old n) }
        ensures put { OnOk result ((n : ℕ) → place_at self.new n
            ≡ option_or (place_at self.old n) (if nat_eq number n then Some place else None)) }
    {
        if self.get(number).is_some() {
            return Ok(());
        }
        self.reach(number)?;
        self.places[number] = Some(place);
        Ok(())
    }

    /// Makes room for a number.
    pub(crate) fn reach(&mut self, number: usize) -> Result<(), AllocError>
        ensures same { (n : ℕ) → place_at self.new n ≡ place_at self.old n }
        ensures room { OnOk result (number < length self.new.places.items) }
        ensures small { OnOk result (number < 2 ^ 63) }
    {
        if number < self.places.len() {
            return Ok(());
        }
        self.places.resize(number, None)?;
        self.places.push(None)?;
        Ok(())
    }
}
