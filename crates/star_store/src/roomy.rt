//! `FrontGapVec`: a vector that can have free places at its front, so that the first item is taken out, and another put
//! before it, without a move of the others.
//!
//! So `pop(0)`, `insert(0, x)`, `popitem()` and `pop` of the first key move nothing. A ring (`VecDeque`) would not do,
//! since a list is read as one slice.

ghost use Rattle.std.specs.Prelude.{◌≡◌, ◌<◌, ◌≤◌, ◌++◌, ◌∷◌, [], List, length, drop, replicate, slice_get, slice_set, OnOk, OnErr, IfOk};
ghost use Rattle.std.specs.List.{insert, remove};

use std::alloc::AllocError;
use std::marker::Model;

/// With fewer items than this, moving all of them is as fast.
const GAP_FROM: usize = 16;

/// Items in a vector. The first few of them are gone, and their places are free.
#[derive(Drop)]
pub struct FrontGapVec<T> {
    items: Vec<T>,
    gone: usize,
}

impl<T> Model for FrontGapVec<T> {
    ghost Value = { List T };

    ghost view = { λ r. drop r.gone r.items.items };

    ghost invariant = { λ r. r.gone ≤ length r.items.items };
}

impl<T: Copy> FrontGapVec<T> {
    /// These items, with no free place.
    pub fn new(items: Vec<T>) -> FrontGapVec<T>
        ensures { result ≡ items.items }
    {
        FrontGapVec { items, gone: 0 }
    }

    /// The items.
    pub fn as_slice(&self) -> &[T]
        ensures { result.now ≡ self.now }
    {
        &self.items[self.gone..]
    }

    /// How many they are.
    pub fn len(&self) -> usize
        ensures { result ≡ length self.now }
    {
        self.items.len() - self.gone
    }

    /// The item at a place.
    pub fn get(&self, at: usize) -> Option<T>
        ensures { result ≡ slice_get self.now at }
    {
        self.as_slice().get(at).copied()
    }

    /// Adds an item after all others.
    pub fn push(&mut self, item: T) -> Result<(), AllocError>
        ensures pushed { OnOk result (self.new ≡ self.old ++ item ∷ []) }
        ensures refused { OnErr result (self.new ≡ self.old) }
    {
        self.items.push(item)?;
        Ok(())
    }

    /// Puts another item at a place.
    pub fn set(&mut self, at: usize, item: T)
        requires { at < length self.old }
        ensures { self.new ≡ slice_set self.old at item }
    {
        self.items[self.gone + at] = item;
    }

    /// Puts an item before the one at a place, or after all others.
    pub fn insert(&mut self, at: usize, item: T) -> Result<(), AllocError>
        requires { at ≤ length self.old }
        ensures inserted { OnOk result (self.new ≡ insert self.old at item) }
        ensures refused { OnErr result (self.new ≡ self.old) }
    {
        if at > 0 || (self.gone == 0 && self.items.len() < GAP_FROM) {
            self.items.insert(self.gone + at, item)?;
            return Ok(());
        }
        if self.gone > 0 {
            self.gone -= 1;
            self.items[self.gone] = item;
            return Ok(());
        }
        let free = self.items.len() / 2;
        self.items = with_room(&self.items, free + 1, item)?;
        self.gone = free;
        Ok(())
    }

    /// Takes the item at a place out; those after it close up.
    pub fn remove(&mut self, at: usize)
        requires { at < length self.old }
        ensures { self.new ≡ remove self.old at }
    {
        if at > 0 || self.items.len() < GAP_FROM {
            let _item = self.items.remove(self.gone + at);
            return;
        }
        self.gone += 1;
        let left = self.items.len() - self.gone;
        if left < self.gone {
            self.items.rotate_left(self.gone);
            self.items.truncate(left);
            self.gone = 0;
        }
    }

    /// Takes all items out.
    pub fn clear(&mut self)
        ensures { self.new ≡ [] }
    {
        self.items.clear();
        self.gone = 0;
    }
}

/// These items after `room` places that hold `item`.
fn with_room<T: Copy>(items: &Vec<T>, room: usize, item: T) -> Result<Vec<T>, AllocError>
    ensures { IfOk result (λ v. v.items ≡ replicate room item ++ items.now.items) }
{
    let mut roomy = Vec::with_capacity(*items.allocator(), items.len().saturating_add(room))?;
    roomy.resize(room, item)?;
    roomy.extend_from_slice(items)?;
    Ok(roomy)
}
