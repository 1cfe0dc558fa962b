//! The index of a dictionary that may have keys of other files.
//!
//! The cell of another file's value is known only beside its store, and each look-up may come with other stores. So the
//! index has such a key under the number of its value. A look-up asks the table of that file's store which values have
//! the content that it looks for (`table.rt`).

ghost use Rattle.std.specs.Prelude.{◌≡◌, ◌++◌, ◌∷◌, [], List, Some, true, if◌then◌else◌, IfOk};
ghost use Rattle.std.specs.Bool.{OnTrue};
ghost use Rattle.std.specs.List.{remove};
ghost use Rattle.star_store.specs.Index.{Covers, far_home, is_within};
ghost use Rattle.star_store.specs.declared.content.Atom.{Atom as AnyAtom};

use crate::content::KeyContent;
use crate::index::Index;
use crate::seed::SeededState;
use std::alloc::{AllocError, Global};
use std::marker::Model;

/// If an index with keys of other files has fewer keys than this, a walk is as fast as a question to a table.
pub(crate) const FEW_FAR: usize = 24;

/// An index has keys of at most this many other files: each look-up asks all of them.
const MOST_HOMES: usize = 4;

/// An index of a dictionary: the contents of its keys, or the numbers of the keys that other files made, in order.
pub struct KeyIndex {
    keys: Index,
    homes: Vec<u32>,
}

impl Drop for KeyIndex {
    fn drop(self) {
        let KeyIndex { keys: _, homes: _ } = self;
    }
}

impl Model for KeyIndex {
    ghost Value = { List (List AnyAtom) };

    ghost view = { λ i. i.keys };

    ghost invariant = { λ i. Covers i.homes.items i.keys };
}

impl KeyIndex {
    /// An index of no entries, with room for `capacity` keys.
    pub fn with_capacity(
        alloc: Global,
        capacity: usize,
        state: SeededState,
    ) -> Result<KeyIndex, AllocError>
        ensures { IfOk result (λ index. index ≡ []) }
    {
        Ok(KeyIndex {
            keys: Index::with_capacity(alloc, capacity, state)?,
            homes: Vec::new(alloc),
        })
    }

    /// The keys, in order.
    pub fn keys(&self) -> &Index
        ensures { result.now ≡ self.now }
    {
        &self.keys
    }

    /// The files that made the keys of other files, and perhaps more.
    pub fn homes(&self) -> &[u32]
        ensures { Covers result.now self.now }
    {
        &self.homes
    }

    /// Whether no other file made a key.
    #[inline(always)]
    pub fn is_near(&self) -> bool
        ensures { OnTrue result (Covers [] self.now) }
    {
        self.homes.is_empty()
    }

    /// Adds a key after all others, and returns whether it was added. If it was there already, its file is one too
    /// many, or an allocation failed, then nothing has changed.
    pub fn push(&mut self, content: KeyContent) -> bool
        ensures { self.new ≡ (if result then self.old ++ content ∷ [] else self.old) }
    {
        if !cover(&mut self.homes, content.far_home()) {
            return false;
        }
        self.keys.push(content)
    }

    /// Takes the key at a place out; those after it close up.
    #[tactic(auto, using(crate::proofs::Far::covers_removed))]
    pub fn remove(&mut self, at: usize)
        ensures { self.new ≡ remove self.old at }
    {
        self.keys.remove(at);
    }
}

/// Adds a file, if there is one, it is new, and there are not too many. Returns whether it is there now.
fn cover(homes: &mut Vec<u32>, home: Option<u32>) -> bool
    ensures covered { OnTrue result (is_within homes.new.items home ≡ true) }
    ensures kept { (k : List AnyAtom) → is_within homes.old.items (far_home k) ≡ true
        → is_within homes.new.items (far_home k) ≡ true }
{
    match home {
        Some(home) => add_home(homes, home),
        None => true,
    }
}

fn add_home(homes: &mut Vec<u32>, home: u32) -> bool
    ensures covered { OnTrue result (is_within homes.new.items (Some home) ≡ true) }
    ensures kept { (k : List AnyAtom) → is_within homes.old.items (far_home k) ≡ true
        → is_within homes.new.items (far_home k) ≡ true }
{
    if homes.contains(&home) {
        return true;
    }
    homes.len() < MOST_HOMES && homes.push(home).is_ok()
}
