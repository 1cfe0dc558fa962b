//! From the content of a key to its place, in constant time: for the index of a dictionary, and for tables.
//!
//! If the key of an entry that has gone comes again, its old content is replaced by one that no key has.

ghost use Rattle.std.specs.Prelude.{◌≡◌, ◌≤◌, ◌++◌, ◌∷◌, [], if◌then◌else◌, drop, length, slice_get, IfOk};
ghost use Rattle.std.specs.Option.{option_copied};
ghost use Rattle.std.specs.List.{remove};
ghost use Rattle.star_store.specs.Scalars.{scalar_atom};
ghost use Rattle.star_store.specs.Index.{place_by};

use crate::content::{KeyContent, ScalarKey};
use crate::seed::SeededState;
use indexmap::IndexSet;
use std::alloc::{AllocError, Global};
use std::marker::Model;

/// Contents of keys, in order, none twice. The first `gone` of them were taken out: to take out the first, `gone` grows
/// and nothing moves.
#[derive(Drop)]
pub struct Index {
    contents: IndexSet<KeyContent, SeededState>,
    gone: usize,
}

impl Model for Index {
    ghost use Rattle.std.specs.Prelude.{◌≤◌, List, drop, length};
    ghost use Rattle.star_store.specs.declared.content.Atom.{Atom as AnyAtom};

    ghost Value = { List (List AnyAtom) };

    ghost view = { λ i. drop i.gone i.contents.keys };

    ghost invariant = { λ i. i.gone ≤ length i.contents.keys };
}

impl Index {
    /// An index of no entries, with room for `capacity` contents.
    pub fn with_capacity(
        alloc: Global,
        capacity: usize,
        state: SeededState,
    ) -> Result<Index, AllocError>
        ensures { IfOk result (λ index. index ≡ []) }
    {
        Ok(Index {
            contents: IndexSet::with_capacity_and_hasher(alloc, capacity, state)?,
            gone: 0,
        })
    }

    /// How many contents there are.
    pub fn len(&self) -> usize
        ensures { result ≡ length self.now }
    {
        self.contents.as_slice()[self.gone..].len()
    }

    /// The content at a place.
    pub fn get(&self, at: usize) -> Option<&KeyContent>
        ensures { option_copied result ≡ slice_get self.now at }
    {
        self.contents.as_slice()[self.gone..].get(at)
    }

    /// The place of a content.
    pub fn place(&self, content: &KeyContent) -> Option<usize>
        ensures { result ≡ place_by content.now self.now }
    {
        // The set says here that no content occurs twice.
        let _count = self.contents.len();
        let at = match self.contents.get_index_of(content) {
            Some(at) => at,
            None => return None,
        };
        if at < self.gone {
            return None;
        }
        Some(at - self.gone)
    }

    /// The place of the content of a key that is not a tuple.
    pub fn place_of_scalar(&self, key: ScalarKey<'_>) -> Option<usize>
        ensures { result ≡ place_by (scalar_atom key.entry.scalar ∷ []) self.now }
    {
        // As in `place`: the set says here that no content occurs twice.
        let _count = self.contents.len();
        let at = match self.contents.get_index_of(key) {
            Some(at) => at,
            None => return None,
        };
        if self.gone > at {
            return None;
        }
        Some(at - self.gone)
    }

    /// Adds a content after all others, and returns whether it was added. If it was there already, or an allocation
    /// failed, nothing has changed.
    pub fn push(&mut self, content: KeyContent) -> bool
        ensures { self.new ≡ (if result then self.old ++ content ∷ [] else self.old) }
    {
        if self.gone > 0 {
            bury(&mut self.contents, self.gone, &content);
        }
        match self.contents.insert(content) {
            Ok(added) => added,
            Err(_) => false,
        }
    }

    /// Takes the content at a place out; those after it close up.
    pub fn remove(&mut self, at: usize)
        ensures { self.new ≡ remove self.old at }
    {
        let count = self.contents.len() - self.gone;
        if at >= count {
            return;
        }
        if at > 0 {
            let _content = self.contents.shift_remove_index(self.gone + at);
            return;
        }
        self.gone += 1;
        if count <= self.gone {
            self.gone = close_up(&mut self.contents, self.gone);
        }
    }
}

/// Makes sure, if memory suffices, that the first contents, which have gone, do not include this one: a content that no
/// key has takes its place.
fn bury(contents: &mut IndexSet<KeyContent, SeededState>, gone: usize, content: &KeyContent)
    requires { gone ≤ length contents.old.keys }
    ensures same { drop gone contents.new.keys ≡ drop gone contents.old.keys }
    ensures within { gone ≤ length contents.new.keys }
{
    let Some(at) = contents.get_index_of(content) else {
        return;
    };
    if at >= gone {
        return;
    }
    if let Ok(true) = contents.insert(KeyContent::of_no_key(at + 1)) {
        let _content = contents.swap_remove_index(at);
    }
}

/// Takes the first contents out, which have gone, and says how many of them are left: all if memory is refused.
fn close_up(contents: &mut IndexSet<KeyContent, SeededState>, gone: usize) -> usize
    requires { gone ≤ length contents.old.keys }
    ensures same { drop result contents.new.keys ≡ drop gone contents.old.keys }
    ensures within { result ≤ length contents.new.keys }
{
    match contents.split_off(gone) {
        Ok(rest) => {
            *contents = rest;
            0
        }
        Err(_) => gone,
    }
}
