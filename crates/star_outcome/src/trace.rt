//! `Trace`: the loads that were refused, since they would have closed a cycle.

ghost use Rattle.std.specs.Prelude.{◌≡◌, IfOk, IfSome};
ghost use Rattle.boxcar.specs.Table.{Shows};
ghost use Rattle.star_outcome.specs.Refusals.{AreRefusals, IsRefusal};

use crate::run_id::RunId;
use boxcar::tag::Tag;
use boxcar::{Keeps, Pushed};
use std::alloc::{AllocError, Global};
use std::marker::PhantomData;
use std::sync::Wait;

/// A load that was refused: a file, the index of the load among its loads, and the file that it loads. Files are given
/// by their numbers.
#[derive(Clone, Copy, Debug, PartialEq, Eq)]
pub struct CyclicLoad {
    pub file: usize,
    pub index: usize,
    pub loaded: usize,
}

/// The rule of a trace: the load lies on a load cycle.
pub struct OnCycle<J>(PhantomData<J>);

impl<J: RunId> Keeps<CyclicLoad> for OnCycle<J> {
    ghost use Rattle.star_outcome.specs.Refusals.{IsRefusal};

    ghost holds = { λ _ _ r. IsRefusal J.plan r };
}

/// A token to read an item back with.
pub type Token<J> = Pushed<CyclicLoad, Global, OnCycle<J>>;

/// The refused loads, in the order of their places.
#[derive(Drop)]
pub struct Trace<J: RunId> {
    items: boxcar::Vec<CyclicLoad, Global, OnCycle<J>>,
}

impl<J: RunId> Trace<J> {
    /// No load. The error: an allocation failed.
    pub fn new(alloc: Global) -> Result<Trace<J>, AllocError> {
        Ok(Trace {
            items: boxcar::Vec::with_rule(alloc, Tag::empty())?,
        })
    }

    /// Adds a load. The error: an allocation failed.
    pub fn push<R: Wait>(&self, rt: &R, refused: CyclicLoad) -> Result<Token<J>, AllocError>
        requires { IsRefusal J.plan refused }
        ensures { IfOk result (λ t. Shows self.now.items t × (t.value ≡ refused)) }
    {
        match self.items.push_shown(rt, refused) {
            Ok(token) => Ok(token),
            Err(_) => Err(AllocError),
        }
    }

    /// The item of a token.
    pub fn read(&self, token: &Token<J>) -> CyclicLoad
        requires { Shows self.now.items token.now }
        ensures { result ≡ token.now.value }
    {
        *self.items.value(token)
    }

    /// The item with `i` items before it; `None` if there are at most `i` items.
    pub fn nth(&self, i: usize) -> Option<CyclicLoad>
        ensures { IfSome result (IsRefusal J.plan) }
    {
        let mut left = i;
        let items = self.items.iter();
        for (_, item) in items {
            if left == 0 {
                return Some(*item);
            }
            left -= 1;
        }
        None
    }

    /// All items, in order. The error: an allocation failed.
    pub fn all(&self, alloc: Global) -> Result<Vec<CyclicLoad>, AllocError>
        ensures { IfOk result (λ all. AreRefusals J.plan all.items) }
    {
        let mut all = Vec::new(alloc);
        let items = self.items.iter();
        for (_, item) in items {
            all.push(*item)?;
        }
        Ok(all)
    }
}
