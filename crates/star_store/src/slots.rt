//! `Slots`: the variables of a frame, dense at first and sparse after, over shared defaults.
//!
//! A frame keeps only the slots that were bound, so a call of a function with many names, few of them bound, takes
//! little memory: room for all names would take 16 bytes for each name of each call. A frame of a function with many
//! defaults shares their row (`over`) and holds only the slots that differ: 2,000 defaults take as much memory and time
//! as two.
//!
//! `near` is inlined for names of the innermost frame. It may answer `None` for any slot, and its contract is about the
//! values that it answers. Other names take the general way (`read_far` of `star_world`).

ghost use Rattle.std.specs.Prelude.{◌≡◌, ◌+◌, ◌^◌, ◌<◌, ◌≤◌, ℕ, None, Some, if◌then◌else◌, length, nat_eq, replicate, slice_get, slice_set, IfOk, IfSome, OnErr, OnOk};
ghost use Rattle.std.specs.Option.{option_flatten};
ghost use Rattle.std.specs.Arc.{arc_slice_items};
ghost use Rattle.star_store.specs.Slots.{default_at, far_at, row, slot_at, under_at, widened};

use crate::defaults::Defaults;
use crate::values::Value;
use std::alloc::{AllocError, Global};
use std::collections::BTreeMap;
use std::marker::Model;
use std::sync::ArcSlice;

/// A slot that is at most this far beyond the dense part extends the dense part; others go to the map.
const REACH: usize = 12;

/// The variables of a frame by their slots, each with a value or unbound. The first slots are in a vector, the others
/// in a map once they are bound, so the memory is in proportion to the number of slots that were bound. A slot that is
/// in neither has its default, if it has one.
pub struct Slots {
    alloc: Global,
    count: usize,
    near: Vec<Option<Value>>,
    far: Option<Box<BTreeMap<usize, Value>>>,
    under: Option<Box<DefaultLayer>>,
}

impl Drop for Slots {
    fn drop(self) {
        let Slots {
            alloc: _,
            count: _,
            near: _,
            far: _,
            under: _,
        } = self;
    }
}

/// The layer of defaults below the slots, and for each slot the number of its default, if it has one.
#[derive(Drop)]
struct DefaultLayer {
    ranks: ArcSlice<Option<usize>>,
    defaults: Defaults,
}

impl Model for Slots {
    ghost use Rattle.std.specs.Prelude.{List, Option};
    ghost use Rattle.star_store.specs.Slots.{row, slot_at};
    ghost use Rattle.star_store.specs.declared.values.Value.{Value as AnyValue};

    ghost Value = { List (Option AnyValue) };

    ghost view = { λ s. row (slot_at s.near.items s.far s.under) s.count };
}

impl Slots {
    /// `count` slots, all of them unbound.
    #[tactic(auto, using(crate::proofs::Rows::row_unbound))]
    pub fn unbound(alloc: Global, count: usize) -> Result<Slots, AllocError>
        ensures { IfOk result (λ slots. slots ≡ replicate count None) }
    {
        let room = count.min(REACH);
        let mut near = Vec::with_capacity(alloc, room)?;
        near.resize(room, None)?;
        Ok(Slots {
            alloc,
            count,
            near,
            far: None,
            under: None,
        })
    }

    /// `count` slots over defaults: `ranks` has for each slot the number of its default, if it has one. All other slots
    /// are unbound. At first no slot is in the vector.
    #[tactic(auto, using(crate::proofs::Rows::row_over))]
    pub fn over(
        alloc: Global,
        count: usize,
        ranks: ArcSlice<Option<usize>>,
        defaults: Defaults,
    ) -> Result<Slots, AllocError>
        ensures { IfOk result (λ slots. slots ≡ row (default_at (arc_slice_items ranks) defaults) count) }
    {
        let under = Box::new(alloc, DefaultLayer { ranks, defaults })?;
        Ok(Slots {
            alloc,
            count,
            near: Vec::new(alloc),
            far: None,
            under: Some(under),
        })
    }

    /// The value of a slot in the vector. `None` does not mean that the slot has no value: it may be elsewhere.
    #[inline(always)]
    #[tactic(auto, using(crate::proofs::Rows::row_near))]
    pub fn near(&self, at: usize) -> Option<Value>
        ensures { IfSome result (λ v. option_flatten (slice_get self.now at) ≡ Some v) }
    {
        if at < self.count {
            return near_at(&self.near, at);
        }
        None
    }

    /// The state of a slot: `None` if there is no such slot, and `None` inside if its variable is unbound.
    #[tactic(auto, using(crate::proofs::Rows::row_at, crate::proofs::Rows::row_past))]
    pub fn get(&self, at: usize) -> Option<Option<Value>>
        ensures { result ≡ slice_get self.now at }
    {
        if at < self.count {
            return Some(slot_at(&self.near, &self.far, &self.under, at));
        }
        None
    }

    /// Sets a slot. If there is no such slot, nothing changes.
    #[tactic(auto, using(crate::proofs::Rows::row_beyond, crate::proofs::Rows::row_put_here, crate::proofs::Rows::row_put_near, crate::proofs::Rows::row_put_far, crate::proofs::Rows::row_kept))]
    pub fn set(&mut self, at: usize, value: Value) -> Result<(), AllocError>
        ensures set { OnOk result (self.new ≡ slice_set self.old at (Some value)) }
        ensures refused { OnErr result (self.new ≡ self.old) }
    {
        if at >= self.count {
            return Ok(());
        }
        if at < self.near.len() {
            self.near[at] = Some(value);
            return Ok(());
        }
        if at - self.near.len() < REACH {
            put_near(&mut self.near, at, value)?;
            return Ok(());
        }
        put_far(&mut self.far, self.alloc, at, value)
    }
}

/// The value that the row has for a slot.
#[inline(always)]
fn near_at(near: &[Option<Value>], at: usize) -> Option<Value>
    ensures { result ≡ option_flatten (slice_get near.now at) }
{
    match near.get(at) {
        Some(Some(value)) => Some(*value),
        _ => None,
    }
}

/// The value of a slot, if it has one.
fn slot_at(
    near: &[Option<Value>],
    far: &Option<Box<BTreeMap<usize, Value>>>,
    under: &Option<Box<DefaultLayer>>,
    at: usize,
) -> Option<Value>
    ensures { result ≡ slot_at near.now far.now under.now at }
{
    if let Some(value) = near_at(near, at) {
        return Some(value);
    }
    if let Some(value) = far_at(far, at) {
        return Some(value);
    }
    under_at(under, at)
}

/// The value of a slot in the map.
fn far_at(far: &Option<Box<BTreeMap<usize, Value>>>, at: usize) -> Option<Value>
    ensures { result ≡ far_at far.now at }
{
    match far {
        Some(map) => map.get(&at).copied(),
        None => None,
    }
}

/// The default under a slot.
fn under_at(under: &Option<Box<DefaultLayer>>, at: usize) -> Option<Value>
    ensures { result ≡ under_at under.now at }
{
    let Some(under) = under else {
        return None;
    };
    let Some(Some(rank)) = under.ranks.as_slice().get(at) else {
        return None;
    };
    under.defaults.get(*rank)
}

/// Makes room up to a slot, and gives it a value.
fn put_near(near: &mut Vec<Option<Value>>, at: usize, value: Value) -> Result<(), AllocError>
    requires fits { at + 1 < 2 ^ 64 }
    requires beyond { length near.old.items ≤ at }
    ensures put { OnOk result (near.new.items ≡ slice_set (widened (at + 1) near.old.items) at (Some value)) }
    ensures refused { OnErr result (near.new.items ≡ near.old.items) }
{
    near.resize(at + 1, None)?;
    near[at] = Some(value);
    Ok(())
}

/// Gives a slot a value in the map.
fn put_far(
    far: &mut Option<Box<BTreeMap<usize, Value>>>,
    alloc: Global,
    at: usize,
    value: Value,
) -> Result<(), AllocError>
    ensures put { OnOk result ((i : ℕ) → far_at far.new i ≡ (if nat_eq i at then Some value else far_at far.old i)) }
    ensures refused { OnErr result ((i : ℕ) → far_at far.new i ≡ far_at far.old i) }
{
    let Some(map) = far else {
        let mut first = BTreeMap::new(alloc);
        first.insert(at, value)?;
        *far = Some(Box::new(alloc, first)?);
        return Ok(());
    };
    map.insert(at, value)?;
    Ok(())
}
