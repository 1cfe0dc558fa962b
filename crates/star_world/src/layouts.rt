//! `Layout`: how the parameters of a definition take the first slots of its frame.
//!
//! The resolver numbers slots in the order of the parameters. No contract says so, and without a layout binding is only
//! slower.

ghost use Rattle.std.specs.Prelude.{◌≡◌, slice_get, IfOk, IfSome, IsTrue};
ghost use Rattle.std.specs.Arc.{arc_slice_items};
ghost use Rattle.star_outline.specs.Syntax as form;
ghost use Rattle.star_world.specs.Orders.{IsBelow, IsBounded, after, is_at, takes_keyword, start};

use star_tree::tree::Parameter;
use std::alloc::{AllocError, Global};
use std::marker::Model;
use std::sync::ArcSlice;

/// Where the parameters before a place end.
#[derive(Clone, Copy)]
pub enum Stage {
    /// Before the end of those that take positional arguments.
    Positional,
    /// Among those that take keyword arguments alone.
    ByName,
    /// After `**name`.
    Ended,
}

/// A place between parameters: the numbers of slots, of defaults, and of slots without a default, before it.
#[derive(Clone, Copy)]
pub struct Cursor {
    pub stage: Stage,
    pub slot: usize,
    pub rank: usize,
    pub needed: usize,
}

impl Cursor {
    /// The cursor before all parameters.
    pub(crate) fn start() -> Cursor
        ensures { result ≡ start }
    {
        Cursor {
            stage: Stage::Positional,
            slot: 0,
            rank: 0,
            needed: 0,
        }
    }

    /// The cursor after a parameter; `None` if a number would overflow.
    pub(crate) fn after(self, parameter: &Parameter) -> Option<Cursor>
        ensures { IfSome result (λ c. c ≡ after self (form.parameter parameter.now)) }
    {
        let mut next = self;
        match parameter {
            Parameter::Plain(_) => next.needed = self.needed.checked_add(1)?,
            Parameter::Default { .. } => next.rank = self.rank.checked_add(1)?,
            Parameter::StarStar(_) => next.stage = Stage::Ended,
            _ => next.stage = Stage::ByName,
        }
        if let Parameter::BareStar = parameter {
            return Some(next);
        }
        next.slot = self.slot.checked_add(1)?;
        Some(next)
    }
}

/// The layout of a definition's parameters in the first slots of a frame: how many slots they have, how many of the
/// first take positional arguments, and how many defaults there are. For each slot it has the number of its default, if
/// there is one; and it has the slots that need a value, and the slots of `*name` and `**name`.
#[derive(Drop)]
pub struct Layout {
    count: usize,
    positional: usize,
    defaults: usize,
    ranks: ArcSlice<Option<usize>>,
    needed: Vec<usize>,
    rest: Option<usize>,
    names: Option<usize>,
}

impl Model for Layout {
    ghost use Rattle.std.specs.Arc.{arc_slice_items};
    ghost use Rattle.star_world.specs.Orders.{Layout as Laid};

    ghost Value = { Laid };

    ghost view = { λ l. record { count = l.count; positional = l.positional; defaults = l.defaults; ranks = arc_slice_items l.ranks; needed = l.needed.items; rest = l.rest; names = l.names } };
}

impl Layout {
    /// The layout of parameters whose slots are numbered in their order. A bare `*` has no slot. Whether the slots are
    /// numbered so is not checked.
    pub(crate) fn of(alloc: Global, parameters: &[Parameter]) -> Result<Layout, AllocError> {
        let mut sketch = Sketch::new(alloc);
        for parameter in parameters {
            sketch.add(parameter)?;
        }
        sketch.finish()
    }

    /// How many slots the parameters have.
    pub fn count(&self) -> usize
        ensures { result ≡ self.now.count }
    {
        self.count
    }

    /// How many of the first slots take positional arguments.
    pub fn positional(&self) -> usize
        ensures { result ≡ self.now.positional }
    {
        self.positional
    }

    /// How many parameters have defaults.
    pub fn defaults(&self) -> usize
        ensures { result ≡ self.now.defaults }
    {
        self.defaults
    }

    /// The numbers of the slots' defaults, which are shared and not copied.
    pub fn ranks(&self) -> Result<ArcSlice<Option<usize>>, AllocError>
        ensures { IfOk result (λ ranks. arc_slice_items ranks ≡ self.now.ranks) }
    {
        self.ranks.clone()
    }

    /// The number of a slot's default. The inner one is `None` if the slot has no default.
    pub(crate) fn rank(&self, slot: usize) -> Option<Option<usize>>
        ensures { result ≡ slice_get self.now.ranks slot }
    {
        self.ranks.as_slice().get(slot).copied()
    }

    /// The slots that need a value, in order.
    pub fn needed(&self) -> &[usize]
        ensures { result.now ≡ self.now.needed }
    {
        &self.needed
    }

    /// The slot of `*name`.
    pub fn rest(&self) -> Option<usize>
        ensures { result ≡ self.now.rest }
    {
        self.rest
    }

    /// The slot of `**name`.
    pub fn names(&self) -> Option<usize>
        ensures { result ≡ self.now.names }
    {
        self.names
    }

    /// Whether the value of a slot can be given by keyword.
    pub fn takes_keyword(&self, slot: usize) -> bool
        ensures { result ≡ takes_keyword self.now slot }
    {
        slot < self.count && !is_at(self.rest, slot) && !is_at(self.names, slot)
    }

    /// Whether its slots are all among the slots of the parameters.
    pub(crate) fn is_bounded(&self) -> bool
        ensures { IsTrue result → IsBounded self.now }
    {
        self.positional <= self.count
            && self.ranks.as_slice().len() <= self.count
            && is_below(self.rest, self.count)
            && is_below(self.names, self.count)
    }
}

/// Whether there is a place, and it is this slot.
pub(crate) fn is_at(place: Option<usize>, slot: usize) -> bool
    ensures { result ≡ is_at place slot }
{
    match place {
        Some(place) => place == slot,
        None => false,
    }
}

/// Whether a slot, if there is one, is one of the first `count`.
fn is_below(place: Option<usize>, count: usize) -> bool
    ensures { IsTrue result → IsBelow place count }
{
    match place {
        Some(place) => place < count,
        None => true,
    }
}

/// The layout of the parameters so far.
#[derive(Drop)]
struct Sketch {
    positional: Option<usize>,
    defaults: usize,
    ranks: Vec<Option<usize>>,
    needed: Vec<usize>,
    rest: Option<usize>,
    names: Option<usize>,
}

impl Sketch {
    /// The layout of no parameter.
    fn new(alloc: Global) -> Sketch {
        Sketch {
            positional: None,
            defaults: 0,
            ranks: Vec::new(alloc),
            needed: Vec::new(alloc),
            rest: None,
            names: None,
        }
    }

    /// One parameter more.
    fn add(&mut self, parameter: &Parameter) -> Result<(), AllocError> {
        let slot = self.ranks.len();
        let rank = match parameter {
            Parameter::Plain(_) => {
                self.needed.push(slot)?;
                None
            }
            Parameter::Default { .. } => {
                let rank = self.defaults;
                self.defaults = rank.saturating_add(1);
                Some(rank)
            }
            Parameter::Star(_) => {
                self.end_places();
                self.rest = Some(slot);
                None
            }
            Parameter::BareStar => {
                self.end_places();
                return Ok(());
            }
            Parameter::StarStar(_) => {
                self.end_places();
                self.names = Some(slot);
                None
            }
        };
        self.ranks.push(rank)?;
        Ok(())
    }

    /// Positional parameters end before the next slot, if they have not ended before.
    fn end_places(&mut self) {
        if self.positional.is_none() {
            self.positional = Some(self.ranks.len());
        }
    }

    /// No parameter more.
    fn finish(self) -> Result<Layout, AllocError> {
        let count = self.ranks.len();
        Ok(Layout {
            count,
            positional: self.positional.unwrap_or(count),
            defaults: self.defaults,
            ranks: ArcSlice::from_vec(self.ranks)?,
            needed: self.needed,
            rest: self.rest,
            names: self.names,
        })
    }
}
