//! The way in: a second look at the store of a run that has stopped.

use star_dialect::Language;
use star_found::about::{About, Found, Place, Turn};
use star_machine::fault::EvalError;
use star_machine::machine::Machine;
use star_meaning::fault::FaultCode;
use star_meaning::story::Step;
use star_scope::loads::Load;
use star_store::arena::Homes;
use star_world::files::Files;
use star_world::world::World;
use std::alloc::{AllocError, Global};

/// The number of steps that the second look may take.
const STEPS: u32 = 100_000;

/// The number of comprehensions whose frames may be sought.
const FRAMES: usize = 100;

/// How the run of a file has stopped.
#[derive(Clone, Copy)]
pub struct Fault<'f> {
    pub code: FaultCode,
    pub line: usize,
    /// The file whose run it was.
    pub home: u32,
    /// The language of its text.
    pub language: &'f Language,
    /// The statements and calls that the fault passed on its way out, the innermost first.
    pub trail: &'f [Step],
}

/// A second look at a frozen store: its own machine evaluates parts of the program again.
#[derive(Drop)]
pub(crate) struct Look<'w, 'a, 't> {
    pub alloc: Global,
    pub world: &'w World<'a, 't>,
    pub machine: Machine,
    pub fault: Fault<'w>,
    /// The way to the part that the search has come to.
    pub way: Vec<Turn>,
    /// How many more frames of comprehensions may be sought among the cells.
    pub frames: usize,
}

/// A report on a fault at a place, with no names to suggest.
pub(crate) fn found_at(alloc: Global, place: Place, about: About) -> Found {
    Found {
        about,
        place,
        names: Vec::new(alloc),
    }
}

impl<'w, 'a, 't> Look<'w, 'a, 't> {
    /// The place to which these turns lead from the part that the search has come to.
    pub(crate) fn place(&self, turns: &[Turn]) -> Result<Place, AllocError> {
        let mut way = Vec::with_capacity(self.alloc, self.way.len().saturating_add(turns.len()))?;
        way.extend_from_slice(self.way.as_slice())?;
        way.extend_from_slice(turns)?;
        Ok(Place::Part(way))
    }

    /// A report on a fault at the part to which these turns lead, with no names to suggest.
    pub(crate) fn found(&self, turns: &[Turn], about: About) -> Result<Option<Found>, AllocError> {
        Ok(Some(found_at(self.alloc, self.place(turns)?, about)))
    }

    /// Makes the definitions active that were active at the fault.
    fn activate(&mut self) -> Result<(), AllocError> {
        for step in self.fault.trail {
            if let Step::Call { file, number } = *step {
                let number = u32::try_from(number).unwrap_or(0);
                memory(self.machine.activate(file, number))?;
            }
        }
        Ok(())
    }
}

/// The result of a call whose only error is want of memory.
fn memory(answer: Result<(), EvalError>) -> Result<(), AllocError> {
    match answer {
        Ok(()) => Ok(()),
        Err(_) => Err(AllocError),
    }
}

/// Reports the values that a fault is about: `None` if they are not found, and for the faults `Steps` and `Deep`. The published stores include the store of the run itself, as it was at the fault. The error: an allocation
/// failed.
pub fn seek<'a, 't>(
    alloc: Global,
    fault: Fault<'_>,
    homes: &'a Homes<'a>,
    files: &'a Files<'a, 't>,
    loads: &'a [Load],
    prelude: Option<u32>,
) -> Result<Option<Found>, AllocError> {
    if matches!(fault.code, FaultCode::Steps | FaultCode::Deep) {
        return Ok(None);
    }
    let Ok(own) = u32::try_from(files.statements().len()) else {
        return Ok(None);
    };
    let world = World::new(own, homes, files, loads, prelude, fault.language);
    let mut look = Look {
        alloc,
        world: &world,
        machine: Machine::new(alloc, own, STEPS),
        fault,
        way: Vec::new(alloc),
        frames: FRAMES,
    };
    look.activate()?;
    match look.root(files) {
        Some(root) => look.at_root(root),
        None => Ok(None),
    }
}
