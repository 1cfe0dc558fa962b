//! The causes of all files that fail by their loads, found at once.

ghost use Rattle.std.specs.Prelude.{◌≡◌, ◌<◌, ℕ, IfOk, length};
ghost use Rattle.star_cause.specs.Causes.{IsBelow, IsCauseBy, cause_of};
ghost use Rattle.star_cause.specs.Ends.{AreWithin, HasEnd};
ghost use Rattle.star_cause.specs.Ways.{EndsIn};

use crate::cause::Cause;
use crate::ends::{End, ends_of, trail};
use std::alloc::{AllocError, Global};
use std::marker::Model;

/// For each file, the file by which it fails, if there is one, and the end of the path along these. Contracts see the
/// former.
#[derive(Drop)]
pub struct Causes {
    nexts: Vec<Option<usize>>,
    ends: Vec<Option<End>>,
}

impl Model for Causes {
    ghost use Rattle.std.specs.Prelude.{List, ℕ, Option};
    ghost use Rattle.star_cause.specs.Ends.{AreAllEnds};

    ghost Value = { List (Option ℕ) };

    ghost view = { λ c. c.nexts.items };

    ghost invariant = { λ c. AreAllEnds c.nexts.items c.ends.items };
}

/// The cause at this end of a path.
fn cause_at(alloc: Global, nexts: &[Option<usize>], end: End) -> Result<Cause, AllocError>
    requires { (n : ℕ) × HasEnd nexts.now n end }
    ensures { IfOk result (λ c. (n : ℕ) → HasEnd nexts.now n end → EndsIn nexts.now n (cause_of c)) }
{
    match end {
        End::Last(file) => Ok(Cause::Culprit(file)),
        End::Around { first, count } => Ok(Cause::Cycle(trail(alloc, nexts, first, count)?)),
    }
}

impl Causes {
    /// Finds the ends of the paths of all files, in time in proportion to their number.
    pub fn new(alloc: Global, nexts: Vec<Option<usize>>) -> Result<Causes, AllocError>
        requires { AreWithin nexts.items }
        ensures { IfOk result (λ c. c ≡ nexts.items) }
    {
        let ends = ends_of(alloc, &nexts)?;
        Ok(Causes { nexts, ends })
    }

    /// The cause of a file: the last file of its path, or the cycle in which its path ends.
    pub fn of(&self, alloc: Global, n: usize) -> Result<Cause, AllocError>
        requires { n < length self.now }
        ensures way { IfOk result (λ c. EndsIn self.now n (cause_of c)) }
        ensures cause { IfOk result (λ c. IsCauseBy self.now n (cause_of c)) }
        ensures files { IfOk result (λ c. IsBelow (length self.now) (cause_of c)) }
    {
        match self.ends[n] {
            Some(end) => cause_at(alloc, &self.nexts, end),
            None => unreachable!(),
        }
    }
}
