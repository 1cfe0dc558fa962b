//! `Told`: the product of the host's cache, which a loader gets for a file that has ended.

ghost use Rattle.std.specs.Prelude.{◌≡◌, length, slice_index};
ghost use Rattle.star_cache.specs.Headline.{Headline};
ghost use Rattle.star_outcome.specs.Fits.{IsAsked};
ghost use Rattle.star_outcome.specs.Kept.{IsKept};
ghost use Rattle.star_outcome.specs.Views.{IsTold};

use crate::module::Module;
use crate::outcome::Kept;
use crate::run_id::RunId;
use once_cell::race::Note;
use star_cache::{Book, Product};
use std::alloc::AllocError;
use std::marker::{Model, PhantomData};

/// A file's number, whether it is good, and a note that knows its cell.
#[derive(Drop)]
pub struct Told<J: RunId> {
    number: usize,
    good: bool,
    note: Note<Module>,
    of: PhantomData<J>,
}

impl<J: RunId> Model for Told<J> {
    ghost use Rattle.std.specs.Prelude.{◌≡◌, slice_index};
    ghost use Rattle.star_outcome.specs.Views.{ToldView, IsTold};

    ghost Value = { ToldView };

    ghost view = { λ t. record { number = t.number; good = t.good; known = t.note.known } };

    ghost invariant = { λ t. (t.note.cell ≡ slice_index J.shelf t.number)
        × IsTold J.files J.plan t.number (record { number = t.number; good = t.good; known = t.note.known }) };
}

impl<J: RunId> Told<J> {
    /// The product of a file whose module is published.
    pub fn new(number: usize, good: bool, note: Note<Module>) -> Told<J>
        requires cell { note.cell ≡ slice_index J.shelf number }
        requires right { IsTold J.files J.plan number (record { number = number; good = good; known = note.known }) }
        ensures { result ≡ record { number = number; good = good; known = note.known } }
    {
        Told {
            number,
            good,
            note,
            of: PhantomData,
        }
    }

    /// A copy of the note.
    pub fn note(&mut self) -> Note<Module>
        ensures same { self.new ≡ self.old }
        ensures cell { result.cell ≡ slice_index J.shelf self.old.number }
        ensures known { result.known ≡ self.old.known }
        ensures right { IsTold J.files J.plan self.old.number self.old }
    {
        self.note.again()
    }

    /// All products of one file, in any threads, have one module. The function does nothing: its contract is the law.
    pub fn agree(&mut self, other: Told<J>)
        requires number { other.number ≡ self.old.number }
        ensures same { self.new ≡ self.old }
        ensures known { other.known ≡ self.old.known }
    {
        let Told { note, .. } = other;
        self.note.compare(note);
    }

    /// The number with the note, for use after the cache is closed.
    pub fn kept(&mut self) -> Kept
        requires { length J.shelf ≡ length J.files }
        ensures same { self.new ≡ self.old }
        ensures kept { IsKept J.shelf result }
        ensures number { result.number ≡ self.old.number }
        ensures known { result.known ≡ self.old.known }
    {
        Kept {
            number: self.number,
            note: self.note.again(),
        }
    }
}

impl<J: RunId> Product for Told<J> {
    ghost use Rattle.std.specs.Prelude.{◌≡◌, length, true};
    ghost use Rattle.star_plan.specs.Results as results;
    ghost use Rattle.star_outcome.specs.Goods.{told_good};
    ghost use Rattle.std.proofs.Common.{refl};
    ghost use Rattle.star_plan.specs.Plan.{loaded};
    ghost use Rattle.star_outcome.specs.Views.{IsTold};
    ghost use Rattle.star_outcome.specs.Fits.{IsAsked, asked_next, asked_below};

    type Name = J;

    ghost files = { length J.files };

    ghost seats = { J.parts };

    ghost loads = { loaded J.plan };

    ghost IsGood = { results.IsGood J.plan };

    ghost IsReached = { IsAsked J.files J.plan };

    ghost IsRight = { IsTold J.files J.plan };

    ghost number_of = { λ t. t.number };

    ghost is_good = { λ t. t.good };

    ghost always_shares = { true };

    ghost parts_are_seats = { refl };

    ghost right_number = { λ n t r. r.number };

    ghost right_good = { told_good J.files J.plan };

    ghost next_reached = { asked_next J.files J.plan };

    ghost reached_below = { asked_below J.files J.plan };

    fn number(&self) -> usize {
        self.number
    }

    fn good(&self) -> bool {
        self.good
    }

    fn share(&mut self) -> Result<Told<J>, AllocError> {
        Ok(Told {
            number: self.number,
            good: self.good,
            note: self.note.again(),
            of: PhantomData,
        })
    }
}

/// The headline at the host's product: true of the book of a run's files whenever the lock of its cache is free. The
/// loads, the reached files and the outcomes are those of the plan.
pub fn headline<J: RunId>(book: &Book<Told<J>>)
    ensures { Headline (IsAsked J.files J.plan) (IsTold J.files J.plan) book.now }
{
    // A call of the book lets the checker use its invariant. The headline follows from it.
    let _begun = book.begun();
}
