//! `Run`: the result of a run, with the modules of all reached files.

ghost use Rattle.std.specs.Prelude.{◌≡◌, ◌<◌, ◌==◌, length, slice_index_or, IfOk, Some};
ghost use Rattle.star_outcome.specs.Kept.{AllKept, IsSound, KeptView};

use crate::memory::Ballast;
use crate::module::Module;
use crate::shelf::Shelf;
use crate::trace::CyclicLoad;
use once_cell::race::Note;
use std::alloc::{AllocError, Global};
use std::marker::Model;
use std::thread::Threads;
use std::{mem, thread};

/// A file's number, and a note of its cell.
pub struct Kept {
    pub number: usize,
    pub note: Note<Module>,
}

impl Drop for Kept {
    fn drop(self) {
        let Kept { number: _, note: _ } = self;
    }
}

impl Model for Kept {
    ghost use Rattle.star_outcome.specs.Kept.{KeptView};

    ghost Value = { KeptView };

    ghost view = { λ k. record { number = k.number; cell = k.note.cell; known = k.note.known } };
}

impl Kept {
    /// The number.
    fn number(&self) -> usize
        ensures { result ≡ self.now.number }
    {
        self.number
    }

    /// Another note that knows the same of the cell.
    pub fn note(&mut self) -> Note<Module>
        ensures same { self.new ≡ self.old }
        ensures note { (result.cell ≡ self.old.cell) × (result.known ≡ self.old.known) }
    {
        self.note.again()
    }

    /// A copy, with another note that knows the same.
    fn again(&mut self) -> Kept
        ensures same { self.new ≡ self.old }
        ensures kept { result ≡ self.old }
    {
        Kept {
            number: self.number,
            note: self.note.again(),
        }
    }
}

/// A copy of these files, each with another note of its cell. The error: an allocation failed.
fn kept_again(alloc: Global, kept: &mut [Kept]) -> Result<Vec<Kept>, AllocError>
    ensures same { kept.new ≡ kept.old }
    ensures kept { IfOk result (λ ks. ks.items ≡ kept.old) }
{
    let mut all = Vec::with_capacity(alloc, kept.len())?;
    for i in 0..kept.len() {
        all.push(kept[i].again())?;
    }
    Ok(all)
}

/// The modules of all reached files in order of their numbers, the number of files that were begun, in all and by each
/// loader, and the refused loads.
pub struct Run {
    shelf: Shelf<Module>,
    kept: Vec<Kept>,
    begun: u32,
    per_loader: [u32; 64],
    refused: Vec<CyclicLoad>,
    ballasts: Vec<Ballast>,
}

impl Drop for Run {
    fn drop(self) {
        let Run {
            shelf: _,
            kept: _,
            begun: _,
            per_loader: _,
            refused: _,
            ballasts: _,
        } = self;
    }
}

impl Model for Run {
    ghost use Rattle.star_outcome.specs.Kept.{RunView, AllKept};

    ghost Value = { RunView };

    ghost view = { λ r. record {
      cells = r.shelf;
      kept = r.kept.items;
      begun = r.begun;
      per_loader = r.per_loader;
      refused = r.refused.items;
    } };

    ghost invariant = { λ r. AllKept r.shelf r.kept.items };
}

impl Run {
    /// The result with the modules of a shelf, by these notes, and the ballasts of the loaders, if they have any.
    pub fn new(
        shelf: Shelf<Module>,
        kept: Vec<Kept>,
        begun: u32,
        per_loader: [u32; 64],
        refused: Vec<CyclicLoad>,
        ballasts: Vec<Ballast>,
    ) -> Run
        requires { AllKept shelf kept.items }
        ensures { result ≡ record {
          cells = shelf;
          kept = kept.items;
          begun = begun;
          per_loader = per_loader;
          refused = refused.items;
        } }
    {
        Run {
            shelf,
            kept,
            begun,
            per_loader,
            refused,
            ballasts,
        }
    }

    /// The ballasts of the loaders, which stay with the caller until all that the loaders made is freed.
    pub fn take_ballasts(&mut self, alloc: Global) -> Vec<Ballast>
        ensures { self.new ≡ self.old }
    {
        mem::replace(&mut self.ballasts, Vec::new(alloc))
    }

    /// Frees the run by a thread of its own. The C library keeps some of the blocks that a thread frees for that thread,
    /// as long as it lives: a thread that stays would keep blocks between those of other loaders.
    pub fn free_apart<R: Threads>(self, rt: &R) {
        thread::join(rt, move || drop(self), || ());
    }

    /// The number of reached files.
    pub fn len(&self) -> usize
        ensures { result ≡ length self.now.kept }
    {
        self.kept.len()
    }

    /// Whether no file was reached.
    pub fn is_empty(&self) -> bool
        ensures { result ≡ (length self.now.kept == 0) }
    {
        self.kept.is_empty()
    }

    /// The number of files that were begun.
    pub fn begun(&self) -> u32
        ensures { result ≡ self.now.begun }
    {
        self.begun
    }

    /// The number of files that each loader has begun; 0 after the last loader.
    pub fn per_loader(&self) -> [u32; 64]
        ensures { result ≡ self.now.per_loader }
    {
        self.per_loader
    }

    /// The loads that were refused since they lie on a load cycle.
    pub fn refused(&self) -> &[CyclicLoad]
        ensures { result.now ≡ self.now.refused }
    {
        self.refused.as_slice()
    }

    /// A note that knows the i-th module.
    pub fn note(&mut self, i: usize) -> Note<Module>
        requires { i < length self.old.kept }
        ensures same { self.new ≡ self.old }
        ensures note { (d : KeptView) → (result.cell ≡ (slice_index_or self.old.kept i d).cell)
            × (result.known ≡ (slice_index_or self.old.kept i d).known) }
    {
        self.kept[i].note()
    }

    /// The files, each with a note that knows its module. The error: an allocation failed.
    pub fn kept(&mut self, alloc: Global) -> Result<Vec<Kept>, AllocError>
        ensures same { self.new ≡ self.old }
        ensures kept { IfOk result (λ ks. ks.items ≡ self.old.kept) }
    {
        kept_again(alloc, self.kept.as_mut_slice())
    }

    /// The i-th module, by its note.
    pub fn module(&self, i: usize, note: Note<Module>) -> &Module
        requires i { i < length self.now.kept }
        requires note { (d : KeptView) → (note.cell ≡ (slice_index_or self.now.kept i d).cell)
            × (note.known ≡ (slice_index_or self.now.kept i d).known) }
        ensures known { note.known ≡ Some result.now }
        ensures sound { IsSound (length self.now.cells) result.now.number result.now }
        ensures file { result.now.number < length self.now.cells }
    {
        let n = self.kept[i].number();
        self.shelf.seen(n, note)
    }
}
