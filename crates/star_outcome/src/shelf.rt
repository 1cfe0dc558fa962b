//! The shelf: a cell for each file, where its module is published once.

ghost use Rattle.std.specs.Prelude.{◌≡◌, ◌<◌, ℕ, length, slice_index, Some, IsSome, IfOk};

use once_cell::race::{Note, OnceBox};
use std::alloc::{AllocError, Global};
use std::marker::Model;

/// A cell for each file, seen as the cells' names.
#[derive(Drop)]
pub struct Shelf<T: Drop> {
    cells: Vec<OnceBox<T>>,
}

impl<T: Drop> Model for Shelf<T> {
    ghost use Rattle.std.specs.Prelude.{List, ℕ, map};
    ghost use Rattle.once_cell.specs.Once.{cell_name};

    ghost Value = { List ℕ };

    ghost view = { λ s. map cell_name s.cells.items };
}

impl<T: Drop> Shelf<T> {
    /// `n` empty cells. The error: an allocation failed.
    pub fn new(alloc: Global, n: usize) -> Result<Shelf<T>, AllocError>
        ensures { IfOk result (λ s. length s ≡ n) }
    {
        let mut cells = Vec::new(alloc);
        for _ in 0..n {
            cells.push(OnceBox::new(alloc))?;
        }
        Ok(Shelf { cells })
    }

    /// The content that the note knows of its cell. It takes no lock and waits for nobody.
    pub fn seen(&self, n: usize, mut note: Note<T>) -> &T
        requires number { n < length self.now }
        requires cell { note.cell ≡ slice_index self.now n }
        requires knows { IsSome note.known }
        ensures { note.known ≡ Some result.now }
    {
        match self.cells[n].get_as(&mut note) {
            Some(there) => there,
            None => unreachable!(),
        }
    }

    /// Sets a cell, and gives a note that knows it. If the cell is set already, the value comes back.
    pub fn publish(&self, n: usize, there: Box<T>) -> Result<Note<T>, Box<T>>
        requires { n < length self.now }
        ensures { IfOk result (λ note. (note.cell ≡ slice_index self.now n) × (note.known ≡ Some there.value)) }
    {
        let mut note = self.cells[n].note();
        self.cells[n].set_as(there, &mut note)?;
        Ok(note)
    }

    /// Two notes of one cell that both know its content, in any threads, know the same. The function does nothing: its
    /// contract is the law.
    pub fn agree(&self, n: usize, one: &mut Note<T>, other: Note<T>)
        requires number { n < length self.now }
        requires one { one.old.cell ≡ slice_index self.now n }
        requires other { other.cell ≡ slice_index self.now n }
        ensures same { one.new ≡ one.old }
        ensures known { IsSome one.old.known → IsSome other.known → other.known ≡ one.old.known }
    {
        one.compare(other);
    }
}
