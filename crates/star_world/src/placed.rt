//! A program with the layouts of its definitions that have many parameters.

ghost use Rattle.std.specs.Prelude.{◌≡◌, ◌+◌, IfOk, IfSome, MatchOption, ⊤};
ghost use Rattle.std.specs.Option.{option_map};
ghost use Rattle.star_outline.specs.Definitions.{definition_in};
ghost use Rattle.star_outline.specs.Outlines.{names_in, outline};
ghost use Rattle.star_scope.specs.Spots.{spot_at};
ghost use Rattle.star_meaning.specs.Programs.{IsOfFile, placed_file};
ghost use Rattle.star_world.specs.LaidOut.{IsLaidOut};

use crate::orders::{Order, Orders, slot_names};
use star_scope::program::Program;
use std::alloc::{AllocError, Global};
use std::marker::Model;

/// The program of some file, and which of its definitions have parameters in order.
pub struct IndexedProgram<'a, 't> {
    program: &'a Program<'t>,
    orders: Orders,
}

impl Drop for IndexedProgram<'_, '_> {
    fn drop(self) {
        let IndexedProgram {
            program: _,
            orders: _,
        } = self;
    }
}

impl<'a, 't> Model for IndexedProgram<'a, 't> {
    ghost use Rattle.star_meaning.specs.Programs.{IsOfFile, PlacedFile, placed_file};
    ghost use Rattle.star_world.specs.Orders.{HaveLayouts};

    ghost Value = { PlacedFile };

    ghost use Rattle.std.specs.Coded.{codes};
    ghost use Rattle.star_tree.specs.contracts.tree.Statement as statement;

    ghost coded = { Prim.hlevel (codes, statement.the_row.coded) };

    ghost view = { λ p. placed_file p.program.now };

    ghost invariant = { λ p. IsOfFile p.program.now × HaveLayouts p.program.now p.orders.layouts };
}

impl<'a, 't> IndexedProgram<'a, 't> {
    /// A program, whose definitions are gone through once.
    fn new(alloc: Global, program: &'a Program<'t>) -> Result<IndexedProgram<'a, 't>, AllocError>
        requires { IsOfFile program.now }
        ensures { IfOk result (λ placed. placed ≡ placed_file program.now) }
    {
        let orders = Orders::of(alloc, program)?;
        Ok(IndexedProgram { program, orders })
    }

    /// The program.
    pub(crate) fn program(&self) -> &'a Program<'t>
        ensures placed { placed_file result.now ≡ self.now }
        ensures of_file { IsOfFile result.now }
    {
        self.program
    }

    /// Whether some definition has its parameters in order, and many.
    pub(crate) fn has_orders(&self) -> bool {
        !self.orders.is_empty()
    }

    /// The layout of the definition with a number, if it has many parameters and they are in order.
    pub(crate) fn order(&self, number: u32) -> Option<Order<'_, 't>>
        ensures in_order { IfSome result
            (IsLaidOut (spot_at self.now.spots) (definition_in (outline self.now.statements).definitions number)) }
        ensures names { IfSome result (λ o. o.names.now ≡ names_in (outline self.now.statements).blocks (1 + number)) }
    {
        let layout = self.orders.layout(number as usize)?;
        let names = slot_names(self.program, number as usize)?;
        Some(Order { layout, names })
    }
}

/// The program of a file, if it has one.
pub(crate) fn index_program<'a, 't>(
    alloc: Global,
    program: Option<&'a Program<'t>>,
) -> Result<Option<IndexedProgram<'a, 't>>, AllocError>
    requires { MatchOption program ⊤ (λ p. IsOfFile p.now) }
    ensures { IfOk result (λ placed. placed ≡ option_map (λ p. placed_file p.now) program.entry) }
{
    match program {
        Some(program) => Ok(Some(IndexedProgram::new(alloc, program)?)),
        None => Ok(None),
    }
}
