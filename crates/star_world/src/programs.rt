//! `Programs`: the programs of files, by number.
//!
//! They are a row of references, like the stores in `Homes`: a host keeps programs where it likes, and takes no lock.
//! Contracts see each as its statements and the spots of its names (`PlacedFile`).

ghost use Rattle.std.specs.Prelude.{◌≡◌, ◌+◌, ◌∷◌, ◌++◌, [], ⊤, length, IfSome, MatchOption, OnErr, OnOk};
ghost use Rattle.std.specs.Option.{option_and_then, option_copied, option_map, unwrap_or};
ghost use Rattle.star_outline.specs.Definitions.{definition_in, definition_of};
ghost use Rattle.star_outline.specs.Names.{has_name};
ghost use Rattle.star_outline.specs.Outlines.{names_in};
ghost use Rattle.star_meaning.specs.Module.{loaded_names};
ghost use Rattle.star_meaning.specs.Program.{blocks_in};
ghost use Rattle.star_meaning.specs.Programs.{IsOfFile, file_in, outline_at, placed_file, tables_of};
ghost use Rattle.star_world.specs.LaidOut.{IsLaidOut};

use crate::orders::Order;
use crate::placed::{IndexedProgram, index_program};
use star_outline::blocks::BlockNames;
use star_outline::outline::Definition;
use star_scope::program::Program;
use star_scope::spot::Spot;
use std::alloc::{AllocError, Global};
use std::marker::Model;

/// The programs of files, each at the place of its file's number; and whether some definition has many parameters in
/// order.
#[derive(Drop)]
pub struct Programs<'a, 't> {
    alloc: Global,
    programs: Vec<Option<IndexedProgram<'a, 't>>>,
    has_orders: bool,
}

impl<'a, 't> Model for Programs<'a, 't> {
    ghost use Rattle.star_meaning.specs.Programs.{Files};

    ghost Value = { Files };

    ghost use Rattle.std.specs.Coded.{codes};
    ghost use Rattle.star_tree.specs.contracts.tree.Statement as statement;

    ghost coded = { Prim.hlevel (codes, statement.the_row.coded) };

    ghost view = { λ s. s.programs.items };
}

impl<'a, 't> Programs<'a, 't> {
    /// No file.
    pub fn new(alloc: Global) -> Programs<'a, 't>
        ensures { result ≡ [] }
    {
        Programs {
            alloc,
            programs: Vec::new(alloc),
            has_orders: false,
        }
    }

    /// Adds the next file: its program, or `None` if its text does not parse or has a static fault.
    pub fn push(&mut self, program: Option<&'a Program<'t>>) -> Result<(), AllocError>
        requires { MatchOption program ⊤ (λ p. IsOfFile p.now) }
        ensures pushed { OnOk result (self.new ≡ self.old ++ option_map (λ p. placed_file p.now) program.entry ∷ []) }
        ensures refused { OnErr result (self.new ≡ self.old) }
    {
        let placed = index_program(self.alloc, program)?;
        let has_orders = have_orders(&placed);
        self.programs.push(placed)?;
        self.has_orders = self.has_orders || has_orders;
        Ok(())
    }

    /// The program of a file.
    pub(crate) fn program(&self, file: usize) -> Option<&'a Program<'t>>
        ensures placed { option_map (λ p. placed_file p.now) result ≡ file_in self.now file }
        ensures of_file { MatchOption result ⊤ (λ p. IsOfFile p.now) }
    {
        match placed_at(&self.programs, file) {
            Some(placed) => Some(placed.program()),
            None => None,
        }
    }

    /// The spot of the name at a token of a file, in constant time.
    pub fn spot(&self, file: usize, token: usize) -> Option<Spot>
        ensures { result ≡ (tables_of self.now).spots file token }
    {
        match self.program(file) {
            Some(program) => program.spot(token),
            None => None,
        }
    }

    /// How many slots a block of a file has.
    #[tactic(auto, using(crate::proofs::ProgramRows::blocks_are))]
    pub fn slots(&self, file: usize, block: usize) -> usize
        ensures { result ≡ (tables_of self.now).slots file block }
    {
        match self.program(file) {
            Some(program) => program.slots(block),
            None => 0,
        }
    }

    /// The definition with a number in a file, in constant time.
    #[tactic(auto, using(crate::proofs::ProgramRows::definitions_are))]
    pub fn definition(&self, file: usize, number: usize) -> Option<Definition<'t>>
        ensures { option_map definition_of result
            ≡ option_and_then (λ o. definition_in o.definitions number) (outline_at self.now file) }
    {
        match self.program(file) {
            Some(program) => program.definition(number),
            None => None,
        }
    }

    /// The layout of a file's definition with a number, if it has many parameters and they are in order. Takes
    /// logarithmic time; constant time if the files have no such definition.
    #[tactic(auto, using(crate::proofs::ProgramRows::slots_there))]
    pub fn order(&self, file: usize, number: u32) -> Option<Order<'_, 't>>
        ensures in_order { IfSome result (IsLaidOut ((tables_of self.now).spots file)
            (option_and_then (λ o. definition_in o.definitions number) (outline_at self.now file))) }
        ensures names { IfSome result (λ o. length o.names.now ≡ (tables_of self.now).slots file (1 + number)) }
    {
        if !self.has_orders {
            return None;
        }
        match placed_at(&self.programs, file) {
            Some(placed) => placed.order(number),
            None => None,
        }
    }

    /// Whether a file loads this local name.
    #[tactic(auto, using(crate::proofs::ProgramRows::loaded_are))]
    pub fn is_loaded(&self, file: usize, name: &str) -> bool
        ensures { result ≡ has_name (loaded_names (outline_at self.now file)) name.now }
    {
        match self.program(file) {
            Some(program) => program.is_loaded(name),
            None => false,
        }
    }

    /// The names of a block of a file, by their slots; `None` if there is no such block.
    #[tactic(auto, using(crate::proofs::ProgramRows::blocks_are))]
    pub fn names(&self, file: usize, block: usize) -> Option<&'a BlockNames<'t>>
        ensures { unwrap_or (option_copied result) [] ≡ names_in (blocks_in (outline_at self.now file)) block }
    {
        match self.program(file) {
            Some(program) => program.blocks().names(block),
            None => None,
        }
    }
}

/// The program of a file, if it has one.
fn placed_at<'p, 'a, 't>(
    programs: &'p [Option<IndexedProgram<'a, 't>>],
    file: usize,
) -> Option<&'p IndexedProgram<'a, 't>>
    ensures { option_copied result ≡ file_in programs.now file }
{
    match programs.get(file) {
        Some(Some(placed)) => Some(placed),
        _ => None,
    }
}

/// Whether some definition of a program, if there is one, has many parameters in order.
fn have_orders(placed: &Option<IndexedProgram<'_, '_>>) -> bool {
    match placed {
        Some(placed) => placed.has_orders(),
        None => false,
    }
}
