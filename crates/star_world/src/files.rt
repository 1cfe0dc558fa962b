//! `Files`: the programs and the outlines of all files of a run.
//!
//! Programs and, beside them, their statements are kept, so that a setting can borrow the statements as one row.

ghost use Rattle.std.specs.Prelude.{◌≡◌, ◌<◌, ◌∷◌, ◌++◌, [], ⊤, length, map, IfOk, MatchOption, OnErr, OnOk};
ghost use Rattle.std.specs.Option.{option_map};
ghost use Rattle.star_scope.specs.Resolve.{Resolves, outside_seen};
ghost use Rattle.star_meaning.specs.Programs.{IsOfFile, placed_file, trees_of};

use crate::programs::Programs;
use star_dialect::Language;
use star_label::files::Files as Labels;
use star_scope::error::ScopeFault;
use star_scope::program::{Prelude, Program, resolve};
use star_tree::tree::{Statement, Tree};
use std::alloc::{AllocError, Global};
use std::marker::Model;

/// The files of a run by their numbers: the program of each, and its statements.
#[derive(Drop)]
pub struct Files<'a, 't> {
    programs: Programs<'a, 't>,
    statements: Vec<Option<&'a [Statement]>>,
}

impl<'a, 't> Model for Files<'a, 't> {
    ghost use Rattle.std.specs.Prelude.{◌≡◌, map};
    ghost use Rattle.std.specs.Option.{option_map};
    ghost use Rattle.star_meaning.specs.Programs.{Files as PlacedFiles, trees_of};

    ghost Value = { PlacedFiles };

    ghost use Rattle.std.specs.Coded.{codes};
    ghost use Rattle.star_tree.specs.contracts.tree.Statement as statement;

    ghost coded = { Prim.hlevel (codes, statement.the_row.coded) };

    ghost view = { λ f. f.programs };

    ghost invariant = { λ f. map (option_map (λ ss. ss.now)) f.statements.items ≡ trees_of f.programs };
}

impl<'a, 't> Files<'a, 't> {
    /// No file.
    pub fn new(alloc: Global) -> Files<'a, 't>
        ensures { result ≡ [] }
    {
        Files {
            programs: Programs::new(alloc),
            statements: Vec::new(alloc),
        }
    }

    /// Adds the next file: its program, or `None` if its text does not parse or has a static fault.
    #[tactic(auto, using(crate::proofs::Rows::trees_pushed))]
    pub fn push(&mut self, program: Option<&'a Program<'t>>) -> Result<(), AllocError>
        requires { MatchOption program ⊤ (λ p. IsOfFile p.now) }
        ensures pushed { OnOk result (self.new ≡ self.old ++ option_map (λ p. placed_file p.now) program.entry ∷ []) }
        ensures refused { OnErr result (self.new ≡ self.old) }
    {
        let place = self.statements.len();
        self.statements.push(body_of(program))?;
        match self.programs.push(program) {
            Ok(()) => Ok(()),
            Err(error) => {
                self.statements.truncate(place);
                Err(error)
            }
        }
    }

    /// The programs.
    pub fn programs(&self) -> &Programs<'a, 't>
        ensures { result.now ≡ self.now }
    {
        &self.programs
    }

    /// The statements of each file; `None` for a file that has no program.
    pub fn statements(&self) -> &[Option<&'a [Statement]>]
        ensures { map (option_map (λ ss. ss.now)) result.now ≡ trees_of self.now }
    {
        self.statements.as_slice()
    }
}

/// The statements of a program.
fn body_of<'a>(program: Option<&'a Program<'_>>) -> Option<&'a [Statement]>
    ensures { option_map (λ ss. ss.now) result ≡ option_map (λ p. p.now.statements.now) program.entry }
{
    match program {
        Some(program) => Some(program.body()),
        None => None,
    }
}

/// The program of the file `n` with this tree, or its first static fault, as `resolve` answers it.
#[tactic(auto, using(crate::proofs::Rows::of_file))]
pub fn program_of<'t>(
    alloc: Global,
    labels: &Labels,
    n: usize,
    tree: &'t Tree,
    prelude: Option<&Prelude<'t>>,
    language: &Language,
) -> Result<Program<'t>, ScopeFault>
    requires { n < length labels.now }
    ensures answer { Resolves labels.now n (outside_seen prelude.entry language.entry) tree.now.statements result }
    ensures of_file { IfOk result (λ p. IsOfFile p) }
{
    resolve(alloc, labels, n, tree, prelude, language)
}
