//! The environment of a run: its setting, and the programs of all files.

ghost use Rattle.std.specs.Prelude.{◌≡◌, ◌+◌, [], length, IfSome};
ghost use Rattle.std.specs.Option.{option_copied, option_map, unwrap_or};
ghost use Rattle.star_meaning.specs.Local.{outlines};
ghost use Rattle.star_meaning.specs.Module.{loaded_names};
ghost use Rattle.star_meaning.specs.Program as program;
ghost use Rattle.star_meaning.specs.Programs.{tables_of, trees_of};
ghost use Rattle.star_outline.specs.Definitions.{definition_of};
ghost use Rattle.star_outline.specs.Names.{has_name};
ghost use Rattle.star_world.specs.LaidOut.{IsLaidOut};
ghost use Rattle.star_world.specs.World.{world_of};

use crate::files::Files;
use crate::orders::Order;
use star_dialect::Language;
use star_machine::setting::Setting;
use star_outline::blocks::BlockNames;
use star_outline::outline::Definition;
use star_scope::loads::Load;
use star_scope::program::Program;
use star_scope::spot::Spot;
use star_store::arena::Homes;
use std::marker::Model;

/// The environment of a run: its setting, and the programs of all files. The program of the running file is at hand,
/// since most names that are read are in it.
#[derive(Drop)]
pub struct World<'a, 't> {
    setting: Setting<'a>,
    files: &'a Files<'a, 't>,
    here: Option<&'a Program<'t>>,
}

impl<'a, 't> Model for World<'a, 't> {
    ghost use Rattle.star_world.specs.World.{AreOutlined, World as Arguments};
    ghost use Rattle.std.specs.Prelude.{◌≡◌};
    ghost use Rattle.std.specs.Option.{option_map};
    ghost use Rattle.star_meaning.specs.Programs.{file_in, placed_file};

    ghost Value = { Arguments };

    ghost use Rattle.std.specs.Coded.{codes};
    ghost use Rattle.star_tree.specs.contracts.tree.Expression as expression;
    ghost use Rattle.star_tree.specs.contracts.tree.Parameter as parameter;
    ghost use Rattle.star_tree.specs.contracts.tree.Statement as statement;

    ghost coded = { Prim.hlevel (codes, expression.the_row.coded, parameter.the_row.coded, statement.the_row.coded) };

    ghost view = { λ w. record { setting = w.setting; files = w.files.now } };

    ghost invariant = { λ w. record {
      outlined : AreOutlined w.setting w.files.now;
      at_hand : option_map (λ p. placed_file p.now) w.here ≡ file_in w.files.now w.setting.home;
    } };
}

impl<'a, 't> World<'a, 't> {
    /// The environment of a file's run: the stores that it reaches, the programs of all files, its own loads, the
    /// prelude's file, and the language.
    pub fn new(
        home: u32,
        homes: &'a Homes<'a>,
        files: &'a Files<'a, 't>,
        loads: &'a [Load],
        prelude: Option<u32>,
        language: &'a Language,
    ) -> World<'a, 't>
        ensures { result ≡ world_of home homes.now files.now loads.now prelude language.now }
    {
        let statements = files.statements();
        let setting = Setting::over(home, homes, statements, loads, prelude, language);
        let here = files.programs().program(home as usize);
        World {
            setting,
            files,
            here,
        }
    }

    /// The setting.
    pub fn setting(&self) -> &Setting<'a>
        ensures { result.now ≡ self.now.setting }
    {
        &self.setting
    }

    /// The outlines of the setting are the outlines of the files.
    pub fn are_outlined(&self)
        ensures { self.now.setting.outlines ≡ outlines (trees_of self.now.files) }
    {
        // Reading a field lets the checker use the invariant of `World`.
        let _ = &self.setting;
    }

    /// The spot of the name at a token of a file, in constant time.
    #[inline(always)]
    pub fn spot(&self, file: u32, token: usize) -> Option<Spot>
        ensures { result ≡ (tables_of self.now.files).spots file token }
    {
        if file != self.setting.home() {
            return self.spot_elsewhere(file, token);
        }
        match self.here {
            Some(program) => program.spot(token),
            None => None,
        }
    }

    /// The spot of the name at a token of any file.
    #[inline(never)]
    fn spot_elsewhere(&self, file: u32, token: usize) -> Option<Spot>
        ensures { result ≡ (tables_of self.now.files).spots file token }
    {
        self.files.programs().spot(file as usize, token)
    }

    /// How many slots a block of a file has.
    pub fn slots(&self, file: u32, block: usize) -> usize
        ensures { result ≡ (tables_of self.now.files).slots file block }
    {
        self.files.programs().slots(file as usize, block)
    }

    /// The definition with a number in a file, in constant time.
    pub fn definition(&self, file: u32, number: u32) -> Option<Definition<'t>>
        ensures { option_map definition_of result ≡ program.definition_of self.now.setting file number }
    {
        self.files
            .programs()
            .definition(file as usize, number as usize)
    }

    /// The layout of a file's definition with a number, if it has many parameters and they are in order. Takes
    /// logarithmic time; constant time if the files have no such definition.
    pub fn order(&self, file: u32, number: u32) -> Option<Order<'a, 't>>
        ensures in_order { IfSome result
            (IsLaidOut ((tables_of self.now.files).spots file) (program.definition_of self.now.setting file number)) }
        ensures slots { IfSome result (λ o. length o.names.now ≡ (tables_of self.now.files).slots file (1 + number)) }
    {
        self.files.programs().order(file as usize, number)
    }

    /// Whether a file loads this local name.
    #[tactic(auto, using(crate::proofs::Rows::loaded_there))]
    pub fn is_loaded(&self, file: u32, name: &str) -> bool
        ensures { result ≡ has_name (loaded_names (program.outline_of self.now.setting file)) name.now }
    {
        self.files.programs().is_loaded(file as usize, name)
    }

    /// The names of a block of a file, by their slots; `None` if there is no such block.
    #[tactic(auto, using(crate::proofs::Rows::names_there))]
    pub fn names(&self, file: u32, block: usize) -> Option<&'a BlockNames<'t>>
        ensures { unwrap_or (option_copied result) [] ≡ program.names_of self.now.setting file block }
    {
        self.files.programs().names(file as usize, block)
    }
}
