//! `Setting`: the part that a run reads and never changes: the running file, the published stores, the loads, the
//! prelude's file, the language.
//!
//! It has the statements of all files and not their programs, whose maps have borrowed names as keys and cannot be
//! taken at a shorter lifetime. The programs are in `World` of `star_world`, whose invariant ties the two. `loaded`
//! walks the loads of the file for the one at a token, so a load statement takes time in proportion to them.

ghost use Rattle.std.specs.Prelude.{◌≡◌, [], None, Some, nat_eq};
ghost use Rattle.std.specs.List.{find};
ghost use Rattle.std.specs.Option.{option_copied, option_map};
ghost use Rattle.star_meaning.specs.Program.{file_of, published_of};
ghost use Rattle.star_meaning.specs.Programs.{load_files};
ghost use Rattle.star_machine.specs.Settings.{setting_over};

use star_dialect::{Dialect, Language};
use star_scope::loads::Load;
use star_store::arena::{Frozen, Homes};
use star_tree::tree::Statement;
use std::marker::Model;

/// The environment of a run: the running file, the published stores that it reaches, the statements of all files by
/// their numbers, the loads of the running file, the prelude's file, and the language.
#[derive(Drop)]
pub struct Setting<'a> {
    home: u32,
    homes: &'a Homes<'a>,
    files: &'a [Option<&'a [Statement]>],
    loads: &'a [Load],
    prelude: Option<u32>,
    language: &'a Language,
}

impl<'a> Model for Setting<'a> {
    ghost use Rattle.std.specs.Prelude.{map};
    ghost use Rattle.std.specs.Option.{option_map};
    ghost use Rattle.star_meaning.specs.Local.{outlines};
    ghost use Rattle.star_meaning.specs.Program.{Setting as GivenSetting};
    ghost use Rattle.star_meaning.specs.Programs.{load_files};

    ghost Value = { GivenSetting };

    ghost use Rattle.std.specs.Coded.{codes};
    ghost use Rattle.star_tree.specs.contracts.tree.Expression as expression;
    ghost use Rattle.star_tree.specs.contracts.tree.Parameter as parameter;
    ghost use Rattle.star_tree.specs.contracts.tree.Statement as statement;

    ghost coded = { Prim.hlevel (codes, expression.the_row.coded, parameter.the_row.coded, statement.the_row.coded) };

    ghost view = { λ s. record { home = s.home; outlines = outlines (map (option_map (λ ss. ss.now)) s.files.now); shelf = s.homes.now; loads = load_files s.loads.now; prelude = s.prelude; language = s.language.now } };
}

impl<'a> Setting<'a> {
    /// The setting of a file that reaches these stores.
    pub fn new(home: u32, homes: &'a Homes<'a>, language: &'a Language) -> Setting<'a>
        ensures { result ≡ record { home = home; outlines = []; shelf = homes.now; loads = []; prelude = None; language = language.now } }
    {
        Setting {
            home,
            homes,
            files: &[],
            loads: &[],
            prelude: None,
            language,
        }
    }

    /// The setting of a file among files with these statements (`None` for a file without a program), with the loads of
    /// its own, the prelude's file, and the language.
    pub fn over(
        home: u32,
        homes: &'a Homes<'a>,
        files: &'a [Option<&'a [Statement]>],
        loads: &'a [Load],
        prelude: Option<u32>,
        language: &'a Language,
    ) -> Setting<'a>
        ensures { result ≡ setting_over home homes.now files.now loads.now prelude language.now }
    {
        Setting {
            home,
            homes,
            files,
            loads,
            prelude,
            language,
        }
    }

    /// The running file.
    pub fn home(&self) -> u32
        ensures { result ≡ self.now.home }
    {
        self.home
    }

    /// The published stores.
    pub fn homes(&self) -> &Homes<'a>
        ensures { result.now ≡ self.now.shelf }
    {
        self.homes
    }

    /// The store of a published module; `None` for another file.
    pub fn published(&self, file: usize) -> Option<&Frozen>
        ensures { option_copied result ≡ published_of self.now file }
    {
        self.homes.published(file)
    }

    /// The file of the load statement that begins at a token.
    pub fn loaded(&self, token: usize) -> Option<usize>
        ensures { result ≡ file_of self.now token }
    {
        file_among(self.loads, token)
    }

    /// The prelude's file.
    pub fn prelude(&self) -> Option<u32>
        ensures { result ≡ self.now.prelude }
    {
        self.prelude
    }

    /// The language.
    pub fn language(&self) -> &Language
        ensures { result.now ≡ self.now.language }
    {
        self.language
    }

    /// The dialect of the language.
    pub fn dialect(&self) -> Dialect
        ensures { result ≡ self.now.language.dialect }
    {
        self.language.dialect
    }
}

/// The file of the load with a token.
fn file_among(loads: &[Load], token: usize) -> Option<usize>
    ensures { result ≡ option_map (λ l. l.1) (find (λ l. nat_eq l.0 token) (load_files loads.now)) }
{
    for load in loads {
        if let Some(at) = load.token {
            if at == token {
                return Some(load.file);
            }
        }
    }
    None
}
