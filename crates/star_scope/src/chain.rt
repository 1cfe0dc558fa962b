//! The chain of blocks around a part of a file, the innermost first. A name is looked up along it.

ghost use Rattle.std.specs.Prelude.{◌≡◌, ◌≤◌, ◌∷◌, [], ◌+◌, length, map, IfOk};
ghost use Rattle.star_scope.specs.Chains.{names_outside, outer_shown};
ghost use Rattle.star_outline.specs.Names.{has_name};
ghost use Rattle.star_dialect.specs.Words.{index_of};
ghost use Rattle.star_scope.specs.Places.{chain_length, outermost_names, outside_spot, own_names, prelude_has, spot_of};

use crate::loads::is_private;
use crate::spot::Spot;
use star_dialect::{Dialect, Language};
use star_outline::binders::Bound;
use star_outline::blocks::BlockNames;
use std::alloc::AllocError;
use std::marker::Model;

/// The greatest number of blocks nested in one another.
const CHAIN_LENGTH: usize = 102;

/// The file's own block, or the block that begins at a token, with the blocks around it.
#[derive(Clone, Copy)]
enum Link<'c> {
    File,
    Inside { token: usize, outer: &'c Link<'c> },
}

/// The numbers of the blocks around a part, the innermost first: 102 at most.
#[derive(Drop)]
pub(crate) struct Chain<'c> {
    link: Link<'c>,
    length: usize,
}

impl<'c> Model for Chain<'c> {
    ghost use Rattle.std.specs.Prelude.{List, ℕ, ◌≡◌, ◌≤◌, length as length_of};
    ghost use Rattle.star_scope.specs.Chains.{numbers};
    ghost use Rattle.star_scope.specs.Places.{chain_length};

    ghost Value = { List ℕ };

    ghost view = { λ c. numbers c.link };

    ghost invariant = { λ c. (length_of (numbers c.link) ≡ c.length) × (c.length ≤ chain_length) };
}

/// The binders of a name: the blocks of the file, the names of the prelude's block, if there is one, and the outermost
/// block of a language.
#[derive(Clone, Copy)]
pub(crate) struct Scope<'s, 't> {
    pub(crate) blocks: &'s Bound<'s, 't>,
    pub(crate) prelude: Option<&'s BlockNames<'t>>,
    pub(crate) language: &'s Language,
}

fn prelude_has(prelude: Option<&BlockNames<'_>>, name: &str) -> bool
    ensures { result ≡ prelude_has (names_outside prelude.entry) name.now }
{
    match prelude {
        Some(names) => !is_private(name) && names.slot(name).is_some(),
        None => false,
    }
}

/// The names of the outermost block of the core.
const OUTERMOST: [&str; 24] = [
    "None",
    "True",
    "False",
    "abs",
    "all",
    "any",
    "bool",
    "dict",
    "enumerate",
    "fail",
    "int",
    "len",
    "list",
    "max",
    "min",
    "print",
    "range",
    "repr",
    "reversed",
    "sorted",
    "str",
    "tuple",
    "type",
    "zip",
];

/// The further names of the outermost block of the extended language.
const FURTHER: [&str; 9] = [
    "chr", "dir", "getattr", "hasattr", "hash", "json", "ord", "set", "struct",
];

fn is_among(mut names: &[&str], name: &str) -> bool
    ensures { result ≡ has_name (map (λ n. n.now) names.entry.now) name.now }
{
    while let [known, others @ ..] = names {
        if name == *known {
            return true;
        }
        names = others;
    }
    false
}

/// Whether the language itself has a name, in its outermost block.
pub fn is_own(dialect: Dialect, name: &str) -> bool
    ensures { result ≡ has_name (own_names dialect) name.now }
{
    match dialect {
        Dialect::Core => is_among(&OUTERMOST, name),
        Dialect::Extended => is_among(&OUTERMOST, name) || is_among(&FURTHER, name),
    }
}

/// Whether the outermost block of a language has a name.
fn is_outermost(language: &Language, name: &str) -> bool
    ensures { result ≡ has_name (outermost_names language.now) name.now }
{
    is_own(language.dialect, name) || language.recorded.index(name).is_some()
}

/// The spot of a name outside of the file; `None` if neither the prelude nor the outermost block has it.
fn outside_spot(prelude: Option<&BlockNames<'_>>, language: &Language, name: &str) -> Option<Spot>
    ensures { result ≡ outside_spot (outer_shown prelude.entry language.entry) name.now }
{
    if prelude_has(prelude, name) {
        Some(Spot::Prelude)
    } else if is_outermost(language, name) {
        Some(Spot::Outermost)
    } else {
        None
    }
}

impl<'c> Chain<'c> {
    /// The chain of the statements of the file itself.
    pub(crate) fn of_file() -> Chain<'c>
        ensures { result ≡ 0 ∷ [] }
    {
        Chain {
            link: Link::File,
            length: 1,
        }
    }

    /// The chain inside a block that begins at a token. A chain of more than 102 blocks is refused with `AllocError`.
    /// Only a tree that was made by hand gives one, since the nesting of a text is bounded.
    pub(crate) fn inside(&'c self, token: usize) -> Result<Chain<'c>, AllocError>
        ensures { IfOk result (λ c. c ≡ (1 + token) ∷ self.now) }
    {
        if self.length >= CHAIN_LENGTH {
            return Err(AllocError);
        }
        Ok(Chain {
            link: Link::Inside {
                token,
                outer: &self.link,
            },
            length: self.length + 1,
        })
    }

    /// The spot of a name: in the first block that binds it, else outside of the file. `None` if the name is undefined.
    pub(crate) fn spot_of(&self, scope: &Scope<'_, '_>, name: &str) -> Option<Spot>
        ensures spot { result ≡ spot_of scope.now.blocks.now (outer_shown scope.now.prelude scope.now.language)
            name.now self.now }
        ensures short { length self.now ≤ chain_length }
    {
        let binders = scope.blocks.binders(name);
        let mut link = &self.link;
        let mut up = 0;
        while let Link::Inside { token, outer } = link {
            if let Some(slot) = scope.blocks.slot_at(binders, *token, name) {
                return Some(Spot::Frame { up, slot });
            }
            link = *outer;
            up += 1;
        }
        match scope.blocks.slot(0, name) {
            Some(slot) => Some(Spot::Frame { up, slot }),
            None => outside_spot(scope.prelude, scope.language, name),
        }
    }
}
