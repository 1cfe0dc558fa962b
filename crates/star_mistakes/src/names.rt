//! Misplaced statements, conflicts of names, bad loads and undefined names, each with its token.
//!
//! The resolver returns the first fault of a file with its line. Here each fault gets its token. All come from the walks
//! of the resolver itself, one for each kind of fault, so that none hides another. For undefined names the names of the
//! file are bound once more beside a prelude that has all of its words: undefined are those that only this prelude has.

ghost use Rattle.std.specs.Prelude.{◌<◌, length};

use crate::place::word_of;
use star_dialect::{Dialect, Language};
use star_label::files::Files;
use star_lex::token::{Keyword, Kind, Token};
use star_outline::blocks::{BlockNames, Blocks};
use star_outline::names::{add_statements, load_statements};
use star_outline::outline::{Definitions, Found as Outline, find_in_statements};
use star_scope::conflicts::block_conflict;
use star_scope::error::{LocatedFault, ScopeFault};
use star_scope::loads::find_loads;
use star_scope::placement::misplaced;
use star_scope::program::{Prelude, resolve};
use star_scope::spot::Spot;
use star_scope::spots::Spots;
use star_scope::uses::resolve_names;
use star_tree::tree::{Statement, Tree};
use std::alloc::{AllocError, Global};
use std::collections::BTreeSet;
use std::slice;

/// The names of the outermost block of the core.
const BUILT_INS: [&str; 24] = [
    "None",
    "True",
    "False",
    "abs",
    "all",
    "any",
    "bool",
    "dict",
    "enumerate",
    "fail",
    "int",
    "len",
    "list",
    "max",
    "min",
    "print",
    "range",
    "repr",
    "reversed",
    "sorted",
    "str",
    "tuple",
    "type",
    "zip",
];

/// The further names of the outermost block of the extended language.
const FURTHER: [&str; 9] = [
    "chr", "dir", "getattr", "hasattr", "hash", "json", "ord", "set", "struct",
];

/// A file whose text parses: its tokens and its tree.
#[derive(Clone, Copy)]
pub(crate) struct Source<'a> {
    pub alloc: Global,
    pub files: &'a Files,
    pub file: usize,
    pub text: &'a str,
    pub tokens: &'a [Token],
    pub tree: &'a Tree,
    /// The prelude that it sees, and its tree, if that parses.
    pub prelude: Option<usize>,
    pub seen: Option<&'a Tree>,
    /// The language in which it is read.
    pub language: &'a Language,
}

/// The findings about the names of a file.
#[derive(Drop)]
pub(crate) struct Found<'a> {
    /// The faults in the order of their tokens.
    pub faults: Vec<LocatedFault>,
    /// The names that an undefined one can mean.
    pub names: Vec<&'a str>,
}

/// The answer of a walk that fails for want of memory alone.
fn without_memory<T>(found: Result<T, ScopeFault>) -> Result<T, AllocError> {
    match found {
        Ok(found) => Ok(found),
        Err(_) => Err(AllocError),
    }
}

fn undefined_at(at: usize, token: &Token) -> LocatedFault {
    LocatedFault {
        token: at,
        fault: ScopeFault::Undefined { line: token.line },
    }
}

/// The line of a fault: 0 for none.
fn line_of(fault: ScopeFault) -> usize {
    match fault {
        ScopeFault::Undefined { line }
        | ScopeFault::BadPlace { line }
        | ScopeFault::Conflict { line }
        | ScopeFault::Private { line }
        | ScopeFault::NoFile { line }
        | ScopeFault::BadLabel { line } => line,
        ScopeFault::Memory => 0,
    }
}

/// Whether a token can be the token of a fault, by its kind.
fn may_stand_at(fault: ScopeFault, kind: Kind) -> bool {
    match fault {
        ScopeFault::BadPlace { .. } => matches!(
            kind,
            Kind::Keyword(Keyword::Return | Keyword::Break | Keyword::Continue | Keyword::Load)
        ),
        ScopeFault::Undefined { .. } => kind == Kind::Name,
        ScopeFault::Conflict { .. } => matches!(kind, Kind::Name | Kind::Text),
        _ => kind == Kind::Text,
    }
}

impl<'a> Source<'a> {
    /// A block that binds each name of the file.
    fn words(self) -> Result<BlockNames<'a>, AllocError> {
        let mut all = BlockNames::new(self.alloc);
        for token in self.tokens {
            if token.kind == Kind::Name {
                all.add(word_of(self.text, token))?;
            }
        }
        Ok(all)
    }

    /// The blocks of the file: its own is the first.
    fn blocks(self) -> Result<Blocks<'a>, AllocError> {
        let statements = self.tree.statements.as_slice();
        let mut names = BlockNames::new(self.alloc);
        add_statements(&mut names, statements)?;
        load_statements(&mut names, statements)?;
        let mut outline = Outline {
            definitions: Definitions::new(self.alloc),
            blocks: Blocks::new(self.alloc),
        };
        outline.blocks.push(0, names)?;
        find_in_statements(self.alloc, &mut outline, statements)?;
        Ok(outline.blocks)
    }

    /// Adds the names that the block of a file with this tree binds.
    fn add_bound(self, tree: &'a Tree, names: &mut Vec<&'a str>) -> Result<(), AllocError> {
        let bound = without_memory(Prelude::new(self.alloc, self.file, Some(tree)))?;
        names.extend_from_slice(bound.names.as_slice())
    }

    /// The names that the file's own block, its prelude and the outermost block bind.
    fn known(self) -> Result<Vec<&'a str>, AllocError> {
        let mut names = Vec::new(self.alloc);
        self.add_bound(self.tree, &mut names)?;
        if let Some(tree) = self.seen {
            self.add_bound(tree, &mut names)?;
        }
        names.extend_from_slice(&BUILT_INS)?;
        if self.language.dialect == Dialect::Extended {
            names.extend_from_slice(&FURTHER)?;
        }
        for name in self.language.recorded.names() {
            names.push(name.as_str())?;
        }
        Ok(names)
    }

    /// The first fault of the file, if it sees this prelude.
    fn first_fault_by(self, seen: Option<&Prelude<'a>>) -> Result<Option<ScopeFault>, AllocError>
        requires { self.file < length self.files.now }
    {
        match resolve(
            self.alloc,
            self.files,
            self.file,
            self.tree,
            seen,
            self.language,
        ) {
            Ok(_) => Ok(None),
            Err(ScopeFault::Memory) => Err(AllocError),
            Err(fault) => Ok(Some(fault)),
        }
    }

    /// The first fault of the file, as the report has it.
    fn first_fault(self) -> Result<Option<ScopeFault>, AllocError>
        requires { self.file < length self.files.now }
    {
        let Some(number) = self.prelude else {
            return self.first_fault_by(None);
        };
        let seen = without_memory(Prelude::new(self.alloc, number, self.seen))?;
        self.first_fault_by(Some(&seen))
    }
}

impl<'a> Found<'a> {
    /// A name at a token: it is undefined if only the prelude of all names has it.
    fn add(
        &mut self,
        spot: Spot,
        at: usize,
        token: &Token,
        word: &'a str,
    ) -> Result<(), AllocError> {
        if spot == Spot::Prelude {
            self.faults.push(undefined_at(at, token))?;
        } else {
            self.names.push(word)?;
        }
        Ok(())
    }

    /// Whether a fault is among those that were found.
    fn has(&self, fault: ScopeFault) -> bool {
        for refusal in &self.faults {
            if refusal.fault == fault {
                return true;
            }
        }
        false
    }

    fn add_fault(&mut self, fault: Option<LocatedFault>) -> Result<(), AllocError> {
        if let Some(fault) = fault {
            self.faults.push(fault)?;
        }
        Ok(())
    }
}

// Undefined names.
impl<'a> Source<'a> {
    /// Adds the undefined names, each at its first place, and those that blocks inside of the file bind.
    fn add_names(self, found: &mut Found<'a>) -> Result<(), AllocError> {
        let (words, blocks) = (self.words()?, self.blocks()?);
        let statements = self.tree.statements.as_slice();
        let placed = resolve_names(self.alloc, &blocks, Some(&words), self.language, statements);
        self.add_names_at(&without_memory(placed)?.spots, found)
    }

    /// The same by the spots beside a prelude of all words of the file.
    fn add_names_at(self, spots: &Spots, found: &mut Found<'a>) -> Result<(), AllocError> {
        let mut told = self.set_of(found.names.as_slice())?;
        for (at, token) in self.tokens.iter().enumerate() {
            let word = word_of(self.text, token);
            match spots.get(at) {
                Some(spot) if token.kind == Kind::Name && told.insert(word)? => {
                    found.add(spot, at, token, word)?;
                }
                _ => {}
            }
        }
        Ok(())
    }

    /// Names as a set.
    fn set_of(self, names: &[&'a str]) -> Result<BTreeSet<&'a str>, AllocError> {
        let mut set = BTreeSet::new(self.alloc);
        for name in names {
            set.insert(*name)?;
        }
        Ok(set)
    }

    /// The name on a line that comes earlier in the same definition, too: a parameter that is named twice.
    fn repeated_name(self, line: usize) -> Result<Option<usize>, AllocError> {
        let mut words = BTreeSet::new(self.alloc);
        let mut is_definition = false;
        for (at, token) in self.tokens.iter().enumerate() {
            if matches!(token.kind, Kind::Keyword(Keyword::Def | Keyword::Lambda)) {
                words = BTreeSet::new(self.alloc);
                is_definition = token.kind == Kind::Keyword(Keyword::Def);
            }
            if token.kind != Kind::Name {
                continue;
            }
            if is_definition {
                is_definition = false;
                continue;
            }
            if !words.insert(word_of(self.text, token))? && token.line == line {
                return Ok(Some(at));
            }
        }
        Ok(None)
    }

    /// The first token on a line that can be the token of a fault, by its kind.
    fn first_at(self, line: usize, fault: ScopeFault) -> Option<usize> {
        for (at, token) in self.tokens.iter().enumerate() {
            if token.line == line && may_stand_at(fault, token.kind) {
                return Some(at);
            }
        }
        None
    }

    /// The token of a fault whose line alone is known.
    fn token_of(self, fault: ScopeFault) -> Result<usize, AllocError> {
        let line = line_of(fault);
        if let ScopeFault::Conflict { .. } = fault {
            if let Some(at) = self.repeated_name(line)? {
                return Ok(at);
            }
        }
        Ok(self.first_at(line, fault).unwrap_or(0))
    }

    /// The first load statement: the prelude may have none.
    fn load_in_prelude(self) -> Option<LocatedFault> {
        for (at, token) in self.tokens.iter().enumerate() {
            if token.kind == Kind::Keyword(Keyword::Load) {
                let fault = ScopeFault::BadPlace { line: token.line };
                return Some(LocatedFault { token: at, fault });
            }
        }
        None
    }

    /// The first misplaced statement.
    fn first_misplaced(self) -> Option<LocatedFault> {
        match misplaced(self.tree.statements.as_slice()) {
            None if self.prelude == Some(self.file) => self.load_in_prelude(),
            found => found,
        }
    }

    /// The first fault of a load statement.
    fn bad_load(self, statement: &Statement) -> Result<Option<LocatedFault>, AllocError>
        requires { self.file < length self.files.now }
    {
        let one = slice::from_ref(statement);
        let loads = find_loads(self.alloc, self.files, self.file, None, one);
        Ok(without_memory(loads)?.first)
    }

    /// Adds the first fault of each load statement.
    fn add_bad_loads(self, found: &mut Found<'a>) -> Result<(), AllocError>
        requires { self.file < length self.files.now }
    {
        for statement in self.tree.statements.as_slice() {
            found.add_fault(self.bad_load(statement)?)?;
        }
        Ok(())
    }

    /// Adds these faults: the first one, as the report has it, each undefined name, the first of each load statement,
    /// and the first misplaced statement and conflict.
    fn add_faults(self, first: ScopeFault, found: &mut Found<'a>) -> Result<(), AllocError>
        requires { self.file < length self.files.now }
    {
        self.add_names(found)?;
        found.add_fault(self.first_misplaced())?;
        self.add_bad_loads(found)?;
        let statements = self.tree.statements.as_slice();
        found.add_fault(without_memory(block_conflict(self.alloc, statements))?)?;
        if !found.has(first) {
            let token = self.token_of(first)?;
            found.faults.push(LocatedFault {
                token,
                fault: first,
            })?;
        }
        Ok(())
    }

    /// The static faults of the file.
    pub(crate) fn found(self) -> Result<Found<'a>, AllocError>
        requires { self.file < length self.files.now }
    {
        let mut found = Found {
            faults: Vec::new(self.alloc),
            names: self.known()?,
        };
        if let Some(first) = self.first_fault()? {
            self.add_faults(first, &mut found)?;
            found.faults.sort_by_key(|refusal| refusal.token)?;
        }
        Ok(found)
    }
}
