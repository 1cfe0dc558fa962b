//! The program of a file: its names, loads, definitions and blocks resolved; or its first static fault.

ghost use Rattle.std.specs.Prelude.{◌≡◌, ◌<◌, length, map, IfOk, IfErr, OnOk, Some, None};
ghost use Rattle.std.specs.Option.{is_some, option_copied, option_map};
ghost use Rattle.star_scope.specs.declared.error.ScopeFault.TheVariants.{Memory};
ghost use Rattle.star_scope.specs.Chains.{names_outside};
ghost use Rattle.star_outline.specs.Definitions.{AllDiffer, definition_in, definition_of};
ghost use Rattle.star_scope.specs.Spots.{spot_at};
ghost use Rattle.star_scope.specs.Faults.{first, first_of};
ghost use Rattle.star_outline.specs.Names.{once, slot_of, with_names};
ghost use Rattle.star_outline.specs.Outlines.{file_names, loaded_by, names_in, outline};
ghost use Rattle.star_scope.specs.Resolve.{Resolves, first_fault, outside_seen, prelude_names, repeated, seen_by, standing_in};
ghost use Rattle.star_outline.specs.Syntax.{form_of};

use crate::conflicts::{block_conflict, repeated_parameter};
use crate::error::{LocatedFault, ScopeFault, earlier};
use crate::loads::{Load, find_loads};
use crate::placement::{OF_FILE, OF_PRELUDE, StatementContext, in_statements};
use crate::spot::Spot;
use crate::spots::Spots;
use crate::uses::resolve_names;
use star_dialect::Language;
use star_label::files::Files;
use star_outline::blocks::{BlockNames, Blocks};
use star_outline::names::{add_loaded, add_statements, load_statements};
use star_outline::outline::{Definition, Definitions, Found, find_in_statements};
use star_tree::tree::{Form, Statement, Tree};
use std::alloc::{AllocError, Global};

/// The file that every other file loads first, and the names that its block binds.
pub struct Prelude<'t> {
    pub file: usize,
    pub names: BlockNames<'t>,
}

impl Drop for Prelude<'_> {
    fn drop(self) {
        let Prelude { file: _, names: _ } = self;
    }
}

/// The names that the block of a file binds.
fn names_of_file<'t>(
    alloc: Global,
    statements: &'t [Statement],
) -> Result<BlockNames<'t>, AllocError>
    ensures { IfOk result (λ names. names ≡ file_names statements.now) }
{
    let mut names = BlockNames::new(alloc);
    add_statements(&mut names, statements)?;
    load_statements(&mut names, statements)?;
    Ok(names)
}

impl<'t> Prelude<'t> {
    /// The file `n` as the prelude: its block has the names that the tree binds, and no names if its text does not
    /// parse. `Memory` if an allocation fails, and no other error.
    pub fn new(alloc: Global, n: usize, tree: Option<&'t Tree>) -> Result<Prelude<'t>, ScopeFault>
        ensures file { IfOk result (λ p. p.file ≡ n) }
        ensures names { IfOk result (λ p. p.names ≡ prelude_names (option_map (λ t. t.now.statements) tree.entry)) }
        ensures memory { IfErr result (λ e. e ≡ Memory) }
    {
        let names = match tree {
            Some(tree) => names_of_file(alloc, tree.statements.as_slice())?,
            None => BlockNames::new(alloc),
        };
        Ok(Prelude { file: n, names })
    }
}

/// The earlier of two faults, from two walks.
fn first_of(found: Option<LocatedFault>, more: Option<LocatedFault>) -> Option<LocatedFault>
    ensures { result ≡ first_of found more }
{
    match more {
        Some(more) => earlier(found, more),
        None => found,
    }
}

/// The first parameter of these definitions that has the name of an earlier one.
fn repeated(
    alloc: Global,
    definitions: &Definitions<'_>,
) -> Result<Option<LocatedFault>, ScopeFault>
    ensures first { IfOk result (λ found. found ≡ first (repeated definitions.now)) }
    ensures differ { AllDiffer (map (λ d. d.number) definitions.now) }
    ensures memory { IfErr result (λ e. e ≡ Memory) }
{
    let mut found = None;
    for definition in definitions.as_slice() {
        found = first_of(found, repeated_parameter(alloc, definition.parameters)?);
    }
    Ok(found)
}

/// The definitions and the blocks of a file: its own block is the first.
fn outline_of<'t>(alloc: Global, statements: &'t [Statement]) -> Result<Found<'t>, AllocError>
    ensures definitions { IfOk result (λ found. found.definitions ≡ (outline statements.now).definitions) }
    ensures blocks { IfOk result (λ found. found.blocks ≡ (outline statements.now).blocks) }
{
    let mut found = Found {
        definitions: Definitions::new(alloc),
        blocks: Blocks::new(alloc),
    };
    let names = names_of_file(alloc, statements)?;
    found.blocks.push(0, names)?;
    find_in_statements(alloc, &mut found, statements)?;
    Ok(found)
}

/// Adds the local names that a statement of the file itself loads.
fn add_own_loads<'t>(names: &mut BlockNames<'t>, statement: &'t Statement) -> Result<(), AllocError>
    ensures { OnOk result (names.new ≡ with_names names.old (loaded_by (form_of statement.now))) }
{
    if let Form::Load { names: loaded, .. } = &statement.form {
        add_loaded(names, loaded.as_slice())?;
    }
    Ok(())
}

/// The local names that a file loads.
fn loaded_names<'t>(
    alloc: Global,
    statements: &'t [Statement],
) -> Result<BlockNames<'t>, AllocError>
    ensures { IfOk result (λ names. names ≡ once (outline statements.now).loaded) }
{
    let mut names = BlockNames::new(alloc);
    for statement in statements {
        add_own_loads(&mut names, statement)?;
    }
    Ok(names)
}

/// The prelude that the file `n` sees: every file but the prelude itself sees it.
fn seen_by<'p, 't>(n: usize, prelude: Option<&'p Prelude<'t>>) -> Option<&'p Prelude<'t>>
    ensures { option_copied result ≡ seen_by n (option_copied prelude.entry) }
{
    match prelude {
        Some(there) if there.file != n => Some(there),
        _ => None,
    }
}

/// The surroundings of the statements of the file `n` itself.
fn standing_in(n: usize, prelude: Option<&Prelude<'_>>) -> StatementContext
    ensures { result ≡ standing_in n (option_copied prelude.entry) }
{
    match prelude {
        Some(there) if there.file == n => OF_PRELUDE,
        _ => OF_FILE,
    }
}

fn file_of(prelude: Option<&Prelude<'_>>) -> Option<usize>
    ensures { result ≡ option_map (λ p. p.file) (option_copied prelude.entry) }
{
    match prelude {
        Some(there) => Some(there.file),
        None => None,
    }
}

fn names_of<'p, 't>(prelude: Option<&'p Prelude<'t>>) -> Option<&'p BlockNames<'t>>
    ensures { names_outside result ≡ option_map (λ p. p.names) (option_copied prelude.entry) }
{
    match prelude {
        Some(there) => Some(&there.names),
        None => None,
    }
}

/// The first static fault of a file, given the first fault of its load statements and its first undefined name.
fn first_fault(
    alloc: Global,
    here: StatementContext,
    statements: &[Statement],
    load: Option<LocatedFault>,
    definitions: &Definitions<'_>,
    undefined: Option<LocatedFault>,
) -> Result<Option<LocatedFault>, ScopeFault>
    ensures first { IfOk result (λ found. found ≡ first_fault here statements.now load definitions.now undefined) }
    ensures differ { IfOk result (λ _. AllDiffer (map (λ d. d.number) definitions.now)) }
    ensures memory { IfErr result (λ e. e ≡ Memory) }
{
    let found = first_of(in_statements(None, here, statements), load);
    let found = first_of(found, block_conflict(alloc, statements)?);
    let found = first_of(found, repeated(alloc, definitions)?);
    Ok(first_of(found, undefined))
}

/// A resolved file. Its statements, and the parameters and bodies of its definitions, are borrowed from the tree.
pub struct Program<'t> {
    loads: Vec<Load>,
    statements: &'t [Statement],
    definitions: Definitions<'t>,
    blocks: Blocks<'t>,
    loaded: BlockNames<'t>,
    spots: Spots,
}

impl Drop for Program<'_> {
    fn drop(self) {
        let Program {
            loads: _,
            statements: _,
            definitions: _,
            blocks: _,
            loaded: _,
            spots: _,
        } = self;
    }
}

impl<'t> Program<'t> {
    /// The files that the file loads, in the order of the load statements: the prelude first, if the file sees one.
    pub fn loads(&self) -> &[Load]
        ensures { result.now ≡ self.now.loads.items }
    {
        self.loads.as_slice()
    }

    /// The statements of the file.
    pub fn body(&self) -> &'t [Statement]
        ensures { result.now ≡ self.now.statements.now }
    {
        self.statements
    }

    /// The definitions of the file, in the order of their first tokens.
    pub fn definitions(&self) -> &[Definition<'t>]
        ensures { map definition_of result.now ≡ self.now.definitions }
    {
        self.definitions.as_slice()
    }

    /// The definition that begins at this token, in constant time; `None` if none does.
    pub fn definition(&self, number: usize) -> Option<Definition<'t>>
        ensures { option_map definition_of result ≡ definition_in self.now.definitions number }
    {
        self.definitions.get(number)
    }

    /// The blocks of the file, with the names of their slots.
    pub fn blocks(&self) -> &Blocks<'t>
        ensures { result.now ≡ self.now.blocks }
    {
        &self.blocks
    }

    /// The number of slots of the block with this number; 0 if no block has it.
    pub fn slots(&self, block: usize) -> usize
        ensures { result ≡ length (names_in self.now.blocks block) }
    {
        match self.blocks.names(block) {
            Some(names) => names.len(),
            None => 0,
        }
    }

    /// The spot of the name at this token, in constant time; `None` if the token is not a name.
    #[inline(always)]
    pub fn spot(&self, token: usize) -> Option<Spot>
        ensures { result ≡ spot_at self.now.spots token }
    {
        self.spots.get(token)
    }

    /// Whether the file loads this local name.
    pub fn is_loaded(&self, name: &str) -> bool
        ensures { result ≡ is_some (slot_of name.now self.now.loaded) }
    {
        self.loaded.slot(name).is_some()
    }
}

/// The program of the file `n` with this tree in a language, or its first static fault: the one whose token comes first;
/// at one token, the one whose kind has the lower number (`docs/LANGUAGE.md`, "Scopes and static faults"). Every file
/// but the prelude itself sees the prelude. In the prelude every load is misplaced. `Memory` if an allocation fails,
/// and for a tree that no text has: if two definitions, or two names with different spots, have one token, or more than
/// 102 blocks are nested.
pub fn resolve<'t>(
    alloc: Global,
    files: &Files,
    n: usize,
    tree: &'t Tree,
    prelude: Option<&Prelude<'t>>,
    language: &Language,
) -> Result<Program<'t>, ScopeFault>
    requires { n < length files.now }
    ensures { Resolves files.now n (outside_seen prelude.entry language.entry) tree.now.statements result }
{
    let statements = tree.statements.as_slice();
    let outer = seen_by(n, prelude);
    let loads = find_loads(alloc, files, n, file_of(outer), statements)?;
    let found = outline_of(alloc, statements)?;
    let placed = resolve_names(alloc, &found.blocks, names_of(outer), language, statements)?;
    let first = first_fault(
        alloc,
        standing_in(n, prelude),
        statements,
        loads.first,
        &found.definitions,
        placed.first,
    )?;
    if let Some(refusal) = first {
        return Err(refusal.fault);
    }
    let loaded = loaded_names(alloc, statements)?;
    Ok(Program {
        loads: loads.loads,
        statements,
        definitions: found.definitions,
        blocks: found.blocks,
        loaded,
        spots: placed.spots,
    })
}
