//! `read_files`: reads all files that roots reach, with the prelude that each of them sees.

ghost use Rattle.std.specs.Prelude.{◌≡◌, ◌<◌, All, IfOk, IfSome, Some, length};
ghost use Rattle.std.specs.Option.{option_map};
ghost use Rattle.star_scope.specs.Resolve.{outside_seen, prelude_names};
ghost use Rattle.star_plan.specs.Reading.{IsPrelude};
ghost use Rattle.star_reading.specs.Found.{AreKnown, IsReadOf, IsRowOf, Within};
ghost use Rattle.star_reading.specs.Parsed.{AreParsesOf};
ghost use Rattle.star_reading.specs.Readings.{AreReadAs, IsPlaceable};

use crate::parses::{Parsed, parsed_once};
use crate::reading::{Read, Reader, Reads, Trees};
use star_dialect::Language;
use star_label::files::Files as Labels;
use star_scope::error::ScopeFault;
use star_scope::program::Prelude;
use star_tree::tree::Tree;
use std::alloc::{AllocError, Global};
use std::sync::Wait;
use std::thread::Threads;

/// The file as the prelude, which has the names of this tree; none without a tree. The error: an allocation failed.
pub fn prelude_over<'t>(
    alloc: Global,
    n: usize,
    tree: Option<&'t Tree>,
) -> Result<Prelude<'t>, AllocError>
    ensures file { IfOk result (λ p. p.file ≡ n) }
    ensures names { IfOk result (λ p. p.names ≡ prelude_names (option_map (λ t. t.now.statements) tree.entry)) }
{
    match Prelude::new(alloc, n, tree) {
        Ok(prelude) => Ok(prelude),
        Err(ScopeFault::Memory) => Err(AllocError),
        Err(_) => unreachable!(),
    }
}

/// The texts of files: the files, the place of their trees, the texts that are parsed already, by the numbers of the
/// files, and the language.
#[derive(Clone, Copy)]
pub struct Texts<'s, 't> {
    pub files: &'s Labels,
    pub trees: &'t Trees,
    /// None for a text that is not parsed yet.
    pub parses: &'s [Option<Parsed<'t>>],
    /// The language in which they are written.
    pub language: &'s Language,
}

/// The prelude: its names are the names that its tree binds, and no names if its text does not parse. The tree is kept
/// with the other trees.
fn prelude_of<'t, R: Wait>(
    rt: &R,
    alloc: Global,
    texts: Texts<'_, 't>,
    n: usize,
) -> Result<Prelude<'t>, AllocError>
    requires file { n < length texts.files.now }
    requires parses { AreParsesOf texts.files.now texts.parses.now }
    ensures prelude { IfOk result (λ p. IsPrelude texts.entry.files.now (Some n) (Some p)) }
    ensures file { IfOk result (λ p. p.file ≡ n) }
{
    match parsed_once(rt, alloc, texts.files, &texts.trees.all, texts.parses, n)? {
        Ok(tree) => Ok(prelude_over(alloc, n, Some(tree))?),
        Err(_) => Ok(prelude_over(alloc, n, None)?),
    }
}

/// The prelude, if there is one.
fn block_of<'t, R: Wait>(
    rt: &R,
    alloc: Global,
    texts: Texts<'_, 't>,
    prelude: Option<usize>,
) -> Result<Option<Prelude<'t>>, AllocError>
    requires prelude { IfSome prelude (λ n. n < length texts.files.now) }
    requires parses { AreParsesOf texts.files.now texts.parses.now }
    ensures prelude { IfOk result (IsPrelude texts.entry.files.now prelude) }
    ensures file { IfOk result (λ block. IfSome block (λ p. p.file < length texts.entry.files.now)) }
{
    match prelude {
        Some(n) => Ok(Some(prelude_of(rt, alloc, texts, n)?)),
        None => Ok(None),
    }
}

/// Reads the files by this prelude, but for those whose readings are known.
fn read_by<'s, 't, R: Threads + Wait + Sync>(
    rt: &R,
    alloc: Global,
    texts: Texts<'s, 't>,
    known: Reads<'t>,
    prelude: Option<&'s Prelude<'t>>,
    roots: &'s [usize],
    threads: usize,
) -> Result<Reads<'t>, AllocError>
    requires parses { AreParsesOf texts.files.now texts.parses.now }
    requires known { AreReadAs texts.files.now (outside_seen prelude texts.language) known.all.items }
    requires roots { Within texts.files.now roots.now }
    requires prelude { IfSome prelude (λ p. p.now.file < length texts.files.now) }
    ensures all { IfOk result (λ reads.
        IsRowOf texts.entry.files.now (outside_seen prelude.entry texts.entry.language) roots.now reads.all.items) }
    ensures others { IfOk result (λ reads.
        AreReadAs texts.entry.files.now (outside_seen prelude.entry texts.entry.language) reads.others.items) }
{
    let reader = Reader {
        alloc,
        files: texts.files,
        trees: &texts.trees.all,
        parses: texts.parses,
        prelude,
        language: texts.language,
        roots,
    };
    let Reads { all, .. } = known;
    reader.read_all(rt, all, threads)
}

/// Reads all files that the roots reach, by at most `threads` threads: of each its program in a language, or its static
/// fault. The trees are kept in `trees`. The error: an allocation failed.
pub fn read_files<'t, R: Threads + Wait + Sync>(
    rt: &R,
    alloc: Global,
    files: &Labels,
    trees: &'t Trees,
    roots: &[usize],
    prelude: Option<usize>,
    language: &Language,
    threads: usize,
) -> Result<Reads<'t>, AllocError>
    requires roots { Within files.now roots.now }
    requires prelude { IfSome prelude (λ n. n < length files.now) }
    ensures read { IfOk result (λ reads. IsReadOf files.now roots.now prelude language.now reads.all.items) }
    ensures placeable { IfOk result (λ reads. All IsPlaceable reads.all.items) }
{
    let none = Vec::new(alloc);
    let texts = Texts {
        files,
        trees,
        parses: none.as_slice(),
        language,
    };
    let known = Reads::new(alloc);
    read_parsed(rt, alloc, texts, known, roots, prelude, threads)
}

/// As `read_files`, with some texts parsed already, which are not parsed again, and some files read already, which are
/// not read again. The results of reading those that are not reached are the others of the answer. The error: an
/// allocation failed.
pub fn read_parsed<'t, R: Threads + Wait + Sync>(
    rt: &R,
    alloc: Global,
    texts: Texts<'_, 't>,
    known: Reads<'t>,
    roots: &[usize],
    prelude: Option<usize>,
    threads: usize,
) -> Result<Reads<'t>, AllocError>
    requires parses { AreParsesOf texts.files.now texts.parses.now }
    requires known { AreKnown texts.files.now prelude texts.language.now known.all.items }
    requires roots { Within texts.files.now roots.now }
    requires prelude { IfSome prelude (λ n. n < length texts.files.now) }
    ensures read { IfOk result (λ reads. IsReadOf texts.entry.files.now roots.now prelude texts.entry.language.now
        reads.all.items) }
    ensures placeable { IfOk result (λ reads. All IsPlaceable reads.all.items) }
    ensures others { IfOk result (λ reads. AreKnown texts.entry.files.now prelude texts.entry.language.now
        reads.others.items) }
{
    let block = block_of(rt, alloc, texts, prelude)?;
    read_by(rt, alloc, texts, known, block.as_ref(), roots, threads)
}
