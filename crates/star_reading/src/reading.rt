//! The reading of all files that roots reach, before any body runs.

ghost use Rattle.std.specs.Prelude.{◌≡◌, ◌<◌, ◌∷◌, ◌++◌, ℕ, List, None, Option, Some, Ok, [], All, IfOk, IfSome, IsTrue, IsFalse};
ghost use Rattle.std.specs.Prelude.{IsSome, MatchOption, OnOk, false, length, map, replicate};
ghost use Rattle.std.specs.Prelude.{slice_set, vec_len, ⊤};
ghost use Rattle.star_label.specs.Files.{File, text_at};
ghost use Rattle.star_parser.specs.Sources.{Parses};
ghost use Rattle.star_scope.specs.Resolve.{Outside, outside_seen};
ghost use Rattle.star_reading.specs.Ahead.{StaysRight};
ghost use Rattle.star_reading.specs.Found.{AreKnown, Grew, HasFound, HasFoundWith, IsMarked, IsRowOf, Within, left_of};
ghost use Rattle.star_reading.specs.Parsed.{AreParsesOf};
ghost use Rattle.star_reading.specs.Readings.{AreReadAs, IsReadAs, loads_at, loads_read, read_at};

use crate::code::{StaticFault, of_scope, of_syntax};
use crate::parses::{Parsed, parsed_once};
use star_dialect::Language;
use star_label::files::Files as Labels;
use star_scope::loads::Load;
use star_scope::program::{Prelude, Program, resolve};
use star_tree::tree::Tree;
use std::alloc::{AllocError, Global};
use std::sync::Wait;
use std::thread::Threads;

/// The result of reading a file: its program, or its static fault.
pub enum Read<'t> {
    Program(Program<'t>),
    Fault(StaticFault),
}

impl Drop for Read<'_> {
    fn drop(self) {
        match self {
            Read::Program(_) => {}
            Read::Fault(_) => {}
        }
    }
}

/// The trees of the files that a run reads.
#[derive(Drop)]
pub struct Trees {
    /// No tree moves while more are read.
    pub all: boxcar::Vec<Tree>,
}

impl Trees {
    /// No tree yet. The error: an allocation failed.
    pub fn new(alloc: Global) -> Result<Trees, AllocError> {
        Ok(Trees {
            all: boxcar::Vec::new(alloc)?,
        })
    }
}

/// The results of reading a run's files, by their numbers; `None` for a file that no root reaches.
#[derive(Drop)]
pub struct Reads<'t> {
    /// An entry for each file of the run.
    pub all: Vec<Option<Read<'t>>>,
    /// The results of reading other files that were known before.
    pub others: Vec<Option<Read<'t>>>,
}

impl<'t> Reads<'t> {
    /// Nothing yet.
    pub fn new(alloc: Global) -> Reads<'t>
        ensures { result.all.items ≡ [] }
    {
        Reads {
            all: Vec::new(alloc),
            others: Vec::new(alloc),
        }
    }

    /// Takes the result of reading another file in, if none is there at its place.
    fn take_other(&mut self, n: usize)
        ensures all { StaysRight (λ files outside. AreReadAs files outside self.old.others.items)
            self.old.all.items self.new.all.items }
        ensures others { StaysRight (λ _ _. ⊤) self.old.others.items self.new.others.items }
        ensures size { vec_len self.new.others ≡ vec_len self.old.others }
    {
        if n >= self.all.len() || n >= self.others.len() || self.all[n].is_some() {
            return;
        }
        self.all[n] = self.others[n].take();
    }

    /// Takes the results of reading other files in, each at its place if none is there.
    pub fn take_others(&mut self)
        // It is long since it is about three rows.
        ensures { (files : List File) (prelude : Option ℕ) (d : Language) → AreKnown files prelude d self.old.all.items
            → AreKnown files prelude d self.old.others.items → AreKnown files prelude d self.new.all.items }
    {
        for n in 0..self.others.len() {
            self.take_other(n);
        }
    }

    /// The loads of a file; none if it has a static fault, or was not read.
    pub fn loads(&self, n: usize) -> &[Load]
        ensures { result.now ≡ loads_at self.now.all.items n }
    {
        loads_in(self.all.as_slice(), n)
    }
}

/// The loads of a file among those that were read; none if it has a static fault, or was not read.
pub fn loads_in<'s, 't>(reads: &'s [Option<Read<'t>>], n: usize) -> &'s [Load]
    ensures { result.now ≡ loads_at reads.now n }
{
    match reads.get(n) {
        Some(Some(Read::Program(program))) => program.loads(),
        _ => &[],
    }
}

/// The result of resolving the tree of a file, which sees this prelude, in a language. The error: an allocation failed.
pub fn resolved<'t>(
    alloc: Global,
    files: &Labels,
    prelude: Option<&Prelude<'t>>,
    language: &Language,
    n: usize,
    tree: &'t Tree,
) -> Result<Read<'t>, AllocError>
    requires file { n < length files.now }
    requires tree { Parses (text_at files.now n) (Ok tree.now) }
    ensures { IfOk result (IsReadAs files.now (outside_seen prelude.entry language.entry) n) }
{
    match resolve(alloc, files, n, tree, prelude, language) {
        Ok(program) => Ok(Read::Program(program)),
        Err(fault) => match of_scope(fault) {
            Some(fault) => Ok(Read::Fault(fault)),
            None => Err(AllocError),
        },
    }
}

/// All that is needed to read files: their texts, the place of their trees, the texts that are parsed already, the
/// prelude, the language, and the roots.
#[derive(Drop)]
pub struct Reader<'s, 't> {
    pub alloc: Global,
    pub files: &'s Labels,
    pub trees: &'t boxcar::Vec<Tree>,
    /// The results of parsing texts, by the numbers of their files; none for a text that is not parsed yet.
    pub parses: &'s [Option<Parsed<'t>>],
    pub prelude: Option<&'s Prelude<'t>>,
    pub language: &'s Language,
    pub roots: &'s [usize],
}

impl<'s, 't> Reader<'s, 't> {
    /// Reads and resolves a file.
    pub(crate) fn read<R: Wait>(&self, rt: &R, n: usize) -> Result<Read<'t>, AllocError>
        requires parses { AreParsesOf self.now.files.now self.now.parses.now }
        requires file { n < length self.now.files.now }
        ensures { IfOk result (IsReadAs self.now.files.now (outside_seen self.now.prelude self.now.language) n) }
    {
        match parsed_once(rt, self.alloc, self.files, self.trees, self.parses, n)? {
            Ok(tree) => resolved(self.alloc, self.files, self.prelude, self.language, n, tree),
            Err(fault) => match of_syntax(fault) {
                Some(fault) => Ok(Read::Fault(fault)),
                None => unreachable!(),
            },
        }
    }

    /// Reads the next file that was found, unless it was read.
    fn read_next<R: Wait>(
        &self,
        rt: &R,
        found: &mut Found<'t>,
        ahead: &mut Found<'t>,
        n: usize,
    ) -> Result<(), AllocError>
        requires parses { AreParsesOf self.now.files.now self.now.parses.now }
        requires ahead { AreReadAs self.now.files.now (outside_seen self.now.prelude self.now.language)
            ahead.old.reads.items }
        requires file { n < length self.now.files.now }
        requires prelude { IfSome self.now.prelude (λ p. p.now.file < length self.now.files.now) }
        requires found { HasFoundWith self.now.files.now (outside_seen self.now.prelude self.now.language)
            self.now.roots.now found.old
            n }
        ensures found { OnOk result
            (HasFound self.now.files.now (outside_seen self.now.prelude self.now.language) self.now.roots.now
            found.new) }
        ensures left { OnOk result (left_of found.new.marks.items found.new.todo.items
            ≡ left_of found.old.marks.items found.old.todo.items) }
        ensures ahead { AreReadAs self.now.files.now (outside_seen self.now.prelude self.now.language)
            ahead.new.reads.items }
    {
        if found.is_read(n) {
            return Ok(());
        }
        let read = self.read_once(rt, ahead, n)?;
        found.add(n, read)?;
        Ok(())
    }

    /// Reads all files that the roots reach, by `threads` threads: the roots, and the loads of all that is read. A file
    /// with a static fault has no loads. Each turn takes a file that was found, and each file is found at most once.
    /// The readings in `known`, by the numbers of their files, are taken as they are; those of files that are not
    /// reached are the others of the answer. The error: an allocation failed.
    pub fn read_all<R: Threads + Wait + Sync>(
        &self,
        rt: &R,
        known: Vec<Option<Read<'t>>>,
        threads: usize,
    ) -> Result<Reads<'t>, AllocError>
        requires parses { AreParsesOf self.now.files.now self.now.parses.now }
        requires roots { Within self.now.files.now self.now.roots.now }
        requires prelude { IfSome self.now.prelude (λ p. p.now.file < length self.now.files.now) }
        requires known { AreReadAs self.now.files.now (outside_seen self.now.prelude self.now.language) known.items }
        ensures all { IfOk result (λ reads. IsRowOf self.now.files.now (outside_seen self.now.prelude self.now.language)
            self.now.roots.now reads.all.items) }
        ensures others { IfOk result (λ reads.
            AreReadAs self.now.files.now (outside_seen self.now.prelude self.now.language) reads.others.items) }
    {
        let mut ahead = self.read_before(rt, known, threads)?;
        let mut found = Found::from_roots(self.alloc, self.files, self.roots)?;
        while let Some(n) = found.next() {
            self.read_next(rt, &mut found, &mut ahead, n)?;
        }
        let Found { reads: all, .. } = found;
        let Found { reads: others, .. } = ahead;
        Ok(Reads { all, others })
    }
}

/// The loads of a read file; none if it has a static fault.
pub(crate) fn loads_of<'a>(read: &'a Read) -> &'a [Load]
    ensures { result.now ≡ loads_read read.now }
{
    match read {
        Read::Program(program) => program.loads(),
        Read::Fault(_) => &[],
    }
}

/// The numbers of the files that loads lead to. The error: an allocation failed.
pub fn numbers(alloc: Global, loads: &[Load]) -> Result<Vec<usize>, AllocError>
    ensures { IfOk result (λ v. v.items ≡ map (λ l. l.file) loads.now) }
{
    loads.iter().map(|load| load.file).collect(alloc)
}

/// The files that were found so far: the results of reading them, whether each was found, and the numbers of the files
/// that wait to be read.
#[derive(Drop)]
pub struct Found<'t> {
    pub reads: Vec<Option<Read<'t>>>,
    pub marks: Vec<bool>,
    pub todo: Vec<usize>,
}

impl<'t> Found<'t> {
    /// Nothing found yet, of `count` files. The error: an allocation failed.
    pub fn new(alloc: Global, count: usize) -> Result<Found<'t>, AllocError>
        ensures reads { IfOk result (λ f. vec_len f.reads ≡ count) }
        ensures none { IfOk result (λ f. All (λ o. o ≡ None) f.reads.items) }
        ensures marks { IfOk result (λ f. f.marks.items ≡ replicate count false) }
        ensures todo { IfOk result (λ f. f.todo.items ≡ []) }
    {
        let mut reads = Vec::new(alloc);
        for _ in 0..count {
            reads.push(None)?;
        }
        Ok(Found {
            reads,
            marks: vec![in alloc; false; count]?,
            todo: Vec::new(alloc),
        })
    }

    /// The roots are found, and nothing is read yet. The error: an allocation failed.
    pub fn from_roots(
        alloc: Global,
        files: &Labels,
        roots: &[usize],
    ) -> Result<Found<'t>, AllocError>
        requires { Within files.now roots.now }
        ensures { IfOk result (λ f. (outside : Outside) → HasFound files.now outside roots.now f) }
    {
        let mut found = Found::new(alloc, files.len())?;
        found.mark_each(roots)?;
        Ok(found)
    }

    /// Takes a file that waits to be read; `None` if none waits.
    pub fn next(&mut self) -> Option<usize>
        ensures reads { self.new.reads ≡ self.old.reads }
        ensures marks { self.new.marks ≡ self.old.marks }
        ensures todo { MatchOption result
            (self.old.todo.items ≡ [])
            (λ n. self.old.todo.items ≡ self.new.todo.items ++ n ∷ []) }
    {
        self.todo.pop()
    }

    /// Whether a file was read.
    pub fn is_read(&self, n: usize) -> bool
        ensures yes { IsTrue result → IsSome (read_at self.now.reads.items n) }
        ensures no { IsFalse result → read_at self.now.reads.items n ≡ None }
    {
        match self.reads.get(n) {
            Some(Some(_)) => true,
            _ => false,
        }
    }

    /// Records that a file is found.
    fn mark(&mut self, n: usize) -> Result<(), AllocError>
        ensures reads { self.new.reads ≡ self.old.reads }
        ensures grew { OnOk result (Grew (n ∷ []) self.old.marks.items self.old.todo.items
            self.new.marks.items self.new.todo.items) }
        ensures there { OnOk result (n < length self.old.marks.items → IsMarked self.new.marks.items n) }
    {
        if n < self.marks.len() && !self.marks[n] {
            self.todo.push(n)?;
            self.marks[n] = true;
        }
        Ok(())
    }

    /// Records that several files are found. The error: an allocation failed.
    pub fn mark_each(&mut self, numbers: &[usize]) -> Result<(), AllocError>
        ensures reads { self.new.reads ≡ self.old.reads }
        ensures grew { OnOk result (Grew numbers.now self.old.marks.items self.old.todo.items
            self.new.marks.items self.new.todo.items) }
        ensures there { OnOk result (All
            (λ n. n < length self.old.marks.items → IsMarked self.new.marks.items n) numbers.now) }
    {
        for n in numbers {
            self.mark(*n)?;
        }
        Ok(())
    }

    /// Records that the files of loads are found.
    fn mark_loads(&mut self, loads: &[Load]) -> Result<(), AllocError>
        ensures reads { self.new.reads ≡ self.old.reads }
        ensures grew { OnOk result (Grew (map (λ l. l.file) loads.now) self.old.marks.items self.old.todo.items
            self.new.marks.items self.new.todo.items) }
        ensures there { OnOk result (All
            (λ l. l.file < length self.old.marks.items → IsMarked self.new.marks.items l.file) loads.now) }
    {
        for load in loads {
            self.mark(load.file)?;
        }
        Ok(())
    }

    /// Records that a file was read, and that its loads are found. The error: an allocation failed.
    pub fn add(&mut self, n: usize, read: Read<'t>) -> Result<(), AllocError>
        requires { n < vec_len self.old.reads }
        ensures reads { OnOk result (self.new.reads.items ≡ slice_set self.old.reads.items n (Some read.entry)) }
        ensures grew { OnOk result (Grew (map (λ l. l.file) (loads_read read.entry))
            self.old.marks.items self.old.todo.items self.new.marks.items self.new.todo.items) }
        ensures there { OnOk result (All
            (λ l. l.file < length self.old.marks.items → IsMarked self.new.marks.items l.file)
            (loads_read read.entry)) }
    {
        self.mark_loads(loads_of(&read))?;
        self.reads[n] = Some(read);
        Ok(())
    }
}
