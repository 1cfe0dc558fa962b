//! The results of parsing the texts of files, which are kept from one request to the next.

ghost use Rattle.std.specs.Prelude.{◌≡◌, ◌<◌, ◌≤◌, [], true, All, List, ℕ, IfOk, IfSome, IsSome, None, OnOk, Some, length, slice_index_or, vec_len};
ghost use Rattle.std.specs.Arc.{arc_value};
ghost use Rattle.star_label.specs.Files.{File, label_at, text_at};
ghost use Rattle.star_memo.specs.Parses.{AreKept, AreMade, AreSharesMade, Has, IsKept, IsParse, IsSameFile, IsTouched, kept_bytes};
ghost use Rattle.star_reading.specs.Parsed.{AreParsesOf, IsParsed};

use crate::ahead::{Made, Parser};
use crate::compared::Compared;
use star_label::files::Files;
use star_lex::token::SyntaxFault;
use star_parser::parse;
use star_reading::parses::Parsed;
use star_reading::reading::Read;
use star_tree::tree::Tree;
use std::alloc::{AllocError, Global};
use std::sync::{Arc, Wait};
use std::thread::Threads;

/// Below this many, texts that are not parsed yet are parsed by one thread, reached or not.
const TEXTS_FOR_THREADS: usize = 16;

/// If several threads parse, there are at least this many texts for each. So mostly as many threads parse as run files,
/// and each takes about as much memory in one request as in the next.
const TEXTS_A_THREAD: usize = 4;

/// The result of parsing a text: its tree, or its fault, which is not want of memory.
#[derive(Drop)]
pub enum Parse {
    Tree(Tree),
    Fault(SyntaxFault),
}

/// A result that is kept, and the number of the last request that reached its file.
#[derive(Drop)]
pub struct Kept {
    pub parse: Arc<Parse>,
    pub used: u64,
}

/// The results of parsing the texts of files, by the numbers of the files. None for a text that must be parsed again.
#[derive(Drop)]
pub struct Parses {
    pub all: Vec<Option<Kept>>,
}

impl Parse {
    /// The result as a reader of files takes it.
    pub(crate) fn view(&self) -> Parsed<'_>
        ensures { (text : List ℕ) → IsParse text self.now → IsParsed text result }
    {
        match self {
            Parse::Tree(tree) => Ok(tree),
            Parse::Fault(fault) => Err(*fault),
        }
    }
}

/// Parses a text. The error: an allocation failed.
pub(crate) fn parse_of(alloc: Global, text: &str) -> Result<Parse, AllocError>
    ensures { IfOk result (IsParse text.now) }
{
    match parse(alloc, text) {
        Ok(tree) => Ok(Parse::Tree(tree)),
        Err(SyntaxFault::Memory) => Err(AllocError),
        Err(fault) => Ok(Parse::Fault(fault)),
    }
}

impl Kept {
    /// A result, to be kept. No request has reached its file yet. The error: an allocation failed.
    fn new(alloc: Global, parse: Parse) -> Result<Kept, AllocError>
        ensures { IfOk result (λ k. arc_value k.parse ≡ parse) }
    {
        let parse = Arc::new(alloc, parse)?;
        Ok(Kept { parse, used: 0 })
    }

    /// A copy that shares the result. The error: an allocation failed.
    fn again(&self) -> Result<Kept, AllocError>
        ensures { IfOk result (λ k. arc_value k.parse ≡ arc_value self.now.parse) }
    {
        let parse = Arc::try_clone(&self.parse)?;
        Ok(Kept {
            parse,
            used: self.used,
        })
    }
}

impl Parses {
    /// Nothing is kept yet.
    pub fn new(alloc: Global) -> Parses
        ensures { result.all.items ≡ [] }
    {
        Parses {
            all: Vec::new(alloc),
        }
    }

    /// The kept result for a file that has the label and the text that it had before.
    fn find(&self, compared: &Compared<'_>, n: usize) -> Option<&Kept>
        requires kept { AreKept compared.now.before self.now.all.items }
        requires file { n < length compared.now.files }
        ensures parse { IfSome result (λ k. IsParse (text_at compared.now.files n) (arc_value k.now.parse)) }
        ensures each { (m : ℕ) → IsSameFile compared.now.before m compared.now.files n → Has self.now.all.items m
            → IsSome result }
    {
        let m = compared.number_before(n)?;
        if m < self.all.len() && compared.has_text_of(m, n) {
            return self.all[m].as_ref();
        }
        None
    }

    /// A copy of the entry for a file that has the label and the text that it had before. It shares the result. The
    /// error: an allocation failed.
    fn staying(&self, compared: &Compared<'_>, n: usize) -> Result<Option<Kept>, AllocError>
        requires kept { AreKept compared.now.before self.now.all.items }
        requires file { n < length compared.now.files }
        ensures kept { IfOk result (IsKept (text_at compared.now.files n)) }
        ensures each { IfOk result (λ o. (m : ℕ) → IsSameFile compared.now.before m compared.now.files n
            → Has self.now.all.items m → IsSome o) }
    {
        match self.find(compared, n) {
            Some(kept) => Ok(Some(kept.again()?)),
            None => Ok(None),
        }
    }

    /// The results that stay if files take the place of the files before: the result of each text that its label had
    /// before. The error: an allocation failed.
    pub fn after(&self, alloc: Global, compared: &Compared<'_>) -> Result<Parses, AllocError>
        requires { AreKept compared.now.before self.now.all.items }
        ensures kept { IfOk result (λ ps. AreKept compared.now.files ps.all.items) }
        ensures count { IfOk result (λ ps. vec_len ps.all ≡ length compared.now.files) }
        ensures stays { IfOk result (λ ps. (m n : ℕ) → n < length compared.now.files
            → IsSameFile compared.now.before m compared.now.files n → Has self.now.all.items m → Has ps.all.items n) }
    {
        let mut all = Vec::with_capacity(alloc, compared.count())?;
        for n in 0..compared.count() {
            all.push(self.staying(compared, n)?)?;
        }
        Ok(Parses { all })
    }

    /// Keeps a result for a file. The error: an allocation failed.
    fn put(&mut self, alloc: Global, n: usize, parse: Parse) -> Result<(), AllocError>
        ensures kept { OnOk result ((files : List File) → IsParse (text_at files n) parse
            → AreKept files self.old.all.items → AreKept files self.new.all.items) }
        ensures size { vec_len self.new.all ≡ vec_len self.old.all }
        ensures there { OnOk result (n < vec_len self.old.all → Has self.new.all.items n) }
        ensures stays { OnOk result ((m : ℕ) → Has self.old.all.items m → Has self.new.all.items m) }
    {
        let kept = Kept::new(alloc, parse)?;
        if n < self.all.len() {
            self.all[n] = Some(kept);
        }
        Ok(())
    }

    /// Keeps several results, each for the file with its number. The error: an allocation failed.
    fn put_each(&mut self, alloc: Global, made: Vec<(usize, Parse)>) -> Result<(), AllocError>
        ensures kept { OnOk result ((files : List File) → AreMade files made.items
            → AreKept files self.old.all.items → AreKept files self.new.all.items) }
        ensures stays { OnOk result ((m : ℕ) → Has self.old.all.items m → Has self.new.all.items m) }
    {
        for (n, parse) in made {
            self.put(alloc, n, parse)?;
        }
        Ok(())
    }

    /// Keeps the results of several threads. The error: an allocation failed.
    fn put_shares(&mut self, alloc: Global, shares: Vec<Made>) -> Result<(), AllocError>
        ensures kept { OnOk result ((files : List File) → AreSharesMade files shares.items
            → AreKept files self.old.all.items → AreKept files self.new.all.items) }
        ensures stays { OnOk result ((m : ℕ) → Has self.old.all.items m → Has self.new.all.items m) }
    {
        for share in shares {
            self.put_each(alloc, share?)?;
        }
        Ok(())
    }

    /// How many files have no result.
    fn missing(&self) -> usize
        ensures { result ≤ vec_len self.now.all }
    {
        self.all.iter().filter(|kept| kept.is_none()).count()
    }

    /// Parses all texts that have no result. The error: an allocation failed.
    fn parse_rest(&mut self, alloc: Global, files: &Files) -> Result<(), AllocError>
        requires { AreKept files.now self.old.all.items }
        ensures kept { OnOk result (AreKept files.now self.new.all.items) }
        ensures there { OnOk result ((n : ℕ) → n < vec_len self.old.all → n < length files.now
            → Has self.new.all.items n) }
        ensures stays { OnOk result ((m : ℕ) → Has self.old.all.items m → Has self.new.all.items m) }
    {
        for n in 0..files.len() {
            if !self.has(n) {
                self.put(alloc, n, parse_of(alloc, files.text(n))?)?;
            }
        }
        Ok(())
    }

    /// The results of parsing the texts of the files that some files reach, unless they are kept, by `threads` threads.
    /// The error: an allocation failed.
    fn reached<'s, R: Threads + Wait + Sync>(
        &self,
        rt: &R,
        alloc: Global,
        first: Vec<usize>,
        files: &'s Files,
        reads: &'s [Option<Read<'_>>],
        threads: usize,
    ) -> Result<Vec<Made>, AllocError>
        requires { AreKept files.now self.now.all.items }
        ensures { IfOk result (λ shares. AreSharesMade files.now shares.items) }
    {
        let views = self.views(alloc, files)?;
        let parser = Parser {
            alloc,
            files,
            reads,
            parses: views.as_slice(),
        };
        let search = parser.search(first, threads)?;
        parser.parse_shares(rt, &search, threads)
    }

    /// Parses the texts of the files that the files `first` reach, unless their results are kept or they are among
    /// `reads`, by at most `threads` threads. If few are not kept, one thread parses all of these. The error: an
    /// allocation failed.
    pub fn parse_reached<R: Threads + Wait + Sync>(
        &mut self,
        rt: &R,
        alloc: Global,
        files: &Files,
        reads: &[Option<Read<'_>>],
        first: Vec<usize>,
        threads: usize,
    ) -> Result<(), AllocError>
        requires { AreKept files.now self.old.all.items }
        ensures kept { OnOk result (AreKept files.now self.new.all.items) }
        ensures stays { OnOk result ((n : ℕ) → Has self.old.all.items n → Has self.new.all.items n) }
        ensures few { OnOk result (vec_len self.old.all < 16 → (n : ℕ) → n < vec_len self.old.all → n < length files.now
            → Has self.new.all.items n) }
    {
        let missing = self.missing();
        if missing < TEXTS_FOR_THREADS {
            return self.parse_rest(alloc, files);
        }
        let threads = threads.min(missing / TEXTS_A_THREAD);
        let shares = self.reached(rt, alloc, first, files, reads, threads)?;
        self.put_shares(alloc, shares)
    }

    /// The result of a file as a reader of files takes it, if it is kept.
    fn view_at(&self, files: &Files, n: usize) -> Option<Parsed<'_>>
        requires kept { AreKept files.now self.now.all.items }
        requires file { n < length self.now.all.items }
        ensures parsed { IfSome result (IsParsed (text_at files.now n)) }
        ensures there { Has self.now.all.items n → IsSome result }
    {
        match &self.all[n] {
            Some(kept) => Some(kept.parse.view()),
            None => None,
        }
    }

    /// The results as a reader of files takes them, by the numbers of the files. The error: an allocation failed.
    pub fn views(&self, alloc: Global, files: &Files) -> Result<Vec<Option<Parsed<'_>>>, AllocError>
        requires { AreKept files.now self.now.all.items }
        ensures parses { IfOk result (λ views. AreParsesOf files.now views.items) }
        ensures all { IfOk result (λ views. (n : ℕ) → Has self.now.all.items n
            → IsSome (slice_index_or views.items n None)) }
    {
        let mut views = Vec::with_capacity(alloc, self.all.len())?;
        for n in 0..self.all.len() {
            views.push(self.view_at(files, n))?;
        }
        Ok(views)
    }

    /// Records that a request with this number reached some files.
    pub fn touch_each(&mut self, reached: &[usize], request: u64)
        ensures kept { (files : List File) → AreKept files self.old.all.items → AreKept files self.new.all.items }
        ensures reached { All (IsTouched self.new.all.items request) reached.now }
    {
        for n in reached {
            self.touch(*n, request);
        }
    }

    /// Records that a request with this number reached a file.
    fn touch(&mut self, n: usize, request: u64)
        ensures kept { (files : List File) → AreKept files self.old.all.items → AreKept files self.new.all.items }
        ensures this { IsTouched self.new.all.items request n }
        ensures others { (m : ℕ) → IsTouched self.old.all.items request m → IsTouched self.new.all.items request m }
    {
        if n >= self.all.len() {
            return;
        }
        if let Some(kept) = &mut self.all[n] {
            kept.used = request;
        }
    }

    /// Whether a result is kept for a file.
    fn has(&self, n: usize) -> bool
        ensures { result ≡ true → Has self.now.all.items n }
    {
        matches!(self.all.get(n), Some(Some(_)))
    }

    /// How many bytes the texts have whose results are kept.
    pub(crate) fn bytes(&self, files: &Files) -> usize
        ensures { result ≤ kept_bytes files.now self.now.all.items }
    {
        let mut bytes: usize = 0;
        for n in 0..files.len() {
            if self.has(n) {
                bytes = bytes.saturating_add(files.text(n).len());
            }
        }
        bytes
    }

    /// The files for which results are kept, first those that no request has reached for the longest time. The error:
    /// an allocation failed.
    fn oldest_first(&self, alloc: Global) -> Result<Vec<(u64, usize)>, AllocError> {
        let mut oldest = Vec::with_capacity(alloc, self.all.len())?;
        for n in 0..self.all.len() {
            if let Some(kept) = &self.all[n] {
                oldest.push((kept.used, n))?;
            }
        }
        oldest.sort_unstable();
        Ok(oldest)
    }

    /// Lets results go until the texts of those that stay have at most `keep` bytes in all: first those that no request
    /// has reached for the longest time. If an allocation fails, all go.
    pub fn trim(&mut self, alloc: Global, files: &Files, keep: usize)
        requires { AreKept files.now self.old.all.items }
        ensures kept { AreKept files.now self.new.all.items }
        ensures within { kept_bytes files.now self.old.all.items ≤ keep → self.new ≡ self.old }
    {
        let mut bytes = self.bytes(files);
        if bytes <= keep {
            return;
        }
        let Ok(oldest) = self.oldest_first(alloc) else {
            self.all = Vec::new(alloc);
            return;
        };
        for (_, n) in oldest {
            if bytes <= keep {
                return;
            }
            self.forget(n);
            if n < files.len() {
                bytes = bytes.saturating_sub(files.text(n).len());
            }
        }
    }

    /// Lets the result of a file go.
    fn forget(&mut self, n: usize)
        ensures { (files : List File) → AreKept files self.old.all.items → AreKept files self.new.all.items }
    {
        if n < self.all.len() {
            self.all[n] = None;
        }
    }
}
