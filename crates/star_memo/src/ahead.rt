//! Parsing texts that are not parsed yet, by several threads, as their files are reached.

ghost use Rattle.std.specs.Prelude.{◌<◌, IfOk, OnOk, length};
ghost use Rattle.star_memo.specs.Parses.{AreMade, AreSharesMade};

use crate::parses::{Parse, parse_of};
use star_flow::Search;
use star_label::files::Files;
use star_reading::parses::Parsed;
use star_reading::reading::{Read, numbers};
use star_scope::error::ScopeFault;
use star_scope::loads::find_loads;
use std::alloc::{AllocError, Global};
use std::sync::Wait;
use std::thread;
use std::thread::Threads;

/// Files, the results of reading some of them, and those of parsing some of their texts, by the numbers of the files.
#[derive(Drop)]
pub(crate) struct Parser<'s, 't, 'u> {
    pub alloc: Global,
    pub files: &'s Files,
    /// The loads of a file that was read are known without a search of its tree.
    pub reads: &'s [Option<Read<'u>>],
    /// None for a text that is not parsed yet.
    pub parses: &'s [Option<Parsed<'t>>],
}

/// The results that one thread has made, by the numbers of their files. The error: an allocation failed.
pub(crate) type Made = Result<Vec<(usize, Parse)>, AllocError>;

impl<'s, 't, 'u> Parser<'s, 't, 'u> {
    /// The numbers of the files that a file loads, by this result of parsing its text.
    fn loads_of(&self, n: usize, parsed: Parsed<'_>) -> Result<Vec<usize>, AllocError>
        requires { n < length self.now.files.now }
    {
        let Ok(tree) = parsed else {
            return Ok(Vec::new(self.alloc));
        };
        match find_loads(self.alloc, self.files, n, None, tree.statements.as_slice()) {
            Ok(found) => numbers(self.alloc, found.loads.as_slice()),
            Err(ScopeFault::Memory) => Err(AllocError),
            Err(_) => unreachable!(),
        }
    }

    /// Parses the text of a file, unless it is read or parsed already, and answers the numbers of the files that it loads.
    fn parse_into(&self, made: &mut Vec<(usize, Parse)>, n: usize) -> Result<Vec<usize>, AllocError>
        ensures { OnOk result (AreMade self.now.files.now made.old.items → AreMade self.now.files.now made.new.items) }
    {
        if n >= self.files.len() {
            return Ok(Vec::new(self.alloc));
        }
        if let Some(Some(Read::Program(program))) = self.reads.get(n) {
            return numbers(self.alloc, program.loads());
        }
        if n < self.parses.len() {
            if let Some(parsed) = self.parses[n] {
                return self.loads_of(n, parsed);
            }
        }
        let parse = parse_of(self.alloc, self.files.text(n))?;
        let loads = self.loads_of(n, parse.view())?;
        made.push((n, parse))?;
        Ok(loads)
    }

    /// Parses one text after another, as their files are handed out.
    fn parse_found<R: Wait>(&self, rt: &R, search: &Search, thread: usize) -> Made
        ensures { IfOk result (λ made. AreMade self.now.files.now made.items) }
    {
        let mut made = Vec::new(self.alloc);
        let mut parsed = None;
        for _ in rt.forever() {
            let Some(n) = search.take(rt, thread, parsed)? else {
                return Ok(made);
            };
            parsed = Some((n, self.parse_into(&mut made, n)?));
        }
        unreachable!()
    }

    /// As `parse_found`, for one of several threads. If it fails, it leaves the search, so that no other thread waits for
    /// it.
    fn parse_share<R: Wait>(&self, rt: &R, search: &Search, thread: usize) -> Made
        ensures { IfOk result (λ made. AreMade self.now.files.now made.items) }
    {
        let made = self.parse_found(rt, search, thread);
        if made.is_err() {
            search.leave(rt);
        }
        made
    }

    /// How many bytes of each text there are to parse.
    fn sizes(&self) -> Result<Vec<usize>, AllocError> {
        let mut sizes = Vec::with_capacity(self.alloc, self.files.len())?;
        for n in 0..self.files.len() {
            match self.parses.get(n) {
                Some(Some(_)) => sizes.push(0)?,
                _ => sizes.push(self.files.text(n).len())?,
            }
        }
        Ok(sizes)
    }

    /// The search by `threads` threads for the files that some files reach.
    pub(crate) fn search(&self, first: Vec<usize>, threads: usize) -> Result<Search, AllocError> {
        Search::new(self.alloc, self.sizes()?, first, threads)
    }

    /// Parses the texts of the files that are handed out, by `threads` threads.
    pub(crate) fn parse_shares<R: Threads + Wait + Sync>(
        &self,
        rt: &R,
        search: &Search,
        threads: usize,
    ) -> Result<Vec<Made>, AllocError>
        ensures { IfOk result (λ shares. AreSharesMade self.now.files.now shares.items) }
    {
        thread::map_indices(
            rt,
            self.alloc,
            threads,
            &|thread: usize| -> Result<Vec<(usize, Parse)>, AllocError>
                ensures { IfOk result (λ made. AreMade self.entry.now.files.now made.items) }
            { self.parse_share(rt, search, thread) },
        )
    }
}
