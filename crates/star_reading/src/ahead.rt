//! The readings that are there before the files are gone over: those that are known, or else those that several threads
//! read. They read files as they are found, and some before that, when they would sleep.

ghost use Rattle.std.specs.Prelude.{◌<◌, IfOk, OnOk, length};
ghost use Rattle.star_scope.specs.Resolve.{outside_seen};
ghost use Rattle.star_reading.specs.Ahead.{AreSharesReadAs, IsTaken, StayReadings, StaysRight};
ghost use Rattle.star_reading.specs.Parsed.{AreParsesOf};
ghost use Rattle.star_reading.specs.Readings.{AreReadAs, AreAllReadAs, IsReadAs};

use crate::reading::{Found, Read, Reader, loads_of, numbers};
use star_flow::Search;
use star_label::files::Files as Labels;
use std::alloc::{AllocError, Global};
use std::sync::Wait;
use std::thread;
use std::thread::Threads;

/// Below this many files, one thread is faster than starting others.
const FILES_FOR_THREADS: usize = 16;

/// If several threads read, there are at least this many files for each.
const FILES_A_THREAD: usize = 4;

/// The results that one thread has read, by the numbers of the files. The error: an allocation failed.
type Readings<'t> = Result<Vec<(usize, Read<'t>)>, AllocError>;

/// The bytes of the texts of files.
fn sizes(alloc: Global, files: &Labels) -> Result<Vec<usize>, AllocError> {
    let mut sizes = Vec::with_capacity(alloc, files.len())?;
    for n in 0..files.len() {
        sizes.push(files.text(n).len())?;
    }
    Ok(sizes)
}

impl<'s, 't> Reader<'s, 't> {
    /// Reads a file, if there is one with this number, and answers the numbers of the files that it loads.
    fn read_into<R: Wait>(
        &self,
        rt: &R,
        reads: &mut Vec<(usize, Read<'t>)>,
        n: usize,
    ) -> Result<Vec<usize>, AllocError>
        requires parses { AreParsesOf self.now.files.now self.now.parses.now }
        ensures { OnOk result
            (StayReadings self.now.files.now (outside_seen self.now.prelude self.now.language) reads.old.items
            reads.new.items) }
    {
        if n >= self.files.len() {
            return Ok(Vec::new(self.alloc));
        }
        let read = self.read(rt, n)?;
        let loads = numbers(self.alloc, loads_of(&read))?;
        reads.push((n, read))?;
        Ok(loads)
    }

    /// Reads one file after another, as they are handed out.
    fn read_found<R: Wait>(&self, rt: &R, search: &Search, thread: usize) -> Readings<'t>
        requires parses { AreParsesOf self.now.files.now self.now.parses.now }
        ensures { IfOk result (λ reads.
            AreAllReadAs self.now.files.now (outside_seen self.now.prelude self.now.language) reads.items) }
    {
        let mut reads = Vec::new(self.alloc);
        let mut read = None;
        for _ in rt.forever() {
            let Some(n) = search.take(rt, thread, read)? else {
                return Ok(reads);
            };
            read = Some((n, self.read_into(rt, &mut reads, n)?));
        }
        unreachable!()
    }

    /// As `read_found`, for one of several threads. If it fails, it leaves the search, so that no other thread waits
    /// for it.
    fn read_share<R: Wait>(&self, rt: &R, search: &Search, thread: usize) -> Readings<'t>
        requires parses { AreParsesOf self.now.files.now self.now.parses.now }
        ensures { IfOk result (λ reads.
            AreAllReadAs self.now.files.now (outside_seen self.now.prelude self.now.language) reads.items) }
    {
        let reads = self.read_found(rt, search, thread);
        if reads.is_err() {
            search.leave(rt);
        }
        reads
    }

    /// Reads the files that are handed out, by `threads` threads.
    fn read_shares<R: Threads + Wait + Sync>(
        &self,
        rt: &R,
        search: &Search,
        threads: usize,
    ) -> Result<Vec<Readings<'t>>, AllocError>
        requires parses { AreParsesOf self.now.files.now self.now.parses.now }
        ensures { IfOk result (λ shares.
            AreSharesReadAs self.now.files.now (outside_seen self.now.prelude self.now.language) shares.items) }
    {
        thread::map_indices(
            rt,
            self.alloc,
            threads,
            &|thread: usize| -> Result<Vec<(usize, Read)>, AllocError>
                requires { AreParsesOf self.now.files.now self.now.parses.now }
                ensures { IfOk result (λ reads.
                    AreAllReadAs self.entry.now.files.now (outside_seen self.entry.now.prelude self.entry.now.language)
                    reads.items) }
            { self.read_share(rt, search, thread) },
        )
    }

    /// Reads all files that the roots reach by at most `threads` threads. One thread reads nothing ahead.
    fn read_ahead<R: Threads + Wait + Sync>(
        &self,
        rt: &R,
        threads: usize,
    ) -> Result<Found<'t>, AllocError>
        requires parses { AreParsesOf self.now.files.now self.now.parses.now }
        ensures { IfOk result (λ ahead.
            AreReadAs self.now.files.now (outside_seen self.now.prelude self.now.language) ahead.reads.items) }
    {
        let count = self.files.len();
        let mut ahead = Found::new(self.alloc, count)?;
        let threads = threads.min(count / FILES_A_THREAD);
        if threads < 2 || count < FILES_FOR_THREADS {
            return Ok(ahead);
        }
        let roots = self.roots.iter().copied().collect(self.alloc)?;
        let search = Search::new(self.alloc, sizes(self.alloc, self.files)?, roots, threads)?;
        let shares = self.read_shares(rt, &search, threads)?;
        ahead.add_shares(shares)?;
        Ok(ahead)
    }

    /// The readings to begin with: those that are known, if there are any; else files are read ahead.
    pub(crate) fn read_before<R: Threads + Wait + Sync>(
        &self,
        rt: &R,
        known: Vec<Option<Read<'t>>>,
        threads: usize,
    ) -> Result<Found<'t>, AllocError>
        requires parses { AreParsesOf self.now.files.now self.now.parses.now }
        requires known { AreReadAs self.now.files.now (outside_seen self.now.prelude self.now.language) known.items }
        ensures { IfOk result (λ ahead.
            AreReadAs self.now.files.now (outside_seen self.now.prelude self.now.language) ahead.reads.items) }
    {
        if known.iter().all(|read| read.is_none()) {
            return self.read_ahead(rt, threads);
        }
        Ok(Found {
            reads: known,
            marks: Vec::new(self.alloc),
            todo: Vec::new(self.alloc),
        })
    }

    /// The result of reading a file: the one that is there before, or the file is read now.
    pub(crate) fn read_once<R: Wait>(
        &self,
        rt: &R,
        ahead: &mut Found<'t>,
        n: usize,
    ) -> Result<Read<'t>, AllocError>
        requires parses { AreParsesOf self.now.files.now self.now.parses.now }
        requires file { n < length self.now.files.now }
        requires ahead { AreReadAs self.now.files.now (outside_seen self.now.prelude self.now.language)
            ahead.old.reads.items }
        ensures read { IfOk result (IsReadAs self.now.files.now (outside_seen self.now.prelude self.now.language) n) }
        ensures ahead { AreReadAs self.now.files.now (outside_seen self.now.prelude self.now.language)
            ahead.new.reads.items }
    {
        match ahead.take(n) {
            Some(read) => Ok(read),
            None => self.read(rt, n),
        }
    }
}

impl<'t> Found<'t> {
    /// Takes the result of reading a file ahead out, if there is one.
    fn take(&mut self, n: usize) -> Option<Read<'t>>
        ensures { IsTaken n result self.old.reads.items self.new.reads.items }
    {
        if n < self.reads.len() {
            self.reads[n].take()
        } else {
            None
        }
    }

    /// Records that a file was read, if there is one with this number.
    fn add_read(&mut self, n: usize, read: Read<'t>) -> Result<(), AllocError>
        ensures { OnOk result (StaysRight (λ files outside. IsReadAs files outside n read.entry)
            self.old.reads.items self.new.reads.items) }
    {
        if n >= self.reads.len() {
            return Ok(());
        }
        self.add(n, read)?;
        Ok(())
    }

    /// Records that several files were read.
    fn add_each(&mut self, reads: Vec<(usize, Read<'t>)>) -> Result<(), AllocError>
        ensures { OnOk result (StaysRight (λ files outside. AreAllReadAs files outside reads.entry.items)
            self.old.reads.items self.new.reads.items) }
    {
        for (n, read) in reads {
            self.add_read(n, read)?;
        }
        Ok(())
    }

    /// Records the files that several threads have read.
    fn add_shares(&mut self, shares: Vec<Readings<'t>>) -> Result<(), AllocError>
        ensures { OnOk result (StaysRight (λ files outside. AreSharesReadAs files outside shares.entry.items)
            self.old.reads.items self.new.reads.items) }
    {
        for share in shares {
            self.add_each(share?)?;
        }
        Ok(())
    }
}
