//! The search for the files that roots reach, by several readers.
//!
//! A reader that finds no file waiting does not sleep: it reads one that may be found later, ahead of time. For a chain
//! of loads, where one file after another is found, the others are read meanwhile. Such a file may turn out not to be
//! reached, so only files of a few bytes are read ahead in vain.
//!
//! But a reader that was given more than its share of the bytes sleeps, and others go on. The allocator keeps a part of
//! the memory for each thread, as large as the thread ever needed: in a process that stays, uneven shares would let each
//! of these parts grow to the largest share. The last reader that is awake goes on in any case, and only readers that
//! have begun have a share. So nobody waits for a thread that the system starts late, or not at all.

ghost use Rattle.std.specs.Prelude.{◌+◌, ◌≤◌, IfOk, sum_by};
ghost use Rattle.star_flow.specs.Searches.{kept, loads_in};

use std::alloc::{AllocError, Global};
use std::sync::{Condvar, Mutex, MutexGuard, Wait};

/// This many bytes of texts may be read ahead in vain.
const BYTES_AHEAD: usize = 1 << 18;

/// A reader that was given this many bytes more than nine eighths of its share takes no other file while another reader
/// is at work.
const BYTES_MORE: usize = 1 << 12;

/// The state of a file in the search.
#[derive(Drop)]
enum State {
    /// Nobody has asked for it.
    Unknown,
    /// It is read ahead, and nobody has asked for it. It loads these files, if it is read.
    Ahead(Option<Vec<usize>>),
    /// It is reached.
    Found,
}

/// A file that a reader takes.
#[derive(Clone, Copy, Debug, PartialEq, Eq)]
enum Next {
    /// It reads this file.
    Read(usize),
    /// It sleeps until something changes.
    Sleep,
    /// All reached files are found.
    Over,
}

#[derive(Drop)]
struct Files {
    states: Vec<State>,
    /// The bytes of their texts.
    sizes: Vec<usize>,
    /// Found files that nobody reads yet.
    waiting: Vec<usize>,
    /// How many found files are being read.
    reading: usize,
    /// All files before it are found or read ahead.
    next: usize,
    /// How many bytes may still be read ahead.
    allowed: usize,
    /// The bytes of the texts of all files that are found or read ahead.
    known: usize,
    /// The bytes of the texts that each reader was given, by its number.
    given: Vec<usize>,
    /// How many readers have begun.
    begun: usize,
    /// How many readers are at work. One that has left counts still, but then no file is found any more.
    awake: usize,
    /// When this many bytes are known, a reader that sleeps may have no more than its share.
    wake_at: usize,
}

/// Hands out files to readers: the roots, the loads of all files that are reached, and some ahead of time. It is a
/// hint: a file that is not handed out is read by whoever goes over the reached files in the end.
#[derive(Drop)]
pub struct Search {
    files: Mutex<Files>,
    // Notified when files are found, when more may be read ahead, and at the end.
    changed: Condvar,
}

impl Files {
    /// The bytes of the text of a file; none if there is no file with this number.
    fn size(&self, n: usize) -> usize {
        match self.sizes.get(n) {
            Some(size) => *size,
            None => 0,
        }
    }

    /// A file is reached. Answers the files that it loads, if it was read ahead.
    fn find(&mut self, n: usize) -> Result<Option<Vec<usize>>, AllocError>
        ensures { IfOk result (λ loads. sum_by kept self.new.states.items + loads_in loads
            ≤ sum_by kept self.old.states.items) }
    {
        if n >= self.states.len() {
            return Ok(None);
        }
        match &mut self.states[n] {
            State::Found => return Ok(None),
            State::Unknown => {
                self.waiting.push(n)?;
                self.known = self.known.saturating_add(self.size(n));
            }
            State::Ahead(loads) => {
                let loads = loads.take();
                if loads.is_none() {
                    self.reading = self.reading.saturating_add(1);
                }
                self.states[n] = State::Found;
                self.allowed = self.allowed.saturating_add(self.size(n));
                return Ok(loads);
            }
        }
        self.states[n] = State::Found;
        Ok(None)
    }

    /// These files are reached, and so are those to which loads lead from files that were read ahead.
    fn find_all(&mut self, found: Vec<usize>) -> Result<(), AllocError> {
        let mut todo = found;
        while let Some(n) = todo.pop() {
            if let Some(loads) = self.find(n)? {
                todo.extend_from_slice(&loads)?;
            }
        }
        Ok(())
    }

    /// A reader has read a file, which loads these.
    fn has_read(&mut self, n: usize, loads: Vec<usize>) -> Result<(), AllocError> {
        match self.states.get(n) {
            Some(State::Ahead(_)) => {
                self.states[n] = State::Ahead(Some(loads));
                Ok(())
            }
            _ => {
                self.reading = self.reading.saturating_sub(1);
                self.find_all(loads)
            }
        }
    }

    /// The next file that nobody has asked for, if it may be read ahead.
    fn ahead(&mut self) -> Option<usize> {
        for n in self.next..self.states.len() {
            self.next = n + 1;
            if !matches!(self.states[n], State::Unknown) {
                continue;
            }
            if n >= self.sizes.len() || self.sizes[n] > self.allowed {
                return None;
            }
            self.allowed -= self.sizes[n];
            self.known = self.known.saturating_add(self.sizes[n]);
            self.states[n] = State::Ahead(None);
            return Some(n);
        }
        None
    }

    /// One more reader begins.
    fn begin(&mut self) {
        self.begun = self.begun.saturating_add(1);
        self.awake = self.awake.saturating_add(1);
    }

    /// A reader is given a file.
    fn give(&mut self, reader: usize, n: usize) {
        if reader < self.given.len() {
            self.given[reader] = self.given[reader].saturating_add(self.size(n));
        }
    }

    /// As long as fewer bytes are known, a reader was given more than its share.
    fn enough_below(&self, reader: usize) -> usize {
        let Some(given) = self.given.get(reader) else {
            return 0;
        };
        let beyond = given.saturating_sub(BYTES_MORE);
        (beyond - beyond / 9).saturating_mul(self.begun)
    }

    /// Whether a reader was given more than its share.
    fn has_enough(&self, reader: usize) -> bool {
        self.known < self.enough_below(reader)
    }

    /// Whether a reader that sleeps may have no more than its share since the last time.
    fn wakes(&mut self) -> bool {
        let wakes = self.known >= self.wake_at;
        if wakes {
            self.wake_at = usize::MAX;
        }
        wakes
    }

    /// What a reader does next.
    fn next(&mut self, reader: usize) -> Next {
        if self.waiting.is_empty() && self.reading == 0 {
            self.awake = self.awake.saturating_sub(1);
            return Next::Over;
        }
        if self.awake > 1 && self.has_enough(reader) {
            return Next::Sleep;
        }
        if let Some(n) = self.waiting.pop() {
            self.reading = self.reading.saturating_add(1);
            self.give(reader, n);
            return Next::Read(n);
        }
        match self.ahead() {
            Some(n) => {
                self.give(reader, n);
                Next::Read(n)
            }
            None => Next::Sleep,
        }
    }
}

impl Search {
    /// A search from these roots by this many readers, among files whose texts have these sizes in bytes.
    pub fn new(
        alloc: Global,
        sizes: Vec<usize>,
        roots: Vec<usize>,
        readers: usize,
    ) -> Result<Search, AllocError> {
        let given = vec![in alloc; 0; readers]?;
        let mut states = Vec::with_capacity(alloc, sizes.len())?;
        for _ in 0..sizes.len() {
            states.push(State::Unknown)?;
        }
        let mut files = Files {
            states,
            sizes,
            waiting: Vec::new(alloc),
            reading: 0,
            next: 0,
            allowed: BYTES_AHEAD,
            known: 0,
            given,
            begun: 0,
            awake: 0,
            wake_at: usize::MAX,
        };
        files.find_all(roots)?;
        Ok(Search {
            files: Mutex::new(files),
            changed: Condvar::new(),
        })
    }

    /// A reader sleeps until something changes.
    fn sleep<'a, R: Wait>(
        &'a self,
        rt: &R,
        reader: usize,
        files: MutexGuard<'a, Files>,
    ) -> MutexGuard<'a, Files> {
        let mut files = files;
        if files.has_enough(reader) {
            files.wake_at = files.wake_at.min(files.enough_below(reader));
        }
        files.awake = files.awake.saturating_sub(1);
        let mut files = self.changed.wait(rt, files);
        files.awake = files.awake.saturating_add(1);
        files
    }

    /// The next file for a reader with this number, which has read the one that it was given before, with the files that
    /// this one loads. It waits while no file is to be read and some are being read, or while it has more than its share
    /// and another reader is at work. `None` if all reached files are read. The error: an allocation failed. The reader
    /// then leaves the search.
    pub fn take<R: Wait>(
        &self,
        rt: &R,
        reader: usize,
        read: Option<(usize, Vec<usize>)>,
    ) -> Result<Option<usize>, AllocError> {
        let mut files = self.files.lock(rt);
        let (waiting, allowed) = (files.waiting.len(), files.allowed);
        match read {
            Some((n, loads)) => files.has_read(n, loads)?,
            None => files.begin(),
        }
        let mut has_news = files.waiting.len() > waiting;
        if files.allowed > allowed {
            self.changed.notify_all();
        }
        for _ in rt.forever() {
            let next = files.next(reader);
            if files.wakes() || (has_news && !files.waiting.is_empty()) {
                self.changed.notify_all();
            }
            has_news = false;
            match next {
                Next::Read(n) => return Ok(Some(n)),
                Next::Sleep => files = self.sleep(rt, reader, files),
                Next::Over => {
                    self.changed.notify_all();
                    return Ok(None);
                }
            }
        }
        unreachable!()
    }

    /// A reader leaves after an error: no file is found any more, so nobody waits for it.
    pub fn leave<R: Wait>(&self, rt: &R) {
        let mut files = self.files.lock(rt);
        files.reading = 0;
        files.waiting.clear();
        files.states.clear();
        self.changed.notify_all();
    }
}
