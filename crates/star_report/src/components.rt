//! The components of the graph of loads, by Tarjan's algorithm: in time that grows as the files and their loads do.

ghost use Rattle.std.specs.Prelude.{◌≡◌, ◌<◌, ◌≤◌, ◌↔◌, ◌^◌, [], false, IfOk, OnOk, length, replicate, true};
ghost use Rattle.star_reading.specs.Readings.{LeadWithin, Row};
ghost use Rattle.star_report.specs.Components.{AreComponents, AreOne, loaded_at, mark_at};
ghost use Rattle.star_report.specs.Search.{Closes, Enters, Follows, Goes, IsClosedBy, IsSearch, IsSearchingAt, Merges, Pushes, StayFound, went_on};
ghost use Rattle.star_report.specs.declared.components.Mark.TheVariants.{New};

use star_reading::reading::Reads;
use std::alloc::{AllocError, Global};

/// The state of a file in the search.
#[derive(Clone, Copy, Debug, PartialEq, Eq)]
pub(crate) enum Mark {
    /// It has not been found yet.
    New,
    /// It has been found, but perhaps not all of its component: its place among the files in this state.
    Open(usize),
    /// Its whole component has been found: the number of the component.
    Closed(usize),
}

/// A file whose loads are being followed.
#[derive(Clone, Copy, Debug, PartialEq, Eq)]
pub(crate) struct Frame {
    /// The number of the file.
    pub file: usize,
    /// Its place among the open files.
    pub place: usize,
    /// How many of its loads have been followed.
    pub next: usize,
    /// The lowest place that it is known to lead to.
    pub low: usize,
}

/// A search for components.
#[derive(Drop)]
pub(crate) struct Search {
    /// A mark for each file.
    pub marks: Vec<Mark>,
    /// The open files, as they were found.
    pub stack: Vec<usize>,
    /// The files whose loads are being followed. Each loads the next.
    pub path: Vec<Frame>,
    /// How many components have been found.
    pub count: usize,
}

/// The components of all files of a run.
#[derive(Drop)]
pub(crate) struct Components {
    pub marks: Vec<Mark>,
}

/// Marks files with a component.
fn close_all(marks: &mut Vec<Mark>, files: &[usize], count: usize)
    ensures { IsClosedBy marks.old.items marks.new.items files.now count }
{
    for n in files {
        if *n < marks.len() {
            marks[*n] = Mark::Closed(count);
        }
    }
}

impl Search {
    /// A search that has found no file.
    fn new(alloc: Global, count: usize) -> Result<Search, AllocError>
        ensures marks { IfOk result (λ s. s.marks.items ≡ replicate count New) }
        ensures stack { IfOk result (λ s. s.stack.items ≡ []) }
        ensures path { IfOk result (λ s. s.path.items ≡ []) }
        ensures count { IfOk result (λ s. s.count ≡ 0) }
    {
        Ok(Search {
            marks: vec![in alloc; Mark::New; count]?,
            stack: Vec::new(alloc),
            path: Vec::new(alloc),
            count: 0,
        })
    }

    /// Opens a file that is found. Its loads are followed next.
    fn enter(&mut self, n: usize) -> Result<(), AllocError>
        requires { n < length self.old.marks.items }
        ensures { OnOk result (Enters self.old n self.new) }
    {
        let place = self.stack.len();
        self.stack.push(n)?;
        self.path.push(Frame {
            file: n,
            place,
            next: 0,
            low: place,
        })?;
        self.marks[n] = Mark::Open(place);
        Ok(())
    }

    /// Puts a frame back on the path, after one more of its loads.
    fn push(&mut self, frame: Frame, low: usize) -> Result<(), AllocError>
        requires { frame.next < 2 ^ 63 }
        ensures { OnOk result (Pushes self.old (went_on frame low) self.new) }
    {
        self.path.push(Frame {
            next: frame.next + 1,
            low,
            ..frame
        })?;
        Ok(())
    }

    /// Follows the next load of a frame.
    fn follow(&mut self, frame: Frame, to: usize) -> Result<(), AllocError>
        requires to { to < length self.old.marks.items }
        requires next { frame.next < 2 ^ 63 }
        ensures { OnOk result (Follows frame to self.old self.new) }
    {
        match self.marks[to] {
            Mark::New => {
                self.push(frame, frame.low)?;
                self.enter(to)
            }
            Mark::Open(place) => self.push(frame, frame.low.min(place)),
            Mark::Closed(_) => self.push(frame, frame.low),
        }
    }

    /// Makes the open files from a place on a component.
    fn close(&mut self, place: usize)
        requires count { self.old.count < length self.old.marks.items }
        requires place { place ≤ length self.old.stack.items }
        ensures { Closes self.old place self.new }
    {
        close_all(&mut self.marks, &self.stack[place..], self.count);
        self.stack.truncate(place);
        self.count += 1;
    }

    /// Ends a frame that reaches a lower place: the frame before it reaches that place, too.
    fn merge(&mut self, frame: Frame) -> Result<(), AllocError>
        ensures { OnOk result (Merges frame self.old self.new) }
    {
        match self.path.pop() {
            Some(before) => {
                self.path.push(Frame {
                    low: before.low.min(frame.low),
                    ..before
                })?;
                Ok(())
            }
            None => Ok(()),
        }
    }

    /// Ends a frame after its last load.
    fn leave(&mut self, frame: Frame) -> Result<(), AllocError>
        requires count { self.old.count < length self.old.marks.items }
        requires place { frame.place ≤ length self.old.stack.items }
        ensures { OnOk result ((row : Row) → IsSearchingAt row frame self.old
            → length (loaded_at row frame.file) ≤ frame.next → Goes row frame self.old self.new) }
    {
        if frame.low < frame.place {
            return self.merge(frame);
        }
        self.close(frame.place);
        Ok(())
    }

    /// One step with the last frame, which is off the path.
    fn step(&mut self, reads: &Reads, frame: Frame) -> Result<(), AllocError>
        requires search { IsSearchingAt reads.now.all.items frame self.old }
        requires loads { LeadWithin reads.now.all.items }
        ensures { OnOk result (Goes reads.now.all.items frame self.old self.new) }
    {
        match reads.loads(frame.file).get(frame.next) {
            Some(load) => self.follow(frame, load.file),
            None => self.leave(frame),
        }
    }

    /// Finds all files to which a new file leads, and their components.
    fn search_from(&mut self, reads: &Reads, n: usize) -> Result<(), AllocError>
        requires search { IsSearch reads.now.all.items self.old.marks.items [] [] self.old.count }
        requires stack { self.old.stack.items ≡ [] }
        requires path { self.old.path.items ≡ [] }
        requires new { mark_at self.old.marks.items n ≡ New }
        requires inside { n < length self.old.marks.items }
        requires loads { LeadWithin reads.now.all.items }
        ensures search { OnOk result (IsSearch reads.now.all.items self.new.marks.items [] [] self.new.count) }
        ensures stack { OnOk result (self.new.stack.items ≡ []) }
        ensures path { OnOk result (self.new.path.items ≡ []) }
        ensures stay { OnOk result (StayFound self.old.marks.items self.new.marks.items) }
        ensures found { OnOk result (mark_at self.new.marks.items n ≡ New → ⊥) }
    {
        self.enter(n)?;
        while let Some(frame) = self.path.pop() {
            self.step(reads, frame)?;
        }
        Ok(())
    }
}

impl Components {
    /// The components of the files that were read. The error: an allocation failed.
    pub(crate) fn of(alloc: Global, reads: &Reads) -> Result<Components, AllocError>
        requires { LeadWithin reads.now.all.items }
        ensures { IfOk result (λ c. AreComponents reads.now.all.items c.marks.items) }
    {
        let mut search = Search::new(alloc, reads.all.len())?;
        for n in 0..reads.all.len() {
            if search.marks[n] == Mark::New {
                search.search_from(reads, n)?;
            }
        }
        Ok(Components {
            marks: search.marks,
        })
    }

    /// Whether two files are in one component: each leads to the other.
    pub(crate) fn are_one(&self, n: usize, m: usize) -> bool
        ensures { (result ≡ true) ↔ AreOne self.now.marks.items n m }
    {
        match (self.marks.get(n), self.marks.get(m)) {
            (Some(Mark::Closed(k)), Some(Mark::Closed(l))) => *k == *l,
            _ => false,
        }
    }
}
