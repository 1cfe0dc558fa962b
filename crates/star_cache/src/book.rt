//! The book: which loader runs which file, who waits for which file, and how each file ended. It has no lock.
//!
//! A stack has its top first, so "the top" and "all below it" are a list's head and tail. The number of entries begun
//! is kept, so `begun` takes constant time.

ghost use Rattle.std.specs.Prelude.{◌≡◌, ◌≢◌, ℕ, true, false, ◌<◌, ◌≤◌, ◌↔◌, All, length, vec_len, IfOk, MatchResult, MatchOption, IsTrue, Option, Some, None};
ghost use Rattle.star_cache.specs.Tells.{Tells, IsCyclic};

use crate::entry::{Entry, EntryState, state_of};
use crate::product::Product;
use crate::reply::{BookError, Reply};
use std::alloc::{AllocError, Global};
use std::marker::Model;

// The row of a loader: its top entry, the entry that it awaits, and how many it has begun.
#[derive(Clone, Copy)]
struct Loader {
    top: Option<usize>,
    awaited: Option<usize>,
    count: u32,
}

/// The state of the cache: which loader runs which file, who waits for which, and how each file ended.
///
/// Contracts see a book as a list of entries and a list of loaders, each with its stack of running entries (the top
/// first), the entry that it waits for and its count. Every book is lawful: the loaders that wait for one another form
/// no cycle, each running entry is once in one stack, and each product is right for its file. A call that is refused
/// changes nothing. Only `new` and the product's `share` take memory.
#[derive(Drop)]
pub struct Book<P: Product> {
    entries: Vec<Entry<P>>,
    // The entry below each entry that runs, in its loader's stack.
    parents: Vec<Option<usize>>,
    // The seat of each entry that runs.
    owners: Vec<usize>,
    loaders: Vec<Loader>,
    // How many entries are not fresh.
    begun: u32,
}

impl<P: Product> Model for Book<P> {
    ghost use Rattle.std.specs.Prelude.{◌≡◌};
    ghost use Rattle.star_cache.specs.State.{BookState, begun_count};
    ghost use Rattle.star_cache.specs.Rows.{book_state, IsKept};

    ghost Value = { BookState P };

    ghost view = { λ b. book_state b.entries.items b.parents.items b.loaders.items };

    ghost invariant = { λ b.
        IsKept P.loads P.IsReached P.IsRight P.files b.entries.items b.parents.items b.owners.items b.loaders.items
        × (b.begun ≡ begun_count (book_state b.entries.items b.parents.items b.loaders.items)) };
}

impl<P: Product> Book<P> {
    ghost use Rattle.star_cache.specs.State.{BookState, HasEnded, Loads, top_of, stack_of, entry_at, awaited_by, loader_at, begun_count};
    ghost use Rattle.star_cache.specs.Headline.{Headline};
    ghost use Rattle.star_cache.specs.Step.{IsBook, MayAsk, IsTurnRefused, IsStanding, IsUnshared, MeetsSeat, IsAwaited, IsWakeRefused, Asks, Wakes, Finishes, Abandons, after_begin, after_wait, after_wake, after_end, fresh_book};

    /// The book of `files` files, none of which has been asked for, and of 1 to 64 loaders that have done nothing.
    pub fn new(alloc: Global, files: usize, loaders: usize) -> Result<Self, AllocError>
        requires files { files ≡ P.files }
        requires few { files ≤ 10000 }
        requires loaders { (1 ≤ loaders) × (loaders ≤ 64) }
        ensures { IfOk result (λ b. b ≡ fresh_book files loaders) }
    {
        let mut entries = Vec::with_capacity(alloc, files)?;
        let mut parents = Vec::with_capacity(alloc, files)?;
        let mut owners = Vec::with_capacity(alloc, files)?;
        for _i in 0..files {
            entries.push(Entry::Fresh)?;
            parents.push(None)?;
            owners.push(0)?;
        }
        let mut rows = Vec::with_capacity(alloc, loaders)?;
        for _s in 0..loaders {
            rows.push(Loader {
                top: None,
                awaited: None,
                count: 0,
            })?;
        }
        Ok(Book {
            entries,
            parents,
            owners,
            loaders: rows,
            begun: 0,
        })
    }

    /// How many loaders there are. Their seats have the numbers below it.
    pub fn loaders(&self) -> usize
        ensures count { result ≡ length self.now.loaders }
        ensures headline { Headline P.IsReached P.IsRight self.now }
        ensures book { IsBook P.loads P.IsReached P.IsRight P.files self.now }
    {
        self.loaders.len()
    }

    // Whether the seat is there and free, with this parent on top.
    fn check_turn(&self, seat: usize, parent: Option<usize>) -> Result<(), BookError>
        ensures turn { MatchResult result (λ _. MayAsk self.now seat parent)
            (λ e. IsTurnRefused self.now seat parent e) }
        ensures book { IsBook P.loads P.IsReached P.IsRight P.files self.now }
    {
        if seat >= self.loaders.len() {
            return Err(BookError::NoSuch);
        }
        let loader = self.loaders[seat];
        if loader.awaited.is_some() {
            return Err(BookError::Waiting);
        }
        if loader.top != parent {
            return Err(BookError::NotTop);
        }
        Ok(())
    }

    // The state of the entry of a file.
    fn standing(&mut self, n: usize) -> Result<EntryState<P>, BookError>
        requires { n < length self.old.entries }
        ensures standing { MatchResult result (λ it. IsStanding P.is_good (entry_at self.old n) it)
            (λ e. IsUnshared P.always_shares (entry_at self.old n) e) }
        ensures same { self.new ≡ self.old }
    {
        state_of(&mut self.entries[n])
    }

    // Whether the loader that runs the target is the seat, or walks to it.
    fn meets(&self, target: usize, seat: usize) -> bool
        requires running { entry_at self.now target ≡ Entry.Running }
        ensures { IsTrue result ↔ MeetsSeat self.now target seat }
    {
        let mut at = target;
        // A walk has fewer links than there are loaders, since it returns to none.
        for _walked in 0..self.loaders.len() {
            let owner = self.owners[at];
            if owner == seat {
                return true;
            }
            match self.loaders[owner].awaited {
                None => return false,
                Some(next) => {
                    match &self.entries[next] {
                        Entry::Running => {}
                        _ => return false,
                    }
                    at = next;
                }
            }
        }
        unreachable!()
    }

    // The seat begins the target, which is fresh.
    fn begin(&mut self, seat: usize, target: usize)
        requires there { seat < length self.old.loaders }
        requires free { awaited_by self.old seat ≡ None }
        requires fresh { entry_at self.old target ≡ Entry.Fresh }
        requires known { target < length self.old.entries }
        requires reached { P.IsReached target }
        requires loaded { (x : ℕ) → top_of (stack_of self.old seat) ≡ Some x → Loads P.loads x target }
        ensures { self.new ≡ after_begin self.old seat target }
    {
        let loader = self.loaders[seat];
        self.entries[target] = Entry::Running;
        self.parents[target] = loader.top;
        self.owners[target] = seat;
        self.loaders[seat] = Loader {
            top: Some(target),
            awaited: loader.awaited,
            count: loader.count + 1,
        };
        self.begun += 1;
    }

    // The seat awaits the target, which runs elsewhere.
    fn wait_for(&mut self, seat: usize, target: usize)
        requires there { seat < length self.old.loaders }
        requires running { entry_at self.old target ≡ Entry.Running }
        requires away { MeetsSeat self.old target seat → ⊥ }
        requires loaded { (x : ℕ) → top_of (stack_of self.old seat) ≡ Some x → Loads P.loads x target }
        ensures { self.new ≡ after_wait self.old seat target }
    {
        let loader = self.loaders[seat];
        self.loaders[seat] = Loader {
            top: loader.top,
            awaited: Some(target),
            count: loader.count,
        };
    }

    /// The seat asks for a file: for the file on top of its stack, which loads it, or as a reached file of its own.
    ///
    /// A fresh file is begun, and stays on top of the seat's stack until `finish` or `abandon`. A file that has ended
    /// is answered with a share of its product. If the file is running, the links are followed: from its loader to the
    /// entry that this one waits for, to the loader that runs that entry, and so on. If they reach the seat, the load
    /// is a `Cycle`, else the seat waits for the file. The walk and the new link are one step, so nothing happens
    /// between them.
    ///
    /// Refused as `NoSuch`, `Waiting`, `NotTop` (`None` is for an empty stack) and `Memory`, the first that applies.
    pub fn ask(
        &mut self,
        seat: usize,
        parent: Option<usize>,
        target: usize,
    ) -> Result<Reply<P>, BookError>
        requires load { MatchOption parent (P.IsReached target) (λ p. Loads P.loads p target) }
        ensures step { Asks P.is_good P.always_shares self.old seat parent target result self.new }
        ensures tells { IfOk result (Tells P.IsRight P.IsGood (IsCyclic P.loads parent target)
            (awaited_by self.new seat ≡ Some target) target) }
        ensures alone { length self.old.loaders ≡ 1 → result ≢ Ok Reply.Wait }
    {
        self.check_turn(seat, parent)?;
        match self.standing(target)? {
            EntryState::Ended(reply) => Ok(reply),
            EntryState::Fresh => {
                self.begin(seat, target);
                Ok(Reply::Begun)
            }
            EntryState::Running => {
                if self.meets(target, seat) {
                    Ok(Reply::Cycle)
                } else {
                    self.wait_for(seat, target);
                    Ok(Reply::Wait)
                }
            }
        }
    }

    // The entry that the seat awaits.
    fn waiting(&self, seat: usize) -> Result<usize, BookError>
        ensures awaited { MatchResult result (λ e. IsAwaited self.now seat e)
            (λ e. IsWakeRefused P.always_shares self.now seat e) }
        ensures book { IsBook P.loads P.IsReached P.IsRight P.files self.now }
    {
        if seat >= self.loaders.len() {
            return Err(BookError::NoSuch);
        }
        let loader = self.loaders[seat];
        match loader.awaited {
            None => Err(BookError::NotWaiting),
            Some(e) => Ok(e),
        }
    }

    // The seat awaits nothing any more.
    fn stop_waiting(&mut self, seat: usize)
        requires there { seat < length self.old.loaders }
        ensures { self.new ≡ after_wake self.old seat }
    {
        let loader = self.loaders[seat];
        self.loaders[seat] = Loader {
            top: loader.top,
            awaited: None,
            count: loader.count,
        };
    }

    /// Asks again for the file that the seat awaits.
    ///
    /// The reply is `Wait` while the file runs, and the seat still awaits it. Else the reply is as of `ask`, and the
    /// seat awaits nothing. Refused as `NoSuch`, `NotWaiting` and `Memory`, the first that applies.
    pub fn wake(&mut self, seat: usize) -> Result<Reply<P>, BookError>
        ensures step { Wakes P.is_good P.always_shares self.old seat result self.new }
        ensures tells { (n : ℕ) → awaited_by self.old seat ≡ Some n
            → IfOk result (Tells P.IsRight P.IsGood ⊥ (self.new ≡ self.old) n) }
    {
        let awaited = self.waiting(seat)?;
        match self.standing(awaited)? {
            EntryState::Ended(reply) => {
                self.stop_waiting(seat);
                Ok(reply)
            }
            EntryState::Running => Ok(Reply::Wait),
            EntryState::Fresh => unreachable!(),
        }
    }

    // The entry on top of the seat's stack ends as this one.
    fn end_top(&mut self, seat: usize, n: usize, entry: Entry<P>)
        requires there { seat < length self.old.loaders }
        requires free { awaited_by self.old seat ≡ None }
        requires on_top { top_of (stack_of self.old seat) ≡ Some n }
        requires ended { (entry ≢ Entry.Fresh) × (entry ≢ Entry.Running)
            × ((p : P) → entry ≡ Entry.Done p → P.IsRight n p) }
        ensures { self.new ≡ after_end self.old seat n entry }
    {
        let loader = self.loaders[seat];
        let below = self.parents[n];
        self.entries[n] = entry;
        self.loaders[seat] = Loader {
            top: below,
            awaited: loader.awaited,
            count: loader.count,
        };
    }

    /// The file on top of the seat's stack has ended with this product, which is right for it.
    ///
    /// Refused as `NoSuch`, `Waiting` and `NotTop`, the first that applies. Then the product comes back.
    pub fn finish(&mut self, seat: usize, n: usize, product: P) -> Result<(), (BookError, P)>
        requires right { P.IsRight n product }
        ensures step { Finishes self.old seat n product result self.new }
    {
        if let Err(error) = self.check_turn(seat, Some(n)) {
            return Err((error, product));
        }
        self.end_top(seat, n, Entry::Done(product));
        Ok(())
    }

    /// Gives up a seat's whole stack, and its wait: each entry of the stack is spoiled, and stays counted.
    ///
    /// Refused as `NoSuch`.
    pub fn abandon(&mut self, seat: usize) -> Result<(), BookError>
        ensures step { Abandons self.old seat result self.new }
    {
        if seat >= self.loaders() {
            return Err(BookError::NoSuch);
        }
        self.stop_waiting(seat);
        while let Some(top) = self.top(seat) {
            self.end_top(seat, top, Entry::Spoiled);
        }
        Ok(())
    }

    /// How many entries have been begun.
    pub fn begun(&self) -> u32
        ensures count { result ≡ begun_count self.now }
        ensures headline { Headline P.IsReached P.IsRight self.now }
    {
        self.begun
    }

    /// The entry of a file.
    pub fn entry(&self, n: usize) -> &Entry<P>
        requires { n < length self.now.entries }
        ensures { result.now ≡ entry_at self.now n }
    {
        &self.entries[n]
    }

    /// The entry on top of a seat's stack.
    pub fn top(&self, seat: usize) -> Option<usize>
        requires { seat < length self.now.loaders }
        ensures { result ≡ top_of (stack_of self.now seat) }
    {
        self.loaders[seat].top
    }

    /// The entry that a seat awaits.
    pub fn awaited(&self, seat: usize) -> Option<usize>
        requires { seat < length self.now.loaders }
        ensures { result ≡ awaited_by self.now seat }
    {
        self.loaders[seat].awaited
    }

    /// How many entries a seat has begun.
    pub fn count(&self, seat: usize) -> u32
        requires { seat < length self.now.loaders }
        ensures { result ≡ (loader_at self.now seat).count }
    {
        self.loaders[seat].count
    }

    // Whether a file has ended with a product.
    fn has_ended(&self, n: usize) -> bool
        ensures { IsTrue result ↔ HasEnded self.now n }
    {
        match self.entries.get(n) {
            Some(Entry::Done(_)) => true,
            _ => false,
        }
    }

    /// Whether each of these files has ended with a product.
    pub fn have_ended(&self, files: &[usize]) -> bool
        ensures yes { result ≡ true → All (HasEnded self.now) files.now }
        ensures no { result ≡ false → All (HasEnded self.now) files.now → ⊥ }
    {
        for n in files {
            if !self.has_ended(*n) {
                return false;
            }
        }
        true
    }

    /// The entries, by the numbers of their files. Each product in them is right for its file, and no file was begun
    /// that is not reached.
    pub fn into_entries(self) -> Vec<Entry<P>>
        ensures entries { result.items ≡ self.entries }
        ensures size { vec_len result ≡ P.files }
        ensures reached { (n : ℕ) → entry_at self n ≢ Entry.Fresh → P.IsReached n }
        ensures right { (n : ℕ) (p : P) → entry_at self n ≡ Entry.Done p → P.IsRight n p }
    {
        self.entries
    }
}
