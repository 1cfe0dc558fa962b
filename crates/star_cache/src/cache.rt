//! The cache: the book under its lock, with the ledger of how many files the seats have begun.
//!
//! All work under the lock is a method of `State` with a full contract. `LoadCache` only locks, calls and notifies. A
//! waiting thread loops over `wait` and not `wait_while`, since the answer must come from the hold of the lock that
//! tested it.
//!
//! The ledger's total is tied to the sum of the loaders' counts. Only the book's own law ties it to the entries begun:
//! each step changes the sum at one loader, and none counts entries. "All seats" means as many as there are loaders,
//! with each number among them. Their shares are merged into an empty one, so `close` needs no first seat.

ghost use Rattle.std.specs.Prelude.{◌≡◌, ◌≢◌, ◌+◌, ◌-◌, ◌<◌, ◌≤◌, ◌↔◌, ◌⊎◌, true, false, All, length, sum_by, vec_len, IfOk, IfErr, IsTrue, MatchOption, MatchResult, Option, Some};
ghost use Rattle.std.specs.List.{Any};
ghost use Rattle.star_cache.specs.State.{HasEnded, LoaderState, Loads, awaited_by};
ghost use Rattle.star_cache.specs.Step.{Abandons, Finishes, WakesFor};
ghost use Rattle.star_cache.specs.Tells.{Tells, IsCyclic, begins};
ghost use Rattle.star_cache.specs.Seats.{AreAll, AreNew, ClosesAll, IsClosing, SeatAsks, counts_of};
ghost use Rattle.star_cache.specs.Headline.{Headline};

use crate::book::Book;
use crate::product::Product;
use crate::reply::{BookError, Reply};
use crate::seat::Seat;
use std::alloc::{AllocError, Global};
use std::marker::Model;
use std::sync::ledger::{Blank, Book as Ledger, Share};
use std::sync::{Condvar, Mutex, Wait};

// The state under the lock: the book, and the ledger of how many files the seats have begun.
#[derive(Drop)]
struct State<P: Product> {
    book: Book<P>,
    ledger: Ledger<P::Name>,
    // The share that no seat has. It has no part and no amount. The seats' shares are merged into it at the end.
    rest: Share<P::Name>,
}

impl<P: Product> Model for State<P> {
    ghost use Rattle.std.specs.Prelude.{◌≡◌, length, sum_by};
    ghost use Rattle.star_cache.specs.State.{BookState, LoaderState};

    ghost Value = { BookState P };

    ghost view = { λ s. s.book };

    ghost invariant = { λ s. (s.ledger.total ≡ sum_by (λ (l : LoaderState). l.count) s.book.loaders) × (length s.book.loaders ≡ P.seats) × (s.rest.parts ≡ 0) × (s.rest.amount ≡ 0) };
}

impl<P: Product> State<P> {
    // How many loaders there are.
    fn loaders(&self) -> usize
        ensures { result ≡ P.seats }
    {
        self.book.loaders()
    }

    // The book's `ask`; if the target is begun, the seat's share goes up by one.
    fn ask(
        &mut self,
        seat: &mut Seat<P>,
        parent: Option<usize>,
        target: usize,
    ) -> Result<Reply<P>, BookError>
        requires load { MatchOption parent (P.IsReached target) (λ p. Loads P.loads p target) }
        ensures step { SeatAsks P.is_good P.always_shares self.old seat.old parent target result self.new seat.new }
        ensures tells { IfOk result (Tells P.IsRight P.IsGood (IsCyclic P.loads parent target)
            (awaited_by self.new seat.old.number ≡ Some target) target) }
        ensures begun { IfOk result (λ reply. seat.new.begun ≡ seat.old.begun + begins reply) }
        ensures number { seat.new.number ≡ seat.old.number }
    {
        let reply = self.book.ask(seat.number, parent, target)?;
        if let Reply::Begun = &reply {
            self.ledger.add(&mut seat.begun, 1);
        }
        Ok(reply)
    }

    // The book's `wake`, for a seat that awaits this target.
    fn wake(&mut self, seat: &Seat<P>, target: usize) -> Result<Reply<P>, BookError>
        ensures step { WakesFor P.is_good P.always_shares self.old seat.now.number target result self.new }
        ensures refused { IfErr result (λ error. (error ≡ BookError.NoSuch) ⊎ (error ≡ BookError.NotWaiting)
            ⊎ (error ≡ BookError.Memory)) }
        ensures awaits { result ≡ Err BookError.NotWaiting → awaited_by self.old seat.now.number ≢ Some target }
        ensures tells { IfOk result (Tells P.IsRight P.IsGood ⊥ (self.new ≡ self.old) target) }
    {
        if seat.number >= self.book.loaders() {
            return Err(BookError::NoSuch);
        }
        if self.book.awaited(seat.number) != Some(target) {
            return Err(BookError::NotWaiting);
        }
        self.book.wake(seat.number)
    }

    // The book's `finish`.
    fn finish(&mut self, seat: &Seat<P>, n: usize, product: P) -> Result<(), (BookError, P)>
        requires right { P.IsRight n product }
        ensures step { Finishes self.old seat.now.number n product result self.new }
    {
        self.book.finish(seat.number, n, product)
    }

    // The book's `abandon`.
    fn abandon(&mut self, seat: &Seat<P>) -> Result<(), BookError>
        ensures step { Abandons self.old seat.now.number result self.new }
    {
        self.book.abandon(seat.number)
    }

    // The book's `have_ended`.
    fn have_ended(&self, files: &[usize]) -> bool
        ensures yes { result ≡ true → All (HasEnded self.now) files.now }
        ensures no { result ≡ false → All (HasEnded self.now) files.now → ⊥ }
    {
        self.book.have_ended(files)
    }

    // The book and its counts, once all seats have come back.
    fn closed(self, seats: Vec<Seat<P>>) -> (Book<P>, [u32; 64])
        requires { vec_len seats ≡ P.seats }
        ensures book { result.0 ≡ self }
        ensures closing { IsClosing seats.items result.0 result.1 }
        ensures headline { Headline P.IsReached P.IsRight result.0 }
    {
        let State {
            book,
            mut ledger,
            rest,
        } = self;
        let mut all = merged(rest, seats);
        ledger.audit(&mut all);
        let counts = counts(&book);
        (book, counts)
    }
}

// Whether one of the seats has the number.
fn has<P: Product>(seats: &[Seat<P>], number: usize) -> bool
    ensures { IsTrue result ↔ Any (λ s. s.number ≡ number) seats.now }
{
    seats.iter().any(|s| s.number == number)
}

// Whether these are all the seats of a cache.
fn are_all<P: Product>(seats: &[Seat<P>], loaders: usize) -> bool
    ensures { IsTrue result ↔ AreAll loaders seats.now }
{
    if seats.len() != loaders {
        return false;
    }
    for number in 0..loaders {
        if !has(seats, number) {
            return false;
        }
    }
    true
}

// The seats' shares, merged into one that has none.
fn merged<P: Product>(mut all: Share<P::Name>, seats: Vec<Seat<P>>) -> Share<P::Name>
    requires parts { all.parts ≡ 0 }
    requires amount { all.amount ≡ 0 }
    ensures parts { result.parts ≡ vec_len seats }
    ensures amount { result.amount ≡ sum_by (λ s. s.begun) seats.items }
{
    for seat in seats {
        let Seat { number: _, begun } = seat;
        all.merge(begun);
    }
    all
}

// The loaders' counts in the order of their seats, and 0 after the last.
fn counts<P: Product>(book: &Book<P>) -> [u32; 64]
    ensures counts { result ≡ counts_of book.now }
    ensures headline { Headline P.IsReached P.IsRight book.now }
{
    let mut counts = [0; 64];
    for seat in 0..book.loaders() {
        counts[seat] = book.count(seat);
    }
    counts
}

/// The book under its lock, for many threads at once, each with a seat of its own.
///
/// A call holds the lock for one step of the book and no longer. No guard is handed out. Nothing that is learnt in one
/// call is known of the book at the next, but an answer about a file stays true: a file has one outcome.
#[derive(Drop)]
pub struct LoadCache<P: Product> {
    state: Mutex<State<P>>,
    // Notified whenever an entry has ended.
    changed: Condvar,
}

impl<P: Product> LoadCache<P> {
    /// A cache of `files` files, none of which has been asked for, and its seats, numbered in order.
    pub fn new(
        alloc: Global,
        blank: Blank,
        files: usize,
        loaders: usize,
    ) -> Result<(LoadCache<P>, Vec<Seat<P>>), AllocError>
        requires name { blank.name ≡ P.Name.name }
        requires parts { blank.parts ≡ loaders }
        requires files { files ≡ P.files }
        requires few { files ≤ 10000 }
        requires loaders { (loaders ≡ P.seats) × (1 ≤ loaders) × (loaders ≤ 64) }
        ensures { IfOk result (λ made. AreNew loaders made.1.items) }
    {
        let book = Book::new(alloc, files, loaders)?;
        let (ledger, mut rest) = blank.open::<P::Name>();
        let mut seats = Vec::new(alloc);
        for number in 0..loaders {
            let begun = rest.split_off(1, 0);
            seats.push(Seat { number, begun })?;
        }
        let state = Mutex::new(State { book, ledger, rest });
        let changed = Condvar::new();
        Ok((LoadCache { state, changed }, seats))
    }

    /// The seat asks for a file as with `Book::ask`, and waits until the reply is not `Wait`.
    ///
    /// Refused as the book refuses it; `NotWaiting` also if the book does not have the seat awaiting the target after a
    /// wait. If it is refused memory after a wait the seat still awaits the file, and only `abandon` frees it.
    pub fn ask<R: Wait>(
        &self,
        rt: &R,
        seat: &mut Seat<P>,
        parent: Option<usize>,
        target: usize,
    ) -> Result<Reply<P>, BookError>
        requires load { MatchOption parent (P.IsReached target) (λ p. Loads P.loads p target) }
        ensures tells { IfOk result (Tells P.IsRight P.IsGood (IsCyclic P.loads parent target) ⊥ target) }
        ensures begun { IfOk result (λ reply. seat.new.begun ≡ seat.old.begun + begins reply) }
        ensures refused { IfErr result (λ error. (P.always_shares ≡ true → error ≢ BookError.Memory)
            × (seat.new ≡ seat.old)) }
        ensures number { seat.new.number ≡ seat.old.number }
    {
        let mut state = self.state.lock(rt);
        let first = state.ask(seat, parent, target)?;
        let Reply::Wait = first else {
            return Ok(first);
        };
        for _ in rt.forever() {
            state = self.changed.wait(rt, state);
            let reply = state.wake(seat, target)?;
            let Reply::Wait = reply else {
                return Ok(reply);
            };
        }
        unreachable!()
    }

    /// The file on top of the seat's stack has ended with this product, which is right for it. All that wait are woken.
    ///
    /// Refused as the book refuses it. Then the product comes back.
    pub fn finish<R: Wait>(
        &self,
        rt: &R,
        seat: &mut Seat<P>,
        n: usize,
        product: P,
    ) -> Result<(), (BookError, P)>
        requires right { P.IsRight n product }
        ensures refused { IfErr result (λ back. back.1 ≡ product) }
        ensures seat { seat.new ≡ seat.old }
    {
        let done = self.state.lock(rt).finish(seat, n, product);
        self.changed.notify_all();
        done
    }

    /// Gives up the seat's whole stack, and its wait. All that wait are woken.
    ///
    /// Refused as the book refuses it.
    pub fn abandon<R: Wait>(&self, rt: &R, seat: &mut Seat<P>) -> Result<(), BookError>
        ensures { seat.new ≡ seat.old }
    {
        let done = self.state.lock(rt).abandon(seat);
        self.changed.notify_all();
        done
    }

    /// Takes the seats back, and answers the book with the loaders' counts in the order of their seats, 0 after the
    /// last.
    ///
    /// Refused if these are not all the cache's seats. Then everything comes back.
    pub fn close(
        mut self,
        seats: Vec<Seat<P>>,
    ) -> Result<(Book<P>, [u32; 64]), (LoadCache<P>, Vec<Seat<P>>)>
        ensures closing { MatchResult result
            (λ closed. ClosesAll P.seats seats.items closed.0 closed.1)
            (λ back. (AreAll P.seats seats.items → ⊥) × (back.1 ≡ seats)) }
        ensures headline { IfOk result (λ closed. Headline P.IsReached P.IsRight closed.0) }
    {
        let loaders = self.state.get_mut().loaders();
        if !are_all(&seats, loaders) {
            return Err((self, seats));
        }
        let LoadCache { state, changed: _ } = self;
        Ok(state.into_inner().closed(seats))
    }

    /// Closes as `close` does, with all the cache's seats, if each of these files has ended with a product.
    ///
    /// Refused if one of them has not. Then everything comes back.
    pub fn close_ended(
        self,
        seats: Vec<Seat<P>>,
        files: &[usize],
    ) -> Result<(Book<P>, [u32; 64]), (LoadCache<P>, Vec<Seat<P>>)>
        requires all { AreAll P.seats seats.items }
        ensures closing { IfOk result (λ closed. IsClosing seats.items closed.0 closed.1) }
        ensures headline { IfOk result (λ closed. Headline P.IsReached P.IsRight closed.0) }
        ensures ended { IfOk result (λ closed. All (HasEnded closed.0) files.now) }
        ensures back { IfErr result (λ back. back.1 ≡ seats) }
    {
        let LoadCache { state, changed } = self;
        let state = state.into_inner();
        if !state.have_ended(files) {
            let state = Mutex::new(state);
            return Err((LoadCache { state, changed }, seats));
        }
        Ok(state.closed(seats))
    }
}
