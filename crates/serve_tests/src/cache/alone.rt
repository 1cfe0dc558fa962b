//! Tests of the book alone, without a lock: rows of calls, each with its answer.

ghost use Rattle.std.specs.Prelude.{◌≡◌, ◌<◌, ◌≤◌, true, MatchOption};
ghost use Rattle.star_cache.specs.Ring.{ring};
ghost use Rattle.star_cache.specs.State.{Loads};

use super::kept::{Kept, ended};
use star_cache::{Book, BookError, ByDepth, Entry, Reply, no_cycle_is_good};
use star_checks::holds;
use std::alloc::Global;
use std::marker::{Brand, PhantomData};
use std::process::Abort;
use std::sync::ledger::Ledger;
use std::test::Fail;

/// A call of the book by a seat.
#[derive(Clone, Copy)]
enum Call {
    /// The seat asks, for a parent, for a file.
    Ask(usize, Option<usize>, usize),
    Wake(usize),
    /// A file ends with its product.
    Finish(usize, usize),
    Abandon(usize),
}

/// The answer of a call, with the number of a product and whether the product is good.
#[derive(Clone, Copy, PartialEq, Eq)]
enum Said {
    Begun,
    Wait,
    Cycle,
    Spoiled,
    Ready(usize, bool),
    Failed(usize, bool),
    Ended,
    CyclicLoad(BookError),
    GivenBack(BookError, usize, bool),
}

/// The reply to a seat.
fn said_of<L: Ledger>(reply: Result<Reply<Kept<L>>, BookError>) -> Said {
    match reply {
        Ok(Reply::Begun) => Said::Begun,
        Ok(Reply::Wait) => Said::Wait,
        Ok(Reply::Cycle) => Said::Cycle,
        Ok(Reply::Spoiled) => Said::Spoiled,
        Ok(Reply::Ready(kept)) => Said::Ready(kept.number, kept.good),
        Ok(Reply::Failed(kept)) => Said::Failed(kept.number, kept.good),
        Err(error) => Said::CyclicLoad(error),
    }
}

/// Whether a parent loads a file. Without a parent, whether there is such a file.
fn is_loaded(parent: Option<usize>, target: usize) -> bool
    ensures { result ≡ true → MatchOption parent (target < 64) (λ p. Loads ring p target) }
{
    match parent {
        Some(parent) => parent < 64 && (target == (parent + 1) % 64 || target == 0),
        None => target < 64,
    }
}

/// The answer of a call.
fn called<L: Ledger>(rt: &impl Abort, book: &mut Book<Kept<L>>, call: Call) -> Said {
    match call {
        Call::Ask(seat, parent, target) => {
            assert!(rt; is_loaded(parent, target));
            said_of(book.ask(seat, parent, target))
        }
        Call::Wake(seat) => said_of(book.wake(seat)),
        Call::Finish(seat, file) => match book.finish(seat, file, ended(file)) {
            Ok(()) => Said::Ended,
            Err((error, kept)) => Said::GivenBack(error, kept.number, kept.good),
        },
        Call::Abandon(seat) => match book.abandon(seat) {
            Ok(()) => Said::Ended,
            Err(error) => Said::CyclicLoad(error),
        },
    }
}

/// Asserts the answer of each call.
fn answers<L: Ledger>(rt: &impl Abort, book: &mut Book<Kept<L>>, rows: &[(Call, Said)]) {
    for (call, want) in rows {
        let said = called(rt, book, *call);
        holds!(rt; said == *want);
    }
}

/// A book of `seats` seats, each of which has begun the file of its number.
fn begun(rt: &impl Abort, alloc: Global, seats: usize) -> Result<Book<Kept<Brand>>, Fail>
    requires { (1 ≤ seats) × (seats ≤ 64) }
{
    let mut book: Book<Kept<Brand>> = Book::new(alloc, 64, seats)?;
    for seat in 0..seats {
        let call = Call::Ask(seat, None, seat);
        answers(rt, &mut book, &[(call, Said::Begun)]);
    }
    Ok(book)
}

#[test]
fn a_ring_of_three_is_refused_where_it_would_close(rt: HostRuntime) -> Result<(), Fail> {
    let mut book = begun(&rt, rt.alloc(), 3)?;
    let rows = [
        (Call::Ask(0, Some(0), 1), Said::Wait),
        (Call::Ask(1, Some(1), 2), Said::Wait),
        (Call::Ask(2, Some(2), 0), Said::Cycle),
        (Call::Finish(2, 2), Said::Ended),
        (Call::Wake(1), Said::Failed(2, false)),
        (Call::Wake(0), Said::Wait),
    ];
    answers(&rt, &mut book, &rows);
    Ok(())
}

/// Asserts which file a seat runs, and which it awaits.
fn is_at<L: Ledger>(
    rt: &impl Abort,
    book: &Book<Kept<L>>,
    seat: usize,
    top: Option<usize>,
    awaited: Option<usize>,
) {
    assert!(rt; seat < book.loaders());
    holds!(rt; book.top(seat) == top);
    holds!(rt; book.awaited(seat) == awaited);
}

/// Asserts that nobody has begun a file.
fn is_fresh<L: Ledger>(rt: &impl Abort, book: &Book<Kept<L>>, n: usize)
    requires { n < 64 }
{
    // (its contract says how many entries there are)
    let _loaders = book.loaders();
    holds!(rt; matches!(book.entry(n), Entry::Fresh));
}

#[test]
fn a_refused_call_changes_nothing(rt: HostRuntime) -> Result<(), Fail> {
    let mut book: Book<Kept<Brand>> = Book::new(rt.alloc(), 64, 2)?;
    let not_top = Said::GivenBack(BookError::NotTop, 1, false);
    let rows = [
        (Call::Ask(0, None, 0), Said::Begun),
        (Call::Finish(0, 1), not_top),
        (Call::Ask(1, None, 0), Said::Wait),
        (Call::Ask(1, None, 1), Said::CyclicLoad(BookError::Waiting)),
        (Call::Wake(0), Said::CyclicLoad(BookError::NotWaiting)),
        (Call::Wake(2), Said::CyclicLoad(BookError::NoSuch)),
    ];
    answers(&rt, &mut book, &rows);
    is_at(&rt, &book, 0, Some(0), None);
    is_at(&rt, &book, 1, None, Some(0));
    is_fresh(&rt, &book, 1);
    holds!(&rt; book.begun() == 1);
    Ok(())
}

/// Asserts how many files a seat has begun.
fn has_begun<L: Ledger>(rt: &impl Abort, book: &Book<Kept<L>>, seat: usize, want: u32) {
    assert!(rt; seat < book.loaders());
    holds!(rt; book.count(seat) == want);
}

#[test]
fn an_abandoned_file_stays_spoiled_and_counted(rt: HostRuntime) -> Result<(), Fail> {
    let mut book = begun(&rt, rt.alloc(), 2)?;
    let rows = [
        (Call::Ask(1, Some(1), 0), Said::Wait),
        (Call::Abandon(0), Said::Ended),
        (Call::Wake(1), Said::Spoiled),
        (Call::Ask(0, None, 0), Said::Spoiled),
    ];
    answers(&rt, &mut book, &rows);
    holds!(&rt; book.begun() == 2);
    holds!(&rt; book.loaders() == 2);
    has_begun(&rt, &book, 0, 1);
    has_begun(&rt, &book, 1, 1);
    Ok(())
}

#[test]
fn sixty_four_loaders_in_a_ring(rt: HostRuntime) -> Result<(), Fail> {
    let mut book = begun(&rt, rt.alloc(), 64)?;
    for seat in 0..63 {
        let call = Call::Ask(seat, Some(seat), seat + 1);
        answers(&rt, &mut book, &[(call, Said::Wait)]);
    }
    let rows = [
        (Call::Ask(63, Some(63), 0), Said::Cycle),
        (Call::Finish(63, 63), Said::Ended),
        (Call::Wake(62), Said::Ready(63, true)),
        (Call::Wake(61), Said::Wait),
    ];
    answers(&rt, &mut book, &rows);
    holds!(&rt; book.begun() == 64);
    Ok(())
}

/// Asserts that of the files 9 and 11 the first is done and good, and the second fresh.
fn ninth_is_done<L: Ledger>(rt: &impl Abort, book: Book<Kept<L>>) {
    let entries = book.into_entries();
    let is_good = match entries.get(9) {
        Some(Entry::Done(kept)) => kept.number == 9 && kept.good,
        _ => false,
    };
    holds!(rt; is_good, "the file 9 is done and good");
    holds!(rt; matches!(entries.get(11), Some(Entry::Fresh)));
}

#[test]
fn one_loader_runs_and_the_others_share(rt: HostRuntime) -> Result<(), Fail> {
    let mut book: Book<Kept<Brand>> = Book::new(rt.alloc(), 64, 64)?;
    let rows = [
        (Call::Ask(0, None, 9), Said::Begun),
        (Call::Ask(0, Some(9), 10), Said::Begun),
    ];
    answers(&rt, &mut book, &rows);
    for seat in 1..64 {
        answers(&rt, &mut book, &[(Call::Ask(seat, None, 9), Said::Wait)]);
    }
    let rows = [
        (Call::Finish(0, 10), Said::Ended),
        (Call::Finish(0, 9), Said::Ended),
    ];
    answers(&rt, &mut book, &rows);
    for seat in 1..64 {
        answers(&rt, &mut book, &[(Call::Wake(seat), Said::Ready(9, true))]);
    }
    holds!(&rt; book.begun() == 2);
    ninth_is_done(&rt, book);
    Ok(())
}

// A definition of good files that finds no file of the ring of tests good.
#[derive(Drop)]
struct Strict;

impl ByDepth for Strict {
    ghost use Rattle.star_cache.specs.Ring.{ring};

    ghost loads = { ring };

    ghost GoodAt = { λ d n. ⊥ };

    ghost never = { λ n good. good };

    ghost below = { λ d n m good load. good };
}

#[test]
fn the_law_of_cycles_speaks_of_any_files(_rt: HostRuntime) -> Result<(), Fail> {
    no_cycle_is_good::<Strict>(PhantomData);
    Ok(())
}
