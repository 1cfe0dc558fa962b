//! Tests of the cache under its lock, with threads.

ghost use Rattle.std.specs.Prelude.{◌≡◌, ◌<◌, ◌≤◌, MatchOption};
ghost use Rattle.star_cache.specs.Ring.{ring};
ghost use Rattle.star_cache.specs.State.{Loads};

use super::kept::{Kept, ended, next};
use star_cache::{Book, BookError, Entry, LoadCache, Reply, Seat};
use star_checks::holds;
use std::alloc::{AllocError, Global};
use std::marker::Brand;
use std::process::Abort;
use std::sync::Wait;
use std::sync::atomic::{AtomicU64, Ordering};
use std::sync::ledger::{Blank, Ledger};
use std::test::Fail;
use std::thread;
use std::thread::Threads;

// One loader loads a file, and all that it loads in the ring.
fn load<L: Ledger, R: Wait>(
    rt: &R,
    cache: &LoadCache<Kept<L>>,
    seat: &mut Seat<Kept<L>>,
    parent: Option<usize>,
    target: usize,
    size: usize,
    budget: usize,
) -> Result<(), BookError>
    requires sizes { (target < size) × (size ≤ 64) }
    requires load { MatchOption parent (target < 64) (λ p. Loads ring p target) }
{
    match cache.ask(rt, seat, parent, target)? {
        Reply::Begun => {
            if budget > 0 {
                let onward = next(target, size);
                load(rt, cache, seat, Some(target), onward, size, budget - 1)?;
            }
            if let Err((error, _)) = cache.finish(rt, seat, target, ended(target)) {
                return Err(error);
            }
            Ok(())
        }
        // nobody gives a file up here, so this reply would be false
        Reply::Spoiled => Err(BookError::NotWaiting),
        _ => Ok(()),
    }
}

// The work of a loader with its seat.
fn work<L: Ledger, R: Wait>(
    rt: &R,
    cache: &LoadCache<Kept<L>>,
    seat: Seat<Kept<L>>,
    size: usize,
) -> Seat<Kept<L>>
    requires { (1 ≤ size) × (size ≤ 64) }
{
    let mut seat = seat;
    let first = seat.number() % size;
    if load(rt, cache, &mut seat, None, first, size, 64).is_err() {
        let _ = cache.abandon(rt, &mut seat);
    }
    seat
}

// Whether each file of a ring was begun once, and is done and not good.
fn all_done<L: Ledger>(closed: (Book<Kept<L>>, [u32; 64]), size: usize) -> bool {
    let (book, counts) = closed;
    let counted = counts
        .iter()
        .fold(0u32, |sum, &count| sum.saturating_add(count));
    let begun = book.begun();
    let entries = book.into_entries();
    let done = entries
        .iter()
        .filter(|entry| matches!(entry, Entry::Done(Kept { good: false, .. })))
        .count();
    counted == begun && begun as usize == size && done == size
}

// Whether several loaders that go round a ring of files at once end with each file of it begun once, done and not good.
fn ring_ends<L: Ledger + Send + Sync, R: Threads + Wait + Sync>(
    rt: &R,
    alloc: Global,
    blank: Blank,
    loaders: usize,
    size: usize,
) -> Result<bool, AllocError>
    requires name { blank.name ≡ L.name }
    requires parts { (blank.parts ≡ L.parts) × (blank.parts ≡ loaders) }
    requires loaders { (1 ≤ loaders) × (loaders ≤ 64) }
    requires size { (1 ≤ size) × (size ≤ 64) }
{
    let (cache, seats) = LoadCache::<Kept<L>>::new(alloc, blank, 64, loaders)?;
    let back = thread::map_vec(
        rt,
        seats,
        &|seat: Seat<Kept<L>>| -> Seat<Kept<L>>
            requires { (1 ≤ size) × (size ≤ 64) }
        { work(rt, &cache, seat, size) },
    )?;
    match cache.close(back) {
        Ok(closed) => Ok(all_done(closed, size)),
        Err(_) => Ok(false),
    }
}

// Makes the ledger of a cache with `loaders` loaders.
fn ring<R: Threads + Wait + Sync>(
    rt: &R,
    alloc: Global,
    loaders: usize,
    size: usize,
) -> Result<bool, AllocError>
    requires loaders { (1 ≤ loaders) × (loaders ≤ 64) }
    requires size { (1 ≤ size) × (size ≤ 64) }
{
    ring_ends::<Brand, R>(rt, alloc, Blank::new(loaders as u64), loaders, size)
}

// Several loaders end a ring, as often as is asked for.
fn rings_end<R: Abort + Threads + Wait + Sync>(
    rt: &R,
    alloc: Global,
    times: u32,
    loaders: usize,
    size: usize,
) -> Result<(), Fail>
    requires loaders { (1 ≤ loaders) × (loaders ≤ 64) }
    requires size { (1 ≤ size) × (size ≤ 64) }
{
    for _ in 0..times {
        let ends = ring(rt, alloc, loaders, size)?;
        holds!(rt; ends);
    }
    Ok(())
}

#[test]
fn three_loaders_end_a_ring_of_four(rt: HostRuntime) -> Result<(), Fail> {
    rings_end(&rt, rt.alloc(), 200, 3, 4)
}

#[test]
fn two_loaders_end_two_files_that_load_each_other(rt: HostRuntime) -> Result<(), Fail> {
    rings_end(&rt, rt.alloc(), 2000, 2, 2)
}

// One loader asks for a file. Who begins it runs it for a while.
fn ask_for_one<L: Ledger, R: Wait>(
    rt: &R,
    cache: &LoadCache<Kept<L>>,
    seat: Seat<Kept<L>>,
    ready: &AtomicU64,
) -> Seat<Kept<L>> {
    let mut seat = seat;
    match cache.ask(rt, &mut seat, None, 9) {
        Ok(Reply::Begun) => {
            for _ in 0..1000u32 {
                thread::yield_now();
            }
            let _ = cache.finish(rt, &mut seat, 9, ended(9));
        }
        Ok(
            Reply::Ready(
                Kept {
                    number: 9,
                    good: true,
                    ..
                },
            ),
        ) => {
            ready.fetch_add(1, Ordering::SeqCst);
        }
        _ => {}
    }
    seat
}

// How many entries were begun and how many loaders got the product, when all loaders ask for one file.
fn shared_by<L: Ledger + Send + Sync, R: Threads + Wait + Sync>(
    rt: &R,
    alloc: Global,
    blank: Blank,
    loaders: usize,
) -> Result<Option<(u32, u64)>, AllocError>
    requires name { blank.name ≡ L.name }
    requires parts { (blank.parts ≡ L.parts) × (blank.parts ≡ loaders) }
    requires loaders { (1 ≤ loaders) × (loaders ≤ 64) }
{
    let ready = AtomicU64::new(0);
    let (cache, seats) = LoadCache::<Kept<L>>::new(alloc, blank, 64, loaders)?;
    let back = thread::map_vec(
        rt,
        seats,
        &|seat: Seat<Kept<L>>| -> Seat<Kept<L>> { ask_for_one(rt, &cache, seat, &ready) },
    )?;
    match cache.close(back) {
        Ok((book, _)) => Ok(Some((book.begun(), ready.load(Ordering::SeqCst)))),
        Err(_) => Ok(None),
    }
}

fn shared<R: Threads + Wait + Sync>(
    rt: &R,
    alloc: Global,
    loaders: usize,
) -> Result<Option<(u32, u64)>, AllocError>
    requires loaders { (1 ≤ loaders) × (loaders ≤ 64) }
{
    shared_by::<Brand, R>(rt, alloc, Blank::new(loaders as u64), loaders)
}

#[test]
fn sixty_four_loaders_share_one_entry(rt: HostRuntime) -> Result<(), Fail> {
    let shared = shared(&rt, rt.alloc(), 64)?;
    holds!(&rt; shared == Some((1, 63)));
    Ok(())
}

const TURNS: u32 = 10_000_000;

// Waits for a while until the other loader has come to this stage.
fn meet(stage: &AtomicU64, wanted: u64) {
    for _ in 0..TURNS {
        if stage.load(Ordering::SeqCst) >= wanted {
            return;
        }
        thread::yield_now();
    }
}

// Seat 0 begins file 9, and gives it up.
fn give_up<L: Ledger, R: Wait>(
    rt: &R,
    cache: &LoadCache<Kept<L>>,
    seat: &mut Seat<Kept<L>>,
    stage: &AtomicU64,
) {
    let begun = cache.ask(rt, seat, None, 9);
    stage.store(1, Ordering::SeqCst);
    meet(stage, 2);
    for _ in 0..1000u32 {
        thread::yield_now();
    }
    if matches!(begun, Ok(Reply::Begun)) {
        let _ = cache.abandon(rt, seat);
    }
}

// Seat 1 begins file 8, which loads file 9, waits for file 9, and gives up when the reply is that file 9 was given up.
fn be_told<L: Ledger, R: Wait>(
    rt: &R,
    cache: &LoadCache<Kept<L>>,
    seat: &mut Seat<Kept<L>>,
    stage: &AtomicU64,
    spoiled: &AtomicU64,
) {
    meet(stage, 1);
    let begun = cache.ask(rt, seat, None, 8);
    stage.store(2, Ordering::SeqCst);
    if !matches!(begun, Ok(Reply::Begun)) {
        return;
    }
    if matches!(cache.ask(rt, seat, Some(8), 9), Ok(Reply::Spoiled)) {
        spoiled.fetch_add(1, Ordering::SeqCst);
        let _ = cache.abandon(rt, seat);
    }
}

// The work of each of two loaders.
fn give_up_or_wait<L: Ledger, R: Wait>(
    rt: &R,
    cache: &LoadCache<Kept<L>>,
    seat: Seat<Kept<L>>,
    stage: &AtomicU64,
    spoiled: &AtomicU64,
) -> Seat<Kept<L>> {
    let mut seat = seat;
    if seat.number() == 0 {
        give_up(rt, cache, &mut seat, stage);
    } else {
        be_told(rt, cache, &mut seat, stage, spoiled);
    }
    seat
}

// Whether both files are spoiled, and each of two loaders has begun one.
fn both_spoiled<L: Ledger>(closed: (Book<Kept<L>>, [u32; 64])) -> bool {
    let (book, counts) = closed;
    let entries = book.into_entries();
    let first = matches!(entries.get(8), Some(Entry::Spoiled));
    let second = matches!(entries.get(9), Some(Entry::Spoiled));
    first && second && (counts[0], counts[1], counts[2]) == (1, 1, 0)
}

// Whether a loader that waits gets the reply that its file was given up.
fn spoils<L: Ledger + Send + Sync, R: Threads + Wait + Sync>(
    rt: &R,
    alloc: Global,
    blank: Blank,
) -> Result<bool, AllocError>
    requires name { blank.name ≡ L.name }
    requires parts { (blank.parts ≡ L.parts) × (blank.parts ≡ 2) }
{
    let stage = AtomicU64::new(0);
    let spoiled = AtomicU64::new(0);
    let (cache, seats) = LoadCache::<Kept<L>>::new(alloc, blank, 64, 2)?;
    let back = thread::map_vec(
        rt,
        seats,
        &|seat: Seat<Kept<L>>| -> Seat<Kept<L>> {
            give_up_or_wait(rt, &cache, seat, &stage, &spoiled)
        },
    )?;
    let told = spoiled.load(Ordering::SeqCst) == 1;
    match cache.close(back) {
        Ok(closed) => Ok(told && both_spoiled(closed)),
        Err(_) => Ok(false),
    }
}

fn spoiled_for_the_waiter<R: Threads + Wait + Sync>(
    rt: &R,
    alloc: Global,
) -> Result<bool, AllocError> {
    spoils::<Brand, R>(rt, alloc, Blank::new(2))
}

#[test]
fn a_waiter_is_told_of_what_was_given_up(rt: HostRuntime) -> Result<(), Fail> {
    for _ in 0..20u32 {
        let spoiled = spoiled_for_the_waiter(&rt, rt.alloc())?;
        holds!(&rt; spoiled);
    }
    Ok(())
}

// Whether a cache that is closed with a seat missing comes back, and then closes with all of them.
fn closes_late<L: Ledger>(alloc: Global, blank: Blank) -> Result<bool, AllocError>
    requires name { blank.name ≡ L.name }
    requires parts { (blank.parts ≡ L.parts) × (blank.parts ≡ 3) }
{
    let (cache, mut seats) = LoadCache::<Kept<L>>::new(alloc, blank, 64, 3)?;
    let Some(last) = seats.pop() else {
        return Ok(false);
    };
    match cache.close(seats) {
        Ok(_) => Ok(false),
        Err(back) => {
            let (cache, mut seats) = back;
            seats.push(last)?;
            Ok(cache.close(seats).is_ok())
        }
    }
}

fn closed_late(alloc: Global) -> Result<bool, AllocError> {
    closes_late::<Brand>(alloc, Blank::new(3))
}

#[test]
fn a_cache_with_a_seat_missing_stays_open(rt: HostRuntime) -> Result<(), Fail> {
    let closes = closed_late(rt.alloc())?;
    holds!(&rt; closes);
    Ok(())
}
