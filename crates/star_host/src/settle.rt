//! The modules of all reached files, once the loaders have ended.

ghost use Rattle.std.specs.Prelude.{◌≡◌, ◌≢◌, ◌+◌, ◌<◌, ℕ, Contains, IfOk, IsSome, OnOk, cond, length, map, sum, vec_len};
ghost use Rattle.star_cache.specs.Seats.{AreAll, counts_of};
ghost use Rattle.star_cache.specs.State.{HasEnded, begun_count, is_begun};
ghost use Rattle.star_host.specs.Worlds.{IsContext};
ghost use Rattle.star_outcome.specs.Fits.{IsWithin};
ghost use Rattle.star_outcome.specs.Kept.{AllKept, AreModules, AreModulesBelow};
ghost use Rattle.star_outcome.specs.Views.{IsTold, ToldView};
ghost use Rattle.star_plan.specs.Reached.{IsReached};
ghost use Rattle.star_reading.specs.Readings.{read_at};

use crate::common::LoadContext;
use crate::gate::Gate;
use crate::loading::{LoadError, load};
use crate::running::RunError;
use crate::table::is_read;
use star_cache::{Book, Entry, LoadCache, Seat};
use star_outcome::outcome::Kept;
use star_outcome::run_id::RunId;
use star_outcome::told::Told;
use star_outcome::trace::Trace;
use star_reading::reading::Read;
use std::alloc::{AllocError, Global};
use std::sync::Wait;

/// The numbers of the files that were read. They are the reached files.
pub fn reached(alloc: Global, reads: &[Option<Read>]) -> Result<Vec<usize>, AllocError>
    ensures { IfOk result (λ v. (n : ℕ) → IsSome (read_at reads.now n) → Contains v.items n) }
{
    let mut numbers = Vec::new(alloc);
    for n in 0..reads.len() {
        if !is_read(reads, n) {
            continue;
        }
        numbers.push(n)?;
    }
    Ok(numbers)
}

/// Asks for a file, if it is reached.
pub(crate) fn settle_one<'s, 'r, 'p, 't, J: RunId, R: Wait, G: Gate>(
    rt: &R,
    common: &LoadContext<'s, 'r, 'p, 't>,
    gate: &G,
    cache: &LoadCache<Told<J>>,
    seat: &mut Seat<Told<J>>,
    n: usize,
    trace: &Trace<J>,
) -> Result<(), LoadError>
    requires world { IsContext J.files J.plan J.shelf common.now }
    requires within { IsWithin J.files J.plan }
    ensures number { seat.new.number ≡ seat.old.number }
{
    if !is_read(common.reads, n) {
        return Ok(());
    }
    let _told = load(rt, common, gate, cache, seat, n, trace)?;
    Ok(())
}

/// Asks for each reached file once more, in order.
fn settle<'s, 'r, 'p, 't, J: RunId, R: Wait, G: Gate>(
    rt: &R,
    common: &LoadContext<'s, 'r, 'p, 't>,
    gate: &G,
    cache: &LoadCache<Told<J>>,
    seat: &mut Seat<Told<J>>,
    trace: &Trace<J>,
) -> Result<(), LoadError>
    requires world { IsContext J.files J.plan J.shelf common.now }
    requires within { IsWithin J.files J.plan }
    ensures number { seat.new.number ≡ seat.old.number }
{
    for n in 0..common.reads.len() {
        settle_one(rt, common, gate, cache, seat, n, trace)?;
    }
    Ok(())
}

/// As `settle`, by the first of the loaders' seats.
fn settle_first<'s, 'r, 'p, 't, J: RunId, R: Wait, G: Gate>(
    rt: &R,
    common: &LoadContext<'s, 'r, 'p, 't>,
    gate: &G,
    cache: &LoadCache<Told<J>>,
    seats: &mut Vec<Seat<Told<J>>>,
    trace: &Trace<J>,
) -> Result<(), LoadError>
    requires world { IsContext J.files J.plan J.shelf common.now }
    requires within { IsWithin J.files J.plan }
    requires seat { 0 < vec_len seats.old }
    ensures numbers { map (λ s. s.number) seats.new.items ≡ map (λ s. s.number) seats.old.items }
{
    settle(rt, common, gate, cache, &mut seats[0], trace)
}

/// Closes the cache if all reached files have ended: its book, and the loaders' counts. They should have ended when the
/// loaders have. If one has not, each is asked for once more. The error: the first that these requests meet,
/// `Unpublished` if a file has still not ended, `Memory` if an allocation failed.
pub(crate) fn closed<'s, 'r, 'p, 't, J: RunId, R: Wait, G: Gate>(
    rt: &R,
    common: &LoadContext<'s, 'r, 'p, 't>,
    gate: &G,
    cache: LoadCache<Told<J>>,
    seats: Vec<Seat<Told<J>>>,
    trace: &Trace<J>,
) -> Result<(Book<Told<J>>, [u32; 64]), RunError>
    requires world { IsContext J.files J.plan J.shelf common.now }
    requires within { IsWithin J.files J.plan }
    requires seats { AreAll J.parts seats.items }
    requires some { 0 < J.parts }
    ensures loaders { IfOk result (λ c. length c.0.loaders ≡ J.parts) }
    ensures counts { IfOk result (λ c. c.1 ≡ counts_of c.0) }
    ensures sum { IfOk result (λ c. sum c.1 ≡ begun_count c.0) }
    ensures ended { IfOk result (λ c. (n : ℕ) → IsReached J.plan n → HasEnded c.0 n) }
{
    let reached = reached(common.alloc, common.reads)?;
    let (cache, mut seats) = match cache.close_ended(seats, &reached) {
        Ok(closed) => return Ok(closed),
        Err(open) => open,
    };
    settle_first(rt, common, gate, &cache, &mut seats, trace)?;
    match cache.close_ended(seats, &reached) {
        Ok(closed) => Ok(closed),
        Err(_) => Err(RunError::Unpublished),
    }
}

/// Adds the module of a file, by its entry in a closed book, after the modules of all reached files below it.
fn keep<J: RunId>(
    kept: &mut Vec<Kept>,
    n: usize,
    entry: &mut Entry<Told<J>>,
) -> Result<(), AllocError>
    requires cells { length J.shelf ≡ length J.files }
    requires told { (t : ToldView) → entry.old ≡ Entry.Done t → IsTold J.files J.plan n t }
    requires begun { entry.old ≢ Entry.Fresh → IsReached J.plan n }
    requires ended { IsReached J.plan n → (t : ToldView) × (entry.old ≡ Entry.Done t) }
    ensures same { entry.new ≡ entry.old }
    ensures cells { OnOk result (AllKept J.shelf kept.old.items → AllKept J.shelf kept.new.items) }
    ensures modules { OnOk result
        (AreModulesBelow J.plan n kept.old.items → AreModulesBelow J.plan (n + 1) kept.new.items) }
    ensures begun { OnOk result
        (vec_len kept.new ≡ vec_len kept.old + cond (is_begun entry.old) 1 0) }
{
    let Entry::Done(told) = entry else {
        return Ok(());
    };
    let one = told.kept();
    kept.push(one)?;
    Ok(())
}

/// The modules of all reached files, in order, from a book where each of them has ended.
pub fn kept_of<J: RunId>(alloc: Global, book: Book<Told<J>>) -> Result<Vec<Kept>, AllocError>
    requires cells { length J.shelf ≡ length J.files }
    requires within { IsWithin J.files J.plan }
    requires ended { (n : ℕ) → IsReached J.plan n → HasEnded book n }
    ensures cells { IfOk result (λ kept. AllKept J.shelf kept.items) }
    ensures modules { IfOk result (λ kept. AreModules J.plan kept.items) }
    ensures begun { IfOk result (λ kept. vec_len kept ≡ begun_count book) }
{
    let mut entries = book.into_entries();
    let mut kept = Vec::new(alloc);
    for n in 0..entries.len() {
        keep(&mut kept, n, &mut entries[n])?;
    }
    Ok(kept)
}
