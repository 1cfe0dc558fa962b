//! A test that a module can be read while the body of another file is running.

ghost use Rattle.std.specs.Prelude.{◌≡◌, ◌<◌, All, length};
ghost use Rattle.star_host.specs.Worlds.{IsContext};
ghost use Rattle.star_outcome.specs.Fits.{IsAsked};

use crate::meeting::Meeting;
use crate::runs::{all_roots, files_of};
use star_cache::{LoadCache, Seat};
use star_checks::holds;
use star_dialect::Mode;
use star_host::{
    LoadContext, LoadError, RunId, RunOptions, Shelf, Told, Trace, Trees, load, programs,
    read_files,
};
use star_label::files::Files;
use std::alloc::{AllocError, Global};
use std::marker::Brand;
use std::sync::Wait;
use std::sync::ledger::Blank;
use std::test::Fail;
use std::thread;
use std::thread::Threads;

/// How often a loader looks again for the file that it waits for: for some seconds.
const LOOKS: u32 = 10_000_000;

/// The file whose body is held until the event with the next number has come.
const BODY: usize = 1;

/// Reads the module of the first root by its note, while the body of the second is held, and then lets that body go on.
fn read_meanwhile<J: RunId, R: Wait>(
    rt: &R,
    common: &LoadContext<'_, '_, '_, '_>,
    gate: &Meeting,
    cache: &LoadCache<Told<J>>,
    seat: &mut Seat<Told<J>>,
    root: usize,
    trace: &Trace<J>,
) -> Result<(), LoadError>
    requires world { IsContext J.files J.plan J.shelf common.now }
    requires root { IsAsked J.files J.plan root }
{
    let mut told = load(rt, common, gate, cache, seat, root, trace)?;
    let note = told.note();
    if gate.has_come(BODY) && common.modules.seen(root, note).is_good() {
        gate.come(BODY + 1);
    }
    Ok(())
}

/// One loader reads the module of the first root, the other loads the second.
fn read_or_load<J: RunId, R: Wait>(
    rt: &R,
    common: &LoadContext<'_, '_, '_, '_>,
    gate: &Meeting,
    cache: &LoadCache<Told<J>>,
    seat: Seat<Told<J>>,
    roots: &[usize],
    trace: &Trace<J>,
) -> Seat<Told<J>>
    requires world { IsContext J.files J.plan J.shelf common.now }
    requires roots { All (IsAsked J.files J.plan) roots.now }
    requires two { length roots.now ≡ 2 }
{
    let mut seat = seat;
    if seat.number() == 0 {
        let _ = read_meanwhile(rt, common, gate, cache, &mut seat, roots[0], trace);
    } else {
        let _ = load(rt, common, gate, cache, &mut seat, roots[1], trace);
    }
    seat
}

/// Both at once: whether the cache closes then.
fn read_and_load<J: RunId + Send + Sync, R: Threads + Wait + Sync>(
    rt: &R,
    common: &LoadContext<'_, '_, '_, '_>,
    gate: &Meeting,
    roots: &[usize],
    blank: Blank,
) -> Result<bool, AllocError>
    requires name { blank.name ≡ J.name }
    requires parts { (blank.parts ≡ J.parts) × (blank.parts ≡ 2) }
    requires world { IsContext J.files J.plan J.shelf common.now }
    requires roots { All (IsAsked J.files J.plan) roots.now }
    requires two { length roots.now ≡ 2 }
{
    let trace = Trace::<J>::new(common.alloc)?;
    let files = common.files.len();
    let (cache, seats) = LoadCache::<Told<J>>::new(common.alloc, blank, files, 2)?;
    let back = thread::map_vec(
        rt,
        seats,
        &|seat: Seat<Told<J>>| -> Seat<Told<J>>
            requires { IsContext J.files J.plan J.shelf common.now × All (IsAsked J.files J.plan) roots.now
                × (length roots.now ≡ 2) }
        { read_or_load(rt, common, gate, &cache, seat, roots, &trace) },
    )?;
    Ok(cache.close(back).is_ok())
}

/// As above, over files two of which are loaded.
fn read_while_held<R: Threads + Wait + Sync>(
    rt: &R,
    alloc: Global,
    files: &Files,
    gate: &Meeting,
    roots: &[usize],
) -> Result<bool, AllocError>
    requires roots { All (λ n. n < length files.now) roots.now }
    requires two { length roots.now ≡ 2 }
{
    let trees = Trees::new(alloc)?;
    let shelf = Shelf::new(alloc, files.len())?;
    let mode = Mode::core(alloc, 100_000);
    let reads = read_files(rt, alloc, files, &trees, roots, None, &mode.language, 2)?;
    let programs = programs(alloc, &reads)?;
    let options = RunOptions {
        roots,
        prelude: None,
        loaders: 2,
        mode: &mode,
        seed: 1,
        ballast: None,
    };
    let common = LoadContext::new(alloc, files, &reads, &programs, &shelf, &[], options);
    read_and_load::<Brand, R>(rt, &common, gate, roots, Blank::new(2))
}

#[test]
fn a_note_is_used_while_another_body_is_held(rt: HostRuntime) -> Result<(), Fail> {
    let alloc = rt.alloc();
    let files = files_of(alloc, &[("//:a.star", "x = 1"), ("//:b.star", "x = 2")])?;
    let roots = all_roots(alloc, &files)?;
    if roots.len() != 2 {
        return Err(Fail::from("two files are wanted"));
    }
    let gate = Meeting::new([0, 0b100, 0, 0], LOOKS);
    let closes = read_while_held(&rt, alloc, &files, &gate, &roots)?;
    holds!(&rt; closes);
    gate.has_held(&rt, 2, 0);
    Ok(())
}
