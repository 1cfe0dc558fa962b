//! Tests of `load` as another program calls it: a root is loaded by itself.

ghost use Rattle.std.specs.Prelude.{◌≡◌, ◌<◌, All, length};
ghost use Rattle.star_host.specs.Worlds.{IsContext};
ghost use Rattle.star_outcome.specs.Fits.{IsAsked};

use crate::runs::{files_of, three};
use star_cache::{Book, LoadCache};
use star_checks::holds;
use star_dialect::Mode;
use star_host::gate::Open;
use star_host::{
    LoadContext, LoadError, RunId, RunOptions, Shelf, Told, Trace, Trees, load, programs,
    read_files,
};
use star_label::files::Files;
use star_label::label::Label;
use std::alloc::{AllocError, Global};
use std::marker::Brand;
use std::process::Abort;
use std::sync::Wait;
use std::sync::ledger::Blank;
use std::test::Fail;
use std::thread::Threads;

/// The result for a root: whether its module is good, how many files were begun, how many of them by the first loader,
/// and the sum of all loaders' counts.
#[derive(Clone, Copy, Debug, PartialEq, Eq)]
struct Loaded {
    good: bool,
    begun: u32,
    first: u32,
    sum: u32,
}

/// The result of a closed cache.
fn loaded_of<J: RunId>(good: bool, closed: (Book<Told<J>>, [u32; 64])) -> Loaded {
    let (book, counts) = closed;
    let sum = counts
        .iter()
        .fold(0, |sum: u32, &count| sum.saturating_add(count));
    Loaded {
        good,
        begun: book.begun(),
        first: counts[0],
        sum,
    }
}

/// One loader of two loads the first root, and the cache is closed with both seats.
fn load_first<J: RunId, R: Wait>(
    rt: &R,
    common: &LoadContext<'_, '_, '_, '_>,
    roots: &[usize],
    blank: Blank,
) -> Result<Option<Loaded>, LoadError>
    requires name { blank.name ≡ J.name }
    requires parts { (blank.parts ≡ J.parts) × (blank.parts ≡ 2) }
    requires world { IsContext J.files J.plan J.shelf common.now }
    requires roots { All (IsAsked J.files J.plan) roots.now }
    requires some { 0 < length roots.now }
{
    let root = roots[0];
    let trace = Trace::<J>::new(common.alloc)?;
    let files = common.files.len();
    let (cache, mut seats) = LoadCache::<Told<J>>::new(common.alloc, blank, files, 2)?;
    let mut told = load(rt, common, &Open, &cache, &mut seats[0], root, &trace)?;
    let note = told.note();
    let good = common.modules.seen(root, note).is_good();
    match cache.close(seats) {
        Ok(closed) => Ok(Some(loaded_of(good, closed))),
        Err(_) => Ok(None),
    }
}

/// The file with this label is read, with all that it reaches, and loaded.
fn load_label<R: Threads + Wait + Sync>(
    rt: &R,
    alloc: Global,
    files: &Files,
    label: &Label,
) -> Result<Option<Loaded>, LoadError> {
    let Some(root) = files.find(label) else {
        return Ok(None);
    };
    let roots = [root];
    let trees = Trees::new(alloc)?;
    let shelf = Shelf::new(alloc, files.len())?;
    let mode = Mode::core(alloc, 100_000);
    let reads = read_files(rt, alloc, files, &trees, &roots, None, &mode.language, 2)?;
    let programs = programs(alloc, &reads)?;
    let options = RunOptions {
        roots: &roots,
        prelude: None,
        loaders: 2,
        mode: &mode,
        seed: 1,
        ballast: None,
    };
    let common = LoadContext::new(alloc, files, &reads, &programs, &shelf, &[], options);
    load_first::<Brand, R>(rt, &common, &roots, Blank::new(2))
}

/// Asserts whether the module of `//:a.star` is good, and how many files were begun, all by the first loader.
fn loads<R: Abort + Threads + Wait + Sync>(
    rt: &R,
    alloc: Global,
    bundle: &[(&str, &str)],
    good: bool,
    begun: u32,
) -> Result<(), Fail> {
    let files = files_of(alloc, bundle)?;
    let label = Label::read(alloc, "//:a.star", "")?;
    let loaded = load_label(rt, alloc, &files, &label)?;
    let want = Loaded {
        good,
        begun,
        first: begun,
        sum: begun,
    };
    holds!(rt; loaded == Some(want));
    Ok(())
}

#[test]
fn a_root_is_loaded_with_all_that_it_loads(rt: HostRuntime) -> Result<(), Fail> {
    loads(&rt, rt.alloc(), &three(), true, 3)
}

#[test]
fn a_root_is_told_bad_where_a_name_is_missing(rt: HostRuntime) -> Result<(), Fail> {
    let bundle = [
        ("//:a.star", "load(\"//:b.star\", \"y\")\nx = y"),
        ("//:b.star", "y = missing"),
    ];
    loads(&rt, rt.alloc(), &bundle, false, 2)
}
