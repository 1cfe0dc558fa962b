//! The run by one loader that never waits.

ghost use Rattle.std.specs.Prelude.{◌≡◌, ◌+◌, ◌<◌, ◌≤◌, ℕ, All, IfOk, IfSome, length, sum, vec_len};
ghost use Rattle.star_cache.specs.State.{HasEnded};
ghost use Rattle.star_host.specs.Counts.{AreCounts};
ghost use Rattle.star_host.specs.Worlds.{IsContext};
ghost use Rattle.star_outcome.specs.Fits.{IsWithin};
ghost use Rattle.star_outcome.specs.Kept.{AllKept, AreModules, AreModulesOf};
ghost use Rattle.star_outcome.specs.Refusals.{AreRefusals, AreRefusalsOf};
ghost use Rattle.star_plan.specs.Reached.{IsReached};
ghost use Rattle.star_reading.specs.Found.{IsReadOf, Within};
ghost use Rattle.star_reading.specs.Readings.{IsPlaceable};

use crate::cache::Cache;
use crate::loading::load;
use crate::reading::{ReadError, read_alone};
use star_cache::Book;
use star_host::running::root_at;
use star_host::settle::{kept_of, reached};
use star_host::{LoadContext, LoadError, Run, RunError, RunOptions, programs};
use star_label::files::Files as Labels;
use star_outcome::module::Module;
use star_outcome::outcome::Kept;
use star_outcome::run_id::RunId;
use star_outcome::shelf::Shelf;
use star_outcome::told::Told;
use star_outcome::trace::CyclicLoad;
use star_reading::reading::Reads;
use star_tree::tree::Tree;
use std::alloc::{AllocError, Global};
use std::marker::Brand;

/// The error of a run whose files were not read.
fn unread(error: ReadError) -> RunError {
    match error {
        ReadError::Memory => RunError::Memory,
        ReadError::Unpublished => RunError::Unpublished,
    }
}

/// The values of a book in which all reached files have ended, without the shelf.
#[derive(Drop)]
struct Ended {
    kept: Vec<Kept>,
    begun: u32,
    refused: Vec<CyclicLoad>,
}

/// Loads each root.
fn load_each<'s, 'r, 'p, 't, J: RunId>(
    common: &LoadContext<'s, 'r, 'p, 't>,
    cache: &mut Cache<J>,
) -> Result<(), LoadError>
    requires world { IsContext J.files J.plan J.shelf common.now }
    requires within { IsWithin J.files J.plan }
    requires roots { common.now.roots.now ≡ J.plan.roots }
{
    let roots = common.roots;
    for i in 0..roots.len() {
        load(common, cache, root_at::<J>(roots, i))?;
    }
    Ok(())
}

/// The values of a book in which all reached files have ended.
fn ended_of<J: RunId>(
    alloc: Global,
    book: Book<Told<J>>,
    refused: Vec<CyclicLoad>,
) -> Result<Ended, AllocError>
    requires cells { length J.shelf ≡ length J.files }
    requires within { IsWithin J.files J.plan }
    requires ended { (n : ℕ) → IsReached J.plan n → HasEnded book n }
    requires refused { AreRefusals J.plan refused.items }
    ensures kept { IfOk result (λ c. AllKept J.shelf c.kept.items) }
    ensures modules { IfOk result (λ c. AreModules J.plan c.kept.items) }
    ensures begun { IfOk result (λ c. c.begun ≡ vec_len c.kept) }
    ensures refused { IfOk result (λ c. AreRefusals J.plan c.refused.items) }
{
    let begun = book.begun();
    let kept = kept_of(alloc, book)?;
    Ok(Ended {
        kept,
        begun,
        refused,
    })
}

/// The run of a run id: its roots are loaded, and the modules of all reached files are kept.
fn run_named<'s, 'r, 'p, 't, J: RunId>(
    common: &LoadContext<'s, 'r, 'p, 't>,
) -> Result<Ended, RunError>
    requires world { IsContext J.files J.plan J.shelf common.now }
    requires within { IsWithin J.files J.plan }
    requires roots { common.now.roots.now ≡ J.plan.roots }
    ensures begun { IfOk result (λ c. c.begun ≡ vec_len c.kept) }
    ensures kept { IfOk result (λ c. AllKept common.now.modules.now c.kept.items) }
    ensures modules { IfOk result (λ c. AreModules J.plan c.kept.items) }
    ensures refused { IfOk result (λ c. AreRefusals J.plan c.refused.items) }
{
    let alloc = common.alloc;
    let mut cache = Cache::<J>::new(alloc, common.files.len())?;
    load_each(common, &mut cache)?;
    let reached = reached(alloc, common.reads)?;
    if !cache.have_ended(&reached) {
        return Err(RunError::Unpublished);
    }
    let (book, refused) = cache.into_parts();
    Ok(ended_of(alloc, book, refused)?)
}

/// The run over the files that were read, with a shelf for the modules.
fn run_over<'s, 'r, 't>(
    alloc: Global,
    files: &'s Labels,
    reads: &'r Reads<'t>,
    modules: &'s Shelf<Module>,
    options: RunOptions<'s>,
) -> Result<Ended, RunError>
    requires prelude { IfSome options.prelude (λ p. p < length files.now) }
    requires steps { (1 ≤ options.mode.now.steps) × (options.mode.now.steps ≤ 100000000) }
    requires cells { length modules.now ≡ length files.now }
    requires read { IsReadOf files.now options.roots.now options.prelude options.mode.now.language reads.now.all.items }
    requires placeable { All IsPlaceable reads.now.all.items }
    ensures kept { IfOk result (λ c. AllKept modules.now c.kept.items) }
    ensures modules { let o = options.entry in
        IfOk result (λ c. AreModulesOf files.now o.roots.now o.prelude o.mode.now c.kept.items) }
    ensures begun { IfOk result (λ c. c.begun ≡ vec_len c.kept) }
    ensures refused { let o = options.entry in
        IfOk result (λ c. AreRefusalsOf files.now o.roots.now o.prelude o.mode.now c.refused.items) }
{
    let programs = programs(alloc, reads)?;
    let common = LoadContext::new(alloc, files, reads, &programs, modules, &[], options);
    run_named::<Brand>(&common)
}

/// The counts of the loaders where one has begun all files.
fn counts_of_one(begun: u32) -> [u32; 64]
    ensures counts { AreCounts 1 begun result }
    ensures sum { sum result ≡ begun }
{
    let mut counts = [0; 64];
    counts[0] = begun;
    counts
}

/// Loads the roots by the caller's own thread: the modules of exactly the reached files, in order, each with its
/// outcome, and the loads that were refused. Each of these lies on a cycle of loads. The number of loaders is not read.
/// The trees and the readings of the files stay with the caller. `Memory` if an allocation failed. `Unpublished` where
/// a cell did not take its module or its tree.
pub fn run_alone<'t>(
    alloc: Global,
    files: &Labels,
    trees: &'t Shelf<Tree>,
    reads: &mut Reads<'t>,
    options: RunOptions<'_>,
) -> Result<Run, RunError>
    requires cells { length trees.now ≡ length files.now + 1 }
    requires roots { Within files.now options.roots.now }
    requires prelude { IfSome options.prelude (λ n. n < length files.now) }
    requires steps { (1 ≤ options.mode.now.steps) × (options.mode.now.steps ≤ 100000000) }
    ensures read { let o = options.entry in
        IfOk result (λ _. IsReadOf files.now o.roots.now o.prelude o.mode.now.language reads.new.all.items) }
    ensures files { IfOk result (λ r. length r.cells ≡ length files.now) }
    ensures modules { let o = options.entry in
        IfOk result (λ r. AreModulesOf files.now o.roots.now o.prelude o.mode.now r.kept) }
    ensures begun { IfOk result (λ r. r.begun ≡ length r.kept) }
    ensures sum { IfOk result (λ r. sum r.per_loader ≡ r.begun) }
    ensures counts { IfOk result (λ r. AreCounts 1 r.begun r.per_loader) }
    ensures refused { let o = options.entry in
        IfOk result (λ r. AreRefusalsOf files.now o.roots.now o.prelude o.mode.now r.refused) }
{
    let modules = Shelf::new(alloc, files.len())?;
    *reads = match read_alone(
        alloc,
        files,
        trees,
        options.roots,
        options.prelude,
        &options.mode.language,
    ) {
        Ok(reads) => reads,
        Err(error) => return Err(unread(error)),
    };
    let Ended {
        kept,
        begun,
        refused,
    } = run_over(alloc, files, reads, &modules, options)?;
    let per_loader = counts_of_one(begun);
    let ballasts = Vec::new(alloc);
    Ok(Run::new(modules, kept, begun, per_loader, refused, ballasts))
}
