//! `run`: starts a thread for each loader, and collects the modules when all have ended.

ghost use Rattle.std.specs.Prelude.{◌≡◌, ◌<◌, ◌≤◌, ◌⊎◌, ℕ, All, None, Some, count_by, is_some, length, map, max, sum, vec_len, IfOk, IfSome};
ghost use denote.Param.Send.{IsSend, IsSync};
ghost use Rattle.star_outcome.specs.Fits.{IsAsked, IsWithin};
ghost use Rattle.star_outcome.specs.GoodEnds.{AreGoodEndsOf};
ghost use Rattle.star_reading.specs.Found.{AreKnown, IsReadOf, Within};
ghost use Rattle.star_host.specs.Counts.{AreCounts};
ghost use Rattle.star_host.specs.Worlds.{IsContext, MayWork, plan_in};
ghost use Rattle.star_outcome.specs.Kept.{AllKept, AreModules, AreModulesOf};
ghost use Rattle.star_reading.specs.Parsed.{AreParsesOf};
ghost use Rattle.star_outcome.specs.Refusals.{AreRefusals, AreRefusalsOf};
ghost use Rattle.star_cache.specs.Seats.{counts_of};
ghost use Rattle.star_cache.specs.State.{HasEnded, begun_count};
ghost use Rattle.star_plan.specs.Reached.{IsReached};

use crate::common::LoadContext;
use crate::gate::Gate;
use crate::loading::{LoadError, load};
use crate::options::{Known, RunOptions};
use crate::order::{first_place, place};
use crate::settle::{closed, kept_of, settle_one};
use crate::table::{is_read, known_count, programs, read_count};
use star_cache::{Book, LoadCache, Seat};
use star_flow::{Flow, Graph};
use star_label::files::Files as Labels;
use star_outcome::good_end::GoodEnd;
use star_outcome::memory::{Ballast, Size, threads_for};
use star_outcome::outcome::{Kept, Run};
use star_outcome::run_id::RunId;
use star_outcome::shelf::Shelf;
use star_outcome::told::Told;
use star_outcome::trace::{CyclicLoad, Trace};
use star_reading::files::{Texts, read_parsed};
use star_reading::reading::{Reads, Trees};
use std::alloc::{AllocError, Global};
use std::marker::Brand;
use std::sync::Wait;
use std::sync::ledger::Blank;
use std::thread::Threads;
use std::{mem, thread};

/// Why a run fails. It has no text of its own: it becomes a `ServeError`, whose text the program shows.
#[derive(Clone, Copy, Debug, PartialEq, Eq)]
pub enum RunError {
    /// An allocation failed.
    Memory,
    /// A module was not published: a cell of the shelf did not take it, or its file was given up and no loader says
    /// why.
    Unpublished,
}

impl From<AllocError> for RunError {
    fn from(_error: AllocError) -> RunError {
        RunError::Memory
    }
}

impl From<LoadError> for RunError {
    fn from(error: LoadError) -> RunError {
        match error {
            LoadError::Memory => RunError::Memory,
            LoadError::Spoiled => RunError::Unpublished,
            LoadError::Unpublished => RunError::Unpublished,
        }
    }
}

/// A loader: its seat, and the first of its errors that is a cause, if it met an error. Its ballast lies in the memory of
/// its thread, if memory counts more than time.
#[derive(Drop)]
pub(crate) struct Loader<J: RunId> {
    seat: Seat<Told<J>>,
    error: Option<LoadError>,
    ballast: Option<Ballast>,
}

impl<J: RunId> Loader<J> {
    /// Allocates the ballast before the first file is run. A loader that starts when others have run all files needs
    /// none: it may have the part of the memory of one of them, and its ballast would lie between what that one has made.
    fn take_ballast(&mut self, alloc: Global, size: Option<Size>)
        ensures { self.new.seat ≡ self.old.seat }
    {
        if self.ballast.is_some() {
            return;
        }
        if let Some(size) = size {
            self.ballast = Ballast::new(alloc, size).ok();
        }
    }
}

/// The root at an index, which may be asked for.
pub fn root_at<J: RunId>(roots: &[usize], i: usize) -> usize
    requires i { i < length roots.now }
    requires roots { roots.now ≡ J.plan.roots }
    requires within { IsWithin J.files J.plan }
    ensures { IsAsked J.files J.plan result }
{
    roots[i]
}

/// The flow of the reached files, by their loads.
fn flow_of<'s, 'r, 'p, 't>(common: &LoadContext<'s, 'r, 'p, 't>) -> Result<Flow, AllocError> {
    let count = common.reads.len();
    let mut graph = Graph::new(common.alloc, count)?;
    for n in 0..count {
        add_file(&mut graph, common, n)?;
    }
    graph.into_flow(common.alloc)
}

/// A file of the graph with its loads, if it is reached.
fn add_file<'s, 'r, 'p, 't>(
    graph: &mut Graph,
    common: &LoadContext<'s, 'r, 'p, 't>,
    n: usize,
) -> Result<(), AllocError> {
    if !is_read(common.reads, n) {
        return Ok(());
    }
    graph.add_file(n)?;
    for load in common.loads(n) {
        graph.add_load(n, load.file)?;
    }
    Ok(())
}

/// One loader takes files all of whose loads have ended, as long as there are some. After an error it goes on with the
/// next file. It answers the first error that is a cause, if there was an error.
fn take_ready<'s, 'r, 'p, 't, J: RunId, R: Wait, G: Gate>(
    rt: &R,
    common: &LoadContext<'s, 'r, 'p, 't>,
    gate: &G,
    cache: &LoadCache<Told<J>>,
    loader: &mut Loader<J>,
    flow: &Flow,
    trace: &Trace<J>,
) -> Option<LoadError>
    requires world { IsContext J.files J.plan J.shelf common.now }
    requires within { IsWithin J.files J.plan }
    ensures number { loader.new.seat.number ≡ loader.old.seat.number }
{
    let mut error = None;
    let mut ended = None;
    for _ in rt.forever() {
        let Some(n) = flow.take(rt, ended) else {
            return error;
        };
        loader.take_ballast(common.alloc, common.ballast);
        let settled = settle_one(rt, common, gate, cache, &mut loader.seat, n, trace);
        error = reason(error, settled.err());
        ended = Some(n);
    }
    unreachable!()
}

/// The work of one loader. If there are other loaders, it first takes files all of whose loads have ended. Then it asks
/// for each root, since the files that are left are on a cycle of loads or lead to one.
fn work<'s, 'r, 'p, 't, J: RunId, R: Wait, G: Gate>(
    rt: &R,
    common: &LoadContext<'s, 'r, 'p, 't>,
    gate: &G,
    cache: &LoadCache<Told<J>>,
    loader: &mut Loader<J>,
    trace: &Trace<J>,
    flow: &Flow,
)
    requires world { IsContext J.files J.plan J.shelf common.now }
    requires within { IsWithin J.files J.plan }
    requires roots { common.now.roots.now ≡ J.plan.roots }
    requires loaders { (1 ≤ common.now.loaders) × (common.now.loaders ≤ 64) }
    ensures { loader.new.seat.number ≡ loader.old.seat.number }
{
    if common.loaders > 1 {
        loader.error = take_ready(rt, common, gate, cache, loader, flow, trace);
    } else {
        loader.take_ballast(common.alloc, common.ballast);
    }
    let roots = common.roots;
    let count = roots.len();
    if count == 0 {
        return;
    }
    let first = first_place(loader.seat.number(), common.loaders, count);
    for i in 0..count {
        let root = root_at::<J>(roots, place(first, i, count));
        let told = load(rt, common, gate, cache, &mut loader.seat, root, trace);
        loader.error = reason(loader.error, told.err());
    }
}

/// A loader for each seat.
fn loaders_of<J: RunId>(
    alloc: Global,
    seats: Vec<Seat<Told<J>>>,
) -> Result<Vec<Loader<J>>, AllocError>
    ensures { IfOk result (λ v. map (λ w. w.seat) v.items ≡ seats.items) }
{
    let mut loaders = Vec::with_capacity(alloc, seats.len())?;
    for seat in seats {
        let (error, ballast) = (None, None);
        loaders.push(Loader {
            seat,
            error,
            ballast,
        })?;
    }
    Ok(loaders)
}

/// Starts each loader in its own thread.
///
/// The loaders lie in a row of the caller: a row that a loader makes lies in the memory that the C library keeps for
/// its thread, and if the caller frees it, the C library keeps it for the caller, between the memory of other runs.
#[tactic(auto, using(crate::proofs::SeatsBack::numbers_kept))]
fn start_loaders<'s, 'r, 'p, 't, J: RunId + Send + Sync, R: Threads + Wait + Sync, G: Gate + Sync>(
    rt: &R,
    common: &LoadContext<'s, 'r, 'p, 't>,
    gate: &G,
    cache: &LoadCache<Told<J>>,
    loaders: &mut [Loader<J>],
    trace: &Trace<J>,
    flow: &Flow,
)
    requires world { IsContext J.files J.plan J.shelf common.now }
    requires within { IsWithin J.files J.plan }
    requires roots { common.now.roots.now ≡ J.plan.roots }
    requires loaders { (1 ≤ common.now.loaders) × (common.now.loaders ≤ 64) }
    ensures { map (λ w. w.seat.number) loaders.new ≡ map (λ w. w.seat.number) loaders.old }
{
    thread::for_each_mut(
        rt,
        loaders,
        common.loaders,
        &|_place: usize, loader: &mut Loader<J>|
            requires { MayWork J.files J.plan J.shelf common.now }
            ensures { loader.new.seat.number ≡ loader.old.seat.number }
        { work(rt, common, gate, cache, loader, trace, flow) },
    );
}

/// Starts the loaders. If memory counts more than time, a thread of its own does, so that this thread runs no files: it
/// stays, and the C library keeps some of the blocks that it frees for it, between all that lies in its part of the memory.
fn start_apart<'s, 'r, 'p, 't, J: RunId + Send + Sync, R: Threads + Wait + Sync, G: Gate + Sync>(
    rt: &R,
    common: &LoadContext<'s, 'r, 'p, 't>,
    gate: &G,
    cache: &LoadCache<Told<J>>,
    loaders: &mut [Loader<J>],
    trace: &Trace<J>,
    flow: &Flow,
)
    requires world { IsContext J.files J.plan J.shelf common.now }
    requires within { IsWithin J.files J.plan }
    requires roots { common.now.roots.now ≡ J.plan.roots }
    requires loaders { (1 ≤ common.now.loaders) × (common.now.loaders ≤ 64) }
    ensures { map (λ w. w.seat.number) loaders.new ≡ map (λ w. w.seat.number) loaders.old }
{
    if common.ballast.is_none() {
        start_loaders(rt, common, gate, cache, loaders, trace, flow);
        return;
    }
    let mut apart = ||
        requires { IsSync R.row × IsSync G.row × IsSend J.row × IsSync J.row × MayWork J.files J.plan J.shelf common.now }
        ensures { map (λ w. w.seat.number) loaders.exit.now ≡ map (λ w. w.seat.number) loaders.entry.now }
    { start_loaders(rt, common, gate, cache, loaders, trace, flow) };
    thread::join_mut(rt, &mut apart, &mut || ());
}

/// The first error that is a cause. `Spoiled` only says that another loader gave up.
fn reason(first: Option<LoadError>, next: Option<LoadError>) -> Option<LoadError>
    ensures none { result ≡ None → (first ≡ None) × (next ≡ None) }
    ensures one { (result ≡ first) ⊎ (result ≡ next) }
    ensures spoiled { result ≡ Some LoadError.Spoiled
        → IfSome first (λ e. e ≡ LoadError.Spoiled) × IfSome next (λ e. e ≡ LoadError.Spoiled) }
{
    match first {
        None => next,
        Some(LoadError::Spoiled) => next.or(first),
        Some(_) => first,
    }
}

/// The seats of the loaders, in order, the first of their errors that is a cause, if they met an error, and their
/// ballasts.
fn taken<J: RunId>(
    alloc: Global,
    loaders: Vec<Loader<J>>,
) -> Result<(Vec<Seat<Told<J>>>, Option<LoadError>, Vec<Ballast>), AllocError>
    ensures { IfOk result (λ r. r.0.items ≡ map (λ w. w.seat) loaders.items) }
{
    let mut seats = Vec::new(alloc);
    let mut why = None;
    let mut ballasts = Vec::new(alloc);
    for each in loaders {
        let Loader {
            seat,
            error,
            ballast,
        } = each;
        seats.push(seat)?;
        why = reason(why, error);
        ballasts.extend(ballast)?;
    }
    Ok((seats, why, ballasts))
}

/// The results in a closed cache, without the shelf.
#[derive(Drop)]
pub(crate) struct Closed {
    kept: Vec<Kept>,
    begun: u32,
    per_loader: [u32; 64],
    refused: Vec<CyclicLoad>,
    ballasts: Vec<Ballast>,
}

fn run_named<'s, 'r, 'p, 't, J: RunId + Send + Sync, R: Threads + Wait + Sync, G: Gate + Sync>(
    rt: &R,
    common: &LoadContext<'s, 'r, 'p, 't>,
    gate: &G,
    blank: Blank,
) -> Result<Closed, RunError>
    requires name { blank.name ≡ J.name }
    requires parts { (blank.parts ≡ J.parts) × (blank.parts ≡ common.now.loaders) }
    requires loaders { (1 ≤ common.now.loaders) × (common.now.loaders ≤ 64) }
    requires world { IsContext J.files J.plan J.shelf common.now }
    requires within { IsWithin J.files J.plan }
    requires roots { common.now.roots.now ≡ J.plan.roots }
    ensures kept { IfOk result (λ c. AllKept common.now.modules.now c.kept.items) }
    ensures modules { IfOk result (λ c. AreModules J.plan c.kept.items) }
    ensures begun { IfOk result (λ c. c.begun ≡ vec_len c.kept) }
    ensures sum { IfOk result (λ c. sum c.per_loader ≡ c.begun) }
    ensures counts { IfOk result (λ c. AreCounts common.now.loaders c.begun c.per_loader) }
    ensures refused { IfOk result (λ c. AreRefusals J.plan c.refused.items) }
{
    let alloc = common.alloc;
    let trace = Trace::<J>::new(alloc)?;
    let files = common.files.len();
    let (cache, seats) = LoadCache::<Told<J>>::new(alloc, blank, files, common.loaders)?;
    let flow = flow_of(common)?;
    let mut loaders = loaders_of(alloc, seats)?;
    let each = loaders.as_mut_slice();
    start_apart(rt, common, gate, &cache, each, &trace, &flow);
    let (seats, error, ballasts) = taken(alloc, loaders)?;
    if let Some(error) = error {
        return Err(RunError::from(error));
    }
    let closed = closed(rt, common, gate, cache, seats, &trace)?;
    closed_of(alloc, closed, &trace, ballasts)
}

/// The results in a cache that is closed after all reached files have ended.
fn closed_of<J: RunId>(
    alloc: Global,
    closed: (Book<Told<J>>, [u32; 64]),
    trace: &Trace<J>,
    ballasts: Vec<Ballast>,
) -> Result<Closed, RunError>
    requires cells { length J.shelf ≡ length J.files }
    requires within { IsWithin J.files J.plan }
    requires loaders { length closed.0.loaders ≡ J.parts }
    requires counts { closed.1 ≡ counts_of closed.0 }
    requires sum { sum closed.1 ≡ begun_count closed.0 }
    requires ended { (n : ℕ) → IsReached J.plan n → HasEnded closed.0 n }
    ensures kept { IfOk result (λ c. AllKept J.shelf c.kept.items) }
    ensures modules { IfOk result (λ c. AreModules J.plan c.kept.items) }
    ensures begun { IfOk result (λ c. c.begun ≡ vec_len c.kept) }
    ensures sum { IfOk result (λ c. sum c.per_loader ≡ c.begun) }
    ensures counts { IfOk result (λ c. AreCounts J.parts c.begun c.per_loader) }
    ensures refused { IfOk result (λ c. AreRefusals J.plan c.refused.items) }
{
    let (book, per_loader) = closed;
    let begun = book.begun();
    let refused = trace.all(alloc)?;
    Ok(Closed {
        kept: kept_of(alloc, book)?,
        begun,
        per_loader,
        refused,
        ballasts,
    })
}

/// The run of a new run id: of the files, the plan and the shelf of this data.
fn run_over<'s, 'r, 'p, 't, R: Threads + Wait + Sync, G: Gate + Sync>(
    rt: &R,
    common: &LoadContext<'s, 'r, 'p, 't>,
    gate: &G,
) -> Result<Closed, RunError>
    requires loaders { (1 ≤ common.now.loaders) × (common.now.loaders ≤ 64) }
    requires world { let c = common.now in IsContext c.files.now (plan_in c) c.modules.now c }
    requires within { IsWithin common.now.files.now (plan_in common.now) }
    ensures kept { IfOk result (λ c. AllKept common.now.modules.now c.kept.items) }
    ensures modules { IfOk result (λ c. AreModules (plan_in common.now) c.kept.items) }
    ensures begun { IfOk result (λ c. c.begun ≡ vec_len c.kept) }
    ensures sum { IfOk result (λ c. sum c.per_loader ≡ c.begun) }
    ensures counts { IfOk result (λ c. AreCounts common.now.loaders c.begun c.per_loader) }
    ensures refused { IfOk result (λ c. AreRefusals (plan_in common.now) c.refused.items) }
{
    let blank = Blank::new(common.loaders as u64);
    run_named::<Brand, R, G>(rt, common, gate, blank)
}

/// Loads the roots: the modules of exactly the reached files, in order, each with its outcome. Also the loads that were
/// refused, each on a cycle of loads. `Memory` if an allocation failed, `Unpublished` as `RunError` says.
pub fn run<R: Threads + Wait + Sync, G: Gate + Sync>(
    rt: &R,
    alloc: Global,
    files: &Labels,
    options: RunOptions<'_>,
    gate: &G,
) -> Result<Run, RunError>
    requires roots { Within files.now options.roots.now }
    requires prelude { IfSome options.prelude (λ n. n < length files.now) }
    requires loaders { (1 ≤ options.loaders) × (options.loaders ≤ 64) }
    requires steps { (1 ≤ options.mode.now.steps) × (options.mode.now.steps ≤ 100000000) }
    ensures begun { IfOk result (λ r. r.begun ≡ length r.kept) }
    ensures sum { IfOk result (λ r. sum r.per_loader ≡ r.begun) }
    ensures counts { IfOk result (λ r. AreCounts options.entry.loaders r.begun r.per_loader) }
    ensures files { IfOk result (λ r. length r.cells ≡ length files.now) }
    ensures modules { let o = options.entry in
        IfOk result (λ r. AreModulesOf files.now o.roots.now o.prelude o.mode.now r.kept) }
    ensures refused { let o = options.entry in
        IfOk result (λ r. AreRefusalsOf files.now o.roots.now o.prelude o.mode.now r.refused) }
{
    let trees = Trees::new(alloc)?;
    let parses = Vec::new(alloc);
    let mut reads = Reads::new(alloc);
    let known = Known {
        trees: &trees,
        parses: parses.as_slice(),
        ends: &[],
    };
    run_in(rt, alloc, files, known, &mut reads, options, gate)
}

/// The number of loaders to start: no more than there are files to run, since a further loader would find no file to
/// begin. A file whose end is known does not run: 64 of these count as one.
fn enough(loaders: usize, reads: &Reads, ends: &[Option<GoodEnd>]) -> usize
    requires { (1 ≤ loaders) × (loaders ≤ 64) }
    ensures some { 1 ≤ result }
    ensures given { result ≤ loaders }
    ensures files { result ≤ max (count_by is_some reads.now.all.items) 1 }
{
    let known = known_count(reads, ends);
    let idle = known.saturating_sub(known / 64);
    loaders.min(read_count(reads).saturating_sub(idle)).max(1)
}

/// As `run`, with the facts that are known of the files before it. Files whose readings are in `reads` are not read
/// again; after the run it has the readings of the run. The trees and the read files stay with the caller, who may leave
/// them to the end of the process: to free them takes a tenth of the time of a run of many small files. The errors are
/// those of `run`.
pub fn run_in<'t, R: Threads + Wait + Sync, G: Gate + Sync>(
    rt: &R,
    alloc: Global,
    files: &Labels,
    known: Known<'_, 't>,
    reads: &mut Reads<'t>,
    options: RunOptions<'_>,
    gate: &G,
) -> Result<Run, RunError>
    requires parses { AreParsesOf files.now known.parses.now }
    requires reads { AreKnown files.now options.prelude options.mode.now.language reads.old.all.items }
    requires ends { let o = options in AreGoodEndsOf files.now o.roots.now o.prelude o.mode.now known.ends.now }
    requires roots { Within files.now options.roots.now }
    requires prelude { IfSome options.prelude (λ n. n < length files.now) }
    requires loaders { (1 ≤ options.loaders) × (options.loaders ≤ 64) }
    requires steps { (1 ≤ options.mode.now.steps) × (options.mode.now.steps ≤ 100000000) }
    ensures read { IfOk result (λ _.
        let o = options.entry in IsReadOf files.now o.roots.now o.prelude o.mode.now.language
        reads.new.all.items) }
    ensures others { let o = options.entry in
        IfOk result (λ _. AreKnown files.now o.prelude o.mode.now.language reads.new.others.items) }
    ensures files { IfOk result (λ r. length r.cells ≡ length files.now) }
    ensures modules { let o = options.entry in
        IfOk result (λ r. AreModulesOf files.now o.roots.now o.prelude o.mode.now r.kept) }
    ensures begun { IfOk result (λ r. r.begun ≡ length r.kept) }
    ensures sum { IfOk result (λ r. sum r.per_loader ≡ r.begun) }
    ensures counts { IfOk result (λ r. AreCounts options.entry.loaders r.begun r.per_loader) }
    ensures refused { let o = options.entry in
        IfOk result (λ r. AreRefusalsOf files.now o.roots.now o.prelude o.mode.now r.refused) }
{
    let modules = Shelf::new(alloc, files.len())?;
    let RunOptions {
        roots,
        prelude,
        loaders,
        ..
    } = options;
    let readers = threads_for(loaders, options.ballast.is_some());
    let texts = Texts {
        files,
        trees: known.trees,
        parses: known.parses,
        language: &options.mode.language,
    };
    let before = mem::replace(reads, Reads::new(alloc));
    *reads = read_parsed(rt, alloc, texts, before, roots, prelude, readers)?;
    gate.before_bodies(read_count(reads));
    let options = RunOptions {
        loaders: enough(loaders, reads, known.ends),
        ..options
    };
    let programs = programs(alloc, reads)?;
    let common = LoadContext::new(
        alloc, files, reads, &programs, &modules, known.ends, options,
    );
    let Closed {
        kept,
        begun,
        per_loader,
        refused,
        ballasts,
    } = run_over(rt, &common, gate)?;
    Ok(Run::new(modules, kept, begun, per_loader, refused, ballasts))
}
