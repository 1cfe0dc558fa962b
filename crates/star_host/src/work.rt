//! The run of one file: its body, over the stores of all files that it needs, or its end, if it is known already.

ghost use Rattle.std.specs.Prelude.{◌≡◌, ◌<◌, ◌≤◌, Some, IfOk, IfSome, ℕ, length, map};
ghost use Rattle.star_outcome.specs.Fits.{IsAsked};
ghost use Rattle.star_host.specs.Bodies.{IsRan, IsRunOf, MeansLocal, world_in};
ghost use Rattle.star_host.specs.Worlds.{IsContext};
ghost use Rattle.star_meaning.specs.Programs.{file_in, placed_file};
ghost use Rattle.star_outcome.specs.Gathered.{AreNeeded, IsListed};
ghost use Rattle.star_outcome.specs.Reaches.{row_of};
ghost use Rattle.star_plan.specs.Plan.{loads_of};
ghost use Rattle.star_outcome.specs.Views.{AreGoodLoads, IsBody, IsEnd};
ghost use Rattle.star_plan.specs.Shelves.{Needs};
ghost use Rattle.star_reading.specs.Readings.{read_at};
ghost use Rattle.star_reading.specs.declared.reading.Read.TheVariants as read;

use crate::common::{LoadContext, file_number};
use crate::gate::Gate;
use star_about::look::{Fault, seek};
use star_dialect::Language;
use star_found::about::Found;
use star_module::{Outcome, Remains, run_body};
use star_outcome::module::{Body, Ended, Left, Module};
use star_outcome::reachable::{gathered, stores_of};
use star_outcome::run_id::RunId;
use star_outcome::shown::Shown;
use star_outcome::store_row::StoreRow;
use star_scope::loads::Load;
use star_scope::program::Program;
use star_store::arena::Frozen;
use star_world::files::Files;
use star_world::world::World;
use std::alloc::{AllocError, Global};
use std::sync::Arc;

/// Runs the body of a file over these stores.
fn outcome_in<'s, 'r, 'p, 't>(
    common: &LoadContext<'s, 'r, 'p, 't>,
    home: u32,
    reaches: &StoreRow,
    program: &Program,
    prelude: Option<u32>,
) -> Result<Outcome, AllocError>
    requires stands { file_in common.now.programs.now home ≡ Some (placed_file program.now) }
    requires steps { (1 ≤ common.now.mode.now.steps) × (common.now.mode.now.steps ≤ 100000000) }
    ensures names { let c = common.now in MeansLocal
        (world_in home reaches.now c.programs.now program.now.loads.items prelude c.mode.now.language)
        c.mode.now.steps program.now.statements.now result }
    ensures named { let c = common.now in IsRunOf
        (world_in home reaches.now c.programs.now program.now.loads.items prelude c.mode.now.language)
        c.mode.now.steps program.now.statements.now result }
{
    let homes = reaches.homes(common.alloc)?;
    let steps = common.mode.steps;
    let language = &common.mode.language;
    let world = World::new(
        home,
        &homes,
        common.programs,
        program.loads(),
        prelude,
        language,
    );
    run_body(common.alloc, &world, program, steps, common.seed)
}

/// Finds the part of the program that a fault is about, by a second look at the store of its run and the stores that it
/// reaches.
fn found_in<'s>(
    alloc: Global,
    fault: Fault<'_>,
    store: &'s Frozen,
    reaches: &'s StoreRow,
    files: &Files,
    loads: &[Load],
    prelude: Option<u32>,
) -> Result<Option<Found>, AllocError> {
    let mut homes = reaches.homes(alloc)?;
    homes.add(fault.home, store)?;
    seek(alloc, fault, &homes, files, loads, prelude)
}

/// Finds the part of the program that the fault of a run is about; `None` if the run has no fault, or nothing is found,
/// or an allocation failed.
fn found_of(
    alloc: Global,
    home: u32,
    outcome: &Outcome,
    reaches: &StoreRow,
    files: &Files,
    loads: &[Load],
    prelude: Option<u32>,
    language: &Language,
) -> Option<Found> {
    let Outcome::Fault {
        code,
        line,
        remains,
        ..
    } = outcome
    else {
        return None;
    };
    let fault = Fault {
        code: *code,
        line: *line,
        home,
        language,
        trail: remains.trail.as_slice(),
    };
    match found_in(alloc, fault, &remains.store, reaches, files, loads, prelude) {
        Ok(found) => found,
        Err(_) => None,
    }
}

/// The end of a file whose run has this outcome.
fn ended_of<J: RunId>(
    alloc: Global,
    home: u32,
    outcome: Outcome,
    steps: u32,
    reaches: StoreRow,
    found: Option<Found>,
) -> Result<Ended, AllocError>
    requires ran { IsRan J.plan home outcome }
    requires steps { steps ≡ J.plan.mode.steps }
    requires needed { AreNeeded J.plan home (row_of reaches) }
    requires all { (k : ℕ) → Needs J.plan home k → IsListed (row_of reaches) k }
    ensures { IfOk result (IsEnd J.plan home) }
{
    match outcome {
        Outcome::Good {
            frozen,
            shown,
            lines,
            left,
        } => {
            let stores = stores_of::<J>(alloc, home, frozen, reaches)?;
            let body = Body {
                stores,
                shown: Arc::new(alloc, Shown::new(alloc, shown)?)?,
                lines,
                paid: steps.saturating_sub(left),
            };
            let body = Arc::new(alloc, body)?;
            Ok(Ended::Good(body))
        }
        Outcome::Fault {
            code,
            line,
            lines,
            remains,
        } => {
            let Remains { trail, .. } = remains;
            Ok(Ended::Stopped {
                code,
                line,
                lines,
                left: Left { trail, found },
            })
        }
    }
}

/// Runs the body of a file over the modules of its loads, which are all good, between the two hooks of the gate.
/// Answers the end of the file.
fn run<'s, 'r, 'p, 't, J: RunId, G: Gate>(
    common: &LoadContext<'s, 'r, 'p, 't>,
    n: usize,
    program: &'r Program<'t>,
    modules: &[&'s Module],
    gate: &G,
    loader: usize,
) -> Result<Ended, AllocError>
    requires world { IsContext J.files J.plan J.shelf common.now }
    requires file { n < length J.files }
    requires read { read_at common.now.reads.now n ≡ Some (read.Program program.now) }
    requires loads { AreGoodLoads J.plan n (length (loads_of J.plan n)) (map (λ m. m.now) modules.now) }
    ensures { IfOk result (IsEnd J.plan n) }
{
    let reaches = gathered::<J>(common.alloc, n, modules)?;
    let prelude = common.prelude_file();
    let home = file_number(common.files, n);
    gate.before_body(loader, n);
    let outcome = outcome_in(common, home, &reaches, program, prelude);
    gate.after_body(loader, n);
    let outcome = outcome?;
    let found = found_of(
        common.alloc,
        home,
        &outcome,
        &reaches,
        common.programs,
        program.loads(),
        prelude,
        &common.mode.language,
    );
    ended_of::<J>(
        common.alloc,
        home,
        outcome,
        common.mode.steps,
        reaches,
        found,
    )
}

/// The body of a file whose good end is stale: the same over the stores that its loads have now. None if the end is not
/// known. The error: an allocation failed.
fn renewed<'s, 'r, 'p, 't, J: RunId>(
    common: &LoadContext<'s, 'r, 'p, 't>,
    n: usize,
    modules: &[&'s Module],
) -> Result<Option<Body>, AllocError>
    requires world { IsContext J.files J.plan J.shelf common.now }
    requires asked { IsAsked J.files J.plan n }
    requires loads { AreGoodLoads J.plan n (length (loads_of J.plan n)) (map (λ m. m.now) modules.now) }
    ensures { IfOk result (λ r. IfSome r (IsBody J.plan n)) }
{
    let Some(end) = common.end(n) else {
        return Ok(None);
    };
    let reaches = gathered::<J>(common.alloc, n, modules)?;
    let home = file_number(common.files, n);
    end.body.over::<J>(common.alloc, home, reaches)
}

/// The end of a file whose loads are all good: the one that is known already, or else the end of its run. The gate is
/// called only for a run.
pub(crate) fn body_end<'s, 'r, 'p, 't, J: RunId, G: Gate>(
    common: &LoadContext<'s, 'r, 'p, 't>,
    gate: &G,
    loader: usize,
    n: usize,
    program: &'r Program<'t>,
    modules: &[&'s Module],
) -> Result<Ended, AllocError>
    requires world { IsContext J.files J.plan J.shelf common.now }
    requires asked { IsAsked J.files J.plan n }
    requires read { read_at common.now.reads.now n ≡ Some (read.Program program.now) }
    requires loads { AreGoodLoads J.plan n (length (loads_of J.plan n)) (map (λ m. m.now) modules.now) }
    ensures { IfOk result (IsEnd J.plan n) }
{
    if let Some(body) = common.body(n)? {
        return Ok(Ended::Good(body));
    }
    match renewed::<J>(common, n, modules)? {
        Some(body) => Ok(Ended::Good(Arc::new(common.alloc, body)?)),
        None => run::<J, G>(common, n, program, modules, gate, loader),
    }
}
