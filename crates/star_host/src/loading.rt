//! The loading of a root by one loader: a stack of files whose loads are asked for in order. Begin at `load`.

ghost use Rattle.std.specs.Prelude.{◌≡◌, ◌<◌, IfOk, IfSome, MatchOption, length};
ghost use Rattle.star_plan.specs.Plan.{loads_of};
ghost use Rattle.star_outcome.specs.Fits.{IsAsked};
ghost use Rattle.star_host.specs.Worlds.{IsNextLoad, IsTurn, IsContext};
ghost use Rattle.star_reading.specs.Readings.{readings};
ghost use Rattle.star_outcome.specs.Views.{IsEnd, IsModule, IsTold};

use crate::common::LoadContext;
use crate::gate::Gate;
use crate::table::{fault_at, program_at};
use crate::work::body_end;
use star_cache::{LoadCache, Reply, Seat};
use star_outcome::module::{Ended, Module};
use star_outcome::open_file::OpenFile;
use star_outcome::run_id::RunId;
use star_outcome::told::Told;
use star_outcome::trace::{CyclicLoad, Trace};
use star_reading::reading::numbers;
use star_scope::loads::Load;
use std::alloc::{AllocError, Global};
use std::sync::Wait;

/// Why a load gets no answer.
#[derive(Clone, Copy, Debug, PartialEq, Eq)]
pub enum LoadError {
    /// An allocation failed.
    Memory,
    /// An entry that was met is spoiled.
    Spoiled,
    /// A cell of the shelf was set already.
    Unpublished,
}

impl From<AllocError> for LoadError {
    fn from(_error: AllocError) -> LoadError {
        LoadError::Memory
    }
}

/// The effect of a turn: a load was answered, a load was begun, or the file has ended.
pub enum Turn {
    Again,
    Enter(usize),
    Ended,
}

/// The result of a file after all its loads have been answered.
fn ended<'s, 'r, 'p, 't, J: RunId, G: Gate>(
    common: &LoadContext<'s, 'r, 'p, 't>,
    gate: &G,
    loader: usize,
    frame: &OpenFile<'s, J>,
) -> Result<Ended, AllocError>
    requires world { IsContext J.files J.plan J.shelf common.now }
    requires told { frame.now.told ≡ length (loads_of J.plan frame.now.n) }
    ensures { IfOk result (IsEnd J.plan frame.now.n) }
{
    let n = frame.number();
    let Some(program) = program_at(common.reads, n) else {
        let Some(fault) = fault_at(common.reads, n) else {
            unreachable!()
        };
        return Ok(Ended::Static(fault));
    };
    match frame.failed() {
        Some(index) => {
            let Some(load) = common.load(n, index) else {
                unreachable!()
            };
            Ok(Ended::Load {
                index,
                line: load.line,
            })
        }
        None => body_end::<J, G>(common, gate, loader, n, program, frame.modules()),
    }
}

/// The module of a file with this end.
fn module_of<'s, 'r, 'p, 't, J: RunId>(
    common: &LoadContext<'s, 'r, 'p, 't>,
    n: usize,
    ended: Ended,
) -> Result<Module, AllocError>
    requires row { readings common.now.reads.now ≡ J.plan.reads }
    requires end { IsEnd J.plan n ended }
    ensures { IfOk result (IsModule J.plan n) }
{
    let loads = numbers(common.alloc, common.loads(n))?;
    Ok(Module {
        number: n,
        loads,
        ended,
    })
}

/// A module in a heap block.
fn boxed(alloc: Global, made: Module) -> Result<Box<Module>, AllocError>
    ensures { IfOk result (λ b. b.value ≡ made) }
{
    Box::new(alloc, made).map_err(AllocError::from)
}

/// Publishes the module of a file, all of whose loads have been answered. Returns the product that the cache gets for
/// it.
pub fn published<'s, 'r, 'p, 't, J: RunId, G: Gate>(
    common: &LoadContext<'s, 'r, 'p, 't>,
    gate: &G,
    loader: usize,
    frame: &OpenFile<'s, J>,
) -> Result<Told<J>, LoadError>
    requires world { IsContext J.files J.plan J.shelf common.now }
    requires told { frame.now.told ≡ length (loads_of J.plan frame.now.n) }
    ensures { IfOk result (IsTold J.files J.plan frame.now.n) }
{
    let n = frame.number();
    let ended = ended::<J, G>(common, gate, loader, frame)?;
    let made = module_of::<J>(common, n, ended)?;
    let good = made.is_good();
    let module = boxed(common.alloc, made)?;
    let Ok(note) = common.modules.publish(n, module) else {
        return Err(LoadError::Unpublished);
    };
    Ok(Told::new(n, good, note))
}

/// Publishes the module of a file, and then records in the cache that the file has ended.
fn end<'s, 'r, 'p, 't, J: RunId, R: Wait, G: Gate>(
    rt: &R,
    common: &LoadContext<'s, 'r, 'p, 't>,
    gate: &G,
    cache: &LoadCache<Told<J>>,
    seat: &mut Seat<Told<J>>,
    frame: &OpenFile<'s, J>,
) -> Result<(), LoadError>
    requires world { IsContext J.files J.plan J.shelf common.now }
    requires told { frame.now.told ≡ length (loads_of J.plan frame.now.n) }
    ensures { seat.new ≡ seat.old }
{
    let n = frame.number();
    let told = published::<J, G>(common, gate, seat.number(), frame)?;
    match cache.finish(rt, seat, n, told) {
        Ok(()) => Ok(()),
        Err(_) => Err(LoadError::Spoiled),
    }
}

/// The next load of a file to ask for; `None` if all were answered.
pub fn next_load<'s, 'r, 'p, 't, J: RunId>(
    common: &LoadContext<'s, 'r, 'p, 't>,
    frame: &OpenFile<'s, J>,
) -> Option<Load>
    requires world { IsContext J.files J.plan J.shelf common.now }
    ensures { MatchOption result
        (frame.now.told ≡ length (loads_of J.plan frame.now.n))
        (IsNextLoad J.files J.plan frame.now.n frame.now.told) }
{
    common.load(frame.number(), frame.told())
}

/// The module that an answer is about.
pub fn told_module<'s, 'r, 'p, 't, J: RunId>(
    common: &LoadContext<'s, 'r, 'p, 't>,
    n: usize,
    told: Told<J>,
) -> &'s Module
    requires world { IsContext J.files J.plan J.shelf common.now }
    requires told { IsTold J.files J.plan n told }
    ensures { IsModule J.plan n result.now }
{
    let mut told = told;
    let note = told.note();
    common.modules.seen(n, note)
}

/// One turn of the file on top.
fn take_turn<'s, 'r, 'p, 't, J: RunId, R: Wait, G: Gate>(
    rt: &R,
    common: &LoadContext<'s, 'r, 'p, 't>,
    gate: &G,
    cache: &LoadCache<Told<J>>,
    seat: &mut Seat<Told<J>>,
    top: &mut OpenFile<'s, J>,
    trace: &Trace<J>,
) -> Result<Turn, LoadError>
    requires world { IsContext J.files J.plan J.shelf common.now }
    ensures turn { IfOk result (IsTurn J.files J.plan) }
    ensures number { seat.new.number ≡ seat.old.number }
{
    let file = top.number();
    let index = top.told();
    let Some(load) = next_load(common, top) else {
        end(rt, common, gate, cache, seat, top)?;
        return Ok(Turn::Ended);
    };
    match cache.ask(rt, seat, Some(file), load.file) {
        Ok(Reply::Begun) => return Ok(Turn::Enter(load.file)),
        Ok(Reply::Failed(_told)) => top.refuse(),
        Ok(Reply::Cycle) => {
            // A line of the trace that gets no memory is left out.
            let loaded = load.file;
            let _ = trace.push(
                rt,
                CyclicLoad {
                    file,
                    index,
                    loaded,
                },
            );
            top.refuse();
        }
        Ok(Reply::Ready(told)) => top.tell(told_module(common, load.file, told))?,
        Ok(Reply::Spoiled) => return Err(LoadError::Spoiled),
        Ok(Reply::Wait) => unreachable!(),
        Err(_) => return Err(LoadError::Spoiled),
    }
    Ok(Turn::Again)
}

/// Asks for a root: the answer, or `None` if the root was begun.
fn ask_root<J: RunId, R: Wait>(
    rt: &R,
    cache: &LoadCache<Told<J>>,
    seat: &mut Seat<Told<J>>,
    root: usize,
) -> Result<Option<Told<J>>, LoadError>
    requires { IsAsked J.files J.plan root }
    ensures told { IfOk result (λ r. IfSome r (IsTold J.files J.plan root)) }
    ensures number { seat.new.number ≡ seat.old.number }
{
    match cache.ask(rt, seat, None, root) {
        Ok(Reply::Begun) => Ok(None),
        Ok(Reply::Ready(told)) => Ok(Some(told)),
        Ok(Reply::Failed(told)) => Ok(Some(told)),
        Ok(Reply::Cycle) => unreachable!(),
        Ok(Reply::Wait) => unreachable!(),
        Ok(Reply::Spoiled) => Err(LoadError::Spoiled),
        Err(_) => Err(LoadError::Spoiled),
    }
}

/// The turns of a load, until its root is answered. A file whose load was begun asks for it again once it has ended.
fn turns<'s, 'r, 'p, 't, J: RunId, R: Wait, G: Gate>(
    rt: &R,
    common: &LoadContext<'s, 'r, 'p, 't>,
    gate: &G,
    cache: &LoadCache<Told<J>>,
    seat: &mut Seat<Told<J>>,
    root: usize,
    trace: &Trace<J>,
) -> Result<Told<J>, LoadError>
    requires world { IsContext J.files J.plan J.shelf common.now }
    requires root { IsAsked J.files J.plan root }
    ensures told { IfOk result (IsTold J.files J.plan root) }
    ensures number { seat.new.number ≡ seat.old.number }
{
    let mut stack: Vec<OpenFile<'s, J>> = Vec::new(common.alloc);
    for _ in rt.forever() {
        let Some(top) = stack.last_mut() else {
            match ask_root(rt, cache, seat, root)? {
                Some(told) => return Ok(told),
                None => stack
                    .push(OpenFile::new(common.alloc, root))
                    .map_err(AllocError::from)?,
            }
            continue;
        };
        match take_turn(rt, common, gate, cache, seat, top, trace)? {
            Turn::Again => {}
            Turn::Enter(m) => stack
                .push(OpenFile::new(common.alloc, m))
                .map_err(AllocError::from)?,
            Turn::Ended => {
                let _ = stack.pop();
            }
        }
    }
    unreachable!()
}

/// Loads a file, and returns the answer: its module, which has its number, its loads, and its outcome. All loads of a
/// file are asked for, also after one that is not good. `Memory` if an allocation failed, `Spoiled` if an entry that
/// was met is spoiled, `Unpublished` if a cell of the shelf was set already. After an `Err` the loader's stack is
/// abandoned.
pub fn load<'s, 'r, 'p, 't, J: RunId, R: Wait, G: Gate>(
    rt: &R,
    common: &LoadContext<'s, 'r, 'p, 't>,
    gate: &G,
    cache: &LoadCache<Told<J>>,
    seat: &mut Seat<Told<J>>,
    root: usize,
    trace: &Trace<J>,
) -> Result<Told<J>, LoadError>
    requires world { IsContext J.files J.plan J.shelf common.now }
    requires root { IsAsked J.files J.plan root }
    ensures told { IfOk result (IsTold J.files J.plan root) }
    ensures number { seat.new.number ≡ seat.old.number }
{
    let told = turns(rt, common, gate, cache, seat, root, trace);
    if told.is_err() {
        let _ = cache.abandon(rt, seat);
    }
    told
}
