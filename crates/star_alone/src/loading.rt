//! The loading of a root by one loader that never waits.

ghost use Rattle.std.specs.Prelude.{◌≡◌, IfOk, length};
ghost use Rattle.star_plan.specs.Plan.{loads_of};
ghost use Rattle.star_host.specs.Worlds.{IsTurn, IsContext};
ghost use Rattle.star_outcome.specs.Fits.{IsAsked};

use crate::cache::Cache;
use star_cache::Reply;
use star_host::LoadContext;
use star_host::gate::Open;
use star_host::loading::{LoadError, Turn, next_load, published, told_module};
use star_outcome::open_file::OpenFile;
use star_outcome::run_id::RunId;
use star_outcome::trace::CyclicLoad;
use std::alloc::AllocError;

/// Publishes how a file ended, and then says that it is done.
fn end<'s, 'r, 'p, 't, J: RunId>(
    common: &LoadContext<'s, 'r, 'p, 't>,
    cache: &mut Cache<J>,
    frame: &OpenFile<'s, J>,
) -> Result<(), LoadError>
    requires world { IsContext J.files J.plan J.shelf common.now }
    requires told { frame.now.told ≡ length (loads_of J.plan frame.now.n) }
{
    let n = frame.number();
    let told = published::<J, Open>(common, &Open, 0, frame)?;
    match cache.finish(n, told) {
        Ok(()) => Ok(()),
        Err(_) => Err(LoadError::Spoiled),
    }
}

/// One turn of the file on top.
fn take_turn<'s, 'r, 'p, 't, J: RunId>(
    common: &LoadContext<'s, 'r, 'p, 't>,
    cache: &mut Cache<J>,
    top: &mut OpenFile<'s, J>,
) -> Result<Turn, LoadError>
    requires world { IsContext J.files J.plan J.shelf common.now }
    ensures turn { IfOk result (IsTurn J.files J.plan) }
{
    let file = top.number();
    let index = top.told();
    let Some(load) = next_load(common, top) else {
        end(common, cache, top)?;
        return Ok(Turn::Ended);
    };
    match cache.ask(Some(file), load.file) {
        Ok(Reply::Begun) => return Ok(Turn::Enter(load.file)),
        Ok(Reply::Failed(_told)) => top.refuse(),
        Ok(Reply::Cycle) => {
            let loaded = load.file;
            cache.note_cycle(CyclicLoad {
                file,
                index,
                loaded,
            })?;
            top.refuse();
        }
        Ok(Reply::Ready(told)) => top.tell(told_module(common, load.file, told))?,
        Ok(Reply::Spoiled) => return Err(LoadError::Spoiled),
        Ok(Reply::Wait) => unreachable!(),
        Err(_) => return Err(LoadError::Spoiled),
    }
    Ok(Turn::Again)
}

/// Asks for a root: whether it was begun.
fn begins<J: RunId>(cache: &mut Cache<J>, root: usize) -> Result<bool, LoadError>
    requires { IsAsked J.files J.plan root }
{
    match cache.ask(None, root) {
        Ok(Reply::Begun) => Ok(true),
        Ok(Reply::Ready(_told)) => Ok(false),
        Ok(Reply::Failed(_told)) => Ok(false),
        Ok(Reply::Cycle) => unreachable!(),
        Ok(Reply::Wait) => unreachable!(),
        Ok(Reply::Spoiled) => Err(LoadError::Spoiled),
        Err(_) => Err(LoadError::Spoiled),
    }
}

/// Loads a file and all that it loads, unless it has ended. A file whose load was begun asks for it again once it has
/// ended. `Memory` if an allocation failed. `Unpublished` where a cell of the shelf had something already, and after
/// 2^64 - 1 turns. `Spoiled` where the book refuses a call.
pub(crate) fn load<'s, 'r, 'p, 't, J: RunId>(
    common: &LoadContext<'s, 'r, 'p, 't>,
    cache: &mut Cache<J>,
    root: usize,
) -> Result<(), LoadError>
    requires world { IsContext J.files J.plan J.shelf common.now }
    requires root { IsAsked J.files J.plan root }
{
    let mut stack: Vec<OpenFile<'s, J>> = Vec::new(common.alloc);
    if begins(cache, root)? {
        stack
            .push(OpenFile::new(common.alloc, root))
            .map_err(AllocError::from)?;
    }
    for _ in 0..u64::MAX {
        let Some(top) = stack.last_mut() else {
            return Ok(());
        };
        match take_turn(common, cache, top)? {
            Turn::Again => {}
            Turn::Enter(m) => stack
                .push(OpenFile::new(common.alloc, m))
                .map_err(AllocError::from)?,
            Turn::Ended => {
                let _ = stack.pop();
            }
        }
    }
    Err(LoadError::Unpublished)
}
