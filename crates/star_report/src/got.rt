//! The globals of the roots, by a name: a line of JSON for each.

ghost use Rattle.std.specs.Prelude.{◌≡◌, ◌≤◌, IfOk, length, slice_get};
ghost use Rattle.std.specs.Option.{option_copied, option_flatten};
ghost use Rattle.star_store.specs.Store.{look};
ghost use Rattle.star_plan.specs.Plan.{Plan};
ghost use Rattle.star_plan.specs.Reached.{IsReached};
ghost use Rattle.star_plan.specs.Reading.{IsPlanOf};
ghost use Rattle.star_outcome.specs.Kept.{AreModules};
ghost use Rattle.star_report.specs.Got.{data_got, lack_text, public_global};
ghost use Rattle.star_report.specs.Gets.{GotFor, HasJson, InPlans, IsJsonFor, IsLackAmong, got_among, got_in, got_stored};
ghost use Rattle.star_report.specs.Shelf.{globals_in};

use crate::modules::modules_by_number;
use crate::values::{is_private, json_of};
use star_label::files::Files as Labels;
use star_outcome::module::{Body, Ended, Module};
use star_outcome::outcome::Run;
use star_store::arena::{Arena, Frozen, Homes};
use star_store::values::Value;
use std::alloc::{AllocError, Global};

/// Why a root has no data for a name.
#[derive(Clone, Copy, Debug, PartialEq, Eq)]
pub enum Lack {
    /// Its file is not ok.
    NotOk,
    /// Its file has no public global with that name.
    NoGlobal,
    /// That global is not data.
    NoData,
}

impl Lack {
    /// The reason as text.
    pub fn text(self) -> &'static str
        ensures { result.now ≡ lack_text self }
    {
        match self {
            Lack::NotOk => "not ok",
            Lack::NoGlobal => "no such global",
            Lack::NoData => "no data",
        }
    }
}

/// The globals of the roots with one name.
#[derive(Debug, Drop)]
pub enum Got {
    /// All have data: a line for each.
    Lines(Vec<u8>),
    /// The first root without data, and why.
    Lack { root: usize, why: Lack },
}

/// The global with a name; none if the name is private.
fn public_global(own: Option<&Frozen>, name: &str) -> Option<Value>
    ensures { result ≡ public_global (globals_in (option_copied own.entry)) name.now }
{
    if is_private(name) {
        return None;
    }
    own?.global(name)
}

/// The JSON of a global.
fn json_got<'a>(
    alloc: Global,
    arena: &'a Arena,
    homes: &'a Homes<'a>,
    global: Option<Value>,
) -> Result<Result<Vec<u8>, Lack>, AllocError>
    ensures { IfOk result (IsJsonFor (data_got (look arena.now homes.now) global)) }
{
    let Some(value) = global else {
        return Ok(Err(Lack::NoGlobal));
    };
    match json_of(alloc, arena, homes, value, 0)? {
        Some(json) => Ok(Ok(json)),
        None => Ok(Err(Lack::NoData)),
    }
}

/// The JSON of a global of the file with this number, whose store is among others.
fn json_among(
    alloc: Global,
    arena: &Arena,
    homes: &Homes,
    n: usize,
    name: &str,
) -> Result<Result<Vec<u8>, Lack>, AllocError>
    ensures { IfOk result (IsJsonFor (got_among arena.now homes.now n name.now)) }
{
    json_got(alloc, arena, homes, public_global(homes.published(n), name))
}

/// The JSON of a global of a module, by its stores.
fn json_stored(
    alloc: Global,
    files: usize,
    n: usize,
    body: &Body,
    name: &str,
) -> Result<Result<Vec<u8>, Lack>, AllocError>
    requires { files ≤ 10000 }
    ensures { IfOk result (IsJsonFor (got_stored files n body.now name.now)) }
{
    let homes = body.stores.homes(alloc)?;
    let arena = Arena::new(alloc, files as u32);
    json_among(alloc, &arena, &homes, n, name)
}

/// The JSON of a global of a module.
fn json_in(
    alloc: Global,
    files: usize,
    it: &Module,
    name: &str,
) -> Result<Result<Vec<u8>, Lack>, AllocError>
    requires { files ≤ 10000 }
    ensures { IfOk result (IsJsonFor (got_in files it.now.number it.now.ended name.now)) }
{
    match &it.ended {
        Ended::Good(body) => json_stored(alloc, files, it.number, body, name),
        _ => Ok(Err(Lack::NotOk)),
    }
}

/// The module of a file.
pub(crate) fn module_at<'a>(table: &[Option<&'a Module>], n: usize) -> Option<&'a Module>
    ensures { result ≡ option_flatten (slice_get table.now n) }
{
    match table.get(n) {
        Some(Some(it)) => Some(*it),
        _ => None,
    }
}

/// The JSON of a global of a root.
fn json_at(
    alloc: Global,
    table: &[Option<&Module>],
    root: usize,
    name: &str,
) -> Result<Result<Vec<u8>, Lack>, AllocError>
    requires { length table.now ≤ 10000 }
    ensures { IfOk result (λ r. InPlans table.now (λ plan. IsReached plan root → HasJson plan name.now root r)) }
{
    match module_at(table, root) {
        Some(it) => json_in(alloc, table.len(), it, name),
        None => Ok(Err(Lack::NotOk)),
    }
}

/// A line for each root, up to the first without data.
fn lines_of(
    alloc: Global,
    table: &[Option<&Module>],
    roots: &[usize],
    name: &str,
) -> Result<Got, AllocError>
    requires { length table.now ≤ 10000 }
    ensures among { IfOk result (IsLackAmong roots.now) }
    ensures got { IfOk result (λ g. InPlans table.now (λ plan. plan.roots ≡ roots.now → GotFor plan name.now g)) }
{
    let mut lines = Vec::new(alloc);
    for root in roots {
        match json_at(alloc, table, *root, name)? {
            Ok(json) => {
                lines.extend_from_slice(json.as_slice())?;
                lines.push(b'\n')?;
            }
            Err(why) => return Ok(Got::Lack { root: *root, why }),
        }
    }
    Ok(Got::Lines(lines))
}

/// A line for each root of a run, in their order, with the JSON of its global of a name, or the first root without
/// data, and why.
pub fn globals_of(
    alloc: Global,
    files: &Labels,
    run: &mut Run,
    roots: &[usize],
    name: &str,
) -> Result<Got, AllocError>
    requires { length run.old.cells ≡ length files.now }
    ensures same { run.new ≡ run.old }
    ensures among { IfOk result (IsLackAmong roots.now) }
    ensures got { IfOk result (λ g. (plan : Plan) → IsPlanOf files.now plan → plan.roots ≡ roots.now
        → AreModules plan run.old.kept → GotFor plan name.now g) }
{
    let mut kept = run.kept(alloc)?;
    let table = modules_by_number(alloc, files.len(), run, kept.as_mut_slice())?;
    lines_of(alloc, table.as_slice(), roots, name)
}
