//! `run_body`: the run of a whole file, and its `Outcome`.

ghost use Rattle.std.specs.Prelude.{◌≡◌, ◌≤◌, ◌<◌, ◌+◌, ◌^◌, length, IfOk};
ghost use Rattle.star_machine.specs.Refines.{RefinesBy};
ghost use Rattle.star_meaning.specs.Module as spec;
ghost use Rattle.star_meaning.specs.Places.{FitAfter, Stands};
ghost use Rattle.star_meaning.specs.Programs.{trees_of};
ghost use Rattle.star_meaning.specs.Run as run;
ghost use Rattle.star_world.specs.World.{variables};
ghost use Rattle.star_module.specs.Globals.{owned, owned_one};
ghost use Rattle.star_module.specs.Outcomes.{AreReady, IsOutcome, semantics, run_by_names, run_by_places, shown};

use crate::globals::globals_of;
use star_eval::execute::execute_each;
use star_machine::fault::EvalError;
use star_machine::machine::Machine;
use star_meaning::fault::FaultCode;
use star_meaning::said::Said;
use star_meaning::site::Site;
use star_meaning::story::{Step, Story};
use star_scope::program::Program;
use star_store::arena::{Frozen, freeze};
use star_store::values::Value;
use star_text::Text;
use star_tree::tree::Statement;
use star_world::variables::new_frame;
use star_world::world::World;
use std::alloc::{AllocError, Global};

/// How many levels may be open at a time.
pub const MOST_LEVELS: u32 = 400;

/// How many steps a run may have.
pub const MOST_STEPS: u32 = 100_000_000;

/// The globals of a module at its end, in byte order of their names, and the text of each.
#[derive(Drop)]
struct Ended {
    globals: Vec<(String, Value)>,
    texts: Vec<(String, Text)>,
}

/// The remains of a run that has stopped, beside its report.
#[derive(Drop)]
pub struct Remains {
    /// The trail that the fault has left on its way out, the innermost first.
    pub trail: Vec<Step>,
    /// The store as it was at the fault. It has no globals.
    pub store: Frozen,
}

/// How the run of a file ends, with what it has said: the lines printed and the calls recorded.
#[derive(Drop)]
pub enum Outcome {
    /// It ran to its end: its store, and each global with its text, in byte order of the names.
    Good {
        frozen: Frozen,
        shown: Vec<(String, Text)>,
        lines: Vec<Said>,
        /// How many steps are left.
        left: u32,
    },
    /// It stopped, for this reason, at this line.
    Fault {
        code: FaultCode,
        line: usize,
        lines: Vec<Said>,
        remains: Remains,
    },
}

/// The line of the last statement, 1 if there is none.
#[tactic(auto, using(crate::proofs::Last::last_is, crate::proofs::Last::none_last))]
fn last_line(statements: &[Statement]) -> usize
    ensures { result ≡ spec.last_line 1 statements.now }
{
    match statements.last() {
        Some(statement) => statement.position.line,
        None => 1,
    }
}

/// The name of a global with its text, which is visited and paid as a new string is, and built only if it can be paid.
fn text_of(
    machine: &mut Machine,
    world: &World,
    levels: u32,
    line: usize,
    global: &(String, Value),
) -> Result<(String, Text), EvalError>
    ensures { RefinesBy owned_one (spec.global_text world.now.setting levels line (owned_one global.now) machine.old)
        result machine.new }
{
    let room = machine.steps_left() as usize;
    let text = machine.repr(world.setting(), levels, line, global.1, room)?;
    let text = machine.pay_for_draft(line, text)?;
    let name = String::from_str(machine.alloc(), global.0.as_str())?;
    Ok((name, text))
}

/// The names of globals with their texts, in order.
fn texts_of(
    machine: &mut Machine,
    world: &World,
    levels: u32,
    line: usize,
    globals: &[(String, Value)],
) -> Result<Vec<(String, Text)>, EvalError>
    ensures { RefinesBy (λ ts. owned ts.items)
        (run.each (spec.global_text world.now.setting levels line) (owned globals.now) machine.old) result machine.new }
{
    let mut texts = Vec::new(machine.alloc());
    for global in globals {
        texts.push(text_of(machine, world, levels, line, global)?)?;
    }
    Ok(texts)
}

/// The module at its end: its globals and their texts. The texts have the line of the last statement.
fn end(
    machine: &mut Machine,
    world: &World,
    levels: u32,
    line: usize,
    frame: Value,
) -> Result<Ended, EvalError>
    ensures { RefinesBy shown (spec.end world.now.setting levels line frame machine.old) result machine.new }
{
    let globals = globals_of(machine, world, frame)?;
    let texts = texts_of(machine, world, levels, line, globals.as_slice())?;
    Ok(Ended { globals, texts })
}

/// The run of a file: its own frame, which is the first cell, its statements, and the texts of its globals.
fn run_file(
    machine: &mut Machine,
    world: &World,
    statements: &[Statement],
    levels: u32,
) -> Result<Ended, EvalError>
    requires { length machine.old.store.cells + machine.old.steps + 1 < 2 ^ 32 }
    ensures { RefinesBy shown (spec.run_file (variables world.now) world.now.setting levels statements.now machine.old)
        result machine.new }
{
    let file = world.setting().home();
    let frame = new_frame(machine, world, file, 0, None)?;
    let site = Site {
        file,
        frame,
        line: 1,
    };
    // Outside of functions and loops a program has no `return`, `break` or `continue`, so nothing is lost here.
    let _flow = execute_each(machine, world, levels, &site, statements)?;
    end(machine, world, levels, last_line(statements), frame)
}

/// How a run has ended on this machine. The only error is want of memory.
fn outcome_of(machine: Machine, ended: Result<Ended, EvalError>) -> Result<Outcome, AllocError>
    ensures { (o : run.Outcome spec.Ended) → RefinesBy shown o ended machine → IfOk result (λ out. IsOutcome o out) }
{
    let left = machine.steps_left();
    let alloc = machine.alloc();
    let (arena, lines, Story { trail }) = machine.into_parts();
    match ended {
        Ok(Ended { globals, texts }) => Ok(Outcome::Good {
            frozen: freeze(arena, globals),
            shown: texts,
            lines,
            left,
        }),
        Err(EvalError::Faulted { code, line }) => Ok(Outcome::Fault {
            code,
            line,
            lines,
            remains: Remains {
                trail,
                store: freeze(arena, Vec::new(alloc)),
            },
        }),
        Err(EvalError::Memory) => Err(AllocError),
    }
}

/// Runs the body of a file with `steps` steps: makes its own frame, runs its statements, and takes the texts of its
/// globals. The program is the running file's. If the file is ready to run, this is its local meaning, by the names of
/// variables. After a good run all functions fit. The only error is want of memory. (`docs/LANGUAGE.md`, "The end of a
/// file".)
pub fn run_body(
    alloc: Global,
    world: &World,
    program: &Program,
    steps: u32,
    seed: u64,
) -> Result<Outcome, AllocError>
    requires running { Stands (trees_of world.now.files) world.now.setting.home program.now.statements.now }
    requires steps { steps ≤ MOST_STEPS }
    ensures run { IfOk result (λ o. IsOutcome (run_by_places world.now steps program.now.statements.now) o) }
    ensures places { let w = world.now in IfOk
        result (λ o. semantics w.setting o ≡ spec.local_of w.setting
        (run_by_places w steps program.now.statements.now)) }
    ensures names { let w = world.now in AreReady w steps
        → IfOk result (λ o. semantics w.setting o ≡ spec.local w.setting steps program.now.statements.now) }
    ensures named { let w = world.now in AreReady w steps
        → IfOk result (λ o. IsOutcome (run_by_names w.setting steps program.now.statements.now) o) }
    ensures fit { let w = world.now in AreReady w steps
        → FitAfter (trees_of w.files) w.setting (run_by_names w.setting steps program.now.statements.now) }
{
    world.are_outlined();
    let mut machine = Machine::with_seed(alloc, world.setting().home(), steps, seed);
    let ended = run_file(&mut machine, world, program.body(), MOST_LEVELS);
    outcome_of(machine, ended)
}
