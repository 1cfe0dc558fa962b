//! A test of a function with many parameters: the definition has a layout, and a call is bound by it. Without a layout
//! a call only takes more time. The contracts say which slots get which values.

ghost use Rattle.star_call.specs.Callees.{IsFound};
ghost use Rattle.star_meaning.specs.Programs.{IsOfFile};

use crate::runs::files_of;
use star_call::callee::Callee;
use star_call::passed::{EvaluatedArgument, given};
use star_checks::holds;
use star_dialect::{Dialect, Language};
use star_enter::calls::callee_of;
use star_enter::ordered::bound_of;
use star_label::files::Files as Labels;
use star_machine::fault::EvalError;
use star_machine::machine::Machine;
use star_meaning::given::Arguments;
use star_meaning::site::Site;
use star_parser::parse;
use star_scope::program::Program;
use star_store::arena::Homes;
use star_store::defaults::Defaults;
use star_store::values::Value;
use star_tree::tree::Tree;
use star_world::construct::new_closure;
use star_world::files::{Files, program_of};
use star_world::variables::paid_frame;
use star_world::world::World;
use std::alloc::{AllocError, Global};
use std::mem::ManuallyDrop;
use std::process::Abort;
use std::test::Fail;

/// The definition of `f` has the number 0, and 19 parameters: 2 names alone, 13 with defaults, `*q`, a name alone, one
/// with a default, and `**t`.
const MANY: &str =
    "def f(a, b, c=0, d=0, e=0, g=0, h=0, i=0, j=0, k=0, l=0, m=0, n=0, o=0, p=0, *q, r, s=0, **t):\n  return a\n";

/// The values of its 14 defaults: 70 and the ints after it.
fn defaults(alloc: Global) -> Result<Defaults, AllocError> {
    let mut values = Vec::new(alloc);
    for value in 70..84 {
        values.push(Value::Int(value))?;
    }
    Defaults::new(values)
}

/// The function, with its defaults.
fn function(alloc: Global, machine: &mut Machine, world: &World) -> Result<Value, EvalError> {
    let frame = paid_frame(machine, world, 1, 0, 0, None)?;
    let site = Site {
        file: 0,
        frame,
        line: 1,
    };
    let defaults = defaults(alloc)?;
    new_closure(machine, &site, 0, "f", defaults)
}

/// Asserts that a call of a function is bound by its layout.
fn is_bound(
    rt: &impl Abort,
    machine: &Machine,
    world: &World,
    callee: Callee<'_>,
    given: &Arguments,
) -> Result<(), Fail>
    requires { IsFound world.now.setting callee }
{
    match callee {
        Callee::AFunction(called) => {
            let bound = bound_of(machine, world, &called, given)?;
            holds!(rt; bound.is_some());
            Ok(())
        }
        _ => Err(Fail::from("a callee that is no function")),
    }
}

fn many_parameters_have_a_layout_over(
    rt: &impl Abort,
    alloc: Global,
    files: &Files,
    homes: &Homes,
) -> Result<(), Fail> {
    let language = Language::of(alloc, Dialect::Core);
    let world = World::new(0, homes, files, &[], None, &language);
    holds!(rt; world.order(0, 0).is_some());
    holds!(rt; world.order(0, 1).is_none());
    holds!(rt; world.order(1, 0).is_none());
    let mut machine = Machine::new(alloc, 0, 1_000);
    let passed = [
        EvaluatedArgument::Plain(Value::Int(1)),
        EvaluatedArgument::Plain(Value::Int(2)),
        EvaluatedArgument::Named("r", Value::Int(3)),
        EvaluatedArgument::Named("x", Value::Int(4)),
    ];
    let given = given(&mut machine, world.setting(), 1, &passed)?;
    let function = function(alloc, &mut machine, &world)?;
    let callee = callee_of(&machine, &world, 1, function)?;
    is_bound(rt, &machine, &world, callee, &given)
}

fn many_parameters_have_a_layout_with(
    rt: &impl Abort,
    alloc: Global,
    program: &Program,
) -> Result<(), Fail>
    requires { IsOfFile program.now }
{
    let mut files = Files::new(alloc);
    files.push(Some(program))?;
    let homes = Homes::new(alloc);
    many_parameters_have_a_layout_over(rt, alloc, &files, &homes)
}

fn many_parameters_have_a_layout_of(
    rt: &impl Abort,
    alloc: Global,
    labels: &Labels,
    tree: &Tree,
) -> Result<(), Fail> {
    assert!(rt; 0 < labels.len());
    let language = Language::of(alloc, Dialect::Core);
    let program = program_of(alloc, labels, 0, tree, None, &language)?;
    many_parameters_have_a_layout_with(rt, alloc, &program)
}

#[test]
fn many_parameters_have_a_layout(rt: HostRuntime) -> Result<(), Fail> {
    let alloc = rt.alloc();
    let labels = files_of(alloc, &[("//:a.star", "")])?;
    let tree = ManuallyDrop::new(parse(alloc, MANY)?);
    many_parameters_have_a_layout_of(&rt, alloc, &labels, &*tree)
}
