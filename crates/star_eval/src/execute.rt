//! Statements, and assignment to targets. Begin at `execute`; `execute_for` has the loop.

ghost use Rattle.std.specs.Prelude.{Some};
ghost use Rattle.star_machine.specs.Refines.{Refines, RefinesBy};
ghost use Rattle.star_meaning.specs.Semantics.{block, turns};
ghost use Rattle.star_meaning.specs.Statements as spec;
ghost use Rattle.star_meaning.specs.Targets.{to_each, to_target, unpack};
ghost use Rattle.star_world.specs.World.{semantics, variables};
ghost use Rattle.star_eval.specs.Forms.{alone, assigned, assigning, augmented_by, augmenting, choosing, defined, executing, loaded, looped};
ghost use Rattle.star_eval.specs.Steps.{looping, shown_parts, turn_in};

use crate::evaluate::{evaluate, make_function};
use crate::parts::augmented;
use crate::targets::TargetParts;
use star_machine::fault::{EvalError, fault_at};
use star_machine::machine::Machine;
use star_meaning::fault::FaultCode;
use star_meaning::site::{Flow, Site};
use star_operators::subscript::{index, set_index};
use star_store::values::Value;
use star_tree::tree::{
    Arm, BinaryOperator, Expression, Form, LoadedName, Name, Parameter, Position, Statement, Target,
};
use star_world::construct::site_of;
use star_world::loads::load_names;
use star_world::variables::{bind, read};
use star_world::world::World;

/// A `for` loop over a value that is known: the target that gets the items, the body, and the value.
#[derive(Clone, Copy)]
struct ForLoop<'t> {
    target: &'t Target,
    body: &'t [Statement],
    value: Value,
}

/// Executes a statement, and returns how it ends. `Deep` if no level is left; it pays 1 as it begins. A fault gets the
/// line of the innermost statement of the running module's own file.
#[cycle(run)]
#[tactic(auto, using(star_meaning::proofs::Levels::stmt_at, star_meaning::proofs::Levels::stmt_at_none))]
pub fn execute(
    machine: &mut Machine,
    world: &World,
    levels: u32,
    site: &Site,
    statement: &Statement,
) -> Result<Flow, EvalError>
    ensures { Refines ((semantics world.now levels).stmt site.now statement.now machine.old) result machine.new }
{
    let site = site_of(world, site, statement);
    if levels == 0 {
        return Err(fault_at(FaultCode::Deep, site.line));
    }
    machine.pay(site.line, 1)?;
    execute_form(machine, world, levels - 1, &site, statement)
}

/// Executes a statement whose parts may open `levels` levels: an expression statement or an assignment here, all else
/// by `execute_any`.
#[inline(always)]
#[cycle(run)]
fn execute_form(
    machine: &mut Machine,
    world: &World,
    levels: u32,
    site: &Site,
    statement: &Statement,
) -> Result<Flow, EvalError>
    ensures { Refines (executing world.now levels site.now statement.now machine.old) result machine.new }
{
    match &statement.form {
        Form::Expression(value) => execute_expression(machine, world, levels, site, value),
        Form::Assign { target, value } => execute_assign(
            machine, world, levels, site, target, value,
        ),
        _ => execute_any(machine, world, levels, site, statement),
    }
}

/// Executes a statement of any kind, whose parts may open `levels` levels.
#[inline(never)]
#[cycle(run)]
fn execute_any(
    machine: &mut Machine,
    world: &World,
    levels: u32,
    site: &Site,
    statement: &Statement,
) -> Result<Flow, EvalError>
    ensures { Refines (executing world.now levels site.now statement.now machine.old) result machine.new }
{
    match &statement.form {
        Form::Expression(value) => execute_expression(machine, world, levels, site, value),
        Form::Assign { target, value } => execute_assign(
            machine, world, levels, site, target, value,
        ),
        Form::Augment {
            target,
            operator,
            value,
        } => execute_augment(machine, world, levels, site, *operator, value, target),
        Form::Pass => Ok(Flow::Next),
        Form::Break => Ok(Flow::Break),
        Form::Continue => Ok(Flow::Continue),
        Form::Return(Some(value)) => execute_return(machine, world, levels, site, value),
        Form::Return(None) => Ok(Flow::Return(Value::NoneValue)),
        Form::Load { names, .. } => {
            execute_load(machine, world, site, statement.position, names.as_slice())
        }
        Form::If { arms, otherwise } => {
            execute_arms(
                machine,
                world,
                levels,
                site,
                arms.as_slice(),
                otherwise.as_slice(),
            )
        }
        Form::For {
            target,
            iterable,
            body,
        } => execute_for(
            machine,
            world,
            levels,
            site,
            target,
            iterable,
            body.as_slice(),
        ),
        Form::Def {
            name,
            parameters,
            ..
        } => {
            let token = statement.position.token;
            execute_def(
                machine,
                world,
                levels,
                site,
                token,
                name,
                parameters.as_slice(),
            )
        }
    }
}

/// An expression statement: its value is dropped.
#[inline(always)]
#[cycle(run)]
fn execute_expression(
    machine: &mut Machine,
    world: &World,
    levels: u32,
    site: &Site,
    value: &Expression,
) -> Result<Flow, EvalError>
    ensures { Refines (alone world.now levels site.now value.now machine.old) result machine.new }
{
    let _value = evaluate(machine, world, levels, site, value)?;
    Ok(Flow::Next)
}

/// `target = value`: the value first.
#[inline(always)]
#[cycle(run)]
fn execute_assign(
    machine: &mut Machine,
    world: &World,
    levels: u32,
    site: &Site,
    target: &Target,
    value: &Expression,
) -> Result<Flow, EvalError>
    ensures { Refines (assigned world.now levels site.now target.now value.now machine.old) result machine.new }
{
    let value = evaluate(machine, world, levels, site, value)?;
    assign_to(machine, world, levels, site, target, value)?;
    Ok(Flow::Next)
}

/// `target operator= value`.
#[cycle(run)]
fn execute_augment(
    machine: &mut Machine,
    world: &World,
    levels: u32,
    site: &Site,
    operator: BinaryOperator,
    value: &Expression,
    target: &Target,
) -> Result<Flow, EvalError>
    ensures { Refines (augmented_by world.now levels site.now operator value.now target.now machine.old)
        result machine.new }
{
    augment_target(machine, world, levels, site, operator, value, target)?;
    Ok(Flow::Next)
}

/// `return value`.
#[cycle(run)]
fn execute_return(
    machine: &mut Machine,
    world: &World,
    levels: u32,
    site: &Site,
    value: &Expression,
) -> Result<Flow, EvalError>
    ensures { Refines (spec.returned (semantics world.now levels) site.now (Some value.now) machine.old)
        result machine.new }
{
    let value = evaluate(machine, world, levels, site, value)?;
    Ok(Flow::Return(value))
}

/// A load statement at a position.
fn execute_load(
    machine: &mut Machine,
    world: &World,
    site: &Site,
    position: Position,
    names: &[LoadedName],
) -> Result<Flow, EvalError>
    ensures { Refines (loaded world.now site.now position names.now machine.old) result machine.new }
{
    load_names(machine, world, site, position, names)?;
    Ok(Flow::Next)
}

/// `for`: the value that is gone over, and then the loop.
#[cycle(run)]
fn execute_for(
    machine: &mut Machine,
    world: &World,
    levels: u32,
    site: &Site,
    target: &Target,
    iterable: &Expression,
    body: &[Statement],
) -> Result<Flow, EvalError>
    ensures { Refines (looped world.now levels site.now target.now iterable.now body.now machine.old)
        result machine.new }
{
    let value = evaluate(machine, world, levels, site, iterable)?;
    let for_loop = ForLoop {
        target,
        body,
        value,
    };
    execute_loop(machine, world, levels, site, for_loop)
}

/// `def`: the function that begins at a token, which its name is bound to.
#[cycle(run)]
fn execute_def(
    machine: &mut Machine,
    world: &World,
    levels: u32,
    site: &Site,
    token: usize,
    name: &Name,
    parameters: &[Parameter],
) -> Result<Flow, EvalError>
    ensures { Refines (defined world.now levels site.now token name.now parameters.now machine.old) result machine.new }
{
    let text = name.text.as_str();
    let value = make_function(machine, world, levels, site, token, text, parameters)?;
    bind(machine, world, site, name, value)?;
    Ok(Flow::Next)
}

/// Statements in order, up to the first that ends the row. A fault leaves its statement.
#[cycle(run)]
pub fn execute_each(
    machine: &mut Machine,
    world: &World,
    levels: u32,
    site: &Site,
    statements: &[Statement],
) -> Result<Flow, EvalError>
    ensures { Refines (block ((semantics world.now levels).stmt site.now) statements.now machine.old)
        result machine.new }
{
    for statement in statements {
        match execute(machine, world, levels, site, statement) {
            Ok(Flow::Next) => {}
            Ok(flow) => return Ok(flow),
            Err(stop) => {
                let position = statement.position;
                machine.leave_statement(site.file, position.line, position.token);
                return Err(stop);
            }
        }
    }
    Ok(Flow::Next)
}

/// The arms in order, up to the first whose condition is true.
#[cycle(run)]
fn execute_arms(
    machine: &mut Machine,
    world: &World,
    levels: u32,
    site: &Site,
    arms: &[Arm],
    otherwise: &[Statement],
) -> Result<Flow, EvalError>
    ensures { Refines (choosing world.now levels site.now arms.now otherwise.now machine.old) result machine.new }
{
    for arm in arms {
        let value = evaluate(machine, world, levels, site, &arm.condition)?;
        if machine.is_true(world.setting(), value) {
            return execute_each(machine, world, levels, site, arm.body.as_slice());
        }
    }
    execute_each(machine, world, levels, site, otherwise)
}

/// `for`: the value is being iterated while the turns run.
#[cycle(run)]
fn execute_loop(
    machine: &mut Machine,
    world: &World,
    levels: u32,
    site: &Site,
    for_loop: ForLoop<'_>,
) -> Result<Flow, EvalError>
    ensures { Refines (looping world.now levels site.now for_loop.entry machine.old) result machine.new }
{
    let count = machine.iterate(world.setting(), site.line, for_loop.value)?;
    let flow = execute_turns(machine, world, levels, site, for_loop, count)?;
    machine.leave(for_loop.value);
    Ok(flow)
}

/// `count` turns of a loop, up to the first that ends it.
#[cycle(run)]
#[tactic(auto, using(crate::proofs::Turns::turns_next))]
fn execute_turns(
    machine: &mut Machine,
    world: &World,
    levels: u32,
    site: &Site,
    for_loop: ForLoop<'_>,
    count: usize,
) -> Result<Flow, EvalError>
    ensures { Refines (turns (turn_in world.now levels site.now for_loop.entry) count 0 machine.old)
        result machine.new }
{
    for i in 0..count {
        match execute_turn(machine, world, levels, site, for_loop, i)? {
            Flow::Next | Flow::Continue => {}
            Flow::Break => return Ok(Flow::Next),
            Flow::Return(answer) => return Ok(Flow::Return(answer)),
        }
    }
    Ok(Flow::Next)
}

/// A turn of a loop: the next item is taken and assigned, and the body runs.
#[inline(always)]
#[cycle(run)]
fn execute_turn(
    machine: &mut Machine,
    world: &World,
    levels: u32,
    site: &Site,
    for_loop: ForLoop<'_>,
    i: usize,
) -> Result<Flow, EvalError>
    ensures { Refines (turn_in world.now levels site.now for_loop.entry i machine.old) result machine.new }
{
    let item = machine.take_item(world.setting(), site.line, for_loop.value, i)?;
    assign_to(machine, world, levels, site, for_loop.target, item)?;
    execute_each(machine, world, levels, site, for_loop.body)
}

/// `target operator= value`: the target's parts are evaluated once, it is read, the value is evaluated, then it is
/// computed and written.
#[cycle(run)]
fn augment_target(
    machine: &mut Machine,
    world: &World,
    levels: u32,
    site: &Site,
    operator: BinaryOperator,
    value: &Expression,
    target: &Target,
) -> Result<(), EvalError>
    ensures { Refines (augmenting world.now levels site.now operator value.now target.now machine.old)
        result machine.new }
{
    match target {
        Target::Name(name) => {
            let old = read(machine, world, site, name)?;
            let by = evaluate(machine, world, levels, site, value)?;
            let new = augmented(machine, world, levels, site.line, operator, old, by)?;
            bind(machine, world, site, name, new)
        }
        Target::Index { value: base, index } => {
            let parts = read_target(machine, world, levels, site, base.get(), index.get())?;
            let by = evaluate(machine, world, levels, site, value)?;
            let new = augmented(machine, world, levels, site.line, operator, parts.old, by)?;
            let line = site.line;
            set_index(
                machine,
                world.setting(),
                levels,
                line,
                parts.base,
                parts.index,
                new,
            )
        }
        _ => Err(fault_at(FaultCode::BadType, site.line)),
    }
}

/// Assigns a value to a target: a plain name is bound, and costs nothing.
#[inline(always)]
#[cycle(run)]
pub(crate) fn assign_to(
    machine: &mut Machine,
    world: &World,
    levels: u32,
    site: &Site,
    target: &Target,
    value: Value,
) -> Result<(), EvalError>
    ensures { Refines (to_target (variables world.now) (semantics world.now levels) site.now target.now value
        machine.old)
        result machine.new }
{
    if let Target::Name(name) = target {
        return bind(machine, world, site, name, value);
    }
    assign(machine, world, levels, site, target, value)
}

/// Assigns a value to a target that is not a plain name. `Deep` if no level is left; it pays 1 as it begins.
#[cycle(run)]
#[tactic(auto, using(star_meaning::proofs::Levels::assign_at, star_meaning::proofs::Levels::assign_at_none))]
fn assign(
    machine: &mut Machine,
    world: &World,
    levels: u32,
    site: &Site,
    target: &Target,
    value: Value,
) -> Result<(), EvalError>
    ensures { Refines ((semantics world.now levels).assign site.now target.now value machine.old) result machine.new }
{
    if levels == 0 {
        return Err(fault_at(FaultCode::Deep, site.line));
    }
    machine.pay(site.line, 1)?;
    assign_node(machine, world, levels - 1, site, target, value)
}

/// Assigns a value to the node of a target that is not a plain name.
#[cycle(run)]
fn assign_node(
    machine: &mut Machine,
    world: &World,
    levels: u32,
    site: &Site,
    target: &Target,
    value: Value,
) -> Result<(), EvalError>
    ensures { Refines (assigning world.now levels site.now target.now value machine.old) result machine.new }
{
    match target {
        Target::Name(name) => { bind(machine, world, site, name, value) }
        Target::Index { value: base, index } => {
            let base = evaluate(machine, world, levels, site, base.get())?;
            let at = evaluate(machine, world, levels, site, index.get())?;
            set_index(machine, world.setting(), levels, site.line, base, at, value)
        }
        Target::Tuple(targets) | Target::List(targets) => {
            unpack_to(machine, world, levels, site, targets.as_slice(), value)
        }
    }
}

/// Unpacking: all items are taken, then there must be as many as targets, then they are assigned. `BadValue` for
/// another number.
#[cycle(run)]
fn unpack_to(
    machine: &mut Machine,
    world: &World,
    levels: u32,
    site: &Site,
    targets: &[Target],
    value: Value,
) -> Result<(), EvalError>
    ensures { Refines (unpack (variables world.now) world.now.setting
        (semantics world.now levels) site.now targets.now value
        machine.old) result machine.new }
{
    let items = machine.take_all(world.setting(), site.line, value)?;
    if items.len() != targets.len() {
        return Err(fault_at(FaultCode::BadValue, site.line));
    }
    assign_each(machine, world, levels, site, targets, items.as_slice())
}

/// Values to as many targets, in order. `BadValue` for another number.
#[cycle(run)]
fn assign_each(
    machine: &mut Machine,
    world: &World,
    levels: u32,
    site: &Site,
    targets: &[Target],
    values: &[Value],
) -> Result<(), EvalError>
    ensures { Refines (to_each (variables world.now) (semantics world.now levels) site.now targets.now values.now
        machine.old) result machine.new }
{
    let mut rest = values;
    for target in targets {
        let Some((value, more)) = rest.split_first() else {
            return Err(fault_at(FaultCode::BadValue, site.line));
        };
        assign_to(machine, world, levels, site, target, *value)?;
        rest = more;
    }
    if !rest.is_empty() {
        return Err(fault_at(FaultCode::BadValue, site.line));
    }
    Ok(())
}

/// The parts of an index target with the value there. `Deep` if no level is left; it pays 1 as it begins.
#[cycle(run)]
#[tactic(auto, using(star_meaning::proofs::Levels::parts_at, star_meaning::proofs::Levels::parts_at_none))]
fn read_target(
    machine: &mut Machine,
    world: &World,
    levels: u32,
    site: &Site,
    base: &Expression,
    at: &Expression,
) -> Result<TargetParts, EvalError>
    ensures { RefinesBy shown_parts ((semantics world.now levels).parts site.now base.now at.now machine.old)
        result machine.new }
{
    if levels == 0 {
        return Err(fault_at(FaultCode::Deep, site.line));
    }
    machine.pay(site.line, 1)?;
    let levels = levels - 1;
    let base = evaluate(machine, world, levels, site, base)?;
    let at = evaluate(machine, world, levels, site, at)?;
    let old = index(machine, world.setting(), levels, site.line, base, at)?;
    Ok(TargetParts {
        base,
        index: at,
        old,
    })
}
