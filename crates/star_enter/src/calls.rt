//! Entering a call: the callee, the frame with the parameters, the active definition. No body runs here.

ghost use Rattle.std.specs.Prelude.{◌≡◌, map, true, IfOk};
ghost use Rattle.std.specs.Option.{option_map};
ghost use Rattle.star_outline.specs.Definitions.{definition_of};
ghost use Rattle.star_meaning.specs.Calls as spec;
ghost use Rattle.star_machine.specs.Refines.{Refines, RefinesBy};
ghost use Rattle.star_meaning.specs.Values.{content};
ghost use Rattle.star_call.specs.Callees.{IsFound, definition_for, shown};
ghost use Rattle.star_call.specs.BoundArguments.{bound_value};
ghost use Rattle.std.specs.List.{list_all};
ghost use Rattle.star_enter.specs.Positional.{FitPositionally, positional, expression_of, is_plain, is_positional};
ghost use Rattle.star_enter.specs.Entering.{bind_all, entered, entered_with, paid_site};

use star_call::callee::{Called, Callee, definition_number};
use star_call::shares::{BoundArguments, build_arguments};
use star_machine::fault::EvalError;
use star_machine::machine::Machine;
use star_meaning::given::Arguments;
use star_meaning::site::Site;
use star_outline::outline::Definition;
use star_store::values::Value;
use star_tree::tree::{Argument, Expression, Name, Parameter};
use star_world::variables::{bind, paid_frame};
use star_world::world::World;

/// The definition of a function; `None` for another value, or if its file has none.
fn definition_of<'t>(
    machine: &Machine,
    world: &World<'_, 't>,
    value: Value,
) -> Option<Definition<'t>>
    ensures { option_map definition_of result
        ≡ definition_for world.now.setting (content world.now.setting machine.now value) }
{
    match definition_number(machine, world.setting(), value) {
        Some((file, number)) => world.definition(file, number),
        None => None,
    }
}

/// The callee that a value is. `BadType` if it may not be called, then `Recursion` if its definition is active.
pub fn callee_of<'t>(
    machine: &Machine,
    world: &World<'_, 't>,
    line: usize,
    value: Value,
) -> Result<Callee<'t>, EvalError>
    ensures answer { RefinesBy (shown (content world.now.setting machine.now))
        (spec.callee world.now.setting line value machine.now) result machine.now }
    ensures found { IfOk result (IsFound world.now.setting) }
{
    let definition = definition_of(machine, world, value);
    Callee::of(machine, world.setting(), line, value, definition)
}

/// Binds parameters to their values, in order.
pub fn bind_all(
    machine: &mut Machine,
    world: &World,
    site: &Site,
    values: &[(&Name, Value)],
) -> Result<(), EvalError>
    ensures { Refines (bind_all world.now site.now (map bound_value values.now) machine.old) result machine.new }
{
    for (name, value) in values {
        bind(machine, world, site, *name, *value)?;
    }
    Ok(())
}

/// The expression of an argument.
pub fn expression_of(argument: &Argument) -> &Expression
    ensures { result.now ≡ expression_of argument.now }
{
    match argument {
        Argument::Positional(value) | Argument::Star(value) | Argument::StarStar(value) => value,
        Argument::Named { value, .. } => value,
    }
}

/// Whether all arguments of a call are positional.
pub fn are_positional(arguments: &[Argument]) -> bool
    ensures { result ≡ list_all is_positional arguments.now }
{
    for argument in arguments {
        let Argument::Positional(_) = argument else {
            return false;
        };
    }
    true
}

/// Whether each parameter has a name alone.
fn are_plain(parameters: &[Parameter]) -> bool
    ensures { result ≡ list_all is_plain parameters.now }
{
    for parameter in parameters {
        let Parameter::Plain(_) = parameter else {
            return false;
        };
    }
    true
}

/// Whether all parameters are plain names, and the call gives a positional argument for each of them and nothing else.
pub fn fit_positionally(parameters: &[Parameter], given: &Arguments) -> bool
    ensures { result ≡ true → FitPositionally parameters.now given.now }
{
    given.named.len() == 0 && parameters.len() == given.positional.len() && are_plain(parameters)
}

/// Binds parameters that have names alone to the values at their places, in order.
fn bind_positional(
    machine: &mut Machine,
    world: &World,
    site: &Site,
    parameters: &[Parameter],
    values: &[Value],
) -> Result<(), EvalError>
    ensures { Refines (bind_all world.now site.now (positional parameters.now values.now) machine.old)
        result machine.new }
{
    let mut rest = values;
    for parameter in parameters {
        let Some((value, more)) = rest.split_first() else {
            return Ok(());
        };
        if let Parameter::Plain(name) = parameter {
            bind(machine, world, site, name, *value)?;
        }
        rest = more;
    }
    Ok(())
}

/// The place of the body of a call, with a new frame, which pays 1.
fn paid_site(
    machine: &mut Machine,
    world: &World,
    line: usize,
    called: Called<'_>,
) -> Result<Site, EvalError>
    ensures { Refines (paid_site world.now line called.entry machine.old) result machine.new }
{
    let block = 1 + called.number as usize;
    let frame = paid_frame(machine, world, line, called.file, block, Some(called.frame))?;
    Ok(Site {
        file: called.file,
        frame,
        line,
    })
}

/// Enters a call whose parameters each get the argument at their own position: makes the frame, which pays 1, with the
/// parameters in it; then the definition is active. Returns the place of the body.
#[tactic(auto, unfolding(crate::specs::Entering::begin))]
pub fn enter_positional(
    machine: &mut Machine,
    world: &World,
    line: usize,
    called: Called<'_>,
    values: &[Value],
) -> Result<Site, EvalError>
    ensures { Refines (entered_with world.now line called.entry
        (positional called.entry.definition.parameters.now values.now) machine.old) result machine.new }
{
    let site = paid_site(machine, world, line, called)?;
    bind_positional(machine, world, &site, called.definition.parameters, values)?;
    machine.activate(site.file, called.number)?;
    Ok(site)
}

/// Enters a call whose parameters have these values: makes the frame, which pays 1, with the parameters in it; then the
/// definition is active. Returns the place of the body.
#[tactic(auto, unfolding(crate::specs::Entering::begin))]
fn enter_with(
    machine: &mut Machine,
    world: &World,
    line: usize,
    called: Called<'_>,
    values: &[(&Name, Value)],
) -> Result<Site, EvalError>
    ensures { Refines (entered_with world.now line called.entry (map bound_value values.now) machine.old)
        result machine.new }
{
    let site = paid_site(machine, world, line, called)?;
    bind_all(machine, world, &site, values)?;
    machine.activate(called.file, called.number)?;
    Ok(site)
}

/// Enters a call: makes the values of its parameters, then the frame, which pays 1; then the definition is active.
/// Returns the place of the body.
pub fn enter_call(
    machine: &mut Machine,
    world: &World,
    line: usize,
    called: Called<'_>,
    shares: &BoundArguments<'_, '_>,
) -> Result<Site, EvalError>
    ensures { Refines (entered world.now line called.entry shares.now machine.old) result machine.new }
{
    let values = build_arguments(machine, line, shares)?;
    enter_with(machine, world, line, called, &values)
}
