//! Binding the names of a load statement.

ghost use Rattle.std.specs.Prelude.{◌≡◌};
ghost use Rattle.std.specs.Option.{option_and_then, option_copied};
ghost use Rattle.star_store.specs.Store.{global_of};
ghost use Rattle.star_machine.specs.Refines.{Refines};
ghost use Rattle.star_meaning.specs.Run.{all_of};
ghost use Rattle.star_meaning.specs.Statements as spec;
ghost use Rattle.star_world.specs.World.{variables};

use crate::variables::bind;
use crate::world::World;
use star_machine::fault::{EvalError, fault_at};
use star_machine::machine::Machine;
use star_meaning::fault::FaultCode;
use star_meaning::site::Site;
use star_store::arena::Frozen;
use star_store::values::Value;
use star_tree::tree::{LoadedName, Position};

/// The published module of a load statement.
fn published<'w>(world: &'w World<'_, '_>, position: Position) -> Option<&'w Frozen>
    ensures { option_copied result ≡ spec.module_of world.now.setting position }
{
    match world.setting().loaded(position.token) {
        Some(file) => world.setting().published(file),
        None => None,
    }
}

/// The global of a loaded module.
fn global(published: Option<&Frozen>, name: &LoadedName) -> Option<Value>
    ensures { result ≡ option_and_then (λ q. global_of name.now.loaded.text q.globals) (option_copied published.entry) }
{
    match published {
        Some(published) => published.global(name.loaded.text.as_str()),
        None => None,
    }
}

/// Binds a loaded name to the global of the loaded module. `NoName` if that is missing or unbound.
fn load_name(
    machine: &mut Machine,
    world: &World,
    place: &Site,
    published: Option<&Frozen>,
    name: &LoadedName,
) -> Result<(), EvalError>
    ensures { Refines (spec.load_name (variables world.now) place.now (option_copied published.entry) name.now
        machine.old) result machine.new }
{
    let Some(value) = global(published, name) else {
        return Err(fault_at(FaultCode::NoName, place.line));
    };
    bind(machine, world, place, &name.local, value)
}

/// Binds loaded names, one after another.
fn load_each(
    machine: &mut Machine,
    world: &World,
    place: &Site,
    published: Option<&Frozen>,
    names: &[LoadedName],
) -> Result<(), EvalError>
    ensures { Refines (all_of (spec.load_name (variables world.now) place.now (option_copied published.entry)) names.now
        machine.old) result machine.new }
{
    for name in names {
        load_name(machine, world, place, published, name)?;
    }
    Ok(())
}

/// Binds the names of a load statement to the globals of the module that it loads. `NoName` if one is missing or
/// unbound.
pub fn load_names(
    machine: &mut Machine,
    world: &World,
    place: &Site,
    position: Position,
    names: &[LoadedName],
) -> Result<(), EvalError>
    ensures { Refines (all_of (spec.load_name (variables world.now) place.now
        (spec.module_of world.now.setting position))
        names.now machine.old) result machine.new }
{
    let published = published(world, position);
    load_each(machine, world, place, published, names)
}
