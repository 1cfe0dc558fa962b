//! The globals of a file: the names that its own block binds, without those that it loads, in byte order.

ghost use Rattle.std.specs.Prelude.{◌≡◌, [], slice_get, IfOk, OnOk};
ghost use Rattle.std.specs.Option.{option_copied, unwrap_or};
ghost use Rattle.star_meaning.specs.Module.{by_name, globals_of, slots_of};
ghost use Rattle.star_meaning.specs.Program.{names_of, seen};
ghost use Rattle.star_meaning.specs.Variables.{frame_of};
ghost use Rattle.star_module.specs.Globals.{all_now, borrowed, in_slots, own_loads, own_value, owned};

use star_machine::machine::Machine;
use star_store::slots::Slots;
use star_store::values::{Cell, Value};
use star_world::world::World;
use std::alloc::{AllocError, Global};

/// Adds the global of a slot of the running file's own frame under its name: nothing if its variable is unbound, or the
/// file loads the name.
fn own_value(world: &World, slots: &Slots, slot: usize, name: &str) -> Option<Value>
    ensures { result ≡ own_value (own_loads world.now.setting) name.now (slice_get slots.now slot) }
{
    if world.is_loaded(world.setting().home(), name) {
        return None;
    }
    match slots.get(slot) {
        Some(value) => value,
        None => None,
    }
}

/// The globals under names with slots, in order of the slots.
fn in_slots<'t>(
    alloc: Global,
    world: &World,
    slots: &Slots,
    names: &[&'t str],
) -> Result<Vec<(&'t str, Value)>, AllocError>
    ensures { IfOk result (λ found. borrowed found.items ≡ in_slots world.now.setting (all_now names.now) slots.now) }
{
    let mut found = Vec::new(alloc);
    for (slot, name) in names.iter().enumerate() {
        if let Some(value) = own_value(world, slots, slot, *name) {
            found.push((*name, value))?;
        }
    }
    Ok(found)
}

/// Sorts names with values by the bytes of the names.
fn sort_by_name(named: &mut Vec<(&str, Value)>) -> Result<(), AllocError>
    ensures { OnOk result (borrowed named.new.items ≡ by_name (borrowed named.old.items)) }
{
    named.sort_by_key(|one| one.0)?;
    Ok(())
}

/// These names with their values; the names are copied.
fn copied(alloc: Global, named: &[(&str, Value)]) -> Result<Vec<(String, Value)>, AllocError>
    ensures { IfOk result (λ copies. owned copies.items ≡ borrowed named.now) }
{
    let mut copies = Vec::new(alloc);
    for (name, value) in named {
        copies.push((String::from_str(alloc, *name)?, *value))?;
    }
    Ok(copies)
}

/// The globals that the running file's own frame has, if these are its slots.
fn globals_in(
    alloc: Global,
    world: &World,
    slots: &Slots,
) -> Result<Vec<(String, Value)>, AllocError>
    ensures { let w = world.now.setting in IfOk
        result (λ gs. owned gs.items ≡ by_name (in_slots w (names_of w w.home 0) slots.now)) }
{
    let Some(names) = world.names(world.setting().home(), 0) else {
        return Ok(Vec::new(alloc));
    };
    let mut found = in_slots(alloc, world, slots, names.as_slice())?;
    sort_by_name(&mut found)?;
    copied(alloc, found.as_slice())
}

/// The slots of the frame that a value leads to; `None` for another value.
fn slots_at<'w>(machine: &'w Machine, world: &'w World, frame: Value) -> Option<&'w Slots>
    ensures { unwrap_or (option_copied result) [] ≡ slots_of (frame_of (seen world.now.setting machine.now frame)) }
{
    match machine.read(world.setting(), frame) {
        Some(Cell::Frame(found)) => Some(&found.get().slots),
        _ => None,
    }
}

/// The globals of the running file, whose own frame this is, in byte order of their names.
pub(crate) fn globals_of(
    machine: &Machine,
    world: &World,
    frame: Value,
) -> Result<Vec<(String, Value)>, AllocError>
    ensures { IfOk result (λ gs. owned gs.items ≡ globals_of world.now.setting machine.now frame) }
{
    let alloc = machine.alloc();
    match slots_at(machine, world, frame) {
        Some(slots) => globals_in(alloc, world, slots),
        None => Ok(Vec::new(alloc)),
    }
}
