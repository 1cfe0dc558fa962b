//! Reading and binding variables by their spots, and making frames. Only names of the prelude and of built-ins
//! are looked up by their text.

ghost use Rattle.std.specs.Prelude.{◌≡◌, ◌<◌, ◌+◌, ◌^◌, None, Some, length, map, slice_get, IfOk};
ghost use Rattle.std.specs.Option.{option_and_then, option_copied};
ghost use Rattle.star_store.specs.Names.{built_in_name};
ghost use Rattle.star_store.specs.Store.{global_of};
ghost use Rattle.star_machine.specs.Refines.{Refines};
ghost use Rattle.star_meaning.specs.Places.{at_spot, bind_spot, frame_above, joined, new_slots, own_spot, read_spot, slot_in};
ghost use Rattle.star_meaning.specs.Program.{published_of, seen};
ghost use Rattle.star_meaning.specs.Programs.{tables_of};
ghost use Rattle.star_meaning.specs.Run.{and_then, build, found, pay};
ghost use Rattle.star_meaning.specs.declared.fault.FaultCode.TheVariants.{Unbound};
ghost use Rattle.star_meaning.specs.Variables.{built_ins, core_built_ins, frame_of, further_built_ins, outermost, own_values, recorded_from};

use crate::world::World;
use star_dialect::{Dialect, Language, Recorded};
use star_machine::fault::{EvalError, fault_at};
use star_machine::machine::Machine;
use star_machine::setting::Setting;
use star_meaning::fault::FaultCode;
use star_meaning::site::Site;
use star_scope::spot::Spot;
use star_store::names::BuiltIn;
use star_store::slots::Slots;
use star_store::values::{BoxedFrame, Cell, Frame, Value};
use star_tree::tree::Name;
use std::alloc::{AllocError, Global};

/// The frame that a value leads to; `None` for another value.
fn frame_at<'a>(machine: &'a Machine, setting: &'a Setting<'a>, value: Value) -> Option<&'a Frame>
    ensures { option_copied result ≡ frame_of (seen setting.now machine.now value) }
{
    match machine.read(setting, value) {
        Some(Cell::Frame(frame)) => Some(frame.get()),
        _ => None,
    }
}

/// The frame around a frame.
fn parent_of(machine: &Machine, setting: &Setting, frame: Option<Value>) -> Option<Value>
    ensures { result ≡ option_and_then (λ f. f.parent)
        (option_and_then (λ v. frame_of (seen setting.now machine.now v)) frame) }
{
    match frame {
        Some(value) => {
            match frame_at(machine, setting, value) {
                Some(found) => found.parent,
                None => None,
            }
        }
        None => None,
    }
}

/// The frame that is `up` frames above a frame.
#[tactic(auto, using(crate::proofs::Frames::above_next))]
fn frame_above(machine: &Machine, setting: &Setting, up: usize, frame: Value) -> Option<Value>
    ensures { result ≡ frame_above setting.now machine.now up (Some frame) }
{
    let mut found = Some(frame);
    for _i in 0..up {
        found = parent_of(machine, setting, found);
    }
    found
}

/// The value of a slot; `None` if its variable is unbound, or there is no such slot.
fn value_of(slots: &Slots, slot: usize) -> Option<Value>
    ensures { result ≡ joined (slice_get slots.now slot) }
{
    match slots.get(slot) {
        Some(value) => value,
        None => None,
    }
}

/// The value of a slot of a frame.
fn value_in(
    machine: &Machine,
    setting: &Setting,
    slot: usize,
    frame: Option<Value>,
) -> Option<Value>
    ensures { result ≡ joined (slot_in setting.now machine.now slot frame) }
{
    match frame {
        Some(value) => {
            match frame_at(machine, setting, value) {
                Some(found) => value_of(&found.slots, slot),
                None => None,
            }
        }
        None => None,
    }
}

/// The value of a name among the globals of the prelude.
#[inline(never)]
fn prelude_value(setting: &Setting, name: &str) -> Option<Value>
    ensures { result ≡ option_and_then (λ q. global_of name.now q.globals)
        (option_and_then (published_of setting.now) setting.now.prelude) }
{
    match setting.prelude() {
        Some(file) => {
            match setting.published(file as usize) {
                Some(store) => store.global(name),
                None => None,
            }
        }
        None => None,
    }
}

/// The value of a name among built-in functions.
fn built_in_among(functions: &[BuiltIn], name: &str) -> Option<Value>
    ensures { result ≡ global_of name.now (map (λ b. (built_in_name b, Value.Builtin b)) functions.now) }
{
    for function in functions {
        if function.name() == name {
            return Some(Value::Builtin(*function));
        }
    }
    None
}

/// The value of a name of a built-in function of the core.
fn core_built_in(name: &str) -> Option<Value>
    ensures { result ≡ global_of name.now (map (λ b. (built_in_name b, Value.Builtin b)) core_built_ins) }
{
    let functions = [
        BuiltIn::Abs,
        BuiltIn::All,
        BuiltIn::Any,
        BuiltIn::Bool,
        BuiltIn::Dict,
        BuiltIn::Enumerate,
        BuiltIn::Fail,
        BuiltIn::Int,
        BuiltIn::Len,
        BuiltIn::List,
        BuiltIn::Max,
        BuiltIn::Min,
        BuiltIn::Print,
        BuiltIn::Range,
        BuiltIn::Repr,
        BuiltIn::Reversed,
        BuiltIn::Sorted,
        BuiltIn::Str,
        BuiltIn::Tuple,
        BuiltIn::Type,
        BuiltIn::Zip,
    ];
    built_in_among(&functions, name)
}

/// The value of a name that the extended language has further: of a built-in function, or of the module `json`.
fn further_built_in(name: &str) -> Option<Value>
    ensures { result ≡ global_of name.now (map (λ b. (built_in_name b, Value.Builtin b)) further_built_ins) }
{
    let functions = [
        BuiltIn::Chr,
        BuiltIn::Dir,
        BuiltIn::Getattr,
        BuiltIn::Hasattr,
        BuiltIn::Hash,
        BuiltIn::Json,
        BuiltIn::Ord,
        BuiltIn::Set,
        BuiltIn::Struct,
    ];
    built_in_among(&functions, name)
}

/// The value of a name of a built-in function of a dialect.
#[tactic(auto, using(crate::proofs::BuiltIns::first_of_both))]
fn built_in(dialect: Dialect, name: &str) -> Option<Value>
    ensures { result ≡ global_of name.now (map (λ b. (built_in_name b, Value.Builtin b)) (built_ins dialect)) }
{
    match core_built_in(name) {
        Some(value) => Some(value),
        None => match dialect {
            Dialect::Core => None,
            Dialect::Extended => further_built_in(name),
        },
    }
}

/// The value of a name of the language's own.
fn own_value(dialect: Dialect, name: &str) -> Option<Value>
    ensures { result ≡ global_of name.now (own_values dialect) }
{
    if "None" == name {
        return Some(Value::NoneValue);
    }
    if "True" == name {
        return Some(Value::Bool(true));
    }
    if "False" == name {
        return Some(Value::Bool(false));
    }
    built_in(dialect, name)
}

/// The function with a recorded name.
#[tactic(auto, using(crate::proofs::BuiltIns::recorded_at))]
fn recorded_value(recorded: &Recorded, name: &str) -> Option<Value>
    ensures { result ≡ global_of name.now (recorded_from 0 recorded.now) }
{
    match recorded.index(name) {
        Some(place) => Some(Value::Builtin(BuiltIn::Recorded(place))),
        None => None,
    }
}

/// The value of a name of the outermost block.
#[inline(never)]
#[tactic(auto, using(crate::proofs::BuiltIns::own_first))]
fn outermost_value(language: &Language, name: &str) -> Option<Value>
    ensures { result ≡ global_of name.now (outermost language.now) }
{
    match own_value(language.dialect, name) {
        Some(value) => Some(value),
        None => recorded_value(&language.recorded, name),
    }
}

/// The value at a spot; `None` if it is unbound.
fn at_spot(
    machine: &Machine,
    setting: &Setting,
    site: &Site,
    name: &str,
    spot: Option<Spot>,
) -> Option<Value>
    ensures { result ≡ at_spot setting.now machine.now site.now name.now spot }
{
    match spot {
        Some(Spot::Frame { up, slot }) => {
            let frame = frame_above(machine, setting, up, site.frame);
            return value_in(machine, setting, slot, frame);
        }
        Some(Spot::Prelude) => prelude_value(setting, name),
        Some(Spot::Outermost) => outermost_value(setting.language(), name),
        None => None,
    }
}

/// The value of a name. `Unbound` if it has none.
#[inline(always)]
#[tactic(auto, unfolding(star_meaning::specs::Places::read_spot), using(crate::proofs::Near::near_spot))]
pub fn read(machine: &Machine, world: &World, site: &Site, name: &Name) -> Result<Value, EvalError>
    ensures { Refines (read_spot (tables_of world.now.files) world.now.setting site.now name.now machine.now)
        result machine.now }
{
    let spot = world.spot(site.file, name.position.token);
    if let Some(slot) = own_spot(spot) {
        if let Some(value) = machine.near(site.frame, slot) {
            return Ok(value);
        }
    }
    read_far(machine, world, site, name, spot)
}

/// The value of a name at its spot. `Unbound` if it has none.
#[inline(never)]
fn read_far(
    machine: &Machine,
    world: &World,
    site: &Site,
    name: &Name,
    spot: Option<Spot>,
) -> Result<Value, EvalError>
    ensures { Refines (found Unbound site.now.line
        (at_spot world.now.setting machine.now site.now name.now.text spot) machine.now) result machine.now }
{
    match at_spot(machine, world.setting(), site, name.text.as_str(), spot) {
        Some(value) => Ok(value),
        None => Err(fault_at(FaultCode::Unbound, site.line)),
    }
}

/// The slot of a name in the innermost frame; `None` for a name that is not in it.
#[inline(always)]
pub(crate) fn own_spot(spot: Option<Spot>) -> Option<usize>
    ensures { result ≡ own_spot spot }
{
    match spot {
        Some(Spot::Frame { up: 0, slot }) => Some(slot),
        _ => None,
    }
}

/// Gives a name of the innermost frame a value.
#[tactic(auto, unfolding(star_meaning::specs::Places::bind_spot))]
pub fn bind(
    machine: &mut Machine,
    world: &World,
    site: &Site,
    name: &Name,
    value: Value,
) -> Result<(), EvalError>
    ensures { Refines (bind_spot (tables_of world.now.files) site.now name.now value machine.old) result machine.new }
{
    match own_spot(world.spot(site.file, name.position.token)) {
        Some(slot) => machine.bind(site.frame, slot, value),
        None => Ok(()),
    }
}

/// The cell of a frame with these slots.
fn frame_cell(
    alloc: Global,
    file: u32,
    block: u32,
    parent: Option<Value>,
    slots: Slots,
) -> Result<Cell, AllocError>
    ensures { IfOk result (λ c. c ≡ Cell.Frame
        (record { file = file; block = block; parent = parent; slots = slots })) }
{
    let frame = Frame {
        file,
        block,
        parent,
        slots,
    };
    Ok(Cell::Frame(BoxedFrame::new(alloc, frame)?))
}

/// A new frame of a block that is not paid for, such as the frame of a file. All names of the block are unbound in it.
#[tactic(auto, unfolding(star_meaning::specs::Places::new_slots))]
pub fn new_frame(
    machine: &mut Machine,
    world: &World,
    file: u32,
    block: u32,
    parent: Option<Value>,
) -> Result<Value, EvalError>
    requires { length machine.old.store.cells + machine.old.steps + 1 < 2 ^ 32 }
    ensures { Refines (new_slots (tables_of world.now.files) file block parent machine.old) result machine.new }
{
    let slots = Slots::unbound(machine.alloc(), world.slots(file, block as usize))?;
    let cell = frame_cell(machine.alloc(), file, block, parent, slots)?;
    machine.make(cell)
}

/// A new frame of a block with these slots. It costs 1.
pub fn frame_with(
    machine: &mut Machine,
    line: usize,
    file: u32,
    block: usize,
    parent: Option<Value>,
    slots: Slots,
) -> Result<Value, EvalError>
    ensures { Refines (build line 1 (Cell.Frame (record { file = file; block = block; parent = parent; slots = slots }))
        machine.old) result machine.new }
{
    let Ok(block) = u32::try_from(block) else {
        return Err(EvalError::Memory);
    };
    let cell = frame_cell(machine.alloc(), file, block, parent, slots)?;
    machine.build(line, 1, cell)
}

/// A new frame of a block, as of a call or a comprehension, with all names of the block unbound. It costs 1.
#[tactic(auto, unfolding(star_meaning::specs::Places::new_slots, star_meaning::specs::Run::build))]
pub fn paid_frame(
    machine: &mut Machine,
    world: &World,
    line: usize,
    file: u32,
    block: usize,
    parent: Option<Value>,
) -> Result<Value, EvalError>
    ensures { Refines (and_then (pay line 1 machine.old) (λ _. new_slots (tables_of world.now.files) file block parent))
        result machine.new }
{
    let slots = Slots::unbound(machine.alloc(), world.slots(file, block))?;
    frame_with(machine, line, file, block, parent, slots)
}
