//! `x[i]` of lists, tuples, ranges, strings and dictionaries, and `x[i] = v` of lists and dictionaries.

ghost use Rattle.std.specs.Prelude.{◌≡◌, [], ◌∷◌, ◌<◌, IfOk};
ghost use Rattle.star_machine.specs.Refines.{Refines};
ghost use Rattle.star_machine.specs.Kinds.{bytes_of, size_of};
ghost use Rattle.star_meaning.specs.Subscript as spec;
ghost use Rattle.star_operators.specs.Wanted.{item_of_row, place_wanted};
ghost use Rattle.star_meaning.specs.Values.{content};

use star_machine::content::Kind;
use star_machine::fault::{EvalError, fault_at};
use star_machine::machine::Machine;
use star_machine::setting::Setting;
use star_machine::subscript::{place_from, put_entry};
use star_meaning::fault::FaultCode;
use star_store::arena::write::Change;
use star_store::values::{Value, Values};
use star_text::Text;
use std::alloc::{AllocError, Global};

/// The place that an int names. `BadType` if the value is not an int, `Index` outside.
fn want_place(
    machine: &Machine,
    setting: &Setting,
    line: usize,
    len: usize,
    index: Value,
) -> Result<usize, EvalError>
    ensures { Refines (place_wanted setting.now line len index machine.now) result machine.now }
{
    let int = machine.want_int(setting, line, index)?;
    match place_from(len, int) {
        Some(at) => Ok(at),
        None => Err(fault_at(FaultCode::Index, line)),
    }
}

/// The item of a list, tuple or range at an int. `BadType` for another index, `Index` outside.
fn row_item(
    machine: &Machine,
    setting: &Setting,
    line: usize,
    row: Value,
    index: Value,
) -> Result<Value, EvalError>
    ensures { Refines (item_of_row setting.now line row index machine.now) result machine.now }
{
    let at = want_place(machine, setting, line, machine.size(setting, row), index)?;
    match machine.content(setting, row).item(at) {
        Some(item) => Ok(item),
        None => Err(fault_at(FaultCode::Index, line)),
    }
}

/// The string of one ASCII byte.
fn one_byte(alloc: Global, byte: u8) -> Result<Text, AllocError>
    requires { byte < 128 }
    ensures { IfOk result (λ t. t ≡ byte ∷ []) }
{
    let mut text = String::new(alloc);
    text.push(byte as char)?;
    Text::of(text)
}

/// The byte of a string at an int, as a new string. `BadType` for another index, `Index` outside, `Cut` for a byte that
/// is not ASCII.
fn byte_at(
    machine: &mut Machine,
    setting: &Setting,
    line: usize,
    text: Value,
    index: Value,
) -> Result<Value, EvalError>
    ensures { Refines (spec.byte_at setting.now line (bytes_of
        (content setting.now machine.old text)) index machine.old)
        result machine.new }
{
    let int = machine.want_int(setting, line, index)?;
    let Some(at) = place_from(machine.text_size(setting, text), int) else {
        return Err(fault_at(FaultCode::Index, line));
    };
    let Some(byte) = machine.byte(setting, text, at) else {
        return Err(fault_at(FaultCode::Index, line));
    };
    if byte >= 128 {
        return Err(fault_at(FaultCode::Cut, line));
    }
    let text = one_byte(machine.alloc(), byte)?;
    machine.new_text(line, text)
}

/// The value under a key. `BadType` if the key is not hashable, `Key` if it is absent. This is a function of its own,
/// so that the checks of the key are inlined.
#[inline(never)]
fn entry_value(
    machine: &mut Machine,
    setting: &Setting,
    levels: u32,
    line: usize,
    dict: Value,
    key: Value,
) -> Result<Value, EvalError>
    ensures { Refines (spec.entry_value setting.now levels line (spec.entries_in (content setting.now machine.old dict))
        key machine.old) result machine.new }
{
    machine.check_key(setting, levels, line, key)?;
    let Some(value) = machine.value_in(setting, dict, key) else {
        return Err(fault_at(FaultCode::Key, line));
    };
    Ok(value)
}

/// `x[i]`.
#[tactic(auto, unfolding(star_meaning::specs::Subscript::index), using(crate::proofs::Subscripts::item_list, crate::proofs::Subscripts::item_tuple, crate::proofs::Subscripts::item_range, crate::proofs::Subscripts::item_text, crate::proofs::Subscripts::item_dict, crate::proofs::Subscripts::item_other))]
pub fn index(
    machine: &mut Machine,
    setting: &Setting,
    levels: u32,
    line: usize,
    value: Value,
    at: Value,
) -> Result<Value, EvalError>
    ensures { Refines (spec.index setting.now levels line value at machine.old) result machine.new }
{
    match machine.kind(setting, value) {
        Kind::List => row_item(machine, setting, line, value, at),
        Kind::Tuple => row_item(machine, setting, line, value, at),
        Kind::Range(_) => row_item(machine, setting, line, value, at),
        Kind::Text => byte_at(machine, setting, line, value, at),
        Kind::Dict => entry_value(machine, setting, levels, line, value, at),
        _ => Err(fault_at(FaultCode::BadType, line)),
    }
}

/// `l[i] = v`.
fn set_item(
    machine: &mut Machine,
    setting: &Setting,
    line: usize,
    list: Value,
    index: Value,
    value: Value,
) -> Result<(), EvalError>
    ensures { Refines (spec.set_item setting.now line list (size_of (content setting.now machine.old list)) index value
        machine.old) result machine.new }
{
    machine.guard(setting, line, list)?;
    let at = want_place(machine, setting, line, machine.size(setting, list), index)?;
    let _old = machine.change(setting, line, list, Change::Set(at, value))?;
    Ok(())
}

/// `d[k] = v`.
fn set_entry(
    machine: &mut Machine,
    setting: &Setting,
    levels: u32,
    line: usize,
    dict: Value,
    key: Value,
    value: Value,
) -> Result<(), EvalError>
    ensures { Refines (spec.set_entry setting.now levels line dict key value machine.old) result machine.new }
{
    machine.guard(setting, line, dict)?;
    machine.check_key(setting, levels, line, key)?;
    put_entry(machine, setting, line, dict, key, value)
}

/// `x[i] = v`. `BadType` unless `x` is a list or a dictionary, then the write guard, then the index or the key.
#[tactic(auto, unfolding(star_meaning::specs::Subscript::set_index), using(crate::proofs::Subscripts::set_list, crate::proofs::Subscripts::set_dict, crate::proofs::Subscripts::set_other))]
pub fn set_index(
    machine: &mut Machine,
    setting: &Setting,
    levels: u32,
    line: usize,
    target: Value,
    at: Value,
    value: Value,
) -> Result<(), EvalError>
    ensures { Refines (spec.set_index setting.now levels line target at value machine.old) result machine.new }
{
    match machine.kind(setting, target) {
        Kind::List => set_item(machine, setting, line, target, at, value),
        Kind::Dict => set_entry(machine, setting, levels, line, target, at, value),
        _ => Err(fault_at(FaultCode::BadType, line)),
    }
}
