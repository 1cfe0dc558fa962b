//! `== != < > <= >=`, `in` and `not in`.

ghost use Rattle.std.specs.Prelude.{◌≡◌, ◌<◌, ◌<ℤ◌, ◌-ℤ◌, pos};
ghost use Rattle.star_store.specs.declared.values.Cell.TheVariants as cell;
ghost use Rattle.star_machine.specs.Refines.{Refines};
ghost use Rattle.star_machine.specs.Kinds.{bytes_of, row_in};
ghost use Rattle.star_meaning.specs.Operators as spec;
ghost use Rattle.star_meaning.specs.Program.{seen};
ghost use Rattle.star_operators.specs.Operands.{is_within};
ghost use Rattle.star_operators.specs.Reached.{reached};
ghost use Rattle.star_meaning.specs.Subscript.{entries_in};
ghost use Rattle.star_meaning.specs.Values.{Held, content};

use star_machine::content::Kind;
use star_machine::fault::{EvalError, fault_at};
use star_machine::machine::Machine;
use star_machine::setting::Setting;
use star_machine::texts::place_between;
use star_meaning::fault::FaultCode;
use star_store::range::Range;
use star_store::values::Value;
use star_tree::tree::Comparator;

/// Whether one of the items of a list or tuple is equal to a value.
#[tactic(auto, unfolding(star_machine::specs::Search::found_place), using(crate::proofs::FirstEqual::has_some))]
fn list_contains(
    machine: &mut Machine,
    setting: &Setting,
    levels: u32,
    line: usize,
    value: Value,
    row: Value,
) -> Result<bool, EvalError>
    ensures { Refines (spec.list_contains setting.now levels line (row_in (seen setting.now machine.old row)) value
        machine.old) result machine.new }
{
    let place = machine.equal_place(setting, levels, line, row, value)?;
    Ok(place.is_some())
}

/// Whether a value is a key of a dictionary, or an element of a set. `BadType` if it is not hashable.
fn dict_contains(
    machine: &mut Machine,
    setting: &Setting,
    levels: u32,
    line: usize,
    value: Value,
    dict: Value,
) -> Result<bool, EvalError>
    ensures { Refines (spec.has setting.now levels line
        (Held (cell.Dict (entries_in (content setting.now machine.old dict)))) value machine.old)
        result machine.new }
{
    machine.check_key(setting, levels, line, value)?;
    Ok(machine.place_in(setting, dict, value).is_some())
}

/// Whether a string is a substring of another one. `BadType` if it is not a string. It opens no value, so it needs no
/// levels.
fn has_text(
    machine: &mut Machine,
    setting: &Setting,
    line: usize,
    value: Value,
    text: Value,
) -> Result<bool, EvalError>
    ensures { Refines (spec.has setting.now 0 line
        (Held (cell.Text (bytes_of (content setting.now machine.old text)))) value machine.old) result machine.new }
{
    machine.check_text(setting, line, value)?;
    machine.pay(line, machine.text_size(setting, text) as u128)?;
    Ok(is_substring(machine, setting, value, text))
}

/// Whether a string is a substring of another one.
fn is_substring(machine: &Machine, setting: &Setting, part: Value, text: Value) -> bool
    ensures { result ≡ is_within (bytes_of (content setting.now machine.now text))
        (bytes_of (content setting.now machine.now part)) }
{
    let text = machine.bytes(setting, text);
    place_between(text, machine.bytes(setting, part), 0, text.len()).is_some()
}

/// Whether a value is in another one: an equal item of a list or tuple, a key of a dictionary, an element of a set, an
/// int of a range, a substring. `BadType` for other values.
#[tactic(auto, using(crate::proofs::KindCases::has_list, crate::proofs::KindCases::has_tuple, crate::proofs::KindCases::has_dict, crate::proofs::KindCases::has_set, crate::proofs::KindCases::has_text, crate::proofs::KindCases::has_range, crate::proofs::KindCases::has_other))]
fn has(
    machine: &mut Machine,
    setting: &Setting,
    levels: u32,
    line: usize,
    value: Value,
    container: Value,
) -> Result<bool, EvalError>
    ensures { Refines (spec.contains setting.now levels line value container machine.old) result machine.new }
{
    match machine.kind(setting, container) {
        Kind::List => list_contains(machine, setting, levels, line, value, container),
        Kind::Tuple => list_contains(machine, setting, levels, line, value, container),
        Kind::Dict => dict_contains(machine, setting, levels, line, value, container),
        Kind::Set => dict_contains(machine, setting, levels, line, value, container),
        Kind::Text => has_text(machine, setting, line, value, container),
        Kind::Range(range) => Ok(has_int(range, machine.int_of(setting, value))),
        _ => Err(fault_at(FaultCode::BadType, line)),
    }
}

/// Whether an int is in a range.
fn has_int(range: Range, int: Option<i64>) -> bool
    ensures { result ≡ spec.range_has_value range int }
{
    match int {
        Some(int) => range_has(range, int),
        None => false,
    }
}

/// The answer of a comparison of two values.
#[tactic(auto, unfolding(star_meaning::specs::Operators::comparison))]
pub fn comparison(
    machine: &mut Machine,
    setting: &Setting,
    levels: u32,
    line: usize,
    comparator: Comparator,
    x: Value,
    y: Value,
) -> Result<Value, EvalError>
    ensures { Refines (spec.comparison setting.now levels line comparator x y machine.old) result machine.new }
{
    let answer = match comparator {
        Comparator::Equal => machine.equal(setting, levels, line, x, y)?,
        Comparator::NotEqual => !machine.equal(setting, levels, line, x, y)?,
        Comparator::Less => machine.compare(setting, levels, line, x, y)?.is_lt(),
        Comparator::Greater => machine.compare(setting, levels, line, x, y)?.is_gt(),
        Comparator::LessEqual => !machine.compare(setting, levels, line, x, y)?.is_gt(),
        Comparator::GreaterEqual => !machine.compare(setting, levels, line, x, y)?.is_lt(),
        Comparator::In => has(machine, setting, levels, line, x, y)?,
        Comparator::NotIn => !has(machine, setting, levels, line, x, y)?,
    };
    Ok(Value::Bool(answer))
}

/// Whether an int is in a range: a whole number of steps after the start, fewer than the range has ints.
#[tactic(auto, using(crate::proofs::Ranges::has_none))]
fn range_has(range: Range, int: i64) -> bool
    ensures { result ≡ spec.range_has range int }
{
    if range.step > 0 {
        return range_has_up(range, int);
    }
    if range.step < 0 {
        return range_has_down(range, int);
    }
    false
}

#[tactic(auto, using(crate::proofs::Ranges::has_up))]
fn range_has_up(range: Range, int: i64) -> bool
    requires { pos 0 <ℤ range.step }
    ensures { result ≡ spec.range_has range int }
{
    let step = range.step.unsigned_abs();
    is_reached(range.start, int, step, range.len())
}

#[tactic(auto, using(crate::proofs::Ranges::has_down))]
fn range_has_down(range: Range, int: i64) -> bool
    requires { range.step <ℤ pos 0 }
    ensures { result ≡ spec.range_has range int }
{
    let step = range.step.unsigned_abs();
    is_reached(int, range.start, step, range.len())
}

/// Whether fewer than `count` steps of this size lead up from one int to another.
fn is_reached(from: i64, to: i64, step: u64, count: u64) -> bool
    requires { 0 < step }
    ensures { result ≡ reached (to -ℤ from) step count }
{
    if to < from {
        return false;
    }
    let gap = to.abs_diff(from);
    gap % step == 0 && gap / step < count
}
