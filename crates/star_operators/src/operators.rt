//! `+ - * // % & | ^ << >>`, and `+ - ~ not` before an operand.
//!
//! Joined rows are copied before their payment, and so are the values for `%`: nothing is left of the copy if it fails.
//! A repetition tests its payment first.

ghost use Rattle.std.specs.Prelude.{◌≡◌, ◌<◌, ◌+◌, ◌*◌, ◌^◌, ◌++◌, IfOk};
ghost use Rattle.star_store.specs.Arithmetic.{checked, floored_by};
ghost use Rattle.star_machine.specs.Refines.{Refines};
ghost use Rattle.star_meaning.specs.Entries.{with_entries};
ghost use Rattle.star_meaning.specs.Operators as spec;
ghost use Rattle.star_meaning.specs.Sets.{is_set};
ghost use Rattle.star_meaning.specs.Values.{content};
ghost use Rattle.star_operators.specs.Operands.{are_sets, on_dicts, on_operands, on_sets};

use crate::percent::percent;
use star_machine::content::{Content, Kind};
use star_machine::fault::{EvalError, fault_at};
use star_machine::gathered::DictBuilder;
use star_machine::machine::Machine;
use star_machine::sets::merge_new;
use star_machine::setting::Setting;
use star_meaning::fault::FaultCode;
use star_meaning::merge::Merge;
use star_store::arithmetic::{add, floor_div, floor_mod, mul, neg, shl, sub};
use star_store::fault::StoreFault;
use star_store::values::{Cell, Entries, Value, Values};
use star_text::Text;
use star_tree::tree::{BinaryOperator, UnaryOperator};
use std::alloc::{AllocError, Global};

/// An int of 64 bits is the value of its arithmetic.
fn whole(int: i64) -> Result<i64, StoreFault>
    ensures { result ≡ checked int }
{
    Ok(int)
}

/// An operator on two ints. `Zero` for a divisor of 0, `BadValue` for a count below 0, `Overflow` outside 64 bits.
#[inline(always)]
fn on_ints(
    machine: &Machine,
    line: usize,
    operator: BinaryOperator,
    x: i64,
    y: i64,
) -> Result<Value, EvalError>
    ensures { Refines (spec.on_ints line operator x y machine.now) result machine.now }
{
    match operator {
        BinaryOperator::Add => machine.new_int(line, add(x, y)),
        BinaryOperator::Subtract => machine.new_int(line, sub(x, y)),
        BinaryOperator::Multiply => machine.new_int(line, mul(x, y)),
        BinaryOperator::FloorDivide => divide(machine, line, x, y),
        BinaryOperator::Modulo => remainder(machine, line, x, y),
        BinaryOperator::ShiftLeft => shift_left(machine, line, x, y),
        BinaryOperator::ShiftRight => shift_right(machine, line, x, y),
        BinaryOperator::BitAnd => machine.new_int(line, whole(x & y)),
        BinaryOperator::BitXor => machine.new_int(line, whole(x ^ y)),
        BinaryOperator::BitOr => machine.new_int(line, whole(x | y)),
    }
}

#[inline(always)]
fn divide(machine: &Machine, line: usize, x: i64, y: i64) -> Result<Value, EvalError>
    ensures { Refines (spec.divide line x y machine.now) result machine.now }
{
    if y == 0 {
        return Err(fault_at(FaultCode::Zero, line));
    }
    machine.new_int(line, floor_div(x, y))
}

#[inline(always)]
fn remainder(machine: &Machine, line: usize, x: i64, y: i64) -> Result<Value, EvalError>
    ensures { Refines (spec.remainder line x y machine.now) result machine.now }
{
    if y == 0 {
        return Err(fault_at(FaultCode::Zero, line));
    }
    machine.new_int(line, floor_mod(x, y))
}

#[tactic(auto, using(crate::proofs::Shifts::left_up, crate::proofs::Shifts::left_below))]
fn shift_left(machine: &Machine, line: usize, x: i64, count: i64) -> Result<Value, EvalError>
    ensures { Refines (spec.shift_left line x count machine.now) result machine.now }
{
    if count < 0 {
        return Err(fault_at(FaultCode::BadValue, line));
    }
    machine.new_int(line, shl(x, count))
}

#[tactic(auto, using(crate::proofs::Shifts::right_up, crate::proofs::Shifts::right_below))]
fn shift_right(machine: &Machine, line: usize, x: i64, count: i64) -> Result<Value, EvalError>
    ensures { Refines (spec.shift_right line x count machine.now) result machine.now }
{
    if count < 0 {
        return Err(fault_at(FaultCode::BadValue, line));
    }
    machine.new_int(line, whole(shifted_right(x, count.unsigned_abs())))
}

/// An int, halved and rounded down `count` times.
#[tactic(auto, using(crate::proofs::Shifts::shifted_right, crate::proofs::Shifts::halved_far))]
fn shifted_right(x: i64, count: u64) -> i64
    ensures { result ≡ floored_by x (2 ^ count) }
{
    if count < 63 { x >> count } else { x >> 63 }
}

/// A sign before an int. `Overflow` outside 64 bits.
fn signed(
    machine: &Machine,
    line: usize,
    operator: UnaryOperator,
    x: i64,
) -> Result<Value, EvalError>
    ensures { Refines (spec.signed line operator x machine.now) result machine.now }
{
    match operator {
        UnaryOperator::Plus => Ok(Value::Int(x)),
        UnaryOperator::Minus => machine.new_int(line, neg(x)),
        UnaryOperator::Invert => machine.new_int(line, whole(!x)),
        UnaryOperator::Not => Ok(Value::Bool(x == 0)),
    }
}

/// `not` of any value, or a sign before an int. `BadType` if it is not an int, `Overflow` outside 64 bits.
#[tactic(auto, unfolding(star_meaning::specs::Operators::prefix))]
pub fn prefix(
    machine: &Machine,
    setting: &Setting,
    line: usize,
    operator: UnaryOperator,
    value: Value,
) -> Result<Value, EvalError>
    ensures { Refines (spec.prefix setting.now line operator value machine.now) result machine.now }
{
    if let UnaryOperator::Not = operator {
        return Ok(Value::Bool(!machine.is_true(setting, value)));
    }
    let int = machine.want_int(setting, line, value)?;
    signed(machine, line, operator, int)
}

/// The values of one row, and then the values of another.
fn joined(alloc: Global, front: &Values, back: &Values) -> Result<Values, AllocError>
    ensures { IfOk result (λ r. r ≡ front.now ++ back.now) }
{
    let mut items = Vec::new(alloc);
    items.extend_from_slice(front.as_slice())?;
    items.extend_from_slice(back.as_slice())?;
    Ok(Values::new(items))
}

/// The bytes of one string, and then the bytes of another.
fn joined_text(alloc: Global, front: &Text, back: &Text) -> Result<Text, AllocError>
    ensures { IfOk result (λ t. t ≡ front.now ++ back.now) }
{
    let mut text = String::from_str(alloc, front.as_str())?;
    text.push_str(back.as_str())?;
    Text::of(text)
}

/// The sum of two ints, or two strings, lists or tuples joined. `BadType` for other operands.
fn add_values(
    machine: &mut Machine,
    setting: &Setting,
    line: usize,
    x: Value,
    y: Value,
) -> Result<Value, EvalError>
    ensures { Refines (spec.add line (content setting.now machine.old x)
        (content setting.now machine.old y) machine.old)
        result machine.new }
{
    let alloc = machine.alloc();
    match (machine.content(setting, x), machine.content(setting, y)) {
        (Content::Number(x), Content::Number(y)) => machine.new_int(line, add(x, y)),
        (Content::Held(Cell::Text(t)), Content::Held(Cell::Text(u))) => {
            let text = joined_text(alloc, t, u)?;
            machine.new_text(line, text)
        }
        (Content::Held(Cell::List(xs)), Content::Held(Cell::List(ys))) => {
            let items = joined(alloc, xs, ys)?;
            machine.new_list(line, items)
        }
        (Content::Held(Cell::Tuple(xs)), Content::Held(Cell::Tuple(ys))) => {
            let items = joined(alloc, xs, ys)?;
            machine.new_tuple(line, items)
        }
        _ => Err(fault_at(FaultCode::BadType, line)),
    }
}

/// The number of times that an int means; 0 if it is below 1.
fn count_from(int: i64) -> u64
    ensures { result ≡ spec.count_from int }
{
    if int < 0 { 0 } else { int as u64 }
}

/// A list or tuple repeated `count` times.
#[tactic(auto, using(crate::proofs::Times::times_more, crate::proofs::Times::times_nil))]
fn repeated_row(alloc: Global, items: &Values, count: u64) -> Result<Values, AllocError>
    ensures { IfOk result (λ r. r ≡ spec.times count items.now) }
{
    let mut made = Vec::new(alloc);
    if items.len() > 0 {
        for _i in 0..count {
            made.extend_from_slice(items.as_slice())?;
        }
    }
    Ok(Values::new(made))
}

/// A string repeated `count` times.
#[tactic(auto, using(crate::proofs::Times::times_more, crate::proofs::Times::times_nil))]
fn repeated_text(alloc: Global, text: &Text, count: u64) -> Result<Text, AllocError>
    ensures { IfOk result (λ t. t ≡ spec.times count text.now) }
{
    let mut made = String::new(alloc);
    if text.as_str().len() > 0 {
        for _i in 0..count {
            made.push_str(text.as_str())?;
        }
    }
    Text::of(made)
}

/// The result of `1 + size * count`.
fn cost_of(size: usize, count: u64) -> u128
    ensures value { result ≡ 1 + size * count }
    ensures some { 0 < result }
{
    1 + size as u128 * count as u128
}

/// A string, list or tuple repeated `count` times. `Steps` before anything is made, `BadType` for another value.
#[tactic(auto, unfolding(star_meaning::specs::Run::build, star_meaning::specs::Run::pay))]
fn repeated(
    machine: &mut Machine,
    setting: &Setting,
    line: usize,
    value: Value,
    count: u64,
) -> Result<Value, EvalError>
    ensures { Refines (spec.repeated line (content setting.now machine.old value) count machine.old)
        result machine.new }
{
    let alloc = machine.alloc();
    match machine.content(setting, value) {
        Content::Held(Cell::Text(text)) => {
            let cost = cost_of(text.as_str().len(), count);
            machine.afford(line, cost)?;
            let text = repeated_text(alloc, text, count)?;
            machine.build(line, cost, Cell::Text(text))
        }
        Content::Held(Cell::List(items)) => {
            let cost = cost_of(items.len(), count);
            machine.afford(line, cost)?;
            let items = repeated_row(alloc, items, count)?;
            machine.build(line, cost, Cell::List(items))
        }
        Content::Held(Cell::Tuple(items)) => {
            let cost = cost_of(items.len(), count);
            machine.afford(line, cost)?;
            let items = repeated_row(alloc, items, count)?;
            machine.build(line, cost, Cell::Tuple(items))
        }
        _ => Err(fault_at(FaultCode::BadType, line)),
    }
}

/// The product of two ints, or a string, list or tuple repeated as often as an int says. `BadType` for other operands.
#[tactic(auto, using(crate::proofs::Contents::product, crate::proofs::Contents::product_left, crate::proofs::Contents::product_right, crate::proofs::Contents::no_product))]
fn multiply(
    machine: &mut Machine,
    setting: &Setting,
    line: usize,
    x: Value,
    y: Value,
) -> Result<Value, EvalError>
    ensures { Refines (spec.multiply line (content setting.now machine.old x) (content setting.now machine.old y)
        machine.old) result machine.new }
{
    match (machine.int_of(setting, x), machine.int_of(setting, y)) {
        (Some(a), Some(b)) => machine.new_int(line, mul(a, b)),
        (Some(a), None) => repeated(machine, setting, line, y, count_from(a)),
        (None, Some(b)) => repeated(machine, setting, line, x, count_from(b)),
        (None, None) => Err(fault_at(FaultCode::BadType, line)),
    }
}

/// A copy of the entries.
fn copied(alloc: Global, entries: &Entries) -> Result<Entries, AllocError>
    ensures { IfOk result (λ r. r ≡ entries.now) }
{
    let mut made = Entries::with_capacity(alloc, entries.len())?;
    for (key, value) in entries.as_slice() {
        made.push(*key, *value)?;
    }
    Ok(made)
}

/// The entries of one dictionary, with the entries of another put in.
fn union_of(
    machine: &Machine,
    setting: &Setting,
    left: &Entries,
    right: &Entries,
) -> Result<Entries, AllocError>
    ensures { IfOk result (λ r. r ≡ with_entries setting.now machine.now left.now right.now) }
{
    let copy = copied(machine.alloc(), left)?;
    let mut made = DictBuilder::of(machine, setting, copy, right.len());
    for entry in right.as_slice() {
        made.put(machine, setting, *entry)?;
    }
    Ok(made.into_entries())
}

/// A new dictionary of the left one's entries, with the right one's put in. `BadType` for other operands.
fn unite_dicts(
    machine: &mut Machine,
    setting: &Setting,
    line: usize,
    x: Value,
    y: Value,
) -> Result<Value, EvalError>
    ensures { Refines (on_dicts setting.now line (content setting.now machine.old x) (content setting.now machine.old y)
        machine.old) result machine.new }
{
    match (machine.content(setting, x), machine.content(setting, y)) {
        (Content::Held(Cell::Dict(left)), Content::Held(Cell::Dict(right))) => {
            let entries = union_of(machine, setting, left, right)?;
            machine.new_dict(line, entries)
        }
        _ => Err(fault_at(FaultCode::BadType, line)),
    }
}

/// Whether a value is a set.
fn is_set(machine: &Machine, setting: &Setting, value: Value) -> bool
    ensures { result ≡ is_set (content setting.now machine.now value) }
{
    matches!(machine.content(setting, value), Content::Held(Cell::Set(_)))
}

/// Whether two values are sets.
fn are_sets(machine: &Machine, setting: &Setting, x: Value, y: Value) -> bool
    ensures { result ≡ are_sets (content setting.now machine.now x) (content setting.now machine.now y) }
{
    is_set(machine, setting, x) && is_set(machine, setting, y)
}

/// A new set of two that are merged. `BadType` for other operands.
#[tactic(auto, using(crate::proofs::KindCases::sets_both, crate::proofs::KindCases::sets_not))]
fn merge_sets(
    machine: &mut Machine,
    setting: &Setting,
    levels: u32,
    line: usize,
    merge: Merge,
    x: Value,
    y: Value,
) -> Result<Value, EvalError>
    ensures { Refines (on_sets setting.now levels line merge (content setting.now machine.old x)
        (content setting.now machine.old y) y machine.old) result machine.new }
{
    if !are_sets(machine, setting, x, y) {
        return Err(fault_at(FaultCode::BadType, line));
    }
    merge_new(machine, setting, levels, line, merge, x, &[y])
}

/// Of two sets a new set, of two dictionaries a new dictionary. `BadType` for other operands.
#[tactic(auto, using(crate::proofs::KindCases::or_sets, crate::proofs::KindCases::or_others))]
fn unite(
    machine: &mut Machine,
    setting: &Setting,
    levels: u32,
    line: usize,
    x: Value,
    y: Value,
) -> Result<Value, EvalError>
    ensures { Refines (on_operands setting.now levels line BinaryOperator.BitOr x y machine.old) result machine.new }
{
    if are_sets(machine, setting, x, y) {
        return merge_sets(machine, setting, levels, line, Merge::Union, x, y);
    }
    unite_dicts(machine, setting, line, x, y)
}

/// The result of the operator on operands that are not two ints. `BadType` if it does not take them.
#[tactic(auto, using(crate::proofs::KindCases::sets_and, crate::proofs::KindCases::sets_minus, crate::proofs::KindCases::sets_xor))]
fn on_others(
    machine: &mut Machine,
    setting: &Setting,
    levels: u32,
    line: usize,
    operator: BinaryOperator,
    x: Value,
    y: Value,
) -> Result<Value, EvalError>
    ensures { Refines (on_operands setting.now levels line operator x y machine.old) result machine.new }
{
    match operator {
        BinaryOperator::Add => add_values(machine, setting, line, x, y),
        BinaryOperator::Multiply => multiply(machine, setting, line, x, y),
        BinaryOperator::BitOr => unite(machine, setting, levels, line, x, y),
        BinaryOperator::Modulo => modulo(machine, setting, levels, line, x, y),
        BinaryOperator::Subtract => {
            merge_sets(machine, setting, levels, line, Merge::Difference, x, y)
        }
        BinaryOperator::BitAnd => {
            merge_sets(machine, setting, levels, line, Merge::Intersection, x, y)
        }
        BinaryOperator::BitXor => {
            merge_sets(
                machine,
                setting,
                levels,
                line,
                Merge::SymmetricDifference,
                x,
                y,
            )
        }
        _ => Err(fault_at(FaultCode::BadType, line)),
    }
}

/// The result of an operator on two values. `BadType` if it does not take their types.
#[inline(always)]
#[tactic(auto, unfolding(star_meaning::specs::Operators::operate))]
pub fn operate(
    machine: &mut Machine,
    setting: &Setting,
    levels: u32,
    line: usize,
    operator: BinaryOperator,
    x: Value,
    y: Value,
) -> Result<Value, EvalError>
    ensures { Refines (spec.operate setting.now levels line operator x y machine.old) result machine.new }
{
    if let (Value::Int(x), Value::Int(y)) = (x, y) {
        return on_ints(machine, line, operator, x, y);
    }
    on_others(machine, setting, levels, line, operator, x, y)
}

/// A string with values put in, or the remainder of two ints. `BadType` for other operands.
#[tactic(auto, using(crate::proofs::KindCases::modulo_text, crate::proofs::KindCases::modulo_other))]
fn modulo(
    machine: &mut Machine,
    setting: &Setting,
    levels: u32,
    line: usize,
    x: Value,
    y: Value,
) -> Result<Value, EvalError>
    ensures { Refines (on_operands setting.now levels line BinaryOperator.Modulo x y machine.old) result machine.new }
{
    match machine.kind(setting, x) {
        Kind::Text => percent(machine, setting, levels, line, x, y),
        _ => Err(fault_at(FaultCode::BadType, line)),
    }
}
