//! `sorted` without `key`: of ints or of strings; in the extended language also of other values, by `orders`.
//!
//! It uses the standard library's stable sort, by one order of all contents, which on ints alone and on strings alone
//! is the definition's. That a stable rising list is the definition's is a lemma (`proofs/Sorting`). Items are copied
//! before they are sorted or reversed, since a row lends its items only to be read.

ghost use Rattle.std.specs.Prelude.{◌≡◌, IfOk, map, true};
ghost use Rattle.std.specs.List.{list_all};
ghost use Rattle.star_meaning.specs.BuiltIns as spec;
ghost use Rattle.star_meaning.specs.Orders as orders;
ghost use Rattle.star_store.specs.Sorting as sorting;
ghost use Rattle.star_machine.specs.Refines.{Refines};
ghost use Rattle.star_meaning.specs.Values.{content};
ghost use Rattle.star_builtin.specs.Orders.{by_contents, int_in};

use crate::orders::{each_by_itself, sort_by, want_reverse};
use star_dialect::Dialect;
use star_machine::call::Call;
use star_machine::content::Content;
use star_machine::fault::{EvalError, fault_at};
use star_machine::machine::Machine;
use star_machine::setting::Setting;
use star_meaning::fault::FaultCode;
use star_store::values::{Cell, Value, Values};
use std::alloc::AllocError;
use std::cmp::Ordering;

fn is_int(machine: &Machine, setting: &Setting, value: Value) -> bool
    ensures { result ≡ orders.is_int (content setting.now machine.now value) }
{
    match machine.content(setting, value) {
        Content::Number(_) => true,
        _ => false,
    }
}

fn is_text(machine: &Machine, setting: &Setting, value: Value) -> bool
    ensures { result ≡ orders.is_text (content setting.now machine.now value) }
{
    match machine.content(setting, value) {
        Content::Held(Cell::Text(_)) => true,
        _ => false,
    }
}

fn are_ints(machine: &Machine, setting: &Setting, values: &[Value]) -> bool
    ensures { result ≡ list_all orders.is_int (map (content setting.now machine.now) values.now) }
{
    for value in values {
        if !is_int(machine, setting, *value) {
            return false;
        }
    }
    true
}

fn are_texts(machine: &Machine, setting: &Setting, values: &[Value]) -> bool
    ensures { result ≡ list_all orders.is_text (map (content setting.now machine.now) values.now) }
{
    for value in values {
        if !is_text(machine, setting, *value) {
            return false;
        }
    }
    true
}

/// Whether all values are ints, or all are strings.
pub(crate) fn can_sort(machine: &Machine, setting: &Setting, values: &[Value]) -> bool
    ensures { result ≡ orders.can_sort (map (content setting.now machine.now) values.now) }
{
    are_ints(machine, setting, values) || are_texts(machine, setting, values)
}

/// The int that a value is, and 0 of another value.
fn int_in(machine: &Machine, setting: &Setting, value: Value) -> i64
    ensures { result ≡ int_in (content setting.now machine.now value) }
{
    machine.int_of(setting, value).unwrap_or(0)
}

/// The order of two ints, or of two strings by their bytes.
#[inline(always)]
pub(crate) fn order(machine: &Machine, setting: &Setting, x: Value, y: Value) -> Ordering
    ensures { result ≡ by_contents (content setting.now machine.now x) (content setting.now machine.now y) }
{
    match int_in(machine, setting, x).cmp(&int_in(machine, setting, y)) {
        Ordering::Equal => machine.bytes(setting, x).cmp(machine.bytes(setting, y)),
        order => order,
    }
}

/// Ints or strings in order. Equal items keep their order.
fn in_order(
    machine: &Machine,
    setting: &Setting,
    values: &[Value],
) -> Result<Vec<Value>, AllocError>
    requires { orders.can_sort (map (content setting.now machine.now) values.now) ≡ true }
    ensures { IfOk result (λ r. r.items
        ≡ sorting.in_order (λ x y. orders.is_before (content setting.now machine.now x)
        (content setting.now machine.now y)) values.now) }
{
    let mut items = Vec::from_slice(machine.alloc(), values)?;
    items.sort_by(|x, y| order(machine, setting, *x, *y))?;
    Ok(items)
}

/// A row, or the row in the other order.
fn turned(backwards: bool, items: Vec<Value>) -> Values
    ensures { result ≡ spec.turned backwards items.items }
{
    let mut items = items;
    if backwards {
        items.reverse();
    }
    Values::new(items)
}

/// Ints or strings in order, in a new list. `BadType` unless all are ints, or all are strings.
fn sort(
    machine: &mut Machine,
    setting: &Setting,
    line: usize,
    backwards: bool,
    values: &[Value],
) -> Result<Value, EvalError>
    ensures { Refines (spec.sort setting.now line backwards values.now machine.old) result machine.new }
{
    if !can_sort(machine, setting, values) {
        return Err(fault_at(FaultCode::BadType, line));
    }
    let items = in_order(machine, setting, values)?;
    machine.new_list(line, turned(backwards, items))
}

/// Values in order, in a new list: in the core of ints or of strings, else `BadType`; in the extended language of what
/// has an order.
fn sort_items(
    machine: &mut Machine,
    call: &Call,
    backwards: bool,
    values: &[Value],
) -> Result<Value, EvalError>
    ensures { Refines (spec.sort_items call.now.setting.now call.now.levels call.now.line backwards values.now
        call.now.setting.now.language.dialect machine.old) result machine.new }
{
    match call.setting.dialect() {
        Dialect::Core => sort(machine, call.setting, call.line, backwards, values),
        Dialect::Extended => {
            let pairs = each_by_itself(machine.alloc(), values)?;
            sort_by(
                machine,
                call.setting,
                call.levels,
                call.line,
                backwards,
                &pairs,
            )
        }
    }
}

/// `sorted(it, reverse=False)`: all items in order, in a new list. `Args` for another number of values and for a
/// keyword argument but `reverse`, `BadType` if `it` is not iterable, if `reverse` is not a bool, and if two items have
/// no order.
pub fn call_sorted(machine: &mut Machine, call: &Call) -> Result<Value, EvalError>
    ensures { Refines (spec.call_sorted call.now.setting.now call.now.levels call.now.line call.now.given.now machine.old)
        result machine.new }
{
    let (values, reverse) = machine.with_name(call.line, "reverse", call.given)?;
    let value = machine.only_one(call.line, values)?;
    let count = machine.count_of(call.setting, call.line, value)?;
    let backwards = want_reverse(machine, call.setting, call.line, reverse)?;
    let items = machine.take_items(call.setting, call.line, value, count)?;
    sort_items(machine, call, backwards, items.as_slice())
}
