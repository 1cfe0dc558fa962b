//! The forms of expressions, a function for each: it evaluates the operands in order and then does the operation.

ghost use Rattle.star_machine.specs.Refines.{Refines};
ghost use Rattle.star_tree.specs.declared.tree.Argument.TheOpen as tree;
ghost use Rattle.star_eval.specs.Forms.{evaluating};
ghost use Rattle.star_eval.specs.Steps.{slice_of};

use crate::evaluate::{evaluate, evaluate_each, evaluate_entries, evaluate_maybe};
use crate::parts::fresh_entries;
use sqlite_items::Boxed;
use star_attribute::attributes::read_attribute;
use star_machine::fault::EvalError;
use star_machine::machine::Machine;
use star_meaning::site::Site;
use star_operators::comparisons::comparison;
use star_operators::operators::{operate, prefix};
use star_operators::slices::slice;
use star_operators::subscript::index;
use star_store::values::Value;
use star_tree::tree::{BinaryOperator, Comparator, Entry, Expression, Name, UnaryOperator};
use star_world::world::World;

/// The parts between the brackets of a slice, `[start:stop:stride]`. Each may be absent.
#[derive(Clone, Copy)]
pub struct SliceParts<'t> {
    pub start: &'t Option<Boxed<Expression>>,
    pub stop: &'t Option<Boxed<Expression>>,
    pub stride: &'t Option<Boxed<Expression>>,
}

/// A tuple: its items in order, then 1 and one for each.
#[cycle(run)]
pub(crate) fn evaluate_tuple(
    machine: &mut Machine,
    world: &World,
    levels: u32,
    site: &Site,
    items: &[Expression],
) -> Result<Value, EvalError>
    ensures { Refines (evaluating world.now levels site.now (tree.Expression-F.Expression::Tuple items.now) machine.old)
        result machine.new }
{
    let values = evaluate_each(machine, world, levels, site, items)?;
    machine.new_tuple(site.line, values)
}

/// A list: its items in order, then 1 and one for each.
#[cycle(run)]
pub(crate) fn evaluate_list(
    machine: &mut Machine,
    world: &World,
    levels: u32,
    site: &Site,
    items: &[Expression],
) -> Result<Value, EvalError>
    ensures { Refines (evaluating world.now levels site.now (tree.Expression-F.Expression::List items.now) machine.old)
        result machine.new }
{
    let values = evaluate_each(machine, world, levels, site, items)?;
    machine.new_list(site.line, values)
}

/// A dictionary: its entries in order, whose keys are then checked and must differ, then 1 and one for each.
#[cycle(run)]
pub(crate) fn evaluate_dict(
    machine: &mut Machine,
    world: &World,
    levels: u32,
    site: &Site,
    entries: &[Entry],
) -> Result<Value, EvalError>
    ensures { Refines (evaluating world.now levels site.now (tree.Dict entries.now) machine.old)
        result machine.new }
{
    let found = evaluate_entries(machine, world, levels, site, entries)?;
    let fresh = fresh_entries(machine, world, levels, site.line, &found)?;
    machine.new_dict(site.line, fresh)
}

/// A sign before an operand.
#[cycle(run)]
pub(crate) fn evaluate_unary(
    machine: &mut Machine,
    world: &World,
    levels: u32,
    site: &Site,
    operator: UnaryOperator,
    operand: &Expression,
) -> Result<Value, EvalError>
    ensures { Refines (evaluating world.now levels site.now (tree.Unary operator operand.now) machine.old)
        result machine.new }
{
    let value = evaluate(machine, world, levels, site, operand)?;
    prefix(machine, world.setting(), site.line, operator, value)
}

/// A sign between two operands: the left one first.
#[cycle(run)]
pub(crate) fn evaluate_binary(
    machine: &mut Machine,
    world: &World,
    levels: u32,
    site: &Site,
    operator: BinaryOperator,
    left: &Expression,
    right: &Expression,
) -> Result<Value, EvalError>
    ensures { Refines (evaluating world.now levels site.now (tree.Binary operator left.now right.now) machine.old)
        result machine.new }
{
    let x = evaluate(machine, world, levels, site, left)?;
    let y = evaluate(machine, world, levels, site, right)?;
    let line = site.line;
    operate(machine, world.setting(), levels, line, operator, x, y)
}

/// A comparison: the left operand first.
#[cycle(run)]
pub(crate) fn evaluate_comparison(
    machine: &mut Machine,
    world: &World,
    levels: u32,
    site: &Site,
    comparator: Comparator,
    left: &Expression,
    right: &Expression,
) -> Result<Value, EvalError>
    ensures { Refines (evaluating world.now levels site.now (tree.Compare comparator left.now right.now) machine.old)
        result machine.new }
{
    let x = evaluate(machine, world, levels, site, left)?;
    let y = evaluate(machine, world, levels, site, right)?;
    let line = site.line;
    comparison(machine, world.setting(), levels, line, comparator, x, y)
}

/// `and`: the right operand only if the left one is true.
#[cycle(run)]
pub(crate) fn evaluate_and(
    machine: &mut Machine,
    world: &World,
    levels: u32,
    site: &Site,
    left: &Expression,
    right: &Expression,
) -> Result<Value, EvalError>
    ensures { Refines (evaluating world.now levels site.now (tree.And left.now right.now) machine.old)
        result machine.new }
{
    let x = evaluate(machine, world, levels, site, left)?;
    if machine.is_true(world.setting(), x) {
        return evaluate(machine, world, levels, site, right);
    }
    Ok(x)
}

/// `or`: the right operand only if the left one is false.
#[cycle(run)]
pub(crate) fn evaluate_or(
    machine: &mut Machine,
    world: &World,
    levels: u32,
    site: &Site,
    left: &Expression,
    right: &Expression,
) -> Result<Value, EvalError>
    ensures { Refines (evaluating world.now levels site.now (tree.Or left.now right.now) machine.old)
        result machine.new }
{
    let x = evaluate(machine, world, levels, site, left)?;
    if machine.is_true(world.setting(), x) {
        return Ok(x);
    }
    evaluate(machine, world, levels, site, right)
}

/// `chosen if condition else otherwise`: the condition, then one of the two.
#[cycle(run)]
pub(crate) fn evaluate_choice(
    machine: &mut Machine,
    world: &World,
    levels: u32,
    site: &Site,
    condition: &Expression,
    chosen: &Expression,
    otherwise: &Expression,
) -> Result<Value, EvalError>
    ensures { Refines (evaluating world.now levels site.now (tree.Conditional condition.now chosen.now otherwise.now)
        machine.old) result machine.new }
{
    let x = evaluate(machine, world, levels, site, condition)?;
    if machine.is_true(world.setting(), x) {
        return evaluate(machine, world, levels, site, chosen);
    }
    evaluate(machine, world, levels, site, otherwise)
}

/// `value[at]`: the value first.
#[cycle(run)]
pub(crate) fn evaluate_index(
    machine: &mut Machine,
    world: &World,
    levels: u32,
    site: &Site,
    value: &Expression,
    at: &Expression,
) -> Result<Value, EvalError>
    ensures { Refines (evaluating world.now levels site.now (tree.Expression-F.Expression::Index value.now at.now)
        machine.old) result machine.new }
{
    let value = evaluate(machine, world, levels, site, value)?;
    let at = evaluate(machine, world, levels, site, at)?;
    index(machine, world.setting(), levels, site.line, value, at)
}

/// `value[start:stop:stride]`: the value, then the parts that are there, in order.
#[cycle(run)]
pub(crate) fn evaluate_slice(
    machine: &mut Machine,
    world: &World,
    levels: u32,
    site: &Site,
    value: &Expression,
    parts: SliceParts<'_>,
) -> Result<Value, EvalError>
    ensures { Refines (evaluating world.now levels site.now (slice_of value.now parts.entry) machine.old)
        result machine.new }
{
    let value = evaluate(machine, world, levels, site, value)?;
    let start = evaluate_maybe(machine, world, levels, site, parts.start)?;
    let stop = evaluate_maybe(machine, world, levels, site, parts.stop)?;
    let stride = evaluate_maybe(machine, world, levels, site, parts.stride)?;
    let line = site.line;
    slice(machine, world.setting(), line, value, start, stop, stride)
}

/// `value.name`: the value, then its method of this name, a new bound method.
#[cycle(run)]
pub(crate) fn evaluate_attribute(
    machine: &mut Machine,
    world: &World,
    levels: u32,
    site: &Site,
    value: &Expression,
    name: &Name,
) -> Result<Value, EvalError>
    ensures { Refines (evaluating world.now levels site.now (tree.Attribute value.now name.now) machine.old)
        result machine.new }
{
    let value = evaluate(machine, world, levels, site, value)?;
    read_attribute(
        machine,
        world.setting(),
        site.line,
        value,
        name.text.as_str(),
    )
}
