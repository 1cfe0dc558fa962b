//! The parts of an expression, in the order of their evaluation, and the turns that lead to them.

use sqlite_items::Boxed;
use star_enter::calls::expression_of;
use star_found::about::Turn;
use star_tree::tree::{Argument, Clause, Clauses, Entry, Expression, Parameter};
use std::alloc::{AllocError, Global};

/// A part, and the turn that leads to it.
#[derive(Clone, Copy)]
pub(crate) struct Part<'p> {
    pub turn: Turn,
    pub expression: &'p Expression,
}

/// Parts of an expression, in the order of their evaluation.
pub(crate) type Parts<'p> = Vec<Part<'p>>;

fn add<'p>(
    parts: &mut Parts<'p>,
    turn: Turn,
    expression: &'p Expression,
) -> Result<(), AllocError> {
    Ok(parts.push(Part { turn, expression })?)
}

fn add_each<'p>(parts: &mut Parts<'p>, more: &'p [Expression]) -> Result<(), AllocError> {
    for (i, part) in more.iter().enumerate() {
        add(parts, Turn::Item(i), part)?;
    }
    Ok(())
}

fn add_entry<'p>(parts: &mut Parts<'p>, n: usize, entry: &'p Entry) -> Result<(), AllocError> {
    add(parts, Turn::Key(n), &entry.key)?;
    add(parts, Turn::Value(n), &entry.value)
}

fn add_entries<'p>(parts: &mut Parts<'p>, entries: &'p [Entry]) -> Result<(), AllocError> {
    for (n, entry) in entries.iter().enumerate() {
        add_entry(parts, n, entry)?;
    }
    Ok(())
}

/// Adds the defaults of parameters.
pub(crate) fn add_defaults<'p>(
    parts: &mut Parts<'p>,
    parameters: &'p [Parameter],
) -> Result<(), AllocError> {
    for (n, parameter) in parameters.iter().enumerate() {
        if let Parameter::Default { default, .. } = parameter {
            add(parts, Turn::Default(n), default)?;
        }
    }
    Ok(())
}

/// Adds the function of a call, and the arguments.
fn add_call<'p>(
    parts: &mut Parts<'p>,
    function: &'p Expression,
    arguments: &'p [Argument],
) -> Result<(), AllocError> {
    add(parts, Turn::Function, function)?;
    for (n, argument) in arguments.iter().enumerate() {
        add(parts, Turn::Argument(n), expression_of(argument))?;
    }
    Ok(())
}

/// Adds a bound of a slice, if it is written.
fn add_bound<'p>(
    parts: &mut Parts<'p>,
    n: usize,
    bound: &'p Option<Boxed<Expression>>,
) -> Result<(), AllocError> {
    match bound {
        Some(bound) => add(parts, Turn::Bound(n), bound.get()),
        None => Ok(()),
    }
}

/// The parts of an expression that are evaluated first, in the expression's own frame: of a conditional its condition,
/// of a comprehension its first iterable, of a lambda its defaults.
pub(crate) fn parts_of<'p>(
    alloc: Global,
    expression: &'p Expression,
) -> Result<Parts<'p>, AllocError> {
    let mut parts = Vec::new(alloc);
    match expression {
        Expression::Name(_) | Expression::Int(_) | Expression::Text(_) => {}
        Expression::Tuple(items) | Expression::List(items) => {
            add_each(&mut parts, items.as_slice())?;
        }
        Expression::Dict(entries) => add_entries(&mut parts, entries.as_slice())?,
        Expression::ListComprehension { clauses, .. }
        | Expression::DictComprehension { clauses, .. } => {
            add(&mut parts, Turn::Clause(0), clauses.get().iterable.get())?;
        }
        Expression::Unary { operand, .. } => add(&mut parts, Turn::Operand, operand.get())?,
        Expression::Binary { left, right, .. }
        | Expression::Compare { left, right, .. }
        | Expression::And { left, right }
        | Expression::Or { left, right } => {
            add(&mut parts, Turn::Left, left.get())?;
            add(&mut parts, Turn::Right, right.get())?;
        }
        Expression::Conditional { condition, .. } => {
            add(&mut parts, Turn::Condition, condition.get())?;
        }
        Expression::Lambda { parameters, .. } => {
            add_defaults(&mut parts, parameters.get().as_slice())?;
        }
        Expression::Call {
            function,
            arguments,
        } => add_call(&mut parts, function.get(), arguments.as_slice())?,
        Expression::Attribute { value, .. } => add(&mut parts, Turn::Owner, value.get())?,
        Expression::Index { value, index } => {
            add(&mut parts, Turn::Owner, value.get())?;
            add(&mut parts, Turn::Index, index.get())?;
        }
        Expression::Slice {
            value,
            start,
            stop,
            stride,
        } => {
            add(&mut parts, Turn::Owner, value.get())?;
            add_bound(&mut parts, 0, start)?;
            add_bound(&mut parts, 1, stop)?;
            add_bound(&mut parts, 2, stride)?;
        }
    }
    Ok(parts)
}

/// Adds what the clauses of a comprehension after the first go over, and the conditions that they test.
fn add_clauses<'p>(parts: &mut Parts<'p>, clauses: &'p [Clause]) -> Result<(), AllocError> {
    for (n, clause) in clauses.iter().enumerate() {
        let expression = match clause {
            Clause::For { iterable, .. } => iterable,
            Clause::If(condition) => condition,
        };
        add(parts, Turn::Clause(n.saturating_add(1)), expression)?;
    }
    Ok(())
}

/// The parts of a comprehension that are evaluated in its own frame.
pub(crate) fn inner_parts<'p>(
    alloc: Global,
    expression: &'p Expression,
) -> Result<Parts<'p>, AllocError> {
    let mut parts = Vec::new(alloc);
    if let Some(clauses) = clauses_of(expression) {
        add_clauses(&mut parts, clauses.more.as_slice())?;
    }
    match expression {
        Expression::ListComprehension { element, .. } => {
            add(&mut parts, Turn::Item(0), element.get())?;
        }
        Expression::DictComprehension { entry, .. } => add_entry(&mut parts, 0, entry.get())?,
        _ => {}
    }
    Ok(parts)
}

/// The clauses of a comprehension; `None` for another expression.
pub(crate) fn clauses_of(expression: &Expression) -> Option<&Clauses> {
    match expression {
        Expression::ListComprehension { clauses, .. }
        | Expression::DictComprehension { clauses, .. } => Some(clauses.get()),
        _ => None,
    }
}

/// The first token of a comprehension; `None` for another expression.
pub(crate) fn token_of(expression: &Expression) -> Option<usize> {
    match expression {
        Expression::ListComprehension { position, .. }
        | Expression::DictComprehension { position, .. } => Some(position.token),
        _ => None,
    }
}

/// The token of the name that an expression is or ends with; `None` if it has no such name.
pub(crate) fn word_of(expression: &Expression) -> Option<usize> {
    match expression {
        Expression::Name(name) | Expression::Attribute { name, .. } => Some(name.position.token),
        _ => None,
    }
}
