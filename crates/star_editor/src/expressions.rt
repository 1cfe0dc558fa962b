//! The walk over expressions, in the order of the text.

use crate::mention::{Binder, Referent, Role};
use crate::walk::Walk;
use sqlite_items::Boxed;
use star_tree::tree::{Argument, Clause, Clauses, Entry, Expression, Name, Parameter, Target};
use std::alloc::AllocError;

/// The span of a callee that is a name.
fn callee_of(walk: &Walk<'_>, function: &Expression) -> Option<Referent> {
    match function {
        Expression::Name(name) => Some(walk.referent(name.position.token)),
        _ => None,
    }
}

#[cycle(expressions)]
pub(crate) fn note_expression(
    walk: &mut Walk<'_>,
    expression: &Expression,
) -> Result<(), AllocError> {
    match expression {
        Expression::Name(name) => {
            let referent = walk.referent(name.position.token);
            walk.note(name.position.token, Role::Read(referent))?;
        }
        Expression::Int(_) | Expression::Text(_) => {}
        Expression::Tuple(parts) | Expression::List(parts) => {
            note_expressions(walk, parts.as_slice())?
        }
        Expression::Dict(entries) => note_entries(walk, entries.as_slice())?,
        Expression::ListComprehension {
            position,
            element,
            clauses,
        } => {
            walk.enter(position.token)?;
            note_expression(walk, element.get())?;
            note_clauses(walk, position.token, clauses.get())?;
        }
        Expression::DictComprehension {
            position,
            entry,
            clauses,
        } => {
            walk.enter(position.token)?;
            note_entry(walk, entry.get())?;
            note_clauses(walk, position.token, clauses.get())?;
        }
        Expression::Unary { operand, .. } => note_expression(walk, operand.get())?,
        Expression::Attribute { value, name } => {
            note_expression(walk, value.get())?;
            walk.note(name.position.token, Role::Attribute)?;
        }
        Expression::Binary { left, right, .. }
        | Expression::Compare { left, right, .. }
        | Expression::And { left, right }
        | Expression::Or { left, right }
        | Expression::Index {
            value: left,
            index: right,
        } => {
            note_expression(walk, left.get())?;
            note_expression(walk, right.get())?;
        }
        Expression::Conditional {
            condition,
            chosen,
            otherwise,
        } => {
            note_expression(walk, chosen.get())?;
            note_expression(walk, condition.get())?;
            note_expression(walk, otherwise.get())?;
        }
        Expression::Lambda {
            position,
            parameters,
            body,
        } => {
            note_parameters(walk, position.token, parameters.get().as_slice())?;
            walk.enter(position.token)?;
            note_expression(walk, body.get())?;
            walk.leave();
            let end = walk.reached();
            walk.add_scope(position.token, end)?;
        }
        Expression::Call {
            function,
            arguments,
        } => {
            note_expression(walk, function.get())?;
            let callee = callee_of(walk, function.get());
            note_arguments(walk, callee, arguments.as_slice())?;
        }
        Expression::Slice {
            value,
            start,
            stop,
            stride,
        } => {
            note_expression(walk, value.get())?;
            note_maybe(walk, start)?;
            note_maybe(walk, stop)?;
            note_maybe(walk, stride)?;
        }
    }
    Ok(())
}

#[cycle(expressions)]
fn note_expressions(walk: &mut Walk<'_>, expressions: &[Expression]) -> Result<(), AllocError> {
    for expression in expressions {
        note_expression(walk, expression)?;
    }
    Ok(())
}

#[cycle(expressions)]
fn note_maybe(
    walk: &mut Walk<'_>,
    expression: &Option<Boxed<Expression>>,
) -> Result<(), AllocError> {
    match expression {
        Some(expression) => note_expression(walk, expression.get())?,
        None => {}
    }
    Ok(())
}

#[cycle(expressions)]
fn note_entry(walk: &mut Walk<'_>, entry: &Entry) -> Result<(), AllocError> {
    note_expression(walk, &entry.key)?;
    note_expression(walk, &entry.value)?;
    Ok(())
}

#[cycle(expressions)]
fn note_entries(walk: &mut Walk<'_>, entries: &[Entry]) -> Result<(), AllocError> {
    for entry in entries {
        note_entry(walk, entry)?;
    }
    Ok(())
}

#[cycle(expressions)]
fn note_argument(
    walk: &mut Walk<'_>,
    callee: Option<Referent>,
    argument: &Argument,
) -> Result<(), AllocError> {
    match argument {
        Argument::Positional(value) | Argument::Star(value) | Argument::StarStar(value) => {
            note_expression(walk, value)?
        }
        Argument::Named { name, value } => {
            walk.note(name.position.token, Role::Keyword { callee })?;
            note_expression(walk, value)?;
        }
    }
    Ok(())
}

#[cycle(expressions)]
fn note_arguments(
    walk: &mut Walk<'_>,
    callee: Option<Referent>,
    arguments: &[Argument],
) -> Result<(), AllocError> {
    for argument in arguments {
        note_argument(walk, callee, argument)?;
    }
    Ok(())
}

/// Notes the clauses of the comprehension that begins at a token, whose block the walk is in, and leaves the block. The
/// first iterable is outside of it.
#[cycle(expressions)]
fn note_clauses(walk: &mut Walk<'_>, token: usize, clauses: &Clauses) -> Result<(), AllocError> {
    note_target(walk, &clauses.target)?;
    walk.leave();
    note_expression(walk, clauses.iterable.get())?;
    walk.enter(token)?;
    note_more(walk, clauses.more.as_slice())?;
    walk.leave();
    let end = walk.reached();
    walk.add_scope(token, end)
}

#[cycle(expressions)]
fn note_clause(walk: &mut Walk<'_>, clause: &Clause) -> Result<(), AllocError> {
    match clause {
        Clause::For { target, iterable } => {
            note_target(walk, target)?;
            note_expression(walk, iterable)?;
        }
        Clause::If(condition) => note_expression(walk, condition)?,
    }
    Ok(())
}

#[cycle(expressions)]
fn note_more(walk: &mut Walk<'_>, clauses: &[Clause]) -> Result<(), AllocError> {
    for clause in clauses {
        note_clause(walk, clause)?;
    }
    Ok(())
}

/// Notes the name of a parameter of the definition that begins at a token.
fn note_parameter_name(walk: &mut Walk<'_>, token: usize, name: &Name) -> Result<(), AllocError> {
    walk.enter(token)?;
    walk.bind(name.position.token, Binder::Parameter)?;
    walk.leave();
    Ok(())
}

/// Notes a parameter of the definition that begins at a token. Its default is outside of the definition's block.
#[cycle(expressions)]
fn note_parameter(
    walk: &mut Walk<'_>,
    token: usize,
    parameter: &Parameter,
) -> Result<(), AllocError> {
    match parameter {
        Parameter::Plain(name) | Parameter::Star(name) | Parameter::StarStar(name) => {
            note_parameter_name(walk, token, name)?
        }
        Parameter::Default { name, default } => {
            note_parameter_name(walk, token, name)?;
            note_expression(walk, default)?;
        }
        Parameter::BareStar => {}
    }
    Ok(())
}

#[cycle(expressions)]
pub(crate) fn note_parameters(
    walk: &mut Walk<'_>,
    token: usize,
    parameters: &[Parameter],
) -> Result<(), AllocError> {
    for parameter in parameters {
        note_parameter(walk, token, parameter)?;
    }
    Ok(())
}

#[cycle(expressions)]
pub(crate) fn note_target(walk: &mut Walk<'_>, target: &Target) -> Result<(), AllocError> {
    match target {
        Target::Name(name) => walk.bind(name.position.token, Binder::Target)?,
        Target::Index { value, index } => {
            note_expression(walk, value.get())?;
            note_expression(walk, index.get())?;
        }
        Target::Tuple(targets) | Target::List(targets) => note_targets(walk, targets.as_slice())?,
    }
    Ok(())
}

#[cycle(expressions)]
fn note_targets(walk: &mut Walk<'_>, targets: &[Target]) -> Result<(), AllocError> {
    for target in targets {
        note_target(walk, target)?;
    }
    Ok(())
}
