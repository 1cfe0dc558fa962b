//! The walk over statements, in the order of the text: it finds what an index has.

use crate::expressions::{note_expression, note_parameters, note_target};
use crate::mention::Binder;
use crate::walk::{Found, Walk};
use star_lex::token::Token;
use star_scope::spots::Spots;
use star_text::Text;
use star_tree::tree::{Arm, Expression, Form, Literal, LoadedName, Statement};
use std::alloc::{AllocError, Global};

/// The string that a body begins with.
fn description_of(body: &[Statement]) -> Result<Option<Text>, AllocError> {
    let Some(first) = body.first() else {
        return Ok(None);
    };
    match &first.form {
        Form::Expression(Expression::Text(text)) => Ok(Some(text.share()?)),
        _ => Ok(None),
    }
}

fn note_returned(walk: &mut Walk<'_>, value: &Option<Expression>) -> Result<(), AllocError> {
    match value {
        Some(value) => note_expression(walk, value)?,
        None => {}
    }
    Ok(())
}

/// Notes the names of a load statement.
fn note_load(
    walk: &mut Walk<'_>,
    module: &Literal,
    names: &[LoadedName],
) -> Result<(), AllocError> {
    walk.note_label(module)?;
    for name in names {
        walk.note_loaded(module, name)?;
    }
    Ok(())
}

/// Notes a form of a statement that begins at a token.
#[cycle(statements)]
fn note_form(walk: &mut Walk<'_>, token: usize, form: &Form) -> Result<(), AllocError> {
    match form {
        Form::Expression(value) => note_expression(walk, value)?,
        Form::Assign { target, value } | Form::Augment { target, value, .. } => {
            note_target(walk, target)?;
            note_expression(walk, value)?;
        }
        Form::Pass | Form::Break | Form::Continue => {}
        Form::Return(value) => note_returned(walk, value)?,
        Form::Load { module, names } => note_load(walk, module, names.as_slice())?,
        Form::If { arms, otherwise } => {
            note_arms(walk, arms.as_slice())?;
            note_statements(walk, otherwise.as_slice())?;
        }
        Form::For {
            target,
            iterable,
            body,
        } => {
            note_target(walk, target)?;
            note_expression(walk, iterable)?;
            note_statements(walk, body.as_slice())?;
        }
        Form::Def {
            name,
            parameters,
            body,
        } => {
            walk.bind(name.position.token, Binder::Function)?;
            note_parameters(walk, token, parameters.as_slice())?;
            walk.enter(token)?;
            note_statements(walk, body.as_slice())?;
            walk.leave();
            let description = description_of(body.as_slice())?;
            walk.add_function(token, name.position.token, description)?;
        }
    }
    Ok(())
}

#[cycle(statements)]
fn note_statements(walk: &mut Walk<'_>, statements: &[Statement]) -> Result<(), AllocError> {
    for statement in statements {
        let token = statement.position.token;
        walk.reach(token);
        note_form(walk, token, &statement.form)?;
    }
    Ok(())
}

#[cycle(statements)]
fn note_arm(walk: &mut Walk<'_>, arm: &Arm) -> Result<(), AllocError> {
    note_expression(walk, &arm.condition)?;
    note_statements(walk, arm.body.as_slice())?;
    Ok(())
}

#[cycle(statements)]
fn note_arms(walk: &mut Walk<'_>, arms: &[Arm]) -> Result<(), AllocError> {
    for arm in arms {
        note_arm(walk, arm)?;
    }
    Ok(())
}

/// What an index has of these statements of a text, by its tokens and the spots of its names.
pub(crate) fn find<'a>(
    alloc: Global,
    text: &'a str,
    tokens: &'a [Token],
    spots: &'a Spots,
    statements: &[Statement],
) -> Result<Found, AllocError> {
    let mut walk = Walk::new(alloc, text, tokens, spots)?;
    note_statements(&mut walk, statements)?;
    walk.finish()
}
