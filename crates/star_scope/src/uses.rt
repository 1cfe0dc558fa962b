//! Resolves all names of a file: a walk that gives each use its spot and finds the first undefined name.

ghost use Rattle.std.specs.Prelude.{◌≡◌, ◌∷◌, ◌++◌, [], IfOk, IfErr, OnOk};
ghost use Rattle.std.specs.Option.{option_map};
ghost use Rattle.star_scope.specs.declared.error.ScopeFault.TheVariants as fault;
ghost use Rattle.star_scope.specs.declared.error.ScopeFault.TheVariants.{Memory};
ghost use Rattle.star_scope.specs.Chains.{outer_shown};
ghost use Rattle.star_scope.specs.Faults.{at, first_from};
ghost use Rattle.star_scope.specs.ResolvedNames.{HasFirst, HasSpots, Places};
ghost use Rattle.star_scope.specs.Uses.{all_uses, default_uses, in_argument, in_arm, in_clause, in_clauses, in_entry, in_expression, in_form, in_returned, in_statement, in_target, loaded_use, maybe_use, one_use, parameter_name_uses};

use crate::chain::{Chain, Scope};
use crate::error::{LocatedFault, ScopeFault, earlier};
use crate::spots::Spots;
use sqlite_items::Boxed;
use star_dialect::Language;
use star_outline::binders::Bound;
use star_outline::blocks::{BlockNames, Blocks};
use star_tree::tree::{
    Argument, Arm, Clause, Clauses, Entry, Expression, Form, LoadedName, Name, Parameter, Position,
    Statement, Target,
};
use std::alloc::{AllocError, Global};

/// The spots of the names of a file, and the first undefined name.
#[derive(Debug, Drop)]
pub struct ResolvedNames {
    pub spots: Spots,
    pub first: Option<LocatedFault>,
}

/// The fault found so far, or an undefined name if it comes first.
#[tactic(auto, unfolding(crate::specs::Faults::first_from))]
fn undefined(found: Option<LocatedFault>, position: Position) -> Option<LocatedFault>
    ensures { result ≡ first_from found (at position (λ line. fault.Undefined line) ∷ []) }
{
    earlier(
        found,
        LocatedFault {
            token: position.token,
            fault: ScopeFault::Undefined {
                line: position.line,
            },
        },
    )
}

/// Puts the spot of a name into the table.
fn place_name(
    placed: &mut ResolvedNames,
    scope: &Scope<'_, '_>,
    chain: &Chain<'_>,
    name: &Name,
) -> Result<(), AllocError>
    ensures { OnOk result (Places scope.now (one_use name.now chain.now) placed.old placed.new) }
{
    match chain.spot_of(scope, name.text.as_str()) {
        Some(spot) => placed.spots.put(name.position.token, spot)?,
        None => placed.first = undefined(placed.first, name.position),
    }
    Ok(())
}

/// Puts the spot of a parameter's name into the table.
fn place_parameter_name(
    placed: &mut ResolvedNames,
    scope: &Scope<'_, '_>,
    chain: &Chain<'_>,
    parameter: &Parameter,
) -> Result<(), AllocError>
    ensures { OnOk result (Places scope.now (parameter_name_uses parameter.now chain.now) placed.old placed.new) }
{
    match parameter {
        Parameter::Plain(name)
        | Parameter::Default { name, .. }
        | Parameter::Star(name)
        | Parameter::StarStar(name) => place_name(placed, scope, chain, name)?,
        Parameter::BareStar => {}
    }
    Ok(())
}

fn place_parameter_names(
    placed: &mut ResolvedNames,
    scope: &Scope<'_, '_>,
    chain: &Chain<'_>,
    parameters: &[Parameter],
) -> Result<(), AllocError>
    ensures { OnOk result (Places scope.now (all_uses parameter_name_uses parameters.now chain.now)
        placed.old placed.new) }
{
    for parameter in parameters {
        place_parameter_name(placed, scope, chain, parameter)?;
    }
    Ok(())
}

#[cycle(expressions)]
fn place_expression(
    placed: &mut ResolvedNames,
    scope: &Scope<'_, '_>,
    chain: &Chain<'_>,
    expression: &Expression,
) -> Result<(), AllocError>
    ensures { OnOk result (Places scope.now (in_expression expression.now chain.now) placed.old placed.new) }
{
    match expression {
        Expression::Name(name) => place_name(placed, scope, chain, name)?,
        Expression::Int(_) | Expression::Text(_) => {}
        Expression::Tuple(parts) | Expression::List(parts) => place_expressions(
            placed,
            scope,
            chain,
            parts.as_slice(),
        )?,
        Expression::Dict(entries) => place_entries(placed, scope, chain, entries.as_slice())?,
        Expression::ListComprehension {
            position,
            element,
            clauses,
        } => {
            let inner = Chain::inside(&*chain, position.token)?;
            place_clauses(placed, scope, chain, &inner, clauses.get())?;
            place_expression(placed, scope, &inner, element.get())?;
        }
        Expression::DictComprehension {
            position,
            entry,
            clauses,
        } => {
            let inner = Chain::inside(&*chain, position.token)?;
            place_clauses(placed, scope, chain, &inner, clauses.get())?;
            place_entry(placed, scope, &inner, entry.get())?;
        }
        Expression::Unary { operand: value, .. } | Expression::Attribute { value, .. } =>
            place_expression(placed, scope, chain, value.get())?,
        Expression::Binary { left, right, .. }
        | Expression::Compare { left, right, .. }
        | Expression::And { left, right }
        | Expression::Or { left, right }
        | Expression::Index {
            value: left,
            index: right,
        } => {
            place_expression(placed, scope, chain, left.get())?;
            place_expression(placed, scope, chain, right.get())?;
        }

        Expression::Conditional {
            condition,
            chosen,
            otherwise,
        } => {
            place_expression(placed, scope, chain, condition.get())?;
            place_expression(placed, scope, chain, chosen.get())?;
            place_expression(placed, scope, chain, otherwise.get())?;
        }
        Expression::Lambda {
            position,
            parameters,
            body,
        } => {
            let inner = Chain::inside(&*chain, position.token)?;
            let parameters = parameters.get().as_slice();
            place_defaults(placed, scope, chain, parameters)?;
            place_parameter_names(placed, scope, &inner, parameters)?;
            place_expression(placed, scope, &inner, body.get())?;
        }
        Expression::Call {
            function,
            arguments,
        } => {
            place_expression(placed, scope, chain, function.get())?;
            place_arguments(placed, scope, chain, arguments.as_slice())?;
        }
        Expression::Slice {
            value,
            start,
            stop,
            stride,
        } => {
            place_expression(placed, scope, chain, value.get())?;
            place_maybe(placed, scope, chain, start)?;
            place_maybe(placed, scope, chain, stop)?;
            place_maybe(placed, scope, chain, stride)?;
        }
    }
    Ok(())
}

#[cycle(expressions)]
fn place_expressions(
    placed: &mut ResolvedNames,
    scope: &Scope<'_, '_>,
    chain: &Chain<'_>,
    expressions: &[Expression],
) -> Result<(), AllocError>
    ensures { OnOk result (Places scope.now (all_uses in_expression expressions.now chain.now) placed.old placed.new) }
{
    for expression in expressions {
        place_expression(placed, scope, chain, expression)?;
    }
    Ok(())
}

#[cycle(expressions)]
fn place_maybe(
    placed: &mut ResolvedNames,
    scope: &Scope<'_, '_>,
    chain: &Chain<'_>,
    expression: &Option<Boxed<Expression>>,
) -> Result<(), AllocError>
    ensures { OnOk result (Places scope.now (maybe_use (option_map in_expression expression.now) chain.now)
        placed.old placed.new) }
{
    match expression {
        Some(expression) => place_expression(placed, scope, chain, expression.get())?,
        None => {}
    }
    Ok(())
}

#[cycle(expressions)]
fn place_entry(
    placed: &mut ResolvedNames,
    scope: &Scope<'_, '_>,
    chain: &Chain<'_>,
    entry: &Entry,
) -> Result<(), AllocError>
    ensures { OnOk result (Places scope.now (in_entry entry.now chain.now) placed.old placed.new) }
{
    place_expression(placed, scope, chain, &entry.key)?;
    place_expression(placed, scope, chain, &entry.value)?;

    Ok(())
}

#[cycle(expressions)]
fn place_entries(
    placed: &mut ResolvedNames,
    scope: &Scope<'_, '_>,
    chain: &Chain<'_>,
    entries: &[Entry],
) -> Result<(), AllocError>
    ensures { OnOk result (Places scope.now (all_uses in_entry entries.now chain.now) placed.old placed.new) }
{
    for entry in entries {
        place_entry(placed, scope, chain, entry)?;
    }
    Ok(())
}

#[cycle(expressions)]
fn place_argument(
    placed: &mut ResolvedNames,
    scope: &Scope<'_, '_>,
    chain: &Chain<'_>,
    argument: &Argument,
) -> Result<(), AllocError>
    ensures { OnOk result (Places scope.now (in_argument argument.now chain.now) placed.old placed.new) }
{
    match argument {
        Argument::Positional(value)
        | Argument::Named { value, .. }
        | Argument::Star(value)
        | Argument::StarStar(value) => place_expression(placed, scope, chain, value)?,
    }
    Ok(())
}

#[cycle(expressions)]
fn place_arguments(
    placed: &mut ResolvedNames,
    scope: &Scope<'_, '_>,
    chain: &Chain<'_>,
    arguments: &[Argument],
) -> Result<(), AllocError>
    ensures { OnOk result (Places scope.now (all_uses in_argument arguments.now chain.now) placed.old placed.new) }
{
    for argument in arguments {
        place_argument(placed, scope, chain, argument)?;
    }
    Ok(())
}

/// Places the names of a comprehension's clauses. The first iterable is outside of the comprehension's block, the other
/// parts are inside.
#[cycle(expressions)]
fn place_clauses(
    placed: &mut ResolvedNames,
    scope: &Scope<'_, '_>,
    chain: &Chain<'_>,
    inner: &Chain<'_>,
    clauses: &Clauses,
) -> Result<(), AllocError>
    ensures { OnOk result (Places scope.now ((in_clauses clauses.now).first chain.now
        ++ (in_clauses clauses.now).rest inner.now) placed.old placed.new) }
{
    place_expression(placed, scope, chain, clauses.iterable.get())?;
    place_target(placed, scope, inner, &clauses.target)?;
    place_more(placed, scope, inner, clauses.more.as_slice())?;
    Ok(())
}

#[cycle(expressions)]
fn place_clause(
    placed: &mut ResolvedNames,
    scope: &Scope<'_, '_>,
    chain: &Chain<'_>,
    clause: &Clause,
) -> Result<(), AllocError>
    ensures { OnOk result (Places scope.now (in_clause clause.now chain.now) placed.old placed.new) }
{
    match clause {
        Clause::For { target, iterable } => {
            place_target(placed, scope, chain, target)?;
            place_expression(placed, scope, chain, iterable)?;
        }
        Clause::If(condition) => place_expression(placed, scope, chain, condition)?,
    }
    Ok(())
}

#[cycle(expressions)]
fn place_more(
    placed: &mut ResolvedNames,
    scope: &Scope<'_, '_>,
    chain: &Chain<'_>,
    clauses: &[Clause],
) -> Result<(), AllocError>
    ensures { OnOk result (Places scope.now (all_uses in_clause clauses.now chain.now) placed.old placed.new) }
{
    for clause in clauses {
        place_clause(placed, scope, chain, clause)?;
    }
    Ok(())
}

#[cycle(expressions)]
fn place_default(
    placed: &mut ResolvedNames,
    scope: &Scope<'_, '_>,
    chain: &Chain<'_>,
    parameter: &Parameter,
) -> Result<(), AllocError>
    ensures { OnOk result (Places scope.now (default_uses parameter.now chain.now) placed.old placed.new) }
{
    match parameter {
        Parameter::Default { default, .. } => place_expression(placed, scope, chain, default)?,
        _ => {}
    }
    Ok(())
}

#[cycle(expressions)]
fn place_defaults(
    placed: &mut ResolvedNames,
    scope: &Scope<'_, '_>,
    chain: &Chain<'_>,
    parameters: &[Parameter],
) -> Result<(), AllocError>
    ensures { OnOk result (Places scope.now (all_uses default_uses parameters.now chain.now) placed.old placed.new) }
{
    for parameter in parameters {
        place_default(placed, scope, chain, parameter)?;
    }
    Ok(())
}

#[cycle(expressions)]
fn place_target(
    placed: &mut ResolvedNames,
    scope: &Scope<'_, '_>,
    chain: &Chain<'_>,
    target: &Target,
) -> Result<(), AllocError>
    ensures { OnOk result (Places scope.now (in_target target.now chain.now) placed.old placed.new) }
{
    match target {
        Target::Name(name) => place_name(placed, scope, chain, name)?,
        Target::Index { value, index } => {
            place_expression(placed, scope, chain, value.get())?;
            place_expression(placed, scope, chain, index.get())?;
        }

        Target::Tuple(targets) | Target::List(targets) => place_targets(
            placed,
            scope,
            chain,
            targets.as_slice(),
        )?,
    }
    Ok(())
}

#[cycle(expressions)]
fn place_targets(
    placed: &mut ResolvedNames,
    scope: &Scope<'_, '_>,
    chain: &Chain<'_>,
    targets: &[Target],
) -> Result<(), AllocError>
    ensures { OnOk result (Places scope.now (all_uses in_target targets.now chain.now) placed.old placed.new) }
{
    for target in targets {
        place_target(placed, scope, chain, target)?;
    }
    Ok(())
}

fn place_loaded(
    placed: &mut ResolvedNames,
    scope: &Scope<'_, '_>,
    chain: &Chain<'_>,
    names: &[LoadedName],
) -> Result<(), AllocError>
    ensures { OnOk result (Places scope.now (all_uses loaded_use names.now chain.now) placed.old placed.new) }
{
    for name in names {
        place_name(placed, scope, chain, &name.local)?;
    }
    Ok(())
}

fn place_returned(
    placed: &mut ResolvedNames,
    scope: &Scope<'_, '_>,
    chain: &Chain<'_>,
    expression: &Option<Expression>,
) -> Result<(), AllocError>
    ensures { OnOk result (Places scope.now (in_returned expression.now chain.now) placed.old placed.new) }
{
    match expression {
        Some(expression) => place_expression(placed, scope, chain, expression)?,
        None => {}
    }
    Ok(())
}

#[cycle(statements)]
fn place_form(
    placed: &mut ResolvedNames,
    scope: &Scope<'_, '_>,
    chain: &Chain<'_>,
    token: usize,
    form: &Form,
) -> Result<(), AllocError>
    ensures { OnOk result (Places scope.now (in_form form.now token chain.now) placed.old placed.new) }
{
    match form {
        Form::Expression(value) => place_expression(placed, scope, chain, value)?,
        Form::Assign { target, value } => {
            place_expression(placed, scope, chain, value)?;
            place_target(placed, scope, chain, target)?;
        }
        Form::Augment { target, value, .. } => {
            place_target(placed, scope, chain, target)?;
            place_expression(placed, scope, chain, value)?;
        }
        Form::Pass | Form::Break | Form::Continue => {}
        Form::Return(value) => place_returned(placed, scope, chain, value)?,
        Form::Load { names, .. } => place_loaded(placed, scope, chain, names.as_slice())?,
        Form::If { arms, otherwise } => {
            place_arms(placed, scope, chain, arms.as_slice())?;
            place_statements(placed, scope, chain, otherwise.as_slice())?;
        }
        Form::For {
            target,
            iterable,
            body,
        } => {
            place_expression(placed, scope, chain, iterable)?;
            place_target(placed, scope, chain, target)?;
            place_statements(placed, scope, chain, body.as_slice())?;
        }
        Form::Def {
            name,
            parameters,
            body,
        } => {
            place_name(placed, scope, chain, name)?;
            let inner = Chain::inside(&*chain, token)?;
            place_defaults(placed, scope, chain, parameters.as_slice())?;
            place_parameter_names(placed, scope, &inner, parameters.as_slice())?;
            place_statements(placed, scope, &inner, body.as_slice())?;
        }
    }
    Ok(())
}

#[cycle(statements)]
fn place_statements(
    placed: &mut ResolvedNames,
    scope: &Scope<'_, '_>,
    chain: &Chain<'_>,
    statements: &[Statement],
) -> Result<(), AllocError>
    ensures { OnOk result (Places scope.now (all_uses in_statement statements.now chain.now) placed.old placed.new) }
{
    for statement in statements {
        place_form(
            placed,
            scope,
            chain,
            statement.position.token,
            &statement.form,
        )?;
    }
    Ok(())
}

#[cycle(statements)]
fn place_arm(
    placed: &mut ResolvedNames,
    scope: &Scope<'_, '_>,
    chain: &Chain<'_>,
    arm: &Arm,
) -> Result<(), AllocError>
    ensures { OnOk result (Places scope.now (in_arm arm.now chain.now) placed.old placed.new) }
{
    place_expression(placed, scope, chain, &arm.condition)?;
    place_statements(placed, scope, chain, arm.body.as_slice())?;
    Ok(())
}

#[cycle(statements)]
fn place_arms(
    placed: &mut ResolvedNames,
    scope: &Scope<'_, '_>,
    chain: &Chain<'_>,
    arms: &[Arm],
) -> Result<(), AllocError>
    ensures { OnOk result (Places scope.now (all_uses in_arm arms.now chain.now) placed.old placed.new) }
{
    for arm in arms {
        place_arm(placed, scope, chain, arm)?;
    }
    Ok(())
}

/// The spots of all names of a file in a scope, and the first undefined name.
fn place_all(
    alloc: Global,
    scope: &Scope<'_, '_>,
    statements: &[Statement],
) -> Result<ResolvedNames, AllocError>
    ensures first { IfOk result (λ placed. HasFirst scope.now.blocks.now
        (outer_shown scope.now.prelude scope.now.language) statements.now placed) }
    ensures spots { IfOk result (λ placed. HasSpots scope.now.blocks.now
        (outer_shown scope.now.prelude scope.now.language) statements.now placed) }
{
    let mut placed = ResolvedNames {
        spots: Spots::new(alloc)?,
        first: None,
    };
    place_statements(&mut placed, scope, &Chain::of_file(), statements)?;
    Ok(placed)
}

/// The spots of all names of a file with these statements and blocks and, if there is one, this prelude's block, in a
/// language. Also the first undefined name: one that no block around it, no prelude and no built-in binds
/// (`docs/LANGUAGE.md`, "Scopes and static faults").
///
/// `Memory` if an allocation fails, and for a tree that no text has: if two names with different spots have one token,
/// or more than 102 blocks are nested. No other error comes.
pub fn resolve_names<'s, 't>(
    alloc: Global,
    blocks: &'s Blocks<'t>,
    prelude: Option<&'s BlockNames<'t>>,
    language: &'s Language,
    statements: &[Statement],
) -> Result<ResolvedNames, ScopeFault>
    ensures first { IfOk result
        (λ placed. HasFirst blocks.now (outer_shown prelude.entry language.entry) statements.now placed) }
    ensures spots { IfOk result
        (λ placed. HasSpots blocks.now (outer_shown prelude.entry language.entry) statements.now placed) }
    ensures memory { IfErr result (λ e. e ≡ Memory) }
{
    let bound = Bound::of(alloc, blocks)?;
    let scope = Scope {
        blocks: &bound,
        prelude,
        language,
    };
    let mut placed = place_all(alloc, &scope, statements)?;
    placed.spots.settle();
    Ok(placed)
}
