//! The names that statements, targets and parameters bind, and sets of names.

ghost use Rattle.std.specs.Prelude.{◌≡◌, ◌∷◌, [], map, OnOk};
ghost use Rattle.star_outline.specs.Names.{with_names};
ghost use Rattle.star_outline.specs.Outlines.{all_parameter_names, arms_loaded, arms_names, block_names, clause_names, clauses_names, form_loaded, form_names, loaded_names, local_name, more_names, parameter_names, target_names, targets_names};

use crate::blocks::BlockNames;
use star_tree::tree::{Arm, Clause, Clauses, Form, LoadedName, Name, Parameter, Statement, Target};
use std::alloc::AllocError;

#[tactic(auto, unfolding(crate::specs::Names::with_names))]
fn add_name<'t>(names: &mut BlockNames<'t>, name: &'t Name) -> Result<(), AllocError>
    ensures { OnOk result (names.new ≡ with_names names.old (name.now.text ∷ [])) }
{
    names.add(name.text.as_str())
}

fn add_parameter<'t>(names: &mut BlockNames<'t>, parameter: &'t Parameter) -> Result<(), AllocError>
    ensures { OnOk result (names.new ≡ with_names names.old (parameter_names parameter.now)) }
{
    match parameter {
        Parameter::Plain(name)
        | Parameter::Default { name, .. }
        | Parameter::Star(name)
        | Parameter::StarStar(name) => add_name(names, name)?,
        Parameter::BareStar => {}
    }
    Ok(())
}

/// Adds the names that parameters bind.
pub(crate) fn add_parameters<'t>(
    names: &mut BlockNames<'t>,
    parameters: &'t [Parameter],
) -> Result<(), AllocError>
    ensures { OnOk result (names.new ≡ with_names names.old (all_parameter_names parameters.now)) }
{
    for parameter in parameters {
        add_parameter(names, parameter)?;
    }
    Ok(())
}

#[cycle(targets)]
#[tactic(auto, using(crate::proofs::BoundNames::with_none, crate::proofs::BoundNames::target_opened))]
fn add_target<'t>(names: &mut BlockNames<'t>, target: &'t Target) -> Result<(), AllocError>
    ensures { OnOk result (names.new ≡ with_names names.old (target_names target.now)) }
{
    match target {
        Target::Name(name) => add_name(names, name)?,
        Target::Index { .. } => {}
        Target::Tuple(targets) | Target::List(targets) => add_targets(names, targets.as_slice())?,
    }
    Ok(())
}

#[cycle(targets)]
fn add_targets<'t>(names: &mut BlockNames<'t>, targets: &'t [Target]) -> Result<(), AllocError>
    ensures { OnOk result (names.new ≡ with_names names.old (targets_names targets.now)) }
{
    for target in targets {
        add_target(names, target)?;
    }
    Ok(())
}

fn add_clause<'t>(names: &mut BlockNames<'t>, clause: &'t Clause) -> Result<(), AllocError>
    ensures { OnOk result (names.new ≡ with_names names.old (clause_names clause.now)) }
{
    match clause {
        Clause::For { target, .. } => add_target(names, target)?,
        Clause::If(_) => {}
    }
    Ok(())
}

fn add_more<'t>(names: &mut BlockNames<'t>, clauses: &'t [Clause]) -> Result<(), AllocError>
    ensures { OnOk result (names.new ≡ with_names names.old (more_names clauses.now)) }
{
    for clause in clauses {
        add_clause(names, clause)?;
    }
    Ok(())
}

/// Adds the names that the clauses of a comprehension bind.
#[tactic(auto, using(crate::proofs::BoundNames::with_joined))]
pub(crate) fn add_clauses<'t>(
    names: &mut BlockNames<'t>,
    clauses: &'t Clauses,
) -> Result<(), AllocError>
    ensures { OnOk result (names.new ≡ with_names names.old (clauses_names clauses.now)) }
{
    add_target(names, &clauses.target)?;
    add_more(names, clauses.more.as_slice())
}

#[cycle(block)]
#[tactic(auto, using(crate::proofs::BoundNames::with_none, crate::proofs::BoundNames::with_joined, crate::proofs::BoundNames::form_opened))]
fn add_form<'t>(names: &mut BlockNames<'t>, form: &'t Form) -> Result<(), AllocError>
    ensures { OnOk result (names.new ≡ with_names names.old (form_names form.now)) }
{
    match form {
        Form::Assign { target, .. } | Form::Augment { target, .. } => add_target(names, target)?,
        Form::If { arms, otherwise } => {
            add_arms(names, arms.as_slice())?;
            add_statements(names, otherwise.as_slice())?;
        }
        Form::For { target, body, .. } => {
            add_target(names, target)?;
            add_statements(names, body.as_slice())?;
        }
        Form::Def { name, .. } => add_name(names, name)?,
        Form::Load { .. }
        | Form::Expression(_)
        | Form::Pass
        | Form::Break
        | Form::Continue
        | Form::Return(_) => {}
    }
    Ok(())
}

/// Adds the names that statements bind in their block, without the names that they load.
#[cycle(block)]
pub fn add_statements<'t>(
    names: &mut BlockNames<'t>,
    statements: &'t [Statement],
) -> Result<(), AllocError>
    ensures { OnOk result (names.new ≡ with_names names.old (block_names statements.now)) }
{
    for statement in statements {
        add_form(names, &statement.form)?;
    }
    Ok(())
}

#[cycle(block)]
fn add_arms<'t>(names: &mut BlockNames<'t>, arms: &'t [Arm]) -> Result<(), AllocError>
    ensures { OnOk result (names.new ≡ with_names names.old (arms_names arms.now)) }
{
    for arm in arms {
        add_statements(names, arm.body.as_slice())?;
    }
    Ok(())
}

/// Adds the local names of a load statement.
pub fn add_loaded<'t>(
    names: &mut BlockNames<'t>,
    loaded: &'t [LoadedName],
) -> Result<(), AllocError>
    ensures { OnOk result (names.new ≡ with_names names.old (map local_name loaded.now)) }
{
    for name in loaded {
        add_name(names, &name.local)?;
    }
    Ok(())
}

#[cycle(loads)]
#[tactic(auto, using(crate::proofs::BoundNames::with_none, crate::proofs::BoundNames::with_joined, crate::proofs::BoundNames::loads_opened))]
fn load_form<'t>(names: &mut BlockNames<'t>, form: &'t Form) -> Result<(), AllocError>
    ensures { OnOk result (names.new ≡ with_names names.old (form_loaded form.now)) }
{
    match form {
        Form::Load { names: loaded, .. } => add_loaded(names, loaded.as_slice())?,
        Form::If { arms, otherwise } => {
            load_arms(names, arms.as_slice())?;
            load_statements(names, otherwise.as_slice())?;
        }
        Form::For { body, .. } | Form::Def { body, .. } => load_statements(names, body.as_slice())?,
        Form::Expression(_)
        | Form::Assign { .. }
        | Form::Augment { .. }
        | Form::Pass
        | Form::Break
        | Form::Continue
        | Form::Return(_) => {}
    }
    Ok(())
}

/// Adds the local names of all loads in statements.
#[cycle(loads)]
pub fn load_statements<'t>(
    names: &mut BlockNames<'t>,
    statements: &'t [Statement],
) -> Result<(), AllocError>
    ensures { OnOk result (names.new ≡ with_names names.old (loaded_names statements.now)) }
{
    for statement in statements {
        load_form(names, &statement.form)?;
    }
    Ok(())
}

#[cycle(loads)]
fn load_arms<'t>(names: &mut BlockNames<'t>, arms: &'t [Arm]) -> Result<(), AllocError>
    ensures { OnOk result (names.new ≡ with_names names.old (arms_loaded arms.now)) }
{
    for arm in arms {
        load_statements(names, arm.body.as_slice())?;
    }
    Ok(())
}
