//! Conflicts: names that are bound more than once though one of the bindings must be the only one.

ghost use Rattle.std.specs.Prelude.{◌≡◌, ◌∷◌, [], List, if◌then◌else◌, IfOk, IfErr, OnOk};
ghost use Rattle.std.specs.List.{flat_map};
ghost use Rattle.std.specs.Cmp.Lexicographic.{slice_cmp};
ghost use Rattle.std.specs.Ordering.{nat_cmp};
ghost use Rattle.std.specs.BTreeSet.{insert_key};
ghost use Rattle.star_scope.specs.declared.error.ScopeFault.TheVariants.{Memory};
ghost use Rattle.star_scope.specs.Bound.{Binds, binding, is_in, names_of};
ghost use Rattle.star_scope.specs.Conflicts.{arms_bindings, block_conflicts, conflict_at, form_bindings, loaded_binding, parameter_binding, parameter_bindings, repeated_parameters, statements_bindings, target_bindings, targets_bindings};
ghost use Rattle.star_scope.specs.Faults.{first, first_from};

use crate::error::{LocatedFault, ScopeFault, earlier};
use star_tree::tree::{Arm, Form, LoadedName, Name, Parameter, Position, Statement, Target};
use std::alloc::{AllocError, Global};
use std::collections::BTreeSet;

/// Names, each once.
type Names<'a> = BTreeSet<&'a str>;

/// The names that are bound so far, the names among them that must be bound alone, and the first conflict.
#[derive(Drop)]
struct Bound<'a> {
    all: Names<'a>,
    alone: Names<'a>,
    found: Option<LocatedFault>,
}

fn insert<'a>(names: &mut Names<'a>, name: &'a str) -> Result<(), AllocError>
    ensures { OnOk result (names_of names.new ≡ insert_key (slice_cmp nat_cmp) (names_of names.old) name.now) }
{
    names.insert(name)?;
    Ok(())
}

fn insert_where<'a>(wanted: bool, names: &mut Names<'a>, name: &'a str) -> Result<(), AllocError>
    ensures { OnOk result (names_of names.new
        ≡ (if wanted then insert_key (slice_cmp nat_cmp) (names_of names.old) name.now else names_of names.old)) }
{
    if wanted {
        insert(names, name)?;
    }
    Ok(())
}

fn has(names: &Names<'_>, name: &str) -> bool
    ensures { result ≡ is_in (names_of names.now) name.now }
{
    names.contains(name)
}

/// Whether an earlier binding has the name, and it or this one must be alone.
fn clashes(bound: &Bound<'_>, name: &str, alone: bool) -> bool
    ensures { result ≡ is_in (if alone then names_of bound.now.all else names_of bound.now.alone) name.now }
{
    if alone {
        has(&bound.all, name)
    } else {
        has(&bound.alone, name)
    }
}

/// The fault found so far, or the conflict at `position` if it comes first.
#[tactic(auto, unfolding(crate::specs::Faults::first_from))]
fn conflict(found: Option<LocatedFault>, clashes: bool, position: Position) -> Option<LocatedFault>
    ensures { result ≡ first_from found (conflict_at clashes position) }
{
    if !clashes {
        return found;
    }
    earlier(
        found,
        LocatedFault {
            token: position.token,
            fault: ScopeFault::Conflict {
                line: position.line,
            },
        },
    )
}

fn bind<'a>(bound: &mut Bound<'a>, name: &'a Name, alone: bool) -> Result<(), AllocError>
    ensures { OnOk result (Binds (binding name.now alone ∷ []) bound.old bound.new) }
{
    let text = name.text.as_str();
    let clashes = clashes(bound, text, alone);
    bound.found = conflict(bound.found, clashes, name.position);
    insert(&mut bound.all, text)?;
    insert_where(alone, &mut bound.alone, text)?;
    Ok(())
}

fn bind_parameter<'a>(bound: &mut Bound<'a>, parameter: &'a Parameter) -> Result<(), AllocError>
    ensures { OnOk result (Binds (parameter_binding parameter.now) bound.old bound.new) }
{
    match parameter {
        Parameter::Plain(name)
        | Parameter::Default { name, .. }
        | Parameter::Star(name)
        | Parameter::StarStar(name) => bind(bound, name, true)?,
        Parameter::BareStar => {}
    }
    Ok(())
}

fn bind_parameters<'a>(bound: &mut Bound<'a>, parameters: &'a [Parameter]) -> Result<(), AllocError>
    ensures { OnOk result (Binds (parameter_bindings parameters.now) bound.old bound.new) }
{
    for parameter in parameters {
        bind_parameter(bound, parameter)?;
    }
    Ok(())
}

/// The first parameter of a `def` or `lambda` whose name an earlier one has: a `Conflict` at its name
/// (`docs/LANGUAGE.md`, "Scopes and static faults"). `Memory` if an allocation fails, and no other error.
pub fn repeated_parameter(
    alloc: Global,
    parameters: &[Parameter],
) -> Result<Option<LocatedFault>, ScopeFault>
    ensures first { IfOk result (λ found. found ≡ first (repeated_parameters parameters.now)) }
    ensures memory { IfErr result (λ e. e ≡ Memory) }
{
    let mut bound = Bound {
        all: BTreeSet::new(alloc),
        alone: BTreeSet::new(alloc),
        found: None,
    };
    bind_parameters(&mut bound, parameters)?;
    Ok(bound.found)
}

#[cycle(targets)]
fn bind_target<'a>(bound: &mut Bound<'a>, target: &'a Target) -> Result<(), AllocError>
    ensures { OnOk result (Binds (target_bindings target.now) bound.old bound.new) }
{
    match target {
        Target::Name(name) => bind(bound, name, false)?,
        Target::Index { .. } => {}
        Target::Tuple(targets) | Target::List(targets) => bind_targets(bound, targets.as_slice())?,
    }
    Ok(())
}

#[cycle(targets)]
fn bind_targets<'a>(bound: &mut Bound<'a>, targets: &'a [Target]) -> Result<(), AllocError>
    ensures { OnOk result (Binds (targets_bindings targets.now) bound.old bound.new) }
{
    for target in targets {
        bind_target(bound, target)?;
    }
    Ok(())
}

fn bind_loaded<'a>(bound: &mut Bound<'a>, names: &'a [LoadedName]) -> Result<(), AllocError>
    ensures { OnOk result (Binds (flat_map loaded_binding names.now) bound.old bound.new) }
{
    for name in names {
        bind(bound, &name.local, true)?;
    }
    Ok(())
}

#[cycle(block)]
fn bind_form<'a>(bound: &mut Bound<'a>, form: &'a Form) -> Result<(), AllocError>
    ensures { OnOk result (Binds (form_bindings form.now) bound.old bound.new) }
{
    match form {
        Form::Assign { target, .. } | Form::Augment { target, .. } => bind_target(bound, target)?,
        Form::Load { names, .. } => bind_loaded(bound, names.as_slice())?,
        Form::If { arms, otherwise } => {
            bind_arms(bound, arms.as_slice())?;
            bind_statements(bound, otherwise.as_slice())?;
        }
        Form::For { target, body, .. } => {
            bind_target(bound, target)?;
            bind_statements(bound, body.as_slice())?;
        }
        Form::Def { name, .. } => bind(bound, name, false)?,
        Form::Expression(_) | Form::Pass | Form::Break | Form::Continue | Form::Return(_) => {}
    }
    Ok(())
}

#[cycle(block)]
fn bind_statements<'a>(bound: &mut Bound<'a>, statements: &'a [Statement]) -> Result<(), AllocError>
    ensures { OnOk result (Binds (statements_bindings statements.now) bound.old bound.new) }
{
    for statement in statements {
        bind_form(bound, &statement.form)?;
    }
    Ok(())
}

#[cycle(block)]
fn bind_arms<'a>(bound: &mut Bound<'a>, arms: &'a [Arm]) -> Result<(), AllocError>
    ensures { OnOk result (Binds (arms_bindings arms.now) bound.old bound.new) }
{
    for arm in arms {
        bind_statements(bound, arm.body.as_slice())?;
    }
    Ok(())
}

/// The first conflict in the file's block: a binding of a name that is bound already, if one of these bindings is by a
/// load statement (`docs/LANGUAGE.md`, "Scopes and static faults"). `Memory` if an allocation fails, and no other
/// error.
pub fn block_conflict(
    alloc: Global,
    statements: &[Statement],
) -> Result<Option<LocatedFault>, ScopeFault>
    ensures first { IfOk result (λ found. found ≡ first (block_conflicts statements.now)) }
    ensures memory { IfErr result (λ e. e ≡ Memory) }
{
    let mut bound = Bound {
        all: BTreeSet::new(alloc),
        alone: BTreeSet::new(alloc),
        found: None,
    };
    bind_statements(&mut bound, statements)?;
    Ok(bound.found)
}
