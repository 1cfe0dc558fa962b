//! Expressions turned into targets, once an `=`, a sign or an `in` shows that they are.

ghost use Rattle.std.specs.Prelude.{◌≡◌, IfOk, reverse};
ghost use Rattle.star_syntax.specs.Keeps as keeps;

use sqlite_items::Items;
use star_tree::tree::{Expression, Target};
use std::alloc::{AllocError, Global};

/// The targets, the last first.
fn reversed(alloc: Global, mut targets: Items<Target>) -> Result<Items<Target>, AllocError>
    ensures { IfOk result (λ found. found ≡ reverse targets) }
{
    let mut found = Items::from_vec(Vec::with_capacity(alloc, targets.len())?);
    while let Some(last) = targets.pop() {
        found.push(last)?;
    }
    Ok(found)
}

/// The target that an expression is: a name, an index, or a tuple or list display of targets.
#[cycle(target)]
#[tactic(auto, using(crate::proofs::Targets::opened))]
pub fn target_of(alloc: Global, expression: Expression) -> Result<Option<Target>, AllocError>
    ensures { IfOk result (λ found. found ≡ keeps.target_of expression) }
{
    match expression {
        Expression::Name(name) => Ok(Some(Target::Name(name))),
        Expression::Index { value, index } => Ok(Some(Target::Index { value, index })),
        Expression::Tuple(parts) => match targets_of(alloc, parts)? {
            Some(targets) => Ok(Some(Target::Tuple(targets))),
            None => Ok(None),
        },
        Expression::List(parts) => match targets_of(alloc, parts)? {
            Some(targets) => Ok(Some(Target::List(targets))),
            None => Ok(None),
        },
        other => {
            drop(other);
            Ok(None)
        }
    }
}

/// The targets that expressions are, if each is one.
#[cycle(target)]
#[tactic(auto, using(crate::proofs::Targets::none_found_of, crate::proofs::Targets::none_left, crate::proofs::Targets::last_some_of, crate::proofs::Targets::last_none_of))]
fn targets_of(
    alloc: Global,
    mut parts: Items<Expression>,
) -> Result<Option<Items<Target>>, AllocError>
    ensures { IfOk result (λ found. found ≡ keeps.targets_of parts) }
{
    let mut found = Items::new(alloc);
    while let Some(part) = parts.pop() {
        match target_of(alloc, part)? {
            Some(target) => found.push(target)?,
            None => return Ok(None),
        }
    }
    Ok(Some(reversed(alloc, found)?))
}

/// The target that an expression is before an augmented assignment: a name or an index.
pub fn augmented_of(expression: Expression) -> Option<Target>
    ensures { result ≡ keeps.augmented_of expression }
{
    match expression {
        Expression::Name(name) => Some(Target::Name(name)),
        Expression::Index { value, index } => Some(Target::Index { value, index }),
        other => {
            drop(other);
            None
        }
    }
}
