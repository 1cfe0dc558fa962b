//! The readers of expressions to a depth: the recursion that ties the readers of all levels together.

ghost use Rattle.star_syntax.specs.Grammar.{level as at_level, run};
ghost use Rattle.star_syntax.specs.Expressions as spec;
ghost use Rattle.star_syntax.specs.Language.{Gives, reads, rule};

use crate::leaf::ValuedToken;
use crate::level::Level;
use crate::reader::{Grammar, Read};
use sqlite_items::{Boxed, Items};
use star_tree::tree::{Expression, Parameter, Target};
use std::alloc::Global;

/// The readers of expressions, with others nested in them no deeper than a depth.
macro_rules! grammar {
    ($alloc:expr, $depth:expr) => {
        Grammar {
            alloc: $alloc,
            depth: $depth,
            expression,
        }
    };
}

/// An expression of a level, with others nested in it no deeper than `depth`.
#[tactic(auto, using(crate::proofs::Depths::depths))]
pub fn expression(
    alloc: Global,
    depth: u128,
    level: Level,
    leaves: &[ValuedToken],
) -> Read<'_, Boxed<Expression>>
    ensures { Gives (run rule depth (at_level level) leaves.now) result }
{
    if depth == 0 {
        return Ok(None);
    }
    let grammar = grammar!(alloc, depth - 1);
    match level {
        Level::Test => grammar.any_test(leaves),
        Level::Or => grammar.disjunction(leaves),
        Level::Negation => grammar.negation(leaves),
        Level::Unary => grammar.unary(leaves),
        Level::Primary => grammar.primary(leaves),
    }
}

/// Tests: one, or several as a tuple.
pub fn tests_at(alloc: Global, depth: u128, leaves: &[ValuedToken]) -> Read<'_, Boxed<Expression>>
    ensures { Gives (reads depth spec.tests leaves.now) result }
{
    grammar!(alloc, depth).tests(leaves)
}

/// The parameters of a definition, with their parentheses.
pub fn parameters_at(
    alloc: Global,
    depth: u128,
    leaves: &[ValuedToken],
) -> Read<'_, Items<Parameter>>
    ensures { Gives (reads depth spec.parameters_in_parentheses leaves.now) result }
{
    grammar!(alloc, depth).parameters_in_parentheses(leaves)
}

/// Targets, as in a loop.
pub fn targets_at(alloc: Global, depth: u128, leaves: &[ValuedToken]) -> Read<'_, Boxed<Target>>
    ensures { Gives (reads depth spec.targets leaves.now) result }
{
    grammar!(alloc, depth).targets(leaves)
}
