//! The readers of statements that hold others, and of a whole file. Begin at `file`.

ghost use Rattle.std.specs.Prelude.{length};
ghost use Rattle.star_syntax.specs.Grammar.{first, rounds, run, statement as at_statement};
ghost use Rattle.star_syntax.specs.Expressions as expressions;
ghost use Rattle.star_syntax.specs.Statements as spec;
ghost use Rattle.star_syntax.specs.Language.{Blocks, Finds, Gives, Parsed, reads, rule};

use crate::simple::{Simple, newline, only};
use sqlite_items::{Boxed, Items};
use star_lex::token::{Keyword, Punctuator};
use star_syntax::expressions::{expression, parameters_at, targets_at, tests_at};
use star_syntax::leaf::{TokenValue, ValuedToken};
use star_syntax::level::Level;
use star_syntax::reader::{Read, exact, keyword, name, sign};
use star_tree::tree::{Arm, Expression, Form, Parameter, Statement, Target};
use std::alloc::{AllocError, Global};

/// The readers of statements, with others nested in them no deeper than a depth.
#[derive(Clone, Copy)]
pub struct Nested<F> {
    pub alloc: Global,
    /// How deep statements and expressions may still nest.
    pub depth: u128,
    /// The reader of the statements nested in them.
    pub statement: F,
}

fn indent(leaves: &[ValuedToken]) -> Option<((), &[ValuedToken])>
    ensures { Finds (first (λ t. spec.is_indent t.word) leaves.now) result }
{
    match leaves {
        [leaf, rest @ ..] if matches!(&leaf.word, TokenValue::Indent) => Some(((), rest)),
        _ => None,
    }
}

fn outdent(leaves: &[ValuedToken]) -> Option<((), &[ValuedToken])>
    ensures { Finds (first (λ t. spec.is_outdent t.word) leaves.now) result }
{
    match leaves {
        [leaf, rest @ ..] if matches!(&leaf.word, TokenValue::Outdent) => Some(((), rest)),
        _ => None,
    }
}

fn end(leaves: &[ValuedToken]) -> Option<((), &[ValuedToken])>
    ensures { Finds (first (λ t. spec.is_end t.word) leaves.now) result }
{
    match leaves {
        [leaf, rest @ ..] if matches!(&leaf.word, TokenValue::End) => Some(((), rest)),
        _ => None,
    }
}

impl<F: Fn(Global, u128, &[ValuedToken]) -> Read<'_, Items<Statement>>> Nested<F> {
    fn nested<'a>(&self, leaves: &'a [ValuedToken]) -> Read<'a, Items<Statement>>
        requires { Blocks self.now.depth (F.pre self.now.statement) (F.post self.now.statement) }
        ensures { Gives (run rule self.now.depth at_statement leaves.now) result }
    {
        (self.statement)(self.alloc, self.depth, leaves)
    }

    fn test<'a>(&self, leaves: &'a [ValuedToken]) -> Read<'a, Boxed<Expression>>
        ensures { Gives (reads self.now.depth expressions.a_test leaves.now) result }
    {
        expression(self.alloc, self.depth, Level::Test, leaves)
    }

    fn simple<'a>(&self, leaves: &'a [ValuedToken]) -> Read<'a, Items<Statement>>
        ensures { Gives (reads self.now.depth spec.simple leaves.now) result }
    {
        let readers = Simple {
            alloc: self.alloc,
            depth: self.depth,
        };
        readers.simple(leaves)
    }

    /// `{Statement}`, after the statements that are found so far.
    #[tactic(auto, using(star_syntax::proofs::Rounds::turns))]
    fn statements_after<'a>(
        &self,
        mut found: Items<Statement>,
        leaves: &'a [ValuedToken],
    ) -> Read<'a, Items<Statement>>
        requires { Blocks self.now.depth (F.pre self.now.statement) (F.post self.now.statement) }
        ensures { Gives (rounds spec.append (run rule self.now.depth at_statement) (length leaves.now)
            found leaves.now) result }
    {
        let mut rest = leaves;
        for _turn in 0..leaves.len() {
            let Some((next, after)) = self.nested(rest)? else {
                return Ok(Some((found, rest)));
            };
            found.append(next)?;
            rest = after;
        }
        Ok(Some((found, rest)))
    }

    /// `Statement {Statement}`
    #[tactic(auto, unfolding(star_syntax::specs::Statements::body))]
    fn body<'a>(&self, leaves: &'a [ValuedToken]) -> Read<'a, Items<Statement>>
        requires { Blocks self.now.depth (F.pre self.now.statement) (F.post self.now.statement) }
        ensures { Gives (reads self.now.depth spec.body leaves.now) result }
    {
        let Some((found, rest)) = self.nested(leaves)? else {
            return Ok(None);
        };
        self.statements_after(found, rest)
    }

    /// `NEWLINE INDENT Statement {Statement} OUTDENT`
    #[tactic(auto, unfolding(star_syntax::specs::Statements::block))]
    fn block<'a>(&self, leaves: &'a [ValuedToken]) -> Read<'a, Items<Statement>>
        requires { Blocks self.now.depth (F.pre self.now.statement) (F.post self.now.statement) }
        ensures { Gives (reads self.now.depth spec.block leaves.now) result }
    {
        let Some((_, rest)) = newline(leaves) else {
            return Ok(None);
        };
        let Some((_, rest)) = indent(rest) else {
            return Ok(None);
        };
        let Some((found, rest)) = self.body(rest)? else {
            return Ok(None);
        };
        let Some((_, rest)) = outdent(rest) else {
            return Ok(None);
        };
        Ok(Some((exact(self.alloc, found)?, rest)))
    }

    /// `Suite = Simple | NEWLINE INDENT Statement {Statement} OUTDENT`
    #[tactic(auto, unfolding(star_syntax::specs::Statements::suite))]
    fn suite<'a>(&self, leaves: &'a [ValuedToken]) -> Read<'a, Items<Statement>>
        requires { Blocks self.now.depth (F.pre self.now.statement) (F.post self.now.statement) }
        ensures { Gives (reads self.now.depth spec.suite leaves.now) result }
    {
        if let Some(found) = self.simple(leaves)? {
            return Ok(Some(found));
        }
        self.block(leaves)
    }

    /// `':' Suite`
    #[tactic(auto, unfolding(star_syntax::specs::Statements::colon_suite))]
    fn colon_suite<'a>(&self, leaves: &'a [ValuedToken]) -> Read<'a, Items<Statement>>
        requires { Blocks self.now.depth (F.pre self.now.statement) (F.post self.now.statement) }
        ensures { Gives (reads self.now.depth spec.colon_suite leaves.now) result }
    {
        let Some((_, rest)) = sign(Punctuator::Colon, leaves) else {
            return Ok(None);
        };
        self.suite(rest)
    }

    /// `Test ':' Suite`
    #[tactic(auto, unfolding(star_syntax::specs::Statements::arm))]
    fn arm<'a>(&self, leaves: &'a [ValuedToken]) -> Read<'a, Arm>
        requires { Blocks self.now.depth (F.pre self.now.statement) (F.post self.now.statement) }
        ensures { Gives (reads self.now.depth spec.arm leaves.now) result }
    {
        let Some((condition, rest)) = self.test(leaves)? else {
            return Ok(None);
        };
        let Some((body, rest)) = self.colon_suite(rest)? else {
            return Ok(None);
        };
        let condition = condition.into_inner();
        Ok(Some((Arm { condition, body }, rest)))
    }

    /// `'elif' Test ':' Suite`
    #[tactic(auto, unfolding(star_syntax::specs::Statements::next_arm))]
    fn next_arm<'a>(&self, leaves: &'a [ValuedToken]) -> Read<'a, Arm>
        requires { Blocks self.now.depth (F.pre self.now.statement) (F.post self.now.statement) }
        ensures { Gives (reads self.now.depth spec.next_arm leaves.now) result }
    {
        let Some((_, rest)) = keyword(Keyword::Elif, leaves) else {
            return Ok(None);
        };
        self.arm(rest)
    }

    /// `'if' Test ':' Suite`
    #[tactic(auto, unfolding(star_syntax::specs::Statements::first_arm))]
    fn first_arm<'a>(&self, leaves: &'a [ValuedToken]) -> Read<'a, Arm>
        requires { Blocks self.now.depth (F.pre self.now.statement) (F.post self.now.statement) }
        ensures { Gives (reads self.now.depth spec.first_arm leaves.now) result }
    {
        let Some((_, rest)) = keyword(Keyword::If, leaves) else {
            return Ok(None);
        };
        self.arm(rest)
    }

    /// `'if' Test ':' Suite {'elif' Test ':' Suite}`
    #[tactic(auto, unfolding(star_syntax::specs::Statements::arms), using(star_syntax::proofs::Rounds::turns))]
    fn arms<'a>(&self, leaves: &'a [ValuedToken]) -> Read<'a, Items<Arm>>
        requires { Blocks self.now.depth (F.pre self.now.statement) (F.post self.now.statement) }
        ensures { Gives (reads self.now.depth spec.arms leaves.now) result }
    {
        let Some((first, mut rest)) = self.first_arm(leaves)? else {
            return Ok(None);
        };
        let mut found = only(self.alloc, first)?;
        for _turn in 0..rest.len() {
            let Some((next, after)) = self.next_arm(rest)? else {
                return Ok(Some((found, rest)));
            };
            found.push(next)?;
            rest = after;
        }
        Ok(Some((found, rest)))
    }

    /// `'else' ':' Suite`
    #[tactic(auto, unfolding(star_syntax::specs::Statements::otherwise))]
    fn otherwise<'a>(&self, leaves: &'a [ValuedToken]) -> Read<'a, Items<Statement>>
        requires { Blocks self.now.depth (F.pre self.now.statement) (F.post self.now.statement) }
        ensures { Gives (reads self.now.depth spec.otherwise leaves.now) result }
    {
        let Some((_, rest)) = keyword(Keyword::Else, leaves) else {
            return Ok(None);
        };
        self.colon_suite(rest)
    }

    /// `If = 'if' Test ':' Suite {'elif' Test ':' Suite} ['else' ':' Suite]`
    #[tactic(auto, unfolding(star_syntax::specs::Statements::condition))]
    fn condition<'a>(&self, leaves: &'a [ValuedToken]) -> Read<'a, Form>
        requires { Blocks self.now.depth (F.pre self.now.statement) (F.post self.now.statement) }
        ensures { Gives (reads self.now.depth spec.condition leaves.now) result }
    {
        let Some((arms, rest)) = self.arms(leaves)? else {
            return Ok(None);
        };
        let arms = exact(self.alloc, arms)?;
        if let Some((otherwise, rest)) = self.otherwise(rest)? {
            return Ok(Some((Form::If { arms, otherwise }, rest)));
        }
        let otherwise = Items::new(self.alloc);
        Ok(Some((Form::If { arms, otherwise }, rest)))
    }

    fn targets<'a>(&self, leaves: &'a [ValuedToken]) -> Read<'a, Boxed<Target>>
        ensures { Gives (reads self.now.depth expressions.targets leaves.now) result }
    {
        targets_at(self.alloc, self.depth, leaves)
    }

    fn tests<'a>(&self, leaves: &'a [ValuedToken]) -> Read<'a, Boxed<Expression>>
        ensures { Gives (reads self.now.depth expressions.tests leaves.now) result }
    {
        tests_at(self.alloc, self.depth, leaves)
    }

    fn parameters<'a>(&self, leaves: &'a [ValuedToken]) -> Read<'a, Items<Parameter>>
        ensures { Gives (reads self.now.depth expressions.parameters_in_parentheses leaves.now) result }
    {
        parameters_at(self.alloc, self.depth, leaves)
    }

    /// `For = 'for' Targets 'in' Tests ':' Suite`
    #[tactic(auto, unfolding(star_syntax::specs::Statements::iteration))]
    fn iteration<'a>(&self, leaves: &'a [ValuedToken]) -> Read<'a, Form>
        requires { Blocks self.now.depth (F.pre self.now.statement) (F.post self.now.statement) }
        ensures { Gives (reads self.now.depth spec.iteration leaves.now) result }
    {
        let Some((_, rest)) = keyword(Keyword::For, leaves) else {
            return Ok(None);
        };
        let Some((target, rest)) = self.targets(rest)? else {
            return Ok(None);
        };
        let Some((_, rest)) = keyword(Keyword::In, rest) else {
            return Ok(None);
        };
        let Some((iterable, rest)) = self.tests(rest)? else {
            return Ok(None);
        };
        let Some((body, rest)) = self.colon_suite(rest)? else {
            return Ok(None);
        };
        let target = target.into_inner();
        let iterable = iterable.into_inner();
        Ok(Some((
            Form::For {
                target,
                iterable,
                body,
            },
            rest,
        )))
    }

    /// `Def = 'def' name '(' [Params [',']] ')' ':' Suite`
    #[tactic(auto, unfolding(star_syntax::specs::Statements::definition))]
    fn definition<'a>(&self, leaves: &'a [ValuedToken]) -> Read<'a, Form>
        requires { Blocks self.now.depth (F.pre self.now.statement) (F.post self.now.statement) }
        ensures { Gives (reads self.now.depth spec.definition leaves.now) result }
    {
        let Some((_, rest)) = keyword(Keyword::Def, leaves) else {
            return Ok(None);
        };
        let Some((name, rest)) = name(rest)? else {
            return Ok(None);
        };
        let Some((parameters, rest)) = self.parameters(rest)? else {
            return Ok(None);
        };
        let Some((body, rest)) = self.colon_suite(rest)? else {
            return Ok(None);
        };
        Ok(Some((
            Form::Def {
                name,
                parameters,
                body,
            },
            rest,
        )))
    }

    /// `Def | If | For`, without its position.
    #[tactic(auto, unfolding(star_syntax::specs::Statements::compound_form))]
    fn compound_form<'a>(&self, leaves: &'a [ValuedToken]) -> Read<'a, Form>
        requires { Blocks self.now.depth (F.pre self.now.statement) (F.post self.now.statement) }
        ensures { Gives (reads self.now.depth spec.compound_form leaves.now) result }
    {
        if let Some(found) = self.definition(leaves)? {
            return Ok(Some(found));
        }
        if let Some(found) = self.condition(leaves)? {
            return Ok(Some(found));
        }
        self.iteration(leaves)
    }

    /// `Def | If | For`, with the position of its first token.
    #[tactic(auto, unfolding(star_syntax::specs::Statements::compound))]
    fn compound<'a>(&self, leaves: &'a [ValuedToken]) -> Read<'a, Statement>
        requires { Blocks self.now.depth (F.pre self.now.statement) (F.post self.now.statement) }
        ensures { Gives (reads self.now.depth spec.compound leaves.now) result }
    {
        let [leaf, ..] = leaves else {
            return Ok(None);
        };
        let Some((form, rest)) = self.compound_form(leaves)? else {
            return Ok(None);
        };
        let position = leaf.position;
        Ok(Some((Statement { position, form }, rest)))
    }

    /// `Statement = Def | If | For | Simple`
    #[tactic(auto, unfolding(star_syntax::specs::Statements::one_statement))]
    fn one_statement<'a>(&self, leaves: &'a [ValuedToken]) -> Read<'a, Items<Statement>>
        requires { Blocks self.now.depth (F.pre self.now.statement) (F.post self.now.statement) }
        ensures { Gives (reads self.now.depth spec.one_statement leaves.now) result }
    {
        if let Some((found, rest)) = self.compound(leaves)? {
            return Ok(Some((only(self.alloc, found)?, rest)));
        }
        self.simple(leaves)
    }

    /// `{Statement}`
    #[tactic(auto, unfolding(star_syntax::specs::Statements::statements))]
    fn statements<'a>(&self, leaves: &'a [ValuedToken]) -> Read<'a, Items<Statement>>
        requires { Blocks self.now.depth (F.pre self.now.statement) (F.post self.now.statement) }
        ensures { Gives (reads self.now.depth spec.statements leaves.now) result }
    {
        self.statements_after(Items::new(self.alloc), leaves)
    }

    /// `File = {Statement} END`
    #[tactic(auto, unfolding(star_syntax::specs::Statements::file))]
    fn file<'a>(&self, leaves: &'a [ValuedToken]) -> Read<'a, Items<Statement>>
        requires { Blocks self.now.depth (F.pre self.now.statement) (F.post self.now.statement) }
        ensures { Gives (reads self.now.depth spec.file leaves.now) result }
    {
        let Some((found, rest)) = self.statements(leaves)? else {
            return Ok(None);
        };
        let Some((_, rest)) = end(rest) else {
            return Ok(None);
        };
        Ok(Some((exact(self.alloc, found)?, rest)))
    }
}

/// A statement, or a line of them, with others nested in it no deeper than a depth.
pub fn statement(alloc: Global, depth: u128, leaves: &[ValuedToken]) -> Read<'_, Items<Statement>>
    ensures { Gives (run rule depth at_statement leaves.now) result }
{
    if depth == 0 {
        return Ok(None);
    }
    let nested = Nested {
        alloc,
        depth: depth - 1,
        statement,
    };
    nested.one_statement(leaves)
}

/// The statements of a file's leaves; `None` if the grammar gives none.
pub fn file_of(
    alloc: Global,
    leaves: &[ValuedToken],
) -> Result<Option<Items<Statement>>, AllocError>
    ensures { Parsed leaves.now result }
{
    let nested = Nested {
        alloc,
        depth: leaves.len() as u128 * 2 + 2,
        statement,
    };
    let Some((found, rest)) = nested.file(leaves)? else {
        return Ok(None);
    };
    if rest.is_empty() {
        Ok(Some(found))
    } else {
        Ok(None)
    }
}
