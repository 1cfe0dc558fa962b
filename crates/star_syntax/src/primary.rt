//! Readers of operands and of their suffixes: attributes, calls, indices and slices.

ghost use Rattle.std.specs.Prelude.{◌≡◌};
ghost use Rattle.star_syntax.specs.Expressions as spec;
ghost use Rattle.star_syntax.specs.Language.{Gives, Nests, reads};

use crate::leaf::ValuedToken;
use crate::level::{Level, Suffix};
use crate::reader::{Grammar, Read, atom, name, onto, sign, tuple_unless_one};
use sqlite_items::{Boxed, Items};
use star_lex::token::Punctuator;
use star_tree::tree::Expression;
use std::alloc::Global;

/// Where a slice stops, and its stride.
type StopAndStride = (Option<Boxed<Expression>>, Option<Boxed<Expression>>);

fn slice_of(start: Option<Boxed<Expression>>, ends: StopAndStride) -> Suffix
    ensures { result ≡ Suffix.Slice start ends.0 ends.1 }
{
    let (stop, stride) = ends;
    Suffix::Slice {
        start,
        stop,
        stride,
    }
}

fn with_suffix(value: Boxed<Expression>, suffix: Suffix) -> Expression
    ensures { result ≡ spec.with_suffix value suffix }
{
    match suffix {
        Suffix::Attribute(name) => Expression::Attribute { value, name },
        Suffix::Call(arguments) => Expression::Call {
            function: value,
            arguments,
        },
        Suffix::Index(index) => Expression::Index { value, index },
        Suffix::Slice {
            start,
            stop,
            stride,
        } => Expression::Slice {
            value,
            start,
            stop,
            stride,
        },
    }
}

impl<F: Fn(Global, u128, Level, &[ValuedToken]) -> Read<'_, Boxed<Expression>>> Grammar<F> {
    /// `name | int | string`
    #[tactic(auto, unfolding(crate::specs::Expressions::atom))]
    fn atom<'a>(&self, leaves: &'a [ValuedToken]) -> Read<'a, Boxed<Expression>>
        ensures { Gives (reads self.now.depth spec.atom leaves.now) result }
    {
        atom(self.alloc, leaves)
    }

    /// `Operand = name | int | string | '(' .. ')' | '[' .. ']' | '{' .. '}'`
    #[tactic(auto, unfolding(crate::specs::Expressions::operand))]
    fn operand<'a>(&self, leaves: &'a [ValuedToken]) -> Read<'a, Boxed<Expression>>
        requires { Nests self.now.depth (F.pre self.now.expression) (F.post self.now.expression) }
        ensures { Gives (reads self.now.depth spec.operand leaves.now) result }
    {
        if let Some(found) = self.atom(leaves)? {
            return Ok(Some(found));
        }
        if let Some(found) = self.parentheses(leaves)? {
            return Ok(Some(found));
        }
        if let Some(found) = self.list_display(leaves)? {
            return Ok(Some(found));
        }
        self.dict_display(leaves)
    }

    /// `'.' name`
    #[tactic(auto, unfolding(crate::specs::Expressions::attribute))]
    fn attribute<'a>(&self, leaves: &'a [ValuedToken]) -> Read<'a, Suffix>
        ensures { Gives (reads self.now.depth spec.attribute leaves.now) result }
    {
        let Some((_, rest)) = sign(Punctuator::Dot, leaves) else {
            return Ok(None);
        };
        let Some((found, rest)) = name(rest)? else {
            return Ok(None);
        };
        Ok(Some((Suffix::Attribute(found), rest)))
    }

    /// `[Test]`
    fn maybe_bound<'a>(&self, leaves: &'a [ValuedToken]) -> Read<'a, Option<Boxed<Expression>>>
        requires { Nests self.now.depth (F.pre self.now.expression) (F.post self.now.expression) }
        ensures { Gives (reads self.now.depth (spec.opt spec.a_test) leaves.now) result }
    {
        match self.nested(Level::Test, leaves)? {
            Some((found, rest)) => Ok(Some((Some(found), rest))),
            None => Ok(Some((None, leaves))),
        }
    }

    /// `[':' [Test]]`
    #[tactic(auto, unfolding(crate::specs::Expressions::stride))]
    fn stride<'a>(&self, leaves: &'a [ValuedToken]) -> Read<'a, Option<Boxed<Expression>>>
        requires { Nests self.now.depth (F.pre self.now.expression) (F.post self.now.expression) }
        ensures { Gives (reads self.now.depth spec.stride leaves.now) result }
    {
        match sign(Punctuator::Colon, leaves) {
            Some((_, rest)) => self.maybe_bound(rest),
            None => Ok(Some((None, leaves))),
        }
    }

    /// `':' [Test] [':' [Test]]`
    #[tactic(auto, unfolding(crate::specs::Expressions::stop_and_stride))]
    fn stop_and_stride<'a>(&self, leaves: &'a [ValuedToken]) -> Read<'a, StopAndStride>
        requires { Nests self.now.depth (F.pre self.now.expression) (F.post self.now.expression) }
        ensures { Gives (reads self.now.depth spec.stop_and_stride leaves.now) result }
    {
        let Some((_, rest)) = sign(Punctuator::Colon, leaves) else {
            return Ok(None);
        };
        let Some((stop, rest)) = self.maybe_bound(rest)? else {
            return Ok(None);
        };
        let Some((stride, rest)) = self.stride(rest)? else {
            return Ok(None);
        };
        Ok(Some(((stop, stride), rest)))
    }

    /// `':' [Test] [':' [Test]] | {',' Test}`
    #[tactic(auto, unfolding(crate::specs::Expressions::after_start))]
    fn after_start<'a>(
        &self,
        leaves: &'a [ValuedToken],
    ) -> Read<'a, (Option<StopAndStride>, Items<Expression>)>
        requires { Nests self.now.depth (F.pre self.now.expression) (F.post self.now.expression) }
        ensures { Gives (reads self.now.depth spec.after_start leaves.now) result }
    {
        if let Some((after, rest)) = self.stop_and_stride(leaves)? {
            return Ok(Some(((Some(after), Items::new(self.alloc)), rest)));
        }
        let Some((more, rest)) = self.further_tests(leaves)? else {
            return Ok(None);
        };
        Ok(Some(((None, more), rest)))
    }

    /// `Test (':' [Test] [':' [Test]] | {',' Test})`
    #[tactic(auto, unfolding(crate::specs::Expressions::from_test))]
    fn from_test<'a>(&self, leaves: &'a [ValuedToken]) -> Read<'a, Suffix>
        requires { Nests self.now.depth (F.pre self.now.expression) (F.post self.now.expression) }
        ensures { Gives (reads self.now.depth spec.from_test leaves.now) result }
    {
        let Some((first, rest)) = self.nested(Level::Test, leaves)? else {
            return Ok(None);
        };
        let Some((after, rest)) = self.after_start(rest)? else {
            return Ok(None);
        };
        let (slice, more) = after;
        match slice {
            None => {
                let found = tuple_unless_one(onto(self.alloc, first.into_inner(), more)?);
                Ok(Some((Suffix::Index(Boxed::new(self.alloc, found)?), rest)))
            }
            Some(ends) => Ok(Some((slice_of(Some(first), ends), rest))),
        }
    }

    /// `Tests | [Test] ':' [Test] [':' [Test]]`
    #[tactic(auto, unfolding(crate::specs::Expressions::in_brackets))]
    fn in_brackets<'a>(&self, leaves: &'a [ValuedToken]) -> Read<'a, Suffix>
        requires { Nests self.now.depth (F.pre self.now.expression) (F.post self.now.expression) }
        ensures { Gives (reads self.now.depth spec.in_brackets leaves.now) result }
    {
        if let Some(found) = self.from_test(leaves)? {
            return Ok(Some(found));
        }
        let Some((ends, rest)) = self.stop_and_stride(leaves)? else {
            return Ok(None);
        };
        Ok(Some((slice_of(None, ends), rest)))
    }

    /// `'[' Tests ']' | '[' [Test] ':' [Test] [':' [Test]] ']'`
    #[tactic(auto, unfolding(crate::specs::Expressions::subscript))]
    fn subscript<'a>(&self, leaves: &'a [ValuedToken]) -> Read<'a, Suffix>
        requires { Nests self.now.depth (F.pre self.now.expression) (F.post self.now.expression) }
        ensures { Gives (reads self.now.depth spec.subscript leaves.now) result }
    {
        let Some((_, rest)) = sign(Punctuator::LeftBracket, leaves) else {
            return Ok(None);
        };
        let Some((found, rest)) = self.in_brackets(rest)? else {
            return Ok(None);
        };
        let Some((_, rest)) = sign(Punctuator::RightBracket, rest) else {
            return Ok(None);
        };
        Ok(Some((found, rest)))
    }

    /// `'.' name | '(' .. ')' | '[' .. ']'`
    #[tactic(auto, unfolding(crate::specs::Expressions::suffix))]
    fn suffix<'a>(&self, leaves: &'a [ValuedToken]) -> Read<'a, Suffix>
        requires { Nests self.now.depth (F.pre self.now.expression) (F.post self.now.expression) }
        ensures { Gives (reads self.now.depth spec.suffix leaves.now) result }
    {
        if let Some(found) = self.attribute(leaves)? {
            return Ok(Some(found));
        }
        if let Some(found) = self.call(leaves)? {
            return Ok(Some(found));
        }
        self.subscript(leaves)
    }

    /// `Primary = Operand {suffix}`
    #[tactic(auto, unfolding(crate::specs::Expressions::primary), using(crate::proofs::Rounds::turns))]
    pub fn primary<'a>(&self, leaves: &'a [ValuedToken]) -> Read<'a, Boxed<Expression>>
        requires { Nests self.now.depth (F.pre self.now.expression) (F.post self.now.expression) }
        ensures { Gives (reads self.now.depth spec.primary leaves.now) result }
    {
        let Some((mut left, mut rest)) = self.operand(leaves)? else {
            return Ok(None);
        };
        for _turn in 0..rest.len() {
            let Some((next, after)) = self.suffix(rest)? else {
                return Ok(Some((left, rest)));
            };
            left = Boxed::new(self.alloc, with_suffix(left, next))?;
            rest = after;
        }
        Ok(Some((left, rest)))
    }
}
