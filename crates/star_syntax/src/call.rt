//! The readers of calls: arguments and parameters, and the order in which they may come.

ghost use Rattle.std.specs.Prelude.{◌≡◌};
ghost use Rattle.star_syntax.specs.Expressions as spec;
ghost use Rattle.star_syntax.specs.Keeps as keeps;
ghost use Rattle.star_syntax.specs.Language.{Gives, Nests, reads};

use crate::leaf::ValuedToken;
use crate::level::{Level, Suffix};
use crate::reader::{Grammar, Read, exact, keyword_at, name, sign};
use sqlite_items::{Boxed, Items};
use star_lex::token::{Keyword, Punctuator};
use star_tree::tree::{Argument, Expression, Parameter};
use std::alloc::Global;

/// Whether the arguments after the positional ones are in order.
fn named_in_order(mut star_may_come: bool, arguments: &[Argument]) -> bool
    ensures { result ≡ keeps.named_in_order star_may_come arguments.now }
{
    let mut rest = arguments;
    while let [argument, more @ ..] = rest {
        match argument {
            Argument::Positional(_) => return false,
            Argument::Named { .. } => {}
            Argument::Star(_) if star_may_come => star_may_come = false,
            Argument::Star(_) => return false,
            Argument::StarStar(_) => return more.is_empty(),
        }
        rest = more;
    }
    true
}

/// Whether the arguments are in order.
fn arguments_in_order(arguments: &[Argument]) -> bool
    ensures { result ≡ keeps.arguments_in_order arguments.now }
{
    let mut rest = arguments;
    while let [argument, more @ ..] = rest {
        match argument {
            Argument::Positional(_) => rest = more,
            Argument::Named { .. } => return named_in_order(true, more),
            Argument::Star(_) => return named_in_order(false, more),
            Argument::StarStar(_) => return more.is_empty(),
        }
    }
    true
}

/// Whether a name, with or without a default, comes next.
fn name_follows(parameters: &[Parameter]) -> bool
    ensures { result ≡ keeps.name_follows parameters.now }
{
    match parameters {
        [Parameter::Plain(_), ..] => true,
        [Parameter::Default { .. }, ..] => true,
        _ => false,
    }
}

/// Whether the parameters after a star are in order.
fn starred_in_order(parameters: &[Parameter]) -> bool
    ensures { result ≡ keeps.starred_in_order parameters.now }
{
    let mut rest = parameters;
    while let [parameter, more @ ..] = rest {
        match parameter {
            Parameter::Plain(_) => rest = more,
            Parameter::Default { .. } => rest = more,
            Parameter::Star(_) => return false,
            Parameter::BareStar => return false,
            Parameter::StarStar(_) => return more.is_empty(),
        }
    }
    true
}

/// Whether the parameters after one with a default are in order.
fn defaults_in_order(parameters: &[Parameter]) -> bool
    ensures { result ≡ keeps.defaults_in_order parameters.now }
{
    let mut rest = parameters;
    while let [parameter, more @ ..] = rest {
        match parameter {
            Parameter::Plain(_) => return false,
            Parameter::Default { .. } => rest = more,
            Parameter::Star(_) => return starred_in_order(more),
            Parameter::BareStar => return name_follows(more) && starred_in_order(more),
            Parameter::StarStar(_) => return more.is_empty(),
        }
    }
    true
}

/// Whether the parameters are in order.
fn parameters_in_order(parameters: &[Parameter]) -> bool
    ensures { result ≡ keeps.parameters_in_order parameters.now }
{
    let mut rest = parameters;
    while let [parameter, more @ ..] = rest {
        match parameter {
            Parameter::Plain(_) => rest = more,
            Parameter::Default { .. } => return defaults_in_order(more),
            Parameter::Star(_) => return starred_in_order(more),
            Parameter::BareStar => return name_follows(more) && starred_in_order(more),
            Parameter::StarStar(_) => return more.is_empty(),
        }
    }
    true
}

impl<F: Fn(Global, u128, Level, &[ValuedToken]) -> Read<'_, Boxed<Expression>>> Grammar<F> {
    /// `name '=' Test`
    #[tactic(auto, unfolding(crate::specs::Expressions::named))]
    fn named<'a>(&self, leaves: &'a [ValuedToken]) -> Read<'a, Argument>
        requires { Nests self.now.depth (F.pre self.now.expression) (F.post self.now.expression) }
        ensures { Gives (reads self.now.depth spec.named leaves.now) result }
    {
        match leaves {
            [_, rest @ ..] if sign(Punctuator::Assign, rest).is_some() => {}
            _ => return Ok(None),
        }
        let Some((name, rest)) = name(leaves)? else {
            return Ok(None);
        };
        let Some((_, rest)) = sign(Punctuator::Assign, rest) else {
            return Ok(None);
        };
        let Some((value, rest)) = self.nested(Level::Test, rest)? else {
            return Ok(None);
        };
        let value = value.into_inner();
        Ok(Some((Argument::Named { name, value }, rest)))
    }

    /// An expression after a sign.
    fn after_sign<'a>(
        &self,
        before: Punctuator,
        leaves: &'a [ValuedToken],
    ) -> Read<'a, Boxed<Expression>>
        requires { Nests self.now.depth (F.pre self.now.expression) (F.post self.now.expression) }
        ensures { Gives (reads self.now.depth (spec.after (spec.sign_ before) spec.a_test) leaves.now) result }
    {
        let Some((_, rest)) = sign(before, leaves) else {
            return Ok(None);
        };
        self.nested(Level::Test, rest)
    }

    /// `Arg = name '=' Test | '*' Test | '**' Test | Test`. A name directly before `=` begins a keyword argument.
    #[tactic(auto, unfolding(crate::specs::Expressions::argument))]
    fn argument<'a>(&self, leaves: &'a [ValuedToken]) -> Read<'a, Argument>
        requires { Nests self.now.depth (F.pre self.now.expression) (F.post self.now.expression) }
        ensures { Gives (reads self.now.depth spec.argument leaves.now) result }
    {
        if let Some(found) = self.named(leaves)? {
            return Ok(Some(found));
        }
        if let Some((value, rest)) = self.after_sign(Punctuator::Star, leaves)? {
            return Ok(Some((Argument::Star(value.into_inner()), rest)));
        }
        if let Some((value, rest)) = self.after_sign(Punctuator::StarStar, leaves)? {
            return Ok(Some((Argument::StarStar(value.into_inner()), rest)));
        }
        match self.nested(Level::Test, leaves)? {
            Some((value, rest)) => Ok(Some((Argument::Positional(value.into_inner()), rest))),
            None => Ok(None),
        }
    }

    /// `',' Arg`
    #[tactic(auto, unfolding(crate::specs::Expressions::next_argument))]
    fn next_argument<'a>(&self, leaves: &'a [ValuedToken]) -> Read<'a, Argument>
        requires { Nests self.now.depth (F.pre self.now.expression) (F.post self.now.expression) }
        ensures { Gives (reads self.now.depth spec.next_argument leaves.now) result }
    {
        let Some((_, rest)) = sign(Punctuator::Comma, leaves) else {
            return Ok(None);
        };
        self.argument(rest)
    }

    /// `Arg {',' Arg}`
    #[tactic(auto, unfolding(crate::specs::Expressions::list_of_arguments), using(crate::proofs::Rounds::turns))]
    fn list_of_arguments<'a>(&self, leaves: &'a [ValuedToken]) -> Read<'a, Items<Argument>>
        requires { Nests self.now.depth (F.pre self.now.expression) (F.post self.now.expression) }
        ensures { Gives (reads self.now.depth spec.list_of_arguments leaves.now) result }
    {
        let Some((first, mut rest)) = self.argument(leaves)? else {
            return Ok(None);
        };
        let mut found = Items::new(self.alloc);
        found.push(first)?;
        for _turn in 0..rest.len() {
            let Some((next, after)) = self.next_argument(rest)? else {
                return Ok(Some((found, rest)));
            };
            found.push(next)?;
            rest = after;
        }
        Ok(Some((found, rest)))
    }

    /// `Args = Arg {',' Arg}`, if they are in the order of the rules (`arguments_in_order`).
    #[tactic(auto, unfolding(crate::specs::Expressions::ordered_arguments))]
    fn ordered_arguments<'a>(&self, leaves: &'a [ValuedToken]) -> Read<'a, Items<Argument>>
        requires { Nests self.now.depth (F.pre self.now.expression) (F.post self.now.expression) }
        ensures { Gives (reads self.now.depth spec.ordered_arguments leaves.now) result }
    {
        let Some((found, rest)) = self.list_of_arguments(leaves)? else {
            return Ok(None);
        };
        if arguments_in_order(found.as_slice()) {
            Ok(Some((exact(self.alloc, found)?, rest)))
        } else {
            Ok(None)
        }
    }

    /// `[Args [',']]`
    #[tactic(auto, unfolding(crate::specs::Expressions::optional_arguments))]
    fn optional_arguments<'a>(&self, leaves: &'a [ValuedToken]) -> Read<'a, Items<Argument>>
        requires { Nests self.now.depth (F.pre self.now.expression) (F.post self.now.expression) }
        ensures { Gives (reads self.now.depth spec.optional_arguments leaves.now) result }
    {
        let Some((found, rest)) = self.ordered_arguments(leaves)? else {
            return Ok(Some((Items::new(self.alloc), leaves)));
        };
        match sign(Punctuator::Comma, rest) {
            Some((_, rest)) => Ok(Some((found, rest))),
            None => Ok(Some((found, rest))),
        }
    }

    /// `'(' [Args [',']] ')'`
    #[tactic(auto, unfolding(crate::specs::Expressions::call))]
    pub fn call<'a>(&self, leaves: &'a [ValuedToken]) -> Read<'a, Suffix>
        requires { Nests self.now.depth (F.pre self.now.expression) (F.post self.now.expression) }
        ensures { Gives (reads self.now.depth spec.call leaves.now) result }
    {
        let Some((_, rest)) = sign(Punctuator::LeftParen, leaves) else {
            return Ok(None);
        };
        let Some((found, rest)) = self.optional_arguments(rest)? else {
            return Ok(None);
        };
        let Some((_, rest)) = sign(Punctuator::RightParen, rest) else {
            return Ok(None);
        };
        Ok(Some((Suffix::Call(found), rest)))
    }

    /// `'=' Test`
    #[tactic(auto, unfolding(crate::specs::Expressions::default))]
    fn default<'a>(&self, leaves: &'a [ValuedToken]) -> Read<'a, Boxed<Expression>>
        requires { Nests self.now.depth (F.pre self.now.expression) (F.post self.now.expression) }
        ensures { Gives (reads self.now.depth spec.default leaves.now) result }
    {
        self.after_sign(Punctuator::Assign, leaves)
    }

    /// `name ['=' Test]`
    #[tactic(auto, unfolding(crate::specs::Expressions::named_parameter))]
    fn named_parameter<'a>(&self, leaves: &'a [ValuedToken]) -> Read<'a, Parameter>
        requires { Nests self.now.depth (F.pre self.now.expression) (F.post self.now.expression) }
        ensures { Gives (reads self.now.depth spec.named_parameter leaves.now) result }
    {
        let Some((name, rest)) = name(leaves)? else {
            return Ok(None);
        };
        match self.default(rest)? {
            Some((default, rest)) => {
                let default = default.into_inner();
                Ok(Some((Parameter::Default { name, default }, rest)))
            }
            None => Ok(Some((Parameter::Plain(name), rest))),
        }
    }

    /// `'*' [name]`
    #[tactic(auto, unfolding(crate::specs::Expressions::star))]
    fn star<'a>(&self, leaves: &'a [ValuedToken]) -> Read<'a, Parameter>
        ensures { Gives (reads self.now.depth spec.star leaves.now) result }
    {
        let Some((_, rest)) = sign(Punctuator::Star, leaves) else {
            return Ok(None);
        };
        match name(rest)? {
            Some((name, rest)) => Ok(Some((Parameter::Star(name), rest))),
            None => Ok(Some((Parameter::BareStar, rest))),
        }
    }

    /// `'**' name`
    #[tactic(auto, unfolding(crate::specs::Expressions::star_star))]
    fn star_star<'a>(&self, leaves: &'a [ValuedToken]) -> Read<'a, Parameter>
        ensures { Gives (reads self.now.depth spec.star_star leaves.now) result }
    {
        let Some((_, rest)) = sign(Punctuator::StarStar, leaves) else {
            return Ok(None);
        };
        match name(rest)? {
            Some((name, rest)) => Ok(Some((Parameter::StarStar(name), rest))),
            None => Ok(None),
        }
    }

    /// `Param = name ['=' Test] | '*' [name] | '**' name`
    #[tactic(auto, unfolding(crate::specs::Expressions::parameter))]
    fn parameter<'a>(&self, leaves: &'a [ValuedToken]) -> Read<'a, Parameter>
        requires { Nests self.now.depth (F.pre self.now.expression) (F.post self.now.expression) }
        ensures { Gives (reads self.now.depth spec.parameter leaves.now) result }
    {
        if let Some(found) = self.named_parameter(leaves)? {
            return Ok(Some(found));
        }
        if let Some(found) = self.star(leaves)? {
            return Ok(Some(found));
        }
        self.star_star(leaves)
    }

    /// `',' Param`
    #[tactic(auto, unfolding(crate::specs::Expressions::next_parameter))]
    fn next_parameter<'a>(&self, leaves: &'a [ValuedToken]) -> Read<'a, Parameter>
        requires { Nests self.now.depth (F.pre self.now.expression) (F.post self.now.expression) }
        ensures { Gives (reads self.now.depth spec.next_parameter leaves.now) result }
    {
        let Some((_, rest)) = sign(Punctuator::Comma, leaves) else {
            return Ok(None);
        };
        self.parameter(rest)
    }

    /// `Param {',' Param}`
    #[tactic(auto, unfolding(crate::specs::Expressions::list_of_parameters), using(crate::proofs::Rounds::turns))]
    fn list_of_parameters<'a>(&self, leaves: &'a [ValuedToken]) -> Read<'a, Items<Parameter>>
        requires { Nests self.now.depth (F.pre self.now.expression) (F.post self.now.expression) }
        ensures { Gives (reads self.now.depth spec.list_of_parameters leaves.now) result }
    {
        let Some((first, mut rest)) = self.parameter(leaves)? else {
            return Ok(None);
        };
        let mut found = Items::new(self.alloc);
        found.push(first)?;
        for _turn in 0..rest.len() {
            let Some((next, after)) = self.next_parameter(rest)? else {
                return Ok(Some((found, rest)));
            };
            found.push(next)?;
            rest = after;
        }
        Ok(Some((found, rest)))
    }

    /// `Params = Param {',' Param}`, if they are in the order of the rules (`parameters_in_order`).
    #[tactic(auto, unfolding(crate::specs::Expressions::ordered_parameters))]
    fn ordered_parameters<'a>(&self, leaves: &'a [ValuedToken]) -> Read<'a, Items<Parameter>>
        requires { Nests self.now.depth (F.pre self.now.expression) (F.post self.now.expression) }
        ensures { Gives (reads self.now.depth spec.ordered_parameters leaves.now) result }
    {
        let Some((found, rest)) = self.list_of_parameters(leaves)? else {
            return Ok(None);
        };
        if parameters_in_order(found.as_slice()) {
            Ok(Some((exact(self.alloc, found)?, rest)))
        } else {
            Ok(None)
        }
    }

    /// `[Params [',']]`
    #[tactic(auto, unfolding(crate::specs::Expressions::optional_parameters))]
    fn optional_parameters<'a>(&self, leaves: &'a [ValuedToken]) -> Read<'a, Items<Parameter>>
        requires { Nests self.now.depth (F.pre self.now.expression) (F.post self.now.expression) }
        ensures { Gives (reads self.now.depth spec.optional_parameters leaves.now) result }
    {
        let Some((found, rest)) = self.ordered_parameters(leaves)? else {
            return Ok(Some((Items::new(self.alloc), leaves)));
        };
        match sign(Punctuator::Comma, rest) {
            Some((_, rest)) => Ok(Some((found, rest))),
            None => Ok(Some((found, rest))),
        }
    }

    /// `'(' [Params [',']] ')'`
    #[tactic(auto, unfolding(crate::specs::Expressions::parameters_in_parentheses))]
    pub fn parameters_in_parentheses<'a>(
        &self,
        leaves: &'a [ValuedToken],
    ) -> Read<'a, Items<Parameter>>
        requires { Nests self.now.depth (F.pre self.now.expression) (F.post self.now.expression) }
        ensures { Gives (reads self.now.depth spec.parameters_in_parentheses leaves.now) result }
    {
        let Some((_, rest)) = sign(Punctuator::LeftParen, leaves) else {
            return Ok(None);
        };
        let Some((found, rest)) = self.optional_parameters(rest)? else {
            return Ok(None);
        };
        let Some((_, rest)) = sign(Punctuator::RightParen, rest) else {
            return Ok(None);
        };
        Ok(Some((found, rest)))
    }

    /// `[Params]`
    #[tactic(auto, unfolding(crate::specs::Expressions::lambda_parameters))]
    fn lambda_parameters<'a>(&self, leaves: &'a [ValuedToken]) -> Read<'a, Items<Parameter>>
        requires { Nests self.now.depth (F.pre self.now.expression) (F.post self.now.expression) }
        ensures { Gives (reads self.now.depth spec.lambda_parameters leaves.now) result }
    {
        match self.ordered_parameters(leaves)? {
            Some(found) => Ok(Some(found)),
            None => Ok(Some((Items::new(self.alloc), leaves))),
        }
    }

    /// `'lambda' [Params] ':' Test`
    #[tactic(auto, unfolding(crate::specs::Expressions::lambda))]
    pub fn lambda<'a>(&self, leaves: &'a [ValuedToken]) -> Read<'a, Boxed<Expression>>
        requires { Nests self.now.depth (F.pre self.now.expression) (F.post self.now.expression) }
        ensures { Gives (reads self.now.depth spec.lambda leaves.now) result }
    {
        let Some((position, rest)) = keyword_at(Keyword::Lambda, leaves) else {
            return Ok(None);
        };
        let Some((parameters, rest)) = self.lambda_parameters(rest)? else {
            return Ok(None);
        };
        let Some((_, rest)) = sign(Punctuator::Colon, rest) else {
            return Ok(None);
        };
        let Some((body, rest)) = self.nested(Level::Test, rest)? else {
            return Ok(None);
        };
        let parameters = Boxed::new(self.alloc, parameters)?;
        let made = Expression::Lambda {
            position,
            parameters,
            body,
        };
        Ok(Some((Boxed::new(self.alloc, made)?, rest)))
    }
}
