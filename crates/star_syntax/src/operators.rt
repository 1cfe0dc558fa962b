//! Readers of operators, from the tightest (`Unary`, `climb`) to the loosest (`conditional`).

ghost use Rattle.std.specs.Prelude.{◌≡◌, IfOk};
ghost use Rattle.star_syntax.specs.Grammar.{first};
ghost use Rattle.star_syntax.specs.Expressions as spec;
ghost use Rattle.star_syntax.specs.Language.{Finds, Gives, Nests, reads};

use crate::leaf::{TokenValue, ValuedToken};
use crate::level::Level;
use crate::reader::{Grammar, Read, keyword};
use sqlite_items::Boxed;
use star_lex::token::{Keyword, Punctuator};
use star_tree::tree::{BinaryOperator, Comparator, Expression, UnaryOperator};
use std::alloc::{AllocError, Global};

fn unary_sign(sign: Punctuator) -> Option<UnaryOperator>
    ensures { result ≡ spec.unary_sign sign }
{
    match sign {
        Punctuator::Plus => Some(UnaryOperator::Plus),
        Punctuator::Minus => Some(UnaryOperator::Minus),
        Punctuator::Tilde => Some(UnaryOperator::Invert),
        _ => None,
    }
}

fn unary_word(word: &TokenValue) -> Option<UnaryOperator>
    ensures { result ≡ spec.unary_word word.now }
{
    match word {
        TokenValue::Punctuator(sign) => unary_sign(*sign),
        _ => None,
    }
}

fn unary_operator(leaves: &[ValuedToken]) -> Option<(UnaryOperator, &[ValuedToken])>
    ensures { Finds (first (λ t. spec.unary_word t.word) leaves.now) result }
{
    match leaves {
        [leaf, rest @ ..] => Some((unary_word(&leaf.word)?, rest)),
        [] => None,
    }
}

fn binary_sign(sign: Punctuator) -> Option<BinaryOperator>
    ensures { result ≡ spec.binary_sign sign }
{
    match sign {
        Punctuator::Star => Some(BinaryOperator::Multiply),
        Punctuator::SlashSlash => Some(BinaryOperator::FloorDivide),
        Punctuator::Percent => Some(BinaryOperator::Modulo),
        Punctuator::Plus => Some(BinaryOperator::Add),
        Punctuator::Minus => Some(BinaryOperator::Subtract),
        Punctuator::ShiftLeft => Some(BinaryOperator::ShiftLeft),
        Punctuator::ShiftRight => Some(BinaryOperator::ShiftRight),
        Punctuator::Ampersand => Some(BinaryOperator::BitAnd),
        Punctuator::Caret => Some(BinaryOperator::BitXor),
        Punctuator::Bar => Some(BinaryOperator::BitOr),
        _ => None,
    }
}

/// How loosely an operator binds its operands: 0 binds tightest.
fn precedence(operator: BinaryOperator) -> usize
    ensures { result ≡ spec.precedence operator }
{
    match operator {
        BinaryOperator::Multiply | BinaryOperator::FloorDivide | BinaryOperator::Modulo => 0,
        BinaryOperator::Add | BinaryOperator::Subtract => 1,
        BinaryOperator::ShiftLeft | BinaryOperator::ShiftRight => 2,
        BinaryOperator::BitAnd => 3,
        BinaryOperator::BitXor => 4,
        BinaryOperator::BitOr => 5,
    }
}

fn binary_word(level: usize, word: &TokenValue) -> Option<BinaryOperator>
    ensures { result ≡ spec.binary_word level word.now }
{
    match word {
        TokenValue::Punctuator(sign) => match binary_sign(*sign) {
            Some(operator) if precedence(operator) == level => Some(operator),
            _ => None,
        },
        _ => None,
    }
}

fn binary_operator(level: usize, leaves: &[ValuedToken]) -> Option<(BinaryOperator, &[ValuedToken])>
    ensures { Finds (first (λ t. spec.binary_word level t.word) leaves.now) result }
{
    match leaves {
        [leaf, rest @ ..] => Some((binary_word(level, &leaf.word)?, rest)),
        [] => None,
    }
}

fn comparator_sign(sign: Punctuator) -> Option<Comparator>
    ensures { result ≡ spec.comparator_sign sign }
{
    match sign {
        Punctuator::EqualEqual => Some(Comparator::Equal),
        Punctuator::NotEqual => Some(Comparator::NotEqual),
        Punctuator::Less => Some(Comparator::Less),
        Punctuator::Greater => Some(Comparator::Greater),
        Punctuator::LessEqual => Some(Comparator::LessEqual),
        Punctuator::GreaterEqual => Some(Comparator::GreaterEqual),
        _ => None,
    }
}

fn comparator_word(word: &TokenValue) -> Option<Comparator>
    ensures { result ≡ spec.comparator_word word.now }
{
    match word {
        TokenValue::Punctuator(sign) => comparator_sign(*sign),
        TokenValue::Keyword(Keyword::In) => Some(Comparator::In),
        _ => None,
    }
}

fn one_comparator(leaves: &[ValuedToken]) -> Option<(Comparator, &[ValuedToken])>
    ensures { Finds (first (λ t. spec.comparator_word t.word) leaves.now) result }
{
    match leaves {
        [leaf, rest @ ..] => Some((comparator_word(&leaf.word)?, rest)),
        [] => None,
    }
}

fn unary_of(
    alloc: Global,
    operator: UnaryOperator,
    operand: Boxed<Expression>,
) -> Result<Boxed<Expression>, AllocError>
    ensures { IfOk result (λ made. made ≡ Expression.Unary operator operand) }
{
    Boxed::new(alloc, Expression::Unary { operator, operand })
}

fn binary_of(
    alloc: Global,
    operator: BinaryOperator,
    left: Boxed<Expression>,
    right: Boxed<Expression>,
) -> Result<Boxed<Expression>, AllocError>
    ensures { IfOk result (λ made. made ≡ Expression.Binary operator left right) }
{
    Boxed::new(
        alloc,
        Expression::Binary {
            operator,
            left,
            right,
        },
    )
}

fn and_of(
    alloc: Global,
    left: Boxed<Expression>,
    right: Boxed<Expression>,
) -> Result<Boxed<Expression>, AllocError>
    ensures { IfOk result (λ made. made ≡ Expression.And left right) }
{
    Boxed::new(alloc, Expression::And { left, right })
}

fn or_of(
    alloc: Global,
    left: Boxed<Expression>,
    right: Boxed<Expression>,
) -> Result<Boxed<Expression>, AllocError>
    ensures { IfOk result (λ made. made ≡ Expression.Or left right) }
{
    Boxed::new(alloc, Expression::Or { left, right })
}

fn conditional_of(
    alloc: Global,
    condition: Boxed<Expression>,
    chosen: Boxed<Expression>,
    otherwise: Boxed<Expression>,
) -> Result<Boxed<Expression>, AllocError>
    ensures { IfOk result (λ made. made ≡ Expression.Conditional condition chosen otherwise) }
{
    Boxed::new(
        alloc,
        Expression::Conditional {
            condition,
            chosen,
            otherwise,
        },
    )
}

impl<F: Fn(Global, u128, Level, &[ValuedToken]) -> Read<'_, Boxed<Expression>>> Grammar<F> {
    /// `CmpOp = '==' | '!=' | '<' | '>' | '<=' | '>=' | 'in' | 'not' 'in'`
    #[tactic(auto, unfolding(crate::specs::Expressions::comparator))]
    fn comparator<'a>(&self, leaves: &'a [ValuedToken]) -> Option<(Comparator, &'a [ValuedToken])>
        ensures { Finds (reads self.now.depth spec.comparator leaves.now) result }
    {
        if let Some(found) = one_comparator(leaves) {
            return Some(found);
        }
        let Some((_, rest)) = keyword(Keyword::Not, leaves) else {
            return None;
        };
        let Some((_, rest)) = keyword(Keyword::In, rest) else {
            return None;
        };
        Some((Comparator::NotIn, rest))
    }

    /// `('+' | '-' | '~') Unary`
    #[tactic(auto, unfolding(crate::specs::Expressions::sign_operand))]
    fn sign_operand<'a>(&self, leaves: &'a [ValuedToken]) -> Read<'a, Boxed<Expression>>
        requires { Nests self.now.depth (F.pre self.now.expression) (F.post self.now.expression) }
        ensures { Gives (reads self.now.depth spec.sign_operand leaves.now) result }
    {
        let Some((operator, rest)) = unary_operator(leaves) else {
            return Ok(None);
        };
        let Some((operand, rest)) = self.nested(Level::Unary, rest)? else {
            return Ok(None);
        };
        Ok(Some((unary_of(self.alloc, operator, operand)?, rest)))
    }

    /// `Unary = ('+' | '-' | '~') Unary | Primary`
    #[tactic(auto, unfolding(crate::specs::Expressions::unary))]
    pub fn unary<'a>(&self, leaves: &'a [ValuedToken]) -> Read<'a, Boxed<Expression>>
        requires { Nests self.now.depth (F.pre self.now.expression) (F.post self.now.expression) }
        ensures { Gives (reads self.now.depth spec.unary leaves.now) result }
    {
        if let Some(found) = self.sign_operand(leaves)? {
            return Ok(Some(found));
        }
        self.primary(leaves)
    }

    /// The binary operators of a level and of all tighter ones; they group to the left. Level 0 is `Unary`, 1 `Term`,
    /// and so on to 6, `BitOr`:
    ///
    ///     Term   = Unary {('*' | '//' | '%') Unary}
    ///     Sum    = Term {('+' | '-') Term}
    ///     Shift  = Sum {('<<' | '>>') Sum}
    ///     BitAnd = Shift {'&' Shift}
    ///     BitXor = BitAnd {'^' BitAnd}
    ///     BitOr  = BitXor {'|' BitXor}
    #[tactic(auto, unfolding(crate::specs::Expressions::climb))]
    fn climb<'a>(&self, level: usize, leaves: &'a [ValuedToken]) -> Read<'a, Boxed<Expression>>
        requires { Nests self.now.depth (F.pre self.now.expression) (F.post self.now.expression) }
        ensures { Gives (reads self.now.depth (spec.climb level) leaves.now) result }
    {
        if level == 0 {
            return self.unary(leaves);
        }
        let Some((mut left, mut rest)) = self.climb(level - 1, leaves)? else {
            return Ok(None);
        };
        for _turn in 0..rest.len() {
            let Some((sign, after)) = binary_operator(level - 1, rest) else {
                return Ok(Some((left, rest)));
            };
            let Some((right, after)) = self.climb(level - 1, after)? else {
                return Ok(Some((left, rest)));
            };
            left = binary_of(self.alloc, sign, left, right)?;
            rest = after;
        }
        Ok(Some((left, rest)))
    }

    /// `BitOr`: the loosest of the binary operators.
    #[tactic(auto, unfolding(crate::specs::Expressions::bit_or))]
    fn bit_or<'a>(&self, leaves: &'a [ValuedToken]) -> Read<'a, Boxed<Expression>>
        requires { Nests self.now.depth (F.pre self.now.expression) (F.post self.now.expression) }
        ensures { Gives (reads self.now.depth spec.bit_or leaves.now) result }
    {
        self.climb(6, leaves)
    }

    /// `CmpOp BitOr`
    #[tactic(auto, unfolding(crate::specs::Expressions::compared))]
    fn compared<'a>(&self, leaves: &'a [ValuedToken]) -> Read<'a, (Comparator, Boxed<Expression>)>
        requires { Nests self.now.depth (F.pre self.now.expression) (F.post self.now.expression) }
        ensures { Gives (reads self.now.depth spec.compared leaves.now) result }
    {
        let Some((comparator, rest)) = self.comparator(leaves) else {
            return Ok(None);
        };
        let Some((right, rest)) = self.bit_or(rest)? else {
            return Ok(None);
        };
        Ok(Some(((comparator, right), rest)))
    }

    /// `Cmp = BitOr [CmpOp BitOr]`
    #[tactic(auto, unfolding(crate::specs::Expressions::comparison))]
    fn comparison<'a>(&self, leaves: &'a [ValuedToken]) -> Read<'a, Boxed<Expression>>
        requires { Nests self.now.depth (F.pre self.now.expression) (F.post self.now.expression) }
        ensures { Gives (reads self.now.depth spec.comparison leaves.now) result }
    {
        let Some((left, rest)) = self.bit_or(leaves)? else {
            return Ok(None);
        };
        let Some(((comparator, right), after)) = self.compared(rest)? else {
            return Ok(Some((left, rest)));
        };
        let made = Expression::Compare {
            comparator,
            left,
            right,
        };
        Ok(Some((Boxed::new(self.alloc, made)?, after)))
    }

    /// `'not' Not`
    #[tactic(auto, unfolding(crate::specs::Expressions::not_operand))]
    fn not_operand<'a>(&self, leaves: &'a [ValuedToken]) -> Read<'a, Boxed<Expression>>
        requires { Nests self.now.depth (F.pre self.now.expression) (F.post self.now.expression) }
        ensures { Gives (reads self.now.depth spec.not_operand leaves.now) result }
    {
        let Some((_, rest)) = keyword(Keyword::Not, leaves) else {
            return Ok(None);
        };
        let Some((operand, rest)) = self.nested(Level::Negation, rest)? else {
            return Ok(None);
        };
        Ok(Some((unary_of(self.alloc, UnaryOperator::Not, operand)?, rest)))
    }

    /// `Not = 'not' Not | Cmp`
    #[tactic(auto, unfolding(crate::specs::Expressions::negation))]
    pub fn negation<'a>(&self, leaves: &'a [ValuedToken]) -> Read<'a, Boxed<Expression>>
        requires { Nests self.now.depth (F.pre self.now.expression) (F.post self.now.expression) }
        ensures { Gives (reads self.now.depth spec.negation leaves.now) result }
    {
        if let Some(found) = self.not_operand(leaves)? {
            return Ok(Some(found));
        }
        self.comparison(leaves)
    }

    /// `'and' Not`
    #[tactic(auto, unfolding(crate::specs::Expressions::next_negation))]
    fn next_negation<'a>(&self, leaves: &'a [ValuedToken]) -> Read<'a, Boxed<Expression>>
        requires { Nests self.now.depth (F.pre self.now.expression) (F.post self.now.expression) }
        ensures { Gives (reads self.now.depth spec.next_negation leaves.now) result }
    {
        let Some((_, rest)) = keyword(Keyword::And, leaves) else {
            return Ok(None);
        };
        self.negation(rest)
    }

    /// `And = Not {'and' Not}`
    #[tactic(auto, unfolding(crate::specs::Expressions::conjunction), using(crate::proofs::Rounds::turns))]
    fn conjunction<'a>(&self, leaves: &'a [ValuedToken]) -> Read<'a, Boxed<Expression>>
        requires { Nests self.now.depth (F.pre self.now.expression) (F.post self.now.expression) }
        ensures { Gives (reads self.now.depth spec.conjunction leaves.now) result }
    {
        let Some((mut left, mut rest)) = self.negation(leaves)? else {
            return Ok(None);
        };
        for _turn in 0..rest.len() {
            let Some((next, after)) = self.next_negation(rest)? else {
                return Ok(Some((left, rest)));
            };
            left = and_of(self.alloc, left, next)?;
            rest = after;
        }
        Ok(Some((left, rest)))
    }

    /// `'or' And`
    #[tactic(auto, unfolding(crate::specs::Expressions::next_conjunction))]
    fn next_conjunction<'a>(&self, leaves: &'a [ValuedToken]) -> Read<'a, Boxed<Expression>>
        requires { Nests self.now.depth (F.pre self.now.expression) (F.post self.now.expression) }
        ensures { Gives (reads self.now.depth spec.next_conjunction leaves.now) result }
    {
        let Some((_, rest)) = keyword(Keyword::Or, leaves) else {
            return Ok(None);
        };
        self.conjunction(rest)
    }

    /// `Or = And {'or' And}`
    #[tactic(auto, unfolding(crate::specs::Expressions::disjunction), using(crate::proofs::Rounds::turns))]
    pub fn disjunction<'a>(&self, leaves: &'a [ValuedToken]) -> Read<'a, Boxed<Expression>>
        requires { Nests self.now.depth (F.pre self.now.expression) (F.post self.now.expression) }
        ensures { Gives (reads self.now.depth spec.disjunction leaves.now) result }
    {
        let Some((mut left, mut rest)) = self.conjunction(leaves)? else {
            return Ok(None);
        };
        for _turn in 0..rest.len() {
            let Some((next, after)) = self.next_conjunction(rest)? else {
                return Ok(Some((left, rest)));
            };
            left = or_of(self.alloc, left, next)?;
            rest = after;
        }
        Ok(Some((left, rest)))
    }

    /// `'if' Or 'else' Test`
    #[tactic(auto, unfolding(crate::specs::Expressions::choice))]
    fn choice<'a>(
        &self,
        leaves: &'a [ValuedToken],
    ) -> Read<'a, (Boxed<Expression>, Boxed<Expression>)>
        requires { Nests self.now.depth (F.pre self.now.expression) (F.post self.now.expression) }
        ensures { Gives (reads self.now.depth spec.choice leaves.now) result }
    {
        let Some((_, rest)) = keyword(Keyword::If, leaves) else {
            return Ok(None);
        };
        let Some((condition, rest)) = self.disjunction(rest)? else {
            return Ok(None);
        };
        let Some((_, rest)) = keyword(Keyword::Else, rest) else {
            return Ok(None);
        };
        let Some((otherwise, rest)) = self.nested(Level::Test, rest)? else {
            return Ok(None);
        };
        Ok(Some(((condition, otherwise), rest)))
    }

    /// `Or ['if' Or 'else' Test]`
    #[tactic(auto, unfolding(crate::specs::Expressions::conditional))]
    pub fn conditional<'a>(&self, leaves: &'a [ValuedToken]) -> Read<'a, Boxed<Expression>>
        requires { Nests self.now.depth (F.pre self.now.expression) (F.post self.now.expression) }
        ensures { Gives (reads self.now.depth spec.conditional leaves.now) result }
    {
        let Some((chosen, rest)) = self.disjunction(leaves)? else {
            return Ok(None);
        };
        let Some(((condition, otherwise), after)) = self.choice(rest)? else {
            return Ok(Some((chosen, rest)));
        };
        let made = conditional_of(self.alloc, condition, chosen, otherwise)?;
        Ok(Some((made, after)))
    }

    /// `Test = Or ['if' Or 'else' Test] | 'lambda' [Params] ':' Test`
    #[tactic(auto, unfolding(crate::specs::Expressions::any_test))]
    pub fn any_test<'a>(&self, leaves: &'a [ValuedToken]) -> Read<'a, Boxed<Expression>>
        requires { Nests self.now.depth (F.pre self.now.expression) (F.post self.now.expression) }
        ensures { Gives (reads self.now.depth spec.any_test leaves.now) result }
    {
        if let Some(found) = self.lambda(leaves)? {
            return Ok(Some(found));
        }
        self.conditional(leaves)
    }
}
