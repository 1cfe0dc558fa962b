//! The common part of all readers: the type of their answers, the readers of single tokens, and `Grammar`, the readers
//! of expressions to a depth.
//!
//! Readers of expressions, targets and clauses return boxes, so no tree is moved from level to level, and an early end
//! frees a box and not a tree of twenty forms: that halved the time of the proof. For the same reason an unused tree is
//! given to `drop` by name.
//!
//! A name, an int or a string before a word that ends an expression is read at once (`alone`); each level of the
//! grammar would read the same (`specs/Alone`).

ghost use Rattle.std.specs.Prelude.{◌≡◌, ◌∷◌, [], length, true, IfOk};
ghost use Rattle.star_syntax.specs.Alone.{ReadAlone};
ghost use Rattle.star_syntax.specs.Grammar.{first, level as at_level, rounds, run};
ghost use Rattle.star_syntax.specs.Expressions as spec;
ghost use Rattle.star_syntax.specs.Language.{Finds, Gives, Nests, reads, rule};
ghost use Rattle.star_syntax.specs.Written.{EndsBefore};

use crate::leaf::{TokenValue, ValuedToken};
use crate::level::Level;
use sqlite_items::{Boxed, Items};
use star_lex::token::{Keyword, Punctuator};
use star_text::Text;
use star_tree::tree::{Expression, Name, Position};
use std::alloc::{AllocError, Global};

/// The answer of a reader: the value at the front of the leaves and the leaves after it; or `None` if it reads nothing
/// there.
pub type Read<'a, T> = Result<Option<(T, &'a [ValuedToken])>, AllocError>;

/// The grammar of expressions, with others nested in them no deeper than a depth.
///
/// Its readers are its methods. A repetition takes at most as many rounds as there are leaves, since each round takes
/// one at least: it is written as a `for` over that number, so that the checker sees its end.
#[derive(Clone, Copy)]
pub struct Grammar<F> {
    pub alloc: Global,
    /// How deep expressions may still nest.
    pub depth: u128,
    /// The reader of the expressions nested in them.
    pub expression: F,
}

/// Whether two signs are the same.
#[tactic(auto, unfolding(crate::specs::Expressions::same_sign))]
fn same_sign(one: Punctuator, other: Punctuator) -> bool
    ensures { result ≡ spec.same_sign one other }
{
    one == other
}

#[tactic(auto, unfolding(crate::specs::Expressions::same_keyword))]
fn same_keyword(one: Keyword, other: Keyword) -> bool
    ensures { result ≡ spec.same_keyword one other }
{
    one == other
}

fn is_sign(expected: Punctuator, word: &TokenValue) -> bool
    ensures { spec.is_sign expected word.now ≡ spec.said result }
{
    match word {
        TokenValue::Punctuator(found) => same_sign(expected, *found),
        _ => false,
    }
}

fn is_keyword(expected: Keyword, word: &TokenValue) -> bool
    ensures { spec.is_keyword expected word.now ≡ spec.said result }
{
    match word {
        TokenValue::Keyword(found) => same_keyword(expected, *found),
        _ => false,
    }
}

/// The sign, if it is at the front of the leaves.
pub fn sign(expected: Punctuator, leaves: &[ValuedToken]) -> Option<((), &[ValuedToken])>
    ensures { Finds (first (λ t. spec.is_sign expected t.word) leaves.now) result }
{
    match leaves {
        [leaf, rest @ ..] if is_sign(expected, &leaf.word) => Some(((), rest)),
        _ => None,
    }
}

/// The keyword, if it is at the front of the leaves.
pub fn keyword(expected: Keyword, leaves: &[ValuedToken]) -> Option<((), &[ValuedToken])>
    ensures { Finds (first (λ t. spec.is_keyword expected t.word) leaves.now) result }
{
    match leaves {
        [leaf, rest @ ..] if is_keyword(expected, &leaf.word) => Some(((), rest)),
        _ => None,
    }
}

/// The position of the sign, if it is at the front of the leaves.
pub fn sign_at(expected: Punctuator, leaves: &[ValuedToken]) -> Option<(Position, &[ValuedToken])>
    ensures { Finds (first (λ t. spec.placed_at t.position (spec.is_sign expected t.word)) leaves.now) result }
{
    match leaves {
        [leaf, rest @ ..] if is_sign(expected, &leaf.word) => Some((leaf.position, rest)),
        _ => None,
    }
}

/// The position of the keyword, if it is at the front of the leaves.
pub fn keyword_at(expected: Keyword, leaves: &[ValuedToken]) -> Option<(Position, &[ValuedToken])>
    ensures { Finds (first (λ t. spec.placed_at t.position (spec.is_keyword expected t.word)) leaves.now) result }
{
    match leaves {
        [leaf, rest @ ..] if is_keyword(expected, &leaf.word) => Some((leaf.position, rest)),
        _ => None,
    }
}

fn name_of(text: &Text, position: Position) -> Result<Name, AllocError>
    ensures { IfOk result (λ name. name ≡ record { text = text.now; position = position }) }
{
    let text = text.share()?;
    Ok(Name { text, position })
}

/// The name at the front of the leaves.
pub fn name(leaves: &[ValuedToken]) -> Read<'_, Name>
    ensures { Gives (first (λ t. spec.name_of t.position t.word) leaves.now) result }
{
    match leaves {
        [leaf, rest @ ..] => match &leaf.word {
            TokenValue::Name(text) => Ok(Some((name_of(text, leaf.position)?, rest))),
            _ => Ok(None),
        },
        [] => Ok(None),
    }
}

/// The name, int or string at the front of the leaves.
pub fn atom(alloc: Global, leaves: &[ValuedToken]) -> Read<'_, Boxed<Expression>>
    ensures { Gives (first (λ t. spec.atom_of t.position t.word) leaves.now) result }
{
    match leaves {
        [leaf, rest @ ..] => match &leaf.word {
            TokenValue::Name(text) => {
                let found = Expression::Name(name_of(text, leaf.position)?);
                Ok(Some((Boxed::new(alloc, found)?, rest)))
            }
            TokenValue::Int(value) => Ok(Some((Boxed::new(alloc, Expression::Int(*value))?, rest))),
            TokenValue::Text(text) => {
                let text = text.share()?;
                Ok(Some((Boxed::new(alloc, Expression::Text(text))?, rest)))
            }
            _ => Ok(None),
        },
        [] => Ok(None),
    }
}

fn closes(sign: Punctuator) -> bool
    ensures { result ≡ true → EndsBefore (TokenValue.Punctuator sign) }
{
    match sign {
        Punctuator::Comma
        | Punctuator::RightParen
        | Punctuator::RightBracket
        | Punctuator::RightBrace
        | Punctuator::Colon
        | Punctuator::Assign
        | Punctuator::Semicolon => true,
        _ => false,
    }
}

/// Whether the word continues no expression.
fn ends(word: &TokenValue) -> bool
    ensures { result ≡ true → EndsBefore word.now }
{
    match word {
        TokenValue::Newline => true,
        TokenValue::Punctuator(sign) => closes(*sign),
        _ => false,
    }
}

/// The name, int or string at the front of the leaves, if the leaf after it ends the expression.
fn alone(alloc: Global, leaves: &[ValuedToken]) -> Read<'_, Boxed<Expression>>
    ensures { ReadAlone leaves.now result }
{
    match leaves {
        [_, next, ..] if ends(&next.word) => atom(alloc, leaves),
        _ => Ok(None),
    }
}

/// How many further elements commas promise before the closing bracket, if the leaves begin with a comma.
fn promised(leaves: &[ValuedToken]) -> usize {
    let mut depth: usize = 0;
    let mut count: usize = 0;
    for leaf in leaves {
        match &leaf.word {
            TokenValue::Punctuator(Punctuator::Comma) if depth == 0 => {
                count = count.saturating_add(1);
            }
            _ if count == 0 => return 0,
            TokenValue::Punctuator(
                Punctuator::LeftParen | Punctuator::LeftBracket | Punctuator::LeftBrace,
            ) => depth = depth.saturating_add(1),
            TokenValue::Punctuator(
                Punctuator::RightParen | Punctuator::RightBracket | Punctuator::RightBrace,
            ) => {
                if depth == 0 {
                    return count;
                }
                depth -= 1;
            }
            _ => {}
        }
    }
    count
}

/// An empty row with room for the further elements that commas promise: it does not grow, and so is not moved.
pub fn room<T: Drop>(alloc: Global, leaves: &[ValuedToken]) -> Result<Items<T>, AllocError>
    ensures { IfOk result (λ all. all ≡ []) }
{
    Ok(Items::from_vec(Vec::with_capacity(alloc, promised(leaves))?))
}

/// The first, and after it the others.
pub fn onto<T: Drop>(alloc: Global, first: T, more: Items<T>) -> Result<Items<T>, AllocError>
    ensures { IfOk result (λ all. all ≡ first ∷ more) }
{
    let mut all = Items::from_vec(Vec::with_capacity(alloc, more.len() + 1)?);
    all.push(first)?;
    all.append(more)?;
    Ok(all)
}

/// The same items, with no more room than they need.
pub fn exact<T: Drop>(alloc: Global, items: Items<T>) -> Result<Items<T>, AllocError>
    ensures { IfOk result (λ all. all ≡ items) }
{
    let mut all = Items::from_vec(Vec::with_capacity(alloc, items.len())?);
    all.append(items)?;
    Ok(all)
}

/// One test is itself; none or several are a tuple.
pub fn tuple_unless_one(mut found: Items<Expression>) -> Expression
    ensures { result ≡ spec.tuple_unless_one found }
{
    if found.len() == 1 {
        found.remove(0)
    } else {
        Expression::Tuple(found)
    }
}

impl<F: Fn(Global, u128, Level, &[ValuedToken]) -> Read<'_, Boxed<Expression>>> Grammar<F> {
    /// An expression of a level, nested in another.
    pub fn nested<'a>(&self, level: Level, leaves: &'a [ValuedToken]) -> Read<'a, Boxed<Expression>>
        requires { Nests self.now.depth (F.pre self.now.expression) (F.post self.now.expression) }
        ensures { Gives (run rule self.now.depth (at_level level) leaves.now) result }
    {
        if self.depth > 0 {
            if let Some(found) = alone(self.alloc, leaves)? {
                return Ok(Some(found));
            }
        }
        (self.expression)(self.alloc, self.depth, level, leaves)
    }

    /// `',' Test`
    #[tactic(auto, unfolding(crate::specs::Expressions::next_test))]
    pub fn next_test<'a>(&self, leaves: &'a [ValuedToken]) -> Read<'a, Boxed<Expression>>
        requires { Nests self.now.depth (F.pre self.now.expression) (F.post self.now.expression) }
        ensures { Gives (reads self.now.depth spec.next_test leaves.now) result }
    {
        let Some((_, rest)) = sign(Punctuator::Comma, leaves) else {
            return Ok(None);
        };
        self.nested(Level::Test, rest)
    }

    /// `{',' Test}`, after the tests that are found so far.
    #[tactic(auto, using(crate::proofs::Rounds::turns))]
    fn tests_after<'a>(
        &self,
        mut found: Items<Expression>,
        leaves: &'a [ValuedToken],
    ) -> Read<'a, Items<Expression>>
        requires { Nests self.now.depth (F.pre self.now.expression) (F.post self.now.expression) }
        ensures { Gives (rounds spec.snoc (reads self.now.depth spec.next_test) (length leaves.now) found leaves.now)
            result }
    {
        let mut rest = leaves;
        for _turn in 0..leaves.len() {
            let Some((next, after)) = self.next_test(rest)? else {
                return Ok(Some((found, rest)));
            };
            found.push(next.into_inner())?;
            rest = after;
        }
        Ok(Some((found, rest)))
    }

    /// `Test {',' Test}`
    #[tactic(auto, unfolding(crate::specs::Expressions::list_of_tests))]
    pub fn list_of_tests<'a>(&self, leaves: &'a [ValuedToken]) -> Read<'a, Items<Expression>>
        requires { Nests self.now.depth (F.pre self.now.expression) (F.post self.now.expression) }
        ensures { Gives (reads self.now.depth spec.list_of_tests leaves.now) result }
    {
        let Some((first, rest)) = self.nested(Level::Test, leaves)? else {
            return Ok(None);
        };
        let mut found = Items::new(self.alloc);
        found.push(first.into_inner())?;
        self.tests_after(found, rest)
    }

    /// `{',' Test}`
    #[tactic(auto, unfolding(crate::specs::Expressions::further_tests))]
    pub fn further_tests<'a>(&self, leaves: &'a [ValuedToken]) -> Read<'a, Items<Expression>>
        requires { Nests self.now.depth (F.pre self.now.expression) (F.post self.now.expression) }
        ensures { Gives (reads self.now.depth spec.further_tests leaves.now) result }
    {
        self.tests_after(room(self.alloc, leaves)?, leaves)
    }

    /// `Tests = Test {',' Test}`; several are a tuple.
    #[tactic(auto, unfolding(crate::specs::Expressions::tests))]
    pub fn tests<'a>(&self, leaves: &'a [ValuedToken]) -> Read<'a, Boxed<Expression>>
        requires { Nests self.now.depth (F.pre self.now.expression) (F.post self.now.expression) }
        ensures { Gives (reads self.now.depth spec.tests leaves.now) result }
    {
        let Some((found, rest)) = self.list_of_tests(leaves)? else {
            return Ok(None);
        };
        let found = match found.len() {
            1 => found,
            _ => exact(self.alloc, found)?,
        };
        Ok(Some((Boxed::new(self.alloc, tuple_unless_one(found))?, rest)))
    }
}
