//! The readers of parentheses, displays and comprehensions.

ghost use Rattle.std.specs.Prelude.{◌≡◌, IfOk};
ghost use Rattle.star_syntax.specs.Expressions as spec;
ghost use Rattle.star_syntax.specs.Language.{Gives, Nests, reads};

use crate::leaf::ValuedToken;
use crate::level::Level;
use crate::make::target_of;
use crate::reader::{Grammar, Read, exact, keyword, onto, room, sign, sign_at, tuple_unless_one};
use sqlite_items::{Boxed, Items};
use star_lex::token::{Keyword, Punctuator};
use star_tree::tree::{Clause, Clauses, Entry, Expression, Position, Target};
use std::alloc::{AllocError, Global};

/// The rest of a display after its first element or entry: the clauses of a comprehension, or further ones.
type After<T> = (Option<Boxed<Clauses>>, Items<T>);

/// The tests between parentheses, and whether a comma ends them.
type Inside = Option<(Items<Expression>, Option<()>)>;

/// The expression that parentheses hold.
fn parentheses_of(alloc: Global, found: Inside) -> Expression
    ensures { result ≡ spec.parentheses_of found }
{
    match found {
        None => Expression::Tuple(Items::new(alloc)),
        Some((found, Some(_))) => Expression::Tuple(found),
        Some((found, None)) => tuple_unless_one(found),
    }
}

/// The list display or comprehension with these parts.
fn list_of(
    alloc: Global,
    position: Position,
    found: Option<(Boxed<Expression>, After<Expression>)>,
) -> Result<Boxed<Expression>, AllocError>
    ensures { IfOk result (λ made. made ≡ spec.list_of (position, found)) }
{
    match found {
        None => Boxed::new(alloc, Expression::List(Items::new(alloc))),
        Some((first, after)) => {
            let (clauses, more) = after;
            match clauses {
                None => Boxed::new(
                    alloc,
                    Expression::List(onto(alloc, first.into_inner(), more)?),
                ),
                Some(clauses) => {
                    let made = Expression::ListComprehension {
                        position,
                        element: first,
                        clauses,
                    };
                    Boxed::new(alloc, made)
                }
            }
        }
    }
}

/// The dictionary display or comprehension with these parts.
fn dict_of(
    alloc: Global,
    position: Position,
    found: Option<(Entry, After<Entry>)>,
) -> Result<Boxed<Expression>, AllocError>
    ensures { IfOk result (λ made. made ≡ spec.dict_of (position, found)) }
{
    match found {
        None => Boxed::new(alloc, Expression::Dict(Items::new(alloc))),
        Some((first, after)) => {
            let (clauses, more) = after;
            match clauses {
                None => Boxed::new(alloc, Expression::Dict(onto(alloc, first, more)?)),
                Some(clauses) => {
                    let entry = Boxed::new(alloc, first)?;
                    let made = Expression::DictComprehension {
                        position,
                        entry,
                        clauses,
                    };
                    Boxed::new(alloc, made)
                }
            }
        }
    }
}

/// A key and its value.
fn entry_of(key: Boxed<Expression>, value: Boxed<Expression>) -> Entry
    ensures { result ≡ spec.entry_of (key, value) }
{
    Entry {
        key: key.into_inner(),
        value: value.into_inner(),
    }
}

/// Clauses: the first, and those after it.
fn clauses_of(target: Boxed<Target>, iterable: Boxed<Expression>, more: Items<Clause>) -> Clauses
    ensures { result ≡ spec.clauses_of ((target, iterable), more) }
{
    Clauses {
        target: target.into_inner(),
        iterable,
        more,
    }
}

impl<F: Fn(Global, u128, Level, &[ValuedToken]) -> Read<'_, Boxed<Expression>>> Grammar<F> {
    /// `',' Primary`
    #[tactic(auto, unfolding(crate::specs::Expressions::next_primary))]
    fn next_primary<'a>(&self, leaves: &'a [ValuedToken]) -> Read<'a, Boxed<Expression>>
        requires { Nests self.now.depth (F.pre self.now.expression) (F.post self.now.expression) }
        ensures { Gives (reads self.now.depth spec.next_primary leaves.now) result }
    {
        let Some((_, rest)) = sign(Punctuator::Comma, leaves) else {
            return Ok(None);
        };
        self.nested(Level::Primary, rest)
    }

    /// `Primary {',' Primary}`
    #[tactic(auto, unfolding(crate::specs::Expressions::list_of_primaries), using(crate::proofs::Rounds::turns))]
    fn list_of_primaries<'a>(&self, leaves: &'a [ValuedToken]) -> Read<'a, Items<Expression>>
        requires { Nests self.now.depth (F.pre self.now.expression) (F.post self.now.expression) }
        ensures { Gives (reads self.now.depth spec.list_of_primaries leaves.now) result }
    {
        let Some((first, mut rest)) = self.nested(Level::Primary, leaves)? else {
            return Ok(None);
        };
        let mut found = Items::new(self.alloc);
        found.push(first.into_inner())?;
        for _turn in 0..rest.len() {
            let Some((next, after)) = self.next_primary(rest)? else {
                return Ok(Some((found, rest)));
            };
            found.push(next.into_inner())?;
            rest = after;
        }
        Ok(Some((found, rest)))
    }

    /// `Primary {',' Primary}`; several are a tuple.
    #[tactic(auto, unfolding(crate::specs::Expressions::primaries))]
    fn primaries<'a>(&self, leaves: &'a [ValuedToken]) -> Read<'a, Boxed<Expression>>
        requires { Nests self.now.depth (F.pre self.now.expression) (F.post self.now.expression) }
        ensures { Gives (reads self.now.depth spec.primaries leaves.now) result }
    {
        let Some((found, rest)) = self.list_of_primaries(leaves)? else {
            return Ok(None);
        };
        Ok(Some((Boxed::new(self.alloc, tuple_unless_one(found))?, rest)))
    }

    /// `Targets = Primary {',' Primary}`, if these are a target (`target_of`).
    #[tactic(auto, unfolding(crate::specs::Expressions::targets))]
    pub fn targets<'a>(&self, leaves: &'a [ValuedToken]) -> Read<'a, Boxed<Target>>
        requires { Nests self.now.depth (F.pre self.now.expression) (F.post self.now.expression) }
        ensures { Gives (reads self.now.depth spec.targets leaves.now) result }
    {
        let Some((found, rest)) = self.primaries(leaves)? else {
            return Ok(None);
        };
        match target_of(self.alloc, found.into_inner())? {
            Some(target) => Ok(Some((Boxed::new(self.alloc, target)?, rest))),
            None => Ok(None),
        }
    }

    /// `ForClause = 'for' Targets 'in' Or`
    #[tactic(auto, unfolding(crate::specs::Expressions::for_clause))]
    fn for_clause<'a>(
        &self,
        leaves: &'a [ValuedToken],
    ) -> Read<'a, (Boxed<Target>, Boxed<Expression>)>
        requires { Nests self.now.depth (F.pre self.now.expression) (F.post self.now.expression) }
        ensures { Gives (reads self.now.depth spec.for_clause leaves.now) result }
    {
        let Some((_, rest)) = keyword(Keyword::For, leaves) else {
            return Ok(None);
        };
        let Some((target, rest)) = self.targets(rest)? else {
            return Ok(None);
        };
        let Some((_, rest)) = keyword(Keyword::In, rest) else {
            return Ok(None);
        };
        let Some((iterable, rest)) = self.nested(Level::Or, rest)? else {
            return Ok(None);
        };
        Ok(Some(((target, iterable), rest)))
    }

    /// `'if' Or`
    #[tactic(auto, unfolding(crate::specs::Expressions::if_clause))]
    fn if_clause<'a>(&self, leaves: &'a [ValuedToken]) -> Read<'a, Clause>
        requires { Nests self.now.depth (F.pre self.now.expression) (F.post self.now.expression) }
        ensures { Gives (reads self.now.depth spec.if_clause leaves.now) result }
    {
        let Some((_, rest)) = keyword(Keyword::If, leaves) else {
            return Ok(None);
        };
        let Some((condition, rest)) = self.nested(Level::Or, rest)? else {
            return Ok(None);
        };
        Ok(Some((Clause::If(condition.into_inner()), rest)))
    }

    /// `ForClause | 'if' Or`
    #[tactic(auto, unfolding(crate::specs::Expressions::next_clause))]
    fn next_clause<'a>(&self, leaves: &'a [ValuedToken]) -> Read<'a, Clause>
        requires { Nests self.now.depth (F.pre self.now.expression) (F.post self.now.expression) }
        ensures { Gives (reads self.now.depth spec.next_clause leaves.now) result }
    {
        if let Some(((target, iterable), rest)) = self.for_clause(leaves)? {
            let target = target.into_inner();
            let iterable = iterable.into_inner();
            return Ok(Some((Clause::For { target, iterable }, rest)));
        }
        self.if_clause(leaves)
    }

    /// `{ForClause | 'if' Or}`
    #[tactic(auto, unfolding(crate::specs::Expressions::further_clauses), using(crate::proofs::Rounds::turns))]
    fn further_clauses<'a>(&self, leaves: &'a [ValuedToken]) -> Read<'a, Items<Clause>>
        requires { Nests self.now.depth (F.pre self.now.expression) (F.post self.now.expression) }
        ensures { Gives (reads self.now.depth spec.further_clauses leaves.now) result }
    {
        let mut found = Items::new(self.alloc);
        let mut rest = leaves;
        for _turn in 0..leaves.len() {
            let Some((next, after)) = self.next_clause(rest)? else {
                return Ok(Some((found, rest)));
            };
            found.push(next)?;
            rest = after;
        }
        Ok(Some((found, rest)))
    }

    /// `Clauses = ForClause {ForClause | 'if' Or}`
    #[tactic(auto, unfolding(crate::specs::Expressions::all_clauses))]
    fn all_clauses<'a>(&self, leaves: &'a [ValuedToken]) -> Read<'a, Boxed<Clauses>>
        requires { Nests self.now.depth (F.pre self.now.expression) (F.post self.now.expression) }
        ensures { Gives (reads self.now.depth spec.all_clauses leaves.now) result }
    {
        let Some(((target, iterable), rest)) = self.for_clause(leaves)? else {
            return Ok(None);
        };
        let Some((more, rest)) = self.further_clauses(rest)? else {
            return Ok(None);
        };
        let clauses = clauses_of(target, iterable, more);
        Ok(Some((Boxed::new(self.alloc, clauses)?, rest)))
    }

    /// `[Tests [',']]`
    #[tactic(auto, unfolding(crate::specs::Expressions::inside))]
    fn inside<'a>(&self, leaves: &'a [ValuedToken]) -> Read<'a, Inside>
        requires { Nests self.now.depth (F.pre self.now.expression) (F.post self.now.expression) }
        ensures { Gives (reads self.now.depth spec.inside leaves.now) result }
    {
        let Some((found, rest)) = self.list_of_tests(leaves)? else {
            return Ok(Some((None, leaves)));
        };
        match sign(Punctuator::Comma, rest) {
            Some((_, rest)) => Ok(Some((Some((exact(self.alloc, found)?, Some(()))), rest))),
            None => Ok(Some((Some((exact(self.alloc, found)?, None)), rest))),
        }
    }

    /// `'(' [Tests [',']] ')'`
    #[tactic(auto, unfolding(crate::specs::Expressions::parentheses))]
    pub fn parentheses<'a>(&self, leaves: &'a [ValuedToken]) -> Read<'a, Boxed<Expression>>
        requires { Nests self.now.depth (F.pre self.now.expression) (F.post self.now.expression) }
        ensures { Gives (reads self.now.depth spec.parentheses leaves.now) result }
    {
        let Some((_, rest)) = sign(Punctuator::LeftParen, leaves) else {
            return Ok(None);
        };
        let Some((found, rest)) = self.inside(rest)? else {
            return Ok(None);
        };
        let Some((_, rest)) = sign(Punctuator::RightParen, rest) else {
            return Ok(None);
        };
        Ok(Some((
            Boxed::new(self.alloc, parentheses_of(self.alloc, found))?,
            rest,
        )))
    }

    /// `Clauses | {',' Test} [',']`
    #[tactic(auto, unfolding(crate::specs::Expressions::after_element))]
    fn after_element<'a>(&self, leaves: &'a [ValuedToken]) -> Read<'a, After<Expression>>
        requires { Nests self.now.depth (F.pre self.now.expression) (F.post self.now.expression) }
        ensures { Gives (reads self.now.depth spec.after_element leaves.now) result }
    {
        if let Some((clauses, rest)) = self.all_clauses(leaves)? {
            return Ok(Some(((Some(clauses), Items::new(self.alloc)), rest)));
        }
        let Some((more, rest)) = self.further_tests(leaves)? else {
            return Ok(None);
        };
        match sign(Punctuator::Comma, rest) {
            Some((_, rest)) => Ok(Some(((None, more), rest))),
            None => Ok(Some(((None, more), rest))),
        }
    }

    /// `[Test (Clauses | {',' Test} [','])]`
    #[tactic(auto, unfolding(crate::specs::Expressions::elements))]
    fn elements<'a>(
        &self,
        leaves: &'a [ValuedToken],
    ) -> Read<'a, Option<(Boxed<Expression>, After<Expression>)>>
        requires { Nests self.now.depth (F.pre self.now.expression) (F.post self.now.expression) }
        ensures { Gives (reads self.now.depth spec.elements leaves.now) result }
    {
        let Some((first, rest)) = self.nested(Level::Test, leaves)? else {
            return Ok(Some((None, leaves)));
        };
        match self.after_element(rest)? {
            Some((after, rest)) => Ok(Some((Some((first, after)), rest))),
            None => Ok(Some((None, leaves))),
        }
    }

    /// `'[' [Tests [',']] ']' | '[' Test Clauses ']'`
    #[tactic(auto, unfolding(crate::specs::Expressions::list_display))]
    pub fn list_display<'a>(&self, leaves: &'a [ValuedToken]) -> Read<'a, Boxed<Expression>>
        requires { Nests self.now.depth (F.pre self.now.expression) (F.post self.now.expression) }
        ensures { Gives (reads self.now.depth spec.list_display leaves.now) result }
    {
        let Some((position, rest)) = sign_at(Punctuator::LeftBracket, leaves) else {
            return Ok(None);
        };
        let Some((found, rest)) = self.elements(rest)? else {
            return Ok(None);
        };
        let made = list_of(self.alloc, position, found)?;
        let Some((_, rest)) = sign(Punctuator::RightBracket, rest) else {
            return Ok(None);
        };
        Ok(Some((made, rest)))
    }

    /// `Entry = Test ':' Test`
    #[tactic(auto, unfolding(crate::specs::Expressions::entry))]
    fn entry<'a>(&self, leaves: &'a [ValuedToken]) -> Read<'a, Entry>
        requires { Nests self.now.depth (F.pre self.now.expression) (F.post self.now.expression) }
        ensures { Gives (reads self.now.depth spec.entry leaves.now) result }
    {
        let Some((key, rest)) = self.nested(Level::Test, leaves)? else {
            return Ok(None);
        };
        let Some((_, rest)) = sign(Punctuator::Colon, rest) else {
            return Ok(None);
        };
        let Some((value, rest)) = self.nested(Level::Test, rest)? else {
            return Ok(None);
        };
        Ok(Some((entry_of(key, value), rest)))
    }

    /// `',' Entry`
    #[tactic(auto, unfolding(crate::specs::Expressions::next_entry))]
    fn next_entry<'a>(&self, leaves: &'a [ValuedToken]) -> Read<'a, Entry>
        requires { Nests self.now.depth (F.pre self.now.expression) (F.post self.now.expression) }
        ensures { Gives (reads self.now.depth spec.next_entry leaves.now) result }
    {
        let Some((_, rest)) = sign(Punctuator::Comma, leaves) else {
            return Ok(None);
        };
        self.entry(rest)
    }

    /// `{',' Entry}`
    #[tactic(auto, unfolding(crate::specs::Expressions::further_entries), using(crate::proofs::Rounds::turns))]
    fn further_entries<'a>(&self, leaves: &'a [ValuedToken]) -> Read<'a, Items<Entry>>
        requires { Nests self.now.depth (F.pre self.now.expression) (F.post self.now.expression) }
        ensures { Gives (reads self.now.depth spec.further_entries leaves.now) result }
    {
        let mut found = room(self.alloc, leaves)?;
        let mut rest = leaves;
        for _turn in 0..leaves.len() {
            let Some((next, after)) = self.next_entry(rest)? else {
                return Ok(Some((found, rest)));
            };
            found.push(next)?;
            rest = after;
        }
        Ok(Some((found, rest)))
    }

    /// `Clauses | {',' Entry} [',']`
    #[tactic(auto, unfolding(crate::specs::Expressions::after_entry))]
    fn after_entry<'a>(&self, leaves: &'a [ValuedToken]) -> Read<'a, After<Entry>>
        requires { Nests self.now.depth (F.pre self.now.expression) (F.post self.now.expression) }
        ensures { Gives (reads self.now.depth spec.after_entry leaves.now) result }
    {
        if let Some((clauses, rest)) = self.all_clauses(leaves)? {
            return Ok(Some(((Some(clauses), Items::new(self.alloc)), rest)));
        }
        let Some((more, rest)) = self.further_entries(leaves)? else {
            return Ok(None);
        };
        match sign(Punctuator::Comma, rest) {
            Some((_, rest)) => Ok(Some(((None, more), rest))),
            None => Ok(Some(((None, more), rest))),
        }
    }

    /// `[Entry (Clauses | {',' Entry} [','])]`
    #[tactic(auto, unfolding(crate::specs::Expressions::entries))]
    fn entries<'a>(&self, leaves: &'a [ValuedToken]) -> Read<'a, Option<(Entry, After<Entry>)>>
        requires { Nests self.now.depth (F.pre self.now.expression) (F.post self.now.expression) }
        ensures { Gives (reads self.now.depth spec.entries leaves.now) result }
    {
        let Some((first, rest)) = self.entry(leaves)? else {
            return Ok(Some((None, leaves)));
        };
        match self.after_entry(rest)? {
            Some((after, rest)) => Ok(Some((Some((first, after)), rest))),
            None => Ok(Some((None, leaves))),
        }
    }

    /// `'{' [Entry {',' Entry} [',']] '}' | '{' Entry Clauses '}'`
    #[tactic(auto, unfolding(crate::specs::Expressions::dict_display))]
    pub fn dict_display<'a>(&self, leaves: &'a [ValuedToken]) -> Read<'a, Boxed<Expression>>
        requires { Nests self.now.depth (F.pre self.now.expression) (F.post self.now.expression) }
        ensures { Gives (reads self.now.depth spec.dict_display leaves.now) result }
    {
        let Some((position, rest)) = sign_at(Punctuator::LeftBrace, leaves) else {
            return Ok(None);
        };
        let Some((found, rest)) = self.entries(rest)? else {
            return Ok(None);
        };
        let made = dict_of(self.alloc, position, found)?;
        let Some((_, rest)) = sign(Punctuator::RightBrace, rest) else {
            return Ok(None);
        };
        Ok(Some((made, rest)))
    }
}
