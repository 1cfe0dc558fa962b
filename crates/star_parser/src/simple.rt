//! The readers of statements that hold no others, and of a line of them. Begin at `simple`.

ghost use Rattle.std.specs.Prelude.{◌≡◌, IfOk};
ghost use Rattle.star_syntax.specs.Grammar.{first};
ghost use Rattle.star_syntax.specs.Expressions.{single, tests};
ghost use Rattle.star_syntax.specs.Keeps as keeps;
ghost use Rattle.star_syntax.specs.Statements as spec;
ghost use Rattle.star_syntax.specs.Language.{Finds, Gives, reads};

use sqlite_items::{Boxed, Items};
use star_lex::token::{Keyword, Punctuator};
use star_syntax::expressions::tests_at;
use star_syntax::leaf::{TokenValue, ValuedToken};
use star_syntax::make::{augmented_of, target_of};
use star_syntax::name::is_name;
use star_syntax::reader::{Read, exact, keyword, name, sign};
use star_text::Text;
use star_tree::tree::{BinaryOperator, Expression, Form, Literal, LoadedName, Name, Statement};
use std::alloc::{AllocError, Global};

/// The readers of small statements, with expressions nested in them no deeper than a depth.
#[derive(Clone, Copy)]
pub struct Simple {
    pub alloc: Global,
    pub depth: u128,
}

/// NEWLINE, if it is at the front of the leaves.
pub fn newline(leaves: &[ValuedToken]) -> Option<((), &[ValuedToken])>
    ensures { Finds (first (λ t. spec.is_newline t.word) leaves.now) result }
{
    match leaves {
        [leaf, rest @ ..] if matches!(&leaf.word, TokenValue::Newline) => Some(((), rest)),
        _ => None,
    }
}

/// The string at the front of the leaves.
fn literal(leaves: &[ValuedToken]) -> Read<'_, Literal>
    ensures { Gives (first (λ t. spec.literal_of t.position t.word) leaves.now) result }
{
    match leaves {
        [leaf, rest @ ..] => match &leaf.word {
            TokenValue::Text(text) => {
                let text = text.share()?;
                let position = leaf.position;
                Ok(Some((Literal { text, position }, rest)))
            }
            _ => Ok(None),
        },
        [] => Ok(None),
    }
}

fn augmenting_sign(sign: Punctuator) -> Option<BinaryOperator>
    ensures { result ≡ spec.augmenting_sign sign }
{
    match sign {
        Punctuator::PlusAssign => Some(BinaryOperator::Add),
        Punctuator::MinusAssign => Some(BinaryOperator::Subtract),
        Punctuator::StarAssign => Some(BinaryOperator::Multiply),
        Punctuator::SlashSlashAssign => Some(BinaryOperator::FloorDivide),
        Punctuator::PercentAssign => Some(BinaryOperator::Modulo),
        Punctuator::AmpersandAssign => Some(BinaryOperator::BitAnd),
        Punctuator::BarAssign => Some(BinaryOperator::BitOr),
        Punctuator::CaretAssign => Some(BinaryOperator::BitXor),
        Punctuator::ShiftLeftAssign => Some(BinaryOperator::ShiftLeft),
        Punctuator::ShiftRightAssign => Some(BinaryOperator::ShiftRight),
        _ => None,
    }
}

fn augmenting_word(word: &TokenValue) -> Option<BinaryOperator>
    ensures { result ≡ spec.augmenting_word word.now }
{
    match word {
        TokenValue::Punctuator(sign) => augmenting_sign(*sign),
        _ => None,
    }
}

/// `AugOp = '+=' | '-=' | '*=' | '//=' | '%=' | '&=' | '|=' | '^=' | '<<=' | '>>='`
fn augmenting(leaves: &[ValuedToken]) -> Option<(BinaryOperator, &[ValuedToken])>
    ensures { Finds (first (λ t. spec.augmenting_word t.word) leaves.now) result }
{
    match leaves {
        [leaf, rest @ ..] => Some((augmenting_word(&leaf.word)?, rest)),
        [] => None,
    }
}

fn local_of(local: Option<Name>, loaded: &Literal) -> Result<Name, AllocError>
    ensures { IfOk result (λ bound. bound ≡ spec.local_of local loaded.now) }
{
    match local {
        Some(bound) => Ok(bound),
        None => Ok(Name {
            text: loaded.text.share()?,
            position: loaded.position,
        }),
    }
}

/// The loaded name; `None` unless its string has the form of a name and is not a keyword.
fn loaded_of(local: Option<Name>, loaded: Literal) -> Result<Option<LoadedName>, AllocError>
    ensures { IfOk result (λ made. made ≡ spec.loaded_of (local, loaded)) }
{
    if !is_name(loaded.text.as_str().as_bytes()) {
        return Ok(None);
    }
    let local = local_of(local, &loaded)?;
    Ok(Some(LoadedName { local, loaded }))
}

fn assigned(
    alloc: Global,
    left: Boxed<Expression>,
    value: Boxed<Expression>,
) -> Result<Option<Form>, AllocError>
    ensures { IfOk result (λ form. form ≡ spec.assign_of (keeps.target_of left) value) }
{
    match target_of(alloc, left.into_inner())? {
        Some(target) => {
            let value = value.into_inner();
            Ok(Some(Form::Assign { target, value }))
        }
        None => Ok(None),
    }
}

fn assignment_of(
    alloc: Global,
    left: Boxed<Expression>,
    operator: Option<BinaryOperator>,
    value: Boxed<Expression>,
) -> Result<Option<Form>, AllocError>
    ensures { IfOk result (λ form. form ≡ spec.assignment_of left operator value) }
{
    let Some(operator) = operator else {
        return assigned(alloc, left, value);
    };
    match augmented_of(left.into_inner()) {
        Some(target) => Ok(Some(Form::Augment {
            target,
            operator,
            value: value.into_inner(),
        })),
        None => Ok(None),
    }
}

pub fn only<T: Drop>(alloc: Global, item: T) -> Result<Items<T>, AllocError>
    ensures { IfOk result (λ all. all ≡ single item) }
{
    let mut all = Items::from_vec(Vec::with_capacity(alloc, 1)?);
    all.push(item)?;
    Ok(all)
}

impl Simple {
    fn tests<'a>(&self, leaves: &'a [ValuedToken]) -> Read<'a, Boxed<Expression>>
        ensures { Gives (reads self.now.depth tests leaves.now) result }
    {
        tests_at(self.alloc, self.depth, leaves)
    }

    /// `'return' [Tests]`
    #[tactic(auto, unfolding(star_syntax::specs::Statements::returned))]
    fn returned<'a>(&self, leaves: &'a [ValuedToken]) -> Read<'a, Form>
        ensures { Gives (reads self.now.depth spec.returned leaves.now) result }
    {
        let Some((_, rest)) = keyword(Keyword::Return, leaves) else {
            return Ok(None);
        };
        match self.tests(rest)? {
            Some((value, rest)) => Ok(Some((Form::Return(Some(value.into_inner())), rest))),
            None => Ok(Some((Form::Return(None), rest))),
        }
    }

    /// `[name '=']`
    #[tactic(auto, unfolding(star_syntax::specs::Statements::local))]
    fn local<'a>(&self, leaves: &'a [ValuedToken]) -> Read<'a, Option<Name>>
        ensures { Gives (reads self.now.depth spec.local leaves.now) result }
    {
        let Some((bound, rest)) = name(leaves)? else {
            return Ok(Some((None, leaves)));
        };
        match sign(Punctuator::Assign, rest) {
            Some((_, rest)) => Ok(Some((Some(bound), rest))),
            None => Ok(Some((None, leaves))),
        }
    }

    /// `[name '='] string`
    #[tactic(auto, unfolding(star_syntax::specs::Statements::loaded))]
    fn loaded<'a>(&self, leaves: &'a [ValuedToken]) -> Read<'a, LoadedName>
        ensures { Gives (reads self.now.depth spec.loaded leaves.now) result }
    {
        let Some((local, rest)) = self.local(leaves)? else {
            return Ok(None);
        };
        let Some((text, rest)) = literal(rest)? else {
            return Ok(None);
        };
        match loaded_of(local, text)? {
            Some(loaded) => Ok(Some((loaded, rest))),
            None => Ok(None),
        }
    }

    /// `',' [name '='] string`
    #[tactic(auto, unfolding(star_syntax::specs::Statements::next_loaded))]
    fn next_loaded<'a>(&self, leaves: &'a [ValuedToken]) -> Read<'a, LoadedName>
        ensures { Gives (reads self.now.depth spec.next_loaded leaves.now) result }
    {
        let Some((_, rest)) = sign(Punctuator::Comma, leaves) else {
            return Ok(None);
        };
        self.loaded(rest)
    }

    /// `{',' [name '='] string}`
    #[tactic(auto, unfolding(star_syntax::specs::Statements::all_loaded), using(star_syntax::proofs::Rounds::turns))]
    fn all_loaded<'a>(&self, leaves: &'a [ValuedToken]) -> Read<'a, Items<LoadedName>>
        ensures { Gives (reads self.now.depth spec.all_loaded leaves.now) result }
    {
        let mut found = Items::new(self.alloc);
        let mut rest = leaves;
        for _turn in 0..rest.len() {
            let Some((next, after)) = self.next_loaded(rest)? else {
                return Ok(Some((found, rest)));
            };
            found.push(next)?;
            rest = after;
        }
        Ok(Some((found, rest)))
    }

    /// `'(' string {',' [name '='] string} [','] ')'`
    #[tactic(auto, unfolding(star_syntax::specs::Statements::loads))]
    fn loads<'a>(&self, leaves: &'a [ValuedToken]) -> Read<'a, (Literal, Items<LoadedName>)>
        ensures { Gives (reads self.now.depth spec.loads leaves.now) result }
    {
        let Some((_, rest)) = sign(Punctuator::LeftParen, leaves) else {
            return Ok(None);
        };
        let Some((module, rest)) = literal(rest)? else {
            return Ok(None);
        };
        let Some((names, rest)) = self.all_loaded(rest)? else {
            return Ok(None);
        };
        let rest = match sign(Punctuator::Comma, rest) {
            Some((_, rest)) => rest,
            None => rest,
        };
        let Some((_, rest)) = sign(Punctuator::RightParen, rest) else {
            return Ok(None);
        };
        Ok(Some(((module, names), rest)))
    }

    /// `Load = 'load' '(' string {',' [name '='] string} [','] ')'`
    #[tactic(auto, unfolding(star_syntax::specs::Statements::load))]
    fn load<'a>(&self, leaves: &'a [ValuedToken]) -> Read<'a, Form>
        ensures { Gives (reads self.now.depth spec.load leaves.now) result }
    {
        let Some((_, rest)) = keyword(Keyword::Load, leaves) else {
            return Ok(None);
        };
        let Some(((module, names), rest)) = self.loads(rest)? else {
            return Ok(None);
        };
        let names = exact(self.alloc, names)?;
        Ok(Some((Form::Load { module, names }, rest)))
    }

    /// `'=' | AugOp`
    #[tactic(auto, unfolding(star_syntax::specs::Statements::assigning))]
    fn assigning<'a>(
        &self,
        leaves: &'a [ValuedToken],
    ) -> Option<(Option<BinaryOperator>, &'a [ValuedToken])>
        ensures { Finds (reads self.now.depth spec.assigning leaves.now) result }
    {
        if let Some((_, rest)) = sign(Punctuator::Assign, leaves) {
            return Some((None, rest));
        }
        match augmenting(leaves) {
            Some((operator, rest)) => Some((Some(operator), rest)),
            None => None,
        }
    }

    /// `('=' | AugOp) Tests`
    #[tactic(auto, unfolding(star_syntax::specs::Statements::right_side))]
    fn right_side<'a>(
        &self,
        leaves: &'a [ValuedToken],
    ) -> Read<'a, (Option<BinaryOperator>, Boxed<Expression>)>
        ensures { Gives (reads self.now.depth spec.right_side leaves.now) result }
    {
        let Some((operator, rest)) = self.assigning(leaves) else {
            return Ok(None);
        };
        let Some((value, rest)) = self.tests(rest)? else {
            return Ok(None);
        };
        Ok(Some(((operator, value), rest)))
    }

    /// `Tests | Tests '=' Tests | Tests AugOp Tests`: an expression or an assignment.
    #[tactic(auto, unfolding(star_syntax::specs::Statements::expression_or_assignment))]
    fn expression_or_assignment<'a>(&self, leaves: &'a [ValuedToken]) -> Read<'a, Form>
        ensures { Gives (reads self.now.depth spec.expression_or_assignment leaves.now) result }
    {
        let Some((left, rest)) = self.tests(leaves)? else {
            return Ok(None);
        };
        let Some(((operator, value), after)) = self.right_side(rest)? else {
            return Ok(Some((Form::Expression(left.into_inner()), rest)));
        };
        match assignment_of(self.alloc, left, operator, value)? {
            Some(form) => Ok(Some((form, after))),
            None => Ok(None),
        }
    }

    /// `'break' | 'continue' | 'pass'`
    #[tactic(auto, unfolding(star_syntax::specs::Statements::keyword_form))]
    fn keyword_form<'a>(&self, leaves: &'a [ValuedToken]) -> Option<(Form, &'a [ValuedToken])>
        ensures { Finds (reads self.now.depth spec.keyword_form leaves.now) result }
    {
        if let Some((_, rest)) = keyword(Keyword::Break, leaves) {
            return Some((Form::Break, rest));
        }
        if let Some((_, rest)) = keyword(Keyword::Continue, leaves) {
            return Some((Form::Continue, rest));
        }
        match keyword(Keyword::Pass, leaves) {
            Some((_, rest)) => Some((Form::Pass, rest)),
            None => None,
        }
    }

    /// `Small = 'return' [Tests] | 'break' | 'continue' | 'pass' | Load | Tests | Tests '=' Tests | Tests AugOp Tests`,
    /// without its position.
    #[tactic(auto, unfolding(star_syntax::specs::Statements::small_form))]
    fn small_form<'a>(&self, leaves: &'a [ValuedToken]) -> Read<'a, Form>
        ensures { Gives (reads self.now.depth spec.small_form leaves.now) result }
    {
        if let Some(found) = self.returned(leaves)? {
            return Ok(Some(found));
        }
        if let Some(found) = self.keyword_form(leaves) {
            return Ok(Some(found));
        }
        if let Some(found) = self.load(leaves)? {
            return Ok(Some(found));
        }
        self.expression_or_assignment(leaves)
    }

    /// `Small`, with the position of its first token.
    #[tactic(auto, unfolding(star_syntax::specs::Statements::small))]
    fn small<'a>(&self, leaves: &'a [ValuedToken]) -> Read<'a, Statement>
        ensures { Gives (reads self.now.depth spec.small leaves.now) result }
    {
        let [leaf, ..] = leaves else {
            return Ok(None);
        };
        let Some((form, rest)) = self.small_form(leaves)? else {
            return Ok(None);
        };
        let position = leaf.position;
        Ok(Some((Statement { position, form }, rest)))
    }

    /// `';' Small`
    #[tactic(auto, unfolding(star_syntax::specs::Statements::next_small))]
    fn next_small<'a>(&self, leaves: &'a [ValuedToken]) -> Read<'a, Statement>
        ensures { Gives (reads self.now.depth spec.next_small leaves.now) result }
    {
        let Some((_, rest)) = sign(Punctuator::Semicolon, leaves) else {
            return Ok(None);
        };
        self.small(rest)
    }

    /// `Small {';' Small}`
    #[tactic(auto, unfolding(star_syntax::specs::Statements::small_statements), using(star_syntax::proofs::Rounds::turns))]
    fn small_statements<'a>(&self, leaves: &'a [ValuedToken]) -> Read<'a, Items<Statement>>
        ensures { Gives (reads self.now.depth spec.small_statements leaves.now) result }
    {
        let Some((first, mut rest)) = self.small(leaves)? else {
            return Ok(None);
        };
        let mut found = only(self.alloc, first)?;
        for _turn in 0..rest.len() {
            let Some((next, after)) = self.next_small(rest)? else {
                return Ok(Some((found, rest)));
            };
            found.push(next)?;
            rest = after;
        }
        Ok(Some((found, rest)))
    }

    /// `Simple = Small {';' Small} [';'] NEWLINE`
    #[tactic(auto, unfolding(star_syntax::specs::Statements::simple))]
    pub fn simple<'a>(&self, leaves: &'a [ValuedToken]) -> Read<'a, Items<Statement>>
        ensures { Gives (reads self.now.depth spec.simple leaves.now) result }
    {
        let Some((found, rest)) = self.small_statements(leaves)? else {
            return Ok(None);
        };
        let rest = match sign(Punctuator::Semicolon, rest) {
            Some((_, rest)) => rest,
            None => rest,
        };
        let Some((_, rest)) = newline(rest) else {
            return Ok(None);
        };
        Ok(Some((found, rest)))
    }
}
