//! The nesting weight: how deep a file's texts nest, by its tokens alone (`docs/LANGUAGE.md`, "Nesting weight").

ghost use Rattle.std.specs.Prelude.{◌≡◌, ◌+◌, ◌<◌, ◌^◌, IfOk};
ghost use Rattle.star_parser.specs.Nesting as spec;

use star_lex::token::{Keyword, Kind, Punctuator, Token};
use std::alloc::{AllocError, Global};
use std::collections::VecDeque;

/// The effect of a token on the weight.
#[derive(Clone, Copy)]
pub enum Effect {
    Nothing,
    Adds,
    Opens,
    Closes,
    Comma,
    Lambda,
    Semicolon,
    Newline,
    Indent,
    Outdent,
}

/// The greatest weight.
const MOST_WEIGHT: usize = 100;

/// The weight after some tokens.
#[derive(Drop)]
struct Nesting {
    weight: usize,
    /// For each open bracket, the innermost first, the weight just after it.
    remembered: VecDeque<usize>,
    /// How many indentations above 0 are open.
    indents: usize,
}

fn of_sign(sign: Punctuator) -> Effect
    ensures { result ≡ spec.of_sign sign }
{
    match sign {
        Punctuator::Comma => Effect::Comma,
        Punctuator::Semicolon => Effect::Semicolon,
        Punctuator::LeftParen | Punctuator::LeftBracket | Punctuator::LeftBrace => Effect::Opens,
        Punctuator::RightParen | Punctuator::RightBracket | Punctuator::RightBrace =>
            Effect::Closes,
        Punctuator::Plus
        | Punctuator::Minus
        | Punctuator::Star
        | Punctuator::StarStar
        | Punctuator::SlashSlash
        | Punctuator::Percent => Effect::Adds,
        Punctuator::Tilde | Punctuator::Ampersand | Punctuator::Bar | Punctuator::Caret =>
            Effect::Adds,
        Punctuator::ShiftLeft | Punctuator::ShiftRight | Punctuator::Dot => Effect::Adds,
        Punctuator::Less | Punctuator::Greater | Punctuator::LessEqual | Punctuator::GreaterEqual =>
            Effect::Adds,
        Punctuator::EqualEqual | Punctuator::NotEqual => Effect::Adds,
        _ => Effect::Nothing,
    }
}

fn of_keyword(keyword: Keyword) -> Effect
    ensures { result ≡ spec.of_keyword keyword }
{
    match keyword {
        Keyword::And | Keyword::Or | Keyword::Not | Keyword::In => Effect::Adds,
        Keyword::If | Keyword::Else | Keyword::For => Effect::Adds,
        Keyword::Lambda => Effect::Lambda,
        _ => Effect::Nothing,
    }
}

fn of_kind(kind: Kind) -> Effect
    ensures { result ≡ spec.of_kind kind }
{
    match kind {
        Kind::Punctuator(sign) => of_sign(sign),
        Kind::Keyword(keyword) => of_keyword(keyword),
        Kind::Newline => Effect::Newline,
        Kind::Indent => Effect::Indent,
        Kind::Outdent => Effect::Outdent,
        _ => Effect::Nothing,
    }
}

impl Nesting {
    /// A comma inside brackets sets the weight back to its value just after the innermost open bracket.
    fn comma(&mut self)
        ensures { spec.state self.new ≡ spec.after_token Effect.Comma (spec.state self.old) }
    {
        if let Some(inner) = self.remembered.front() {
            self.weight = *inner;
        }
    }

    fn semicolon(&mut self)
        ensures { spec.state self.new ≡ spec.after_token Effect.Semicolon (spec.state self.old) }
    {
        if self.remembered.is_empty() {
            self.weight = self.indents;
        }
    }

    fn closes(&mut self)
        ensures { spec.state self.new ≡ spec.after_token Effect.Closes (spec.state self.old) }
    {
        if let Some(inner) = self.remembered.pop_front() {
            self.weight = inner;
        }
    }

    fn opens(&mut self) -> Result<(), AllocError>
        requires { spec.Within (2 ^ 63) (spec.state self.old) }
        ensures { IfOk result (λ _. spec.state self.new ≡ spec.after_token Effect.Opens (spec.state self.old)) }
    {
        self.weight += 1;
        self.remembered.push_front(self.weight)?;
        Ok(())
    }

    fn lambda(&mut self) -> Result<(), AllocError>
        requires { spec.Within (2 ^ 63) (spec.state self.old) }
        ensures { IfOk result (λ _. spec.state self.new ≡ spec.after_token Effect.Lambda (spec.state self.old)) }
    {
        self.weight += 1;
        if let Some(inner) = self.remembered.pop_front() {
            self.remembered.push_front(inner + 1)?;
        }
        Ok(())
    }

    fn take(&mut self, effect: Effect) -> Result<(), AllocError>
        requires { spec.Within (2 ^ 63) (spec.state self.old) }
        ensures { IfOk result (λ _. spec.state self.new ≡ spec.after_token effect (spec.state self.old)) }
    {
        match effect {
            Effect::Nothing => {}
            Effect::Adds => self.weight += 1,
            Effect::Opens => self.opens()?,
            Effect::Closes => self.closes(),
            Effect::Comma => self.comma(),
            Effect::Lambda => self.lambda()?,
            Effect::Semicolon => self.semicolon(),
            Effect::Newline => self.weight = self.indents,
            Effect::Indent => {
                self.indents += 1;
                self.weight = self.indents;
            }
            Effect::Outdent => {
                self.indents = self.indents.saturating_sub(1);
                self.weight = self.indents;
            }
        }
        Ok(())
    }
}

/// The line of the first token that takes the nesting weight above 100; `None` if there is none. It reads no further
/// than that token.
pub fn too_nested(alloc: Global, tokens: &[Token]) -> Result<Option<usize>, AllocError>
    ensures { IfOk result (λ line. line ≡ spec.too_nested tokens.now) }
{
    let mut nesting = Nesting {
        weight: 0,
        remembered: VecDeque::new(alloc),
        indents: 0,
    };
    let mut rest = tokens;
    while let [token, more @ ..] = rest {
        nesting.take(of_kind(token.kind))?;
        if nesting.weight > MOST_WEIGHT {
            return Ok(Some(token.line));
        }
        rest = more;
    }
    Ok(None)
}
