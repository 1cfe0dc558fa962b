//! `Function`: what is told of a `def` statement.

use crate::index::Index;
use crate::mention::Variable;
use star_lex::lex;
use star_lex::token::{Kind, Punctuator, Span, SyntaxFault, Token};
use star_text::Text;
use std::alloc::{AllocError, Global};

/// A function that a `def` statement makes.
#[derive(Debug, Drop)]
pub struct Function {
    /// The variable that the statement binds.
    pub variable: Variable,
    /// The number of the block of its body.
    pub block: usize,
    /// Its name.
    pub name: Span,
    /// Its name and its parameters, up to the closing parenthesis.
    pub header: Span,
    /// The whole statement.
    pub whole: Span,
    /// The string that its body begins with, decoded.
    pub description: Option<Text>,
}

/// Whether a blank is written before a token, after another one, where the source has blanks, line ends or comments there.
fn is_apart(before: Kind, kind: Kind) -> bool {
    let is_first = matches!(
        before,
        Kind::Punctuator(Punctuator::LeftParen | Punctuator::LeftBracket | Punctuator::LeftBrace)
    );
    let is_last = matches!(
        kind,
        Kind::Punctuator(
            Punctuator::RightParen
                | Punctuator::RightBracket
                | Punctuator::RightBrace
                | Punctuator::Comma
        )
    );
    !is_first && !is_last
}

/// Whether a token is a comma before a closing parenthesis.
fn is_last_comma(tokens: &[Token], at: usize) -> bool {
    match (tokens.get(at), tokens.get(at.saturating_add(1))) {
        (Some(comma), Some(next)) => {
            comma.kind == Kind::Punctuator(Punctuator::Comma)
                && next.kind == Kind::Punctuator(Punctuator::RightParen)
        }
        _ => false,
    }
}

/// Adds the tokens of a header to a text, on one line.
fn push_tokens(out: &mut String, header: &str, tokens: &[Token]) -> Result<(), AllocError> {
    let mut before = Kind::Newline;
    let mut end = 0;
    for (at, token) in tokens.iter().enumerate() {
        if token.span.start == token.span.end || is_last_comma(tokens, at) {
            continue;
        }
        if end < token.span.start && is_apart(before, token.kind) {
            out.push(' ')?;
        }
        out.push_str(header.get(token.span.start..token.span.end).unwrap_or(""))?;
        before = token.kind;
        end = token.span.end;
    }
    Ok(())
}

impl Index {
    /// How the statement of a function begins, on one line: `def f(a, b = 1, *args, **kw)`.
    pub fn signature(&self, alloc: Global, function: &Function) -> Result<String, AllocError> {
        let mut out = String::from_str(alloc, "def ")?;
        let header = self.written(function.header);
        match lex(alloc, header) {
            Ok(tokens) => push_tokens(&mut out, header, tokens.as_slice())?,
            Err(SyntaxFault::Memory) => return Err(AllocError),
            Err(_) => out.push_str(self.written(function.name))?,
        }
        Ok(out)
    }
}
