//! What is being written at a place of a text that need not parse.
//!
//! Only the text before the place is looked at. It is cut into the pieces of the lexer, which never fails: a string that
//! is not closed before the place is the one that is being written.

ghost use Rattle.std.specs.Prelude.{IfOk};
ghost use Rattle.star_editor.specs.Contexts.{EndsAt, IsWrittenTo};

use star_lex::scan::{Piece, PieceKind, scan};
use star_lex::token::{Keyword, Kind, Punctuator, Span, Token};
use star_lex::value::{opening, quoting_of, string_value};
use std::alloc::{AllocError, Global};

/// The type of a literal.
#[derive(Clone, Copy, Debug, PartialEq, Eq)]
pub enum Literal {
    Text,
    Dict,
}

/// What is being written. A prefix is what is written of it before the place.
#[derive(Debug, Drop)]
pub enum Context {
    /// The string of a load statement that names the file.
    Label { prefix: Span },
    /// The string of a load statement that names a global of the file with this label, as it is written.
    LoadedName { label: String, prefix: Span },
    /// A name after a dot, and the type of what stands before the dot, if it is a literal.
    Attribute { of: Option<Literal>, prefix: Span },
    /// A name that is read.
    Name { prefix: Span },
    /// A comment, another string, an int, or a new name.
    Nothing,
}

/// The call around a place.
#[derive(Clone, Copy, Debug, PartialEq, Eq)]
pub struct Call {
    /// The name that is called.
    pub callee: Span,
    /// Whether it is the name after a dot.
    pub is_attribute: bool,
    /// How many arguments stand before the one at the place.
    pub argument: usize,
    /// The name of that argument, if it has one: `name = value`.
    pub keyword: Option<Span>,
}

/// What the text before a place ends in.
#[derive(Clone, Copy)]
enum Tail {
    /// A token, a blank or a line end.
    Code,
    Comment,
    /// A string whose quotes open before this byte.
    Text { start: usize },
    /// Bytes that are no token.
    Bad,
}

/// The text before a place: its tokens without those of lines and blocks, and what it ends in.
#[derive(Drop)]
struct Front {
    tokens: Vec<Token>,
    tail: Tail,
}

const LINE_ENDS: [char; 2] = ['\n', '\r'];

/// A span that is so many bytes further on.
fn moved(span: Span, by: usize) -> Span {
    Span {
        start: span.start.saturating_add(by),
        end: span.end.saturating_add(by),
    }
}

/// Where the last line of a text begins.
fn last_line(text: &str) -> usize {
    match text.rfind(LINE_ENDS) {
        Some(end) => end.saturating_add(1),
        None => 0,
    }
}

/// What bytes that are no token are: a string that is not closed, if it may have come this far.
fn tail_of(bad: &str, start: usize) -> Tail {
    match quoting_of(bad.as_bytes()) {
        Some(quoting) => Tail::Text {
            start: start.saturating_add(opening(quoting)),
        },
        None => Tail::Bad,
    }
}

/// Where to begin again if bytes that are no token begin on an earlier line than the text ends: with its last line, and
/// not where these bytes are a string that may have line ends.
fn restart(text: &str, pieces: &[Piece]) -> Option<usize> {
    let last = pieces.last()?;
    let line = last_line(text);
    if !matches!(last.kind, PieceKind::Bad) || line <= last.span.start {
        return None;
    }
    let bad = text.get(last.span.start..).unwrap_or("");
    match quoting_of(bad.as_bytes()) {
        Some(quoting) if quoting.triple => None,
        _ => Some(line),
    }
}

impl Front {
    /// The front that these pieces of a text are, the text beginning at `base`.
    fn of(alloc: Global, text: &str, base: usize, pieces: &[Piece]) -> Result<Front, AllocError> {
        let mut front = Front {
            tokens: Vec::new(alloc),
            tail: Tail::Code,
        };
        for piece in pieces {
            let span = moved(piece.span, base);
            front.tail = match piece.kind {
                PieceKind::Lexeme(kind) => {
                    let line = piece.line;
                    front.tokens.push(Token { kind, line, span })?;
                    Tail::Code
                }
                PieceKind::Comment => Tail::Comment,
                PieceKind::Bad => {
                    tail_of(text.get(piece.span.start..).unwrap_or(""), span.start)
                }
                _ => Tail::Code,
            };
        }
        Ok(front)
    }

    /// The front of a text before a place. If it cannot be cut, it is that of the last line.
    fn before(alloc: Global, text: &str) -> Result<Front, AllocError> {
        let pieces = scan(alloc, text.as_bytes())?;
        let Some(line) = restart(text, pieces.as_slice()) else {
            return Front::of(alloc, text, 0, pieces.as_slice());
        };
        let rest = text.get(line..).unwrap_or("");
        let pieces = scan(alloc, rest.as_bytes())?;
        Front::of(alloc, rest, line, pieces.as_slice())
    }

    /// The kind of the token before a token.
    fn kind_before(&self, at: usize) -> Option<Kind> {
        let before = self.tokens.get(at.checked_sub(1)?)?;
        Some(before.kind)
    }
}

/// Parentheses that are open, and the argument that is being written in them.
#[derive(Clone, Copy)]
struct Parentheses {
    /// The token that opens them.
    at: usize,
    /// How many commas are between the arguments so far.
    commas: usize,
    /// The first token of the last argument, if it has one.
    argument: usize,
}

/// Whether a token ends what can be called.
fn is_callee(kind: Option<Kind>) -> bool {
    matches!(
        kind,
        Some(
            Kind::Name
                | Kind::Keyword(Keyword::Load)
                | Kind::Punctuator(Punctuator::RightParen | Punctuator::RightBracket)
        )
    )
}

/// Whether a token begins a statement: no brackets are open before it.
fn begins_statement(kind: Kind) -> bool {
    matches!(
        kind,
        Kind::Keyword(
            Keyword::Def
                | Keyword::Return
                | Keyword::Pass
                | Keyword::Break
                | Keyword::Continue
                | Keyword::Elif
        )
    )
}

/// The innermost parentheses of a call that are open after these tokens.
fn opened(front: &Front) -> Option<Parentheses> {
    let mut depth = 0usize;
    let mut commas = 0usize;
    let mut argument = front.tokens.len();
    for (at, token) in front.tokens.iter().enumerate().rev() {
        match token.kind {
            Kind::Punctuator(
                Punctuator::RightParen | Punctuator::RightBracket | Punctuator::RightBrace,
            ) => depth = depth.saturating_add(1),
            Kind::Punctuator(Punctuator::LeftParen)
                if depth == 0 && is_callee(front.kind_before(at)) => {
                if commas == 0 {
                    argument = at.saturating_add(1);
                }
                return Some(Parentheses {
                    at,
                    commas,
                    argument,
                });
            }
            Kind::Punctuator(
                Punctuator::LeftParen | Punctuator::LeftBracket | Punctuator::LeftBrace,
            ) => {
                if depth == 0 {
                    commas = 0;
                }
                depth = depth.saturating_sub(1);
            }
            Kind::Punctuator(Punctuator::Comma) if depth == 0 => {
                if commas == 0 {
                    argument = at.saturating_add(1);
                }
                commas = commas.saturating_add(1);
            }
            kind if begins_statement(kind) => return None,
            _ => {}
        }
    }
    None
}

/// The string at a token, decoded.
fn string_at(alloc: Global, text: &str, token: &Token) -> Result<String, AllocError> {
    let written = text.get(token.span.start..token.span.end).unwrap_or("");
    match String::from_utf8(string_value(alloc, written.as_bytes())?) {
        Ok(value) => Ok(value),
        Err(_) => Ok(String::new(alloc)),
    }
}

/// What a string is that is being written, of which this is written.
fn in_string(
    alloc: Global,
    text: &str,
    front: &Front,
    at: usize,
    prefix: Span,
) -> Result<Context, AllocError>
    requires { EndsAt at prefix }
    ensures { IfOk result (IsWrittenTo at) }
{
    let Some(open) = opened(front) else {
        return Ok(Context::Nothing);
    };
    if front.kind_before(open.at) != Some(Kind::Keyword(Keyword::Load)) {
        return Ok(Context::Nothing);
    }
    match front.tokens.get(open.at.saturating_add(1)) {
        None => Ok(Context::Label { prefix }),
        Some(label) if open.commas > 0 && label.kind == Kind::Text => Ok(Context::LoadedName {
            label: string_at(alloc, text, label)?,
            prefix,
        }),
        _ => Ok(Context::Nothing),
    }
}

/// The type of the literal that a token of this kind ends.
fn literal_of(kind: Option<Kind>) -> Option<Literal> {
    match kind? {
        Kind::Text => Some(Literal::Text),
        Kind::Punctuator(Punctuator::RightBrace) => Some(Literal::Dict),
        _ => None,
    }
}

/// Whether the name after the token before `at` is that of a parameter of a `def` statement.
fn is_parameter(front: &Front, at: usize) -> bool {
    let is_first = matches!(
        front.kind_before(at),
        Some(Kind::Punctuator(
            Punctuator::LeftParen | Punctuator::Comma | Punctuator::Star | Punctuator::StarStar
        ))
    );
    match opened(front) {
        Some(open) if is_first => {
            let callee = open.at.saturating_sub(1);
            front.kind_before(callee) == Some(Kind::Keyword(Keyword::Def))
        }
        _ => false,
    }
}

/// What is being written after these tokens, up to a place.
fn in_code(front: &Front, at: usize) -> Context
    ensures { IsWrittenTo at result }
{
    let count = front.tokens.len();
    let here = Span { start: at, end: at };
    let (before, prefix) = match front.tokens.last() {
        Some(last) if last.span.start <= at && last.span.end == at => match last.kind {
            Kind::Name | Kind::Keyword(_) => (count.saturating_sub(1), last.span),
            Kind::Int => return Context::Nothing,
            _ => (count, here),
        },
        _ => (count, here),
    };
    match front.kind_before(before) {
        Some(Kind::Punctuator(Punctuator::Dot)) => Context::Attribute {
            of: literal_of(front.kind_before(before.saturating_sub(1))),
            prefix,
        },
        Some(Kind::Keyword(Keyword::Def)) => Context::Nothing,
        _ if is_parameter(front, before) => Context::Nothing,
        _ => Context::Name { prefix },
    }
}

/// What is being written at this byte. Nothing, for a byte inside of a character or beyond the text. The error: an
/// allocation failed.
pub fn context_at(alloc: Global, text: &str, at: usize) -> Result<Context, AllocError>
    ensures { IfOk result (IsWrittenTo at) }
{
    let Some(written) = text.get(..at) else {
        return Ok(Context::Nothing);
    };
    let front = Front::before(alloc, written)?;
    match front.tail {
        Tail::Code => Ok(in_code(&front, at)),
        Tail::Text { start } if start <= at => {
            in_string(alloc, written, &front, at, Span { start, end: at })
        }
        _ => Ok(Context::Nothing),
    }
}

/// The name of the argument that is being written.
fn keyword_of(front: &Front, argument: usize) -> Option<Span> {
    let name = front.tokens.get(argument)?;
    let sign = front.tokens.get(argument.saturating_add(1))?;
    if name.kind == Kind::Name && sign.kind == Kind::Punctuator(Punctuator::Assign) {
        Some(name.span)
    } else {
        None
    }
}

/// The call of a name whose parentheses are open.
fn call_of(front: &Front, open: Parentheses) -> Option<Call> {
    let before = open.at.checked_sub(1)?;
    let callee = front.tokens.get(before)?;
    let earlier = front.kind_before(before);
    if callee.kind != Kind::Name || earlier == Some(Kind::Keyword(Keyword::Def)) {
        return None;
    }
    Some(Call {
        callee: callee.span,
        is_attribute: earlier == Some(Kind::Punctuator(Punctuator::Dot)),
        argument: open.commas,
        keyword: keyword_of(front, open.argument),
    })
}

/// The innermost call whose parentheses are open at this byte, if a name is called. The error: an allocation failed.
pub fn call_at(alloc: Global, text: &str, at: usize) -> Result<Option<Call>, AllocError> {
    let Some(written) = text.get(..at) else {
        return Ok(None);
    };
    let front = Front::before(alloc, written)?;
    match (front.tail, opened(&front)) {
        (Tail::Comment, _) | (_, None) => Ok(None),
        (_, Some(open)) => Ok(call_of(&front, open)),
    }
}
