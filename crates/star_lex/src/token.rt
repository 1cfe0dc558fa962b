//! The tokens of a text, each with its line and its place in the text, and the faults of texts.

ghost use Rattle.std.specs.Prelude.{◌≡◌};
ghost use Rattle.star_lex.specs.declared.token.SyntaxFault.TheVariants.{Memory};

use std::alloc::{AllocError, AllocFailed};
use thiserror::Error;

/// A word that is not a name: the grammar uses it, or it is only reserved.
#[derive(Clone, Copy, Debug, PartialEq, Eq)]
pub enum Keyword {
    And,
    Break,
    Continue,
    Def,
    Elif,
    Else,
    For,
    If,
    In,
    Lambda,
    Load,
    Not,
    Or,
    Pass,
    Return,
    /// `as assert async await class del except finally from global import is nonlocal raise try while with yield`.
    Reserved,
}

/// An operator or a mark of punctuation.
#[derive(Clone, Copy, Debug, PartialEq, Eq)]
pub enum Punctuator {
    Plus,
    Minus,
    Star,
    StarStar,
    SlashSlash,
    Percent,
    Tilde,
    Ampersand,
    Bar,
    Caret,
    ShiftLeft,
    ShiftRight,
    Dot,
    Comma,
    Assign,
    Semicolon,
    Colon,
    LeftParen,
    RightParen,
    LeftBracket,
    RightBracket,
    LeftBrace,
    RightBrace,
    Less,
    Greater,
    LessEqual,
    GreaterEqual,
    EqualEqual,
    NotEqual,
    PlusAssign,
    MinusAssign,
    StarAssign,
    SlashSlashAssign,
    PercentAssign,
    AmpersandAssign,
    BarAssign,
    CaretAssign,
    ShiftLeftAssign,
    ShiftRightAssign,
}

/// The kind of a token.
#[derive(Clone, Copy, Debug, PartialEq, Eq)]
pub enum Kind {
    /// A name that is not a keyword.
    Name,
    Keyword(Keyword),
    /// A literal of an int.
    Int,
    /// A literal of a string.
    Text,
    Punctuator(Punctuator),
    /// The end of a logical line.
    Newline,
    /// A logical line is indented further than the one before it.
    Indent,
    /// The end of an indented block.
    Outdent,
    /// The end of the text.
    End,
}

/// The bytes of the source from `start` up to, but without, `end`.
#[derive(Clone, Copy, Debug, PartialEq, Eq)]
pub struct Span {
    pub start: usize,
    pub end: usize,
}

/// A token: its kind, the line on which it begins (the first line is 1), and its bytes of the source.
#[derive(Clone, Copy, Debug, PartialEq, Eq)]
pub struct Token {
    pub kind: Kind,
    pub line: usize,
    pub span: Span,
}

/// Why a text has no tokens or no tree.
#[derive(Clone, Copy, Debug, PartialEq, Eq, Error)]
pub enum SyntaxFault {
    /// Bytes that begin no token.
    #[error("bad token on line {line}")]
    BadToken { line: usize },
    /// A line whose indentation has a tab, or is not the indentation of an open block.
    #[error("bad indentation on line {line}")]
    BadIndent { line: usize },
    /// A line on which the text is nested too deeply.
    #[error("nested too deeply on line {line}")]
    TooNested { line: usize },
    /// Tokens that the grammar does not give.
    #[error("bad syntax")]
    BadSyntax,
    /// No memory was left.
    #[error("out of memory")]
    Memory,
}

impl From<AllocError> for SyntaxFault {
    ghost from_gives = { λ _ e. e ≡ Memory };

    fn from(_error: AllocError) -> SyntaxFault {
        SyntaxFault::Memory
    }
}

impl<T: Drop> From<AllocFailed<T>> for SyntaxFault {
    ghost from_gives = { λ _ e. e ≡ Memory };

    fn from(_error: AllocFailed<T>) -> SyntaxFault {
        SyntaxFault::Memory
    }
}
