//! `Mention`: a name in a text, and what it is there.

ghost use Rattle.std.specs.Prelude.{◌≡◌, ◌↔◌, All, IfOk, IsTrue};
ghost use Rattle.star_editor.specs.Within.{IsWithin};
ghost use Rattle.star_editor.specs.Meaning.{referent_of};

use star_lex::token::{Span, Token};
use star_lex::value::{opening, quoting_of};
use std::alloc::{AllocError, Global};

/// A variable of a file: the number of the block that binds it, and its slot there. The file's own block has number 0,
/// the block of a definition or a comprehension one more than the number of its first token.
#[derive(Clone, Copy, Debug, PartialEq, Eq)]
pub struct Variable {
    pub block: usize,
    pub slot: usize,
}

/// What a name means.
#[derive(Clone, Copy, Debug, PartialEq, Eq)]
pub enum Referent {
    /// A variable of this file.
    Variable(Variable),
    /// A global of the prelude.
    Prelude,
    /// A name of the outermost block.
    BuiltIn,
    /// Nothing binds the name.
    Undefined,
}

/// What binds a name.
#[derive(Clone, Copy, Debug, PartialEq, Eq)]
pub enum Binder {
    /// A `def` statement.
    Function,
    Parameter,
    /// The target of an assignment, of a `for` statement or of a comprehension.
    Target,
    /// A load statement.
    Load,
}

/// What a name is at one place.
#[derive(Clone, Copy, Debug, PartialEq, Eq)]
pub enum Role {
    /// The name is bound here.
    Bound { variable: Variable, by: Binder },
    Read(Referent),
    /// The name after a dot.
    Attribute,
    /// The string of a load statement that names the file.
    Label,
    /// The string of a load statement that names a global of the file, where it has another local name.
    LoadedName,
    /// The name of an argument, in a call of this, if a name is called.
    Keyword { callee: Option<Referent> },
}

/// A name in a text. The span of a string is what its quotes enclose.
#[derive(Clone, Copy, Debug, PartialEq, Eq)]
pub struct Mention {
    pub span: Span,
    pub role: Role,
}

/// The role of the name or the string at a token.
#[derive(Clone, Copy, Debug)]
pub(crate) struct Note {
    pub token: usize,
    pub role: Role,
}

impl Role {
    /// What a name that is bound or read means; `None` for another role.
    pub fn referent(self) -> Option<Referent>
        ensures { result ≡ referent_of self }
    {
        match self {
            Role::Bound { variable, .. } => Some(Referent::Variable(variable)),
            Role::Read(referent) => Some(referent),
            _ => None,
        }
    }
}

/// Whether a text has a span, and it cuts no character.
pub(crate) fn is_within(text: &str, span: Span) -> bool
    ensures { IsTrue result ↔ IsWithin text.now span }
{
    span.start <= span.end && text.is_char_boundary(span.start) && text.is_char_boundary(span.end)
}

/// What the quotes of a string enclose; the span itself where no string is.
pub(crate) fn inside(text: &str, span: Span) -> Span {
    let written = text.get(span.start..span.end).unwrap_or("");
    match quoting_of(written.as_bytes()) {
        Some(quoting) => Span {
            start: span.start.saturating_add(opening(quoting)),
            end: span.end.saturating_sub(if quoting.triple { 3 } else { 1 }),
        },
        None => span,
    }
}

/// The mentions that notes are, in a text with these tokens.
pub(crate) fn mentions_of(
    alloc: Global,
    text: &str,
    tokens: &[Token],
    notes: &[Note],
) -> Result<Vec<Mention>, AllocError>
    ensures { IfOk result (λ v. All (λ m. IsWithin text.now m.span) v.items) }
{
    let mut mentions = Vec::with_capacity(alloc, notes.len())?;
    for note in notes {
        let Some(token) = tokens.get(note.token) else {
            continue;
        };
        let (span, role) = (inside(text, token.span), note.role);
        if is_within(text, span) {
            mentions.push(Mention { span, role })?;
        }
    }
    Ok(mentions)
}
