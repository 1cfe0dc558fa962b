//! The lexer: the tokens of a Starlark file, or its first fault (`docs/LANGUAGE.md`, "Tokens").
//!
//! It goes over the text piece by piece and makes the tokens as it goes, in time in proportion to the text. It does not
//! copy the text, and it does not keep the pieces:
//!
//! - `scan::piece_at` cuts the next piece: a name, a number, a string, a sign, blanks, a comment or a line end.
//! - `lay::lay` has the loop. It keeps its place in the logical line and the open indentations. For each piece
//!   `lay::step` pushes the tokens that it gives, or returns the text's first fault, with its line.
//!
//! Before that, `scan::line_ends` counts the line ends of the whole text, for the line of its end. `scan::scan` makes a
//! row of all pieces, for a caller that tells a person about a mistake; `lex` does not use it.
//!
//! Begin at `lex`, below. The types are in `token`:
//!
//! - `Token` has its `Kind`, the line on which it begins, and its `Span` of bytes in the text. It does not hold its
//!   value: `value` reads the value of an int or a string off the text.
//! - `SyntaxFault` is a bad token, a bad indentation, one of the parser's faults, or want of memory.
//!
//! The promise is the contract of `lex`: exactly the tokens that the definition `lexed` (`specs/Lines`) gives, or
//! exactly its fault; and the spans of the tokens come in order.
#![tactic(auto)]

mod lay;
mod prefix;
pub mod scan;
pub mod token;
pub mod value;

ghost use Rattle.std.specs.Prelude.{length, IfOk};
ghost use Rattle.star_lex.specs.Lines.{Answers, InOrder, lexed};

use std::alloc::Global;
use token::{SyntaxFault, Token};

/// The tokens of a text, by the rules of `docs/LANGUAGE.md`, "Tokens" (this profile). Their spans count bytes of the
/// text and come in order.
///
/// `BadToken` and `BadIndent` are for the text's first fault, with its line; `Memory` is for want of memory.
#[tactic(auto, unfolding(crate::specs::Lines::lexed))]
pub fn lex(alloc: Global, text: &str) -> Result<Vec<Token>, SyntaxFault>
    ensures value { Answers (lexed text.now) result }
    ensures order { IfOk result (λ tokens. InOrder 0 tokens.items (length text.now)) }
{
    let bytes = text.as_bytes();
    lay::lay(alloc, bytes, 1 + scan::line_ends(bytes))
}
