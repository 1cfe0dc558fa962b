//! The parser: the tree of a text, or why there is none (`docs/LANGUAGE.md`, "Grammar" and "Nesting weight").
//!
//! Begin at `parse`, below. It calls the lexer, checks how deep the text nests (`nest`), makes leaves of the tokens
//! (tokens with their values) and reads the file. `simple` has the readers of statements that fit on one line, `block`
//! the readers of statements that contain others, and of the file. Expressions and the grammar itself are in
//! `star_syntax`.
//!
//! Faults come in this order: the first bad token or indentation; then nesting deeper than 100; then bad syntax.
//!
//! The promise is the contract of `parse`: the tree is the reading of the text by the grammar, and there is a fault
//! exactly if there is no such reading. The law `one_answer` says that a text has one answer, want of memory aside.
#![tactic(auto)]

mod block;
pub mod law;
pub mod nest;
mod simple;

ghost use Rattle.star_parser.specs.Sources.{Parses};

use block::file_of;
use nest::too_nested;
use star_lex::lex;
use star_lex::token::SyntaxFault;
use star_syntax::leaf::leaves;
use star_tree::tree::Tree;
use std::alloc::Global;

/// The tree of a text, by the grammar of `docs/LANGUAGE.md`, "Grammar" (this profile).
///
/// `BadToken` and `BadIndent` are for the first fault of the text's tokens, with its line. `TooNested` is for the line
/// where the nesting weight passes 100. `BadSyntax` is for a text that the grammar does not give. `Memory` is for want
/// of memory.
pub fn parse(alloc: Global, text: &str) -> Result<Tree, SyntaxFault>
    ensures { Parses text.now result }
{
    let tokens = match lex(alloc, text) {
        Ok(tokens) => tokens,
        Err(fault) => return Err(fault),
    };
    if let Some(line) = too_nested(alloc, &tokens)? {
        return Err(SyntaxFault::TooNested { line });
    }
    let leaves = leaves(alloc, text, &tokens)?;
    drop(tokens);
    match file_of(alloc, leaves.as_slice())? {
        Some(statements) => Ok(Tree { statements }),
        None => Err(SyntaxFault::BadSyntax),
    }
}
