//! Tests of the lexer: texts with their tokens or their first fault.

use crate::tests::rows::{ROWS, rows_of};
use star_checks::{holds, reads};
use star_lex::lex;
use star_lex::token::{Kind, SyntaxFault, Token};
use std::alloc::{AllocError, Global};

fn letter(kind: Kind) -> char {
    match kind {
        Kind::Name => 'n',
        Kind::Keyword(_) => 'k',
        Kind::Int => 'i',
        Kind::Text => 't',
        Kind::Punctuator(_) => 's',
        Kind::Newline => 'N',
        Kind::Indent => 'I',
        Kind::Outdent => 'O',
        Kind::End => 'E',
    }
}

/// The tokens, each as a word, after a blank but for the first.
fn words(alloc: Global, tokens: &[Token]) -> Result<String, AllocError> {
    let mut out = String::new(alloc);
    for token in tokens {
        let gap = if out.is_empty() { "" } else { " " };
        let (letter, line, span) = (letter(token.kind), token.line, token.span);
        let word = format!(in alloc; "{gap}{letter}{line}:{}-{}", span.start, span.end)?;
        out.push_str(&word)?;
    }
    Ok(out)
}

/// The answer of `lex` for a text, as text.
fn shown(alloc: Global, text: &str) -> Result<String, AllocError> {
    let (fault, line) = match lex(alloc, text) {
        Ok(tokens) => return words(alloc, &tokens),
        Err(SyntaxFault::BadToken { line }) => ("bad_token", line),
        Err(SyntaxFault::BadIndent { line }) => ("bad_indent", line),
        Err(_) => return String::from_str(alloc, "another fault"),
    };
    format!(in alloc; "{fault} {line}")
}

#[test]
fn tokens_of_the_rows(rt: HostRuntime) -> Result<(), AllocError> {
    let rows = rows_of(rt.alloc(), ROWS)?;
    holds!(&rt; rows.len() == 401);
    for (text, wanted) in rows.as_slice() {
        let found = shown(rt.alloc(), *text)?;
        reads!(&rt; found.as_str(), *wanted, *text);
    }
    Ok(())
}
