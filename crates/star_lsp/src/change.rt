//! Changes of texts that an editor makes: a variable gets another name, a word the one that was meant.

use crate::desk::Desk;
use crate::diagnostics::{diagnostic_value, mistakes_of, span_of};
use crate::document::Document;
use crate::message::Refusal;
use serde_json::{Value, json};
use star_editor::navigation::{Edit, RenameError};
use star_frames::place::Position;
use star_lex::token::Span;
use star_mistakes::mistake::Mistake;
use star_repo::repo::Repo;
use std::alloc::{AllocError, Global};

/// A change of an open file that puts a text in place of some bytes.
fn edit_value(
    alloc: Global,
    document: &Document,
    span: Span,
    text: &str,
) -> Result<Value, AllocError> {
    let range = document.range(alloc, span)?;
    json!(in alloc; {"range": range, "newText": text})
}

/// Changes of an open file.
fn edits_value(alloc: Global, document: &Document, edits: Vec<Value>) -> Result<Value, AllocError> {
    let edits = Value::Array(edits);
    json!(in alloc; {"changes": {(document.uri.as_str()): edits}})
}

/// Renames the variable at a position, in this file.
pub(crate) fn rename(
    desk: &Desk,
    document: &Document,
    position: Position,
    name: &str,
) -> Result<Value, Refusal> {
    if !document.is_read() {
        return Err(Refusal::NotParsed);
    }
    let index = &document.reading.index;
    let Some(mention) = index.mention_at(document.offset(position)) else {
        return Err(Refusal::NoVariable);
    };
    let edits = match index.rename(desk.alloc, mention, name) {
        Ok(edits) => edits,
        Err(RenameError::NoVariable) => return Err(Refusal::NoVariable),
        Err(RenameError::NotAName) => return Err(Refusal::NotAName),
        Err(RenameError::Taken) => return Err(Refusal::Taken),
        Err(RenameError::Memory) => return Err(Refusal::Memory),
    };
    let mut all = Vec::new(desk.alloc);
    for edit in &edits {
        all.push(edit_value(desk.alloc, document, edit.span, edit.text.as_str())?)?;
    }
    Ok(edits_value(desk.alloc, document, all)?)
}

/// The word that a help proposes, as it is written in a file: a name, or a label with its quotes.
fn meant(help: &str) -> Option<&str> {
    let word = help.strip_prefix("did you mean ")?.strip_suffix('?')?;
    match word.strip_prefix('`') {
        Some(name) => name.strip_suffix('`'),
        None => Some(word),
    }
}

/// The action that writes the word which was meant, if the help of a mistake proposes one.
fn action(
    alloc: Global,
    document: &Document,
    mistake: &Mistake,
) -> Result<Option<Value>, AllocError> {
    let Some(help) = &mistake.help else {
        return Ok(None);
    };
    let Some(word) = meant(help.as_str()) else {
        return Ok(None);
    };
    let mut edits = Vec::new(alloc);
    edits.push(edit_value(alloc, document, span_of(mistake), word)?)?;
    let edit = edits_value(alloc, document, edits)?;
    let diagnostic = diagnostic_value(alloc, document, mistake)?;
    let title = format!(in alloc; "Change to {word}")?;
    let action =
        json!(in alloc; {"title": title, "kind": "quickfix", "diagnostics": [diagnostic], "edit": edit})?;
    Ok(Some(action))
}

/// The cures for mistakes of an open file in a range.
pub(crate) fn actions<F: Repo>(
    desk: &Desk,
    folder: &mut F,
    document: &Document,
    range: (Position, Position),
) -> Result<Value, AllocError> {
    let (start, end) = (document.offset(range.0), document.offset(range.1));
    let mut all = Vec::new(desk.alloc);
    for mistake in mistakes_of(desk, folder, document)? {
        if mistake.mark.end < start || end < mistake.mark.start {
            continue;
        }
        if let Some(action) = action(desk.alloc, document, &mistake)? {
            all.push(action)?;
        }
    }
    Ok(Value::Array(all))
}
