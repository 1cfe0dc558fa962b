//! Diagnostics: the static mistakes of an open file, and if it has none, how its last run failed.

ghost use Rattle.std.specs.Prelude.{◌≡◌, IfOk, string_bytes};
ghost use Rattle.serde_json.specs.View.{view};
ghost use Rattle.star_label.specs.View.{text_of};
ghost use Rattle.star_lsp.specs.Diagnostic.{IsDiagnosticOf, IsPublished, span_of, told_of};

use crate::desk::Desk;
use crate::document::{Document, MOST_TEXT};
use crate::fault::diagnostic_of_run;
use crate::message::{ERROR, diagnostic_with, notification, publication};
use serde_json::{Value, json};
use star_bundle::error::ServeError;
use star_label::error::LabelError;
use star_label::files::Files;
use star_label::label::Label;
use star_lex::token::Span;
use star_mistakes::mistake::Mistake;
use star_mistakes::statics::Sources;
use star_repo::repo::Repo;
use star_repo::text::loads_of;
use std::alloc::{AllocError, Global};
use std::collections::BTreeMap;

/// Adds the file of a label to others, if there is one.
fn add_file<F: Repo>(
    desk: &Desk,
    folder: &mut F,
    files: &mut BTreeMap<Label, String>,
    label: Label,
) -> Result<(), AllocError> {
    if let Some(text) = desk.text(folder, &label)? {
        files.insert(label, String::from_str(desk.alloc, text.as_str())?)?;
    }
    Ok(())
}

/// A copy of a label.
pub(crate) fn copied(alloc: Global, label: &Label) -> Result<Label, AllocError>
    ensures { IfOk result (λ copy. text_of copy ≡ text_of label.now) }
{
    match Label::read(alloc, label.text(), "") {
        Ok(label) => Ok(label),
        Err(LabelError::Memory) => Err(AllocError),
        Err(_) => unreachable!(),
    }
}

/// The files that the mistakes of a file depend on: itself, those that it loads, and the prelude. `None` if they are too
/// long or too many for a run.
fn files_for<F: Repo>(
    desk: &Desk,
    folder: &mut F,
    label: &Label,
    text: &str,
) -> Result<Option<Files>, AllocError> {
    let mut files = BTreeMap::new(desk.alloc);
    let mut labels = loads_of(desk.alloc, label, text)?;
    if let Some(prelude) = &desk.settings.prelude {
        labels.insert(copied(desk.alloc, prelude)?)?;
    }
    labels.insert(copied(desk.alloc, label)?)?;
    while let Some(label) = labels.pop_first() {
        add_file(desk, folder, &mut files, label)?;
    }
    match Files::new(desk.alloc, files) {
        Ok(files) => Ok(Some(files)),
        Err(LabelError::Memory) => Err(AllocError),
        Err(_) => Ok(None),
    }
}

/// The mistakes of an open file. A file outside of the folder has none.
pub(crate) fn mistakes_of<F: Repo>(
    desk: &Desk,
    folder: &mut F,
    document: &Document,
) -> Result<Vec<Mistake>, AllocError> {
    let none = Vec::new(desk.alloc);
    let Some(label) = &document.label else {
        return Ok(none);
    };
    let Some(files) = files_for(desk, folder, label, document.text.as_str())? else {
        return Ok(none);
    };
    let Some(file) = files.find(label) else {
        return Ok(none);
    };
    let prelude = match &desk.settings.prelude {
        Some(prelude) => files.find(prelude),
        None => None,
    };
    Sources::new(desk.alloc, &files, prelude, &desk.settings.mode.language).mistakes(file)
}

/// The bytes of a mistake.
pub(crate) fn span_of(mistake: &Mistake) -> Span
    ensures { result ≡ span_of mistake.now }
{
    Span {
        start: mistake.mark.start,
        end: mistake.mark.end,
    }
}

/// The message of a mistake, with its help on a line of its own.
fn message_of(alloc: Global, mistake: &Mistake) -> Result<String, AllocError>
    ensures { IfOk result (λ message. string_bytes message ≡ told_of mistake.now) }
{
    let mut message = String::from_str(alloc, mistake.text.as_str())?;
    match &mistake.help {
        Some(help) => {
            message.push_str("\nhelp: ")?;
            message.push_str(help.as_str())?;
            Ok(message)
        }
        None => Ok(message),
    }
}

/// The diagnostic of a mistake.
pub(crate) fn diagnostic_value(
    alloc: Global,
    document: &Document,
    mistake: &Mistake,
) -> Result<Value, AllocError>
    ensures { IfOk result (λ v. IsDiagnosticOf document.now mistake.now (view v)) }
{
    let range = document.range(alloc, span_of(mistake))?;
    let message = message_of(alloc, mistake)?;
    diagnostic_with(alloc, range, mistake.code, message.as_str())
}

/// The diagnostic of a text that is too long to be read.
fn too_long(alloc: Global, document: &Document) -> Result<Value, AllocError> {
    let range = document.range(alloc, Span { start: 0, end: 0 })?;
    let message = ServeError::TooLong.text();
    json!(in alloc; {"range": range, "severity": ERROR, "source": "starload", "message": message})
}

/// Adds the diagnostic of the last run of an open file, if that was of the texts as they are now.
fn add_of_run<F: Repo>(
    desk: &Desk,
    folder: &mut F,
    document: &Document,
    all: &mut Vec<Value>,
) -> Result<(), AllocError> {
    let (Some(label), Some(ran)) = (&document.label, &document.ran) else {
        return Ok(());
    };
    if !document.is_run {
        return Ok(());
    }
    if let Some(told) = diagnostic_of_run(desk, folder, document, label, ran)? {
        all.push(told)?;
    }
    Ok(())
}

/// The diagnostics of an open file.
fn diagnostics_of<F: Repo>(
    desk: &Desk,
    folder: &mut F,
    document: &Document,
) -> Result<Vec<Value>, AllocError> {
    let mut all = Vec::new(desk.alloc);
    if document.label.is_some() && document.text.as_str().len() > MOST_TEXT {
        all.push(too_long(desk.alloc, document)?)?;
        return Ok(all);
    }
    for mistake in mistakes_of(desk, folder, document)? {
        all.push(diagnostic_value(desk.alloc, document, &mistake)?)?;
    }
    if all.is_empty() {
        add_of_run(desk, folder, document, &mut all)?;
    }
    Ok(all)
}

/// The notification of the diagnostics of an open file, which are of the version that it names.
pub(crate) fn published<F: Repo>(
    desk: &Desk,
    folder: &mut F,
    document: &Document,
) -> Result<Value, AllocError>
    ensures { IfOk result (λ v. IsPublished (string_bytes document.now.uri) document.now.version (view v)) }
{
    let all = diagnostics_of(desk, folder, document)?;
    let diagnostics = Value::Array(all);
    let (uri, version) = (document.uri.as_str(), document.version);
    let params = publication(desk.alloc, uri, version, diagnostics)?;
    notification(desk.alloc, "textDocument/publishDiagnostics", params)
}

/// Adds the notifications of the diagnostics of all open files.
pub(crate) fn add_published<F: Repo>(
    desk: &Desk,
    folder: &mut F,
    sent: &mut Vec<Value>,
) -> Result<(), AllocError> {
    for document in &desk.documents {
        sent.push(published(desk, folder, document)?)?;
    }
    Ok(())
}

/// The notification that a file has no diagnostics any more, since it was closed.
pub(crate) fn withdrawn(alloc: Global, uri: &str) -> Result<Value, AllocError> {
    let params = json!(in alloc; {"uri": uri, "diagnostics": []})?;
    notification(alloc, "textDocument/publishDiagnostics", params)
}
