//! Diagnostics of runs: what the report and the log of a run say of an open file.

use crate::desk::Desk;
use crate::document::Document;
use crate::message::diagnostic_related;
use crate::place::range_value;
use crate::run::Ran;
use serde_json::{Value, json};
use star_frames::place::Places;
use star_label::error::LabelError;
use star_label::label::Label;
use star_lex::token::Span;
use star_mistakes::place::Line;
use star_repo::repo::Repo;
use star_words::words::label_of;
use std::alloc::{AllocError, Global};

/// The words before the place of a call in the message of a finding.
const CALLED: &str = "  called ";

/// A place in a file: a line, and a column in characters if it is known, each from 1.
#[derive(Clone, Copy)]
struct Spot {
    line: usize,
    column: Option<usize>,
}

/// The number of a member of an object.
fn number_of(value: &Value, name: &str) -> Option<usize> {
    usize::try_from(value.get(name)?.as_u64()?).ok()
}

/// The byte of a column of a line, in its text.
fn byte_at(line: Line<'_>, column: usize) -> usize {
    let before = column.saturating_sub(1);
    let in_line = match line.text.char_indices().nth(before) {
        Some((at, _)) => at,
        None => line.text.len(),
    };
    line.start.saturating_add(in_line)
}

/// A whole line, without the blanks at its ends.
fn span_of_line(text: &str, number: usize) -> Span {
    let line = Line::numbered(text, number);
    let blanks = line.text.len().saturating_sub(line.text.trim_start().len());
    let start = line.start.saturating_add(blanks);
    Span {
        start,
        end: start.saturating_add(line.text.trim().len()),
    }
}

/// The bytes of a place: the whole line if only that is known.
fn span_of(text: &str, spot: Spot) -> Span {
    match spot.column {
        Some(column) => {
            let at = byte_at(Line::numbered(text, spot.line), column);
            Span { start: at, end: at }
        }
        None => span_of_line(text, spot.line),
    }
}

/// The bytes of a region of SARIF.
fn span_of_region(text: &str, region: &Value) -> Option<Span> {
    let line = number_of(region, "startLine")?;
    let Some(column) = number_of(region, "startColumn") else {
        return Some(span_of_line(text, line));
    };
    let last = number_of(region, "endLine").unwrap_or(line);
    let end = number_of(region, "endColumn").unwrap_or(column);
    Some(Span {
        start: byte_at(Line::numbered(text, line), column),
        end: byte_at(Line::numbered(text, last), end),
    })
}

/// The label of the file that a finding is about.
fn label_in(alloc: Global, finding: &Value) -> Result<Option<Label>, AllocError> {
    let Some(uri) = finding.pointer("/locations/0/physicalLocation/artifactLocation/uri") else {
        return Ok(None);
    };
    match label_of(alloc, "", uri.as_str().unwrap_or("")) {
        Ok(label) => Ok(label),
        Err(_) => Err(AllocError),
    }
}

/// The whole message of a finding.
fn text_in(finding: &Value) -> &str {
    match finding.pointer("/message/text") {
        Some(text) => text.as_str().unwrap_or(""),
        None => "",
    }
}

/// Whether a line of a message names a call, or files that fail, which other members of a diagnostic tell.
fn is_apart(line: &str) -> bool {
    line.starts_with(CALLED) || line == "  .." || line.contains(" by it: ")
}

/// The message of a finding, without its calls.
fn message_in(alloc: Global, finding: &Value) -> Result<String, AllocError> {
    let mut message = String::new(alloc);
    for line in text_in(finding).split('\n') {
        if is_apart(line) {
            continue;
        }
        if message.as_str() != "" {
            message.push('\n')?;
        }
        message.push_str(line.strip_prefix("  ").unwrap_or(line))?;
    }
    Ok(message)
}

/// The place that a word such as `//lib:a.star:3:9` names: its column may be missing.
fn place_in(alloc: Global, word: &str) -> Result<Option<(Label, Spot)>, AllocError> {
    let Some((front, last)) = word.rsplit_once(':') else {
        return Ok(None);
    };
    let Ok(last) = last.parse::<usize>() else {
        return Ok(None);
    };
    if let Some((label, line)) = front.rsplit_once(':') {
        if let (Some(label), Ok(line)) = (read_label(alloc, label)?, line.parse::<usize>()) {
            let column = Some(last);
            return Ok(Some((label, Spot { line, column })));
        }
    }
    let spot = Spot {
        line: last,
        column: None,
    };
    Ok(read_label(alloc, front)?.map(|label| (label, spot)))
}

/// The label that a text is: `None` if it is none.
pub(crate) fn read_label(alloc: Global, text: &str) -> Result<Option<Label>, AllocError> {
    match Label::read(alloc, text, "") {
        Ok(label) => Ok(Some(label)),
        Err(LabelError::BadLabel) => Ok(None),
        Err(_) => Err(AllocError),
    }
}

/// What else is told of a diagnostic: bytes of a file with a message.
fn related(alloc: Global, uri: &str, range: Value, message: &str) -> Result<Value, AllocError> {
    json!(in alloc; {"location": {"uri": uri, "range": range}, "message": message})
}

/// Adds the calls that a message names, each with its place.
fn add_calls<F: Repo>(
    desk: &Desk,
    folder: &mut F,
    all: &mut Vec<Value>,
    message: &str,
) -> Result<(), AllocError> {
    for line in message.split('\n') {
        if !line.starts_with(CALLED) {
            continue;
        }
        let Some((words, place)) = line.rsplit_once(' ') else {
            continue;
        };
        let Some((label, spot)) = place_in(desk.alloc, place)? else {
            continue;
        };
        let Some(text) = desk.text(folder, &label)? else {
            continue;
        };
        let places = Places::new(desk.alloc, text.as_str(), desk.units)?;
        let span = span_of(text.as_str(), spot);
        let range = range_value(desk.alloc, &places, text.as_str(), span)?;
        all.push(related(desk.alloc, desk.uri(&label)?.as_str(), range, words.trim())?)?;
    }
    Ok(())
}

/// Adds the place of a finding, if it has one.
fn add_place<F: Repo>(
    desk: &Desk,
    folder: &mut F,
    all: &mut Vec<Value>,
    finding: &Value,
) -> Result<(), AllocError> {
    let Some(label) = label_in(desk.alloc, finding)? else {
        return Ok(());
    };
    let Some(text) = desk.text(folder, &label)? else {
        return Ok(());
    };
    let region = finding.pointer("/locations/0/physicalLocation/region");
    let Some(span) = region.and_then(|region| span_of_region(text.as_str(), region)) else {
        return Ok(());
    };
    let places = Places::new(desk.alloc, text.as_str(), desk.units)?;
    let range = range_value(desk.alloc, &places, text.as_str(), span)?;
    let message = message_in(desk.alloc, finding)?;
    all.push(related(
        desk.alloc,
        desk.uri(&label)?.as_str(),
        range,
        message.as_str(),
    )?)?;
    Ok(())
}

/// The bytes of an open file that a finding is about, if it is about this file.
fn span_here(
    alloc: Global,
    document: &Document,
    finding: &Value,
) -> Result<Option<Span>, AllocError> {
    let label = label_in(alloc, finding)?;
    if label.is_none() || label.as_ref() != document.label.as_ref() {
        return Ok(None);
    }
    match finding.pointer("/locations/0/physicalLocation/region") {
        Some(region) => Ok(span_of_region(document.text.as_str(), region)),
        None => Ok(None),
    }
}

/// The diagnostic of an open file whose run stopped.
fn stopped<F: Repo>(
    desk: &Desk,
    folder: &mut F,
    document: &Document,
    line: usize,
    finding: &Value,
) -> Result<Value, AllocError> {
    let mut all = Vec::new(desk.alloc);
    let span = match span_here(desk.alloc, document, finding)? {
        Some(span) => span,
        None => {
            add_place(desk, folder, &mut all, finding)?;
            span_of_line(document.text.as_str(), line)
        }
    };
    add_calls(desk, folder, &mut all, text_in(finding))?;
    let range = document.range(desk.alloc, span)?;
    let message = message_in(desk.alloc, finding)?;
    let code = match finding.get("ruleId") {
        Some(code) => code.as_str().unwrap_or(""),
        None => "",
    };
    diagnostic_related(desk.alloc, range, code, message.as_str(), Value::Array(all))
}

/// Why the load of a module fails: the file at fault, or the files of a cycle of loads.
fn load_message(alloc: Global, module: &Value) -> Result<String, AllocError> {
    if let Some(cause) = module.get("cause") {
        let cause = cause.as_str().unwrap_or("");
        return format!(in alloc; "this load fails: {cause} is at fault");
    }
    let mut message = String::from_str(alloc, "this load leads to a cycle of loads:")?;
    if let Some(Value::Array(labels)) = module.get("cycle") {
        for label in labels {
            message.push(' ')?;
            message.push_str(label.as_str().unwrap_or(""))?;
        }
    }
    Ok(message)
}

/// The diagnostic of an open file that fails by its loads.
fn failed_by_load<F: Repo>(
    desk: &Desk,
    folder: &mut F,
    document: &Document,
    module: &Value,
    line: usize,
    findings: &[Value],
) -> Result<Value, AllocError> {
    let mut all = Vec::new(desk.alloc);
    for finding in findings {
        add_place(desk, folder, &mut all, finding)?;
    }
    let message = load_message(desk.alloc, module)?;
    let range = document.range(desk.alloc, span_of_line(document.text.as_str(), line))?;
    diagnostic_related(
        desk.alloc,
        range,
        "load",
        message.as_str(),
        Value::Array(all),
    )
}

/// The diagnostic of a run that was refused.
fn refused_run(alloc: Global, document: &Document, refusal: &str) -> Result<Value, AllocError> {
    let range = document.range(alloc, Span { start: 0, end: 0 })?;
    let none = Value::Array(Vec::new(alloc));
    diagnostic_related(alloc, range, "run", refusal, none)
}

/// The diagnostic of the last run of an open file: none if it is ok, or its mistakes show without a run.
pub(crate) fn diagnostic_of_run<F: Repo>(
    desk: &Desk,
    folder: &mut F,
    document: &Document,
    label: &Label,
    ran: &Ran,
) -> Result<Option<Value>, AllocError> {
    if let Ran::Refused(refusal) = ran {
        return Ok(Some(refused_run(desk.alloc, document, refusal.as_str())?));
    }
    let Some(module) = ran.module(label) else {
        return Ok(None);
    };
    let line = number_of(module, "line").unwrap_or(1);
    let status = match module.get("status") {
        Some(status) => status.as_str().unwrap_or(""),
        None => "",
    };
    let findings = ran.findings();
    match (status, findings.first()) {
        ("fault", Some(finding)) => Ok(Some(stopped(desk, folder, document, line, finding)?)),
        ("load", _) => {
            let told = failed_by_load(desk, folder, document, module, line, findings)?;
            Ok(Some(told))
        }
        _ => Ok(None),
    }
}
