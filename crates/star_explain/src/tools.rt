//! Entries in the forms that tools read: workflow commands of GitHub, and SARIF 2.1.0.
//!
//! (https://docs.github.com/actions/reference/workflows-and-actions/workflow-commands and
//! https://docs.oasis-open.org/sarif/sarif/v2.1.0 say what they mean.)

use crate::entry::Entry;
use crate::pages::{PAGES, Page};
use serde_json::{Value, json};
use star_label::files::Files;
use star_mistakes::message::{Part, push_message};
use star_mistakes::place::{Line, Mark, Naming, push_name, text_of};
use std::alloc::{AllocError, Global};

/// A place as tools count: lines, and columns in characters, from 1. The end is behind the last character.
#[derive(Clone, Copy)]
struct Region {
    line: usize,
    column: usize,
    end_line: usize,
    end_column: usize,
}

impl Region {
    fn of(files: &Files, mark: Mark) -> Region {
        let text = text_of(files, mark.file);
        let first = Line::at(text, mark.start);
        let last = Line::at(text, mark.end);
        Region {
            line: first.number,
            column: first.column(mark.start),
            end_line: last.number,
            end_column: last.column(mark.end),
        }
    }

    /// As properties of a workflow command; the line alone if the place is not certain.
    fn push(self, all: &mut String, is_certain: bool) -> Result<(), AllocError> {
        push_message(all, &[Part::Plain(",line="), Part::Number(self.line)])?;
        if !is_certain {
            return Ok(());
        }
        let columns = [
            Part::Plain(",col="),
            Part::Number(self.column),
            Part::Plain(",endLine="),
            Part::Number(self.end_line),
            Part::Plain(",endColumn="),
            Part::Number(self.end_column),
        ];
        push_message(all, &columns)
    }

    /// As a region of SARIF; the line alone if the place is not certain.
    fn value(self, alloc: Global, is_certain: bool) -> Result<Value, AllocError> {
        let line = self.line as u64;
        if !is_certain {
            return json!(in alloc; {"startLine": line});
        }
        let (column, end_line) = (self.column as u64, self.end_line as u64);
        let end_column = self.end_column as u64;
        json!(in alloc; {"endColumn": end_column, "endLine": end_line, "startColumn": column, "startLine": line})
    }
}

/// The path of the file that an entry is about.
fn path_of(alloc: Global, files: &Files, entry: &Entry) -> Result<String, AllocError> {
    let mut path = String::new(alloc);
    push_name(&mut path, files, entry.mark.file, Naming::Paths)?;
    Ok(path)
}

/// The whole message of an entry: its text, and the lines below the source line.
fn message_of(
    alloc: Global,
    files: &Files,
    entry: &Entry,
    failing: &[usize],
) -> Result<String, AllocError> {
    let mut all = String::from_str(alloc, entry.text.as_str())?;
    all.push('\n')?;
    entry.push_below(&mut all, files, false, failing)?;
    String::from_str(alloc, all.as_str().trim_end())
}

/// A text as the data of a workflow command, or as the value of one of its properties.
fn push_escaped(all: &mut String, text: &str, is_property: bool) -> Result<(), AllocError> {
    for c in text.chars() {
        match c {
            '%' => all.push_str("%25")?,
            '\r' => all.push_str("%0D")?,
            '\n' => all.push_str("%0A")?,
            ':' if is_property => all.push_str("%3A")?,
            ',' if is_property => all.push_str("%2C")?,
            _ => all.push(c)?,
        }
    }
    Ok(())
}

/// An entry as a workflow command of GitHub, on one line.
pub(crate) fn push_command(
    all: &mut String,
    alloc: Global,
    files: &Files,
    entry: &Entry,
    failing: &[usize],
) -> Result<(), AllocError> {
    let path = path_of(alloc, files, entry)?;
    let message = message_of(alloc, files, entry, failing)?;
    all.push_str("::error file=")?;
    push_escaped(all, path.as_str(), true)?;
    Region::of(files, entry.mark).push(all, entry.is_certain)?;
    let title = [
        Part::Plain(",title=starload ["),
        Part::Plain(entry.code),
        Part::Plain("]::"),
    ];
    push_message(all, &title)?;
    push_escaped(all, message.as_str(), false)?;
    all.push('\n')
}

/// An entry as a result of SARIF.
pub(crate) fn result_of(
    alloc: Global,
    files: &Files,
    entry: &Entry,
    failing: &[usize],
) -> Result<Value, AllocError> {
    let (path, text) = (
        path_of(alloc, files, entry)?,
        message_of(alloc, files, entry, failing)?,
    );
    let (uri, text) = (path.as_str(), text.as_str());
    let region = Region::of(files, entry.mark).value(alloc, entry.is_certain)?;
    let place = json!(in alloc; {"artifactLocation": {"uri": uri}, "region": region})?;
    let code = entry.code;
    json!(in alloc; {
        "level": "error", "locations": [{"physicalLocation": place}], "message": {"text": text}, "ruleId": code
    })
}

/// A code as a rule of SARIF.
fn rule_of(alloc: Global, page: Page) -> Result<Value, AllocError> {
    let (code, short, cure) = (page.code, page.short, page.cure);
    json!(in alloc; {"help": {"text": cure}, "id": code, "shortDescription": {"text": short}})
}

/// The codes that entries have, as rules of SARIF.
fn rules_of(alloc: Global, entries: &[Entry]) -> Result<Vec<Value>, AllocError> {
    let mut rules = Vec::new(alloc);
    for page in PAGES.iter() {
        if entries.iter().any(|entry| entry.code == page.code) {
            rules.push(rule_of(alloc, *page)?)?;
        }
    }
    Ok(rules)
}

const SCHEMA: &str = "https://json.schemastore.org/sarif-2.1.0.json";

/// A log of SARIF with these results of entries, on one line.
pub(crate) fn log_of(
    alloc: Global,
    entries: &[Entry],
    results: Vec<Value>,
) -> Result<String, AllocError> {
    let rules = Value::Array(rules_of(alloc, entries)?);
    let results = Value::Array(results);
    let tool = json!(in alloc; {"driver": {"name": "starload", "rules": rules}})?;
    let run =
        json!(in alloc; {"columnKind": "unicodeCodePoints", "results": results, "tool": tool})?;
    let log = json!(in alloc; {"$schema": SCHEMA, "runs": [run], "version": "2.1.0"})?;
    let mut text = log.to_string(alloc)?;
    text.push('\n')?;
    Ok(text)
}
