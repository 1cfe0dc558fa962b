//! What a name means: where it is defined, and what is told of it.

ghost use Rattle.std.specs.Prelude.{◌≡◌, true};
ghost use Rattle.star_label.specs.Label.{is_package};

use crate::desk::Desk;
use crate::document::{Document, Reading};
use serde_json::{Value, json};
use star_editor::function::Function;
use star_editor::index::{Symbol, SymbolKind};
use star_editor::mention::{Mention, Referent, Role, Variable};
use star_editor::navigation::Definition;
use star_frames::place::Position;
use star_label::error::LabelError;
use star_label::label::Label;
use star_lex::token::Span;
use star_mistakes::place::Line;
use star_repo::repo::Repo;
use star_text::Text;
use std::alloc::{AllocError, Global};

/// Through how many files a name is followed.
const MOST_LOADS: usize = 32;

/// How many characters of a statement are shown.
const MOST_SHOWN: usize = 200;

/// A global of a file that is not at hand.
#[derive(Drop)]
pub(crate) struct Far {
    label: Label,
    pub reading: Reading,
    pub variable: Variable,
    span: Span,
}

/// Where a loaded name leads.
#[derive(Drop)]
enum Step {
    Found(Far),
    /// To a name that this file loads, too.
    Further { label: Label, name: Text },
    Nowhere,
}

/// What stands at a place of an open file.
#[derive(Drop)]
enum Meaning {
    /// A variable of this file.
    Here { variable: Variable, span: Span },
    /// A global of another file.
    There(Far),
    /// A file.
    File(Label),
    Nothing,
}

/// The label that a load names in a file of a package: `None` if it is no label.
pub(crate) fn label_of_load(
    alloc: Global,
    package: &str,
    text: &str,
) -> Result<Option<Label>, AllocError>
    requires { is_package «package».now ≡ true }
{
    match Label::read(alloc, text, package) {
        Ok(label) => Ok(Some(label)),
        Err(LabelError::BadLabel) => Ok(None),
        Err(_) => Err(AllocError),
    }
}

/// Where a name of a file leads.
fn next_step<F: Repo>(
    desk: &Desk,
    folder: &mut F,
    label: Label,
    name: &str,
) -> Result<Step, AllocError> {
    let Some(reading) = desk.reading(folder, &label)? else {
        return Ok(Step::Nowhere);
    };
    let Some(variable) = reading.index.global(name) else {
        return Ok(Step::Nowhere);
    };
    let span = match reading.index.definition_of(variable) {
        Some(Definition::Here(span)) => span,
        Some(Definition::Loaded(loaded)) => {
            let next = label_of_load(desk.alloc, label.package(), loaded.label.as_str())?;
            let Some(label) = next else {
                return Ok(Step::Nowhere);
            };
            let name = loaded.name.share()?;
            return Ok(Step::Further { label, name });
        }
        _ => return Ok(Step::Nowhere),
    };
    Ok(Step::Found(Far {
        label,
        reading,
        variable,
        span,
    }))
}

/// Follows a name of a file to the file that defines it.
fn follow<F: Repo>(
    desk: &Desk,
    folder: &mut F,
    label: Label,
    name: Text,
) -> Result<Option<Far>, AllocError> {
    let (mut label, mut name) = (label, name);
    for _ in 0..MOST_LOADS {
        match next_step(desk, folder, label, name.as_str())? {
            Step::Found(far) => return Ok(Some(far)),
            Step::Further {
                label: next_label,
                name: next_name,
            } => {
                label = next_label;
                name = next_name;
            }
            Step::Nowhere => return Ok(None),
        }
    }
    Ok(None)
}

/// Follows a name that a file of a package loads.
fn follow_load<F: Repo>(
    desk: &Desk,
    folder: &mut F,
    package: &str,
    label: &str,
    name: Text,
) -> Result<Option<Far>, AllocError>
    requires { is_package «package».now ≡ true }
{
    match label_of_load(desk.alloc, package, label)? {
        Some(label) => follow(desk, folder, label, name),
        None => Ok(None),
    }
}

/// Follows a name of the prelude.
fn follow_prelude<F: Repo>(
    desk: &Desk,
    folder: &mut F,
    name: &str,
) -> Result<Option<Far>, AllocError> {
    let Some(prelude) = &desk.settings.prelude else {
        return Ok(None);
    };
    let Some(label) = label_of_load(desk.alloc, "", prelude.text())? else {
        return Ok(None);
    };
    follow(desk, folder, label, Text::new(desk.alloc, name)?)
}

/// The variable of a mention.
pub(crate) fn variable_of(mention: Mention) -> Option<Variable> {
    match mention.role {
        Role::Bound { variable, .. } => Some(variable),
        Role::Read(Referent::Variable(variable)) => Some(variable),
        _ => None,
    }
}

/// What a mention of an open file means.
fn meaning_of<F: Repo>(
    desk: &Desk,
    folder: &mut F,
    document: &Document,
    mention: Mention,
) -> Result<Meaning, AllocError> {
    let far = match document.reading.index.definition(mention) {
        Some(Definition::Here(span)) => {
            return match variable_of(mention) {
                Some(variable) => Ok(Meaning::Here { variable, span }),
                None => Ok(Meaning::Nothing),
            };
        }
        Some(Definition::Loaded(loaded)) => {
            let (package, name) = (document.package(), loaded.name.share()?);
            follow_load(desk, folder, package, loaded.label.as_str(), name)?
        }
        Some(Definition::Prelude(name)) => follow_prelude(desk, folder, name)?,
        _ => None,
    };
    match far {
        Some(far) => Ok(Meaning::There(far)),
        None => Ok(Meaning::Nothing),
    }
}

/// What stands at a byte of an open file.
fn meaning_at<F: Repo>(
    desk: &Desk,
    folder: &mut F,
    document: &Document,
    at: usize,
) -> Result<Meaning, AllocError> {
    if let Some(load) = document.reading.index.label_at(at) {
        let label = label_of_load(desk.alloc, document.package(), load.label.as_str())?;
        return match label {
            Some(label) if desk.text(folder, &label)?.is_some() => Ok(Meaning::File(label)),
            _ => Ok(Meaning::Nothing),
        };
    }
    match document.reading.index.mention_at(at) {
        Some(mention) => meaning_of(desk, folder, document, mention),
        None => Ok(Meaning::Nothing),
    }
}

/// A range of a file, by its URI.
pub(crate) fn location(alloc: Global, uri: &str, range: Value) -> Result<Value, AllocError> {
    json!(in alloc; {"uri": uri, "range": range})
}

/// Bytes of what was read of an open file, as a location.
fn location_in(alloc: Global, document: &Document, span: Span) -> Result<Value, AllocError> {
    let range = document.reading.range(alloc, span)?;
    location(alloc, document.uri.as_str(), range)
}

/// The location of the definition of what stands at a position: null if it has none.
pub(crate) fn definition<F: Repo>(
    desk: &Desk,
    folder: &mut F,
    document: &Document,
    position: Position,
) -> Result<Value, AllocError> {
    let at = document.reading.offset(position);
    match meaning_at(desk, folder, document, at)? {
        Meaning::Here { span, .. } => location_in(desk.alloc, document, span),
        Meaning::There(far) => {
            let range = far.reading.range(desk.alloc, far.span)?;
            location(desk.alloc, desk.uri(&far.label)?.as_str(), range)
        }
        Meaning::File(label) => {
            let start = json!(in desk.alloc; {"line": 0u64, "character": 0u64})?;
            let range = json!(in desk.alloc; {"start": &start, "end": &start})?;
            location(desk.alloc, desk.uri(&label)?.as_str(), range)
        }
        Meaning::Nothing => Ok(Value::Null),
    }
}

/// The first characters of a text.
fn front(text: &str) -> &str {
    match text.char_indices().nth(MOST_SHOWN) {
        Some((end, _)) => text.get(..end).unwrap_or(text),
        None => text,
    }
}

/// What is told of a function: its signature and its first string.
fn told_of_function(
    alloc: Global,
    reading: &Reading,
    function: &Function,
) -> Result<String, AllocError> {
    let signature = reading.index.signature(alloc, function)?;
    let description = match &function.description {
        Some(description) => description.as_str(),
        None => "",
    };
    format!(in alloc; "```python\n{signature}\n```\n\n{description}")
}

/// The text of the value of a global of a file, after a run of an open file that reached it and was ok.
fn value_of<'v>(document: &'v Document, label: Option<&Label>, name: &str) -> Option<&'v str> {
    if !document.is_run {
        return None;
    }
    let module = document.ran.as_ref()?.module(label?)?;
    module.get("globals")?.get(name)?.as_str()
}

/// The text of the value of a variable, if it is a global of the file.
fn value_at<'v>(
    document: &'v Document,
    label: Option<&Label>,
    reading: &Reading,
    variable: Variable,
    name: &str,
) -> Option<&'v str> {
    if reading.index.global(name) != Some(variable) {
        return None;
    }
    value_of(document, label, name)
}

/// What is told of a variable that is bound at some bytes: of a function its signature, of another its value after a
/// run, or else the line.
fn told_of(
    alloc: Global,
    reading: &Reading,
    variable: Variable,
    span: Span,
    value: Option<&str>,
) -> Result<String, AllocError> {
    if let Some(function) = reading.index.function(variable) {
        return told_of_function(alloc, reading, function);
    }
    if let Some(value) = value {
        let (name, shown) = (reading.index.written(span), front(value));
        return format!(in alloc; "```python\n{name} = {shown}\n```");
    }
    let line = Line::at(reading.index.text(), span.start);
    let shown = front(line.text.trim());
    format!(in alloc; "```python\n{shown}\n```")
}

/// What is told of what stands at a position: null if nothing is.
pub(crate) fn hover<F: Repo>(
    desk: &Desk,
    folder: &mut F,
    document: &Document,
    position: Position,
) -> Result<Value, AllocError> {
    let at = document.reading.offset(position);
    let Some(mention) = document.reading.index.mention_at(at) else {
        return Ok(Value::Null);
    };
    let told = match meaning_of(desk, folder, document, mention)? {
        Meaning::Here { variable, span } => {
            let (reading, label) = (&document.reading, document.label.as_ref());
            let name = reading.index.written(span);
            let value = value_at(document, label, reading, variable, name);
            told_of(desk.alloc, reading, variable, span, value)?
        }
        Meaning::There(far) => {
            let name = far.reading.index.written(far.span);
            let value = value_of(document, Some(&far.label), name);
            told_of(desk.alloc, &far.reading, far.variable, far.span, value)?
        }
        _ => return Ok(Value::Null),
    };
    let range = document.reading.range(desk.alloc, mention.span)?;
    json!(in desk.alloc; {"contents": {"kind": "markdown", "value": told}, "range": range})
}

/// The function that a name of an open file means at a byte, with what was read of its file if that is another.
pub(crate) fn far_of<F: Repo>(
    desk: &Desk,
    folder: &mut F,
    document: &Document,
    variable: Variable,
) -> Result<Option<Far>, AllocError> {
    match document.reading.index.definition_of(variable) {
        Some(Definition::Loaded(loaded)) => {
            let (package, name) = (document.package(), loaded.name.share()?);
            follow_load(desk, folder, package, loaded.label.as_str(), name)
        }
        _ => Ok(None),
    }
}

/// The kind of a symbol, as the protocol numbers them.
fn kind_of(kind: SymbolKind) -> u64 {
    match kind {
        SymbolKind::Function => 12,
        SymbolKind::Global => 13,
        SymbolKind::Loaded => 20,
    }
}

/// A symbol with those below it.
fn symbol_value(
    alloc: Global,
    reading: &Reading,
    symbol: &Symbol,
    children: Vec<Value>,
) -> Result<Value, AllocError> {
    let name = reading.index.written(symbol.name);
    let kind = kind_of(symbol.kind);
    let (whole, chosen) = (
        reading.range(alloc, symbol.whole)?,
        reading.range(alloc, symbol.name)?,
    );
    let children = Value::Array(children);
    json!(in alloc; {"name": name, "kind": kind, "range": whole, "selectionRange": chosen, "children": children})
}

/// The symbols that wait for the one that they are below, each with its depth, the first one last.
type Waiting = Vec<(usize, Value)>;

/// Takes those that are deeper than a symbol, in their order.
fn children_of(
    alloc: Global,
    waiting: &mut Waiting,
    depth: usize,
) -> Result<Vec<Value>, AllocError> {
    let mut children = Vec::new(alloc);
    while let Some((its, value)) = waiting.pop() {
        if its <= depth {
            waiting.push((its, value))?;
            break;
        }
        children.push(value)?;
    }
    Ok(children)
}

/// The functions, globals and loaded names of an open file, each with those below it.
pub(crate) fn symbols(desk: &Desk, document: &Document) -> Result<Value, AllocError> {
    let mut waiting = Vec::new(desk.alloc);
    for symbol in document.reading.index.symbols().iter().rev() {
        let children = children_of(desk.alloc, &mut waiting, symbol.depth)?;
        let value = symbol_value(desk.alloc, &document.reading, symbol, children)?;
        waiting.push((symbol.depth, value))?;
    }
    let mut all = Vec::new(desk.alloc);
    while let Some((_, value)) = waiting.pop() {
        all.push(value)?;
    }
    Ok(Value::Array(all))
}
