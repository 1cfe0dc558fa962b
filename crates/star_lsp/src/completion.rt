//! What may be written at a place: names, labels and loaded names; and the signature of a call that is being written.

ghost use Rattle.std.specs.Prelude.{◌≡◌, true};
ghost use Rattle.star_label.specs.Label.{is_package};

use crate::calls::{BuiltIn, built_in_names, built_in_of, function_named, lines};
use crate::desk::Desk;
use crate::document::{Document, Reading};
use crate::navigation::far_of;
use serde_json::{Value, json};
use star_editor::context::{Context, Literal, call_at, context_at};
use star_editor::index::SymbolKind;
use star_editor::mention::Variable;
use star_editor::names::NameKind;
use star_folder::folder::{FolderError, Kind};
use star_frames::place::Position;
use star_label::error::LabelError;
use star_label::label::Label;
use star_lex::token::Span;
use star_repo::repo::Repo;
use star_words::pattern::Listing;
use std::alloc::{AllocError, Global};

/// Kinds of what may be written, as the protocol numbers them.
const METHOD: u64 = 2;

const FUNCTION: u64 = 3;

const VARIABLE: u64 = 6;

const FILE: u64 = 17;

const REFERENCE: u64 = 18;

const FOLDER: u64 = 19;

/// What may be written in place of some bytes of an open file.
#[derive(Drop)]
struct Choices<'a> {
    alloc: Global,
    document: &'a Document,
    span: Span,
    all: Vec<Value>,
}

impl<'a> Choices<'a> {
    fn new(alloc: Global, document: &'a Document, span: Span) -> Choices<'a> {
        Choices {
            alloc,
            document,
            span,
            all: Vec::new(alloc),
        }
    }

    /// Adds a text of a kind.
    fn add(&mut self, text: &str, kind: u64) -> Result<(), AllocError> {
        let range = self.document.range(self.alloc, self.span)?;
        let edit = json!(in self.alloc; {"range": range, "newText": text})?;
        let item = json!(in self.alloc; {"label": text, "kind": kind, "textEdit": edit})?;
        self.all.push(item)?;
        Ok(())
    }

    /// Adds a built-in function or a method, with its arguments and what it does.
    fn add_built_in(&mut self, it: BuiltIn, kind: u64) -> Result<(), AllocError> {
        let range = self.document.range(self.alloc, self.span)?;
        let (name, call, does) = (it.name, it.call, it.does);
        let edit = json!(in self.alloc; {"range": range, "newText": name})?;
        let item = json!(in self.alloc; {
            "label": name, "kind": kind, "detail": call, "documentation": does, "textEdit": edit
        })?;
        self.all.push(item)?;
        Ok(())
    }
}

/// Whether a method is one of what stands before a dot: of a literal by its type, of `json`, or of anything.
fn is_of(owner: &str, of: Option<Literal>, before: &str) -> bool {
    match of {
        Some(Literal::Text) => owner == "string",
        Some(Literal::Dict) => owner == "dict",
        None if before.ends_with("json.") => owner == "json",
        None => owner != "" && owner != "json",
    }
}

/// Adds the methods of what stands before a dot.
fn add_methods(
    desk: &Desk,
    choices: &mut Choices<'_>,
    of: Option<Literal>,
) -> Result<(), AllocError> {
    let document = choices.document;
    let before = document
        .text
        .as_str()
        .get(..choices.span.start)
        .unwrap_or("");
    for line in lines() {
        match built_in_of(line, desk.settings.mode.language.dialect) {
            Some(it) if is_of(it.owner, of, before) => choices.add_built_in(it, METHOD)?,
            _ => {}
        }
    }
    Ok(())
}

/// The kind of a name.
fn kind_of(kind: NameKind) -> u64 {
    match kind {
        NameKind::Function | NameKind::BuiltIn => FUNCTION,
        NameKind::Parameter | NameKind::Variable => VARIABLE,
        NameKind::Loaded | NameKind::Prelude => REFERENCE,
    }
}

/// Adds the names that can be read at a byte.
fn add_names<F: Repo>(
    desk: &Desk,
    folder: &mut F,
    choices: &mut Choices<'_>,
    at: usize,
) -> Result<(), AllocError> {
    let document = choices.document;
    let prelude = desk.prelude(folder, document.label.as_ref())?;
    let index = &document.reading.index;
    let dialect = desk.settings.mode.language.dialect;
    let built_in = built_in_names(desk.alloc, dialect)?;
    for known in index.names_at(desk.alloc, at, prelude.as_ref(), built_in.as_slice())? {
        match function_named(known.name, dialect) {
            Some(it) if known.kind == NameKind::BuiltIn => choices.add_built_in(it, FUNCTION)?,
            _ => choices.add(known.name, kind_of(known.kind))?,
        }
    }
    Ok(())
}

/// Adds the globals that can be loaded from the file of a label.
fn add_globals<F: Repo>(
    desk: &Desk,
    folder: &mut F,
    choices: &mut Choices<'_>,
    label: &str,
) -> Result<(), AllocError> {
    let label = match Label::read(desk.alloc, label, choices.document.package()) {
        Ok(label) => label,
        Err(LabelError::BadLabel) => return Ok(()),
        Err(_) => return Err(AllocError),
    };
    let Some(reading) = desk.reading(folder, &label)? else {
        return Ok(());
    };
    for symbol in reading.index.symbols() {
        let name = reading.index.written(symbol.name);
        if symbol.depth > 0 || name.starts_with('_') {
            continue;
        }
        match symbol.kind {
            SymbolKind::Function => choices.add(name, FUNCTION)?,
            SymbolKind::Global => choices.add(name, VARIABLE)?,
            SymbolKind::Loaded => {}
        }
    }
    Ok(())
}

/// The front of the labels of a package: `:`, or `//PACKAGE:`.
fn front_of(alloc: Global, package: &str, is_own: bool) -> Result<String, AllocError> {
    if is_own {
        String::from_str(alloc, ":")
    } else {
        format!(in alloc; "//{package}:")
    }
}

/// Adds the labels of the files of a package, and if `deeper`, the folders below it.
fn add_entries<F: Listing>(
    folder: &mut F,
    choices: &mut Choices<'_>,
    package: &str,
    is_own: bool,
    deeper: bool,
) -> Result<(), AllocError> {
    let front = front_of(choices.alloc, package, is_own)?;
    let entries = match folder.entries(choices.alloc, package) {
        Ok(entries) => entries,
        Err(FolderError::Memory) => return Err(AllocError),
        Err(FolderError::Failed) => return Ok(()),
    };
    for (name, kind) in &entries {
        if name.starts_with('.') {
            continue;
        }
        match kind {
            Kind::Folder if deeper && package == "" => {
                choices.add(format!(in choices.alloc; "//{name}")?.as_str(), FOLDER)?;
            }
            Kind::Folder if deeper => {
                choices.add(
                    format!(in choices.alloc; "//{package}/{name}")?.as_str(),
                    FOLDER,
                )?;
            }
            Kind::Folder => {}
            _ => choices.add(format!(in choices.alloc; "{front}{name}")?.as_str(), FILE)?,
        }
    }
    Ok(())
}

/// Adds the labels that go on with what is written: `//folder/` names a folder, `//folder:` its files, anything else the
/// files beside this one.
fn add_labels<F: Listing>(
    folder: &mut F,
    choices: &mut Choices<'_>,
    written: &str,
) -> Result<(), AllocError> {
    let Some(path) = written.strip_prefix("//") else {
        let package = choices.document.package();
        return add_entries(folder, choices, package, true, written == "");
    };
    if let Some((package, _)) = path.split_once(':') {
        return add_entries(folder, choices, package, false, false);
    }
    let package = match path.rsplit_once('/') {
        Some((package, _)) => package,
        None => "",
    };
    add_entries(folder, choices, package, false, true)
}

/// What may be written at a position.
pub(crate) fn completion<F: Repo + Listing>(
    desk: &Desk,
    folder: &mut F,
    document: &Document,
    position: Position,
) -> Result<Value, AllocError> {
    let at = document.offset(position);
    let text = document.text.as_str();
    let choices = match context_at(desk.alloc, text, at)? {
        Context::Name { prefix } => {
            let mut choices = Choices::new(desk.alloc, document, prefix);
            add_names(
                desk,
                folder,
                &mut choices,
                document.reading.offset(position),
            )?;
            choices
        }
        Context::Label { prefix } => {
            let mut choices = Choices::new(desk.alloc, document, prefix);
            let written = text.get(prefix.start..prefix.end).unwrap_or("");
            add_labels(folder, &mut choices, written)?;
            choices
        }
        Context::Attribute { of, prefix } => {
            let mut choices = Choices::new(desk.alloc, document, prefix);
            add_methods(desk, &mut choices, of)?;
            choices
        }
        Context::LoadedName { label, prefix } => {
            let mut choices = Choices::new(desk.alloc, document, prefix);
            add_globals(desk, folder, &mut choices, label.as_str())?;
            choices
        }
        Context::Nothing => return Ok(Value::Array(Vec::new(desk.alloc))),
    };
    Ok(Value::Array(choices.all))
}

/// The parameters that a signature names, each as it is written there.
fn parameters_of(alloc: Global, signature: &str) -> Result<Vec<Value>, AllocError> {
    let mut parameters = Vec::new(alloc);
    let inner = match (signature.find('('), signature.rfind(')')) {
        (Some(start), Some(end)) => signature.get(start.saturating_add(1)..end).unwrap_or(""),
        _ => "",
    };
    let (mut depth, mut from) = (0usize, 0usize);
    for (at, c) in inner.char_indices() {
        match c {
            '(' | '[' | '{' => depth = depth.saturating_add(1),
            ')' | ']' | '}' => depth = depth.saturating_sub(1),
            ',' if depth == 0 => {
                let name = inner.get(from..at).unwrap_or("").trim();
                parameters.push(json!(in alloc; {"label": name})?)?;
                from = at.saturating_add(1);
            }
            _ => {}
        }
    }
    let last = inner.get(from..).unwrap_or("").trim();
    if last != "" {
        parameters.push(json!(in alloc; {"label": last})?)?;
    }
    Ok(parameters)
}

/// The signature of a function that a variable is, if it is one, with the argument that is being written.
fn signature_value(
    alloc: Global,
    reading: &Reading,
    variable: Variable,
    argument: usize,
) -> Result<Value, AllocError> {
    let Some(function) = reading.index.function(variable) else {
        return Ok(Value::Null);
    };
    let label = reading.index.signature(alloc, function)?;
    let parameters = Value::Array(parameters_of(alloc, label.as_str())?);
    let description = match &function.description {
        Some(description) => description.as_str(),
        None => "",
    };
    json!(in alloc; {
        "signatures": [{"label": label, "documentation": description, "parameters": parameters}],
        "activeSignature": 0u64,
        "activeParameter": argument as u64
    })
}

/// The signature of the function that is called at a position: null if none is, or it is not known.
pub(crate) fn signature<F: Repo>(
    desk: &Desk,
    folder: &mut F,
    document: &Document,
    position: Position,
) -> Result<Value, AllocError> {
    let text = document.text.as_str();
    let Some(call) = call_at(desk.alloc, text, document.offset(position))? else {
        return Ok(Value::Null);
    };
    if call.is_attribute {
        return Ok(Value::Null);
    }
    let name = text.get(call.callee.start..call.callee.end).unwrap_or("");
    let at = document.reading.offset(position);
    let Some(variable) = document.reading.index.variable_at(desk.alloc, name, at)? else {
        return Ok(Value::Null);
    };
    match far_of(desk, folder, document, variable)? {
        Some(far) => signature_value(desk.alloc, &far.reading, far.variable, call.argument),
        None => signature_value(desk.alloc, &document.reading, variable, call.argument),
    }
}
