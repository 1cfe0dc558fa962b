//! The texts of values for a person.

use crate::look::Look;
use star_found::about::{Shown, Type};
use star_machine::content::{Content, Kind};
use star_machine::fault::EvalError;
use star_store::names::BuiltIn;
use star_store::values::{Cell, Value};
use star_text::Text;
use std::alloc::{AllocError, Global};

/// The number of characters of a text that are kept.
const WIDTH: usize = 60;

/// The number of bytes of a text that are looked at: more than so many characters have.
const MOST_BYTES: usize = 256;

/// A value with more items than this gets the empty text.
const MOST_ITEMS: usize = 1_000;

/// A value nested deeper than this gets the empty text.
const LEVELS: u32 = 60;

/// The first characters of a text.
fn cut(alloc: Global, text: &str) -> Result<Text, AllocError> {
    match text.char_indices().nth(WIDTH) {
        Some((end, _)) => {
            let front = text.get(..end).unwrap_or("");
            Text::of(format!(in alloc; "{front}..")?)
        }
        None => Text::new(alloc, text),
    }
}

/// The type of a value of a kind.
pub(crate) fn type_of(kind: Kind) -> Type {
    match kind {
        Kind::Nothing => Type::Nothing,
        Kind::Truth(_) => Type::Bool,
        Kind::Number(_) => Type::Int,
        Kind::BuiltInFunction(function) if !function.is_function() => Type::Module,
        Kind::BuiltInFunction(_) | Kind::Method(..) => Type::BuiltIn,
        Kind::Text => Type::Text,
        Kind::Range(_) => Type::Range,
        Kind::Tuple => Type::Tuple,
        Kind::List => Type::List,
        Kind::Dict => Type::Dict,
        Kind::Function => Type::Function,
        Kind::Struct => Type::Struct,
        Kind::Set => Type::Set,
        Kind::Frame | Kind::Nowhere => Type::Other,
    }
}

impl<'w, 'a, 't> Look<'w, 'a, 't> {
    /// The kind of a value.
    pub(crate) fn kind(&self, value: Value) -> Kind {
        self.machine.kind(self.world.setting(), value)
    }

    /// The number of items of a value, or of bytes of a string.
    pub(crate) fn size(&self, value: Value) -> usize {
        match self.kind(value) {
            Kind::Text => self.machine.text_size(self.world.setting(), value),
            _ => self.machine.size(self.world.setting(), value),
        }
    }

    /// The name of a function that a program has defined; empty for another value.
    pub(crate) fn function_name(&self, value: Value) -> Result<Text, AllocError> {
        match self.machine.content(self.world.setting(), value) {
            Content::Held(Cell::Func(function)) => cut(self.alloc, function.get().name.as_str()),
            _ => Text::new(self.alloc, ""),
        }
    }

    /// The name of a built-in function.
    fn built_in_name(&self, function: BuiltIn) -> Result<Text, AllocError> {
        let names = self.world.setting().language().recorded.names();
        Text::new(self.alloc, function.name_among(names))
    }

    /// The start of the `repr` of a value; empty if the value is too large or too deep.
    fn text(&mut self, value: Value) -> Result<Text, AllocError> {
        let setting = self.world.setting();
        if self.machine.size(setting, value) > MOST_ITEMS {
            return Text::new(self.alloc, "");
        }
        let line = self.fault.line;
        match self.machine.repr(setting, LEVELS, line, value, MOST_BYTES) {
            Ok(text) => cut(self.alloc, text.start(MOST_BYTES)?.as_str()),
            Err(EvalError::Memory) => Err(AllocError),
            Err(_) => Text::new(self.alloc, ""),
        }
    }

    /// A value in its form for a person: a function has its name as its text.
    pub(crate) fn shown(&mut self, value: Value) -> Result<Shown, AllocError> {
        let kind = self.kind(value);
        let text = match kind {
            Kind::Function => self.function_name(value)?,
            Kind::BuiltInFunction(function) => self.built_in_name(function)?,
            Kind::Method(method, _) => Text::new(self.alloc, method.name())?,
            _ => self.text(value)?,
        };
        Ok(Shown {
            of: type_of(kind),
            text,
        })
    }

    /// A value in its form for a person, if there is a value.
    pub(crate) fn maybe_shown(
        &mut self,
        value: Option<Value>,
    ) -> Result<Option<Shown>, AllocError> {
        match value {
            Some(value) => Ok(Some(self.shown(value)?)),
            None => Ok(None),
        }
    }
}
