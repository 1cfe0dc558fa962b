//! Finds the field of a format that does not take its value, or gets none.

use crate::fits::Arguments;
use crate::look::{Look, found_at};
use star_dialect::Dialect;
use star_found::about::{About, Found};
use star_machine::content::Kind;
use star_meaning::fault::FaultCode;
use star_store::values::Value;
use star_strings::characters::{char_of, only_char};
use star_text::Text;
use std::alloc::{AllocError, Global};

/// What a letter after a `%` is for.
#[derive(Clone, Copy)]
enum Letter {
    /// Another `%`.
    Sign,
    Any,
    Int,
    /// A string of one character, or the number of one.
    Character,
    Unknown,
}

impl Letter {
    fn of(dialect: Dialect, letter: char) -> Letter {
        match (letter, dialect) {
            ('%', _) => Letter::Sign,
            ('s' | 'r', _) => Letter::Any,
            ('d', _) => Letter::Int,
            ('x' | 'X' | 'o', Dialect::Extended) => Letter::Int,
            ('c', Dialect::Extended) => Letter::Character,
            _ => Letter::Unknown,
        }
    }
}

/// A format after a `%`.
#[derive(Clone, Copy)]
struct Format<'x> {
    /// All of it, from the `%` on.
    text: &'x str,
    /// The name in parentheses.
    name: Option<&'x str>,
    letter: Letter,
}

/// A place in a format: outside of formats, or in one that begins at a byte.
#[derive(Clone, Copy)]
enum Reading {
    Outside,
    Sign(usize),
    Name(usize),
    /// After the name, which ends at the second byte.
    Named(usize, usize),
}

/// The bytes of a text from one place to another.
fn between(text: &str, start: usize, end: usize) -> &str {
    text.get(start..end).unwrap_or("")
}

/// Whether a name begins after a `%`.
fn opens(dialect: Dialect, letter: char) -> bool {
    match dialect {
        Dialect::Core => false,
        Dialect::Extended => letter == '(',
    }
}

/// The formats after the signs `%` of a string, in order.
fn formats_of<'x>(
    alloc: Global,
    dialect: Dialect,
    text: &'x str,
) -> Result<Vec<Format<'x>>, AllocError> {
    let mut formats = Vec::new(alloc);
    let mut reading = Reading::Outside;
    for (at, c) in text.char_indices() {
        let end = at.saturating_add(c.len_utf8());
        reading = match reading {
            Reading::Outside if c == '%' => Reading::Sign(at),
            Reading::Sign(start) if opens(dialect, c) => Reading::Name(start),
            Reading::Name(start) if c == ')' => Reading::Named(start, at),
            Reading::Outside | Reading::Name(_) => reading,
            Reading::Sign(start) => {
                formats.push(Format {
                    text: between(text, start, end),
                    name: None,
                    letter: Letter::of(dialect, c),
                })?;
                Reading::Outside
            }
            Reading::Named(start, close) => {
                formats.push(Format {
                    text: between(text, start, end),
                    name: Some(between(text, start.saturating_add(2), close)),
                    letter: Letter::of(dialect, c),
                })?;
                Reading::Outside
            }
        };
    }
    if let Reading::Name(start) | Reading::Named(start, _) = reading {
        formats.push(Format {
            text: between(text, start, text.len()),
            name: None,
            letter: Letter::Unknown,
        })?;
    }
    Ok(formats)
}

/// A field of `format` without its conversion.
fn unconverted(dialect: Dialect, field: &str) -> &str {
    match dialect {
        Dialect::Core => field,
        Dialect::Extended => match field.len().checked_sub(2) {
            Some(end) if field.ends_with("!r") || field.ends_with("!s") => between(field, 0, end),
            _ => field,
        },
    }
}

/// The fields of a format for `format`, without their braces, in order.
fn fields_of<'x>(alloc: Global, format: &'x str) -> Result<Vec<&'x str>, AllocError> {
    let mut fields = Vec::new(alloc);
    let mut open = None;
    for (at, c) in format.char_indices() {
        match (c, open) {
            ('{', Some(_)) => open = None,
            ('{', None) => open = Some(at.saturating_add(1)),
            ('}', Some(start)) => {
                fields.push(format.get(start..at).unwrap_or(""))?;
                open = None;
            }
            _ => {}
        }
    }
    Ok(fields)
}

impl<'w, 'a, 't> Look<'w, 'a, 't> {
    /// The text of a string; `None` of another value.
    fn string(&self, value: Option<Value>) -> Result<Option<Text>, AllocError> {
        match value {
            Some(value) if matches!(self.kind(value), Kind::Text) => {
                Ok(Some(self.machine.copied_text(self.world.setting(), value)?))
            }
            _ => Ok(None),
        }
    }

    /// The n-th of the values that are put into a format: a tuple's items, else the one value.
    fn put_in(&self, values: Value, n: usize) -> Option<Value> {
        match self.kind(values) {
            Kind::Tuple => self.machine.item(self.world.setting(), values, n),
            _ if n == 0 => Some(values),
            _ => None,
        }
    }

    /// A format that gets no value, or does not take the one that it gets.
    fn misfit(&mut self, format: &str, value: Option<Value>) -> Result<Option<Found>, AllocError> {
        let field = Text::new(self.alloc, format)?;
        let value = self.maybe_shown(value)?;
        self.found(&[], About::Field { field, value })
    }

    /// Whether a value is a character: a string of one, or the number of one.
    fn is_character(&self, value: Value) -> Result<bool, AllocError> {
        match self.machine.int_of(self.world.setting(), value) {
            Some(int) => Ok(char_of(int).is_some()),
            None => match self.string(Some(value))? {
                Some(text) => Ok(only_char(text.as_str()).is_some()),
                None => Ok(false),
            },
        }
    }

    /// Whether a value suits a letter.
    fn suits(&self, letter: Letter, value: Value) -> Result<bool, AllocError> {
        match letter {
            Letter::Int => Ok(matches!(self.kind(value), Kind::Number(_))),
            Letter::Character => self.is_character(value),
            _ => Ok(true),
        }
    }

    /// The value that a format takes: the one under its name, or the n-th of those that are put in.
    fn taken(
        &self,
        format: Format<'_>,
        values: Value,
        n: usize,
    ) -> Result<Option<Value>, AllocError> {
        match format.name {
            Some(name) => {
                let name = Text::new(self.alloc, name)?;
                Ok(self.machine.text_value(self.world.setting(), values, &name))
            }
            None => Ok(self.put_in(values, n)),
        }
    }

    /// A format that is at fault: it is not known, gets no value, or does not take its value.
    fn format(
        &mut self,
        format: Format<'_>,
        values: Value,
        n: usize,
    ) -> Result<Option<Found>, AllocError> {
        let is_known = match (format.letter, format.name) {
            (Letter::Unknown, _) | (Letter::Sign, Some(_)) => false,
            (Letter::Sign, None) => return Ok(None),
            _ => true,
        };
        if !is_known {
            return self.misfit(format.text, None);
        }
        if let (Some(name), false) = (format.name, matches!(self.kind(values), Kind::Dict)) {
            let field = format!(in self.alloc; "%({name})")?;
            return self.misfit(field.as_str(), Some(values));
        }
        let Some(value) = self.taken(format, values, n)? else {
            return self.misfit(format.text, None);
        };
        if self.suits(format.letter, value)? {
            return Ok(None);
        }
        self.misfit(format.text, Some(value))
    }

    /// `format % values`: the first format that gets no value, is not known, or does not take its value; `None` if there
    /// is none, or the operands are others.
    pub(crate) fn letters(
        &mut self,
        format: Option<Value>,
        values: Option<Value>,
    ) -> Result<Option<Found>, AllocError> {
        let (Some(text), Some(values)) = (self.string(format)?, values) else {
            return Ok(None);
        };
        let dialect = self.world.setting().dialect();
        let mut next: usize = 0;
        for format in formats_of(self.alloc, dialect, text.as_str())? {
            if let Some(found) = self.format(format, values, next)? {
                return Ok(Some(found));
            }
            next = match (format.name, format.letter) {
                (Some(_), _) => usize::MAX,
                (None, Letter::Sign) => next,
                (None, _) => next.saturating_add(1),
            };
        }
        Ok(None)
    }

    /// The first field of a format for `format` that gets no value.
    pub(crate) fn field_of_format(
        &mut self,
        word: Option<usize>,
        format: Option<Value>,
        given: &Arguments,
    ) -> Result<Option<Found>, AllocError> {
        let is_lack = matches!(self.fault.code, FaultCode::Key | FaultCode::Index);
        let (Some(format), true) = (self.string(format)?, is_lack) else {
            return Ok(None);
        };
        let mut next: usize = 0;
        let dialect = self.world.setting().dialect();
        for field in fields_of(self.alloc, format.as_str())? {
            let name = unconverted(dialect, field);
            let is_given = if name.is_empty() {
                next = next.saturating_add(1);
                next <= given.plain.len()
            } else {
                match name.parse::<usize>() {
                    Ok(number) => number < given.plain.len(),
                    Err(_) => given.named(name).is_some(),
                }
            };
            if !is_given {
                let (open, close) = ("{", "}");
                let about = About::Field {
                    field: Text::of(format!(in self.alloc; "{open}{field}{close}")?)?,
                    value: None,
                };
                return Ok(Some(found_at(self.alloc, self.place_of(word)?, about)));
            }
        }
        Ok(None)
    }
}
