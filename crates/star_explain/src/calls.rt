//! The texts on faults in calls of built-in functions and of methods.

use crate::built_ins::{Wanted, count, wanted_by};
use crate::texts::{Saying, colon, told_text, with_article};
use crate::words::unquoted;
use star_dialect::Dialect;
use star_found::about::{Shown, Type};
use star_meaning::fault::FaultCode;
use star_mistakes::message::{Part, message, push_message};
use std::alloc::AllocError;

/// What `json.encode` and `json.encode_indent` take, after the name of the function. A recorded call takes the first.
const NO_JSON: &str =
    "` takes None, bools, ints, strings, lists, tuples, structs, and dicts whose keys are strings";

const IN_LINES: &str = "` takes what `json.encode` takes, and strings as `prefix` and `indent`";

/// A call of a built-in function, or of a method: the values that were found, and how many arguments are given.
#[derive(Clone, Copy)]
pub(crate) struct BuiltInCall<'x> {
    pub name: &'x str,
    pub receiver: Option<&'x Shown>,
    pub first: Option<&'x Shown>,
    pub second: Option<&'x Shown>,
    pub given: usize,
}

/// The type of a value, if there is one.
fn type_of(value: Option<&Shown>) -> Option<Type> {
    match value {
        Some(value) => Some(value.of),
        None => None,
    }
}

/// The value, if it is not of the kind that is needed.
fn unmet<'v>(wanted: Wanted, value: Option<&'v Shown>) -> Option<&'v Shown> {
    match value {
        Some(value) if !wanted.is_met(value.of) => Some(value),
        _ => None,
    }
}

/// Whether a dialect is the extended one.
pub(crate) fn has_further(dialect: Dialect) -> bool {
    match dialect {
        Dialect::Core => false,
        Dialect::Extended => true,
    }
}

impl<'a> Saying<'a> {
    /// The text on an argument that a built-in function does not take.
    fn argument<'x>(
        self,
        name: &'x str,
        wanted: Wanted,
        value: &'x Shown,
    ) -> Result<Option<String>, AllocError> {
        self.text_of(&[
            Part::Plain("`"),
            Part::Plain(name),
            Part::Plain("` takes "),
            Part::Plain(wanted.text()),
            Part::Plain(", not "),
            Part::Plain(with_article(value)),
            Part::Plain(colon(value)),
            Part::Shown(told_text(value)),
        ])
    }

    /// A built-in function, a text, and after a colon the text of a value.
    fn of_built_in<'x>(
        self,
        name: &'x str,
        text: &'x str,
        value: Option<&'x Shown>,
    ) -> Result<Option<String>, AllocError> {
        let front = [Part::Plain("`"), Part::Plain(name), Part::Plain(text)];
        let mut all = message(self.alloc, &front)?;
        if let Some(value) = value {
            let told = [Part::Plain(colon(value)), Part::Shown(told_text(value))];
            push_message(&mut all, &told)?;
        }
        Ok(Some(all))
    }

    /// A wrong type in a call of a built-in function or of a method.
    fn built_in_type(self, call: BuiltInCall) -> Result<Option<String>, AllocError> {
        let has_base = has_further(self.dialect) && call.given > 1;
        let (one, two) = wanted_by(call.name, type_of(call.receiver), has_base);
        if let Some(value) = unmet(one, call.first) {
            return self.argument(call.name, one, value);
        }
        if let Some(value) = unmet(two, call.second) {
            return self.argument(call.name, two, value);
        }
        if call.first.is_none() {
            return Ok(None);
        }
        if let ("getattr", Some(value), Some(name)) = (call.name, call.first, call.second) {
            return self.no_attribute(unquoted(name.text.as_str()), value);
        }
        let text = match call.name {
            "join" => "` takes strings alone",
            "dict" | "update" => "` takes a dict, or an iterable of pairs",
            "sorted" => self.ordered_items(),
            "json.encode" => NO_JSON,
            "json.encode_indent" => IN_LINES,
            "max" | "min" => return self.ordered(call),
            "print" | "fail" => {
                return match call.first {
                    Some(first) => {
                        self.before_typed("`", call.name, "` takes a string as `sep`, not ", first)
                    }
                    None => Ok(None),
                };
            }
            _ => "` does not take this",
        };
        self.of_built_in(call.name, text, call.first)
    }

    /// What `sorted`, `max` and `min` take.
    fn ordered_items(self) -> &'static str {
        match self.dialect {
            Dialect::Core => "` takes ints alone or strings alone",
            Dialect::Extended => "` takes items that have an order, and as `key` a function",
        }
    }

    /// The values that have no order, in a call of `max` or `min`.
    fn ordered(self, call: BuiltInCall) -> Result<Option<String>, AllocError> {
        let text = self.ordered_items();
        let (Some(first), Some(second)) = (call.first, call.second) else {
            return self.of_built_in(call.name, text, call.first);
        };
        self.text_of(&[
            Part::Plain("`"),
            Part::Plain(call.name),
            Part::Plain(text),
            Part::Plain(": "),
            Part::Shown(told_text(first)),
            Part::Plain(", "),
            Part::Shown(told_text(second)),
        ])
    }

    /// A text, and after a colon the text of a value if there is one.
    fn with_first(self, text: &str, first: Option<&Shown>) -> Result<Option<String>, AllocError> {
        match first {
            Some(first) => self.with_value(text, first),
            None => self.text_of(&[Part::Plain(text)]),
        }
    }

    /// A value in a call of a built-in function or of a method that does not suit.
    fn built_in_value(self, call: BuiltInCall) -> Result<Option<String>, AllocError> {
        let first = call.first;
        match call.name {
            "int" => self.with_first("`int` reads no number here", first),
            "ord" => self.with_first("`ord` takes a string of one character", first),
            "chr" => self.with_first("no character has this number", first),
            "json.decode" => self.with_first(
                "`json.decode` takes JSON whose numbers are ints",
                first,
            ),
            "range" => self.with_first("the step of a `range` cannot be 0", None),
            "max" | "min" => self.of_built_in(call.name, "` of nothing", first),
            "index" | "remove" => self.with_first("no item of the list is equal", first),
            "split" => self.with_first("`split` by an empty string", None),
            "replace" => self.with_first("`replace` of an empty string", None),
            "dict" | "update" => self.with_first("each item has to be a pair", first),
            "format" if call.receiver.is_some() => {
                self.with_first("a field of the format is wrong", call.receiver)
            }
            _ => Ok(None),
        }
    }

    /// A place or a key in a call of a method that is not there.
    fn built_in_lack(
        self,
        name: &str,
        receiver: &Shown,
        first: Option<&Shown>,
    ) -> Result<Option<String>, AllocError> {
        match (name, first) {
            ("format", _) => self.with_value("a field of the format gets no value", receiver),
            ("pop", Some(first)) if receiver.of == Type::Dict => self.with_value(
                "no such key",
                first,
            ),
            ("remove", Some(first)) if receiver.of == Type::Set => self.with_value(
                "no such element of the set",
                first,
            ),
            ("pop", Some(first)) => self.text_of(&[
                Part::Plain("no item to pop at "),
                Part::Shown(first.text.as_str()),
            ]),
            (_, None) => self.text_of(&[
                Part::Plain("`"),
                Part::Plain(name),
                Part::Plain("` of an empty "),
                Part::Plain(receiver.type_name()),
            ]),
            _ => Ok(None),
        }
    }

    /// A wrong number of arguments in a call of a built-in function, or of a method.
    fn built_in_count(self, call: BuiltInCall) -> Result<Option<String>, AllocError> {
        let count = count(self.dialect, call.name, type_of(call.receiver));
        self.text_of(&[
            Part::Plain("`"),
            Part::Plain(call.name),
            Part::Plain("` takes "),
            Part::Plain(count),
            Part::Plain(", and is given "),
            Part::Number(call.given),
        ])
    }

    /// A call of a function whose calls are recorded, with a value that has no JSON.
    fn recorded(self, call: BuiltInCall) -> Result<Option<String>, AllocError> {
        let value = if call.given == 1 { call.first } else { None };
        match self.code {
            FaultCode::BadType => self.of_built_in(call.name, NO_JSON, value),
            _ => Ok(None),
        }
    }

    /// A call of a built-in function, or of a method.
    pub(crate) fn built_in(self, call: BuiltInCall) -> Result<Option<String>, AllocError> {
        match (self.code, call.receiver, call.first) {
            (_, Some(receiver), _) if receiver.of == Type::BuiltIn => self.recorded(call),
            (FaultCode::Args, _, _) => self.built_in_count(call),
            (FaultCode::BadType, _, _) => self.built_in_type(call),
            (FaultCode::BadValue, _, _) => self.built_in_value(call),
            (FaultCode::Overflow, _, Some(first)) => self.with_value(
                "an int outside of 64 bits",
                first,
            ),
            (FaultCode::Overflow, _, None) => Ok(None),
            (FaultCode::Index | FaultCode::Key, Some(receiver), _) => {
                self.built_in_lack(call.name, receiver, call.first)
            }
            (FaultCode::Key, None, Some(first)) if call.name == "json.decode" => {
                self.with_value("a name comes twice in an object of the JSON", first)
            }
            (FaultCode::Index | FaultCode::Key, None, _) => Ok(None),
            (_, Some(receiver), _) => self.written(receiver),
            _ => Ok(None),
        }
    }
}
