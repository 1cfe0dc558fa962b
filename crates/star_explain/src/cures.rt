//! The cures: what to write instead, where it is known what a fault is about.

use crate::built_ins::{is_extended, methods};
use crate::fields::{CONVERSIONS, has_conversion, is_unknown, of_format};
use crate::instead::{of_arguments, of_method};
use crate::texts::Saying;
use crate::words::unquoted;
use star_dialect::Dialect;
use star_found::about::{About, Misfit, Shown, Type};
use star_meaning::fault::FaultCode;
use star_mistakes::message::Part;
use star_mistakes::near::did_you_mean;
use std::alloc::AllocError;

/// How many parameters of a function are listed.
const LISTED: usize = 12;

/// The help for a slice of a range in the core language.
const RANGES: &str =
    "the extended language slices ranges: `--language extended`; here write `range` with other bounds";

/// Whether a built-in function takes this name in the extended language.
fn is_further(function: &str, name: &str) -> bool {
    match name {
        "key" => matches!(function, "sorted" | "max" | "min"),
        "base" => function == "int",
        _ => false,
    }
}

/// The help for an item of a dictionary that is no pair.
const ITEMS: &str = "a loop over a dict takes its keys: write `for k, v in d.items()`";

/// The help for a write to a set of another file.
const OWN_SET: &str = "make a set of your own: `mine = set(names)`";

impl<'a> Saying<'a> {
    /// The name that was probably meant by a word, among the names that were found.
    fn near(self, word: &str) -> Result<Option<String>, AllocError> {
        let mut names = Vec::new(self.alloc);
        for name in &self.found.names {
            names.push(name.as_str())?;
        }
        did_you_mean(self.alloc, word, names.as_slice())
    }

    /// The names of the parameters of a function.
    fn parameters(self) -> Result<Option<String>, AllocError> {
        let names = self.found.names.as_slice();
        if names.is_empty() {
            return Ok(None);
        }
        let mut text = String::from_str(self.alloc, "its parameters are ")?;
        for (i, name) in names.iter().take(LISTED).enumerate() {
            if i > 0 {
                text.push_str(", ")?;
            }
            text.push_str(name.as_str())?;
        }
        if names.len() > LISTED {
            text.push_str(", ..")?;
        }
        Ok(Some(text))
    }

    /// The cure of a key or an index that is not there.
    fn lacking(self) -> Result<Option<String>, AllocError> {
        let help = match &self.found.about {
            About::Key { .. } => "take one of the two entries out",
            About::Index { .. } if self.code == FaultCode::Index => {
                "indexes go from 0 to the length less 1, or from -1 down to minus the length"
            }
            About::Index { .. } => "ask by `get(key, default)` or `key in d`",
            _ => return Ok(None),
        };
        Ok(Some(String::from_str(self.alloc, help)?))
    }

    /// The cure of operands that have no meaning.
    fn converted(
        self,
        sign: &str,
        left: &Shown,
        right: &Shown,
    ) -> Result<Option<String>, AllocError> {
        let are_mixed = matches!(
            (left.of, right.of),
            (Type::Text, Type::Int) | (Type::Int, Type::Text)
        );
        if self.code != FaultCode::BadType || !sign.starts_with('+') || !are_mixed {
            return Ok(None);
        }
        let help = "`str(x)` makes a string of a value, `int(x)` an int of a string";
        Ok(Some(String::from_str(self.alloc, help)?))
    }

    /// The cure of arguments that do not fit.
    fn fitting(self, callee: &Shown, misfit: &Misfit) -> Result<Option<String>, AllocError> {
        if let Misfit::Unknown(word) = misfit {
            if callee.of == Type::BuiltIn && is_further(callee.text.as_str(), word.as_str()) {
                if let Some(help) = of_arguments(self.dialect, callee.text.as_str(), 1) {
                    return self.known(Some(help));
                }
            }
            if let Some(help) = self.near(word.as_str())? {
                return Ok(Some(help));
            }
        }
        self.parameters()
    }

    /// A help for the core language alone.
    fn of_core(self, help: &'static str) -> Result<Option<String>, AllocError> {
        match self.dialect {
            Dialect::Core => self.known(Some(help)),
            Dialect::Extended => Ok(None),
        }
    }

    /// A help that is known beforehand.
    fn known(self, help: Option<&'static str>) -> Result<Option<String>, AllocError> {
        match help {
            Some(help) => Ok(Some(String::from_str(self.alloc, help)?)),
            None => Ok(None),
        }
    }

    /// The cure of an attribute that a value does not have.
    fn attribute(self, name: &str, kind: Type) -> Result<Option<String>, AllocError> {
        if matches!(kind, Type::Struct | Type::Module) {
            return self.near(name);
        }
        match (of_method(kind, name), is_extended(name, kind)) {
            (Some(help), true) => {
                return self.with_word(help, "", "; `--language extended` has it");
            }
            (None, true) => {
                return self.known(Some("the extended language has it: `--language extended`"));
            }
            (Some(help), false) => return self.known(Some(help)),
            (None, false) => {}
        }
        match did_you_mean(self.alloc, name, methods(kind))? {
            None if kind == Type::Dict => self.with_word("a key is read as `[\"", name, "\"]`"),
            meant => Ok(meant),
        }
    }

    /// The cure.
    pub(crate) fn help(self) -> Result<Option<String>, AllocError> {
        match &self.found.about {
            About::Name { .. } => match self.bound_on {
                Some(line) => self.text_of(&[
                    Part::Plain("it gets its value on line "),
                    Part::Number(line),
                    Part::Plain(": use it below"),
                ]),
                None => Ok(None),
            },
            About::Loaded(name) => self.near(name.as_str()),
            About::Attribute { name, value, .. } => self.attribute(name.as_str(), value.of),
            About::BuiltIn {
                receiver: Some(written),
                ..
            }
            | About::Operands { left: written, .. }
                if self.code == FaultCode::Frozen && written.of == Type::Set => {
                self.known(Some(OWN_SET))
            }
            About::BuiltIn { name, given, .. } if self.code == FaultCode::Args => {
                self.known(of_arguments(self.dialect, name.as_str(), *given))
            }
            About::BuiltIn {
                name,
                receiver: Some(receiver),
                ..
            } if name.as_str() == "format"
                && self.code == FaultCode::BadValue
                && has_conversion(receiver.text.as_str()) => { self.of_core(CONVERSIONS) }
            About::Index { at, .. } if self.code == FaultCode::Key && at.of == Type::Text => {
                match self.near(unquoted(at.text.as_str()))? {
                    Some(help) => Ok(Some(help)),
                    None => self.lacking(),
                }
            }
            About::Index { value, at, .. } if value.of == Type::Struct && at.of == Type::Text =>
                self.with_word("a field is read as `x.", unquoted(at.text.as_str()), "`"),
            About::Operands { sign, left, right } => self.converted(sign.as_str(), left, right),
            About::Call {
                callee,
                misfit: Some(misfit),
            } => self.fitting(callee, misfit),
            About::Iterable { of, .. } | About::Unpacked { of, .. } if *of == Some(Type::Dict) => {
                self.known(Some(ITEMS))
            }
            About::Field { field, value: None } if is_unknown(self.dialect, field.as_str()) => {
                self.known(Some(of_format(self.dialect, field.as_str())))
            }
            About::Field { .. } => Ok(None),
            About::Slice { value } if value.of == Type::Range => self.of_core(RANGES),
            _ if matches!(self.code, FaultCode::Key | FaultCode::Index) => self.lacking(),
            _ => Ok(None),
        }
    }
}
