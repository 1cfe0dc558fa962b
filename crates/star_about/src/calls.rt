//! Names the values that a fault of a call is about.

use crate::fits::{Arguments, Named, keywords_of, misfit};
use crate::look::{Look, found_at};
use crate::parts::word_of;
use crate::search::Visit;
use star_call::callee::definition_number;
use star_dialect::Dialect;
use star_found::about::{About, Found, Misfit, Place, Shown, Turn, Type};
use star_machine::content::Kind;
use star_meaning::fault::FaultCode;
use star_store::names::BuiltIn;
use star_store::values::Value;
use star_text::Text;
use star_tree::tree::{Argument, Expression, Parameter};
use std::alloc::{AllocError, Global};

/// At most this many items of a `*` or `**` argument are looked at.
const MOST_ITEMS: usize = 10_000;

/// The keyword arguments that a built-in function or a method takes; `None` if it takes any name.
fn names_of(dialect: Dialect, name: &str) -> Option<&'static [&'static str]> {
    let keys = match dialect {
        Dialect::Core => false,
        Dialect::Extended => true,
    };
    match name {
        "dict" | "update" | "format" | "struct" => None,
        "print" => Some(&["sep"]),
        "sorted" if keys => Some(&["key", "reverse"]),
        "sorted" => Some(&["reverse"]),
        "max" | "min" if keys => Some(&["key"]),
        "int" if keys => Some(&["base"]),
        "json.encode_indent" => Some(&["indent", "prefix"]),
        _ => Some(&[]),
    }
}

/// The texts of names.
fn texts_of(alloc: Global, names: &[&str]) -> Result<Vec<Text>, AllocError> {
    let mut texts = Vec::with_capacity(alloc, names.len())?;
    for name in names {
        texts.push(Text::new(alloc, *name)?)?;
    }
    Ok(texts)
}

impl<'w, 'a, 't> Look<'w, 'a, 't> {
    /// The place of a call: its name, or else the call itself.
    pub(crate) fn place_of(&self, word: Option<usize>) -> Result<Place, AllocError> {
        match word {
            Some(token) => Ok(Place::Word(token)),
            None => self.place(&[]),
        }
    }

    /// A call whose arguments do not fit the parameters. `word` is the token of its name, or else of the argument at
    /// fault, `names` are the names that a keyword argument may have.
    fn misfitting(
        &self,
        word: Option<usize>,
        callee: Shown,
        (misfit, argument): (Misfit, Option<usize>),
        names: &[&str],
    ) -> Result<Option<Found>, AllocError> {
        let about = About::Call {
            callee,
            misfit: Some(misfit),
        };
        Ok(Some(Found {
            about,
            place: self.place_of(argument.or(word))?,
            names: texts_of(self.alloc, names)?,
        }))
    }

    /// Adds the items of a value to the positional arguments; answers whether the value is an iterable.
    fn add_items(&self, given: &mut Arguments, value: Value) -> Result<bool, AllocError> {
        let (setting, line) = (self.world.setting(), self.fault.line);
        let Ok(count) = self.machine.count_of(setting, line, value) else {
            return Ok(false);
        };
        for i in 0..count.min(MOST_ITEMS) {
            if let Some(item) = self.machine.item(setting, value, i) {
                given.plain.push(item)?;
            }
        }
        Ok(true)
    }

    /// Adds the keys of a dictionary to the keyword arguments; answers whether the value is a dictionary and each key
    /// looked at is a string.
    fn add_names(&self, given: &mut Arguments, value: Value) -> Result<bool, AllocError> {
        if !matches!(self.kind(value), Kind::Dict) {
            return Ok(false);
        }
        let setting = self.world.setting();
        for i in 0..self.size(value).min(MOST_ITEMS) {
            let Some(key) = self.machine.item(setting, value, i) else {
                break;
            };
            if !matches!(self.kind(key), Kind::Text) {
                return Ok(false);
            }
            let name = self.machine.copied_text(setting, key)?;
            given.named.push(Named {
                name,
                value: None,
                token: None,
            })?;
        }
        Ok(true)
    }

    /// Adds an argument with its value to the arguments of the call. Answers `*` or `**` if the value cannot be spread
    /// so, else `None`.
    fn add(
        &self,
        given: &mut Arguments,
        argument: &Argument,
        value: Value,
    ) -> Result<Option<&'static str>, AllocError> {
        match argument {
            Argument::Positional(_) => given.plain.push(value)?,
            Argument::Named { name, .. } => {
                let token = Some(name.position.token);
                let name = name.text.share()?;
                given.named.push(Named {
                    name,
                    value: Some(value),
                    token,
                })?;
            }
            Argument::Star(_) => {
                if !self.add_items(given, value)? {
                    return Ok(Some("*"));
                }
            }
            Argument::StarStar(_) => {
                if !self.add_names(given, value)? {
                    return Ok(Some("**"));
                }
            }
        }
        Ok(None)
    }

    /// A call of a value that cannot be called, or of a function that is already active.
    fn called(&mut self, word: Option<usize>, value: Value) -> Result<Option<Found>, AllocError> {
        let about = About::Call {
            callee: self.shown(value)?,
            misfit: None,
        };
        Ok(Some(found_at(self.alloc, self.place_of(word)?, about)))
    }

    /// The parameters of a function.
    fn parameters(&self, value: Value) -> Option<&'t [Parameter]> {
        let (file, number) = definition_number(&self.machine, self.world.setting(), value)?;
        Some(self.world.definition(file, number)?.parameters)
    }

    /// A call of a function.
    fn function(
        &mut self,
        word: Option<usize>,
        value: Value,
        given: &Arguments,
    ) -> Result<Option<Found>, AllocError> {
        if self.fault.code == FaultCode::Recursion {
            return self.called(word, value);
        }
        let Some(parameters) = self.parameters(value) else {
            return Ok(None);
        };
        if self.fault.code != FaultCode::Args {
            return Ok(None);
        }
        match misfit(self.alloc, parameters, given)? {
            Some(misfit) => {
                let names = keywords_of(self.alloc, parameters)?;
                let callee = self.shown(value)?;
                self.misfitting(word, callee, misfit, names.as_slice())
            }
            None => Ok(None),
        }
    }

    /// A call of `print` or `fail` whose `sep` is not a string.
    fn separator(
        &mut self,
        word: Option<usize>,
        name: &'static str,
        given: &Arguments,
    ) -> Result<Option<Found>, AllocError> {
        if self.fault.code != FaultCode::BadType || !matches!(name, "print" | "fail") {
            return Ok(None);
        }
        let Some(named) = given.named("sep") else {
            return Ok(None);
        };
        let about = About::BuiltIn {
            name: Text::new(self.alloc, name)?,
            receiver: None,
            first: self.maybe_shown(named.value)?,
            second: None,
            given: given.count(),
        };
        let place = self.place_of(named.token.or(word))?;
        Ok(Some(found_at(self.alloc, place, about)))
    }

    /// A call of the function of `key`, which is given one value, that does not fit or is already active.
    fn function_of_key(
        &mut self,
        word: Option<usize>,
        name: &'static str,
        given: &Arguments,
    ) -> Result<Option<Found>, AllocError> {
        if given.plain.is_empty() || !matches!(name, "sorted" | "max" | "min") {
            return Ok(None);
        }
        let Some(named) = given.named("key") else {
            return Ok(None);
        };
        let (token, Some(key)) = (named.token, named.value) else {
            return Ok(None);
        };
        if !matches!(self.kind(key), Kind::Function) {
            return Ok(None);
        }
        let mut one = Arguments::new(self.alloc);
        one.plain.push(key)?;
        self.function(token.or(word), key, &one)
    }

    /// A call of a built-in function, or of a method of a receiver.
    fn built_in(
        &mut self,
        word: Option<usize>,
        name: &'static str,
        receiver: Option<Value>,
        given: &Arguments,
    ) -> Result<Option<Found>, AllocError> {
        if self.fault.code == FaultCode::Args {
            if let Some(names) = names_of(self.world.setting().dialect(), name) {
                if let Some(named) = given.unknown(names) {
                    let callee = Shown {
                        of: Type::BuiltIn,
                        text: Text::new(self.alloc, name)?,
                    };
                    let misfit = Misfit::Unknown(named.name.share()?);
                    return self.misfitting(word, callee, (misfit, named.token), names);
                }
            }
        }
        if let Some(found) = self.function_of_key(word, name, given)? {
            return Ok(Some(found));
        }
        if name == "format" {
            if let Some(found) = self.field_of_format(word, receiver, given)? {
                return Ok(Some(found));
            }
        }
        if let Some(found) = self.separator(word, name, given)? {
            return Ok(Some(found));
        }
        let about = About::BuiltIn {
            name: Text::new(self.alloc, name)?,
            receiver: self.maybe_shown(receiver)?,
            first: self.maybe_shown(given.plain.first().copied())?,
            second: self.maybe_shown(given.plain.get(1).copied())?,
            given: given.count(),
        };
        Ok(Some(found_at(self.alloc, self.place_of(word)?, about)))
    }

    /// A call of a function whose calls are recorded: it is its own receiver.
    fn recorded(
        &mut self,
        word: Option<usize>,
        function: Value,
        given: &Arguments,
    ) -> Result<Option<Found>, AllocError> {
        let callee = self.shown(function)?;
        if let (FaultCode::Args, Some(named)) = (self.fault.code, given.repeated()) {
            let misfit = Misfit::Twice(named.name.share()?);
            return self.misfitting(word, callee, (misfit, named.token), &[]);
        }
        let about = About::BuiltIn {
            name: callee.text.share()?,
            receiver: Some(callee),
            first: self.maybe_shown(given.plain.first().copied())?,
            second: None,
            given: given.count(),
        };
        Ok(Some(found_at(self.alloc, self.place_of(word)?, about)))
    }

    /// The arguments of a call whose parts have these values, or the report on a value that cannot be spread;
    /// `None` if a value is not known, but for a write, where the receiver suffices.
    fn given(
        &mut self,
        arguments: &[Argument],
        visit: &Visit<'_>,
    ) -> Result<Option<Result<Arguments, Option<Found>>>, AllocError> {
        let mut given = Arguments::new(self.alloc);
        for (i, argument) in arguments.iter().enumerate() {
            let Some(value) = visit.value(i.saturating_add(1)) else {
                return Ok(if self.is_of_writing() {
                    Some(Ok(given))
                } else {
                    None
                });
            };
            if let Some(sign) = self.add(&mut given, argument, value)? {
                let found = self.operand(&[Turn::Argument(i)], sign, Some(value))?;
                return Ok(Some(Err(found)));
            }
        }
        Ok(Some(Ok(given)))
    }

    /// Reports the values that the fault of this call is about, whose parts do not stop as the run did.
    pub(crate) fn call(
        &mut self,
        function: &Expression,
        arguments: &[Argument],
        visit: &Visit<'_>,
    ) -> Result<Option<Found>, AllocError> {
        let Some(callee) = visit.value(0) else {
            return Ok(None);
        };
        let word = word_of(function);
        let kind = self.kind(callee);
        let is_called = match kind {
            Kind::Function | Kind::Method(..) => true,
            Kind::BuiltInFunction(function) => function.is_function(),
            _ => false,
        };
        if !is_called {
            return match self.fault.code {
                FaultCode::BadType => self.called(word, callee),
                _ => Ok(None),
            };
        }
        let given = match self.given(arguments, visit)? {
            Some(Ok(given)) => given,
            Some(Err(found)) => return Ok(found),
            None => return Ok(None),
        };
        match kind {
            Kind::BuiltInFunction(BuiltIn::Recorded(_)) => self.recorded(word, callee, &given),
            Kind::BuiltInFunction(function) => self.built_in(word, function.name(), None, &given),
            Kind::Method(method, receiver) if self.may_be_written(receiver) => {
                self.built_in(word, method.name(), Some(receiver), &given)
            }
            Kind::Function => self.function(word, callee, &given),
            _ => Ok(None),
        }
    }
}
