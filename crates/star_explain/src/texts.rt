//! The texts on faults whose part and values are known.

use crate::calls::{BuiltInCall, has_further};
use crate::fields::{is_unknown, taken_by};
use crate::words::unquoted;
use star_dialect::Dialect;
use star_found::about::{About, Found, Misfit, Shown, Type};
use star_meaning::fault::FaultCode;
use star_mistakes::message::{Part, message, push_message};
use std::alloc::{AllocError, Global};

/// A text, and the cure.
#[derive(Drop)]
pub(crate) struct Said {
    pub text: String,
    pub help: Option<String>,
}

/// The makings of a text on a fault: its code and the part that it is about.
#[derive(Clone, Copy)]
pub(crate) struct Saying<'a> {
    pub alloc: Global,
    pub code: FaultCode,
    pub found: &'a Found,
    /// The dialect of the run.
    pub dialect: Dialect,
    /// The string of the load statement, if the fault is in one.
    pub module: &'a str,
    /// The line on which a global that has no value gets one, if it is known.
    pub bound_on: Option<usize>,
}

/// The name of the type of a value, with its article.
pub(crate) fn with_article(value: &Shown) -> &'static str {
    match value.of {
        Type::Int => "an int",
        Type::Text => "a string",
        Type::List => "a list",
        Type::Dict => "a dict",
        Type::Tuple => "a tuple",
        Type::Bool => "a bool",
        Type::Range => "a range",
        Type::Function => "a function",
        Type::Nothing => "None",
        Type::BuiltIn => "a built-in function",
        Type::Struct => "a struct",
        Type::Set => "a set",
        Type::Module => "a module",
        Type::Other => "a value",
    }
}

/// The text of a value; empty for `Nothing`, which a program cannot have.
pub(crate) fn told_text(value: &Shown) -> &str {
    match value.of {
        Type::Nothing => "",
        _ => value.text.as_str(),
    }
}

/// A colon before the text of a value, if the text is not empty.
pub(crate) fn colon(value: &Shown) -> &'static str {
    if told_text(value).is_empty() {
        ""
    } else {
        ": "
    }
}

impl<'a> Saying<'a> {
    /// A text of these parts.
    pub(crate) fn text_of(self, parts: &[Part]) -> Result<Option<String>, AllocError> {
        Ok(Some(message(self.alloc, parts)?))
    }

    /// A word between two texts.
    pub(crate) fn with_word<'x>(
        self,
        front: &'x str,
        word: &'x str,
        end: &'x str,
    ) -> Result<Option<String>, AllocError> {
        self.text_of(&[Part::Plain(front), Part::Shown(word), Part::Plain(end)])
    }

    /// A text, and after a colon the text of a value.
    pub(crate) fn with_value<'x>(
        self,
        text: &'x str,
        value: &'x Shown,
    ) -> Result<Option<String>, AllocError> {
        self.text_of(&[
            Part::Plain(text),
            Part::Plain(colon(value)),
            Part::Shown(told_text(value)),
        ])
    }

    /// The kind of a value, a text, and after a colon the text of the value.
    fn of_kind<'x>(self, value: &'x Shown, text: &'x str) -> Result<Option<String>, AllocError> {
        self.text_of(&[
            Part::Plain(with_article(value)),
            Part::Plain(text),
            Part::Plain(colon(value)),
            Part::Shown(told_text(value)),
        ])
    }

    /// A text, and a value with its type.
    fn with_typed<'x>(self, text: &'x str, value: &'x Shown) -> Result<Option<String>, AllocError> {
        self.text_of(&[
            Part::Plain(text),
            Part::Plain(with_article(value)),
            Part::Plain(colon(value)),
            Part::Shown(told_text(value)),
        ])
    }

    /// The text on a write to a value.
    pub(crate) fn written(self, value: &Shown) -> Result<Option<String>, AllocError> {
        let text = match self.code {
            FaultCode::Frozen => " of another file is frozen, and cannot be changed",
            FaultCode::Iterating => " cannot be changed while a loop goes over it",
            _ => return Ok(None),
        };
        self.text_of(&[Part::Plain(with_article(value)), Part::Plain(text)])
    }

    /// A value that cannot be a key.
    fn no_key(self, key: &Shown) -> Result<Option<String>, AllocError> {
        self.of_kind(key, " cannot be a key")
    }

    /// An index of a wrong type, or of a value that has no such items.
    fn index_of_type<'x>(
        self,
        value: &'x Shown,
        at: &'x Shown,
    ) -> Result<Option<String>, AllocError> {
        let has_items = matches!(value.of, Type::Tuple | Type::Text | Type::Range);
        let has_index = has_items || value.of == Type::List;
        if value.of == Type::Dict {
            return self.no_key(at);
        }
        if has_index && at.of != Type::Int {
            return self.text_of(&[
                Part::Plain("the index of "),
                Part::Plain(with_article(value)),
                Part::Plain(" has to be an int, not "),
                Part::Plain(with_article(at)),
                Part::Plain(colon(at)),
                Part::Shown(told_text(at)),
            ]);
        }
        if has_items {
            return self.text_of(&[
                Part::Plain("the items of "),
                Part::Plain(with_article(value)),
                Part::Plain(" cannot be set"),
            ]);
        }
        self.of_kind(value, " has no items")
    }

    /// `value[at]`
    fn index<'x>(
        self,
        value: &'x Shown,
        at: &'x Shown,
        items: usize,
    ) -> Result<Option<String>, AllocError> {
        match self.code {
            FaultCode::Key => self.with_value("no such key", at),
            FaultCode::Index => self.text_of(&[
                Part::Plain("index "),
                Part::Shown(at.text.as_str()),
                Part::Plain(" of "),
                Part::Plain(with_article(value)),
                Part::Plain(" with "),
                Part::Number(items),
                Part::Plain(if items == 1 { " item" } else { " items" }),
            ]),
            FaultCode::Cut => self.text_of(&[
                Part::Plain("index "),
                Part::Shown(at.text.as_str()),
                Part::Plain(" cuts a character"),
                Part::Plain(colon(value)),
                Part::Shown(told_text(value)),
            ]),
            FaultCode::BadType => self.index_of_type(value, at),
            _ => self.written(value),
        }
    }

    /// `value[start:stop:stride]`
    fn slice(self, value: &Shown) -> Result<Option<String>, AllocError> {
        let has_slices = match value.of {
            Type::List | Type::Tuple | Type::Text => true,
            Type::Range => has_further(self.dialect),
            _ => false,
        };
        match self.code {
            FaultCode::BadValue => self.text_of(&[Part::Plain(
                "the stride of a slice cannot be 0",
            )]),
            FaultCode::Cut => self.with_value("a slice cuts a character", value),
            FaultCode::Overflow => self.with_value(
                "a bound of the slice is outside 64 bits",
                value,
            ),
            FaultCode::BadType if has_slices => {
                self.text_of(&[Part::Plain("the bounds of a slice have to be ints")])
            }
            FaultCode::BadType => self.of_kind(value, " cannot be sliced"),
            _ => Ok(None),
        }
    }

    /// A text, and `left sign right` after a colon, if both have a text.
    fn with_both<'x>(
        self,
        text: &[Part],
        sign: &'x str,
        left: &'x Shown,
        right: &'x Shown,
    ) -> Result<Option<String>, AllocError> {
        let (left, right) = (left.text.as_str(), right.text.as_str());
        if left.is_empty() || right.is_empty() {
            return self.text_of(text);
        }
        let both = [
            Part::Plain(": "),
            Part::Shown(left),
            Part::Plain(" "),
            Part::Plain(sign),
            Part::Plain(" "),
            Part::Shown(right),
        ];
        let mut all = message(self.alloc, text)?;
        push_message(&mut all, &both)?;
        Ok(Some(all))
    }

    /// `left sign right`
    fn operands<'x>(
        self,
        sign: &'x str,
        left: &'x Shown,
        right: &'x Shown,
    ) -> Result<Option<String>, AllocError> {
        let of_string = left.of == Type::Text;
        let text = match self.code {
            FaultCode::BadType if sign == "%" && of_string => "the values do not fit the format",
            FaultCode::BadType => {
                let text = [
                    Part::Plain("`"),
                    Part::Plain(sign),
                    Part::Plain("` has no meaning between "),
                    Part::Plain(left.type_name()),
                    Part::Plain(" and "),
                    Part::Plain(right.type_name()),
                ];
                return self.with_both(&text, sign, left, right);
            }
            FaultCode::Zero => "a division by zero",
            FaultCode::Overflow => "an int outside of 64 bits",
            FaultCode::BadValue if of_string => "the values do not fit the format",
            FaultCode::BadValue => "a shift by a negative number",
            _ => return self.written(left),
        };
        self.with_both(&[Part::Plain(text)], sign, left, right)
    }

    /// A sign between two texts, and a value with its type.
    pub(crate) fn before_typed<'x>(
        self,
        front: &'x str,
        sign: &'x str,
        text: &'x str,
        value: &'x Shown,
    ) -> Result<Option<String>, AllocError> {
        self.text_of(&[
            Part::Plain(front),
            Part::Plain(sign),
            Part::Plain(text),
            Part::Plain(with_article(value)),
            Part::Plain(colon(value)),
            Part::Shown(told_text(value)),
        ])
    }

    /// `sign value`
    fn operand<'x>(self, sign: &'x str, value: &'x Shown) -> Result<Option<String>, AllocError> {
        match (self.code, sign) {
            (FaultCode::BadType, "*") => {
                self.with_typed("what stands after `*` has to be an iterable, not ", value)
            }
            (FaultCode::BadType, "**") => self.with_typed(
                "what stands after `**` has to be a dict whose keys are strings, not ",
                value,
            ),
            (FaultCode::BadType, _) => {
                self.before_typed("`", sign, "` has no meaning before ", value)
            }
            (FaultCode::Overflow, _) => {
                self.before_typed("an int outside of 64 bits: ", sign, " before ", value)
            }
            _ => Ok(None),
        }
    }

    /// A name in quotes, a text, and a word that does not fit.
    fn misfit_of<'x>(
        self,
        owner: &'x str,
        text: &'x str,
        word: &'x str,
        end: &'x str,
    ) -> Result<Option<String>, AllocError> {
        self.text_of(&[
            Part::Plain("`"),
            Part::Shown(owner),
            Part::Plain(text),
            Part::Shown(word),
            Part::Plain(end),
        ])
    }

    /// The text on a call of a function that a program defines, or of a value that may not be called.
    fn call(self, callee: &Shown, misfit: &Option<Misfit>) -> Result<Option<String>, AllocError> {
        let name = callee.text.as_str();
        match misfit {
            Some(Misfit::Unknown(word)) => {
                self.misfit_of(name, "` has no parameter `", word.as_str(), "`")
            }
            Some(Misfit::Twice(word)) => {
                self.misfit_of(name, "` is given its parameter `", word.as_str(), "` twice")
            }
            Some(Misfit::Missing(word)) => {
                self.misfit_of(name, "` is not given its parameter `", word.as_str(), "`")
            }
            Some(Misfit::TooMany { given, most }) => self.text_of(&[
                Part::Plain("`"),
                Part::Shown(name),
                Part::Plain("` takes at most "),
                Part::Number(*most),
                Part::Plain(" by place, and is given "),
                Part::Number(*given),
            ]),
            None if self.code == FaultCode::Recursion => self.with_word(
                "the function `",
                name,
                "` is called while it runs: there is no recursion",
            ),
            None => self.of_kind(callee, " cannot be called"),
        }
    }

    /// The text on a key that comes twice in a display, or on a value that cannot be a key.
    fn key(self, key: &Shown) -> Result<Option<String>, AllocError> {
        if self.code != FaultCode::Key {
            return self.no_key(key);
        }
        self.with_word("the key ", key.text.as_str(), " comes twice in this dict")
    }

    /// The text on a value with `items` items that is unpacked to `targets` targets.
    fn unpacked(
        self,
        value: &Shown,
        items: usize,
        targets: usize,
    ) -> Result<Option<String>, AllocError> {
        self.text_of(&[
            Part::Number(items),
            Part::Plain(if items == 1 {
                " value for "
            } else {
                " values for "
            }),
            Part::Number(targets),
            Part::Plain(" targets"),
            Part::Plain(colon(value)),
            Part::Shown(told_text(value)),
        ])
    }

    /// The text on a field of a format.
    fn field<'x>(
        self,
        field: &'x str,
        value: Option<&'x Shown>,
    ) -> Result<Option<String>, AllocError> {
        match value {
            Some(value) => self.before_typed("`", field, taken_by(field), value),
            None if is_unknown(self.dialect, field) => {
                self.with_word("there is no format `", field, "`")
            }
            None => self.with_word("the field `", field, "` gets no value"),
        }
    }

    /// The text on a name that the file of a load statement does not have.
    fn no_global(self, name: &'a str) -> Result<Option<String>, AllocError> {
        self.misfit_of(self.module, "` has no global `", name, "`")
    }

    /// The text on an attribute that a value does not have: a struct has fields, `json` members, and others have methods.
    pub(crate) fn no_attribute<'x>(
        self,
        name: &'x str,
        value: &'x Shown,
    ) -> Result<Option<String>, AllocError> {
        let text = match value.of {
            Type::Struct | Type::Module => " has no attribute `",
            _ => " has no method `",
        };
        self.text_of(&[
            Part::Plain(value.type_name()),
            Part::Plain(text),
            Part::Shown(name),
            Part::Plain("`"),
        ])
    }

    /// The text on a fault.
    fn text(self) -> Result<Option<String>, AllocError> {
        match &self.found.about {
            About::Name { name, .. } => self.with_word("`", name.as_str(), "` has no value yet"),
            About::Loaded(name) => self.no_global(name.as_str()),
            About::Attribute { name, value, .. } => self.no_attribute(name.as_str(), value),
            About::Index { value, at, items } => self.index(value, at, *items),
            About::Slice { value } => self.slice(value),
            About::Operands { sign, left, right } => self.operands(sign.as_str(), left, right),
            About::Operand { sign, value } => self.operand(sign.as_str(), value),
            About::Iterable { value, .. } => self.of_kind(value, " cannot be gone over"),
            About::Unpacked {
                value,
                items,
                targets,
                ..
            } => self.unpacked(value, *items, *targets),
            About::Field { field, value } => self.field(field.as_str(), value.as_ref()),
            About::Key { key } => self.key(key),
            About::Call { callee, misfit, .. } => self.call(callee, misfit),
            About::BuiltIn {
                name,
                receiver,
                first,
                second,
                given,
            } => self.built_in(BuiltInCall {
                name: name.as_str(),
                receiver: receiver.as_ref(),
                first: first.as_ref(),
                second: second.as_ref(),
                given: *given,
            }),
        }
    }

    /// The text and the cure; `None` if the part that was found does not go with the code.
    pub(crate) fn said(self) -> Result<Option<Said>, AllocError> {
        match self.text()? {
            Some(text) => Ok(Some(Said {
                text,
                help: self.help()?,
            })),
            None => Ok(None),
        }
    }
}
