//! From a mention to the definition and to the other mentions of the same variable.

ghost use Rattle.std.specs.Prelude.{◌≡◌, All, Any, IfOk, IfSome, None, OnOk, true};
ghost use Rattle.star_editor.specs.Meaning.{Binds};
ghost use Rattle.star_lex.specs.Tokens as words;
ghost use Rattle.star_editor.specs.Definitions.{LeadsTo};
ghost use Rattle.star_editor.specs.Views.{mentions_of, text_of};
ghost use Rattle.star_editor.specs.Within.{IsWithin};

use crate::function::Function;
use crate::index::{Index, LoadedName};
use crate::mention::{Binder, Mention, Referent, Role, Variable};
use star_lex::scan::keyword;
use star_lex::token::Span;
use std::alloc::{AllocError, AllocFailed, Global};
use thiserror::Error;

/// Where a name is defined.
#[derive(Clone, Copy)]
pub enum Definition<'a> {
    /// In this file: the name where it is bound first.
    Here(Span),
    /// In the file that a load statement names.
    Loaded(&'a LoadedName),
    /// In the prelude, under this name.
    Prelude(&'a str),
    /// In the language, under this name.
    BuiltIn(&'a str),
}

/// A change of a text: what is written in the span gives way to another text.
#[derive(Debug, Drop)]
pub struct Edit {
    pub span: Span,
    pub text: String,
}

/// Why a name is not changed.
#[derive(Clone, Copy, Debug, PartialEq, Eq, Error)]
pub enum RenameError {
    /// No variable of this file is named here.
    #[error("no variable of this file stands here")]
    NoVariable,
    /// The new name is a keyword, or has a character that no name has.
    #[error("not a name")]
    NotAName,
    /// The new name is read or bound in the file.
    #[error("the name is used in this file")]
    Taken,
    /// No memory was left.
    #[error("out of memory")]
    Memory,
}

impl From<AllocError> for RenameError {
    fn from(_error: AllocError) -> RenameError {
        RenameError::Memory
    }
}

impl<T: Drop> From<AllocFailed<T>> for RenameError {
    fn from(_error: AllocFailed<T>) -> RenameError {
        RenameError::Memory
    }
}

/// Whether a word is a name: letters, digits and `_`, with no digit first, and no keyword.
fn is_name(word: &str) -> bool
    ensures { result ≡ true → words.keyword word.now ≡ None }
{
    let bytes = word.as_bytes();
    let Some(first) = bytes.first() else {
        return false;
    };
    !first.is_ascii_digit()
        && bytes
            .iter()
            .all(|b| b.is_ascii_alphanumeric() || *b == b'_')
        && keyword(bytes).is_none()
}

/// Adds a place of a text.
fn add_place(places: &mut Vec<Span>, text: &str, place: Span) -> Result<(), AllocError>
    requires kept { All (IsWithin text.now) places.old.items }
    requires place { IsWithin text.now place }
    ensures { OnOk result (All (IsWithin text.now) places.new.items) }
{
    places.push(place)?;
    Ok(())
}

impl Index {
    /// Where the name of a mention is defined; `None` for an attribute, a label and an undefined name.
    pub fn definition(&self, mention: Mention) -> Option<Definition<'_>> {
        if mention.role == Role::LoadedName {
            return match self.loaded_at(mention.span) {
                Some(loaded) => Some(Definition::Loaded(loaded)),
                None => None,
            };
        }
        match self.referent(mention)? {
            Referent::Variable(variable) => self.definition_of(variable),
            Referent::Prelude => Some(Definition::Prelude(self.written(mention.span))),
            Referent::BuiltIn => Some(Definition::BuiltIn(self.written(mention.span))),
            Referent::Undefined => None,
        }
    }

    /// Where a variable is defined.
    pub fn definition_of(&self, variable: Variable) -> Option<Definition<'_>>
        ensures { IfSome result (LeadsTo self.now variable) }
    {
        if let Some(loaded) = self.loaded_as(variable) {
            return Some(Definition::Loaded(loaded));
        }
        match self.first_of(variable) {
            Some(first) => Some(Definition::Here(first)),
            None => None,
        }
    }

    /// What the name of a mention means. The name of an argument means the parameter of a function of this file.
    fn referent(&self, mention: Mention) -> Option<Referent> {
        let Role::Keyword { callee } = mention.role else {
            return mention.role.referent();
        };
        let Some(Referent::Variable(called)) = callee else {
            return None;
        };
        let function = self.function(called)?;
        let parameter = self.parameter(function, self.written(mention.span))?;
        Some(Referent::Variable(parameter))
    }

    /// The parameter of a function with this name.
    fn parameter(&self, function: &Function, name: &str) -> Option<Variable> {
        for mention in self.mentions() {
            match mention.role {
                Role::Bound {
                    variable,
                    by: Binder::Parameter,
                } if variable.block == function.block && self.written(mention.span) == name => {
                    return Some(variable);
                }
                _ => {}
            }
        }
        None
    }

    /// The loaded name whose string is around this span.
    fn loaded_at(&self, span: Span) -> Option<&LoadedName> {
        for name in self.loaded() {
            if name.string.start <= span.start && span.end <= name.string.end {
                return Some(name);
            }
        }
        None
    }

    /// The loaded name that binds a variable.
    fn loaded_as(&self, variable: Variable) -> Option<&LoadedName>
        ensures { IfSome result (λ l. l.now.variable ≡ variable) }
    {
        for name in self.loaded() {
            if name.variable == variable {
                return Some(name);
            }
        }
        None
    }

    /// Where a variable is bound first.
    fn first_of(&self, variable: Variable) -> Option<Span>
        ensures bound { IfSome result (λ s. Any (λ m. Binds variable m.role × (m.span ≡ s)) (mentions_of self.now)) }
        ensures within { IfSome result (IsWithin (text_of self.now)) }
    {
        for mention in self.mentions() {
            match mention.role {
                Role::Bound {
                    variable: bound,
                    ..
                } if bound == variable => return Some(mention.span),
                _ => {}
            }
        }
        None
    }

    /// All places where the variable of this mention is named, or this name of the prelude or the language, in the order
    /// of the text: none for a mention that means none of these. The error: an allocation failed.
    pub fn references(&self, alloc: Global, mention: Mention) -> Result<Vec<Span>, AllocError>
        ensures within { IfOk result (λ v. All (IsWithin (text_of self.now)) v.items) }
    {
        match self.referent(mention) {
            Some(referent) => self.places_of(alloc, referent, self.written(mention.span)),
            None => Ok(Vec::new(alloc)),
        }
    }

    /// The function of which a variable is a parameter or another name of its body.
    fn function_around(&self, variable: Variable) -> Option<Variable> {
        for function in self.functions() {
            if function.block == variable.block {
                return Some(function.variable);
            }
        }
        None
    }

    /// The places where a name means this.
    fn places_of(
        &self,
        alloc: Global,
        referent: Referent,
        name: &str,
    ) -> Result<Vec<Span>, AllocError>
        ensures within { IfOk result (λ v. All (IsWithin (text_of self.now)) v.items) }
    {
        let owner = match referent {
            Referent::Variable(variable) => self.function_around(variable),
            _ => None,
        };
        let mut places = Vec::new(alloc);
        for mention in self.mentions() {
            if self.is_of(*mention, referent, owner, name) {
                add_place(&mut places, self.text(), mention.span)?;
            }
        }
        Ok(places)
    }

    /// Whether a mention means this, under this name. The variable `owner` is the function whose parameter it may be.
    fn is_of(
        &self,
        mention: Mention,
        referent: Referent,
        owner: Option<Variable>,
        name: &str,
    ) -> bool {
        match (mention.role, referent) {
            (Role::Keyword { callee }, _) => {
                owner.map(Referent::Variable) == callee
                    && callee.is_some()
                    && self.written(mention.span) == name
            }
            (role, Referent::Variable(_)) => role.referent() == Some(referent),
            (role, _) => { role.referent() == Some(referent) && self.written(mention.span) == name }
        }
    }

    /// Whether a name is bound or read somewhere in the file.
    fn has_name(&self, name: &str) -> bool {
        for mention in self.mentions() {
            if mention.role.referent().is_some() && self.written(mention.span) == name {
                return true;
            }
        }
        false
    }

    /// The changes that give the variable of this mention another name, in the order of the text. A loaded name without
    /// a local one gets it: `load(":f.star", "a")` becomes `load(":f.star", b = "a")`.
    pub fn rename(
        &self,
        alloc: Global,
        mention: Mention,
        name: &str,
    ) -> Result<Vec<Edit>, RenameError>
        ensures { IfOk result (λ edits. words.keyword name.now ≡ None) }
    {
        let Some(Referent::Variable(variable)) = self.referent(mention) else {
            return Err(RenameError::NoVariable);
        };
        if !is_name(name) {
            return Err(RenameError::NotAName);
        }
        if self.has_name(name) {
            return Err(RenameError::Taken);
        }
        let old = match self.first_of(variable) {
            Some(first) => self.written(first),
            None => return Err(RenameError::NoVariable),
        };
        let mut edits = Vec::new(alloc);
        for place in self.places_of(alloc, Referent::Variable(variable), old)? {
            edits.push(self.edit(alloc, place, name)?)?;
        }
        Ok(edits)
    }

    /// The change of one place to a new name.
    fn edit(&self, alloc: Global, place: Span, name: &str) -> Result<Edit, AllocError> {
        match self.loaded_at(place) {
            Some(loaded) => Ok(Edit {
                span: loaded.string,
                text: format!(in alloc; "{name} = {}", self.written(loaded.string))?,
            }),
            None => Ok(Edit {
                span: place,
                text: String::from_str(alloc, name)?,
            }),
        }
    }
}
