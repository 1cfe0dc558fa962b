//! An open file: its text, and what was read of it.

ghost use Rattle.std.specs.Prelude.{◌≡◌, true, IfOk};
ghost use Rattle.serde_json.specs.View.{view};
ghost use Rattle.star_frames.specs.Place.{AreOf};
ghost use Rattle.star_label.specs.Label.{is_package};
ghost use Rattle.star_lsp.specs.Place.{IsRange};

use crate::place::range_value;
use crate::run::Ran;
use serde_json::Value;
use star_dialect::Language;
use star_editor::index::Index;
use star_frames::place::{Places, Position, Units};
use star_label::label::Label;
use star_lex::token::Span;
use star_text::Text;
use std::alloc::{AllocError, Global};

/// The most bytes of a text that is read.
pub(crate) const MOST_TEXT: usize = 1_048_576;

/// What was read of a text.
#[derive(Drop)]
pub(crate) struct Reading {
    pub index: Index,
    places: Places,
}

impl Reading {
    /// Reads a text. Of one that is too long for a file nothing is read.
    pub(crate) fn of(
        alloc: Global,
        text: Text,
        prelude: Option<&Index>,
        language: &Language,
        units: Units,
    ) -> Result<Reading, AllocError> {
        let text = if text.as_str().len() > MOST_TEXT {
            Text::new(alloc, "")?
        } else {
            text
        };
        let places = Places::new(alloc, text.as_str(), units)?;
        let index = Index::of(alloc, text, prelude, language)?;
        Ok(Reading { index, places })
    }

    /// The byte offset that a position names.
    pub(crate) fn offset(&self, position: Position) -> usize {
        self.places.offset(self.index.text(), position)
    }

    /// A range of bytes.
    pub(crate) fn range(&self, alloc: Global, span: Span) -> Result<Value, AllocError> {
        range_value(alloc, &self.places, self.index.text(), span)
    }
}

/// An open file.
#[derive(Drop)]
pub(crate) struct Document {
    /// The URI by which the client knows it.
    pub uri: String,
    /// Its label: none for a file outside of the folder.
    pub label: Option<Label>,
    /// The version of its text, as the client counts them.
    pub version: i64,
    /// The newest text.
    pub text: Text,
    /// Its lines.
    pub places: Places,
    /// What was read of the newest text that parses.
    pub reading: Reading,
    /// Its last run.
    pub ran: Option<Ran>,
    /// Whether the last run was of the texts as they are now.
    pub is_run: bool,
    ghost lines: { AreOf places text },
}

impl Document {
    /// The package of its label.
    pub(crate) fn package(&self) -> &str
        ensures { is_package result.now ≡ true }
    {
        match &self.label {
            Some(label) => label.package(),
            None => "",
        }
    }

    /// Whether the newest text parses, so that what was read is of it.
    pub(crate) fn is_read(&self) -> bool {
        self.reading.index.has_tree() && self.reading.index.text() == self.text.as_str()
    }

    /// Whether its last run reached a file.
    pub(crate) fn reached(&self, label: &Label) -> bool {
        match &self.ran {
            Some(ran) => ran.module(label).is_some(),
            None => false,
        }
    }

    /// The byte offset of the newest text that a position names.
    pub(crate) fn offset(&self, position: Position) -> usize {
        self.places.offset(self.text.as_str(), position)
    }

    /// A range of bytes of the newest text.
    pub(crate) fn range(&self, alloc: Global, span: Span) -> Result<Value, AllocError>
        ensures { IfOk result (λ v. IsRange self.now.places self.now.text span (view v)) }
    {
        range_value(alloc, &self.places, self.text.as_str(), span)
    }
}
