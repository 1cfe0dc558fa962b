//! Where else a name stands: in its file, in the open ones, and in those that their last runs reached.

ghost use Rattle.std.specs.Prelude.{◌≡◌, true};
ghost use Rattle.star_label.specs.Label.{is_package};

use crate::desk::Desk;
use crate::diagnostics::copied;
use crate::document::{Document, Reading};
use crate::navigation::{label_of_load, location, variable_of};
use serde_json::Value;
use star_editor::mention::Mention;
use star_editor::navigation::Definition;
use star_frames::place::Position;
use star_label::label::Label;
use star_repo::repo::Repo;
use star_text::Text;
use std::alloc::{AllocError, Global};
use std::collections::BTreeSet;

/// A global, by its name and the file that binds it.
#[derive(Drop)]
struct Named {
    label: Label,
    name: Text,
}

/// A file with what was read of it.
#[derive(Clone, Copy)]
struct Place<'a> {
    uri: &'a str,
    label: Option<&'a Label>,
    reading: &'a Reading,
}

impl<'a> Place<'a> {
    fn of(document: &'a Document) -> Place<'a> {
        Place {
            uri: document.uri.as_str(),
            label: document.label.as_ref(),
            reading: &document.reading,
        }
    }

    /// Adds the places of this file at which what a mention means is named.
    fn add(self, alloc: Global, all: &mut Vec<Value>, mention: Mention) -> Result<(), AllocError> {
        for span in self.reading.index.references(alloc, mention)? {
            let range = self.reading.range(alloc, span)?;
            all.push(location(alloc, self.uri, range)?)?;
        }
        Ok(())
    }

    /// The package of its label.
    fn package(self) -> &'a str
        ensures { is_package result.now ≡ true }
    {
        match self.label {
            Some(label) => label.package(),
            None => "",
        }
    }

    /// The label that a load of this file names.
    fn label_of(self, alloc: Global, text: &str) -> Result<Option<Label>, AllocError> {
        label_of_load(alloc, self.package(), text)
    }

    /// A mention of a global of this file, if it is the one that binds it.
    fn bound(self, named: &Named) -> Option<Mention> {
        if self.label != Some(&named.label) {
            return None;
        }
        let index = &self.reading.index;
        let variable = index.global(named.name.as_str())?;
        for mention in index.mentions() {
            if variable_of(*mention) == Some(variable) {
                return Some(*mention);
            }
        }
        None
    }

    /// A mention of the variable by which this file has a global of another one.
    fn loaded(self, alloc: Global, named: &Named) -> Result<Option<Mention>, AllocError> {
        let index = &self.reading.index;
        for loaded in index.loaded() {
            if loaded.name.as_str() != named.name.as_str() {
                continue;
            }
            let from = self.label_of(alloc, loaded.label.as_str())?;
            if from.as_ref() != Some(&named.label) {
                continue;
            }
            for mention in index.mentions() {
                if variable_of(*mention) == Some(loaded.variable) {
                    return Ok(Some(*mention));
                }
            }
        }
        Ok(None)
    }

    /// Adds the places of this file at which a global is named.
    fn add_named(
        self,
        alloc: Global,
        all: &mut Vec<Value>,
        named: &Named,
    ) -> Result<(), AllocError> {
        let found = match self.bound(named) {
            Some(mention) => Some(mention),
            None => self.loaded(alloc, named)?,
        };
        match found {
            Some(mention) => self.add(alloc, all, mention),
            None => Ok(()),
        }
    }
}

/// The global that a mention of an open file means, if other files can name it.
fn named_by(
    alloc: Global,
    document: &Document,
    mention: Mention,
) -> Result<Option<Named>, AllocError> {
    let (place, index) = (Place::of(document), &document.reading.index);
    match index.definition(mention) {
        Some(Definition::Loaded(loaded)) => {
            let name = loaded.name.share()?;
            let label = place.label_of(alloc, loaded.label.as_str())?;
            Ok(label.map(|label| Named { label, name }))
        }
        Some(Definition::Here(span)) => {
            let written = index.written(span);
            if index.global(written) != variable_of(mention) {
                return Ok(None);
            }
            let name = Text::new(alloc, written)?;
            match &document.label {
                Some(label) => Ok(Some(Named {
                    label: copied(alloc, label)?,
                    name,
                })),
                None => Ok(None),
            }
        }
        _ => Ok(None),
    }
}

/// The files that the last runs of the open ones reached, but for those that are open.
fn reached(desk: &Desk) -> Result<BTreeSet<Label>, AllocError> {
    let mut labels = BTreeSet::new(desk.alloc);
    for document in &desk.documents {
        if let Some(ran) = &document.ran {
            ran.add_labels(desk.alloc, &mut labels)?;
        }
    }
    for document in &desk.documents {
        if let Some(label) = &document.label {
            labels.remove(label);
        }
    }
    Ok(labels)
}

/// Adds the places of files that are not open at which a global is named.
fn add_reached<F: Repo>(
    desk: &Desk,
    folder: &mut F,
    all: &mut Vec<Value>,
    named: &Named,
) -> Result<(), AllocError> {
    for label in &reached(desk)? {
        match desk.text(folder, label)? {
            Some(text) if text.as_str().contains(named.name.as_str()) => {}
            _ => continue,
        }
        let Some(reading) = desk.reading(folder, label)? else {
            continue;
        };
        let uri = desk.uri(label)?;
        let place = Place {
            uri: uri.as_str(),
            label: Some(label),
            reading: &reading,
        };
        place.add_named(desk.alloc, all, named)?;
    }
    Ok(())
}

/// The places at which what stands at a position is named.
pub(crate) fn references<F: Repo>(
    desk: &Desk,
    folder: &mut F,
    document: &Document,
    position: Position,
) -> Result<Value, AllocError> {
    let mut all = Vec::new(desk.alloc);
    let at = document.reading.offset(position);
    let Some(mention) = document.reading.index.mention_at(at) else {
        return Ok(Value::Array(all));
    };
    Place::of(document).add(desk.alloc, &mut all, mention)?;
    let Some(named) = named_by(desk.alloc, document, mention)? else {
        return Ok(Value::Array(all));
    };
    for other in &desk.documents {
        if other.uri.as_str() != document.uri.as_str() {
            Place::of(other).add_named(desk.alloc, &mut all, &named)?;
        }
    }
    add_reached(desk, folder, &mut all, &named)?;
    Ok(Value::Array(all))
}
