//! The open files, and the folder that they are of.

ghost use Rattle.std.specs.Prelude.{◌≡◌, ◌≤◌, IfOk};

use crate::document::{Document, Reading};
use crate::overlay::Overlay;
use crate::run::Ran;
use crate::uri::{label_in, uri_of};
use star_bundle::error::ServeError;
use star_dialect::Mode;
use star_editor::index::Index;
use star_frames::place::{Places, Units};
use star_label::label::Label;
use star_mistakes::place::Naming;
use star_repo::repo::Repo;
use star_repo::text::text_at;
use star_serve::serve::{Form, Options, Output, Style, Wanted};
use star_text::Text;
use std::alloc::{AllocError, Global};

/// The form of the log of a run.
const LOG: Form = Form {
    style: Style::Sarif,
    naming: Naming::Labels,
    is_whole: true,
    is_colored: false,
};

/// What the service is told when it starts.
#[derive(Drop)]
pub struct Settings {
    /// The real path of the folder.
    pub root: String,
    /// The label of the prelude.
    pub prelude: Option<Label>,
    /// How many loaders run files, from 1 to 64.
    pub loaders: usize,
    /// The mode in which files are read and run: a file may take from 1 to 100,000,000 steps.
    pub mode: Mode,
    ghost some_loaders: { 1 ≤ loaders },
    ghost few_loaders: { loaders ≤ 64 },
    ghost some_steps: { 1 ≤ mode.steps },
    ghost few_steps: { mode.steps ≤ 100000000 },
}

impl Settings {
    /// The options of a run of the file with this label: its report, and a log of what is at fault.
    pub(crate) fn options(&self, alloc: Global, label: &Label) -> Result<Options, AllocError>
        ensures loaders { IfOk result (λ o. (1 ≤ o.loaders) × (o.loaders ≤ 64)) }
        ensures steps { IfOk result (λ o. (1 ≤ o.mode.steps) × (o.mode.steps ≤ 100000000)) }
    {
        let prelude = match &self.prelude {
            Some(prelude) => Some(String::from_str(alloc, prelude.text())?),
            None => None,
        };
        let root = String::from_str(alloc, label.text())?;
        Ok(Options {
            loaders: self.loaders,
            mode: self.mode.share(alloc)?,
            seed: 0,
            roots: vec![in alloc; root]?,
            prelude,
            output: Output::Report(Wanted::NOTHING),
            trace: false,
            dir: None,
            explain: Some(LOG),
            progress: None,
        })
    }
}

/// The open files, and what answers are made of.
#[derive(Drop)]
pub(crate) struct Desk {
    pub alloc: Global,
    pub settings: Settings,
    /// What the client's columns count.
    pub units: Units,
    pub documents: Vec<Document>,
}

impl Desk {
    /// No file is open.
    pub(crate) fn new(alloc: Global, settings: Settings) -> Desk {
        Desk {
            alloc,
            settings,
            units: Units::Utf16,
            documents: Vec::new(alloc),
        }
    }

    /// The open file that the client knows by a URI.
    pub(crate) fn document(&self, uri: &str) -> Option<&Document> {
        for document in &self.documents {
            if document.uri.as_str() == uri {
                return Some(document);
            }
        }
        None
    }

    /// The open file at a place.
    pub(crate) fn at(&self, place: usize) -> Option<&Document> {
        self.documents.get(place)
    }

    /// The open file with a label.
    fn open_at(&self, label: &Label) -> Option<&Document> {
        for document in &self.documents {
            if document.label.as_ref() == Some(label) {
                return Some(document);
            }
        }
        None
    }

    /// The URI of the file of a label: the client's own if it is open.
    pub(crate) fn uri(&self, label: &Label) -> Result<String, AllocError> {
        match self.open_at(label) {
            Some(document) => String::from_str(self.alloc, document.uri.as_str()),
            None => uri_of(self.alloc, self.settings.root.as_str(), label),
        }
    }

    /// The text of the file of a label. `None` if there is no such file, or it cannot be read.
    pub(crate) fn text<F: Repo>(
        &self,
        folder: &mut F,
        label: &Label,
    ) -> Result<Option<Text>, AllocError> {
        match text_at(self.alloc, folder, label) {
            Ok(Some(text)) => Ok(Some(Text::of(text)?)),
            Ok(None) => Ok(None),
            Err(ServeError::Memory) => Err(AllocError),
            Err(_) => Ok(None),
        }
    }

    /// What is read of the prelude, for a file with this label: nothing if that is the prelude itself.
    pub(crate) fn prelude<F: Repo>(
        &self,
        folder: &mut F,
        label: Option<&Label>,
    ) -> Result<Option<Index>, AllocError> {
        let Some(prelude) = &self.settings.prelude else {
            return Ok(None);
        };
        if label == Some(prelude) {
            return Ok(None);
        }
        match self.text(folder, prelude)? {
            Some(text) => {
                let index = Index::of(self.alloc, text, None, &self.settings.mode.language)?;
                Ok(Some(index))
            }
            None => Ok(None),
        }
    }

    /// Reads a text of the file with this label.
    fn read<F: Repo>(
        &self,
        folder: &mut F,
        label: Option<&Label>,
        text: Text,
    ) -> Result<Reading, AllocError> {
        let prelude = self.prelude(folder, label)?;
        let language = &self.settings.mode.language;
        Reading::of(self.alloc, text, prelude.as_ref(), language, self.units)
    }

    /// What is read of the file of a label.
    pub(crate) fn reading<F: Repo>(
        &self,
        folder: &mut F,
        label: &Label,
    ) -> Result<Option<Reading>, AllocError> {
        match self.text(folder, label)? {
            Some(text) => Ok(Some(self.read(folder, Some(label), text)?)),
            None => Ok(None),
        }
    }

    /// Opens a file, in place of one with the same URI.
    pub(crate) fn open<F: Repo>(
        &mut self,
        folder: &mut Overlay<F>,
        uri: &str,
        version: i64,
        text: &str,
    ) -> Result<(), AllocError> {
        self.close(folder, uri);
        let label = label_in(self.alloc, self.settings.root.as_str(), uri)?;
        let text = Text::new(self.alloc, text)?;
        if let Some(label) = &label {
            folder.open(self.alloc, uri, label, text.share()?)?;
        }
        let reading = self.read(folder, label.as_ref(), text.share()?)?;
        let places = Places::new(self.alloc, text.as_str(), self.units)?;
        let document = Document {
            uri: String::from_str(self.alloc, uri)?,
            label,
            version,
            text,
            places,
            reading,
            ran: None,
            is_run: false,
        };
        self.documents.push(document)?;
        Ok(())
    }

    /// Gives an open file a new text. What was read of the last text that parsed stays while the new one does not.
    pub(crate) fn change<F: Repo>(
        &mut self,
        folder: &mut Overlay<F>,
        uri: &str,
        version: i64,
        text: &str,
    ) -> Result<(), AllocError> {
        let Some(document) = self.document(uri) else {
            return Ok(());
        };
        let text = Text::new(self.alloc, text)?;
        if let Some(label) = &document.label {
            folder.open(self.alloc, uri, label, text.share()?)?;
        }
        let reading = self.read(folder, document.label.as_ref(), text.share()?)?;
        let places = Places::new(self.alloc, text.as_str(), self.units)?;
        for document in self.documents.iter_mut() {
            if document.uri.as_str() == uri {
                document.version = version;
                document.text = text;
                document.places = places;
                if reading.index.has_tree() {
                    document.reading = reading;
                }
                break;
            }
        }
        Ok(())
    }

    /// Whether a URI is that of the prelude.
    pub(crate) fn is_prelude(&self, uri: &str) -> Result<bool, AllocError> {
        let Some(prelude) = &self.settings.prelude else {
            return Ok(false);
        };
        let label = label_in(self.alloc, self.settings.root.as_str(), uri)?;
        Ok(label.as_ref() == Some(prelude))
    }

    /// Reads the texts of all open files anew, since the prelude is another.
    pub(crate) fn read_again<F: Repo>(&mut self, folder: &mut F) -> Result<(), AllocError> {
        let mut readings = Vec::new(self.alloc);
        for document in &self.documents {
            let text = document.text.share()?;
            readings.push(self.read(folder, document.label.as_ref(), text)?)?;
        }
        for (document, reading) in self.documents.iter_mut().zip(readings) {
            if reading.index.has_tree() {
                document.reading = reading;
            }
        }
        Ok(())
    }

    /// Closes a file.
    pub(crate) fn close<F>(&mut self, folder: &mut Overlay<F>, uri: &str) {
        folder.close(uri);
        self.documents
            .retain(|document| document.uri.as_str() != uri);
    }

    /// The places of the open files that depend on the one with a URI: its own, and those of which the last run
    /// reached it.
    pub(crate) fn dependents(&self, uri: &str) -> Result<Vec<usize>, AllocError> {
        let label = label_in(self.alloc, self.settings.root.as_str(), uri)?;
        let mut found = Vec::new(self.alloc);
        for (n, document) in self.documents.iter().enumerate() {
            let reaches = match &label {
                Some(label) => document.reached(label),
                None => false,
            };
            if reaches || document.uri.as_str() == uri {
                found.push(n)?;
            }
        }
        Ok(found)
    }

    /// Notes that the last runs of these open files are not of the texts as they are now.
    pub(crate) fn outdate(&mut self, places: &[usize]) {
        for place in places {
            if let Some(document) = self.documents.get_mut(*place) {
                document.is_run = false;
            }
        }
    }

    /// Keeps the run of an open file.
    pub(crate) fn keep(&mut self, place: usize, ran: Ran) {
        if let Some(document) = self.documents.get_mut(place) {
            document.ran = Some(ran);
            document.is_run = true;
        }
    }
}
