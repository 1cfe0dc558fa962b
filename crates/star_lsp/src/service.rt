//! The service: what it is told, and what it answers.

ghost use Rattle.std.specs.Prelude.{◌≡◌, ℕ, IfOk, List, OnOk, Some, codes, option_and_then, option_map};
ghost use Rattle.serde_json.specs.Data.{Data};
ghost use Rattle.serde_json.specs.Find.{as_str, get};
ghost use Rattle.serde_json.specs.View.{view};
ghost use Rattle.star_lsp.specs.Message.{Answers, Asks, IsAnswerTo, IsRequest};

use crate::change::{actions, rename};
use crate::completion::{completion, signature};
use crate::desk::{Desk, Settings};
use crate::diagnostics::{add_published, published, withdrawn};
use crate::document::Document;
use crate::message::{Refusal, answer, position_in, range_in, refused, text_at, uri_in};
use crate::navigation::{definition, hover, symbols};
use crate::overlay::Overlay;
use crate::references::references;
use crate::run::run;
use serde_json::{Value, json};
use star_bundle::bundle::json_in;
use star_frames::place::Units;
use star_label::label::Label;
use star_repo::repo::Repo;
use star_words::pattern::Listing;
use std::alloc::{AllocError, Global};
use std::sync::Wait;
use std::thread::Threads;

/// How far a session has come.
#[derive(Clone, Copy, Debug, PartialEq, Eq)]
enum Stage {
    /// Before the request `initialize`.
    New,
    /// Between `initialize` and `shutdown`.
    Ready,
    /// After the request `shutdown`.
    ShutDown,
}

/// Whether the session goes on after a message.
#[derive(Clone, Copy, Debug, PartialEq, Eq)]
pub(crate) enum Next {
    GoesOn,
    /// The client asks the service to exit.
    Exit,
}

/// A session with an editor about the files of a folder.
#[derive(Drop)]
pub(crate) struct Service<F> {
    desk: Desk,
    folder: Overlay<F>,
    stage: Stage,
}

/// Whether a client offers to count the bytes of UTF-8 in columns.
fn offers_utf8(message: &Value) -> bool {
    let Some(offered) = message.pointer("/params/capabilities/general/positionEncodings") else {
        return false;
    };
    let Some(offered) = offered.as_array() else {
        return false;
    };
    for word in offered {
        if word.as_str() == Some("utf-8") {
            return true;
        }
    }
    false
}

/// What the service can do.
fn abilities(alloc: Global, units: Units) -> Result<Value, AllocError> {
    let encoding = match units {
        Units::Utf8 => "utf-8",
        Units::Utf16 => "utf-16",
    };
    let can = json!(in alloc; {
        "positionEncoding": encoding,
        "textDocumentSync": {"openClose": true, "change": 1u64, "save": true},
        "definitionProvider": true,
        "referencesProvider": true,
        "hoverProvider": true,
        "documentSymbolProvider": true,
        "completionProvider": {"triggerCharacters": ["\"", ":", "/", "."]},
        "signatureHelpProvider": {"triggerCharacters": ["(", ","]},
        "renameProvider": true,
        "codeActionProvider": {"codeActionKinds": ["quickfix"]}
    })?;
    json!(in alloc; {"capabilities": can, "serverInfo": {"name": "starload"}})
}

/// The version of the text that a message is about: 0 if it has none.
fn version_in(message: &Value) -> i64 {
    match message.pointer("/params/textDocument/version") {
        Some(version) => version.as_i64().unwrap_or(0),
        None => 0,
    }
}

/// The whole new text of a message about a change.
fn new_text(message: &Value) -> Option<&str> {
    let changes = message.pointer("/params/contentChanges")?.as_array()?;
    changes.last()?.get("text")?.as_str()
}

/// The method of a message: `None` if it has none.
fn method_of(message: &Value) -> Option<&str>
    ensures { option_map (λ method. method.now) result
        ≡ option_and_then as_str (get (codes "method") (view message.now)) }
{
    match message.get("method") {
        Some(method) => method.as_str(),
        None => None,
    }
}

/// Whether a message with no method is an answer of the client.
fn is_answer(message: &Value) -> bool {
    message.get("result").is_some() || message.get("error").is_some()
}

impl<F: Repo + Listing> Service<F> {
    /// No file is open.
    pub(crate) fn new(alloc: Global, folder: F, settings: Settings) -> Service<F> {
        Service {
            desk: Desk::new(alloc, settings),
            folder: Overlay::new(alloc, folder),
            stage: Stage::New,
        }
    }

    /// Whether the session was shut down, so that it may end.
    pub(crate) fn is_shut_down(&self) -> bool {
        self.stage == Stage::ShutDown
    }

    /// Takes a message, and adds what is to be sent.
    pub(crate) fn take<H: Threads + Wait + Sync>(
        &mut self,
        rt: &H,
        content: &[u8],
        sent: &mut Vec<Value>,
    ) -> Result<Next, AllocError>
        ensures { OnOk result ((id : Data) → IsRequest content.now id → Answers id sent.old.items sent.new.items) }
    {
        let alloc = self.desk.alloc;
        match json_in(alloc, content)? {
            Some(message) => self.take_value(rt, &message, sent),
            None => {
                sent.push(refused(alloc, &Value::Null, Refusal::NotJson)?)?;
                Ok(Next::GoesOn)
            }
        }
    }

    /// Takes a message that is JSON.
    fn take_value<H: Threads + Wait + Sync>(
        &mut self,
        rt: &H,
        message: &Value,
        sent: &mut Vec<Value>,
    ) -> Result<Next, AllocError>
        ensures { OnOk result ((id : Data) → Asks (view message.now) id → Answers id sent.old.items sent.new.items) }
    {
        match message.get("id") {
            Some(id) => self.take_with_id(id, message, sent),
            None => self.take_without_id(rt, message, sent),
        }
    }

    /// Takes a request, or an answer of the client.
    fn take_with_id(
        &mut self,
        id: &Value,
        message: &Value,
        sent: &mut Vec<Value>,
    ) -> Result<Next, AllocError>
        ensures { OnOk result ((name : List ℕ)
            → option_and_then as_str (get (codes "method") (view message.now)) ≡ Some name
            → Answers (view id.now) sent.old.items sent.new.items) }
    {
        match method_of(message) {
            Some(method) => {
                let found = self.asked(method, message);
                let told = answered(self.desk.alloc, id, found)?;
                sent.push(told)?;
                Ok(Next::GoesOn)
            }
            None => {
                if !is_answer(message) {
                    sent.push(refused(self.desk.alloc, &Value::Null, Refusal::NoMessage)?)?;
                }
                Ok(Next::GoesOn)
            }
        }
    }

    /// Takes a notification, or what is no message.
    fn take_without_id<H: Threads + Wait + Sync>(
        &mut self,
        rt: &H,
        message: &Value,
        sent: &mut Vec<Value>,
    ) -> Result<Next, AllocError> {
        match method_of(message) {
            Some("exit") => Ok(Next::Exit),
            Some(method) => {
                if self.stage == Stage::Ready {
                    self.told(rt, method, message, sent)?;
                }
                Ok(Next::GoesOn)
            }
            None => {
                sent.push(refused(self.desk.alloc, &Value::Null, Refusal::NoMessage)?)?;
                Ok(Next::GoesOn)
            }
        }
    }

    /// The result of a request.
    fn asked(&mut self, method: &str, message: &Value) -> Result<Value, Refusal> {
        match self.stage {
            Stage::New if method == "initialize" => self.initialize(message),
            Stage::New => Err(Refusal::NotInitialized),
            Stage::ShutDown => Err(Refusal::ShutDown),
            Stage::Ready if method == "initialize" => Err(Refusal::NoMessage),
            Stage::Ready if method == "shutdown" => {
                self.stage = Stage::ShutDown;
                Ok(Value::Null)
            }
            Stage::Ready => match Question::of(method) {
                Some(question) => self.asked_about(question, message),
                None => Err(Refusal::NoMethod),
            },
        }
    }

    /// The result of `initialize`.
    fn initialize(&mut self, message: &Value) -> Result<Value, Refusal> {
        let units = if offers_utf8(message) {
            Units::Utf8
        } else {
            Units::Utf16
        };
        let abilities = abilities(self.desk.alloc, units)?;
        self.desk.units = units;
        self.stage = Stage::Ready;
        Ok(abilities)
    }

    /// The answer to a question about an open file.
    fn asked_about(&mut self, question: Question, message: &Value) -> Result<Value, Refusal> {
        let Some(document) = self.desk.document(uri_in(message)?) else {
            return Err(Refusal::BadParameters);
        };
        let (desk, folder) = (&self.desk, &mut self.folder);
        match question {
            Question::Definition => Ok(definition(desk, folder, document, position_in(message)?)?),
            Question::References => Ok(references(desk, folder, document, position_in(message)?)?),
            Question::Hover => Ok(hover(desk, folder, document, position_in(message)?)?),
            Question::Symbols => Ok(symbols(desk, document)?),
            Question::Completion => Ok(completion(desk, folder, document, position_in(message)?)?),
            Question::Signature => Ok(signature(desk, folder, document, position_in(message)?)?),
            Question::Rename => {
                let name = text_at(message, "/params/newName")?;
                rename(desk, document, position_in(message)?, name)
            }
            Question::Actions => Ok(actions(desk, folder, document, range_in(message)?)?),
        }
    }

    /// Takes a notification, and adds what is to be sent. One that is not known, or lacks something, is passed over.
    fn told<H: Threads + Wait + Sync>(
        &mut self,
        rt: &H,
        method: &str,
        message: &Value,
        sent: &mut Vec<Value>,
    ) -> Result<(), AllocError> {
        let Ok(uri) = uri_in(message) else {
            return Ok(());
        };
        match method {
            "textDocument/didOpen" => self.opened(uri, message, sent),
            "textDocument/didChange" => self.changed(uri, message, sent),
            "textDocument/didSave" => self.saved(rt, uri, sent),
            "textDocument/didClose" => self.closed(uri, sent),
            _ => Ok(()),
        }
    }

    /// A file was opened.
    fn opened(
        &mut self,
        uri: &str,
        message: &Value,
        sent: &mut Vec<Value>,
    ) -> Result<(), AllocError> {
        let Ok(text) = text_at(message, "/params/textDocument/text") else {
            return Ok(());
        };
        self.desk
            .open(&mut self.folder, uri, version_in(message), text)?;
        self.publish(uri, sent)
    }

    /// A file has a new text.
    fn changed(
        &mut self,
        uri: &str,
        message: &Value,
        sent: &mut Vec<Value>,
    ) -> Result<(), AllocError> {
        let Some(text) = new_text(message) else {
            return Ok(());
        };
        self.desk
            .change(&mut self.folder, uri, version_in(message), text)?;
        let dependents = self.desk.dependents(uri)?;
        self.desk.outdate(dependents.as_slice());
        self.publish_these(uri, dependents.as_slice(), sent)
    }

    /// A file was saved: it is run, and so are the open files of which the last run reached it.
    fn saved<H: Threads + Wait + Sync>(
        &mut self,
        rt: &H,
        uri: &str,
        sent: &mut Vec<Value>,
    ) -> Result<(), AllocError> {
        let dependents = self.desk.dependents(uri)?;
        for place in dependents.as_slice() {
            self.run(rt, *place)?;
        }
        self.publish_these(uri, dependents.as_slice(), sent)
    }

    /// Runs an open file, if it is one of the folder.
    fn run<H: Threads + Wait + Sync>(&mut self, rt: &H, place: usize) -> Result<(), AllocError> {
        let Some(document) = self.desk.at(place) else {
            return Ok(());
        };
        let Some(label) = &document.label else {
            return Ok(());
        };
        let ran = run(rt, &self.desk, &mut self.folder, label)?;
        self.desk.keep(place, ran);
        Ok(())
    }

    /// A file was closed: it has no diagnostics any more.
    fn closed(&mut self, uri: &str, sent: &mut Vec<Value>) -> Result<(), AllocError> {
        self.desk.close(&mut self.folder, uri);
        sent.push(withdrawn(self.desk.alloc, uri)?)?;
        let dependents = self.desk.dependents(uri)?;
        self.desk.outdate(dependents.as_slice());
        self.publish_these(uri, dependents.as_slice(), sent)
    }

    /// Adds the diagnostics of all open files, whose prelude is another.
    fn publish_all(&mut self, sent: &mut Vec<Value>) -> Result<(), AllocError> {
        self.desk.read_again(&mut self.folder)?;
        add_published(&self.desk, &mut self.folder, sent)
    }

    /// Adds the diagnostics of a file that is another now, if it is open: those of all open files, if it is the prelude.
    fn publish(&mut self, uri: &str, sent: &mut Vec<Value>) -> Result<(), AllocError> {
        let dependents = self.desk.dependents(uri)?;
        self.publish_these(uri, dependents.as_slice(), sent)
    }

    /// Adds the diagnostics of these open files, which depend on one that is another now: those of all open files, if
    /// that one is the prelude.
    fn publish_these(
        &mut self,
        uri: &str,
        places: &[usize],
        sent: &mut Vec<Value>,
    ) -> Result<(), AllocError> {
        if self.desk.is_prelude(uri)? {
            return self.publish_all(sent);
        }
        for place in places {
            if let Some(document) = self.desk.at(*place) {
                sent.push(published(&self.desk, &mut self.folder, document)?)?;
            }
        }
        Ok(())
    }
}

/// The answer with a result, or with the reason why there is none.
fn answered(alloc: Global, id: &Value, found: Result<Value, Refusal>) -> Result<Value, AllocError>
    ensures { IfOk result (λ v. IsAnswerTo (view id.now) (view v)) }
{
    match found {
        Ok(value) => answer(alloc, id, value),
        Err(refusal) => refused(alloc, id, refusal),
    }
}

/// What may be asked about an open file.
#[derive(Clone, Copy, Debug, PartialEq, Eq)]
enum Question {
    Definition,
    References,
    Hover,
    Symbols,
    Completion,
    Signature,
    Rename,
    Actions,
}

impl Question {
    /// The question of a request.
    fn of(method: &str) -> Option<Question> {
        match method {
            "textDocument/definition" => Some(Question::Definition),
            "textDocument/references" => Some(Question::References),
            "textDocument/hover" => Some(Question::Hover),
            "textDocument/documentSymbol" => Some(Question::Symbols),
            "textDocument/completion" => Some(Question::Completion),
            "textDocument/signatureHelp" => Some(Question::Signature),
            "textDocument/rename" => Some(Question::Rename),
            "textDocument/codeAction" => Some(Question::Actions),
            _ => None,
        }
    }
}
