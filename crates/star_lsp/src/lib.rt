//! `starload --lsp`: an editor that speaks the Language Server Protocol 3.17 is told what is known of the files of a
//! folder.
//!
//! - `message` reads and makes messages, `uri` turns URIs into labels and back, `place` ranges of texts into JSON.
//! - `document` has the text of an open file with what was read of it; `desk` all open files, and what an answer needs
//!   of other files: a text in an editor stands for the one of the disk.
//! - `overlay` has the files as the editor has them, and `run` runs them.
//! - `diagnostics` tells the mistakes of a file, and `fault` why its run failed; `navigation` what a name means,
//!   `references` where else it stands, `completion` and `calls` what may be written, `change` renames and cures.
//! - `service` answers each message at once, and `serve` goes through all messages of a stream.
//!
//! What an editor asks of one text is answered by `star_editor`, and mistakes are found by `star_mistakes`. Files are
//! read when an answer needs them, so no answer is about a text that has gone.
#![tactic(auto)]

mod calls;
mod change;
mod completion;
mod desk;
mod diagnostics;
mod document;
mod fault;
mod message;
mod navigation;
mod overlay;
mod place;
mod references;
mod run;
mod serve;
mod service;
mod uri;

pub use desk::Settings;
pub use serve::{Ending, serve_editor};
