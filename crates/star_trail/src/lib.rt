//! The way out of a fault, checked against the files that were read before a message shows it.
//!
//! A run that stops at a fault leaves the statements and calls that the fault passed, the innermost first
//! (`star_meaning::story::Step`). They are noted beside the run, and no contract of the run is about them.
//! `steps_there` looks at each again: it hands them on only if each statement is a statement of the file that it names.
#![tactic(auto)]

mod statements;
mod trail;

pub use trail::steps_there;
