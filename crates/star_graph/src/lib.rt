//! The graph of loads, file by file: what each file loads is read from its text, and nothing runs.
//!
//! A `Walk` holds the labels that were met, and the text of one file at a time, so it takes any number of files. Its
//! promise is the contract of `Walk::next`: each line is the line of a file (`specs/Line.antt`), whose loads are those
//! of its load statements.
#![tactic(auto)]

mod line;
mod walk;

pub use walk::Walk;
