//! The words of the command line: from paths, labels and patterns to labels of files (`docs/USING.md`).
//!
//! - `words::label_of_word` is the label that a word names: itself, if it is a label, or the label of the file at the
//!   path that it is.
//! - `named::asked_labels` are the labels of the roots and of the prelude, or the refusal of the first word that names
//!   none.
//! - `pattern::files_below` are the labels of all files below a folder, for words such as `//app/...`. `Listing` is the
//!   trait of the folder that it lists, and `Filter` says which files are asked for: `glob` matches names against `*`
//!   and `?`, and `exclude` says what is left out.
//!
//! Begin at `words.rt`. `Label` (`star_label`) is the type of all results. The promises are in the contracts of these
//! functions, by `specs/Words`, `Named`, `Below`, `Excluded` and `Glob`.
#![tactic(auto)]

pub mod exclude;
pub mod glob;
pub mod named;
pub mod pattern;
mod walk;
pub mod words;
