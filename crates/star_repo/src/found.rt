//! The files that the reading of a run has found so far.

ghost use Rattle.std.specs.Prelude.{◌≤◌};

use star_label::label::Label;
use star_reading::parses::Parsed;
use std::collections::BTreeMap;

/// A file that was read: its text, and the result of parsing it.
#[derive(Drop)]
pub(crate) struct ReadFile<'t> {
    pub(crate) text: String,
    pub(crate) parsed: Parsed<'t>,
}

/// The files that were found so far.
#[derive(Drop)]
pub(crate) struct Found<'t> {
    /// The labels that were looked up: with a file, or without. The fresh files are not among these.
    pub(crate) looked: BTreeMap<Label, Option<ReadFile<'t>>>,
    /// The files of this round, which are not parsed yet.
    pub(crate) fresh: Vec<(Label, String)>,
    /// How many files were found.
    pub(crate) count: usize,
    /// How many bytes they have.
    pub(crate) size: usize,
    ghost few_files: { count ≤ 10000 },
    ghost few_bytes: { size ≤ 268435456 },
}
