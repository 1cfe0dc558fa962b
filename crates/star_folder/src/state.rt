//! The state of a walk: the files found so far, and the folders that wait, on a stack.

ghost use Rattle.std.specs.Prelude.{◌≤◌};

use crate::places::Found;
use star_label::label::Label;
use std::collections::BTreeMap;

/// How far a walk has come.
#[derive(Drop)]
pub(crate) struct Walk {
    /// The places that are left, the next one on top.
    pub(crate) places: Vec<Found>,
    /// The files that were read.
    pub(crate) found: BTreeMap<Label, String>,
    /// How many entries were listed.
    pub(crate) listed: usize,
    /// How many files were read.
    pub(crate) count: usize,
    /// How many bytes they have.
    pub(crate) size: usize,
    ghost few_entries: { listed ≤ 100000 },
    ghost few_files: { count ≤ 10000 },
    ghost few_bytes: { size ≤ 268435456 },
}
