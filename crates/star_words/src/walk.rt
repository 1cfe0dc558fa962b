//! A walk through the folders below one, which lists them and reads no file.

ghost use Rattle.std.specs.Prelude.{◌≤◌};

use star_label::label::Label;
use std::collections::BTreeSet;

/// Where a walk still has to go, the files that it has found, and how many entries it has listed.
#[derive(Drop)]
pub(crate) struct Walk {
    pub(crate) places: Vec<String>,
    pub(crate) found: BTreeSet<Label>,
    pub(crate) listed: usize,
    ghost few: { listed ≤ 1000000 },
}
