//! Joins reports of roots over one set of files: what comes out is the report of all the roots.
//!
//! The text that is read has a report on each line, of a run or of a check. Entries are kept as they stand there, and
//! nothing of them is read but brackets, strings, the label and the status. Begin at `joined.rt`: `join` gives each
//! entry once, in the order of labels, and `Joined::text` writes them.
//!
//! What a report is stands in `specs/Lines.antt`, and what a join is in `specs/Joined.antt`. `star_join` has the law
//! that the report of more roots is such a join.
#![tactic(auto)]

mod entry;
mod joined;
mod law;
mod line;
mod lines;
mod members;
mod place;
mod refusal;

pub use joined::{Joined, join};
pub use law::{
    data_are_one_line, lines_are_cut, objects_are_entries, objects_end, one_report,
    reports_are_one_line,
};
pub use refusal::Refusal;
