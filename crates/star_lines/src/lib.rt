//! The text of a report is a line that joins, and the join of such lines is the report of all roots: laws, no code.
//!
//! Begin at `specs/Lines.antt` and `specs/Joins.antt`.
#![tactic(auto)]

mod law;

pub use law::{joins_are_reports, reports_are_lines, reports_join};
