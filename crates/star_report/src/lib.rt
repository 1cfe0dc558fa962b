//! The report of a run: one JSON text on one line (`docs/USING.md`).
//!
//! - `report::report` writes a page for each module (`pages`), in several threads if there are many, and joins the
//!   pages in the order of labels. The JSON of a module is made there too. For a static fault or a failed load it is
//!   that of `star_check`.
//! - `Wanted` says which further members each module gets: values as JSON (`values`, with `star_data`), loads,
//!   steps (`more`), and the calls that it recorded (`calls`).
//! - `Output` says what a run writes: the report, or in its place a global of each root as JSON (`got`), its calls of a name (`calls`), or the graph
//!   of loads as DOT (`graph`). Or it writes the check of files, whose text `star_check` makes. Then no file runs.
//!
//! Begin at `report.rt::module_value`. The promise is the contract of `report`: the text is exactly the text of the
//! definition (`star_plan/specs/Text`, and `specs/Wanted` for the options), for any number of threads. The laws say
//! that an input has one such text, and without options the plain report.
#![tactic(auto)]

pub mod calls;
mod components;
pub mod got;
pub mod graph;
mod law;
mod modules;
mod more;
pub mod pages;
pub mod report;
mod values;
pub mod wanted;

pub use law::{
    edges_are_loads, edges_stand_once, none_dropped, none_twice, nothing_more_wanted,
    one_full_text, report_as_before,
};
