//! The outcome of a file depends only on what it needs: laws, no code.
//!
//! A file needs its loads and all that these need. The run of a file is given the statements of all files of its plan.
//! It is a law that it looks only at its own and at those of files whose functions it sees.
//!
//! - `specs/Agree` and `Laws`: two plans that agree on some files, which have among them all that they load, give each
//!   of these the same run, result, outcome, module and end in the report, whatever their other files are.
//! - `specs/Ends` and `Texts`: a file's loads and its end are the same for all roots. They stay when files change, if
//!   the labels, the prelude's text and the texts of all that the file needs stay.
//! - `specs/Changed`: a file whose loads have changed stays as it was if what it loads of these is the same data.
//!
//! Begin at `specs/Agree.antt` and `specs/Ends.antt`. The proof runs a file by places, with the outlines of all files,
//! beside its run by names, with the outlines of the part that it needs (`proofs/Seen..`, after `Agree..` of
//! `star_meaning`).
#![tactic(auto)]

mod law;

pub use law::{
    bodies_for_all_roots, bodies_stay, ends_for_all_roots, ends_stay, kept_results_stay,
    loads_for_all_roots, loads_in_plans, loads_stay, one_end_by_needs, one_end_by_texts,
    one_module_by_needs, one_module_end_by_needs, one_outcome_by_needs, one_reading_by_texts,
    one_result_by_needs, one_run_by_needs, parts_have_results, parts_run, readings_stay,
};
