//! starload for C and for languages that call C: the report of a bundle into the caller's buffer, by the caller's own
//! thread.
//!
//! `starload_run` takes all that it needs by slices and answers by value. It keeps nothing between calls, and calls in
//! different threads may overlap. It requires nothing: each argument is checked. C must pass pointers that are what
//! their types say (`docs/EMBEDDING.md`).
#![tactic(auto)]

pub mod asked;
pub mod run;
