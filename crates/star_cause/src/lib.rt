//! Why a file fails by its loads: the file or the cycle that is to blame.
//!
//! A file with a failed load fails by the first of its loads that is not good. So from each file one path leads on,
//! from file to file, and ends at a file with a fault of its own, or in a cycle. Begin at `Causes::new` and
//! `Causes::of` in `causes.rt`.
//!
//! - `Causes` has the end of every path. `ends` walks each path once, so all of it takes time in proportion to the
//!   number of files.
//! - `Cause` is the answer for one file: `Culprit` or `Cycle`.
//!
//! The promise is the clause `cause` of `Causes::of`: it is the cause by the definition, `star_plan/specs/Causes`.
#![tactic(auto)]

mod cause;
mod causes;
mod ends;

pub use cause::Cause;
pub use causes::Causes;
