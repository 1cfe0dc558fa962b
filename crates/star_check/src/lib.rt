//! The verdicts on files before any of them runs: which have a static fault, which fail since a file that their loads
//! lead to has one or since their loads lead in a circle, and which have nothing against them. Nothing is run
//! (`docs/USING.md`).
//!
//! - `check::check` reads the files that roots reach and makes the text. Begin there.
//! - `judge::judge` gives the verdict on each (`Judged`, in `verdict`), by its reading: `star_sound` finds the files
//!   that have all that they need, and `star_cause` why the others do not.
//! - `text` writes it, in the form of the report of a run. The report has the same JSON for a file that fails
//!   (`failed`).
//!
//! The promise is the contract of `check`: the text is the text of the definition (`specs/Check`, `specs/Text`), for
//! any number of threads, and the answer is whether each reached file is sound. By a law (`law`) a file that is not
//! sound never becomes ok in a run.
#![tactic(auto)]

pub mod check;
pub mod failed;
pub mod judge;
mod law;
mod text;
pub mod verdict;

pub use law::good_is_sound;
