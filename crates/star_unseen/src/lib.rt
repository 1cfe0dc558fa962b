//! A run does not depend on what is hidden from it: laws, no code.
//!
//! Two shelves may have the same cells at the same places, but for hidden ones, and two rows of outlines the same ones,
//! but for those of hidden files (`specs/Shelves`: `Veil`). If the globals that a file loads and those of its prelude
//! are the same on both, and neither they nor any cell that is not hidden leads to a hidden cell or to a function of a
//! hidden file, then the run of the file has the same outcome over both. After a good end none of its globals and none
//! of its cells leads to anything hidden.
//!
//! So a file need not run again if a file that it loads has changed, but the loaded values have not: ints, or strings,
//! lists and dictionaries that are at the same places as before. A function of a changed file is hidden.
//!
//! Begin at `specs/Veil.antt` and `specs/Laws.antt`. The proof is an induction over the whole meaning, by pairs of
//! actions over the two shelves (`proofs/Alike` and the files that are named after the parts of `star_meaning`).
#![tactic(auto)]

mod law;

pub use law::{files_run_the_same, files_without_loads_run_the_same, visible_values_are_seen};
