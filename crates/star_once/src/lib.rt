//! Laws of keys and globals that occur only once in all that a run leaves: no code.
//!
//! A dictionary has no key twice, and a module no global. The definitions of `star_meaning` do not say so. An
//! assignment looks for the key, and puts an entry at its place or after all others. A display refuses a key that it
//! has, and a call refuses a name that comes twice. A block has each of its names once. The laws state the
//! consequences:
//!
//! - After a run of any file, in its own store and in those that it sees, no dictionary has a string twice as a key. So
//!   the first premise of `star_data::equal_are_same` holds of all that the files of a plan leave: equal values have
//!   one JSON, if there is no set in the left one.
//! - No two globals of a module have the same name.
//!
//! Begin at `specs/Keys.antt`, `specs/Laws.antt` and `specs/Results.antt`. The proof is an induction over the whole
//! meaning (`proofs/Keeps` and the files that are named after it), beside that of `star_meaning`, whose facts it uses.
#![tactic(auto)]

mod law;

pub use law::{
    different_keys_stand_once, equal_results_are_same, files_keep_keys, frozen_keys_stand_once,
    globals_stand_once, loads_keep_keys, results_keep_keys, runs_keep_keys,
};
