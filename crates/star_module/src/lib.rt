//! The run of a whole file, from its resolved program to its module.
//!
//! Begin at `run_body` in `module.rt`. It makes the file's own frame, runs its statements with at most 400 levels open,
//! takes the texts of its globals, and freezes its store (`docs/LANGUAGE.md`, "The end of a file").
//!
//! - `Outcome` is the result: a module (the frozen store, the globals with their texts, the printed lines, the steps
//!   that are left), or a fault with its line and the lines.
//! - `globals` picks the globals: the names that the file's own block binds, without those that it loads, in byte
//!   order.
//!
//! The promise is the contract of `run_body`, in clauses that can be read alone. `places`: the run is the file's
//! meaning with variables by their spots. `names`: it is its meaning by names, if the file is ready to run (the frames
//! of its functions fit their blocks). `fit`: after a good run all functions fit, so that the files that load this one
//! are ready in turn.
#![tactic(auto)]

mod globals;
pub mod module;

pub use module::{MOST_LEVELS, MOST_STEPS, Outcome, Remains, run_body};
