//! The environment of a run: all programs, the published stores, variables, and load statements.
//!
//! - `World` is the environment: the `Setting` of the running file (`star_machine`), and the programs of all files. It
//!   keeps the running file's program at hand.
//! - `Files` and `Programs` have the resolved program of each file (`star_scope`), by its number.
//! - `Layout` is how the parameters of a definition take the first slots of its frame. It is made once for each
//!   definition with more than 16 parameters (`layouts`, `orders`), so that a call of it goes through its arguments and
//!   not through all parameters.
//!
//! Begin at `variables.rt`: `read` and `bind` a name by its spot, a number of frames up and a slot there, and
//! `paid_frame` makes a frame (the variables of one call). `loads` binds the names of a load statement; `construct`
//! makes functions, strings, lists and dictionaries.
//!
//! Invariant of `World`: the definitions and blocks that its setting names are the definitions and blocks of its
//! programs.
//!
//! The promise of each function is `Refines` of `star_machine`, by the definitions of variables by spots
//! (`star_meaning/specs/Places`). The law `spots_mean_names` says that this is the same as looking names up by their
//! text. See `docs/LANGUAGE.md`, "Blocks and variables".
#![tactic(auto)]

pub mod construct;
pub mod files;
pub mod layouts;
pub mod loads;
pub mod orders;
pub mod placed;
pub mod programs;
pub mod variables;
pub mod world;
