//! The state of a run, and its operations on values.
//!
//! - `Machine` is the part that a run changes: the store of the running module, the active definitions, the steps that
//!   are left, the lines that were printed. Nearly every operation is a method of it.
//! - `Setting` is the part that stays: the running file, the published stores, the loads, the prelude's file.
//! - `Content` is the heap object of a value, borrowed; `Kind` is copied, to match on.
//! - `EvalError` is why a run stops: a fault of the language with its line, or want of memory.
//! - `DictBuilder` collects the entries of a new dictionary, `Pairs` has those that `dict` and `update` take.
//! - `sets` merges a set with others, for the methods and the operators of sets.
//! - `Call` is a call of a built-in function or of a method: the setting, the levels, the line and the arguments.
//!
//! Begin at `machine.rt`: payments, new cells, reading, iterating, equality, order, texts, writing. `unpack` unpacks
//! the arguments of a `Call`, `search` finds an equal item, `subscript` and `slices` turn indices into places, `cuts`
//! and `texts` work on the bytes of strings, `left` keeps the trail of a fault, which no contract knows.
//!
//! Invariant: cells and steps left together are fewer than 2^32, so a new cell always has a number.
//!
//! The promise of each operation is `Refines` (`specs/Refines`), and so it is in the crates above: on the same state it
//! has the result of its definition in `star_meaning` and leaves the same state, unless memory ran out. To pay is to
//! take steps (`docs/LANGUAGE.md`, "Steps and levels").
#![tactic(auto)]

pub mod call;
pub mod content;
pub mod cuts;
pub mod fault;
pub mod gathered;
mod left;
pub mod machine;
pub mod pairs;
mod search;
pub mod sets;
pub mod setting;
pub mod slices;
pub mod subscript;
pub mod texts;
pub mod unpack;
