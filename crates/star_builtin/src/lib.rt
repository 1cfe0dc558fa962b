//! The built-in functions (`docs/LANGUAGE.md`, "Built-in functions").
//!
//! Begin at `calls::run_built_in`, the `match` over all of them. Each other file has one function or a group. In a file
//! the work on values comes first, and the functions `call_..` at its end unpack the arguments and do that work. Two
//! built-in functions that differ in one step share one function, which is given the choice between them.
//!
//! No built-in function runs a function of the program: for `key`, `star_eval` calls it between two steps of `orders`.
//! Each is given a `Call`, the type of `star_machine`; `Best`, `Form` and `Row` say which of two functions is called. It
//! has no state.
//!
//! The promise of each `call_..` is `Refines` of `star_machine`: it has the result of its definition in
//! `star_meaning/specs/BuiltIns`, the fault, the payments and the printed lines included.
#![tactic(auto)]

pub mod attributes;
pub mod bases;
pub mod best;
pub mod calls;
pub mod characters;
pub mod decoding;
pub mod dicts;
pub mod encoding;
mod ints;
pub mod numbers;
pub mod orders;
pub mod print;
pub mod ranges;
pub mod recorded;
pub mod rows;
pub mod sets;
pub mod sorted;
mod spelling;
pub mod structs;
pub mod truths;
