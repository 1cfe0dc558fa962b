//! Finds the words, values and counts that the fault of a run is about.
//!
//! A run keeps nothing for this and pays no step. After the fault its store is frozen, and the parts of the statement
//! that stopped are evaluated again in a store of their own. The first part that stops with the same code is entered,
//! and so on, down to an expression whose parts do not stop so. The fault is about this expression and the values of
//! its parts; the turns that led there are its place. A part that cannot be evaluated without a change of the frozen
//! store, or that takes too many steps, has no value; then the fault may stay unexplained. A part that stops only since
//! the store is frozen now is left again.
//!
//! - `look::seek` is the way in; `roots` finds the statement that stopped, and its frame among the cells;
//! - `search` finds the part at fault, `parts` has the parts of an expression in the order of their evaluation;
//! - `forms` handles statements, `unpacking` iterables and the targets that their items are bound to;
//! - `abouts`, `calls`, `fits` and `formats` report the values at fault; `shown` makes the texts of values.
//!
//! No report depends on this crate. Proved of it is only that it is safe and ends.
#![tactic(auto)]

mod abouts;
mod calls;
mod fits;
mod formats;
mod forms;
pub mod look;
mod parts;
mod roots;
mod search;
mod shown;
mod unpacking;
