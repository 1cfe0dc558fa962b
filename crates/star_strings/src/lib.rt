//! The methods of strings that are functions of bytes: a table of them, and the work of each.
//!
//! - `table` has the methods with their names and the kinds of their arguments.
//! - `work` has the match that does the work of one; the other files have the work.
//! - `ints` has ints in other bases and hashes, and `characters` also the characters of numbers, for formats and
//!   functions.
//!
//! A method is its place in the table; its row in `specs/Table.antt` says what it answers. No value, no state and no
//! step is known here: `star_method` unpacks the arguments, pays, and makes values of the answer.
#![tactic(auto)]

mod cases;
pub mod characters;
mod classes;
mod cuts;
mod ends;
pub mod ints;
mod lines;
mod places;
mod splits;
pub mod table;
mod words;
mod work;
