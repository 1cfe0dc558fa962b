//! Values as data: the JSON of a value, or that it has none (`docs/USING.md`).
//!
//! Begin at `write_data` in `data.rt`. It visits no more values than the text of the value does. None, bools, ints and
//! strings are themselves, lists, tuples and sets are arrays, and structs and dictionaries whose keys are all strings
//! are objects with their members in byte order. Any other value has no JSON, and neither has a value that contains
//! one, or contains itself.
//!
//! - `Written` is the result: the text, and whether the JSON of the value was written after it.
//! - `law` has the consequences of the definition (`specs/Data`): a value keeps its JSON if cells are added or the
//!   store is frozen, no value that contains itself has JSON, and equal values have the same, if there is no set in the
//!   left one.
//!
//! The promise is the contract of `write_data`: exactly the JSON of the definition.
#![tactic(auto)]

pub mod data;
mod law;

pub use law::{
    data_is_plain, data_stays, equal_are_same, is_no_longer, no_cycle_is_data, one_data, one_json,
    parts_are_data, reads_back, serde_reads_back, text_tells,
};
