//! Attributes: `x.m`, a call of a bound method, and the method `format`.
//!
//! - `attributes` has the fields of structs, the members of `json` and the methods of each type by name:
//!   `read_attribute` looks one up.
//! - `methods` has the `match` that calls a bound method (`run_method`, which `call_method` calls).
//! - `formats` cuts the string of `format` at its braces, and `fields` finds the value that the text between two braces
//!   names.
//!
//! Begin at `attributes.rt`. A bound method is a heap object with its receiver. The work of all methods but `format` is
//! in `star_method`.
//!
//! The promise is `Refines` of `star_machine`, by `Attributes`, `Methods` and `Format` of `star_meaning`. See
//! `docs/LANGUAGE.md`, "Methods".
#![tactic(auto)]

pub mod attributes;
mod fields;
pub mod formats;
pub mod methods;
