//! Walks over values: equality, order, texts (`str` and `repr`), JSON, and the truth of a value (`docs/LANGUAGE.md`,
//! "Equality, order, keys and texts").
//!
//! A visit is a step of such a walk. Each visit pays a step from a `Budget` and opens a level, so values that contain
//! themselves do no harm: a walk ends with the fault `Steps` or `Deep` at the latest. `truth` visits nothing.
//!
//! The promise of each: the answer, the steps and the fault are those of its definition, which is in
//! `star_store/specs`: `Equal`, `Order`, `Text`, `Json`, `Truth`. Keys of dictionaries have a walk of their own, beside the
//! indexes (`star_store/src/key.rt`). Begin at `equal.rt`.
#![tactic(auto)]

pub mod draft;
pub mod encode;
pub mod equal;
mod line;
pub mod order;
mod quoted;
pub mod text;
pub mod truth;
