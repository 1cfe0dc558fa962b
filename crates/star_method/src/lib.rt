//! The methods of lists, dictionaries, sets and strings, but for `format` (`docs/LANGUAGE.md`, "Methods").
//!
//! There is a function `call_..` for each method, or for two or three that differ in one step. In the order of its
//! definition it unpacks the arguments, asks whether the receiver may be written, pays, and does the work.
//!
//! - `lists`, `dicts`, `sets` and `texts` have the methods of a type; `split` has `split` and `replace`.
//! - `characters` goes over strings character by character.
//!
//! Begin at the function of the method that you look for. Which value has which methods is decided in `star_attribute`.
//! Each function is given a `Call`. `Listed`, `Keyed`, `Case` and `Edge` say which of two or three methods is called;
//! the other types, `Set` and `Lookup`, are for the characters that `strip` takes off.
//!
//! The promise of each `call_..` is `Refines` of `star_machine`: it has the result of its definition in `star_meaning`
//! (`ListMethods`, `DictMethods`, `SetMethods`, `TextMethods`). `docs/EXTENDING.md` goes through the places that a new method
//! touches.
#![tactic(auto)]

mod characters;
pub mod dicts;
pub mod lists;
pub mod sets;
pub mod split;
pub mod table;
pub mod texts;
