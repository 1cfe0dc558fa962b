//! The operators of expressions: those operations on values that built-in functions and methods do not need.
//!
//! - `operators`: `+ - * // % & | ^ << >>` (`operate`) and `+ - ~ not` before an operand (`prefix`). It looks first
//!   whether both operands are ints, since most are.
//! - `comparisons`: `== != < > <= >=`, `in` and `not in` (`comparison`).
//! - `percent`: `%` on a string; `letters` makes the text of each value.
//! - `subscript`: `x[i]` (`index`) and `x[i] = v` (`set_index`).
//! - `slices`: `x[a:b:c]` (`slice`).
//!
//! Begin with the last function of a file: it has the `match` over types, and the work is above it. It has no types of
//! its own and no state.
//!
//! The promise of each function is `Refines` of `star_machine`: it has the result of the definition of the same name in
//! `star_meaning` (`Operators`, `Percent`, `Subscript`), the fault and the payments included. See `docs/LANGUAGE.md`,
//! "Operators".
#![tactic(auto)]

pub mod comparisons;
mod letters;
pub mod operators;
mod percent;
pub mod slices;
pub mod subscript;
