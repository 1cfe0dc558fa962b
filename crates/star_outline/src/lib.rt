//! The outline of a file: its blocks with the names that each binds, its definitions, and the blocks that bind a name
//! (`docs/LANGUAGE.md`, "Scopes and static faults").
//!
//! A block is the file, a function or a comprehension: a part with its own variables. The file's block has number 0,
//! the others one more than the number of their first token. A definition is a `def`, a lambda or a comprehension, by
//! the number of its first token.
//!
//! - `outline::find_in_statements` walks the tree once and collects the definitions and the names of each block. Its
//!   parts are `names`, which binds targets, parameters and loaded names, and `blocks`, which gives a name its slot.
//! - `binders::Bound` has for each name the blocks that bind it, in the order of their numbers.
//! - `index` leads from a token to a row of these tables.
//!
//! Begin at `outline.rt`, from its end. The resolver (`star_scope`) builds on this crate. The definitions are in
//! `specs/`: `Outlines` (the walk), `Names` (slots), `Definitions`, `Binders`.
#![tactic(auto)]

pub mod binders;
pub mod blocks;
mod index;
pub mod names;
pub mod outline;
