//! What an editor asks about the text of one file: what stands at a place, where it is defined, where it is named, and
//! what can be written there.
//!
//! - `Index` is the index of a text: made once for each version of it, it owns what it answers with. It has a `Mention`
//!   for each name of the text. Which variable a name means is the resolver's answer (`star_scope`).
//! - `navigation` goes from a mention to its definition and to the other mentions, and renames a variable.
//! - `names` has the names that can be read at a place.
//! - `context` tells what is being written at a place, also in a text that does not parse.
//!
//! Places are bytes of the text. A text that does not parse has an index with nothing in it: an editor keeps the index of
//! the version before it.
#![tactic(auto)]

pub mod context;
mod expressions;
pub mod function;
pub mod index;
pub mod mention;
pub mod names;
pub mod navigation;
mod statements;
mod walk;
