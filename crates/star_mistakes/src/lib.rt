//! The static faults of a file, for a person: the place of each, its word, and a cure (`docs/EXPLAIN.md`).
//!
//! The report has only the first fault of a file, with its line. So a text at fault is read once more here, and no run
//! has to keep more for it than it needs. Begin at `Sources::mistakes` in `statics.rt`.
//!
//! - `Mistake` is one fault: its `Mark` (a token of the text, or a part of a line), its code, its message, and help.
//! - `message` joins a message from its parts.
//! - `tokens` has texts that cannot be cut into tokens, and lines whose indentation fits no block.
//! - `grammar` finds the first token that the grammar does not read, and the tokens that could be there; `syntax` has
//!   the message.
//! - `names` finds undefined names, conflicts, bad loads and misplaced statements; `refused` has the messages, and
//!   `near` finds the name that was probably meant.
//! - `place` has lines and columns as an editor counts them.
//!
//! No report rests on any of this. It is proved to be safe and to end; its texts are tested.
#![tactic(auto)]

mod grammar;
pub mod message;
pub mod mistake;
mod names;
pub mod near;
pub mod place;
mod refused;
pub mod statics;
mod syntax;
mod tokens;
