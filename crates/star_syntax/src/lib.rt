//! The grammar of a Starlark file, and the readers of expressions: half of a recursive-descent parser, whose other half
//! is `star_parser`.
//!
//! The grammar is a table in `specs/` (`Expressions`, `Statements`), with one line for each production. It is read as a
//! parsing expression grammar: of several alternatives the first that reads is taken, and a repetition takes as many
//! rounds as it can. The table is left-factored, so reading takes time in proportion to the leaves. `specs/Grammar`
//! defines once how a table spells and reads tokens, so each function here has one short contract: it answers the
//! reading of its line of the table.
//!
//! - `leaf` turns tokens into leaves. A `ValuedToken` is a token with its value and its position. The readers go over
//!   leaves.
//! - `reader` has `Read`, the answer of every reader (a tree and the leaves after it; nothing, if its production is not
//!   there; or want of memory), and `Grammar`, the readers' state: how deep expressions may still nest.
//! - `operators`, `primary`, `display` and `call` are the readers, a function for each production, which is written
//!   above it. `expressions` ties them together. They recurse on the depth that is left, so no text makes them recurse
//!   deeper than the nesting limit.
//! - `make` turns an expression into a target, once an `=`, a sign or an `in` shows that it is one.
//!
//! Begin at `operators.rt`, from its end: `conditional` down to `climb`. The laws in `law` say what the grammar is
//! worth: a text has at most one reading (`one_reading`), and an expression that is written with all parentheses reads
//! back as itself (`reads_back`). See `docs/LANGUAGE.md`, "Grammar".
#![tactic(auto)]

mod call;
mod display;
pub mod expressions;
pub mod law;
pub mod leaf;
pub mod level;
pub mod make;
pub mod name;
mod operators;
mod primary;
pub mod reader;
