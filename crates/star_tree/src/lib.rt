//! The syntax tree of a Starlark file: data, with no code of its own.
//!
//! There is one variant for each production of the grammar (`docs/LANGUAGE.md`, "Grammar"), and none for parentheses.
//!
//! - `Tree` is a file: its statements. A `Statement` has its `Position` and its `Form`; `Expression`, `Target`,
//!   `Clause`, `Argument` and `Parameter` are the parts.
//! - `Position` is a line and the number of a token, counted from the file's start. `Name` and `Literal` know theirs
//!   too.
//!
//! A tree is never changed once it is read: the resolver (`star_scope`) puts its results into tables by token numbers.
//! `Items` and `Boxed` (of `sqlite_items`) own the parts, so that a part can be lent out while the whole is shared.
#![tactic(auto)]

pub mod tree;
