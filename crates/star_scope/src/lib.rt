//! The resolver: names to variables, load statements to files, and the static faults of a file (`docs/LANGUAGE.md`,
//! "Scopes and static faults").
//!
//! `program::resolve` takes a tree and returns its `Program`, or its first static fault: the one whose token comes
//! first. Each kind of fault has its own walk over the tree, and the first fault of all walks is reported:
//!
//! - `placement`: misplaced statements;
//! - `loads`: load statements, and the files that they lead to;
//! - `conflicts`: names bound twice though one of the bindings must be the only one, and repeated parameters;
//! - `uses`: each name, with the block that binds it, or that it is undefined. Before, `star_outline` has collected the
//!   definitions and the blocks. `chain` has the blocks around a name.
//!
//! The main types:
//!
//! - `Program` is a resolved file. It borrows the tree, and has tables by token number: the `Spot` of each name, the
//!   `Definition` that begins at a token, the names of each block, the `Load`s.
//! - `Spot` is the binding of a name (starlark-go: `Binding`): a number of frames up and a slot there, or the prelude,
//!   or a built-in. So the evaluator never looks a name up by its text.
//! - A block is the file, a function or a comprehension: a part with its own variables. The file's block has number 0,
//!   the others one more than the number of their first token.
//! - `ScopeFault` is a static fault; `Prelude` is the file whose globals every file sees.
//!
//! Begin at `program.rt`, from its end. The promise is the contract of `resolve`: it answers exactly the first static
//! fault, or else exactly the loads, definitions, blocks and the spot of each name. The law `spots_lead` says that a
//! spot leads to the nearest binding of its name.
#![tactic(auto)]

pub mod chain;
pub mod conflicts;
pub mod error;
pub mod law;
pub mod loads;
pub mod placement;
pub mod program;
pub mod spot;
pub mod spots;
pub mod uses;
