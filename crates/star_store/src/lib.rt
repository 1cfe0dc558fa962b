//! Values, the heap of a module while it runs, and the frozen heaps of published modules.
//!
//! - `Value` is None, a bool, an int, a built-in function, or a reference to a `Cell` (a heap object): a string, range,
//!   tuple, list, dictionary, function, bound method, struct, or a frame of variables. A reference has the number of
//!   the file whose module made the cell, and the cell's index there.
//! - `Arena` is the heap, or store, of the running module. Cells are made, read and written, and never freed before the
//!   run ends. `freeze` turns it into a `Frozen`, which nothing changes any more. `Homes` has the frozen stores that a
//!   module can reach, by file number.
//! - A visit is a step of a walk over values. `key` is such a walk, the others are in `star_visit`: each visit pays a
//!   step from a `Budget` and opens a level, so values that contain themselves do no harm.
//! - A dictionary is a list of `Entries` in the order of insertion. If it is large, the arena has a `KeyIndex` for it:
//!   from the content of a key (the hashable value, with no references left) to the place of its entry. A key that
//!   another file made is there under the number of its value, and the `Table` of that file's store says which values
//!   have a content. Without an index a look-up is a walk, with the same answer. The hashes begin with the arena's seed
//!   (`seed.rt`).
//! - `arithmetic` has the operations on ints of 64 bits, `slots` the variables of a frame, `fields` the names and
//!   values of a struct, `layout` how JSON is laid out, `roomy` vectors with free places at their front.
//!
//! Begin at `values.rt`, then `arena.rt` and `arena/write.rt`.
//!
//! Invariant of `Arena` and `Frozen`: an index has just the keys of its dictionary. Nothing else is needed, since every
//! function has an answer for a reference that leads nowhere. The promises: a write is refused if another module made
//! the value (`Frozen`) or an iteration is open on it (`Iterating`), in an order that `Arena::write` states. Freezing
//! changes no value. Keys are exact in answer, steps and levels. The definitions are in `specs/`: `Store` and `Write`,
//! then a file for each walk. See `docs/LANGUAGE.md`, "Values" and "Equality, order, keys and texts".
#![tactic(auto)]

pub mod arena;
pub mod arithmetic;
pub mod budget;
pub mod content;
pub mod defaults;
pub mod fault;
pub mod fields;
mod globals;
mod index;
pub mod key;
mod key_index;
pub mod layout;
pub mod names;
pub mod range;
mod roomy;
mod seed;
pub mod slots;
mod table;
pub mod values;
