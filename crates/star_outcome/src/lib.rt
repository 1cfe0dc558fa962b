//! The result of a file, as other files get it. The types here carry the main promise of the host: the module of a file
//! has the file's outcome.
//!
//! - `Module` is how a file ended: a static fault, a failed load, a run-time fault with its printed lines, or a good
//!   run with its store.
//!   `Shown` has the globals that a good run leaves, with their texts.
//! - `Shelf` has a cell for each file. The file's module is published there once. A `Note` is a proof, in a type, that
//!   a cell has been set to a certain module. With it the module is read without a lock.
//! - `Told` is the product that the cache hands out for a file that has ended: its number, whether it is good, and a
//!   note. Its invariant is that the module has just the outcome that the definitions give its file.
//! - `OpenFile` is a file whose loads are being asked for, on the stack of a loader. It is not a frame of variables.
//!   `ReachableStores` and `StoreRow` collect the stores that its body may read.
//! - `Trace` has the refused loads. Each is on a cycle. `Run` is the result of a run: the modules of all reached files,
//!   by number. A `Ballast` fills the first heap of the memory of a loader. `GoodEnd` is the end of a file whose run went
//!   well. A caller may keep it, and give it to a later run. If files that it needs have changed since, it is stale:
//!   `lasting` puts its body over the stores that they have now.
//! - `RunId`, called `J` in signatures, is the identity of one run: its files, their plan, its shelf. Only contracts
//!   see it. It keeps the notes of two runs apart.
//!
//! Begin at `module.rt`, then `told.rt`. `told::headline` states the headline of `star_cache` for this product. See
//! `docs/LOADING.md`.
#![tactic(auto)]

pub mod good_end;
pub mod homes;
mod lasting;
pub mod memory;
pub mod module;
mod numbers;
pub mod open_file;
pub mod outcome;
pub mod reachable;
pub mod run_id;
pub mod shelf;
pub mod shown;
pub mod store_row;
pub mod told;
pub mod trace;
