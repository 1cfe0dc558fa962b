//! The host: it loads and runs many files with several loaders (threads), and returns the modules of all files that the
//! roots reach.
//!
//! - `read_files` (of `star_reading`) reads the reached files before anything runs. `LoadContext` is the data that all
//!   loaders share: the read files, their programs, the shelf for modules, the roots, the steps.
//! - `running::run` starts a thread for each loader. A loader first takes files all of whose loads have ended
//!   (`star_flow`). Then it asks for the roots, one after another, since the files that are left are on a cycle or lead
//!   to one.
//! - `loading::load` loads one root: a stack of frames, each a file whose loads are asked for in order. The cache
//!   (`star_cache`) answers that the file is the loader's to run, that it has ended, that it would close a cycle, or
//!   lets the loader wait.
//! - `work` runs a body, with no lock held, and publishes its module. `settle` collects the modules when all loaders
//!   are done.
//! - `Gate` has hooks that are called before all bodies and around each one, for tests and for callers that watch.
//!
//! Begin at `loading.rt`, with `take_turn`, then `running.rt`.
//!
//! The promise is the contract of `run`: the modules of exactly the reached files, in order, each with its file's
//! outcome (`star_plan`), for 1 to 64 loaders. As many files were begun as there are modules. Both public ways, `load`
//! and `run`, are described in `docs/LIBRARY.md`, the protocol in `docs/LOADING.md`.
#![tactic(auto)]

mod common;
pub mod gate;
pub mod loading;
pub mod options;
mod order;
pub mod running;
pub mod settle;
mod table;
mod work;

pub use common::LoadContext;
pub use loading::{LoadError, load};
pub use options::{Known, RunOptions};
pub use running::{RunError, run, run_in};
pub use star_outcome::good_end::GoodEnd;
pub use star_outcome::memory::{Ballast, Size};
pub use star_outcome::outcome::Run;
pub use star_outcome::run_id::RunId;
pub use star_outcome::shelf::Shelf;
pub use star_outcome::told::Told;
pub use star_outcome::trace::{CyclicLoad, OnCycle, Token, Trace};
pub use star_reading::files::{Texts, read_files, read_parsed};
pub use star_reading::parses::Parsed;
pub use star_reading::reading::{Reads, Trees};
pub use table::programs;
