//! The order in which loaders take files: a file is handed out when all files that it loads have ended. It saves
//! waiting, and no promise of the host rests on it, since the cache refuses a file that may not run yet.
//!
//! - `Graph` says which file loads which, and `Importers` has for each file those that load it.
//! - `Schedule` has the files that are ready, and counts the loads that each other file still waits for.
//! - `Flow` puts the schedule under a lock, and lets loaders sleep while no file is ready.
//! - `Search` hands out files to readers as they are found, and others ahead of time to readers that would sleep.
//!
//! Begin at `schedule.rt`. It promises that a file which is handed out has no load that has not ended
//! (`Schedule::next`). `docs/LOADING.md` says how the host uses it.
#![tactic(auto)]

mod flow;
mod graph;
mod importers;
mod schedule;
mod search;

pub use flow::Flow;
pub use graph::Graph;
pub use importers::Importers;
pub use schedule::{Next, Schedule};
pub use search::Search;
