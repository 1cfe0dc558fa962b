//! The report of a bundle by the caller's own thread: no lock, no handle, nothing that waits. So a static library,
//! whose exports may reach neither a thread nor a lock, can be built on it.
//!
//! - `reading::read_alone` reads the files that the roots reach, one after another.
//! - `running::run_alone` loads the roots over the book of the cache itself (`cache`), for one loader, which never
//!   waits. `loading` takes the turns, and the work for each file is `star_host`'s.
//! - `answer::answer_alone` goes from the bytes of a bundle to the text of its report: `report` writes the pages of
//!   `star_report` one after another.
//!
//! Begin at `loading.rt`, with `take_turn`. The promises are two contracts. `run_alone` has the contract of
//! `star_host::run_in` for one loader, clause by clause. `answer_alone` has the contract of `star_serve::serve` for
//! bytes in place of streams.
#![tactic(auto)]

pub mod answer;
mod cache;
mod loading;
pub mod reading;
mod report;
pub mod running;
