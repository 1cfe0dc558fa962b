//! A host that stays up: requests on a stream of lines, one answer a line.
//!
//! `lines` cuts the stream into lines. `request` reads a line: changes of files, and a question about them. `standing`
//! has the files as the requests so far leave them, and the values that are kept for them (`star_memo`): the trees of
//! their texts, and the outcomes and the readings of the files that the last request reached. `answer` runs a request
//! and writes its answer. If the files are not sent, `folder` first looks at the files of a folder. `session` goes
//! through all requests. Readings borrow from an arena of trees. When it is full, both are freed: a generation has
//! ended. `weight` estimates how much memory files take, and `values` how much the values of their runs do; by this it is
//! decided what is kept.
//!
//! `--keep` is about memory beyond the largest request: who gives a bound thinks of the machine's memory. Outcomes that do
//! not stay go before the files run: old and new ones at once took three times the memory of a request. If the files take
//! more than `--keep` by the lowest estimate, memory counts more than time (`ballast_for`; `frugal` elsewhere): threads
//! that end do the work and the freeing, each loader has a ballast, and long lines have room of 32 MiB, so that the C
//! library gives the memory back.
//!
//! The form of requests and answers is in `docs/REQUESTS.md`.
#![tactic(auto)]

mod answer;
mod changes;
mod folder;
pub mod lines;
pub mod question;
mod refusal;
pub mod request;
pub mod session;
mod standing;
mod values;
mod weight;
