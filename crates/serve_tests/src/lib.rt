//! Tests of the host and of the calls from bytes to bytes, as far as no use of the program shows them: the cache, the
//! schedule, bodies that run at the same time or once, values that are kept, streams and folders that fail, what other
//! programs call, and the layout of many parameters (`parameters.rt`). Reports, refusals and requests are tested on the
//! program, in `tests/` of the repository.
//!
//! A `Gate` (`meeting.rt`) makes loaders meet, so that the tests show loaders at work at the same time. The cache is
//! tested alone too, with a small product (`cache/kept.rt`). In `bytes.rt` and `bytes/` the streams are scripted, and
//! tell their bytes to contracts; the folders are in memory, and tell their content. Begin at `together.rt`.
//!
//! One crate has all these tests, since each crate of tests costs minutes before its first proof.
#![tactic(auto)]

#[cfg(test)]
mod again;
#[cfg(test)]
mod alone;
#[cfg(test)]
mod bytes;
#[cfg(test)]
mod cache;
#[cfg(test)]
mod flow;
#[cfg(test)]
mod held;
#[cfg(test)]
mod library;
#[cfg(test)]
mod meeting;
#[cfg(test)]
mod parameters;
#[cfg(test)]
mod runs;
#[cfg(test)]
mod together;
#[cfg(test)]
mod traces;
