//! The values that are kept from one request to the next, so that only the work for changes is done again.
//!
//! - `parses` has the results of parsing texts. A text that a label had before is not parsed again. Of the others, the
//!   ones that are reached are parsed (`ahead`). If the texts have more bytes than may be kept, the ones go first that
//!   no request has reached for the longest time.
//! - `readings` has the results of reading the files that the last request reached. They borrow from trees that lie in
//!   an arena, and a change takes out only those of the files that it changes.
//! - `outcomes` has the ends of the files that the last request reached and that ended well. Begin at `Outcomes::after`:
//!   it marks those that stay when the files change, and answers the others beside them.
//! - `lasting` finds, among these others, the ends that stay though files that they need have changed: all that they
//!   load of these is the same data as before, which `same` sees in the stores. Begin at `Change::lasting`.
//! - `compared` has the files before and after a change, whose texts are compared once for all of these.
//! - `release` frees values by threads of their own.
//!
//! The promise is the contract of each function: each value that is kept for a file is the result of parsing its text,
//! or its end in every run of the files as they are (`specs`). That an end stays is a law of `star_needs`, and so is
//! that it lasts.
#![tactic(auto)]

mod ahead;
pub mod compared;
pub mod lasting;
pub mod outcomes;
pub mod parses;
pub mod readings;
mod release;
mod same;
