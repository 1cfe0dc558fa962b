//! Bundles, which are files that come as one JSON object from labels to texts, and the refusals of the whole program
//! (`docs/USING.md`).
//!
//! - `bundle::asked_for` reads the bytes of a bundle and finds the roots and the prelude among its files. `AskedFor` is
//!   the result: the numbered files, the roots, the prelude.
//! - `error::ServeError` has every reason for a missing report. `text` is its line on standard error, `status` the exit
//!   status.
//!
//! Begin at `bundle.rt`, from its end. The promise is the contract of `asked_for`: exactly the files, roots and prelude
//! that bytes and words ask for, or the first refusal in the order of `docs/USING.md`, "Refusals".
#![tactic(auto)]

pub mod bundle;
pub mod error;
