//! From input to output: the bytes of a bundle, or a folder, to the bytes of the report.
//!
//! - `serve::serve` reads a bundle from a `Source` to its end, finds the roots and the prelude among its files
//!   (`star_bundle`), runs them (`star_host`), and writes the report to a `Sink` by one write, and then the trace, if
//!   it is wanted. `dir::serve_dir` does so with all files of a folder, `repo::serve_repo` with those that roots reach.
//! - `Options` has what the command line asks for.
//! - `Source` and `Sink` (`stream`) are traits of byte streams. Their ghost members, which only contracts see, say
//!   which bytes they gave and took. `CountedReader` and `CountedWriter` (`ends`) are the streams of the real program:
//!   they count the calls that failed.
//! - `written` chooses the text: the report, globals of the roots, or the graph of loads. For a check (`star_check`)
//!   nothing is run. `trace` has a line for each refused load.
//! - `progress` shows a person how far a run is.
//!
//! Begin at `serve.rt`, from its end. The promise is the contract of `serve`: if it succeeds, it has read all input and
//! written exactly the report of the definitions (`specs/Serve`). If it fails, the error is the first refusal of the
//! rules, and nothing was written, unless the write failed. See `docs/USING.md`.
#![tactic(auto)]

pub mod dir;
pub mod ends;
pub mod progress;
mod read;
pub mod repo;
pub mod serve;
pub mod stream;
mod trace;
mod written;
