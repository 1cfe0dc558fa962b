//! Reading files: lexing, parsing and resolving all files that the roots reach, before any of them runs.
//!
//! - `Reader` has all that is needed to read a run's files. `Reader::read_all` reads them. `Read` is the result for a
//!   file: its program, or its static fault (`StaticFault`, in `code`). `Reads` has them by file number.
//! - `Trees` owns the trees. Programs borrow them, so whoever keeps `Reads` keeps the trees too.
//! - `ahead` lets several threads read files as they are found. `reading` then goes over the reached files in one
//!   thread, takes the files that were read ahead and reads the others. So the result is the same as with one thread.
//!   A caller who has read some of the files before gives these readings, and none is read ahead.
//! - `parses` parses a text once, if several need its tree. `roots` marks the files that are roots.
//!
//! Begin at `files.rt::read_files`. The promise is its clause `read`: the result has exactly the files that the roots
//! reach, each with the reading that the definition (`star_plan/specs/Reading`) gives it.
#![tactic(auto)]

mod ahead;
pub mod code;
pub mod files;
pub mod parses;
pub mod reading;
pub mod record;
pub mod roots;
