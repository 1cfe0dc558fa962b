//! Which files have all that they need, before anything runs.
//!
//! A file needs the files that it loads. It is sound if it can be used by itself and all that it needs is sound. So
//! neither it nor any file to which its needs lead is barred or lies on a cycle. Begin at `prospects` in `sound.rt`.
//!
//! The promise is its contract: it says which files are sound, by the definition (`specs/Sound`). For the others that
//! can be used by themselves it has the place of the first need that is not sound. It takes time in proportion to the
//! needs.
#![tactic(auto)]

mod sound;

pub use sound::{Prospect, prospects};
