//! The files of a folder by a walk through all of it (`docs/USING.md`).
//!
//! - `Folder` is a trait: it lists folders and reads files, and its ghost members, which only contracts see, are its
//!   content. `DiskFolder` is a folder of a `Disk`, a trait of four calls; what the system's disk gives by them, no
//!   contract can know. `MemoryFolder` is a table, for tests and for callers who have files in memory.
//! - `walk::files_in` takes each file whose path is a label and whose name ends in `.star`, and stops at the first
//!   refusal. Folders that wait are on a stack on the heap (`state`), so a deep folder does no harm.
//!
//! Begin at `walk.rt`, from its end. The promise is the contract of `files_in`: the files are those of a whole walk
//! (`specs/Walk`) through the content that the folder tells, or the refusal is the first that the walk meets.
#![tactic(auto)]

pub mod disk;
pub mod folder;
pub mod law;
pub mod memory;
pub mod path;
mod places;
mod state;
pub mod system;
pub mod walk;
