//! Files on demand: the files that roots reach in a folder, each found by its label when a load statement asks for it
//! (`docs/USING.md`). Nothing is listed, and no text is parsed twice.
//!
//! - `Repo` is a trait: it finds the file of a label, and its ghost members, which only contracts see, say which files
//!   it has. `DiskRepo` is a folder of a disk, `MemoryRepo` a table. `top` says what is of a folder by where links lead.
//! - `reach::read_reached` goes in rounds (`round`): it looks up the labels of a round in byte order (`read`), parses
//!   their texts side by side (`parse`), and takes the labels that these load as the next round. `Reached` is the
//!   result: the numbered files, with their parsed trees.
//! - `known` has texts that were parsed before, which are not parsed again.
//! - `asked::read_asked` begins with the words of the command line.
//! - `RepoError` is a refusal with its label, and `wanting` finds the load statement to name beside it.
//! - `text::text_at` is the text of one file, apart from a run; `loads_of` has the labels that it loads.
//! - `WatchedRepo` is a `DiskRepo`, and keeps which labels have no file since a link leads out of the folder.
//!
//! Begin at `reach.rt`, from its end. The promise is the contract of `read_reached`: the files of the least set of
//! labels that has the roots and all loads of its members (`specs/Reach`), or the one refusal that comes first, by
//! round and then by label (`specs/Refusal`).
#![tactic(auto)]

pub mod asked;
pub mod disk;
pub mod error;
mod found;
pub mod known;
mod law;
pub mod mark;
pub mod memory;
pub mod parse;
pub mod reach;
mod read;
pub mod repo;
mod round;
pub mod text;
pub mod top;
pub mod wanting;
pub mod watched;

pub use law::{
    one_map, one_map_of_said, one_refusal, others_change_nothing, reached_by_rounds,
    reached_is_least, refused_or_not, same_where_reached,
};
