//! The wire of the Language Server Protocol: frames, which carry messages, and positions, which name places of a text.
//!
//! - `frame` reads and writes frames: a message's bytes after a header that has their number. What was sent is what is
//!   read: `specs/Frame.antt` says which bytes a frame is, and the contracts of `write_frame` and `read_frame` meet there.
//! - `place` turns the byte offsets of a text into positions, lines with columns in units of UTF-16 or UTF-8, and back.
//!   The contract of `Places::offset` has the law that an offset on a character's boundary comes back.
#![tactic(auto)]

pub mod frame;
pub mod place;
