//! A report of a session is what a process writes that is given all files at once: laws, no code.
//!
//! Begin at `specs/Laws.antt`.
#![tactic(auto)]

mod law;

pub use law::{
    bundles_are_files, bundles_reply, changes_follow, files_in_order, sessions_answer,
    sessions_are_processes, sessions_reply, sessions_serve, sessions_serve_among,
};
