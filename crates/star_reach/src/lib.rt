//! Laws that connect two definitions of the files that are loaded. No code.
//!
//! A plan of all files of a folder reaches files by their numbers (`star_plan`). Roots reach labels in the folder
//! (`star_repo`). Every file that such a plan reaches is reached in the folder. If the plan has a root, and no file
//! that it reaches has a static fault, the two reach the same files.
//!
//! Begin at `law.rt`. The crate is apart because it needs both `star_plan` and `star_repo`, and neither needs the
//! other. See `docs/USING.md`.
#![tactic(auto)]

mod law;

pub use law::{plans_reach_all, plans_reach_no_more};
