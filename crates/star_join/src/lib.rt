//! The report for more roots is the join of reports: laws, no code.
//!
//! Begin at `specs/Join.antt` and `specs/Laws.antt`.
#![tactic(auto)]

mod law;

pub use law::{
    answers_join, joins_count, joins_group, joins_join, joins_repeat, joins_turn, one_join,
    roots_are_a_set, roots_grow, roots_join, roots_reach, texts_join,
};
