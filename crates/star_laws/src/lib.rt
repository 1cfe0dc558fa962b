//! Laws of the definitions, in the subject's own words: a check that the definitions have the intended meaning.
//!
//! The definitions of `star_meaning` and `star_store` are written as computations. The laws state their consequences.
//! Quotient and remainder make up the int again. A range has just the ints that its steps reach. Equal keys are the
//! same key. A call binds its arguments exactly if each parameter gets one. The counter of a list counts the loops that
//! are open over it. The core language stays as it is beside the extended one, in which what is
//! sorted by keys keeps its items, and what is merged of sets holds what unions, intersections and differences hold.
//!
//! Begin at `law.rt`. Each law is an empty function whose contract is the statement, with the section of
//! `docs/LANGUAGE.md` that it belongs to. `specs/` has a file for each subject. No code calls a law.
#![tactic(auto)]

mod law;

pub use law::{
    bound_as_given, bound_where_they_fit, core_calls_its_own, core_has_its_methods,
    core_has_no_keys, equal_keys_are_the_same, extended_has_them, files_begin_with_no_loop,
    given_names_differ, keys_have_equality, loops_are_counted, merged_sets_differ,
    merged_sets_hold, one_quotient, open_iterations_are_open_loops, quotient_and_remainder,
    ranges_have_their_items, ranges_step_to_their_stop, runs_end_their_loops,
    same_ranges_have_the_same_items, sorting_keeps_the_items,
};
