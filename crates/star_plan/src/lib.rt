//! The meaning of many files together: which files are loaded, how each ends, and the report. Definitions and laws, no
//! code (`docs/LOADING.md`).
//!
//! A plan is the roots, the prelude, the mode, and the result of reading each file. In reading order:
//!
//! - `specs/Plan` and `Reading`: the plan, and the result of reading a file;
//! - `Reached`: the roots, and all files that they lead to by loads;
//! - `Results`: the result of each file, by depth of loads, and so its outcome: a module, a fault, a failed load;
//! - `Causes`: the file or the cycle by which a file with a failed load fails in the end;
//! - `Report` and `Text`: the report, and its text as JSON.
//!
//! The laws in `law` say that all this is well defined: files have one plan, a plan gives each file one outcome and one
//! cause, and one text is its report. The host and the report are proved against these definitions.
#![tactic(auto)]

mod law;

pub use law::{
    causes_follow, cycle_is_cause, cycles_turn, each_has_outcome, each_has_report, fault_is_cause,
    files_may_run, given_holds_needs, good_files_have_outcomes, good_loads_have_prelude,
    needs_of_loads, no_cycle_is_good, one_cause, one_module, one_outcome, one_plan, one_report,
    one_shelf, one_text, outcomes_tell, plans_are_ready, plans_fit, plans_place_names,
    plans_run_by_places, puts_stay_tight, reached_by_walks, reached_is_least, readings_make_plans,
    results_agree, results_stay, runs_leave_own, runs_over_loads, shelves_hold_results,
};
