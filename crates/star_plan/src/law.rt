//! Laws of plans, outcomes and reports: files have one plan, a plan one outcome and one cause for each file, and one
//! text as its report.

ghost use Rattle.star_plan.specs.Laws.{CausesFollow, CycleIsCause, CyclesTurn, FaultIsCause, GivenHoldsNeeds, GoodFilesHaveOutcomes};
ghost use Rattle.star_plan.specs.Laws.{FilesMayRun, NeedsOfLoads, OutcomesTell, ReadingsMakePlans};
ghost use Rattle.star_plan.specs.Laws.{EachHasOutcome, EachHasReport, GoodLoadsHavePrelude, NoCycleIsGood, OneCause, OneModule, OneOutcome, OnePlan, OneReport, OneText};
ghost use Rattle.star_plan.specs.Laws.{OneShelf, PlansAreReady, PlansFit, PlansPlaceNames, PlansRunByPlaces, PutsStayTight};
ghost use Rattle.star_plan.specs.Laws.{ReachedByWalks, ReachedIsLeast, ResultsAgree, ResultsStay, RunsLeaveOwn, RunsOverLoads};
ghost use Rattle.star_plan.specs.Laws.{ShelvesHoldResults};

/// A file on a cycle of loads is good at no depth, nor is the next file on it.
pub fn no_cycle_is_good()
    ensures { NoCycleIsGood }
{}

/// The result of a file at a depth is its result at every greater depth.
pub fn results_stay()
    ensures { ResultsStay }
{}

/// A file has one result at all depths that have any.
pub fn results_agree()
    ensures { ResultsAgree }
{}

/// A file has at most one outcome.
pub fn one_outcome()
    ensures { OneOutcome }
{}

/// The outcome of a file says whether it is good.
pub fn outcomes_tell()
    ensures { OutcomesTell }
{}

/// The reached files are those to which the roots lead by loads.
pub fn reached_by_walks()
    ensures { ReachedByWalks }
{}

/// The reached files are in each set that has the roots and all files that its members load.
pub fn reached_is_least()
    ensures { ReachedIsLeast }
{}

/// A file has at most one cause.
pub fn one_cause()
    ensures { OneCause }
{}

/// A file with a fault of its own is its own cause.
pub fn fault_is_cause()
    ensures { FaultIsCause }
{}

/// If each file of a cycle fails by the next one, the cycle is the cause of the file from which it is listed.
pub fn cycle_is_cause()
    ensures { CycleIsCause }
{}

/// A file has the cause of the file by which it fails, unless it is on that cycle itself.
pub fn causes_follow()
    ensures { CausesFollow }
{}

/// The next file on a cycle has the cycle turned by one as its cause.
pub fn cycles_turn()
    ensures { CyclesTurn }
{}

/// A plan has at most one report.
pub fn one_report()
    ensures { OneReport }
{}

/// Readings of all roots and of all loads of files that were read, and of reached files alone, make a plan of the
/// files.
pub fn readings_make_plans()
    ensures { ReadingsMakePlans }
{}

/// Files have at most one plan for their roots, their prelude and their mode.
pub fn one_plan()
    ensures { OnePlan }
{}

/// Each reached file of a plan of files has an outcome.
pub fn each_has_outcome()
    ensures { EachHasOutcome }
{}

/// Each plan of files has a report: so there is a cause for each file that fails by a load.
pub fn each_has_report()
    ensures { EachHasReport }
{}

/// Files have at most one text that is the report of a plan of them, for their roots, their prelude and their
/// mode.
pub fn one_text()
    ensures { OneText }
{}

/// The outcome of a file without a static fault whose loads are good is the result of its run over theirs.
pub fn runs_over_loads()
    ensures { RunsOverLoads }
{}

/// Each module on the shelf of a result is the one that its own file's result has.
pub fn shelves_hold_results()
    ensures { ShelvesHoldResults }
{}

/// A file has at most one module of its own.
pub fn one_module()
    ensures { OneModule }
{}

/// If a file without a static fault has only good loads, then the prelude, if there is one, has no static fault.
pub fn good_loads_have_prelude()
    ensures { GoodLoadsHavePrelude }
{}

/// If the prelude has no static fault, the spots of a plan's programs and the numbers of the names of their blocks are
/// right for each of its files, in every run.
pub fn plans_place_names()
    ensures { PlansPlaceNames }
{}

/// If all loads of a file are good, each function that its run sees before it begins is one of its own file's
/// definitions, in frames that fit the blocks around it.
pub fn plans_fit()
    ensures { PlansFit }
{}

/// A file without a static fault whose loads are good: its run by places, by the programs of the plan, is its run by
/// names, and it gives its outcome.
pub fn plans_run_by_places()
    ensures { PlansRunByPlaces }
{}

/// A file without a static fault whose loads are good is ready to run. Its statements are among those of the plan's
/// programs, which are right for its run. Each function that it sees fits, and its local meaning is its outcome.
pub fn plans_are_ready()
    ensures { PlansAreReady }
{}

/// Good files have good outcomes.
pub fn good_files_have_outcomes()
    ensures { GoodFilesHaveOutcomes }
{}

/// A file needs its loads and all that these need.
pub fn needs_of_loads()
    ensures { NeedsOfLoads }
{}

/// The shelf that a run gets over good outcomes has the own modules of all files to which its file's loads lead, each
/// at its file's place, and nothing else. The module of the running file is not among them.
pub fn given_holds_needs()
    ensures { GivenHoldsNeeds }
{}

/// A shelf that has just these modules, and no place beyond the last of them, is the one that the run is given.
pub fn one_shelf()
    ensures { OneShelf }
{}

/// A shelf with no place beyond its last module stays so when a module is put up.
pub fn puts_stay_tight()
    ensures { PutsStayTight }
{}

/// The module that a good run puts up at its file's place is the file's own.
pub fn runs_leave_own()
    ensures { RunsLeaveOwn }
{}

/// A file without a static fault whose loads are good may run over each shelf that has the own modules of all files
/// that it needs and nothing else: its local meaning over this shelf is its outcome.
pub fn files_may_run()
    ensures { FilesMayRun }
{}
