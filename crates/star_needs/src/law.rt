//! Laws: the outcome of a file depends only on all that it needs. They are first about plans that agree on this, then
//! about files, by their labels and texts.

ghost use Rattle.star_needs.specs.Changed.{KeptResultsStay};
ghost use Rattle.star_needs.specs.Laws.{OneEndByNeeds, OneModuleByNeeds, OneOutcomeByNeeds, OneResultByNeeds};
ghost use Rattle.star_needs.specs.Laws.{OneRunByNeeds, PartsHaveResults, PartsRun};
ghost use Rattle.star_needs.specs.Texts.{BodiesForAllRoots, BodiesStay, EndsForAllRoots, EndsStay};
ghost use Rattle.star_needs.specs.Texts.{LoadsForAllRoots, LoadsInPlans, LoadsStay, OneEndByTexts};
ghost use Rattle.star_needs.specs.Texts.{OneModuleEndByNeeds, OneReadingByTexts, ReadingsStay};

/// The run of a file over the good outcomes of its loads is the same in a plan of files and in a part of it, whatever
/// the other files of the plan are.
pub fn parts_run()
    ensures { PartsRun }
{}

/// A file of the part has the same result in both at each depth.
pub fn parts_have_results()
    ensures { PartsHaveResults }
{}

/// A file has the same run in two plans, each of files of its own, that agree on all that it needs.
pub fn one_run_by_needs()
    ensures { OneRunByNeeds }
{}

/// It has the same result at each depth.
pub fn one_result_by_needs()
    ensures { OneResultByNeeds }
{}

/// It has the same outcome.
pub fn one_outcome_by_needs()
    ensures { OneOutcomeByNeeds }
{}

/// It has the same module of its own.
pub fn one_module_by_needs()
    ensures { OneModuleByNeeds }
{}

/// It is reported with the same end, which has its cause if a load failed.
pub fn one_end_by_needs()
    ensures { OneEndByNeeds }
{}

/// Its module ends the same, with the same stores and the same steps paid.
pub fn one_module_end_by_needs()
    ensures { OneModuleEndByNeeds }
{}

/// Two plans of files with the same labels: a file that both reach has the same reading in both, if its text and the
/// prelude's are the same.
pub fn one_reading_by_texts()
    ensures { OneReadingByTexts }
{}

/// Its module ends the same in both, if the texts of all that it needs are the same.
pub fn one_end_by_texts()
    ensures { OneEndByTexts }
{}

/// The end of a file in one plan is its end in each plan of the same files, prelude and mode that reaches it, whatever
/// the roots.
pub fn ends_for_all_roots()
    ensures { EndsForAllRoots }
{}

/// So is its body.
pub fn bodies_for_all_roots()
    ensures { BodiesForAllRoots }
{}

/// So are its loads.
pub fn loads_for_all_roots()
    ensures { LoadsForAllRoots }
{}

/// The loads of a file are those that it has in each such plan.
pub fn loads_in_plans()
    ensures { LoadsInPlans }
{}

/// A reading of a file stays one if the labels, its own text and the prelude's text stay.
pub fn readings_stay()
    ensures { ReadingsStay }
{}

/// So its loads stay.
pub fn loads_stay()
    ensures { LoadsStay }
{}

/// The ends of files that have among them all that they load stay, if the labels, their texts and the prelude's text
/// stay.
pub fn ends_stay()
    ensures { EndsStay }
{}

/// So do their bodies.
pub fn bodies_stay()
    ensures { BodiesStay }
{}

/// A good file stays as it was, with its own module, globals, texts, lines and paid steps, in two plans that agree on
/// it but for changed files: what it loads of these is the same data in both.
pub fn kept_results_stay()
    ensures { KeptResultsStay }
{
    star_unseen::files_run_the_same();
    star_unseen::files_without_loads_run_the_same();
}
