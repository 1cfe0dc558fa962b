//! Laws that connect the files that a plan reaches with the labels that roots reach in a folder.

ghost use Rattle.star_reach.specs.Laws.{PlansReachAll, PlansReachNoMore};

/// The files that a plan of all files of a folder reaches are reached in the folder.
pub fn plans_reach_no_more()
    ensures { PlansReachNoMore }
{}

/// Where no reached file has a static fault, a plan of all files reaches each file that is reached in the folder.
pub fn plans_reach_all()
    ensures { PlansReachAll }
{}
