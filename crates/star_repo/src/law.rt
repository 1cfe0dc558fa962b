//! Laws of reached labels and of refusals, true of every folder.

ghost use Rattle.star_repo.specs.Laws.{OneMap, OneMapOfSaid, OneRefusal, OthersChangeNothing, ReachedByRounds, ReachedIsLeast, RefusedOrNot, SameWhereReached};

/// The reached labels are in each set that has the roots, the prelude and all labels that the texts of its members
/// load.
pub fn reached_is_least()
    ensures { ReachedIsLeast }
{}

/// A label is reached just if it is reached after some number of loads.
pub fn reached_by_rounds()
    ensures { ReachedByRounds }
{}

/// There is at most one map of the files of a run.
pub fn one_map()
    ensures { OneMap }
{}

/// A folder that tells the file at each label has at most one such map.
pub fn one_map_of_said()
    ensures { OneMapOfSaid }
{}

/// Files at labels that are not reached change nothing.
pub fn others_change_nothing()
    ensures { OthersChangeNothing }
{}

/// At the reached labels, the map of a run has exactly the files of the map of the whole folder.
pub fn same_where_reached()
    ensures { SameWhereReached }
{}

/// The files of a run are refused at one label and for one reason, whatever the number of loaders, unless a read fails.
pub fn one_refusal()
    ensures { OneRefusal }
{}

/// Files of a run that all pass are not refused, unless a read fails.
pub fn refused_or_not()
    ensures { RefusedOrNot }
{}
