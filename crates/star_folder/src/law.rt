//! Law of whole walks, true of every folder.

ghost use Rattle.star_folder.specs.Laws.{VisitsAll};

/// A whole walk visits the top, and the places that its visited folders lead to, and nothing else.
pub fn visits_all()
    ensures { VisitsAll }
{}
