//! Laws of what is hidden from a run.

ghost use Rattle.star_unseen.specs.Laws.{FilesRunTheSame, FilesWithoutLoadsRunTheSame, VisibleValuesAreSeen};

/// A visible value leads to the same cell over both shelves.
pub fn visible_values_are_seen()
    ensures { VisibleValuesAreSeen }
{}

/// A file in which nothing is misplaced, and of which the loaded globals are shared, has the same outcome over both
/// shelves and outlines: the same globals, texts, cells, lines and steps left, or the same fault, line and printed
/// lines. If it ends well, neither a global nor a cell leads to anything hidden.
pub fn files_run_the_same()
    ensures { FilesRunTheSame }
{}

/// So has a file that may load nothing, as the prelude's may not.
pub fn files_without_loads_run_the_same()
    ensures { FilesWithoutLoadsRunTheSame }
{}
