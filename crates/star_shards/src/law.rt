//! Laws: what the text of JSON data is for a join. No code.

ghost use Rattle.star_shards.specs.Data.{DataAreOneLine, ObjectsAreEntries, ObjectsEnd};
ghost use Rattle.star_shards.specs.Lines.{LinesAreCut, OneReport, ReportsAreOneLine};

/// The text of an object ends with the bracket that closes its first one.
pub fn objects_end()
    ensures { ObjectsEnd }
{}

/// The text of an object with a label and a status is an entry with these.
pub fn objects_are_entries()
    ensures { ObjectsAreEntries }
{}

/// The text of JSON data has no line end.
pub fn data_are_one_line()
    ensures { DataAreOneLine }
{}

/// Nor has the text of a report with entries that have none.
pub fn reports_are_one_line()
    ensures { ReportsAreOneLine }
{}

/// The lines of texts without line ends, one after another with a line end each, are these texts.
pub fn lines_are_cut()
    ensures { LinesAreCut }
{}

/// A line is the text of one report.
pub fn one_report()
    ensures { OneReport }
{}
