//! Laws: reports as lines.

ghost use Rattle.star_lines.specs.Joins.{ReportsJoin, JoinsAreReports};
ghost use Rattle.star_lines.specs.Lines.{ReportsAreLines};

/// The text of a report that leaves no module out is a line for `--join`.
pub fn reports_are_lines()
    ensures { ReportsAreLines }
{}

/// The join of reports is the report of all their roots.
pub fn reports_join()
    ensures { ReportsJoin }
{}

/// What is written of the join of the texts of reports is the text of the report of all their roots.
pub fn joins_are_reports()
    ensures { JoinsAreReports }
{}
