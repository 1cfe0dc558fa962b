//! Laws of the report with the further members that are wanted of each module, and of the graph of loads.

ghost use Rattle.star_report.specs.Laws.{EdgesAreLoads, EdgesStandOnce, NoneDropped, NoneTwice, NothingMore, OneFullText, ReportAsBefore};

/// If no option asks for more, the report is the plain one.
pub fn nothing_more_wanted()
    ensures { NothingMore }
{}

/// A plan has at most one report for given options.
pub fn one_full_text()
    ensures { OneFullText }
{}

/// If no option asks for more, the plain report is written.
pub fn report_as_before()
    ensures { ReportAsBefore }
{}

/// The edges of the graph are exactly the loads of load statements of reached files.
pub fn edges_are_loads()
    ensures { EdgesAreLoads }
{}

/// No edge comes twice.
pub fn edges_stand_once()
    ensures { EdgesStandOnce }
{}

/// Each public global is among the values, with its data, or among the opaque names. No other global is in either.
pub fn none_dropped()
    ensures { NoneDropped }
{}

/// No global of a file that ended well is in both, or in one of them twice.
pub fn none_twice()
    ensures { NoneTwice }
{
    star_once::globals_stand_once();
}
