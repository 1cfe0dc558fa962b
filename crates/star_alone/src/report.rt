//! The report of a run, written by the caller's own thread.

ghost use Rattle.std.specs.Prelude.{◌≡◌, ◌<◌, All, IfOk, length};
ghost use Rattle.star_report.specs.Pages.{AreWritten};
ghost use Rattle.star_report.specs.Shelf.{LeadToFiles};
ghost use Rattle.star_report.specs.Shown.{ReportsRun};

use star_cause::Causes;
use star_host::{Reads, Run};
use star_label::files::Files as Labels;
use star_reading::roots::roots_marked;
use star_report::pages::{Page, joined, pages_of};
use star_report::report::nexts_of;
use star_report::wanted::Wanted;
use std::alloc::{AllocError, Global};

/// Writes all pages, one after another.
fn write_each(alloc: Global, files: &Labels, causes: &Causes, wanted: Wanted, pages: &mut [Page])
    requires files { length causes.now ≡ length files.now }
    requires loads { All (λ p. All (λ l. l.file < length files.now) p.loads.now) pages.old }
    requires there { All (λ p. p.about.now.number < length files.now) pages.old }
    ensures { AreWritten wanted files.now causes.now pages.old pages.new }
{
    for i in 0..pages.len() {
        pages[i].write(alloc, files, causes, wanted);
    }
}

/// The report of a run for these roots over these files as its text, with its line end and with the further members of
/// each module that are wanted: the same bytes as by any number of threads. The error: an allocation failed.
pub(crate) fn report_alone(
    alloc: Global,
    files: &Labels,
    reads: &Reads,
    run: &mut Run,
    roots: &[usize],
    wanted: Wanted,
) -> Result<Vec<u8>, AllocError>
    requires loads { LeadToFiles files.now reads.now.all.items }
    requires files { length run.old.cells ≡ length files.now }
    ensures same { run.new ≡ run.old }
    ensures text { IfOk result (λ s. ReportsRun wanted files.now reads.now.all.items roots.now run.old s.items) }
{
    let nexts = nexts_of(alloc, files.len(), run)?;
    let causes = Causes::new(alloc, nexts)?;
    let mut kept = run.kept(alloc)?;
    let marks = roots_marked(alloc, files.len(), roots)?;
    let mut pages = pages_of(alloc, run, reads, kept.as_mut_slice(), wanted, &marks)?;
    write_each(alloc, files, &causes, wanted, pages.as_mut_slice());
    joined(alloc, run.begun(), pages.as_slice(), false)
}
