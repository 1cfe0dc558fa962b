//! Chooses and makes the text that is written of a run: the report, the globals of the roots, the graph of loads, or
//! the check of the files (`serve` runs nothing for that).

ghost use Rattle.std.specs.Prelude.{◌≡◌, ◌<◌, [], ℕ, All, IfOk, List, false, length, string_bytes, true};
ghost use Rattle.star_report.specs.Got as spec;
ghost use Rattle.star_plan.specs.Plan.{Plan};
ghost use Rattle.star_reading.specs.Readings.{Row};
ghost use Rattle.star_report.specs.Drawn.{LeadWithin};
ghost use Rattle.star_outcome.specs.Kept.{AllGood, RunView};
ghost use Rattle.star_report.specs.Output.{IsSaid};
ghost use Rattle.star_report.specs.declared.wanted.Output.TheVariants as output;
ghost use Rattle.star_serve.specs.Written.{IsGotWritten, IsLackBelow, IsLineOf, IsTextOf};

use crate::serve::{Job, Options};
use star_check::check::{Checked, check};
use star_host::{Reads, Run};
use star_label::files::Files;
use star_outcome::memory::threads_for;
use star_report::calls::calls_of_roots;
use star_report::got::{Got, Lack, globals_of};
use star_report::graph::graph;
use star_report::report::{ReportOptions, all_good, report};
use star_report::wanted::{Output, Wanted};
use std::alloc::{AllocError, Global};
use std::thread::Threads;

/// The text that is written of a run, a line to write beside it, and the answer.
#[derive(Drop)]
pub struct Written {
    /// The text.
    pub text: Vec<u8>,
    /// The line that is written beside it, or nothing.
    pub said: String,
    /// The answer: whether all modules are ok, or each root has the global that is wanted.
    pub all_ok: bool,
}

/// A text, and as the answer whether all modules are ok.
fn with_answer(alloc: Global, run: &mut Run, text: Vec<u8>) -> Written
    ensures same { run.new ≡ run.old }
    ensures text { result.text.items ≡ text.items }
    ensures good { result.all_ok ≡ true → AllGood run.old.kept }
    ensures bad { result.all_ok ≡ false → AllGood run.old.kept → ⊥ }
    ensures said { string_bytes result.said ≡ [] }
{
    let all_ok = all_good(run);
    let said = String::new(alloc);
    Written { text, said, all_ok }
}

/// The report, with the further members that are wanted. The answer is whether all modules are ok.
fn report_written<R: Threads + Sync>(
    rt: &R,
    alloc: Global,
    job: &Job<'_, '_>,
    reads: &Reads,
    run: &mut Run,
    wanted: Wanted,
    loaders: usize,
) -> Result<Written, AllocError>
    requires files { length run.old.cells ≡ length job.now.asked.now.files }
    requires reads { length reads.now.all.items ≡ length job.now.asked.now.files }
    requires loads { LeadWithin reads.now.all.items }
    ensures same { run.new ≡ run.old }
    ensures text { let a = job.now.asked.now in IfOk result (λ w.
        IsTextOf (output.Report wanted) a.files a.roots.items reads.now.all.items run.old w.text.items w.all_ok) }
    ensures said { IfOk result (λ w. (plan : Plan)
        → IsSaid (output.Report wanted) job.now.asked.now.files plan w.all_ok (string_bytes w.said)) }
{
    let files = &job.asked.files;
    let roots = job.asked.roots.as_slice();
    let frugal = job.ballast.is_some();
    let options = ReportOptions {
        wanted,
        threads: threads_for(loaders, frugal),
        frugal,
    };
    let text = report(rt, alloc, files, reads, run, roots, options)?;
    Ok(with_answer(alloc, run, text))
}

/// The graph of loads. The answer is whether all modules are ok.
fn graph_written(
    alloc: Global,
    files: &Files,
    reads: &Reads,
    run: &mut Run,
) -> Result<Written, AllocError>
    requires files { length run.old.cells ≡ length files.now }
    requires reads { length reads.now.all.items ≡ length files.now }
    requires loads { LeadWithin reads.now.all.items }
    ensures same { run.new ≡ run.old }
    ensures text { IfOk result (λ w. (roots : List ℕ)
        → IsTextOf output.Graph files.now roots reads.now.all.items run.old w.text.items w.all_ok) }
    ensures said { IfOk result (λ w. (plan : Plan)
        → IsSaid output.Graph files.now plan w.all_ok (string_bytes w.said)) }
{
    let text = graph(alloc, files, reads, run)?;
    Ok(with_answer(alloc, run, text))
}

/// The line for the first root that has no data for a name.
fn lack_line(alloc: Global, files: &Files, root: usize, why: Lack) -> Result<String, AllocError>
    requires { root < length files.now }
    ensures { IfOk result (λ s. string_bytes s ≡ spec.lack_line files.now root why) }
{
    let root = files.label(root).text();
    let why = why.text();
    format!(in alloc; "starload: {root}: {why}\n")
}

/// These lines, or else the line about a root.
fn got_written(alloc: Global, files: &Files, got: Got) -> Result<Written, AllocError>
    requires { IsLackBelow (length files.now) got }
    ensures { IfOk result (IsGotWritten files.now got) }
{
    match got {
        Got::Lines(text) => Ok(Written {
            text,
            said: String::new(alloc),
            all_ok: true,
        }),
        Got::Lack { root, why } => Ok(Written {
            text: Vec::new(alloc),
            said: lack_line(alloc, files, root, why)?,
            all_ok: false,
        }),
    }
}

/// The globals of the roots, if each has its own, or else the line about the first root that has none.
fn globals_written(
    alloc: Global,
    files: &Files,
    run: &mut Run,
    roots: &[usize],
    name: &String,
) -> Result<Written, AllocError>
    requires files { length run.old.cells ≡ length files.now }
    requires roots { All (λ n. n < length files.now) roots.now }
    ensures same { run.new ≡ run.old }
    ensures text { IfOk result (λ w. (row : Row)
        → IsTextOf (output.Global name.now) files.now roots.now row run.old w.text.items w.all_ok) }
    ensures said { IfOk result (λ w. (row : Row)
        → IsLineOf (output.Global name.now) files.now roots.now row run.old w.all_ok (string_bytes w.said)) }
{
    let got = globals_of(alloc, files, run, roots, name.as_str())?;
    got_written(alloc, files, got)
}

/// The calls of a name that the roots recorded, if all roots are ok, or else the line about the first that is not.
fn calls_written(
    alloc: Global,
    files: &Files,
    run: &mut Run,
    roots: &[usize],
    name: &String,
) -> Result<Written, AllocError>
    requires files { length run.old.cells ≡ length files.now }
    requires roots { All (λ n. n < length files.now) roots.now }
    ensures same { run.new ≡ run.old }
    ensures text { IfOk result (λ w. (row : Row)
        → IsTextOf (output.Calls name.now) files.now roots.now row run.old w.text.items w.all_ok) }
    ensures said { IfOk result (λ w. (row : Row)
        → IsLineOf (output.Calls name.now) files.now roots.now row run.old w.all_ok (string_bytes w.said)) }
{
    let got = calls_of_roots(alloc, files, run, roots, name.as_str())?;
    got_written(alloc, files, got)
}

/// The check of the files that were read. The answer is whether there is nothing against any file.
fn check_written(
    alloc: Global,
    files: &Files,
    reads: &Reads,
    roots: &[usize],
    only_roots: bool,
    calls: bool,
) -> Result<Written, AllocError>
    requires loads { LeadWithin reads.now.all.items }
    requires reads { length reads.now.all.items ≡ length files.now }
    ensures text { IfOk result (λ w. (run : RunView)
        → IsTextOf (output.Check only_roots calls) files.now roots.now reads.now.all.items run w.text.items w.all_ok) }
    ensures said { IfOk result (λ w. (plan : Plan)
        → IsSaid (output.Check only_roots calls) files.now plan w.all_ok (string_bytes w.said)) }
{
    // A call of the files lets the checker use that they are in order.
    let _count = files.len();
    let it = check(alloc, files, reads, roots, only_roots, calls)?;
    let Checked { text, all_ok, .. } = it;
    let said = String::new(alloc);
    Ok(Written { text, said, all_ok })
}

/// The text that is wanted of a run, and its answer.
pub(crate) fn written_of<R: Threads + Sync>(
    rt: &R,
    alloc: Global,
    job: &Job<'_, '_>,
    reads: &Reads,
    run: &mut Run,
    options: &Options,
) -> Result<Written, AllocError>
    requires files { length run.old.cells ≡ length job.now.asked.now.files }
    requires reads { length reads.now.all.items ≡ length job.now.asked.now.files }
    requires loads { LeadWithin reads.now.all.items }
    requires roots { All (λ n. n < length job.now.asked.now.files) job.now.asked.now.roots.items }
    ensures same { run.new ≡ run.old }
    ensures text { let a = job.now.asked.now in IfOk result (λ w.
        IsTextOf options.now.output a.files a.roots.items reads.now.all.items run.old w.text.items w.all_ok) }
    ensures said { let a = job.now.asked.now in IfOk result (λ w.
        IsLineOf options.now.output a.files a.roots.items reads.now.all.items run.old w.all_ok (string_bytes w.said)) }
{
    let files = &job.asked.files;
    let roots = job.asked.roots.as_slice();
    match &options.output {
        Output::Report(wanted) => {
            report_written(rt, alloc, job, reads, run, *wanted, options.loaders)
        }
        Output::Global(name) => globals_written(alloc, files, run, roots, name),
        Output::Calls(name) => calls_written(alloc, files, run, roots, name),
        Output::Graph => graph_written(alloc, files, reads, run),
        Output::Check { only_roots, calls } => {
            check_written(alloc, files, reads, roots, *only_roots, *calls)
        }
    }
}
