//! The answer to a request.

ghost use Rattle.std.specs.Prelude.{◌≡◌, ◌<◌, ◌≤◌, ◌⊎◌, All, IfErr, IfOk, IfSome, Ok, OnOk, length, map};
ghost use Rattle.star_serve.specs.Serve.{IsOutputFor};
ghost use Rattle.serde_json.specs.Data.{Data};
ghost use Rattle.star_bundle.specs.View.{asked_view};
ghost use Rattle.star_memo.specs.Compared.{AreSame};
ghost use Rattle.star_memo.specs.Readings.{AreReadings};
ghost use Rattle.star_memo.specs.Lasting.{AreEndsNow};
ghost use Rattle.star_memo.specs.Parses.{AreKept};
ghost use Rattle.star_reading.specs.Found.{Within};
ghost use Rattle.star_report.specs.declared.wanted.Output.TheVariants as output;
ghost use Rattle.star_session.specs.Answers.{IsRefusalOf, IsReportOf, IsReportText, IsReported};
ghost use Rattle.star_memo.specs.Outcomes.{AreAlike, AreOutcomes};
ghost use Rattle.star_session.specs.Changes as spec;
ghost use Rattle.star_session.specs.Changes.{change_of};
ghost use Rattle.star_session.specs.Kept.{IsStanding};
ghost use Rattle.star_session.specs.Requests.{IsIdText, asked_by, question_of};

use crate::changes::files_after;
use crate::refusal::line_of;
use crate::request::Request;
use crate::standing::{Last, Standing, Staying};
use crate::weight::{Limits, Spent, are_values_large, ballast_for, spent_on};
use star_bundle::bundle::{AskedFor, asked_in};
use star_bundle::error::ServeError;
use star_dialect::Mode;
use star_label::files::Files;
use star_memo::compared::Compared;
use star_memo::lasting::first_to_run;
use star_memo::outcomes::{Outcomes, Terms, free_ends};
use star_memo::parses::Parses;
use star_memo::readings::Readings;
use star_outcome::good_end::GoodEnd;
use star_outcome::memory::{Ballast, Size};
use star_reading::reading::Read;
use star_reading::record::are_recordable;
use star_report::wanted::{Output, Wanted};
use star_serve::serve::{Finished, Job, Options, written_over};
use std::alloc::{AllocError, Global};
use std::sync::Wait;
use std::thread::Threads;
use std::{mem, thread};

/// A report without its line end, the good ends of the files that were reached, and the numbers of these files.
#[derive(Drop)]
struct Reported {
    text: Vec<u8>,
    ends: Vec<Option<GoodEnd>>,
    reached: Vec<usize>,
    ballasts: Vec<Ballast>,
}

/// Runs the roots that are asked for. A file whose end stays is not run again, and one whose reading stays is not read
/// again; after it the readings of the run are there too.
fn run_over<H: Threads + Wait + Sync>(
    rt: &H,
    alloc: Global,
    asked: &AskedFor,
    staying: &mut Staying<'_>,
    options: &Options,
) -> Result<Finished, ServeError>
    requires ends { AreEndsNow asked.now.files asked.now.prelude options.now.mode staying.old.outcomes.all.items }
    requires readings { AreReadings asked.now.files staying.old.readings }
    requires seen { staying.old.readings.prelude ≡ asked.now.prelude }
    requires language { staying.old.readings.language ≡ options.now.mode.language }
    requires roots { All (λ n. n < length asked.now.files) asked.now.roots.items }
    requires prelude { IfSome asked.now.prelude (λ n. n < length asked.now.files) }
    requires loaders { (1 ≤ options.now.loaders) × (options.now.loaders ≤ 64) }
    requires steps { (1 ≤ options.now.mode.steps) × (options.now.mode.steps ≤ 100000000) }
    ensures kinds { IfErr result (λ e. (e ≡ ServeError.Memory) ⊎ (e ≡ ServeError.Unpublished)) }
    ensures text { let o = options.now in IfOk result (λ f.
        IsOutputFor o.output (asked_view asked.now) o.mode f.written.text.items f.written.all_ok) }
    ensures ends { IfOk result (λ f.
        AreOutcomes asked.now.files asked.now.prelude options.now.mode f.ends.items) }
    ensures readings { IfOk result (λ _. AreReadings asked.now.files staying.new.readings) }
    ensures seen { staying.new.readings.prelude ≡ staying.old.readings.prelude }
    ensures language { staying.new.readings.language ≡ staying.old.readings.language }
    ensures parses { staying.new.parses ≡ staying.old.parses }
    ensures outcomes { staying.new.outcomes ≡ staying.old.outcomes }
    ensures former { staying.new.former ≡ staying.old.former }
    ensures same { staying.new.same ≡ staying.old.same }
{
    // Its length says that the files are in order.
    let _ = asked.files.len();
    let arena = staying.arena;
    let ballast = staying.ballast;
    let ends = staying.outcomes.all.as_slice();
    let readings = &mut staying.readings;
    let job = Job {
        asked,
        trees: &arena.trees,
        parses: readings.parses.as_slice(),
        ballast,
    };
    let finished = written_over(rt, alloc, &job, ends, &mut readings.reads, options)?;
    readings.reads.take_others();
    Ok(finished)
}

/// The files that are reached first: the roots that are asked for, and the prelude.
fn first_files(alloc: Global, asked: &AskedFor) -> Result<Vec<usize>, AllocError> {
    let mut first: Vec<usize> = asked.roots.iter().copied().collect(alloc)?;
    if let Some(n) = asked.prelude {
        first.push(n)?;
    }
    Ok(first)
}

/// Parses the texts that are reached, unless they have trees, by at most `threads` threads, and keeps the trees. The
/// error: an allocation failed.
fn parse_asked<H: Threads + Wait + Sync>(
    rt: &H,
    alloc: Global,
    asked: &AskedFor,
    parses: &mut Parses,
    reads: &[Option<Read<'_>>],
    threads: usize,
) -> Result<(), AllocError>
    requires { AreKept asked.now.files parses.old.all.items }
    ensures { IfOk result (λ _. AreKept asked.now.files parses.new.all.items) }
{
    let first = first_files(alloc, asked)?;
    parses.parse_reached(rt, alloc, &asked.files, reads, first, threads)
}

/// The words of the block that stays of a ballast that fills a heap.
const PAD_WORDS: usize = 1 << 11;

/// A block that leaves a hole for that of a later ballast in the same part of the memory, before the ballast of this thread.
/// Otherwise it would lie after what this thread has made, and hold that heap. None if there is no memory for it.
fn hole_for(alloc: Global, size: Size) -> Option<Vec<u64>> {
    match size {
        Size::Block => None,
        Size::Heap => Vec::with_capacity(alloc, PAD_WORDS).ok(),
    }
}

/// Parses the texts that are reached, unless they have trees, and keeps the trees. If memory counts more than time, one
/// thread of its own does so, and ends: the thread of the session stays, and of what it takes and frees, the C library
/// keeps much between all that is kept. The error: an allocation failed.
fn parse_first<H: Threads + Wait + Sync>(
    rt: &H,
    alloc: Global,
    asked: &AskedFor,
    staying: &mut Staying<'_>,
    loaders: usize,
) -> Result<(), AllocError>
    requires { AreKept asked.now.files staying.old.parses.all.items }
    ensures parses { IfOk result (λ _. AreKept asked.now.files staying.new.parses.all.items) }
    ensures readings { staying.new.readings ≡ staying.old.readings }
    ensures outcomes { staying.new.outcomes ≡ staying.old.outcomes }
    ensures former { staying.new.former ≡ staying.old.former }
    ensures same { staying.new.same ≡ staying.old.same }
{
    let reads = staying.readings.reads.all.as_slice();
    let parses = &mut staying.parses;
    let Some(size) = staying.ballast else {
        return parse_asked(rt, alloc, asked, parses, reads, loaders);
    };
    let mut apart = || -> (Result<(), AllocError>, Option<Ballast>)
        requires { AreKept asked.now.files parses.now.all.items }
        ensures { IfOk result.0 (λ _. AreKept asked.entry.now.files parses.exit.now.all.items) }
    {
        let hole = hole_for(alloc, size);
        let ballast = Ballast::new(alloc, size).ok();
        let parsed = parse_asked(rt, alloc, asked, parses, reads, 1);
        drop(hole);
        (parsed, ballast)
    };
    let ((parsed, ballast), ()) = thread::join_mut(rt, &mut apart, &mut || ());
    staying.parser = ballast;
    parsed
}

/// The options for the report of a run in this mode, with the further members that are wanted.
fn options_of(
    alloc: Global,
    wanted: Wanted,
    loaders: usize,
    mode: &Mode,
    seed: u64,
) -> Result<Options, AllocError>
    ensures loaders { IfOk result (λ o. o.loaders ≡ loaders) }
    ensures mode { IfOk result (λ o. o.mode ≡ mode.now) }
    ensures steps { IfOk result (λ o. o.mode.steps ≡ mode.now.steps) }
    ensures language { IfOk result (λ o. o.mode.language ≡ mode.now.language) }
    ensures output { IfOk result (λ o. o.output ≡ output.Report wanted) }
{
    Ok(Options {
        roots: Vec::new(alloc),
        prelude: None,
        loaders,
        mode: mode.share(alloc)?,
        output: Output::Report(wanted),
        trace: false,
        dir: None,
        explain: None,
        progress: None,
        seed,
    })
}

/// The report that is asked for, made with the kept values that stay. The texts that are reached are parsed first,
/// unless they have trees, and their trees are kept. A file whose reading stays is not read again.
fn report_of<H: Threads + Wait + Sync>(
    rt: &H,
    alloc: Global,
    asked: &AskedFor,
    staying: &mut Staying<'_>,
    wanted: Wanted,
    loaders: usize,
    mode: &Mode,
) -> Result<Reported, ServeError>
    requires parses { AreKept asked.now.files staying.old.parses.all.items }
    requires ends { AreEndsNow asked.now.files asked.now.prelude mode.now staying.old.outcomes.all.items }
    requires readings { AreReadings asked.now.files staying.old.readings }
    requires seen { staying.old.readings.prelude ≡ asked.now.prelude }
    requires language { staying.old.readings.language ≡ mode.now.language }
    requires roots { All (λ n. n < length asked.now.files) asked.now.roots.items }
    requires prelude { IfSome asked.now.prelude (λ n. n < length asked.now.files) }
    requires loaders { (1 ≤ loaders) × (loaders ≤ 64) }
    requires steps { (1 ≤ mode.now.steps) × (mode.now.steps ≤ 100000000) }
    ensures kinds { IfErr result (λ e. (e ≡ ServeError.Memory) ⊎ (e ≡ ServeError.Unpublished)) }
    ensures report { IfOk result (λ r. IsReportText wanted (asked_view asked.now) mode.now r.text.items) }
    ensures ends { IfOk result (λ r. AreOutcomes asked.now.files asked.now.prelude mode.now r.ends.items) }
    ensures parses { IfOk result (λ _. AreKept asked.now.files staying.new.parses.all.items) }
    ensures readings { IfOk result (λ _. AreReadings asked.now.files staying.new.readings) }
    ensures seen { staying.new.readings.prelude ≡ staying.old.readings.prelude }
    ensures language { staying.new.readings.language ≡ staying.old.readings.language }
    ensures outcomes { staying.new.outcomes ≡ staying.old.outcomes }
    ensures former { staying.new.former ≡ staying.old.former }
    ensures same { staying.new.same ≡ staying.old.same }
{
    let options = options_of(alloc, wanted, loaders, mode, staying.seed)?;
    parse_first(rt, alloc, asked, staying, loaders)?;
    let arena = staying.arena;
    staying
        .readings
        .take_parses(rt, arena, &asked.files, &staying.parses)?;
    let Finished {
        written,
        ends,
        reached,
        ballasts,
    } = run_over(rt, alloc, asked, staying, &options)?;
    let mut text = written.text;
    text.pop();
    Ok(Reported {
        text,
        ends,
        reached,
        ballasts,
    })
}

/// Runs these files, which have changed, and answers the good ends of the files that they reach.
fn run_changed<H: Threads + Wait + Sync>(
    rt: &H,
    alloc: Global,
    asked: &mut AskedFor,
    changed: Vec<usize>,
    staying: &mut Staying<'_>,
    loaders: usize,
    mode: &Mode,
) -> Result<Vec<Option<GoodEnd>>, ServeError>
    requires changed { All (λ n. n < length asked.old.files) changed.items }
    requires parses { AreKept asked.old.files staying.old.parses.all.items }
    requires ends { AreEndsNow asked.old.files asked.old.prelude mode.now staying.old.outcomes.all.items }
    requires readings { AreReadings asked.old.files staying.old.readings }
    requires seen { staying.old.readings.prelude ≡ asked.old.prelude }
    requires language { staying.old.readings.language ≡ mode.now.language }
    requires prelude { IfSome asked.old.prelude (λ n. n < length asked.old.files) }
    requires loaders { (1 ≤ loaders) × (loaders ≤ 64) }
    requires steps { (1 ≤ mode.now.steps) × (mode.now.steps ≤ 100000000) }
    ensures asked { asked.new ≡ asked.old }
    ensures kinds { IfErr result (λ e. (e ≡ ServeError.Memory) ⊎ (e ≡ ServeError.Unpublished)) }
    ensures ends { IfOk result (λ ends. AreOutcomes asked.old.files asked.old.prelude mode.now ends.items) }
    ensures parses { IfOk result (λ _. AreKept asked.old.files staying.new.parses.all.items) }
    ensures readings { IfOk result (λ _. AreReadings asked.old.files staying.new.readings) }
    ensures seen { staying.new.readings.prelude ≡ staying.old.readings.prelude }
    ensures language { staying.new.readings.language ≡ staying.old.readings.language }
    ensures outcomes { staying.new.outcomes ≡ staying.old.outcomes }
    ensures former { staying.new.former ≡ staying.old.former }
    ensures same { staying.new.same ≡ staying.old.same }
{
    let roots = mem::replace(&mut asked.roots, changed);
    let reported = report_of(rt, alloc, asked, staying, Wanted::NOTHING, loaders, mode);
    asked.roots = roots;
    let Reported { ends, .. } = reported?;
    Ok(ends)
}

/// The numbers of the changed files that are to be run first. None if no outcome can last by it, or if the outcomes that
/// they had take more than half of the memory that may be kept. The error: an allocation failed.
fn first_within(
    alloc: Global,
    compared: &Compared<'_>,
    former: &[Option<GoodEnd>],
    keep: usize,
) -> Result<Option<Vec<usize>>, AllocError>
    ensures some { IfOk result (λ r. IfSome r (λ _. 0 < length former.now)) }
    ensures within { IfOk result (λ r. IfSome r (λ ns. Within compared.now.files ns.items)) }
{
    let first = first_to_run(alloc, compared, former)?;
    match first {
        Some(changed) if are_values_large(alloc, former, &changed, keep / 2) => Ok(None),
        _ => Ok(first),
    }
}

/// Runs the changed files, and then adds the ends of the files that stay though files that they need have changed. So
/// these need not run again.
fn keep_lasting<H: Threads + Wait + Sync>(
    rt: &H,
    alloc: Global,
    before: &Files,
    asked: &mut AskedFor,
    staying: &mut Staying<'_>,
    limits: Limits,
    mode: &Mode,
) -> Result<(), ServeError>
    requires prelude { IfSome asked.old.prelude (λ n. n < length asked.old.files) }
    requires loaders { (1 ≤ limits.loaders) × (limits.loaders ≤ 64) }
    requires steps { (1 ≤ mode.now.steps) × (mode.now.steps ≤ 100000000) }
    requires parses { AreKept asked.old.files staying.old.parses.all.items }
    requires outcomes { AreOutcomes asked.old.files asked.old.prelude mode.now staying.old.outcomes.all.items }
    requires terms { staying.old.outcomes.terms ≡ record { prelude = asked.old.prelude; mode = mode.now } }
    requires former { AreOutcomes before.now asked.old.prelude mode.now staying.old.former.items }
    requires alike { 0 < length staying.old.former.items → AreAlike before.now asked.old.files asked.old.prelude }
    requires same { AreSame before.now asked.old.files staying.old.same.items }
    requires readings { AreReadings asked.old.files staying.old.readings }
    requires seen { staying.old.readings.prelude ≡ asked.old.prelude }
    requires language { staying.old.readings.language ≡ mode.now.language }
    ensures asked { asked.new ≡ asked.old }
    ensures kinds { IfErr result (λ e. (e ≡ ServeError.Memory) ⊎ (e ≡ ServeError.Unpublished)) }
    ensures ends { OnOk result
        (AreEndsNow asked.old.files asked.old.prelude mode.now staying.new.outcomes.all.items) }
    ensures terms { staying.new.outcomes.terms ≡ staying.old.outcomes.terms }
    ensures parses { OnOk result (AreKept asked.old.files staying.new.parses.all.items) }
    ensures readings { OnOk result (AreReadings asked.old.files staying.new.readings) }
    ensures seen { staying.new.readings.prelude ≡ staying.old.readings.prelude }
    ensures language { staying.new.readings.language ≡ staying.old.readings.language }
{
    let former = staying.former.as_slice();
    let compared = Compared::new(before, &asked.files, staying.same.as_slice());
    let Some(changed) = first_within(alloc, &compared, former, limits.keep)? else {
        return Ok(());
    };
    let ends = match run_changed(rt, alloc, asked, changed, staying, limits.loaders, mode) {
        Ok(ends) => ends,
        Err(error) => return Err(error),
    };
    staying.outcomes.add(ends);
    staying.add_lasting(rt, alloc, before, &asked.files)?;
    Ok(())
}

/// The files after a request, the values that are kept for them, the report that was asked for, the files that it
/// reached, and the ballasts of the threads that ran and parsed them.
#[derive(Drop)]
struct After<'t> {
    files: Files,
    parses: Parses,
    outcomes: Outcomes,
    readings: Readings<'t>,
    last: Last,
    reached: Vec<usize>,
    ballasts: Vec<Ballast>,
    parser: Option<Ballast>,
}

/// The threads that are at work on a request.
#[derive(Clone, Copy)]
struct Crew {
    /// How many run files, from 1 to 64.
    loaders: usize,
    /// The ballast of each, if memory counts more than time. Then one thread parses and reads the files. None if time
    /// counts more: then as many threads do so as run them.
    ballast: Option<Size>,
}

/// If the runs of all files took fewer steps than this in the last request, one loader runs them.
const FEW_STEPS: usize = 100_000;

/// How many threads are at work on a request with these files. If these take more memory than may be kept, memory counts
/// more than time: then one thread parses and reads, and it also runs the files if they took few steps in the last
/// request. The C library keeps a part of the memory for each thread, as large as the thread ever needed, and several
/// threads share work in another way in each request.
fn crew_for(files: &Files, limits: Limits, spent: Spent) -> Crew
    requires { (1 ≤ limits.loaders) × (limits.loaders ≤ 64) }
    ensures { (1 ≤ result.loaders) × (result.loaders ≤ 64) }
{
    let loaders = limits.loaders;
    let ballast = ballast_for(files, spent, limits);
    let few = spent.all_well && spent.steps < FEW_STEPS;
    let loaders = if ballast.is_some() && few { 1 } else { loaders };
    Crew { loaders, ballast }
}

/// Makes the changes of a request, and the report of the files after them.
fn report_after<'t, H: Threads + Wait + Sync>(
    rt: &H,
    alloc: Global,
    standing: &mut Standing<'t>,
    request: Request,
    limits: Limits,
) -> Result<After<'t>, ServeError>
    requires standing { IsStanding standing.old }
    requires loaders { (1 ≤ limits.loaders) × (limits.loaders ≤ 64) }
    requires steps { (1 ≤ request.question.mode.steps) × (request.question.mode.steps ≤ 100000000) }
    ensures files { standing.new.files ≡ standing.old.files }
    ensures standing { IsStanding standing.new }
    ensures after { IfOk result (λ a.
        a.files ≡ spec.files_after standing.old.files (map change_of request.changes.items)) }
    ensures parses { IfOk result (λ a. AreKept a.files a.parses.all.items) }
    ensures outcomes { IfOk result (λ a.
        AreOutcomes a.files a.outcomes.terms.prelude a.outcomes.terms.mode a.outcomes.all.items) }
    ensures readings { IfOk result (λ a. AreReadings a.files a.readings) }
    ensures question { IfOk result (λ a. a.last.question ≡ request.question) }
    ensures report { IfOk result (λ a. IsReportOf a.files (question_of a.last.question) a.last.report.items) }
    ensures refused { IfErr result (IsRefusalOf standing.old.files (asked_by request)) }
{
    let Request { changes, question } = request;
    let files = match files_after(alloc, &standing.files, changes) {
        Ok(files) => files,
        Err(error) => return Err(error),
    };
    let prelude = question.prelude.as_ref();
    let mut asked = match asked_in(alloc, files, question.roots.as_slice(), prelude) {
        Ok(asked) => asked,
        Err(error) => return Err(error),
    };
    if !are_recordable(question.mode.language.recorded.names()) {
        return Err(ServeError::BadRecord);
    }
    let (mode, wanted) = (&question.mode, question.wanted);
    let Crew { loaders, ballast } = crew_for(&asked.files, limits, standing.kept.spent);
    let terms = Terms {
        prelude: asked.prelude,
        mode: mode.share(alloc)?,
    };
    let mut staying = standing.staying(rt, alloc, &asked.files, terms, loaders, ballast)?;
    let limits = Limits { loaders, ..limits };
    let before = &standing.files;
    keep_lasting(rt, alloc, before, &mut asked, &mut staying, limits, mode)?;
    let former = mem::replace(&mut staying.former, Vec::new(alloc));
    free_ends(rt, alloc, former, loaders);
    let reported = report_of(rt, alloc, &asked, &mut staying, wanted, loaders, mode)?;
    let Reported {
        text: report,
        ends,
        reached,
        ballasts,
    } = reported;
    let Outcomes { all, terms } = staying.outcomes;
    free_ends(rt, alloc, all, loaders);
    Ok(After {
        files: asked.files,
        parses: staying.parses,
        outcomes: Outcomes { all: ends, terms },
        readings: staying.readings,
        last: Last { question, report },
        reached,
        ballasts,
        parser: staying.parser,
    })
}

/// The answer to a request, whose id is this JSON, and the files after it. If it is refused, the files stay as they
/// were before. If nothing has changed since the last report, and the same is asked, the answer is that report.
pub(crate) fn answered<H: Threads + Wait + Sync>(
    rt: &H,
    alloc: Global,
    standing: &mut Standing<'_>,
    id: &str,
    request: Request,
    limits: Limits,
) -> Result<Vec<u8>, ServeError>
    requires standing { IsStanding standing.old }
    requires loaders { (1 ≤ limits.loaders) × (limits.loaders ≤ 64) }
    requires steps { (1 ≤ request.question.mode.steps) × (request.question.mode.steps ≤ 100000000) }
    ensures standing { IsStanding standing.new }
    ensures reports { IfOk result (λ line. (d : Data) → IsIdText d id.now
        → IsReported standing.old.files d (asked_by request) standing.new.files line.items) }
    ensures refused { IfErr result (IsRefusalOf standing.old.files (asked_by request)) }
    ensures same { IfErr result (λ _. standing.new.files ≡ standing.old.files) }
{
    let frugal = standing.kept.ballast.is_some();
    if let Some(report) = standing.report_for(&request) {
        let known = line_of(alloc, id, "report", report, frugal)?;
        return Ok(known);
    }
    let after = match report_after(rt, alloc, standing, request, limits) {
        Ok(after) => after,
        Err(error) => return Err(error),
    };
    let frugal = standing.kept.ballast.is_some();
    let line = line_of(alloc, id, "report", after.last.report.as_slice(), frugal)?;
    let After {
        files,
        parses,
        outcomes,
        readings,
        last,
        reached,
        ballasts,
        parser,
    } = after;
    standing.files = files;
    standing.kept.spent = spent_on(alloc, &standing.files, &outcomes.all, &reached, limits);
    standing.kept.parses = parses;
    standing.kept.outcomes = outcomes;
    standing.kept.last = Some(last);
    standing.readings = readings;
    standing.kept.ballasts = ballasts;
    standing.kept.parser = parser;
    standing.trim(rt, alloc, &reached, limits);
    Ok(line)
}
