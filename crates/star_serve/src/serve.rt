//! `serve`: from the bundle's bytes to the report's bytes. `Options` has what the command line asks for.

ghost use Rattle.std.specs.Prelude.{false, ◌≡◌, ◌+◌, ◌<◌, ◌≤◌, ◌⊎◌, ℕ, All, None, length, string_bytes, IfOk, IfErr, IfSome};
ghost use Rattle.star_bundle.specs.View.{asked_view};
ghost use Rattle.star_bundle.specs.Refusal.{reads_failed, writes_failed};
ghost use Rattle.star_outcome.specs.GoodEnds.{AreGoodEndsOf, AreReachedEnds};
ghost use Rattle.star_outcome.specs.Kept.{AreModulesOf};
ghost use Rattle.star_outcome.specs.Refusals.{AreRefusalsOf};
ghost use Rattle.star_reading.specs.Found.{AreKnown, IsReadOf};
ghost use Rattle.star_reading.specs.Parsed.{AreParsesOf};
ghost use Rattle.star_report.specs.Output.{InPlanOf};
ghost use Rattle.star_report.specs.declared.wanted.Output.TheVariants as output;
ghost use Rattle.star_serve.specs.Serve.{Asks, IsOutputFor, IsRefusedInput, IsRefusedRun, IsServed, IsTraced, Reports, asked_in, may_record};
ghost use Rattle.star_serve.specs.Trace.{IsSaidFor, is_said};

pub use crate::progress::Progress;
use crate::progress::Watched;
use crate::read::read_all;
use crate::stream::{Sink, Source};
use crate::trace::{say, write_some};
pub use crate::written::Written;
use crate::written::written_of;
use star_bundle::bundle::{AskedFor, asked_for};
use star_bundle::error::ServeError;
use star_check::check::{Checked, check};
use star_check::verdict::Judged;
use star_dialect::{Language, Mode};
pub use star_explain::explain::{Form, Style};
use star_explain::explain::{explain, explain_check};
use star_host::{
    Ballast, GoodEnd, Known, Parsed, Reads, Run, RunError, RunOptions, Texts, Trees, read_parsed,
    run_in,
};
use star_mistakes::statics::Sources;
use star_outcome::memory::{Size, threads_for};
use star_reading::record::are_recordable;
pub use star_report::wanted::{Output, Wanted};
use std::alloc::{AllocError, Global};
use std::mem;
use std::sync::{Arc, Wait};
use std::thread::Threads;

/// The request to the program, as its command line gives it.
#[derive(Debug, Drop)]
pub struct Options {
    /// How many loaders run, from 1 to 64.
    pub loaders: usize,
    /// The mode in which files run: a file may take from 1 to 100,000,000 steps.
    pub mode: Mode,
    /// The seed for the hashes of keys (`RunOptions`). No answer depends on it.
    pub seed: u64,
    /// The labels that are asked for, each word as it was given.
    pub roots: Vec<String>,
    /// The label of the prelude: the file whose names every other file sees.
    pub prelude: Option<String>,
    /// The kind of text that is written: the report, the globals of the roots, the graph of loads, or the check, which
    /// runs nothing.
    pub output: Output,
    /// Whether the refused loads are written after the report.
    pub trace: bool,
    /// The folder that has the files: none where the bundle is read.
    pub dir: Option<String>,
    /// The form of the message that tells a person, after the report and after the trace, what is at fault and where:
    /// none if no message is wanted.
    pub explain: Option<Form>,
    /// Where the loaders note how far the run is, for a thread that shows it (`progress::show`): none where there is no
    /// such thread.
    pub progress: Option<Arc<Progress>>,
}

/// The input that is asked for, with the trees of its files.
#[derive(Clone, Copy)]
pub struct Job<'a, 't> {
    /// The input that is asked for.
    pub asked: &'a AskedFor,
    /// Where the trees of the files are put.
    pub trees: &'t Trees,
    /// The results of parsing the texts that were parsed before, by the numbers of their files.
    pub parses: &'a [Option<Parsed<'t>>],
    /// The ballast of each loader, if memory counts more than time.
    pub ballast: Option<Size>,
}

/// A run, and its output.
#[derive(Drop)]
struct Answer {
    run: Run,
    written: Written,
}

/// Reads the files that the input reaches, runs none, and returns the check of them. The files whose readings are in
/// `reads` are not read again; after it `reads` has the readings of the files that are reached.
fn checked<'t, H: Threads + Wait + Sync>(
    rt: &H,
    alloc: Global,
    job: &Job<'_, 't>,
    reads: &mut Reads<'t>,
    loaders: usize,
    mode: &Mode,
    only_roots: bool,
    calls: bool,
) -> Result<Checked, AllocError>
    requires parses { AreParsesOf job.now.asked.now.files job.now.parses.now }
    requires reads { AreKnown job.now.asked.now.files job.now.asked.now.prelude mode.now.language
        reads.old.all.items }
    requires roots { All (λ n. n < length job.now.asked.now.files) job.now.asked.now.roots.items }
    requires prelude { IfSome job.now.asked.now.prelude (λ n. n < length job.now.asked.now.files) }
    ensures text { IfOk result (λ c.
        IsOutputFor (output.Check only_roots calls) (asked_in job.now) mode.now c.text.items c.all_ok) }
    ensures read { let a = job.now.asked.now in IfOk result (λ _.
        IsReadOf a.files a.roots.items a.prelude mode.now.language reads.new.all.items) }
    ensures others { let a = job.now.asked.now in IfOk result (λ _.
        AreKnown a.files a.prelude mode.now.language reads.new.others.items) }
{
    let files = &job.asked.files;
    let roots = job.asked.roots.as_slice();
    let texts = Texts {
        files,
        trees: job.trees,
        parses: job.parses,
        language: &mode.language,
    };
    let before = mem::replace(reads, Reads::new(alloc));
    let read = read_parsed(
        rt,
        alloc,
        texts,
        before,
        roots,
        job.asked.prelude,
        threads_for(loaders, job.ballast.is_some()),
    )?;
    let it = check(alloc, files, &read, roots, only_roots, calls)?;
    *reads = read;
    Ok(it)
}

/// Runs the roots that are asked for. The files whose readings are in `reads` are not read again; after it `reads` has
/// the readings of the files that are reached. `Memory`, or `Unpublished` where a module was not published.
fn answered<'t, H: Threads + Wait + Sync>(
    rt: &H,
    alloc: Global,
    job: &Job<'_, 't>,
    ends: &[Option<GoodEnd>],
    reads: &mut Reads<'t>,
    options: &Options,
) -> Result<Answer, ServeError>
    requires parses { AreParsesOf job.now.asked.now.files job.now.parses.now }
    requires reads { AreKnown job.now.asked.now.files job.now.asked.now.prelude options.now.mode.language
        reads.old.all.items }
    requires ends { let a = job.now.asked.now in
        AreGoodEndsOf a.files a.roots.items a.prelude options.now.mode ends.now }
    requires roots { All (λ n. n < length job.now.asked.now.files) job.now.asked.now.roots.items }
    requires prelude { IfSome job.now.asked.now.prelude (λ n. n < length job.now.asked.now.files) }
    requires loaders { (1 ≤ options.now.loaders) × (options.now.loaders ≤ 64) }
    requires steps { (1 ≤ options.now.mode.steps) × (options.now.mode.steps ≤ 100000000) }
    ensures kinds { IfErr result (λ e. (e ≡ ServeError.Memory) ⊎ (e ≡ ServeError.Unpublished)) }
    ensures text { let o = options.now in IfOk result (λ a.
        IsOutputFor o.output (asked_in job.now) o.mode a.written.text.items a.written.all_ok) }
    ensures said { let o = options.now in IfOk result (λ a.
        IsSaidFor o.output (asked_in job.now) o.mode a.written.all_ok (string_bytes a.written.said)) }
    ensures refused { let a = job.now.asked.now in IfOk result (λ answer.
        AreRefusalsOf a.files a.roots.items a.prelude options.now.mode answer.run.refused) }
    ensures cells { IfOk result (λ a. length a.run.cells ≡ length job.now.asked.now.files) }
    ensures modules { let a = job.now.asked.now in IfOk result (λ answer.
        AreModulesOf a.files a.roots.items a.prelude options.now.mode answer.run.kept) }
    ensures read { let a = job.now.asked.now in IfOk result (λ _.
        IsReadOf a.files a.roots.items a.prelude options.now.mode.language reads.new.all.items) }
    ensures others { let a = job.now.asked.now in IfOk result (λ _.
        AreKnown a.files a.prelude options.now.mode.language reads.new.others.items) }
{
    let asked = job.asked;
    let files = &asked.files;
    let roots = asked.roots.as_slice();
    let gate = Watched {
        rt,
        alloc,
        files,
        progress: options.progress.as_ref(),
    };
    let known = Known {
        trees: job.trees,
        parses: job.parses,
        ends,
    };
    let run_options = RunOptions {
        roots,
        prelude: asked.prelude,
        loaders: options.loaders,
        mode: &options.mode,
        seed: options.seed,
        ballast: job.ballast,
    };
    let outcome = run_in(rt, alloc, files, known, reads, run_options, &gate);
    gate.end();
    let mut run = match outcome {
        Ok(run) => run,
        Err(RunError::Memory) => return Err(ServeError::Memory),
        Err(RunError::Unpublished) => return Err(ServeError::Unpublished),
    };
    let written = written_of(rt, alloc, job, reads, &mut run, options)?;
    Ok(Answer { run, written })
}

/// The text of a check and its answer. `Memory` if an allocation failed.
fn check_over<'t, H: Threads + Wait + Sync>(
    rt: &H,
    alloc: Global,
    job: &Job<'_, 't>,
    reads: &mut Reads<'t>,
    options: &Options,
    only_roots: bool,
    calls: bool,
) -> Result<Written, ServeError>
    requires parses { AreParsesOf job.now.asked.now.files job.now.parses.now }
    requires reads { AreKnown job.now.asked.now.files job.now.asked.now.prelude options.now.mode.language
        reads.old.all.items }
    requires roots { All (λ n. n < length job.now.asked.now.files) job.now.asked.now.roots.items }
    requires prelude { IfSome job.now.asked.now.prelude (λ n. n < length job.now.asked.now.files) }
    ensures kinds { IfErr result (λ e. (e ≡ ServeError.Memory) ⊎ (e ≡ ServeError.Unpublished)) }
    ensures text { IfOk result (λ w.
        IsOutputFor (output.Check only_roots calls) (asked_in job.now) options.now.mode w.text.items w.all_ok) }
    ensures read { let a = job.now.asked.now in IfOk result (λ _.
        IsReadOf a.files a.roots.items a.prelude options.now.mode.language reads.new.all.items) }
    ensures others { let a = job.now.asked.now in IfOk result (λ _.
        AreKnown a.files a.prelude options.now.mode.language reads.new.others.items) }
{
    match checked(
        rt,
        alloc,
        job,
        reads,
        options.loaders,
        &options.mode,
        only_roots,
        calls,
    ) {
        Ok(it) => {
            let Checked { text, all_ok, .. } = it;
            let said = String::new(alloc);
            Ok(Written { text, said, all_ok })
        }
        Err(_) => Err(ServeError::Memory),
    }
}

/// The output of a run, the good ends of the files that it reached, by the numbers of the files, and the numbers of all
/// files that it reached. A check leaves neither ends nor numbers.
#[derive(Drop)]
pub struct Finished {
    pub written: Written,
    pub ends: Vec<Option<GoodEnd>>,
    pub reached: Vec<usize>,
    pub ballasts: Vec<Ballast>,
}

/// The numbers of the files that were read. The error: an allocation failed.
fn read_numbers(alloc: Global, reads: &Reads) -> Result<Vec<usize>, AllocError> {
    let mut numbers = Vec::with_capacity(alloc, reads.all.len())?;
    for n in 0..reads.all.len() {
        if reads.all[n].is_some() {
            numbers.push(n)?;
        }
    }
    Ok(numbers)
}

/// Frees a run, by a thread of its own if memory counts more than time.
fn free_run<H: Threads>(rt: &H, run: Run, frugal: bool) {
    if frugal {
        run.free_apart(rt);
    } else {
        drop(run);
    }
}

/// Runs the roots that are asked for, frees the run, and returns its output, with its good ends. For a check nothing is
/// run. A file whose good end is among `ends` is not run, and one whose reading is in `reads` is not read again; after
/// it `reads` has the readings of the files that are reached. `Memory`, or `Unpublished` where a module was not
/// published.
pub fn written_over<'t, H: Threads + Wait + Sync>(
    rt: &H,
    alloc: Global,
    job: &Job<'_, 't>,
    ends: &[Option<GoodEnd>],
    reads: &mut Reads<'t>,
    options: &Options,
) -> Result<Finished, ServeError>
    requires parses { AreParsesOf job.now.asked.now.files job.now.parses.now }
    requires reads { AreKnown job.now.asked.now.files job.now.asked.now.prelude options.now.mode.language
        reads.old.all.items }
    requires ends { let a = job.now.asked.now in
        AreGoodEndsOf a.files a.roots.items a.prelude options.now.mode ends.now }
    requires roots { All (λ n. n < length job.now.asked.now.files) job.now.asked.now.roots.items }
    requires prelude { IfSome job.now.asked.now.prelude (λ n. n < length job.now.asked.now.files) }
    requires loaders { (1 ≤ options.now.loaders) × (options.now.loaders ≤ 64) }
    requires steps { (1 ≤ options.now.mode.steps) × (options.now.mode.steps ≤ 100000000) }
    ensures kinds { IfErr result (λ e. (e ≡ ServeError.Memory) ⊎ (e ≡ ServeError.Unpublished)) }
    ensures text { let o = options.now in IfOk result (λ f.
        IsOutputFor o.output (asked_in job.now) o.mode f.written.text.items f.written.all_ok) }
    ensures ends { let a = job.now.asked.now in IfOk result (λ f.
        InPlanOf a.files a.roots.items a.prelude options.now.mode (λ p. AreReachedEnds p f.ends.items)) }
    ensures read { let a = job.now.asked.now in IfOk result (λ _.
        IsReadOf a.files a.roots.items a.prelude options.now.mode.language reads.new.all.items) }
    ensures others { let a = job.now.asked.now in IfOk result (λ _.
        AreKnown a.files a.prelude options.now.mode.language reads.new.others.items) }
{
    if let Output::Check { only_roots, calls } = options.output {
        let written = check_over(rt, alloc, job, reads, options, only_roots, calls)?;
        return Ok(Finished {
            written,
            ends: Vec::new(alloc),
            reached: Vec::new(alloc),
            ballasts: Vec::new(alloc),
        });
    }
    let Answer { run, written } = match answered(rt, alloc, job, ends, reads, options) {
        Ok(answer) => answer,
        Err(error) => return Err(error),
    };
    let mut run = run;
    let ends = run.good_ends(alloc, job.asked.files.len())?;
    let reached = read_numbers(alloc, reads)?;
    let ballasts = run.take_ballasts(alloc);
    free_run(rt, run, job.ballast.is_some());
    Ok(Finished {
        written,
        ends,
        reached,
        ballasts,
    })
}

/// Writes the message to a person about a run by one write, if it is wanted. If it gets no memory, nothing is written.
fn write_explained<E: Sink>(
    alloc: Global,
    errors: &mut E,
    asked: &AskedFor,
    reads: &Reads,
    run: &mut Run,
    language: &Language,
    form: Option<Form>,
)
    ensures { form ≡ None → errors.new ≡ errors.old }
{
    let Some(form) = form else {
        return;
    };
    let (files, roots) = (&asked.files, asked.roots.as_slice());
    let sources = Sources::new(alloc, files, asked.prelude, language);
    if let Ok(text) = explain(sources, reads, run, roots, form) {
        let _ = errors.write(text.as_bytes());
    }
}

/// Writes the message to a person about files that were not run, by one write, if it is wanted. If it gets no memory,
/// nothing is written.
fn write_judged<E: Sink>(
    alloc: Global,
    errors: &mut E,
    asked: &AskedFor,
    reads: &Reads,
    judged: &[Judged],
    language: &Language,
    form: Option<Form>,
)
    ensures { form ≡ None → errors.new ≡ errors.old }
{
    let Some(form) = form else {
        return;
    };
    let (files, roots) = (&asked.files, asked.roots.as_slice());
    let sources = Sources::new(alloc, files, asked.prelude, language);
    if let Ok(text) = explain_check(sources, reads, judged, roots, form) {
        let _ = errors.write(text.as_bytes());
    }
}

/// Writes the check of the files that are reached, and to `errors` the message to a person, where that is wanted. No
/// file is run. It answers whether there is nothing against any file.
fn checked_over<'t, H: Threads + Wait + Sync, W: Sink, E: Sink>(
    rt: &H,
    alloc: Global,
    job: &Job<'_, 't>,
    writer: &mut W,
    errors: &mut E,
    options: &Options,
    only_roots: bool,
    calls: bool,
) -> Result<bool, ServeError>
    requires parses { AreParsesOf job.now.asked.now.files job.now.parses.now }
    requires roots { All (λ n. n < length job.now.asked.now.files) job.now.asked.now.roots.items }
    requires prelude { IfSome job.now.asked.now.prelude (λ n. n < length job.now.asked.now.files) }
    ensures ok { IfOk result (Reports (output.Check only_roots calls) (asked_in job.now) options.now.mode
        (W.taken writer.old) (W.taken writer.new)) }
    ensures untold { IfOk result (λ _. options.now.explain ≡ None → errors.new ≡ errors.old) }
    ensures refused { IfErr result (IsRefusedRun (writer.new ≡ writer.old)) }
    ensures unsaid { IfErr result (λ _. errors.new ≡ errors.old) }
    ensures writes { W.failed writer.new ≡ W.failed writer.old + writes_failed result }
{
    let mut reads = Reads::new(alloc);
    let Checked {
        judged,
        text,
        all_ok,
    } = match checked(
        rt,
        alloc,
        job,
        &mut reads,
        options.loaders,
        &options.mode,
        only_roots,
        calls,
    ) {
        Ok(it) => it,
        Err(_) => return Err(ServeError::Memory),
    };
    if write_some(writer, text.as_slice()).is_err() {
        return Err(ServeError::Write);
    }
    let judged = judged.as_slice();
    let language = &options.mode.language;
    write_judged(
        alloc,
        errors,
        job.asked,
        &reads,
        judged,
        language,
        options.explain,
    );
    // The process ends next, and the system takes back all of its memory at once.
    mem::forget(reads);
    Ok(all_ok)
}

/// Runs the roots that are asked for and writes the report, and to `errors` the trace and the message to a person,
/// where these are wanted. It answers whether every module of the report is ok. For a check nothing is run.
pub(crate) fn reported_over<'t, H: Threads + Wait + Sync, W: Sink, E: Sink>(
    rt: &H,
    alloc: Global,
    job: &Job<'_, 't>,
    writer: &mut W,
    errors: &mut E,
    options: &Options,
) -> Result<bool, ServeError>
    requires parses { AreParsesOf job.now.asked.now.files job.now.parses.now }
    requires roots { All (λ n. n < length job.now.asked.now.files) job.now.asked.now.roots.items }
    requires prelude { IfSome job.now.asked.now.prelude (λ n. n < length job.now.asked.now.files) }
    requires loaders { (1 ≤ options.now.loaders) × (options.now.loaders ≤ 64) }
    requires steps { (1 ≤ options.now.mode.steps) × (options.now.mode.steps ≤ 100000000) }
    ensures ok { IfOk result (Reports options.now.output (asked_in job.now) options.now.mode (W.taken writer.old)
        (W.taken writer.new)) }
    ensures traced { IfOk result (λ all_ok.
        IsTraced E.taken E.failed options.now (asked_in job.now) all_ok errors.old errors.new) }
    ensures untraced { IfOk result (λ all_ok. options.now.explain ≡ None → options.now.trace ≡ false
        → is_said options.now.output all_ok ≡ false → errors.new ≡ errors.old) }
    ensures refused { IfErr result (IsRefusedRun (writer.new ≡ writer.old)) }
    ensures unsaid { IfErr result (λ _. errors.new ≡ errors.old) }
    ensures writes { W.failed writer.new ≡ W.failed writer.old + writes_failed result }
{
    if let Output::Check { only_roots, calls } = options.output {
        return checked_over(rt, alloc, job, writer, errors, options, only_roots, calls);
    }
    let asked = job.asked;
    let mut reads = Reads::new(alloc);
    let Answer { run, written } = match answered(rt, alloc, job, &[], &mut reads, options) {
        Ok(answer) => answer,
        Err(error) => return Err(error),
    };
    let mut run = run;
    let Written { text, said, all_ok } = written;
    if write_some(writer, text.as_slice()).is_err() {
        return Err(ServeError::Write);
    }
    say(
        alloc,
        errors,
        &asked.files,
        said.as_str(),
        run.refused(),
        options.trace,
    );
    let language = &options.mode.language;
    write_explained(
        alloc,
        errors,
        asked,
        &reads,
        &mut run,
        language,
        options.explain,
    );
    // The process ends next, and the system takes back all of its memory at once.
    mem::forget(run);
    mem::forget(reads);
    Ok(all_ok)
}

/// Runs the roots that are asked for and writes the report, and to `errors` the trace and the message to a person,
/// where these are wanted. It answers whether every module of the report is ok.
pub(crate) fn reported<H: Threads + Wait + Sync, W: Sink, E: Sink>(
    rt: &H,
    alloc: Global,
    asked: &AskedFor,
    writer: &mut W,
    errors: &mut E,
    options: &Options,
) -> Result<bool, ServeError>
    requires roots { All (λ n. n < length asked.now.files) asked.now.roots.items }
    requires prelude { IfSome asked.now.prelude (λ n. n < length asked.now.files) }
    requires loaders { (1 ≤ options.now.loaders) × (options.now.loaders ≤ 64) }
    requires steps { (1 ≤ options.now.mode.steps) × (options.now.mode.steps ≤ 100000000) }
    ensures ok { IfOk result (Reports options.now.output (asked_view asked.now) options.now.mode (W.taken writer.old)
        (W.taken writer.new)) }
    ensures traced { IfOk result (λ all_ok.
        IsTraced E.taken E.failed options.now (asked_view asked.now) all_ok errors.old errors.new) }
    ensures untraced { IfOk result (λ all_ok. options.now.explain ≡ None → options.now.trace ≡ false
        → is_said options.now.output all_ok ≡ false → errors.new ≡ errors.old) }
    ensures refused { IfErr result (IsRefusedRun (writer.new ≡ writer.old)) }
    ensures unsaid { IfErr result (λ _. errors.new ≡ errors.old) }
    ensures writes { W.failed writer.new ≡ W.failed writer.old + writes_failed result }
{
    let trees = Trees::new(alloc)?;
    let parses = Vec::new(alloc);
    let job = Job {
        asked,
        trees: &trees,
        parses: parses.as_slice(),
        ballast: None,
    };
    let outcome = reported_over(rt, alloc, &job, writer, errors, options);
    // The process ends next, and the system takes back all of its memory at once.
    mem::forget(trees);
    outcome
}

/// Whether the options ask for calls that may be recorded: each name is one whose calls may be, and if the calls of a name
/// are asked for, it is one of them.
pub(crate) fn may_record(options: &Options) -> bool
    ensures { result ≡ may_record options.now }
{
    let recorded = &options.mode.language.recorded;
    are_recordable(recorded.names())
        && match &options.output {
            Output::Calls(name) => recorded.index(name.as_str()).is_some(),
            _ => true,
        }
}

/// Reads a bundle, loads the roots and writes the report, and to `errors` the trace and the message to a person, where
/// these are wanted. It answers whether every module of the report is ok.
///
/// The rules are in `docs/USING.md`: what a bundle is, the refusals in their order, and the report.
pub fn serve<H: Threads + Wait + Sync, R: Source, W: Sink, E: Sink>(
    rt: &H,
    alloc: Global,
    reader: &mut R,
    writer: &mut W,
    errors: &mut E,
    options: &Options,
) -> Result<bool, ServeError>
    requires loaders { (1 ≤ options.now.loaders) × (options.now.loaders ≤ 64) }
    requires steps { (1 ≤ options.now.mode.steps) × (options.now.mode.steps ≤ 100000000) }

    // All was read, and it is a bundle that has each root and the prelude. Its report was written, and nothing else.
    // Nothing was written to `errors` but lines of loads that lie on cycles, unless a write to it failed.
    ensures ok { IfOk result (IsServed W.taken E.taken E.failed options.now
        (Asks (R.said reader.old) (R.said reader.new)) writer.old writer.new errors.old errors.new) }

    // Nothing was written to `errors` if neither the trace nor a message to a person is wanted and no line goes beside
    // the output, or if there is no answer.
    ensures untraced { IfOk result (λ all_ok. options.now.explain ≡ None → options.now.trace ≡ false
        → is_said options.now.output all_ok ≡ false → errors.new ≡ errors.old) }
    ensures unsaid { IfErr result (λ _. errors.new ≡ errors.old) }

    // The input is refused with this error, and nothing was written.
    ensures refused { IfErr result
        (IsRefusedInput (R.said reader.old) (R.said reader.new) options.now (writer.new ≡ writer.old)) }

    // A read or a write failed just where the answer says so.
    ensures reads { R.failed reader.new ≡ R.failed reader.old + reads_failed result }
    ensures writes { W.failed writer.new ≡ W.failed writer.old + writes_failed result }
{
    let bytes = match read_all(alloc, reader) {
        Ok(bytes) => bytes,
        Err(error) => return Err(error),
    };
    let asked = match asked_for(
        alloc,
        bytes.as_slice(),
        options.roots.as_slice(),
        options.prelude.as_ref(),
    ) {
        Ok(asked) => asked,
        Err(error) => return Err(error),
    };
    if !may_record(options) {
        return Err(ServeError::BadRecord);
    }
    // The texts have rows of their own, so the bundle's bytes are freed to make room for the run.
    drop(bytes);
    reported(rt, alloc, &asked, writer, errors, options)
}
