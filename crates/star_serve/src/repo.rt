//! `serve_repo`: from the files that roots reach in a folder to the report's bytes.

ghost use Rattle.std.specs.Prelude.{false, true, ◌≡◌, ◌+◌, ◌≤◌, None, IfOk, IfErr};
ghost use Rattle.star_bundle.specs.Bundle.{asked_among};
ghost use Rattle.star_bundle.specs.Refusal.{writes_failed};
ghost use Rattle.star_reading.specs.Parsed.{AreParsesOf};
ghost use Rattle.star_repo.specs.Asked.{finds_failed};
ghost use Rattle.star_serve.specs.Repo.{AsksForRepo, IsRefusedOf, IsRefusedRepo, IsUnrecorded, repo_writes_failed};
ghost use Rattle.star_serve.specs.Serve.{AsksAmong, IsServed, may_record, prelude_word, root_words};
ghost use Rattle.star_serve.specs.Trace.{is_said};

use crate::serve::{Job, Options, may_record, reported_over};
use crate::stream::Sink;
use star_bundle::bundle::asked_in;
use star_bundle::error::ServeError;
use star_host::Trees;
use star_repo::asked::read_asked;
use star_repo::error::RepoError;
use star_repo::parse::Parsing;
use star_repo::reach::Reached;
use star_repo::repo::Repo;
use star_words::named::asked_labels;
use std::alloc::Global;
use std::mem;
use std::sync::Wait;
use std::thread::Threads;

/// Loads the roots from files whose texts were parsed, and writes the report.
fn reported_of<'t, H: Threads + Wait + Sync, W: Sink, E: Sink>(
    rt: &H,
    alloc: Global,
    trees: &'t Trees,
    reached: Reached<'t>,
    writer: &mut W,
    errors: &mut E,
    options: &Options,
) -> Result<bool, ServeError>
    requires recorded { may_record options.now ≡ true }
    requires parsed { AreParsesOf reached.files reached.parses.items }
    requires loaders { (1 ≤ options.now.loaders) × (options.now.loaders ≤ 64) }
    requires steps { (1 ≤ options.now.mode.steps) × (options.now.mode.steps ≤ 100000000) }
    ensures ok { IfOk result (IsServed W.taken E.taken E.failed options.now (AsksAmong reached.entry.files)
        writer.old writer.new errors.old errors.new) }
    ensures untraced { IfOk result (λ all_ok. options.now.explain ≡ None → options.now.trace ≡ false
        → is_said options.now.output all_ok ≡ false → errors.new ≡ errors.old) }
    ensures unsaid { IfErr result (λ _. errors.new ≡ errors.old) }
    ensures refused { let o = options.now in IfErr result (IsRefusedOf
        (asked_among (root_words o) (prelude_word o) reached.entry.files) (writer.new ≡ writer.old)) }
    ensures writes { W.failed writer.new ≡ W.failed writer.old + writes_failed result }
{
    let Reached { files, parses } = reached;
    let asked = match asked_in(
        alloc,
        files,
        options.roots.as_slice(),
        options.prelude.as_ref(),
    ) {
        Ok(asked) => asked,
        Err(error) => return Err(error),
    };
    let job = Job {
        asked: &asked,
        trees,
        parses: parses.as_slice(),
        ballast: None,
    };
    let outcome = reported_over(rt, alloc, &job, writer, errors, options);
    // The process ends next, and the system takes back all of its memory at once.
    mem::forget(asked);
    mem::forget(parses);
    outcome
}

/// The refusal of options before anything is read: of the word of a label, or else of the names whose calls are to be
/// recorded.
fn unrecorded(alloc: Global, options: &Options) -> ServeError
    ensures { let o = options.now in IsUnrecorded (root_words o) (prelude_word o) result }
{
    match asked_labels(alloc, options.roots.as_slice(), options.prelude.as_ref()) {
        Ok(_) => {}
        Err(error) => return error,
    }
    ServeError::BadRecord
}

/// Loads the roots from the files that they reach in a folder and writes the report, and to `errors` the trace and the
/// message to a person, where these are wanted. It answers whether every module of the report is ok. Only what is
/// reached is looked up, and each text is parsed once.
///
/// The rules are in `docs/USING.md`: which files are reached, the refusals in their order, and
/// the report.
pub fn serve_repo<H: Threads + Wait + Sync, F: Repo, W: Sink, E: Sink>(
    rt: &H,
    alloc: Global,
    folder: &mut F,
    writer: &mut W,
    errors: &mut E,
    options: &Options,
) -> Result<bool, RepoError>
    requires loaders { (1 ≤ options.now.loaders) × (options.now.loaders ≤ 64) }
    requires steps { (1 ≤ options.now.mode.steps) × (options.now.mode.steps ≤ 100000000) }

    // The files are those that the roots and the prelude reach in some folder that fits all that this one tells. They
    // have each root and the prelude. Their report was written, and nothing else. Nothing was written to `errors` but
    // lines of loads that lie on cycles, unless a write to it failed.
    ensures ok { IfOk result (IsServed W.taken E.taken E.failed options.now (AsksForRepo (F.says folder.old))
        writer.old writer.new errors.old errors.new) }

    // Nothing was written to `errors` if neither the trace nor a message to a person is wanted and no line goes beside
    // the output, or if there is no answer.
    ensures untraced { IfOk result (λ all_ok. options.now.explain ≡ None → options.now.trace ≡ false
        → is_said options.now.output all_ok ≡ false → errors.new ≡ errors.old) }
    ensures unsaid { IfErr result (λ _. errors.new ≡ errors.old) }

    // A word is not a label, or a name may not be recorded, or a file is refused, or the input that is asked for among
    // the files is refused, and nothing was written.
    ensures refused { IfErr result (IsRefusedRepo (F.says folder.old) (root_words options.now)
        (prelude_word options.now) (may_record options.now) (writer.new ≡ writer.old)) }

    // A read or a write failed just where the answer says so.
    ensures reads { F.failed folder.new ≡ F.failed folder.old + finds_failed result }
    ensures writes { W.failed writer.new ≡ W.failed writer.old + repo_writes_failed result }
{
    let trees = match Trees::new(alloc) {
        Ok(trees) => trees,
        Err(_) => {
            return Err(RepoError::Run {
                error: ServeError::Memory,
            });
        }
    };
    if !may_record(options) {
        return Err(RepoError::Run {
            error: unrecorded(alloc, options),
        });
    }
    let parsing = Parsing {
        trees: &trees.all,
        known: None,
        threads: options.loaders,
    };
    let reached = match read_asked(
        rt,
        alloc,
        folder,
        parsing,
        options.roots.as_slice(),
        options.prelude.as_ref(),
    ) {
        Ok(reached) => reached,
        Err(error) => return Err(error),
    };
    let outcome = reported_of(rt, alloc, &trees, reached, writer, errors, options);
    mem::forget(trees);
    match outcome {
        Ok(all_ok) => Ok(all_ok),
        Err(error) => Err(RepoError::Run { error }),
    }
}
