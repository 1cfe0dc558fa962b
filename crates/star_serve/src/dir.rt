//! `serve_dir`: from the files of a folder to the report's bytes.

ghost use Rattle.std.specs.Prelude.{false, ◌≡◌, ◌+◌, ◌≤◌, None, IfOk, IfErr};
ghost use Rattle.star_bundle.specs.Refusal.{writes_failed};
ghost use Rattle.star_folder.specs.Refusal.{IsStopped, files_failed, listings_failed};
ghost use Rattle.star_serve.specs.Serve.{AsksForDir, IsRefusedDir, IsServed};
ghost use Rattle.star_serve.specs.Trace.{is_said};

use crate::serve::{Options, may_record, reported};
use crate::stream::Sink;
use star_bundle::bundle::asked_in;
use star_bundle::error::ServeError;
use star_folder::folder::Folder;
use star_folder::walk::files_in;
use std::alloc::Global;
use std::sync::Wait;
use std::thread::Threads;

/// Loads the roots from the files of a folder and writes the report, and to `errors` the trace and the message to a
/// person, where these are wanted. It answers whether every module of the report is ok.
///
/// The rules are in `docs/USING.md`: which files a folder has, the refusals in their order, and
/// the report.
pub fn serve_dir<H: Threads + Wait + Sync, F: Folder, W: Sink, E: Sink>(
    rt: &H,
    alloc: Global,
    folder: &mut F,
    writer: &mut W,
    errors: &mut E,
    options: &Options,
) -> Result<bool, ServeError>
    requires loaders { (1 ≤ options.now.loaders) × (options.now.loaders ≤ 64) }
    requires steps { (1 ≤ options.now.mode.steps) × (options.now.mode.steps ≤ 100000000) }

    // The walk came to its end, and its files have each root and the prelude. Their report was written, and nothing
    // else. Nothing was written to `errors` but lines of loads that lie on cycles, unless a write to it failed.
    ensures ok { IfOk result (IsServed W.taken E.taken E.failed options.now (AsksForDir (F.holds folder.old))
        writer.old writer.new errors.old errors.new) }

    // Nothing was written to `errors` if neither the trace nor a message to a person is wanted and no line goes beside
    // the output, or if there is no answer.
    ensures untraced { IfOk result (λ all_ok. options.now.explain ≡ None → options.now.trace ≡ false
        → is_said options.now.output all_ok ≡ false → errors.new ≡ errors.old) }
    ensures unsaid { IfErr result (λ _. errors.new ≡ errors.old) }

    // The walk stopped with this error, or the input that is asked for among its files is refused with it, and nothing
    // was written.
    ensures refused { IfErr result (IsRefusedDir (IsStopped (F.holds folder.old))
        (AsksForDir (F.holds folder.old) options.now) (writer.new ≡ writer.old)) }

    // A listing, a read or a write failed just where the answer says so.
    ensures listings { F.failed_listings folder.new ≡ F.failed_listings folder.old + listings_failed result }
    ensures reads { F.failed_reads folder.new ≡ F.failed_reads folder.old + files_failed result }
    ensures writes { W.failed writer.new ≡ W.failed writer.old + writes_failed result }
{
    let files = match files_in(alloc, folder) {
        Ok(files) => files,
        Err(error) => return Err(error),
    };
    let asked = match asked_in(
        alloc,
        files,
        options.roots.as_slice(),
        options.prelude.as_ref(),
    ) {
        Ok(asked) => asked,
        Err(error) => return Err(error),
    };
    if !may_record(options) {
        return Err(ServeError::BadRecord);
    }
    reported(rt, alloc, &asked, writer, errors, options)
}
