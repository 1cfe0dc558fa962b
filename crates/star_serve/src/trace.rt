//! The trace: a line for each refused load.

ghost use Rattle.std.specs.Prelude.{◌≡◌, ◌+◌, ◌<◌, [], All, IfOk, OnOk, false, is_err, length, string_bytes, if◌then◌else◌};
ghost use Rattle.star_serve.specs.Stream.{Adds};
ghost use Rattle.star_serve.specs.Trace as spec;

use crate::stream::{Failed, Sink};
use star_host::CyclicLoad;
use star_label::files::Files;
use std::alloc::{AllocError, Global};

/// The line of a refused load, with its line end.
fn trace_line(alloc: Global, files: &Files, refused: &CyclicLoad) -> Result<String, AllocError>
    requires file { refused.now.file < length files.now }
    requires loaded { refused.now.loaded < length files.now }
    ensures { IfOk result (λ s. string_bytes s ≡ spec.trace_line files.now refused.now) }
{
    let loader = files.label(refused.file).text();
    let loaded = files.label(refused.loaded).text();
    format!(in alloc; "starload: cycle: {loader} loads {loaded}\n")
}

/// Writes the line of each refused load, in order, up to the first that gets no memory or cannot be written.
fn write_trace<W: Sink>(alloc: Global, writer: &mut W, files: &Files, refused: &[CyclicLoad])
    requires { All (λ r. (r.file < length files.now) × (r.loaded < length files.now)) refused.now }
    ensures { W.failed writer.new ≡ W.failed writer.old
        → spec.TracesFirst files.now refused.now (W.taken writer.old) (W.taken writer.new) }
{
    for i in 0..refused.len() {
        let Ok(line) = trace_line(alloc, files, &refused[i]) else {
            return;
        };
        if writer.write(line.as_bytes()).is_err() {
            return;
        }
    }
}

/// Writes a text, unless it is empty.
pub(crate) fn write_some<W: Sink>(writer: &mut W, text: &[u8]) -> Result<(), Failed>
    ensures takes { OnOk result (Adds (W.taken writer.old) (W.taken writer.new) text.now) }
    ensures counts { W.failed writer.new ≡ W.failed writer.old + (if is_err result then 1 else 0) }
    ensures none { text.now ≡ [] → writer.new ≡ writer.old }
{
    if text.is_empty() {
        return Ok(());
    }
    writer.write(text)
}

/// Writes the line that goes beside the output of a run, and then, with the trace, the line of each refused load, up to
/// the first that gets no memory or cannot be written.
pub(crate) fn say<W: Sink>(
    alloc: Global,
    writer: &mut W,
    files: &Files,
    said: &str,
    refused: &[CyclicLoad],
    trace: bool,
)
    requires { All (λ r. (r.file < length files.now) × (r.loaded < length files.now)) refused.now }
    ensures says { W.failed writer.new ≡ W.failed writer.old
        → spec.SaysFirst files.now said.now refused.now trace (W.taken writer.old) (W.taken writer.new) }
    ensures none { said.now ≡ [] → trace ≡ false → writer.new ≡ writer.old }
{
    if write_some(writer, said.as_bytes()).is_err() {
        return;
    }
    if trace {
        write_trace(alloc, writer, files, refused);
    }
}
