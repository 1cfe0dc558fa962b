//! Where the report and the text on faults go.
//!
//! The report goes to standard output, and the text on faults to standard error. If that text is for tools
//! (`--explain=github`, `--explain=sarif`), it goes to standard output in place of the report, and must be written whole.

use star_bundle::error::ServeError;
use star_serve::ends::CountedWriter;
use star_serve::serve::{Options, Style};
use std::io;
use std::io::{Stderr, Stdout, Write};

/// A stream of the program.
#[derive(Drop)]
enum Target {
    Output(Stdout),
    Errors(Stderr),
    Nowhere,
}

/// A stream, and whether a write to it has ended well.
#[derive(Drop)]
pub(crate) struct Stream {
    target: Target,
    is_written: bool,
}

impl Stream {
    fn new(target: Target) -> Stream {
        Stream {
            target,
            is_written: false,
        }
    }
}

impl Write for Stream {
    fn write(&mut self, buf: &[u8]) -> io::Result<usize> {
        match &mut self.target {
            Target::Output(stream) => stream.write(buf),
            Target::Errors(stream) => stream.write(buf),
            Target::Nowhere => Ok(buf.len()),
        }
    }

    fn flush(&mut self) -> io::Result<()> {
        self.is_written = true;
        match &mut self.target {
            Target::Output(stream) => stream.flush(),
            Target::Errors(stream) => stream.flush(),
            Target::Nowhere => Ok(()),
        }
    }
}

/// The streams of a run.
#[derive(Drop)]
pub(crate) struct Streams {
    /// What the report is written to.
    pub report: CountedWriter<Stream>,
    /// What the trace and the text on faults are written to.
    pub said: CountedWriter<Stream>,
    is_for_tools: bool,
}

/// Whether the text on faults is for tools.
pub(crate) fn is_for_tools(options: &Options) -> bool {
    match options.explain {
        Some(form) => form.style != Style::Text,
        None => false,
    }
}

impl Streams {
    /// The streams that a run with these options writes to.
    pub(crate) fn of(rt: &HostRuntime, options: &Options) -> Streams {
        let is_for_tools = is_for_tools(options);
        let (report, said) = if is_for_tools {
            (Target::Nowhere, Target::Output(rt.stdout()))
        } else {
            (Target::Output(rt.stdout()), Target::Errors(rt.stderr()))
        };
        Streams {
            report: CountedWriter::new(Stream::new(report)),
            said: CountedWriter::new(Stream::new(said)),
            is_for_tools,
        }
    }

    /// The answer of a run: a text for tools that was not written refuses it, as a report does. `Write` if a write
    /// failed, `Memory` if there was no memory for the text.
    pub(crate) fn ended(&self, all_ok: bool) -> Result<bool, ServeError> {
        if self.is_for_tools && self.said.failed() > 0 {
            return Err(ServeError::Write);
        }
        if self.is_for_tools && !self.said.writer().is_written {
            return Err(ServeError::Memory);
        }
        Ok(all_ok)
    }
}
