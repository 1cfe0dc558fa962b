//! `--join`: the reports on standard input, joined to one. `star_shards` has the contract of what is written.

use crate::command::values_of;
use clap::ArgMatches;
use star_bundle::error::ServeError;
use star_shards::{Joined, Refusal, join};
use std::alloc::Global;
use std::io::{ErrorKind, IsTerminal, Read, Write};
use std::process::ExitCode;
use std::{io, str};

/// Says why there is no report.
fn refuse(rt: &HostRuntime, text: &str) -> ExitCode {
    let _ = eprintln!(rt; "starload: {text}");
    ExitCode::from(2)
}

/// Says that two reports differ about a label.
fn refuse_about(rt: &HostRuntime, label: &[u8]) -> ExitCode {
    let _ = match str::from_utf8(label) {
        Ok(label) => eprintln!(rt; "starload: reports differ about {label}"),
        Err(_) => eprintln!(rt; "starload: reports differ about a label that is not UTF-8"),
    };
    ExitCode::from(2)
}

/// Says why reports have no join.
fn refuse_join(rt: &HostRuntime, refusal: Refusal<'_>) -> ExitCode {
    match refusal {
        Refusal::NoReport(n) => {
            let number = n.saturating_add(1);
            let _ = eprintln!(rt; "starload: line {number} is not a whole report");
            ExitCode::from(2)
        }
        Refusal::Mixed => refuse(rt, "reports of a run and of a check"),
        Refusal::Differ(label) => refuse_about(rt, label),
        Refusal::Memory => refuse(rt, ServeError::Memory.text()),
    }
}

/// The message if standard input cannot be read.
fn text_of(error: &io::Error) -> &'static str {
    if error.kind() == ErrorKind::OutOfMemory {
        ServeError::Memory.text()
    } else {
        "cannot read the reports"
    }
}

/// Writes the text of a joined report, and answers with the status.
fn write_text(rt: &HostRuntime, joined: &Joined<'_>, text: &[u8]) -> ExitCode {
    let mut output = rt.stdout();
    if output.write_all(text).is_err() || output.flush().is_err() {
        return refuse(rt, ServeError::Write.text());
    }
    ExitCode::from(if joined.is_good() { 0 } else { 1 })
}

/// Writes a joined report.
fn write_all(rt: &HostRuntime, alloc: Global, joined: &Joined<'_>) -> ExitCode {
    match joined.text(alloc) {
        Ok(text) => write_text(rt, joined, text.as_slice()),
        Err(_) => refuse(rt, ServeError::Memory.text()),
    }
}

/// Writes a joined report without what is good and no root, if each root is in it.
fn write_roots<'a>(
    rt: &HostRuntime,
    alloc: Global,
    joined: &Joined<'a>,
    roots: &'a [String],
) -> ExitCode {
    match joined.lacking(alloc, roots) {
        Ok(None) => {}
        Ok(Some(root)) => {
            let _ = eprintln!(rt; "starload: no such root: {root}");
            return ExitCode::from(2);
        }
        Err(_) => return refuse(rt, ServeError::Memory.text()),
    }
    match joined.text_of_roots(alloc, roots) {
        Ok(text) => write_text(rt, joined, text.as_slice()),
        Err(_) => refuse(rt, ServeError::Memory.text()),
    }
}

/// Writes a joined report; if there are roots, without what is good and none of them.
fn write_joined<'a>(
    rt: &HostRuntime,
    alloc: Global,
    joined: &Joined<'a>,
    roots: &'a [String],
) -> ExitCode {
    if roots.is_empty() {
        write_all(rt, alloc, joined)
    } else {
        write_roots(rt, alloc, joined, roots)
    }
}

/// Writes the join of the reports that are the lines of a text, or says why there is none.
fn join_input<'a>(
    rt: &HostRuntime,
    alloc: Global,
    input: &'a [u8],
    roots: &'a [String],
) -> ExitCode {
    match join(alloc, input) {
        Ok(joined) => write_joined(rt, alloc, &joined, roots),
        Err(refusal) => refuse_join(rt, refusal),
    }
}

/// Writes the report of all roots of the reports on standard input, or says why there is none.
pub(crate) fn join_reports(rt: &HostRuntime, alloc: Global, matches: &ArgMatches<'_>) -> ExitCode {
    let Ok(roots) = values_of(alloc, matches, "ROOT") else {
        return refuse(rt, ServeError::Memory.text());
    };
    if roots.is_empty() == matches.get_flag("only-roots") {
        return refuse(
            rt,
            "`--join` takes ROOT and `--only-roots` together, or neither",
        );
    }
    if rt.stdin().is_terminal() {
        let _ = eprintln!(rt;
            "starload: waiting for reports on standard input, one a line (see --help)"
        );
    }
    let mut input = Vec::new(alloc);
    if let Err(error) = rt.stdin().read_to_end(&mut input) {
        return refuse(rt, text_of(&error));
    }
    join_input(rt, alloc, input.as_slice(), roots.as_slice())
}
