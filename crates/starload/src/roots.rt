//! `--roots-from FILE`: further roots.

use clap::ArgMatches;
use star_words::exclude::patterns_in;
use std::alloc::Global;
use std::{fs, io};

/// The words in the file of `--roots-from`, as in `.starloadignore` one a line: none without the option. An error if the
/// file cannot be read, or is not UTF-8.
pub(crate) fn further_roots(
    rt: &HostRuntime,
    alloc: Global,
    matches: &ArgMatches<'_>,
) -> io::Result<Vec<String>> {
    let Some(path) = matches.get_str("roots-from") else {
        return Ok(Vec::new(alloc));
    };
    let text = fs::read_to_string(rt, path)?;
    Ok(patterns_in(alloc, text.as_str())?)
}

/// Says why the roots cannot be had.
pub(crate) fn say_no_roots(rt: &HostRuntime, matches: &ArgMatches<'_>, error: &io::Error) {
    let path = matches.get_str("roots-from").unwrap_or("");
    let _ = eprintln!(rt; "starload: cannot read the roots: {path}: {error}");
}
