//! All lines of a text.

ghost use Rattle.std.specs.Prelude.{◌≡◌, ◌∷◌, ◌++◌, ◌<◌, ◌&&◌, [], MatchOption, IfOk, IfErr, IfSome, OnOk, length};
ghost use Rattle.star_shards.specs.Joined.{IsRefused};
ghost use Rattle.star_shards.specs.Lines as spec;
ghost use Rattle.star_shards.specs.Read.{AreOfLines};

use crate::entry::{Entry, rest_of};
use crate::line::{Line, read_line};
use crate::refusal::Refusal;
use memchr::memchr;
use std::alloc::{AllocError, Global};

/// What was read of lines.
#[derive(Drop)]
pub(crate) struct Lines<'a> {
    /// The entries of all of them.
    pub entries: Vec<Entry<'a>>,
    /// Each is a report of a run.
    pub are_runs: bool,
    /// Each is a report of a check.
    pub are_checks: bool,
}

/// The first line of a text, and what is after its line end; `None` if the text has no line.
fn first_line(text: &[u8]) -> Option<(&[u8], &[u8])>
    ensures line { MatchOption result (spec.lines text.now ≡ []) (λ x. spec.lines text.now ≡ x.0.now ∷ spec.lines x.1.now) }
    ensures less { IfSome result (λ x. length x.1.now < length text.now) }
{
    match memchr(b'\n', text) {
        Some(end) => Some((&text[..end], &text[end + 1..])),
        None if text.is_empty() => None,
        None => Some((text, &[])),
    }
}

impl<'a> Lines<'a> {
    /// With one more line.
    fn take(&mut self, line: Line<'a>) -> Result<(), AllocError>
        ensures entries { OnOk result (self.new.entries.items ≡ self.old.entries.items ++ line.entry.entries.items) }
        ensures runs { OnOk result (self.new.are_runs ≡ (self.old.are_runs && line.entry.is_run)) }
        ensures checks { OnOk result (self.new.are_checks ≡ (self.old.are_checks && line.entry.is_check)) }
    {
        let Line {
            mut entries,
            is_run,
            is_check,
        } = line;
        self.entries.append(&mut entries)?;
        self.are_runs = self.are_runs && is_run;
        self.are_checks = self.are_checks && is_check;
        Ok(())
    }
}

/// Reads the lines of a text. `NoReport` if one is no report, or one that left modules out: the first of them.
pub(crate) fn read_lines(alloc: Global, input: &[u8]) -> Result<Lines<'_>, Refusal<'_>>
    ensures ok { IfOk result (AreOfLines input.now) }
    ensures err { IfErr result (IsRefused input.now) }
{
    let mut lines = Lines {
        entries: Vec::new(alloc),
        are_runs: true,
        are_checks: true,
    };
    let mut count = 0;
    let mut rest = input;
    while let Some((line, more)) = first_line(rest) {
        let Some(line) = read_line(alloc, line)? else {
            return Err(Refusal::NoReport(count));
        };
        lines.take(line)?;
        count += 1;
        rest = more;
    }
    Ok(lines)
}
