//! A line: its entries, and whether it is a report of a run or of a check.

ghost use Rattle.std.specs.Prelude.{◌≡◌, ◌∷◌, List, ℕ, None, IfOk, IfSome, MatchOption, option_map};
ghost use Rattle.star_shards.specs.Lines.{IsReport, Report, front};
ghost use Rattle.star_shards.specs.Read.{AreOfRow, IsKind, IsOfLine};

use crate::entry::{Entry, first_entry, rest_of};
use memchr::memchr;
use std::alloc::{AllocError, Global};

/// What stands after the entries.
const END: &[u8] = b"]}";

/// What stands before the entries of a check.
const CHECK: &[u8] = b"{\"begun\":0,\"modules\":[";

/// What was read of a line.
#[derive(Drop)]
pub(crate) struct Line<'a> {
    pub entries: Vec<Entry<'a>>,
    /// It says that as many files were begun as it has entries.
    pub is_run: bool,
    /// It says that none was begun.
    pub is_check: bool,
}

/// What is after a comma at the front.
fn after_comma(text: &[u8]) -> Option<&[u8]>
    ensures { MatchOption result ((rest : List ℕ) → text.now ≡ 44 ∷ rest → ⊥) (λ rest. text.now ≡ 44 ∷ rest.now) }
{
    match text.split_first() {
        Some((b',', rest)) => Some(rest),
        _ => None,
    }
}

/// The entries of a row, with the brackets that end a report; `None` if it is no such row.
fn read_row(alloc: Global, content: &[u8]) -> Result<Option<Vec<Entry<'_>>>, AllocError>
    ensures { IfOk result (λ o. AreOfRow content.now (option_map (λ v. v.items) o)) }
{
    let mut entries = Vec::new(alloc);
    if content == END {
        return Ok(Some(entries));
    }
    let mut rest = content;
    while let Some(entry) = first_entry(rest) {
        entries.push(entry)?;
        let after = rest_of(rest, entry.text.len());
        let Some(more) = after_comma(after) else {
            if after != END {
                return Ok(None);
            }
            return Ok(Some(entries));
        };
        rest = more;
    }
    Ok(None)
}

/// What stands before the entries of a report, by the number of files that were begun.
pub(crate) fn front_of(alloc: Global, begun: usize) -> Result<Vec<u8>, AllocError>
    ensures { IfOk result (λ text. text.items ≡ front begun) }
{
    Ok(format!(in alloc; "{{\"begun\":{begun},\"modules\":[")?.into_bytes())
}

/// Of what a report is that has so many entries, by what stands before them.
#[derive(Clone, Copy, Debug, PartialEq, Eq)]
enum Kind {
    /// Of a run: as many files were begun, and there are some.
    Run,
    /// Of a check: none was begun, and there are entries.
    Check,
    /// Of both: there is no entry.
    Empty,
    /// Of none that is whole.
    Neither,
}

/// The kind of a report with `count` entries that `bytes` stand before.
fn kind_of(alloc: Global, bytes: &[u8], count: usize) -> Result<Kind, AllocError>
    ensures { IfOk result (IsKind bytes.now count) }
{
    if bytes == CHECK {
        if count == 0 {
            return Ok(Kind::Empty);
        }
        return Ok(Kind::Check);
    }
    let front = front_of(alloc, count)?;
    if bytes == front.as_slice() {
        Ok(Kind::Run)
    } else {
        Ok(Kind::Neither)
    }
}

/// What is read of a line; `None` if it is no report, or one that left modules out.
pub(crate) fn read_line(alloc: Global, line: &[u8]) -> Result<Option<Line<'_>>, AllocError>
    ensures none { IfOk result (λ o. o ≡ None → (r : Report) → IsReport line.now r → ⊥) }
    ensures some { IfOk result (λ o. IfSome o (IsOfLine line.now)) }
{
    let Some(at) = memchr(b'[', line) else {
        return Ok(None);
    };
    let Some(entries) = read_row(alloc, &line[at + 1..])? else {
        return Ok(None);
    };
    let row = entries.as_slice();
    let kind = kind_of(alloc, &line[..at + 1], row.len())?;
    match kind {
        Kind::Run => Ok(Some(Line {
            entries,
            is_run: true,
            is_check: false,
        })),
        Kind::Check => Ok(Some(Line {
            entries,
            is_run: false,
            is_check: true,
        })),
        Kind::Empty => Ok(Some(Line {
            entries,
            is_run: true,
            is_check: true,
        })),
        Kind::Neither => Ok(None),
    }
}
