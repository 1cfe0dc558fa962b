//! Positions in a text: a line, and a column in units of UTF-16 or UTF-8, both from 0.

ghost use Rattle.std.specs.Prelude.{◌≡◌, ◌≤◌, ◌<◌, ◌+◌, ◌-◌, ◌⊎◌, ℕ, IfOk, MatchOption, false, length, slice_index};
ghost use Rattle.star_frames.specs.Place.{AreOf, IsBoundary, IsOnLine, Names, ends_at, goes_on, start_of, starts_in, units_before, units_of};

use std::alloc::{AllocError, Global};

/// What a column counts.
#[derive(Clone, Copy, Debug, PartialEq, Eq)]
pub enum Units {
    /// The bytes of UTF-8.
    Utf8,
    /// The code units of UTF-16.
    Utf16,
}

/// A place in a text.
#[derive(Clone, Copy, Debug, PartialEq, Eq)]
pub struct Position {
    /// The line, from 0.
    pub line: usize,
    /// How many units of the line are before the place.
    pub column: usize,
}

/// Whether a byte of UTF-8 goes on with a character, and begins none.
fn goes_on(byte: u8) -> bool
    ensures { result ≡ goes_on byte }
{
    128 <= byte && byte < 192
}

impl Units {
    /// How many units a byte of UTF-8 counts for.
    fn of(self, byte: u8) -> usize
        ensures { result ≡ units_of self byte }
    {
        match self {
            Units::Utf8 => 1,
            Units::Utf16 if goes_on(byte) => 0,
            Units::Utf16 if byte < 240 => 1,
            Units::Utf16 => 2,
        }
    }

    /// How many units the bytes of a text from `start` to `end` count for.
    fn between(self, text: &[u8], start: usize, end: usize) -> usize
        requires order { start ≤ end }
        requires within { end ≤ length text.now }
        ensures { result ≡ units_before self text.now end - units_before self text.now start }
    {
        let mut count = 0usize;
        let mut at = start;
        while at < end {
            count += self.of(text[at]);
            at += 1;
        }
        count
    }
}

/// Whether a line ends with the byte at a place.
fn ends_at(text: &[u8], at: usize) -> bool
    requires { at < length text.now }
    ensures { result ≡ ends_at text.now at }
{
    match text[at] {
        b'\n' => true,
        b'\r' => text.get(at + 1).copied() != Some(b'\n'),
        _ => false,
    }
}

/// The place from `start` on at which a character begins and `column` units were passed: `end` if that comes first.
fn passed(text: &[u8], units: Units, start: usize, end: usize, column: usize) -> usize
    requires order { start ≤ end }
    requires within { end ≤ length text.now }
    ensures within { (start ≤ result) × (result ≤ end) }
    ensures back { (offset : ℕ) → start ≤ offset → offset ≤ end
        → (offset ≡ end) ⊎ (goes_on (slice_index text.now offset) ≡ false)
        → column ≡ units_before units text.now offset - units_before units text.now start → result ≡ offset }
{
    let mut left = column;
    let mut at = start;
    while at < end && (left > 0 || goes_on(text[at])) {
        left = left.saturating_sub(units.of(text[at]));
        at += 1;
    }
    at
}

/// The end of a line that the next one follows at `next`, without what ends it.
fn before_end(text: &[u8], next: usize) -> usize
    ensures { result ≤ next }
{
    let line = text.get(..next).unwrap_or(text);
    let line = line.strip_suffix(b"\n").unwrap_or(line);
    line.strip_suffix(b"\r").unwrap_or(line).len().min(next)
}

/// Where the lines of a text begin, and what its columns count.
#[derive(Debug, Drop)]
pub struct Places {
    /// Where each line begins but for the first, which begins at 0.
    starts: Vec<usize>,
    units: Units,
}

impl Places {
    /// The lines of a text end with a line feed, a carriage return, or both.
    pub fn new(alloc: Global, text: &str, units: Units) -> Result<Places, AllocError>
        ensures lines { IfOk result (λ places. AreOf places text.now) }
        ensures units { IfOk result (λ places. places.units ≡ units) }
    {
        let bytes = text.as_bytes();
        let mut starts = Vec::new(alloc);
        for at in 0..bytes.len() {
            if ends_at(bytes, at) {
                starts.push(at + 1)?;
            }
        }
        Ok(Places { starts, units })
    }

    /// The line of an offset.
    fn line_at(&self, offset: usize) -> usize
        ensures { IsOnLine self.now result offset }
    {
        let mut low = 0;
        let mut high = self.starts.len();
        while low < high {
            let middle = low + (high - low) / 2;
            if self.starts[middle] <= offset {
                low = middle + 1;
            } else {
                high = middle;
            }
        }
        low
    }

    /// Where a line begins: the end of the text if it has fewer lines.
    fn start(&self, line: usize) -> Option<usize>
        ensures { MatchOption result (length self.now.starts.items < line) (λ start.
            (line ≤ length self.now.starts.items) × (start ≡ start_of self.now line)) }
    {
        if line == 0 {
            return Some(0);
        }
        self.starts.get(line - 1).copied()
    }

    /// The position of a byte offset of the text.
    pub fn position(&self, text: &str, offset: usize) -> Position
        ensures { offset ≤ length text.now → Names self.now text.now result offset }
    {
        let line = self.line_at(offset);
        let start = self.start(line).unwrap_or(0);
        let bytes = text.as_bytes();
        let end = offset.min(bytes.len());
        let column = self.units.between(bytes, start.min(end), end);
        Position { line, column }
    }

    /// The byte offset that a position of the text names. A column behind the end of its line names that end, a line
    /// behind the last one the end of the text.
    pub fn offset(&self, text: &str, position: Position) -> usize
        ensures within { result ≤ length text.now }
        ensures back { (offset : ℕ) → offset ≤ length text.now → IsBoundary text.now offset
            → Names self.now text.now position offset → result ≡ offset }
    {
        let bytes = text.as_bytes();
        let size = bytes.len();
        let Some(start) = self.start(position.line) else {
            return size;
        };
        let next = self.starts.get(position.line).copied();
        let end = next.unwrap_or(size).min(size);
        let at = passed(bytes, self.units, start.min(end), end, position.column);
        match next {
            Some(next) if at == next => before_end(bytes, next),
            _ => at,
        }
    }
}
