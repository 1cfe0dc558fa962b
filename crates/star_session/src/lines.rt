//! The lines of a stream.

ghost use Rattle.std.specs.Prelude.{◌≡◌, ◌≢◌, ◌+◌, ◌-◌, ◌<◌, ◌≤◌, ◌++◌, [], false, true, ℕ, List, IfOk, MatchOption, OnErr, OnOk, drop, is_err, length, take, if◌then◌else◌};
ghost use Rattle.std.specs.Io.KnownBytes.{IsAtEnd};
ghost use Rattle.star_serve.specs.Stream.{GaveFirst, Gives};
ghost use Rattle.star_session.specs.Lines.{IsCut, IsLineEnd, IsNext, IsOneLine, IsPiece, ahead_of};

use memchr::memchr;
use star_outcome::memory::room_for;
use star_serve::stream::{Failed, Source};
use std::alloc::{AllocError, Global};
use std::sync::Wait;

/// The most bytes of a line that is read as a request.
const MOST_BYTES: usize = 268_435_456;

/// How many bytes are asked for at once.
const CHUNK: usize = 65_536;

/// Whether a line was read whole.
#[derive(Clone, Copy, Debug, PartialEq, Eq)]
pub enum Line {
    /// All of its bytes.
    Ready,
    /// It has more than 268,435,456 bytes, and was passed over.
    TooLong,
    /// A growth was refused, and it was passed over.
    Lost,
}

/// A line that was taken.
#[derive(Clone, Copy, Debug, PartialEq, Eq)]
pub struct Taken {
    /// Whether it was read whole.
    pub line: Line,
    /// Whether it has no line end, and so is the last one.
    pub is_last: bool,
}

/// The bytes of a stream that were read and not taken, and the line that was taken last.
#[derive(Drop)]
pub struct Lines {
    buffer: Vec<u8>,
    /// The begin and the end, in the buffer, of the bytes that were not taken.
    start: usize,
    end: usize,
    line: Vec<u8>,
}

/// A line with further bytes, or none of it if they are too many or an allocation failed.
fn extended(line: &mut Vec<u8>, known: Line, piece: &[u8]) -> Line
    ensures { (bytes : List ℕ) → IsPiece known line.old.items bytes
        → IsPiece result line.new.items (bytes ++ piece.now) }
{
    if piece.is_empty() || known != Line::Ready {
        return known;
    }
    if piece.len() > MOST_BYTES.saturating_sub(line.len()) {
        return Line::TooLong;
    }
    // A long line is mapped apart, so that it is given back at once, and does not lie between what stays.
    let room = room_for(line.len().saturating_add(piece.len()), true);
    let _ = line.reserve(room.saturating_sub(line.len()));
    match line.extend_from_slice(piece) {
        Ok(()) => Line::Ready,
        Err(_) => Line::Lost,
    }
}

impl Lines {
    /// Nothing was read yet.
    pub fn new(alloc: Global) -> Result<Lines, AllocError>
        ensures cut { IfOk result IsCut }
        ensures nothing { IfOk result (λ lines. ahead_of lines ≡ []) }
    {
        Ok(Lines {
            buffer: vec![in alloc; 0; CHUNK]?,
            start: 0,
            end: 0,
            line: Vec::new(alloc),
        })
    }

    /// The line that was taken last.
    pub fn line(&self) -> &[u8]
        ensures { result.now ≡ self.now.line.items }
    {
        self.line.as_slice()
    }

    /// The place of the first line end among the bytes that were not taken.
    fn end_of_line(&self) -> Option<usize>
        requires { IsCut self.now }
        ensures { MatchOption result (IsOneLine (ahead_of self.now)) (IsLineEnd self.now) }
    {
        memchr(b'\n', &self.buffer[self.start..self.end])
    }

    /// Takes `count` bytes into the line.
    fn add(&mut self, known: Line, count: usize) -> Line
        requires cut { IsCut self.old }
        requires within { count ≤ self.old.end - self.old.start }
        ensures cut { IsCut self.new }
        ensures adds { (bytes : List ℕ) → IsPiece known self.old.line.items bytes
            → IsPiece result self.new.line.items (bytes ++ take count (ahead_of self.old)) }
        ensures ahead { ahead_of self.new ≡ drop count (ahead_of self.old) }
        ensures end { self.new.end ≡ self.old.end }
        ensures start { self.new.start ≡ self.old.start + count }
    {
        let next = self.start + count;
        let line = extended(&mut self.line, known, &self.buffer[self.start..next]);
        self.start = next;
        line
    }

    /// Passes over a byte.
    fn skip(&mut self)
        requires cut { IsCut self.old }
        requires some { self.old.start < self.old.end }
        ensures cut { IsCut self.new }
        ensures ahead { ahead_of self.new ≡ drop 1 (ahead_of self.old) }
        ensures line { self.new.line ≡ self.old.line }
    {
        self.start += 1;
    }

    /// Reads on, if all was taken. Answers whether there was more.
    fn fill<R: Source>(&mut self, reader: &mut R) -> Result<bool, Failed>
        requires { IsCut self.old }
        ensures cut { OnOk result (IsCut self.new) }
        ensures same { self.new.line ≡ self.old.line }
        ensures gives { OnOk result (Gives (R.said reader.old) (R.said reader.new) (ahead_of self.new)) }
        ensures ends { IfOk result (λ more. more ≡ false → (ahead_of self.new ≡ [])
            × IsAtEnd (R.said reader.new).left × ((R.said reader.new).ended ≡ true)) }
        ensures fails { OnErr result (GaveFirst (R.said reader.old) (R.said reader.new) []) }
        ensures counts { R.failed reader.new ≡ R.failed reader.old + (if is_err result then 1 else 0) }
    {
        let count = reader.read(self.buffer.as_mut_slice())?;
        self.start = 0;
        self.end = count;
        Ok(count != 0)
    }

    /// The last line: none if no byte is in it.
    fn last(&self, line: Line) -> Option<Taken>
        ensures { (bytes : List ℕ) → IsPiece line self.now.line.items bytes
            → MatchOption result (bytes ≡ []) (λ t. (t.line ≡ line) × (t.is_last ≡ true) × (bytes ≢ [])) }
    {
        if line == Line::Ready && self.line.is_empty() {
            return None;
        }
        Some(Taken {
            line,
            is_last: true,
        })
    }

    /// Takes the next line, which is read up to its end: none if the stream has no more. `Failed` if a read
    /// fails.
    pub fn next<H: Wait, R: Source>(
        &mut self,
        rt: &H,
        alloc: Global,
        reader: &mut R,
    ) -> Result<Option<Taken>, Failed>
        requires { IsCut self.old }
        ensures cut { OnOk result (IsCut self.new) }
        ensures next { IfOk result (IsNext (R.said reader.old) (R.said reader.new) (ahead_of self.old)
            (ahead_of self.new) self.new.line.items) }
        ensures counts { R.failed reader.new ≡ R.failed reader.old + (if is_err result then 1 else 0) }
    {
        self.line = Vec::new(alloc);
        let mut line = Line::Ready;
        for _ in rt.forever() {
            if let Some(at) = self.end_of_line() {
                line = self.add(line, at);
                self.skip();
                return Ok(Some(Taken {
                    line,
                    is_last: false,
                }));
            }
            line = self.add(line, self.end - self.start);
            if !self.fill(reader)? {
                return Ok(self.last(line));
            }
        }
        unreachable!()
    }
}
