//! Frames: `Content-Length: N` and maybe further headers, an empty line, and N bytes of content.

ghost use Rattle.std.specs.Prelude.{◌≡◌, ◌≢◌, ◌≤◌, ◌++◌, ◌∷◌, ℕ, List, [], IfOk, MatchOption, Ok, OnOk, Some, codes, length, ⊤};
ghost use Rattle.std.specs.Io.KnownBytes.{Appends, Consumes, IsAtEnd};
ghost use Rattle.std.specs.List.{All};
ghost use Rattle.std.specs.Fmt.{decimal};
ghost use Rattle.star_frames.specs.Frame.{crlf, frame_of, length_line};
ghost use Rattle.star_frames.specs.declared.frame.Header.TheVariants as Header;

use std::alloc::{AllocError, AllocFailed, Global};
use std::io;
use std::io::{Read, Write};
use thiserror::Error;

/// The most bytes of a frame's content.
pub const MOST_CONTENT: usize = 67_108_864;

/// The most bytes of a line of a header.
const MOST_LINE: usize = 4_096;

/// The most lines of a header.
const MOST_LINES: usize = 64;

/// The front of the line with the length of a content, in small letters.
const LENGTH_NAME: &[u8] = b"content-length:";

/// Why no frame was read.
#[derive(Debug, Drop, Error)]
pub enum FrameError {
    /// A read failed.
    #[error("cannot read")]
    Read,
    /// The stream has ended inside of a frame.
    #[error("the stream ends inside of a frame")]
    CutOff,
    /// A header has a line that is no header, no length, or no end.
    #[error("not a frame's header")]
    BadHeader,
    /// The content has more than 67,108,864 bytes.
    #[error("a frame's content is too long")]
    TooLong,
    /// An allocation failed.
    #[error("out of memory")]
    Memory,
}

impl From<AllocError> for FrameError {
    fn from(_error: AllocError) -> FrameError {
        FrameError::Memory
    }
}

impl<T: Drop> From<AllocFailed<T>> for FrameError {
    fn from(_error: AllocFailed<T>) -> FrameError {
        FrameError::Memory
    }
}

/// What a line of a header says.
#[derive(Clone, Copy, Debug, PartialEq, Eq)]
enum Header {
    /// How many bytes the content has.
    Length(usize),
    /// Anything else, which does not count.
    Other,
    /// The header has ended.
    End,
}

/// Reads a byte: `None` at the end of the stream.
fn read_byte<R: Read>(reader: &mut R) -> Result<Option<u8>, FrameError>
    ensures { IfOk result (λ byte. MatchOption byte (IsAtEnd (R.remaining reader.old))
        (λ b. Consumes (R.remaining reader.old) (R.remaining reader.new) (b ∷ []))) }
{
    let mut byte = [0u8; 1];
    match reader.read(&mut byte) {
        Ok(0) => Ok(None),
        Ok(_) => Ok(Some(byte[0])),
        Err(_) => Err(FrameError::Read),
    }
}

/// Reads a line of a header, without its last byte, the line feed: `None` if the stream has ended before it.
fn read_line<R: Read>(alloc: Global, reader: &mut R) -> Result<Option<Vec<u8>>, FrameError>
    ensures { IfOk result (λ read. MatchOption read (IsAtEnd (R.remaining reader.old))
        (λ line. All (λ b. b ≢ 10) line.items
        × Consumes (R.remaining reader.old) (R.remaining reader.new) (line.items ++ (10 ∷ [])))) }
{
    let mut line = Vec::new(alloc);
    for _ in 0..MOST_LINE {
        match read_byte(reader)? {
            Some(b'\n') => return Ok(Some(line)),
            Some(byte) => line.push(byte)?,
            None if line.is_empty() => return Ok(None),
            None => return Err(FrameError::CutOff),
        }
    }
    Err(FrameError::BadHeader)
}

/// A line without the carriage return at its end.
fn without_return(line: &[u8]) -> &[u8]
    ensures { (front : List ℕ) → line.now ≡ front ++ (13 ∷ []) → result.now ≡ front }
{
    match line.strip_suffix(b"\r") {
        Some(front) => front,
        None => line,
    }
}

/// The value of the header with the length, if a line is that header.
fn length_value(line: &[u8]) -> Option<&[u8]>
    ensures { (value : List ℕ) → line.now ≡ codes "Content-Length:" ++ value
        → MatchOption result ⊥ (λ found. found.now ≡ value) }
{
    let (name, value) = line.split_at_checked(LENGTH_NAME.len())?;
    if name.eq_ignore_ascii_case(LENGTH_NAME) {
        Some(value)
    } else {
        None
    }
}

/// The number that the value of a header is.
fn number_in(value: &[u8]) -> Option<usize>
    ensures { (n : ℕ) → n ≤ MOST_CONTENT → value.now ≡ 32 ∷ decimal n → result ≡ Some n }
{
    match str::from_utf8(value) {
        Ok(text) => text.trim().parse::<usize>().ok(),
        Err(_) => None,
    }
}

/// What a line of a header says. `BadHeader` if it is the length, and no number.
fn header_in(line: &[u8]) -> Result<Header, FrameError>
    ensures length { (n : ℕ) → n ≤ MOST_CONTENT → line.now ≡ length_line n ++ (13 ∷ []) → result ≡ Ok (Header.Length n) }
    ensures end { line.now ≡ 13 ∷ [] → result ≡ Ok Header.End }
{
    let line = without_return(line);
    if line.is_empty() {
        return Ok(Header::End);
    }
    let Some(value) = length_value(line) else {
        return Ok(Header::Other);
    };
    match number_in(value) {
        Some(length) => Ok(Header::Length(length)),
        None => Err(FrameError::BadHeader),
    }
}

/// Reads a line of a header: `None` if the stream has ended before it.
fn next_header<R: Read>(alloc: Global, reader: &mut R) -> Result<Option<Header>, FrameError>
    ensures over { IfOk result (λ read. MatchOption read (IsAtEnd (R.remaining reader.old)) (λ _. ⊤)) }
    ensures length { (content rest : List ℕ) → length content ≤ MOST_CONTENT
        → R.remaining reader.old ≡ Some (frame_of content ++ rest)
        → IfOk result (λ read. (read ≡ Some (Header.Length (length content)))
        × (R.remaining reader.new ≡ Some (crlf ++ (content ++ rest)))) }
    ensures end { (rest : List ℕ) → R.remaining reader.old ≡ Some (crlf ++ rest)
        → IfOk result (λ read. (read ≡ Some Header.End) × (R.remaining reader.new ≡ Some rest)) }
{
    match read_line(alloc, reader)? {
        Some(line) => Ok(Some(header_in(line.as_slice())?)),
        None => Ok(None),
    }
}

/// Reads the header of a frame: the length of the content, or `None` if the stream has ended before it.
fn read_header<R: Read>(alloc: Global, reader: &mut R) -> Result<Option<usize>, FrameError>
    ensures { (content rest : List ℕ) → length content ≤ MOST_CONTENT
        → R.remaining reader.old ≡ Some (frame_of content ++ rest)
        → IfOk result (λ read. (read ≡ Some (length content))
        × (R.remaining reader.new ≡ Some (content ++ rest))) }
{
    let mut length = None;
    for turn in 0..MOST_LINES {
        match next_header(alloc, reader)? {
            None if turn == 0 => return Ok(None),
            None => return Err(FrameError::CutOff),
            Some(Header::Length(count)) => length = Some(count),
            Some(Header::Other) => {}
            Some(Header::End) => {
                return match length {
                    Some(length) => Ok(Some(length)),
                    None => Err(FrameError::BadHeader),
                };
            }
        }
    }
    Err(FrameError::BadHeader)
}

/// Reads the next frame, and answers its content: `None` if the stream has ended. Headers other than `Content-Length`
/// are passed over. After an error the stream is not to be read further: it is not known where the next frame begins.
pub fn read_frame<R: Read>(alloc: Global, reader: &mut R) -> Result<Option<Vec<u8>>, FrameError>
    ensures { (content rest : List ℕ) → length content ≤ MOST_CONTENT
        → R.remaining reader.old ≡ Some (frame_of content ++ rest)
        → IfOk result (λ read. MatchOption read ⊥ (λ bytes. (bytes.items ≡ content)
        × (R.remaining reader.new ≡ Some rest))) }
{
    let Some(length) = read_header(alloc, reader)? else {
        return Ok(None);
    };
    if length > MOST_CONTENT {
        return Err(FrameError::TooLong);
    }
    let mut content = vec![in alloc; 0u8; length]?;
    match reader.read_exact(content.as_mut_slice()) {
        Ok(()) => Ok(Some(content)),
        Err(_) => Err(FrameError::CutOff),
    }
}

/// Writes a content as a frame.
pub fn write_frame<W: Write>(alloc: Global, writer: &mut W, content: &[u8]) -> io::Result<()>
    ensures { OnOk result (Appends (W.contents writer.old) (W.contents writer.new) (frame_of content.now)) }
{
    let header = format!(in alloc; "Content-Length: {}\r\n\r\n", content.len())?;
    writer.write_all(header.as_bytes())?;
    writer.write_all(content)?;
    writer.flush()
}
