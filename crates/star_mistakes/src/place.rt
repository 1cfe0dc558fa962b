//! Places in a text as an editor counts them, and the lines that show them.

ghost use Rattle.std.specs.Prelude.{◌≡◌};

use star_label::files::Files;
use star_lex::scan::line_ends;
use star_lex::token::Token;
use std::alloc::{AllocError, Global};
use unicode_width::UnicodeWidthChar;

/// A place in a file: the bytes of its text from `start` up to, but without, `end`.
#[derive(Clone, Copy, PartialEq, Eq)]
pub struct Mark {
    pub file: usize,
    pub start: usize,
    pub end: usize,
}

/// How a file is named: by its label, or by its path in the folder that has it.
#[derive(Clone, Copy, Debug, PartialEq, Eq)]
pub enum Naming {
    Labels,
    Paths,
}

/// A line of a text.
#[derive(Clone, Copy)]
pub struct Line<'a> {
    /// Its number, from 1.
    pub number: usize,
    /// The place of its first byte in the text.
    pub start: usize,
    /// Its own text, without the line end.
    pub text: &'a str,
}

const LINE_ENDS: [char; 2] = ['\n', '\r'];

/// How many characters of a line are shown, and how many of those before the place, if it is cut.
const WIDTH: usize = 100;

const BEFORE: usize = 30;

/// How many characters of a word are shown.
const WORD: usize = 60;

impl<'a> Line<'a> {
    /// The line that begins at a byte.
    fn from(text: &'a str, number: usize, start: usize) -> Line<'a> {
        let rest = text.get(start..).unwrap_or("");
        let size = rest.find(LINE_ENDS).unwrap_or(rest.len());
        Line {
            number,
            start,
            text: rest.get(..size).unwrap_or(""),
        }
    }

    /// The line of a byte of a text.
    pub fn at(text: &'a str, byte: usize) -> Line<'a> {
        let front = text.get(..byte).unwrap_or(text);
        let start = match front.rfind(LINE_ENDS) {
            Some(end) => end.saturating_add(1),
            None => 0,
        };
        let number = line_ends(front.as_bytes()).saturating_add(1);
        Line::from(text, number, start)
    }

    /// The line with a number; the last one if there are fewer.
    pub fn numbered(text: &'a str, number: usize) -> Line<'a> {
        let mut line = Line::from(text, 1, 0);
        for _ in 1..number {
            match line.next(text) {
                Some(next) => line = next,
                None => break,
            }
        }
        line
    }

    /// The line after this one of the same text.
    fn next(self, text: &'a str) -> Option<Line<'a>> {
        let end = self.end();
        let rest = text.get(end..)?;
        if rest.is_empty() {
            return None;
        }
        let size = if rest.starts_with("\r\n") { 2 } else { 1 };
        Some(Line::from(
            text,
            self.number.saturating_add(1),
            end.saturating_add(size),
        ))
    }

    /// Where it ends in the text.
    pub fn end(self) -> usize {
        self.start.saturating_add(self.text.len())
    }

    /// The column of a byte, from 1: characters are counted.
    pub fn column(self, byte: usize) -> usize {
        let front = self.text.get(..byte.saturating_sub(self.start));
        characters(front.unwrap_or(self.text)).saturating_add(1)
    }

    /// The whole line in a file, without the blanks at its front.
    pub fn mark(self, file: usize) -> Mark {
        let blanks = self.text.len().saturating_sub(self.text.trim_start().len());
        Mark {
            file,
            start: self.start.saturating_add(blanks),
            end: self.end(),
        }
    }
}

/// How many characters a text has.
fn characters(text: &str) -> usize {
    text.chars().count()
}

/// The text between two bytes; empty if they cut a character.
pub fn between(text: &str, start: usize, end: usize) -> &str {
    text.get(start..end).unwrap_or("")
}

/// The text of a token.
pub fn word_of<'a>(text: &'a str, token: &Token) -> &'a str {
    between(text, token.span.start, token.span.end)
}

/// The bytes of a token in a file.
pub fn mark_of(file: usize, token: &Token) -> Mark {
    Mark {
        file,
        start: token.span.start,
        end: token.span.end,
    }
}

/// The text of a file; empty without such a file.
pub fn text_of(files: &Files, file: usize) -> &str {
    if file < files.len() {
        files.text(file)
    } else {
        ""
    }
}

/// The label of a file; empty without such a file.
pub fn label_of(files: &Files, file: usize) -> &str {
    if file < files.len() {
        files.label(file).text()
    } else {
        ""
    }
}

/// The form of a character in a message: a blank for a tab, and a mark of its own for a character that a terminal would
/// obey.
fn visible(c: char) -> char {
    match c {
        '\t' => ' ',
        '\u{200e}' | '\u{200f}' | '\u{202a}'..='\u{202e}' | '\u{2066}'..='\u{2069}' => '\u{fffd}',
        _ if c.is_control() => '\u{fffd}',
        _ => c,
    }
}

/// Writes a word of a text in its form for a message: its first characters.
pub fn push_shown(all: &mut String, word: &str) -> Result<(), AllocError> {
    for (count, c) in word.chars().enumerate() {
        if count >= WORD {
            return all.push_str("..");
        }
        all.push(visible(c))?;
    }
    Ok(())
}

/// A word of a text in its form for a message.
pub fn shown(alloc: Global, word: &str) -> Result<String, AllocError> {
    let mut all = String::new(alloc);
    push_shown(&mut all, word)?;
    Ok(all)
}

/// How many characters of a text that a program wrote are told.
const WHOLE: usize = 4_000;

/// A text that a program wrote for the reader: its first 4,000 characters, with its own lines.
pub fn whole(alloc: Global, text: &str) -> Result<String, AllocError> {
    let mut all = String::new(alloc);
    for (count, c) in text.chars().enumerate() {
        if count >= WHOLE {
            all.push_str("..")?;
            return Ok(all);
        }
        all.push(if c == '\n' { c } else { visible(c) })?;
    }
    Ok(all)
}

/// The name of a file: its label, or its path.
pub fn push_name(
    all: &mut String,
    files: &Files,
    file: usize,
    naming: Naming,
) -> Result<(), AllocError> {
    let label = label_of(files, file);
    let Some((package, name)) = label.split_once(':') else {
        return all.push_str(label);
    };
    if naming == Naming::Labels {
        return all.push_str(label);
    }
    let package = package.trim_start_matches('/');
    if !package.is_empty() {
        all.push_str(package)?;
        all.push('/')?;
    }
    all.push_str(name)
}

/// `NAME:LINE`.
pub fn push_place(
    all: &mut String,
    files: &Files,
    mark: Mark,
    naming: Naming,
) -> Result<(), AllocError> {
    let line = Line::at(text_of(files, mark.file), mark.start);
    push_name(all, files, mark.file, naming)?;
    write!(all, ":{}", line.number)
}

/// `:COLUMN`, which comes after `NAME:LINE`.
pub fn push_column(all: &mut String, files: &Files, mark: Mark) -> Result<(), AllocError> {
    let column = Line::at(text_of(files, mark.file), mark.start).column(mark.start);
    write!(all, ":{column}")
}

/// The part of a line that a message has: its text, and how many columns are before the place and under it.
#[derive(Drop)]
struct Window {
    text: String,
    before: usize,
    under: usize,
}

impl Window {
    /// The next character of the line, which begins at this byte of it.
    fn push(&mut self, c: char, at: usize, start: usize, end: usize) -> Result<(), AllocError> {
        let c = visible(c);
        let wide = c.width().unwrap_or(1);
        if at < start {
            self.before = self.before.saturating_add(wide);
        } else if at < end {
            self.under = self.under.saturating_add(wide);
        }
        self.text.push(c)
    }
}

/// A line round its bytes from `start` to `end`.
fn window_of(alloc: Global, line: &str, start: usize, end: usize) -> Result<Window, AllocError> {
    let front = characters(line.get(..start).unwrap_or(line));
    let skip = if front > WIDTH - BEFORE {
        front.saturating_sub(BEFORE)
    } else {
        0
    };
    let mut cut = Window {
        text: String::new(alloc),
        before: 0,
        under: 0,
    };
    if skip > 0 {
        cut.text.push_str("..")?;
        cut.before = 2;
    }
    let mut count: usize = 0;
    for (at, c) in line.char_indices() {
        if count >= skip.saturating_add(WIDTH) {
            cut.text.push_str("..")?;
            break;
        }
        if count >= skip {
            cut.push(c, at, start, end)?;
        }
        count = count.saturating_add(1);
    }
    Ok(cut)
}

/// A character, this many times.
fn push_times(all: &mut String, c: char, times: usize) -> Result<(), AllocError> {
    for _ in 0..times {
        all.push(c)?;
    }
    Ok(())
}

/// The line of a place with its number, and carets below the place.
pub fn push_source(
    all: &mut String,
    alloc: Global,
    files: &Files,
    mark: Mark,
) -> Result<(), AllocError> {
    let line = Line::at(text_of(files, mark.file), mark.start);
    let start = mark.start.saturating_sub(line.start);
    let end = mark.end.saturating_sub(line.start);
    let cut = window_of(alloc, line.text, start, end)?;
    let number = format!(in alloc; "{:>4}", line.number)?;
    write!(all, "{number} | {}\n", cut.text)?;
    push_times(all, ' ', number.len())?;
    all.push_str(" | ")?;
    push_times(all, ' ', cut.before)?;
    push_times(all, '^', cut.under.max(1))?;
    all.push('\n')
}
