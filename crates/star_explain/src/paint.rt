//! Colours, where a terminal shows the text.

use std::alloc::AllocError;

/// A colour of a part of a text.
#[derive(Clone, Copy)]
pub(crate) enum Color {
    Red,
    Blue,
    Cyan,
}

/// The bytes that end a colour.
const PLAIN: &str = "\u{1b}[0m";

impl Color {
    /// The bytes that begin this colour on a terminal.
    fn code(self) -> &'static str {
        match self {
            Color::Red => "\u{1b}[1;31m",
            Color::Blue => "\u{1b}[1;34m",
            Color::Cyan => "\u{1b}[1;36m",
        }
    }
}

/// Writes a text, in a colour if `is_colored`.
pub(crate) fn push_colored(
    all: &mut String,
    text: &str,
    color: Color,
    is_colored: bool,
) -> Result<(), AllocError> {
    if !is_colored || text.is_empty() {
        return all.push_str(text);
    }
    all.push_str(color.code())?;
    all.push_str(text)?;
    all.push_str(PLAIN)
}

/// Writes the lines that show a place: the margin before the text of a line is blue, and so are carets.
pub(crate) fn push_lines(
    all: &mut String,
    lines: &str,
    is_colored: bool,
) -> Result<(), AllocError> {
    let mut is_text = true;
    for line in lines.lines() {
        push_line(all, line, is_text, is_colored)?;
        is_text = false;
    }
    Ok(())
}

/// Writes one of these lines; the first of them has the text.
fn push_line(
    all: &mut String,
    line: &str,
    is_text: bool,
    is_colored: bool,
) -> Result<(), AllocError> {
    match line.split_once('|') {
        Some((margin, rest)) if is_text => {
            push_colored(all, margin, Color::Blue, is_colored)?;
            push_colored(all, "|", Color::Blue, is_colored)?;
            all.push_str(rest)?;
        }
        _ => push_colored(all, line, Color::Blue, is_colored)?,
    }
    all.push('\n')
}
