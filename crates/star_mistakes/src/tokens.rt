//! Texts that cannot be cut into tokens, and lines whose indentation fits no block.

use crate::message::Part;
use crate::message::Part::{Number, Plain, Shown};
use crate::mistake::Mistake;
use crate::place::{Line, Mark, between};
use star_lex::scan::{Piece, PieceKind, scan};
use std::alloc::{AllocError, Global};

const CODE: &str = "bad_token";

const INDENT: &str = "bad_indent";

/// The character with which some editors begin a file.
const BYTE_ORDER_MARK: char = '\u{feff}';

/// The help for a string with a bad escape.
const ESCAPES: &str =
    "escapes are \\n \\t \\r \\\\ \\' \\\" \\a \\b \\f \\v, \\ooo, \\xhh up to \\x7f, \\uhhhh and \\Uhhhhhhhh; r\"..\" has none";

/// The characters that are an escape by themselves after a backslash.
const ESCAPED: [char; 12] = [
    'n', 't', 'r', '\\', '\'', '"', 'a', 'b', 'f', 'v', '\n', '\r',
];

/// How many hexadecimal digits follow this letter in an escape; 0 if it begins none.
fn digits_after(letter: char) -> usize {
    match letter {
        'x' => 2,
        'u' => 4,
        'U' => 8,
        _ => 0,
    }
}

/// Whether a text after a backslash begins with the rest of an escape.
fn is_escape(text: &str) -> bool {
    let mut letters = text.chars();
    let Some(letter) = letters.next() else {
        return false;
    };
    let digits = digits_after(letter);
    let count = letters
        .take(digits)
        .filter(|c| c.is_ascii_hexdigit())
        .count();
    ESCAPED.contains(&letter) || letter.is_digit(8) || (digits > 0 && count == digits)
}

/// The place and the size of the first backslash with a character after it that is no escape.
fn bad_escape(text: &str) -> Option<(usize, usize)> {
    let mut is_escaped = false;
    for (at, c) in text.char_indices() {
        let rest = text.get(at..).unwrap_or("");
        if is_escaped && !is_escape(rest) {
            return Some((at.saturating_sub(1), c.len_utf8().saturating_add(1)));
        }
        is_escaped = c == '\\' && !is_escaped;
    }
    None
}

/// A byte that fits nothing: its place, and the text around it.
#[derive(Clone, Copy)]
struct Spot<'a> {
    alloc: Global,
    file: usize,
    text: &'a str,
    line: Line<'a>,
    /// The first byte.
    at: usize,
}

/// The beginning of the part that fits nothing: the first bad piece, or the first continuation of this line, which
/// comes before all of its tokens.
fn first_bad(pieces: &[Piece], line: usize) -> Option<usize> {
    for piece in pieces {
        let fits_nothing = match piece.kind {
            PieceKind::Bad => true,
            PieceKind::Continuation => piece.line == line,
            _ => false,
        };
        if fits_nothing {
            return Some(piece.span.start);
        }
    }
    None
}

/// How many bytes of a text belong to the words at its front.
fn word_size(text: &str) -> usize {
    for (at, c) in text.char_indices() {
        if !c.is_ascii_alphanumeric() && c != '_' {
            return at;
        }
    }
    text.len()
}

/// The quotes at the front of a text: none, one or three.
fn quotes_of(text: &str) -> &str {
    let size = if text.starts_with("\"\"\"") || text.starts_with("'''") {
        3
    } else if text.starts_with(['"', '\'']) {
        1
    } else {
        0
    };
    text.get(..size).unwrap_or("")
}

impl<'a> Spot<'a> {
    /// The text from here to the end of the line.
    fn rest(self) -> &'a str {
        between(self.text, self.at, self.line.end())
    }

    /// `size` bytes from here on.
    fn mark(self, size: usize) -> Mark {
        Mark {
            file: self.file,
            start: self.at,
            end: self.at.saturating_add(size),
        }
    }

    /// The first `size` bytes from here on.
    fn front(self, size: usize) -> &'a str {
        self.rest().get(..size).unwrap_or("")
    }

    /// A mistake in the first `size` bytes.
    fn told(self, size: usize, text: &[Part], help: &[Part]) -> Result<Mistake, AllocError> {
        Mistake::new(self.alloc, self.mark(size), CODE, text, help)
    }

    /// The text that a string with these quotes may have: to the end of its line, or of the file.
    fn inside(self, quotes: &str) -> &'a str {
        let front = self.at.saturating_add(quotes.len());
        let end = if quotes.len() < 3 {
            self.line.end()
        } else {
            self.text.len()
        };
        between(self.text, front, end)
    }

    /// A backslash, so many bytes from here on, that begins no escape; `size` bytes are shown.
    fn escape(self, from: usize, size: usize) -> Result<Mistake, AllocError> {
        let start = self.at.saturating_add(from);
        let mark = Mark {
            file: self.file,
            start,
            end: start.saturating_add(size),
        };
        let text = [
            Plain("there is no escape `"),
            Shown(between(self.text, mark.start, mark.end)),
            Plain("` in strings"),
        ];
        Mistake::new(self.alloc, mark, CODE, &text, &[Plain(ESCAPES)])
    }

    /// A string whose quotes end at this byte: it is not closed, or it has a bad escape.
    fn string(self, quotes: &str) -> Result<Mistake, AllocError> {
        let rest = self.rest();
        let inside = self.inside(quotes);
        if inside.contains(quotes) {
            if let Some((at, size)) = bad_escape(inside) {
                return self.escape(quotes.len().saturating_add(at), size);
            }
        }
        self.told(
            rest.len(),
            &[Plain("this string is not closed: "), Shown(rest)],
            &[
                Plain("put "),
                Plain(quotes),
                Plain(" at its end; a string of several lines has three quotes at each end"),
            ],
        )
    }

    /// A bad number, or a number that touches a string.
    fn number(self) -> Result<Mistake, AllocError> {
        let size = word_size(self.rest());
        let word = self.front(size);
        let before = between(self.text, self.line.start, self.at);
        if before.ends_with('"') || before.ends_with('\'') {
            return self.told(
                size,
                &[
                    Plain("`"),
                    Shown(word),
                    Plain("` touches the string before it"),
                ],
                &[Plain("a quote may be missing earlier on this line")],
            );
        }
        self.told(
            size,
            &[Plain("no such number: `"), Shown(word), Plain("`")],
            &[Plain(
                "ints are at most 9223372036854775807, and written as 42, 0x2a or 0o52; there are no floats",
            )],
        )
    }

    /// A character that is not in the language.
    fn sign(self, c: char) -> Result<Mistake, AllocError> {
        let size = c.len_utf8();
        if c == BYTE_ORDER_MARK {
            let help = [Plain("save the file as UTF-8 without it")];
            return self.told(size, &[Plain("a byte order mark stands here")], &help);
        }
        self.told(
            size,
            &[
                Plain("`"),
                Shown(self.front(size)),
                Plain("` is not in this language"),
            ],
            &[Plain(of_sign(c))],
        )
    }
}

/// The help for a character that begins no token.
fn of_sign(c: char) -> &'static str {
    match c {
        '/' => "`//` divides ints; there are no floats",
        '!' => "write `not`",
        '@' => "there are no decorators",
        '?' => "write `a if condition else b`",
        '$' => "names have ASCII letters, digits and `_`",
        '\\' => "outside of a string it joins two lines: it stands at a line's end, after a token",
        _ if c.is_control() => "a control character stands here; only a tab or a line end may",
        _ => {
            "names have ASCII letters, digits and `_`; look for a pasted quote or a blank that is none"
        }
    }
}

/// Where the part that fits nothing begins: at this line at the latest.
fn bad_start(alloc: Global, text: &str, line: usize) -> Result<usize, AllocError> {
    let pieces = scan(alloc, text.as_bytes())?;
    match first_bad(pieces.as_slice(), line) {
        Some(at) => Ok(at),
        None => Ok(Line::numbered(text, line).start),
    }
}

/// A text that cannot be cut into tokens, by a token of this line.
pub(crate) fn bad_token(
    alloc: Global,
    file: usize,
    text: &str,
    line: usize,
) -> Result<Mistake, AllocError> {
    let at = bad_start(alloc, text, line)?;
    let spot = Spot {
        alloc,
        file,
        text,
        line: Line::at(text, at),
        at,
    };
    let rest = spot.rest();
    let quotes = quotes_of(rest.strip_prefix('r').unwrap_or(rest));
    if !quotes.is_empty() {
        return spot.string(quotes);
    }
    match rest.chars().next() {
        Some(c) if c.is_ascii_digit() => spot.number(),
        Some(c) => spot.sign(c),
        None => spot.sign(' '),
    }
}

/// A line whose indentation fits no block.
pub(crate) fn bad_indent(
    alloc: Global,
    file: usize,
    text: &str,
    line: usize,
) -> Result<Mistake, AllocError> {
    let line = Line::numbered(text, line);
    let first = line.text.trim_start_matches([' ', '\t']);
    let width = line.text.len().saturating_sub(first.len());
    let mark = Mark {
        file,
        start: line.start,
        end: line.start.saturating_add(width),
    };
    let blanks = line.text.get(..width).unwrap_or("");
    if blanks.contains('\t') {
        let text = [Plain("a tab in the indentation of a line")];
        return Mistake::new(alloc, mark, INDENT, &text, &[Plain("indent with spaces")]);
    }
    let text = [
        Plain("this line is indented by "),
        Number(width),
        Plain(", and no block that is open here is"),
    ];
    let help = [Plain(
        "indent it as the other lines of its block, or as the line that begins the block",
    )];
    Mistake::new(alloc, mark, INDENT, &text, &help)
}
