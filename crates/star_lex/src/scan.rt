//! The pieces of a text: `piece_at` cuts one, and its kind and size come from `first`, which chooses by the first byte.
//! `scan` makes a row of all the pieces.
//!
//! Signs are found by their first byte (`specs/Signs`), by the whole table in the definition; `proofs/Signs` proves
//! that they agree.

ghost use Rattle.std.specs.Prelude.{◌≡◌, ◌+◌, ◌<◌, ◌≤◌, ◌∷◌, drop, length, map, IfSome, IfOk};
ghost use Rattle.star_lex.specs.Tokens as spec;
ghost use Rattle.star_lex.specs.Pieces as pieces;
ghost use Rattle.star_lex.specs.Signs as signs;
ghost use Rattle.star_lex.specs.Values as values;
ghost use Rattle.star_lex.specs.Values.{Leads};

use crate::prefix::{Class, is_in, is_line_end, line_end_size, prefix_size, starts_with};
use crate::token::{Keyword, Kind, Punctuator, Span};
use crate::value::{Quoting, closed, int_of, opening, quoting_of};
use std::alloc::{AllocError, Global};

/// The kind of a piece.
#[derive(Clone, Copy)]
pub enum PieceKind {
    /// Spaces.
    Blank,
    /// Spaces and tabs, with a tab.
    TabbedBlank,
    Comment,
    LineEnd,
    /// A backslash and a line end.
    Continuation,
    /// A token that is written.
    Lexeme(Kind),
    /// Bytes that are not a token.
    Bad,
}

/// A piece: its kind, the lines on which it begins and ends, and its bytes.
#[derive(Clone, Copy)]
pub struct Piece {
    pub kind: PieceKind,
    pub line: usize,
    pub last: usize,
    pub span: Span,
}

const KEYWORDS: [(&[u8], Keyword); 33] = [
    (b"and", Keyword::And),
    (b"break", Keyword::Break),
    (b"continue", Keyword::Continue),
    (b"def", Keyword::Def),
    (b"elif", Keyword::Elif),
    (b"else", Keyword::Else),
    (b"for", Keyword::For),
    (b"if", Keyword::If),
    (b"in", Keyword::In),
    (b"lambda", Keyword::Lambda),
    (b"load", Keyword::Load),
    (b"not", Keyword::Not),
    (b"or", Keyword::Or),
    (b"pass", Keyword::Pass),
    (b"return", Keyword::Return),
    (b"as", Keyword::Reserved),
    (b"assert", Keyword::Reserved),
    (b"async", Keyword::Reserved),
    (b"await", Keyword::Reserved),
    (b"class", Keyword::Reserved),
    (b"del", Keyword::Reserved),
    (b"except", Keyword::Reserved),
    (b"finally", Keyword::Reserved),
    (b"from", Keyword::Reserved),
    (b"global", Keyword::Reserved),
    (b"import", Keyword::Reserved),
    (b"is", Keyword::Reserved),
    (b"nonlocal", Keyword::Reserved),
    (b"raise", Keyword::Reserved),
    (b"try", Keyword::Reserved),
    (b"while", Keyword::Reserved),
    (b"with", Keyword::Reserved),
    (b"yield", Keyword::Reserved),
];

fn keyword_in(mut rows: &[(&[u8], Keyword)], word: &[u8]) -> Option<Keyword>
    ensures { result ≡ spec.keyword_in (map (λ r. (r.0.now, r.1)) rows.entry.now) word.now }
{
    while let [row, others @ ..] = rows {
        if row.0.len() == word.len() && starts_with(word, row.0) {
            return Some(row.1);
        }
        rows = others;
    }
    None
}

/// The keyword that a word is; `None` for a name.
#[tactic(auto, unfolding(crate::specs::Tokens::keyword))]
pub fn keyword(word: &[u8]) -> Option<Keyword>
    ensures { result ≡ spec.keyword word.now }
{
    keyword_in(&KEYWORDS, word)
}

/// The sign of one byte that begins no other.
fn alone(first: u8) -> Option<(Punctuator, usize)>
    ensures { result ≡ signs.alone first }
{
    let sign = match first {
        b'~' => Punctuator::Tilde,
        b'.' => Punctuator::Dot,
        b',' => Punctuator::Comma,
        b';' => Punctuator::Semicolon,
        b':' => Punctuator::Colon,
        b'(' => Punctuator::LeftParen,
        b')' => Punctuator::RightParen,
        b'[' => Punctuator::LeftBracket,
        b']' => Punctuator::RightBracket,
        b'{' => Punctuator::LeftBrace,
        b'}' => Punctuator::RightBrace,
        _ => return None,
    };
    Some((sign, 1))
}

fn assigned(short: Punctuator, long: Punctuator, size: usize, rest: &[u8]) -> (Punctuator, usize)
    requires { size ≤ 2 }
    ensures value { result ≡ signs.assigned short long size rest.now }
    ensures within { (size ≤ result.1) × (result.1 ≤ size + length rest.now) }
{
    if starts_with(rest, b"=") {
        (long, size + 1)
    } else {
        (short, size)
    }
}

/// The sign of a byte that the byte itself or `=` may follow.
fn repeated(first: u8, rest: &[u8]) -> Option<(Punctuator, usize)>
    ensures value { result ≡ signs.repeated first rest.now }
    ensures within { IfSome result (λ s. (1 ≤ s.1) × (s.1 ≤ 1 + length rest.now)) }
{
    let twice = starts_with(rest, &[first]);
    let after = if twice { &rest[1..] } else { rest };
    match first {
        b'*' if twice => Some((Punctuator::StarStar, 2)),
        b'*' => Some(assigned(Punctuator::Star, Punctuator::StarAssign, 1, rest)),
        b'/' if twice => Some(assigned(
            Punctuator::SlashSlash,
            Punctuator::SlashSlashAssign,
            2,
            after,
        )),
        b'<' if twice => Some(assigned(
            Punctuator::ShiftLeft,
            Punctuator::ShiftLeftAssign,
            2,
            after,
        )),
        b'<' => Some(assigned(Punctuator::Less, Punctuator::LessEqual, 1, rest)),
        b'>' if twice => Some(assigned(
            Punctuator::ShiftRight,
            Punctuator::ShiftRightAssign,
            2,
            after,
        )),
        b'>' => Some(assigned(Punctuator::Greater, Punctuator::GreaterEqual, 1, rest)),
        b'!' if starts_with(rest, b"=") => Some((Punctuator::NotEqual, 2)),
        _ => None,
    }
}

/// The sign of a byte that only `=` may follow.
fn with_equals(first: u8, rest: &[u8]) -> Option<(Punctuator, usize)>
    ensures value { result ≡ signs.with_equals first rest.now }
    ensures within { IfSome result (λ s. (1 ≤ s.1) × (s.1 ≤ 1 + length rest.now)) }
{
    let (short, long) = match first {
        b'+' => (Punctuator::Plus, Punctuator::PlusAssign),
        b'-' => (Punctuator::Minus, Punctuator::MinusAssign),
        b'%' => (Punctuator::Percent, Punctuator::PercentAssign),
        b'&' => (Punctuator::Ampersand, Punctuator::AmpersandAssign),
        b'|' => (Punctuator::Bar, Punctuator::BarAssign),
        b'^' => (Punctuator::Caret, Punctuator::CaretAssign),
        b'=' => (Punctuator::Assign, Punctuator::EqualEqual),
        _ => return None,
    };
    Some(assigned(short, long, 1, rest))
}

/// The sign at the front of `first` and `rest`, and how many bytes it takes.
#[tactic(auto, using(crate::proofs::Signs::by_first), unfolding(crate::specs::Signs::operator))]
fn sign(first: u8, rest: &[u8]) -> Option<(Punctuator, usize)>
    ensures value { result ≡ spec.sign (first ∷ rest.now) }
    ensures within { IfSome result (λ s. (1 ≤ s.1) × (s.1 ≤ 1 + length rest.now)) }
{
    if let Some(found) = repeated(first, rest) {
        return Some(found);
    }
    if let Some(found) = with_equals(first, rest) {
        return Some(found);
    }
    alone(first)
}

fn blanks(text: &[u8]) -> (PieceKind, usize)
    requires { Leads Class.Blank text.now }
    ensures value { result ≡ pieces.blanks text.now }
    ensures within { (1 ≤ result.1) × (result.1 ≤ length text.now) }
{
    let size = prefix_size(Class::Blank, text);
    if prefix_size(Class::Space, text) == size {
        (PieceKind::Blank, size)
    } else {
        (PieceKind::TabbedBlank, size)
    }
}

/// A backslash and the line end after it, or a bad piece.
fn continuation(rest: &[u8]) -> (PieceKind, usize)
    ensures value { result ≡ pieces.continuation rest.now }
    ensures within { (1 ≤ result.1) × (result.1 ≤ 1 + length rest.now) }
{
    match rest {
        [first, ..] if is_line_end(*first) => (PieceKind::Continuation, 1 + line_end_size(rest)),
        _ => (PieceKind::Bad, 1 + rest.len()),
    }
}

fn string(quoting: Quoting, text: &[u8]) -> (PieceKind, usize)
    requires { (1 ≤ values.opening quoting) × (values.opening quoting ≤ length text.now) }
    ensures value { result ≡ pieces.text quoting text.now }
    ensures within { (1 ≤ result.1) × (result.1 ≤ length text.now) }
{
    let start = opening(quoting);
    match closed(quoting, &text[start..]) {
        None => (PieceKind::Bad, text.len()),
        Some(size) => (PieceKind::Lexeme(Kind::Text), start + size),
    }
}

fn int(text: &[u8]) -> (PieceKind, usize)
    requires { Leads Class.Word text.now }
    ensures value { result ≡ pieces.int text.now }
    ensures within { (1 ≤ result.1) × (result.1 ≤ length text.now) }
{
    let size = prefix_size(Class::Word, text);
    match int_of(&text[..size]) {
        None => (PieceKind::Bad, text.len()),
        Some(_) => (PieceKind::Lexeme(Kind::Int), size),
    }
}

fn word(text: &[u8]) -> (PieceKind, usize)
    requires { Leads Class.Word text.now }
    ensures value { result ≡ pieces.word text.now }
    ensures within { (1 ≤ result.1) × (result.1 ≤ length text.now) }
{
    let size = prefix_size(Class::Word, text);
    match keyword(&text[..size]) {
        None => (PieceKind::Lexeme(Kind::Name), size),
        Some(keyword) => (PieceKind::Lexeme(Kind::Keyword(keyword)), size),
    }
}

fn unquoted(first: u8, rest: &[u8], text: &[u8]) -> (PieceKind, usize)
    requires { text.now ≡ first ∷ rest.now }
    ensures value { result ≡ pieces.unquoted first text.now }
    ensures within { (1 ≤ result.1) × (result.1 ≤ length text.now) }
{
    if first.is_ascii_digit() {
        return int(text);
    }
    if is_in(Class::Word, first) {
        return word(text);
    }
    match sign(first, rest) {
        None => (PieceKind::Bad, text.len()),
        Some((sign, size)) => (PieceKind::Lexeme(Kind::Punctuator(sign)), size),
    }
}

/// The piece at the front of a text, and how many bytes it takes.
#[tactic(auto, unfolding(crate::specs::Pieces::first))]
fn first(text: &[u8]) -> (PieceKind, usize)
    requires { 1 ≤ length text.now }
    ensures value { result ≡ pieces.first text.now }
    ensures within { (1 ≤ result.1) × (result.1 ≤ length text.now) }
{
    let [first, rest @ ..] = text else {
        return (PieceKind::Bad, 0);
    };
    if is_in(Class::Blank, *first) {
        return blanks(text);
    }
    if is_line_end(*first) {
        return (PieceKind::LineEnd, line_end_size(text));
    }
    match *first {
        b'#' => (PieceKind::Comment, prefix_size(Class::Line, text)),
        b'\\' => continuation(rest),
        byte => match quoting_of(text) {
            None => unquoted(byte, rest, text),
            Some(quoting) => string(quoting, text),
        },
    }
}

/// How many line ends a text has.
pub fn line_ends(text: &[u8]) -> usize
    ensures value { result ≡ pieces.line_ends text.now }
    ensures within { result ≤ length text.now }
{
    let mut rest = text;
    let mut count = 0;
    while let [byte, more @ ..] = rest {
        if *byte == b'\n' || (*byte == b'\r' && !starts_with(more, b"\n")) {
            count += 1;
        }
        rest = more;
    }
    count
}

/// The piece at the byte `at` of a text, on the line `line`. The pieces from there on are this one, and those from its
/// end on.
pub(crate) fn piece_at(text: &[u8], line: usize, at: usize) -> Piece
    requires inside { at < length text.now }
    requires line { line ≤ at + 1 }
    ensures next { pieces.pieces_from 0 line at (drop at text.now)
        ≡ result ∷ pieces.pieces_from 0 result.last result.span.end (drop result.span.end text.now) }
    ensures start { result.span.start ≡ at }
    ensures moves { at < result.span.end }
    ensures within { result.span.end ≤ length text.now }
    ensures last { result.last ≤ result.span.end + 1 }
{
    let rest = &text[at..];
    let (kind, size) = first(rest);
    let last = line + line_ends(&rest[..size]);
    let span = Span {
        start: at,
        end: at + size,
    };
    Piece {
        kind,
        line,
        last,
        span,
    }
}

/// The pieces of a text, whose texts, joined, are the text. The row takes more memory than the tokens, and is only for
/// telling a person about a mistake.
pub fn scan(alloc: Global, text: &[u8]) -> Result<Vec<Piece>, AllocError>
    ensures value { IfOk result (λ found. found.items ≡ pieces.pieces text.now) }
    ensures joined { IfOk result (λ found. pieces.joined text.now found.items ≡ text.now) }
    ensures tiles { IfOk result (λ found. pieces.Tiles 0 found.items (length text.now)) }
{
    let mut found = Vec::new(alloc);
    let mut line = 1;
    let mut at = 0;
    while at < text.len() {
        let piece = piece_at(text, line, at);
        found.push(piece)?;
        line = piece.last;
        at = piece.span.end;
    }
    Ok(found)
}
