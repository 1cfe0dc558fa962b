//! Makes the tokens of a text: cuts one piece after the other, joins lines and judges indentation. `lay` has the loop,
//! and `step` reads one piece. There is no row of pieces, which would take more memory than the tokens.
//!
//! Open indentations are a list with the innermost first, as in the definition. Depth n takes a line of n spaces, so
//! the work stays linear.

ghost use Rattle.std.specs.Prelude.{◌≡◌, ◌+◌, ◌-◌, ◌<◌, ◌≤◌, ◌^◌, ◌∷◌, ◌++◌, [], ℕ, List, length, replicate, IfSome, IfOk};
ghost use Rattle.star_lex.specs.declared.lay.Place.TheVariants.{Front, Inside};
ghost use Rattle.star_lex.specs.Lines as spec;
ghost use Rattle.star_lex.specs.Lines.{Answers, Pushes};
ghost use Rattle.star_lex.specs.Pieces.{Tiles, pieces};
ghost use Rattle.star_lex.specs.Places as places;
ghost use Rattle.star_lex.specs.Places.{Reads};

use crate::scan::{Piece, PieceKind, piece_at};
use crate::token::{Kind, Punctuator, Span, SyntaxFault, Token};
use std::alloc::Global;

/// Where in a logical line the lexer is.
#[derive(Clone, Copy)]
pub enum Place {
    /// Before the first token. This is the first piece of the line, if it has one so far.
    Front(Option<Piece>),
    /// Past the indentation: so many brackets are open, and this piece is the last token, if the line has one so far.
    Inside { depth: usize, before: Option<Piece> },
}

fn depth_after(depth: usize, kind: PieceKind) -> usize
    requires { depth + 1 < 2 ^ 64 }
    ensures value { result ≡ spec.depth_after depth kind }
    ensures near { result ≤ depth + 1 }
{
    match kind {
        PieceKind::Lexeme(
            Kind::Punctuator(
                Punctuator::LeftParen | Punctuator::LeftBracket | Punctuator::LeftBrace,
            ),
        ) => depth + 1,
        PieceKind::Lexeme(
            Kind::Punctuator(
                Punctuator::RightParen | Punctuator::RightBracket | Punctuator::RightBrace,
            ),
        ) => depth.saturating_sub(1),
        _ => depth,
    }
}

/// How many of the open indentations, the innermost first, a width closes; `None` if none of them equals it.
fn closing(opened: &[usize], width: usize) -> Option<usize>
    ensures value { result ≡ spec.closing opened.now width }
    ensures within { IfSome result (λ n. n < length opened.now) }
{
    let mut rest = opened;
    let mut count = 0;
    while let [first, more @ ..] = rest {
        if *first == width {
            return Some(count);
        }
        if *first < width {
            return None;
        }
        count += 1;
        rest = more;
    }
    None
}

/// How many spaces lead a line that begins with a piece; `None` if there is a tab among them.
fn width(first: Piece) -> Option<usize>
    ensures { result ≡ spec.width (first ∷ []) }
{
    match first.kind {
        PieceKind::TabbedBlank => None,
        PieceKind::Blank => Some(first.span.end.saturating_sub(first.span.start)),
        _ => Some(0),
    }
}

fn empty_token(kind: Kind, line: usize, at: usize) -> Token
    ensures { result ≡ spec.empty_token kind line at }
{
    let span = Span { start: at, end: at };
    Token { kind, line, span }
}

/// Pushes a token `times` times.
fn push_times(out: &mut Vec<Token>, token: Token, times: usize) -> Result<(), SyntaxFault>
    ensures { Pushes (Ok (out.old.items ++ replicate times token)) result out.new.items }
{
    for _turn in 0..times {
        out.push(token)?;
    }
    Ok(())
}

/// Opens or closes the indentations before a line.
fn indent(
    out: &mut Vec<Token>,
    opened: &mut Vec<usize>,
    width: usize,
    line: usize,
    at: usize,
) -> Result<(), SyntaxFault>
    ensures tokens { Pushes (spec.onto_marks out.old.items (spec.layout opened.old.items width) line at)
        result out.new.items }
    ensures opened { IfOk result (λ _. opened.new.items
        ≡ spec.opened_by opened.old.items (spec.layout opened.old.items width) (Some width)) }
{
    match opened.first() {
        Some(innermost) if *innermost < width => {
            out.push(empty_token(Kind::Indent, line, at))?;
            opened.insert(0, width)?;
            return Ok(());
        }
        _ => {}
    }
    let Some(count) = closing(opened, width) else {
        return Err(SyntaxFault::BadIndent { line });
    };
    opened.drain(..count);
    push_times(out, empty_token(Kind::Outdent, line, at), count)
}

/// Pushes the NEWLINE of a line that ends at depth 0, if the line has a last token.
fn push_newline(
    out: &mut Vec<Token>,
    depth: usize,
    before: Option<Piece>,
) -> Result<(), SyntaxFault>
    ensures { Pushes (Ok (out.old.items ++ spec.newline depth before)) result out.new.items }
{
    match before {
        Some(piece) if depth == 0 => {
            out.push(empty_token(Kind::Newline, piece.last, piece.span.end))?;
            Ok(())
        }
        _ => Ok(()),
    }
}

/// Reads a piece after the indentation of its line was judged.
fn go_on(
    out: &mut Vec<Token>,
    depth: usize,
    before: Option<Piece>,
    piece: Piece,
) -> Result<Place, SyntaxFault>
    requires { depth + 1 < 2 ^ 64 }
    ensures tokens { (opened : List ℕ)
        → Reads out.old.items opened (Inside depth before) piece result out.new.items opened }
    ensures near { IfOk result (λ place. places.depth_of place ≤ depth + 1) }
{
    match piece.kind {
        PieceKind::LineEnd if depth == 0 => {
            push_newline(out, depth, before)?;
            Ok(Place::Front(None))
        }
        PieceKind::Blank | PieceKind::TabbedBlank | PieceKind::Comment | PieceKind::LineEnd => {
            Ok(Place::Inside { depth, before })
        }
        PieceKind::Lexeme(kind) => {
            let (line, span) = (piece.line, piece.span);
            out.push(Token { kind, line, span })?;
            Ok(Place::Inside {
                depth: depth_after(depth, piece.kind),
                before: Some(piece),
            })
        }
        PieceKind::Continuation if before.is_some() => Ok(Place::Inside { depth, before }),
        PieceKind::Continuation => Err(SyntaxFault::BadToken { line: piece.line }),
        PieceKind::Bad => Err(SyntaxFault::BadToken { line: piece.line }),
    }
}

/// Reads a piece before the first token of its line. One that is not a blank, a comment or a line end has the
/// indentation judged, by the first piece of the line.
fn begin(
    out: &mut Vec<Token>,
    opened: &mut Vec<usize>,
    first: Option<Piece>,
    piece: Piece,
) -> Result<Place, SyntaxFault>
    ensures tokens { Reads out.old.items opened.old.items (Front first) piece result out.new.items opened.new.items }
    ensures near { IfOk result (λ place. places.depth_of place ≤ 1) }
{
    let lead = first.unwrap_or(piece);
    match piece.kind {
        PieceKind::LineEnd => return Ok(Place::Front(None)),
        PieceKind::Blank | PieceKind::TabbedBlank | PieceKind::Comment => {
            return Ok(Place::Front(Some(lead)));
        }
        _ => {}
    }
    let Some(width) = width(lead) else {
        return Err(SyntaxFault::BadIndent { line: piece.line });
    };
    indent(out, opened, width, piece.line, piece.span.start)?;
    go_on(out, 0, None, piece)
}

/// Reads a piece: pushes its tokens, and returns the place after it.
fn step(
    out: &mut Vec<Token>,
    opened: &mut Vec<usize>,
    place: Place,
    piece: Piece,
) -> Result<Place, SyntaxFault>
    requires { places.depth_of place + 1 < 2 ^ 64 }
    ensures tokens { Reads out.old.items opened.old.items place piece result out.new.items opened.new.items }
    ensures near { IfOk result (λ after. places.depth_of after ≤ places.depth_of place + 1) }
{
    match place {
        Place::Front(first) => begin(out, opened, first, piece),
        Place::Inside { depth, before } => go_on(out, depth, before, piece),
    }
}

/// Pushes the tokens at the end of the text: the closing indentations and the end itself.
fn finish(
    out: &mut Vec<Token>,
    opened: &[usize],
    depth: usize,
    line: usize,
    at: usize,
) -> Result<(), SyntaxFault>
    ensures { Pushes (Ok (out.old.items ++ spec.finish depth opened.now line at)) result out.new.items }
{
    if depth == 0 {
        let token = empty_token(Kind::Outdent, line, at);
        push_times(out, token, opened.len().saturating_sub(1))?;
    }
    out.push(empty_token(Kind::End, line, at))?;
    Ok(())
}

/// Reads the end of the text, which is at `at` on the line `line`.
fn end(
    out: &mut Vec<Token>,
    opened: &[usize],
    place: Place,
    line: usize,
    at: usize,
) -> Result<(), SyntaxFault>
    ensures { Pushes (spec.onto out.old.items (places.rest_of line at place opened.now [])) result out.new.items }
{
    match place {
        Place::Front(_) => finish(out, opened, 0, line, at),
        Place::Inside { depth, before } => {
            push_newline(out, depth, before)?;
            finish(out, opened, depth, line, at)
        }
    }
}

/// The most tokens for which room is made beforehand. Most texts have at most one token for each four bytes, so their
/// row never grows: a row that grows is moved, and leaves holes in the memory of a process that stays.
const MOST_ROOM: usize = 1 << 18;

/// The tokens of a text; `last` is the line of its end.
pub fn lay(alloc: Global, text: &[u8], last: usize) -> Result<Vec<Token>, SyntaxFault>
    ensures value { Answers (spec.lay last (length text.now) (0 ∷ []) 0 (spec.lines 0 (pieces text.now))) result }
    ensures tiles { IfOk result (λ _. Tiles 0 (pieces text.now) (length text.now)) }
{
    let mut out = Vec::with_capacity(alloc, (text.len() / 4).min(MOST_ROOM))?;
    let mut opened = Vec::new(alloc);
    opened.push(0)?;
    let mut place = Place::Front(None);
    let mut line = 1;
    let mut at = 0;
    while at < text.len() {
        let piece = piece_at(text, line, at);
        place = step(&mut out, &mut opened, place, piece)?;
        line = piece.last;
        at = piece.span.end;
    }
    end(&mut out, &opened, place, last, text.len())?;
    Ok(out)
}
