//! Leaves: tokens with their values. The readers of the grammar go over leaves.
//!
//! Equal names and strings of a file share one text, by a small table of the latest ones (`Recent`). A string in which
//! each byte means itself is cut from the source.

ghost use Rattle.std.specs.Prelude.{◌≡◌, ◌≤◌, length, IfOk, IfSome};
ghost use Rattle.star_lex.specs.Values as values;
ghost use Rattle.star_syntax.specs.Leaves as spec;

use sqlite_items::Items;
use star_lex::token::{Keyword, Kind, Punctuator, Token};
use star_lex::value::{Quoting, int_value, opening, quoting_of, string_value, text_at};
use star_text::Text;
use star_tree::tree::Position;
use std::alloc::{AllocError, Global};

/// A token with its value: a name's text, the value of an int or a string, a sign, a keyword, or a mark of the layout.
#[derive(Drop)]
pub enum TokenValue {
    Name(Text),
    /// The value of an int, from 0.
    Int(i64),
    /// The value of a string.
    Text(Text),
    Keyword(Keyword),
    Punctuator(Punctuator),
    Newline,
    Indent,
    Outdent,
    End,
}

/// A token with its value and its place.
#[derive(Drop)]
pub struct ValuedToken {
    pub word: TokenValue,
    pub position: Position,
}

/// Names are ASCII and the values of strings are UTF-8. Were they not, the answer would be as for want of memory.
fn text_of(bytes: Vec<u8>) -> Result<Text, AllocError>
    ensures { IfOk result (λ text. text ≡ bytes.items) }
{
    match String::from_utf8(bytes) {
        Ok(text) => Text::of(text),
        Err(_) => Err(AllocError),
    }
}

/// Whether each byte of the inside of a string means itself.
fn means_itself(inside: &[u8]) -> bool
    ensures { result ≡ spec.means_itself inside.now }
{
    let mut rest = inside;
    while let [byte, more @ ..] = rest {
        if *byte == b'\\' || *byte == b'\n' || *byte == b'\r' {
            return false;
        }
        rest = more;
    }
    true
}

/// How many bytes the quotes take that open or close a string.
fn quotes_size(quoting: Quoting) -> usize
    ensures value { result ≡ length (values.quotes quoting) }
    ensures within { result ≤ 3 }
{
    if quoting.triple { 3 } else { 1 }
}

/// The inside of a string, if that is its value.
#[tactic(auto, using(crate::proofs::Strings::decoded_itself))]
fn bare(text: &[u8]) -> Option<&[u8]>
    ensures { IfSome result (λ inside. inside.now ≡ values.string_value text.now) }
{
    let quoting = quoting_of(text)?;
    let start = opening(quoting);
    let quotes = quotes_size(quoting);
    if text.len() < start + quotes {
        return None;
    }
    let inside = &text[start..text.len() - quotes];
    if means_itself(inside) {
        Some(inside)
    } else {
        None
    }
}

/// Texts that were made lately, each at the place of its bytes: a text that comes again is shared.
#[derive(Drop)]
struct Recent {
    texts: Vec<Option<Text>>,
}

/// Longer texts are not kept.
const LONGEST: usize = 48;

/// A number of at most 32 bits that depends on all the bytes.
fn hash(bytes: &[u8]) -> u32 {
    let mut hash: u32 = 0;
    for byte in bytes {
        hash = hash.wrapping_mul(31) ^ u32::from(*byte);
    }
    hash ^ (hash >> 10)
}

fn place(bytes: &[u8], places: usize) -> usize {
    if places == 0 {
        return 0;
    }
    hash(bytes) as usize % places
}

fn new_text(alloc: Global, bytes: &[u8]) -> Result<Text, AllocError>
    ensures { IfOk result (λ text. text ≡ bytes.now) }
{
    text_of(Vec::from_slice(alloc, bytes)?)
}

impl Recent {
    /// With places enough for a file of `tokens` tokens.
    fn new(alloc: Global, tokens: usize) -> Result<Recent, AllocError> {
        let places = if tokens < 1024 { 128 } else { 1024 };
        let mut texts = Vec::with_capacity(alloc, places)?;
        for _place in 0..places {
            texts.push(None)?;
        }
        Ok(Recent { texts })
    }

    /// The text with these bytes, shared if it was made lately.
    fn text(&mut self, alloc: Global, bytes: &[u8]) -> Result<Text, AllocError>
        ensures { IfOk result (λ text. text ≡ bytes.now) }
    {
        if bytes.len() > LONGEST {
            return new_text(alloc, bytes);
        }
        let place = place(bytes, self.texts.len());
        let Some(entry) = self.texts.get_mut(place) else {
            return new_text(alloc, bytes);
        };
        if let Some(there) = entry {
            if there.as_str().as_bytes() == bytes {
                return there.share();
            }
        }
        let made = new_text(alloc, bytes)?;
        *entry = Some(made.share()?);
        Ok(made)
    }
}

fn string_of(alloc: Global, recent: &mut Recent, text: &[u8]) -> Result<Text, AllocError>
    ensures { IfOk result (λ made. made ≡ values.string_value text.now) }
{
    match bare(text) {
        Some(inside) => recent.text(alloc, inside),
        None => text_of(string_value(alloc, text)?),
    }
}

fn word_of(
    alloc: Global,
    recent: &mut Recent,
    kind: Kind,
    text: &[u8],
) -> Result<TokenValue, AllocError>
    ensures { IfOk result (λ word. word ≡ spec.word_of kind text.now) }
{
    Ok(match kind {
        Kind::Name => TokenValue::Name(recent.text(alloc, text)?),
        Kind::Int => TokenValue::Int(int_value(text)),
        Kind::Text => TokenValue::Text(string_of(alloc, recent, text)?),
        Kind::Keyword(keyword) => TokenValue::Keyword(keyword),
        Kind::Punctuator(sign) => TokenValue::Punctuator(sign),
        Kind::Newline => TokenValue::Newline,
        Kind::Indent => TokenValue::Indent,
        Kind::Outdent => TokenValue::Outdent,
        Kind::End => TokenValue::End,
    })
}

/// The leaves of a source, whose tokens are given: a name has the token's text, an int or a string its value, and each
/// its token's line and number.
pub fn leaves(
    alloc: Global,
    source: &str,
    tokens: &[Token],
) -> Result<Items<ValuedToken>, AllocError>
    ensures { IfOk result (λ all. all ≡ spec.leaves_of source.now tokens.now) }
{
    let source = source.as_bytes();
    let mut all = Items::from_vec(Vec::with_capacity(alloc, tokens.len())?);
    let mut recent = Recent::new(alloc, tokens.len())?;
    let mut rest = tokens;
    let mut number = 0;
    while let [token, more @ ..] = rest {
        let position = Position {
            line: token.line,
            token: number,
        };
        let word = word_of(alloc, &mut recent, token.kind, text_at(source, token.span))?;
        all.push(ValuedToken { word, position })?;
        number += 1;
        rest = more;
    }
    Ok(all)
}
