//! The message for the first token that the grammar does not read.

use crate::grammar::{ENTRY_VALUE, LINE_END, Miss, first_miss};
use crate::message::Part;
use crate::message::Part::{Number, Plain, Shown};
use crate::mistake::Mistake;
use crate::near::{help_of, meant, nearest};
use crate::place::{Line, Mark, between, mark_of, word_of};
use star_lex::token::{Keyword, Kind, Punctuator, Token};
use std::alloc::{AllocError, Global};

const CODE: &str = "syntax";

/// The keywords that the grammar uses.
const KEYWORDS: &[&str] = &[
    "and", "break", "continue", "def", "elif", "else", "for", "if", "in", "lambda", "load", "not",
    "or", "pass", "return",
];

/// The token that the grammar does not read, and the tokens around it.
#[derive(Clone, Copy)]
struct Spot<'a> {
    alloc: Global,
    file: usize,
    text: &'a str,
    tokens: &'a [Token],
    miss: Miss,
    token: Token,
    before: Option<Token>,
    after: Option<Token>,
}

/// A mistake, if the form fits.
type Told = Result<Option<Mistake>, AllocError>;

/// The help for words that the language reserves and does not use.
const RESERVED: &[(&'static str, &'static str)] = &[
    ("is", "write `==`, and `!=` for `is not`"),
    (
        "while",
        "there are no unbounded loops: write `for _ in range(n):` with a `break`",
    ),
    (
        "class",
        "there are no classes: use a dict, and functions that take it",
    ),
    ("import", LOAD),
    ("from", LOAD),
    (
        "as",
        "write `load(\"//package:file.star\", other = \"name\")`",
    ),
    ("try", NO_EXCEPTIONS),
    ("except", NO_EXCEPTIONS),
    ("finally", NO_EXCEPTIONS),
    ("raise", NO_EXCEPTIONS),
    ("del", "use `pop` or `remove`"),
    ("assert", "write `if not ..: fail(..)`"),
    ("global", OWN_NAMES),
    ("nonlocal", OWN_NAMES),
    ("yield", NO_GENERATORS),
    ("async", NO_TASKS),
    ("await", NO_TASKS),
];

const LOAD: &str = "write `load(\"//package:file.star\", \"name\")`";

const NO_EXCEPTIONS: &str =
    "there are no exceptions: ask before, as by `key in d` or `d.get(key)`; `fail(..)` ends the file's run";

const OWN_NAMES: &str = "a function binds no names outside of it: return the value";

const NO_GENERATORS: &str = "there are no generators: return a list";

const NO_TASKS: &str = "a call is over when it returns: leave the word out";

const CONFLICT: &str =
    "a merge left both versions here: keep one of them, and none of the lines `<<<<<<<`, `=======`, `>>>>>>>`";

const SETS: &str =
    "an entry of a dict is written `key: value`; a set is `set([1, 2])`, with `--language extended`";

/// The help for a name before a token that the grammar does not read.
const NAMES: &[(&'static str, &'static str)] = &[
    ("print", CALL),
    ("exec", CALL),
    ("elseif", "write `elif`"),
    ("elsif", "write `elif`"),
    ("function", "write `def`"),
    ("func", "write `def`"),
    ("fn", "write `def`"),
    ("let", BIND),
    ("var", BIND),
    ("const", BIND),
    ("switch", CHOOSE),
    ("match", CHOOSE),
    ("case", CHOOSE),
];

const CALL: &str = "it is a function: write `print(..)`";

const BIND: &str = "a name is bound by `name = value`";

const CHOOSE: &str = "write `if`, `elif` and `else`";

fn is_word(kind: Kind) -> bool {
    matches!(kind, Kind::Name | Kind::Int | Kind::Keyword(_))
}

/// Whether a word only begins statements, so that it cannot be in brackets.
fn begins_statement(kind: Kind) -> bool {
    let Kind::Keyword(keyword) = kind else {
        return false;
    };
    matches!(
        keyword,
        Keyword::Def
            | Keyword::Return
            | Keyword::Load
            | Keyword::Pass
            | Keyword::Break
            | Keyword::Continue
            | Keyword::Elif
    )
}

/// The closing bracket of an opening one.
fn closer(kind: Kind) -> &'static str {
    match kind {
        Kind::Punctuator(Punctuator::LeftParen) => ")",
        Kind::Punctuator(Punctuator::LeftBracket) => "]",
        _ => "}",
    }
}

fn is_closer(kind: Kind) -> bool {
    matches!(
        kind,
        Kind::Punctuator(Punctuator::RightParen | Punctuator::RightBracket | Punctuator::RightBrace)
    )
}

fn has_kind(token: Option<Token>, kind: Kind) -> bool {
    match token {
        Some(token) => token.kind == kind,
        None => false,
    }
}

/// The token, if it is of this kind.
fn of_kind(token: Option<Token>, kind: Kind) -> Option<Token> {
    match token {
        Some(token) if token.kind == kind => Some(token),
        _ => None,
    }
}

/// The token with a number.
fn token_at(tokens: &[Token], at: usize) -> Option<Token> {
    tokens.get(at).copied()
}

/// The token before one.
fn token_before(tokens: &[Token], at: usize) -> Option<Token> {
    token_at(tokens, at.checked_sub(1)?)
}

// The parts of messages.
impl<'a> Spot<'a> {
    fn word(self) -> &'a str {
        word_of(self.text, &self.token)
    }

    fn mark(self, first: Token, last: Token) -> Mark {
        Mark {
            file: self.file,
            start: first.span.start,
            end: last.span.end,
        }
    }

    /// The text of a mark.
    fn marked(self, mark: Mark) -> &'a str {
        between(self.text, mark.start, mark.end)
    }

    fn told(self, mark: Mark, text: &[Part], help: &[Part]) -> Told {
        Ok(Some(Mistake::new(self.alloc, mark, CODE, text, help)?))
    }

    fn begins_line(self) -> bool {
        match self.before {
            Some(before) => before.line < self.token.line,
            None => true,
        }
    }
}

// Forms of other languages that newcomers write.
impl<'a> Spot<'a> {
    /// A word that the language keeps and does not use, here or before.
    fn reserved(self) -> Told {
        let reserved = Kind::Keyword(Keyword::Reserved);
        let token = match self.before {
            _ if self.token.kind == reserved => self.token,
            Some(before) if before.kind == reserved => before,
            _ => return Ok(None),
        };
        let word = word_of(self.text, &token);
        let help = help_of(RESERVED, word).unwrap_or("no statement begins with it");
        self.told(
            mark_of(self.file, &token),
            &[Plain("`"), Plain(word), Plain("` is not in this language")],
            &[Plain(help)],
        )
    }

    /// A string directly after a name.
    fn prefixed(self) -> Told {
        let Some(before) = self.before else {
            return Ok(None);
        };
        let touches = before.span.end == self.token.span.start;
        if self.token.kind != Kind::Text || before.kind != Kind::Name || !touches {
            return Ok(None);
        }
        let prefix = word_of(self.text, &before);
        let mark = self.mark(before, self.token);
        if prefix == "f" || prefix == "F" {
            return self.told(
                mark,
                &[
                    Plain("f-strings are not in this language: "),
                    Shown(self.marked(mark)),
                ],
                &[Plain("write `\"..%s..\" % value` or `\"..{}..\".format(value)`")],
            );
        }
        self.told(
            mark,
            &[
                Plain("strings have no prefix `"),
                Plain(prefix),
                Plain("` in this language"),
            ],
            &[Plain("the one prefix is `r`, for a string without escapes")],
        )
    }

    /// An int before a dot or after one.
    fn float(self) -> Told {
        let is_dot = self.token.kind == Kind::Punctuator(Punctuator::Dot);
        let dot = if is_dot {
            self.miss.token
        } else {
            self.miss.token.saturating_sub(1)
        };
        let Some(sign) = token_at(self.tokens, dot) else {
            return Ok(None);
        };
        let whole = of_kind(token_before(self.tokens, dot), Kind::Int);
        let part = of_kind(token_at(self.tokens, dot.saturating_add(1)), Kind::Int);
        if sign.kind != Kind::Punctuator(Punctuator::Dot) || (whole.is_none() && part.is_none()) {
            return Ok(None);
        }
        let mark = self.mark(whole.unwrap_or(sign), part.unwrap_or(sign));
        self.told(
            mark,
            &[
                Plain("floats are not in this language: "),
                Shown(self.marked(mark)),
            ],
            &[Plain("count in a smaller unit with ints, or keep it as a string")],
        )
    }

    /// Something directly after a string, or a string after a string.
    fn after_string(self) -> Told {
        let Some(before) = of_kind(self.before, Kind::Text) else {
            return Ok(None);
        };
        let mark = mark_of(self.file, &self.token);
        if before.span.end == self.token.span.start && is_word(self.token.kind) {
            return self.told(
                mark,
                &[
                    Plain("`"),
                    Shown(self.word()),
                    Plain("` touches the string before it"),
                ],
                &[Plain("a quote may be missing earlier on this line")],
            );
        }
        if self.token.kind != Kind::Text {
            return Ok(None);
        }
        self.told(
            mark,
            &[
                Plain("two strings side by side: "),
                Shown(word_of(self.text, &before)),
                Plain(" "),
                Shown(self.word()),
            ],
            &[Plain("put `,` or `+` between them: nothing joins them by itself")],
        )
    }
}

// Brackets and the ends of lines.
impl<'a> Spot<'a> {
    /// Whether the token here shows that the bracket is not closed.
    fn is_past(self, bracket: Token) -> bool {
        let kind = self.token.kind;
        if kind == Kind::End {
            return true;
        }
        if is_closer(kind) {
            return self.word() != closer(bracket.kind);
        }
        let in_front = Line::at(self.text, self.token.span.start).start == self.token.span.start;
        self.begins_line() && (begins_statement(kind) || (in_front && kind == Kind::Name))
    }

    /// A bracket that is not closed.
    fn unclosed(self) -> Told {
        let Some(open) = self.miss.open else {
            return Ok(None);
        };
        let Some(bracket) = token_at(self.tokens, open) else {
            return Ok(None);
        };
        if !self.is_past(bracket) {
            return Ok(None);
        }
        let sign = word_of(self.text, &bracket);
        let mark = mark_of(self.file, &bracket);
        let help = [
            Plain("close it by `"),
            Plain(closer(bracket.kind)),
            Plain("`"),
        ];
        if self.token.kind == Kind::End {
            let text = [
                Plain("this `"),
                Plain(sign),
                Plain("` is not closed before the end of the file"),
            ];
            return self.told(mark, &text, &help);
        }
        let text = [
            Plain("this `"),
            Plain(sign),
            Plain("` is not closed before `"),
            Shown(self.word()),
            Plain("` on line "),
            Number(self.token.line),
        ];
        self.told(mark, &text, &help)
    }

    /// A comma that is missing at the end of a line.
    fn comma(self) -> Told {
        let Some(before) = self.before else {
            return Ok(None);
        };
        if !self.miss.in_list || !self.begins_line() {
            return Ok(None);
        }
        self.told(
            mark_of(self.file, &before),
            &[
                Plain("expected "),
                Plain(self.miss.wanted),
                Plain(" after `"),
                Shown(word_of(self.text, &before)),
                Plain("`"),
            ],
            &[
                Plain("the next line goes on with `"),
                Shown(self.word()),
                Plain("`"),
            ],
        )
    }

    /// The place directly after the last token before this one that has a text, and that text.
    fn end_before(self) -> (usize, &'a str) {
        for token in self.tokens.iter().take(self.miss.token).rev() {
            let word = word_of(self.text, token);
            if !word.trim().is_empty() {
                return (token.span.end, word);
            }
        }
        (self.token.span.start, "")
    }

    /// A line or a file that ends too soon.
    fn line_end(self) -> Told {
        let place = match self.token.kind {
            Kind::Newline => LINE_END,
            Kind::End => "the end of the file",
            _ => return Ok(None),
        };
        let (start, last) = self.end_before();
        let mark = Mark {
            file: self.file,
            start,
            end: start.saturating_add(1),
        };
        let text = [
            Plain("expected "),
            Plain(self.miss.wanted),
            Plain(" after `"),
            Shown(last),
            Plain("`, at "),
            Plain(place),
        ];
        if last == "+" || last == "-" {
            return self.told(mark, &text, &[Plain("write `x += 1` or `x -= 1`")]);
        }
        self.told(mark, &text, &[])
    }

    /// A line that is indented and may not be, or is not and must be.
    fn indentation(self) -> Told {
        if self.token.kind != Kind::Indent && self.token.kind != Kind::Outdent {
            return Ok(None);
        }
        let mark = Line::at(self.text, self.token.span.start).mark(self.file);
        self.told(mark, &[Plain("expected "), Plain(self.miss.wanted)], &[])
    }
}

// Every other token.
impl<'a> Spot<'a> {
    /// Whether the token before this one is the same sign.
    fn is_doubled(self, sign: Punctuator) -> bool {
        has_kind(self.before, Kind::Punctuator(sign))
    }

    /// The kind of the innermost open bracket.
    fn bracket(self) -> Option<Kind> {
        Some(token_at(self.tokens, self.miss.open?)?.kind)
    }

    /// The mistake of `=` or `:` in a place where it cannot be.
    fn of_equals_or_colon(self, sign: Punctuator) -> Option<&'static str> {
        let is_last = self.miss.wanted == LINE_END;
        let bracket = self.bracket();
        match sign {
            Punctuator::Assign if is_last => Some("a statement binds once: write two statements"),
            Punctuator::Assign if bracket == Some(Kind::Punctuator(Punctuator::LeftBrace)) => {
                Some("an entry of a dict is written `key: value`")
            }
            Punctuator::Assign => Some("a comparison is written `==`"),
            Punctuator::Colon if has_kind(self.after, Kind::Punctuator(Punctuator::Assign)) => {
                Some("a name is bound by a statement of its own: there is no `:=`")
            }
            Punctuator::Colon if bracket == Some(Kind::Punctuator(Punctuator::LeftBracket)) => {
                Some("a slice is written `x[start:stop:stride]`")
            }
            Punctuator::Colon if is_last || self.miss.in_list => Some(
                "there are no type annotations",
            ),
            _ => None,
        }
    }

    /// Whether the token follows the key of an entry of a dictionary, and ends the entry without a value.
    fn ends_key(self) -> bool {
        self.miss.wanted == ENTRY_VALUE
            && matches!(
                self.token.kind,
                Kind::Punctuator(Punctuator::Comma | Punctuator::RightBrace)
                    | Kind::Keyword(Keyword::For)
            )
    }

    /// The mistake of a sign that newcomers write in a place where it cannot be.
    fn of_sign(self, sign: Punctuator) -> Option<&'static str> {
        match sign {
            Punctuator::Assign | Punctuator::Colon => self.of_equals_or_colon(sign),
            Punctuator::Ampersand if self.is_doubled(sign) => Some("write `and`"),
            Punctuator::Bar if self.is_doubled(sign) => Some("write `or`"),
            Punctuator::ShiftLeft | Punctuator::ShiftRight | Punctuator::EqualEqual
                if self.begins_line() => { Some(CONFLICT) }
            Punctuator::Minus if has_kind(self.after, Kind::Punctuator(Punctuator::Greater)) => {
                Some("there are no type annotations")
            }
            Punctuator::Less
            | Punctuator::Greater
            | Punctuator::LessEqual
            | Punctuator::GreaterEqual
            | Punctuator::EqualEqual
            | Punctuator::NotEqual => Some("comparisons do not chain: write `a < b and b < c`"),
            Punctuator::LeftBrace => Some("blocks are indented, and begin after `:`"),
            Punctuator::Plus if has_kind(self.before, Kind::Punctuator(Punctuator::Plus)) => Some(
                "write `x += 1`",
            ),
            Punctuator::RightParen | Punctuator::RightBracket | Punctuator::RightBrace
                if self.miss.open.is_none() => { Some("no bracket is open here") }
            _ => None,
        }
    }

    /// The word before this token, if it is a name.
    fn name_before(self) -> &'a str {
        match self.before {
            Some(before) if before.kind == Kind::Name => word_of(self.text, &before),
            _ => "",
        }
    }

    /// The help for a token that has no form of its own.
    fn help(self) -> Option<&'static str> {
        match self.token.kind {
            _ if self.ends_key() => Some(SETS),
            Kind::Punctuator(sign) => self.of_sign(sign),
            Kind::Keyword(Keyword::If) if self.follows_else() => Some("write `elif`"),
            _ => None,
        }
    }

    /// The keyword that was probably meant by a name before the place where a line should end.
    fn keyword_meant(self, name: &str) -> Result<Option<&'static str>, AllocError> {
        if self.miss.wanted == LINE_END {
            return nearest(self.alloc, name, KEYWORDS);
        }
        Ok(None)
    }

    /// Whether this comes after the `else` of a statement.
    fn follows_else(self) -> bool {
        has_kind(self.before, Kind::Keyword(Keyword::Else)) && self.miss.wanted == "`:`"
    }

    /// The mistake with the expected token, the token that was found, and this help.
    fn expected(self, help: &[Part]) -> Result<Mistake, AllocError> {
        let text = [
            Plain("expected "),
            Plain(self.miss.wanted),
            Plain(", found `"),
            Shown(self.word()),
            Plain("`"),
        ];
        let mark = mark_of(self.file, &self.token);
        Mistake::new(self.alloc, mark, CODE, &text, help)
    }

    /// A token that has no form of its own.
    fn other(self) -> Result<Mistake, AllocError> {
        let name = self.name_before();
        if let Some(help) = help_of(NAMES, name) {
            return self.expected(&[Plain(help)]);
        }
        if let Some(word) = self.keyword_meant(name)? {
            return self.expected(&meant(word));
        }
        match self.help() {
            Some(help) => self.expected(&[Plain(help)]),
            None => self.expected(&[]),
        }
    }

    /// The first form of the token itself that fits.
    fn own_form(self) -> Told {
        if let Some(found) = self.reserved()? {
            return Ok(Some(found));
        }
        if let Some(found) = self.prefixed()? {
            return Ok(Some(found));
        }
        self.float()
    }

    /// The first form that fits.
    fn form(self) -> Told {
        if let Some(found) = self.own_form()? {
            return Ok(Some(found));
        }
        if let Some(found) = self.after_string()? {
            return Ok(Some(found));
        }
        if let Some(found) = self.unclosed()? {
            return Ok(Some(found));
        }
        if let Some(found) = self.comma()? {
            return Ok(Some(found));
        }
        if let Some(found) = self.line_end()? {
            return Ok(Some(found));
        }
        self.indentation()
    }
}

/// The first token of a file that the grammar does not read, and a cure.
pub(crate) fn bad_syntax(
    alloc: Global,
    file: usize,
    text: &str,
    tokens: &[Token],
) -> Result<Mistake, AllocError> {
    let spot = match first_miss(alloc, text, tokens)? {
        Some(miss) => spot_of(alloc, file, text, tokens, miss),
        None => None,
    };
    let Some(spot) = spot else {
        let mark = Line::numbered(text, 1).mark(file);
        let text = [Plain("this file is not in the grammar")];
        return Mistake::new(alloc, mark, CODE, &text, &[]);
    };
    match spot.form()? {
        Some(mistake) => Ok(mistake),
        None => spot.other(),
    }
}

/// The token that the grammar does not read, with the tokens around it.
fn spot_of<'a>(
    alloc: Global,
    file: usize,
    text: &'a str,
    tokens: &'a [Token],
    miss: Miss,
) -> Option<Spot<'a>> {
    Some(Spot {
        alloc,
        file,
        text,
        tokens,
        miss,
        token: token_at(tokens, miss.token)?,
        before: token_before(tokens, miss.token),
        after: token_at(tokens, miss.token.saturating_add(1)),
    })
}
