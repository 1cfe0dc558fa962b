//! The tokens of the parts of a statement: a way leads from the tokens of the statement, turn by turn, to those of a part.

use crate::words::Words;
use star_found::about::Turn;
use star_lex::token::{Keyword, Kind, Punctuator};

/// At most this many pairs of brackets round an expression are taken away.
const PAIRS: usize = 100;

/// Some tokens of a file: those from `start` up to, but without, `end`.
#[derive(Clone, Copy, Debug, PartialEq, Eq)]
pub(crate) struct Stretch {
    pub start: usize,
    pub end: usize,
}

impl Stretch {
    /// These tokens, if they are at least one.
    fn of(start: usize, end: usize) -> Option<Stretch> {
        if start < end {
            Some(Stretch { start, end })
        } else {
            None
        }
    }

    /// Its tokens without the first ones.
    fn without_first(self, count: usize) -> Option<Stretch> {
        Stretch::of(self.start.saturating_add(count), self.end)
    }

    /// Its last token.
    fn last(self) -> usize {
        self.end.saturating_sub(1)
    }
}

/// What ends a part, outside of brackets and of the parameters of a lambda.
#[derive(Clone, Copy)]
enum Stop {
    Comma,
    Colon,
    /// The sign of an assignment, or of a default.
    Assign,
    In,
    If,
    Else,
    For,
    /// The next clause of a comprehension.
    Clause,
    /// The end of a simple statement.
    Line,
    /// What may come after the expression of a lambda.
    Answer,
}

impl Stop {
    fn is(self, kind: Kind) -> bool {
        let is_line = matches!(
            kind,
            Kind::Newline | Kind::End | Kind::Punctuator(Punctuator::Semicolon)
        );
        match self {
            Stop::Comma => matches!(kind, Kind::Punctuator(Punctuator::Comma)),
            Stop::Colon => matches!(kind, Kind::Punctuator(Punctuator::Colon)),
            Stop::Assign => is_assignment(kind),
            Stop::In => matches!(kind, Kind::Keyword(Keyword::In)),
            Stop::If => matches!(kind, Kind::Keyword(Keyword::If)),
            Stop::Else => matches!(kind, Kind::Keyword(Keyword::Else)),
            Stop::For => matches!(kind, Kind::Keyword(Keyword::For)),
            Stop::Clause => matches!(kind, Kind::Keyword(Keyword::For | Keyword::If)),
            Stop::Line => is_line,
            Stop::Answer => {
                is_line
                    || closes(kind)
                    || matches!(
                        kind,
                        Kind::Punctuator(Punctuator::Comma | Punctuator::Colon)
                            | Kind::Keyword(Keyword::For)
                    )
            }
        }
    }
}

/// Whether a token opens brackets.
pub(crate) fn opens(kind: Kind) -> bool {
    matches!(
        kind,
        Kind::Punctuator(Punctuator::LeftParen | Punctuator::LeftBracket | Punctuator::LeftBrace)
    )
}

/// Whether a token closes brackets.
pub(crate) fn closes(kind: Kind) -> bool {
    matches!(
        kind,
        Kind::Punctuator(Punctuator::RightParen | Punctuator::RightBracket | Punctuator::RightBrace)
    )
}

/// Whether a token is the sign of an augmented assignment.
fn is_augmented(kind: Kind) -> bool {
    matches!(
        kind,
        Kind::Punctuator(
            Punctuator::PlusAssign
                | Punctuator::MinusAssign
                | Punctuator::StarAssign
                | Punctuator::SlashSlashAssign
                | Punctuator::PercentAssign
                | Punctuator::AmpersandAssign
                | Punctuator::BarAssign
                | Punctuator::CaretAssign
                | Punctuator::ShiftLeftAssign
                | Punctuator::ShiftRightAssign
        )
    )
}

/// Whether a token is the sign of an assignment.
fn is_assignment(kind: Kind) -> bool {
    is_augmented(kind) || matches!(kind, Kind::Punctuator(Punctuator::Assign))
}

/// Whether a token ends an operand, so that a sign after it stands between two.
fn ends_operand(kind: Kind) -> bool {
    closes(kind) || matches!(kind, Kind::Name | Kind::Int | Kind::Text)
}

/// How tightly a sign between two operands binds, the loosest 0; `None` for another token.
fn tightness(kind: Kind) -> Option<u32> {
    if is_augmented(kind) {
        return Some(0);
    }
    match kind {
        Kind::Keyword(Keyword::Or) => Some(1),
        Kind::Keyword(Keyword::And) => Some(2),
        Kind::Keyword(Keyword::In | Keyword::Not) => Some(3),
        Kind::Punctuator(sign) => match sign {
            Punctuator::EqualEqual
            | Punctuator::NotEqual
            | Punctuator::Less
            | Punctuator::Greater
            | Punctuator::LessEqual
            | Punctuator::GreaterEqual => Some(3),
            Punctuator::Bar => Some(4),
            Punctuator::Caret => Some(5),
            Punctuator::Ampersand => Some(6),
            Punctuator::ShiftLeft | Punctuator::ShiftRight => Some(7),
            Punctuator::Plus | Punctuator::Minus => Some(8),
            Punctuator::Star | Punctuator::SlashSlash | Punctuator::Percent => Some(9),
            _ => None,
        },
        _ => None,
    }
}

/// What is open at a token: brackets, and lambdas whose colon has not come.
#[derive(Clone, Copy)]
struct Nesting {
    brackets: usize,
    lambdas: usize,
}

impl Nesting {
    /// Nothing is open.
    fn new() -> Nesting {
        Nesting {
            brackets: 0,
            lambdas: 0,
        }
    }

    fn is_free(self) -> bool {
        self.brackets == 0 && self.lambdas == 0
    }

    /// What is open after a token.
    fn after(self, kind: Kind) -> Nesting {
        let Nesting { brackets, lambdas } = self;
        if opens(kind) {
            let brackets = brackets.saturating_add(1);
            return Nesting { brackets, lambdas };
        }
        if closes(kind) {
            let brackets = brackets.saturating_sub(1);
            return Nesting { brackets, lambdas };
        }
        let lambdas = match kind {
            Kind::Keyword(Keyword::Lambda) if brackets == 0 => lambdas.saturating_add(1),
            Kind::Punctuator(Punctuator::Colon) if brackets == 0 => lambdas.saturating_sub(1),
            _ => lambdas,
        };
        Nesting { brackets, lambdas }
    }
}

impl<'a> Words<'a> {
    /// The first token that stops a part.
    fn first(self, within: Stretch, stop: Stop) -> Option<usize> {
        let mut nesting = Nesting::new();
        for at in within.start..within.end {
            let kind = self.kind(at);
            if nesting.is_free() && stop.is(kind) {
                return Some(at);
            }
            nesting = nesting.after(kind);
        }
        None
    }

    /// The tokens up to the first that stops a part, or all.
    fn until(self, within: Stretch, stop: Stop) -> Option<Stretch> {
        let end = self.first(within, stop).unwrap_or(within.end);
        Stretch::of(within.start, end)
    }

    /// The tokens after the first that stops a part.
    fn past(self, within: Stretch, stop: Stop) -> Option<Stretch> {
        let at = self.first(within, stop)?;
        Stretch::of(at.saturating_add(1), within.end)
    }

    /// One of the parts between commas.
    fn between_commas(self, within: Stretch, n: usize) -> Option<Stretch> {
        let mut rest = within;
        for _ in 0..n {
            rest = self.past(rest, Stop::Comma)?;
        }
        self.until(rest, Stop::Comma)
    }

    /// The bracket that closes the one at a token.
    fn closing(self, within: Stretch) -> Option<usize> {
        let mut depth: usize = 0;
        for at in within.start..within.end {
            let kind = self.kind(at);
            if opens(kind) {
                depth = depth.saturating_add(1);
            } else if closes(kind) {
                depth = depth.saturating_sub(1);
                if depth == 0 {
                    return Some(at);
                }
            }
        }
        None
    }

    /// What stands between brackets that begin with the first and end with the last of these tokens.
    fn in_pair(self, within: Stretch) -> Option<Stretch> {
        if opens(self.kind(within.start)) && self.closing(within)? == within.last() {
            Stretch::of(within.start.saturating_add(1), within.last())
        } else {
            None
        }
    }

    /// An expression without the parentheses round it.
    pub(crate) fn bare(self, within: Stretch) -> Stretch {
        let mut bare = within;
        for _ in 0..PAIRS {
            if self.kind(bare.start) != Kind::Punctuator(Punctuator::LeftParen) {
                break;
            }
            match self.in_pair(bare) {
                Some(inner) => bare = inner,
                None => break,
            }
        }
        bare
    }

    /// The bracket that opens the last pair of brackets, which ends an expression.
    pub(crate) fn last_bracket(self, within: Stretch) -> Option<usize> {
        if !closes(self.kind(within.last())) {
            return None;
        }
        let mut depth: usize = 0;
        let mut last = None;
        for at in within.start..within.end {
            let kind = self.kind(at);
            if opens(kind) {
                if depth == 0 {
                    last = Some(at);
                }
                depth = depth.saturating_add(1);
            } else if closes(kind) {
                depth = depth.saturating_sub(1);
            }
        }
        last
    }

    /// What stands in the last pair of brackets, which ends an expression.
    pub(crate) fn in_last_brackets(self, within: Stretch) -> Option<Stretch> {
        let at = self.last_bracket(within)?;
        Stretch::of(at.saturating_add(1), within.last())
    }

    /// The sign of an expression with two operands: the last of those that bind least.
    pub(crate) fn sign(self, within: Stretch) -> Option<Stretch> {
        let mut nesting = Nesting::new();
        let mut is_after = false;
        let mut found = None;
        let mut least = u32::MAX;
        for at in within.start..within.end {
            let kind = self.kind(at);
            if nesting.is_free() && is_after {
                if let Some(tight) = tightness(kind) {
                    if tight <= least {
                        least = tight;
                        found = Some(at);
                    }
                }
            }
            is_after = ends_operand(kind);
            nesting = nesting.after(kind);
        }
        let at = found?;
        let count = if self.kind(at) == Kind::Keyword(Keyword::Not) {
            2
        } else {
            1
        };
        Stretch::of(at, at.saturating_add(count))
    }

    /// A part of a conditional.
    fn of_conditional(self, within: Stretch, turn: Turn) -> Option<Stretch> {
        let chosen = self.until(within, Stop::If)?;
        let rest = Stretch::of(chosen.end.saturating_add(1), within.end)?;
        match turn {
            Turn::Chosen => Some(chosen),
            Turn::Condition => self.until(rest, Stop::Else),
            _ => self.past(rest, Stop::Else),
        }
    }

    /// The default of a parameter of a definition that begins with `def` or `lambda`.
    fn default(self, within: Stretch, n: usize) -> Option<Stretch> {
        let parameters = if self.kind(within.start) == Kind::Keyword(Keyword::Def) {
            let brackets = within.without_first(2)?;
            Stretch::of(brackets.start.saturating_add(1), self.closing(brackets)?)?
        } else {
            self.until(within.without_first(1)?, Stop::Colon)?
        };
        self.past(self.between_commas(parameters, n)?, Stop::Assign)
    }

    /// The value of an argument of a call.
    fn argument(self, call: Stretch, n: usize) -> Option<Stretch> {
        let argument = self.between_commas(self.in_last_brackets(call)?, n)?;
        let is_named = self.kind(argument.start) == Kind::Name
            && self.kind(argument.start.saturating_add(1)) == Kind::Punctuator(Punctuator::Assign);
        let has_star = matches!(
            self.kind(argument.start),
            Kind::Punctuator(Punctuator::Star | Punctuator::StarStar)
        );
        match (is_named, has_star) {
            (true, _) => argument.without_first(2),
            (_, true) => argument.without_first(1),
            _ => Some(argument),
        }
    }

    /// What stands before the dot or the subscript that ends an expression.
    fn owner(self, within: Stretch) -> Option<Stretch> {
        if let Some(at) = self.last_bracket(within) {
            return Stretch::of(within.start, at);
        }
        let dot = within.last().saturating_sub(1);
        if self.kind(dot) == Kind::Punctuator(Punctuator::Dot) {
            Stretch::of(within.start, dot)
        } else {
            None
        }
    }

    /// A bound of a slice.
    fn bound(self, slice: Stretch, n: usize) -> Option<Stretch> {
        let mut rest = self.in_last_brackets(slice)?;
        for _ in 0..n {
            rest = self.past(rest, Stop::Colon)?;
        }
        self.until(rest, Stop::Colon)
    }

    /// The items of a display, or of a tuple without parentheses; the element of a comprehension.
    fn items(self, within: Stretch) -> Option<Stretch> {
        let items = match self.in_pair(within) {
            Some(inner) => inner,
            None => within,
        };
        self.until(items, Stop::For)
    }

    /// A clause of a comprehension, with its `for` or `if`.
    fn clause(self, within: Stretch, n: usize) -> Option<Stretch> {
        let inner = self.in_pair(within)?;
        let mut rest = Stretch::of(self.first(inner, Stop::For)?, inner.end)?;
        for _ in 0..n {
            let next = self.first(rest.without_first(1)?, Stop::Clause)?;
            rest = Stretch::of(next, rest.end)?;
        }
        let end = match self.first(rest.without_first(1)?, Stop::Clause) {
            Some(end) => end,
            None => rest.end,
        };
        Stretch::of(rest.start, end)
    }

    /// What a clause goes over, or the condition that it tests.
    fn of_clause(self, within: Stretch, n: usize) -> Option<Stretch> {
        let clause = self.clause(within, n)?;
        if self.kind(clause.start) == Kind::Keyword(Keyword::For) {
            self.past(clause, Stop::In)
        } else {
            clause.without_first(1)
        }
    }

    /// The targets of an assignment, or of a loop or a clause, which begins with `for`.
    fn targets(self, within: Stretch) -> Option<Stretch> {
        if self.kind(within.start) == Kind::Keyword(Keyword::For) {
            self.until(within.without_first(1)?, Stop::In)
        } else {
            self.until(within, Stop::Assign)
        }
    }

    /// The first token of the `if` or `elif` with this number, of a statement that begins at a token.
    fn arm(self, start: usize, n: usize) -> Option<usize> {
        let mut depth: usize = 0;
        let mut count: usize = 0;
        for at in start..self.tokens.len() {
            let kind = self.kind(at);
            let is_arm = at == start || kind == Kind::Keyword(Keyword::Elif);
            if is_arm && depth == 0 {
                if count == n {
                    return Some(at);
                }
                count = count.saturating_add(1);
            }
            match kind {
                Kind::Indent => depth = depth.saturating_add(1),
                Kind::Outdent => depth = depth.checked_sub(1)?,
                _ => {}
            }
        }
        None
    }

    /// The condition of an `if` or `elif`.
    fn condition(self, start: usize, n: usize) -> Option<Stretch> {
        let first = self.arm(start, n)?.saturating_add(1);
        self.until(Stretch::of(first, self.tokens.len())?, Stop::Colon)
    }

    /// A part of a statement.
    fn of_statement(self, within: Stretch, turn: Turn) -> Option<Stretch> {
        match turn {
            Turn::Alone => Some(within),
            Turn::Returned => within.without_first(1),
            Turn::Assigned => self.past(within, Stop::Assign),
            Turn::Target => self.targets(within),
            Turn::Iterable => self.until(self.past(within, Stop::In)?, Stop::Colon),
            Turn::Arm(n) => self.condition(within.start, n),
            Turn::Default(n) => self.default(within, n),
            _ => None,
        }
    }

    /// A part of an expression.
    fn of_expression(self, within: Stretch, turn: Turn) -> Option<Stretch> {
        match turn {
            Turn::Left => Stretch::of(within.start, self.sign(within)?.start),
            Turn::Right => Stretch::of(self.sign(within)?.end, within.end),
            Turn::Operand => within.without_first(1),
            Turn::Condition | Turn::Chosen | Turn::Otherwise => self.of_conditional(within, turn),
            Turn::Function => Stretch::of(within.start, self.last_bracket(within)?),
            Turn::Argument(n) => self.argument(within, n),
            Turn::Owner => self.owner(within),
            Turn::Index => self.in_last_brackets(within),
            Turn::Bound(n) => self.bound(within, n),
            Turn::Item(n) => self.between_commas(self.items(within)?, n),
            Turn::Key(n) => {
                let entry = self.between_commas(self.items(within)?, n)?;
                self.until(entry, Stop::Colon)
            }
            Turn::Value(n) => {
                let entry = self.between_commas(self.items(within)?, n)?;
                self.past(entry, Stop::Colon)
            }
            Turn::Clause(n) => self.of_clause(within, n),
            Turn::ClauseTarget(n) => self.targets(self.clause(within, n)?),
            _ => self.of_statement(within, turn),
        }
    }

    /// The statement that begins at a token, up to the end of its first logical line.
    pub(crate) fn statement(self, start: usize) -> Option<Stretch> {
        self.until(Stretch::of(start, self.tokens.len())?, Stop::Line)
    }

    /// The expression of the lambda that begins at a token.
    pub(crate) fn answer(self, start: usize) -> Option<Stretch> {
        if self.kind(start) != Kind::Keyword(Keyword::Lambda) {
            return None;
        }
        let rest = Stretch::of(start.saturating_add(1), self.tokens.len())?;
        self.until(self.past(rest, Stop::Colon)?, Stop::Answer)
    }

    /// The part to which a way leads.
    pub(crate) fn part(self, root: Stretch, way: &[Turn]) -> Option<Stretch> {
        let mut part = root;
        for turn in way {
            part = self.of_expression(self.bare(part), *turn)?;
        }
        Some(part)
    }

    /// The bracket of the only call in a statement whose function has no name; `None` if there are several, or none, and
    /// for an `if`.
    pub(crate) fn lone_call(self, statement: usize) -> Option<usize> {
        if self.kind(statement) == Kind::Keyword(Keyword::If) {
            return None;
        }
        let line = self.statement(statement)?;
        let mut found = None;
        for at in line.start..line.end {
            let is_call = self.kind(at) == Kind::Punctuator(Punctuator::LeftParen)
                && closes(self.kind(at.saturating_sub(1)));
            if is_call && found.is_some() {
                return None;
            }
            if is_call {
                found = Some(at);
            }
        }
        found
    }
}
