//! The word of a text that a fault is about.

use crate::stretches::Stretch;
use star_found::about::{About, Found, Place};
use star_label::files::Files;
use star_lex::lex;
use star_lex::token::{Keyword, Kind, Punctuator, Token};
use star_meaning::story::Step;
use star_mistakes::place::{Mark, mark_of, text_of, word_of};
use std::alloc::{AllocError, Global};

/// The tokens of at most this many files are kept.
const KEPT: usize = 8;

/// At most this many tokens are kept, but for those of one file.
const TOKENS: usize = 1_000_000;

/// The tokens of a file, and its text.
#[derive(Clone, Copy)]
pub(crate) struct Words<'a> {
    pub file: usize,
    pub text: &'a str,
    pub tokens: &'a [Token],
}

/// A string without its quotes.
pub(crate) fn unquoted(word: &str) -> &str {
    word.trim_matches(['"', '\''])
}

impl<'a> Words<'a> {
    /// The word of a token.
    pub(crate) fn word(self, at: usize) -> &'a str {
        match self.tokens.get(at) {
            Some(token) => word_of(self.text, token),
            None => "",
        }
    }

    /// The kind of a token; `End` after the last.
    pub(crate) fn kind(self, at: usize) -> Kind {
        match self.tokens.get(at) {
            Some(token) => token.kind,
            None => Kind::End,
        }
    }

    /// The line of a token; 1 without such a token.
    pub(crate) fn line(self, at: usize) -> usize {
        match self.tokens.get(at) {
            Some(token) => token.line,
            None => 1,
        }
    }

    /// The token itself.
    pub(crate) fn mark(self, at: usize) -> Option<Mark> {
        let token = self.tokens.get(at)?;
        Some(mark_of(self.file, token))
    }

    /// All of some tokens.
    fn whole(self, part: Stretch) -> Option<Mark> {
        let first = self.mark(part.start)?;
        let last = self.mark(part.end.checked_sub(1)?)?;
        Some(Mark {
            file: self.file,
            start: first.start,
            end: last.end,
        })
    }

    /// The sign between the operands of an expression, if it is this one.
    fn between(self, part: Stretch, sign: &str) -> Option<Mark> {
        let found = self.sign(self.bare(part))?;
        let is_it = match sign {
            "not in" => self.kind(found.start) == Kind::Keyword(Keyword::Not),
            _ => self.word(found.start) == sign,
        };
        if is_it { self.whole(found) } else { None }
    }

    /// The sign before an operand, if it is this one: the stars of an argument stand before the argument's value.
    fn before(self, part: Stretch, sign: &str) -> Option<Mark> {
        let at = match sign {
            "*" | "**" => part.start.checked_sub(1)?,
            _ => self.bare(part).start,
        };
        if self.word(at) == sign {
            self.mark(at)
        } else {
            None
        }
    }

    /// What a fault is about, in the part that has it.
    fn within(self, part: Stretch, about: &About) -> Option<Mark> {
        match about {
            About::Index { .. } | About::Slice { .. } => {
                self.whole(self.in_last_brackets(self.bare(part))?)
            }
            About::Operands { sign, .. } => self.between(part, sign.as_str()),
            About::Operand { sign, .. } => self.before(part, sign.as_str()),
            About::Field { .. } => self.between(part, "%"),
            About::Call { .. } | About::BuiltIn { .. } => {
                self.mark(self.last_bracket(self.bare(part))?)
            }
            _ => self.whole(part),
        }
    }

    /// The statement or the expression of a lambda that stopped.
    fn root(self, innermost: Step) -> Option<Stretch> {
        match innermost {
            Step::Statement { token, .. } => self.statement(token),
            Step::Call { number, .. } => self.answer(number),
            Step::From { .. } => None,
        }
    }

    /// The word that a fault is about; `None` if its place is not certain.
    pub(crate) fn of(self, steps: &[Step], found: &Found) -> Option<Mark> {
        match &found.place {
            Place::Word(at) => self.mark(*at),
            Place::Part(way) => {
                let root = self.root(*steps.first()?)?;
                self.within(self.part(root, way.as_slice())?, &found.about)
            }
        }
    }

    /// Whether a statement begins with a token.
    fn begins(self, at: usize) -> bool {
        match at.checked_sub(1) {
            Some(before) => matches!(
                self.kind(before),
                Kind::Newline | Kind::Indent | Kind::Outdent
            ),
            None => true,
        }
    }

    /// Whether a token is a name that a statement of its own, a `for` or a `def` binds.
    fn binds(self, at: usize) -> bool {
        let before = at.saturating_sub(1);
        let is_after = match self.kind(before) {
            Kind::Keyword(Keyword::Def) => true,
            Kind::Keyword(Keyword::For) => self.begins(before),
            _ => false,
        };
        let is_assigned = self.begins(at)
            && self.kind(at.saturating_add(1)) == Kind::Punctuator(Punctuator::Assign);
        self.kind(at) == Kind::Name && (is_after || is_assigned)
    }

    /// The line on which a global gets its value after a token at which it has none; `None` if it is not found.
    fn bound_on(self, token: usize) -> Option<usize> {
        let mut depth: usize = 0;
        let mut function = None;
        for at in 0..self.tokens.len() {
            let kind = self.kind(at);
            let ends = self.begins(at) && !matches!(kind, Kind::Indent | Kind::Outdent);
            if ends && function.is_some_and(|outside| depth <= outside) {
                function = None;
            }
            if function.is_none()
                && at > token
                && self.binds(at)
                && self.word(at) == self.word(token)
            {
                return Some(self.line(at));
            }
            match kind {
                Kind::Indent => depth = depth.saturating_add(1),
                Kind::Outdent => depth = depth.saturating_sub(1),
                Kind::Name if function.is_none() => {
                    let before = self.kind(at.saturating_sub(1));
                    if before == Kind::Keyword(Keyword::Def) {
                        function = Some(depth);
                    }
                }
                _ => {}
            }
        }
        None
    }

    /// The line on which the global at fault gets its value, if it has none yet.
    pub(crate) fn line_of_global(self, found: &Found) -> Option<usize> {
        match (&found.about, &found.place) {
            (
                About::Name {
                    is_global: true,
                    ..
                },
                Place::Word(token),
            ) => self.bound_on(*token),
            _ => None,
        }
    }

    /// The string of the load statement that has the word at fault; empty if there is none.
    pub(crate) fn module(self, found: &Found) -> &'a str {
        let Place::Word(token) = found.place else {
            return "";
        };
        let mut module = "";
        for at in 0..token.min(self.tokens.len()) {
            if self.kind(at) == Kind::Keyword(Keyword::Load) {
                module = self.word(at.saturating_add(2));
            }
        }
        unquoted(module)
    }
}

/// The file of a step.
pub(crate) fn file_of(step: Step) -> usize {
    match step {
        Step::Statement { file, .. } | Step::From { file, .. } | Step::Call { file, .. } => {
            usize::try_from(file).unwrap_or(usize::MAX)
        }
    }
}

/// The tokens of a file.
#[derive(Drop)]
struct Lexed {
    file: usize,
    tokens: Vec<Token>,
}

/// The tokens of the files that were looked at last.
#[derive(Drop)]
pub(crate) struct Lexicon<'a> {
    alloc: Global,
    files: &'a Files,
    kept: Vec<Lexed>,
}

impl<'a> Lexicon<'a> {
    /// No tokens.
    pub(crate) fn new(alloc: Global, files: &'a Files) -> Lexicon<'a> {
        Lexicon {
            alloc,
            files,
            kept: Vec::new(alloc),
        }
    }

    /// The tokens of a file, which are taken out of those kept if they are among them.
    fn taken(&mut self, file: usize) -> Result<Lexed, AllocError> {
        for at in 0..self.kept.len() {
            if self.kept.get(at).is_some_and(|lexed| lexed.file == file) {
                return Ok(self.kept.remove(at));
            }
        }
        match lex(self.alloc, text_of(self.files, file)) {
            Ok(tokens) => Ok(Lexed { file, tokens }),
            Err(_) => Err(AllocError),
        }
    }

    /// The number of tokens that are kept.
    fn size(&self) -> usize {
        let mut size: usize = 0;
        for lexed in &self.kept {
            size = size.saturating_add(lexed.tokens.len());
        }
        size
    }

    /// Makes room for so many tokens: those of files that were not asked for lately are let go.
    fn make_room(&mut self, count: usize) {
        for _ in 0..KEPT {
            let is_full = self.kept.len() >= KEPT || self.size().saturating_add(count) > TOKENS;
            if is_full && !self.kept.is_empty() {
                let _oldest = self.kept.remove(0);
            }
        }
    }

    /// The words of a file that has tokens.
    pub(crate) fn words(&mut self, file: usize) -> Result<Option<Words<'_>>, AllocError> {
        let lexed = self.taken(file)?;
        self.make_room(lexed.tokens.len());
        self.kept.push(lexed)?;
        Ok(match self.kept.last() {
            Some(lexed) => Some(Words {
                file,
                text: text_of(self.files, file),
                tokens: lexed.tokens.as_slice(),
            }),
            None => None,
        })
    }
}
