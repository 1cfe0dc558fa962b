//! The walk over the tree of a file: what it has found so far, and what it finds at a token.

use crate::function::Function;
use crate::index::{LoadLabel, LoadedName, Scope, Symbol, SymbolKind};
use crate::mention::{Binder, Note, Referent, Role, Variable, inside};
use star_lex::token::{Kind, Punctuator, Span, Token};
use star_scope::spot::Spot;
use star_scope::spots::Spots;
use star_text::Text;
use star_tree::tree::{self, Literal};
use std::alloc::{AllocError, Global};
use std::collections::BTreeSet;

/// What the walk finds.
#[derive(Debug, Drop)]
pub(crate) struct Found {
    pub notes: Vec<Note>,
    pub symbols: Vec<Symbol>,
    pub loaded: Vec<LoadedName>,
    pub labels: Vec<LoadLabel>,
    pub functions: Vec<Function>,
    /// The parts of the text in which the names of blocks other than the file's can be read.
    pub scopes: Vec<Scope>,
}

impl Found {
    /// Nothing.
    pub(crate) fn new(alloc: Global) -> Found {
        Found {
            notes: Vec::new(alloc),
            symbols: Vec::new(alloc),
            loaded: Vec::new(alloc),
            labels: Vec::new(alloc),
            functions: Vec::new(alloc),
            scopes: Vec::new(alloc),
        }
    }
}

/// A walk: the text with its tokens and the spots of its names, and what was found so far.
#[derive(Drop)]
pub(crate) struct Walk<'a> {
    text: &'a str,
    tokens: &'a [Token],
    spots: &'a Spots,
    /// The numbers of the blocks around the place of the walk, the file's first.
    around: Vec<usize>,
    /// The token that ends the line of the statement that the walk reached last.
    line_end: usize,
    /// The slots of the globals that have a symbol.
    globals: BTreeSet<usize>,
    found: Found,
}

/// The first token from this one on that ends a statement on one line.
fn line_end(tokens: &[Token], from: usize) -> usize {
    let mut at = from;
    while at < tokens.len() {
        match tokens[at].kind {
            Kind::Newline | Kind::Punctuator(Punctuator::Semicolon) => return at,
            _ => at += 1,
        }
    }
    at
}

/// The token that closes the bracket that opens at this one.
fn closing(tokens: &[Token], from: usize) -> usize {
    let mut depth = 0usize;
    let mut at = from;
    while at < tokens.len() {
        match tokens[at].kind {
            Kind::Punctuator(
                Punctuator::LeftParen | Punctuator::LeftBracket | Punctuator::LeftBrace,
            ) => depth = depth.saturating_add(1),
            Kind::Punctuator(
                Punctuator::RightParen | Punctuator::RightBracket | Punctuator::RightBrace,
            ) => depth = depth.saturating_sub(1),
            _ => {}
        }
        if depth == 0 {
            return at;
        }
        at += 1;
    }
    at
}

impl<'a> Walk<'a> {
    /// A walk that begins in the block of the file.
    pub(crate) fn new(
        alloc: Global,
        text: &'a str,
        tokens: &'a [Token],
        spots: &'a Spots,
    ) -> Result<Walk<'a>, AllocError> {
        let mut around = Vec::new(alloc);
        around.push(0)?;
        Ok(Walk {
            text,
            tokens,
            spots,
            around,
            line_end: 0,
            globals: BTreeSet::new(alloc),
            found: Found::new(alloc),
        })
    }

    /// Comes to the statement that begins at a token.
    pub(crate) fn reach(&mut self, token: usize) {
        self.line_end = line_end(self.tokens, token);
    }

    /// What was found, the symbols in the order of the text.
    pub(crate) fn finish(self) -> Result<Found, AllocError> {
        let Walk {
            text: _,
            tokens: _,
            spots: _,
            around: _,
            line_end: _,
            globals: _,
            mut found,
        } = self;
        found.symbols.sort_by_key(|symbol| symbol.whole.start)?;
        Ok(found)
    }

    /// Where a token begins; the end of the text beyond the last one.
    fn start(&self, token: usize) -> usize {
        match self.tokens.get(token) {
            Some(there) => there.span.start,
            None => self.text.len(),
        }
    }

    /// The place after a token.
    fn end(&self, token: usize) -> usize {
        match self.tokens.get(token) {
            Some(there) => there.span.end,
            None => self.text.len(),
        }
    }

    /// The span of a name or of a string's inside; the end of the text beyond the last token.
    fn span(&self, token: usize) -> Span {
        match self.tokens.get(token) {
            Some(there) => inside(self.text, there.span),
            None => Span {
                start: self.text.len(),
                end: self.text.len(),
            },
        }
    }

    /// The name at a token, with the parameters in parentheses after it.
    fn header(&self, name: usize) -> Span {
        let close = closing(self.tokens, name.saturating_add(1));
        Span {
            start: self.start(name),
            end: self.end(close),
        }
    }

    /// The number of the block that is so many blocks above the innermost one.
    fn block(&self, up: usize) -> Option<usize> {
        let place = self.around.len().checked_sub(up.checked_add(1)?)?;
        self.around.get(place).copied()
    }

    /// What the name at a token means.
    pub(crate) fn referent(&self, token: usize) -> Referent {
        match self.spots.get(token) {
            Some(Spot::Frame { up, slot }) => match self.block(up) {
                Some(block) => Referent::Variable(Variable { block, slot }),
                None => Referent::Undefined,
            },
            Some(Spot::Prelude) => Referent::Prelude,
            Some(Spot::Outermost) => Referent::BuiltIn,
            None => Referent::Undefined,
        }
    }

    /// Notes what is at a token.
    pub(crate) fn note(&mut self, token: usize, role: Role) -> Result<(), AllocError> {
        self.found.notes.push(Note { token, role })?;
        Ok(())
    }

    /// Notes a name that is bound.
    pub(crate) fn bind(&mut self, token: usize, by: Binder) -> Result<(), AllocError> {
        match self.referent(token) {
            Referent::Variable(variable) => {
                self.note(token, Role::Bound { variable, by })?;
                if by == Binder::Target {
                    self.add_global(token, variable)?;
                }
                Ok(())
            }
            other => self.note(token, Role::Read(other)),
        }
    }

    /// Adds the symbol of a global, where it is bound first.
    fn add_global(&mut self, token: usize, variable: Variable) -> Result<(), AllocError> {
        if variable.block != 0 || !self.globals.insert(variable.slot)? {
            return Ok(());
        }
        let (name, line_end) = (self.span(token), self.line_end);
        let whole = Span {
            start: name.start,
            end: self.start(line_end),
        };
        self.add_symbol(SymbolKind::Global, name, whole)
    }

    /// Adds a symbol. As many definitions are around it as blocks are around the walk, beside the file's.
    fn add_symbol(&mut self, kind: SymbolKind, name: Span, whole: Span) -> Result<(), AllocError> {
        let depth = self.around.len().saturating_sub(1);
        self.found.symbols.push(Symbol {
            kind,
            name,
            whole,
            depth,
        })?;
        Ok(())
    }

    /// Enters the block that begins at a token.
    pub(crate) fn enter(&mut self, token: usize) -> Result<(), AllocError> {
        self.around.push(token.saturating_add(1))?;
        Ok(())
    }

    /// Leaves the innermost block.
    pub(crate) fn leave(&mut self) {
        let _ = self.around.pop();
    }

    /// Adds the part of the text in which the names of the block that begins at a token can be read.
    pub(crate) fn add_scope(&mut self, token: usize, end: usize) -> Result<(), AllocError> {
        let start = self.start(token);
        self.found.scopes.push(Scope {
            block: token.saturating_add(1),
            span: Span { start, end },
        })?;
        Ok(())
    }

    /// The end of the last name that was noted.
    pub(crate) fn reached(&self) -> usize {
        match self.found.notes.last() {
            Some(note) => self.end(note.token),
            None => 0,
        }
    }

    /// Adds what is told of a `def` statement that begins at a token and whose name is at another, after its body.
    pub(crate) fn add_function(
        &mut self,
        token: usize,
        name: usize,
        description: Option<Text>,
    ) -> Result<(), AllocError> {
        let (line_end, name_span) = (self.line_end, self.span(name));
        let whole = Span {
            start: self.start(token),
            end: self.start(line_end),
        };
        let header = self.header(name);
        let next = self.start(line_end.saturating_add(1));
        self.add_scope(token, next)?;
        self.add_symbol(SymbolKind::Function, name_span, whole)?;
        if let Referent::Variable(variable) = self.referent(name) {
            self.found.functions.push(Function {
                variable,
                block: token.saturating_add(1),
                name: name_span,
                header,
                whole,
                description,
            })?;
        }
        Ok(())
    }

    /// Notes the string that names a file.
    pub(crate) fn note_label(&mut self, module: &Literal) -> Result<(), AllocError> {
        let token = module.position.token;
        self.note(token, Role::Label)?;
        let span = self.span(token);
        let label = module.text.share()?;
        self.found.labels.push(LoadLabel { span, label })?;
        Ok(())
    }

    /// Notes a name that a load statement binds.
    pub(crate) fn note_loaded(
        &mut self,
        module: &Literal,
        name: &tree::LoadedName,
    ) -> Result<(), AllocError> {
        let (local, loaded) = (name.local.position.token, name.loaded.position.token);
        self.bind(local, Binder::Load)?;
        if local != loaded {
            self.note(loaded, Role::LoadedName)?;
        }
        let string = Span {
            start: self.start(loaded),
            end: self.end(loaded),
        };
        let whole = Span {
            start: self.start(local),
            end: string.end,
        };
        let name_span = self.span(local);
        self.add_symbol(SymbolKind::Loaded, name_span, whole)?;
        if let Referent::Variable(variable) = self.referent(local) {
            self.found.loaded.push(LoadedName {
                variable,
                label: module.text.share()?,
                name: name.loaded.text.share()?,
                string,
                is_renamed: local != loaded,
            })?;
        }
        Ok(())
    }
}
