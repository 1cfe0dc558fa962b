//! `Index`: the index of a text.

ghost use Rattle.std.specs.Prelude.{◌≡◌, All, Any, Contains, IfOk, IfSome, slice_range};
ghost use Rattle.star_editor.specs.Within.{IsWithin, Touches};

use crate::function::Function;
use crate::mention::{Binder, Mention, Role, Variable, is_within, mentions_of};
use crate::statements::find;
use crate::walk::Found;
use star_dialect::Language;
use star_lex::lex;
use star_lex::token::{Span, SyntaxFault, Token};
use star_outline::blocks::{BlockNames, Blocks};
use star_outline::names::{add_statements, load_statements};
use star_outline::outline::{Definitions, Found as Outline, find_in_statements};
use star_parser::parse;
use star_scope::uses::resolve_names;
use star_text::Text;
use star_tree::tree::{Statement, Tree};
use std::alloc::{AllocError, Global};
use std::mem;

/// The kind of a symbol.
#[derive(Clone, Copy, Debug, PartialEq, Eq)]
pub enum SymbolKind {
    Function,
    /// A global that is no function.
    Global,
    /// A name that a load statement binds.
    Loaded,
}

/// A symbol of a file: a function, a global or a loaded name.
#[derive(Clone, Copy, Debug, PartialEq, Eq)]
pub struct Symbol {
    pub kind: SymbolKind,
    /// Its name, where it is bound first.
    pub name: Span,
    /// The whole of it: the statement of a function, or the name and what is assigned to it.
    pub whole: Span,
    /// In how many functions it stands: the symbols inside of a function follow it, one deeper.
    pub depth: usize,
}

/// A name that a load statement binds.
#[derive(Debug, Drop)]
pub struct LoadedName {
    /// The variable that it binds.
    pub variable: Variable,
    /// The string that names the file, as it is written.
    pub label: Text,
    /// The name of the global in that file.
    pub name: Text,
    /// The string of that name, with its quotes.
    pub string: Span,
    /// Whether a local name is written: `local = "name"`.
    pub is_renamed: bool,
}

/// The string of a load statement that names a file.
#[derive(Debug, Drop)]
pub struct LoadLabel {
    /// What the quotes enclose.
    pub span: Span,
    /// What it means, as it is written: a label, or `:NAME`.
    pub label: Text,
}

/// A part of a text in which the names of a block can be read.
#[derive(Clone, Copy, Debug, PartialEq, Eq)]
pub(crate) struct Scope {
    pub block: usize,
    pub span: Span,
}

/// The index of a version of a text.
#[derive(Debug, Drop)]
pub struct Index {
    text: Text,
    has_tree: bool,
    mentions: Vec<Mention>,
    pub(crate) found: Found,
    ghost within: { All (λ m. IsWithin text m.span) mentions.items },
}

/// The tokens of a text that parses.
fn tokens_of(alloc: Global, text: &str) -> Result<Vec<Token>, AllocError> {
    match lex(alloc, text) {
        Ok(tokens) => Ok(tokens),
        Err(_) => Err(AllocError),
    }
}

/// The blocks of a file: its own is the first.
fn blocks_of<'t>(alloc: Global, statements: &'t [Statement]) -> Result<Blocks<'t>, AllocError> {
    let mut own = BlockNames::new(alloc);
    add_statements(&mut own, statements)?;
    load_statements(&mut own, statements)?;
    let mut outline = Outline {
        definitions: Definitions::new(alloc),
        blocks: Blocks::new(alloc),
    };
    outline.blocks.push(0, own)?;
    find_in_statements(alloc, &mut outline, statements)?;
    Ok(outline.blocks)
}

/// The mentions of a file with this tree, and what else an index has of it, beside a prelude whose block has these names.
fn content_of<'t>(
    alloc: Global,
    text: &str,
    tree: &'t Tree,
    prelude: Option<&BlockNames<'t>>,
    language: &Language,
) -> Result<(Vec<Mention>, Found), AllocError>
    ensures { IfOk result (λ r. All (λ m. IsWithin text.now m.span) r.0.items) }
{
    let statements = tree.statements.as_slice();
    let blocks = blocks_of(alloc, statements)?;
    let tokens = tokens_of(alloc, text)?;
    let Ok(names) = resolve_names(alloc, &blocks, prelude, language, statements) else {
        return Err(AllocError);
    };
    let mut found = find(alloc, text, tokens.as_slice(), &names.spots, statements)?;
    let notes = mem::replace(&mut found.notes, Vec::new(alloc));
    let mentions = mentions_of(alloc, text, tokens.as_slice(), notes.as_slice())?;
    Ok((mentions, found))
}

/// The same beside the prelude with this index.
fn content_beside(
    alloc: Global,
    text: &str,
    tree: &Tree,
    prelude: Option<&Index>,
    language: &Language,
) -> Result<(Vec<Mention>, Found), AllocError>
    ensures { IfOk result (λ r. All (λ m. IsWithin text.now m.span) r.0.items) }
{
    let Some(prelude) = prelude else {
        return content_of(alloc, text, tree, None, language);
    };
    let names = prelude.own_names(alloc)?;
    content_of(alloc, text, tree, Some(&names), language)
}

impl Index {
    ghost use Rattle.star_editor.specs.Meaning.{BindsGlobal};
    ghost use Rattle.star_editor.specs.Views.{mentions_of, text_of};

    /// The index of a text in a language, beside the prelude with this index. The error: an allocation failed.
    pub fn of(
        alloc: Global,
        text: Text,
        prelude: Option<&Index>,
        language: &Language,
    ) -> Result<Index, AllocError>
        ensures { IfOk result (λ index. text_of index ≡ text) }
    {
        let (has_tree, (mentions, found)) = match parse(alloc, text.as_str()) {
            Ok(tree) => (
                true,
                content_beside(alloc, text.as_str(), &tree, prelude, language)?,
            ),
            Err(SyntaxFault::Memory) => return Err(AllocError),
            Err(_) => (false, (Vec::new(alloc), Found::new(alloc))),
        };
        Ok(Index {
            text,
            has_tree,
            mentions,
            found,
        })
    }

    /// The text.
    pub fn text(&self) -> &str
        ensures { result.now ≡ text_of self.now }
    {
        self.text.as_str()
    }

    /// Whether the text parses: else the index has nothing in it.
    pub fn has_tree(&self) -> bool {
        self.has_tree
    }

    /// All mentions, in the order of the text.
    pub fn mentions(&self) -> &[Mention]
        ensures mentions { result.now ≡ mentions_of self.now }
        ensures within { All (λ m. IsWithin (text_of self.now) m.span) result.now }
    {
        self.mentions.as_slice()
    }

    /// The mention that this byte is in, or that ends there.
    pub fn mention_at(&self, at: usize) -> Option<Mention>
        ensures there { IfSome result (Contains (mentions_of self.now)) }
        ensures touches { IfSome result (λ m. Touches at m.span) }
    {
        let mut touched = None;
        for mention in &self.mentions {
            if mention.span.start <= at && at < mention.span.end {
                return Some(*mention);
            }
            if mention.span.start <= at && mention.span.end == at {
                touched = Some(*mention);
            }
        }
        touched
    }

    /// The functions, globals and loaded names, in the order of the text.
    pub fn symbols(&self) -> &[Symbol] {
        self.found.symbols.as_slice()
    }

    /// The names that the load statements bind, in the order of the text.
    pub fn loaded(&self) -> &[LoadedName] {
        self.found.loaded.as_slice()
    }

    /// The strings of the load statements that name files, in the order of the text.
    pub fn labels(&self) -> &[LoadLabel] {
        self.found.labels.as_slice()
    }

    /// All functions, each after those inside of it.
    pub fn functions(&self) -> &[Function] {
        self.found.functions.as_slice()
    }

    /// The string that names a file, at this byte.
    pub fn label_at(&self, at: usize) -> Option<&LoadLabel>
        ensures { IfSome result (λ l. Touches at l.now.span) }
    {
        for label in &self.found.labels {
            if label.span.start <= at && at <= label.span.end {
                return Some(label);
            }
        }
        None
    }

    /// The function that the first `def` statement binds to this variable.
    pub fn function(&self, variable: Variable) -> Option<&Function>
        ensures { IfSome result (λ f. f.now.variable ≡ variable) }
    {
        for function in &self.found.functions {
            if function.variable == variable {
                return Some(function);
            }
        }
        None
    }

    /// The variable of a global of this file that other files can load.
    pub fn global(&self, name: &str) -> Option<Variable>
        ensures { IfSome result (λ v. Any (λ m. BindsGlobal v m.role) (mentions_of self.now)) }
    {
        for mention in &self.mentions {
            match mention.role {
                Role::Bound { variable, by }
                    if variable.block == 0
                        && by != Binder::Load
                        && self.written(mention.span) == name => {
                    return Some(variable);
                }
                _ => {}
            }
        }
        None
    }

    /// What is written in this span; nothing outside of the text.
    pub fn written(&self, span: Span) -> &str
        ensures { IsWithin (text_of self.now) span → result.now ≡ slice_range (text_of self.now) span.start span.end }
    {
        let text = self.text.as_str();
        if is_within(text, span) {
            &text[span.start..span.end]
        } else {
            ""
        }
    }

    /// The names that the file's own block binds.
    fn own_names(&self, alloc: Global) -> Result<BlockNames<'_>, AllocError> {
        let mut names = BlockNames::new(alloc);
        for mention in &self.mentions {
            match mention.role {
                Role::Bound { variable, .. } if variable.block == 0 => {
                    names.add(self.written(mention.span))?
                }
                _ => {}
            }
        }
        Ok(names)
    }
}
