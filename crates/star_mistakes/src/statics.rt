//! `mistakes`: all static faults of a file, from its text.

ghost use Rattle.std.specs.Prelude.{◌<◌, length};

use crate::message::Part::Plain;
use crate::mistake::Mistake;
use crate::names::{Found, Source};
use crate::place::{Line, text_of};
use crate::refused::{Choices, told};
use crate::syntax::bad_syntax;
use crate::tokens::{bad_indent, bad_token};
use star_dialect::Language;
use star_label::files::Files;
use star_lex::lex;
use star_lex::token::{SyntaxFault, Token};
use star_parser::parse;
use star_scope::error::ScopeFault;
use star_tree::tree::Tree;
use std::alloc::{AllocError, Global};

/// The files of a run, which of them is the prelude, and the language in which they are read.
#[derive(Clone, Copy)]
pub struct Sources<'a> {
    pub alloc: Global,
    pub files: &'a Files,
    pub prelude: Option<usize>,
    pub language: &'a Language,
}

/// The mistake of a text that is nested too deeply, by this line.
fn nested(alloc: Global, file: usize, text: &str, line: usize) -> Result<Mistake, AllocError> {
    let mark = Line::numbered(text, line).mark(file);
    let text = [Plain(
        "nested too deeply: brackets, blocks and operators weigh more than 100 here",
    )];
    let help = [Plain("give the inner parts names of their own")];
    Mistake::new(alloc, mark, "nested", &text, &help)
}

/// The mistake of a text without a tree.
fn unread(
    alloc: Global,
    file: usize,
    text: &str,
    fault: SyntaxFault,
) -> Result<Mistake, AllocError> {
    match fault {
        SyntaxFault::BadToken { line } => bad_token(alloc, file, text, line),
        SyntaxFault::BadIndent { line } => bad_indent(alloc, file, text, line),
        SyntaxFault::TooNested { line } => nested(alloc, file, text, line),
        SyntaxFault::BadSyntax => match lex(alloc, text) {
            Ok(tokens) => bad_syntax(alloc, file, text, tokens.as_slice()),
            Err(_) => Err(AllocError),
        },
        SyntaxFault::Memory => Err(AllocError),
    }
}

/// After how many comparisons of words no word that was meant is sought for the further mistakes of a file.
const COMPARED: usize = 4_000;

/// With how many words a mistake is compared, to find the one that was meant.
fn comparisons(source: Source, found: &Found, fault: ScopeFault) -> usize {
    match fault {
        ScopeFault::Undefined { .. } => found.names.len(),
        ScopeFault::NoFile { .. } | ScopeFault::BadLabel { .. } => {
            source.files.len().saturating_mul(2)
        }
        _ => 0,
    }
}

/// The mistakes for the faults that were found in a file, without undefined names if some names may not be known.
fn mistakes_for(source: Source, found: &Found, is_blind: bool) -> Result<Vec<Mistake>, AllocError> {
    let mut all = Vec::new(source.alloc);
    let mut compared = 0usize;
    for refusal in &found.faults {
        let is_undefined = matches!(refusal.fault, ScopeFault::Undefined { .. });
        if is_undefined && is_blind {
            continue;
        }
        let choices = if compared < COMPARED {
            Choices::Of(found.names.as_slice())
        } else {
            Choices::Unsought
        };
        compared = compared.saturating_add(comparisons(source, found, refusal.fault));
        if let Some(mistake) = told(source, choices, *refusal)? {
            all.push(mistake)?;
        }
    }
    Ok(all)
}

/// The mistakes of a file with these tokens and this tree, if its prelude has this tree.
fn mistakes_by<'x>(
    sources: Sources<'x>,
    file: usize,
    tokens: &'x [Token],
    tree: &'x Tree,
    seen: Option<&'x Tree>,
) -> Result<Vec<Mistake>, AllocError>
    requires { file < length sources.files.now }
{
    let source = Source {
        alloc: sources.alloc,
        files: sources.files,
        file,
        text: sources.files.text(file),
        tokens,
        tree,
        prelude: sources.prelude,
        seen,
        language: sources.language,
    };
    let found = source.found()?;
    let is_blind = sources.prelude.is_some() && seen.is_none();
    mistakes_for(source, &found, is_blind)
}

impl<'a> Sources<'a> {
    /// The files of a run, one of which may be the prelude, in a language.
    pub fn new(
        alloc: Global,
        files: &'a Files,
        prelude: Option<usize>,
        language: &'a Language,
    ) -> Self {
        Sources {
            alloc,
            files,
            prelude,
            language,
        }
    }

    /// The tree of the prelude, if it parses.
    fn prelude_tree(self) -> Result<Option<Tree>, AllocError> {
        let Some(prelude) = self.prelude else {
            return Ok(None);
        };
        match parse(self.alloc, text_of(self.files, prelude)) {
            Ok(tree) => Ok(Some(tree)),
            Err(SyntaxFault::Memory) => Err(AllocError),
            Err(_) => Ok(None),
        }
    }

    /// Whether the prelude does not parse, so that its names are not known.
    pub fn is_blind(self) -> Result<bool, AllocError> {
        Ok(self.prelude.is_some() && self.prelude_tree()?.is_none())
    }

    /// The mistakes of a file with this tree.
    fn mistakes_in(self, file: usize, tree: &Tree) -> Result<Vec<Mistake>, AllocError>
        requires { file < length self.files.now }
    {
        let prelude = self.prelude_tree()?;
        match lex(self.alloc, self.files.text(file)) {
            Ok(tokens) => mistakes_by(self, file, tokens.as_slice(), tree, prelude.as_ref()),
            Err(_) => Err(AllocError),
        }
    }

    /// The mistakes of a file that has static faults, in their order in the text: each undefined name, each bad load, and
    /// the first misplaced statement and conflict. Names that may come from a prelude that does not parse are left out.
    pub fn mistakes(self, file: usize) -> Result<Vec<Mistake>, AllocError> {
        if file >= self.files.len() {
            return Ok(Vec::new(self.alloc));
        }
        let text = self.files.text(file);
        match parse(self.alloc, text) {
            Ok(tree) => self.mistakes_in(file, &tree),
            Err(fault) => {
                let mut all = Vec::new(self.alloc);
                all.push(unread(self.alloc, file, text, fault)?)?;
                Ok(all)
            }
        }
    }
}
