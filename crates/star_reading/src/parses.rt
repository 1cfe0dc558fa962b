//! Parsed texts: a text that is parsed already is not parsed again.

ghost use Rattle.std.specs.Prelude.{◌≡◌, ◌<◌, IfOk, Some, length, map};
ghost use Rattle.star_label.specs.Files.{text_at};
ghost use Rattle.star_reading.specs.Parsed.{AreParsesOf, IsParsed};

use star_label::files::Files as Labels;
use star_lex::token::SyntaxFault;
use star_parser::parse;
use star_tree::tree::Tree;
use std::alloc::{AllocError, Global};
use std::sync::Wait;

/// The result of parsing a text: its tree, or its fault, which is not want of memory.
pub type Parsed<'t> = Result<&'t Tree, SyntaxFault>;

/// Parses a text, and keeps its tree with the other trees. The error: an allocation failed.
pub fn parsed<'t, R: Wait>(
    rt: &R,
    alloc: Global,
    trees: &'t boxcar::Vec<Tree>,
    text: &str,
) -> Result<Parsed<'t>, AllocError>
    ensures { IfOk result (IsParsed text.now) }
{
    let tree = match parse(alloc, text) {
        Ok(tree) => tree,
        Err(SyntaxFault::Memory) => return Err(AllocError),
        Err(fault) => return Ok(Err(fault)),
    };
    match trees.push_shown(rt, tree) {
        Ok(pushed) => Ok(Ok(trees.value(&pushed))),
        Err(_) => Err(AllocError),
    }
}

/// The result of parsing the text of a file: from `parses` if it is there, else parsed now. The error: an allocation
/// failed.
pub fn parsed_once<'t, R: Wait>(
    rt: &R,
    alloc: Global,
    files: &Labels,
    trees: &'t boxcar::Vec<Tree>,
    parses: &[Option<Parsed<'t>>],
    n: usize,
) -> Result<Parsed<'t>, AllocError>
    requires file { n < length files.now }
    requires parses { AreParsesOf files.now parses.now }
    ensures { IfOk result (IsParsed (text_at files.now n)) }
{
    if n < parses.len() {
        if let Some(parse) = parses[n] {
            return Ok(parse);
        }
    }
    parsed(rt, alloc, trees, files.text(n))
}

/// The results of parsing the texts of all files, as a reader takes them. The error: an allocation failed.
pub fn all_there<'t>(
    alloc: Global,
    parses: &[Parsed<'t>],
) -> Result<Vec<Option<Parsed<'t>>>, AllocError>
    ensures { IfOk result (λ row. row.items ≡ map (λ p. Some p) parses.now) }
{
    parses.iter().map(|parse| Some(*parse)).collect(alloc)
}
