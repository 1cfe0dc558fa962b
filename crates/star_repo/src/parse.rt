//! Parsing several texts side by side.

ghost use Rattle.std.specs.Prelude.{◌<◌, IfOk, string_bytes};
ghost use Rattle.star_reading.specs.Parsed.{AreParsesOf, IsParsed};
ghost use Rattle.star_repo.specs.Parsed.{AreJoined, AreKnown, AreParsed};

use crate::known::Known;
use star_label::label::Label;
use star_reading::parses::{Parsed, parsed};
use star_tree::tree::Tree;
use std::alloc::{AllocError, Global};
use std::sync::Wait;
use std::thread::{self, Threads};

/// With each further group of this many texts one more thread parses.
const TEXTS_A_THREAD: usize = 16;

/// How texts are parsed.
#[derive(Clone, Copy)]
pub struct Parsing<'a, 't> {
    /// Where the trees are kept.
    pub trees: &'t boxcar::Vec<Tree>,
    /// Texts that were parsed before, which are not parsed again. If there are any, one thread parses the others.
    pub known: Option<Known<'a, 't>>,
    /// The most threads that parse.
    pub threads: usize,
}

/// Parses one text after another.
fn parsed_each<'t, R: Wait>(
    rt: &R,
    alloc: Global,
    trees: &'t boxcar::Vec<Tree>,
    files: &[(Label, String)],
) -> Result<Vec<Parsed<'t>>, AllocError>
    ensures { IfOk result (λ parses. AreParsed files.now parses.items) }
{
    let mut parses = Vec::new(alloc);
    for file in files {
        parses.push(parsed(rt, alloc, trees, file.1.as_str())?)?;
    }
    Ok(parses)
}

/// The result of parsing the text of a file, which is not parsed again if it is known.
fn parse_of<'t, R: Wait>(
    rt: &R,
    alloc: Global,
    trees: &'t boxcar::Vec<Tree>,
    known: &Known<'_, 't>,
    file: &(Label, String),
) -> Result<Parsed<'t>, AllocError>
    requires { AreParsesOf known.now.files.now known.now.parses.now }
    ensures { IfOk result (IsParsed (string_bytes file.now.1)) }
{
    let text = file.1.as_str();
    match known.parse_of(&file.0, text) {
        Some(parse) => Ok(parse),
        None => parsed(rt, alloc, trees, text),
    }
}

/// Parses one text after another, but for those that are known.
fn parsed_again<'t, R: Wait>(
    rt: &R,
    alloc: Global,
    trees: &'t boxcar::Vec<Tree>,
    known: &Known<'_, 't>,
    files: &[(Label, String)],
) -> Result<Vec<Parsed<'t>>, AllocError>
    requires { AreParsesOf known.now.files.now known.now.parses.now }
    ensures { IfOk result (λ parses. AreParsed files.now parses.items) }
{
    let mut parses = Vec::new(alloc);
    for file in files {
        parses.push(parse_of(rt, alloc, trees, known, file)?)?;
    }
    Ok(parses)
}

/// The results of parsing all texts, joined from the results of the parts of their list.
fn joined<'t>(
    alloc: Global,
    parts: Vec<Result<Vec<Parsed<'t>>, AllocError>>,
) -> Result<Vec<Parsed<'t>>, AllocError>
    ensures { IfOk result (λ parses. AreJoined parts.entry.items parses.items) }
{
    let mut parses = Vec::new(alloc);
    for part in parts {
        parses.append(&mut part?)?;
    }
    Ok(parses)
}

/// Parses parts of this size side by side.
fn parsed_parts<'t, R: Threads + Wait + Sync>(
    rt: &R,
    alloc: Global,
    trees: &'t boxcar::Vec<Tree>,
    files: &[(Label, String)],
    size: usize,
) -> Result<Vec<Parsed<'t>>, AllocError>
    requires { 0 < size }
    ensures { IfOk result (λ parses. AreParsed files.now parses.items) }
{
    let parts = thread::map_chunks(
        rt,
        alloc,
        files,
        size,
        &|_start: usize, part: &[(Label, String)]| -> Result<Vec<Parsed>, AllocError>
            ensures { IfOk result (λ parses. AreParsed part.now parses.items) }
        { parsed_each(rt, alloc, trees, part) },
    )?;
    joined(alloc, parts)
}

/// Parses texts, but for those that are known.
pub(crate) fn parsed_all<'t, R: Threads + Wait + Sync>(
    rt: &R,
    alloc: Global,
    parsing: Parsing<'_, 't>,
    files: &[(Label, String)],
) -> Result<Vec<Parsed<'t>>, AllocError>
    requires { AreKnown parsing.known }
    ensures { IfOk result (λ parses. AreParsed files.now parses.items) }
{
    let trees = parsing.trees;
    if let Some(known) = parsing.known {
        return parsed_again(rt, alloc, trees, &known, files);
    }
    let threads = parsing.threads.min(files.len() / TEXTS_A_THREAD + 1);
    if threads < 2 {
        return parsed_each(rt, alloc, trees, files);
    }
    parsed_parts(rt, alloc, trees, files, files.len() / threads + 1)
}
