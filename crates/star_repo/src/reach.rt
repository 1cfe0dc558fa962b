//! `read_reached`: the files that roots reach, found round by round.

ghost use Rattle.std.specs.Prelude.{◌≡◌, ◌+◌, ◌↔◌, ℕ, List, [], None, Some, IfOk, IfErr, OnOk, map};
ghost use Rattle.star_label.specs.Files.{IsOrdered, file_of, limit_passed};
ghost use Rattle.star_repo.specs.Held.{Said};
ghost use Rattle.star_repo.specs.Parsed.{AreFilesParsed, AreKnown, AreParsed};
ghost use Rattle.star_repo.specs.Refusal.{AreFilesBy};
ghost use Rattle.star_words.specs.Rows.{IsIn};
ghost use Rattle.star_repo.specs.Turn.{Turns, TurnsTo};
ghost use Rattle.star_repo.specs.Views.{AllRead, AreEndFiles, FailsAmong, IsAfter, IsEnded, IsKept, IsOnWay, Says, answer_of, labels_of, reads_failed, words_of};

use crate::error::ReadError;
use crate::found::{Found, ReadFile};
use crate::parse::{Parsing, parsed_all};
use crate::repo::Repo;
use crate::round::{read_round, settled};
use star_label::error::LabelError;
use star_label::files::Files;
use star_label::label::Label;
use star_reading::parses::{Parsed, all_there};
use star_tree::tree::Tree;
use std::alloc::{AllocError, Global};
use std::collections::{BTreeMap, BTreeSet};
use std::sync::Wait;
use std::thread::Threads;

/// The files that a run reaches, numbered by the order of their labels, and by their numbers the results of parsing
/// their texts.
#[derive(Drop)]
pub struct Reached<'t> {
    pub files: Files,
    pub parses: Vec<Option<Parsed<'t>>>,
}

/// Keeps the file that was read at a label, if there is one.
fn keep<'t>(
    texts: &mut BTreeMap<Label, String>,
    parses: &mut Vec<Parsed<'t>>,
    label: Label,
    read: Option<ReadFile<'t>>,
) -> Result<(), AllocError>
    ensures { OnOk result (IsAfter label texts.old.entries
        → IsKept texts.old.entries parses.old.items label read.entry texts.new.entries parses.new.items) }
{
    let Some(file) = read else {
        return Ok(());
    };
    texts.insert(label, file.text)?;
    parses.push(file.parsed)?;
    Ok(())
}

/// The files that were read, and the result of parsing each.
fn kept<'t>(
    alloc: Global,
    mut looked: BTreeMap<Label, Option<ReadFile<'t>>>,
) -> Result<(BTreeMap<Label, String>, Vec<Parsed<'t>>), AllocError>
    ensures files { IfOk result (λ r. (l t : List ℕ) → IsIn (l, t) (map file_of r.0.entries)
        ↔ IsIn (l, Some t) (map answer_of looked.entry.entries)) }
    ensures ordered { IfOk result (λ r. IsOrdered (map file_of r.0.entries)) }
    ensures parsed { IfOk result (λ r. AllRead looked.entry → AreParsed r.0.entries r.1.items) }
{
    let mut texts = BTreeMap::new(alloc);
    let mut parses = Vec::new(alloc);
    while let Some((label, read)) = looked.pop_first() {
        keep(&mut texts, &mut parses, label, read)?;
    }
    Ok((texts, parses))
}

/// Numbers files that are within the limits.
fn numbered(alloc: Global, texts: BTreeMap<Label, String>) -> Result<Files, AllocError>
    requires { limit_passed (map file_of texts.entries) ≡ None }
    ensures { IfOk result (λ files. files ≡ map file_of texts.entries) }
{
    match Files::new(alloc, texts) {
        Ok(files) => Ok(files),
        Err(LabelError::Memory) => Err(AllocError),
        Err(_) => unreachable!(),
    }
}

/// The files that a reading has found, which has come to its end.
fn ended<'t>(alloc: Global, found: Found<'t>) -> Result<Reached<'t>, AllocError>
    requires { IsEnded found }
    ensures files { IfOk result (λ r. AreEndFiles found.entry r.files) }
    ensures parsed { IfOk result (λ r. AllRead found.entry.looked → AreFilesParsed r.files r.parses.items) }
{
    let (texts, parses) = kept(alloc, found.looked)?;
    let files = numbered(alloc, texts)?;
    let there = all_there(alloc, parses.as_slice())?;
    Ok(Reached {
        files,
        parses: there,
    })
}

/// How far a reading has come at the front of a round.
#[derive(Drop)]
struct Round<'t> {
    found: Found<'t>,
    waiting: BTreeSet<Label>,
}

/// A reading that begins with these labels.
fn begun<'t>(alloc: Global, words: BTreeSet<Label>) -> Round<'t>
    ensures on_way { (said : Said) → IsOnWay said (words_of words.keys) 0 result.found (labels_of result.waiting.keys) }
    ensures read { AllRead result.found.looked }
    ensures fresh { result.found.fresh.items ≡ [] }
{
    Round {
        found: Found {
            looked: BTreeMap::new(alloc),
            fresh: Vec::new(alloc),
            count: 0,
            size: 0,
        },
        waiting: words,
    }
}

/// The round that comes next, or the end of the reading.
#[derive(Drop)]
enum Turn<'t> {
    Next(Round<'t>),
    End(Found<'t>),
}

/// The turn after all waiting labels were looked up: no further round unless one of them has a file.
fn turned<'t, R: Threads + Wait + Sync>(
    rt: &R,
    alloc: Global,
    parsing: Parsing<'_, 't>,
    found: Found<'t>,
) -> Result<Turn<'t>, AllocError>
    requires known { AreKnown parsing.known }
    ensures { IfOk result (λ turn. AllRead found.entry.looked → Turns found.entry turn) }
{
    if found.fresh.is_empty() {
        return Ok(Turn::End(found));
    }
    let parses = parsed_all(rt, alloc, parsing, found.fresh.as_slice())?;
    let (found, waiting) = settled(alloc, found, parses)?;
    Ok(Turn::Next(Round { found, waiting }))
}

/// Looks up the labels of a round, and goes on to the next.
fn next_turn<'t, R: Threads + Wait + Sync, F: Repo>(
    rt: &R,
    alloc: Global,
    folder: &mut F,
    parsing: Parsing<'_, 't>,
    round: Round<'t>,
) -> Result<Turn<'t>, ReadError>
    requires known { AreKnown parsing.known }
    ensures turns { IfOk result (TurnsTo (F.says folder.old) round.entry) }
    ensures refused { IfErr result
        (FailsAmong (F.says folder.old) round.entry.found (labels_of round.entry.waiting.keys)) }
    ensures same { F.says folder.new ≡ F.says folder.old }
    ensures failed { F.failed folder.new ≡ F.failed folder.old + reads_failed result }
{
    let Round { found, waiting } = round;
    match read_round(alloc, folder, found, waiting) {
        Ok(found) => match turned(rt, alloc, parsing, found) {
            Ok(turn) => Ok(turn),
            Err(_) => Err(ReadError::Memory),
        },
        Err(error) => Err(error),
    }
}

/// The files that these labels reach in a folder. Each label is looked up once, when it is met: first these, and in
/// each further round those that the files of the round before load. A round looks up its labels in their order. The
/// texts of a round are then parsed, and their trees are kept with the others.
///
/// It stops at the first label, by its round and its bytes, whose file does not pass: `BadFile`, it cannot be read;
/// `TooMany`, it is the 10,001st; `TooLong`, it has more than 1,048,576 bytes; `NotText`, it is not UTF-8; `TooBig`,
/// the texts so far have more than 268,435,456 bytes.
pub fn read_reached<'t, R: Threads + Wait + Sync, F: Repo>(
    rt: &R,
    alloc: Global,
    folder: &mut F,
    parsing: Parsing<'_, 't>,
    words: BTreeSet<Label>,
) -> Result<Reached<'t>, ReadError>
    requires known { AreKnown parsing.known }
    ensures files { IfOk result (λ r. AreFilesBy (F.says folder.old) (words_of words.keys) r.files) }
    ensures parsed { IfOk result (λ r. AreFilesParsed r.files r.parses.items) }
    ensures refused { IfErr result (Says (F.says folder.old) (words_of words.keys)) }
    ensures same { F.says folder.new ≡ F.says folder.old }
    ensures failed { F.failed folder.new ≡ F.failed folder.old + reads_failed result }
{
    let mut round = begun(alloc, words);
    'rounds: loop {
        match next_turn(rt, alloc, folder, parsing, round) {
            Ok(Turn::Next(next)) => round = next,
            Ok(Turn::End(found)) => return Ok(ended(alloc, found)?),
            Err(error) => return Err(error),
        }
    }
}
