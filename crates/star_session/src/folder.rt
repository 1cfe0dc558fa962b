//! Requests about the files of a folder: those that the last request looked at are known, and are read again only if a
//! request says that they have changed.

ghost use Rattle.std.specs.Prelude.{◌≡◌, ◌≤◌, [], IfErr, IfOk, None, OnErr, OnOk, map, option_map, string_bytes};
ghost use Rattle.serde_json.specs.Data.{Data};
ghost use Rattle.star_label.specs.View.{text_of};
ghost use Rattle.star_memo.specs.Parses.{AreKept};
ghost use Rattle.star_reading.specs.Parsed.{AreParsesOf};
ghost use Rattle.star_bundle.specs.declared.error.ServeError.TheVariants.{Memory};
ghost use Rattle.star_repo.specs.Parsed.{AreKnown};
ghost use Rattle.star_repo.specs.declared.error.RepoError.TheVariants as why;
ghost use Rattle.star_session.specs.Changes.{change_of};
ghost use Rattle.star_session.specs.Folders as spec;
ghost use Rattle.star_session.specs.Answers.{IsRefusal};
ghost use Rattle.star_session.specs.Folders.{AnswersBy, AnswersSeen, AreLookedAt, IsKnown, IsUnseen, told};
ghost use Rattle.star_session.specs.Kept.{IsStanding};
ghost use Rattle.star_session.specs.Requests.{IsIdText, asked_by, question_of};

use crate::answer::answered;
use crate::changes::copy_of;
use crate::question::Question;
use crate::refusal::refusal;
use crate::request::Request;
use crate::standing::{KeptValues, Standing};
use crate::weight::{Limits, ballast_for};
use star_bundle::error::ServeError;
use star_folder::folder::FolderError;
use star_label::files::Files;
use star_label::label::Label;
use star_memo::parses::Parses;
use star_outcome::memory::{Ballast, Size};
use star_reading::parses::Parsed;
use star_reading::reading::Trees;
use star_repo::asked::read_asked;
use star_repo::error::RepoError;
use star_repo::known::Known;
use star_repo::mark::front_of;
use star_repo::parse::Parsing;
use star_repo::repo::Repo;
use std::alloc::{AllocError, Global};
use std::collections::BTreeMap;
use std::sync::Wait;
use std::thread::Threads;
use std::{mem, thread};

/// A folder, and its files that are known.
#[derive(Drop)]
struct KnownRepo<'a, F> {
    folder: F,
    files: &'a Files,
    /// The known files that have changed.
    changes: &'a [(Label, Option<String>)],
}

/// Whether a file has changed.
fn is_changed(changes: &[(Label, Option<String>)], label: &Label) -> bool
    ensures { result ≡ spec.is_changed (text_of label.now) (map change_of changes.now) }
{
    for change in changes {
        if change.0.text() == label.text() {
            return true;
        }
    }
    false
}

/// The text of the file at a label.
fn text_named<'a>(files: &'a Files, label: &Label) -> Option<&'a str>
    ensures { option_map (λ t. t.now) result ≡ spec.text_named (text_of label.now) files.now }
{
    match files.find(label) {
        Some(n) => Some(files.text(n)),
        None => None,
    }
}

/// The text of a file that is known and has not changed.
fn known_text<'a>(
    files: &'a Files,
    changes: &[(Label, Option<String>)],
    label: &Label,
) -> Option<&'a str>
    ensures { option_map (λ t. t.now) result
        ≡ spec.known_at files.now (map change_of changes.now) (text_of label.now) }
{
    if is_changed(changes, label) {
        return None;
    }
    text_named(files, label)
}

impl<'a, F: Repo + Copy> Repo for KnownRepo<'a, F> {
    ghost says = { λ s. told (F.says s.folder) s.files.now (map change_of s.changes.now) };

    ghost failed = { λ s. F.failed s.folder };

    fn find(&mut self, alloc: Global, label: &Label) -> Result<Option<Vec<u8>>, FolderError> {
        match known_text(self.files, self.changes, label) {
            Some(text) => Ok(Some(front_of(alloc, text.as_bytes())?)),
            None => self.folder.find(alloc, label),
        }
    }
}

/// The error of a look that gets no memory.
fn no_memory(_error: AllocError) -> RepoError
    ensures { result ≡ why.Run Memory }
{
    RepoError::Run {
        error: ServeError::Memory,
    }
}

/// The results of parsing files, if there are any.
fn known_parses<'a, 't>(files: &'a Files, parses: &'a [Option<Parsed<'t>>]) -> Option<Known<'a, 't>>
    requires { AreParsesOf files.now parses.now }
    ensures { AreKnown result }
{
    if parses.iter().all(|parse| parse.is_none()) {
        return None;
    }
    Some(Known { files, parses })
}

/// The files that a request reaches, looked at by at most `threads` threads, after these files. A text whose parse is
/// kept is not parsed again.
fn files_looked_at<'a, H: Threads + Wait + Sync, F: Repo + Copy>(
    rt: &H,
    alloc: Global,
    folder: &F,
    before: &'a Files,
    kept: &'a Parses,
    request: &'a Request,
    threads: usize,
) -> Result<Files, RepoError>
    requires { AreKept before.now kept.now.all.items }
    ensures looked { IfOk result (AreLookedAt (F.says folder.now) before.now (asked_by request.now)) }
    ensures refused { IfErr result (IsUnseen (F.says folder.now) before.now (asked_by request.now)) }
{
    let trees = Trees::new(alloc).map_err(no_memory)?;
    let parses = kept.views(alloc, before).map_err(no_memory)?;
    let mut looked = KnownRepo {
        folder: *folder,
        files: before,
        changes: request.changes.as_slice(),
    };
    let parsing = Parsing {
        trees: &trees.all,
        known: known_parses(before, parses.as_slice()),
        threads,
    };
    let reached = read_asked(
        rt,
        alloc,
        &mut looked,
        parsing,
        request.question.roots.as_slice(),
        request.question.prelude.as_ref(),
    )?;
    Ok(reached.files)
}

/// As `files_looked_at`, by a thread of its own, which ends. The answer also has that thread's ballast, of this size.
fn looked_apart<H: Threads + Wait + Sync, F: Repo + Copy + Sync>(
    rt: &H,
    alloc: Global,
    folder: &F,
    before: &Files,
    kept: &Parses,
    request: &Request,
    size: Size,
) -> (Result<Files, RepoError>, Option<Ballast>)
    requires { AreKept before.now kept.now.all.items }
    ensures looked { IfOk result.0 (AreLookedAt (F.says folder.now) before.now (asked_by request.now)) }
    ensures refused { IfErr result.0 (IsUnseen (F.says folder.now) before.now (asked_by request.now)) }
{
    let mut apart = || -> (Result<Files, RepoError>, Option<Ballast>)
        requires { AreKept before.now kept.now.all.items }
        ensures looked { IfOk result.0
            (AreLookedAt (F.says folder.entry.now) before.entry.now (asked_by request.entry.now)) }
        ensures refused { IfErr result.0
            (IsUnseen (F.says folder.entry.now) before.entry.now (asked_by request.entry.now)) }
    {
        let ballast = Ballast::new(alloc, size).ok();
        let files = files_looked_at(rt, alloc, folder, before, kept, request, 1);
        (files, ballast)
    };
    let (looked, ()) = thread::join_mut(rt, &mut apart, &mut || ());
    looked
}

/// As `files_looked_at`. If memory counts more than time, one thread of its own looks, and all that it has made is
/// freed: the answer is a copy of its files.
fn looked_at<H: Threads + Wait + Sync, F: Repo + Copy + Sync>(
    rt: &H,
    alloc: Global,
    folder: &F,
    before: &Standing<'_>,
    request: &Request,
    limits: Limits,
) -> Result<Files, RepoError>
    requires { IsStanding before.now }
    ensures looked { IfOk result (AreLookedAt (F.says folder.now) before.now.files (asked_by request.now)) }
    ensures refused { IfErr result (IsUnseen (F.says folder.now) before.now.files (asked_by request.now)) }
{
    let (files, kept) = (&before.files, &before.kept.parses);
    let Some(size) = ballast_for(files, before.kept.spent, limits) else {
        return files_looked_at(rt, alloc, folder, files, kept, request, limits.loaders);
    };
    let (looked, ballast) = looked_apart(rt, alloc, folder, files, kept, request, size);
    let files = looked?;
    let Some(copy) = copy_of(alloc, &files) else {
        return Ok(files);
    };
    thread::join(rt, move || drop(files), || ());
    // All that the thread has made is freed, so its ballast goes.
    drop(ballast);
    Ok(copy)
}

/// Looks at the files that a request reaches. Files that were known before and are not among these are not known any
/// more. If a file is refused, or a root or the prelude is not a label, none are known.
fn look<H: Threads + Wait + Sync, F: Repo + Copy + Sync>(
    rt: &H,
    alloc: Global,
    folder: &F,
    standing: &mut Standing<'_>,
    request: &Request,
    limits: Limits,
    empty: Files,
) -> Result<(), RepoError>
    requires standing { IsStanding standing.old }
    requires loaders { 1 ≤ limits.loaders }
    requires empty { empty ≡ [] }
    ensures standing { IsStanding standing.new }
    ensures looked { OnOk result (AreLookedAt (F.says folder.now) standing.old.files (asked_by request.now)
        standing.new.files) }
    ensures none { OnErr result (standing.new.files ≡ []) }
    ensures refused { IfErr result (IsUnseen (F.says folder.now) standing.old.files (asked_by request.now)) }
{
    let kept = KeptValues::new(alloc, standing.kept.seed);
    let empty = Standing::new(alloc, empty, kept, standing.arena);
    let before = mem::replace(standing, empty);
    let files = match looked_at(rt, alloc, folder, &before, request, limits) {
        Ok(files) => files,
        Err(error) => return Err(error),
    };
    match before.with_files(rt, alloc, files, limits.loaders) {
        Ok(after) => {
            *standing = after;
            Ok(())
        }
        Err(error) => Err(no_memory(error)),
    }
}

/// The text of a reason.
fn text_for(alloc: Global, error: &RepoError) -> Result<String, AllocError>
    ensures { IfOk result (λ text. string_bytes text ≡ spec.text_for error.now) }
{
    match error {
        RepoError::File { label, error } => {
            let why = error.text();
            let label = label.text();
            format!(in alloc; "{why}: {label}")
        }
        RepoError::Run { error } => String::from_str(alloc, error.text()),
    }
}

/// The refusal of a request whose files were not read.
fn unseen(alloc: Global, id: &str, error: &RepoError) -> Result<Vec<u8>, AllocError>
    ensures { IfOk result (λ line. (d : Data) → IsIdText d id.now
        → IsRefusal d (spec.text_for error.now) line.items) }
{
    let text = text_for(alloc, error)?;
    refusal(alloc, id, text.as_str())
}

/// The answer to a question about the files that were looked at.
fn seen<H: Threads + Wait + Sync>(
    rt: &H,
    alloc: Global,
    standing: &mut Standing<'_>,
    id: &str,
    question: Question,
    limits: Limits,
) -> Result<Vec<u8>, AllocError>
    requires standing { IsStanding standing.old }
    requires loaders { (1 ≤ limits.loaders) × (limits.loaders ≤ 64) }
    requires steps { (1 ≤ question.mode.steps) × (question.mode.steps ≤ 100000000) }
    ensures standing { IsStanding standing.new }
    ensures answered { IfOk result (λ line.
        AnswersSeen id.now (question_of question) standing.old.files standing.new.files line.items) }
    ensures same { IfErr result (λ _. standing.new.files ≡ standing.old.files) }
{
    let request = Request {
        changes: Vec::new(alloc),
        question,
    };
    match answered(rt, alloc, standing, id, request, limits) {
        Ok(line) => Ok(line),
        Err(error) => refusal(alloc, id, error.text()),
    }
}

/// The answer to a request about the files of a folder. Files that the request before looked at are not read again,
/// unless this request says that they have changed. The error: memory ran out.
pub(crate) fn answered_from<H: Threads + Wait + Sync, F: Repo + Copy + Sync>(
    rt: &H,
    alloc: Global,
    folder: &F,
    standing: &mut Standing<'_>,
    id: &str,
    request: Request,
    limits: Limits,
) -> Result<Vec<u8>, AllocError>
    requires steps { (1 ≤ request.question.mode.steps) × (request.question.mode.steps ≤ 100000000) }
    requires standing { IsStanding standing.old }
    requires loaders { (1 ≤ limits.loaders) × (limits.loaders ≤ 64) }
    ensures standing { IsStanding standing.new }
    ensures answered { IfOk result (λ line. AnswersBy (F.says folder.now) id.now (asked_by request)
        standing.old.files standing.new.files line.items) }
    ensures known { IfErr result (λ _.
        IsKnown (F.says folder.now) standing.old.files (asked_by request) standing.new.files) }
{
    let Ok(empty) = Files::new(alloc, BTreeMap::new(alloc)) else {
        return Err(AllocError);
    };
    match look(rt, alloc, folder, standing, &request, limits, empty) {
        Ok(()) => seen(rt, alloc, standing, id, request.question, limits),
        Err(error) => unseen(alloc, id, &error),
    }
}
