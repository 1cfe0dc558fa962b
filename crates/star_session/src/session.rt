//! Requests on a stream of lines, one answer a line.

ghost use Rattle.std.specs.Prelude.{◌≡◌, ◌≢◌, ◌+◌, ◌≤◌, IfErr, IfOk, IfSome, MatchResult, OnOk, codes, is_some, string_bytes};
ghost use Rattle.serde_json.specs.Data.{null, string};
ghost use Rattle.serde_json.specs.View.{view};
ghost use Rattle.serde_json.specs.Written.{compact_text};
ghost use Rattle.star_bundle.specs.Refusal.{reads_failed, writes_failed};
ghost use Rattle.star_session.specs.Answers.{AnswersPiece, AnswersValue, IsRefusal, answer_line, no_memory_line};
ghost use Rattle.star_session.specs.Folders.{AnswersIn, AnswersRequestIn, AnswersSent, LosesRequestIn};
ghost use Rattle.star_session.specs.Kept.{AreKeptFor, IsStanding};
ghost use Rattle.star_session.specs.Lines.{IsCut};
ghost use Rattle.star_session.specs.Requests.{IsIdText, line_too_long, text_of};
ghost use Rattle.star_session.specs.Session.{IsGenerationOf, IsSession, IsStepOf};
ghost use Rattle.star_session.specs.declared.request.RequestError.TheVariants as why;

use crate::answer::answered;
use crate::folder::answered_from;
use crate::lines::{Line, Lines};
use crate::refusal::{NO_MEMORY, refusal};
use crate::request::{Defaults, Origin, Request, RequestError, id_text, request_in, value_in};
use crate::standing::{KeptValues, Standing};
use crate::weight::Limits;
use serde_json::Value;
use star_bundle::error::ServeError;
use star_label::error::LabelError;
use star_label::files::Files;
use star_memo::readings::Arena;
use star_outcome::memory::{Ballast, Size};
use star_repo::repo::Repo;
use star_serve::stream::{Sink, Source};
use std::alloc::{AllocError, Global};
use std::collections::BTreeMap;
use std::sync::Wait;
use std::thread::Threads;

/// How requests are answered.
#[derive(Debug, Drop)]
pub struct Settings {
    /// How many loaders run, from 1 to 64.
    pub loaders: usize,
    /// The seed for the hashes of keys. No answer depends on it.
    pub seed: u64,
    /// How much memory a session may take beyond that of its largest request, in bytes (`docs/REQUESTS.md`).
    pub keep: usize,
    /// The defaults of a request, for members that it lacks.
    pub defaults: Defaults,
}

impl Settings {
    /// The limits of each request.
    fn limits(&self) -> Limits
        ensures loaders { result.loaders ≡ self.now.loaders }
        ensures keep { result.keep ≡ self.now.keep }
    {
        Limits {
            loaders: self.loaders,
            keep: self.keep,
            folder: self.defaults.origin == Origin::Folder,
        }
    }
}

/// The refusal of a line that is not a request.
fn misread(alloc: Global, id: &str, error: &RequestError) -> Result<Vec<u8>, AllocError>
    ensures known { IfOk result (λ _. error.now ≢ why.Memory) }
    ensures line { IfOk result (λ line. line.items
        ≡ answer_line id.now (codes "refused") (compact_text (string (text_of error.now)))) }
{
    if error.is_memory() {
        return Err(AllocError);
    }
    let text = error.text(alloc)?;
    refusal(alloc, id, text.as_str())
}

/// The answer to a request that sends files.
fn answer_sent<H: Threads + Wait + Sync>(
    rt: &H,
    alloc: Global,
    standing: &mut Standing<'_>,
    id: &str,
    request: Request,
    settings: &Settings,
) -> Result<Vec<u8>, AllocError>
    requires standing { IsStanding standing.old }
    requires loaders { (1 ≤ settings.now.loaders) × (settings.now.loaders ≤ 64) }
    requires steps { (1 ≤ request.question.mode.steps) × (request.question.mode.steps ≤ 100000000) }
    ensures standing { IsStanding standing.new }
    ensures answered { IfOk result (λ line. AnswersSent settings.now.defaults id.now request
        standing.old.files standing.new.files line.items) }
    ensures same { IfErr result (λ _. standing.new.files ≡ standing.old.files) }
{
    match answered(rt, alloc, standing, id, request, settings.limits()) {
        Ok(line) => Ok(line),
        Err(error) => refusal(alloc, id, error.text()),
    }
}

/// The answer to a request, by where the files come from.
fn answer_request<H: Threads + Wait + Sync, F: Repo + Copy + Sync>(
    rt: &H,
    alloc: Global,
    folder: &F,
    standing: &mut Standing<'_>,
    settings: &Settings,
    id: &str,
    request: Request,
) -> Result<Vec<u8>, AllocError>
    requires standing { IsStanding standing.old }
    requires loaders { (1 ≤ settings.now.loaders) × (settings.now.loaders ≤ 64) }
    requires steps { (1 ≤ request.question.mode.steps) × (request.question.mode.steps ≤ 100000000) }
    ensures standing { IsStanding standing.new }
    ensures answered { IfOk result (λ line. AnswersRequestIn (F.says folder.now) settings.now.defaults id.now request
        standing.old.files standing.new.files line.items) }
    ensures lost { IfErr result (λ _. LosesRequestIn (F.says folder.now) settings.now.defaults request
        standing.old.files standing.new.files) }
{
    match settings.defaults.origin {
        Origin::Sent => answer_sent(rt, alloc, standing, id, request, settings),
        Origin::Folder => {
            answered_from(rt, alloc, folder, standing, id, request, settings.limits())
        }
    }
}

/// The answer to the value that a line is.
fn answer_value<H: Threads + Wait + Sync, F: Repo + Copy + Sync>(
    rt: &H,
    alloc: Global,
    folder: &F,
    standing: &mut Standing<'_>,
    settings: &Settings,
    value: Value,
) -> Result<Vec<u8>, AllocError>
    requires standing { IsStanding standing.old }
    requires loaders { (1 ≤ settings.now.loaders) × (settings.now.loaders ≤ 64) }
    requires steps { (1 ≤ settings.now.defaults.mode.steps) × (settings.now.defaults.mode.steps ≤ 100000000) }
    ensures standing { IsStanding standing.new }
    ensures answered { IfOk result (λ line. AnswersValue (AnswersIn (F.says folder.now) settings.now) (view value)
        standing.old.files standing.new.files line.items) }
    ensures lost { IfErr result (λ _. AnswersValue (AnswersIn (F.says folder.now) settings.now) (view value)
        standing.old.files standing.new.files no_memory_line) }
{
    let id = id_text(alloc, &value)?;
    let request = match request_in(alloc, value, &settings.defaults) {
        Ok(request) => request,
        Err(error) => return misread(alloc, id.as_str(), &error),
    };
    answer_request(rt, alloc, folder, standing, settings, id.as_str(), request)
}

/// The JSON of the id of a line that has none: null.
fn no_id(alloc: Global) -> Result<String, AllocError>
    ensures { IfOk result (λ s. IsIdText null (string_bytes s)) }
{
    Value::Null.to_string(alloc)
}

/// The refusal of a line that is too long.
fn too_long(alloc: Global) -> Result<Vec<u8>, AllocError>
    ensures { IfOk result (λ line. IsRefusal null line_too_long line.items) }
{
    let id = no_id(alloc)?;
    refusal(alloc, id.as_str(), "line too long")
}

/// The refusal of a line that is not JSON.
fn misread_line(alloc: Global, error: &RequestError) -> Result<Vec<u8>, AllocError>
    ensures known { IfOk result (λ _. error.now ≢ why.Memory) }
    ensures line { IfOk result (λ line. IsRefusal null (text_of error.now) line.items) }
{
    let id = no_id(alloc)?;
    misread(alloc, id.as_str(), error)
}

/// The answer to a line with these bytes.
fn answer<H: Threads + Wait + Sync, F: Repo + Copy + Sync>(
    rt: &H,
    alloc: Global,
    folder: &F,
    standing: &mut Standing<'_>,
    settings: &Settings,
    line: Line,
    bytes: &[u8],
) -> Result<Vec<u8>, AllocError>
    requires standing { IsStanding standing.old }
    requires loaders { (1 ≤ settings.now.loaders) × (settings.now.loaders ≤ 64) }
    requires steps { (1 ≤ settings.now.defaults.mode.steps) × (settings.now.defaults.mode.steps ≤ 100000000) }
    ensures standing { IsStanding standing.new }
    ensures answered { IfOk result (λ answer. AnswersPiece (AnswersIn (F.says folder.now) settings.now) line bytes.now
        standing.old.files standing.new.files answer.items) }
    ensures lost { IfErr result (λ _. AnswersPiece (AnswersIn (F.says folder.now) settings.now) line bytes.now
        standing.old.files standing.new.files no_memory_line) }
{
    match line {
        Line::Ready => match value_in(alloc, bytes) {
            Ok(value) => answer_value(rt, alloc, folder, standing, settings, value),
            Err(error) => misread_line(alloc, &error),
        },
        Line::TooLong => too_long(alloc),
        Line::Lost => Err(AllocError),
    }
}

/// The bytes of an answer, or of the line for want of memory if there is no answer.
fn said(answer: &Result<Vec<u8>, AllocError>) -> &[u8]
    ensures { MatchResult answer.now (λ line. result.now ≡ line.items) (λ _. result.now ≡ no_memory_line) }
{
    match answer {
        Ok(line) => line.as_slice(),
        Err(_) => NO_MEMORY.as_bytes(),
    }
}

/// The state of a session: the files with the values that are kept for them, and the lines that were read.
#[derive(Drop)]
struct Session<'t> {
    standing: Standing<'t>,
    lines: Lines,
}

/// The state of a session as a generation of readings begins: none of them is there yet, and nothing borrows from the
/// arena.
#[derive(Drop)]
struct Begin {
    files: Files,
    kept: KeptValues,
    lines: Lines,
    arena: Arena,
}

impl Session<'_> {
    /// The state as the next generation begins, over this arena. The readings of this generation are freed.
    fn begin<H: Threads>(self, rt: &H, arena: Arena) -> Begin
        requires { IsStanding self.standing }
        ensures files { result.files ≡ self.entry.standing.files }
        ensures kept { AreKeptFor result.files result.kept }
        ensures lines { result.lines ≡ self.entry.lines }
    {
        let Session { standing, lines } = self;
        let (files, kept) = standing.lasting(rt);
        Begin {
            files,
            kept,
            lines,
            arena,
        }
    }
}

/// Writes the answer to the next line. It answers whether more lines may come.
fn next_answer<H: Threads + Wait + Sync, F: Repo + Copy + Sync, R: Source, W: Sink>(
    rt: &H,
    alloc: Global,
    folder: &F,
    session: &mut Session<'_>,
    settings: &Settings,
    reader: &mut R,
    writer: &mut W,
) -> Result<bool, ServeError>
    requires standing { IsStanding session.old.standing }
    requires cut { IsCut session.old.lines }
    requires loaders { (1 ≤ settings.now.loaders) × (settings.now.loaders ≤ 64) }
    requires steps { (1 ≤ settings.now.defaults.mode.steps) × (settings.now.defaults.mode.steps ≤ 100000000) }
    ensures standing { IsStanding session.new.standing }
    ensures cut { OnOk result (IsCut session.new.lines) }
    ensures step { IfOk result (IsStepOf R.said W.taken (AnswersIn (F.says folder.now) settings.now)
        reader.old reader.new writer.old writer.new session.old session.new) }
    ensures reads { R.failed reader.new ≡ R.failed reader.old + reads_failed result }
    ensures writes { W.failed writer.new ≡ W.failed writer.old + writes_failed result }
{
    let taken = match session.lines.next(rt, alloc, reader) {
        Ok(Some(taken)) => taken,
        Ok(None) => return Ok(false),
        Err(_) => return Err(ServeError::Read),
    };
    let answer = answer(
        rt,
        alloc,
        folder,
        &mut session.standing,
        settings,
        taken.line,
        session.lines.line(),
    );
    match writer.write(said(&answer)) {
        Ok(()) => Ok(!taken.is_last),
        Err(_) => Err(ServeError::Write),
    }
}

/// Writes the answers to the lines of a generation of readings, until the arena is to be freed. It answers the arena of
/// the next generation, or none after the last line. If there is no memory for another arena, the generation goes on.
fn answer_lines<H: Threads + Wait + Sync, F: Repo + Copy + Sync, R: Source, W: Sink>(
    rt: &H,
    alloc: Global,
    folder: &F,
    session: &mut Session<'_>,
    settings: &Settings,
    reader: &mut R,
    writer: &mut W,
) -> Result<Option<Arena>, ServeError>
    requires standing { IsStanding session.old.standing }
    requires cut { IsCut session.old.lines }
    requires loaders { (1 ≤ settings.now.loaders) × (settings.now.loaders ≤ 64) }
    requires steps { (1 ≤ settings.now.defaults.mode.steps) × (settings.now.defaults.mode.steps ≤ 100000000) }
    ensures standing { IsStanding session.new.standing }
    ensures cut { OnOk result (IsCut session.new.lines) }
    // It is long since a step is of the reader, the writer and the session, each before and after.
    ensures step { IfOk result (λ next. IsStepOf R.said W.taken (AnswersIn (F.says folder.now) settings.now)
        reader.old reader.new writer.old writer.new session.old session.new (is_some next)) }
    ensures reads { R.failed reader.new ≡ R.failed reader.old + reads_failed result }
    ensures writes { W.failed writer.new ≡ W.failed writer.old + writes_failed result }
{
    for _ in rt.forever() {
        if !next_answer(rt, alloc, folder, session, settings, reader, writer)? {
            return Ok(None);
        }
        if let Some(arena) = session.standing.next_arena(alloc, settings.limits()) {
            return Ok(Some(arena));
        }
        session.standing.lighten(alloc);
    }
    unreachable!()
}

/// Answers the lines of a generation of readings, and frees these and their arena. It answers the state as the next
/// generation begins, or none after the last line.
fn answer_generation<H: Threads + Wait + Sync, F: Repo + Copy + Sync, R: Source, W: Sink>(
    rt: &H,
    alloc: Global,
    folder: &F,
    begin: Begin,
    settings: &Settings,
    reader: &mut R,
    writer: &mut W,
) -> Result<Option<Begin>, ServeError>
    requires kept { AreKeptFor begin.files begin.kept }
    requires cut { IsCut begin.lines }
    requires loaders { (1 ≤ settings.now.loaders) × (settings.now.loaders ≤ 64) }
    requires steps { (1 ≤ settings.now.defaults.mode.steps) × (settings.now.defaults.mode.steps ≤ 100000000) }
    ensures kept { IfOk result (λ next. IfSome next (λ b. AreKeptFor b.files b.kept)) }
    ensures cut { IfOk result (λ next. IfSome next (λ b. IsCut b.lines)) }
    ensures step { IfOk result (IsGenerationOf R.said W.taken (AnswersIn (F.says folder.now) settings.now)
        reader.old reader.new writer.old writer.new begin) }
    ensures reads { R.failed reader.new ≡ R.failed reader.old + reads_failed result }
    ensures writes { W.failed writer.new ≡ W.failed writer.old + writes_failed result }
{
    let Begin {
        files,
        kept,
        lines,
        arena,
    } = begin;
    let standing = Standing::new(alloc, files, kept, &arena);
    let mut session = Session { standing, lines };
    match answer_lines(rt, alloc, folder, &mut session, settings, reader, writer)? {
        Some(next) => {
            let mut next = session.begin(rt, next);
            arena.free_apart(rt);
            // The trees are freed, and before them all else that the threads have made.
            next.kept.lighten(alloc);
            Ok(Some(next))
        }
        None => Ok(None),
    }
}

/// Answers requests, one a line, each with one line, up to the end of the stream. The files are those that the requests
/// so far leave: none at first. Or they are those of `folder`, by `settings.defaults.origin`. Then a file that the last
/// request looked at is looked at again only if a request says that it has changed.
///
/// `Read` if a read failed, `Write` if a write failed, `Memory` if memory runs out before the first line. A request
/// that is refused changes nothing.
pub fn serve_requests<H: Threads + Wait + Sync, F: Repo + Copy + Sync, R: Source, W: Sink>(
    rt: &H,
    alloc: Global,
    folder: &F,
    reader: &mut R,
    writer: &mut W,
    settings: &Settings,
) -> Result<(), ServeError>
    requires loaders { (1 ≤ settings.now.loaders) × (settings.now.loaders ≤ 64) }
    requires steps { (1 ≤ settings.now.defaults.mode.steps) × (settings.now.defaults.mode.steps ≤ 100000000) }

    // All was read, and the row of answers to its lines was written, and nothing else.
    ensures session { OnOk result (IsSession (AnswersIn (F.says folder.now) settings.now) (R.said reader.old)
        (R.said reader.new) (W.taken writer.old) (W.taken writer.new)) }

    // A read or a write failed exactly if the answer says so.
    ensures reads { R.failed reader.new ≡ R.failed reader.old + reads_failed result }
    ensures writes { W.failed writer.new ≡ W.failed writer.old + writes_failed result }
{
    let files = match Files::new(alloc, BTreeMap::new(alloc)) {
        Ok(files) => files,
        Err(LabelError::Memory) => return Err(ServeError::Memory),
        Err(_) => unreachable!(),
    };
    let mut begin = Begin {
        files,
        kept: KeptValues::new(alloc, settings.seed),
        lines: Lines::new(alloc)?,
        arena: Arena::new(alloc)?,
    };
    if settings.limits().are_small() {
        // Then the first request takes memory as those after it do.
        drop(Ballast::new(alloc, Size::Heap));
    }
    for _ in rt.forever() {
        match answer_generation(rt, alloc, folder, begin, settings, reader, writer)? {
            Some(next) => begin = next,
            None => return Ok(()),
        }
    }
    unreachable!()
}
