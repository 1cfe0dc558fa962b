//! The files as the requests so far leave them, and the values that are kept for them.

ghost use Rattle.std.specs.Prelude.{◌≡◌, ◌<◌, ◌≤◌, [], true, List, IfOk, IfSome, OnOk, length, map};
ghost use Rattle.star_label.specs.Files.{File};
ghost use Rattle.star_memo.specs.Compared.{AreSame};
ghost use Rattle.star_memo.specs.Lasting.{AreEndsNow};
ghost use Rattle.star_memo.specs.Outcomes.{AreAlike, AreOutcomes};
ghost use Rattle.star_memo.specs.Parses.{AreKept};
ghost use Rattle.star_memo.specs.Readings.{AreKnown, AreReadings};
ghost use Rattle.star_session.specs.Changes as spec;
ghost use Rattle.star_session.specs.Answers.{IsReportOf};
ghost use Rattle.star_session.specs.Changes.{change_of};
ghost use Rattle.star_session.specs.Kept.{AreKeptFor, IsStanding};
ghost use Rattle.star_session.specs.Requests.{asked_by, question_of};

use crate::changes::are_as;
use crate::question::Question;
use crate::request::Request;
use crate::weight::{Limits, Spent, are_trees_large, ballast_for, texts_kept};
use star_dialect::{Dialect, Language, Mode};
use star_label::files::Files;
use star_memo::compared::{Compared, same_texts};
use star_memo::lasting::Change;
use star_memo::outcomes::{Outcomes, Terms, free_ends};
use star_memo::parses::Parses;
use star_memo::readings::{Arena, Readings};
use star_outcome::good_end::GoodEnd;
use star_outcome::memory::{Ballast, Size};
use std::alloc::{AllocError, Global};
use std::mem;
use std::sync::Wait;
use std::thread::Threads;

/// A report without its line end, and the question that it answers.
#[derive(Drop)]
pub(crate) struct Last {
    pub question: Question,
    pub report: Vec<u8>,
}

/// The values that are kept for files from one request to the next.
pub(crate) struct KeptValues {
    /// The results of parsing their texts.
    pub parses: Parses,
    /// The outcomes of the files that ended well.
    pub outcomes: Outcomes,
    /// The last report that was made of these files.
    pub last: Option<Last>,
    /// What the runs for the last report took.
    pub spent: Spent,
    /// The ballast of each loader, if memory counts more than time.
    pub ballast: Option<Size>,
    /// The ballasts of the loaders that ran files for the last request.
    pub ballasts: Vec<Ballast>,
    /// The ballast of the thread that parsed texts for it.
    pub parser: Option<Ballast>,
    /// The number of requests that were run.
    pub requests: u64,
    /// The seed for the hashes of keys in each run.
    pub seed: u64,
}

impl Drop for KeptValues {
    fn drop(self) {
        let KeptValues {
            parses: _,
            outcomes: _,
            last: _,
            spent: _,
            ballast: _,
            ballasts: _,
            parser: _,
            requests: _,
            seed: _,
        } = self;
    }
}

/// These ballasts, without what may be freed of them now.
fn lightened(alloc: Global, ballasts: Vec<Ballast>) -> Vec<Ballast> {
    let mut ballasts = ballasts;
    for n in 0..ballasts.len() {
        ballasts[n].lighten(alloc);
    }
    ballasts
}

/// The files as the requests so far leave them, and all that is kept for the next request.
#[derive(Drop)]
pub(crate) struct Standing<'t> {
    pub files: Files,
    pub kept: KeptValues,
    /// The results of reading the files. They borrow from the arena.
    pub readings: Readings<'t>,
    pub arena: &'t Arena,
}

/// The kept values that stay when the files change.
#[derive(Drop)]
pub(crate) struct Staying<'t> {
    pub parses: Parses,
    pub outcomes: Outcomes,
    /// The other outcomes of the files before, by the numbers of the files.
    pub former: Vec<Option<GoodEnd>>,
    /// Whether a file has the text that it had before, by its number.
    pub same: Vec<bool>,
    pub readings: Readings<'t>,
    pub arena: &'t Arena,
    /// The seed for the hashes of keys in each run.
    pub seed: u64,
    /// The ballast of each loader, if memory counts more than time.
    pub ballast: Option<Size>,
    /// The ballast of the thread that has parsed texts.
    pub parser: Option<Ballast>,
}

/// No outcomes.
fn no_outcomes(alloc: Global) -> Outcomes
    ensures { result.all.items ≡ [] }
{
    let terms = Terms {
        prelude: None,
        mode: Mode::core(alloc, 1),
    };
    Outcomes::new(alloc, terms)
}

impl KeptValues {
    /// Nothing is kept.
    pub(crate) fn new(alloc: Global, seed: u64) -> KeptValues
        ensures { (files : List File) → AreKeptFor files result }
    {
        KeptValues {
            parses: Parses::new(alloc),
            outcomes: no_outcomes(alloc),
            last: None,
            spent: Spent::UNKNOWN,
            ballast: None,
            ballasts: Vec::new(alloc),
            parser: None,
            requests: 0,
            seed,
        }
    }

    /// Frees the ballasts of the last request, but for what stays until those of the next one are there. All that their
    /// threads have made must be freed before, or kept.
    pub(crate) fn lighten(&mut self, alloc: Global)
        ensures { (files : List File) → AreKeptFor files self.old → AreKeptFor files self.new }
    {
        let ballasts = mem::replace(&mut self.ballasts, Vec::new(alloc));
        self.ballasts = lightened(alloc, ballasts);
        if let Some(parser) = &mut self.parser {
            parser.lighten(alloc);
        }
    }
}

impl Staying<'_> {
    /// Adds the ends that last though files that they need have changed. They are stale. The error: an allocation
    /// failed.
    pub(crate) fn add_lasting<H: Wait>(
        &mut self,
        rt: &H,
        alloc: Global,
        before: &Files,
        files: &Files,
    ) -> Result<(), AllocError>
        requires alike { AreAlike before.now files.now self.old.outcomes.terms.prelude }
        requires former { let terms = self.old.outcomes.terms in
            AreOutcomes before.now terms.prelude terms.mode self.old.former.items }
        requires outcomes { let terms = self.old.outcomes.terms in
            AreOutcomes files.now terms.prelude terms.mode self.old.outcomes.all.items }
        requires reads { let terms = self.old.outcomes.terms in
            AreKnown files.now terms.prelude terms.mode.language self.old.readings.reads.all.items }
        requires same { AreSame before.now files.now self.old.same.items }
        ensures ends { let terms = self.old.outcomes.terms in OnOk result
            (AreEndsNow files.now terms.prelude terms.mode self.new.outcomes.all.items) }
        ensures terms { self.new.outcomes.terms ≡ self.old.outcomes.terms }
        ensures parses { self.new.parses ≡ self.old.parses }
        ensures readings { self.new.readings ≡ self.old.readings }
    {
        let compared = Compared::new(before, files, self.same.as_slice());
        let change = Change {
            compared: &compared,
            former: self.former.as_slice(),
            ends: self.outcomes.all.as_slice(),
            reads: self.readings.reads.all.as_slice(),
            terms: &self.outcomes.terms,
        };
        let marks = change.lasting(rt, alloc)?;
        self.outcomes.add_lasting(&mut self.former, &marks);
        Ok(())
    }
}

impl<'t> Standing<'t> {
    /// These files, with the values that are kept for them. None is read yet.
    pub(crate) fn new(
        alloc: Global,
        files: Files,
        kept: KeptValues,
        arena: &'t Arena,
    ) -> Standing<'t>
        requires { AreKeptFor files kept }
        ensures files { result.files ≡ files }
        ensures standing { IsStanding result }
    {
        // None is there, so none stays under another language.
        let none = Language::of(alloc, Dialect::Core);
        let readings = Readings::new(alloc, kept.outcomes.terms.prelude, none);
        Standing {
            files,
            kept,
            readings,
            arena,
        }
    }

    /// An arena to take the place of this one, if this one is full: as many bytes of texts may have trees as may be
    /// kept, but none if all trees may take more memory. None if there is no memory for another one.
    pub(crate) fn next_arena(&self, alloc: Global, limits: Limits) -> Option<Arena> {
        let large = are_trees_large(&self.files, limits);
        let keep = if large { 0 } else { limits.keep };
        if !self.arena.is_full(&self.files, &self.kept.parses, keep) {
            return None;
        }
        Arena::new(alloc).ok()
    }

    /// The files and the values that are kept for them. The readings are freed.
    pub(crate) fn lasting<H: Threads>(self, rt: &H) -> (Files, KeptValues)
        requires { IsStanding self }
        ensures files { result.0 ≡ self.entry.files }
        ensures kept { AreKeptFor result.0 result.1 }
    {
        let Standing {
            files,
            kept,
            readings,
            ..
        } = self;
        readings.free_apart(rt);
        (files, kept)
    }

    /// Whether a request leaves the files as they are, and asks the question that this report answers.
    fn is_answered_by(&self, last: &Last, request: &Request) -> bool
        ensures same { result ≡ true
            → spec.files_after self.now.files (map change_of request.now.changes.items) ≡ self.now.files }
        ensures question { result ≡ true
            → question_of last.now.question ≡ question_of request.now.question }
    {
        last.question.is_same(&request.question) && are_as(&self.files, request.changes.as_slice())
    }

    /// The last report, if a request leaves the files as they are and asks the same question.
    #[tactic(auto, using(crate::proofs::Limits::asked_again))]
    pub(crate) fn report_for(&self, request: &Request) -> Option<&[u8]>
        requires { IsStanding self.now }
        ensures same { IfSome result (λ _.
            spec.files_after self.now.files (map change_of request.now.changes.items) ≡ self.now.files) }
        ensures report { IfSome result (λ report. IsReportOf self.now.files (asked_by request.now) report.now) }
    {
        let Some(last) = &self.kept.last else {
            return None;
        };
        if !self.is_answered_by(last, request) {
            return None;
        }
        Some(last.report.as_slice())
    }

    /// Notes the ballast of each loader. If memory counts more than time, the last report goes.
    fn set_ballast(&mut self, ballast: Option<Size>)
        requires { IsStanding self.old }
        ensures files { self.new.files ≡ self.old.files }
        ensures standing { IsStanding self.new }
    {
        self.kept.ballast = ballast;
        if ballast.is_some() {
            self.kept.last = None;
        }
    }

    /// The kept values that stay if these files take the place of the files before, under these terms. The outcomes and
    /// the readings are taken out of `self`. There is a ballast if memory counts more than time. The error: an
    /// allocation failed.
    pub(crate) fn staying<H: Threads + Wait + Sync>(
        &mut self,
        rt: &H,
        alloc: Global,
        files: &Files,
        terms: Terms,
        threads: usize,
        ballast: Option<Size>,
    ) -> Result<Staying<'t>, AllocError>
        requires standing { IsStanding self.old }
        requires threads { 1 ≤ threads }
        ensures files { self.new.files ≡ self.old.files }
        ensures standing { IsStanding self.new }
        ensures parses { IfOk result (λ s. AreKept files.now s.parses.all.items) }
        ensures terms { IfOk result (λ s. s.outcomes.terms ≡ terms) }
        ensures outcomes { IfOk result (λ s. AreOutcomes files.now terms.prelude terms.mode s.outcomes.all.items) }
        ensures former { IfOk result (λ s. AreOutcomes self.old.files terms.prelude terms.mode s.former.items) }
        ensures alike { IfOk result (λ s.
            0 < length s.former.items → AreAlike self.old.files files.now terms.prelude) }
        ensures prelude { IfOk result (λ s. s.readings.prelude ≡ terms.prelude) }
        ensures language { IfOk result (λ s. s.readings.language ≡ terms.mode.language) }
        ensures readings { IfOk result (λ s. AreReadings files.now s.readings) }
        ensures same { IfOk result (λ s. AreSame self.old.files files.now s.same.items) }
    {
        let same = same_texts(alloc, &self.files, files)?;
        let compared = Compared::new(&self.files, files, same.as_slice());
        let parses = self.kept.parses.after(alloc, &compared)?;
        // The trees of texts that have changed go now, unless the arena shares them.
        self.kept.parses = Parses::new(alloc);
        let language = terms.mode.language.share(alloc)?;
        let none = Readings::new(alloc, terms.prelude, terms.mode.language.share(alloc)?);
        let gone = Outcomes::new(alloc, terms.share(alloc)?);
        let prelude = terms.prelude;
        let before = mem::replace(&mut self.kept.outcomes, gone);
        let (outcomes, former) = before.after(rt, alloc, &compared, terms, threads)?;
        let before = mem::replace(&mut self.readings, none);
        let readings = before.after(alloc, &compared, prelude, language);
        self.set_ballast(ballast);
        Ok(Staying {
            parses,
            outcomes,
            former,
            same,
            readings,
            arena: self.arena,
            seed: self.kept.seed,
            ballast,
            parser: None,
        })
    }

    /// These files in the place of the files before, with the kept values that stay. The error: an allocation failed.
    pub(crate) fn with_files<H: Threads + Wait + Sync>(
        self,
        rt: &H,
        alloc: Global,
        files: Files,
        threads: usize,
    ) -> Result<Standing<'t>, AllocError>
        requires standing { IsStanding self }
        requires threads { 1 ≤ threads }
        ensures files { IfOk result (λ s. s.files ≡ files) }
        ensures standing { IfOk result IsStanding }
    {
        let mut before = self;
        let terms = before.kept.outcomes.terms.share(alloc)?;
        let ballast = before.kept.ballast;
        let staying = before.staying(rt, alloc, &files, terms, threads, ballast)?;
        free_ends(rt, alloc, staying.former, threads);
        let ballasts = mem::replace(&mut before.kept.ballasts, Vec::new(alloc));
        let parser = before.kept.parser.take();
        Ok(Standing {
            files,
            kept: KeptValues {
                parses: staying.parses,
                outcomes: staying.outcomes,
                last: None,
                spent: before.kept.spent,
                ballast: before.kept.ballast,
                ballasts,
                parser,
                requests: before.kept.requests,
                seed: before.kept.seed,
            },
            readings: staying.readings,
            arena: before.arena,
        })
    }

    /// Records which files a request reached. If the trees of others may take more memory than may be kept, those go
    /// that no request has reached for the longest time. If memory counts more than time, all trees and outcomes go.
    pub(crate) fn trim<H: Threads>(
        &mut self,
        rt: &H,
        alloc: Global,
        reached: &[usize],
        limits: Limits,
    )
        requires { IsStanding self.old }
        ensures files { self.new.files ≡ self.old.files }
        ensures standing { IsStanding self.new }
    {
        self.kept.requests = self.kept.requests.saturating_add(1);
        self.kept.parses.touch_each(reached, self.kept.requests);
        let frugal = ballast_for(&self.files, self.kept.spent, limits).is_some();
        let keep = if frugal { 0 } else { limits.keep };
        let texts = texts_kept(&self.files, reached, keep);
        self.kept.parses.trim(alloc, &self.files, texts);
        if frugal {
            mem::replace(&mut self.kept.outcomes, no_outcomes(alloc)).free_apart(rt);
        }
    }

    /// As `KeptValues::lighten`.
    pub(crate) fn lighten(&mut self, alloc: Global)
        requires { IsStanding self.old }
        ensures files { self.new.files ≡ self.old.files }
        ensures standing { IsStanding self.new }
    {
        let ballasts = mem::replace(&mut self.kept.ballasts, Vec::new(alloc));
        self.kept.ballasts = lightened(alloc, ballasts);
        if let Some(parser) = &mut self.kept.parser {
            parser.lighten(alloc);
        }
    }
}
