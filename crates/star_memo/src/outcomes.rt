//! The outcomes of files that ended well, which are kept from one request to the next.
//!
//! An outcome stays if the labels, the prelude and the mode stay, and the texts of the prelude, of the file itself and
//! of all files that it needs. These are found along the loads, from the files that load nothing.

ghost use Rattle.std.specs.Prelude.{◌≡◌, ◌≢◌, ◌<◌, ◌≤◌, ℕ, [], true, IfOk, IfSome, OnOk, Some, length, slice_get, vec_len};
ghost use Rattle.std.specs.List.{list_all};
ghost use Rattle.star_label.specs.Files.{IsOrdered, text_at};
ghost use Rattle.star_memo.specs.Outcomes.{AreAlike, AreAmong, AreMarkedOf, AreOutcomes, AreStaying, HaveLabels};
ghost use Rattle.star_memo.specs.Outcomes.{IsStaying, is_marked};
ghost use Rattle.star_outcome.specs.declared.good_end.GoodEnd.{GoodEnd as EndView};
ghost use Rattle.star_memo.specs.Readings.{HasPrelude};

use crate::compared::Compared;
use crate::release::{VALUES_FOR_THREADS, free, free_apart};
use star_dialect::Mode;
use star_flow::{Flow, Graph};
use star_outcome::good_end::GoodEnd;
use std::alloc::{AllocError, Global};
use std::sync::Wait;
use std::thread::Threads;

/// The outcomes of files that ended well, by the numbers of the files. None for a file that must run again.
#[derive(Drop)]
pub struct Outcomes {
    pub all: Vec<Option<GoodEnd>>,
    pub terms: Terms,
}

/// The values that the outcomes of files depend on, beside their texts: the number of the prelude, and the mode in which
/// each file runs.
#[derive(Debug, Drop)]
pub struct Terms {
    pub prelude: Option<usize>,
    pub mode: Mode,
}

impl Terms {
    /// The same terms. The error: an allocation failed.
    pub fn share(&self, alloc: Global) -> Result<Terms, AllocError>
        ensures { IfOk result (λ again. again ≡ self.now) }
    {
        Ok(Terms {
            prelude: self.prelude,
            mode: self.mode.share(alloc)?,
        })
    }

    /// Whether these are the same terms.
    pub fn is_same(&self, other: &Terms) -> bool
        ensures equal { result ≡ true → self.now ≡ other.now }
        ensures same { self.now ≡ other.now → result ≡ true }
    {
        self.prelude == other.prelude && self.mode.is_same(&other.mode)
    }
}

/// Whether all files have the same texts before and after the change.
fn have_texts(compared: &Compared<'_>) -> bool
    ensures texts { let c = compared.now in
        result ≡ true → (n : ℕ) → n < length c.files → text_at c.before n ≡ text_at c.files n }
    ensures same { compared.now.before ≡ compared.now.files → result ≡ true }
{
    for n in 0..compared.count() {
        if !compared.has_text(n) {
            return false;
        }
    }
    true
}

/// Whether the prelude, if there is one, has the same text.
pub(crate) fn has_prelude(compared: &Compared<'_>, prelude: Option<usize>) -> bool
    ensures text { let c = compared.now in
        result ≡ true → (q : ℕ) → prelude ≡ Some q → text_at c.before q ≡ text_at c.files q }
    ensures same { let c = compared.now in
        HaveLabels c.before c.files → HasPrelude c.before c.files prelude → result ≡ true }
{
    match prelude {
        Some(n) => compared.has_text(n),
        None => true,
    }
}

/// Whether a number is marked.
pub(crate) fn is_marked(marks: &[bool], n: usize) -> bool
    ensures { result ≡ is_marked marks.now n }
{
    n < marks.len() && marks[n]
}

/// Whether all these numbers are marked.
fn are_marked(marks: &[bool], numbers: &[usize]) -> bool
    ensures { result ≡ list_all (is_marked marks.now) numbers.now }
{
    for n in numbers {
        if !is_marked(marks, *n) {
            return false;
        }
    }
    true
}

/// Adds a file with its loads to a graph. The error: an allocation failed.
pub(crate) fn add_file(graph: &mut Graph, n: usize, loads: &[usize]) -> Result<(), AllocError> {
    graph.add_file(n)?;
    for m in loads {
        graph.add_load(n, *m)?;
    }
    Ok(())
}

/// Takes the end at a place out of a row.
pub(crate) fn take_end(ends: &mut Vec<Option<GoodEnd>>, n: usize) -> Option<GoodEnd>
    requires { n < vec_len ends.old }
    ensures sized { vec_len ends.new ≡ vec_len ends.old }
    ensures taken { IfSome result (λ e. slice_get ends.old.items n ≡ Some (Some e)) }
    ensures gone { (e : EndView) → slice_get ends.new.items n ≢ Some (Some e) }
    ensures left { AreAmong ends.old.items ends.new.items }
{
    ends[n].take()
}

/// Takes the end at a place out of a row, unless the place is marked.
fn take_other(ends: &mut Vec<Option<GoodEnd>>, marks: &[bool], n: usize) -> Option<GoodEnd>
    requires { n < vec_len ends.old }
    ensures sized { vec_len ends.new ≡ vec_len ends.old }
    ensures taken { IfSome result (λ e. slice_get ends.old.items n ≡ Some (Some e)) }
    ensures marked { (e : EndView) → slice_get ends.new.items n ≡ Some (Some e) → is_marked marks.now n ≡ true }
    ensures left { AreAmong ends.old.items ends.new.items }
{
    if is_marked(marks, n) {
        return None;
    }
    take_end(ends, n)
}

impl Outcomes {
    /// None is kept.
    pub fn new(alloc: Global, terms: Terms) -> Outcomes
        ensures all { result.all.items ≡ [] }
        ensures terms { result.terms ≡ terms }
    {
        Outcomes {
            all: Vec::new(alloc),
            terms,
        }
    }

    /// The files with outcomes, ordered so that each comes after those that it loads.
    fn flow(&self, alloc: Global) -> Result<Flow, AllocError> {
        let count = self.all.len();
        let mut graph = Graph::new(alloc, count)?;
        for n in 0..count {
            if let Some(end) = &self.all[n] {
                add_file(&mut graph, n, &end.loads)?;
            }
        }
        graph.into_flow(alloc)
    }

    /// Whether the outcome of a file stays: its text is the same, and the outcomes of all that it loads stay.
    fn stays(&self, compared: &Compared<'_>, marks: &[bool], n: usize) -> bool
        ensures { let c = compared.now in result ≡ true → IsStaying c.before c.files self.now.all.items marks.now n }
    {
        if !compared.has_text(n) {
            return false;
        }
        match self.all.get(n) {
            Some(Some(end)) => are_marked(marks, &end.loads),
            _ => false,
        }
    }

    /// Marks a file if its outcome stays.
    fn mark(&self, compared: &Compared<'_>, marks: &mut Vec<bool>, n: usize)
        requires { AreStaying compared.now.before compared.now.files self.now.all.items marks.old.items }
        ensures { AreStaying compared.now.before compared.now.files self.now.all.items marks.new.items }
    {
        if n >= marks.len() {
            return;
        }
        if self.stays(compared, marks, n) {
            marks[n] = true;
        }
    }

    /// Marks the files whose outcomes stay. The error: an allocation failed.
    fn staying<R: Wait>(
        &self,
        rt: &R,
        alloc: Global,
        compared: &Compared<'_>,
    ) -> Result<Vec<bool>, AllocError>
        ensures { let c = compared.now in
            IfOk result (λ marks. AreStaying c.before c.files self.now.all.items marks.items) }
    {
        let flow = self.flow(alloc)?;
        let mut marks = vec![in alloc; false; self.all.len()]?;
        let mut ended = None;
        for _ in 0..self.all.len() {
            let Some(n) = flow.take(rt, ended) else {
                return Ok(marks);
            };
            self.mark(compared, &mut marks, n);
            ended = Some(n);
        }
        Ok(marks)
    }

    /// Takes out the outcomes of files that are not marked. The error: an allocation failed.
    fn take_others(
        &mut self,
        alloc: Global,
        marks: &[bool],
    ) -> Result<Vec<Option<GoodEnd>>, AllocError>
        ensures terms { self.new.terms ≡ self.old.terms }
        ensures all { OnOk result (AreMarkedOf marks.now self.old.all.items self.new.all.items) }
        ensures taken { IfOk result (λ taken. AreAmong self.old.all.items taken.items) }
    {
        let mut taken = Vec::with_capacity(alloc, self.all.len())?;
        for n in 0..self.all.len() {
            let end = take_other(&mut self.all, marks, n);
            taken.push(end)?;
        }
        Ok(taken)
    }

    /// Whether the files have the same labels, under the same terms, with the same text of the prelude.
    fn is_for(&self, compared: &Compared<'_>, terms: &Terms) -> bool
        ensures terms { result ≡ true → self.now.terms ≡ terms.now }
        ensures labels { result ≡ true → HaveLabels compared.now.before compared.now.files }
        ensures ordered { result ≡ true → IsOrdered compared.now.before }
        ensures prelude { let c = compared.now in result ≡ true
            → (q : ℕ) → terms.now.prelude ≡ Some q → text_at c.before q ≡ text_at c.files q }
        ensures same { compared.now.before ≡ compared.now.files → self.now.terms ≡ terms.now
            → IfSome terms.now.prelude (λ q. q < length compared.now.files) → result ≡ true }
    {
        if !self.terms.is_same(terms) || !compared.has_same_labels() {
            return false;
        }
        has_prelude(compared, terms.prelude)
    }

    /// Frees the outcomes, in a thread of its own.
    pub fn free_apart<R: Threads>(self, rt: &R) {
        free_apart(rt, self);
    }

    /// The outcomes that stay if files take the place of those before, under these terms: all, if these are the same
    /// files and terms. Also the others, if the labels, the terms and the prelude stay; otherwise these are freed, by up
    /// to `threads` threads. The error: an allocation failed.
    pub fn after<R: Threads + Wait + Sync>(
        self,
        rt: &R,
        alloc: Global,
        compared: &Compared<'_>,
        terms: Terms,
        threads: usize,
    ) -> Result<(Outcomes, Vec<Option<GoodEnd>>), AllocError>
        requires outcomes { AreOutcomes compared.now.before self.terms.prelude self.terms.mode self.all.items }
        requires threads { 1 ≤ threads }
        ensures terms { IfOk result (λ os. os.0.terms ≡ terms) }
        ensures all { IfOk result (λ os. AreOutcomes compared.now.files terms.prelude terms.mode os.0.all.items) }
        ensures others { IfOk result (λ os. AreOutcomes compared.now.before terms.prelude terms.mode os.1.items) }
        ensures alike { IfOk result (λ os.
            0 < length os.1.items → AreAlike compared.now.before compared.now.files terms.prelude) }
        ensures same { IfOk result (λ os. compared.now.before ≡ compared.now.files → self.terms ≡ terms
            → IfSome terms.prelude (λ q. q < length compared.now.files) → os.0.all ≡ self.all) }
    {
        if !self.is_for(compared, &terms) {
            free(rt, alloc, self.all, threads);
            return Ok((Outcomes::new(alloc, terms), Vec::new(alloc)));
        }
        if have_texts(compared) {
            return Ok((self, Vec::new(alloc)));
        }
        let marks = self.staying(rt, alloc, compared)?;
        let mut outcomes = self;
        let others = outcomes.take_others(alloc, &marks)?;
        Ok((outcomes, others))
    }
}

/// Frees ends of files, by up to `threads` threads if there are many.
pub fn free_ends<R: Threads + Sync>(
    rt: &R,
    alloc: Global,
    ends: Vec<Option<GoodEnd>>,
    threads: usize,
)
    requires { 1 ≤ threads }
{
    let there = ends.iter().filter(|end| end.is_some()).count();
    let threads = if there < VALUES_FOR_THREADS {
        1
    } else {
        threads
    };
    free(rt, alloc, ends, threads);
}
