//! The outcomes that stay though files that they need have changed: the names that they load of these are the same data.
//!
//! The changed files are run first. Then each other file, after those that it loads, is marked if its text is the same,
//! and each file that it loads is marked or shares with it: the names that it loads of this file have the same values as
//! before, which are data at the same places with the same content. The end of a marked file lasts, but for the stores
//! of the files that it needs. A run puts its body over the stores that these have now.

ghost use Rattle.std.specs.Prelude.{◌≡◌, ◌<◌, ◌≤◌, ◌⊎◌, ℕ, true, All, IfOk, IfSome, List, Option, Some, length, slice_get, vec_len};
ghost use Rattle.star_label.specs.Files.{text_at};
ghost use Rattle.star_reading.specs.Found.{Within};
ghost use Rattle.star_tree.specs.declared.tree.LoadedName.{LoadedName as NameView};
ghost use Rattle.star_needs.specs.Ends.{AreLoadsUnder};
ghost use Rattle.star_memo.specs.Lasting.{AllLastOver, AreAddedTo, AreAllStores, AreJoined, AreShared, AreStoresOf};
ghost use Rattle.star_memo.specs.Lasting.{HasPreludeMarked, IsChange, IsFilled, IsMarkedOrShared, IsShared, IsStaleOf};
ghost use Rattle.star_memo.specs.Lasting.{LastsOver, LoadsIt, LoadsNow, SharesAcross, file_at};
ghost use Rattle.star_memo.specs.Outcomes.{AreAmong, is_marked};

use crate::compared::Compared;
use crate::outcomes::{Outcomes, Terms, add_file, is_marked, take_end};
use crate::same::Stores;
use star_flow::{Flow, Graph};
use star_needs::kept_results_stay;
use star_outcome::good_end::GoodEnd;
use star_reading::reading::Read;
use star_scope::loads::Load;
use star_scope::program::Program;
use star_tree::tree::{Form, LoadedName, Statement};
use std::alloc::{AllocError, Global};
use std::sync::Wait;

/// More changed files than this are not compared with those before.
const MOST_CHANGED: usize = 64;

/// Files before and after a change, with the outcomes of those before and of those after, and the readings after.
#[derive(Clone, Copy)]
pub struct Change<'a, 't> {
    pub compared: &'a Compared<'a>,
    pub former: &'a [Option<GoodEnd>],
    pub ends: &'a [Option<GoodEnd>],
    pub reads: &'a [Option<Read<'t>>],
    pub terms: &'a Terms,
}

/// The entry at a place of a row, if there is one.
fn entry_at<T>(row: &[Option<T>], n: usize) -> Option<&T>
    ensures { IfSome result (λ x. slice_get row.now n ≡ Some (Some x.now)) }
{
    match row.get(n) {
        Some(Some(entry)) => Some(entry),
        _ => None,
    }
}

/// The files with outcomes before a change.
#[derive(Drop)]
struct Former {
    /// The numbers of those whose texts have changed.
    changed: Vec<usize>,
    /// The number of those whose texts are the same.
    same: usize,
}

/// The files with outcomes before a change, by whether their texts have changed. The error: an allocation failed.
fn former_files(
    alloc: Global,
    compared: &Compared<'_>,
    former: &[Option<GoodEnd>],
) -> Result<Former, AllocError>
    ensures within { IfOk result (λ f. Within compared.now.files f.changed.items) }
    ensures same { IfOk result (λ f. f.same ≤ length former.now) }
{
    let mut changed = Vec::new(alloc);
    let mut same = 0;
    for n in 0..former.len() {
        if former[n].is_none() || n >= compared.count() {
            continue;
        }
        if compared.has_text(n) {
            same += 1;
        } else {
            changed.push(n)?;
        }
    }
    Ok(Former { changed, same })
}

/// The numbers of the changed files that are to be run first. None if no outcome can last by it, or if they are many.
/// The error: an allocation failed.
pub fn first_to_run(
    alloc: Global,
    compared: &Compared<'_>,
    former: &[Option<GoodEnd>],
) -> Result<Option<Vec<usize>>, AllocError>
    ensures some { IfOk result (λ r. IfSome r (λ _. 0 < length former.now)) }
    ensures within { IfOk result (λ r. IfSome r (λ ns. Within compared.now.files ns.items)) }
{
    let Former { changed, same } = former_files(alloc, compared, former)?;
    if same == 0 || changed.is_empty() || changed.len() > MOST_CHANGED {
        return Ok(None);
    }
    Ok(Some(changed))
}

/// Whether a load of a statement that begins at this token leads to a file.
fn leads_to(loads: &[Load], token: usize, file: usize) -> bool
    ensures { file_at loads.now token ≡ Some file → result ≡ true }
{
    for load in loads {
        if load.file == file && load.token == Some(token) {
            return true;
        }
    }
    false
}

/// Whether all these names are shared.
fn share_names(names: &[LoadedName], stores: &Stores<'_>) -> bool
    ensures { result ≡ true → (i : ℕ) (name : NameView) → slice_get names.now i ≡ Some name
        → IsShared stores.now name.loaded.text }
{
    for name in names {
        if !stores.share(name.loaded.text.as_str()) {
            return false;
        }
    }
    true
}

/// Whether the names that a statement loads of the stores' file are shared.
fn shares_names(statement: &Statement, loads: &[Load], stores: &Stores<'_>) -> bool
    ensures { result ≡ true → (name : List ℕ) → LoadsIt loads.now stores.now.file statement.now name
        → IsShared stores.now name }
{
    let Form::Load { names, .. } = &statement.form else {
        return true;
    };
    if !leads_to(loads, statement.position.token, stores.file() as usize) {
        return true;
    }
    share_names(names.as_slice(), stores)
}

/// Whether all names that a program loads of the stores' file are shared.
fn shares_loads(program: &Program<'_>, stores: &Stores<'_>) -> bool
    ensures { result ≡ true → AreShared stores.now program.now.loads.items program.now.statements.now }
{
    let loads = program.loads();
    for statement in program.body() {
        if !shares_names(statement, loads, stores) {
            return false;
        }
    }
    true
}

impl<'a, 't> Change<'a, 't> {
    /// The end of a file after the change, or else before it.
    fn end(&self, n: usize) -> Option<&'a GoodEnd>
        ensures { IfSome result (λ e. (slice_get self.now.ends.now n ≡ Some (Some e.now))
            ⊎ (slice_get self.now.former.now n ≡ Some (Some e.now))) }
    {
        match entry_at(self.ends, n) {
            Some(end) => Some(end),
            None => entry_at(self.former, n),
        }
    }

    /// The files with outcomes, ordered so that each comes after those that it loads.
    fn flow(&self, alloc: Global) -> Result<Flow, AllocError> {
        let count = self.former.len();
        let mut graph = Graph::new(alloc, count)?;
        for n in 0..count {
            if let Some(end) = self.end(n) {
                add_file(&mut graph, n, &end.loads)?;
            }
        }
        graph.into_flow(alloc)
    }

    /// The stores of a changed file before and after the change.
    fn stores(&self, alloc: Global, n: usize) -> Result<Option<Stores<'a>>, AllocError>
        requires { IsChange self.now }
        ensures { IfOk result (λ r. IfSome r (AreStoresOf self.now n)) }
    {
        if n >= self.compared.count() || self.compared.has_text(n) {
            return Ok(None);
        }
        let (Some(before), Some(after)) = (entry_at(self.former, n), entry_at(self.ends, n)) else {
            return Ok(None);
        };
        let home = n as u32;
        match (before.body.own_store(home), after.body.own_store(home)) {
            (Some(before), Some(after)) => Ok(Some(Stores::new(alloc, home, before, after)?)),
            _ => Ok(None),
        }
    }

    /// The stores of all changed files.
    fn all_stores(&self, alloc: Global) -> Result<Vec<Option<Stores<'a>>>, AllocError>
        requires { IsChange self.now }
        ensures { IfOk result (λ all. AreAllStores self.now all.items) }
    {
        let mut all = Vec::with_capacity(alloc, self.former.len())?;
        for n in 0..self.former.len() {
            all.push(self.stores(alloc, n)?)?;
        }
        Ok(all)
    }

    /// Whether a file shares the names that it loads of a changed file.
    fn shares(&self, stores: &[Option<Stores<'a>>], n: usize, m: usize) -> bool
        requires change { IsChange self.now }
        requires stores { AreAllStores self.now stores.now }
        requires text { text_at self.now.compared.now.before n ≡ text_at self.now.compared.now.files n }
        requires load { LoadsNow self.now n m }
        ensures { result ≡ true → SharesAcross self.now n m }
    {
        let Some(stores) = entry_at(stores, m) else {
            return false;
        };
        match entry_at(self.reads, n) {
            Some(Read::Program(program)) => shares_loads(program, stores),
            _ => false,
        }
    }

    /// Whether each of these files, which a file loads, is marked or shares with it.
    fn share_all(
        &self,
        stores: &[Option<Stores<'a>>],
        marks: &[bool],
        n: usize,
        loads: &[usize],
    ) -> bool
        requires change { IsChange self.now }
        requires stores { AreAllStores self.now stores.now }
        requires text { text_at self.now.compared.now.before n ≡ text_at self.now.compared.now.files n }
        requires loads { let c = self.now in
            AreLoadsUnder c.compared.now.files c.terms.now.prelude c.terms.now.mode n loads.now }
        ensures { result ≡ true → All (IsMarkedOrShared self.now marks.now n) loads.now }
    {
        for m in loads {
            if !is_marked(marks, *m) && !self.shares(stores, n, *m) {
                return false;
            }
        }
        true
    }

    /// Whether the end of a file lasts.
    fn lasts(&self, stores: &[Option<Stores<'a>>], marks: &[bool], n: usize) -> bool
        requires change { IsChange self.now }
        requires stores { AreAllStores self.now stores.now }
        ensures { result ≡ true → LastsOver self.now marks.now n }
    {
        if !self.compared.has_text(n) {
            return false;
        }
        match self.end(n) {
            Some(end) => self.share_all(stores, marks, n, &end.loads),
            None => false,
        }
    }

    /// Marks a file if its end lasts.
    fn mark(&self, stores: &[Option<Stores<'a>>], marks: &mut Vec<bool>, n: usize)
        requires change { IsChange self.now }
        requires stores { AreAllStores self.now stores.now }
        requires last { AllLastOver self.now marks.old.items }
        ensures { AllLastOver self.now marks.new.items }
    {
        if n >= marks.len() {
            return;
        }
        if self.lasts(stores, marks, n) {
            marks[n] = true;
        }
    }

    /// Marks the files whose ends last if the end of the prelude does. The error: an allocation failed.
    fn marked<R: Wait>(&self, rt: &R, alloc: Global) -> Result<Vec<bool>, AllocError>
        requires { IsChange self.now }
        ensures { IfOk result (λ marks. AllLastOver self.now marks.items) }
    {
        let flow = self.flow(alloc)?;
        let mut marks = vec![in alloc; false; self.former.len()]?;
        let stores = self.all_stores(alloc)?;
        let mut ended = None;
        for _ in 0..self.former.len() {
            let Some(n) = flow.take(rt, ended) else {
                return Ok(marks);
            };
            self.mark(&stores, &mut marks, n);
            ended = Some(n);
        }
        Ok(marks)
    }

    /// Whether the prelude, if there is one, is marked.
    fn has_prelude(&self, marks: &[bool]) -> bool
        ensures { result ≡ true → (q : ℕ) → self.now.terms.now.prelude ≡ Some q → is_marked marks.now q ≡ true }
    {
        match self.terms.prelude {
            Some(n) => is_marked(marks, n),
            None => true,
        }
    }

    /// Marks the files whose ends last: none if the end of the prelude does not. The error: an allocation failed.
    pub fn lasting<R: Wait>(&self, rt: &R, alloc: Global) -> Result<Vec<bool>, AllocError>
        requires { IsChange self.now }
        ensures last { IfOk result (λ marks. AllLastOver self.now marks.items) }
        ensures prelude { IfOk result (λ marks. HasPreludeMarked self.now.terms.now.prelude marks.items) }
    {
        let marks = self.marked(rt, alloc)?;
        if self.has_prelude(&marks) {
            Ok(marks)
        } else {
            Ok(Vec::new(alloc))
        }
    }
}

/// Puts an end in its place, if none is there.
fn fill(ends: &mut Vec<Option<GoodEnd>>, n: usize, end: Option<GoodEnd>)
    ensures { IsFilled n end ends.old.items ends.new.items }
{
    if n < ends.len() && ends[n].is_none() {
        ends[n] = end;
    }
}

/// Takes the end at a place out of a row. It is stale from now on.
fn take_stale(ends: &mut Vec<Option<GoodEnd>>, n: usize) -> Option<GoodEnd>
    requires { n < vec_len ends.old }
    ensures sized { vec_len ends.new ≡ vec_len ends.old }
    ensures taken { IfSome result (IsStaleOf ends.old.items n) }
    ensures left { AreAmong ends.old.items ends.new.items }
{
    match take_end(ends, n) {
        Some(end) => {
            let mut end = end;
            end.is_stale = true;
            Some(end)
        }
        None => None,
    }
}

impl Outcomes {
    /// Adds the outcomes of files that were run, where none is known.
    pub fn add(&mut self, ends: Vec<Option<GoodEnd>>)
        ensures terms { self.new.terms ≡ self.old.terms }
        ensures all { AreJoined self.old.all.items ends.items self.new.all.items }
    {
        let mut rest = ends;
        for n in 0..rest.len() {
            let end = take_end(&mut rest, n);
            fill(&mut self.all, n, end);
        }
    }

    /// Adds the ends of the marked files, where none is known. They are stale.
    pub fn add_lasting(&mut self, former: &mut Vec<Option<GoodEnd>>, marks: &[bool])
        ensures terms { self.new.terms ≡ self.old.terms }
        ensures all { AreAddedTo self.old.terms marks.now former.old.items self.old.all.items self.new.all.items }
    {
        kept_results_stay();
        for n in 0..former.len() {
            if is_marked(marks, n) {
                let end = take_stale(former, n);
                fill(&mut self.all, n, end);
            }
        }
    }
}
