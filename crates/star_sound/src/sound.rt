//! Each file waits for the first of its needs that is not known to be sound, and goes on when that is.

ghost use Rattle.std.specs.Prelude.{◌≡◌, ◌<◌, ◌≤◌, ◌∷◌, ◌++◌, ℕ, [], All, Contains, IfOk, List, MatchOption, OnOk, Some, length, slice_get, slice_set, vec_len};
ghost use Rattle.star_sound.specs.Sound.{AreWithin, IsProspect, NeedsAll, rows_of};
ghost use Rattle.star_sound.specs.declared.sound.Prospect.{Prospect as ProspectView};
ghost use Rattle.star_sound.specs.Waiting.{AreFresh, AreSettled, AreSized, AreWaiting, GoesOn, IsMarked, IsMarkedMore, left_in, list_of, lists};

use std::alloc::{AllocError, Global};
use std::mem;

/// The prospect of a file before anything runs: whether it can be used.
#[derive(Clone, Copy, Debug, PartialEq, Eq)]
pub enum Prospect {
    /// It cannot be used, whatever it needs.
    Barred,
    /// It and all that it needs can be used.
    Sound,
    /// The first of its needs that is not sound has this place among them.
    Lacks(usize),
}

/// The facts known so far.
#[derive(Drop)]
pub(crate) struct Waits {
    /// Whether a file is known to be sound.
    pub sound: Vec<bool>,
    /// How many of a file's first needs are known to be sound.
    pub passed: Vec<usize>,
    /// For each file, the files that wait for it.
    pub waiting: Vec<Vec<usize>>,
    /// The sound files whose waiting files have not gone on yet.
    pub todo: Vec<usize>,
}

/// The needs of a file; `None` if it is barred.
fn needs_of(needs: &[Option<Vec<usize>>], n: usize) -> Option<&[usize]>
    ensures { MatchOption result ((ns : List ℕ) → NeedsAll (rows_of needs.now) n ns → ⊥)
        (λ ns. NeedsAll (rows_of needs.now) n ns.now) }
{
    match needs.get(n) {
        Some(Some(its)) => Some(its.as_slice()),
        _ => None,
    }
}

/// The place of the first of these needs, from a place on, that is not known to be sound. If all are, it is their
/// number.
fn first_from(sound: &[bool], its: &[usize], from: usize) -> usize
    requires { All (λ m. m < length sound.now) its.now }
    ensures passed { (i m : ℕ) → from ≤ i → i < result → slice_get its.now i ≡ Some m → IsMarked sound.now m }
    ensures stops { (m : ℕ) → slice_get its.now result ≡ Some m → IsMarked sound.now m → ⊥ }
{
    for place in from..its.len() {
        if !sound[its[place]] {
            return place;
        }
    }
    its.len()
}

/// The numbers of `count` files.
fn all_files(alloc: Global, count: usize) -> Result<Vec<usize>, AllocError>
    ensures { IfOk result (λ v. (n : ℕ) → n < count → Contains v.items n) }
{
    let mut all = Vec::with_capacity(alloc, count)?;
    for n in 0..count {
        all.push(n)?;
    }
    Ok(all)
}

impl Waits {
    /// The first state: nothing is known of `count` files.
    fn new(alloc: Global, count: usize) -> Result<Waits, AllocError>
        ensures sized { IfOk result (AreSized count) }
        ensures fresh { IfOk result AreFresh }
    {
        let mut waiting = Vec::with_capacity(alloc, count)?;
        for _ in 0..count {
            waiting.push(Vec::new(alloc))?;
        }
        Ok(Waits {
            sound: vec![in alloc; false; count]?,
            passed: vec![in alloc; 0; count]?,
            waiting,
            todo: Vec::new(alloc),
        })
    }

    /// Records that a file is sound: the files that wait for it will go on.
    fn mark(&mut self, n: usize) -> Result<(), AllocError>
        requires { n < length self.old.sound.items }
        ensures passed { self.new.passed ≡ self.old.passed }
        ensures waiting { self.new.waiting ≡ self.old.waiting }
        ensures more { OnOk result (IsMarkedMore n self.old.sound.items self.old.todo.items
            self.new.sound.items self.new.todo.items) }
    {
        if !self.sound[n] {
            self.todo.push(n)?;
            self.sound[n] = true;
        }
        Ok(())
    }

    /// A file waits for another.
    fn wait(&mut self, n: usize, m: usize) -> Result<(), AllocError>
        requires { m < length self.old.waiting.items }
        ensures sound { self.new.sound ≡ self.old.sound }
        ensures passed { self.new.passed ≡ self.old.passed }
        ensures todo { self.new.todo ≡ self.old.todo }
        ensures lists { OnOk result (lists self.new
            ≡ slice_set (lists self.old) m (list_of (lists self.old) m ++ n ∷ [])) }
    {
        self.waiting[m].push(n)?;
        Ok(())
    }

    /// A file goes on: it is sound, or waits for the first of its needs that is not known to be.
    fn go_on(&mut self, n: usize, its: &[usize]) -> Result<(), AllocError>
        requires sized { AreSized (length self.old.sound.items) self.old }
        requires file { n < length self.old.sound.items }
        requires its { All (λ m. m < length self.old.sound.items) its.now }
        ensures sized { OnOk result (AreSized (length self.old.sound.items) self.new) }
        ensures left { OnOk result (left_in self.new.sound.items self.new.todo.items
            ≡ left_in self.old.sound.items self.old.todo.items) }
        ensures waiting { OnOk result (GoesOn n its.now self.old self.new) }
    {
        let place = first_from(self.sound.as_slice(), its, self.passed[n]);
        self.passed[n] = place;
        match its.get(place) {
            Some(m) => self.wait(n, *m),
            None => self.mark(n),
        }
    }

    /// These files go on, except for the barred ones.
    fn release(&mut self, needs: &[Option<Vec<usize>>], files: Vec<usize>) -> Result<(), AllocError>
        requires within { AreWithin (rows_of needs.now) }
        requires sized { AreSized (length needs.now) self.old }
        ensures sized { OnOk result (AreSized (length needs.now) self.new) }
        ensures left { OnOk result (left_in self.new.sound.items self.new.todo.items
            ≡ left_in self.old.sound.items self.old.todo.items) }
        ensures waiting { OnOk result (AreWaiting (rows_of needs.now) self.old files.items
            → AreWaiting (rows_of needs.now) self.new []) }
    {
        let mut files = files;
        while let Some(n) = files.pop() {
            if let Some(its) = needs_of(needs, n) {
                self.go_on(n, its)?;
            }
        }
        Ok(())
    }

    /// Takes the files that wait for this one. They no longer wait.
    fn take(&mut self, alloc: Global, m: usize) -> Vec<usize>
        requires { m < length self.old.waiting.items }
        ensures sound { self.new.sound ≡ self.old.sound }
        ensures passed { self.new.passed ≡ self.old.passed }
        ensures todo { self.new.todo ≡ self.old.todo }
        ensures taken { result.items ≡ list_of (lists self.old) m }
        ensures lists { lists self.new ≡ slice_set (lists self.old) m [] }
    {
        mem::replace(&mut self.waiting[m], Vec::new(alloc))
    }

    /// The last state: all is known of the files.
    fn settled(alloc: Global, needs: &[Option<Vec<usize>>]) -> Result<Waits, AllocError>
        requires { AreWithin (rows_of needs.now) }
        ensures { IfOk result (AreSettled (rows_of needs.now)) }
    {
        let mut waits = Waits::new(alloc, needs.len())?;
        let all = all_files(alloc, needs.len())?;
        waits.release(needs, all)?;
        while let Some(m) = waits.todo.pop() {
            let files = waits.take(alloc, m);
            waits.release(needs, files)?;
        }
        Ok(waits)
    }

    /// The prospect of a file.
    fn prospect(&self, needs: &[Option<Vec<usize>>], n: usize) -> Prospect
        requires settled { AreSettled (rows_of needs.now) self.now }
        requires file { n < length needs.now }
        ensures { IsProspect (rows_of needs.now) n result }
    {
        match needs_of(needs, n) {
            None => Prospect::Barred,
            Some(_) if self.sound[n] => Prospect::Sound,
            Some(_) => Prospect::Lacks(self.passed[n]),
        }
    }
}

/// The prospect of each file, by its needs, which are `None` for a barred file. It takes time in proportion to the
/// needs.
pub fn prospects(alloc: Global, needs: &[Option<Vec<usize>>]) -> Result<Vec<Prospect>, AllocError>
    requires { AreWithin (rows_of needs.now) }
    ensures size { IfOk result (λ v. vec_len v ≡ length needs.now) }
    ensures each { IfOk result (λ v. (n : ℕ) (p : ProspectView) → slice_get v.items n ≡ Some p
        → IsProspect (rows_of needs.now) n p) }
{
    let waits = Waits::settled(alloc, needs)?;
    let mut all = Vec::with_capacity(alloc, needs.len())?;
    for n in 0..needs.len() {
        all.push(waits.prospect(needs, n))?;
    }
    Ok(all)
}
