//! `GoodEnd`: the end of a file whose run went well. A caller may keep it after a run, and give it to a later run.

ghost use Rattle.std.specs.Prelude.{◌≡◌, ◌<◌, All, IfOk, MatchOption, None, OnOk, false, length, vec_len};
ghost use Rattle.star_outcome.specs.GoodEnds.{AreEndsAgain, AreEndsAmong, AreEndsInPlans, HaveEnd, IsEndOf, IsPut};
ghost use Rattle.star_outcome.specs.Views.{ended_well};

use crate::module::{Body, Ended, Module};
use crate::outcome::Run;
use std::alloc::{AllocError, Global};
use std::sync::Arc;

/// The end of a file whose run went well: the numbers of the files that it loads, in order, and its body, which the
/// module of the file shares.
pub struct GoodEnd {
    pub loads: Vec<usize>,
    pub body: Arc<Body>,
    /// Whether the stores of other files in the body may be those of files that have changed since.
    pub is_stale: bool,
}

impl Drop for GoodEnd {
    fn drop(self) {
        let GoodEnd {
            loads: _,
            body: _,
            is_stale: _,
        } = self;
    }
}

impl Module {
    /// Its end if its run went well, with the body shared. The error: an allocation failed.
    pub fn good_end(&self, alloc: Global) -> Result<Option<GoodEnd>, AllocError>
        ensures { IfOk result (λ r. MatchOption r (ended_well self.now.ended ≡ false) (IsEndOf self.now)) }
    {
        let Ended::Good(body) = &self.ended else {
            return Ok(None);
        };
        let body = Arc::try_clone(body)?;
        let loads = Vec::from_slice(alloc, self.loads.as_slice())?;
        Ok(Some(GoodEnd {
            loads,
            body,
            is_stale: false,
        }))
    }
}

/// No end, for each of `count` files.
fn no_ends(alloc: Global, count: usize) -> Result<Vec<Option<GoodEnd>>, AllocError>
    ensures sized { IfOk result (λ ends. vec_len ends ≡ count) }
    ensures none { IfOk result (λ ends. All (λ end. end ≡ None) ends.items) }
{
    let mut ends = Vec::with_capacity(alloc, count)?;
    for _ in 0..count {
        ends.push(None)?;
    }
    Ok(ends)
}

/// Puts the end of a module at the number of its file, if its run went well. The error: an allocation failed.
fn put_end(alloc: Global, ends: &mut Vec<Option<GoodEnd>>, it: &Module) -> Result<(), AllocError>
    requires { it.now.number < vec_len ends.old }
    ensures sized { vec_len ends.new ≡ vec_len ends.old }
    ensures put { OnOk result (IsPut it.now ends.old.items ends.new.items) }
{
    if let Some(end) = it.good_end(alloc)? {
        ends[it.number] = Some(end);
    }
    Ok(())
}

impl Run {
    /// The ends of the reached files whose runs went well, each at the number of its file. `files` is the number of all
    /// files. Nothing of a body is copied. The error: an allocation failed.
    pub fn good_ends(
        &mut self,
        alloc: Global,
        files: usize,
    ) -> Result<Vec<Option<GoodEnd>>, AllocError>
        requires { length self.old.cells ≡ files }
        ensures same { self.new ≡ self.old }
        ensures sized { IfOk result (λ ends. vec_len ends ≡ files) }
        ensures own { IfOk result (λ ends. AreEndsAmong self.old.kept ends.items) }
        ensures all { IfOk result (λ ends. All (HaveEnd ends.items) self.old.kept) }
        ensures plans { IfOk result (λ ends. AreEndsInPlans self.old.kept ends.items) }
        ensures again { IfOk result (λ ends. AreEndsAgain self.old.kept ends.items) }
    {
        let mut ends = no_ends(alloc, files)?;
        for i in 0..self.len() {
            let note = self.note(i);
            put_end(alloc, &mut ends, self.module(i, note))?;
        }
        Ok(ends)
    }
}
