//! The body of a file that stays as it was, over the stores that other files have now.

ghost use Rattle.std.specs.Prelude.{◌≡◌, ℕ, Contains, IfOk, IfSome};
ghost use Rattle.star_outcome.specs.Gathered.{AreNeeded, IsListed};
ghost use Rattle.star_outcome.specs.GoodEnds.{HasStoreOf, IsLasting};
ghost use Rattle.star_outcome.specs.Reaches.{row_of};
ghost use Rattle.star_outcome.specs.Views.{IsBody};
ghost use Rattle.star_plan.specs.Shelves.{Needs};

use crate::module::Body;
use crate::reachable::stores_with;
use crate::run_id::RunId;
use crate::store_row::{Reach, StoreRow};
use star_meaning::said::Said;
use star_store::arena::Frozen;
use std::alloc::{AllocError, Global};
use std::sync::Arc;

/// The same lines and calls, whose texts are shared.
fn lines_again(alloc: Global, lines: &[Said]) -> Result<Vec<Said>, AllocError>
    ensures { IfOk result (λ again. again.items ≡ lines.now) }
{
    let mut again = Vec::with_capacity(alloc, lines.len())?;
    for line in lines {
        again.push(line.share()?)?;
    }
    Ok(again)
}

impl Body {
    /// The store of the file `home` itself, as its last one.
    fn own_reach(&self, home: u32) -> Option<&Reach>
        ensures { IfSome result (λ r. (r.now.number ≡ home) × Contains (row_of self.now.stores) r.now) }
    {
        match self.stores.last() {
            Some(reach) if reach.number() == home => Some(reach),
            _ => None,
        }
    }

    /// The store of the file `home` itself. None if it is not the last of the body's stores; in the body that a run
    /// leaves it is.
    pub fn own_store(&self, home: u32) -> Option<&Frozen>
        ensures { IfSome result (λ store. HasStoreOf (row_of self.now.stores) home store.now) }
    {
        match self.own_reach(home) {
            Some(reach) => Some(reach.store()),
            None => None,
        }
    }

    /// The same body over these stores of other files. None if the body's last store is not the one of the file `home`
    /// itself. The error: an allocation failed.
    pub fn over<J: RunId>(
        &self,
        alloc: Global,
        home: u32,
        reaches: StoreRow,
    ) -> Result<Option<Body>, AllocError>
        requires lasting { IsLasting J.plan home self.now }
        requires needed { AreNeeded J.plan home (row_of reaches) }
        requires all { (k : ℕ) → Needs J.plan home k → IsListed (row_of reaches) k }
        ensures { IfOk result (λ r. IfSome r (IsBody J.plan home)) }
    {
        let Some(reach) = self.own_reach(home) else {
            return Ok(None);
        };
        let stores = stores_with::<J>(alloc, reach.again()?, reaches)?;
        Ok(Some(Body {
            stores,
            shown: Arc::try_clone(&self.shown)?,
            lines: lines_again(alloc, self.lines.as_slice())?,
            paid: self.paid,
        }))
    }
}
