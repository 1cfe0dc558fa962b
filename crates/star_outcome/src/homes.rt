//! The stores of a module as `Homes`, so that its values can be looked up.

ghost use Rattle.std.specs.Prelude.{◌≡◌, IfOk, OnOk, fold};
ghost use Rattle.star_outcome.specs.Homes.{seated, shelf_of};
ghost use Rattle.star_outcome.specs.Reaches.{shared_of};

use crate::store_row::{Block, Reach, StoreRow};
use star_store::arena::Homes;
use std::alloc::{AllocError, Global};
use std::sync::Arc;

impl StoreRow {
    /// The stores as a shelf, each at the number of its file. The error: an allocation failed.
    pub fn homes<'s>(&'s self, alloc: Global) -> Result<Homes<'s>, AllocError>
        ensures { IfOk result (λ h. h ≡ shelf_of self.now) }
    {
        let mut homes = Homes::new(alloc);
        seat_blocks(&mut homes, self.blocks())?;
        seat_each(&mut homes, self.more())?;
        Ok(homes)
    }
}

/// Puts the stores of several blocks up, in order.
fn seat_blocks<'s>(homes: &mut Homes<'s>, blocks: &'s [Arc<Block>]) -> Result<(), AllocError>
    ensures { OnOk result (homes.new ≡ fold seated homes.old (shared_of blocks.now)) }
{
    for block in blocks {
        seat_each(homes, block.stores())?;
    }
    Ok(())
}

/// Puts several stores up, in order.
fn seat_each<'s>(homes: &mut Homes<'s>, stores: &'s [Reach]) -> Result<(), AllocError>
    ensures { OnOk result (homes.new ≡ fold seated homes.old stores.now) }
{
    for reach in stores {
        homes.add(reach.number(), reach.store())?;
    }
    Ok(())
}
