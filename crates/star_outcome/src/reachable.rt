//! The stores that a file's body may read: the stores of all files that its loads lead to. With its own they are the
//! stores that its module shares with others.

ghost use Rattle.std.specs.Prelude.{◌≡◌, ◌<◌, ℕ, All, IfOk, IfSome, OnOk, length, map};
ghost use Rattle.star_cache.specs.State.{Loads};
ghost use Rattle.star_cache.specs.Walk.{LeadsTo};
ghost use Rattle.star_plan.specs.Plan.{loaded, loads_of};
ghost use Rattle.star_plan.specs.Shelves.{IsOwn, Needs};
ghost use Rattle.star_outcome.specs.Gathered.{AreNeeded, IsListed};
ghost use Rattle.star_outcome.specs.Reaches.{row_of, shared_of};
ghost use Rattle.star_outcome.specs.Views.{AreGoodLoads, AreStores, IsGoodModule};

use crate::module::{Ended, Module};
use crate::numbers::Numbers;
use crate::run_id::RunId;
use crate::store_row::{Block, Reach, StoreRow};
use star_store::arena::Frozen;
use std::alloc::{AllocError, Global};
use std::marker::{Model, PhantomData};
use std::sync::Arc;

/// The stores that were gathered for a file, and the set of their files' numbers. The set shows in few steps that they
/// have all of a block.
#[derive(Drop)]
struct ReachableStores<J: RunId> {
    file: usize,
    numbers: Numbers,
    reaches: StoreRow,
    of: PhantomData<J>,
}

impl<J: RunId> Model for ReachableStores<J> {
    ghost use Rattle.star_outcome.specs.Gathered.{GivenView, IsGathered};
    ghost use Rattle.star_outcome.specs.Reaches.{row_of};

    ghost Value = { GivenView };

    ghost view = { λ g. record { file = g.file; reaches = row_of g.reaches } };

    ghost invariant = { λ g. IsGathered J.plan g.file g.numbers (row_of g.reaches) };
}

impl<J: RunId> ReachableStores<J> {
    /// No store yet.
    fn new(alloc: Global, file: usize) -> ReachableStores<J>
        ensures { result.file ≡ file }
    {
        ReachableStores {
            file,
            numbers: Numbers::new(alloc),
            reaches: StoreRow::new(alloc),
            of: PhantomData,
        }
    }

    /// The stores that the row of a load shares.
    fn over(alloc: Global, file: usize, it: &Module) -> Result<ReachableStores<J>, AllocError>
        requires load { Loads (loaded J.plan) file it.now.number }
        requires good { IsGoodModule J.plan it.now.number it.now }
        ensures { IfOk result (λ g. g.file ≡ file) }
    {
        match &it.ended {
            Ended::Good(body) => ReachableStores::over_row(alloc, file, &body.stores),
            _ => unreachable!(),
        }
    }

    /// The stores that this row shares.
    fn over_row(
        alloc: Global,
        file: usize,
        stores: &StoreRow,
    ) -> Result<ReachableStores<J>, AllocError>
        requires { AreNeeded J.plan file (row_of stores.now) }
        ensures { IfOk result (λ g. g.file ≡ file) }
    {
        let reaches = StoreRow::over(alloc, stores)?;
        let numbers = stores.numbers(alloc)?;
        Ok(ReachableStores {
            file,
            numbers,
            reaches,
            of: PhantomData,
        })
    }

    /// Adds a store, unless there is one of its file.
    fn add(&mut self, reach: &Reach) -> Result<(), AllocError>
        requires needed { Needs J.plan self.old.file reach.now.number }
        requires own { IsOwn J.plan reach.now.number reach.now.store }
        ensures file { self.new.file ≡ self.old.file }
        ensures stays { (k : ℕ) → IsListed self.old.reaches k → IsListed self.new.reaches k }
        ensures there { OnOk result (IsListed self.new.reaches reach.now.number) }
    {
        let number = reach.number();
        if self.numbers.has(number) {
            return Ok(());
        }
        self.numbers.make_room(number)?;
        self.reaches.push_again(reach)?;
        self.numbers.insert(number);
        Ok(())
    }

    /// Adds several stores.
    fn add_each(&mut self, stores: &[Reach]) -> Result<(), AllocError>
        requires { AreNeeded J.plan self.old.file stores.now }
        ensures file { self.new.file ≡ self.old.file }
        ensures stays { (k : ℕ) → IsListed self.old.reaches k → IsListed self.new.reaches k }
        ensures there { OnOk result (All (λ r. IsListed self.new.reaches r.number) stores.now) }
    {
        for reach in stores {
            self.add(reach)?;
        }
        Ok(())
    }

    /// Adds the stores of several blocks. It passes over a block if all of its stores are there.
    fn add_blocks(&mut self, blocks: &[Arc<Block>]) -> Result<(), AllocError>
        requires { AreNeeded J.plan self.old.file (shared_of blocks.now) }
        ensures file { self.new.file ≡ self.old.file }
        ensures stays { (k : ℕ) → IsListed self.old.reaches k → IsListed self.new.reaches k }
        ensures there { OnOk result (All (λ r. IsListed self.new.reaches r.number) (shared_of blocks.now)) }
    {
        for block in blocks {
            if self.numbers.has_all(block.numbers()) {
                continue;
            }
            self.add_each(block.stores())?;
        }
        Ok(())
    }

    /// Adds the stores of a row.
    fn add_row(&mut self, stores: &StoreRow) -> Result<(), AllocError>
        requires { AreNeeded J.plan self.old.file (row_of stores.now) }
        ensures file { self.new.file ≡ self.old.file }
        ensures stays { (k : ℕ) → IsListed self.old.reaches k → IsListed self.new.reaches k }
        ensures there { OnOk result (All (λ r. IsListed self.new.reaches r.number) (row_of stores.now)) }
    {
        self.add_blocks(stores.blocks())?;
        self.add_each(stores.more())?;
        Ok(())
    }

    /// Adds the stores of a loaded file and of all files that its loads lead to.
    fn add_load(&mut self, it: &Module) -> Result<(), AllocError>
        requires load { Loads (loaded J.plan) self.old.file it.now.number }
        requires good { IsGoodModule J.plan it.now.number it.now }
        ensures file { self.new.file ≡ self.old.file }
        ensures stays { (k : ℕ) → IsListed self.old.reaches k → IsListed self.new.reaches k }
        ensures there { OnOk result
            ((k : ℕ) → LeadsTo (Loads (loaded J.plan)) it.now.number k → IsListed self.new.reaches k) }
    {
        match &it.ended {
            Ended::Good(body) => self.add_row(&body.stores),
            _ => unreachable!(),
        }
    }

    /// The stores as a row, to be shared with the files that load the file.
    fn into_row(self) -> StoreRow
        ensures row { row_of result ≡ self.reaches }
        ensures needed { AreNeeded J.plan self.file (row_of result) }
    {
        let ReachableStores {
            file: _,
            numbers: _,
            reaches,
            of: _,
        } = self;
        reaches
    }
}

/// The index of the module that shares the most stores; `None` if no module shares any.
fn widest(modules: &[&Module]) -> Option<usize>
    ensures { IfSome result (λ i. i < length modules.now) }
{
    let mut most = 0;
    let mut place = None;
    for i in 0..modules.len() {
        let shared = modules[i].shared();
        if shared > most {
            most = shared;
            place = Some(i);
        }
    }
    place
}

/// The start of the collection: the stores of the module that shares the most. Those of the others are added to it.
fn begun<J: RunId>(
    alloc: Global,
    n: usize,
    modules: &[&Module],
) -> Result<ReachableStores<J>, AllocError>
    requires { AreGoodLoads J.plan n (length (loads_of J.plan n)) (map (λ m. m.now) modules.now) }
    ensures { IfOk result (λ g. g.file ≡ n) }
{
    match widest(modules) {
        Some(i) => ReachableStores::over(alloc, n, modules[i]),
        None => Ok(ReachableStores::new(alloc, n)),
    }
}

/// The stores of all files that file `n` needs, by the modules of its loads. The error: an allocation failed.
pub fn gathered<J: RunId>(
    alloc: Global,
    n: usize,
    modules: &[&Module],
) -> Result<StoreRow, AllocError>
    requires { AreGoodLoads J.plan n (length (loads_of J.plan n)) (map (λ m. m.now) modules.now) }
    ensures needed { IfOk result (λ row. AreNeeded J.plan n (row_of row)) }
    ensures all { IfOk result (λ row. (k : ℕ) → Needs J.plan n k → IsListed (row_of row) k) }
{
    let mut given = begun::<J>(alloc, n, modules)?;
    for it in modules {
        given.add_load(*it)?;
    }
    Ok(given.into_row())
}

/// The stores of a file: its own, which other rows may have as well, and those of all files that it needs. The error: an
/// allocation failed.
pub(crate) fn stores_with<J: RunId>(
    alloc: Global,
    own: Reach,
    reaches: StoreRow,
) -> Result<StoreRow, AllocError>
    requires own { IsOwn J.plan own.number own.store }
    requires needed { AreNeeded J.plan own.number (row_of reaches) }
    requires all { (k : ℕ) → Needs J.plan own.number k → IsListed (row_of reaches) k }
    ensures { IfOk result (λ stores. AreStores J.plan own.number (row_of stores)) }
{
    let mut stores = reaches;
    stores.push(own)?;
    stores.settled(alloc)
}

/// The stores of a file: its own, and those of all files that it needs. The error: an allocation failed.
pub fn stores_of<J: RunId>(
    alloc: Global,
    home: u32,
    store: Frozen,
    reaches: StoreRow,
) -> Result<StoreRow, AllocError>
    requires own { IsOwn J.plan home store }
    requires needed { AreNeeded J.plan home (row_of reaches) }
    requires all { (k : ℕ) → Needs J.plan home k → IsListed (row_of reaches) k }
    ensures { IfOk result (λ stores. AreStores J.plan home (row_of stores)) }
{
    let own = Reach::new(alloc, home, store)?;
    stores_with::<J>(alloc, own, reaches)
}
