//! The stores that a module reaches: its file's own, and those of all files that its loads lead to.

ghost use Rattle.std.specs.Prelude.{◌≡◌, ◌↔◌, ◌++◌, ◌∷◌, [], ℕ, Contains, IfOk, IfSome, OnErr, OnOk, map};
ghost use Rattle.star_outcome.specs.Gathered.{IsListed};
ghost use Rattle.star_outcome.specs.Numbers.{AreNumbersOf, Has};
ghost use Rattle.star_outcome.specs.Reaches.{row_of, shared_of};

use crate::numbers::{NumberWord, Numbers};
use star_store::arena::Frozen;
use std::alloc::{AllocError, Global};
use std::marker::Model;
use std::sync::Arc;

/// A row with this many stores beside its blocks turns them into a further block.
const MERGE_FROM: usize = 32;

/// The store of a file, shared by all modules that reach it.
pub struct Reach {
    number: u32,
    store: Arc<Box<Frozen>>,
}

impl Drop for Reach {
    fn drop(self) {
        let Reach {
            number: _,
            store: _,
        } = self;
    }
}

impl Model for Reach {
    ghost use Rattle.std.specs.Arc.{arc_value};
    ghost use Rattle.star_outcome.specs.Reaches.{ReachView};

    ghost Value = { ReachView };

    ghost view = { λ r. record { number = r.number; store = (arc_value r.store).value } };
}

impl Reach {
    /// The store of this file.
    pub(crate) fn new(alloc: Global, number: u32, store: Frozen) -> Result<Reach, AllocError>
        ensures { IfOk result (λ r. r ≡ record { number = number; store = store }) }
    {
        let store = Arc::new(alloc, Box::new(alloc, store)?)?;
        Ok(Reach { number, store })
    }

    /// The number of its file.
    pub(crate) fn number(&self) -> u32
        ensures { result ≡ self.now.number }
    {
        self.number
    }

    /// The store.
    pub(crate) fn store(&self) -> &Frozen
        ensures { result.now ≡ self.now.store }
    {
        &**self.store
    }

    /// A copy that shares the store.
    pub(crate) fn again(&self) -> Result<Reach, AllocError>
        ensures { IfOk result (λ r. r ≡ self.now) }
    {
        let store = Arc::try_clone(&self.store)?;
        Ok(Reach {
            number: self.number,
            store,
        })
    }
}

/// Several stores, and the set of their files' numbers.
pub(crate) struct Block {
    stores: Vec<Reach>,
    numbers: Vec<NumberWord>,
}

impl Drop for Block {
    fn drop(self) {
        let Block {
            stores: _,
            numbers: _,
        } = self;
    }
}

impl Model for Block {
    ghost use Rattle.std.specs.Prelude.{List};
    ghost use Rattle.star_outcome.specs.Numbers.{AreNumbersOf};
    ghost use Rattle.star_outcome.specs.Reaches.{ReachView};

    ghost Value = { List ReachView };

    ghost view = { λ b. b.stores.items };

    ghost invariant = { λ b. AreNumbersOf b.numbers.items b.stores.items };
}

impl Block {
    /// A block of these stores.
    fn new(alloc: Global, stores: Vec<Reach>) -> Result<Block, AllocError>
        ensures { IfOk result (λ b. b ≡ stores.items) }
    {
        let set = numbers_of(alloc, stores.as_slice())?;
        let numbers = set.words(alloc)?;
        Ok(Block { stores, numbers })
    }

    /// Its stores.
    pub(crate) fn stores(&self) -> &[Reach]
        ensures { result.now ≡ self.now }
    {
        self.stores.as_slice()
    }

    /// The numbers of their files.
    pub(crate) fn numbers(&self) -> &[NumberWord]
        ensures { AreNumbersOf result.now self.now }
    {
        self.numbers.as_slice()
    }
}

/// The numbers of the files of these stores.
fn numbers_of(alloc: Global, stores: &[Reach]) -> Result<Numbers, AllocError>
    ensures { IfOk result (λ numbers. (k : ℕ) → Has numbers k ↔ Contains (map (λ r. r.number) stores.now) k) }
{
    let mut numbers = Numbers::new(alloc);
    for reach in stores {
        let number = reach.number();
        numbers.make_room(number)?;
        numbers.insert(number);
    }
    Ok(numbers)
}

/// A row of stores. The first are in blocks that it shares with the rows of other files. So the rows of a chain of
/// files take memory in proportion to the chain, and a row is shared in few steps.
pub struct StoreRow {
    blocks: Vec<Arc<Block>>,
    more: Vec<Reach>,
}

impl Drop for StoreRow {
    fn drop(self) {
        let StoreRow { blocks: _, more: _ } = self;
    }
}

impl Model for StoreRow {
    ghost use Rattle.star_outcome.specs.Reaches.{StoreRowView, shared_of};

    ghost Value = { StoreRowView };

    ghost view = { λ s. record { base = shared_of s.blocks.items; more = s.more.items } };
}

impl StoreRow {
    /// No store.
    pub(crate) fn new(alloc: Global) -> StoreRow
        ensures { result ≡ record { base = []; more = [] } }
    {
        StoreRow {
            blocks: Vec::new(alloc),
            more: Vec::new(alloc),
        }
    }

    /// The stores in the blocks of another row.
    pub(crate) fn over(alloc: Global, other: &StoreRow) -> Result<StoreRow, AllocError>
        ensures { IfOk result (λ s. s ≡ record { base = other.now.base; more = [] }) }
    {
        let blocks = share_each(alloc, other.blocks.as_slice())?;
        Ok(StoreRow {
            blocks,
            more: Vec::new(alloc),
        })
    }

    /// The blocks of its first stores.
    pub(crate) fn blocks(&self) -> &[Arc<Block>]
        ensures { shared_of result.now ≡ self.now.base }
    {
        self.blocks.as_slice()
    }

    /// The number of its stores in blocks, which others may share.
    pub(crate) fn shared(&self) -> usize {
        let mut count: usize = 0;
        for block in &self.blocks {
            count = count.saturating_add(block.stores().len());
        }
        count
    }

    /// The numbers of the files of its stores in blocks.
    pub(crate) fn numbers(&self, alloc: Global) -> Result<Numbers, AllocError>
        ensures { IfOk result (λ numbers. (k : ℕ) → Has numbers k → IsListed self.now.base k) }
    {
        numbers_in(alloc, self.blocks.as_slice())
    }

    /// The stores after them.
    pub(crate) fn more(&self) -> &[Reach]
        ensures { result.now ≡ self.now.more }
    {
        self.more.as_slice()
    }

    /// The store that was added last, if there is any.
    pub(crate) fn last(&self) -> Option<&Reach>
        ensures { IfSome result (λ r. Contains (row_of self.now) r.now) }
    {
        match self.more.last() {
            Some(reach) => Some(reach),
            None => last_in(self.blocks.as_slice()),
        }
    }

    /// Adds a store that another row has as well. If an allocation fails, the row is as it was.
    pub(crate) fn push_again(&mut self, reach: &Reach) -> Result<(), AllocError>
        ensures added { OnOk result (row_of self.new ≡ row_of self.old ++ reach.now ∷ []) }
        ensures refused { OnErr result (self.new ≡ self.old) }
    {
        self.push(reach.again()?)
    }

    /// Adds a store. If an allocation fails, the row is as it was.
    pub(crate) fn push(&mut self, reach: Reach) -> Result<(), AllocError>
        ensures added { OnOk result (row_of self.new ≡ row_of self.old ++ reach ∷ []) }
        ensures refused { OnErr result (self.new ≡ self.old) }
    {
        self.more.push(reach)?;
        Ok(())
    }

    /// The same stores. If 32 or more of them are not in blocks yet, these become a further block.
    pub(crate) fn settled(self, alloc: Global) -> Result<StoreRow, AllocError>
        ensures { IfOk result (λ s. row_of s ≡ row_of self) }
    {
        if self.more.len() < MERGE_FROM {
            return Ok(self);
        }
        let StoreRow { mut blocks, more } = self;
        blocks.push(Arc::new(alloc, Block::new(alloc, more)?)?)?;
        Ok(StoreRow {
            blocks,
            more: Vec::new(alloc),
        })
    }
}

/// The numbers of the files of the stores in these blocks.
fn numbers_in(alloc: Global, blocks: &[Arc<Block>]) -> Result<Numbers, AllocError>
    ensures { IfOk result (λ numbers. (k : ℕ) → Has numbers k → IsListed (shared_of blocks.now) k) }
{
    let mut numbers = Numbers::new(alloc);
    for block in blocks {
        numbers.insert_all(block.numbers())?;
    }
    Ok(numbers)
}

/// The last store of the last block.
fn last_in(blocks: &[Arc<Block>]) -> Option<&Reach>
    ensures { IfSome result (λ r. Contains (shared_of blocks.now) r.now) }
{
    match blocks.last() {
        Some(block) => block.stores().last(),
        None => None,
    }
}

/// A copy of the blocks, with the stores shared.
fn share_each(alloc: Global, blocks: &[Arc<Block>]) -> Result<Vec<Arc<Block>>, AllocError>
    ensures { IfOk result (λ shared. shared_of shared.items ≡ shared_of blocks.now) }
{
    let mut shared = Vec::with_capacity(alloc, blocks.len())?;
    for block in blocks {
        shared.push(Arc::try_clone(block)?)?;
    }
    Ok(shared)
}
