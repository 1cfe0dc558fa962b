//! The blocks that bind each name of a file, to look names up quickly.

ghost use Rattle.std.specs.Prelude.{◌≡◌, ◌+◌, ℕ, List, true, map, Some, IfOk, OnOk};
ghost use Rattle.star_outline.specs.Binders.{AreBinders, Covers, binds, is_binder};
ghost use Rattle.star_outline.specs.Names.{has_name, slot_of};
ghost use Rattle.star_outline.specs.Outlines.{names_in};

use crate::blocks::Blocks;
use std::alloc::{AllocError, Global};
use std::collections::{BTreeMap, BTreeSet};
use std::marker::Model;

/// The numbers of the blocks that bind a name, each name by its own number.
#[derive(Drop)]
struct Binders<'t> {
    ids: BTreeMap<&'t str, usize>,
    numbers: Vec<BTreeSet<usize>>,
}

impl<'t> Binders<'t> {
    /// Records that the block with this number binds a name.
    fn add(&mut self, alloc: Global, name: &'t str, number: usize) -> Result<(), AllocError>
        ensures here { OnOk result (binds self.new name.now number ≡ true) }
        ensures kept { OnOk result ((n : List ℕ) (k : ℕ) → binds self.old n k ≡ true → binds self.new n k ≡ true) }
    {
        if let Some(id) = self.ids.get(name).copied() {
            if id < self.numbers.len() {
                self.numbers[id].insert(number)?;
                return Ok(());
            }
        }
        let id = self.numbers.len();
        let mut numbers = BTreeSet::new(alloc);
        numbers.insert(number)?;
        self.numbers.push(numbers)?;
        self.ids.insert(name, id)?;
        Ok(())
    }

    /// Records that the block with this number binds these names.
    fn add_all(&mut self, alloc: Global, names: &[&'t str], number: usize) -> Result<(), AllocError>
        ensures all { OnOk result ((n : List ℕ) → has_name (map (λ m. m.now) names.now) n ≡ true
            → binds self.new n number ≡ true) }
        ensures kept { OnOk result ((n : List ℕ) (k : ℕ) → binds self.old n k ≡ true → binds self.new n k ≡ true) }
    {
        for name in names {
            self.add(alloc, *name, number)?;
        }
        Ok(())
    }

    /// The binders of all names of these blocks.
    fn of(alloc: Global, blocks: &Blocks<'t>) -> Result<Binders<'t>, AllocError>
        ensures { IfOk result (λ binders. Covers blocks.now binders) }
    {
        let mut binders = Binders {
            ids: BTreeMap::new(alloc),
            numbers: Vec::new(alloc),
        };
        for block in blocks.as_slice() {
            binders.add_all(alloc, block.names.as_slice(), block.number)?;
        }
        Ok(binders)
    }

    /// The numbers of the blocks that bind a name.
    fn get(&self, name: &str) -> Option<&BTreeSet<usize>>
        ensures { (number : ℕ) → binds self.now name.now number ≡ true → is_binder result number ≡ true }
    {
        match self.ids.get(name) {
            Some(id) => self.numbers.get(*id),
            None => None,
        }
    }
}

/// The blocks of a file, and for each name the blocks that bind it. So a look-up through many nested blocks is quick,
/// though most of them do not bind the name.
#[derive(Drop)]
pub struct Bound<'s, 't> {
    blocks: &'s Blocks<'t>,
    binders: Binders<'t>,
}

impl<'s, 't> Model for Bound<'s, 't> {
    ghost use Rattle.std.specs.Prelude.{List};
    ghost use Rattle.star_outline.specs.declared.blocks.Block.{Block as OneBlock};
    ghost use Rattle.star_outline.specs.Binders.{Covers};

    ghost Value = { List OneBlock };

    ghost view = { λ b. b.blocks.now };

    ghost invariant = { λ b. Covers b.blocks.now b.binders };
}

impl<'s, 't> Bound<'s, 't> {
    pub fn of(alloc: Global, blocks: &'s Blocks<'t>) -> Result<Bound<'s, 't>, AllocError>
        ensures { IfOk result (λ bound. bound ≡ blocks.now) }
    {
        let binders = Binders::of(alloc, blocks)?;
        Ok(Bound { blocks, binders })
    }

    /// The numbers of exactly the blocks that bind a name.
    pub fn binders(&self, name: &str) -> Option<&BTreeSet<usize>>
        ensures { AreBinders self.now name.now result }
    {
        self.binders.get(name)
    }

    /// The slot of a name in the block with this number.
    pub fn slot(&self, number: usize, name: &str) -> Option<usize>
        ensures { result ≡ slot_of name.now (names_in self.now number) }
    {
        self.blocks.slot(number, name)
    }

    /// The slot of a name with these binders in the block that begins at this token.
    pub fn slot_at(
        &self,
        binders: Option<&BTreeSet<usize>>,
        token: usize,
        name: &str,
    ) -> Option<usize>
        requires { AreBinders self.now name.now binders }
        ensures { result ≡ slot_of name.now (names_in self.now (1 + token)) }
    {
        let Some(numbers) = binders else {
            return None;
        };
        match token.checked_add(1) {
            Some(number) if !numbers.contains(&number) => None,
            _ => self.blocks.slot_at(token, name),
        }
    }
}
