//! The blocks of a file: the file itself, functions and comprehensions, with the names that each binds.

ghost use Rattle.std.specs.Prelude.{◌≡◌, ◌∷◌, ◌++◌, ◌+◌, ◌==◌, ℕ, [], length, map, OnOk};
ghost use Rattle.std.specs.Option.{option_copied, unwrap_or};
ghost use Rattle.star_outline.specs.Names.{slot_of, with_name};
ghost use Rattle.star_outline.specs.Outlines.{names_in};

use crate::index::Index;
use std::alloc::{AllocError, Global};
use std::collections::BTreeMap;
use std::marker::Model;

/// The names of a block, each once, in the order of their first bindings. A name's slot is its index among them.
pub struct BlockNames<'t> {
    names: Vec<&'t str>,
    slots: BTreeMap<&'t str, usize>,
}

impl Drop for BlockNames<'_> {
    fn drop(self) {
        let BlockNames { names: _, slots: _ } = self;
    }
}

impl<'t> Model for BlockNames<'t> {
    ghost use Rattle.std.specs.Prelude.{List, ℕ, map};
    ghost use Rattle.star_outline.specs.Index.{HaveSlots};

    ghost Value = { List (List ℕ) };

    ghost view = { λ b. map (λ n. n.now) b.names.items };

    ghost invariant = { λ b. HaveSlots (map (λ n. n.now) b.names.items) b.slots };
}

impl<'t> BlockNames<'t> {
    pub fn new(alloc: Global) -> BlockNames<'t>
        ensures { result ≡ [] }
    {
        BlockNames {
            names: Vec::new(alloc),
            slots: BTreeMap::new(alloc),
        }
    }

    /// The slot of a name; `None` if the block does not bind it.
    pub fn slot(&self, name: &str) -> Option<usize>
        ensures { result ≡ slot_of name.now self.now }
    {
        self.slots.get(name).copied()
    }

    /// The number of names.
    pub fn len(&self) -> usize
        ensures { result ≡ length self.now }
    {
        self.names.len()
    }

    /// Whether the block has no names.
    pub fn is_empty(&self) -> bool
        ensures { result ≡ (length self.now == 0) }
    {
        self.names.is_empty()
    }

    /// The names, in the order of their slots.
    pub fn as_slice(&self) -> &[&'t str]
        ensures { map (λ n. n.now) result.now ≡ self.now }
    {
        self.names.as_slice()
    }

    /// Adds a name, if it is not there yet.
    pub fn add(&mut self, name: &'t str) -> Result<(), AllocError>
        ensures { OnOk result (self.new ≡ with_name self.old name.now) }
    {
        if self.slots.contains_key(name) {
            return Ok(());
        }
        let slot = self.names.len();
        self.names.push(name)?;
        match self.slots.insert(name, slot) {
            Ok(_) => Ok(()),
            Err(refused) => {
                self.names.truncate(slot);
                Err(AllocError::from(refused))
            }
        }
    }
}

/// A block. The file's own block has number 0, the block of a definition or a comprehension one more than the number of
/// its first token.
pub struct Block<'t> {
    pub number: usize,
    pub names: BlockNames<'t>,
}

impl Drop for Block<'_> {
    fn drop(self) {
        let Block {
            number: _,
            names: _,
        } = self;
    }
}

/// The blocks of a file. Of two blocks with one number the first is found.
pub struct Blocks<'t> {
    blocks: Vec<Block<'t>>,
    index: Index,
}

impl Drop for Blocks<'_> {
    fn drop(self) {
        let Blocks {
            blocks: _,
            index: _,
        } = self;
    }
}

impl<'t> Model for Blocks<'t> {
    ghost use Rattle.std.specs.Prelude.{List};
    ghost use Rattle.star_outline.specs.declared.blocks.Block.{Block as OneBlock};
    ghost use Rattle.star_outline.specs.Index.{Finds};

    ghost Value = { List OneBlock };

    ghost view = { λ b. b.blocks.items };

    ghost invariant = { λ b. Finds (λ x. x.number) b.blocks.items b.index };
}

impl<'t> Blocks<'t> {
    pub fn new(alloc: Global) -> Blocks<'t>
        ensures { result ≡ [] }
    {
        Blocks {
            blocks: Vec::new(alloc),
            index: Index::new(alloc),
        }
    }

    /// All blocks.
    pub fn as_slice(&self) -> &[Block<'t>]
        ensures { result.now ≡ self.now }
    {
        self.blocks.as_slice()
    }

    /// The slot of a name in the block with this number; `None` if the block does not bind it.
    pub fn slot(&self, number: usize, name: &str) -> Option<usize>
        ensures { result ≡ slot_of name.now (names_in self.now number) }
    {
        match self.index.get(number) {
            Some(place) => self.blocks[place].names.slot(name),
            None => None,
        }
    }

    /// The slot of a name in the block that begins at this token; `None` if no block begins there, or it does not bind
    /// the name.
    pub fn slot_at(&self, token: usize, name: &str) -> Option<usize>
        ensures { result ≡ slot_of name.now (names_in self.now (1 + token)) }
    {
        match self.index.get_after(token) {
            Some(place) => self.blocks[place].names.slot(name),
            None => None,
        }
    }

    /// The names of the block with this number; `None` if no block has it.
    pub fn names(&self, number: usize) -> Option<&BlockNames<'t>>
        ensures { unwrap_or (option_copied result) [] ≡ names_in self.now number }
    {
        match self.index.get(number) {
            Some(place) => Some(&self.blocks[place].names),
            None => None,
        }
    }

    /// Adds a block.
    pub fn push(&mut self, number: usize, names: BlockNames<'t>) -> Result<(), AllocError>
        ensures { OnOk result (self.new ≡ self.old ++ record { number = number; names = names.entry } ∷ []) }
    {
        let place = self.blocks.len();
        self.blocks.push(Block { number, names })?;
        match self.index.put(number, place) {
            Ok(()) => Ok(()),
            Err(error) => {
                self.blocks.truncate(place);
                Err(error)
            }
        }
    }

    /// Adds a block that begins at this token.
    pub fn push_at(&mut self, token: usize, names: BlockNames<'t>) -> Result<(), AllocError>
        ensures { OnOk result (self.new ≡ self.old ++ record { number = 1 + token; names = names.entry } ∷ []) }
    {
        self.index.reach(token)?;
        self.push(token + 1, names)
    }
}
