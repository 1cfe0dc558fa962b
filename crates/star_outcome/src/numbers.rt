//! Sets of file numbers: a bit for each number, 64 in a word.

ghost use Rattle.std.specs.Prelude.{◌≡◌, ◌≤◌, ◌↔◌, ◌⊎◌, ℕ, true, [], IfOk, OnErr, OnOk, length};
ghost use Rattle.star_outcome.specs.Numbers.{Has, HasAmong, HasRoom, IsIn};

use std::alloc::{AllocError, Global};
use std::marker::Model;

/// A word of a set, with its index: if bit `i` is 1, the set has the number `64 * index + i`.
#[derive(Clone, Copy)]
pub(crate) struct NumberWord {
    index: usize,
    bits: u64,
}

/// A set of file numbers: if bit `k % 64` of word `k / 64` is 1, it has the number `k`.
pub(crate) struct Numbers {
    words: Vec<u64>,
}

impl Drop for Numbers {
    fn drop(self) {
        let Numbers { words: _ } = self;
    }
}

impl Model for Numbers {
    ghost use Rattle.std.specs.Prelude.{ℕ, List};

    ghost Value = { List ℕ };

    ghost view = { λ s. s.words.items };
}

impl Numbers {
    /// No number.
    pub(crate) fn new(alloc: Global) -> Numbers
        ensures { result ≡ [] }
    {
        Numbers {
            words: Vec::new(alloc),
        }
    }

    /// Makes it this many words long, unless it is longer. If the allocation fails, the set is as it was.
    fn lengthen(&mut self, count: usize) -> Result<(), AllocError>
        ensures long { OnOk result (count ≤ length self.new) }
        ensures same { (k : ℕ) → Has self.new k ↔ Has self.old k }
        ensures refused { OnErr result (self.new ≡ self.old) }
    {
        if self.words.len() < count {
            self.words.resize(count, 0)?;
        }
        Ok(())
    }

    /// Makes room for a number. If the allocation fails, the set is as it was.
    pub(crate) fn make_room(&mut self, number: u32) -> Result<(), AllocError>
        ensures room { OnOk result (HasRoom self.new number) }
        ensures same { (k : ℕ) → Has self.new k ↔ Has self.old k }
        ensures refused { OnErr result (self.new ≡ self.old) }
    {
        self.lengthen((number / 64) as usize + 1)
    }

    /// Adds a number, for which there is room.
    pub(crate) fn insert(&mut self, number: u32)
        requires { HasRoom self.old number }
        ensures { (k : ℕ) → Has self.new k ↔ ((k ≡ number) ⊎ Has self.old k) }
    {
        self.words[(number / 64) as usize] |= 1u64 << (number % 64);
    }

    /// Adds the numbers of a word. The error: an allocation failed.
    fn insert_word(&mut self, word: &NumberWord) -> Result<(), AllocError>
        ensures { OnOk result ((k : ℕ) → Has self.new k → IsIn word.now k ⊎ Has self.old k) }
    {
        self.lengthen(word.index.saturating_add(1))?;
        if word.index < self.words.len() {
            self.words[word.index] |= word.bits;
        }
        Ok(())
    }

    /// Adds the numbers of these words. The error: an allocation failed.
    pub(crate) fn insert_all(&mut self, words: &[NumberWord]) -> Result<(), AllocError>
        ensures { OnOk result ((k : ℕ) → Has self.new k → HasAmong words.now k ⊎ Has self.old k) }
    {
        for word in words {
            self.insert_word(word)?;
        }
        Ok(())
    }

    /// Whether it has a number.
    pub(crate) fn has(&self, number: u32) -> bool
        ensures { result ≡ true → Has self.now number }
    {
        match self.words.get((number / 64) as usize) {
            Some(bits) => (*bits >> (number % 64)) & 1 == 1,
            None => false,
        }
    }

    /// Whether it has all numbers of this word.
    fn has_word(&self, word: &NumberWord) -> bool
        ensures { result ≡ true → (k : ℕ) → IsIn word.now k → Has self.now k }
    {
        match self.words.get(word.index) {
            Some(bits) => word.bits & *bits == word.bits,
            None => false,
        }
    }

    /// Whether it has all numbers of these words.
    pub(crate) fn has_all(&self, words: &[NumberWord]) -> bool
        ensures { result ≡ true → (k : ℕ) → HasAmong words.now k → Has self.now k }
    {
        for word in words {
            if !self.has_word(word) {
                return false;
            }
        }
        true
    }

    /// Its words, but for those without a number.
    pub(crate) fn words(&self, alloc: Global) -> Result<Vec<NumberWord>, AllocError>
        ensures { IfOk result (λ words. (k : ℕ) → HasAmong words.items k ↔ Has self.now k) }
    {
        let mut words = Vec::new(alloc);
        for index in 0..self.words.len() {
            let bits = self.words[index];
            if bits == 0 {
                continue;
            }
            words.push(NumberWord { index, bits })?;
        }
        Ok(words)
    }
}
