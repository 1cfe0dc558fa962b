//! How the contents of keys are hashed: by a seed that differs from run to run, so nobody who writes a file can choose
//! keys that all collide. No answer depends on it.

use std::hash::{BuildHasher, FoldHasher, Hasher};

/// Makes the hashers of an index. Each begins as one that was fed the seed.
#[derive(Clone, Copy)]
pub(crate) struct SeededState {
    initial: FoldHasher,
}

impl SeededState {
    pub(crate) fn new(seed: u64) -> SeededState {
        let mut initial = FoldHasher::default();
        initial.write(&seed.to_le_bytes());
        SeededState { initial }
    }
}

impl BuildHasher for SeededState {
    type Hasher = FoldHasher;

    ghost build_hasher = { λ s. s.initial };

    fn build_hasher(&self) -> FoldHasher {
        self.initial
    }
}
