//! Why lines have no join.

ghost use Rattle.std.specs.Prelude.{◌≡◌};
ghost use Rattle.star_shards.specs.declared.refusal.Refusal.TheVariants.{Memory};

use std::alloc::{AllocError, AllocFailed};

/// Why lines have no join.
#[derive(Clone, Copy, Debug, PartialEq, Eq)]
pub enum Refusal<'a> {
    /// The line with this number, counted from 0, is no report, or one that left modules out.
    NoReport(usize),
    /// Some lines are reports of a run, and some of a check.
    Mixed,
    /// Two lines have different entries for this label.
    Differ(&'a [u8]),
    /// An allocation failed.
    Memory,
}

impl<'a> From<AllocError> for Refusal<'a> {
    ghost from_gives = { λ _ e. e ≡ Memory };

    fn from(_error: AllocError) -> Refusal<'a> {
        Refusal::Memory
    }
}

impl<'a, T: Drop> From<AllocFailed<T>> for Refusal<'a> {
    ghost from_gives = { λ _ e. e ≡ Memory };

    fn from(_error: AllocFailed<T>) -> Refusal<'a> {
        Refusal::Memory
    }
}
