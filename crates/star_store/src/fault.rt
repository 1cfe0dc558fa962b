//! `StoreFault`: why an operation on a store or a value is refused.

ghost use Rattle.std.specs.Prelude.{◌≡◌};
ghost use Rattle.star_store.specs.declared.fault.StoreFault.TheVariants.{Memory};

use std::alloc::{AllocError, AllocFailed};
use thiserror::Error;

/// Why a call on a store refuses. The store is then as it was; steps that were paid stay paid.
#[derive(Clone, Copy, Debug, PartialEq, Eq, Drop, Error)]
pub enum StoreFault {
    /// The value belongs to a module that is published.
    #[error("the value is frozen")]
    Frozen,
    /// A loop iterates over the value now.
    #[error("the value is being iterated")]
    Iterating,
    /// The value has another type than is needed, or is not a key.
    #[error("the value has a wrong type")]
    BadType,
    /// The list has no such place.
    #[error("the index is out of range")]
    Index,
    /// The dictionary has no such key.
    #[error("the key is absent")]
    Key,
    /// The int is outside 64 bits.
    #[error("the int is out of range")]
    Overflow,
    /// An allocation failed.
    #[error("out of memory")]
    Memory,
    /// The next payment is larger than the steps that are left.
    #[error("no steps left")]
    Steps,
    /// Another level would be opened, but none is left.
    #[error("too many levels")]
    Deep,
}

impl From<AllocError> for StoreFault {
    ghost from_gives = { λ _ e. e ≡ Memory };

    fn from(_error: AllocError) -> StoreFault {
        StoreFault::Memory
    }
}

impl<T: Drop> From<AllocFailed<T>> for StoreFault {
    ghost from_gives = { λ _ e. e ≡ Memory };

    fn from(_error: AllocFailed<T>) -> StoreFault {
        StoreFault::Memory
    }
}
