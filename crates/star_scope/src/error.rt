//! `ScopeFault`: the static faults of a file's names, loads and statements, and their order.

ghost use Rattle.std.specs.Prelude.{◌≡◌, Some};
ghost use Rattle.star_scope.specs.declared.error.ScopeFault.TheVariants.{Memory};
ghost use Rattle.star_scope.specs.Faults.{rank, comes_before, earlier};

use std::alloc::{AllocError, AllocFailed};
use thiserror::Error;

/// Why a file has no program (`docs/LANGUAGE.md`, "Scopes and static faults"). Each fault has the line of its token.
#[derive(Clone, Copy, Debug, PartialEq, Eq, Error)]
pub enum ScopeFault {
    /// A name is read that no block around it and no built-in binds.
    #[error("undefined name in line {line}")]
    Undefined { line: usize },
    /// `return` outside of a function, `break` or `continue` outside of a loop of the same function, or `load`
    /// elsewhere than as a statement of the file itself.
    #[error("misplaced statement in line {line}")]
    BadPlace { line: usize },
    /// A parameter is named twice, or a loaded name is loaded twice or also bound in the file's block.
    #[error("conflicting name in line {line}")]
    Conflict { line: usize },
    /// A loaded name begins with `_`.
    #[error("private name in line {line}")]
    Private { line: usize },
    /// A load names a file that does not exist.
    #[error("no such file in line {line}")]
    NoFile { line: usize },
    /// The module string of a load is not a label.
    #[error("bad label in line {line}")]
    BadLabel { line: usize },
    /// An allocation failed.
    #[error("out of memory")]
    Memory,
}

impl From<AllocError> for ScopeFault {
    ghost from_gives = { λ _ e. e ≡ Memory };

    fn from(_error: AllocError) -> ScopeFault {
        ScopeFault::Memory
    }
}

impl<T: Drop> From<AllocFailed<T>> for ScopeFault {
    ghost from_gives = { λ _ e. e ≡ Memory };

    fn from(_error: AllocFailed<T>) -> ScopeFault {
        ScopeFault::Memory
    }
}

impl ScopeFault {
    /// The number of its kind. Of two faults at one token the one with the lower number comes first.
    pub fn rank(self) -> u8
        ensures { result ≡ rank self }
    {
        match self {
            ScopeFault::Undefined { .. } => 1,
            ScopeFault::BadPlace { .. } => 2,
            ScopeFault::Conflict { .. } => 3,
            ScopeFault::Private { .. } => 4,
            ScopeFault::NoFile { .. } => 5,
            ScopeFault::BadLabel { .. } => 6,
            ScopeFault::Memory => 7,
        }
    }
}

/// A fault with the number of its token.
#[derive(Clone, Copy, Debug, PartialEq, Eq)]
pub struct LocatedFault {
    pub token: usize,
    pub fault: ScopeFault,
}

impl LocatedFault {
    /// Whether it comes before another fault: its token comes first, or it has the same token and the lower number.
    pub fn comes_before(self, other: LocatedFault) -> bool
        ensures { result ≡ comes_before self other }
    {
        self.token < other.token
            || (self.token == other.token && self.fault.rank() < other.fault.rank())
    }
}

/// The earlier of the fault found so far and one more.
pub fn earlier(found: Option<LocatedFault>, more: LocatedFault) -> Option<LocatedFault>
    ensures { result ≡ earlier found more }
{
    match found {
        Some(first) => {
            if more.comes_before(first) {
                Some(more)
            } else {
                Some(first)
            }
        }
        None => Some(more),
    }
}
