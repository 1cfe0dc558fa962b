//! Why the files of a run were not read: a refusal, with its label.

ghost use Rattle.std.specs.Prelude.{◌≡◌};
ghost use Rattle.star_repo.specs.declared.error.ReadError.TheVariants.{Memory};

use star_bundle::error::ServeError;
use star_label::label::Label;
use std::alloc::{AllocError, AllocFailed};
use thiserror::Error;

/// Why the files of a run were not read.
#[derive(Debug, Drop, Error)]
pub enum ReadError {
    /// The file of a label is refused.
    #[error("{error}: {label}")]
    Refused { label: Label, error: ServeError },
    /// An allocation failed.
    #[error("out of memory")]
    Memory,
}

/// Why there is no report of the files that roots reach in a folder.
#[derive(Debug, Drop, Error)]
pub enum RepoError {
    /// The file of a label is refused: `BadFile`, `TooMany`, `TooLong`, `NotText` or `TooBig`.
    #[error("{error}: {label}")]
    File { label: Label, error: ServeError },
    /// Anything else.
    #[error("{error}")]
    Run { error: ServeError },
}

impl From<AllocError> for ReadError {
    ghost from_gives = { λ _ e. e ≡ Memory };

    fn from(_error: AllocError) -> ReadError {
        ReadError::Memory
    }
}

impl<T: Drop> From<AllocFailed<T>> for ReadError {
    ghost from_gives = { λ _ e. e ≡ Memory };

    fn from(_error: AllocFailed<T>) -> ReadError {
        ReadError::Memory
    }
}
