//! The refusals: why there is no report, their texts, and the exit status.

ghost use Rattle.std.specs.Prelude.{◌≡◌};
ghost use Rattle.star_bundle.specs.Refusal.{status_of, text_of};
ghost use Rattle.star_bundle.specs.declared.error.ServeError.TheVariants.{Memory};

use std::alloc::{AllocError, AllocFailed};
use thiserror::Error;

/// Why there is no report, by `docs/USING.md`, "Refusals".
#[derive(Clone, Copy, Debug, PartialEq, Eq, Error)]
#[error("{text}", text = self.text())]
pub enum ServeError {
    /// A read failed.
    Read,
    /// More than 268,435,456 bytes were read, or the texts of a folder have more.
    TooBig,
    /// A folder could not be listed.
    BadDir,
    /// A file could not be read.
    BadFile,
    /// A file is not UTF-8.
    NotText,
    /// The input is not a JSON object of texts.
    BadBundle,
    /// A key of the bundle is not a label in normal form.
    BadKey,
    /// There are more than 10,000 files, or more than 100,000 entries of folders were listed.
    TooMany,
    /// A text has more than 1,048,576 bytes.
    TooLong,
    /// A root is not a label in normal form.
    BadRoot,
    /// A root is the label of no file.
    NoRoot,
    /// The prelude is not a label in normal form.
    BadPrelude,
    /// The prelude is the label of no file.
    NoPrelude,
    /// A name whose calls are to be recorded is no such name, or the calls of another name are asked for.
    BadRecord,
    /// An allocation failed. It may come at any point.
    Memory,
    /// A write failed. The output may be partial.
    Write,
    /// A cell did not take a module.
    Unpublished,
}

impl ServeError {
    /// The text of the refusal on standard error.
    pub fn text(&self) -> &'static str
        ensures { result.now ≡ text_of self.now }
    {
        match self {
            ServeError::Read => "cannot read the bundle",
            ServeError::TooBig => "bundle too big",
            ServeError::BadDir => "cannot list the folder",
            ServeError::BadFile => "cannot read a file",
            ServeError::NotText => "a file is not text",
            ServeError::BadBundle => "not a JSON object of texts",
            ServeError::BadKey => "bad label in the bundle",
            ServeError::TooMany => "too many files",
            ServeError::TooLong => "file too long",
            ServeError::BadRoot => "bad root",
            ServeError::NoRoot => "no such root",
            ServeError::BadPrelude => "bad prelude",
            ServeError::NoPrelude => "no such prelude",
            ServeError::BadRecord => "bad record",
            ServeError::Memory => "out of memory",
            ServeError::Write => "cannot write the report",
            ServeError::Unpublished => "module not published",
        }
    }
}

impl From<AllocError> for ServeError {
    ghost from_gives = { λ _ e. e ≡ Memory };

    fn from(_error: AllocError) -> ServeError {
        ServeError::Memory
    }
}

impl<T: Drop> From<AllocFailed<T>> for ServeError {
    ghost from_gives = { λ _ e. e ≡ Memory };

    fn from(_error: AllocFailed<T>) -> ServeError {
        ServeError::Memory
    }
}

/// The exit status of the program, by `docs/USING.md`, "Statuses".
pub fn status(outcome: &Result<bool, ServeError>) -> u8
    ensures { result ≡ status_of outcome.now }
{
    match outcome {
        Ok(true) => 0,
        Ok(false) => 1,
        Err(_) => 2,
    }
}
