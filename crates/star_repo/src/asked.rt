//! The files of a run that is asked for by the texts of labels.

ghost use Rattle.std.specs.Prelude.{◌≡◌, ◌+◌, IfOk, IfErr, option_map, string_bytes};
ghost use Rattle.star_repo.specs.Asked.{AreFilesFor, IsUnread, finds_failed};
ghost use Rattle.star_repo.specs.Parsed.{AreFilesParsed, AreKnown};
ghost use Rattle.star_words.specs.Named.{AreLabels, texts_of};

use crate::error::{ReadError, RepoError};
use crate::parse::Parsing;
use crate::reach::{Reached, read_reached};
use crate::repo::Repo;
use star_bundle::error::ServeError;
use star_words::named::asked_labels;
use std::alloc::Global;
use std::sync::Wait;
use std::thread::Threads;

/// As `read_reached`, for the texts of the labels of roots and of a prelude. Before anything is read, `BadRoot` if a
/// root is not a label in normal form, else `BadPrelude` if the prelude is not one.
pub fn read_asked<'t, R: Threads + Wait + Sync, F: Repo>(
    rt: &R,
    alloc: Global,
    folder: &mut F,
    parsing: Parsing<'_, 't>,
    roots: &[String],
    prelude: Option<&String>,
) -> Result<Reached<'t>, RepoError>
    requires known { AreKnown parsing.known }
    ensures files { IfOk result (λ r. AreFilesFor (F.says folder.old) (texts_of roots.now)
        (option_map (λ p. string_bytes p.now) prelude.entry) r.files) }
    ensures labels { IfOk result (λ _. AreLabels (texts_of roots.now)
        (option_map (λ p. string_bytes p.now) prelude.entry)) }
    ensures parsed { IfOk result (λ r. AreFilesParsed r.files r.parses.items) }
    ensures refused { IfErr result (IsUnread (F.says folder.old) (texts_of roots.now)
        (option_map (λ p. string_bytes p.now) prelude.entry)) }
    ensures failed { F.failed folder.new ≡ F.failed folder.old + finds_failed result }
{
    let labels = match asked_labels(alloc, roots, prelude) {
        Ok(labels) => labels,
        Err(error) => return Err(RepoError::Run { error }),
    };
    match read_reached(rt, alloc, folder, parsing, labels) {
        Ok(reached) => Ok(reached),
        Err(ReadError::Refused { label, error }) => Err(RepoError::File { label, error }),
        Err(ReadError::Memory) => Err(RepoError::Run {
            error: ServeError::Memory,
        }),
    }
}
