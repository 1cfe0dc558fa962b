//! The text of one file, and the labels that it loads, apart from a run.

ghost use Rattle.std.specs.Prelude.{◌≡◌, ◌+◌, IfOk, IfErr, option_map, string_bytes};
ghost use Rattle.star_folder.specs.Refusal.{files_failed};
ghost use Rattle.star_label.specs.View.{text_of};
ghost use Rattle.star_repo.specs.Loading.{AreLoads};
ghost use Rattle.star_repo.specs.Text.{IsTextAt, IsUnfit};
ghost use Rattle.star_repo.specs.Views.{labels_of};

use crate::read::passed;
use crate::repo::Repo;
use crate::round::add_loads;
use star_bundle::error::ServeError;
use star_folder::folder::FolderError;
use star_label::label::Label;
use star_lex::token::SyntaxFault;
use star_parser::parse;
use std::alloc::{AllocError, Global};
use std::collections::BTreeSet;

/// The text of the file at a label, `None` if there is no file. It is refused as it would be if it were the only file
/// of a run: `BadFile`, it cannot be read; `TooLong`, it has more than 1,048,576 bytes; `NotText`, it is not UTF-8.
/// `Memory` if an allocation failed.
pub fn text_at<F: Repo>(
    alloc: Global,
    folder: &mut F,
    label: &Label,
) -> Result<Option<String>, ServeError>
    ensures text { IfOk result (λ text. IsTextAt (F.says folder.old (text_of label.now))
        (option_map string_bytes text)) }
    ensures refused { IfErr result (IsUnfit (F.says folder.old (text_of label.now))) }
    ensures same { F.says folder.new ≡ F.says folder.old }
    ensures failed { F.failed folder.new ≡ F.failed folder.old + files_failed result }
{
    match folder.find(alloc, label) {
        Ok(Some(bytes)) => match passed(0, 0, bytes) {
            Ok(text) => Ok(Some(text)),
            Err(error) => Err(error),
        },
        Ok(None) => Ok(None),
        Err(FolderError::Failed) => Err(ServeError::BadFile),
        Err(FolderError::Memory) => Err(ServeError::Memory),
    }
}

/// The labels that the load statements of the file with this label and text name, each once; none if the text does not
/// parse. ("Scopes and static faults" of `docs/LANGUAGE.md`: Loads.)
#[tactic(auto, using(crate::proofs::Loads::loads_of_text, crate::proofs::Loads::loads_of_none))]
pub fn loads_of(alloc: Global, label: &Label, text: &str) -> Result<BTreeSet<Label>, AllocError>
    ensures { IfOk result (λ loads. AreLoads (text_of label.now) text.now (labels_of loads.keys)) }
{
    let mut loads = BTreeSet::new(alloc);
    match parse(alloc, text) {
        Ok(tree) => {
            let statements = tree.statements.as_slice();
            add_loads(alloc, &mut loads, label.package(), statements)?;
            Ok(loads)
        }
        Err(SyntaxFault::Memory) => Err(AllocError),
        Err(_) => Ok(loads),
    }
}
