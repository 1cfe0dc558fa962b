//! Laws of the keys of dictionaries and the globals that occur only once in all that a run leaves.

ghost use Rattle.star_once.specs.Names.{GlobalsStandOnce};
ghost use Rattle.star_once.specs.Results.{EqualResultsAreSame, ResultsKeepKeys};
ghost use Rattle.star_once.specs.Laws.{DifferentKeysStandOnce, FilesKeepKeys, FrozenKeysStandOnce, LoadsKeepKeys, RunsKeepKeys};

/// If keys differ before an expression or a statement that ends well, they differ after it: whatever it puts into
/// dictionaries, no key is there twice. (`docs/LANGUAGE.md`, "Equality, order, keys and texts".)
pub fn runs_keep_keys()
    ensures { RunsKeepKeys }
{}

/// The same holds for the run of a file.
pub fn files_keep_keys()
    ensures { FilesKeepKeys }
{}

/// If keys differ, no dictionary has a string twice as a key.
pub fn different_keys_stand_once()
    ensures { DifferentKeysStandOnce }
{}

/// Keys that differ in all that the loaded modules saw differ in all that a module sees before its run.
pub fn loads_keep_keys()
    ensures { LoadsKeepKeys }
{}

/// On the shelf of a module that ended well no dictionary has a string twice as a key.
pub fn frozen_keys_stand_once()
    ensures { FrozenKeysStandOnce }
{}

/// If a file of a plan ended well, no dictionary in its module or in those that it reaches has a string twice as a key.
pub fn results_keep_keys()
    ensures { ResultsKeepKeys }
{}

/// So two values there that are equal and have JSON have the same JSON, if there is no set in the left one.
/// (`docs/USING.md`, "Values as JSON".)
pub fn equal_results_are_same()
    ensures { EqualResultsAreSame }
{
    star_data::equal_are_same();
}

/// No two globals of a file have the same name, and there are as many texts, of the same names. (`docs/LANGUAGE.md`,
/// "The end of a file".)
pub fn globals_stand_once()
    ensures { GlobalsStandOnce }
{}
