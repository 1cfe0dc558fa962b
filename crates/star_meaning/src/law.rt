//! Laws of the meaning, true of every run.

ghost use Rattle.star_meaning.specs.Laws.{MoreStepsMeanTheSame, RunsGrow, RunsKeep};
ghost use Rattle.star_meaning.specs.Places.{LoadsFit, PlacesMeanNames, SpotsMeanNames};
ghost use Rattle.star_meaning.specs.Programs.{ProgramsPlaceNames};

/// Whatever an expression or a statement does, at any levels and in any state: the lines printed and the cells only
/// grow in number, the steps only fall, and the module stays the same. A fault too keeps the lines that were printed
/// before. (`docs/LANGUAGE.md`, "The end of a file".)
pub fn runs_grow()
    ensures { RunsGrow }
{}

/// A file that does not end in `steps` means the same with any larger number of steps: the same globals, texts and
/// lines, or the same fault with the same lines. (`docs/LANGUAGE.md`, "The end of a file".)
pub fn more_steps_mean_the_same()
    ensures { MoreStepsMeanTheSame }
{}

/// If an expression or a statement ends well, the module and the active definitions are as before. Each cell keeps its
/// kind and the number of its open iterations; a frame keeps its block, its parent and the number of its slots; a list
/// or a dictionary that is being iterated keeps its items. Steps only fall and lines only grow. (`docs/LANGUAGE.md`,
/// "The end of a file".)
pub fn runs_keep()
    ensures { RunsKeep }
{}

/// In every chain of frames that fits the blocks around a name, the name is read and bound by its spot (a number of
/// frames up, and a slot) as it is by its name. (`docs/LANGUAGE.md`, "Blocks and variables".)
pub fn spots_mean_names()
    ensures { SpotsMeanNames }
{}

/// Let the tables be right for all files, and the functions of the published modules fit their blocks. Then the run of
/// a file by spots (each name a number of frames up, and a slot) is its run by names: the same outcome and the same
/// state. After it all functions fit, those of the published modules and its own. (`docs/LANGUAGE.md`, "Blocks and
/// variables".)
pub fn places_mean_names()
    ensures { PlacesMeanNames }
{}

/// If each function that a module sees before its run was seen by a module that it loaded, and all functions fitted
/// after that module's run, then all functions fit before its run too. So the premise of `places_mean_names` on the
/// published modules follows load by load. (`docs/LANGUAGE.md`, "Blocks and variables".)
pub fn loads_fit()
    ensures { LoadsFit }
{}

/// Let each file with a tree have its program: the answer of `resolve` for the file of this number, with the prelude
/// that it sees. Then the spots of the programs and the numbers of the names of their blocks are right for all these
/// files. This is the premise of `places_mean_names` on its tables. (`docs/LANGUAGE.md`, "Scopes and static faults" and
/// "Blocks and variables".)
pub fn programs_place_names()
    ensures { ProgramsPlaceNames }
{}
