//! The law of the parser: a text has one answer.

ghost use Rattle.star_parser.specs.Laws.{OneAnswer};

/// Whatever `parse` may answer for a text, it is one answer: the same tree or the same fault, want of memory aside.
/// (`docs/LANGUAGE.md`, "Grammar".)
pub fn one_answer()
    ensures { OneAnswer }
{}
