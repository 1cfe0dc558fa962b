//! The trail for a person.

ghost use Rattle.std.specs.Prelude.{◌≡◌, ◌⊎◌, [], All, MatchOption, Some, None, true};
ghost use Rattle.star_trail.specs.Trails.{IsStep, statements_in};

use crate::statements::begins_at;
use star_meaning::story::Step;
use star_reading::reading::{Read, Reads};
use star_tree::tree::Statement;

/// The statements of a file that was read and has no static fault.
fn statements_of<'r>(reads: &'r Reads<'_>, file: usize) -> Option<&'r [Statement]>
    ensures { MatchOption result (statements_in reads.now.all.items file ≡ None)
        (λ own. statements_in reads.now.all.items file ≡ Some own.now) }
{
    match reads.all.get(file) {
        Some(Some(Read::Program(program))) => Some(program.body()),
        _ => None,
    }
}

/// Whether a step that is a statement is a statement of the file that it names.
fn is_there(reads: &Reads, step: Step) -> bool
    ensures { result ≡ true → IsStep reads.now.all.items step }
{
    let Step::Statement { file, line, token } = step else {
        return true;
    };
    match statements_of(reads, file as usize) {
        Some(statements) => begins_at(statements, line, token),
        None => false,
    }
}

/// Whether each step that is a statement is a statement of the file that it names.
fn are_there(reads: &Reads, steps: &[Step]) -> bool
    ensures { result ≡ true → All (IsStep reads.now.all.items) steps.now }
{
    for step in steps {
        if !is_there(reads, *step) {
            return false;
        }
    }
    true
}

/// The steps that a fault has left, for a person: all of them if each statement among them is a statement of the file
/// that it names, else none. Tests show that a run leaves no others.
pub fn steps_there<'s>(reads: &Reads, steps: &'s [Step]) -> &'s [Step]
    ensures there { All (IsStep reads.now.all.items) result.now }
    ensures whole { (result.now ≡ steps.now) ⊎ (result.now ≡ []) }
{
    if are_there(reads, steps) { steps } else { &[] }
}
