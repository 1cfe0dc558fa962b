//! The place where a run stopped, and the calls that led there.

ghost use Rattle.std.proofs.Props.{props};
ghost use Rattle.std.specs.Prelude.{◌≡◌, IfOk};
ghost use Rattle.star_explain.specs.Trail as spec;

use crate::words::{Lexicon, file_of};
use star_label::files::Files;
use star_meaning::story::Step;
use star_mistakes::place::{Line, Mark, Naming, push_column, push_place, text_of};
use std::alloc::{AllocError, Global};

/// The words before the place of a call.
const FROM: &str = "  called from ";

/// How many calls are listed.
const CALLS: usize = 10;

/// The trail of a fault, from the statement where it arose, through calls, to the statement of the file that ran. The
/// innermost statement of that file has the line that the report has.
#[derive(Drop)]
pub(crate) struct Trail {
    /// The file that ran.
    home: usize,
    /// The line of its fault in the report.
    line: usize,
    /// The statements and calls, the innermost first: none if they do not lead to that line.
    steps: Vec<Step>,
    ghost of_line: { spec.IsOfLine home line steps.items } by { Prim.hlevel props },
}

/// The line of the innermost statement of a file.
fn own_line(home: usize, steps: &[Step]) -> Option<usize>
    ensures { result ≡ spec.own_line home steps.now }
{
    for step in steps {
        if let Step::Statement { file, line, .. } = *step {
            if file as usize == home {
                return Some(line);
            }
        }
    }
    None
}

/// These steps, if the innermost statement of the file that ran has the line of the report, and else none. (The run may
/// have left out a step that found no memory.)
fn of_line(alloc: Global, home: usize, line: usize, steps: &[Step]) -> Result<Vec<Step>, AllocError>
    ensures { IfOk result (λ v. spec.IsOfLine home line v.items) }
{
    let mut kept = Vec::new(alloc);
    if own_line(home, steps) == Some(line) {
        kept.extend_from_slice(steps)?;
    }
    Ok(kept)
}

impl Trail {
    /// The trail of the fault of a file that has this line in the report.
    pub(crate) fn of(
        alloc: Global,
        home: usize,
        line: usize,
        steps: &[Step],
    ) -> Result<Trail, AllocError> {
        let steps = of_line(alloc, home, line, steps)?;
        Ok(Trail { home, line, steps })
    }

    /// The statements and calls, the innermost first.
    pub(crate) fn steps(&self) -> &[Step]
        ensures { spec.IsOfLine self.now.home self.now.line result.now }
    {
        self.steps.as_slice()
    }

    /// The line of the innermost statement, or of the lambda whose expression stopped.
    pub(crate) fn innermost(
        &self,
        files: &Files,
        lexicon: &mut Lexicon<'_>,
    ) -> Result<Mark, AllocError> {
        let (file, line) = match self.steps().first().copied() {
            Some(Step::Statement { file, line, .. }) => (usize::try_from(file).unwrap_or(0), line),
            Some(Step::Call { file, number }) => {
                let file = usize::try_from(file).unwrap_or(0);
                match lexicon.words(file)? {
                    Some(words) => (file, words.line(number)),
                    None => (self.home, self.line),
                }
            }
            _ => (self.home, self.line),
        };
        Ok(mark_of_line(files, file, line))
    }
}

/// The line of a file.
pub(crate) fn mark_of_line(files: &Files, file: usize, line: usize) -> Mark {
    Line::numbered(text_of(files, file), line).mark(file)
}

/// The line of a step, if it is a statement.
fn statement(step: Step) -> Option<(usize, usize)> {
    match step {
        Step::Statement { file, line, .. } => Some((usize::try_from(file).unwrap_or(0), line)),
        _ => None,
    }
}

/// The steps that have the calls which led to the innermost statement: of each call its name, else its statement.
fn calls_of(alloc: Global, steps: &[Step]) -> Result<Vec<Step>, AllocError> {
    let mut calls = Vec::new(alloc);
    let mut is_left = false;
    for step in steps {
        match *step {
            Step::Call { .. } => is_left = true,
            Step::Statement { .. } | Step::From { .. } if is_left => {
                is_left = false;
                calls.push(*step)?;
            }
            Step::Statement { .. } | Step::From { .. } => {}
        }
    }
    Ok(calls)
}

/// The place of a call; `None` if only its statement is known.
fn place_of(lexicon: &mut Lexicon<'_>, call: Step) -> Result<Option<Mark>, AllocError> {
    let Some(words) = lexicon.words(file_of(call))? else {
        return Ok(None);
    };
    let token = match call {
        Step::From { token, .. } => Some(token),
        Step::Statement { token, .. } => words.lone_call(token),
        Step::Call { .. } => None,
    };
    match token {
        Some(token) => Ok(words.mark(token)),
        None => Ok(None),
    }
}

/// The words before the place of a call: by the built-in function that called, if its word is that of one that calls.
fn words_of(lexicon: &mut Lexicon<'_>, call: Step) -> Result<&'static str, AllocError> {
    let Step::From { token, .. } = call else {
        return Ok(FROM);
    };
    let Some(words) = lexicon.words(file_of(call))? else {
        return Ok(FROM);
    };
    Ok(match words.word(token) {
        "sorted" => "  called by `sorted` from ",
        "max" => "  called by `max` from ",
        "min" => "  called by `min` from ",
        _ => FROM,
    })
}

/// The calls that led to the innermost statement, a line each.
pub(crate) fn callers(
    alloc: Global,
    files: &Files,
    lexicon: &mut Lexicon<'_>,
    naming: Naming,
    steps: &[Step],
) -> Result<String, AllocError> {
    let mut notes = String::new(alloc);
    let calls = calls_of(alloc, steps)?;
    for call in calls.iter().take(CALLS) {
        let place = place_of(lexicon, *call)?;
        let mark = match (place, statement(*call)) {
            (Some(mark), _) => mark,
            (None, Some((file, line))) => mark_of_line(files, file, line),
            (None, None) => continue,
        };
        notes.push_str(words_of(lexicon, *call)?)?;
        push_place(&mut notes, files, mark, naming)?;
        if place.is_some() {
            push_column(&mut notes, files, mark)?;
        }
        notes.push('\n')?;
    }
    if calls.len() > CALLS {
        notes.push_str("  ..\n")?;
    }
    Ok(notes)
}
