//! An entry: one thing to be mended, with its place, message, notes and help, as text.

use crate::explain::Form;
use crate::paint::{Color, push_colored, push_lines};
use star_label::files::Files;
use star_mistakes::message::{Part, push_message};
use star_mistakes::mistake::Mistake;
use star_mistakes::place::{Mark, label_of, push_column, push_place, push_source};
use std::alloc::{AllocError, Global};

/// How many files a line names at most.
const NAMED: usize = 3;

/// One thing to be mended.
#[derive(Drop)]
pub(crate) struct Entry {
    pub mark: Mark,
    /// Whether the place is certain, and carets stand below it; else its line is shown alone.
    pub is_certain: bool,
    pub code: &'static str,
    pub text: String,
    /// Lines below the source line, each with its end.
    pub notes: String,
    pub help: Option<String>,
    /// The file whose fault it is, if other files may fail by it.
    pub root: Option<usize>,
    /// Further files whose runs stop here, for the same reason.
    pub more: Vec<usize>,
}

/// What is shown of a source line and the carets below it: the line alone if its place is not certain.
fn shown(lines: &str, is_certain: bool) -> &str {
    if is_certain {
        return lines;
    }
    match lines.find('\n') {
        Some(end) => lines.get(..end).unwrap_or(lines),
        None => lines,
    }
}

impl Entry {
    /// The entry of a mistake.
    pub(crate) fn of(alloc: Global, mistake: Mistake, root: Option<usize>) -> Entry {
        let Mistake {
            mark,
            code,
            text,
            help,
        } = mistake;
        Entry {
            mark,
            is_certain: true,
            code,
            text,
            notes: String::new(alloc),
            help,
            root,
            more: Vec::new(alloc),
        }
    }

    /// Writes it, with the files that fail by it.
    pub(crate) fn push(
        &self,
        all: &mut String,
        alloc: Global,
        files: &Files,
        form: Form,
        failing: &[usize],
    ) -> Result<(), AllocError> {
        push_place(all, files, self.mark, form.naming)?;
        push_column(all, files, self.mark)?;
        all.push_str(": ")?;
        push_colored(all, "error", Color::Red, form.is_colored)?;
        let told = [
            Part::Plain(": "),
            Part::Plain(self.text.as_str()),
            Part::Plain(" ["),
            Part::Plain(self.code),
            Part::Plain("]\n"),
        ];
        push_message(all, &told)?;
        let mut lines = String::new(alloc);
        push_source(&mut lines, alloc, files, self.mark)?;
        push_lines(all, shown(lines.as_str(), self.is_certain), form.is_colored)?;
        self.push_below(all, files, form.is_colored, failing)?;
        all.push('\n')
    }

    /// Writes the lines below the source line: the notes, the help, and which files stop here or fail by it.
    pub(crate) fn push_below(
        &self,
        all: &mut String,
        files: &Files,
        is_colored: bool,
        failing: &[usize],
    ) -> Result<(), AllocError> {
        all.push_str(self.notes.as_str())?;
        if let Some(help) = &self.help {
            all.push_str("  ")?;
            push_colored(all, "help", Color::Cyan, is_colored)?;
            let cure = [
                Part::Plain(": "),
                Part::Plain(help.as_str()),
                Part::Plain("\n"),
            ];
            push_message(all, &cure)?;
        }
        push_files(all, files, self.more.as_slice(), MORE)?;
        push_files(all, files, failing, FAIL)
    }
}

/// A text of its own.
pub(crate) fn owned(alloc: Global, text: Option<&str>) -> Result<Option<String>, AllocError> {
    match text {
        Some(text) => Ok(Some(String::from_str(alloc, text)?)),
        None => Ok(None),
    }
}

/// The words for one file, and for several.
const MORE: [&str; 2] = ["more run stops here", "more runs stop here"];

const FAIL: [&str; 2] = ["file fails by it", "files fail by it"];

/// `N files fail by it: ..`, or nothing if there are no files.
fn push_files(
    all: &mut String,
    files: &Files,
    numbers: &[usize],
    said: [&str; 2],
) -> Result<(), AllocError> {
    let [of_one, of_several] = said;
    let said = match numbers.len() {
        0 => return Ok(()),
        1 => of_one,
        _ => of_several,
    };
    let front = [
        Part::Plain("  "),
        Part::Number(numbers.len()),
        Part::Plain(" "),
        Part::Plain(said),
        Part::Plain(": "),
    ];
    push_message(all, &front)?;
    for (i, n) in numbers.iter().take(NAMED).enumerate() {
        if i > 0 {
            all.push_str(", ")?;
        }
        all.push_str(label_of(files, *n))?;
    }
    if numbers.len() > NAMED {
        all.push_str(", ..")?;
    }
    all.push('\n')
}
