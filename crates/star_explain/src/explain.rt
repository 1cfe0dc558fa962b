//! The whole text for a person: an entry for each cause, and a count of the files that fail by it.

use crate::cycles::Cycles;
use crate::ends::{End, Ends, EvalError};
use crate::entry::{Entry, owned};
use crate::pages::page_of;
use crate::tools::{log_of, push_command, result_of};
use crate::trail::{callers, mark_of_line};
use crate::words::Lexicon;
use star_check::verdict::Judged;
use star_meaning::fault::FaultCode;
use star_mistakes::message::{Part, message, push_message};
use star_mistakes::place::{Mark, Naming};
use star_mistakes::statics::Sources;
use star_outcome::outcome::Run;
use star_reading::code::{StaticFault, StaticFaultCode, code_text};
use star_reading::reading::Reads;
use std::alloc::{AllocError, Global};

/// How many entries are shown, unless all are asked for.
const ENTRIES: usize = 20;

/// For whom the entries are written.
#[derive(Clone, Copy, Debug, PartialEq, Eq)]
pub enum Style {
    /// For a person.
    Text,
    /// As workflow commands of GitHub, a line each.
    Github,
    /// As one log of SARIF.
    Sarif,
}

/// Which entries are shown, and how.
#[derive(Clone, Copy, Debug)]
pub struct Form {
    pub style: Style,
    /// How files are named.
    pub naming: Naming,
    /// All entries are shown.
    pub is_whole: bool,
    /// Words, signs and lines have the colours of a terminal.
    pub is_colored: bool,
}

/// The text for a person, so far.
#[derive(Drop)]
struct Telling<'a> {
    sources: Sources<'a>,
    lexicon: Lexicon<'a>,
    form: Form,
    entries: Vec<Entry>,
    /// The number of files at fault, and cycles, that found no room.
    more: usize,
    /// Whether the prelude does not parse.
    is_blind: bool,
    /// Whether the entries of the prelude have been added or counted.
    has_prelude: bool,
}

/// The message about a run that stopped.
#[derive(Clone, Copy)]
struct Message<'s> {
    front: &'static str,
    text: &'s str,
    help: Option<&'s str>,
}

/// The cure of a fault whose word is named, if its code has one.
fn cure_of(code: FaultCode) -> Option<&'static str> {
    let has_cure = matches!(
        code,
        FaultCode::Frozen
            | FaultCode::Iterating
            | FaultCode::Overflow
            | FaultCode::Unbound
            | FaultCode::Recursion
            | FaultCode::Zero
            | FaultCode::Cut
    );
    match page_of(code_text(code)) {
        Some(page) if has_cure => Some(page.cure),
        _ => None,
    }
}

/// The message that the code alone gives.
fn by_code(code: &'static str) -> Message<'static> {
    let (text, help) = match page_of(code) {
        Some(page) => (page.short, Some(page.cure)),
        None => (code, None),
    };
    Message {
        front: "",
        text,
        help,
    }
}

/// The message about a run that stopped, with the cure.
fn told_of<'s>(code: FaultCode, stop: &'s EvalError) -> Message<'s> {
    match (&stop.told, &stop.said) {
        (Some(told), _) => Message {
            front: "",
            text: told.text.as_str(),
            help: match &told.help {
                Some(help) => Some(help.as_str()),
                None => cure_of(code),
            },
        },
        (None, Some(said)) => Message {
            front: "fail: ",
            text: said.as_str(),
            help: None,
        },
        (None, None) => by_code(code_text(code)),
    }
}

impl<'a> Telling<'a> {
    /// Whether there is room for another entry. If there is none, the entry is counted.
    fn has_room(&mut self) -> bool {
        let has_room = self.form.is_whole || self.entries.len() < ENTRIES;
        if !has_room {
            self.more = self.more.saturating_add(1);
        }
        has_room
    }

    /// Whether the run of a file stops where another one did, for the same reason. Then the file is added to the
    /// other's entry.
    fn is_added(&mut self, n: usize, mark: Mark, text: &str) -> Result<bool, AllocError> {
        for entry in &mut self.entries {
            if entry.root.is_some() && entry.mark == mark && entry.text.as_str() == text {
                entry.more.push(n)?;
                return Ok(true);
            }
        }
        Ok(false)
    }

    /// The entry of a run that stopped at a line.
    fn stopped(
        &mut self,
        n: usize,
        code: FaultCode,
        line: usize,
        stop: &EvalError,
    ) -> Result<(), AllocError> {
        let (alloc, files) = (self.sources.alloc, self.sources.files);
        let mark = match (stop.mark, &stop.trail) {
            (Some(mark), _) => mark,
            (None, Some(trail)) => trail.innermost(files, &mut self.lexicon)?,
            (None, None) => mark_of_line(files, n, line),
        };
        let told = told_of(code, stop);
        let text = message(alloc, &[Part::Plain(told.front), Part::Plain(told.text)])?;
        if self.is_added(n, mark, text.as_str())? || !self.has_room() {
            return Ok(());
        }
        let naming = self.form.naming;
        let entry = Entry {
            mark,
            is_certain: stop.mark.is_some(),
            code: code_text(code),
            text,
            notes: callers(alloc, files, &mut self.lexicon, naming, stop.steps())?,
            help: owned(alloc, told.help)?,
            root: Some(n),
            more: Vec::new(alloc),
        };
        self.entries.push(entry)?;
        Ok(())
    }

    /// Adds the entries of a file with static faults, and returns whether there is one.
    fn statics(&mut self, n: usize) -> Result<bool, AllocError> {
        let mut root = Some(n);
        for mistake in self.sources.mistakes(n)? {
            self.entries
                .push(Entry::of(self.sources.alloc, mistake, root))?;
            root = None;
        }
        Ok(root.is_none())
    }

    /// Adds the entries of the prelude, once.
    fn prelude(&mut self) -> Result<(), AllocError> {
        match self.sources.prelude {
            Some(prelude) if !self.has_prelude => {
                self.has_prelude = true;
                if self.has_room() {
                    self.statics(prelude)?;
                }
                Ok(())
            }
            _ => Ok(()),
        }
    }

    /// Whether an undefined name of this file may come from a prelude that does not parse.
    fn may_lack(&self, n: usize, fault: StaticFault) -> bool {
        self.is_blind && self.sources.prelude != Some(n) && fault.code == StaticFaultCode::Undefined
    }

    /// Tells how a file ended. If it has no fault of its own, it fails by the prelude.
    fn tell(&mut self, ends: &mut Ends, n: usize) -> Result<(), AllocError> {
        match ends.end(n) {
            End::Static(fault) => {
                if self.sources.prelude == Some(n) {
                    return self.prelude();
                }
                if !self.has_room() {
                    return Ok(());
                }
                let is_told = self.statics(n)?;
                if !is_told && self.may_lack(n, fault) {
                    let next = self.sources.prelude.unwrap_or(n);
                    ends.set(n, End::Load { next, line: 1 });
                    return self.prelude();
                }
                Ok(())
            }
            End::Stopped { code, line } => match ends.stops.get(n) {
                Some(stop) => self.stopped(n, code, line, stop),
                None => Ok(()),
            },
            _ => Ok(()),
        }
    }
}

/// Where the loads of files lead at last.
#[derive(Drop)]
struct Ways {
    ends: Ends,
    roots: Vec<usize>,
    cycles: Cycles,
}

impl Ways {
    fn of(alloc: Global, ends: Ends, asked: &[usize]) -> Result<Ways, AllocError> {
        let roots = ends.roots(alloc)?;
        let cycles = Cycles::of(alloc, &ends, roots.as_slice(), asked)?;
        Ok(Ways {
            ends,
            roots,
            cycles,
        })
    }

    /// The first file that was found of the cycle that a file is on.
    fn first_of_cycle(&self, file: usize) -> Option<usize> {
        let number = self.cycles.number(file)?;
        self.cycles.all.get(number)?.first().copied()
    }

    /// The file that makes a file fail at last; of a cycle it is the first one that was found.
    fn cause(&self, n: usize) -> usize {
        let root = self.roots.get(n).copied().unwrap_or(n);
        self.first_of_cycle(root).unwrap_or(root)
    }

    /// The files that fail by the cause of an entry.
    fn failing(&self, alloc: Global, entry: &Entry) -> Result<Vec<usize>, AllocError> {
        let mut failing = Vec::new(alloc);
        let Some(root) = entry.root else {
            return Ok(failing);
        };
        let cause = self.cause(root);
        for n in &self.ends.reached {
            let fails = matches!(self.ends.end(*n), End::Load { .. });
            if !fails || self.cycles.number(*n).is_some() {
                continue;
            }
            let its = self.cause(*n);
            if its == cause || entry.more.contains(&its) {
                failing.push(*n)?;
            }
        }
        Ok(failing)
    }

    /// `N files: ..`
    fn push_summary(&self, all: &mut String) -> Result<(), AllocError> {
        let counts = self.ends.counts();
        let count = self.ends.reached.len();
        let whose = if counts.by_loads == 1 {
            " by its loads\n"
        } else {
            " by their loads\n"
        };
        let files = if count == 1 { " file" } else { " files" };
        push_message(all, &[Part::Number(count), Part::Plain(files)])?;
        if self.ends.are_run {
            let good = [
                Part::Plain(": "),
                Part::Number(counts.good),
                Part::Plain(" ok, "),
            ];
            push_message(all, &good)?;
        } else {
            all.push_str(" checked: ")?;
        }
        let faults = [
            Part::Number(counts.own),
            Part::Plain(" at fault, "),
            Part::Number(counts.by_loads),
            Part::Plain(whose),
        ];
        push_message(all, &faults)
    }
}

impl<'a> Telling<'a> {
    /// The entries of all cycles.
    fn cycles(&mut self, ways: &Ways) -> Result<(), AllocError> {
        let (alloc, files) = (self.sources.alloc, self.sources.files);
        for number in 0..ways.cycles.all.len() {
            if !self.has_room() {
                continue;
            }
            let naming = self.form.naming;
            let entry = ways.cycles.entry(alloc, files, &ways.ends, naming, number)?;
            if let Some(entry) = entry {
                self.entries.push(entry)?;
            }
        }
        Ok(())
    }

    /// All entries as workflow commands.
    fn commands(&self, ways: &Ways) -> Result<String, AllocError> {
        let (alloc, files) = (self.sources.alloc, self.sources.files);
        let mut all = String::new(alloc);
        for entry in &self.entries {
            let failing = ways.failing(alloc, entry)?;
            push_command(&mut all, alloc, files, entry, failing.as_slice())?;
        }
        Ok(all)
    }

    /// All entries as a log of SARIF.
    fn log(&self, ways: &Ways) -> Result<String, AllocError> {
        let (alloc, files) = (self.sources.alloc, self.sources.files);
        let mut results = Vec::new(alloc);
        for entry in &self.entries {
            let failing = ways.failing(alloc, entry)?;
            results.push(result_of(alloc, files, entry, failing.as_slice())?)?;
        }
        log_of(alloc, self.entries.as_slice(), results)
    }

    /// The text of all entries for a person: empty if there is no entry.
    fn text(&self, ways: &Ways) -> Result<String, AllocError> {
        let (alloc, files) = (self.sources.alloc, self.sources.files);
        let mut all = String::new(alloc);
        if self.entries.is_empty() {
            return Ok(all);
        }
        for entry in &self.entries {
            let failing = ways.failing(alloc, entry)?;
            entry.push(&mut all, alloc, files, self.form, failing.as_slice())?;
        }
        if self.more > 0 {
            let more = [
                Part::Plain("and "),
                Part::Number(self.more),
                Part::Plain(" more; --explain=all shows them\n\n"),
            ];
            push_message(&mut all, &more)?;
        }
        ways.push_summary(&mut all)?;
        Ok(all)
    }
}

/// The text on a run in its form: for a person empty if no file is at fault.
pub fn explain(
    sources: Sources<'_>,
    reads: &Reads,
    run: &mut Run,
    roots: &[usize],
    form: Form,
) -> Result<String, AllocError> {
    let ends = Ends::of(
        sources.alloc,
        sources.files,
        sources.language.dialect,
        reads,
        run,
    )?;
    told(sources, ends, roots, form)
}

/// The text on files that were read and not run: for a person empty if there is nothing against any.
pub fn explain_check(
    sources: Sources<'_>,
    reads: &Reads,
    judged: &[Judged],
    roots: &[usize],
    form: Form,
) -> Result<String, AllocError> {
    let ends = Ends::of_check(sources.alloc, sources.files, reads, judged)?;
    told(sources, ends, roots, form)
}

/// The text on files with these ends.
fn told(sources: Sources, ends: Ends, roots: &[usize], form: Form) -> Result<String, AllocError> {
    let alloc = sources.alloc;
    let mut telling = Telling {
        sources,
        lexicon: Lexicon::new(alloc, sources.files),
        form,
        entries: Vec::new(alloc),
        more: 0,
        is_blind: sources.is_blind()?,
        has_prelude: false,
    };
    let mut ends = ends;
    for i in 0..ends.reached.len() {
        let n = ends.reached.get(i).copied().unwrap_or(0);
        telling.tell(&mut ends, n)?;
    }
    let ways = Ways::of(alloc, ends, roots)?;
    telling.cycles(&ways)?;
    match form.style {
        Style::Text => telling.text(&ways),
        Style::Github => telling.commands(&ways),
        Style::Sarif => telling.log(&ways),
    }
}
