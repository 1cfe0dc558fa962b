//! How far a run is, and the line that shows it to a person while files run for more than half a second.
//!
//! The loaders note by the gate of the run (`Watched`) which files they begin and have run. Another thread (`show`)
//! looks at these notes (`Progress`) ten times a second and writes the line. When no file runs any more, it clears the
//! line, and only then the run goes on (`Progress::end`).

ghost use Rattle.std.specs.Prelude.{◌≡◌, ◌≤◌, ◌∷◌, ℕ, IfOk, IfSome, List, false, option_map, string_bytes, take};
ghost use Rattle.star_serve.specs.Progress as spec;
ghost use Rattle.star_serve.specs.Stream.{Adds};

use crate::stream::Sink;
use star_host::gate::Gate;
use star_label::files::Files;
use std::alloc::{AllocError, Global};
use std::sync::{Arc, Condvar, CondvarTimeouts, Mutex, Wait};
use std::time::{Clock, Duration};

/// How many milliseconds files run before the line is shown.
const BEFORE: u64 = 500;

/// How many milliseconds a line is shown before the next one.
const BETWEEN: u64 = 100;

/// How many columns the line may take: a plain terminal has 80.
const COLUMNS: usize = 79;

/// The text of the line: how many of the files that were read have run, and the label of the running file that began
/// first, if one runs.
fn progress_text(
    alloc: Global,
    done: usize,
    reached: usize,
    longest: Option<&str>,
) -> Result<String, AllocError>
    ensures { IfOk result
        (λ s. string_bytes s ≡ spec.progress_text done reached (option_map (λ l. l.now) longest.entry)) }
{
    match longest {
        Some(label) => {
            format!(in alloc; "starload: {done} of {reached} files run; {label} has run longest")
        }
        None => format!(in alloc; "starload: {done} of {reached} files run"),
    }
}

/// The front of a text, as far as it has room in a line.
fn cut(text: &[u8]) -> &[u8]
    ensures { result.now ≡ take spec.columns text.now }
{
    if text.len() <= COLUMNS {
        return text;
    }
    &text[..COLUMNS]
}

/// The line as it is written, in place of the one before it.
fn progress_line(
    alloc: Global,
    done: usize,
    reached: usize,
    longest: Option<&str>,
) -> Result<Vec<u8>, AllocError>
    ensures { IfOk result
        (λ v. v.items ≡ spec.progress_line done reached (option_map (λ l. l.now) longest.entry)) }
{
    let text = progress_text(alloc, done, reached, longest)?;
    let mut line = Vec::new(alloc);
    line.push(b'\r')?;
    line.extend_from_slice(cut(text.as_bytes()))?;
    line.extend_from_slice(b"\x1b[K")?;
    Ok(line)
}

/// Where a run is.
#[derive(Clone, Copy, Debug, PartialEq, Eq)]
enum Phase {
    /// Its files are not read yet.
    Reading,
    /// Its files run.
    Running,
    /// No file runs any more, and the line may still be there.
    Ended,
    /// Nothing is shown any more.
    Cleared,
}

/// A file that runs.
#[derive(Debug, Drop)]
struct Running {
    /// The loader that runs it.
    loader: usize,
    label: String,
}

/// The notes on a run.
#[derive(Debug, Drop)]
struct Notes {
    phase: Phase,
    /// How many files were read.
    reached: usize,
    /// How many files have run.
    done: usize,
    /// The files that run, the one that began first at the front.
    running: Vec<Running>,
}

impl Notes {
    /// A loader begins a file. One whose label gets no memory is left out.
    fn begin_file(&mut self, alloc: Global, loader: usize, label: &str) {
        if let Ok(label) = String::from_str(alloc, label) {
            let _ = self.running.push(Running { loader, label });
        }
    }

    /// A loader has run its file.
    fn end_file(&mut self, loader: usize) {
        self.done = self.done.saturating_add(1);
        if let Some(i) = self.running.iter().position(|it| it.loader == loader) {
            self.running.remove(i);
        }
    }

    /// The line that shows them.
    fn line(&self, alloc: Global) -> Result<Vec<u8>, AllocError>
        ensures { IfOk result (λ v. spec.IsLine v.items) }
    {
        let longest = match self.running.first() {
            Some(it) => Some(it.label.as_str()),
            None => None,
        };
        progress_line(alloc, self.done, self.reached, longest)
    }
}

/// How far a run is: its loaders note it, and another thread shows it.
#[derive(Debug, Drop)]
pub struct Progress {
    notes: Mutex<Notes>,
    changed: Condvar,
}

impl Progress {
    /// Of a run whose files are not read yet.
    pub fn new(alloc: Global) -> Progress {
        Progress {
            notes: Mutex::new(Notes {
                phase: Phase::Reading,
                reached: 0,
                done: 0,
                running: Vec::new(alloc),
            }),
            changed: Condvar::new(),
        }
    }

    /// The files are read, and begin to run.
    fn begin(&self, rt: &impl Wait, reached: usize) {
        let mut notes = self.notes.lock(rt);
        notes.reached = reached;
        if notes.phase == Phase::Reading {
            notes.phase = Phase::Running;
        }
        self.changed.notify_all();
    }

    /// No file runs any more. Waits until nothing is shown: another thread has to be in `show`, or to come there.
    pub fn end(&self, rt: &impl Wait) {
        let mut notes = self.notes.lock(rt);
        if notes.phase != Phase::Cleared {
            notes.phase = Phase::Ended;
        }
        self.changed.notify_all();
        let _cleared = self
            .changed
            .wait_while(rt, notes, |it| it.phase != Phase::Cleared);
    }

    /// Waits until files run, or none will.
    fn wait_for_files(&self, rt: &impl Wait) {
        let notes = self.notes.lock(rt);
        let _begun = self
            .changed
            .wait_while(rt, notes, |it| it.phase == Phase::Reading);
    }

    /// The line after a pause of these milliseconds: none if no file runs any more, or the line gets no memory.
    fn next_line<R: Wait + Clock>(&self, rt: &R, alloc: Global, pause: u64) -> Option<Vec<u8>>
        ensures { IfSome result (λ v. spec.IsLine v.items) }
    {
        let pause = Duration::from_millis(pause);
        let notes = self.notes.lock(rt);
        let (notes, waited) = self
            .changed
            .wait_timeout_while(rt, notes, pause, |it| it.phase == Phase::Running);
        if !waited.timed_out() {
            return None;
        }
        notes.line(alloc).ok()
    }

    /// Nothing is shown any more.
    fn set_cleared(&self, rt: &impl Wait) {
        self.notes.lock(rt).phase = Phase::Cleared;
        self.changed.notify_all();
    }
}

/// Writes lines that show how far a run is, from half a second after its files begin to run until none runs any more.
/// If a line cannot be written or gets no memory, none is written after it. It answers whether there was one.
fn show_lines<R: Wait + Clock, E: Sink>(
    rt: &R,
    alloc: Global,
    progress: &Progress,
    errors: &mut E,
) -> bool
    ensures grows { E.failed errors.old ≤ E.failed errors.new }
    ensures lines { E.failed errors.new ≡ E.failed errors.old
        → spec.ShowsLines result (E.taken errors.old) (E.taken errors.new) }
{
    progress.wait_for_files(rt);
    let mut pause = BEFORE;
    let mut is_shown = false;
    for _ in rt.forever() {
        let Some(line) = progress.next_line(rt, alloc, pause) else {
            return is_shown;
        };
        pause = BETWEEN;
        is_shown = true;
        if errors.write(line.as_slice()).is_err() {
            return true;
        }
    }
    unreachable!()
}

/// Clears the line.
fn clear<E: Sink>(errors: &mut E)
    ensures grows { E.failed errors.old ≤ E.failed errors.new }
    ensures clears { E.failed errors.new ≡ E.failed errors.old
        → Adds (E.taken errors.old) (E.taken errors.new) (13 ∷ spec.rest_cleared) }
{
    let _ = errors.write(b"\r\x1b[K");
}

/// Shows how far a run is, from half a second after its files begin to run until none runs any more, and then clears
/// the line. If a line cannot be written or gets no memory, none is shown after it.
pub fn show<R: Wait + Clock, E: Sink>(rt: &R, alloc: Global, progress: &Progress, errors: &mut E)
    ensures { E.failed errors.new ≡ E.failed errors.old
        → (bytes : List ℕ) × spec.IsShown bytes × Adds (E.taken errors.old) (E.taken errors.new) bytes }
{
    if show_lines(rt, alloc, progress, errors) {
        clear(errors);
    }
    progress.set_cleared(rt);
}

/// The gate of a run: it notes how far the run is, if that is shown to a person.
#[derive(Drop)]
pub(crate) struct Watched<'a, R> {
    pub rt: &'a R,
    pub alloc: Global,
    pub files: &'a Files,
    pub progress: Option<&'a Arc<Progress>>,
}

impl<R: Wait> Watched<'_, R> {
    /// No file runs any more. Waits until nothing is shown.
    pub(crate) fn end(&self) {
        if let Some(progress) = self.progress {
            progress.end(self.rt);
        }
    }
}

impl<R: Wait> Gate for Watched<'_, R> {
    fn before_bodies(&self, files: usize) {
        if let Some(progress) = self.progress {
            progress.begin(self.rt, files);
        }
    }

    fn before_body(&self, loader: usize, n: usize) {
        let Some(progress) = self.progress else {
            return;
        };
        if n < self.files.len() {
            let label = self.files.label(n).text();
            progress
                .notes
                .lock(self.rt)
                .begin_file(self.alloc, loader, label);
        }
    }

    fn after_body(&self, loader: usize, _n: usize) {
        if let Some(progress) = self.progress {
            progress.notes.lock(self.rt).end_file(loader);
        }
    }
}
