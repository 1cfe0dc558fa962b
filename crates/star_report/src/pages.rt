//! The pages of the report: one for each module. Several threads write them, and they are joined in their order.

ghost use Rattle.std.specs.Prelude.{◌≡◌, ◌<◌, ◌++◌, ◌||◌, [], ℕ, if◌then◌else◌, All, IfOk, IsSome, List, OnOk, length, map};
ghost use Rattle.serde_json.specs.Written.{comma_if};
ghost use Rattle.star_reading.specs.Found.{AreMarked};
ghost use Rattle.star_reading.specs.Readings.{loads_at};
ghost use Rattle.star_report.specs.Pages.{AreWritten, HasItsLoads, IsTextOf, IsWholeTextOf, IsWritten, SaysShown, known_of, page_text, shown_texts_of};
ghost use Rattle.star_report.specs.Joined.{joined_text};

use crate::calls::text_with_calls;
use crate::more::text_with_more;
use crate::report::{good_text, module_value};
use crate::wanted::Wanted;
use star_cause::Causes;
use star_label::files::Files as Labels;
use star_outcome::memory::room_for;
use star_outcome::module::{Ended, Module};
use star_outcome::outcome::{Kept, Run};
use star_reading::reading::Reads;
use star_scope::loads::Load;
use std::alloc::{AllocError, Global};
use std::thread;
use std::thread::Threads;

/// One more thread writes for each 16 modules, if further members are wanted. Without them a module is written by copying
/// its JSON, so one more thread writes for each 1,024.
const MODULES_A_THREAD: usize = 16;

const PLAIN_MODULES_A_THREAD: usize = 1_024;

/// How many bytes the end of a report has.
const END_BYTES: usize = 3;

/// A module with the loads of its file, whether it is shown, and its text once it is written; none if a growth was
/// refused.
#[derive(Drop)]
pub struct Page<'a> {
    pub about: &'a Module,
    pub loads: &'a [Load],
    pub shown: bool,
    pub text: Option<Vec<u8>>,
}

impl<'a> Page<'a> {
    /// Writes the text of the module.
    pub fn write(&mut self, alloc: Global, files: &Labels, causes: &Causes, wanted: Wanted)
        requires files { length causes.now ≡ length files.now }
        requires loads { All (λ l. l.file < length files.now) self.old.loads.now }
        requires there { self.old.about.now.number < length files.now }
        ensures { IsWritten wanted files.now causes.now self.old self.new }
    {
        self.text = match whole_text(alloc, files, causes, self.loads, wanted, self.about) {
            Ok(text) => Some(text),
            Err(_) => None,
        };
    }
}

/// The text of a module, without the calls that it recorded.
fn module_text(
    alloc: Global,
    files: &Labels,
    causes: &Causes,
    loads: &[Load],
    wanted: Wanted,
    it: &Module,
) -> Result<Vec<u8>, AllocError>
    requires files { length causes.now ≡ length files.now }
    requires loads { All (λ l. l.file < length files.now) loads.now }
    requires there { it.now.number < length files.now }
    ensures { IfOk result (λ s. IsTextOf wanted files.now causes.now loads.now it.now s.items) }
{
    match &it.ended {
        Ended::Good(body) if wanted.is_plain() => {
            good_text(
                alloc,
                files.label(it.number).text(),
                &body.shown,
                &body.lines,
            )
        }
        _ => {
            let shown = module_value(alloc, files, causes, it)?;
            text_with_more(alloc, files, loads, wanted, it, shown)
        }
    }
}

/// The text of a module.
fn whole_text(
    alloc: Global,
    files: &Labels,
    causes: &Causes,
    loads: &[Load],
    wanted: Wanted,
    it: &Module,
) -> Result<Vec<u8>, AllocError>
    requires files { length causes.now ≡ length files.now }
    requires loads { All (λ l. l.file < length files.now) loads.now }
    requires there { it.now.number < length files.now }
    ensures { IfOk result (λ s. IsWholeTextOf wanted files.now causes.now loads.now it.now s.items) }
{
    let text = module_text(alloc, files, causes, loads, wanted, it)?;
    text_with_calls(alloc, wanted.calls, &it.ended, text)
}

/// The empty page of a module.
fn page_of<'a>(wanted: Wanted, marks: &[bool], it: &'a Module, loads: &'a [Load]) -> Page<'a>
    requires { it.now.number < length marks.now }
    ensures known { result.about.now ≡ it.now }
    ensures loads { result.loads.now ≡ loads.now }
    ensures shown { (roots : List ℕ) → AreMarked roots marks.now → SaysShown wanted roots result }
{
    Page {
        about: it,
        loads,
        shown: !wanted.only_roots || !it.is_good() || marks[it.number],
        text: None,
    }
}

/// An empty page for each module of a run.
pub fn pages_of<'a>(
    alloc: Global,
    run: &'a Run,
    reads: &'a Reads,
    kept: &mut [Kept],
    wanted: Wanted,
    marks: &[bool],
) -> Result<Vec<Page<'a>>, AllocError>
    requires kept { kept.old ≡ run.now.kept }
    requires marks { length marks.now ≡ length run.now.cells }
    requires lead { (n : ℕ) → All (λ l. l.file < length run.now.cells) (loads_at reads.now.all.items n) }
    ensures known { IfOk result (λ ps. map known_of ps.items ≡ map (λ k. k.known) run.now.kept) }
    ensures files { IfOk result (λ ps. All (λ p. p.about.now.number < length run.now.cells) ps.items) }
    ensures loads { IfOk result (λ ps. All (HasItsLoads reads.now.all.items) ps.items) }
    ensures lead { IfOk result (λ ps. All (λ p. All (λ l. l.file < length run.now.cells) p.loads.now) ps.items) }
    ensures shown { IfOk result (λ ps. (roots : List ℕ) → AreMarked roots marks.now
        → All (SaysShown wanted roots) ps.items) }
{
    let mut pages = Vec::with_capacity(alloc, run.len())?;
    for i in 0..run.len() {
        let it = run.module(i, kept[i].note());
        pages.push(page_of(wanted, marks, it, reads.loads(it.number)))?;
    }
    Ok(pages)
}

/// Writes all pages, with at most this number of threads.
pub(crate) fn write_pages<R: Threads + Sync>(
    rt: &R,
    alloc: Global,
    files: &Labels,
    causes: &Causes,
    wanted: Wanted,
    pages: &mut [Page],
    threads: usize,
)
    requires files { length causes.now ≡ length files.now }
    requires loads { All (λ p. All (λ l. l.file < length files.now) p.loads.now) pages.old }
    requires there { All (λ p. p.about.now.number < length files.now) pages.old }
    ensures { AreWritten wanted files.now causes.now pages.old pages.new }
{
    let modules = if wanted.is_plain() {
        PLAIN_MODULES_A_THREAD
    } else {
        MODULES_A_THREAD
    };
    let threads = threads.min(pages.len() / modules + 1).max(1);
    thread::for_each_mut(
        rt,
        pages,
        threads,
        &|_place: usize, page: &mut Page|
            requires { (length causes.now ≡ length files.now) × All (λ l. l.file < length files.now) page.old.loads.now
                × (page.old.about.now.number < length files.now) }
            ensures { IsWritten wanted files.entry.now causes.entry.now page.old page.new }
        { page.write(alloc, files, causes, wanted) },
    );
}

/// Adds one more text, after a comma unless it is the first.
fn push_text(all: &mut Vec<u8>, later: bool, text: &[u8]) -> Result<(), AllocError>
    ensures { OnOk result (all.new.items ≡ all.old.items ++ (comma_if later ++ text.now)) }
{
    if later {
        all.push(b',')?;
    }
    all.extend_from_slice(text)
}

/// Adds the text of a page, if the page is shown. Answers whether any has been added so far. The error: it was not
/// written.
fn push_page(all: &mut Vec<u8>, later: bool, page: &Page) -> Result<bool, AllocError>
    ensures written { IfOk result (λ _. IsSome page.now.text) }
    ensures later { IfOk result (λ stands. stands ≡ (later || page.now.shown)) }
    ensures text { IfOk result (λ _. all.new.items
        ≡ all.old.items ++ (if page.now.shown then comma_if later ++ page_text page.now else [])) }
{
    let Some(text) = &page.text else {
        return Err(AllocError);
    };
    if !page.shown {
        return Ok(later);
    }
    push_text(all, later, text.as_slice())?;
    Ok(true)
}

/// The number of bytes of all texts that are shown, with a comma for each, and of the end of the report.
fn room_of(pages: &[Page]) -> usize {
    let mut room: usize = END_BYTES;
    for page in pages {
        if let Some(text) = &page.text {
            if page.shown {
                room = room.saturating_add(text.len()).saturating_add(1);
            }
        }
    }
    room
}

/// The text of a report, by the texts of the pages that are shown. `frugal` if memory counts more than time. The error: one
/// was not written.
pub fn joined(
    alloc: Global,
    begun: u32,
    pages: &[Page],
    frugal: bool,
) -> Result<Vec<u8>, AllocError>
    ensures written { IfOk result (λ _. All (λ p. IsSome p.text) pages.now) }
    ensures text { IfOk result (λ s. s.items ≡ joined_text begun (shown_texts_of pages.now)) }
{
    let mut all = format!(in alloc; "{{\"begun\":{begun},\"modules\":[")?.into_bytes();
    // All room is taken at once: a text that grows while other threads live is moved, which interrupts each processor.
    all.reserve(room_for(room_of(pages), frugal))?;
    let mut later = false;
    for i in 0..pages.len() {
        later = push_page(&mut all, later, &pages[i])?;
    }
    all.extend_from_slice(b"]}\n")?;
    Ok(all)
}
