//! `report`: the report of a run as one text, and the JSON of each module.

ghost use Rattle.std.specs.Prelude.{◌≡◌, ◌<◌, ◌↔◌, ℕ, true, false, Contains, Some, IfOk, IfSome, OnOk, ◌++◌, ◌∷◌, []};
ghost use Rattle.std.specs.Prelude.{codes, length, map, vec_len};
ghost use Rattle.serde_json.specs.Data.{number, string};
ghost use Rattle.serde_json.specs.View.{view};
ghost use Rattle.serde_json.specs.Written.{compact_text};
ghost use Rattle.star_cause.specs.Ends.{AreWithin};
ghost use Rattle.star_plan.specs.Causes.{FailsBy};
ghost use Rattle.star_plan.specs.Plan.{Plan};
ghost use Rattle.star_plan.specs.Text.{ill_data, lines_in, well_data};
ghost use Rattle.star_report.specs.Fails.{AreFails};
ghost use Rattle.star_outcome.specs.Kept.{AllGood, IsLoadBelow};
ghost use Rattle.star_report.specs.Shelf.{LeadToFiles};
ghost use Rattle.star_report.specs.Pages.{text_around};
ghost use Rattle.star_report.specs.Shown.{IsLoadShown, IsShown, ReportsRun};
ghost use Rattle.star_outcome.specs.Views.{IsModule};

use crate::pages::{joined, pages_of, write_pages};
use crate::wanted::Wanted;
use serde_json::{Value, json};
use star_cause::Causes;
use star_check::failed::{load_value, static_value};
use star_label::files::Files as Labels;
use star_meaning::said::Said;
use star_outcome::module::{Ended, Module};
use star_outcome::outcome::Run;
use star_outcome::shown::Shown;
use star_reading::code::code_text;
use star_reading::reading::Reads;
use star_reading::roots::roots_marked;
use std::alloc::{AllocError, Global};
use std::thread::Threads;

/// How many bytes of the text of a good module are the same in each.
const AROUND: usize = 45;

/// The options of a report: the members and modules that it shows, how many threads at most write it, and whether memory
/// counts more than time.
#[derive(Clone, Copy, Debug, PartialEq, Eq)]
pub struct ReportOptions {
    pub wanted: Wanted,
    pub threads: usize,
    pub frugal: bool,
}

/// Adds a line that was printed as a string. Nothing else adds one.
fn push_string(alloc: Global, items: &mut Vec<Value>, one: &Said) -> Result<(), AllocError>
    ensures { OnOk result (map view items.new.items
        ≡ map view items.old.items ++ map string (lines_in (one.now ∷ []))) }
{
    match one {
        Said::Line(line) => {
            items.push(Value::try_from_str(alloc, line.as_str())?)?;
            Ok(())
        }
        Said::Call(_) => Ok(()),
    }
}

/// The lines that were printed as strings.
fn strings(alloc: Global, said: &[Said]) -> Result<Vec<Value>, AllocError>
    ensures { IfOk result (λ v. map view v.items ≡ map string (lines_in said.now)) }
{
    let mut items = Vec::new(alloc);
    for one in said {
        push_string(alloc, &mut items, one)?;
    }
    Ok(items)
}

/// A module whose run failed.
fn failed_module(
    alloc: Global,
    label: &str,
    code: &str,
    line: usize,
    lines: &[Said],
) -> Result<Value, AllocError>
    ensures { IfOk result (λ v. view v
        ≡ ill_data (codes "fault") (string code.now) label.now line (lines_in lines.now) (codes "fault")) }
{
    let lines = Value::Array(strings(alloc, lines)?);
    json!(in alloc; {"fault": code, "label": label, "line": line as u64, "lines": lines, "status": "fault"})
}

/// The text of a module that ran to its end, by the JSON of its globals, of its label and of its lines.
fn text_around(
    alloc: Global,
    globals: &[u8],
    label: &[u8],
    lines: &[u8],
) -> Result<Vec<u8>, AllocError>
    ensures { IfOk result (λ t. t.items ≡ text_around globals.now label.now lines.now) }
{
    let room = globals
        .len()
        .saturating_add(label.len())
        .saturating_add(lines.len());
    let mut text = Vec::with_capacity(alloc, room.saturating_add(AROUND))?;
    text.extend_from_slice(b"{\"globals\":")?;
    text.extend_from_slice(globals)?;
    text.extend_from_slice(b",\"label\":")?;
    text.extend_from_slice(label)?;
    text.extend_from_slice(b",\"lines\":")?;
    text.extend_from_slice(lines)?;
    text.extend_from_slice(b",\"status\":\"ok\"}")?;
    Ok(text)
}

/// The text of a module that ran to its end. The JSON of its globals is there already.
pub(crate) fn good_text(
    alloc: Global,
    label: &str,
    shown: &Shown,
    lines: &[Said],
) -> Result<Vec<u8>, AllocError>
    ensures { IfOk result (λ t. t.items ≡ compact_text (well_data label.now shown.now (lines_in lines.now))) }
{
    let label = Value::try_from_str(alloc, label)?.to_vec(alloc)?;
    let lines = Value::Array(strings(alloc, lines)?).to_vec(alloc)?;
    text_around(alloc, shown.json(), label.as_slice(), lines.as_slice())
}

/// A module that ran to its end.
fn good_module(
    alloc: Global,
    label: &str,
    shown: &Shown,
    lines: &[Said],
) -> Result<Value, AllocError>
    ensures { IfOk result (λ v. view v ≡ well_data label.now shown.now (lines_in lines.now)) }
{
    let globals = Value::Object(shown.members(alloc)?);
    let lines = Value::Array(strings(alloc, lines)?);
    json!(in alloc; {"globals": globals, "label": label, "lines": lines, "status": "ok"})
}

/// The file of a module's first load that is not good; none if it ended otherwise.
fn next_of(it: &Module) -> Option<usize>
    requires { IsLoadBelow (length it.now.loads.items) it.now.ended }
    ensures within { IfSome result (λ n. Contains it.now.loads.items n) }
    ensures fails { (plan : Plan) (n m : ℕ) → IsModule plan n it.now → (result ≡ Some m) ↔ FailsBy plan n m }
{
    match &it.ended {
        Ended::Load { index, .. } => Some(it.loads[*index]),
        _ => None,
    }
}

/// The file of each file's first load that is not good.
pub fn nexts_of(
    alloc: Global,
    files: usize,
    run: &mut Run,
) -> Result<Vec<Option<usize>>, AllocError>
    requires { files ≡ length run.old.cells }
    ensures same { run.new ≡ run.old }
    ensures size { IfOk result (λ v. vec_len v ≡ files) }
    ensures within { IfOk result (λ v. AreWithin v.items) }
    ensures fails { IfOk result (λ v. AreFails run.old.kept v.items) }
{
    let mut nexts = vec![in alloc; None; files]?;
    for i in 0..run.len() {
        let note = run.note(i);
        let module = run.module(i, note);
        nexts[module.number] = next_of(module);
    }
    Ok(nexts)
}

/// A module that failed by a load.
fn load_module(
    alloc: Global,
    files: &Labels,
    causes: &Causes,
    n: usize,
    line: usize,
) -> Result<Value, AllocError>
    requires files { length causes.now ≡ length files.now }
    requires there { n < length files.now }
    ensures { IfOk result (λ v. IsLoadShown files.now causes.now n line (view v)) }
{
    let label = files.label(n).text();
    let cause = causes.of(alloc, n)?;
    load_value(alloc, files, label, &cause, line)
}

/// A module, with its label and how it ended.
pub(crate) fn module_value(
    alloc: Global,
    files: &Labels,
    causes: &Causes,
    it: &Module,
) -> Result<Value, AllocError>
    requires files { length causes.now ≡ length files.now }
    requires there { it.now.number < length files.now }
    ensures { IfOk result (λ v. IsShown files.now causes.now it.now.number it.now.ended (view v)) }
{
    let label = files.label(it.number).text();
    match &it.ended {
        Ended::Static(fault) => static_value(alloc, label, *fault),
        Ended::Load { line, .. } => load_module(alloc, files, causes, it.number, *line),
        Ended::Stopped {
            code,
            line,
            lines,
            ..
        } => { failed_module(alloc, label, code_text(*code), *line, &lines) }
        Ended::Good(body) => good_module(alloc, label, &body.shown, &body.lines),
    }
}

/// Whether all modules of a run are good.
pub fn all_good(run: &mut Run) -> bool
    ensures same { run.new ≡ run.old }
    ensures good { result ≡ true → AllGood run.old.kept }
    ensures bad { result ≡ false → AllGood run.old.kept → ⊥ }
{
    for i in 0..run.len() {
        let note = run.note(i);
        if !run.module(i, note).is_good() {
            return false;
        }
    }
    true
}

/// The text of the report of a run for these roots over these files, with its line end and the further members of
/// each module that are wanted: the same bytes with any number of threads.
pub fn report<R: Threads + Sync>(
    rt: &R,
    alloc: Global,
    files: &Labels,
    reads: &Reads,
    run: &mut Run,
    roots: &[usize],
    options: ReportOptions,
) -> Result<Vec<u8>, AllocError>
    requires files { length run.old.cells ≡ length files.now }
    requires loads { LeadToFiles files.now reads.now.all.items }
    ensures same { run.new ≡ run.old }
    ensures text { IfOk result (λ s.
        ReportsRun options.wanted files.now reads.now.all.items roots.now run.old s.items) }
{
    let nexts = nexts_of(alloc, files.len(), run)?;
    let causes = Causes::new(alloc, nexts)?;
    let mut kept = run.kept(alloc)?;
    let marks = roots_marked(alloc, files.len(), roots)?;
    let mut pages = pages_of(
        alloc,
        run,
        reads,
        kept.as_mut_slice(),
        options.wanted,
        &marks,
    )?;
    write_pages(
        rt,
        alloc,
        files,
        &causes,
        options.wanted,
        pages.as_mut_slice(),
        options.threads,
    );
    joined(alloc, run.begun(), pages.as_slice(), options.frugal)
}
