//! The text of a check, in the form of the report of a run.

ghost use Rattle.std.specs.Prelude.{◌≡◌, ◌<◌, ℕ, All, IfOk, List, length, map, true};
ghost use Rattle.serde_json.specs.View.{view};
ghost use Rattle.serde_json.specs.declared.value.Value.TheVariants as Value;
ghost use Rattle.star_reading.specs.Found.{AreMarked};
ghost use Rattle.star_check.specs.Judged.{IsJudgedBelow, judged_view, shown_of, verdict_view};
ghost use Rattle.star_check.specs.Text.{check_data, check_text, is_shown, is_unrun, module_data, unrun_data, with_no_calls};

use crate::failed::{load_value, static_value};
use crate::verdict::{Judged, Verdict};
use serde_json::{Map, Value, json};
use star_label::files::Files as Labels;
use star_reading::roots::roots_marked;
use std::alloc::{AllocError, Global};

/// A file with nothing against it.
fn unrun_value(alloc: Global, label: &str) -> Result<Value, AllocError>
    ensures { IfOk result (λ v. view v ≡ unrun_data label.now) }
{
    let lines = Value::Array(Vec::new(alloc));
    json!(in alloc; {"label": label, "lines": lines, "status": "unrun"})
}

/// An object of these members and an empty row of calls.
fn with_row(alloc: Global, members: Map<String, Value>) -> Result<Value, AllocError>
    ensures { IfOk result (λ v. view v ≡ with_no_calls true (view (Value.Object members))) }
{
    let mut all = members;
    serde_json::put(&mut all, alloc, "calls", Value::Array(Vec::new(alloc)))?;
    Ok(Value::Object(all))
}

/// An object with an empty row of calls as a member. Other JSON stays as it is.
fn with_empty_row(alloc: Global, shown: Value) -> Result<Value, AllocError>
    ensures { IfOk result (λ v. view v ≡ with_no_calls true (view shown)) }
{
    match shown {
        Value::Object(members) => with_row(alloc, members),
        other => Ok(other),
    }
}

/// A module with an empty row of calls, if calls are recorded.
fn with_no_calls(alloc: Global, calls: bool, shown: Value) -> Result<Value, AllocError>
    ensures { IfOk result (λ v. view v ≡ with_no_calls calls (view shown)) }
{
    if calls {
        with_empty_row(alloc, shown)
    } else {
        Ok(shown)
    }
}

/// The verdict on a file, as JSON.
fn module_value(alloc: Global, files: &Labels, it: &Judged) -> Result<Value, AllocError>
    requires { IsJudgedBelow (length files.now) it.now }
    ensures { IfOk result (λ v. view v ≡ module_data files.now (judged_view it.now)) }
{
    let label = files.label(it.file).text();
    match &it.verdict {
        Verdict::AtFault(fault) => static_value(alloc, label, *fault),
        Verdict::Fails { cause, line } => load_value(alloc, files, label, cause, *line),
        Verdict::Unrun => unrun_value(alloc, label),
    }
}

impl Judged {
    /// Whether there is nothing against the file.
    pub(crate) fn is_unrun(&self) -> bool
        ensures { result ≡ is_unrun (verdict_view self.now.verdict) }
    {
        match self.verdict {
            Verdict::Unrun => true,
            _ => false,
        }
    }

    /// Whether the file is shown.
    fn is_shown(&self, only_roots: bool, marks: &[bool]) -> bool
        requires { self.now.file < length marks.now }
        ensures { (roots : List ℕ) → AreMarked roots marks.now
            → result ≡ is_shown only_roots roots (judged_view self.now) }
    {
        !only_roots || !self.is_unrun() || marks[self.file]
    }
}

/// The files that are shown, each with its verdict.
fn modules_of(
    alloc: Global,
    files: &Labels,
    judged: &[Judged],
    marks: &[bool],
    only_roots: bool,
    calls: bool,
) -> Result<Vec<Value>, AllocError>
    requires marks { length marks.now ≡ length files.now }
    requires below { All (IsJudgedBelow (length files.now)) judged.now }
    ensures { IfOk result (λ v. (roots : List ℕ) → AreMarked roots marks.now
        → map view v.items ≡ shown_of files.now only_roots calls roots judged.now) }
{
    let mut modules = Vec::new(alloc);
    for it in judged {
        if it.is_shown(only_roots, marks) {
            let shown = module_value(alloc, files, it)?;
            modules.push(with_no_calls(alloc, calls, shown)?)?;
        }
    }
    Ok(modules)
}

/// The check as JSON, by its modules: none was begun.
fn check_value(alloc: Global, modules: Vec<Value>) -> Result<Value, AllocError>
    ensures { IfOk result (λ v. view v ≡ check_data (map view modules.items)) }
{
    let modules = Value::Array(modules);
    json!(in alloc; {"begun": 0u64, "modules": modules})
}

/// The text of a check of these files, with its line end.
pub(crate) fn text_of(
    alloc: Global,
    files: &Labels,
    judged: &[Judged],
    roots: &[usize],
    only_roots: bool,
    calls: bool,
) -> Result<Vec<u8>, AllocError>
    requires { All (IsJudgedBelow (length files.now)) judged.now }
    ensures { IfOk result (λ t. t.items
        ≡ check_text only_roots calls files.now roots.now (map judged_view judged.now)) }
{
    let marks = roots_marked(alloc, files.len(), roots)?;
    let marked = marks.as_slice();
    let modules = modules_of(alloc, files, judged, marked, only_roots, calls)?;
    let value = check_value(alloc, modules)?;
    let mut text = value.to_vec(alloc)?;
    text.push(b'\n')?;
    Ok(text)
}
