//! The calls that modules recorded, as JSON.

ghost use Rattle.std.specs.Prelude.{◌≡◌, ◌<◌, ◌≤◌, ◌++◌, ◌||◌, [], IfOk, OnOk, if◌then◌else◌, length};
ghost use Rattle.serde_json.specs.Written.{comma_if};
ghost use Rattle.star_meaning.specs.declared.said.RecordedCall.{RecordedCall as AnyCall};
ghost use Rattle.star_outcome.specs.Kept.{AreModules};
ghost use Rattle.star_plan.specs.Plan.{Plan};
ghost use Rattle.star_plan.specs.Reading.{IsPlanOf};
ghost use Rattle.star_report.specs.Calls.{AddsRoot, CallsFor, CallsOf, call_line, call_row, call_start, calls_from, calls_in, calls_of, calls_text, is_call, line_if, rest_of_call, row_of, said_of, with_calls};
ghost use Rattle.star_plan.specs.Reached.{IsReached};
ghost use Rattle.star_report.specs.Gets.{InPlans, IsLackAmong};

use crate::got::{Got, Lack, module_at};
use crate::modules::modules_by_number;
use serde_json::Value as Json;
use star_label::files::Files;
use star_meaning::said::{RecordedCall, Said};
use star_outcome::module::{Ended, Module};
use star_outcome::outcome::Run;
use std::alloc::{AllocError, Global};

/// What a module said: nothing if it did not run.
fn said_by(ended: &Ended) -> &[Said]
    ensures { result.now ≡ said_of ended.now }
{
    match ended {
        Ended::Static(_) | Ended::Load { .. } => &[],
        Ended::Stopped { lines, .. } => lines.as_slice(),
        Ended::Good(body) => body.lines.as_slice(),
    }
}

/// Adds the inputs of a call after a bracket.
fn push_start(text: &mut Vec<u8>, call: &RecordedCall) -> Result<(), AllocError>
    ensures { OnOk result (text.new.items ≡ text.old.items ++ call_start call.now) }
{
    text.push(b'{')?;
    text.extend_from_slice(call.inputs.as_str().as_bytes())
}

/// Adds the line and the name of a call, and a bracket.
fn push_rest(alloc: Global, text: &mut Vec<u8>, call: &RecordedCall) -> Result<(), AllocError>
    ensures { OnOk result (text.new.items ≡ text.old.items ++ rest_of_call call.now) }
{
    let line = call.line;
    let line = format!(in alloc; ",\"line\":{line},\"name\":\"")?;
    text.extend_from_slice(line.as_bytes())?;
    text.extend_from_slice(call.name.as_str().as_bytes())?;
    text.extend_from_slice(b"\"}")
}

/// Adds the JSON of a call, after a comma unless it is the first.
fn push_call(
    alloc: Global,
    text: &mut Vec<u8>,
    later: bool,
    call: &RecordedCall,
) -> Result<(), AllocError>
    ensures { OnOk result (text.new.items ≡ text.old.items ++ (comma_if later ++ call_row call.now)) }
{
    if later {
        text.push(b',')?;
    }
    push_start(text, call)?;
    push_rest(alloc, text, call)
}

/// Adds the JSON of a call, after a comma unless it is the first; a line adds nothing. It answers whether a call has come.
fn push_said(alloc: Global, text: &mut Vec<u8>, later: bool, one: &Said) -> Result<bool, AllocError>
    ensures later { IfOk result (λ now. now ≡ (later || is_call one.now)) }
    ensures text { IfOk result (λ _. text.new.items
        ≡ text.old.items ++ (if is_call one.now then comma_if later ++ row_of one.now else [])) }
{
    match one {
        Said::Line(_) => Ok(later),
        Said::Call(call) => {
            push_call(alloc, text, later, call)?;
            Ok(true)
        }
    }
}

/// Adds the JSON of all calls.
fn push_calls(alloc: Global, text: &mut Vec<u8>, said: &[Said]) -> Result<(), AllocError>
    ensures { OnOk result (text.new.items ≡ text.old.items ++ calls_text (calls_in said.now)) }
{
    let mut later = false;
    text.push(b'[')?;
    for one in said {
        later = push_said(alloc, text, later, one)?;
    }
    text.push(b']')?;
    Ok(())
}

/// The text of a module with the calls that it recorded as its first member, if they are wanted.
pub(crate) fn text_with_calls(
    alloc: Global,
    calls: bool,
    ended: &Ended,
    text: Vec<u8>,
) -> Result<Vec<u8>, AllocError>
    ensures { IfOk result (λ t. t.items ≡ with_calls calls (calls_of ended.now) text.items) }
{
    if !calls {
        return Ok(text);
    }
    let mut all = Vec::new(alloc);
    all.extend_from_slice(b"{\"calls\":")?;
    push_calls(alloc, &mut all, said_by(ended))?;
    all.push(b',')?;
    if let [_, rest @ ..] = text.as_slice() {
        all.extend_from_slice(rest)?;
    }
    Ok(all)
}

/// Adds the line of a call of a root, whose label has this JSON.
fn push_line(
    alloc: Global,
    text: &mut Vec<u8>,
    label: &[u8],
    call: &RecordedCall,
) -> Result<(), AllocError>
    ensures { OnOk result (text.new.items ≡ text.old.items ++ call_line label.now call.now) }
{
    push_start(text, call)?;
    text.extend_from_slice(b",\"label\":")?;
    text.extend_from_slice(label)?;
    push_rest(alloc, text, call)?;
    text.push(b'\n')?;
    Ok(())
}

/// Adds the line of a call of a name, by a root whose label has this JSON. Nothing else adds one.
fn push_named(
    alloc: Global,
    text: &mut Vec<u8>,
    label: &[u8],
    one: &Said,
    name: &str,
) -> Result<(), AllocError>
    ensures { OnOk result (text.new.items ≡ text.old.items ++ line_if label.now name.now one.now) }
{
    match one {
        Said::Call(call) if call.name.as_str() == name => push_line(alloc, text, label, call),
        _ => Ok(()),
    }
}

/// Adds the lines of the calls of a name, by a root whose label has this JSON.
fn push_lines(
    alloc: Global,
    text: &mut Vec<u8>,
    label: &[u8],
    said: &[Said],
    name: &str,
) -> Result<(), AllocError>
    ensures { OnOk result (text.new.items ≡ text.old.items ++ calls_from label.now name.now said.now) }
{
    for one in said {
        push_named(alloc, text, label, one, name)?;
    }
    Ok(())
}

/// Adds the lines of a root's calls of a name, by the root's number and its module. It answers whether the root is ok; if
/// not, nothing is added.
fn push_root(
    alloc: Global,
    files: &Files,
    text: &mut Vec<u8>,
    n: usize,
    it: &Module,
    name: &str,
) -> Result<bool, AllocError>
    requires { n < length files.now }
    ensures { IfOk result (CallsOf files.now n name.now it.now text.old.items text.new.items) }
{
    if !it.is_good() {
        return Ok(false);
    }
    let label = Json::try_from_str(alloc, files.label(n).text())?.to_vec(alloc)?;
    push_lines(alloc, text, label.as_slice(), said_by(&it.ended), name)?;
    Ok(true)
}

/// Adds the lines of a root's calls of a name, by the modules of all files. It answers whether the root is ok; if not,
/// nothing is added.
fn root_is_added(
    alloc: Global,
    files: &Files,
    text: &mut Vec<u8>,
    table: &[Option<&Module>],
    root: usize,
    name: &str,
) -> Result<bool, AllocError>
    requires { length table.now ≡ length files.now }
    ensures { IfOk result (λ ok. InPlans table.now (λ plan. IsReached plan root
        → AddsRoot files.now plan name.now root text.old.items text.new.items ok)) }
{
    match module_at(table, root) {
        Some(it) => push_root(alloc, files, text, root, it, name),
        None => Ok(false),
    }
}

/// The lines of the roots, up to the first that is not ok.
fn lines_of(
    alloc: Global,
    files: &Files,
    table: &[Option<&Module>],
    roots: &[usize],
    name: &str,
) -> Result<Got, AllocError>
    requires { length table.now ≡ length files.now }
    ensures among { IfOk result (IsLackAmong roots.now) }
    ensures got { IfOk result (λ g. InPlans table.now (λ plan. plan.roots ≡ roots.now
        → CallsFor files.now plan name.now g)) }
{
    let mut lines = Vec::new(alloc);
    for root in roots {
        if !root_is_added(alloc, files, &mut lines, table, *root, name)? {
            return Ok(Got::Lack {
                root: *root,
                why: Lack::NotOk,
            });
        }
    }
    Ok(Got::Lines(lines))
}

/// A line for each call of a name that a root of a run recorded, root by root in their order, each in the order of its
/// calls; or the first root that is not ok.
pub fn calls_of_roots(
    alloc: Global,
    files: &Files,
    run: &mut Run,
    roots: &[usize],
    name: &str,
) -> Result<Got, AllocError>
    requires { length run.old.cells ≡ length files.now }
    ensures same { run.new ≡ run.old }
    ensures among { IfOk result (IsLackAmong roots.now) }
    ensures got { IfOk result (λ g. (plan : Plan) → IsPlanOf files.now plan → plan.roots ≡ roots.now
        → AreModules plan run.old.kept → CallsFor files.now plan name.now g) }
{
    let mut kept = run.kept(alloc)?;
    let table = modules_by_number(alloc, files.len(), run, kept.as_mut_slice())?;
    lines_of(alloc, files, table.as_slice(), roots, name)
}
