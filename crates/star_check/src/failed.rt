//! The JSON of files that fail by a static fault or by a load, in a check as in the report of a run.

ghost use Rattle.std.specs.Prelude.{◌≡◌, ◌<◌, All, IfOk, length, map};
ghost use Rattle.star_cause.specs.Causes.{IsBelow, cause_of};
ghost use Rattle.serde_json.specs.Data.{string};
ghost use Rattle.serde_json.specs.View.{view};
ghost use Rattle.star_label.specs.Files.{label_at};
ghost use Rattle.star_plan.specs.Text.{load_data, static_data};
ghost use Rattle.star_reading.specs.Codes.{fault_of};

use serde_json::{Value, json};
use star_cause::Cause;
use star_label::files::Files as Labels;
use star_reading::code::StaticFault;
use std::alloc::{AllocError, Global};

/// The labels of files.
fn labels_of(alloc: Global, files: &Labels, numbers: &[usize]) -> Result<Vec<Value>, AllocError>
    requires { All (λ n. n < length files.now) numbers.now }
    ensures { IfOk result (λ v. map view v.items ≡ map string (map (label_at files.now) numbers.now)) }
{
    let mut labels = Vec::new(alloc);
    for n in numbers {
        labels.push(Value::try_from_str(alloc, files.label(*n).text())?)?;
    }
    Ok(labels)
}

/// A file with a static fault.
pub fn static_value(alloc: Global, label: &str, fault: StaticFault) -> Result<Value, AllocError>
    ensures { IfOk result (λ v. view v ≡ static_data label.now (fault_of fault)) }
{
    let (code, line) = (fault.code.text(), fault.shown_line());
    let lines = Value::Array(Vec::new(alloc));
    json!(in alloc; {"fault": code, "label": label, "line": line as u64, "lines": lines, "status": "static"})
}

/// A file that fails by its loads.
pub fn load_value(
    alloc: Global,
    files: &Labels,
    label: &str,
    cause: &Cause,
    line: usize,
) -> Result<Value, AllocError>
    requires { IsBelow (length files.now) (cause_of cause.now) }
    ensures { IfOk result (λ v. view v ≡ load_data files.now label.now (cause_of cause.now) line) }
{
    let lines = Value::Array(Vec::new(alloc));
    match cause {
        Cause::Culprit(file) => {
            let cause = files.label(*file).text();
            json!(in alloc; {"cause": cause, "label": label, "line": line as u64, "lines": lines, "status": "load"})
        }
        Cause::Cycle(cycle) => {
            let cycle = Value::Array(labels_of(alloc, files, cycle.as_slice())?);
            json!(in alloc; {"cycle": cycle, "label": label, "line": line as u64, "lines": lines, "status": "load"})
        }
    }
}
