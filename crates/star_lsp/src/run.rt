//! Runs of open files, with the files that they load as the editor has them.

use crate::desk::Desk;
use crate::fault::read_label;
use serde_json::Value;
use star_bundle::bundle::json_in;
use star_label::label::Label;
use star_repo::repo::Repo;
use star_serve::ends::CountedWriter;
use star_serve::repo::serve_repo;
use std::alloc::{AllocError, Global};
use std::collections::BTreeSet;
use std::sync::Wait;
use std::thread::Threads;

/// How a run of a file has ended.
#[derive(Drop)]
pub(crate) enum Ran {
    /// The report of the file, and the log of what is at fault, in SARIF.
    Reported { report: Value, log: Value },
    /// Why there is no report.
    Refused(String),
}

/// The entry of a file in a report.
fn module_in<'v>(report: &'v Value, label: &str) -> Option<&'v Value> {
    for module in report.get("modules")?.as_array()? {
        if module.get("label")?.as_str() == Some(label) {
            return Some(module);
        }
    }
    None
}

impl Ran {
    /// What the report says of a file: `None` if it did not reach the file.
    pub(crate) fn module(&self, label: &Label) -> Option<&Value> {
        match self {
            Ran::Reported { report, .. } => module_in(report, label.text()),
            Ran::Refused(_) => None,
        }
    }

    /// Adds the labels of the files that it reached.
    pub(crate) fn add_labels(
        &self,
        alloc: Global,
        labels: &mut BTreeSet<Label>,
    ) -> Result<(), AllocError> {
        let Ran::Reported { report, .. } = self else {
            return Ok(());
        };
        let Some(Value::Array(modules)) = report.get("modules") else {
            return Ok(());
        };
        for module in modules {
            let text = module.get("label").and_then(|label| label.as_str());
            if let Some(label) = read_label(alloc, text.unwrap_or(""))? {
                labels.insert(label)?;
            }
        }
        Ok(())
    }

    /// The results of the log: what is at fault, each with its place.
    pub(crate) fn findings(&self) -> &[Value] {
        let Ran::Reported { log, .. } = self else {
            return &[];
        };
        match log.pointer("/runs/0/results") {
            Some(Value::Array(findings)) => findings.as_slice(),
            _ => &[],
        }
    }
}

/// The JSON that some bytes are: null if they are none.
fn value_in(alloc: Global, bytes: &[u8]) -> Result<Value, AllocError> {
    Ok(json_in(alloc, bytes)?.unwrap_or(Value::Null))
}

/// Runs a file, with the files that it loads.
pub(crate) fn run<H: Threads + Wait + Sync, F: Repo>(
    rt: &H,
    desk: &Desk,
    folder: &mut F,
    label: &Label,
) -> Result<Ran, AllocError> {
    let alloc = desk.alloc;
    let options = desk.settings.options(alloc, label)?;
    let mut report = CountedWriter::new(Vec::new(alloc));
    let mut log = CountedWriter::new(Vec::new(alloc));
    match serve_repo(rt, alloc, folder, &mut report, &mut log, &options) {
        Ok(_) => Ok(Ran::Reported {
            report: value_in(alloc, report.writer().as_slice())?,
            log: value_in(alloc, log.writer().as_slice())?,
        }),
        Err(error) => Ok(Ran::Refused(format!(in alloc; "{error}")?)),
    }
}
