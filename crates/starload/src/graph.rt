//! `--graph=json`: what each file loads, a line each, and nothing runs. `star_graph` has the contract of the lines.

use crate::repo::Refusal;
use star_bundle::error::ServeError;
use star_graph::Walk;
use star_label::label::Label;
use star_repo::repo::Repo;
use std::alloc::Global;
use std::collections::BTreeSet;
use std::io::Write;
use std::sync::Wait;

/// Writes the lines of the files that labels reach.
pub(crate) fn print_graph<H: Wait, F: Repo>(
    rt: &HostRuntime,
    waits: &H,
    alloc: Global,
    folder: &mut F,
    labels: BTreeSet<Label>,
) -> Result<(), Refusal> {
    let mut walk = Walk::new(alloc, labels);
    let mut output = rt.stdout();
    // Nothing bounds the files of a folder, which may be written while it is read.
    for _ in waits.forever() {
        let Some(line) = walk.next(alloc, folder)? else {
            break;
        };
        if output.write_all(line.as_slice()).is_err() {
            return Err(Refusal::from(ServeError::Write));
        }
    }
    match output.flush() {
        Ok(()) => Ok(()),
        Err(_) => Err(Refusal::from(ServeError::Write)),
    }
}
