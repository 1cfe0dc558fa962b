//! The graph of loads: for each file how many loads it has, and which files load it.

ghost use Rattle.std.specs.Prelude.{◌≡◌, ◌+◌, ◌<◌, ◌^◌, ◌-◌, ◌++◌, ◌∷◌, [], All, IfOk, OnOk, length, min, replicate};
ghost use Rattle.star_flow.specs.Schedules.{HasAll, IsReadyOf, loads_of};

use crate::flow::Flow;
use crate::importers::{Importers, Link};
use crate::schedule::Schedule;
use std::alloc::{AllocError, Global};
use std::marker::Model;

/// Files, and for each how many loads it has and which files load it. Contracts see the number of loads.
#[derive(Drop)]
pub struct Graph {
    links: Vec<Link>,
    missing: Vec<usize>,
    files: Vec<usize>,
}

impl Model for Graph {
    ghost use Rattle.star_flow.specs.Schedules.{GraphView};

    ghost Value = { GraphView };

    ghost view = { λ g. record { loads = g.missing.items; files = g.files.items } };
}

impl Graph {
    /// A graph for the numbers below `count`, none of which is a file yet.
    pub fn new(alloc: Global, count: usize) -> Result<Graph, AllocError>
        ensures { IfOk result (λ g. g ≡ record { loads = replicate count 0; files = [] }) }
    {
        Ok(Graph {
            links: Vec::new(alloc),
            missing: vec![in alloc; 0; count]?,
            files: Vec::with_capacity(alloc, count)?,
        })
    }

    /// This number is a file.
    pub fn add_file(&mut self, n: usize) -> Result<(), AllocError>
        ensures { OnOk result (self.new ≡ record { loads = self.old.loads; files = self.old.files ++ n ∷ [] }) }
    {
        self.files.push(n)?;
        Ok(())
    }

    /// The file `n` loads the file `m`, once more. Nothing happens if one of the numbers is not below `count`.
    pub fn add_load(&mut self, n: usize, m: usize) -> Result<(), AllocError>
        ensures files { self.new.files ≡ self.old.files }
        ensures size { length self.new.loads ≡ length self.old.loads }
        ensures loads { OnOk result (n < length self.old.loads → m < length self.old.loads
            → loads_of self.new n ≡ min (loads_of self.old n + 1) (2 ^ 64 - 1)) }
    {
        if n >= self.missing.len() || m >= self.missing.len() {
            return Ok(());
        }
        self.links.push(Link {
            loaded: m,
            importer: n,
        })?;
        self.missing[n] = self.missing[n].saturating_add(1);
        Ok(())
    }

    /// The flow of the files. Those that load nothing are ready.
    pub fn into_flow(self, alloc: Global) -> Result<Flow, AllocError> {
        let Graph {
            links,
            missing,
            files,
        } = self;
        let importers = Importers::by_links(alloc, missing.len(), links.as_slice())?;
        let ready = ready(alloc, &missing, &files)?;
        Ok(Flow::new(importers, Schedule::new(missing, ready)))
    }
}

/// The files that load nothing, the last first.
fn ready(alloc: Global, missing: &[usize], files: &[usize]) -> Result<Vec<usize>, AllocError>
    ensures whole { IfOk result (λ r. All (HasAll missing.now) r.items) }
    ensures among { IfOk result (λ r. IsReadyOf [] files.now r.items) }
{
    let mut ready = Vec::with_capacity(alloc, files.len())?;
    for n in files {
        if *n >= missing.len() || missing[*n] > 0 {
            continue;
        }
        ready.push(*n)?;
    }
    Ok(ready)
}
