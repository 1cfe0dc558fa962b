//! Cycles of loads, as text: the load statements along each, one after another.

ghost use Rattle.std.specs.Prelude.{◌≡◌, ◌+◌, ◌≤◌, IfOk, OnOk, sum_by, length, vec_len};
ghost use Rattle.star_explain.specs.Unseen.{kept};

use crate::ends::{End, Ends};
use crate::entry::Entry;
use crate::trail::mark_of_line;
use star_label::files::Files;
use star_mistakes::message::{Part, message, push_message};
use star_mistakes::place::{Naming, label_of, push_place};
use std::alloc::{AllocError, Global};

/// How many loads of a cycle are listed.
const LISTED: usize = 20;

/// The cycles of a run.
#[derive(Drop)]
pub(crate) struct Cycles {
    /// The cycles, each with its files as the loads lead from one to the next.
    pub all: Vec<Vec<usize>>,
    /// For each file of a cycle the number of the cycle.
    of: Vec<Option<usize>>,
    /// In which order the roots come to the files.
    orders: Vec<usize>,
}

/// The loads of each file.
fn unseen_in<'a>(
    alloc: Global,
    loads: &'a [Vec<usize>],
) -> Result<Vec<Option<&'a [usize]>>, AllocError> {
    let mut unseen = Vec::with_capacity(alloc, loads.len())?;
    for of in loads {
        unseen.push(Some(of.as_slice()))?;
    }
    Ok(unseen)
}

/// The loads of a file that is come to for the first time. They are kept no longer.
fn first_seen<'a>(unseen: &mut Vec<Option<&'a [usize]>>, n: usize) -> Option<&'a [usize]>
    ensures { sum_by kept unseen.new.items + kept result ≤ sum_by kept unseen.old.items }
{
    match unseen.get_mut(n) {
        Some(place) => place.take(),
        None => None,
    }
}

/// Puts files on the stack, the first of them on top.
fn push_files(todo: &mut Vec<usize>, files: &[usize]) -> Result<(), AllocError>
    ensures { OnOk result (vec_len todo.new ≡ vec_len todo.old + length files.now) }
{
    for i in (0..files.len()).rev() {
        todo.push(files[i])?;
    }
    Ok(())
}

/// In which order the roots come to the files, by the loads of each one in order.
fn orders_of(alloc: Global, ends: &Ends, roots: &[usize]) -> Result<Vec<usize>, AllocError> {
    let mut orders = vec![in alloc; usize::MAX; ends.ends.len()]?;
    let mut unseen = unseen_in(alloc, ends.loads.as_slice())?;
    let mut todo: Vec<usize> = Vec::new(alloc);
    push_files(&mut todo, roots)?;
    let mut come = 0;
    while let Some(n) = todo.pop() {
        let Some(loads) = first_seen(&mut unseen, n) else {
            continue;
        };
        if let Some(order) = orders.get_mut(n) {
            *order = come;
        }
        come = come.saturating_add(1);
        push_files(&mut todo, loads)?;
    }
    Ok(orders)
}

/// The cycle that a file is on, from that file on.
fn cycle_from(alloc: Global, ends: &Ends, first: usize) -> Result<Vec<usize>, AllocError> {
    let mut files = Vec::new(alloc);
    let mut at = first;
    for _ in 0..ends.ends.len() {
        files.push(at)?;
        match ends.end(at) {
            End::Load { next, .. } if next != first => at = next,
            _ => break,
        }
    }
    Ok(files)
}

impl Cycles {
    /// The cycles that the loads of files lead into, by the files that are their roots.
    pub(crate) fn of(
        alloc: Global,
        ends: &Ends,
        roots: &[usize],
        asked: &[usize],
    ) -> Result<Cycles, AllocError> {
        let mut cycles = Cycles {
            all: Vec::new(alloc),
            of: vec![in alloc; None; ends.ends.len()]?,
            orders: orders_of(alloc, ends, asked)?,
        };
        for root in roots {
            cycles.add(alloc, ends, *root)?;
        }
        Ok(cycles)
    }

    /// The cycle that a file is on, if that cycle is not known yet.
    fn add(&mut self, alloc: Global, ends: &Ends, root: usize) -> Result<(), AllocError> {
        let End::Load { .. } = ends.end(root) else {
            return Ok(());
        };
        if self.number(root).is_some() {
            return Ok(());
        }
        let files = cycle_from(alloc, ends, root)?;
        let number = self.all.len();
        for file in &files {
            if let Some(place) = self.of.get_mut(*file) {
                *place = Some(number);
            }
        }
        self.all.push(files)?;
        Ok(())
    }

    /// The number of the cycle that a file is on.
    pub(crate) fn number(&self, file: usize) -> Option<usize> {
        self.of.get(file).copied().flatten()
    }

    /// The place in a cycle of the file that the roots come to first: the last load of the cycle leads to it.
    fn entrance(&self, files: &[usize]) -> usize {
        let mut best = 0;
        let mut least = usize::MAX;
        for (i, file) in files.iter().enumerate() {
            let order = self.orders.get(*file).copied().unwrap_or(usize::MAX);
            if order < least {
                least = order;
                best = i;
            }
        }
        best
    }

    /// The entry of a cycle: the load that closes it, and below it the other loads.
    pub(crate) fn entry(
        &self,
        alloc: Global,
        files: &Files,
        ends: &Ends,
        naming: Naming,
        number: usize,
    ) -> Result<Option<Entry>, AllocError> {
        let Some(cycle) = self.all.get(number) else {
            return Ok(None);
        };
        let (front, back) = cycle.split_at(self.entrance(cycle.as_slice()).min(cycle.len()));
        let mut ordered = Vec::new(alloc);
        ordered.extend_from_slice(back)?;
        ordered.extend_from_slice(front)?;
        let Some(last) = ordered.pop() else {
            return Ok(None);
        };
        let End::Load { next, line } = ends.end(last) else {
            return Ok(None);
        };
        let label = label_of(files, next);
        Ok(Some(Entry {
            mark: mark_of_line(files, last, line),
            is_certain: true,
            code: "load",
            text: closing(alloc, label)?,
            notes: notes_of(alloc, files, ends, naming, ordered.as_slice())?,
            help: Some(String::from_str(
                alloc,
                "move what both need into a file of its own, which loads none of them",
            )?),
            root: Some(last),
            more: Vec::new(alloc),
        }))
    }
}

/// The text on the load that closes a cycle.
fn closing(alloc: Global, label: &str) -> Result<String, AllocError> {
    let parts = [
        Part::Plain("this load of "),
        Part::Plain(label),
        Part::Plain(" closes a cycle of loads"),
    ];
    message(alloc, &parts)
}

/// The loads of files of a cycle, a line each.
fn notes_of(
    alloc: Global,
    files: &Files,
    ends: &Ends,
    naming: Naming,
    cycle: &[usize],
) -> Result<String, AllocError> {
    let mut notes = String::new(alloc);
    for file in cycle.iter().take(LISTED) {
        if let End::Load { next, line } = ends.end(*file) {
            notes.push_str("  ")?;
            push_place(&mut notes, files, mark_of_line(files, *file, line), naming)?;
            let loads = [
                Part::Plain(": loads "),
                Part::Plain(label_of(files, next)),
                Part::Plain("\n"),
            ];
            push_message(&mut notes, &loads)?;
        }
    }
    if cycle.len() > LISTED {
        let more = [
            Part::Plain("  and "),
            Part::Number(cycle.len().saturating_sub(LISTED)),
            Part::Plain(" more loads\n"),
        ];
        push_message(&mut notes, &more)?;
    }
    Ok(notes)
}
