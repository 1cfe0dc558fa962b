//! The files that load each file, in one row for all files.

use std::alloc::{AllocError, Global};

/// A load: the number of the file that is loaded, and of the one that loads it.
#[derive(Clone, Copy)]
pub(crate) struct Link {
    pub loaded: usize,
    pub importer: usize,
}

/// For each file the files that load it, as often as they do.
#[derive(Drop)]
pub struct Importers {
    /// Where those of each file begin in the row, and after the last where the row ends.
    starts: Vec<usize>,
    files: Vec<usize>,
}

/// Counts the loads of each file below `count`, one place after its own.
fn counts(alloc: Global, count: usize, links: &[Link]) -> Result<Vec<usize>, AllocError> {
    let mut counts = vec![in alloc; 0usize; count.saturating_add(1)]?;
    for link in links {
        let at = link.loaded.saturating_add(1);
        if at < counts.len() {
            counts[at] = counts[at].saturating_add(1);
        }
    }
    Ok(counts)
}

/// Where the importers of each file below `count` begin, and after the last where they end.
fn starts(alloc: Global, count: usize, links: &[Link]) -> Result<Vec<usize>, AllocError> {
    let mut starts = counts(alloc, count, links)?;
    let mut sum: usize = 0;
    for n in 0..starts.len() {
        sum = sum.saturating_add(starts[n]);
        starts[n] = sum;
    }
    Ok(starts)
}

/// Puts the importer of a load at the next free place of the file that is loaded.
fn put(files: &mut Vec<usize>, next: &mut Vec<usize>, link: Link) {
    if link.loaded >= next.len() {
        return;
    }
    let at = next[link.loaded];
    if at < files.len() {
        files[at] = link.importer;
        next[link.loaded] = at.saturating_add(1);
    }
}

impl Importers {
    /// No file loads another.
    pub fn new(alloc: Global) -> Importers {
        Importers {
            starts: Vec::new(alloc),
            files: Vec::new(alloc),
        }
    }

    /// By these loads of files below `count`. The error: an allocation failed.
    pub(crate) fn by_links(
        alloc: Global,
        count: usize,
        links: &[Link],
    ) -> Result<Importers, AllocError> {
        let starts = starts(alloc, count, links)?;
        let mut next: Vec<usize> = starts.iter().copied().collect(alloc)?;
        let mut files = vec![in alloc; 0usize; links.len()]?;
        for link in links {
            put(&mut files, &mut next, *link);
        }
        Ok(Importers { starts, files })
    }

    /// The files that load a file.
    pub(crate) fn of(&self, n: usize) -> &[usize] {
        let (Some(from), Some(to)) = (self.starts.get(n), self.starts.get(n.saturating_add(1)))
        else {
            return &[];
        };
        if *from > *to || *to > self.files.len() {
            return &[];
        }
        &self.files[*from..*to]
    }
}
