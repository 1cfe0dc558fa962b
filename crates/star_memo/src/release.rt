//! Freeing values by threads of their own.
//!
//! The C library keeps a part of the memory for each thread, and a thread that frees a block keeps it for itself as long
//! as it lives, also if it lies in the part of another one. Blocks that a thread which stays has kept so would cut the
//! other parts to pieces. So what many threads have made is freed by threads that end.

ghost use Rattle.std.specs.Prelude.{◌≡◌, ◌≤◌, IfOk, vec_len};

use std::alloc::{AllocError, Global};
use std::thread;
use std::thread::Threads;

/// Below this, one thread is faster than starting others.
pub(crate) const VALUES_FOR_THREADS: usize = 256;

/// Empty rows, each with room for `size` values. The error: an allocation failed.
fn empty_rows<T: Drop>(alloc: Global, rows: usize, size: usize) -> Result<Vec<Vec<T>>, AllocError>
    ensures { IfOk result (λ all. vec_len all ≡ rows) }
{
    let mut all = Vec::with_capacity(alloc, rows)?;
    for _ in 0..rows {
        all.push(Vec::with_capacity(alloc, size)?)?;
    }
    Ok(all)
}

/// Deals values out to some rows, one to each in turn: neighbours, which share much, are freed at about the same time.
/// The error: an allocation failed.
fn dealt<T: Drop>(alloc: Global, values: Vec<T>, rows: usize) -> Result<Vec<Vec<T>>, AllocError>
    requires { 1 ≤ rows }
{
    let mut dealt = empty_rows(alloc, rows, values.len() / rows + 1)?;
    let mut next = 0;
    for value in values {
        dealt[next].push(value)?;
        next = if next + 1 < dealt.len() { next + 1 } else { 0 };
    }
    Ok(dealt)
}

/// Frees a value that several threads have made, by a thread of its own.
pub(crate) fn free_apart<T: Drop + Send, R: Threads>(rt: &R, value: T) {
    thread::join(rt, move || drop(value), || ());
}

/// Frees values, by up to `threads` threads if there are many: a run of thousands of files is freed in a quarter of the
/// time that one thread takes. If an allocation fails, one thread frees them.
pub fn free<T: Drop + Send, R: Threads + Sync>(
    rt: &R,
    alloc: Global,
    values: Vec<T>,
    threads: usize,
)
    requires { 1 ≤ threads }
{
    if threads == 1 || values.len() < VALUES_FOR_THREADS {
        drop(values);
        return;
    }
    let Ok(rows) = dealt(alloc, values, threads) else {
        return;
    };
    let _ = thread::map_vec(rt, rows, &|row: Vec<T>| -> () { drop(row) });
}
