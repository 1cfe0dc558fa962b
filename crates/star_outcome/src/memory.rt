//! Memory that goes back to the system, for callers that keep little from one run to the next.
//!
//! The C library keeps a part of the memory for each thread, in heaps of 64 MiB of addresses. It joins the small free
//! blocks of a part only as a block of 64 KiB or more in it is freed. Then a heap that has become empty is given back,
//! but not the first one. Of this only the free end is given back, and only if it is large enough: twice as large as
//! the largest block of up to 32 MiB that was ever mapped apart and freed. A block is mapped apart if it has 128 KiB or
//! more, and is larger than all those that were mapped apart and freed.

use std::alloc::{AllocError, Global};

/// The words of the blocks of a small ballast: one of 64 KiB.
const SMALL: [usize; 4] = [0, 1 << 13, 0, 0];

/// The words of the blocks of a ballast that fills a first heap: 16 KiB that may stay, and in all nearly 64 MiB. The
/// second block is the largest one that is mapped apart and counted: it has 8 KiB less than 32 MiB.
const LARGE: [usize; 4] = [
    1 << 11,
    ((1 << 25) - (1 << 13)) >> 3,
    ((1 << 25) - (1 << 18)) >> 3,
    (192 << 10) >> 3,
];

/// From so many bytes on, a block is mapped apart.
const MAPPED_APART: usize = 1 << 17;

/// The bytes of a block that is mapped apart, and whose end is not counted: a little more than 32 MiB.
const UNCOUNTED: usize = (1 << 25) + (1 << 16);

/// The size of a ballast.
#[derive(Clone, Copy)]
pub enum Size {
    /// 64 KiB: the small free blocks are joined when it is freed, and a large free end is given back.
    Block,
    /// Nearly 64 MiB: it fills the first heap, so that what the loader makes lies in further ones, which are given back
    /// whatever their size. It is of use only if the process freed such a ballast before its first run.
    Heap,
}

/// Blocks in the part of the memory that the C library keeps for a loader, which are freed after all else that it
/// made. They hold nothing, so they take addresses and hardly any memory.
///
/// When a ballast of the size of a heap is freed for the first time, the C library takes note of its blocks, and maps
/// apart only larger ones from then on. So if this is done before the first run, that run takes memory as those after it
/// do.
#[derive(Drop)]
pub struct Ballast {
    pad: Vec<u64>,
    blocks: [Vec<u64>; 3],
}

impl Ballast {
    /// A ballast in the part of this thread. The error: an allocation failed.
    pub fn new(alloc: Global, size: Size) -> Result<Ballast, AllocError> {
        let [pad, first, second, third] = match size {
            Size::Block => SMALL,
            Size::Heap => LARGE,
        };
        let pad = Vec::with_capacity(alloc, pad)?;
        let first = Vec::with_capacity(alloc, first)?;
        let second = Vec::with_capacity(alloc, second)?;
        let third = Vec::with_capacity(alloc, third)?;
        let blocks = [first, second, third];
        Ok(Ballast { pad, blocks })
    }

    /// Frees all but the 16 KiB of a ballast that fills a heap. If these are freed only after a later ballast of the
    /// same part was lightened, the first heap stays as it is, and its pages need not be made again.
    pub fn lighten(&mut self, alloc: Global) {
        self.blocks = [Vec::new(alloc), Vec::new(alloc), Vec::new(alloc)];
    }
}

/// The room to reserve for a text of so many bytes. If memory counts more than time (`frugal`) and the text is long, its
/// block is mapped apart and not counted, so that it is given back at once, and the parts of the memory as before. Room
/// that is not written to takes no memory.
pub fn room_for(bytes: usize, frugal: bool) -> usize {
    if frugal && bytes >= MAPPED_APART {
        bytes.max(UNCOUNTED)
    } else {
        bytes
    }
}

/// How many threads, of as many as there are loaders, share work besides the runs of files: one if memory counts more
/// than time (`frugal`), so that all that it makes lies in one part of the memory.
pub fn threads_for(loaders: usize, frugal: bool) -> usize {
    if frugal { 1 } else { loaders }
}
