//! The options of a run, and the facts that are known before it.

use star_dialect::Mode;
use star_outcome::good_end::GoodEnd;
use star_outcome::memory::Size;
use star_reading::parses::Parsed;
use star_reading::reading::Trees;

/// The options of a run: the files that are asked for, and how it is done.
#[derive(Clone, Copy)]
pub struct RunOptions<'a> {
    /// The files that are asked for, by their numbers.
    pub roots: &'a [usize],
    /// The file whose names every other file sees.
    pub prelude: Option<usize>,
    /// How many loaders there are, from 1 to 64.
    pub loaders: usize,
    /// The mode in which each body runs: its steps are 1 to 100,000,000.
    pub mode: &'a Mode,
    /// The seed for the hashes of keys. No answer depends on it: if it differs from run to run, nobody who writes a
    /// file can choose keys that all collide.
    pub seed: u64,
    /// The ballast of each loader, if memory counts more than time. Then one thread reads files, and a thread of its own
    /// starts the loaders. None if time counts more.
    pub ballast: Option<Size>,
}

/// The facts that are known of the files before a run, besides the readings of some.
#[derive(Clone, Copy)]
pub struct Known<'k, 't> {
    /// Where the trees of the other files are put.
    pub trees: &'t Trees,
    /// The results of parsing texts, by the numbers of their files: these are not parsed again.
    pub parses: &'k [Option<Parsed<'t>>],
    /// Good ends, by the numbers of their files: these files are not run again, but loaded and published as ever.
    pub ends: &'k [Option<GoodEnd>],
}
