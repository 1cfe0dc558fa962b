//! The cause of a load that is not good.

/// The cause of a load that is not good: a file with a fault of its own, or a cycle of files.
#[derive(Debug, Drop)]
pub enum Cause {
    Culprit(usize),
    /// Listed from its first file that is met.
    Cycle(Vec<usize>),
}
