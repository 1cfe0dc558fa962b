//! The verdict on a file.

use star_cause::Cause;
use star_reading::code::StaticFault;

/// The verdict on a file that was not run.
#[derive(Debug, Drop)]
pub enum Verdict {
    /// It has this static fault.
    AtFault(StaticFault),
    /// The first of its loads that is not sound is on this line, and has this cause.
    Fails { cause: Cause, line: usize },
    /// There is nothing against it.
    Unrun,
}

/// A file and its verdict.
#[derive(Debug, Drop)]
pub struct Judged {
    pub file: usize,
    pub verdict: Verdict,
}
