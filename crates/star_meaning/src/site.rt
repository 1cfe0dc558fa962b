//! `Site`: where a run is: the file, the frame and the line.

use star_store::values::Value;

/// The file whose text runs, the innermost frame, and the line of the running module that a fault would have.
#[derive(Clone, Copy, Debug, PartialEq, Eq)]
pub struct Site {
    pub file: u32,
    pub frame: Value,
    pub line: usize,
}

/// How a statement ends: the next one follows, the innermost loop ends or takes its next turn, or the function ends.
#[derive(Clone, Copy, Debug, PartialEq, Eq)]
pub enum Flow {
    Next,
    Break,
    Continue,
    Return(Value),
}
