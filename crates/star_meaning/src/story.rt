//! The story of a fault, for a person: where the run was, and the calls that led there.
//!
//! No report rests on it. Steps that found no memory are left out.

/// A step of the way out that a fault takes through a run; the innermost comes first.
#[derive(Clone, Copy, Debug, PartialEq, Eq)]
pub enum Step {
    /// A running statement of a file: its line, and its first token.
    Statement {
        file: u32,
        line: usize,
        token: usize,
    },
    /// The call of the body that the step before has left: the token of the name that is called.
    From {
        file: u32,
        token: usize,
    },
    /// The body of the definition with this number, the first token of the definition.
    Call {
        file: u32,
        number: usize,
    },
}

/// The story of a fault: its way out.
#[derive(Debug, Drop)]
pub struct Story {
    pub trail: Vec<Step>,
}
