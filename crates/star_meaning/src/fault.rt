//! The faults of a run: `FaultCode` is their kind, `Fault` adds the line.

/// The kind of a fault.
#[derive(Clone, Copy, Debug, PartialEq, Eq)]
pub enum FaultCode {
    /// A write to a value of another module.
    Frozen,
    /// A write to a value that is being iterated.
    Iterating,
    /// A value of a wrong type.
    BadType,
    /// A place that is not there.
    Index,
    /// A key that is not there, or that a display repeats.
    Key,
    /// An int outside 64 bits.
    Overflow,
    /// A variable without a value.
    Unbound,
    /// A call of a definition that is active.
    Recursion,
    /// Arguments that do not fit.
    Args,
    /// A division by zero.
    Zero,
    /// A call of `fail`.
    Fail,
    /// A name that a loaded module does not have.
    NoName,
    /// A payment larger than the steps left.
    Steps,
    /// A level more than may be open.
    Deep,
    /// A place inside a character.
    Cut,
    /// A value that does not suit.
    BadValue,
}

/// Why a run stops, and at which line of the running module.
#[derive(Clone, Copy, Debug, PartialEq, Eq)]
pub struct Fault {
    pub code: FaultCode,
    pub line: usize,
}
