//! The steps and levels that a visit of values may still use.

/// The steps that may still be paid, and the levels that may still be opened.
#[derive(Clone, Copy, Debug, PartialEq, Eq)]
pub struct Budget {
    pub steps: u64,
    pub levels: u32,
}
