//! `Spot`: the binding of a name, used to find its value when the file runs.

/// The binding of a name, as seen from the block that uses it (`docs/LANGUAGE.md`, "Scopes and static faults").
#[derive(Clone, Copy, Debug, PartialEq, Eq)]
pub enum Spot {
    /// In the frame that is this many frames above the innermost one, at this slot.
    Frame { up: usize, slot: usize },
    /// Among the globals of the prelude.
    Prelude,
    /// In the outermost block, beside the built-ins.
    Outermost,
}
