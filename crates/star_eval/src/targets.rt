//! The target of an augmented assignment, `x[i] += v`: its value, its index, and the old item, each evaluated once.

use star_store::values::Value;

/// The value of an index target, its index, and the old item.
#[derive(Clone, Copy)]
pub struct TargetParts {
    pub base: Value,
    pub index: Value,
    pub old: Value,
}
