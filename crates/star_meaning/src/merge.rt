//! The ways to merge a set with others.

/// Which elements a merged set has: `Union`, those of the set, then those of the others; `Intersection`, those that all
/// others have; `Difference`, those that no other has; `SymmetricDifference`, those that the other does not have, then
/// those of the other that the set does not have.
#[derive(Clone, Copy, Debug, PartialEq, Eq)]
pub enum Merge {
    Union,
    Intersection,
    Difference,
    SymmetricDifference,
}

/// What is asked of a set and another one: whether they have no element in common, whether each element of the set is
/// in the other, whether each element of the other is in the set.
#[derive(Clone, Copy, Debug, PartialEq, Eq)]
pub enum Relation {
    IsDisjoint,
    IsSubset,
    IsSuperset,
}
