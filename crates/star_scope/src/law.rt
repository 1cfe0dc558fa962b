//! Laws of bindings and of faults, true of every file.

ghost use Rattle.star_scope.specs.Faults.{FirstIsFirst};
ghost use Rattle.star_scope.specs.Places.{SpotsLead};

/// The promise of a spot. Take a row of values for each block of a chain, with a value for each name of the block. If
/// the spot of a name is `up` frames up at a slot, then the row that is `up` rows up has, at this slot, the value of
/// the name in the nearest row whose block binds it. A spot is in the prelude or in the outermost block only if no row
/// has the name, and in the outermost block only if the prelude lacks it too. If a name has no spot, then neither a row
/// nor the prelude nor the outermost block has it. (`docs/LANGUAGE.md`, "Scopes and static faults".)
pub fn spots_lead<V>()
    ensures { SpotsLead V }
{}

/// The first of several faults is one of them, and no other comes before it. It is `None` exactly for an empty list.
pub fn first_is_first()
    ensures { FirstIsFirst }
{}
