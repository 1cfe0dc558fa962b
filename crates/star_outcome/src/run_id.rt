//! The identity of one run, which only contracts see.

ghost use Rattle.std.specs.Prelude.{ℕ, List, [], None};
ghost use Rattle.star_dialect.specs.declared.Dialect.TheVariants.{Core};
ghost use Rattle.star_label.specs.Files.{File};
ghost use Rattle.star_plan.specs.Plan.{Plan};

use std::marker::Brand;
use std::sync::ledger::Ledger;

/// The identity of one run: its files, their plan, and its shelf. Each run picks a fresh one for its cache.
pub trait RunId: Ledger {
    ghost files: { List File };

    // the roots, the prelude, the mode, and the result of reading each file
    ghost plan: { Plan };

    // the names of the shelf's cells
    ghost shelf: { List ℕ };
}

impl RunId for Brand {
    ghost files = { [] };

    ghost plan = { record { roots = []; prelude = None; mode = record { steps = 1; language = record { dialect = Core; recorded = [] } }; reads = [] } };

    ghost shelf = { [] };
}
