//! The modules of a run, by the numbers of their files.

ghost use Rattle.std.specs.Prelude.{◌≡◌, IfOk, length, vec_len};
ghost use Rattle.star_plan.specs.Plan.{Plan};
ghost use Rattle.star_outcome.specs.Kept.{AreModules};
ghost use Rattle.star_report.specs.Drawn.{IsTableWithin};
ghost use Rattle.star_report.specs.Table.{IsTable};

use star_outcome::module::Module;
use star_outcome::outcome::{Kept, Run};
use std::alloc::{AllocError, Global};

/// The module of each file; none for a file that is not reached.
pub(crate) fn modules_by_number<'a>(
    alloc: Global,
    files: usize,
    run: &'a Run,
    kept: &mut [Kept],
) -> Result<Vec<Option<&'a Module>>, AllocError>
    requires files { files ≡ length run.now.cells }
    requires kept { kept.old ≡ run.now.kept }
    ensures size { IfOk result (λ v. vec_len v ≡ files) }
    ensures within { IfOk result (λ v. IsTableWithin files v.items) }
    ensures modules { IfOk result (λ v. (plan : Plan) → AreModules plan run.now.kept → IsTable plan v.items) }
{
    let mut table = vec![in alloc; None; files]?;
    for i in 0..run.len() {
        let it = run.module(i, kept[i].note());
        table[it.number] = Some(it);
    }
    Ok(table)
}
