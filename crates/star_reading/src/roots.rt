//! Which files are roots.

ghost use Rattle.std.specs.Prelude.{◌≡◌, IfOk, vec_len};
ghost use Rattle.star_reading.specs.Found.{AreMarked};

use std::alloc::{AllocError, Global};

/// For each file whether it is a root.
pub fn roots_marked(alloc: Global, files: usize, roots: &[usize]) -> Result<Vec<bool>, AllocError>
    ensures size { IfOk result (λ v. vec_len v ≡ files) }
    ensures marks { IfOk result (λ v. AreMarked roots.now v.items) }
{
    let mut marks = vec![in alloc; false; files]?;
    for root in roots {
        if *root < files {
            marks[*root] = true;
        }
    }
    Ok(marks)
}
