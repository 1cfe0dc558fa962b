//! `check`: from the files that were read to the text of the check.

ghost use Rattle.std.specs.Prelude.{◌≡◌, All, Contains, IfOk, false, length, true};
ghost use Rattle.star_reading.specs.Readings.{LeadWithin};
ghost use Rattle.star_check.specs.Judged.{ChecksRead, verdict_view};
ghost use Rattle.star_check.specs.Text.{is_unrun};
ghost use Rattle.star_check.specs.declared.verdict.Judged.{Judged as JudgedView};

use crate::judge::judge;
use crate::text::text_of;
use crate::verdict::Judged;
use star_label::files::Files as Labels;
use star_reading::reading::Reads;
use std::alloc::{AllocError, Global};

/// The check of files that were read.
#[derive(Drop)]
pub struct Checked {
    /// The verdict on each, in order.
    pub judged: Vec<Judged>,
    /// The check as text.
    pub text: Vec<u8>,
    /// Whether there is nothing against any.
    pub all_ok: bool,
}

/// Whether there is nothing against these files.
fn are_unrun(judged: &[Judged]) -> bool
    ensures yes { result ≡ true → All (λ j. is_unrun (verdict_view j.verdict) ≡ true) judged.now }
    ensures no { result ≡ false → (j : JudgedView) × Contains judged.now j × (is_unrun (verdict_view j.verdict) ≡ false) }
{
    for it in judged {
        if !it.is_unrun() {
            return false;
        }
    }
    true
}

/// Checks the files that roots reach, by their readings, before any runs. Of the files with nothing against them the
/// text may show the roots alone. `calls` says whether each file has an empty row of calls.
pub fn check(
    alloc: Global,
    files: &Labels,
    reads: &Reads,
    roots: &[usize],
    only_roots: bool,
    calls: bool,
) -> Result<Checked, AllocError>
    requires sized { length reads.now.all.items ≡ length files.now }
    requires loads { LeadWithin reads.now.all.items }
    ensures { IfOk result (λ c. ChecksRead only_roots calls files.now roots.now reads.now.all.items c.text.items c.all_ok) }
{
    let judged = judge(alloc, reads)?;
    let told = judged.as_slice();
    let text = text_of(alloc, files, told, roots, only_roots, calls)?;
    let all_ok = are_unrun(told);
    Ok(Checked {
        judged,
        text,
        all_ok,
    })
}
