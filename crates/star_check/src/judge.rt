//! `judge`: the verdict on each file that was read.

ghost use Rattle.std.specs.Prelude.{◌≡◌, ◌<◌, ℕ, All, IfOk, IfSome, MatchOption, None, OnOk, Some, length, map, slice_get, vec_len};
ghost use Rattle.std.specs.Option.{option_map};
ghost use Rattle.star_cause.specs.Ends.{AreWithin};
ghost use Rattle.star_reading.specs.Readings.{InReadPlans, LeadWithin, loads_at, read_at, reading_of, readings};
ghost use Rattle.star_sound.specs.Sound.{IsProspect, rows_of};
ghost use Rattle.star_sound.specs.declared.sound.Prospect.TheVariants.{Lacks};
ghost use Rattle.star_check.specs.Check.{FailsBy, IsCheck, needs, needs_in};
ghost use Rattle.star_check.specs.Judged.{AreNexts, AreProspects, FailsByLoad, InFilePlans, InToldPlans, IsJudgedBelow, IsVerdictBelow, IsVerdictBy, TellsNext, judged_view};

use crate::verdict::{Judged, Verdict};
use star_cause::Causes;
use star_reading::reading::{Read, Reads, numbers};
use star_scope::loads::Load;
use star_sound::{Prospect, prospects};
use std::alloc::{AllocError, Global};

/// The files that a file needs; `None` if it has a static fault or was not read.
fn need_of(alloc: Global, entry: &Option<Read>) -> Result<Option<Vec<usize>>, AllocError>
    ensures { IfOk result (λ o. option_map (λ v. v.items) o ≡ needs_in (option_map reading_of entry.now)) }
{
    match entry {
        Some(Read::Program(program)) => Ok(Some(numbers(alloc, program.loads())?)),
        _ => Ok(None),
    }
}

/// The needs of each file.
fn needs_of(alloc: Global, reads: &Reads) -> Result<Vec<Option<Vec<usize>>>, AllocError>
    ensures { IfOk result (λ v. rows_of v.items ≡ map needs_in (readings reads.now.all.items)) }
{
    let mut all = Vec::with_capacity(alloc, reads.all.len())?;
    for entry in &reads.all {
        all.push(need_of(alloc, entry)?)?;
    }
    Ok(all)
}

/// The result of reading a file; `None` if it was not read.
fn read_in<'s, 't>(reads: &'s Reads<'t>, n: usize) -> Option<&'s Read<'t>>
    ensures { MatchOption result (read_at reads.now.all.items n ≡ None)
        (λ r. read_at reads.now.all.items n ≡ Some r.now) }
{
    match reads.all.get(n) {
        Some(Some(read)) => Some(read),
        _ => None,
    }
}

/// The prospect of each file.
fn prospects_of(alloc: Global, reads: &Reads) -> Result<Vec<Prospect>, AllocError>
    requires { LeadWithin reads.now.all.items }
    ensures size { IfOk result (λ v. vec_len v ≡ length reads.now.all.items) }
    ensures are { IfOk result (λ v. AreProspects reads.now.all.items v.items) }
{
    let needs = needs_of(alloc, reads)?;
    let told = prospects(alloc, needs.as_slice())?;
    Ok(told)
}

/// The prospect of one of them.
fn prospect_at(prospects: &[Prospect], n: usize) -> Prospect
    requires { n < length prospects.now }
    ensures { slice_get prospects.now n ≡ Some result }
{
    match prospects.get(n) {
        Some(prospect) => *prospect,
        None => unreachable!(),
    }
}

/// The load by which a file fails; `None` if it fails by no load.
fn load_by<'s, 't>(reads: &'s Reads<'t>, n: usize, prospect: Prospect) -> Option<&'s Load>
    ensures there { IfSome result (λ l. (i : ℕ) × (slice_get (loads_at reads.now.all.items n) i ≡ Some l.now)) }
    ensures load { IfSome result (λ l. InReadPlans reads.now.all.items (λ plan. IsProspect (needs plan) n prospect
        → FailsByLoad plan n l.now)) }
    ensures none { result ≡ None → InReadPlans reads.now.all.items (λ plan. IsProspect (needs plan) n prospect
        → (i : ℕ) → prospect ≡ Lacks i → ⊥) }
{
    match prospect {
        Prospect::Lacks(place) => reads.loads(n).get(place),
        _ => None,
    }
}

/// The file that a file loads and by which it fails; `None` if it fails by none.
fn next_of(reads: &Reads, n: usize, prospect: Prospect) -> Option<usize>
    requires { LeadWithin reads.now.all.items }
    ensures within { IfSome result (λ m. m < length reads.now.all.items) }
    ensures fails { IfSome result (λ m. InReadPlans reads.now.all.items (λ plan. IsProspect (needs plan) n prospect
        → FailsBy plan n m)) }
    ensures none { result ≡ None → InReadPlans reads.now.all.items (λ plan. IsProspect (needs plan) n prospect
        → (i : ℕ) → prospect ≡ Lacks i → ⊥) }
{
    match load_by(reads, n, prospect) {
        Some(load) => Some(load.file),
        None => None,
    }
}

/// For each file, the file that it loads and by which it fails.
fn nexts_of(
    alloc: Global,
    reads: &Reads,
    prospects: &[Prospect],
) -> Result<Vec<Option<usize>>, AllocError>
    requires sized { length prospects.now ≡ length reads.now.all.items }
    requires loads { LeadWithin reads.now.all.items }
    ensures size { IfOk result (λ v. vec_len v ≡ length reads.now.all.items) }
    ensures within { IfOk result (λ v. AreWithin v.items) }
    ensures nexts { IfOk result (λ v. AreNexts reads.now.all.items prospects.now v.items) }
{
    let mut nexts = Vec::with_capacity(alloc, prospects.len())?;
    for n in 0..prospects.len() {
        let prospect = prospect_at(prospects, n);
        nexts.push(next_of(reads, n, prospect))?;
    }
    Ok(nexts)
}

/// The verdict on a file.
fn verdict_of(
    alloc: Global,
    reads: &Reads,
    causes: &Causes,
    n: usize,
    prospect: Prospect,
    read: &Read,
) -> Result<Verdict, AllocError>
    requires { n < length causes.now }
    ensures within { IfOk result (IsVerdictBelow (length causes.now)) }
    ensures verdict { IfOk result (λ v. IsVerdictBy reads.now.all.items causes.now n read.now prospect v) }
{
    if let Read::Fault(fault) = read {
        return Ok(Verdict::AtFault(*fault));
    }
    match load_by(reads, n, prospect) {
        Some(load) => {
            let line = load.line;
            let cause = causes.of(alloc, n)?;
            Ok(Verdict::Fails { cause, line })
        }
        None => Ok(Verdict::Unrun),
    }
}

/// Adds the verdict on one more file, if it was read.
fn push_judged(
    alloc: Global,
    reads: &Reads,
    causes: &Causes,
    n: usize,
    prospect: Prospect,
    all: &mut Vec<Judged>,
) -> Result<(), AllocError>
    requires causes { length causes.now ≡ length reads.now.all.items }
    requires there { n < length reads.now.all.items }
    ensures within { OnOk result (All (IsJudgedBelow (length reads.now.all.items)) all.old.items
        → All (IsJudgedBelow (length reads.now.all.items)) all.new.items) }
    ensures check { OnOk result
        (TellsNext reads.now.all.items causes.now n prospect all.old.items all.new.items) }
{
    match read_in(reads, n) {
        Some(read) => {
            let verdict = verdict_of(alloc, reads, causes, n, prospect, read)?;
            all.push(Judged { file: n, verdict })?;
            Ok(())
        }
        None => Ok(()),
    }
}

/// The verdict on each file that was read, in order.
fn judged_by(
    alloc: Global,
    reads: &Reads,
    causes: &Causes,
    prospects: &[Prospect],
) -> Result<Vec<Judged>, AllocError>
    requires sized { length prospects.now ≡ length reads.now.all.items }
    requires causes { length causes.now ≡ length reads.now.all.items }
    ensures within { IfOk result (λ v. All (IsJudgedBelow (length reads.now.all.items)) v.items) }
    ensures check { IfOk result (λ v. InToldPlans reads.now.all.items prospects.now causes.now
        (λ plan. IsCheck plan (map judged_view v.items))) }
{
    let mut all = Vec::new(alloc);
    for n in 0..prospects.len() {
        let prospect = prospect_at(prospects, n);
        push_judged(alloc, reads, causes, n, prospect, &mut all)?;
    }
    Ok(all)
}

/// The verdict on each file that was read, in the order of their numbers.
pub fn judge(alloc: Global, reads: &Reads) -> Result<Vec<Judged>, AllocError>
    requires { LeadWithin reads.now.all.items }
    ensures within { IfOk result (λ v. All (IsJudgedBelow (length reads.now.all.items)) v.items) }
    ensures check { IfOk result (λ v. InFilePlans reads.now.all.items
        (λ plan. IsCheck plan (map judged_view v.items))) }
{
    let prospects = prospects_of(alloc, reads)?;
    let told = prospects.as_slice();
    let nexts = nexts_of(alloc, reads, told)?;
    let causes = Causes::new(alloc, nexts)?;
    let judged = judged_by(alloc, reads, &causes, told)?;
    Ok(judged)
}
