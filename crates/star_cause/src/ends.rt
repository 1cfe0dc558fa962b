//! Follows the path of each file, from failing load to failing load, to its last file or its cycle.
//!
//! It goes over a row with at most one next file for each file, and knows nothing of plans. Of each file only the end
//! of its path is kept: a file, or a cycle by its first file and length.

ghost use Rattle.std.specs.Prelude.{◌≡◌, ◌<◌, ℕ, All, Contains, Some, IfOk, MatchOption, OnOk, length, slice_index, vec_len};
ghost use Rattle.star_cause.specs.Ends.{AreAllEnds, AreEnds, AreNoted, AreSettled, AreWithin, IsFresh, IsKnown, IsPlaceOn, IsWalked, end_on, ring_end};
ghost use Rattle.star_cause.specs.Ways.{HasWay, IsTrail};

use std::alloc::{AllocError, Global};

/// The end of a file's path: a file without a next one, or a cycle of `count` files, named by the first of them that is
/// met.
#[derive(Clone, Copy, Debug, PartialEq, Eq)]
pub(crate) enum End {
    Last(usize),
    Around { first: usize, count: usize },
}

/// Why a way does not go on: the end of its files is known, or it is back at the file that has this place on it.
#[derive(Clone, Copy, Debug, PartialEq, Eq)]
pub(crate) enum WalkEnd {
    Known(End),
    Met(usize),
}

/// A way from a file: its files, and why it does not go on.
#[derive(Drop)]
pub(crate) struct Walked {
    files: Vec<usize>,
    stop: WalkEnd,
}

/// The end of the file at a place of a way that is back at another place.
fn ring_end_at(files: &[usize], place: usize, i: usize) -> End
    requires place { place < length files.now }
    requires i { i < length files.now }
    ensures { result ≡ ring_end files.now place i }
{
    let count = files.len() - place;
    if i < place {
        return End::Around {
            first: files[place],
            count,
        };
    }
    End::Around {
        first: files[i],
        count,
    }
}

impl WalkEnd {
    /// The end of the file at a place of a way that stops for this reason.
    fn end_at(self, files: &[usize], i: usize) -> End
        requires place { IsPlaceOn files.now self }
        requires i { i < length files.now }
        ensures { result ≡ end_on files.now self i }
    {
        match self {
            WalkEnd::Known(end) => end,
            WalkEnd::Met(place) => ring_end_at(files, place, i),
        }
    }
}

/// The place of a file on a way, by the places that were noted of the files on it.
fn index_on_path(files: &[usize], places: &[usize], n: usize) -> Option<usize>
    requires file { n < length places.now }
    requires noted { AreNoted files.now places.now }
    ensures { MatchOption result (Contains files.now n → ⊥)
        (λ p. (p < length files.now) × (slice_index files.now p ≡ n)) }
{
    let place = places[n];
    if place >= files.len() {
        return None;
    }
    if files[place] == n {
        return Some(place);
    }
    None
}

/// Goes along the next files from a file, up to one whose end is known, that has no next file, or that was met.
fn walk(
    alloc: Global,
    nexts: &[Option<usize>],
    ends: &[Option<End>],
    places: &mut Vec<usize>,
    n: usize,
) -> Result<Walked, AllocError>
    requires within { AreWithin nexts.now }
    requires ends { AreEnds nexts.now ends.now }
    requires places { vec_len places.old ≡ length nexts.now }
    requires file { n < length nexts.now }
    requires fresh { IsFresh ends.now n }
    ensures places { vec_len places.new ≡ vec_len places.old }
    ensures walked { IfOk result (λ w. IsWalked nexts.now ends.now n w.files.items w.stop) }
{
    let mut files = Vec::new(alloc);
    let mut at = n;
    'way: loop {
        if let Some(end) = ends[at] {
            let stop = WalkEnd::Known(end);
            return Ok(Walked { files, stop });
        }
        if let Some(place) = index_on_path(&files, places.as_slice(), at) {
            let stop = WalkEnd::Met(place);
            return Ok(Walked { files, stop });
        }
        places[at] = files.len();
        files.push(at)?;
        match nexts[at] {
            Some(next) => at = next,
            None => {
                let stop = WalkEnd::Known(End::Last(at));
                return Ok(Walked { files, stop });
            }
        }
    }
}

/// Sets the end of each file of a way.
fn settle(ends: &mut Vec<Option<End>>, files: &[usize], stop: WalkEnd)
    requires place { IsPlaceOn files.now stop }
    requires within { All (λ n. n < vec_len ends.old) files.now }
    ensures { AreSettled ends.old.items files.now stop (length files.now) ends.new.items }
{
    for i in 0..files.len() {
        ends[files[i]] = Some(stop.end_at(files, i));
    }
}

/// Finds and sets the end of a file and of each file on the way from it.
fn learn(
    alloc: Global,
    nexts: &[Option<usize>],
    ends: &mut Vec<Option<End>>,
    places: &mut Vec<usize>,
    n: usize,
) -> Result<(), AllocError>
    requires within { AreWithin nexts.now }
    requires ends { AreEnds nexts.now ends.old.items }
    requires places { vec_len places.old ≡ length nexts.now }
    requires file { n < length nexts.now }
    ensures places { vec_len places.new ≡ vec_len places.old }
    ensures ends { OnOk result (AreEnds nexts.now ends.new.items) }
    ensures known { OnOk result (IsKnown ends.new.items n) }
    ensures kept { OnOk result ((x : ℕ) → IsKnown ends.old.items x → IsKnown ends.new.items x) }
{
    if ends[n].is_some() {
        return Ok(());
    }
    let Walked { files, stop } = walk(alloc, nexts, ends.as_slice(), places, n)?;
    settle(ends, &files, stop);
    Ok(())
}

/// The ends of all files.
pub(crate) fn ends_of(
    alloc: Global,
    nexts: &[Option<usize>],
) -> Result<Vec<Option<End>>, AllocError>
    requires { AreWithin nexts.now }
    ensures { IfOk result (λ v. AreAllEnds nexts.now v.items) }
{
    let mut ends = vec![in alloc; None; nexts.len()]?;
    let mut places = vec![in alloc; 0; nexts.len()]?;
    for n in 0..nexts.len() {
        learn(alloc, nexts, &mut ends, &mut places, n)?;
    }
    Ok(ends)
}

/// The first `count` files of the path from a file.
pub(crate) fn trail(
    alloc: Global,
    nexts: &[Option<usize>],
    first: usize,
    count: usize,
) -> Result<Vec<usize>, AllocError>
    requires { HasWay nexts.now first count }
    ensures { IfOk result (λ v. IsTrail nexts.now first count v.items) }
{
    let mut found = Vec::new(alloc);
    let mut at = first;
    for _ in 0..count {
        found.push(at)?;
        match nexts[at] {
            Some(next) => at = next,
            None => unreachable!(),
        }
    }
    Ok(found)
}
