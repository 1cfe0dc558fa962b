//! How much memory the trees and the values of files may take, by rules of thumb. No answer depends on it.

use crate::values::value_bytes;
use star_label::files::Files;
use star_outcome::good_end::GoodEnd;
use star_outcome::memory::Size;
use std::alloc::Global;

/// The most bytes of memory that a tree and what is read of it take for each byte of the text.
const HIGH_COST: usize = 20;

/// The fewest bytes of memory that a tree takes for each byte of the text.
const LOW_COST: usize = 5;

/// The bytes of memory that trees of replaced texts take for each byte, beyond a fifth of what a request takes.
const REPLACED_COST: usize = 14;

/// The most bytes of memory, for each byte of the texts, that lie unused between trees of replaced texts and new ones.
const BETWEEN_COST: usize = 8;

/// The most bytes of memory that lie unused between them in the part of a loader.
const BETWEEN_BYTES: usize = 4_194_304;

/// The most bytes of memory that the values of a file and their texts take for each step of its run.
const STEP_COST: usize = 40;

/// The bytes of memory that a file takes, whatever its size.
const FILE_BYTES: usize = 5_120;

/// The bytes of memory that a loader has and does not use.
const LOADER_BYTES: usize = 1_048_576;

/// The limits of a request.
#[derive(Clone, Copy)]
pub(crate) struct Limits {
    /// How many loaders run, from 1 to 64.
    pub loaders: usize,
    /// How much memory a session may take beyond that of its largest request, in bytes.
    pub keep: usize,
    /// Whether the files are those of a folder. Then they are looked at and parsed while all that is kept is still there.
    pub folder: bool,
}

impl Limits {
    /// How many of the bytes of memory that may be kept are left besides what the loaders do not use. None if that alone
    /// takes more.
    fn room(self) -> Option<usize> {
        self.keep
            .checked_sub(self.loaders.saturating_mul(LOADER_BYTES))
    }

    /// Whether memory counts more than time in the first request, when nothing is known of the files.
    pub(crate) fn are_small(self) -> bool {
        match self.room() {
            Some(room) => Spent::UNKNOWN.bytes > room,
            None => true,
        }
    }
}

/// What a request took.
#[derive(Clone, Copy)]
pub(crate) struct Spent {
    /// The steps of the files that ended well.
    pub steps: usize,
    /// The bytes of memory that the values of the reached files take, or at most take. If there was no room for values, it
    /// is not known: then it is as much as may be kept. If a file failed, it is not known either: then it is a guess.
    pub bytes: usize,
    /// Whether all reached files ended well.
    pub all_well: bool,
}

impl Spent {
    /// No request came yet, so this is a guess.
    pub(crate) const UNKNOWN: Spent = Spent {
        steps: 1_000_000,
        bytes: 16_000_000,
        all_well: false,
    };
}

/// How many bytes all texts have.
fn text_bytes(files: &Files) -> usize {
    let mut bytes: usize = 0;
    for n in 0..files.len() {
        bytes = bytes.saturating_add(files.text(n).len());
    }
    bytes
}

/// Whether the trees of all texts, if these are replaced, may take more memory than may be kept, with what the loaders
/// do not use.
pub(crate) fn are_trees_large(files: &Files, limits: Limits) -> bool {
    let bytes = text_bytes(files);
    let trees = bytes.saturating_mul(REPLACED_COST);
    let most = limits.loaders.saturating_mul(BETWEEN_BYTES);
    let between = bytes.saturating_mul(BETWEEN_COST).min(most);
    let unused = limits.loaders.saturating_mul(LOADER_BYTES);
    trees.saturating_add(between).saturating_add(unused) > limits.keep
}

/// How many of the bytes of memory that may be kept are left for values, besides the trees of all files and what the
/// loaders do not use. None if these alone take more.
fn room_for_values(files: &Files, limits: Limits) -> Option<usize> {
    let trees = text_bytes(files).saturating_mul(LOW_COST);
    let trees = trees.saturating_add(files.len().saturating_mul(FILE_BYTES));
    limits.room()?.checked_sub(trees)
}

/// Whether a look at a folder may take too much memory, so that memory counts more than time: the bound is small, or the
/// trees of all texts are large.
fn is_look_large(files: &Files, limits: Limits) -> bool {
    limits.folder && (limits.are_small() || are_trees_large(files, limits))
}

/// The ballast of each loader, if memory counts more than time: if the runs of the files took this, all that they need
/// takes more memory than may be kept, with what the loaders do not use, or a look at the folder may take too much. Then
/// nothing is kept. None if time counts more.
pub(crate) fn ballast_for(files: &Files, spent: Spent, limits: Limits) -> Option<Size> {
    let large = is_look_large(files, limits);
    match room_for_values(files, limits) {
        Some(room) if spent.bytes <= room && !large => None,
        _ if limits.are_small() => Some(Size::Heap),
        _ => Some(Size::Block),
    }
}

/// How many bytes the texts of some files have.
fn bytes_at(files: &Files, numbers: &[usize]) -> usize {
    let mut bytes: usize = 0;
    for n in numbers {
        if *n < files.len() {
            bytes = bytes.saturating_add(files.text(*n).len());
        }
    }
    bytes
}

/// How many bytes the texts may have whose trees are kept after a request that reached some files: at most `keep`. The
/// trees of files that it did not reach may take `keep` bytes of memory.
pub(crate) fn texts_kept(files: &Files, reached: &[usize], keep: usize) -> usize {
    let others = keep / HIGH_COST;
    keep.min(bytes_at(files, reached).saturating_add(others))
}

/// How many steps the runs of some files took, of those with ends.
fn steps_at(ends: &[Option<GoodEnd>], numbers: &[usize]) -> usize {
    let mut steps: usize = 0;
    for n in numbers {
        if let Some(Some(end)) = ends.get(*n) {
            steps = steps.saturating_add(end.body.paid as usize);
        }
    }
    steps
}

/// Whether each of some files has an end.
fn have_ends(ends: &[Option<GoodEnd>], numbers: &[usize]) -> bool {
    for n in numbers {
        if !matches!(ends.get(*n), Some(Some(_))) {
            return false;
        }
    }
    true
}

/// How many bytes of memory the values of some files take, of those with ends. If they took so few steps that they take at
/// most `room` bytes, it is what they may take at most.
fn bytes_within(alloc: Global, ends: &[Option<GoodEnd>], numbers: &[usize], room: usize) -> usize {
    let most = steps_at(ends, numbers).saturating_mul(STEP_COST);
    if most <= room {
        return most;
    }
    match value_bytes(alloc, ends, numbers) {
        Ok(bytes) => bytes,
        Err(_) => most,
    }
}

/// Whether the values of some files take more than `keep` bytes of memory.
pub(crate) fn are_values_large(
    alloc: Global,
    ends: &[Option<GoodEnd>],
    numbers: &[usize],
    keep: usize,
) -> bool {
    bytes_within(alloc, ends, numbers, keep) > keep
}

/// What a request took that reached some files, with these ends.
pub(crate) fn spent_on(
    alloc: Global,
    files: &Files,
    ends: &[Option<GoodEnd>],
    reached: &[usize],
    limits: Limits,
) -> Spent {
    let all_well = have_ends(ends, reached);
    let known = match room_for_values(files, limits) {
        Some(room) => bytes_within(alloc, ends, reached, room),
        None => limits.keep,
    };
    let guess = Spent::UNKNOWN.bytes;
    Spent {
        steps: steps_at(ends, reached),
        bytes: if all_well { known } else { known.max(guess) },
        all_well,
    }
}
