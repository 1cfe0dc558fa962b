//! The programs of all read files, by number.

ghost use Rattle.std.specs.Prelude.{◌≡◌, All, IfOk, IsFalse, IsSome, IsTrue, MatchOption, None, Some, count_by, is_some, ⊤};
ghost use Rattle.std.specs.Option.{option_map};
ghost use Rattle.star_meaning.specs.Programs.{IsOfFile, placed_file};
ghost use Rattle.star_scope.specs.declared.program.Program.{Program as ProgramView};
ghost use Rattle.star_reading.specs.declared.code.StaticFault.{StaticFault as FaultView};
ghost use Rattle.star_reading.specs.declared.reading.Read.TheVariants as read;
ghost use Rattle.star_reading.specs.Readings.{IsPlaceable, placed_in, read_at, table_of};

use star_outcome::good_end::GoodEnd;
use star_reading::code::StaticFault;
use star_reading::reading::{Read, Reads};
use star_scope::program::Program;
use star_world::files::Files;
use std::alloc::{AllocError, Global};

/// The program of a read file; `None` if it was not read or has a static fault.
fn program_in<'s, 't>(read: &'s Option<Read<'t>>) -> Option<&'s Program<'t>>
    requires { IsPlaceable read.now }
    ensures of_file { MatchOption result ⊤ (λ p. IsOfFile p.now) }
    ensures placed { option_map (λ p. placed_file p.now) result ≡ placed_in read.now }
{
    match read {
        Some(Read::Program(program)) => Some(program),
        _ => None,
    }
}

/// The programs of the read files, by the files' numbers; `None` for a file that was not read or has a static fault.
/// The error: an allocation failed.
pub fn programs<'s, 't>(alloc: Global, reads: &'s Reads<'t>) -> Result<Files<'s, 't>, AllocError>
    requires { All IsPlaceable reads.now.all.items }
    ensures { IfOk result (λ table. table ≡ table_of reads.now.all.items) }
{
    let mut table = Files::new(alloc);
    let reads = reads.all.as_slice();
    for read in reads {
        table.push(program_in(read))?;
    }
    Ok(table)
}

/// The program of a file; `None` if it was not read or has a static fault.
pub(crate) fn program_at<'s, 't>(reads: &'s [Option<Read<'t>>], n: usize) -> Option<&'s Program<'t>>
    ensures { MatchOption result
        ((p : ProgramView) → read_at reads.now n ≡ Some (read.Program p) → ⊥)
        (λ p. read_at reads.now n ≡ Some (read.Program p.now)) }
{
    match reads.get(n) {
        Some(Some(Read::Program(program))) => Some(program),
        _ => None,
    }
}

/// The static fault of a file; `None` if it was not read or has a program.
pub(crate) fn fault_at(reads: &[Option<Read>], n: usize) -> Option<StaticFault>
    ensures { MatchOption result
        ((f : FaultView) → read_at reads.now n ≡ Some (read.Fault f) → ⊥)
        (λ f. read_at reads.now n ≡ Some (read.Fault f)) }
{
    match reads.get(n) {
        Some(Some(Read::Fault(fault))) => Some(*fault),
        _ => None,
    }
}

/// Whether a file was read.
pub(crate) fn is_read(reads: &[Option<Read>], n: usize) -> bool
    ensures yes { IsTrue result → IsSome (read_at reads.now n) }
    ensures no { IsFalse result → read_at reads.now n ≡ None }
{
    match reads.get(n) {
        Some(Some(_)) => true,
        _ => false,
    }
}

/// The number of files that were read.
pub(crate) fn read_count(reads: &Reads) -> usize
    ensures { result ≡ count_by is_some reads.now.all.items }
{
    reads.all.iter().filter(|read| read.is_some()).count()
}

/// Whether an end is known, and not stale.
fn is_whole(end: &Option<GoodEnd>) -> bool {
    match end {
        Some(end) => !end.is_stale,
        None => false,
    }
}

/// The number of files that were read and whose ends are known, and not stale.
pub(crate) fn known_count(reads: &Reads, ends: &[Option<GoodEnd>]) -> usize {
    reads
        .all
        .iter()
        .zip(ends.iter())
        .filter(|(read, end)| read.is_some() && is_whole(end))
        .count()
}
