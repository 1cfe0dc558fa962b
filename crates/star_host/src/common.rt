//! The data that all loaders share.

ghost use Rattle.std.specs.Prelude.{◌≡◌, ◌+◌, ◌^◌, ◌<◌, ◌≤◌, All, IfOk, IfSome, length, slice_get};
ghost use Rattle.star_outcome.specs.Fits.{IsAsked, IsWithin};
ghost use Rattle.star_outcome.specs.GoodEnds.{AreGoodEndsOf};
ghost use Rattle.star_host.specs.Worlds.{HasBody, HasEnd, IsContext, plan_in};
ghost use Rattle.star_reading.specs.Found.{IsReadOf};
ghost use Rattle.star_reading.specs.Readings.{loads_at, table_of};

use crate::options::RunOptions;
use star_dialect::Mode;
use star_label::files::Files as Labels;
use star_outcome::good_end::GoodEnd;
use star_outcome::memory::Size;
use star_outcome::module::{Body, Module};
use star_outcome::shelf::Shelf;
use star_reading::reading::{Read, Reads, loads_in};
use star_scope::loads::Load;
use star_world::files::Files;
use std::alloc::{AllocError, Global};
use std::sync::Arc;

/// The data that all loaders share: the read files, the programs of all files, a shelf for the module of each file, the
/// roots, the prelude's file, the number of loaders and the seed for the hashes of keys. Also the good ends that are
/// known before the run, by the numbers of their files, and the mode in which a body runs, whose steps are 1 to 100,000,000.
#[derive(Drop)]
pub struct LoadContext<'s, 'r, 'p, 't> {
    pub alloc: Global,
    pub files: &'s Labels,
    pub reads: &'r [Option<Read<'t>>],
    pub programs: &'p Files<'r, 't>,
    pub modules: &'s Shelf<Module>,
    pub ends: &'s [Option<GoodEnd>],
    pub roots: &'s [usize],
    pub prelude: Option<usize>,
    pub loaders: usize,
    pub mode: &'s Mode,
    pub seed: u64,
    /// The ballast of each loader, if memory counts more than time.
    pub ballast: Option<Size>,
}

/// The number of a file: there are at most 10,000.
pub(crate) fn file_number(files: &Labels, n: usize) -> u32
    requires { n < length files.now }
    ensures { result ≡ n }
{
    let count = files.len();
    n.min(count) as u32
}

impl<'s, 'r, 'p, 't> LoadContext<'s, 'r, 'p, 't> {
    /// The shared data of a run: all that `load` needs. A file whose good end is among `ends` is not run.
    pub fn new(
        alloc: Global,
        files: &'s Labels,
        reads: &'r Reads<'t>,
        programs: &'p Files<'r, 't>,
        modules: &'s Shelf<Module>,
        ends: &'s [Option<GoodEnd>],
        options: RunOptions<'s>,
    ) -> LoadContext<'s, 'r, 'p, 't>
        requires read { IsReadOf files.now options.roots.now options.prelude options.mode.now.language reads.now.all.items }
        requires programs { programs.now ≡ table_of reads.now.all.items }
        requires cells { length modules.now ≡ length files.now }
        requires prelude { IfSome options.prelude (λ p. p < length files.now) }
        requires steps { (1 ≤ options.mode.now.steps) × (options.mode.now.steps ≤ 100000000) }
        requires ends { AreGoodEndsOf files.now options.roots.now options.prelude options.mode.now ends.now }
        ensures world { IsContext result.files.now (plan_in result) result.modules.now result }
        ensures within { IsWithin result.files.now (plan_in result) }
        ensures asked { All (IsAsked result.files.now (plan_in result)) options.entry.roots.now }
        ensures files { result.files.now ≡ files.now }
        ensures modules { result.modules.now ≡ modules.now }
        ensures roots { result.roots.now ≡ options.entry.roots.now }
        ensures prelude { result.prelude ≡ options.entry.prelude }
        ensures loaders { result.loaders ≡ options.entry.loaders }
        ensures mode { result.mode.now ≡ options.entry.mode.now }
    {
        LoadContext {
            alloc,
            files,
            reads: reads.all.as_slice(),
            programs,
            modules,
            ends,
            roots: options.roots,
            prelude: options.prelude,
            loaders: options.loaders,
            mode: options.mode,
            seed: options.seed,
            ballast: options.ballast,
        }
    }

    /// The body of a file whose good end is known and not stale, shared with it. The error: an allocation failed.
    pub(crate) fn body(&self, n: usize) -> Result<Option<Arc<Body>>, AllocError>
        ensures { IfOk result (λ r. IfSome r (HasBody self.now n)) }
    {
        match self.end(n) {
            Some(end) if !end.is_stale => Ok(Some(Arc::try_clone(&end.body)?)),
            _ => Ok(None),
        }
    }

    /// The good end of a file, if it is known.
    pub(crate) fn end(&self, n: usize) -> Option<&'s GoodEnd>
        ensures { IfSome result (λ e. HasEnd self.now n e.now) }
    {
        match self.ends.get(n) {
            Some(Some(end)) => Some(end),
            _ => None,
        }
    }

    /// The loads of a file; none if it has a static fault.
    pub(crate) fn loads(&self, n: usize) -> &'r [Load]
        ensures { result.now ≡ loads_at self.now.reads.now n }
    {
        loads_in(self.reads, n)
    }

    /// The load of a file at a place.
    pub(crate) fn load(&self, n: usize, i: usize) -> Option<Load>
        ensures load { result ≡ slice_get (loads_at self.now.reads.now n) i }
        ensures fits { IfSome result (λ _. i + 1 < 2 ^ 64) }
    {
        let loads = self.loads(n);
        let count = loads.len();
        if i < count { Some(loads[i]) } else { None }
    }

    /// The prelude's file.
    pub(crate) fn prelude_file(&self) -> Option<u32>
        requires { IfSome self.now.prelude (λ p. p < length self.now.files.now) }
        ensures { result ≡ self.now.prelude }
    {
        match self.prelude {
            Some(n) => Some(file_number(self.files, n)),
            None => None,
        }
    }
}
