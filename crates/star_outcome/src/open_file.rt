//! `OpenFile`: a file whose loads are being asked for, on the stack of its loader. It is not a frame of variables.

ghost use Rattle.std.specs.Prelude.{◌≡◌, ◌<◌, ◌≤◌, ◌+◌, ◌^◌, [], None, length, map, IfSome, OnOk, OnErr};
ghost use Rattle.star_plan.specs.Plan.{loaded, loads_of};
ghost use Rattle.star_plan.specs.Results.{IsFirstBad};
ghost use Rattle.star_outcome.specs.Fits.{IsAsked};
ghost use Rattle.star_outcome.specs.Views.{AreGoodLoads, IsBadLoad, IsModuleAt};

use crate::module::Module;
use crate::run_id::RunId;
use std::alloc::{AllocError, Global};
use std::marker::{Model, PhantomData};

/// A file, the number of its loads that were answered, the first of these that is not good, and the modules of those
/// before it.
#[derive(Drop)]
pub struct OpenFile<'s, J: RunId> {
    n: usize,
    told: usize,
    failed: Option<usize>,
    modules: Vec<&'s Module>,
    of: PhantomData<J>,
}

impl<'s, J: RunId> Model for OpenFile<'s, J> {
    ghost use Rattle.std.specs.Prelude.{map};
    ghost use Rattle.star_outcome.specs.Frames.{FrameView, IsOpen};

    ghost Value = { FrameView };

    ghost view = { λ f. record {
      n = f.n;
      told = f.told;
      failed = f.failed;
      modules = map (λ m. m.now) f.modules.items;
    } };

    ghost invariant = { λ f. IsOpen J.files J.plan (record {
      n = f.n;
      told = f.told;
      failed = f.failed;
      modules = map (λ m. m.now) f.modules.items;
    }) };
}

impl<'s, J: RunId> OpenFile<'s, J> {
    /// A file that was begun. None of its loads was answered yet.
    pub fn new(alloc: Global, n: usize) -> OpenFile<'s, J>
        requires { IsAsked J.files J.plan n }
        ensures { result ≡ record { n = n; told = 0; failed = None; modules = [] } }
    {
        OpenFile {
            n,
            told: 0,
            failed: None,
            modules: Vec::new(alloc),
            of: PhantomData,
        }
    }

    /// Its number.
    pub fn number(&self) -> usize
        ensures number { result ≡ self.now.n }
        ensures asked { IsAsked J.files J.plan result }
        ensures file { result < length J.files }
    {
        self.n
    }

    /// The number of its loads that were answered.
    pub fn told(&self) -> usize
        ensures told { result ≡ self.now.told }
        ensures within { result ≤ length (loads_of J.plan self.now.n) }
    {
        self.told
    }

    /// The first of its loads that is not good.
    pub fn failed(&self) -> Option<usize>
        ensures same { result ≡ self.now.failed }
        ensures bad { IfSome result (IsFirstBad J.plan (loaded J.plan self.now.n)) }
    {
        self.failed
    }

    /// The modules of its loads that were answered, if all of these are good.
    pub fn modules(&self) -> &[&'s Module]
        ensures { self.now.failed ≡ None → AreGoodLoads J.plan self.now.n self.now.told (map (λ m. m.now) result.now) }
    {
        self.modules.as_slice()
    }

    /// Records that its next load is not good.
    pub fn refuse(&mut self)
        requires load { self.old.told < length (loads_of J.plan self.old.n) }
        requires fits { self.old.told + 1 < 2 ^ 64 }
        requires bad { IsBadLoad J.plan self.old.n self.old.told }
        ensures file { self.new.n ≡ self.old.n }
        ensures told { self.new.told ≡ self.old.told + 1 }
        ensures modules { self.new.modules ≡ self.old.modules }
    {
        if self.failed.is_some() {
            self.told += 1;
            return;
        }
        self.failed = Some(self.told);
        self.told += 1;
    }

    /// Records that its next load has ended with this module. If an allocation fails, nothing is recorded.
    pub fn tell(&mut self, it: &'s Module) -> Result<(), AllocError>
        requires load { self.old.told < length (loads_of J.plan self.old.n) }
        requires fits { self.old.told + 1 < 2 ^ 64 }
        requires right { IsModuleAt J.plan self.old.n self.old.told it.now }
        ensures file { self.new.n ≡ self.old.n }
        ensures told { OnOk result (self.new.told ≡ self.old.told + 1) }
        ensures refused { OnErr result (self.new ≡ self.old) }
    {
        if !it.is_good() {
            self.refuse();
            return Ok(());
        }
        if self.failed.is_some() {
            self.told += 1;
            return Ok(());
        }
        self.modules.push(it)?;
        self.told += 1;
        Ok(())
    }
}
