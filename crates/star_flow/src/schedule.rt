//! The schedule: the files that are ready to run, since all of their loads have ended.

ghost use Rattle.std.specs.Prelude.{◌≡◌, ◌-◌, ◌∷◌, [], All, false};
ghost use Rattle.star_flow.specs.Schedules.{HasAll, HaveEnded, IsNext, IsReadyOf};

use std::marker::Model;

/// The next thing to do for a loader that asks for a file.
#[derive(Clone, Copy, Debug, PartialEq, Eq)]
pub enum Next {
    /// It runs this file.
    Run(usize),
    /// It waits until a file has ended.
    Sleep,
    /// No file is ready, and none runs: the files that are left wait for themselves.
    Over,
}

/// The files that are ready: those whose loads have all ended.
#[derive(Drop)]
pub struct Schedule {
    missing: Vec<usize>,
    ready: Vec<usize>,
    running: usize,
}

impl Model for Schedule {
    ghost use Rattle.std.specs.Prelude.{All};
    ghost use Rattle.star_flow.specs.Schedules.{HasAll, ScheduleView};

    ghost Value = { ScheduleView };

    ghost view = { λ s. record { missing = s.missing.items; ready = s.ready.items; running = s.running } };

    ghost invariant = { λ s. All (HasAll s.missing.items) s.ready.items };
}

impl Schedule {
    /// The schedule of files none of which has begun: it counts the loads of each, and those without loads are ready.
    pub fn new(missing: Vec<usize>, ready: Vec<usize>) -> Schedule
        requires { All (HasAll missing.items) ready.items }
        ensures { result ≡ record { missing = missing.items; ready = ready.items; running = 0 } }
    {
        Schedule {
            missing,
            ready,
            running: 0,
        }
    }

    /// The next thing to do for a loader. A file that it is to run has no load that has not ended.
    pub fn next(&mut self) -> Next
        ensures next { IsNext self.old result self.new }
        ensures whole { All (HasAll self.old.missing) self.old.ready }
    {
        match self.ready.pop() {
            Some(n) => {
                self.running = self.running.saturating_add(1);
                Next::Run(n)
            }
            None => {
                if self.running == 0 {
                    Next::Over
                } else {
                    Next::Sleep
                }
            }
        }
    }

    /// Whether files are ready.
    pub fn has_more(&self) -> bool
        ensures { result ≡ false → self.now.ready ≡ [] }
    {
        !self.ready.is_empty()
    }

    /// One load of a file has ended.
    fn load_ended(&mut self, n: usize)
        ensures missing { HaveEnded (n ∷ []) self.old self.new }
        ensures ready { IsReadyOf self.old.ready (n ∷ []) self.new.ready }
        ensures running { self.new.running ≡ self.old.running }
    {
        if n >= self.missing.len() || self.missing[n] == 0 {
            return;
        }
        self.missing[n] -= 1;
        if self.missing[n] == 0 {
            // A file that finds no place here is begun by whoever asks for it.
            let _ = self.ready.push(n);
        }
    }

    /// A file has ended: for each of these files one load has, as often as the file is listed.
    pub fn ended(&mut self, importers: &[usize])
        ensures missing { HaveEnded importers.now self.old self.new }
        ensures ready { IsReadyOf self.old.ready importers.now self.new.ready }
        ensures running { self.new.running ≡ self.old.running - 1 }
    {
        self.running = self.running.saturating_sub(1);
        for n in importers {
            self.load_ended(*n);
        }
    }
}
