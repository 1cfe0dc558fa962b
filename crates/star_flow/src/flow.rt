//! The schedule under a lock: loaders take files from it, and sleep while none is ready.
//!
//! A loader says which file it ended when it takes the next, so along a chain no loader wakes another.

ghost use Rattle.std.specs.Prelude.{◌<◌};

use crate::importers::Importers;
use crate::schedule::{Next, Schedule};
use std::sync::{Condvar, Mutex, Wait};

/// Hands out files to loaders, each when all its loads have ended. It is a hint. It promises nothing of a file that it
/// hands out, and a file that it does not hand out is begun by whoever asks for it.
#[derive(Drop)]
pub struct Flow {
    importers: Importers,
    state: Mutex<Schedule>,
    // Notified when a file is ready, and at the end.
    changed: Condvar,
}

impl Flow {
    /// The flow of files, by the files that load each.
    pub fn new(importers: Importers, schedule: Schedule) -> Flow {
        Flow {
            importers,
            state: Mutex::new(schedule),
            changed: Condvar::new(),
        }
    }

    /// The next file for a loader, which has ended the one that it was given before. It waits while no file is ready
    /// and some run. `None` if no file is ready, and none runs.
    pub fn take<R: Wait>(&self, rt: &R, ended: Option<usize>) -> Option<usize> {
        match ended {
            Some(n) => self.take_after(rt, Some(self.importers.of(n))),
            None => self.take_after(rt, None),
        }
    }

    /// As `take`, for a loader that itself knows which files wait for the one that it has ended.
    pub fn take_after<R: Wait>(&self, rt: &R, ended: Option<&[usize]>) -> Option<usize> {
        let mut state = self.state.lock(rt);
        if let Some(waiting) = ended {
            state.ended(waiting);
        }
        for _ in rt.forever() {
            match state.next() {
                Next::Run(n) => {
                    if state.has_more() {
                        self.changed.notify_all();
                    }
                    return Some(n);
                }
                Next::Sleep => state = self.changed.wait(rt, state),
                Next::Over => {
                    self.changed.notify_all();
                    return None;
                }
            }
        }
        unreachable!()
    }

    /// A loader leaves that has not ended the file that it was given.
    pub fn leave<R: Wait>(&self, rt: &R) {
        let mut state = self.state.lock(rt);
        state.ended(&[]);
        self.changed.notify_all();
    }
}
