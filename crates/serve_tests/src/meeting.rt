//! A gate that makes bodies wait for one another.

use star_checks::holds;
use star_host::gate::Gate;
use std::process::Abort;
use std::sync::atomic::{AtomicU64, Ordering};
use std::thread;

/// Holds the body of a file until the bodies of all files that it waits for have come.
#[derive(Drop)]
pub struct Meeting {
    /// For each of the first files, a bit for each file that its body waits for.
    awaited: [u64; 4],
    /// How often a body looks for those that it waits for, before it goes on without them.
    looks: u32,
    /// A bit for each file whose body has come.
    come: AtomicU64,
    /// How many bodies have come.
    bodies: AtomicU64,
    /// How many bodies went on without one that they waited for.
    alone: AtomicU64,
}

/// The bit of a file.
fn bit(n: usize) -> u64 {
    if n < 64 { 1 << n } else { 0 }
}

impl Meeting {
    /// No body has come yet.
    pub fn new(awaited: [u64; 4], looks: u32) -> Meeting {
        Meeting {
            awaited,
            looks,
            come: AtomicU64::new(0),
            bodies: AtomicU64::new(0),
            alone: AtomicU64::new(0),
        }
    }

    /// Asserts how many bodies have come, and how many of them went on without one that they waited for.
    pub fn has_held(&self, rt: &impl Abort, bodies: u64, alone: u64) {
        holds!(rt; self.bodies.load(Ordering::SeqCst) == bodies);
        holds!(rt; self.alone.load(Ordering::SeqCst) == alone);
    }

    /// The body of a file comes, or another event by that number.
    pub fn come(&self, n: usize) {
        self.come.fetch_or(bit(n), Ordering::SeqCst);
    }

    /// Whether the body of a file has come, after some time.
    pub fn has_come(&self, n: usize) -> bool {
        self.have_come(bit(n))
    }

    /// Whether all these have come, after some time.
    fn have_come(&self, awaited: u64) -> bool {
        for _ in 0..self.looks {
            if self.come.load(Ordering::SeqCst) & awaited == awaited {
                return true;
            }
            thread::yield_now();
        }
        false
    }
}

impl Gate for Meeting {
    fn before_bodies(&self, _files: usize) {}

    fn before_body(&self, _loader: usize, n: usize) {
        self.bodies.fetch_add(1, Ordering::SeqCst);
        self.come(n);
        let awaited = if n < 4 { self.awaited[n] } else { 0 };
        if !self.have_come(awaited) {
            self.alone.fetch_add(1, Ordering::SeqCst);
        }
    }

    fn after_body(&self, _loader: usize, _n: usize) {}
}

/// A gate that counts the bodies of each of the first files.
#[derive(Drop)]
pub struct Counting {
    bodies: [AtomicU64; 4],
}

impl Counting {
    /// No body has come yet.
    pub fn new() -> Counting {
        Counting {
            bodies: [
                AtomicU64::new(0),
                AtomicU64::new(0),
                AtomicU64::new(0),
                AtomicU64::new(0),
            ],
        }
    }

    /// How many bodies of each file have come.
    pub fn counts(&self) -> [u64; 4] {
        let mut counts = [0; 4];
        for n in 0..4 {
            counts[n] = self.bodies[n].load(Ordering::SeqCst);
        }
        counts
    }
}

impl Gate for Counting {
    fn before_bodies(&self, _files: usize) {}

    fn before_body(&self, _loader: usize, n: usize) {
        if n < 4 {
            self.bodies[n].fetch_add(1, Ordering::SeqCst);
        }
    }

    fn after_body(&self, _loader: usize, _n: usize) {}
}
