//! The thread that shows a person how far a run is.

use star_serve::ends::CountedWriter;
use star_serve::progress::{Progress, show};
use std::alloc::Global;
use std::sync::{Arc, Wait};
use std::thread;
use std::thread::{JoinHandle, Threads};
use std::time::Clock;

/// A thread that shows how far a run is.
#[derive(Drop)]
pub(crate) struct Shown {
    progress: Arc<Progress>,
    thread: JoinHandle<()>,
}

impl Shown {
    /// Starts such a thread, one of `threads`, if it is wanted: none where there is no memory or no thread for it.
    pub(crate) fn start<H: Threads + Wait + Clock + Copy + Send + 'static>(
        rt: &HostRuntime,
        threads: &H,
        alloc: Global,
        is_wanted: bool,
    ) -> Option<Shown> {
        if !is_wanted {
            return None;
        }
        let progress = Arc::new(alloc, Progress::new(alloc)).ok()?;
        let theirs = Arc::try_clone(&progress).ok()?;
        let clock = *threads;
        let mut errors = CountedWriter::new(rt.stderr());
        let thread = thread::spawn(
            threads,
            move || show(&clock, alloc, &theirs, &mut errors),
        ).ok()?;
        Some(Shown { progress, thread })
    }

    /// Where the loaders note how far the run is, if that is shown.
    pub(crate) fn progress(shown: Option<&Shown>) -> Option<Arc<Progress>> {
        let shown = shown?;
        Arc::try_clone(&shown.progress).ok()
    }

    /// Ends the thread.
    pub(crate) fn end<H: Threads + Wait>(self, threads: &H) {
        let Shown { progress, thread } = self;
        progress.end(threads);
        thread.join(threads);
    }
}
