//! How each file of a run ended, or the verdict on it if no file was run. For a file that fails by a load, also the
//! file or cycle that its loads lead to.

use crate::texts::{Said, Saying};
use crate::trail::Trail;
use crate::words::{Lexicon, file_of};
use star_check::verdict::{Judged, Verdict};
use star_dialect::Dialect;
use star_found::about::Found;
use star_label::files::Files;
use star_meaning::fault::FaultCode;
use star_meaning::said;
use star_meaning::story::Step;
use star_mistakes::place::{Mark, whole};
use star_outcome::module::{Ended, Left, Module};
use star_outcome::outcome::Run;
use star_reading::code::StaticFault;
use star_reading::reading::Reads;
use star_scope::loads::Load;
use star_trail::steps_there;
use std::alloc::{AllocError, Global};

/// How often the ways from files are doubled: that leads over 16,384 files, and there are at most 10,000.
const DOUBLINGS: usize = 14;

/// How a file ended.
#[derive(Clone, Copy)]
pub(crate) enum End {
    /// It was not reached.
    Unknown,
    /// It ran to its end; or it was not run, and there is nothing against it.
    Good,
    Static(StaticFault),
    Stopped { code: FaultCode, line: usize },
    /// It fails by this file, which the statement on this line loads.
    Load { next: usize, line: usize },
}

/// The remains of a run that stopped.
#[derive(Drop)]
pub(crate) struct EvalError {
    /// The words of `fail`, if that was the fault.
    pub said: Option<String>,
    /// The trail of its fault.
    pub trail: Option<Trail>,
    /// The word that its fault is about, if it is known.
    pub mark: Option<Mark>,
    /// The text on its fault, if more is known than its code.
    pub told: Option<Said>,
}

impl EvalError {
    /// The remains of a run that nothing is known about.
    fn new() -> EvalError {
        EvalError {
            said: None,
            trail: None,
            mark: None,
            told: None,
        }
    }

    /// The statements and calls that its fault has left on its way out, the innermost first.
    pub(crate) fn steps(&self) -> &[Step] {
        match &self.trail {
            Some(trail) => trail.steps(),
            None => &[],
        }
    }

    /// Keeps the text on a fault and its word, if these are known.
    fn tell(
        &mut self,
        alloc: Global,
        lexicon: &mut Lexicon<'_>,
        dialect: Dialect,
        code: FaultCode,
        found: &Found,
    ) -> Result<(), AllocError> {
        let Some(innermost) = self.steps().first().copied() else {
            return Ok(());
        };
        let Some(words) = lexicon.words(file_of(innermost))? else {
            return Ok(());
        };
        let saying = Saying {
            alloc,
            code,
            found,
            dialect,
            module: words.module(found),
            bound_on: words.line_of_global(found),
        };
        let mark = words.of(self.steps(), found);
        self.told = saying.said()?;
        if self.told.is_some() || code == FaultCode::Fail {
            self.mark = mark;
        }
        Ok(())
    }
}

/// How all files ended, by their numbers.
#[derive(Drop)]
pub(crate) struct Ends {
    pub ends: Vec<End>,
    /// The files that each file loads.
    pub loads: Vec<Vec<usize>>,
    /// The numbers of the files that were reached, in order.
    pub reached: Vec<usize>,
    /// The remains of the run of each file, if it stopped.
    pub stops: Vec<EvalError>,
    /// Whether files were run.
    pub are_run: bool,
}

/// How many files end in each way.
#[derive(Clone, Copy)]
pub(crate) struct Counts {
    pub good: usize,
    /// Files with a fault of their own.
    pub own: usize,
    pub by_loads: usize,
}

/// How a module ended.
fn end_of(module: &Module) -> End {
    match &module.ended {
        Ended::Static(fault) => End::Static(*fault),
        Ended::Load { index, line } => match module.loads.get(*index) {
            Some(next) => End::Load {
                next: *next,
                line: *line,
            },
            None => End::Unknown,
        },
        Ended::Stopped { code, line, .. } => End::Stopped {
            code: *code,
            line: *line,
        },
        Ended::Good(_) => End::Good,
    }
}

/// The remains of the run of a module. The words of `fail` are its last line.
fn stop_of(
    alloc: Global,
    lexicon: &mut Lexicon<'_>,
    dialect: Dialect,
    reads: &Reads,
    module: &Module,
) -> Result<EvalError, AllocError> {
    let mut stop = EvalError::new();
    let Ended::Stopped {
        code,
        line,
        lines,
        left: Left { trail, found },
    } = &module.ended
    else {
        return Ok(stop);
    };
    let steps = steps_there(reads, trail.as_slice());
    stop.trail = Some(Trail::of(alloc, module.number, *line, steps)?);
    if *code == FaultCode::Fail {
        if let Some(said::Said::Line(line)) = lines.last() {
            stop.said = Some(whole(alloc, line.as_str())?);
        }
    }
    if let Some(found) = found {
        stop.tell(alloc, lexicon, dialect, *code, found)?;
    }
    Ok(stop)
}

impl Ends {
    /// The ends of `files` files that nothing is known about.
    fn new(alloc: Global, files: usize) -> Result<Ends, AllocError> {
        let mut loads = Vec::with_capacity(alloc, files)?;
        let mut stops = Vec::with_capacity(alloc, files)?;
        for _ in 0..files {
            loads.push(Vec::new(alloc))?;
            stops.push(EvalError::new())?;
        }
        Ok(Ends {
            ends: vec![in alloc; End::Unknown; files]?,
            loads,
            reached: Vec::new(alloc),
            stops,
            are_run: true,
        })
    }

    /// How the files of a run ended.
    pub(crate) fn of(
        alloc: Global,
        files: &Files,
        dialect: Dialect,
        reads: &Reads,
        run: &mut Run,
    ) -> Result<Ends, AllocError> {
        let mut all = Ends::new(alloc, files.len())?;
        let mut lexicon = Lexicon::new(alloc, files);
        for i in 0..run.len() {
            let note = run.note(i);
            let module = run.module(i, note);
            all.add(alloc, &mut lexicon, dialect, reads, module)?;
        }
        Ok(all)
    }

    fn add(
        &mut self,
        alloc: Global,
        lexicon: &mut Lexicon<'_>,
        dialect: Dialect,
        reads: &Reads,
        module: &Module,
    ) -> Result<(), AllocError> {
        let n = module.number;
        self.set(n, end_of(module));
        self.reached.push(n)?;
        if let Some(loads) = self.loads.get_mut(n) {
            loads.extend_from_slice(module.loads.as_slice())?;
        }
        let stop = stop_of(alloc, lexicon, dialect, reads, module)?;
        if let Some(place) = self.stops.get_mut(n) {
            *place = stop;
        }
        Ok(())
    }

    /// The verdicts on files that were not run.
    pub(crate) fn of_check(
        alloc: Global,
        files: &Files,
        reads: &Reads,
        judged: &[Judged],
    ) -> Result<Ends, AllocError> {
        let mut all = Ends::new(alloc, files.len())?;
        all.are_run = false;
        all.set_unrun(judged);
        for it in judged {
            all.add_judged(reads.loads(it.file), it)?;
        }
        Ok(all)
    }

    /// There is nothing against some of these files.
    fn set_unrun(&mut self, judged: &[Judged]) {
        for it in judged {
            if matches!(it.verdict, Verdict::Unrun) {
                self.set(it.file, End::Good);
            }
        }
    }

    /// Adds the verdict on a file with these loads. The files that have nothing against them were added before.
    fn add_judged(&mut self, loads: &[Load], it: &Judged) -> Result<(), AllocError> {
        let n = it.file;
        match it.verdict {
            Verdict::AtFault(fault) => self.set(n, End::Static(fault)),
            Verdict::Fails { .. } => self.set(n, self.first_bad(loads)),
            Verdict::Unrun => {}
        }
        self.reached.push(n)?;
        if let Some(place) = self.loads.get_mut(n) {
            for load in loads {
                place.push(load.file)?;
            }
        }
        Ok(())
    }

    /// The end of a file with these loads: the first of them against which there is something.
    fn first_bad(&self, loads: &[Load]) -> End {
        for load in loads {
            if !matches!(self.end(load.file), End::Good) {
                return End::Load {
                    next: load.file,
                    line: load.line,
                };
            }
        }
        End::Unknown
    }

    /// The end of a file.
    pub(crate) fn end(&self, n: usize) -> End {
        self.ends.get(n).copied().unwrap_or(End::Unknown)
    }

    /// Gives a file this end.
    pub(crate) fn set(&mut self, n: usize, end: End) {
        if let Some(place) = self.ends.get_mut(n) {
            *place = end;
        }
    }

    /// How many of the files that were reached end in each way.
    pub(crate) fn counts(&self) -> Counts {
        let mut counts = Counts {
            good: 0,
            own: 0,
            by_loads: 0,
        };
        for n in &self.reached {
            match self.end(*n) {
                End::Good => counts.good = counts.good.saturating_add(1),
                End::Static(_) | End::Stopped { .. } => counts.own = counts.own.saturating_add(1),
                End::Load { .. } => counts.by_loads = counts.by_loads.saturating_add(1),
                End::Unknown => {}
            }
        }
        counts
    }

    /// For each file the one that makes it fail at last: itself, if it fails by no load. Of a file whose loads lead
    /// into a cycle it is some file of the cycle.
    pub(crate) fn roots(&self, alloc: Global) -> Result<Vec<usize>, AllocError> {
        let mut roots = Vec::with_capacity(alloc, self.ends.len())?;
        for (n, end) in self.ends.iter().enumerate() {
            roots.push(match end {
                End::Load { next, .. } => *next,
                _ => n,
            })?;
        }
        for _ in 0..DOUBLINGS {
            roots = twice(alloc, roots.as_slice())?;
        }
        Ok(roots)
    }
}

/// Where two rounds of these ways lead.
fn twice(alloc: Global, ways: &[usize]) -> Result<Vec<usize>, AllocError> {
    let mut all = Vec::with_capacity(alloc, ways.len())?;
    for way in ways {
        all.push(ways.get(*way).copied().unwrap_or(*way))?;
    }
    Ok(all)
}
