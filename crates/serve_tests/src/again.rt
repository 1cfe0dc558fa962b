//! A second run of the same files, which knows the good ends of the first.

ghost use Rattle.std.specs.Prelude.{◌≡◌, ◌≤◌, IfOk, None, length};
ghost use Rattle.star_outcome.specs.GoodEnds.{AreGoodEndsOf};
ghost use Rattle.star_outcome.specs.Kept.{AreModulesOf};
ghost use Rattle.star_reading.specs.Found.{Within};

use crate::meeting::Meeting;
use crate::runs::{all_roots, files_of, report_text};
use star_checks::holds;
use star_dialect::Mode;
use star_host::{GoodEnd, Known, Reads, Run, RunOptions, Size, Trees, run_in};
use star_label::files::Files;
use std::alloc::Global;
use std::sync::Wait;
use std::test::Fail;
use std::thread::Threads;

/// The run of files by two loaders, with these ends known.
fn run_with<R: Threads + Wait + Sync>(
    rt: &R,
    alloc: Global,
    files: &Files,
    ends: Vec<Option<GoodEnd>>,
    roots: &[usize],
    mode: &Mode,
    gate: &Meeting,
) -> Result<Run, Fail>
    requires roots { Within files.now roots.now }
    requires steps { (1 ≤ mode.now.steps) × (mode.now.steps ≤ 100000000) }
    requires ends { AreGoodEndsOf files.now roots.now None mode.now ends.items }
    ensures files { IfOk result (λ r. length r.cells ≡ length files.now) }
    ensures modules { IfOk result (λ r. AreModulesOf files.now roots.now None mode.now r.kept) }
{
    let trees = Trees::new(alloc)?;
    let mut reads = Reads::new(alloc);
    let parses = Vec::new(alloc);
    let known = Known {
        trees: &trees,
        parses: parses.as_slice(),
        ends: ends.as_slice(),
    };
    let options = RunOptions {
        roots,
        prelude: None,
        loaders: 2,
        mode,
        seed: 1,
        ballast: Some(Size::Heap),
    };
    Ok(run_in(rt, alloc, files, known, &mut reads, options, gate)?)
}

/// The run of the same files again, with the good ends of a first run known.
fn run_again<R: Threads + Wait + Sync>(
    rt: &R,
    alloc: Global,
    files: &Files,
    first: &mut Run,
    roots: &[usize],
    mode: &Mode,
    gate: &Meeting,
) -> Result<Run, Fail>
    requires roots { Within files.now roots.now }
    requires cells { length first.old.cells ≡ length files.now }
    requires steps { (1 ≤ mode.now.steps) × (mode.now.steps ≤ 100000000) }
    requires modules { AreModulesOf files.now roots.now None mode.now first.old.kept }
    ensures same { first.new ≡ first.old }
    ensures files { IfOk result (λ r. length r.cells ≡ length files.now) }
{
    let ends = first.good_ends(alloc, files.len())?;
    run_with(rt, alloc, files, ends, roots, mode, gate)
}

/// Two files go well, the run of another stops, and the last one loads that.
#[test]
fn a_file_whose_good_end_is_known_is_not_run(rt: HostRuntime) -> Result<(), Fail> {
    let alloc = rt.alloc();
    let bundle = [
        ("//:a.star", "load(\"//:c.star\", \"k\")\nx = [k, k]"),
        ("//:b.star", "print(\"twice\")\ny = 1 // 0"),
        ("//:c.star", "print(\"once\")\nk = (1,)"),
        ("//:d.star", "load(\"//:b.star\", \"y\")\nz = y"),
    ];
    let files = files_of(alloc, &bundle)?;
    let roots = all_roots(alloc, &files)?;
    let (gate, again) = (Meeting::new([0; 4], 1), Meeting::new([0; 4], 1));
    let mode = Mode::core(alloc, 100_000);
    let none = Vec::new(alloc);
    let mut first = run_with(&rt, alloc, &files, none, &roots, &mode, &gate)?;
    let mut second = run_again(&rt, alloc, &files, &mut first, &roots, &mode, &again)?;
    gate.has_held(&rt, 3, 0);
    again.has_held(&rt, 1, 0);
    let mut ballasts = first.take_ballasts(alloc);
    holds!(&rt; !ballasts.is_empty(), "a loader that ran a file has one");
    for n in 0..ballasts.len() {
        ballasts[n].lighten(alloc);
    }
    let one = report_text(&rt, alloc, &files, &mut first)?;
    let two = report_text(&rt, alloc, &files, &mut second)?;
    holds!(&rt; one.as_str() == two.as_str());
    Ok(())
}
