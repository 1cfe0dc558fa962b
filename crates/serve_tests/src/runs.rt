//! Helpers: runs of small bundles, and their reports.

ghost use Rattle.std.specs.Prelude.{◌≡◌, ◌<◌, ◌≤◌, All, IfOk, length};

use star_checks::holds;
use star_dialect::Mode;
use star_host::gate::Gate;
use star_host::{Reads, Run, RunOptions, run};
use star_label::files::Files;
use star_label::label::Label;
use star_report::report::{ReportOptions, report};
use star_report::wanted::Wanted;
use std::alloc::{AllocError, Global};
use std::collections::BTreeMap;
use std::process::Abort;
use std::sync::Wait;
use std::test::Fail;
use std::thread::Threads;

/// Three files, two of which load the third, and one of them the other.
pub fn three() -> [(&'static str, &'static str); 3] {
    [
        (
            "//:a.star",
            "load(\"//:b.star\", \"y\")\nload(\"//:c.star\", \"k\")\nx = y + k",
        ),
        ("//:b.star", "load(\"//:c.star\", \"k\")\ny = k"),
        ("//:c.star", "k = 1"),
    ]
}

/// The files with these labels and texts.
pub fn files_of(alloc: Global, bundle: &[(&str, &str)]) -> Result<Files, Fail> {
    let mut files = BTreeMap::new(alloc);
    for (label, text) in bundle {
        let text = String::from_str(alloc, *text)?;
        files.insert(Label::read(alloc, *label, "")?, text)?;
    }
    Ok(Files::new(alloc, files)?)
}

/// `count` files. Each loads the next two and adds their numbers, and the last two have 1.
pub fn sums(alloc: Global, count: u32) -> Result<Files, Fail>
    requires { count ≤ 100 }
{
    let mut files = BTreeMap::new(alloc);
    for n in 0..count {
        let label = format!(in alloc; "//:f{}.star", 100 + n)?;
        let text = if n + 2 < count {
            format!(in alloc;
                "load(\":f{}.star\", a = \"x\")\nload(\":f{}.star\", b = \"x\")\nx = a + b",
                101 + n,
                102 + n
            )?
        } else {
            String::from_str(alloc, "x = 1")?
        };
        files.insert(Label::read(alloc, label.as_str(), "")?, text)?;
    }
    Ok(Files::new(alloc, files)?)
}

/// The numbers of all files.
pub fn all_roots(alloc: Global, files: &Files) -> Result<Vec<usize>, AllocError>
    ensures { IfOk result (λ v. All (λ n. n < length files.now) v.items) }
{
    let mut roots = Vec::new(alloc);
    for n in 0..files.len() {
        roots.push(n)?;
    }
    Ok(roots)
}

/// The run of files that are all roots. Each body may take 100,000 steps.
pub fn run_all<R: Threads + Wait + Sync, G: Gate + Sync>(
    rt: &R,
    alloc: Global,
    files: &Files,
    loaders: usize,
    gate: &G,
) -> Result<Run, Fail>
    requires { (1 ≤ loaders) × (loaders ≤ 64) }
    ensures { IfOk result (λ r. length r.cells ≡ length files.now) }
{
    let roots = all_roots(alloc, files)?;
    let mode = Mode::core(alloc, 100_000);
    let options = RunOptions {
        roots: &roots,
        prelude: None,
        loaders,
        mode: &mode,
        seed: 1,
        ballast: None,
    };
    Ok(run(rt, alloc, files, options, gate)?)
}

/// The report of a run, without further members.
pub fn report_text<R: Threads + Sync>(
    rt: &R,
    alloc: Global,
    files: &Files,
    run: &mut Run,
) -> Result<String, Fail>
    requires { length run.old.cells ≡ length files.now }
{
    let reads = Reads::new(alloc);
    let options = ReportOptions {
        wanted: Wanted::NOTHING,
        threads: 1,
        frugal: false,
    };
    let text = report(rt, alloc, files, &reads, run, &[], options)?;
    Ok(String::from_utf8(text)?)
}

/// Asserts how many files a run began, and how many each of its first loaders.
pub fn began(rt: &impl Abort, run: &Run, begun: u32, first: &[u32]) {
    let counts = run.per_loader();
    holds!(rt; run.begun() == begun);
    holds!(rt; counts.starts_with(first));
}
