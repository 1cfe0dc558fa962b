//! Tests of the calls from bytes to bytes, over streams and folders that fail where a script says so. The streams tell
//! their bytes to contracts, the folders their content.

ghost use Rattle.std.specs.Prelude.{◌≤◌, IfOk, None, Some, ◌==◌, if◌then◌else◌};
ghost use Rattle.star_folder.specs.Memory.{contents_of, rows_of};

mod memo;
mod ondemand;

use star_bundle::error::ServeError;
use star_checks::{holds, writes};
use star_dialect::Mode;
use star_folder::folder::{Folder, FolderError, Kind};
use star_folder::memory::{MemoryFolder, Row};
use star_label::label::Label;
use star_serve::dir::serve_dir;
use star_serve::serve::{Options, Output, Wanted, serve};
use star_serve::stream::{Failed, Sink, Source};
use std::alloc::{AllocError, Global};
use std::collections::BTreeMap;
use std::process::Abort;
use std::sync::Wait;
use std::test::Fail;
use std::thread::Threads;

/// A bundle of the empty file `//:a.star`.
const EMPTY: &str = "{\"//:a.star\":\"\"}";

/// Counts calls from 0. One of them fails.
#[derive(Drop)]
struct Calls {
    made: usize,
    fails_at: usize,
}

impl Calls {
    fn failing_at(fails_at: usize) -> Calls {
        Calls { made: 0, fails_at }
    }

    /// Whether this call fails.
    fn fails(&mut self) -> bool {
        let call = self.made;
        self.made = usize::saturating_add(call, 1);
        call == self.fails_at
    }
}

/// Gives bytes, at most `piece` at a time. One read fails.
#[derive(Drop)]
struct Script<'a> {
    rest: &'a [u8],
    piece: usize,
    calls: Calls,
    failed: u64,
    ended: bool,
}

impl<'a> Source for Script<'a> {
    ghost said = { λ s. record { given = None; left = Some s.rest.now; ended = s.ended } };

    ghost failed = { λ s. s.failed };

    fn read(&mut self, buffer: &mut [u8]) -> Result<usize, Failed> {
        if self.calls.fails() && self.failed < u64::MAX {
            self.failed += 1;
            return Err(Failed);
        }
        let count = self
            .rest
            .len()
            .min(buffer.len())
            .min(usize::max(self.piece, 1));
        let (front, rest) = self.rest.split_at(count);
        buffer[..count].copy_from_slice(front);
        self.rest = rest;
        self.ended = count == 0;
        Ok(count)
    }
}

/// Keeps the bytes that it takes. One write fails.
#[derive(Drop)]
pub(crate) struct Kept {
    pub bytes: Vec<u8>,
    calls: Calls,
    failed: u64,
}

impl Sink for Kept {
    ghost taken = { λ s. if s.failed == 18446744073709551615 then None else Some s.bytes.items };

    ghost failed = { λ s. s.failed };

    fn write(&mut self, bytes: &[u8]) -> Result<(), Failed> {
        if self.failed == u64::MAX {
            return Ok(());
        }
        if !self.calls.fails() && self.bytes.extend_from_slice(bytes).is_ok() {
            return Ok(());
        }
        self.failed += 1;
        Err(Failed)
    }
}

/// More calls than are made: none fails.
pub(crate) const NEVER: usize = 1_000_000;

fn scripted(bytes: &[u8], piece: usize, fails_at: usize) -> Script<'_> {
    Script {
        rest: bytes,
        piece,
        calls: Calls::failing_at(fails_at),
        failed: 0,
        ended: false,
    }
}

pub(crate) fn writer_of(alloc: Global, fails_at: usize) -> Kept {
    Kept {
        bytes: Vec::new(alloc),
        calls: Calls::failing_at(fails_at),
        failed: 0,
    }
}

/// The options for a root, with `loaders` loaders and the trace.
pub(crate) fn options_of(alloc: Global, loaders: usize, root: &str) -> Result<Options, AllocError>
    requires { (1 ≤ loaders) × (loaders ≤ 64) }
    ensures { IfOk result (λ o. (1 ≤ o.loaders) × (o.loaders ≤ 64) × (1 ≤ o.mode.steps) × (o.mode.steps ≤ 100000000)) }
{
    let mut roots = Vec::new(alloc);
    roots.push(String::from_str(alloc, root)?)?;
    Ok(Options {
        loaders,
        mode: Mode::core(alloc, 10_000),
        seed: 1,
        roots,
        prelude: None,
        output: Output::Report(Wanted::NOTHING),
        trace: true,
        dir: None,
        explain: None,
        progress: None,
    })
}

/// The answer of `serve` for the root `//:a.star`, and the bytes that it wrote. The write of the report fails if that
/// is wanted.
fn served<H: Threads + Wait + Sync, R: Source>(
    rt: &H,
    alloc: Global,
    reader: &mut R,
    fails: bool,
) -> Result<(Result<bool, ServeError>, Vec<u8>), AllocError> {
    let mut writer = writer_of(alloc, if fails { 0 } else { NEVER });
    let mut errors = writer_of(alloc, NEVER);
    let options = options_of(alloc, 2, "//:a.star")?;
    let outcome = serve(rt, alloc, reader, &mut writer, &mut errors, &options);
    let Kept { bytes, .. } = writer;
    Ok((outcome, bytes))
}

/// Asserts that a call failed with this error, and that it wrote nothing.
fn fails_by(rt: &impl Abort, answer: (Result<bool, ServeError>, Vec<u8>), want: ServeError) {
    let (outcome, written) = answer;
    holds!(rt; outcome == Err(want));
    holds!(rt; written.is_empty());
}

/// Asserts the report of a bundle without a root.
fn no_file_is_reported<H: Abort + Threads + Wait + Sync>(
    rt: &H,
    alloc: Global,
    loaders: usize,
) -> Result<(), Fail>
    requires { (1 ≤ loaders) × (loaders ≤ 64) }
{
    let mut options = options_of(alloc, loaders, "//:a.star")?;
    options.roots = Vec::new(alloc);
    options.trace = false;
    let mut reader = scripted(b"{\"//:a.star\":\"x = 1\"}", 5, NEVER);
    let (mut writer, mut errors) = (writer_of(alloc, NEVER), writer_of(alloc, NEVER));
    let outcome = serve(rt, alloc, &mut reader, &mut writer, &mut errors, &options);
    holds!(rt; outcome == Ok(true));
    writes!(rt; writer.bytes.as_slice(), "{\"begun\":0,\"modules\":[]}\n");
    writes!(rt; errors.bytes.as_slice(), "");
    Ok(())
}

#[test]
fn a_bundle_without_a_root(rt: HostRuntime) -> Result<(), Fail> {
    for loaders in [1, 2, 3, 4, 64] {
        no_file_is_reported(&rt, rt.alloc(), loaders)?;
    }
    Ok(())
}

/// Sixteen bytes are given in six reads, and a seventh finds the end.
#[test]
fn a_reader_that_fails_at_each_call(rt: HostRuntime) -> Result<(), Fail> {
    let alloc = rt.alloc();
    for fails_at in 0..7 {
        let mut reader = scripted(EMPTY.as_bytes(), 3, fails_at);
        let answer = served(&rt, alloc, &mut reader, false)?;
        fails_by(&rt, answer, ServeError::Read);
        holds!(&rt; reader.failed == 1);
    }
    let mut reader = scripted(EMPTY.as_bytes(), 3, 7);
    let (outcome, _) = served(&rt, alloc, &mut reader, false)?;
    holds!(&rt; outcome == Ok(true));
    Ok(())
}

#[test]
fn a_writer_that_fails(rt: HostRuntime) -> Result<(), Fail> {
    let mut reader = scripted(EMPTY.as_bytes(), 9, NEVER);
    let answer = served(&rt, rt.alloc(), &mut reader, true)?;
    fails_by(&rt, answer, ServeError::Write);
    Ok(())
}

/// A line that cannot be written ends the trace, and the report is there all the same.
#[test]
fn a_trace_that_fails(rt: HostRuntime) -> Result<(), Fail> {
    let alloc = rt.alloc();
    let bundle =
        "{\"//:a.star\":\"load(':a.star', 'x')\\nload(':b.star', 'y')\",\"//:b.star\":\"load(':b.star', 'z')\"}";
    let line = "starload: cycle: //:a.star loads //:a.star\n";
    for (fails_at, want) in [(0, ""), (1, line)] {
        let options = options_of(alloc, 1, "//:a.star")?;
        let mut reader = scripted(bundle.as_bytes(), 9, NEVER);
        let (mut writer, mut errors) = (writer_of(alloc, NEVER), writer_of(alloc, fails_at));
        let outcome = serve(&rt, alloc, &mut reader, &mut writer, &mut errors, &options);
        holds!(&rt; outcome == Ok(false));
        holds!(&rt; !writer.bytes.is_empty());
        writes!(&rt; errors.bytes.as_slice(), want);
        holds!(&rt; errors.failed == 1);
    }
    Ok(())
}

/// A folder in memory. One of its calls fails.
#[derive(Drop)]
struct Failing<'a> {
    folder: MemoryFolder<'a>,
    calls: Calls,
    failed_listings: u64,
    failed_reads: u64,
}

impl<'a> Folder for Failing<'a> {
    ghost holds = { λ s. contents_of (rows_of s.folder) };

    ghost failed_listings = { λ s. s.failed_listings };

    ghost failed_reads = { λ s. s.failed_reads };

    fn list(&mut self, alloc: Global, path: &str) -> Result<BTreeMap<String, Kind>, FolderError> {
        if self.calls.fails() && self.failed_listings < u64::MAX {
            self.failed_listings += 1;
            return Err(FolderError::Failed);
        }
        self.folder.list(alloc, path)
    }

    fn read(&mut self, alloc: Global, label: &Label) -> Result<Vec<u8>, FolderError> {
        if self.calls.fails() && self.failed_reads < u64::MAX {
            self.failed_reads += 1;
            return Err(FolderError::Failed);
        }
        self.folder.read(alloc, label)
    }
}

fn row<'a>(path: &'a str, name: &'a str, kind: Kind, bytes: &'a [u8]) -> Row<'a> {
    Row {
        path,
        name,
        kind,
        bytes,
    }
}

/// The answer of `serve_dir` for the root `//:a.star` of a folder with these entries, and the bytes that it wrote.
fn served_dir<H: Threads + Wait + Sync>(
    rt: &H,
    alloc: Global,
    rows: &[Row<'_>],
    fails_at: usize,
    fails: bool,
) -> Result<(Result<bool, ServeError>, Vec<u8>), AllocError> {
    let mut folder = Failing {
        folder: MemoryFolder::new(rows),
        calls: Calls::failing_at(fails_at),
        failed_listings: 0,
        failed_reads: 0,
    };
    let mut writer = writer_of(alloc, if fails { 0 } else { NEVER });
    let mut errors = writer_of(alloc, NEVER);
    let options = options_of(alloc, 1, "//:a.star")?;
    let outcome = serve_dir(rt, alloc, &mut folder, &mut writer, &mut errors, &options);
    let Kept { bytes, .. } = writer;
    Ok((outcome, bytes))
}

fn two_files() -> [Row<'static>; 4] {
    [
        row("", "lib", Kind::Folder, b""),
        row("lib", "b.star", Kind::File, b"k = 1"),
        row("", "readme.txt", Kind::File, b"\xff"),
        row(
            "",
            "a.star",
            Kind::File,
            b"load(\"//lib:b.star\", \"k\")\nx = k",
        ),
    ]
}

/// The top is listed, `a.star` read, `lib` listed and `b.star` read.
#[test]
fn a_folder_that_fails(rt: HostRuntime) -> Result<(), Fail> {
    for (fails_at, want) in [
        (0, ServeError::BadDir),
        (1, ServeError::BadFile),
        (2, ServeError::BadDir),
        (3, ServeError::BadFile),
    ] {
        let rows = two_files();
        let answer = served_dir(&rt, rt.alloc(), &rows, fails_at, false)?;
        fails_by(&rt, answer, want);
    }
    let (outcome, _) = served_dir(&rt, rt.alloc(), &two_files(), 4, true)?;
    holds!(&rt; outcome == Err(ServeError::Write));
    Ok(())
}
