//! Files on demand, from a folder in memory that fails where a script says so.

ghost use Rattle.std.specs.Prelude.{None};

use crate::bytes::{NEVER, options_of, writer_of};
use star_bundle::error::ServeError;
use star_checks::{holds, reads};
use star_folder::folder::FolderError;
use star_label::label::Label;
use star_repo::error::RepoError;
use star_repo::memory::{FileAt, MemoryRepo};
use star_repo::repo::Repo;
use star_serve::repo::serve_repo;
use std::alloc::Global;
use std::sync::Wait;
use std::test::Fail;
use std::thread::Threads;

/// `a.star` loads `b.bzl`, whose text comes after a byte order mark.
fn two_files() -> [FileAt<'static>; 2] {
    [
        FileAt {
            label: "//:a.star",
            bytes: b"load('//lib:b.bzl', 'b')\nx = b",
        },
        FileAt {
            label: "//lib:b.bzl",
            bytes: b"\xef\xbb\xbfb = 2",
        },
    ]
}

/// A folder. One of its reads fails.
#[derive(Drop)]
struct Failing<'a> {
    folder: MemoryRepo<'a>,
    left: usize,
    failed: u64,
}

impl<'a> Repo for Failing<'a> {
    ghost says = { λ s label. None };

    ghost failed = { λ s. s.failed };

    fn find(&mut self, alloc: Global, label: &Label) -> Result<Option<Vec<u8>>, FolderError> {
        if self.left == 0 && self.failed < u64::MAX {
            self.failed += 1;
            return Err(FolderError::Failed);
        }
        self.left = self.left.saturating_sub(1);
        match self.folder.find(alloc, label) {
            Ok(Some(text)) => {
                if text.len() > 1_048_577 {
                    return Ok(None);
                }
                Ok(Some(text))
            }
            Ok(None) => Ok(None),
            Err(_) => Err(FolderError::Memory),
        }
    }
}

/// The answer for the root `//:a.star`, or the text of the refusal, and the bytes that were written.
fn asked<H: Threads + Wait + Sync, F: Repo>(
    rt: &H,
    alloc: Global,
    folder: &mut F,
) -> Result<(String, Vec<u8>), Fail> {
    let mut writer = writer_of(alloc, NEVER);
    let mut errors = writer_of(alloc, NEVER);
    let options = options_of(alloc, 4, "//:a.star")?;
    let said = match serve_repo(rt, alloc, folder, &mut writer, &mut errors, &options) {
        Ok(all_ok) => format!(in alloc; "{all_ok}")?,
        Err(error) => format!(in alloc; "{error}")?,
    };
    Ok((said, writer.bytes))
}

#[test]
fn each_read_on_demand_fails(rt: HostRuntime) -> Result<(), Fail> {
    let alloc = rt.alloc();
    for (left, want) in [
        (0, "cannot read a file: //:a.star"),
        (1, "cannot read a file: //lib:b.bzl"),
        (2, "true"),
    ] {
        let files = two_files();
        let mut folder = Failing {
            folder: MemoryRepo::new(&files),
            left,
            failed: 0,
        };
        let (said, written) = asked(&rt, alloc, &mut folder)?;
        reads!(&rt; said.as_str(), want);
        holds!(&rt; written.is_empty() == (left < 2), want);
    }
    Ok(())
}

#[test]
fn a_report_on_demand_that_is_not_written(rt: HostRuntime) -> Result<(), Fail> {
    let alloc = rt.alloc();
    let mut writer = writer_of(alloc, 0);
    let mut errors = writer_of(alloc, NEVER);
    let options = options_of(alloc, 2, "//:a.star")?;
    let files = two_files();
    let mut folder = MemoryRepo::new(&files);
    match serve_repo(&rt, alloc, &mut folder, &mut writer, &mut errors, &options) {
        Err(
            RepoError::Run {
                error: ServeError::Write,
            },
        ) => Ok(()),
        _ => Err(Fail::from("a write that failed")),
    }
}
