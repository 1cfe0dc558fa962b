//! Answers to requests on standard input.

ghost use Rattle.std.specs.Prelude.{◌≤◌};

use crate::repo::links_of;
use clap::ArgMatches;
use star_bundle::error::ServeError;
use star_folder::system::SystemDisk;
use star_repo::disk::DiskRepo;
use star_repo::top::{Links, Top};
use star_serve::ends::{CountedReader, CountedWriter};
use star_serve::serve::{Options, Output, Wanted};
use star_session::request::{Defaults, Origin};
use star_session::session::{Settings, serve_requests};
use std::alloc::Global;
use std::process::ExitCode;
use std::sync::Wait;
use std::thread::Threads;
use std::{fs, io};

/// The message if the requests end before standard input does.
fn text_of(error: ServeError) -> &'static str {
    match error {
        ServeError::Read => "cannot read the requests",
        ServeError::Write => "cannot write an answer",
        error => error.text(),
    }
}

/// The folder of requests that send their files, which no request looks at.
const NOWHERE: FolderAsked<'static> = FolderAsked {
    dir: "/",
    links: Links::Never,
};

/// Says why no request is answered.
fn refuse(rt: &HostRuntime, text: &str) -> ExitCode {
    let _ = eprintln!(rt; "starload: {text}");
    ExitCode::from(2)
}

/// The folder that requests are about: its path, and which links are followed below it.
#[derive(Clone, Copy)]
pub(crate) struct FolderAsked<'a> {
    pub dir: &'a str,
    pub links: Links,
}

impl<'a> FolderAsked<'a> {
    /// The folder that the words of the command line name, if they name one.
    pub(crate) fn of(matches: &'a ArgMatches<'_>) -> Option<FolderAsked<'a>> {
        match matches.get_str("repo") {
            Some(dir) => Some(FolderAsked {
                dir,
                links: links_of(matches),
            }),
            None => None,
        }
    }
}

/// The real path of a folder.
pub(crate) fn real_path(rt: &HostRuntime, path: &str) -> io::Result<String> {
    if !fs::metadata(rt, path)?.is_dir() {
        return Err(io::Error::from(io::ErrorKind::NotADirectory));
    }
    match fs::canonicalize(rt, path)?.to_str() {
        Some(real) => Ok(String::from_str(rt.alloc(), real)?),
        None => Err(io::Error::from(io::ErrorKind::InvalidData)),
    }
}

/// The real path of the folder that is asked for; empty if there is none.
fn real_of(rt: &HostRuntime, asked: Option<FolderAsked<'_>>) -> io::Result<String> {
    match asked {
        Some(folder) => real_path(rt, folder.dir),
        None => Ok(String::new(rt.alloc())),
    }
}

/// Says that a folder cannot be listed, and why.
pub(crate) fn refuse_folder(rt: &HostRuntime, dir: &str, error: &io::Error) -> ExitCode {
    let _ = eprintln!(rt; "starload: cannot list the folder: {dir}: {error}");
    ExitCode::from(2)
}

/// Answers requests until standard input ends: about the files of the folder, or else about those that they send. All of
/// them may take some `keep` bytes of memory more than the largest alone. The loaders are threads of `threads`.
pub(crate) fn answer_requests<H: Threads + Wait + Sync>(
    rt: &HostRuntime,
    threads: &H,
    alloc: Global,
    options: Options,
    keep: u32,
    asked: Option<FolderAsked<'_>>,
) -> ExitCode
    requires loaders { (1 ≤ options.loaders) × (options.loaders ≤ 64) }
    requires steps { (1 ≤ options.mode.steps) × (options.mode.steps ≤ 100000000) }
{
    let Options {
        loaders,
        mode,
        seed,
        prelude,
        output,
        ..
    } = options;
    let origin = match asked {
        Some(_) => Origin::Folder,
        None => Origin::Sent,
    };
    let FolderAsked { dir, links } = asked.unwrap_or(NOWHERE);
    let real = match real_of(rt, asked) {
        Ok(real) => real,
        Err(error) => return refuse_folder(rt, dir, &error),
    };
    let wanted = match output {
        Output::Report(wanted) => wanted,
        _ => Wanted::NOTHING,
    };
    let settings = Settings {
        loaders,
        seed,
        keep: keep as usize,
        defaults: Defaults {
            origin,
            prelude,
            mode,
            wanted,
        },
    };
    let top = Top {
        path: dir,
        real: real.as_str(),
        links,
    };
    let disk = SystemDisk::new(rt);
    let folder = DiskRepo::new(&disk, top);
    let mut reader = CountedReader::new(rt.stdin());
    let mut writer = CountedWriter::new(rt.stdout());
    match serve_requests(threads, alloc, &folder, &mut reader, &mut writer, &settings) {
        Ok(()) => ExitCode::SUCCESS,
        Err(error) => refuse(rt, text_of(error)),
    }
}
