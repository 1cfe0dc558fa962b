//! `--lsp`: the Language Server Protocol on the standard streams.

ghost use Rattle.std.specs.Prelude.{◌≤◌};

use crate::requests::{FolderAsked, real_path, refuse_folder};
use star_bundle::bundle::normal_label;
use star_bundle::error::ServeError;
use star_folder::system::SystemDisk;
use star_label::label::Label;
use star_lsp::{Ending, Settings, serve_editor};
use star_repo::disk::DiskRepo;
use star_repo::top::Top;
use star_serve::serve::Options;
use std::alloc::{AllocError, Global};
use std::io::BufReader;
use std::process::ExitCode;
use std::sync::Wait;
use std::thread::Threads;

/// Says why there is no session, or why it has ended.
fn refuse(rt: &HostRuntime, text: &str, status: u8) -> ExitCode {
    let _ = eprintln!(rt; "starload: {text}");
    ExitCode::from(status)
}

/// The label of the prelude.
fn prelude_of(alloc: Global, text: Option<&String>) -> Result<Option<Label>, ServeError> {
    let Some(text) = text else {
        return Ok(None);
    };
    match normal_label(alloc, text.as_str()) {
        Ok(Some(label)) => Ok(Some(label)),
        Ok(None) => Err(ServeError::BadPrelude),
        Err(AllocError) => Err(ServeError::Memory),
    }
}

/// The exit status by how a session has ended, and on standard error why, unless the client wished it.
fn ended(rt: &HostRuntime, ending: Ending) -> ExitCode {
    match ending {
        Ending::Exit => ExitCode::SUCCESS,
        Ending::Left | Ending::NotWritten => ExitCode::from(1),
        Ending::Memory => refuse(rt, ServeError::Memory.text(), 1),
        Ending::BadFrame(error) => {
            let _ = eprintln!(rt; "starload: {error}");
            ExitCode::from(1)
        }
    }
}

/// Tells an editor on the standard streams what it asks about the files of a folder, until it ends the session.
pub(crate) fn serve_lsp<H: Threads + Wait + Sync>(
    rt: &HostRuntime,
    threads: &H,
    alloc: Global,
    options: Options,
    asked: FolderAsked<'_>,
) -> ExitCode
    requires loaders { (1 ≤ options.loaders) × (options.loaders ≤ 64) }
    requires steps { (1 ≤ options.mode.steps) × (options.mode.steps ≤ 100000000) }
{
    let Options {
        loaders,
        mode,
        prelude,
        ..
    } = options;
    let root = match real_path(rt, asked.dir) {
        Ok(root) => root,
        Err(error) => return refuse_folder(rt, asked.dir, &error),
    };
    let prelude = match prelude_of(alloc, prelude.as_ref()) {
        Ok(prelude) => prelude,
        Err(error) => return refuse(rt, error.text(), 2),
    };
    let Ok(real) = root.clone() else {
        return refuse(rt, ServeError::Memory.text(), 2);
    };
    let top = Top {
        path: asked.dir,
        real: real.as_str(),
        links: asked.links,
    };
    let disk = SystemDisk::new(rt);
    let folder = DiskRepo::new(&disk, top);
    let settings = Settings {
        root,
        prelude,
        loaders,
        mode,
    };
    let Ok(mut reader) = BufReader::new(alloc, rt.stdin()) else {
        return refuse(rt, ServeError::Memory.text(), 2);
    };
    let mut writer = rt.stdout();
    let ending = serve_editor(threads, alloc, folder, settings, &mut reader, &mut writer);
    ended(rt, ending)
}
