//! The program `starload`: it loads the Starlark files of a bundle or of a folder, and writes the report.
//!
//! The bundle is read on standard input (`star_serve::serve`), or the files are those of a folder (`serve_dir`), or
//! those that the roots reach in one (`repo`). The report goes to standard output (`streams`). After it, standard error
//! tells a person what is at fault and where, if that is wanted (`docs/EXPLAIN.md`).
//!
//! `command` has the command line, and `codes` prints the page of a fault's code. Begin at `main`, the last function.
//! The exit status is the one of `star_bundle::error::status`, or of `exit_status`. An error before the run goes to standard error, and the
//! exit status is 2. The rules are in `docs/USING.md`. `command::options` has the contract that
//! says which options the arguments give.
#![tactic(auto)]

ghost use Rattle.std.specs.Prelude.{◌≤◌, IfSome};

mod below;
mod codes;
mod command;
mod graph;
mod join;
mod lsp;
mod progress;
mod repo;
mod requests;
mod roots;
mod streams;
mod topics;

use clap::error::ErrorKind;
use clap::{ArgMatches, Command};
use command::{Errors, command, exit_status, is_listed, is_recorded, is_shown, options};
use lsp::serve_lsp;
use progress::Shown;
use repo::{RepoAsked, report_repo};
use requests::{FolderAsked, answer_requests};
use roots::{further_roots, say_no_roots};
use star_bundle::error::{ServeError, status};
use star_dialect::Dialect;
use star_folder::disk::DiskFolder;
use star_folder::folder::Folder;
use star_folder::system::SystemDisk;
use star_hint::bundle::about_bundle;
use star_hint::folder::about_folder;
use star_mistakes::place::shown;
use star_serve::dir::serve_dir;
use star_serve::ends::{CountedReader, KeptReader};
use star_serve::serve::{Options, serve};
use std::alloc::{AllocError, Global};
use std::hash::{BuildHasher, RandomState};
use std::io::IsTerminal;
use std::process::ExitCode;
use std::sync::Wait;
use std::thread::Threads;
use std::{env, io};
use streams::{Streams, is_for_tools};
use topics::{Help, asked_help, say_topic, say_topics};

/// Says why there is no report, and answers with the status.
fn refused(rt: &HostRuntime, text: &str) -> u8 {
    let _ = eprintln!(rt; "starload: {text}");
    2
}

/// Says why there is no report.
fn refuse(rt: &HostRuntime, text: &str) -> ExitCode {
    ExitCode::from(refused(rt, text))
}

/// The message for arguments that cannot be read.
fn text_of(error: &io::Error) -> &'static str {
    if error.kind() == io::ErrorKind::OutOfMemory {
        ServeError::Memory.text()
    } else {
        "a word of the command line is not UTF-8"
    }
}

fn words(rt: &HostRuntime) -> Result<Vec<String>, &'static str> {
    match env::args(rt) {
        Ok(words) => match words.collect(rt.alloc()) {
            Ok(words) => Ok(words),
            Err(_) => Err(ServeError::Memory.text()),
        },
        Err(error) => Err(text_of(&error)),
    }
}

/// Writes the message of `clap` about the command line, or its help, to standard error. The version goes to standard
/// output.
fn say(rt: &HostRuntime, error: &clap::Error) -> ExitCode {
    match error.kind() {
        ErrorKind::OutOfMemory => refuse(rt, ServeError::Memory.text()),
        ErrorKind::DisplayVersion => match rt.print(error) {
            Ok(()) => ExitCode::SUCCESS,
            Err(_) => ExitCode::from(2),
        },
        _ => {
            let _ = rt.eprint(error);
            ExitCode::from(2)
        }
    }
}

/// The words that ask for the help.
const HELP: &[&str] = &["starload", "--help"];

/// Writes the help to standard output, and then its topics.
fn print_help(rt: &HostRuntime, command: Command<'_>) -> io::Result<()> {
    if let Err(error) = command.try_get_matches_from(HELP) {
        rt.print(&error)?;
    }
    say_topics(rt)
}

/// Writes the help, or a page of it, to standard output.
fn help(rt: &HostRuntime, command: Command<'_>, asked: Help) -> ExitCode {
    let printed = match asked {
        Help::Whole => print_help(rt, command),
        Help::Page(topic) => say_topic(rt, topic),
    };
    match printed {
        Ok(()) => ExitCode::SUCCESS,
        Err(_) => ExitCode::from(2),
    }
}

/// The seed for the hashes of keys, drawn at random: 0 if the system has none to give.
fn seed_of(rt: &HostRuntime) -> u64 {
    match RandomState::new(rt) {
        Ok(state) => state.hash_one(0u8),
        Err(_) => 0,
    }
}

/// Says what a code of a fault means.
fn explain_code(rt: &HostRuntime, code: &str) -> ExitCode {
    match codes::explain(rt, code) {
        Ok(true) => ExitCode::SUCCESS,
        Ok(false) => refuse(rt, "no such code; --explain-code all lists them"),
        Err(_) => refuse(rt, ServeError::Write.text()),
    }
}

/// Says, where standard input is a terminal, that a bundle is waited for.
fn say_what_is_read(rt: &HostRuntime) {
    if rt.stdin().is_terminal() {
        let _ = eprintln!(rt;
            "starload: waiting for a bundle on standard input, a JSON object from labels to texts (see --help)"
        );
    }
}

/// Says why there is no report, and then more about it, if there is more.
fn say_refusal(rt: &HostRuntime, error: ServeError, about: Result<String, AllocError>) {
    let _ = eprintln!(rt; "starload: {}", error.text());
    if let Ok(about) = about {
        let _ = eprint!(rt; "{about}");
    }
}

/// More about why there is no report of a bundle, from the bytes of it that were kept.
fn about_bytes(
    alloc: Global,
    kept: Option<&[u8]>,
    options: &Options,
    error: ServeError,
) -> Result<String, AllocError> {
    let Some(bytes) = kept else {
        return Ok(String::new(alloc));
    };
    let (roots, prelude) = (options.roots.as_slice(), options.prelude.as_ref());
    about_bundle(alloc, bytes, roots, prelude, error)
}

/// Writes the report of a bundle on standard input, or says why there is none. The loaders are threads of `threads`.
fn report_bundle<H: Threads + Wait + Sync>(
    rt: &HostRuntime,
    threads: &H,
    alloc: Global,
    options: &Options,
) -> Result<bool, ServeError>
    requires loaders { (1 ≤ options.now.loaders) × (options.now.loaders ≤ 64) }
    requires steps { (1 ≤ options.now.mode.steps) × (options.now.mode.steps ≤ 100000000) }
{
    say_what_is_read(rt);
    let kept = options.explain.map(|_| Vec::new(alloc));
    let mut reader = KeptReader::new(CountedReader::new(rt.stdin()), kept);
    let mut streams = Streams::of(rt, options);
    let (report, said) = (&mut streams.report, &mut streams.said);
    let outcome = serve(threads, alloc, &mut reader, report, said, options);
    let outcome = outcome.and_then(|all_ok| streams.ended(all_ok));
    if let Err(error) = &outcome {
        let about = about_bytes(alloc, reader.kept(), options, *error);
        say_refusal(rt, *error, about);
    }
    outcome
}

/// More about why there is no report of a folder, if a message to a person is wanted.
fn about_files<F: Folder>(
    alloc: Global,
    folder: &mut F,
    dir: &str,
    options: &Options,
    error: ServeError,
) -> Result<String, AllocError> {
    if options.explain.is_none() {
        return Ok(String::new(alloc));
    }
    let (roots, prelude) = (options.roots.as_slice(), options.prelude.as_ref());
    let about = about_folder(alloc, folder, roots, prelude)?;
    if about.is_empty() && error == ServeError::BadDir {
        let dir = shown(alloc, dir)?;
        return format!(in alloc; "  the folder is `{dir}`\n");
    }
    Ok(about)
}

/// Writes the report of the files of a folder, or says why there is none. The loaders are threads of `threads`.
fn report_folder<H: Threads + Wait + Sync>(
    rt: &HostRuntime,
    threads: &H,
    alloc: Global,
    dir: &str,
    options: &Options,
) -> Result<bool, ServeError>
    requires loaders { (1 ≤ options.now.loaders) × (options.now.loaders ≤ 64) }
    requires steps { (1 ≤ options.now.mode.steps) × (options.now.mode.steps ≤ 100000000) }
{
    let disk = SystemDisk::new(rt);
    let mut folder = DiskFolder::new(&disk, dir);
    let mut streams = Streams::of(rt, options);
    let (report, said) = (&mut streams.report, &mut streams.said);
    let outcome = serve_dir(threads, alloc, &mut folder, report, said, options);
    let outcome = outcome.and_then(|all_ok| streams.ended(all_ok));
    if let Err(error) = &outcome {
        let about = about_files(alloc, &mut folder, dir, options, *error);
        say_refusal(rt, *error, about);
    }
    outcome
}

/// Writes the report, or says why there is none, and answers with the status. The loaders are threads of `threads`.
fn report<H: Threads + Wait + Sync>(
    rt: &HostRuntime,
    threads: &H,
    alloc: Global,
    matches: &ArgMatches<'_>,
    options: Options,
) -> u8
    requires loaders { (1 ≤ options.loaders) × (options.loaders ≤ 64) }
    requires steps { (1 ≤ options.mode.steps) × (options.mode.steps ≤ 100000000) }
{
    if options.trace && is_for_tools(&options) {
        return refused(
            rt,
            "`--trace` does not go with `--explain=github` and `--explain=sarif`",
        );
    }
    match RepoAsked::of(alloc, matches) {
        Ok(None) => {}
        Ok(Some(asked)) => return report_repo(rt, threads, alloc, &asked, options),
        Err(_) => return refused(rt, ServeError::Memory.text()),
    }
    let outcome = match &options.dir {
        Some(dir) => report_folder(rt, threads, alloc, dir.as_str(), &options),
        None => report_bundle(rt, threads, alloc, &options),
    };
    status(&outcome)
}

/// The facts about standard error. (https://no-color.org says what `NO_COLOR` means.)
fn errors_of(rt: &HostRuntime) -> Errors {
    let is_plain = match env::var(rt, "NO_COLOR") {
        Ok(value) => !value.is_empty(),
        Err(_) => false,
    };
    let is_dumb = match env::var(rt, "TERM") {
        Ok(value) => value.as_str() == "dumb",
        Err(_) => false,
    };
    Errors {
        is_terminal: rt.stderr().is_terminal(),
        is_plain,
        is_dumb,
    }
}

/// The options that the words of the command line give, with the further roots; or says why there are none.
fn asked_options(
    rt: &HostRuntime,
    alloc: Global,
    matches: &ArgMatches<'_>,
    errors: Errors,
) -> Option<Options>
    ensures loaders { IfSome result (λ o. (1 ≤ o.loaders) × (o.loaders ≤ 64)) }
    ensures steps { IfSome result (λ o. (1 ≤ o.mode.steps) × (o.mode.steps ≤ 100000000)) }
{
    let Ok(mut options) = options(alloc, matches, errors) else {
        refused(rt, ServeError::Memory.text());
        return None;
    };
    if is_recorded(matches) && options.mode.language.dialect == Dialect::Core {
        refused(rt, "`--record` needs `--language extended`");
        return None;
    }
    options.seed = seed_of(rt);
    let mut further = match further_roots(rt, alloc, matches) {
        Ok(roots) => roots,
        Err(error) => {
            say_no_roots(rt, matches, &error);
            return None;
        }
    };
    if options.roots.append(&mut further).is_err() {
        refused(rt, ServeError::Memory.text());
        return None;
    }
    Some(options)
}

fn main(rt: HostRuntime) -> ExitCode {
    let alloc = rt.alloc();
    let words = match words(&rt) {
        Ok(words) => words,
        Err(text) => return refuse(&rt, text),
    };
    let command = match command(alloc) {
        Ok(command) => command,
        Err(error) => return say(&rt, &error),
    };
    if let Some(asked) = asked_help(words.as_slice()) {
        return help(&rt, command, asked);
    }
    let matches = match command.try_get_matches_from(words.as_slice()) {
        Ok(matches) => matches,
        Err(error) => return say(&rt, &error),
    };
    if let Some(code) = matches.get_str("explain-code") {
        return explain_code(&rt, code);
    }
    if matches.get_flag("join") {
        return join::join_reports(&rt, alloc, &matches);
    }
    let errors = errors_of(&rt);
    if is_listed(&matches) && matches.get_str("repo").is_none() {
        return refuse(&rt, "`--graph=json` goes with `--repo`");
    }
    let Some(mut options) = asked_options(&rt, alloc, &matches, errors) else {
        return ExitCode::from(2);
    };
    if let (true, Some(asked)) = (matches.get_flag("lsp"), FolderAsked::of(&matches)) {
        return serve_lsp(&rt, &rt, alloc, options, asked);
    }
    if matches.get_flag("requests") {
        let keep = matches.get_one::<u32>("keep").unwrap_or(268_435_456);
        let asked = FolderAsked::of(&matches);
        return answer_requests(&rt, &rt, alloc, options, keep, asked);
    }
    let shown = Shown::start(&rt, &rt, alloc, is_shown(&matches, errors));
    options.progress = Shown::progress(shown.as_ref());
    let status = report(&rt, &rt, alloc, &matches, options);
    if let Some(shown) = shown {
        shown.end(&rt);
    }
    ExitCode::from(exit_status(&matches, status))
}
