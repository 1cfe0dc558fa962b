//! `--repo`: the report of the files that roots reach in a folder, and the labels that the words of the command line
//! name there.

ghost use Rattle.std.specs.Prelude.{◌≡◌, ◌≤◌, IfOk, IfSome, true};
ghost use Rattle.star_label.specs.Label.{is_package};

use crate::below::{Below, Roots, left_out, say_left_out};
use crate::command::{is_listed, values_of};
use crate::graph::print_graph;
use crate::streams::{Streams, is_for_tools};
use clap::ArgMatches;
use star_bundle::error::{ServeError, status};
use star_folder::system::SystemDisk;
use star_hint::missing::{about_apart, about_file, about_labels};
use star_label::error::LabelError;
use star_label::label::Label;
use star_repo::disk::DiskRepo;
use star_repo::error::RepoError;
use star_repo::top::{Links, Top};
use star_repo::wanting::{LoadAt, wanting};
use star_repo::watched::WatchedRepo;
use star_serve::repo::serve_repo;
use star_serve::serve::Options;
use star_tree::tree::Tree;
use star_words::named::asked_labels;
use star_words::pattern::{Apart, Filter, front_of};
use star_words::words::{label_of, label_of_word};
use std::alloc::{AllocError, AllocFailed, Global};
use std::collections::BTreeMap;
use std::mem::ManuallyDrop;
use std::sync::Wait;
use std::thread::Threads;
use std::{env, fs, io, slice};
use thiserror::Error;

/// The words of `--repo`, `--match`, `--exclude`, `--keep-going` and `--links`.
#[derive(Debug, Drop)]
pub(crate) struct RepoAsked {
    /// The folder.
    pub dir: String,
    /// Which names a word that ends in `...` asks for.
    pub pattern: String,
    /// The patterns of what such a word leaves out.
    pub left_out: Vec<String>,
    /// A file that such a word finds is left out if it cannot be one of a run.
    pub keeps_going: bool,
    /// Which links are followed.
    pub links: Links,
    /// What each file loads is wanted, and nothing runs.
    pub is_listed: bool,
}

/// Which links are followed, by the word after `--links`: those that lead to a file of the folder, if there is none.
pub(crate) fn links_of(matches: &ArgMatches<'_>) -> Links {
    let word = matches.get_str("links").unwrap_or("");
    if word == "anywhere" {
        Links::Anywhere
    } else if word == "none" {
        Links::Never
    } else {
        Links::Inside
    }
}

impl RepoAsked {
    /// The words of the command line, if they name such a folder.
    pub(crate) fn of(
        alloc: Global,
        matches: &ArgMatches<'_>,
    ) -> Result<Option<RepoAsked>, AllocError> {
        let Some(dir) = matches.get_str("repo") else {
            return Ok(None);
        };
        let pattern = matches.get_str("match").unwrap_or(PATTERN);
        Ok(Some(RepoAsked {
            dir: String::from_str(alloc, dir)?,
            pattern: String::from_str(alloc, pattern)?,
            left_out: values_of(alloc, matches, "exclude")?,
            keeps_going: matches.get_flag("keep-going"),
            links: links_of(matches),
            is_listed: is_listed(matches),
        }))
    }

    /// Where the folder is.
    fn top<'p>(&'p self, place: &'p Place) -> Top<'p> {
        Top {
            path: self.dir.as_str(),
            real: place.top.as_str(),
            links: self.links,
        }
    }
}

/// Which names a word that ends in `...` asks for without `--match`.
const PATTERN: &str = "*.star";

/// Where the folder lies, and where the program was called.
#[derive(Drop)]
struct Place {
    /// The path of the folder, without links.
    top: String,
    /// A label of the folder that the program was called in: its package is `here`. None where no label names a file
    /// there.
    here: Option<Label>,
}

/// The rest of a path below a folder: `None` if it does not lead there.
fn below<'a>(top: &str, path: &'a str) -> Option<&'a str> {
    let rest = path.strip_prefix(top)?;
    if rest == "" || top.ends_with('/') {
        return Some(rest);
    }
    rest.strip_prefix('/')
}

/// A path as text: an error where it is not UTF-8.
fn path_text(alloc: Global, path: Option<&str>) -> io::Result<String> {
    match path {
        Some(text) => Ok(String::from_str(alloc, text)?),
        None => Err(io::Error::from(io::ErrorKind::InvalidData)),
    }
}

/// Where a folder lies.
fn folder_place(rt: &HostRuntime, alloc: Global, dir: &str) -> io::Result<Place> {
    if !fs::metadata(rt, dir)?.is_dir() {
        return Err(io::Error::from(io::ErrorKind::NotADirectory));
    }
    let top = path_text(alloc, fs::canonicalize(rt, dir)?.to_str())?;
    let called = path_text(alloc, env::current_dir(rt)?.to_str())?;
    let folder = below(top.as_str(), called.as_str()).unwrap_or("");
    match label_of(alloc, folder, "x") {
        Ok(here) => Ok(Place { top, here }),
        Err(_) => Err(io::Error::from(io::ErrorKind::OutOfMemory)),
    }
}

/// A word, or the label of a file in the folder if the word is the absolute path of the file.
fn word_in(alloc: Global, place: &Place, word: &str) -> Result<String, LabelError> {
    if word.starts_with('/') {
        if let Some(rest) = below(place.top.as_str(), word) {
            if let Some(label) = label_of(alloc, "", rest)? {
                return Ok(String::from_str(alloc, label.text())?);
            }
        }
    }
    Ok(String::from_str(alloc, word)?)
}

/// Why there is no report.
#[derive(Debug, Drop, Error)]
pub(crate) enum Refusal {
    /// The reason of the run. If a message to a person is wanted, also the load statement that asks for the file that
    /// the reason names, and lines about that file.
    #[error("{error}")]
    Run {
        error: RepoError,
        load: Option<LoadAt>,
        about: Option<String>,
    },
    /// A word that names no label.
    #[error("{error}")]
    Word {
        error: ServeError,
        word: String,
    },
    /// A word that asks for files below a folder, where there is none.
    #[error("no file matches: {word}")]
    Unmatched {
        word: String,
    },
    /// The folder of `--repo`, if it cannot be listed, and why.
    #[error("cannot list the folder: {dir}: {error}")]
    Top {
        dir: String,
        error: io::Error,
    },
    /// A word that asks for files below a folder, if that or a folder below it cannot be listed.
    #[error("cannot list the folder: {word}")]
    Unlisted {
        word: String,
    },
}

impl From<RepoError> for Refusal {
    fn from(error: RepoError) -> Refusal {
        Refusal::Run {
            error,
            load: None,
            about: None,
        }
    }
}

impl From<ServeError> for Refusal {
    fn from(error: ServeError) -> Refusal {
        Refusal::from(RepoError::Run { error })
    }
}

impl From<AllocError> for Refusal {
    fn from(_error: AllocError) -> Refusal {
        Refusal::from(ServeError::Memory)
    }
}

impl<T: Drop> From<AllocFailed<T>> for Refusal {
    fn from(_error: AllocFailed<T>) -> Refusal {
        Refusal::from(ServeError::Memory)
    }
}

impl From<LabelError> for Refusal {
    fn from(_error: LabelError) -> Refusal {
        Refusal::from(ServeError::Memory)
    }
}

/// The refusal of a folder that cannot be listed.
fn no_top(alloc: Global, dir: &str, error: io::Error) -> Result<Refusal, AllocError> {
    if error.kind() == io::ErrorKind::OutOfMemory {
        return Ok(Refusal::from(ServeError::Memory));
    }
    let dir = String::from_str(alloc, dir)?;
    Ok(Refusal::Top { dir, error })
}

/// The package of the folder that the program was called in: none where no label names a file there.
fn here_of(place: &Place) -> Option<&str>
    ensures { IfSome result (λ here. is_package here.now ≡ true) }
{
    match &place.here {
        Some(label) => Some(label.package()),
        None => None,
    }
}

/// The label that a word names: an error of this kind where it names none.
fn label_named(
    alloc: Global,
    place: &Place,
    word: &str,
    bad: ServeError,
) -> Result<String, Refusal> {
    let text = word_in(alloc, place, word)?;
    let Some(here) = here_of(place) else {
        return Ok(text);
    };
    match label_of_word(alloc, here, text.as_str())? {
        Some(label) => Ok(String::from_str(alloc, label.text())?),
        None => Err(Refusal::Word {
            error: bad,
            word: text,
        }),
    }
}

/// The patterns of what words that ask for all files below a folder leave out: none if there is no such word.
fn left_out_by(
    rt: &HostRuntime,
    alloc: Global,
    asked: &RepoAsked,
    place: &Place,
    words: &[String],
) -> Result<Vec<String>, Refusal> {
    for word in words {
        if front_of(word.as_str()).is_some() {
            return left_out(rt, alloc, asked, asked.top(place));
        }
    }
    Ok(Vec::new(alloc))
}

/// The roots that words name.
fn roots_named(
    rt: &HostRuntime,
    alloc: Global,
    asked: &RepoAsked,
    place: &Place,
    words: &[String],
) -> Result<Roots, Refusal> {
    let left_out = left_out_by(rt, alloc, asked, place, words)?;
    let below = Below {
        top: asked.top(place),
        here: here_of(place).unwrap_or(""),
        filter: Filter {
            named: asked.pattern.as_str(),
            left_out: left_out.as_slice(),
        },
        keeps_going: asked.keeps_going,
    };
    let mut roots = Roots {
        labels: Vec::new(alloc),
        left_out: BTreeMap::new(alloc),
    };
    for word in words {
        let word = word.as_str();
        match front_of(word) {
            Some(front) => below.push(rt, alloc, word, front, &mut roots)?,
            None => roots
                .labels
                .push(label_named(alloc, place, word, ServeError::BadRoot)?)?,
        }
    }
    Ok(roots)
}

/// The options, with the labels that their words name.
fn with_labels(
    alloc: Global,
    place: &Place,
    options: Options,
    labels: Vec<String>,
) -> Result<Options, Refusal>
    requires loaders { (1 ≤ options.loaders) × (options.loaders ≤ 64) }
    requires steps { (1 ≤ options.mode.steps) × (options.mode.steps ≤ 100000000) }
    ensures loaders { IfOk result (λ o. (1 ≤ o.loaders) × (o.loaders ≤ 64)) }
    ensures steps { IfOk result (λ o. (1 ≤ o.mode.steps) × (o.mode.steps ≤ 100000000)) }
{
    let mut options = options;
    options.roots = labels;
    if let Some(word) = options.prelude.take() {
        let label = label_named(alloc, place, word.as_str(), ServeError::BadPrelude)?;
        options.prelude = Some(label);
    }
    Ok(options)
}

/// The load statement that asks for the file that a refusal names: none if no message to a person is wanted, or if the
/// file was asked for on the command line.
fn load_for<H: Wait>(
    rt: &HostRuntime,
    threads: &H,
    alloc: Global,
    top: Top<'_>,
    options: &Options,
    error: &RepoError,
) -> Option<LoadAt> {
    let RepoError::File { label, .. } = error else {
        return None;
    };
    if options.explain.is_none() {
        return None;
    }
    let words = asked_labels(alloc, options.roots.as_slice(), options.prelude.as_ref()).ok()?;
    // The process ends next, and the system takes back all of its memory at once.
    let trees: ManuallyDrop<boxcar::Vec<Tree>> = ManuallyDrop::new(boxcar::Vec::new(alloc).ok()?);
    let disk = SystemDisk::new(rt);
    let mut folder = DiskRepo::new(&disk, top);
    match wanting(threads, alloc, &mut folder, &*trees, words, label) {
        Ok(load) => load,
        Err(_) => None,
    }
}

/// Lines about the file that a refusal is about: none if no message to a person is wanted, or if the refusal is not
/// about a file.
fn about_for(
    rt: &HostRuntime,
    alloc: Global,
    top: Top<'_>,
    options: &Options,
    error: &RepoError,
) -> Option<String> {
    options.explain?;
    let disk = SystemDisk::new(rt);
    let mut folder = DiskRepo::new(&disk, top);
    match error {
        RepoError::File { label, error } if *error == ServeError::BadFile => {
            about_file(alloc, &mut folder, label).ok()?
        }
        RepoError::Run { error } if *error == ServeError::NoRoot => {
            about_labels(alloc, &mut folder, options.roots.as_slice()).ok()
        }
        RepoError::Run { error } if *error == ServeError::NoPrelude => {
            let prelude = options.prelude.as_ref()?;
            about_labels(alloc, &mut folder, slice::from_ref(prelude)).ok()
        }
        _ => None,
    }
}

/// Says which load statement asks for the file that cannot be had, and more about it.
fn say_more(rt: &HostRuntime, load: Option<&LoadAt>, about: Option<&String>) {
    if let Some(LoadAt { file, line }) = load {
        let _ = eprintln!(rt; "  loaded by {file}, line {line}");
    }
    if let Some(about) = about {
        let _ = eprint!(rt; "{about}");
    }
}

/// Says why there is no report, and more about it, if a message to a person is wanted.
fn say_refusal(rt: &HostRuntime, refusal: &Refusal, is_told: bool) {
    let _ = eprintln!(rt; "starload: {refusal}");
    match refusal {
        Refusal::Run { load, about, .. } => say_more(rt, load.as_ref(), about.as_ref()),
        Refusal::Word { word, .. } if is_told => {
            let _ = eprintln!(rt;
                "  `{word}` names no file below the folder: write a path, or a label //FOLDER:NAME"
            );
        }
        _ => {}
    }
}

/// Of how many labels that have no file a person is told that a link leads out of the folder.
fn most_told(options: &Options) -> usize {
    if options.explain.is_none() || is_for_tools(options) {
        0
    } else {
        10
    }
}

/// Says of labels that have no file why, by where their paths lead.
fn say_apart(rt: &HostRuntime, alloc: Global, labels: &[(Label, Apart)]) {
    for entry in labels {
        if let Ok(about) = about_apart(alloc, &entry.0, entry.1) {
            let _ = eprint!(rt; "{about}");
        }
    }
}

/// Writes what each file that the roots and the prelude reach loads. It answers whether all are there.
fn listed<H: Wait>(
    rt: &HostRuntime,
    waits: &H,
    alloc: Global,
    top: Top<'_>,
    options: &Options,
    are_all: bool,
) -> Result<bool, Refusal> {
    let labels = asked_labels(alloc, options.roots.as_slice(), options.prelude.as_ref())?;
    let disk = SystemDisk::new(rt);
    print_graph(rt, waits, alloc, &mut DiskRepo::new(&disk, top), labels)?;
    Ok(are_all)
}

/// Writes the report of the files that roots reach in a folder, and says before it which files were found and are left
/// out. It answers whether every module of the report is ok and no file is left out. The loaders are threads of
/// `threads`.
fn reported<H: Threads + Wait + Sync>(
    rt: &HostRuntime,
    threads: &H,
    alloc: Global,
    asked: &RepoAsked,
    options: Options,
) -> Result<bool, Refusal>
    requires loaders { (1 ≤ options.loaders) × (options.loaders ≤ 64) }
    requires steps { (1 ≤ options.mode.steps) × (options.mode.steps ≤ 100000000) }
{
    let place = match folder_place(rt, alloc, asked.dir.as_str()) {
        Ok(place) => place,
        Err(error) => return Err(no_top(alloc, asked.dir.as_str(), error)?),
    };
    let Roots { labels, left_out } = roots_named(
        rt,
        alloc,
        asked,
        &place,
        options.roots.as_slice(),
    )?;
    let options = with_labels(alloc, &place, options, labels)?;
    say_left_out(rt, &left_out);
    let top = asked.top(&place);
    if asked.is_listed {
        return listed(rt, threads, alloc, top, &options, left_out.is_empty());
    }
    let most = most_told(&options);
    let disk = SystemDisk::new(rt);
    let mut folder = WatchedRepo::new(alloc, DiskRepo::new(&disk, top), most);
    let mut streams = Streams::of(rt, &options);
    let (report, said) = (&mut streams.report, &mut streams.said);
    match serve_repo(threads, alloc, &mut folder, report, said, &options) {
        Ok(all_ok) => {
            say_apart(rt, alloc, folder.apart());
            Ok(streams.ended(all_ok && left_out.is_empty())?)
        }
        Err(error) => {
            let load = load_for(rt, threads, alloc, top, &options, &error);
            let about = about_for(rt, alloc, top, &options, &error);
            Err(Refusal::Run { error, load, about })
        }
    }
}

/// Writes the report of the files that roots reach in a folder, or says why there is none.
pub(crate) fn report_repo<H: Threads + Wait + Sync>(
    rt: &HostRuntime,
    threads: &H,
    alloc: Global,
    asked: &RepoAsked,
    options: Options,
) -> u8
    requires loaders { (1 ≤ options.loaders) × (options.loaders ≤ 64) }
    requires steps { (1 ≤ options.mode.steps) × (options.mode.steps ≤ 100000000) }
{
    let is_told = options.explain.is_some();
    match reported(rt, threads, alloc, asked, options) {
        Ok(all_ok) => status(&Ok(all_ok)),
        Err(refusal) => {
            say_refusal(rt, &refusal, is_told);
            2
        }
    }
}
