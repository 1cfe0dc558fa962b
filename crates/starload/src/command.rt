//! The command line: its arguments as `clap` reads them, and the options that they give.

ghost use Rattle.std.specs.Prelude.{[], ◌≡◌, ◌≤◌, true, false, None, Some, IfOk, IfSome, codes, map, option_map, string_bytes};
ghost use Rattle.clap.specs.Matches.{first_value, found_of, one_text};
ghost use Rattle.star_report.specs.declared.wanted.Output.TheVariants as Output;
ghost use Rattle.starload.specs.Options as spec;

use clap::{Arg, ArgAction, ArgMatches, Command, value_parser};
use star_dialect::{Dialect, Language, Mode, Recorded};
use star_mistakes::place::Naming;
use star_serve::serve::{Form, Options, Output, Style, Wanted};
use std::alloc::{AllocError, Global};

/// The words of `--version` after the program's name: its version, and the kit that proved it.
const VERSION: &str = "1.12.0 (rattle-kit-13f logic dac8208d650f15bf)";

/// The end of the help, after the options.
const EXAMPLE: &str =
    "The files are those of DIR whose names end in .star; //app:main.star is the file app/main.star. Without
--dir or --repo they are read on standard input, as a JSON object from labels to texts. For example:

    starload --dir . //app:main.star
    echo '{\"//:a.star\": \"x = 1 + 2\"}' | starload //:a.star

The report is one line of JSON on standard output. The exit status is 0 where every file is ok, 1 where some
file is not, and 2 where there is no report; then standard error says why.";

/// The words that `--with` may have.
const MORE: &[&str] = &["values", "loads", "steps"];

/// An option that takes a value, which the help calls so.
fn valued_arg<'a>(alloc: Global, name: &'a str, value: &'a str) -> Arg<'a> {
    Arg::new(alloc, name).long(name).value_name(value)
}

/// An option that is given or not.
fn flag_arg<'a>(alloc: Global, name: &'a str) -> Arg<'a> {
    Arg::new(alloc, name).long(name).action(ArgAction::SetTrue)
}

/// An option that says when something is shown: always, if it has no value, and as seems best, if it is not given.
fn when_arg<'a>(alloc: Global, name: &'a str, words: &'a [&'a str]) -> Arg<'a> {
    valued_arg(alloc, name, "WHEN")
        .value_parser(words)
        .num_args(0..=1)
        .require_equals(true)
        .default_value("auto")
        .default_missing_value("always")
}

fn loaders_arg<'a>(alloc: Global) -> Arg<'a> {
    valued_arg(alloc, "loaders", "N")
        .help("How many files are loaded at once, from 1 to 64; the report does not depend on it")
        .value_parser(value_parser!(u8).range(1..=64))
        .default_value("4")
}

fn prelude_arg<'a>(alloc: Global) -> Arg<'a> {
    valued_arg(alloc, "prelude", "LABEL").help(
        "The file whose names every other file sees without loading it",
    )
}

fn trace_arg<'a>(alloc: Global) -> Arg<'a> {
    flag_arg(alloc, "trace").help(
        "Says on standard error which loads were refused since they lie on a cycle",
    )
}

fn dir_arg<'a>(alloc: Global) -> Arg<'a> {
    valued_arg(alloc, "dir", "DIR").help(
        "The folder that has the files; standard input is not read then",
    )
}

fn steps_arg<'a>(alloc: Global) -> Arg<'a> {
    valued_arg(alloc, "steps", "N")
        .help("How many steps each file may take, from 1 to 100000000")
        .value_parser(value_parser!(u32).range(1..=100_000_000))
        .default_value("1000000")
}

/// The words that `--language` may have.
const LANGUAGES: &[&str] = &["core", "extended"];

fn language_arg<'a>(alloc: Global) -> Arg<'a> {
    valued_arg(alloc, "language", "LANGUAGE")
        .help("The language of the files: core, or extended, which has more")
        .value_parser(LANGUAGES)
        .default_value("core")
}

fn record_arg<'a>(alloc: Global) -> Arg<'a> {
    valued_arg(alloc, "record", "NAME")
        .help(
            "With --language extended: a further name, of a function whose calls the report has as JSON",
        )
        .value_delimiter(',')
        .action(ArgAction::Append)
}

fn repo_arg<'a>(alloc: Global) -> Result<Arg<'a>, AllocError> {
    valued_arg(alloc, "repo", "DIR")
        .help(
            "The folder whose files are read as they are loaded, whatever their names; a ROOT may be a path then",
        )
        .conflicts_with("dir")
}

fn match_arg<'a>(alloc: Global) -> Result<Arg<'a>, AllocError> {
    valued_arg(alloc, "match", "GLOB")
        .help(
            "Which names //app/... stands for, where * is any text and ? one byte [default: *.star]",
        )
        .requires_arg("repo")?
        .conflicts_with("dir")
}

fn exclude_arg<'a>(alloc: Global) -> Result<Arg<'a>, AllocError> {
    valued_arg(alloc, "exclude", "GLOB")
        .help(
            "Leaves out of //app/... what has this name, or, where GLOB has a /, this path below DIR; of a folder all of it",
        )
        .action(ArgAction::Append)
        .requires_arg("repo")?
        .conflicts_with("dir")
}

fn keep_going_arg<'a>(alloc: Global) -> Result<Arg<'a>, AllocError> {
    flag_arg(alloc, "keep-going")
        .help(
            "Leaves out of //app/..., and tells on standard error, which files are no text, too long or cannot be read; the exit status is 1 then",
        )
        .requires_arg("repo")?
        .conflicts_with("dir")
}

/// The words that `--links` may have.
const LINKS: &[&str] = &["inside", "anywhere", "none"];

fn links_arg<'a>(alloc: Global) -> Result<Arg<'a>, AllocError> {
    valued_arg(alloc, "links", "WHICH")
        .help(
            "Which links are followed below the folder of --repo: inside (those that lead to a file of it), anywhere or none",
        )
        .value_parser(LINKS)
        .default_value("inside")
        .conflicts_with("dir")
}

fn code_arg<'a>(alloc: Global) -> Arg<'a> {
    valued_arg(alloc, "explain-code", "CODE").help(
        "Says what a code of a fault means, or `all` of them, and loads nothing",
    )
}

/// The words that `--explain` may have.
const WHEN: &[&str] = &["auto", "always", "never", "all", "github", "sarif"];

fn explain_arg<'a>(alloc: Global) -> Arg<'a> {
    when_arg(alloc, "explain", WHEN).help(
        "Says on standard error, after the report, what is at fault and where: auto (where that is a terminal), always, never, or all (however many there are); github and sarif write it for tools, on standard output and in place of the report",
    )
}

/// The words that `--color` and `--progress` may have.
const CHOICES: &[&str] = &["auto", "always", "never"];

fn color_arg<'a>(alloc: Global) -> Arg<'a> {
    valued_arg(alloc, "color", "WHEN")
        .help(
            "Colours what --explain says: auto (where standard error is a terminal and NO_COLOR is not set), always or never",
        )
        .value_parser(CHOICES)
        .default_value("auto")
}

fn progress_arg<'a>(alloc: Global) -> Arg<'a> {
    when_arg(alloc, "progress", CHOICES).help(
        "Shows on standard error, once files have run for half a second, how many have: auto (where that is a terminal), always or never",
    )
}

fn with_arg<'a>(alloc: Global) -> Arg<'a> {
    valued_arg(alloc, "with", "WHAT")
        .help("What the report says more of each file: values (its globals as JSON), loads, steps")
        .value_parser(MORE)
        .value_delimiter(',')
        .action(ArgAction::Append)
}

fn only_roots_arg<'a>(alloc: Global) -> Arg<'a> {
    flag_arg(alloc, "only-roots").help("Of the files that are ok, reports the roots alone")
}

fn get_arg<'a>(alloc: Global) -> Result<Arg<'a>, AllocError> {
    valued_arg(alloc, "get", "NAME")
        .help("In place of the report writes the global NAME of each root as a line of JSON")
        .conflicts_with("graph")?
        .conflicts_with("with")?
        .conflicts_with("only-roots")
}

fn get_calls_arg<'a>(alloc: Global) -> Result<Arg<'a>, AllocError> {
    valued_arg(alloc, "get-calls", "NAME")
        .help(
            "In place of the report writes each call of NAME that a root recorded as a line of JSON",
        )
        .requires_arg("record")?
        .conflicts_with("get")?
        .conflicts_with("graph")?
        .conflicts_with("check")?
        .conflicts_with("with")?
        .conflicts_with("only-roots")?
        .conflicts_with("report-status")
}

/// The words that `--graph` may have.
const GRAPHS: &[&str] = &["dot", "json"];

fn graph_arg<'a>(alloc: Global) -> Result<Arg<'a>, AllocError> {
    valued_arg(alloc, "graph", "FORM")
        .help(
            "In place of the report writes the graph of loads: dot, which is for Graphviz, or json, with --repo alone: a line for each file, and nothing runs",
        )
        .value_parser(GRAPHS)
        .num_args(0..=1)
        .require_equals(true)
        .default_missing_value("dot")
        .conflicts_with("with")?
        .conflicts_with("only-roots")
}

fn check_arg<'a>(alloc: Global) -> Result<Arg<'a>, AllocError> {
    flag_arg(alloc, "check")
        .help(
            "Reads the files and runs none: in place of the report writes which have static faults, and which fail by their loads",
        )
        .conflicts_with("with")?
        .conflicts_with("get")?
        .conflicts_with("graph")?
        .conflicts_with("trace")
}

fn requests_arg<'a>(alloc: Global) -> Result<Arg<'a>, AllocError> {
    flag_arg(alloc, "requests")
        .help(
            "Answers requests on standard input, one JSON object a line, until it ends (docs/REQUESTS.md)",
        )
        .conflicts_with("ROOT")?
        .conflicts_with("dir")?
        .conflicts_with("match")?
        .conflicts_with("exclude")?
        .conflicts_with("keep-going")?
        .conflicts_with("get")?
        .conflicts_with("get-calls")?
        .conflicts_with("graph")?
        .conflicts_with("check")?
        .conflicts_with("trace")?
        .conflicts_with("explain")?
        .conflicts_with("progress")
}

fn lsp_arg<'a>(alloc: Global) -> Result<Arg<'a>, AllocError> {
    flag_arg(alloc, "lsp")
        .help(
            "Speaks the Language Server Protocol with an editor about the files of --repo (docs/EDITORS.md)",
        )
        .requires_arg("repo")?
        .conflicts_with("ROOT")?
        .conflicts_with("match")?
        .conflicts_with("exclude")?
        .conflicts_with("keep-going")?
        .conflicts_with("with")?
        .conflicts_with("only-roots")?
        .conflicts_with("get")?
        .conflicts_with("get-calls")?
        .conflicts_with("graph")?
        .conflicts_with("check")?
        .conflicts_with("trace")?
        .conflicts_with("explain")?
        .conflicts_with("progress")?
        .conflicts_with("requests")?
        .conflicts_with("roots-from")?
        .conflicts_with("report-status")
}

fn join_arg<'a>(alloc: Global) -> Result<Arg<'a>, AllocError> {
    flag_arg(alloc, "join")
        .help(
            "Joins the reports on standard input, one a line, to the report of all their roots; takes ROOT only with --only-roots",
        )
        .conflicts_with("repo")?
        .conflicts_with("dir")?
        .conflicts_with("prelude")?
        .conflicts_with("with")?
        .conflicts_with("record")?
        .conflicts_with("get")?
        .conflicts_with("graph")?
        .conflicts_with("check")?
        .conflicts_with("trace")?
        .conflicts_with("requests")?
        .conflicts_with("lsp")
}

// (`requires_arg` would be met by the default of a flag.)
fn keep_arg<'a>(alloc: Global) -> Result<Arg<'a>, AllocError> {
    valued_arg(alloc, "keep", "BYTES")
        .help("The most bytes of texts of which anything is kept from request to request")
        .value_parser(value_parser!(u32))
        .default_value("268435456")
        .conflicts_with("ROOT")
}

fn roots_from_arg<'a>(alloc: Global) -> Result<Arg<'a>, AllocError> {
    valued_arg(alloc, "roots-from", "FILE")
        .help(
            "A file with further roots, one a line; lines that are empty or begin with # have none",
        )
        .conflicts_with("requests")?
        .conflicts_with("join")
}

fn report_status_arg<'a>(alloc: Global) -> Result<Arg<'a>, AllocError> {
    flag_arg(alloc, "report-status")
        .help("The exit status is 0 if there is a report, also if some file is not ok")
        .conflicts_with("get")?
        .conflicts_with("requests")?
        .conflicts_with("join")
}

fn roots_arg<'a>(alloc: Global) -> Result<Arg<'a>, AllocError> {
    Arg::new(alloc, "ROOT")
        .help("The labels of the files to load, such as //app:main.star")
        .action(ArgAction::Append)
        .required_unless_present("roots-from")?
        .required_unless_present("explain-code")?
        .required_unless_present("requests")?
        .required_unless_present("lsp")?
        .required_unless_present("join")
}

/// Adds the options of a run and of its files.
fn with_input<'a>(alloc: Global, command: Command<'a>) -> Result<Command<'a>, AllocError> {
    command
        .arg(loaders_arg(alloc))?
        .arg(steps_arg(alloc))?
        .arg(language_arg(alloc))?
        .arg(record_arg(alloc))?
        .arg(prelude_arg(alloc))?
        .arg(trace_arg(alloc))?
        .arg(dir_arg(alloc))?
        .arg(repo_arg(alloc)?)?
        .arg(match_arg(alloc)?)?
        .arg(exclude_arg(alloc)?)?
        .arg(keep_going_arg(alloc)?)?
        .arg(links_arg(alloc)?)?
        .arg(roots_from_arg(alloc)?)
}

/// Adds the options of the output.
fn with_output<'a>(alloc: Global, command: Command<'a>) -> Result<Command<'a>, AllocError> {
    command
        .arg(with_arg(alloc))?
        .arg(only_roots_arg(alloc))?
        .arg(get_arg(alloc)?)?
        .arg(get_calls_arg(alloc)?)?
        .arg(graph_arg(alloc)?)?
        .arg(check_arg(alloc)?)?
        .arg(explain_arg(alloc))?
        .arg(color_arg(alloc))?
        .arg(progress_arg(alloc))?
        .arg(report_status_arg(alloc)?)?
        .arg(code_arg(alloc))
}

/// Adds the options of requests, of editors and of joins, and the roots.
fn with_requests<'a>(alloc: Global, command: Command<'a>) -> Result<Command<'a>, AllocError> {
    command
        .arg(requests_arg(alloc)?)?
        .arg(keep_arg(alloc)?)?
        .arg(lsp_arg(alloc)?)?
        .arg(join_arg(alloc)?)?
        .arg(roots_arg(alloc)?)
}

/// The command line.
pub fn command<'a>(alloc: Global) -> Result<Command<'a>, clap::Error> {
    let command = Command::new(alloc, "starload")
        .about(
            "Loads Starlark files and reports the globals, the printed lines or the fault of each",
        )
        .version(VERSION)
        .after_help(EXAMPLE);
    let command = with_input(alloc, command)?;
    let command = with_output(alloc, command)?;
    Ok(with_requests(alloc, command)?)
}

/// Words as texts of their own.
fn texts(alloc: Global, words: &[&str]) -> Result<Vec<String>, AllocError>
    ensures { IfOk result (λ v. map string_bytes v.items ≡ map (λ w. w.now) words.now) }
{
    let mut texts = Vec::new(alloc);
    for word in words {
        texts.push(String::from_str(alloc, *word)?)?;
    }
    Ok(texts)
}

/// The values of an argument, in their order.
pub(crate) fn values_of(
    alloc: Global,
    matches: &ArgMatches<'_>,
    id: &str,
) -> Result<Vec<String>, AllocError>
    ensures { IfOk result (λ v. map string_bytes v.items ≡ spec.values_of matches.now id.now) }
{
    match matches.get_strs(id) {
        Some(words) => texts(alloc, words),
        None => Ok(Vec::new(alloc)),
    }
}

/// The first value of an argument, where it has one.
fn value_of(alloc: Global, matches: &ArgMatches<'_>, id: &str) -> Result<Option<String>, AllocError>
    ensures { IfOk result (λ v. option_map string_bytes v ≡ first_value (found_of matches.now) id.now) }
{
    match matches.get_str(id) {
        Some(word) => Ok(Some(String::from_str(alloc, word)?)),
        None => Ok(None),
    }
}

/// Whether an argument has this value among its own.
fn is_named(matches: &ArgMatches<'_>, id: &str, value: &str) -> bool
    ensures { result ≡ spec.is_named matches.now id.now value.now }
{
    match matches.get_strs(id) {
        Some(words) => has_word(words, value),
        None => false,
    }
}

/// Whether the graph of loads is wanted in lines of JSON, by `--graph`.
pub fn is_listed(matches: &ArgMatches<'_>) -> bool
    ensures { result ≡ spec.is_named matches.now (codes "graph") (codes "json") }
{
    is_named(matches, "graph", "json")
}

/// Whether a word is one of these.
fn has_word(words: &[&str], value: &str) -> bool
    ensures { result ≡ spec.has_word value.now (map (λ w. w.now) words.now) }
{
    for word in words {
        if *word == value {
            return true;
        }
    }
    false
}

/// Whether calls are recorded, by `--record`.
pub fn is_recorded(matches: &ArgMatches<'_>) -> bool
    ensures { result ≡ spec.is_recorded matches.now }
{
    matches.get_str("record").is_some()
}

/// The further members of each module that the words of the command line want, and whether they want the roots alone.
fn wanted(matches: &ArgMatches<'_>) -> Wanted
    ensures values { result.values ≡ spec.is_named matches.now (codes "with") (codes "values") }
    ensures loads { result.loads ≡ spec.is_named matches.now (codes "with") (codes "loads") }
    ensures steps { result.steps ≡ spec.is_named matches.now (codes "with") (codes "steps") }
    ensures calls { result.calls ≡ spec.is_recorded matches.now }
    ensures only_roots { spec.HasFlag matches.now (codes "only-roots") → (result.only_roots ≡ true) }
    ensures all { spec.LacksFlag matches.now (codes "only-roots") → (result.only_roots ≡ false) }
{
    Wanted {
        values: is_named(matches, "with", "values"),
        loads: is_named(matches, "with", "loads"),
        steps: is_named(matches, "with", "steps"),
        calls: is_recorded(matches),
        only_roots: matches.get_flag("only-roots"),
    }
}

/// The kind of text that the words of the command line want: the graph, the check, or the globals of a name, or else the
/// report.
fn output(alloc: Global, matches: &ArgMatches<'_>) -> Result<Output, AllocError>
    ensures graph { IfOk result (λ o. spec.is_drawn matches.now ≡ true → (o ≡ Output.Graph)) }
    ensures check { IfOk result (λ o. spec.is_drawn matches.now ≡ false
        → spec.HasFlag matches.now (codes "check") → spec.IsCheckFor matches.now o) }
    ensures other { IfOk result (λ o. spec.is_drawn matches.now ≡ false
        → spec.LacksFlag matches.now (codes "check") → spec.IsOtherOutput matches.now o) }
{
    if is_named(matches, "graph", "dot") {
        return Ok(Output::Graph);
    }
    if matches.get_flag("check") {
        let only_roots = matches.get_flag("only-roots");
        let calls = is_recorded(matches);
        return Ok(Output::Check { only_roots, calls });
    }
    if let Some(name) = value_of(alloc, matches, "get-calls")? {
        return Ok(Output::Calls(name));
    }
    match value_of(alloc, matches, "get")? {
        Some(name) => Ok(Output::Global(name)),
        None => Ok(Output::Report(wanted(matches))),
    }
}

/// The facts about standard error that decide what is shown there.
#[derive(Clone, Copy, Debug, PartialEq, Eq)]
pub struct Errors {
    /// It is a terminal.
    pub is_terminal: bool,
    /// No colours are wanted there, as the environment says.
    pub is_plain: bool,
    /// It is a terminal that cannot write one line over another, as the environment says.
    pub is_dumb: bool,
}

/// Whether there are colours, by `--color`, and of itself on a terminal where the environment has nothing against it.
fn is_colored(matches: &ArgMatches<'_>, errors: Errors) -> bool
    ensures { result ≡ spec.is_colored matches.now errors }
{
    is_named(matches, "color", "always")
        || (is_named(matches, "color", "auto") && errors.is_terminal && !errors.is_plain)
}

/// Whether a person is shown how far the run is, by `--progress`, and of itself on a terminal that can write one line
/// over another.
pub fn is_shown(matches: &ArgMatches<'_>, errors: Errors) -> bool
    ensures { result ≡ spec.is_shown matches.now errors }
{
    is_named(matches, "progress", "always")
        || (is_named(matches, "progress", "auto") && errors.is_terminal && !errors.is_dumb)
}

/// For whom the text on faults is, by `--explain`.
fn style_of(matches: &ArgMatches<'_>) -> Style {
    if is_named(matches, "explain", "github") {
        Style::Github
    } else if is_named(matches, "explain", "sarif") {
        Style::Sarif
    } else {
        Style::Text
    }
}

/// How files are named: by their paths for tools, and if a folder has them.
fn naming_of(matches: &ArgMatches<'_>, style: Style) -> Naming {
    let has_folder = matches.get_str("dir").is_some() || matches.get_str("repo").is_some();
    if has_folder || style != Style::Text {
        Naming::Paths
    } else {
        Naming::Labels
    }
}

/// Whether the text on faults is for tools, by `--explain`.
fn is_for_tools(matches: &ArgMatches<'_>) -> bool
    ensures { result ≡ spec.is_for_tools matches.now }
{
    is_named(matches, "explain", "github") || is_named(matches, "explain", "sarif")
}

/// Whether all that is at fault is told, by `--explain`: tools are told all.
fn is_whole(matches: &ArgMatches<'_>) -> bool
    ensures { result ≡ spec.is_whole matches.now }
{
    is_named(matches, "explain", "all") || is_for_tools(matches)
}

/// Whether a text on faults is wanted, by `--explain`, and of itself on a terminal.
fn is_told(matches: &ArgMatches<'_>, errors: Errors) -> bool
    ensures { result ≡ spec.is_told matches.now errors }
{
    is_whole(matches)
        || is_named(matches, "explain", "always")
        || (errors.is_terminal && is_named(matches, "explain", "auto"))
}

/// The form of the text on faults, by `--explain` and by whether standard error is a terminal.
fn form_of(matches: &ArgMatches<'_>, errors: Errors) -> Option<Form>
    ensures colored { IfSome result (λ f. f.is_colored ≡ spec.is_colored matches.now errors) }
    ensures none { spec.is_told matches.now errors ≡ false → result ≡ None }
{
    if !is_told(matches, errors) {
        return None;
    }
    let style = style_of(matches);
    Some(Form {
        style,
        naming: naming_of(matches, style),
        is_whole: is_whole(matches),
        is_colored: is_colored(matches, errors),
    })
}

/// The exit status: that of the answer, but with `--report-status` 0 in place of 1.
pub fn exit_status(matches: &ArgMatches<'_>, status: u8) -> u8
    ensures reported { spec.HasFlag matches.now (codes "report-status") → (result ≡ spec.report_status status) }
    ensures other { spec.LacksFlag matches.now (codes "report-status") → (result ≡ status) }
{
    if status == 1 && matches.get_flag("report-status") {
        0
    } else {
        status
    }
}

/// The dialect that the word after `--language` names: the core language, if there is none.
fn dialect(matches: &ArgMatches<'_>) -> Dialect
    ensures { result ≡ spec.dialect_of matches.now }
{
    if is_named(matches, "language", "extended") {
        Dialect::Extended
    } else {
        Dialect::Core
    }
}

/// Words as names whose calls are recorded, each once.
fn each_once(alloc: Global, words: &[&str]) -> Result<Recorded, AllocError>
    ensures { IfOk result (λ names. names ≡ spec.each_once [] (map (λ w. w.now) words.now)) }
{
    let mut recorded = Recorded::none(alloc);
    for word in words {
        recorded.add(alloc, *word)?;
    }
    Ok(recorded)
}

/// The names after `--record`, each once.
fn recorded(alloc: Global, matches: &ArgMatches<'_>) -> Result<Recorded, AllocError>
    ensures { IfOk result (λ names. names ≡ spec.recorded_of matches.now) }
{
    match matches.get_strs("record") {
        Some(words) => each_once(alloc, words),
        None => Ok(Recorded::none(alloc)),
    }
}

/// The options that the words of the command line give: the roots in their order, and nothing that shows how far the run
/// is. `Memory` if an allocation failed.
pub fn options(
    alloc: Global,
    matches: &ArgMatches<'_>,
    errors: Errors,
) -> Result<Options, AllocError>
    ensures loaders { IfOk result (λ o. (1 ≤ o.loaders) × (o.loaders ≤ 64)) }
    ensures steps { IfOk result (λ o. (1 ≤ o.mode.steps) × (o.mode.steps ≤ 100000000)) }
    ensures loaders_given { IfOk result (λ o.
        spec.IsNumberOf (one_text (found_of matches.now) (codes "loaders")) 1 64 4 o.loaders) }
    ensures steps_given { IfOk result (λ o.
        spec.IsNumberOf (one_text (found_of matches.now) (codes "steps")) 1 100000000 1000000 o.mode.steps) }
    ensures language { IfOk result (λ o. o.mode.language ≡ spec.language_of matches.now) }
    ensures roots { IfOk result (λ o. map string_bytes o.roots.items ≡ spec.values_of matches.now (codes "ROOT")) }
    ensures prelude { IfOk result (λ o. option_map string_bytes o.prelude
        ≡ first_value (found_of matches.now) (codes "prelude")) }
    ensures dir { IfOk result (λ o. option_map string_bytes o.dir ≡ first_value (found_of matches.now) (codes "dir")) }
    ensures graph { IfOk result (λ o. spec.is_drawn matches.now ≡ true → (o.output ≡ Output.Graph)) }
    ensures check { IfOk result (λ o. spec.is_drawn matches.now ≡ false
        → spec.HasFlag matches.now (codes "check") → spec.IsCheckFor matches.now o.output) }
    ensures other { IfOk result (λ o. spec.is_drawn matches.now ≡ false
        → spec.LacksFlag matches.now (codes "check") → spec.IsOtherOutput matches.now o.output) }
    ensures trace { IfOk result (λ o. spec.HasFlag matches.now (codes "trace") → (o.trace ≡ true)) }
    ensures no_trace { IfOk result (λ o. spec.LacksFlag matches.now (codes "trace") → (o.trace ≡ false)) }
    ensures unexplained { IfOk result (λ o. spec.is_told matches.now errors ≡ false → o.explain ≡ None) }
    ensures colored { IfOk result (λ o. IfSome o.explain (λ f. f.is_colored ≡ spec.is_colored matches.now errors)) }
    ensures unshown { IfOk result (λ o. o.progress ≡ None) }
{
    let loaders = usize::from(matches.get_one::<u8>("loaders").unwrap_or(4));
    let steps = matches.get_one::<u32>("steps").unwrap_or(1_000_000);
    Ok(Options {
        loaders: loaders.clamp(1, 64),
        mode: Mode {
            steps: steps.clamp(1, 100_000_000),
            language: Language {
                dialect: dialect(matches),
                recorded: recorded(alloc, matches)?,
            },
        },
        roots: values_of(alloc, matches, "ROOT")?,
        prelude: value_of(alloc, matches, "prelude")?,
        output: output(alloc, matches)?,
        trace: matches.get_flag("trace"),
        dir: value_of(alloc, matches, "dir")?,
        explain: form_of(matches, errors),
        progress: None,
        seed: 0,
    })
}
