//! `starload help TOPIC`: the pages of the help.

use star_explain::pages::{PAGES, Page};
use std::io;

/// The end of the help: the topics.
const TOPICS: &str =
    "More: starload help options, starload help language, starload help codes, starload help requests";

const OPTIONS: &str = "starload [OPTION ..] ROOT ..

Where the files are
  (none)              standard input has a bundle, a JSON object from labels to texts
  --dir DIR           all files below DIR whose names end in .star
  --repo DIR          those files below DIR that the roots reach, whatever their names
  --prelude LABEL     the file whose names every other file sees without loading it
  --roots-from FILE   further roots, one a line

A root is a label: //app/web:main.star is the file app/web/main.star. With --repo it may also be
  main.star           a path from the folder that the program is called in
  //app/...           all files below a folder, and ... all below this one. Then
    --match GLOB      says which names (*.star if it is not given)
    --exclude GLOB    leaves out names, or paths where GLOB has a /; so does .starloadignore in DIR
    --keep-going      leaves out, and tells, what is no text, too long, or cannot be read
    --links WHICH     inside (links to files of DIR are followed), anywhere, none

How they run
  --loaders N         N files side by side, 1 to 64 (4)
  --steps N           at most N steps for each file, 1 to 100000000 (1000000)
  --language LANGUAGE core, or extended, which has more
  --record NAME       with extended: one more function; the report has what it is called with; NAME,NAME for several

What is written
  --with WHAT         more in the report: values (the globals as JSON), loads, steps
  --only-roots        of the files that are ok only the roots
  --get NAME          only the global NAME of each root, a line of JSON each
  --get-calls NAME    only the calls of NAME by the roots, which --record names, a line of JSON each
  --check             nothing runs: which files have faults that show without a run
  --graph             the graph of loads, as DOT; --graph=json: what each file of --repo loads, and nothing runs
  --join              the join of the reports on standard input, one a line
  --requests          an answer to each line of standard input (starload help requests)
    --keep BYTES      about how much more memory a session may take than its largest request
  --lsp               what an editor asks of the files of --repo, by the Language Server Protocol

What a person is told, on standard error
  --explain[=WHEN]    what is at fault, where, and what to do: always, never, auto, all; github, sarif: for tools
  --color WHEN        always, never, auto
  --progress[=WHEN]   how many files have run: always, never, auto
  --trace             which loads lie on cycles
  --explain-code CODE what a code of a fault means (starload help codes)

The status is 0 if every file is ok, 1 if some file is not, 2 if there is no report. With --report-status it is
0 in place of 1.";

const LANGUAGE: &str = "Starlark is a small language that looks like Python.

  load(\"//lib:money.star\", \"total\", cents = \"to_cents\")    names of another file; \":a.star\" is beside this one
  PORTS = [80 + n for n in range(3)]                       lists, tuples, dictionaries, comprehensions
  def port(name, default = 80, *rest, **more):             functions, lambda, closures
      for key, value in {\"web\": 443}.items():              if, elif, else, for, break, continue, pass, return
          if key == name:
              return value
      return default
  print(\"%s: %d\" % (\"web\", port(\"web\")))                   printed lines are in the report

Values: None, bools, ints of 64 bits, strings in UTF-8, lists, tuples, dictionaries, ranges, functions.
Functions: abs all any bool dict enumerate fail int len list max min print range repr reversed sorted str
tuple type zip.
Methods of lists: append clear extend index insert pop remove; of dictionaries: clear get items keys pop
popitem setdefault update values; of strings: endswith find format join lower lstrip replace rstrip split
startswith strip upper.

When a file has run, its globals are frozen: other files read them, and none changes them. A name that
begins with _ is private to its file. A file has no files, no clock and no network.

--language extended adds struct, set, json, getattr, hasattr, dir, ord, chr, hash, key for sorted, max and min,
more string methods and more formats.

Neither has floats, while, recursion, f-strings, classes, import or exceptions. In place of
  floats, /          write ints and //, money in cents
  while, recursion   write for .. in range(n), with break
  f\"{name} is {n}\"   write \"{} is {}\".format(name, n)";

const REQUESTS: &str =
    "starload --requests stays up: it answers each line of standard input by a line.

  {\"id\": 1, \"files\": {\"//:a.star\": \"x = 1\"}, \"roots\": [\"//:a.star\"]}
  {\"id\":1,\"report\":{\"begun\":1,\"modules\":[{\"globals\":{\"x\":\"1\"},\"label\":\"//:a.star\",\"lines\":[],\"status\":\"ok\"}]}}

A request is a JSON object with
  roots      an array of labels; it must be there
  files      labels with their texts, or with null for a file that goes; others stay as they were
  prelude    a label, or null
  steps      a number from 1 to 100000000
  language   core or extended
  record     with extended: an array of names whose calls the report has
  with       an array of some of values, loads, steps, only-roots
  id         any JSON; the answer has it
  changed    with --repo DIR, in place of files: an array of the paths that have changed

An answer has the report, or refused with the reason; then no file has changed. Options that come
before are the defaults. Files that have not changed do not run again.";

/// A page of the help.
#[derive(Clone, Copy, Debug, PartialEq, Eq)]
pub enum Topic {
    Options,
    Language,
    Codes,
    Requests,
}

/// What is asked of the help.
#[derive(Clone, Copy, Debug, PartialEq, Eq)]
pub enum Help {
    /// All of it.
    Whole,
    /// A page.
    Page(Topic),
}

/// The page with this name.
fn topic_of(word: &str) -> Option<Topic> {
    if word == "options" {
        Some(Topic::Options)
    } else if word == "language" {
        Some(Topic::Language)
    } else if word == "codes" {
        Some(Topic::Codes)
    } else if word == "requests" {
        Some(Topic::Requests)
    } else {
        None
    }
}

/// What the words of a command line ask of the help: they are `help`, or `help` and a topic, after the program's name.
pub fn asked_help(words: &[String]) -> Option<Help> {
    let (word, topic) = match words {
        [_, word] => (word, None),
        [_, word, topic] => (word, Some(topic)),
        _ => return None,
    };
    if word.as_str() != "help" {
        return None;
    }
    match topic {
        Some(topic) => {
            let topic = topic_of(topic.as_str())?;
            Some(Help::Page(topic))
        }
        None => Some(Help::Whole),
    }
}

/// Prints a code, with its name in a few words.
fn say_code(rt: &HostRuntime, page: &Page) -> io::Result<()> {
    println!(rt; "  {:<12}{}", page.code, page.short)
}

/// Prints all codes.
fn say_codes(rt: &HostRuntime) -> io::Result<()> {
    println!(rt; "The codes of faults in a report (starload --explain-code CODE says more):\n")?;
    for page in &PAGES {
        say_code(rt, page)?;
    }
    Ok(())
}

/// Prints the topics.
pub fn say_topics(rt: &HostRuntime) -> io::Result<()> {
    println!(rt; "\n{}", TOPICS)
}

/// Prints a page.
pub fn say_topic(rt: &HostRuntime, topic: Topic) -> io::Result<()> {
    match topic {
        Topic::Options => println!(rt; "{}", OPTIONS),
        Topic::Language => println!(rt; "{}", LANGUAGE),
        Topic::Codes => say_codes(rt),
        Topic::Requests => println!(rt; "{}", REQUESTS),
    }
}
