//! The messages for misplaced statements, conflicts, bad loads and undefined names.

use crate::message::Part::{Number, Plain, Shown};
use crate::message::{Part, message};
use crate::mistake::Mistake;
use crate::names::Source;
use crate::near::{help_of, meant, nearest};
use crate::place::{label_of, mark_of, word_of};
use star_label::files::Files;
use star_lex::token::Token;
use star_scope::error::{LocatedFault, ScopeFault};
use std::alloc::{AllocError, Global};

const NONE: &str = "write `None`";

const NO_CLASSES: &str = "there are no classes: use a dict";

const ELSEWHERE: &str =
    "another host builds it in, and this one does not: write it in the prelude, or load it";

const EXTENDED: &str = "the extended language has it: `--language extended`";

const STRUCTS: &str =
    "the extended language has it: `--language extended`; here write `dict(a = 1)`, and read it as `d[\"a\"]`";

const SETS: &str =
    "the extended language has it: `--language extended`; here use a dict whose values are `True`";

const FROZEN_SETS: &str =
    "the extended language has `set`: `--language extended`; else use a dict whose values are `True`";

const NO_FLOATS: &str = "there are no floats: count in a smaller unit with ints";

const HASH: &str =
    "the extended language has it: `--language extended`; a dict finds its keys without it";

const ATTRIBUTES: &str =
    "the extended language has it: `--language extended`; here use a dict, and `key in d` or `d.get(key)`";

const JSON: &str =
    "the extended language has it: `--language extended`; and `--with values` shows globals as JSON";

const NO_WRITES: &str = "nothing writes an attribute: use a dict, and `d[key] = value`";

const NO_FILES: &str = "a file reads nothing but the files that it loads";

const COMPREHENSION: &str = "write a comprehension: `[f(x) for x in xs if p(x)]`";

/// The help for names that other dialects have.
const OF_DIALECTS: &[(&'static str, &'static str)] = &[
    ("none", NONE),
    ("null", NONE),
    ("nil", NONE),
    ("undefined", NONE),
    ("true", "write `True`"),
    ("false", "write `False`"),
    ("self", NO_CLASSES),
    ("this", NO_CLASSES),
    ("super", NO_CLASSES),
    ("struct", STRUCTS),
    ("set", SETS),
    ("frozenset", FROZEN_SETS),
    ("float", NO_FLOATS),
    ("round", NO_FLOATS),
    ("getattr", ATTRIBUTES),
    ("setattr", NO_WRITES),
    ("hasattr", ATTRIBUTES),
    ("dir", EXTENDED),
    ("hash", HASH),
    ("ord", EXTENDED),
    ("chr", EXTENDED),
    ("json", JSON),
    ("map", COMPREHENSION),
    ("filter", COMPREHENSION),
    ("sum", "add in a loop: `for x in xs:` and `total += x`"),
    ("open", NO_FILES),
    ("input", NO_FILES),
    ("bytes", "there are no byte strings: use a string"),
    ("isinstance", "write `type(x) == \"list\"`"),
    ("depset", ELSEWHERE),
    ("select", ELSEWHERE),
    ("native", ELSEWHERE),
    ("glob", ELSEWHERE),
    ("rule", ELSEWHERE),
    ("provider", ELSEWHERE),
];

/// A label or a path without the signs that tell them apart: `//a/b:c.star` and `./a/b/c.star` as `a/b/c.star`.
fn bare(alloc: Global, text: &str) -> Result<String, AllocError> {
    let mut all = String::new(alloc);
    for c in text.trim_start_matches(['/', '.', '@', ':']).chars() {
        let c = if c == ':' { '/' } else { c };
        if c != '/' || !all.as_str().ends_with('/') {
            all.push(c)?;
        }
    }
    Ok(all)
}

/// The labels of all files as paths.
fn bare_labels(alloc: Global, files: &Files) -> Result<Vec<String>, AllocError> {
    let mut all = Vec::new(alloc);
    for n in 0..files.len() {
        all.push(bare(alloc, label_of(files, n))?)?;
    }
    Ok(all)
}

/// The number of the file with this path, with or without `.star`.
fn file_with(paths: &[String], wanted: &str) -> Option<usize> {
    for (n, path) in paths.iter().enumerate() {
        let path = path.as_str();
        if path == wanted || path.strip_suffix(".star") == Some(wanted) {
            return Some(n);
        }
    }
    None
}

/// The number of the file whose path is nearest to this one.
fn file_near(alloc: Global, paths: &[String], wanted: &str) -> Result<Option<usize>, AllocError> {
    let mut names = Vec::new(alloc);
    for path in paths {
        names.push(path.as_str())?;
    }
    match nearest(alloc, wanted, names.as_slice())? {
        Some(name) => Ok(file_with(paths, name)),
        None => Ok(None),
    }
}

/// The file with one of these two paths, else the file with the nearest path.
fn file_of(
    alloc: Global,
    paths: &[String],
    wanted: &str,
    beside: &str,
) -> Result<Option<usize>, AllocError> {
    if let Some(found) = file_with(paths, wanted) {
        return Ok(Some(found));
    }
    if let Some(found) = file_with(paths, beside) {
        return Ok(Some(found));
    }
    match file_near(alloc, paths, wanted)? {
        Some(found) => Ok(Some(found)),
        None => file_near(alloc, paths, beside),
    }
}

/// The file that a word most likely means in a file of this package: by its path, by its path beside that file, else by
/// the least difference.
fn file_meant(
    alloc: Global,
    files: &Files,
    word: &str,
    package: &str,
) -> Result<Option<usize>, AllocError> {
    let paths = bare_labels(alloc, files)?;
    let wanted = bare(alloc, word)?;
    let beside = message(alloc, &[Plain(package), Plain("/"), Plain(wanted.as_str())])?;
    file_of(alloc, paths.as_slice(), wanted.as_str(), beside.as_str())
}

/// The string without its quotes.
fn unquoted(word: &str) -> &str {
    word.trim_start_matches('r').trim_matches(['"', '\''])
}

/// Among what the word that was meant is sought.
#[derive(Clone, Copy)]
pub(crate) enum Choices<'n> {
    /// These names, and the labels of all files.
    Of(&'n [&'n str]),
    /// It is not sought.
    Unsought,
}

/// A refusal at its token.
#[derive(Clone, Copy)]
struct Spot<'a> {
    source: Source<'a>,
    refusal: LocatedFault,
    token: &'a Token,
    is_sought: bool,
}

impl<'a> Spot<'a> {
    fn word(self) -> &'a str {
        word_of(self.source.text, self.token)
    }

    fn told(self, code: &'static str, text: &[Part], help: &[Part]) -> Result<Mistake, AllocError> {
        let mark = mark_of(self.source.file, self.token);
        Mistake::new(self.source.alloc, mark, code, text, help)
    }

    /// A name that differs from all of these.
    fn undefined(self, names: &[&str]) -> Result<Mistake, AllocError> {
        let word = self.word();
        let text = [Plain("the name `"), Shown(word), Plain("` is not defined")];
        if let Some(help) = help_of(OF_DIALECTS, word) {
            return self.told("undefined", &text, &[Plain(help)]);
        }
        match nearest(self.source.alloc, word, names)? {
            Some(name) => self.told("undefined", &text, &meant(name)),
            None => self.told("undefined", &text, &[]),
        }
    }

    /// The end of the message about a misplaced statement that begins with this word.
    fn misplaced_by(self, word: &str) -> &'static str {
        match word {
            "return" => "` stands outside of a function",
            "load" if self.source.prelude == Some(self.source.file) => "` stands in the prelude",
            "load" => "` stands in a block",
            _ => "` stands outside of a loop",
        }
    }

    fn misplaced(self) -> Result<Mistake, AllocError> {
        let word = self.word();
        let text = [Plain("`"), Plain(word), Plain(self.misplaced_by(word))];
        if word == "load" {
            let help = "load statements stand alone and unindented, and the prelude has none";
            return self.told("bad_place", &text, &[Plain(help)]);
        }
        self.told("bad_place", &text, &[])
    }

    /// The line of the first place of a name before this token.
    fn first_line(self) -> Option<usize> {
        let word = unquoted(self.word());
        let source = self.source;
        let front = source.tokens.iter().take(self.refusal.token);
        for token in front {
            if unquoted(word_of(source.text, token)) == word {
                return Some(token.line);
            }
        }
        None
    }

    fn conflict(self) -> Result<Mistake, AllocError> {
        let word = unquoted(self.word());
        let help = [Plain(
            "a loaded name and a parameter are bound once: take another name, as by `load(.., other = \"name\")`",
        )];
        let Some(line) = self.first_line() else {
            let text = [Plain("`"), Shown(word), Plain("` is bound already")];
            return self.told("conflict", &text, &help);
        };
        let text = [
            Plain("`"),
            Shown(word),
            Plain("` is bound already, on line "),
            Number(line),
        ];
        self.told("conflict", &text, &help)
    }

    fn private(self) -> Result<Mistake, AllocError> {
        let word = unquoted(self.word());
        self.told(
            "private",
            &[Plain("`"), Shown(word), Plain("` is private to its file")],
            &[Plain("names that begin with `_` are not loaded")],
        )
    }

    /// The package of the file.
    fn package(self) -> &'a str {
        match label_of(self.source.files, self.source.file).split_once(':') {
            Some((package, _)) => package.trim_start_matches('/'),
            None => "",
        }
    }

    /// The label of the file that the word may mean: another one than the file itself.
    fn label_meant(self) -> Result<Option<&'a str>, AllocError> {
        if !self.is_sought {
            return Ok(None);
        }
        let (alloc, files) = (self.source.alloc, self.source.files);
        match file_meant(alloc, files, unquoted(self.word()), self.package())? {
            Some(n) if n != self.source.file => Ok(Some(label_of(files, n))),
            _ => Ok(None),
        }
    }

    fn no_file(self) -> Result<Mistake, AllocError> {
        let text = [Plain("there is no file "), Shown(self.word())];
        match self.label_meant()? {
            Some(label) => self.told("no_file", &text, &meant_label(label)),
            None => self.told("no_file", &text, &[]),
        }
    }

    fn bad_label(self) -> Result<Mistake, AllocError> {
        let text = [Shown(self.word()), Plain(" is no label")];
        match self.label_meant()? {
            Some(label) => self.told("bad_label", &text, &meant_label(label)),
            None => self.told("bad_label", &text, &[Plain(LABEL)]),
        }
    }
}

/// The help for a text that is not a label.
const LABEL: &str =
    "a label is \"//folder/folder:file.star\", or \":file.star\" for a file beside this one";

/// `did you mean "LABEL"?`
fn meant_label(label: &str) -> [Part<'_>; 3] {
    [Plain("did you mean \""), Plain(label), Plain("\"?")]
}

/// The mistake for a refusal; `None` if the refusal has no token.
pub(crate) fn told(
    source: Source,
    choices: Choices,
    refusal: LocatedFault,
) -> Result<Option<Mistake>, AllocError> {
    let Some(token) = source.tokens.get(refusal.token) else {
        return Ok(None);
    };
    let (names, is_sought) = match choices {
        Choices::Of(names) => (names, true),
        Choices::Unsought => (&[] as &[&str], false),
    };
    let spot = Spot {
        source,
        refusal,
        token,
        is_sought,
    };
    let mistake = match refusal.fault {
        ScopeFault::Undefined { .. } => spot.undefined(names)?,
        ScopeFault::BadPlace { .. } => spot.misplaced()?,
        ScopeFault::Conflict { .. } => spot.conflict()?,
        ScopeFault::Private { .. } => spot.private()?,
        ScopeFault::NoFile { .. } => spot.no_file()?,
        ScopeFault::BadLabel { .. } => spot.bad_label()?,
        ScopeFault::Memory => return Ok(None),
    };
    Ok(Some(mistake))
}
