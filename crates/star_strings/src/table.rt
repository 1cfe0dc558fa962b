//! The table of the methods of strings that are functions of bytes.
//!
//! A method is its place in the table, so no other crate changes if a row is added.

ghost use Rattle.std.specs.Prelude.{◌≡◌, ◌≤◌, ◌+◌, IfOk, length, map, slice_get};
ghost use Rattle.std.specs.Option.{option_map};
ghost use Rattle.star_strings.specs.Table.{answer_to, line_of, method_name, named, named_from, row_of, rows, shown, work_of};

use crate::cases::{Case, Heads};
use crate::classes::Class;
use crate::work::{AtEnd, Bare, OfText, Within, Work};
use sqlite_items::Items;
use star_text::Text;
use std::alloc::{AllocError, Global};

/// What an argument has to be.
#[derive(Clone, Copy, Debug, PartialEq, Eq)]
pub enum Kind {
    /// A string.
    Text,
    /// A string or None.
    MaybeText,
    /// A string or a tuple of strings.
    Texts,
    /// An int.
    Int,
    /// An int or None.
    Place,
    /// A bool.
    Bool,
}

/// An argument.
#[derive(Debug, Drop)]
pub enum Argument {
    Text(Text),
    MaybeText(Option<Text>),
    Texts(Items<Text>),
    Int(i64),
    Place(Option<i64>),
    Bool(bool),
}

/// What a method answers.
#[derive(Debug, Drop)]
pub enum Answer {
    /// An argument does not suit.
    Refused,
    /// A character would be cut.
    Cut,
    Truth(bool),
    Number(i64),
    /// A new string.
    Text(Text),
    /// A new list of new strings.
    List(Items<Text>),
    /// A new tuple of new strings.
    Tuple(Items<Text>),
    /// A new list of ints.
    Numbers(Items<i64>),
}

/// The name of a method, the number of arguments that it has to have, and the kinds of those that it may have.
#[derive(Clone, Copy)]
pub struct Entry {
    pub name: &'static str,
    pub least: usize,
    pub wants: &'static [Kind],
}

/// A row of the table.
#[derive(Clone, Copy)]
pub(crate) struct Line {
    pub(crate) entry: Entry,
    pub(crate) work: Work,
}

/// The table.
const TABLE: [Line; 26] = [
    Line {
        entry: Entry {
            name: "capitalize",
            least: 0,
            wants: &[],
        },
        work: Work::Bare(Bare::Headed(Heads::Text)),
    },
    Line {
        entry: Entry {
            name: "codepoint_ords",
            least: 0,
            wants: &[],
        },
        work: Work::Bare(Bare::CodepointOrds),
    },
    Line {
        entry: Entry {
            name: "codepoints",
            least: 0,
            wants: &[],
        },
        work: Work::Bare(Bare::Codepoints),
    },
    Line {
        entry: Entry {
            name: "count",
            least: 1,
            wants: &[Kind::Text, Kind::Place, Kind::Place],
        },
        work: Work::Within(Within::Count),
    },
    Line {
        entry: Entry {
            name: "elem_ords",
            least: 0,
            wants: &[],
        },
        work: Work::Bare(Bare::ElemOrds),
    },
    Line {
        entry: Entry {
            name: "elems",
            least: 0,
            wants: &[],
        },
        work: Work::Bare(Bare::Elems),
    },
    Line {
        entry: Entry {
            name: "endswith",
            least: 1,
            wants: &[Kind::Texts, Kind::Place, Kind::Place],
        },
        work: Work::AtEnd(AtEnd::Endswith),
    },
    Line {
        entry: Entry {
            name: "index",
            least: 1,
            wants: &[Kind::Text, Kind::Place, Kind::Place],
        },
        work: Work::Within(Within::Index),
    },
    Line {
        entry: Entry {
            name: "isalnum",
            least: 0,
            wants: &[],
        },
        work: Work::Bare(Bare::Are(Class::Alnum)),
    },
    Line {
        entry: Entry {
            name: "isalpha",
            least: 0,
            wants: &[],
        },
        work: Work::Bare(Bare::Are(Class::Alpha)),
    },
    Line {
        entry: Entry {
            name: "isdigit",
            least: 0,
            wants: &[],
        },
        work: Work::Bare(Bare::Are(Class::Digit)),
    },
    Line {
        entry: Entry {
            name: "islower",
            least: 0,
            wants: &[],
        },
        work: Work::Bare(Bare::Cased(Case::Lower)),
    },
    Line {
        entry: Entry {
            name: "isspace",
            least: 0,
            wants: &[],
        },
        work: Work::Bare(Bare::Are(Class::Space)),
    },
    Line {
        entry: Entry {
            name: "istitle",
            least: 0,
            wants: &[],
        },
        work: Work::Bare(Bare::Cased(Case::Title)),
    },
    Line {
        entry: Entry {
            name: "isupper",
            least: 0,
            wants: &[],
        },
        work: Work::Bare(Bare::Cased(Case::Upper)),
    },
    Line {
        entry: Entry {
            name: "partition",
            least: 1,
            wants: &[Kind::Text],
        },
        work: Work::OfText(OfText::Partition),
    },
    Line {
        entry: Entry {
            name: "removeprefix",
            least: 1,
            wants: &[Kind::Text],
        },
        work: Work::OfText(OfText::Removeprefix),
    },
    Line {
        entry: Entry {
            name: "removesuffix",
            least: 1,
            wants: &[Kind::Text],
        },
        work: Work::OfText(OfText::Removesuffix),
    },
    Line {
        entry: Entry {
            name: "rfind",
            least: 1,
            wants: &[Kind::Text, Kind::Place, Kind::Place],
        },
        work: Work::Within(Within::Rfind),
    },
    Line {
        entry: Entry {
            name: "rindex",
            least: 1,
            wants: &[Kind::Text, Kind::Place, Kind::Place],
        },
        work: Work::Within(Within::Rindex),
    },
    Line {
        entry: Entry {
            name: "rpartition",
            least: 1,
            wants: &[Kind::Text],
        },
        work: Work::OfText(OfText::Rpartition),
    },
    Line {
        entry: Entry {
            name: "rsplit",
            least: 0,
            wants: &[Kind::MaybeText, Kind::Int],
        },
        work: Work::Rsplit,
    },
    Line {
        entry: Entry {
            name: "split",
            least: 0,
            wants: &[Kind::MaybeText, Kind::Int],
        },
        work: Work::Split,
    },
    Line {
        entry: Entry {
            name: "splitlines",
            least: 0,
            wants: &[Kind::Bool],
        },
        work: Work::Splitlines,
    },
    Line {
        entry: Entry {
            name: "startswith",
            least: 1,
            wants: &[Kind::Texts, Kind::Place, Kind::Place],
        },
        work: Work::AtEnd(AtEnd::Startswith),
    },
    Line {
        entry: Entry {
            name: "title",
            least: 0,
            wants: &[],
        },
        work: Work::Bare(Bare::Headed(Heads::Words)),
    },
];

/// A method of the table: its place there.
#[derive(Clone, Copy, Debug, PartialEq, Eq)]
pub struct StringMethod {
    pub number: u8,
}

/// The first of some rows with a name; `number` is the place of the first row.
fn named_from(mut rows: &[Line], mut number: u8, name: &str) -> Option<StringMethod>
    requires { number + length rows.now ≤ 255 }
    ensures { result ≡ named_from name.now number (map line_of rows.entry.now) }
{
    while let [row, others @ ..] = rows {
        if row.entry.name == name {
            return Some(StringMethod { number });
        }
        rows = others;
        number += 1;
    }
    None
}

/// The row at a place.
#[tactic(auto, using(crate::proofs::TableRows::line_there))]
fn line_at(rows: &[Line], number: u8) -> Option<Line>
    ensures { option_map line_of result ≡ slice_get (map line_of rows.now) number }
{
    match rows.get(number as usize) {
        Some(line) => Some(*line),
        None => None,
    }
}

/// The names of some rows.
fn names_in(alloc: Global, rows: &[Line]) -> Result<Vec<&'static str>, AllocError>
    ensures { IfOk result (λ names. map (λ n. n.now) names.items ≡ map (λ r. r.row.name) (map line_of rows.now)) }
{
    let mut names = Vec::with_capacity(alloc, rows.len())?;
    for line in rows {
        names.push(line.entry.name)?;
    }
    Ok(names)
}

impl StringMethod {
    /// The names of all methods, in the order of the table. The error: an allocation failed.
    pub fn names(alloc: Global) -> Result<Vec<&'static str>, AllocError>
        ensures { IfOk result (λ names. map (λ n. n.now) names.items ≡ map (λ r. r.row.name) rows) }
    {
        names_in(alloc, &TABLE)
    }

    /// The method with a name.
    #[tactic(auto, unfolding(crate::specs::Table::named))]
    pub fn named(name: &str) -> Option<StringMethod>
        ensures { result ≡ named name.now }
    {
        named_from(&TABLE, 0, name)
    }

    /// Its row; `None` beyond the table.
    #[tactic(auto, unfolding(crate::specs::Table::row_of))]
    pub fn entry(self) -> Option<Entry>
        ensures { option_map shown result ≡ row_of self }
    {
        match line_at(&TABLE, self.number) {
            Some(line) => Some(line.entry),
            None => None,
        }
    }

    /// Its name; nothing beyond the table.
    #[tactic(auto, unfolding(crate::specs::Table::row_of))]
    pub fn name(self) -> &'static str
        ensures { result.now ≡ method_name self }
    {
        match self.entry() {
            Some(entry) => entry.name,
            None => "",
        }
    }
}

impl StringMethod {
    /// Its work; `None` beyond the table.
    fn work(self) -> Option<Work>
        ensures { result ≡ work_of self }
    {
        match line_at(&TABLE, self.number) {
            Some(line) => Some(line.work),
            None => None,
        }
    }

    /// What it answers of a string and of arguments. The error: an allocation failed.
    #[tactic(auto, unfolding(crate::specs::Table::answer_to))]
    pub fn answer(self, alloc: Global, text: &str, given: &[Argument]) -> Result<Answer, AllocError>
        ensures { IfOk result (λ a. a ≡ answer_to self text.now given.now) }
    {
        match self.work() {
            Some(work) => work.answer(alloc, text, given),
            None => Ok(Answer::Refused),
        }
    }
}
