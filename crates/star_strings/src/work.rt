//! The work of the methods, in families of those that take the same arguments.

ghost use Rattle.std.specs.Prelude.{◌≡◌, IfOk};
ghost use Rattle.star_strings.specs.Table as spec;

use crate::cases::{Case, Heads, headed, is_cased};
use crate::characters::{codepoint_ords, codepoints, elem_ords, elems};
use crate::classes::{Class, is_all};
use crate::cuts::{count, partition, rpartition};
use crate::ends::{without_prefix, without_suffix};
use crate::lines::splitlines;
use crate::places::{ends_with, index, rfind, rindex, starts_with};
use crate::splits::{rsplit, split};
use crate::table::{Answer, Argument};
use star_text::Text;
use std::alloc::{AllocError, Global};

/// Methods without an argument.
#[derive(Clone, Copy, Debug, PartialEq, Eq)]
pub(crate) enum Bare {
    Are(Class),
    Cased(Case),
    CodepointOrds,
    Codepoints,
    ElemOrds,
    Elems,
    Headed(Heads),
}

/// Methods of a string.
#[derive(Clone, Copy, Debug, PartialEq, Eq)]
pub(crate) enum OfText {
    Partition,
    Removeprefix,
    Removesuffix,
    Rpartition,
}

/// Methods of a string within bounds.
#[derive(Clone, Copy, Debug, PartialEq, Eq)]
pub(crate) enum Within {
    Count,
    Index,
    Rfind,
    Rindex,
}

/// Methods of some strings at an end.
#[derive(Clone, Copy, Debug, PartialEq, Eq)]
pub(crate) enum AtEnd {
    Endswith,
    Startswith,
}

/// The work of the methods.
#[derive(Clone, Copy, Debug, PartialEq, Eq)]
pub(crate) enum Work {
    Bare(Bare),
    OfText(OfText),
    Within(Within),
    AtEnd(AtEnd),
    Rsplit,
    Split,
    Splitlines,
}

impl Bare {
    /// What it answers of a string. The error: an allocation failed.
    fn answer(self, alloc: Global, text: &str) -> Result<Answer, AllocError>
        ensures { IfOk result (λ a. a ≡ spec.bare self text.now) }
    {
        match self {
            Bare::Are(class) => Ok(Answer::Truth(is_all(class, text))),
            Bare::Cased(case) => Ok(Answer::Truth(is_cased(alloc, case, text)?)),
            Bare::CodepointOrds => codepoint_ords(alloc, text),
            Bare::Codepoints => codepoints(alloc, text),
            Bare::ElemOrds => elem_ords(alloc, text),
            Bare::Elems => elems(alloc, text),
            Bare::Headed(heads) => Ok(Answer::Text(headed(alloc, heads, text)?)),
        }
    }
}

impl OfText {
    /// What it answers of a string and of another one. The error: an allocation failed.
    fn answer(self, alloc: Global, text: &str, other: &str) -> Result<Answer, AllocError>
        ensures { IfOk result (λ a. a ≡ spec.of_text self text.now other.now) }
    {
        match self {
            OfText::Partition => partition(alloc, text, other),
            OfText::Removeprefix => without_prefix(alloc, text, other),
            OfText::Removesuffix => without_suffix(alloc, text, other),
            OfText::Rpartition => rpartition(alloc, text, other),
        }
    }
}

impl Within {
    /// What it answers of a string, of another one and of bounds.
    fn answer(self, text: &str, other: &str, bounds: &[Argument]) -> Answer
        ensures { result ≡ spec.within self text.now other.now bounds.now }
    {
        match self {
            Within::Count => count(text, other, bounds),
            Within::Index => index(text, other, bounds),
            Within::Rfind => rfind(text, other, bounds),
            Within::Rindex => rindex(text, other, bounds),
        }
    }
}

impl AtEnd {
    /// What it answers of a string, of others and of bounds.
    fn answer(self, text: &str, others: &[Text], bounds: &[Argument]) -> Answer
        ensures { result ≡ spec.at_end self text.now others.now bounds.now }
    {
        match self {
            AtEnd::Endswith => Answer::Truth(ends_with(text, others, bounds)),
            AtEnd::Startswith => Answer::Truth(starts_with(text, others, bounds)),
        }
    }
}

impl Work {
    /// What it answers of a string and of arguments. The error: an allocation failed.
    #[tactic(auto, unfolding(crate::specs::Table::answer_of))]
    pub(crate) fn answer(
        self,
        alloc: Global,
        text: &str,
        given: &[Argument],
    ) -> Result<Answer, AllocError>
        ensures { IfOk result (λ a. a ≡ spec.answer_of self text.now given.now) }
    {
        match (self, given) {
            (Work::Bare(work), []) => work.answer(alloc, text),
            (Work::OfText(work), [Argument::Text(other)]) => work.answer(
                alloc,
                text,
                other.as_str(),
            ),
            (Work::Within(work), [Argument::Text(other), bounds @ ..]) => {
                Ok(work.answer(text, other.as_str(), bounds))
            }
            (Work::AtEnd(work), [Argument::Texts(others), bounds @ ..]) => {
                Ok(work.answer(text, others.as_slice(), bounds))
            }
            (Work::Rsplit, _) => rsplit(alloc, text, given),
            (Work::Split, _) => split(alloc, text, given),
            (Work::Splitlines, []) => splitlines(alloc, text, false),
            (Work::Splitlines, [Argument::Bool(keep)]) => splitlines(alloc, text, *keep),
            _ => Ok(Answer::Refused),
        }
    }
}
