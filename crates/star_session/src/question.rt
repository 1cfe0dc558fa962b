//! The question of a request.

ghost use Rattle.std.specs.Prelude.{◌≡◌, true, map, option_map, string_bytes};
ghost use Rattle.star_session.specs.Requests.{question_of};

use star_dialect::Mode;
use star_report::wanted::Wanted;

/// The question of a request: which report of the files it asks for.
#[derive(Drop)]
pub struct Question {
    /// The labels that are asked for, each as it is written.
    pub roots: Vec<String>,
    /// The label of the prelude.
    pub prelude: Option<String>,
    /// The mode in which files run: a file may take from 1 to 100,000,000 steps.
    pub mode: Mode,
    /// The further members of each module that are wanted.
    pub wanted: Wanted,
}

/// Whether this is the same text.
fn is_equal(text: &String, other: &String) -> bool
    ensures { result ≡ true → string_bytes text.now ≡ string_bytes other.now }
{
    text.as_str() == other.as_str()
}

/// Whether these are the same texts in the same order.
fn are_same(texts: &[String], others: &[String]) -> bool
    ensures { result ≡ true → map string_bytes texts.now ≡ map string_bytes others.now }
{
    if texts.len() != others.len() {
        return false;
    }
    for n in 0..texts.len() {
        if !is_equal(&texts[n], &others[n]) {
            return false;
        }
    }
    true
}

/// Whether both are the same text, or both are none.
fn is_same_text(text: &Option<String>, other: &Option<String>) -> bool
    ensures { result ≡ true → option_map string_bytes text.now ≡ option_map string_bytes other.now }
{
    match (text, other) {
        (Some(text), Some(other)) => text.as_str() == other.as_str(),
        (None, None) => true,
        _ => false,
    }
}

impl Question {
    /// Whether the other one asks for the same.
    pub fn is_same(&self, other: &Question) -> bool
        ensures { result ≡ true → question_of self.now ≡ question_of other.now }
    {
        if !self.mode.is_same(&other.mode) {
            return false;
        }
        if self.wanted != other.wanted {
            return false;
        }
        if !is_same_text(&self.prelude, &other.prelude) {
            return false;
        }
        are_same(self.roots.as_slice(), other.roots.as_slice())
    }
}
