//! The innermost part of a comprehension: adds an item or an entry after all clauses.

ghost use Rattle.std.specs.Prelude.{◌≡◌};
ghost use Rattle.star_eval.specs.Steps.{container};

use star_store::values::Value;
use star_tree::tree::{Entry, Expression};

/// The element or entry that a comprehension adds after its clauses, and the list or dictionary that it fills.
#[derive(Clone, Copy)]
pub enum Output<'t> {
    Element {
        element: &'t Expression,
        list: Value,
    },
    Entry {
        entry: &'t Entry,
        dict: Value,
    },
}

impl<'t> Output<'t> {
    /// The list or dictionary.
    pub fn container(self) -> Value
        ensures { result ≡ container self.entry }
    {
        match self {
            Output::Element { list, .. } => list,
            Output::Entry { dict, .. } => dict,
        }
    }
}
