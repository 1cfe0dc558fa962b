//! The `for` clauses of a comprehension that are open.

ghost use Rattle.std.specs.Prelude.{◌≡◌, ◌+◌, ◌<◌};

use star_store::values::Value;
use star_tree::tree::{Clause, Target};

/// A `for` clause that is open: its value is being iterated.
#[derive(Clone, Copy)]
pub struct OpenClause<'t> {
    pub target: &'t Target,
    pub value: Value,
    /// How many items the value has.
    pub count: usize,
    /// The place of the item that is taken next.
    pub next: usize,
    /// The clauses after it, which run for each item.
    pub more: &'t [Clause],
}

impl<'t> OpenClause<'t> {
    /// The same after its next item was taken.
    pub fn past_item(self) -> OpenClause<'t>
        requires { self.next < self.count }
        ensures { result ≡ record self.entry { next = self.entry.next + 1 } }
    {
        OpenClause {
            next: self.next + 1,
            ..self
        }
    }
}
