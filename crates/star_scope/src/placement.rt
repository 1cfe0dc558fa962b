//! Misplaced statements: `return`, `break`, `continue` and `load` in a place that does not allow them.

ghost use Rattle.std.specs.Prelude.{◌≡◌};
ghost use Rattle.star_scope.specs.Faults.{first, first_from};
ghost use Rattle.star_scope.specs.Placement.{in_arms, in_form, in_statements, misplaced, of_if, of_loop, only};

use crate::error::{LocatedFault, ScopeFault, earlier};
use star_tree::tree::{Arm, Form, Position, Statement};

/// The surroundings of a statement.
#[derive(Clone, Copy, Debug, PartialEq, Eq)]
pub struct StatementContext {
    /// Whether it is a statement of the file itself.
    pub in_file: bool,
    /// Whether it is in the body of a function.
    pub in_function: bool,
    /// Whether it is in the body of a loop of that function, or of the file.
    pub in_loop: bool,
}

/// A statement of a file itself.
pub(crate) const OF_FILE: StatementContext = StatementContext {
    in_file: true,
    in_function: false,
    in_loop: false,
};

/// A statement of the prelude's own file, which may load nothing.
pub(crate) const OF_PRELUDE: StatementContext = StatementContext {
    in_file: false,
    in_function: false,
    in_loop: false,
};

const OF_FUNCTION: StatementContext = StatementContext {
    in_file: false,
    in_function: true,
    in_loop: false,
};

impl StatementContext {
    fn of_if(self) -> StatementContext
        ensures { result ≡ of_if self }
    {
        StatementContext {
            in_file: false,
            in_function: self.in_function,
            in_loop: self.in_loop,
        }
    }

    fn of_loop(self) -> StatementContext
        ensures { result ≡ of_loop self }
    {
        StatementContext {
            in_file: false,
            in_function: self.in_function,
            in_loop: true,
        }
    }
}

/// The fault of a statement that is misplaced unless `allowed`.
#[tactic(auto, unfolding(crate::specs::Faults::first_from))]
fn only(found: Option<LocatedFault>, allowed: bool, position: Position) -> Option<LocatedFault>
    ensures { result ≡ first_from found (only allowed position) }
{
    if allowed {
        return found;
    }
    earlier(
        found,
        LocatedFault {
            token: position.token,
            fault: ScopeFault::BadPlace {
                line: position.line,
            },
        },
    )
}

#[cycle(placement)]
#[tactic(auto, using(crate::proofs::Faults::first_joined, crate::proofs::Faults::first_none, crate::proofs::Placements::form_opened))]
fn in_form(
    found: Option<LocatedFault>,
    here: StatementContext,
    position: Position,
    form: &Form,
) -> Option<LocatedFault>
    ensures { result ≡ first_from found (in_form form.now position here) }
{
    match form {
        Form::Break | Form::Continue => only(found, here.in_loop, position),
        Form::Return(_) => only(found, here.in_function, position),
        Form::Load { .. } => only(found, here.in_file, position),
        Form::If { arms, otherwise } => {
            let found = in_arms(found, here.of_if(), arms.as_slice());
            in_statements(found, here.of_if(), otherwise.as_slice())
        }
        Form::For { body, .. } => in_statements(found, here.of_loop(), body.as_slice()),
        Form::Def { body, .. } => in_statements(found, OF_FUNCTION, body.as_slice()),
        Form::Expression(_) | Form::Assign { .. } | Form::Augment { .. } | Form::Pass => found,
    }
}

/// The fault found so far, or the first misplaced one of these statements, in these surroundings.
#[cycle(placement)]
#[tactic(auto, using(crate::proofs::Faults::first_joined, crate::proofs::Placements::statements_next, crate::proofs::Faults::first_none))]
pub(crate) fn in_statements(
    mut found: Option<LocatedFault>,
    here: StatementContext,
    statements: &[Statement],
) -> Option<LocatedFault>
    ensures { result ≡ first_from found (in_statements statements.now here) }
{
    for statement in statements {
        found = in_form(found, here, statement.position, &statement.form);
    }
    found
}

#[cycle(placement)]
#[tactic(auto, using(crate::proofs::Faults::first_joined, crate::proofs::Placements::arms_next, crate::proofs::Faults::first_none))]
fn in_arms(
    mut found: Option<LocatedFault>,
    here: StatementContext,
    arms: &[Arm],
) -> Option<LocatedFault>
    ensures { result ≡ first_from found (in_arms arms.now here) }
{
    for arm in arms {
        found = in_statements(found, here, arm.body.as_slice());
    }
    found
}

/// The first misplaced statement of a file: `return` outside of a function, `break` or `continue` outside of a loop of
/// the same function, `load` elsewhere than as a statement of the file itself (`docs/LANGUAGE.md`, "Scopes and static
/// faults"). It takes no memory.
pub fn misplaced(statements: &[Statement]) -> Option<LocatedFault>
    ensures { result ≡ first (misplaced statements.now) }
{
    in_statements(None, OF_FILE, statements)
}
