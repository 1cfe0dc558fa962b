//! Finds a statement of a file by its first token.

ghost use Rattle.std.specs.Prelude.{◌≡◌, Contains, IfSome, true};
ghost use Rattle.star_outline.specs.Syntax.{position_of};
ghost use Rattle.star_trail.specs.Trails.{Begins, IsStatementOf, bodies, within};

use star_tree::tree::{Arm, Form, Statement};

/// The search enters at most this many statements. A file that nests more has the static fault `nested`.
const DEPTH: usize = 400;

/// The last of some statements that begins at a token or before it.
fn last_up_to(statements: &[Statement], token: usize) -> Option<&Statement>
    ensures { IfSome result (λ s. Contains statements.now s.now) }
{
    let count = statements.partition_point(|statement| statement.position.token <= token);
    statements.get(count.checked_sub(1)?)
}

/// Whether the first of some statements begins at a token or before it.
fn begin_by(statements: &[Statement], token: usize) -> bool {
    match statements.first() {
        Some(statement) => statement.position.token <= token,
        None => false,
    }
}

/// The body of the last arm that begins at a token or before it.
fn body_at(arms: &[Arm], token: usize) -> &[Statement]
    ensures { (s : Statement) → Contains result.now s → Contains (bodies arms.now) s }
{
    let count = arms.partition_point(|arm| begin_by(arm.body.as_slice(), token));
    match arms.get(count.saturating_sub(1)) {
        Some(arm) => arm.body.as_slice(),
        None => &[],
    }
}

/// The block directly within a statement where a statement may begin at a token; no statements if there is no such
/// block.
fn block_at(statement: &Statement, token: usize) -> &[Statement]
    ensures { (s : Statement) → Contains result.now s → Contains (within statement.now) s }
{
    match &statement.form {
        Form::Def { body, .. } | Form::For { body, .. } => body.as_slice(),
        Form::If { otherwise, .. } if begin_by(otherwise.as_slice(), token) => otherwise.as_slice(),
        Form::If { arms, .. } => body_at(arms.as_slice(), token),
        _ => &[],
    }
}

/// The statement of a file that begins at a token, found from the outside in.
fn statement_at(statements: &[Statement], token: usize) -> Option<&Statement>
    ensures own { IfSome result (λ s. IsStatementOf statements.now s.now) }
    ensures token { IfSome result (λ s. (position_of s.now).token ≡ token) }
{
    let mut block = statements;
    for _ in 0..DEPTH {
        let statement = last_up_to(block, token)?;
        if statement.position.token == token {
            return Some(statement);
        }
        block = block_at(statement, token);
    }
    None
}

/// Whether a statement of a file begins on this line at this token.
pub(crate) fn begins_at(statements: &[Statement], line: usize, token: usize) -> bool
    ensures { result ≡ true → Begins statements.now line token }
{
    match statement_at(statements, token) {
        Some(statement) => statement.position.line == line,
        None => false,
    }
}
