//! Finds the statement that stopped, and the frame that it ran in.

use crate::look::Look;
use star_found::about::Found;
use star_meaning::site::Site;
use star_meaning::story::Step;
use star_outline::outline::Body;
use star_store::values::{Cell, Value};
use star_tree::tree::{Expression, Form, Statement};
use star_world::files::Files;
use std::alloc::AllocError;

/// The search for a statement enters at most this many statements.
const DEPTH: usize = 400;

/// Where a second look begins.
#[derive(Clone, Copy)]
pub(crate) enum Root<'p> {
    /// A statement.
    Statement(&'p Statement, Site),
    /// The expression of a lambda.
    Answer(&'p Expression, Site),
}

/// The last of some statements that begins at a token or before it.
fn last_up_to(statements: &[Statement], token: usize) -> Option<&Statement> {
    let mut found = None;
    for statement in statements {
        if statement.position.token > token {
            break;
        }
        found = Some(statement);
    }
    found
}

/// Whether the first of some statements begins at a token or before it.
fn begin_by(statements: &[Statement], token: usize) -> bool {
    match statements.first() {
        Some(statement) => statement.position.token <= token,
        None => false,
    }
}

/// The statements within a statement among which one begins at this token.
fn within(statement: &Statement, token: usize) -> Option<&[Statement]> {
    match &statement.form {
        Form::Def { body, .. } | Form::For { body, .. } => Some(body.as_slice()),
        Form::If { arms, otherwise } => {
            if begin_by(otherwise.as_slice(), token) {
                return Some(otherwise.as_slice());
            }
            let mut found = None;
            for arm in arms.as_slice() {
                if begin_by(arm.body.as_slice(), token) {
                    found = Some(arm.body.as_slice());
                }
            }
            found
        }
        _ => None,
    }
}

/// The statement that begins at a token.
fn statement_at(statements: &[Statement], token: usize) -> Option<&Statement> {
    let mut block = statements;
    for _ in 0..DEPTH {
        let statement = last_up_to(block, token)?;
        if statement.position.token == token {
            return Some(statement);
        }
        block = within(statement, token)?;
    }
    None
}

/// The number of the innermost block that a trail leaves: 0, the file's own block, if it leaves no call.
fn block_of(trail: &[Step]) -> usize {
    for step in trail {
        if let Step::Call { number, .. } = *step {
            return number.saturating_add(1);
        }
    }
    0
}

impl<'w, 'a, 't> Look<'w, 'a, 't> {
    /// The cell of the run that stopped with this number.
    fn cell(&self, at: u32) -> Option<&Cell> {
        let home = self.fault.home;
        self.machine
            .read(self.world.setting(), Value::Ref { home, at })
    }

    /// The number of cells that the run has made, found by binary search.
    fn cell_count(&self) -> u32 {
        let mut count: u32 = 0;
        let mut size: u32 = 1 << 31;
        for _ in 0..32 {
            let more = count.saturating_add(size);
            if self.cell(more.saturating_sub(1)).is_some() {
                count = more;
            }
            size /= 2;
        }
        count
    }

    /// Whether the cell with a number is a frame of a block.
    fn is_frame(&self, at: u32, file: u32, block: usize) -> bool {
        match self.cell(at) {
            Some(Cell::Frame(frame)) => {
                let frame = frame.get();
                frame.file == file && frame.block as usize == block
            }
            _ => false,
        }
    }

    /// The last frame of a block. It is the one that was running, since no definition is active twice.
    pub(crate) fn last_frame(&self, file: u32, block: usize) -> Option<Value> {
        // (The frame of the file itself is the first cell.)
        let count = if block > 0 { self.cell_count() } else { 1 };
        for back in 0..count {
            let at = count.saturating_sub(back).saturating_sub(1);
            if self.is_frame(at, file, block) {
                let home = self.fault.home;
                return Some(Value::Ref { home, at });
            }
        }
        None
    }

    /// The place of the innermost block of the trail.
    fn site(&self, file: u32) -> Option<Site> {
        let frame = self.last_frame(file, block_of(self.fault.trail))?;
        Some(Site {
            file,
            frame,
            line: self.fault.line,
        })
    }

    /// The statement that stopped, or the expression of a lambda; `None` if it or its frame is not found.
    pub(crate) fn root<'p>(&self, files: &Files<'p, 't>) -> Option<Root<'p>>
    where
        't: 'p,
    {
        match *self.fault.trail.first()? {
            Step::Statement { file, token, .. } => {
                let statements = *files.statements().get(file as usize)?;
                let statement = statement_at(statements?, token)?;
                Some(Root::Statement(statement, self.site(file)?))
            }
            Step::Call { file, number } => {
                let number = u32::try_from(number).ok()?;
                match self.world.definition(file, number)?.body {
                    Body::Answer(answer) => Some(Root::Answer(answer, self.site(file)?)),
                    Body::Statements(_) => None,
                }
            }
            Step::From { .. } => None,
        }
    }

    /// Reports the values that a fault in a statement or in the expression of a lambda is about.
    pub(crate) fn at_root(&mut self, root: Root<'_>) -> Result<Option<Found>, AllocError> {
        match root {
            Root::Statement(statement, site) => self.at_statement(&site, statement),
            Root::Answer(answer, site) => self.in_expression(&site, answer),
        }
    }
}
