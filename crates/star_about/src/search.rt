//! Finds the part of an expression that is at fault.

use crate::look::Look;
use crate::parts::{Part, Parts, inner_parts, parts_of, token_of};
use star_eval::evaluate::evaluate;
use star_found::about::{Found, Turn};
use star_machine::content::Kind;
use star_machine::fault::EvalError;
use star_meaning::fault::FaultCode;
use star_meaning::site::Site;
use star_store::names::BuiltIn;
use star_store::values::Value;
use star_tree::tree::Expression;
use std::alloc::AllocError;

/// The number of levels that may be open in a second look.
pub(crate) const LEVELS: u32 = 200;

/// The search enters at most this many parts, and leaves as many.
const MOST_PARTS: usize = 20_000;

/// An expression that now stops as the run did, whose parts are evaluated in order.
#[derive(Drop)]
pub(crate) struct Visit<'p> {
    pub site: Site,
    pub expression: &'p Expression,
    /// The length of the way to it.
    depth: usize,
    parts: Parts<'p>,
    /// The values of the parts up to now; `None` for a part that cannot be evaluated again.
    pub values: Vec<Option<Value>>,
    /// The place of the parts that are evaluated now: inside of a comprehension it is not that of the expression.
    pub here: Site,
    /// Whether the parts are all parts, and not only those that are evaluated first.
    is_whole: bool,
    /// The part that was entered last.
    entered: Option<usize>,
}

impl<'p> Visit<'p> {
    /// The value of the part with a number.
    pub(crate) fn value(&self, at: usize) -> Option<Value> {
        self.values.get(at).copied().flatten()
    }

    /// The number of the only part without a value; `None` if there are several, or none.
    fn unknown(&self) -> Option<usize> {
        let mut found = None;
        for (at, value) in self.values.iter().enumerate() {
            if value.is_none() && found.is_some() {
                return None;
            }
            if value.is_none() {
                found = Some(at);
            }
        }
        found
    }

    /// Enters the part with a number.
    fn enter(&mut self, at: usize) -> Option<Part<'p>> {
        self.entered = Some(at);
        self.parts.get(at).copied()
    }
}

/// The result of evaluating the parts of an expression.
#[derive(Drop)]
enum Next<'p> {
    /// This part stops as the run did.
    Enter(Part<'p>, Site),
    /// The fault is about this.
    Found(Found),
    /// It is not known what the fault in this expression is about, or it did not stop the run.
    Leave,
}

/// Whether a part that now stops with `found` may be the one that stopped the run with `code`. A value that was being
/// iterated is frozen now, so `Iterating` may have become `Frozen`.
fn is_same(code: FaultCode, found: FaultCode) -> bool {
    code == found || code == FaultCode::Iterating && found == FaultCode::Frozen
}

impl<'w, 'a, 't> Look<'w, 'a, 't> {
    /// The value of a part at a place, or whether it stops as the run did.
    pub(crate) fn value_or_same(
        &mut self,
        site: &Site,
        expression: &Expression,
    ) -> Result<Result<Value, bool>, AllocError> {
        match evaluate(&mut self.machine, self.world, LEVELS, site, expression) {
            Ok(value) => Ok(Ok(value)),
            Err(EvalError::Memory) => Err(AllocError),
            Err(EvalError::Faulted { code, .. }) => Ok(Err(is_same(self.fault.code, code))),
        }
    }

    /// The place in the frame of a comprehension; `None` if its first iterable is not one, or its frame is not found.
    fn inside(
        &mut self,
        site: &Site,
        expression: &Expression,
        first: Option<Value>,
    ) -> Option<Site> {
        let _count = self.count(first?)?;
        let block = token_of(expression)?.saturating_add(1);
        self.frames = self.frames.checked_sub(1)?;
        let frame = self.last_frame(site.file, block)?;
        Some(Site {
            file: site.file,
            frame,
            line: site.line,
        })
    }

    /// Begins with an expression.
    fn visit<'p>(&self, site: Site, expression: &'p Expression) -> Result<Visit<'p>, AllocError> {
        Ok(Visit {
            site,
            expression,
            depth: self.way.len(),
            parts: parts_of(self.alloc, expression)?,
            values: Vec::new(self.alloc),
            here: site,
            is_whole: false,
            entered: None,
        })
    }

    /// Adds the parts that are evaluated after the first ones: of a conditional the chosen one, of a comprehension those
    /// in its own frame.
    fn add_more<'p>(&mut self, visit: &mut Visit<'p>) -> Result<(), AllocError> {
        visit.is_whole = true;
        if let Expression::Conditional {
            chosen,
            otherwise,
            ..
        } = visit.expression
        {
            let Some(condition) = visit.value(0) else {
                return Ok(());
            };
            let (turn, part) = if self.machine.is_true(self.world.setting(), condition) {
                (Turn::Chosen, chosen)
            } else {
                (Turn::Otherwise, otherwise)
            };
            let expression = part.get();
            return Ok(visit.parts.push(Part { turn, expression })?);
        }
        let (site, first) = (visit.site, visit.value(0));
        if let Some(inside) = self.inside(&site, visit.expression, first) {
            visit.here = inside;
            let parts = inner_parts(self.alloc, visit.expression)?;
            visit.parts.extend_from_slice(parts.as_slice())?;
        }
        Ok(())
    }

    /// Evaluates the parts of an expression that have not been evaluated, up to one that stops as the run did.
    fn run<'p>(&mut self, visit: &mut Visit<'p>) -> Result<Option<Part<'p>>, AllocError> {
        for at in visit.values.len()..visit.parts.len() {
            let Some(part) = visit.parts.get(at).copied() else {
                break;
            };
            match self.value_or_same(&visit.here, part.expression)? {
                Ok(value) => visit.values.push(Some(value))?,
                Err(is_same) => {
                    visit.values.push(None)?;
                    if is_same {
                        return Ok(visit.enter(at));
                    }
                }
            }
        }
        Ok(None)
    }

    /// Whether an expression whose parts have values does not stop so, whatever these are.
    fn never_stops(&self, visit: &Visit<'_>) -> bool {
        let is_lack = matches!(self.fault.code, FaultCode::Key | FaultCode::Index);
        match visit.expression {
            Expression::Tuple(_)
            | Expression::List(_)
            | Expression::And { .. }
            | Expression::Or { .. } => true,
            Expression::Unary { .. } | Expression::Binary { .. } | Expression::Compare { .. } => {
                is_lack
            }
            Expression::Call { .. } => match visit.value(0) {
                Some(callee) => match self.kind(callee) {
                    Kind::BuiltInFunction(function) => is_lack && function != BuiltIn::JsonDecode,
                    _ => false,
                },
                None => false,
            },
            _ => false,
        }
    }

    /// The part that must have stopped the run, since the expression cannot and all other parts have values: such as a
    /// call that changes a list, and is refused now since the store is frozen.
    fn left_over<'p>(&self, visit: &mut Visit<'p>) -> Option<Part<'p>> {
        let at = visit.unknown()?;
        if visit.entered == Some(at) || !self.never_stops(visit) {
            return None;
        }
        visit.enter(at)
    }

    /// Goes on with an expression.
    fn next<'p>(&mut self, visit: &mut Visit<'p>) -> Result<Next<'p>, AllocError> {
        if let Some(part) = self.run(visit)? {
            return Ok(Next::Enter(part, visit.here));
        }
        if !visit.is_whole {
            self.add_more(visit)?;
            if let Some(part) = self.run(visit)? {
                return Ok(Next::Enter(part, visit.here));
            }
        }
        if let Some(found) = self.about(visit)? {
            return Ok(Next::Found(found));
        }
        match self.left_over(visit) {
            Some(part) => Ok(Next::Enter(part, visit.here)),
            None => Ok(Next::Leave),
        }
    }

    /// Sets the way to this one, to which a turn may be added.
    fn go(&mut self, depth: usize, turn: Option<Turn>) -> Result<(), AllocError> {
        self.way.truncate(depth);
        match turn {
            Some(turn) => Ok(self.way.push(turn)?),
            None => Ok(()),
        }
    }

    /// Reports the values that a fault in an expression is about, to which the way of the search leads. It enters the
    /// parts that stop as the run did, and leaves those that did not stop the run after all. A value that was being
    /// iterated is told only if no other part can have been the one.
    pub(crate) fn in_expression(
        &mut self,
        site: &Site,
        expression: &Expression,
    ) -> Result<Option<Found>, AllocError> {
        let mut open = Vec::new(self.alloc);
        open.push(self.visit(*site, expression)?)?;
        let mut known = None;
        for _ in 0..MOST_PARTS {
            let Some(mut visit) = open.pop() else {
                break;
            };
            self.go(visit.depth, None)?;
            match self.next(&mut visit)? {
                Next::Enter(part, here) => {
                    self.go(visit.depth, Some(part.turn))?;
                    let inner = self.visit(here, part.expression)?;
                    open.push(visit)?;
                    open.push(inner)?;
                }
                Next::Found(found) if self.fault.code != FaultCode::Iterating => {
                    return Ok(Some(found));
                }
                Next::Found(_) if known.is_some() => return Ok(None),
                Next::Found(found) => known = Some(found),
                Next::Leave => {}
            }
        }
        Ok(known)
    }
}
