//! Names the values that a fault in a statement is about.

use crate::abouts::assigning;
use crate::look::Look;
use crate::parts::{Part, add_defaults};
use crate::search::LEVELS;
use crate::unpacking::{Source, Unbound};
use star_found::about::{About, Found, Place, Turn};
use star_meaning::fault::FaultCode;
use star_meaning::site::Site;
use star_operators::subscript::index;
use star_store::values::Value;
use star_text::Text;
use star_tree::tree::{Arm, BinaryOperator, Expression, Form, LoadedName, Statement, Target};
use std::alloc::AllocError;

/// Whether a value is bound to a name, which nothing can stop.
fn is_name(target: &Target) -> bool {
    matches!(target, Target::Name(_))
}

impl<'w, 'a, 't> Look<'w, 'a, 't> {
    /// The value of a part to which a turn leads, or `None` if it cannot be evaluated again; or else a report, if it
    /// stops as the run did.
    pub(crate) fn value_here(
        &mut self,
        site: &Site,
        turn: Turn,
        part: &Expression,
    ) -> Result<Result<Option<Value>, Option<Found>>, AllocError> {
        match self.value_or_same(site, part)? {
            Ok(value) => return Ok(Ok(Some(value))),
            Err(false) => return Ok(Ok(None)),
            Err(true) => {}
        }
        let depth = self.way.len();
        self.way.push(turn)?;
        let found = self.in_expression(site, part)?;
        self.way.truncate(depth);
        match found {
            Some(found) => Ok(Err(Some(found))),
            None => Ok(Ok(None)),
        }
    }

    /// The report on the expression to which a turn leads.
    fn whole(
        &mut self,
        site: &Site,
        turn: Turn,
        expression: &Expression,
    ) -> Result<Option<Found>, AllocError> {
        self.way.push(turn)?;
        self.in_expression(site, expression)
    }

    /// Reports why a value cannot be bound to a target, at which the way of the search was left.
    fn why_unbound(
        &mut self,
        site: &Site,
        reason: Option<Unbound<'_>>,
    ) -> Result<Option<Found>, AllocError> {
        match reason {
            Some(Unbound::Found(found)) => Ok(Some(found)),
            Some(Unbound::Part(turn, part)) => self.whole(site, turn, part),
            None => Ok(None),
        }
    }

    /// `target = value`
    fn assigned(
        &mut self,
        site: &Site,
        target: &Target,
        value: &Expression,
    ) -> Result<Option<Found>, AllocError> {
        match self.value_here(site, Turn::Assigned, value)? {
            Ok(Some(value)) => {
                let source = Source::Part(Turn::Assigned);
                let reason = self.bound(site, Turn::Target, target, value, source)?;
                self.why_unbound(site, reason)
            }
            Ok(None) => self.unknown(site, target, value),
            Err(_) if self.fault.code == FaultCode::Iterating && !is_name(target) => Ok(None),
            Err(found) => Ok(found),
        }
    }

    /// `target = value`, if the value cannot be evaluated again. Then a name is not at fault.
    fn unknown(
        &mut self,
        site: &Site,
        target: &Target,
        value: &Expression,
    ) -> Result<Option<Found>, AllocError> {
        match target {
            Target::Name(_) => self.whole(site, Turn::Assigned, value),
            Target::Index { value: base, index } => {
                let depth = self.way.len();
                self.way.push(Turn::Target)?;
                let reason = self.unset(site, base.get(), index.get())?;
                if let Some(found) = self.why_unbound(site, reason)? {
                    return Ok(Some(found));
                }
                self.way.truncate(depth);
                self.whole(site, Turn::Assigned, value)
            }
            Target::Tuple(_) | Target::List(_) => Ok(None),
        }
    }

    /// `target operator= value`, if the target has the value `old`.
    fn computed(
        &mut self,
        site: &Site,
        operator: BinaryOperator,
        old: Value,
        value: &Expression,
    ) -> Result<Option<Found>, AllocError> {
        match self.value_here(site, Turn::Assigned, value)? {
            Ok(by) if self.may_be_written(old) => {
                self.operands(assigning(operator), Some(old), by)
            }
            Ok(_) => Ok(None),
            Err(found) => Ok(found),
        }
    }

    /// `base[at] operator= value`
    fn changed(
        &mut self,
        site: &Site,
        operator: BinaryOperator,
        (base, at): (&Expression, &Expression),
        value: &Expression,
    ) -> Result<Option<Found>, AllocError> {
        self.way.push(Turn::Target)?;
        let owner = match self.value_here(site, Turn::Owner, base)? {
            Ok(owner) => owner,
            Err(found) => return Ok(found),
        };
        let at = match self.value_here(site, Turn::Index, at)? {
            Ok(at) => at,
            Err(found) => return Ok(found),
        };
        self.way.pop();
        match self.old_value(owner, at) {
            Some(old) if !self.is_of_writing() => self.computed(site, operator, old, value),
            _ => self.index(&[Turn::Target], owner, at),
        }
    }

    /// `target operator= value`
    fn augmented(
        &mut self,
        site: &Site,
        operator: BinaryOperator,
        target: &Target,
        value: &Expression,
    ) -> Result<Option<Found>, AllocError> {
        match target {
            Target::Name(name) => match self.read(site, name) {
                Some(old) => self.computed(site, operator, old, value),
                None => self.unbound(site, name),
            },
            Target::Index { value: base, index } => {
                self.changed(site, operator, (base.get(), index.get()), value)
            }
            _ => Ok(None),
        }
    }

    /// Whether the fault comes from writing to a value.
    pub(crate) fn is_of_writing(&self) -> bool {
        matches!(self.fault.code, FaultCode::Frozen | FaultCode::Iterating)
    }

    /// The item of a value at an index; `None` if it has none.
    fn old_value(&mut self, value: Option<Value>, at: Option<Value>) -> Option<Value> {
        let (value, at) = (value?, at?);
        let (setting, line) = (self.world.setting(), self.fault.line);
        index(&mut self.machine, setting, LEVELS, line, value, at).ok()
    }

    /// The conditions of an `if`, up to the first that is true.
    fn conditions(&mut self, site: &Site, arms: &[Arm]) -> Result<Option<Found>, AllocError> {
        let is_one = arms.len() == 1;
        for (n, arm) in arms.iter().enumerate() {
            match self.value_here(site, Turn::Arm(n), &arm.condition)? {
                Ok(Some(value)) if !self.machine.is_true(self.world.setting(), value) => {}
                Ok(None) if n.saturating_add(1) == arms.len() => {
                    return self.whole(site, Turn::Arm(n), &arm.condition);
                }
                Ok(_) => return Ok(None),
                Err(_) if self.fault.code == FaultCode::Iterating && !is_one => return Ok(None),
                Err(found) => return Ok(found),
            }
        }
        Ok(None)
    }

    /// The iterable of a `for`, or the first of its items that cannot be bound to the target.
    fn looped(
        &mut self,
        site: &Site,
        target: &Target,
        iterable: &Expression,
    ) -> Result<Option<Found>, AllocError> {
        match self.value_here(site, Turn::Iterable, iterable)? {
            Ok(Some(value)) => {
                let turns = (Turn::Iterable, Turn::Target);
                let reason = self.items_bound(site, turns, target, value)?;
                self.why_unbound(site, reason)
            }
            Ok(None) if self.fault.code != FaultCode::BadType && is_name(target) => {
                self.whole(site, Turn::Iterable, iterable)
            }
            Ok(None) => Ok(None),
            Err(found) => Ok(found),
        }
    }

    /// The defaults of a definition, up to the first that stops as the run did.
    fn defaults(&mut self, site: &Site, parts: &[Part<'_>]) -> Result<Option<Found>, AllocError> {
        for part in parts {
            if let Err(found) = self.value_here(site, part.turn, part.expression)? {
                return Ok(found);
            }
        }
        Ok(None)
    }

    /// The names that a file binds at top level, without the names that it loads.
    fn globals(&self, file: usize) -> Result<Vec<Text>, AllocError> {
        let mut all = Vec::new(self.alloc);
        let Ok(file) = u32::try_from(file) else {
            return Ok(all);
        };
        if let Some(names) = self.world.names(file, 0) {
            for name in names.as_slice() {
                if !self.world.is_loaded(file, *name) {
                    all.push(Text::new(self.alloc, *name)?)?;
                }
            }
        }
        Ok(all)
    }

    /// The first name of a load statement that the loaded module does not have.
    fn loaded(&self, token: usize, names: &[LoadedName]) -> Result<Option<Found>, AllocError> {
        let setting = self.world.setting();
        let Some(file) = setting.loaded(token) else {
            return Ok(None);
        };
        let Some(store) = setting.published(file) else {
            return Ok(None);
        };
        for name in names {
            let text = &name.loaded.text;
            if store.global(text.as_str()).is_none() {
                return Ok(Some(Found {
                    about: About::Loaded(text.share()?),
                    place: Place::Word(name.loaded.position.token),
                    names: self.globals(file)?,
                }));
            }
        }
        Ok(None)
    }

    /// Reports the values that a fault in a statement is about; `None` if they are not found.
    pub(crate) fn at_statement(
        &mut self,
        site: &Site,
        statement: &Statement,
    ) -> Result<Option<Found>, AllocError> {
        let token = statement.position.token;
        match &statement.form {
            Form::Expression(value) => self.whole(site, Turn::Alone, value),
            Form::Return(Some(value)) => self.whole(site, Turn::Returned, value),
            Form::Assign { target, value } => self.assigned(site, target, value),
            Form::Augment {
                target,
                operator,
                value,
            } => self.augmented(site, *operator, target, value),
            Form::If { arms, .. } => self.conditions(site, arms.as_slice()),
            Form::For {
                target,
                iterable,
                ..
            } => self.looped(site, target, iterable),
            Form::Load { names, .. } => self.loaded(token, names.as_slice()),
            Form::Def { parameters, .. } => {
                let mut parts = Vec::new(self.alloc);
                add_defaults(&mut parts, parameters.as_slice())?;
                self.defaults(site, parts.as_slice())
            }
            _ => Ok(None),
        }
    }
}
