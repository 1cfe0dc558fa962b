//! Finds values that cannot be iterated, values that cannot be unpacked, and items that cannot be set.

use crate::look::Look;
use crate::parts::clauses_of;
use crate::search::Visit;
use crate::shown::type_of;
use star_found::about::{About, Found, Turn, Type};
use star_machine::content::Kind;
use star_meaning::fault::FaultCode;
use star_meaning::site::Site;
use star_store::values::Value;
use star_tree::tree::{Clause, Expression, Target};
use std::alloc::AllocError;

/// At most this many bindings of the items of a value are tried.
const MOST_ITEMS: usize = 50_000;

/// At most this many targets within one are tried.
const MOST_TARGETS: usize = 1_000;

/// A target to which a value is to be bound.
#[derive(Clone, Copy)]
struct Binding<'p> {
    target: &'p Target,
    value: Value,
    /// The turn that leads to it from the targets that have it.
    turn: Turn,
    /// The number of these targets.
    outer: Option<usize>,
}

/// Where a value comes from that is to be bound.
#[derive(Clone, Copy)]
pub(crate) enum Source {
    /// From the part to which this turn leads.
    Part(Turn),
    /// It is an item that a loop takes of a value of this type.
    Item(Type),
    /// It is within such a value.
    Within,
}

/// Why a value cannot be bound to a target.
#[derive(Drop)]
pub(crate) enum Unbound<'p> {
    /// This is wrong.
    Found(Found),
    /// This part of the target stops, to which the turn leads from the way of the search.
    Part(Turn, &'p Expression),
}

/// A report as a reason.
fn reason_of<'p>(found: Option<Found>) -> Option<Unbound<'p>> {
    match found {
        Some(found) => Some(Unbound::Found(found)),
        None => None,
    }
}

/// The targets that a value is unpacked to; `None` if it is bound to one target.
fn targets_of(target: &Target) -> Option<&[Target]> {
    match target {
        Target::Tuple(targets) | Target::List(targets) => Some(targets.as_slice()),
        _ => None,
    }
}

/// Whether an index leads to none of so many items.
fn is_outside(at: Value, items: usize) -> bool {
    let items = i64::try_from(items).unwrap_or(i64::MAX);
    match at {
        Value::Int(at) => at >= items || at < 0i64.saturating_sub(items),
        _ => false,
    }
}

/// Adds turns to a way, the last one first.
fn push_back_to_front(way: &mut Vec<Turn>, turns: &[Turn]) -> Result<(), AllocError> {
    for turn in turns.iter().rev() {
        way.push(*turn)?;
    }
    Ok(())
}

impl<'w, 'a, 't> Look<'w, 'a, 't> {
    /// The number of items of an iterable; `None` for another value.
    pub(crate) fn count(&self, value: Value) -> Option<usize> {
        let line = self.fault.line;
        self.machine
            .count_of(self.world.setting(), line, value)
            .ok()
    }

    /// The value, if the fault is that it is not an iterable. These turns lead to its place.
    fn not_iterable(
        &mut self,
        turns: &[Turn],
        value: Value,
        of: Option<Type>,
    ) -> Result<Option<Found>, AllocError> {
        match self.fault.code {
            FaultCode::BadType => self.iterable(turns, value, of),
            _ => Ok(None),
        }
    }

    /// The value, if the fault is that it does not have as many items as there are targets.
    fn not_unpacked(
        &mut self,
        value: Value,
        of: Option<Type>,
        items: usize,
        targets: usize,
    ) -> Result<Option<Found>, AllocError> {
        if items == targets || self.fault.code != FaultCode::BadValue {
            return Ok(None);
        }
        let value = self.shown(value)?;
        let about = About::Unpacked {
            value,
            items,
            targets,
            of,
        };
        self.found(&[], about)
    }

    /// Whether the fault may be that an item of a value cannot be set.
    fn may_be_unset(&mut self, value: Value, at: Value) -> bool {
        let items = self.size(value);
        match (self.fault.code, self.kind(value)) {
            (FaultCode::Frozen | FaultCode::Iterating, Kind::List | Kind::Dict) => {
                self.may_be_written(value)
            }
            (FaultCode::Index, Kind::List) => is_outside(at, items),
            (FaultCode::BadType, Kind::List) => !matches!(at, Value::Int(_)),
            (FaultCode::BadType, Kind::Dict) => self.is_no_key(at),
            (FaultCode::BadType, _) => true,
            _ => false,
        }
    }

    /// What is wrong with the target `base[at]`: a part that stops as the run did, or that the item cannot be set.
    pub(crate) fn unset<'p>(
        &mut self,
        site: &Site,
        base: &'p Expression,
        at: &'p Expression,
    ) -> Result<Option<Unbound<'p>>, AllocError> {
        let value = match self.value_or_same(site, base)? {
            Ok(value) => value,
            Err(true) => return Ok(Some(Unbound::Part(Turn::Owner, base))),
            Err(false) => return Ok(None),
        };
        let index = match self.value_or_same(site, at)? {
            Ok(index) => index,
            Err(true) => return Ok(Some(Unbound::Part(Turn::Index, at))),
            Err(false) => return Ok(None),
        };
        if !self.may_be_unset(value, index) {
            return Ok(None);
        }
        let found = self.index(&[], Some(value), Some(index))?;
        Ok(reason_of(found))
    }

    /// Makes the way of the search lead to a binding, from the way of this length.
    fn go_to(
        &mut self,
        depth: usize,
        bindings: &[Binding<'_>],
        at: usize,
    ) -> Result<(), AllocError> {
        let mut turns = Vec::new(self.alloc);
        let mut next = bindings.get(at);
        for _ in 0..bindings.len() {
            let Some(binding) = next else {
                break;
            };
            turns.push(binding.turn)?;
            next = match binding.outer {
                Some(outer) => bindings.get(outer),
                None => None,
            };
        }
        self.way.truncate(depth);
        push_back_to_front(&mut self.way, turns.as_slice())
    }

    /// Why a value cannot be unpacked to targets.
    fn unpacked(
        &mut self,
        value: Value,
        targets: &[Target],
        source: Source,
    ) -> Result<Option<Found>, AllocError> {
        match (self.count(value), source) {
            (Some(items), Source::Item(of)) => {
                self.not_unpacked(value, Some(of), items, targets.len())
            }
            (Some(items), _) => self.not_unpacked(value, None, items, targets.len()),
            (None, Source::Part(turn)) => {
                self.way.pop();
                self.not_iterable(&[turn], value, None)
            }
            (None, Source::Item(of)) => self.not_iterable(&[], value, Some(of)),
            (None, Source::Within) => self.not_iterable(&[], value, None),
        }
    }

    /// Why a target cannot be bound to its value.
    fn unbindable<'p>(
        &mut self,
        site: &Site,
        binding: Binding<'p>,
        source: Source,
    ) -> Result<Option<Unbound<'p>>, AllocError> {
        if let Target::Index { value, index } = binding.target {
            return self.unset(site, value.get(), index.get());
        }
        match targets_of(binding.target) {
            Some(targets) => Ok(reason_of(self.unpacked(binding.value, targets, source)?)),
            None => Ok(None),
        }
    }

    /// Why a value cannot be bound to a target, to which `turn` leads: an item cannot be set, or a value cannot be
    /// unpacked, this one or one within it. The way of the search is left at the target at fault. A value that was being iterated is told only if no other target
    /// can have been the one.
    pub(crate) fn bound<'p>(
        &mut self,
        site: &Site,
        turn: Turn,
        target: &'p Target,
        value: Value,
        source: Source,
    ) -> Result<Option<Unbound<'p>>, AllocError> {
        let depth = self.way.len();
        let mut bindings = Vec::new(self.alloc);
        let first = Binding {
            target,
            value,
            turn,
            outer: None,
        };
        bindings.push(first)?;
        let mut left = Vec::new(self.alloc);
        left.push(0usize)?;
        let mut known = None;
        for _ in 0..MOST_TARGETS {
            let Some(at) = left.pop() else {
                break;
            };
            let Some(binding) = bindings.get(at).copied() else {
                break;
            };
            self.go_to(depth, bindings.as_slice(), at)?;
            let source = if at == 0 { source } else { Source::Within };
            match self.unbindable(site, binding, source)? {
                Some(reason) if self.fault.code != FaultCode::Iterating => return Ok(Some(reason)),
                Some(_) if known.is_some() => return Ok(None),
                Some(reason) => known = Some(reason),
                None => {}
            }
            self.add_inner(&mut bindings, &mut left, at, binding)?;
        }
        self.way.truncate(depth);
        Ok(known)
    }

    /// Adds the bindings within a binding, so that the first is taken first.
    fn add_inner<'p>(
        &self,
        bindings: &mut Vec<Binding<'p>>,
        left: &mut Vec<usize>,
        outer: usize,
        binding: Binding<'p>,
    ) -> Result<(), AllocError> {
        let targets = targets_of(binding.target).unwrap_or(&[]);
        for (i, target) in targets.iter().enumerate().rev() {
            let item = self.machine.item(self.world.setting(), binding.value, i);
            if let Some(value) = item {
                left.push(bindings.len())?;
                bindings.push(Binding {
                    target,
                    value,
                    turn: Turn::Item(i),
                    outer: Some(outer),
                })?;
            }
        }
        Ok(())
    }

    /// Why the first item of a value that cannot be bound to a target cannot be; or that the value is not an iterable. The
    /// turns lead to the value and to the target.
    pub(crate) fn items_bound<'p>(
        &mut self,
        site: &Site,
        (source, turn): (Turn, Turn),
        target: &'p Target,
        value: Value,
    ) -> Result<Option<Unbound<'p>>, AllocError> {
        let Some(count) = self.count(value) else {
            return Ok(reason_of(self.not_iterable(&[source], value, None)?));
        };
        if matches!(target, Target::Name(_)) {
            return Ok(None);
        }
        let of = Source::Item(type_of(self.kind(value)));
        let targets = targets_of(target).unwrap_or(&[]).len();
        for i in 0..count.min(MOST_ITEMS / targets.saturating_add(1).max(1)) {
            if let Some(item) = self.machine.item(self.world.setting(), value, i) {
                if let Some(reason) = self.bound(site, turn, target, item, of)? {
                    return Ok(Some(reason));
                }
            }
        }
        Ok(None)
    }

    /// What is wrong in the later `for` clauses of a comprehension whose parts do not stop: a value that is not an
    /// iterable, or an item that cannot be bound to its target.
    fn clauses<'p>(
        &mut self,
        visit: &Visit<'_>,
        clauses: &'p [Clause],
    ) -> Result<Option<Unbound<'p>>, AllocError> {
        for (i, clause) in clauses.iter().enumerate() {
            let n = i.saturating_add(1);
            let (Clause::For { target, .. }, Some(value)) = (clause, visit.value(n)) else {
                continue;
            };
            let turns = (Turn::Clause(n), Turn::ClauseTarget(n));
            if let Some(reason) = self.items_bound(&visit.here, turns, target, value)? {
                return Ok(Some(reason));
            }
        }
        Ok(None)
    }

    /// Reports a fault of a comprehension whose parts do not stop: in its first clause, in its later clauses, or in its
    /// key. A target with a part that stops is not reported.
    pub(crate) fn comprehension(&mut self, visit: &Visit<'_>) -> Result<Option<Found>, AllocError> {
        let (Some(clauses), Some(first)) = (clauses_of(visit.expression), visit.value(0)) else {
            return Ok(None);
        };
        let turns = (Turn::Clause(0), Turn::ClauseTarget(0));
        let mut reason = self.items_bound(&visit.here, turns, &clauses.target, first)?;
        if reason.is_none() {
            reason = self.clauses(visit, clauses.more.as_slice())?;
        }
        match (reason, visit.expression) {
            (Some(Unbound::Found(found)), _) => Ok(Some(found)),
            (Some(Unbound::Part(..)), _) => Ok(None),
            (None, Expression::DictComprehension { .. }) if self.fault.code == FaultCode::BadType =>
                {
                    let key = clauses.more.as_slice().len().saturating_add(1);
                    self.bad_key(0, visit.value(key))
                }
            (None, _) => Ok(None),
        }
    }
}
