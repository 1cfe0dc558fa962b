//! Names the values that a fault at an expression is about, by the form of the expression.

use crate::look::{Look, found_at};
use crate::search::{LEVELS, Visit};
use star_attribute::attributes::attribute_names;
use star_found::about::{About, Found, Place, Turn, Type};
use star_machine::content::{Content, Kind};
use star_meaning::fault::FaultCode;
use star_meaning::site::Site;
use star_scope::spot::Spot;
use star_store::values::{Cell, Frame, Value};
use star_text::Text;
use star_tree::tree::{BinaryOperator, Comparator, Expression, Name, UnaryOperator};
use std::alloc::AllocError;

/// At most this many keys of a dictionary, or names of a struct, are collected, to be compared with a missing one.
const MOST_KEYS: usize = 200;

/// At most this many keys of a display are compared with one another.
const MOST_ENTRIES: usize = 1_000;

fn sign_of(operator: BinaryOperator) -> &'static str {
    match operator {
        BinaryOperator::Add => "+",
        BinaryOperator::Subtract => "-",
        BinaryOperator::Multiply => "*",
        BinaryOperator::FloorDivide => "//",
        BinaryOperator::Modulo => "%",
        BinaryOperator::ShiftLeft => "<<",
        BinaryOperator::ShiftRight => ">>",
        BinaryOperator::BitAnd => "&",
        BinaryOperator::BitXor => "^",
        BinaryOperator::BitOr => "|",
    }
}

/// The sign of an augmented assignment.
pub(crate) fn assigning(operator: BinaryOperator) -> &'static str {
    match operator {
        BinaryOperator::Add => "+=",
        BinaryOperator::Subtract => "-=",
        BinaryOperator::Multiply => "*=",
        BinaryOperator::FloorDivide => "//=",
        BinaryOperator::Modulo => "%=",
        BinaryOperator::ShiftLeft => "<<=",
        BinaryOperator::ShiftRight => ">>=",
        BinaryOperator::BitAnd => "&=",
        BinaryOperator::BitXor => "^=",
        BinaryOperator::BitOr => "|=",
    }
}

fn sign_between(comparator: Comparator) -> &'static str {
    match comparator {
        Comparator::Equal => "==",
        Comparator::NotEqual => "!=",
        Comparator::Less => "<",
        Comparator::Greater => ">",
        Comparator::LessEqual => "<=",
        Comparator::GreaterEqual => ">=",
        Comparator::In => "in",
        Comparator::NotIn => "not in",
    }
}

fn sign_before(operator: UnaryOperator) -> &'static str {
    match operator {
        UnaryOperator::Plus => "+",
        UnaryOperator::Minus => "-",
        UnaryOperator::Invert => "~",
        UnaryOperator::Not => "not",
    }
}

impl<'w, 'a, 't> Look<'w, 'a, 't> {
    /// Whether the fault may have come from writing to a value: a frozen value is of another file, one that is iterated
    /// is of the file that ran. True for faults that do not come from writing.
    pub(crate) fn may_be_written(&self, value: Value) -> bool {
        match self.fault.code {
            FaultCode::Frozen => !self.is_own(value),
            FaultCode::Iterating => self.is_own(value),
            _ => true,
        }
    }

    /// Whether a value is in the store of the run that stopped.
    fn is_own(&self, value: Value) -> bool {
        match value {
            Value::Ref { home, .. } => home == self.fault.home,
            _ => false,
        }
    }

    /// `left sign right`
    pub(crate) fn operands(
        &mut self,
        sign: &'static str,
        left: Option<Value>,
        right: Option<Value>,
    ) -> Result<Option<Found>, AllocError> {
        let (Some(left), Some(right)) = (left, right) else {
            return Ok(None);
        };
        let (left, right) = (self.shown(left)?, self.shown(right)?);
        let sign = Text::new(self.alloc, sign)?;
        self.found(&[], About::Operands { sign, left, right })
    }

    /// `left operator right`, or the field of a format that it does not fill.
    fn computed_from(
        &mut self,
        operator: BinaryOperator,
        left: Option<Value>,
        right: Option<Value>,
    ) -> Result<Option<Found>, AllocError> {
        let is_of_format = matches!(
            self.fault.code,
            FaultCode::BadType | FaultCode::BadValue | FaultCode::Key
        );
        if is_of_format && operator == BinaryOperator::Modulo {
            if let Some(found) = self.letters(left, right)? {
                return Ok(Some(found));
            }
        }
        self.operands(sign_of(operator), left, right)
    }

    /// `sign value`, to which these turns lead.
    pub(crate) fn operand(
        &mut self,
        turns: &[Turn],
        sign: &'static str,
        value: Option<Value>,
    ) -> Result<Option<Found>, AllocError> {
        let Some(value) = value else {
            return Ok(None);
        };
        let value = self.shown(value)?;
        let sign = Text::new(self.alloc, sign)?;
        self.found(turns, About::Operand { sign, value })
    }

    /// The keys of a dictionary that are strings.
    fn keys(&self, value: Value) -> Result<Vec<Text>, AllocError> {
        let mut keys = Vec::new(self.alloc);
        if !matches!(self.kind(value), Kind::Dict) {
            return Ok(keys);
        }
        let setting = self.world.setting();
        for i in 0..self.size(value).min(MOST_KEYS) {
            if let Some(key) = self.machine.item(setting, value, i) {
                if matches!(self.kind(key), Kind::Text) {
                    keys.push(self.machine.copied_text(setting, key)?)?;
                }
            }
        }
        Ok(keys)
    }

    /// `value[at]`, to which these turns lead.
    pub(crate) fn index(
        &mut self,
        turns: &[Turn],
        value: Option<Value>,
        at: Option<Value>,
    ) -> Result<Option<Found>, AllocError> {
        let (Some(value), Some(at)) = (value, at) else {
            return Ok(None);
        };
        let names = self.keys(value)?;
        let items = self.size(value);
        let (value, at) = (self.shown(value)?, self.shown(at)?);
        Ok(Some(Found {
            about: About::Index { value, at, items },
            place: self.place(turns)?,
            names,
        }))
    }

    /// Whether a name, read at a place, is one of the file itself.
    fn is_global(&self, site: &Site, name: &Name) -> bool {
        let Some(Spot::Frame { up, .. }) = self.world.spot(site.file, name.position.token) else {
            return false;
        };
        let mut frame = Some(site.frame);
        for _ in 0..up {
            frame = match self.frame(frame) {
                Some(inner) => inner.parent,
                None => None,
            };
        }
        match self.frame(frame) {
            Some(frame) => frame.block == 0,
            None => false,
        }
    }

    /// The frame that a value leads to.
    fn frame(&self, value: Option<Value>) -> Option<&Frame> {
        match self.machine.read(self.world.setting(), value?) {
            Some(Cell::Frame(frame)) => Some(frame.get()),
            _ => None,
        }
    }

    /// A name that has no value at a place.
    pub(crate) fn unbound(&self, site: &Site, name: &Name) -> Result<Option<Found>, AllocError> {
        if self.fault.code != FaultCode::Unbound {
            return Ok(None);
        }
        let place = Place::Word(name.position.token);
        let about = About::Name {
            name: name.text.share()?,
            is_global: self.is_global(site, name),
        };
        Ok(Some(found_at(self.alloc, place, about)))
    }

    /// The names of the fields of a struct, and of the members of a module.
    fn fields(&self, value: Value) -> Result<Vec<Text>, AllocError> {
        let setting = self.world.setting();
        let content = self.machine.content(setting, value);
        if let Content::BuiltInFunction(_) = content {
            return attribute_names(self.alloc, setting.dialect(), content);
        }
        let mut names = Vec::new(self.alloc);
        if let Content::Held(Cell::Struct(fields)) = content {
            for name in fields.get().names().iter().take(MOST_KEYS) {
                names.push(name.share()?)?;
            }
        }
        Ok(names)
    }

    /// `value.name`
    fn attribute(
        &mut self,
        name: &Name,
        value: Option<Value>,
    ) -> Result<Option<Found>, AllocError> {
        let (Some(value), FaultCode::BadType) = (value, self.fault.code) else {
            return Ok(None);
        };
        let names = self.fields(value)?;
        let place = Place::Word(name.position.token);
        let about = About::Attribute {
            name: name.text.share()?,
            value: self.shown(value)?,
        };
        Ok(Some(Found {
            about,
            place,
            names,
        }))
    }

    /// `value[start:stop:stride]`
    fn slice(&mut self, value: Option<Value>) -> Result<Option<Found>, AllocError> {
        let Some(value) = value else {
            return Ok(None);
        };
        let value = self.shown(value)?;
        self.found(&[], About::Slice { value })
    }

    /// A value that a loop was to go over, or that was to be unpacked: an item of a value of a type, if it is one. These
    /// turns lead to its place.
    pub(crate) fn iterable(
        &mut self,
        turns: &[Turn],
        value: Value,
        of: Option<Type>,
    ) -> Result<Option<Found>, AllocError> {
        let value = self.shown(value)?;
        self.found(turns, About::Iterable { value, of })
    }

    /// Whether a value cannot be a key.
    pub(crate) fn is_no_key(&mut self, key: Value) -> bool {
        let line = self.fault.line;
        self.machine
            .check_key(self.world.setting(), LEVELS, line, key)
            .is_err()
    }

    /// Whether a key is equal to one of those before it.
    fn is_among(&mut self, key: Value, before: &[Value]) -> bool {
        let line = self.fault.line;
        let setting = self.world.setting();
        for other in before {
            if let Ok(true) = self.machine.equal(setting, LEVELS, line, key, *other) {
                return true;
            }
        }
        false
    }

    /// The value of the key of an entry, if it cannot be a key.
    pub(crate) fn bad_key(
        &mut self,
        entry: usize,
        key: Option<Value>,
    ) -> Result<Option<Found>, AllocError> {
        match key {
            Some(key) if self.is_no_key(key) => {
                let key = self.shown(key)?;
                self.found(&[Turn::Key(entry)], About::Key { key })
            }
            _ => Ok(None),
        }
    }

    /// The key at fault in a dictionary display whose parts have these values: for the fault `Key` one that comes
    /// twice, for any other the first that cannot be a key.
    fn display(&mut self, values: &[Option<Value>]) -> Result<Option<Found>, AllocError> {
        let mut before = Vec::new(self.alloc);
        for (entry, key) in values.iter().step_by(2).take(MOST_ENTRIES).enumerate() {
            let Some(key) = *key else {
                return Ok(None);
            };
            if self.fault.code != FaultCode::Key {
                if let Some(found) = self.bad_key(entry, Some(key))? {
                    return Ok(Some(found));
                }
            } else if self.is_among(key, before.as_slice()) {
                let key = self.shown(key)?;
                return self.found(&[Turn::Key(entry)], About::Key { key });
            }
            before.push(key)?;
        }
        Ok(None)
    }

    /// Reports the values that the fault at an expression is about, whose parts do not stop as the run did.
    pub(crate) fn about(&mut self, visit: &Visit<'_>) -> Result<Option<Found>, AllocError> {
        let (first, second) = (visit.value(0), visit.value(1));
        match visit.expression {
            Expression::Name(name) => self.unbound(&visit.site, name),
            Expression::Dict(_) => self.display(visit.values.as_slice()),
            Expression::ListComprehension { .. } | Expression::DictComprehension { .. } => {
                self.comprehension(visit)
            }
            Expression::Unary { operator, .. } => {
                self.operand(&[], sign_before(*operator), first)
            }
            Expression::Binary { operator, .. } => { self.computed_from(*operator, first, second) }
            Expression::Compare { comparator, .. } => {
                self.operands(sign_between(*comparator), first, second)
            }
            Expression::Call {
                function,
                arguments,
            } => self.call(function.get(), arguments.as_slice(), visit),
            Expression::Attribute { name, .. } => self.attribute(name, first),
            Expression::Index { .. } => self.index(&[], first, second),
            Expression::Slice { .. } => self.slice(first),
            _ => Ok(None),
        }
    }

    /// The value of a name, read at a place; `None` if it has none.
    pub(crate) fn read(&self, site: &Site, name: &Name) -> Option<Value> {
        star_world::variables::read(&self.machine, self.world, site, name).ok()
    }
}
