//! `Machine`: the state of a run, with its operations: payments, new cells, reading, iterating, comparing, writing.
//!
//! A payment comes before its object, so cells and steps together never grow. The frame of a file pays nothing, so
//! `make` has a condition: cells and steps and one more stay below 2^32. Active definitions are a list, innermost
//! first: at most 400 are active, and each call looks through them once anyway.

ghost use Rattle.std.specs.Prelude.{◌≡◌, ◌<◌, ◌≤◌, ◌+◌, ◌^◌, ◌∷◌, ◌&&◌, [], length, nat_eq, pos, slice_get, Some, IfErr, IfOk, IfSome, OnOk};
ghost use Rattle.std.specs.List.{list_any};
ghost use Rattle.std.specs.Option.{option_copied};
ghost use Rattle.star_store.specs.Content.{content as key_content};
ghost use Rattle.star_store.specs.Key.{key_levels};
ghost use Rattle.star_store.specs.Store.{Shelf, bound, look, slot_value};
ghost use Rattle.star_meaning.specs.Calls.{deactivate, is_active};
ghost use Rattle.star_meaning.specs.Run.{Done, add_said, agreed, and_then, build, give, make, pay, storing, visiting};
ghost use Rattle.star_meaning.specs.Program.{seen};
ghost use Rattle.star_machine.specs.Refines.{Refines, RefinesBy};
ghost use Rattle.star_machine.specs.Shown.{shown};
ghost use Rattle.star_machine.specs.Kinds.{bytes_of, kind_of, row_in, size_of};
ghost use Rattle.star_machine.specs.Search.{found_place};
ghost use Rattle.star_meaning.specs.Subscript.{entries_in};
ghost use Rattle.star_meaning.specs.Values.{int_of, place_in, value_in, text_of, text_value, change, check_key, compare, content, count_of, encoded, equal, guard, is_true, item_in, iterate, leave, new_dict, new_int, new_list, new_set, new_text, bare, new_tuple, repr, str, take_all, take_item, take_items, want_bool, want_int, want_text};

use crate::content::{Content, Kind, item_of_cell};
use crate::fault::{EvalError, fault_at, refused};
use crate::search::equal_place;
use crate::setting::Setting;
use star_meaning::fault::FaultCode;
use star_meaning::said::Said;
use star_meaning::story::Story;
use star_store::arena::Arena;
use star_store::arena::write::Change;
use star_store::budget::Budget;
use star_store::content::{KeyContent, content};
use star_store::fault::StoreFault;
use star_store::key::{check_key, place_of};
use star_store::layout::Layout;
use star_store::values::{Cell, Entries, Function, Value, Values};
use star_text::Text;
use star_visit::draft::Draft;
use star_visit::encode::encode;
use star_visit::equal::equal;
use star_visit::order::order;
use star_visit::text::repr;
use star_visit::truth::is_true;
use std::alloc::{AllocError, Global};
use std::cmp::Ordering;
use std::marker::Model;

/// The part that a run changes: the running module's store, the definitions that are active (file and number, the
/// innermost first), the steps left, and what was said. Beside them is the trail that a fault has left on its way
/// out.
#[derive(Drop)]
pub struct Machine {
    alloc: Global,
    arena: Arena,
    active: Vec<(u32, u32)>,
    steps: u64,
    lines: Vec<Said>,
    pub(crate) left: Story,
}

impl Model for Machine {
    ghost use Rattle.star_meaning.specs.Run.{State};

    ghost Value = { State };

    ghost view = { λ m. record { store = m.arena; active = m.active.items; steps = m.steps; lines = m.lines.items } };

    ghost use Rattle.std.specs.Prelude.{◌+◌, ◌^◌, ◌<◌, length};

    ghost invariant = { λ m. length m.arena.cells + m.steps < 2 ^ 32 };
}

impl Machine {
    /// A machine of a file, with no cell and these steps left. Its keys are hashed by the seed 0.
    pub fn new(alloc: Global, home: u32, steps: u32) -> Machine
        requires { steps < 2 ^ 31 }
        ensures { result ≡ record {
          store = record { home = home; cells = [] };
          active = [];
          steps = steps;
          lines = [];
        } }
    {
        Machine::with_seed(alloc, home, steps, 0)
    }

    /// The same, with a seed for the hashes of keys (`Arena::with_seed`).
    pub fn with_seed(alloc: Global, home: u32, steps: u32, seed: u64) -> Machine
        requires { steps < 2 ^ 31 }
        ensures { result ≡ record {
          store = record { home = home; cells = [] };
          active = [];
          steps = steps;
          lines = [];
        } }
    {
        Machine {
            alloc,
            arena: Arena::with_seed(alloc, home, seed),
            active: Vec::new(alloc),
            steps: steps as u64,
            lines: Vec::new(alloc),
            left: Story {
                trail: Vec::new(alloc),
            },
        }
    }

    /// Pays steps. `Steps` if they are more than are left.
    #[tactic(auto, unfolding(star_meaning::specs::Run::pay))]
    pub fn pay(&mut self, line: usize, steps: u128) -> Result<(), EvalError>
        ensures answer { Refines (pay line steps self.old) result self.new }
        ensures kept { self.new.store ≡ self.old.store }
    {
        if (self.steps as u128) < steps {
            return Err(fault_at(FaultCode::Steps, line));
        }
        self.steps -= steps as u64;
        Ok(())
    }

    /// Pays 1, as each node of a tree does. `Steps` if none is left.
    #[inline(always)]
    #[tactic(auto, unfolding(star_meaning::specs::Run::pay))]
    pub fn pay_one(&mut self, line: usize) -> Result<(), EvalError>
        ensures answer { Refines (pay line 1 self.old) result self.new }
        ensures kept { self.new.store ≡ self.old.store }
    {
        if self.steps == 0 {
            return Err(fault_at(FaultCode::Steps, line));
        }
        self.steps -= 1;
        Ok(())
    }

    /// The value of a slot of a frame of this module, if it has room in the frame's row. `None` does not mean that the
    /// slot has no value.
    #[inline(always)]
    pub fn near(&self, frame: Value, slot: usize) -> Option<Value>
        ensures { IfSome result (λ v. (shelf : Shelf) → slot_value (look self.now.store shelf frame) slot ≡ Some v) }
    {
        self.arena.near(frame, slot)
    }

    /// The cell that a value leads to; `None` for another value than a `Ref`, and if it leads nowhere.
    pub fn read<'a>(&'a self, setting: &'a Setting<'a>, value: Value) -> Option<&'a Cell>
        ensures { option_copied result ≡ seen setting.now self.now value }
    {
        self.arena.read(setting.homes(), value)
    }

    /// The value with its heap object looked up.
    #[inline(always)]
    pub fn content<'a>(&'a self, setting: &'a Setting<'a>, value: Value) -> Content<'a>
        ensures { shown result ≡ content setting.now self.now value }
    {
        match value {
            Value::NoneValue => Content::Nothing,
            Value::Bool(truth) => Content::Truth(truth),
            Value::Int(number) => Content::Number(number),
            Value::Builtin(function) => Content::BuiltInFunction(function),
            Value::Ref { .. } => Content::of_cell(self.read(setting, value)),
        }
    }

    /// The kind of a value.
    #[inline(always)]
    pub fn kind(&self, setting: &Setting, value: Value) -> Kind
        ensures { result ≡ kind_of (content setting.now self.now value) }
    {
        self.content(setting, value).kind()
    }

    /// How many items an iterable has; `None` for another value.
    pub fn size(&self, setting: &Setting, value: Value) -> usize
        ensures { result ≡ size_of (content setting.now self.now value) }
    {
        self.content(setting, value).count().unwrap_or(0)
    }

    /// A new cell that is paid for.
    #[inline(always)]
    #[tactic(auto, unfolding(star_meaning::specs::Run::build, star_meaning::specs::Run::make, star_meaning::specs::Run::pay))]
    pub fn build(&mut self, line: usize, cost: u128, cell: Cell) -> Result<Value, EvalError>
        requires { 0 < cost }
        ensures { Refines (build line cost cell self.old) result self.new }
    {
        if (self.steps as u128) < cost {
            return Err(fault_at(FaultCode::Steps, line));
        }
        self.steps -= cost as u64;
        match self.arena.make(cell) {
            Ok(value) => Ok(value),
            Err(_memory) => Err(EvalError::Memory),
        }
    }

    /// A new cell that is not paid for, such as the frame of a file.
    #[tactic(auto, unfolding(star_meaning::specs::Run::make))]
    pub fn make(&mut self, cell: Cell) -> Result<Value, EvalError>
        requires { length self.old.store.cells + self.old.steps + 1 < 2 ^ 32 }
        ensures { Refines (make cell self.old) result self.new }
    {
        match self.arena.make(cell) {
            Ok(value) => Ok(value),
            Err(_memory) => Err(EvalError::Memory),
        }
    }

    /// Gives a slot of a frame of this module a value. If there is no such slot, nothing changes.
    #[tactic(auto, using(crate::proofs::Cells::length_bound))]
    pub fn bind(&mut self, frame: Value, slot: usize, value: Value) -> Result<(), EvalError>
        ensures { Refines (storing (bound frame slot value) self.old) result self.new }
    {
        match self.arena.bind(frame, slot, value) {
            Ok(()) => Ok(()),
            Err(_memory) => Err(EvalError::Memory),
        }
    }

    /// Whether the definition of a function is active.
    pub fn is_active(&self, function: &Function) -> bool
        ensures { result ≡ is_active self.now function.now }
    {
        is_among(&self.active, function.file, function.definition)
    }

    /// The definition with this number in a file becomes active, as the innermost.
    pub fn activate(&mut self, file: u32, definition: u32) -> Result<(), EvalError>
        ensures active { OnOk result (self.new ≡ record self.old { active = (file, definition) ∷ self.old.active }) }
        ensures memory { IfErr result (λ e. e ≡ EvalError.Memory) }
    {
        self.active.insert(0, (file, definition))?;
        Ok(())
    }

    /// The innermost active definition ceases to be active.
    #[tactic(auto, unfolding(star_meaning::specs::Calls::deactivate))]
    pub fn deactivate(&mut self)
        ensures { deactivate self.old ≡ Done tt self.new }
    {
        if !self.active.is_empty() {
            let _definition = self.active.remove(0);
        }
    }

    /// How many steps are left.
    pub fn steps_left(&self) -> u32
        ensures { result ≡ self.now.steps }
    {
        self.steps as u32
    }

    /// Checks that these steps are left. `Steps` if they are not.
    pub fn afford(&self, line: usize, steps: u128) -> Result<(), EvalError>
        ensures enough { OnOk result (steps ≤ self.now.steps) }
        ensures lacking { IfErr result (λ e. (e ≡ EvalError.Faulted FaultCode.Steps line) × (self.now.steps < steps)) }
    {
        if (self.steps as u128) < steps {
            return Err(fault_at(FaultCode::Steps, line));
        }
        Ok(())
    }

    /// A new string: 1 and its bytes are paid.
    #[inline(always)]
    pub fn new_text(&mut self, line: usize, text: Text) -> Result<Value, EvalError>
        ensures { Refines (new_text line text self.old) result self.new }
    {
        let cost = 1 + text.as_str().len() as u128;
        self.build(line, cost, Cell::Text(text))
    }

    /// A new string: 1 and its bytes are paid, and it is built only if they can be paid.
    #[tactic(auto, unfolding(star_meaning::specs::Run::build, star_meaning::specs::Run::make, star_meaning::specs::Run::pay))]
    pub fn new_draft(&mut self, line: usize, draft: Draft) -> Result<Value, EvalError>
        ensures { Refines (new_text line draft self.old) result self.new }
    {
        match draft.text_within(self.steps as usize)? {
            Some(text) => self.new_text(line, text),
            None => Err(fault_at(FaultCode::Steps, line)),
        }
    }

    /// Pays 1 and the bytes of a draft, and answers its text, which is built only if they can be paid.
    #[tactic(auto, unfolding(star_meaning::specs::Run::pay))]
    pub fn pay_for_draft(&mut self, line: usize, draft: Draft) -> Result<Text, EvalError>
        ensures answer { Refines (and_then (pay line (1 + length draft) self.old) (λ paid. give draft)) result self.new }
        ensures within { IfOk result (λ text. 1 + length text ≤ self.old.steps) }
    {
        match draft.text_within(self.steps as usize)? {
            Some(text) => {
                self.pay(line, 1 + text.as_str().len() as u128)?;
                Ok(text)
            }
            None => Err(fault_at(FaultCode::Steps, line)),
        }
    }

    /// Pays 1, the bytes of a draft and these further steps, and answers the draft's text, which is built only if they
    /// can be paid.
    #[tactic(auto, unfolding(star_meaning::specs::Run::pay))]
    pub fn pay_for_more(&mut self, line: usize, draft: Draft, more: u64) -> Result<Text, EvalError>
        ensures { Refines (and_then (pay line (1 + length draft + more) self.old) (λ paid. give draft)) result self.new }
    {
        match draft.text_within(self.steps as usize)? {
            Some(text) => {
                self.pay(line, 1 + text.as_str().len() as u128 + more as u128)?;
                Ok(text)
            }
            None => Err(fault_at(FaultCode::Steps, line)),
        }
    }

    /// A new tuple: 1 and its items are paid.
    pub fn new_tuple(&mut self, line: usize, items: Values) -> Result<Value, EvalError>
        ensures { Refines (new_tuple line items self.old) result self.new }
    {
        let cost = 1 + items.len() as u128;
        self.build(line, cost, Cell::Tuple(items))
    }

    /// A new list: 1 and its items are paid.
    pub fn new_list(&mut self, line: usize, items: Values) -> Result<Value, EvalError>
        ensures { Refines (new_list line items self.old) result self.new }
    {
        let cost = 1 + items.len() as u128;
        self.build(line, cost, Cell::List(items))
    }

    /// A new dictionary: 1 and its entries are paid.
    pub fn new_dict(&mut self, line: usize, entries: Entries) -> Result<Value, EvalError>
        ensures { Refines (new_dict line entries self.old) result self.new }
    {
        let cost = 1 + entries.len() as u128;
        self.build(line, cost, Cell::Dict(entries))
    }

    /// A new set: 1 and its elements are paid.
    pub fn new_set(&mut self, line: usize, elements: Entries) -> Result<Value, EvalError>
        ensures { Refines (new_set line elements self.old) result self.new }
    {
        let cost = 1 + elements.len() as u128;
        self.build(line, cost, Cell::Set(elements))
    }

    /// The number of items of an iterable. `BadType` for another value.
    #[tactic(auto, unfolding(star_meaning::specs::Values::count_of))]
    pub fn count_of(&self, setting: &Setting, line: usize, value: Value) -> Result<usize, EvalError>
        ensures { Refines (count_of setting.now line value self.now) result self.now }
    {
        match self.content(setting, value).count() {
            Some(count) => Ok(count),
            None => Err(fault_at(FaultCode::BadType, line)),
        }
    }

    /// Takes the item at a place: 1 is paid before it.
    #[tactic(auto, unfolding(star_meaning::specs::Values::take_item, star_meaning::specs::Run::pay))]
    pub fn take_item(
        &mut self,
        setting: &Setting,
        line: usize,
        value: Value,
        at: usize,
    ) -> Result<Value, EvalError>
        ensures answer { Refines (take_item setting.now line value at self.old) result self.new }
        ensures kept { self.new.store ≡ self.old.store }
    {
        self.pay(line, 1)?;
        match self.item(setting, value, at) {
            Some(item) => Ok(item),
            None => Err(fault_at(FaultCode::BadType, line)),
        }
    }

    /// The item of an iterable at a place: none outside, and for another value.
    pub fn item(&self, setting: &Setting, value: Value, at: usize) -> Option<Value>
        ensures { result ≡ item_in (content setting.now self.now value) at }
    {
        match value {
            Value::Ref { .. } => match self.read(setting, value) {
                Some(cell) => item_of_cell(cell, at),
                None => None,
            },
            _ => None,
        }
    }

    /// Whether a value counts as true.
    #[inline(always)]
    #[tactic(auto, unfolding(star_meaning::specs::Values::is_true))]
    pub fn is_true(&self, setting: &Setting, value: Value) -> bool
        ensures { is_true setting.now value self.now ≡ Done result self.now }
    {
        if let Value::Bool(truth) = value {
            return truth;
        }
        is_true(&self.arena, setting.homes(), value)
    }

    /// Whether two values are equal, which pays a step for each visit.
    #[tactic(auto, unfolding(star_meaning::specs::Values::equal))]
    pub fn equal(
        &mut self,
        setting: &Setting,
        levels: u32,
        line: usize,
        x: Value,
        y: Value,
    ) -> Result<bool, EvalError>
        ensures answer { Refines (equal setting.now levels line x y self.old) result self.new }
        ensures kept { self.new.store ≡ self.old.store }
    {
        let mut budget = Budget {
            steps: self.steps,
            levels,
        };
        let answer = equal(&self.arena, setting.homes(), &mut budget, x, y);
        self.steps = budget.steps;
        answer.map_err(|fault| refused(fault, line))
    }

    /// The order of two values, which pays a step for each visit. `BadType` if they have none.
    #[tactic(auto, unfolding(star_meaning::specs::Values::compare))]
    pub fn compare(
        &mut self,
        setting: &Setting,
        levels: u32,
        line: usize,
        x: Value,
        y: Value,
    ) -> Result<Ordering, EvalError>
        ensures answer { Refines (compare setting.now levels line x y self.old) result self.new }
        ensures kept { self.new.store ≡ self.old.store }
    {
        let mut budget = Budget {
            steps: self.steps,
            levels,
        };
        let answer = order(&self.arena, setting.homes(), &mut budget, x, y);
        self.steps = budget.steps;
        answer.map_err(|fault| refused(fault, line))
    }

    /// Checks that a value is a key, which pays a step for each visit. `BadType` if it is not.
    #[inline(always)]
    #[tactic(auto, unfolding(star_meaning::specs::Values::check_key))]
    pub fn check_key(
        &mut self,
        setting: &Setting,
        levels: u32,
        line: usize,
        key: Value,
    ) -> Result<(), EvalError>
        ensures answer { Refines (check_key setting.now levels line key self.old) result self.new }
        ensures kept { self.new.store ≡ self.old.store }
    {
        let mut budget = Budget {
            steps: self.steps,
            levels,
        };
        let answer = check_key(&self.arena, setting.homes(), &mut budget, key);
        self.steps = budget.steps;
        answer.map_err(|fault| refused(fault, line))
    }

    /// The text of a value, which pays a step for each visit: a draft, in which at most about `room` bytes of long
    /// strings are copied.
    #[tactic(auto, unfolding(star_meaning::specs::Values::repr))]
    pub fn repr(
        &mut self,
        setting: &Setting,
        levels: u32,
        line: usize,
        value: Value,
        room: usize,
    ) -> Result<Draft, EvalError>
        ensures answer { Refines (repr setting.now levels line value self.old) result self.new }
        ensures kept { self.new.store ≡ self.old.store }
    {
        let mut budget = Budget {
            steps: self.steps,
            levels,
        };
        let answer = repr(
            self.alloc,
            &self.arena,
            setting.homes(),
            setting.language().recorded.names(),
            &mut budget,
            value,
            room,
        );
        self.steps = budget.steps;
        answer.map_err(|fault| refused(fault, line))
    }

    /// The JSON of a value, in a layout: a draft in which at most about `room` bytes of long strings are copied. `BadType`
    /// for a value that has none.
    #[tactic(auto, unfolding(star_meaning::specs::Values::encoded))]
    pub fn encoded(
        &mut self,
        setting: &Setting,
        levels: u32,
        line: usize,
        layout: &Layout,
        value: Value,
        room: usize,
    ) -> Result<Draft, EvalError>
        ensures answer { Refines (encoded setting.now levels line layout.now value self.old) result self.new }
        ensures kept { self.new.store ≡ self.old.store }
    {
        let mut budget = Budget {
            steps: self.steps,
            levels,
        };
        let answer = encode(
            self.alloc,
            &self.arena,
            setting.homes(),
            &mut budget,
            layout,
            value,
            room,
        );
        self.steps = budget.steps;
        answer.map_err(|fault| refused(fault, line))
    }

    /// The write guard: `BadType` unless the value is a list or dictionary, then `Frozen`, then `Iterating`.
    #[tactic(auto, unfolding(star_meaning::specs::Values::guard))]
    pub fn guard(&self, setting: &Setting, line: usize, value: Value) -> Result<(), EvalError>
        ensures { Refines (guard setting.now line value self.now) result self.now }
    {
        let answer = self.arena.may_write(setting.homes(), value);
        answer.map_err(|fault| refused(fault, line))
    }

    /// Changes a list or a dictionary, and answers the value replaced or taken out.
    #[tactic(auto, unfolding(star_meaning::specs::Values::change), using(crate::proofs::Cells::length_written))]
    pub fn change(
        &mut self,
        setting: &Setting,
        line: usize,
        target: Value,
        by: Change,
    ) -> Result<Option<Value>, EvalError>
        ensures { Refines (change setting.now line target by self.old) result self.new }
    {
        let answer = self.arena.write(setting.homes(), target, by);
        answer.map_err(|fault| refused(fault, line))
    }

    /// Prints a line, or records a call.
    #[tactic(auto, unfolding(star_meaning::specs::Run::add_said))]
    pub fn add_said(&mut self, said: Said) -> Result<(), EvalError>
        ensures { Refines (add_said said self.old) result self.new }
    {
        self.lines.push(said)?;
        Ok(())
    }

    /// Closes an iteration.
    #[tactic(auto, unfolding(star_meaning::specs::Values::leave), using(crate::proofs::Cells::length_closed))]
    pub fn leave(&mut self, value: Value)
        ensures { leave value self.old ≡ Done tt self.new }
    {
        self.arena.close_iter(value);
    }

    /// The parts of a run that has ended: its store, what was said, and the trail of a fault.
    pub fn into_parts(self) -> (Arena, Vec<Said>, Story)
        ensures store { result.0 ≡ self.store }
        ensures lines { result.1.items ≡ self.lines }
    {
        let Machine {
            alloc: _,
            arena,
            active: _,
            steps: _,
            lines,
            left,
        } = self;
        (arena, lines, left)
    }

    /// The allocator of this run.
    pub fn alloc(&self) -> Global {
        self.alloc
    }

    /// An int as a value, or the refusal of its arithmetic.
    #[inline(always)]
    pub fn new_int(&self, line: usize, int: Result<i64, StoreFault>) -> Result<Value, EvalError>
        ensures { Refines (and_then (agreed line int self.now) (λ n. give (Value.Int n))) result self.now }
    {
        match int {
            Ok(int) => Ok(Value::Int(int)),
            Err(fault) => Err(refused(fault, line)),
        }
    }

    /// A count as a value. `Overflow` if it is outside 64 bits.
    pub fn new_count(&self, line: usize, count: usize) -> Result<Value, EvalError>
        ensures { Refines (new_int line (pos count) self.now) result self.now }
    {
        if count > i64::MAX as usize {
            return Err(fault_at(FaultCode::Overflow, line));
        }
        Ok(Value::Int(count as i64))
    }

    /// The int that a value is; `BadType` for another value.
    pub fn want_int(&self, setting: &Setting, line: usize, value: Value) -> Result<i64, EvalError>
        ensures { Refines (want_int setting.now line value self.now) result self.now }
    {
        match self.content(setting, value) {
            Content::Number(int) => Ok(int),
            _ => Err(fault_at(FaultCode::BadType, line)),
        }
    }

    /// The bool that a value is; `BadType` for another value.
    pub fn want_bool(&self, setting: &Setting, line: usize, value: Value) -> Result<bool, EvalError>
        ensures { Refines (want_bool setting.now line value self.now) result self.now }
    {
        match self.content(setting, value) {
            Content::Truth(truth) => Ok(truth),
            _ => Err(fault_at(FaultCode::BadType, line)),
        }
    }

    /// Checks that a value is a string. `BadType` for another value.
    pub fn check_text(&self, setting: &Setting, line: usize, value: Value) -> Result<(), EvalError>
        ensures answer { Refines (and_then (want_text setting.now line value self.now) (λ t. give tt)) result self.now }
        ensures text { OnOk result (text_of (content setting.now self.now value)
            ≡ Some (bytes_of (content setting.now self.now value))) }
    {
        let _text = self.want_text(setting, line, value)?;
        Ok(())
    }

    /// The string that a value is; `BadType` for another value.
    pub fn want_text<'a>(
        &'a self,
        setting: &'a Setting<'a>,
        line: usize,
        value: Value,
    ) -> Result<&'a Text, EvalError>
        ensures { RefinesBy (λ t. t.now) (want_text setting.now line value self.now) result self.now }
    {
        match self.content(setting, value) {
            Content::Held(Cell::Text(text)) => Ok(text),
            _ => Err(fault_at(FaultCode::BadType, line)),
        }
    }

    /// A string as it is, with one visit.
    fn bare(
        &mut self,
        levels: u32,
        line: usize,
        text: Text,
        room: usize,
    ) -> Result<Draft, EvalError>
        ensures answer { Refines (visiting line (λ s. bare levels text) self.old) result self.new }
        ensures kept { self.new.store ≡ self.old.store }
    {
        if levels == 0 {
            return Err(fault_at(FaultCode::Deep, line));
        }
        if self.steps < 1 {
            return Err(fault_at(FaultCode::Steps, line));
        }
        self.steps -= 1;
        Ok(Draft::of(self.alloc, text, room))
    }

    /// The `str` of a value: a string itself, with one visit, else the text; a draft, as of `repr`.
    #[tactic(auto, unfolding(star_meaning::specs::Values::str))]
    pub fn str(
        &mut self,
        setting: &Setting,
        levels: u32,
        line: usize,
        value: Value,
        room: usize,
    ) -> Result<Draft, EvalError>
        ensures answer { Refines (str setting.now levels line value self.old) result self.new }
        ensures kept { self.new.store ≡ self.old.store }
    {
        match self.text_of(setting, value)? {
            Some(text) => self.bare(levels, line, text, room),
            None => self.repr(setting, levels, line, value, room),
        }
    }

    /// A copy of a string: empty for another value.
    pub fn copied_text(&self, setting: &Setting, value: Value) -> Result<Text, AllocError>
        ensures { IfOk result (λ t. t ≡ bytes_of (content setting.now self.now value)) }
    {
        match self.content(setting, value) {
            Content::Held(Cell::Text(text)) => text.share(),
            _ => Text::new(self.alloc, ""),
        }
    }

    /// A copy of the string that a value is; `None` for another value.
    fn text_of(&self, setting: &Setting, value: Value) -> Result<Option<Text>, AllocError>
        ensures { IfOk result (λ t. t ≡ text_of (content setting.now self.now value)) }
    {
        match self.content(setting, value) {
            Content::Held(Cell::Text(text)) => Ok(Some(text.share()?)),
            _ => Ok(None),
        }
    }

    /// Takes `count` items, from the first on: 1 is paid before each.
    #[tactic(auto, using(crate::proofs::Turns::collect_next))]
    pub fn take_items(
        &mut self,
        setting: &Setting,
        line: usize,
        value: Value,
        count: usize,
    ) -> Result<Values, EvalError>
        ensures { Refines (take_items setting.now line value count self.old) result self.new }
    {
        let mut items = Vec::new(self.alloc);
        for i in 0..count {
            items.push(self.take_item(setting, line, value, i)?)?;
        }
        Ok(Values::new(items))
    }

    /// Takes all items of an iterable.
    pub fn take_all(
        &mut self,
        setting: &Setting,
        line: usize,
        value: Value,
    ) -> Result<Values, EvalError>
        ensures { Refines (take_all setting.now line value self.old) result self.new }
    {
        let count = self.count_of(setting, line, value)?;
        self.take_items(setting, line, value, count)
    }

    /// Opens an iteration, and returns the number of items. `BadType` unless the value is iterable.
    #[tactic(auto, unfolding(star_meaning::specs::Values::iterate), using(crate::proofs::Cells::length_opened))]
    pub fn iterate(
        &mut self,
        setting: &Setting,
        line: usize,
        value: Value,
    ) -> Result<usize, EvalError>
        ensures { Refines (iterate setting.now line value self.old) result self.new }
    {
        let count = self.count_of(setting, line, value)?;
        if self.arena.open_iterations(value) >= u32::MAX - 1 {
            return Err(EvalError::Memory);
        }
        self.arena.open_iter(value);
        Ok(count)
    }

    /// The place of the first item of a list or tuple that is equal to a value, with a visit for each pair up to it.
    #[tactic(auto, unfolding(crate::specs::Search::found_place))]
    pub fn equal_place(
        &mut self,
        setting: &Setting,
        levels: u32,
        line: usize,
        row: Value,
        value: Value,
    ) -> Result<Option<usize>, EvalError>
        ensures answer { Refines (found_place setting.now levels line value (row_in (seen setting.now self.old row))
            self.old) result self.new }
        ensures kept { self.new.store ≡ self.old.store }
    {
        let mut budget = Budget {
            steps: self.steps,
            levels,
        };
        let answer = equal_place(&self.arena, setting.homes(), &mut budget, row, value);
        self.steps = budget.steps;
        answer.map_err(|fault| refused(fault, line))
    }

    /// The int that a value is; `None` for another value.
    pub fn int_of(&self, setting: &Setting, value: Value) -> Option<i64>
        ensures { result ≡ int_of (content setting.now self.now value) }
    {
        match self.content(setting, value) {
            Content::Number(int) => Some(int),
            _ => None,
        }
    }

    /// The bytes of a string; `None` for another value.
    pub fn bytes<'a>(&'a self, setting: &'a Setting<'a>, value: Value) -> &'a [u8]
        ensures { result.now ≡ bytes_of (content setting.now self.now value) }
    {
        match self.content(setting, value) {
            Content::Held(Cell::Text(text)) => text.as_str().as_bytes(),
            _ => &[],
        }
    }

    /// How many bytes a string has; `None` for another value.
    pub fn text_size(&self, setting: &Setting, value: Value) -> usize
        ensures { result ≡ length (bytes_of (content setting.now self.now value)) }
    {
        self.bytes(setting, value).len()
    }

    /// The byte of a string at a place: none outside, and for another value.
    pub fn byte(&self, setting: &Setting, value: Value, at: usize) -> Option<u8>
        ensures { result ≡ slice_get (bytes_of (content setting.now self.now value)) at }
    {
        self.bytes(setting, value).get(at).copied()
    }

    /// The place of the entry with a key.
    pub fn place_of(&self, setting: &Setting, key: Value, entries: &Entries) -> Option<usize>
        ensures { result ≡ place_in setting.now self.now key entries.now }
    {
        place_of(&self.arena, setting.homes(), key, entries)
    }

    /// The content of a key, if it has one and memory suffices.
    pub(crate) fn key_content(&self, setting: &Setting, key: Value) -> Option<KeyContent>
        ensures { IfSome result (λ c. key_content (look self.now.store setting.now.shelf) key_levels key ≡ Some c) }
    {
        match content(self.alloc, &self.arena, setting.homes(), key) {
            Ok(content) => content,
            Err(_) => None,
        }
    }

    /// The place of the entry of a dictionary with a key.
    pub fn place_in(&self, setting: &Setting, dict: Value, key: Value) -> Option<usize>
        ensures { result ≡ place_in setting.now self.now key (entries_in (content setting.now self.now dict)) }
    {
        self.arena.key_place(setting.homes(), dict, key)
    }

    /// How many entries a dictionary has, or elements a set; 0 for another value.
    pub fn entry_count(&self, setting: &Setting, dict: Value) -> usize
        ensures { result ≡ length (entries_in (content setting.now self.now dict)) }
    {
        self.arena.dict_len(setting.homes(), dict)
    }

    /// The value that a dictionary has for a key.
    #[inline(always)]
    pub fn value_in(&self, setting: &Setting, dict: Value, key: Value) -> Option<Value>
        ensures { result ≡ value_in setting.now self.now key (entries_in (content setting.now self.now dict)) }
    {
        self.arena.key_value(setting.homes(), dict, key)
    }

    /// The value that a dictionary has for the string of these bytes.
    pub fn text_value(&self, setting: &Setting, dict: Value, text: &Text) -> Option<Value>
        ensures { result ≡ text_value setting.now self.now text.now (entries_in (content setting.now self.now dict)) }
    {
        self.arena.text_value(setting.homes(), dict, text)
    }
}

/// Whether a definition is among the active ones.
fn is_among(active: &[(u32, u32)], file: u32, definition: u32) -> bool
    ensures { result ≡ list_any (λ a. nat_eq a.0 file && nat_eq a.1 definition) active.now }
{
    for one in active {
        if one.0 == file && one.1 == definition {
            return true;
        }
    }
    false
}
