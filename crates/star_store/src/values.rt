//! `Value`, and the cells that values lead to: strings, ranges, tuples, lists, dictionaries, sets, functions, frames,
//! methods, structs.
//!
//! A function's cell has its name, so its text needs no program. The parent of a frame is a value, which may lead into
//! another module's store. Functions, frames and structs are in boxes of their own, since most cells are smaller: a
//! cell takes 48 bytes instead of 96, and a call one allocation more. Contracts see a box as its content.
//!
//! A string is a `Text`, which contracts see as its bytes, so it is UTF-8 by its type. Copies share the bytes: a
//! literal is copied once, from its file, and a run copies none.
//!
//! Rows are made with room if the number of items is known: a row that grows takes up to twice the memory and moves its
//! items. No contract is about room.

ghost use Rattle.std.specs.Prelude.{◌≡◌, ◌<◌, ◌≤◌, List, Some, [], ◌∷◌, ◌++◌, length, slice_get, slice_set, IfOk, OnOk, OnErr};
ghost use Rattle.std.specs.List.{insert, remove};
ghost use Rattle.std.specs.Option.{option_copied};
ghost use Rattle.star_store.specs.Index.{held_entries};

use crate::defaults::Defaults;
use crate::fields::Fields;
use crate::names::{BuiltIn, Method};
use crate::range::Range;
use crate::roomy::FrontGapVec;
use crate::slots::Slots;
use sqlite_items::Boxed;
use star_text::Text;
use std::alloc::{AllocError, Global};
use std::marker::Model;

/// A value. Anything larger than an int is in a cell, which the value leads to: by the number of the file whose module
/// made the cell, and the number of cells that it had made before.
#[derive(Clone, Copy, Debug, PartialEq, Eq)]
pub enum Value {
    NoneValue,
    Bool(bool),
    Int(i64),
    Builtin(BuiltIn),
    Ref { home: u32, at: u32 },
}

/// A row of values: the items of a list or a tuple.
pub struct Values {
    items: FrontGapVec<Value>,
}

impl Drop for Values {
    fn drop(self) {
        let Values { items: _ } = self;
    }
}

impl Model for Values {
    ghost use Rattle.std.specs.Prelude.{List};
    ghost use Rattle.star_store.specs.declared.values.Value.{Value as AnyValue};

    ghost Value = { List AnyValue };

    ghost view = { λ r. r.items };
}

/// The entries of a dictionary, or the elements of a set, each with None, in the order in which they were put in.
pub struct Entries {
    pairs: FrontGapVec<(Value, Value)>,
}

impl Drop for Entries {
    fn drop(self) {
        let Entries { pairs: _ } = self;
    }
}

impl Model for Entries {
    ghost use Rattle.std.specs.Prelude.{List};
    ghost use Rattle.star_store.specs.declared.values.Value.{Value as AnyValue};

    ghost Value = { List (AnyValue × AnyValue) };

    ghost view = { λ d. d.pairs };
}

/// A function: the file and the number of its definition, its name, the defaults of its parameters, and the frame in
/// which it was defined.
pub struct Function {
    pub file: u32,
    pub definition: u32,
    pub name: Text,
    pub defaults: Defaults,
    pub frame: Value,
}

impl Drop for Function {
    fn drop(self) {
        let Function {
            file: _,
            definition: _,
            name: _,
            defaults: _,
            frame: _,
        } = self;
    }
}

/// A frame: the file and the number of its block, the frame around it, and its variables.
pub struct Frame {
    pub file: u32,
    pub block: u32,
    pub parent: Option<Value>,
    pub slots: Slots,
}

impl Drop for Frame {
    fn drop(self) {
        let Frame {
            file: _,
            block: _,
            parent: _,
            slots: _,
        } = self;
    }
}

/// A frame in a place of its own, so that a cell is small.
pub struct BoxedFrame {
    frame: Box<Frame>,
}

impl Drop for BoxedFrame {
    fn drop(self) {
        let BoxedFrame { frame: _ } = self;
    }
}

impl Model for BoxedFrame {
    ghost use Rattle.star_store.specs.declared.values.Frame.{Frame as AnyFrame};

    ghost Value = { AnyFrame };

    ghost view = { λ b. b.frame.value };
}

impl BoxedFrame {
    /// This frame.
    pub fn new(alloc: Global, frame: Frame) -> Result<BoxedFrame, AllocError>
        ensures { IfOk result (λ boxed. boxed ≡ frame) }
    {
        Ok(BoxedFrame {
            frame: Box::new(alloc, frame)?,
        })
    }

    /// The frame.
    pub fn get(&self) -> &Frame
        ensures { result.now ≡ self.now }
    {
        &self.frame
    }

    /// Sets a slot of the frame. If there is no such slot, nothing changes.
    pub fn set(&mut self, slot: usize, value: Value) -> Result<(), AllocError>
        ensures set { OnOk result (self.new ≡ record self.old { slots = slice_set self.old.slots slot (Some value) }) }
        ensures refused { OnErr result (self.new ≡ self.old) }
    {
        self.frame.slots.set(slot, value)
    }
}

/// The content of a cell.
pub enum Cell {
    Text(Text),
    Range(Range),
    Tuple(Values),
    List(Values),
    Dict(Entries),
    Func(Boxed<Function>),
    Frame(BoxedFrame),
    Bound(Method, Value),
    Struct(Boxed<Fields>),
    Set(Entries),
}

impl Drop for Cell {
    fn drop(self) {
        match self {
            Cell::Text(_) => {}
            Cell::Range(_) => {}
            Cell::Tuple(_) => {}
            Cell::List(_) => {}
            Cell::Dict(_) => {}
            Cell::Func(_) => {}
            Cell::Frame(_) => {}
            Cell::Bound(_, _) => {}
            Cell::Struct(_) => {}
            Cell::Set(_) => {}
        }
    }
}

impl Cell {
    /// The entries of a dictionary or a set.
    #[inline(always)]
    pub fn entries(&self) -> Option<&Entries>
        ensures { option_copied result ≡ held_entries (Some self.now) }
    {
        match self {
            Cell::Dict(entries) => Some(entries),
            Cell::Set(entries) => Some(entries),
            _ => None,
        }
    }
}

/// A cell, and the number of iterations that are open on it.
pub struct HeapCell {
    pub iterations: u32,
    pub cell: Cell,
}

impl Drop for HeapCell {
    fn drop(self) {
        let HeapCell {
            iterations: _,
            cell: _,
        } = self;
    }
}

impl Values {
    /// A row of these values.
    pub fn new(items: Vec<Value>) -> Values
        ensures { result ≡ items.items }
    {
        Values {
            items: FrontGapVec::new(items),
        }
    }

    /// The values of the row.
    pub fn as_slice(&self) -> &[Value]
        ensures { result.now ≡ self.now }
    {
        self.items.as_slice()
    }

    /// How many they are.
    pub fn len(&self) -> usize
        ensures { result ≡ length self.now }
    {
        self.items.len()
    }

    /// The value at a place.
    pub fn get(&self, at: usize) -> Option<Value>
        ensures { result ≡ slice_get self.now at }
    {
        self.items.get(at)
    }

    /// Adds a value after all others.
    pub fn push(&mut self, value: Value) -> Result<(), AllocError>
        ensures pushed { OnOk result (self.new ≡ self.old ++ value ∷ []) }
        ensures refused { OnErr result (self.new ≡ self.old) }
    {
        self.items.push(value)
    }

    /// Puts another value at a place.
    pub fn set(&mut self, at: usize, value: Value)
        requires { at < length self.old }
        ensures { self.new ≡ slice_set self.old at value }
    {
        self.items.set(at, value);
    }

    /// Puts a value before the one at a place, or after all others.
    pub fn insert(&mut self, at: usize, value: Value) -> Result<(), AllocError>
        requires { at ≤ length self.old }
        ensures inserted { OnOk result (self.new ≡ insert self.old at value) }
        ensures refused { OnErr result (self.new ≡ self.old) }
    {
        self.items.insert(at, value)
    }

    /// Takes the value at a place out.
    pub fn remove(&mut self, at: usize)
        requires { at < length self.old }
        ensures { self.new ≡ remove self.old at }
    {
        self.items.remove(at);
    }

    /// Takes all values out.
    pub fn clear(&mut self)
        ensures { self.new ≡ [] }
    {
        self.items.clear();
    }
}

impl Entries {
    /// A dictionary with no entry.
    pub fn new(alloc: Global) -> Entries
        ensures { result ≡ [] }
    {
        Entries {
            pairs: FrontGapVec::new(Vec::new(alloc)),
        }
    }

    /// No entries, with room for `capacity`.
    pub fn with_capacity(alloc: Global, capacity: usize) -> Result<Entries, AllocError>
        ensures { IfOk result (λ entries. entries ≡ []) }
    {
        Ok(Entries {
            pairs: FrontGapVec::new(Vec::with_capacity(alloc, capacity)?),
        })
    }

    /// These entries.
    pub fn of(pairs: Vec<(Value, Value)>) -> Entries
        ensures { result ≡ pairs.items }
    {
        Entries {
            pairs: FrontGapVec::new(pairs),
        }
    }

    /// How many entries there are.
    pub fn len(&self) -> usize
        ensures { result ≡ length self.now }
    {
        self.pairs.len()
    }

    /// The entries, each with its key and its value.
    pub fn as_slice(&self) -> &[(Value, Value)]
        ensures { result.now ≡ self.now }
    {
        self.pairs.as_slice()
    }

    /// The key and the value of the entry at a place.
    pub fn get(&self, at: usize) -> Option<(Value, Value)>
        ensures { result ≡ slice_get self.now at }
    {
        self.pairs.get(at)
    }

    /// Adds an entry after all others.
    pub fn push(&mut self, key: Value, value: Value) -> Result<(), AllocError>
        ensures pushed { OnOk result (self.new ≡ self.old ++ (key, value) ∷ []) }
        ensures refused { OnErr result (self.new ≡ self.old) }
    {
        self.pairs.push((key, value))
    }

    /// Puts another entry at a place.
    pub fn set(&mut self, at: usize, key: Value, value: Value)
        requires { at < length self.old }
        ensures { self.new ≡ slice_set self.old at (key, value) }
    {
        self.pairs.set(at, (key, value));
    }

    /// Takes the entry at a place out; those after it close up.
    pub fn remove(&mut self, at: usize)
        requires { at < length self.old }
        ensures { self.new ≡ remove self.old at }
    {
        self.pairs.remove(at);
    }

    /// Takes all entries out.
    pub fn clear(&mut self)
        ensures { self.new ≡ [] }
    {
        self.pairs.clear();
    }
}
