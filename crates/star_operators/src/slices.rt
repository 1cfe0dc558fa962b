//! `x[a:b:c]` of lists, tuples, strings and, in the extended language, ranges.

ghost use Rattle.std.specs.Prelude.{◌≡◌, ◌≢◌, ◌<◌, ◌≤◌, ◌+◌, ◌*◌, ◌+ℤ◌, ◌-ℤ◌, ◌*ℤ◌, ◌≤ℤ◌, ◌<ℤ◌, ◌++◌, IfOk, OnOk, false, length, neg_ℤ, pos, slice_get, string_bytes, true, unsigned_abs};
ghost use Rattle.std.specs.Int.{int_gap};
ghost use Rattle.star_store.specs.Arithmetic.{checked};
ghost use Rattle.star_store.specs.Range.{range_length};
ghost use Rattle.star_machine.specs.Refines.{Refines};
ghost use Rattle.star_operators.specs.Slices.{Parts, Pushes, as_range, has_low_ends, item_list, lies_within, range_part, run, slices_checked};
ghost use Rattle.star_meaning.specs.Subscript as spec;
ghost use Rattle.star_meaning.specs.Values.{content};

use star_dialect::Dialect;
use star_machine::content::Content;
use star_machine::fault::{EvalError, fault_at, refused};
use star_machine::machine::Machine;
use star_machine::setting::Setting;
use star_machine::slices::{bound_of, want_part};
use star_meaning::fault::FaultCode;
use star_store::arithmetic::{mul, narrow};
use star_store::fault::StoreFault;
use star_store::range::Range;
use star_store::values::{Cell, Value, Values};
use star_text::Text;
use std::alloc::{AllocError, Global};

/// The places of a slice: from a start on, by steps, before a stop.
#[derive(Clone, Copy)]
struct Span {
    start: i128,
    stop: i128,
    step: i64,
}

/// The places of a slice of `len` items.
fn span_of(len: usize, start: Option<i64>, stop: Option<i64>, step: i64) -> Span
    ensures value { as_range result ≡ spec.slice_range len start stop step }
    ensures low { has_low_ends result }
    ensures upward { pos 0 <ℤ step → lies_within len result }
{
    let end = len as i128;
    if step < 0 {
        let start = bound_of(len, -1, end - 1, end - 1, start);
        let stop = bound_of(len, -1, end - 1, -1, stop);
        return Span { start, stop, step };
    }
    let start = bound_of(len, 0, end, 0, start);
    let stop = bound_of(len, 0, end, end, stop);
    Span { start, stop, step }
}

impl Span {
    /// How many places there are.
    fn count(self) -> u128
        ensures { result ≡ range_length (as_range self) }
    {
        let step = self.step.unsigned_abs() as u128;
        if self.step > 0 && self.start < self.stop {
            return (self.stop.abs_diff(self.start) - 1) / step + 1;
        }
        if self.step < 0 && self.stop < self.start {
            return (self.start.abs_diff(self.stop) - 1) / step + 1;
        }
        0
    }

    /// One of the places.
    #[tactic(auto, using(crate::proofs::Ranges::within_up, crate::proofs::Ranges::within_down, crate::proofs::Ranges::steps_up, crate::proofs::Ranges::steps_down))]
    fn place(self, at: u128) -> u128
        requires low { has_low_ends self }
        requires within { at < range_length (as_range self) }
        ensures { result ≡ unsigned_abs ((as_range self).start +ℤ pos at *ℤ (as_range self).step) }
    {
        let step = self.step.unsigned_abs() as u128;
        if self.step > 0 {
            return place_above(self.start, self.stop, step, at);
        }
        place_below(self.start, self.stop, step, at)
    }
}

/// The place `at` steps above a start; it is below the stop.
fn place_above(start: i128, stop: i128, step: u128, at: u128) -> u128
    requires start { neg_ℤ (pos 1) ≤ℤ start }
    requires within { at * step < int_gap start stop }
    ensures { result ≡ unsigned_abs (start +ℤ pos (at * step)) }
{
    (start + (at * step) as i128).unsigned_abs()
}

/// The place `at` steps below a start; it is above the stop.
fn place_below(start: i128, stop: i128, step: u128, at: u128) -> u128
    requires stop { neg_ℤ (pos 1) ≤ℤ stop }
    requires within { at * step < int_gap stop start }
    ensures { result ≡ unsigned_abs (start -ℤ pos (at * step)) }
{
    (start - (at * step) as i128).unsigned_abs()
}

/// The item or byte at a place; `None` outside.
fn item_at<T: Copy>(items: &[T], at: u128) -> Option<T>
    ensures { result ≡ slice_get items.now at }
{
    if at < items.len() as u128 {
        items.get(at as usize).copied()
    } else {
        None
    }
}

/// Adds the item at a place, if there is one.
fn push_at(made: &mut Vec<Value>, items: &[Value], at: u128) -> Result<(), AllocError>
    ensures { OnOk result (made.new.items ≡ made.old.items ++ item_list (slice_get items.now at)) }
{
    if let Some(item) = item_at(items, at) {
        made.push(item)?;
    }
    Ok(())
}

/// The items at the places of a slice.
fn picked(
    alloc: Global,
    items: &[Value],
    start: Option<i64>,
    stop: Option<i64>,
    step: i64,
) -> Result<Values, AllocError>
    ensures { IfOk result (λ r. r ≡ spec.picked items.now
        (spec.places_of (spec.slice_range (length items.now) start stop step))) }
{
    picked_from(alloc, items, span_of(items.len(), start, stop, step))
}

/// The items at the places of a span.
fn picked_from(alloc: Global, items: &[Value], span: Span) -> Result<Values, AllocError>
    requires { has_low_ends span }
    ensures { IfOk result (λ r. r ≡ spec.picked items.now (spec.places_of (as_range span))) }
{
    let mut made = Vec::new(alloc);
    for i in 0..span.count() {
        push_at(&mut made, items, span.place(i))?;
    }
    Ok(Values::new(made))
}

/// Whether a place is between two characters: at the first byte of one, or at the end.
fn is_boundary(text: &[u8], at: usize) -> bool
    ensures { result ≡ spec.is_boundary text.now at }
{
    match text.get(at) {
        Some(byte) => *byte < 128 || *byte > 191,
        None => true,
    }
}

/// A part of a string; `None` if an end of it is inside a character.
#[tactic(auto, using(crate::proofs::Slicing::empty_part, crate::proofs::Slicing::whole_part, crate::proofs::Slicing::cut_before, crate::proofs::Slicing::cut_after))]
fn part(alloc: Global, text: &str, start: usize, stop: usize) -> Result<Option<Text>, AllocError>
    requires start { start ≤ length text.now }
    requires stop { stop ≤ length text.now }
    ensures { IfOk result (λ o. Parts o text.now (run start stop)) }
{
    if stop <= start {
        return Ok(Some(Text::new(alloc, "")?));
    }
    if !is_boundary(text.as_bytes(), start) {
        return Ok(None);
    }
    if !is_boundary(text.as_bytes(), stop) {
        return Ok(None);
    }
    Ok(Some(Text::new(alloc, &text[start..stop])?))
}

/// The bytes of a string at places; `None` if one of them is not ASCII.
#[tactic(auto, using(crate::proofs::Slicing::spread_whole))]
fn spread(alloc: Global, text: &str, span: Span) -> Result<Option<Text>, AllocError>
    requires step { span.step ≢ pos 1 }
    requires low { has_low_ends span }
    ensures { IfOk result (λ o. Parts o text.now (as_range span)) }
{
    let mut made = String::new(alloc);
    for i in 0..span.count() {
        if !push_ascii(&mut made, item_at(text.as_bytes(), span.place(i)))? {
            return Ok(None);
        }
    }
    Ok(Some(Text::of(made)?))
}

/// Puts a byte, if there is one, after a text; false if it is not ASCII.
fn push_ascii(made: &mut String, byte: Option<u8>) -> Result<bool, AllocError>
    ensures { IfOk result (λ pushed. Pushes pushed byte (string_bytes made.old) (string_bytes made.new)) }
{
    let Some(byte) = byte else {
        return Ok(true);
    };
    if byte >= 128 {
        return Ok(false);
    }
    made.push(byte as char)?;
    Ok(true)
}

/// The part of a string at the places of a slice; `None` if it would cut a character.
#[tactic(auto, using(crate::proofs::Slicing::run_is))]
fn picked_text(alloc: Global, text: &str, span: Span) -> Result<Option<Text>, AllocError>
    requires low { has_low_ends span }
    requires upward { span.step ≡ pos 1 → lies_within (length text.now) span }
    ensures { IfOk result (λ o. Parts o text.now (as_range span)) }
{
    if span.step == 1 {
        return part(alloc, text, span.start as usize, span.stop as usize);
    }
    spread(alloc, text, span)
}

/// The int at a distance from another one. `Overflow` outside 64 bits.
fn int_after(start: i64, distance: i128) -> Result<i64, StoreFault>
    ensures { result ≡ checked (start +ℤ distance) }
{
    match (start as i128).checked_add(distance) {
        Some(int) => narrow(int),
        None => Err(StoreFault::Overflow),
    }
}

/// The int that a range has at a place, also at one before or after all its ints. `Overflow` outside 64 bits.
fn int_at(range: Range, place: i128) -> Result<i64, StoreFault>
    ensures { result ≡ checked (range.start +ℤ place *ℤ range.step) }
{
    match place.checked_mul(range.step as i128) {
        Some(distance) => int_after(range.start, distance),
        None => Err(StoreFault::Overflow),
    }
}

/// The ints of a range at the places of a span. `Overflow` for a bound or a step outside 64 bits.
fn part_of_range(range: Range, span: Span) -> Result<Range, StoreFault>
    ensures { result ≡ range_part range (as_range span) }
{
    let start = int_at(range, span.start)?;
    let stop = int_at(range, span.stop)?;
    let step = mul(range.step, span.step)?;
    Ok(Range { start, stop, step })
}

/// The part of a range as a new range. `Overflow` for a bound or a step outside 64 bits.
fn sliced_range(
    machine: &mut Machine,
    line: usize,
    range: Range,
    span: Span,
) -> Result<Value, EvalError>
    ensures { Refines (spec.range_slice line range (as_range span) machine.old) result machine.new }
{
    match part_of_range(range, span) {
        Ok(part) => machine.build(line, 1, Cell::Range(part)),
        Err(fault) => Err(refused(fault, line)),
    }
}

/// The part of a list, tuple, string or range at the places of a slice. `Cut` if it would cut a character, `BadType` for
/// another value.
fn sliced(
    machine: &mut Machine,
    setting: &Setting,
    line: usize,
    value: Value,
    start: Option<i64>,
    stop: Option<i64>,
    step: i64,
) -> Result<Value, EvalError>
    ensures { Refines (spec.sliced line (content setting.now machine.old value)
        (λ n. spec.slice_range n start stop step)
        machine.old) result machine.new }
{
    let alloc = machine.alloc();
    match machine.content(setting, value) {
        Content::Held(Cell::List(items)) => {
            let items = picked(alloc, items.as_slice(), start, stop, step)?;
            machine.new_list(line, items)
        }
        Content::Held(Cell::Tuple(items)) => {
            let items = picked(alloc, items.as_slice(), start, stop, step)?;
            machine.new_tuple(line, items)
        }
        Content::Held(Cell::Text(text)) => {
            let span = span_of(text.as_str().len(), start, stop, step);
            match picked_text(alloc, text.as_str(), span)? {
                Some(text) => machine.new_text(line, text),
                None => Err(fault_at(FaultCode::Cut, line)),
            }
        }
        Content::Held(Cell::Range(range)) => {
            let range = *range;
            let span = span_of(range.len() as usize, start, stop, step);
            sliced_range(machine, line, range, span)
        }
        _ => Err(fault_at(FaultCode::BadType, line)),
    }
}

/// Whether ranges have slices.
fn has_range_slices(dialect: Dialect) -> bool
    ensures { result ≡ spec.has_range_slices dialect }
{
    match dialect {
        Dialect::Core => false,
        Dialect::Extended => true,
    }
}

/// Checks that a value has slices: else `BadType`.
fn check_slices(
    machine: &Machine,
    setting: &Setting,
    line: usize,
    value: Value,
) -> Result<(), EvalError>
    ensures { Refines (slices_checked setting.now line value machine.now) result machine.now }
{
    match machine.content(setting, value) {
        Content::Held(Cell::List(_)) => Ok(()),
        Content::Held(Cell::Tuple(_)) => Ok(()),
        Content::Held(Cell::Text(_)) => Ok(()),
        Content::Held(Cell::Range(_)) if has_range_slices(setting.dialect()) => Ok(()),
        _ => Err(fault_at(FaultCode::BadType, line)),
    }
}

fn stride_of(stride: Option<i64>) -> i64
    ensures { result ≡ spec.stride_of stride }
{
    match stride {
        Some(stride) => stride,
        None => 1,
    }
}

/// `x[a:b:c]`. `BadType` if `x` has no slices, then for the parts in order; `BadValue` for a stride of 0; `Cut` if a
/// character would be cut.
#[tactic(auto, unfolding(star_meaning::specs::Subscript::slice))]
pub fn slice(
    machine: &mut Machine,
    setting: &Setting,
    line: usize,
    value: Value,
    start: Option<Value>,
    stop: Option<Value>,
    stride: Option<Value>,
) -> Result<Value, EvalError>
    ensures { Refines (spec.slice setting.now line value start stop stride machine.old) result machine.new }
{
    check_slices(machine, setting, line, value)?;
    let start = want_part(machine, setting, line, start)?;
    let stop = want_part(machine, setting, line, stop)?;
    let step = stride_of(want_part(machine, setting, line, stride)?);
    if step == 0 {
        return Err(fault_at(FaultCode::BadValue, line));
    }
    sliced(machine, setting, line, value, start, stop, step)
}
