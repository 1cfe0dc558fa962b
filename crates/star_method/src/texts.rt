//! The other methods of strings, but for `format`.
//!
//! A string method that makes no more than its string has makes its text before its payment, so a machine short of
//! memory may say so when the definition answers `steps`; `join` builds its text only if it can be paid. `strip`, `lstrip` and `rstrip` are one function.

ghost use Rattle.std.specs.Prelude.{◌≡◌, ◌≤◌, ◌++◌, if◌then◌else◌, IfOk, OnOk, is_some, length, map, pos};
ghost use Rattle.std.specs.List.{list_any};
ghost use Rattle.star_meaning.specs.Arguments.{positional};
ghost use Rattle.star_meaning.specs.Texts.{joined};
ghost use Rattle.star_meaning.specs.Run.{and_then};
ghost use Rattle.star_machine.specs.Refines.{Refines, RefinesBy};
ghost use Rattle.star_machine.specs.Kinds.{bytes_of};
ghost use Rattle.star_meaning.specs.Operators as operators;
ghost use Rattle.star_meaning.specs.TextMethods as spec;
ghost use Rattle.star_meaning.specs.Texts.{characters, without_end, without_front};
ghost use Rattle.star_meaning.specs.Values.{content, text_of};
ghost use Rattle.star_method.specs.Ends.{any_at_edge, at_edge, bytes_each, each_after, found_between, in_case, joined_by};
ghost use Rattle.star_method.specs.Sets.{test_of};

use crate::characters::{Lookup, Set, without_end, without_front};
use star_machine::call::Call;
use star_machine::content::Content;
use star_machine::fault::{EvalError, fault_at};
use star_machine::machine::Machine;
use star_machine::setting::Setting;
use star_machine::slices::{bound_of, want_part};
use star_machine::texts::place_between;
use star_meaning::fault::FaultCode;
use star_store::values::{Cell, Value};
use star_text::Text;
use star_visit::draft::Draft;
use std::alloc::AllocError;

/// Pays the bytes of a string.
pub fn pay_for_bytes(
    machine: &mut Machine,
    setting: &Setting,
    line: usize,
    text: Value,
) -> Result<(), EvalError>
    ensures answer { Refines (spec.pay_for_bytes line (bytes_of (content setting.now machine.old text)) machine.old)
        result machine.new }
    ensures kept { machine.new.store ≡ machine.old.store }
{
    machine.pay(line, machine.text_size(setting, text) as u128)
}

/// Small or large letters.
#[derive(Clone, Copy, Debug, PartialEq, Eq)]
pub enum Case {
    Lower,
    Upper,
}

/// A copy of a string whose ASCII letters are small or large, as `case` says.
#[tactic(auto, using(crate::proofs::Letters::lower_is, crate::proofs::Letters::upper_is))]
fn cased(machine: &Machine, setting: &Setting, case: Case, text: Value) -> Result<Text, AllocError>
    ensures { IfOk result (λ t. t ≡ map (in_case case) (bytes_of (content setting.now machine.now text))) }
{
    let text = machine.copied_text(setting, text)?;
    let mut made = String::from_str(machine.alloc(), text.as_str())?;
    match case {
        Case::Lower => {
            made.make_ascii_lowercase();
            Text::of(made)
        }
        Case::Upper => {
            made.make_ascii_uppercase();
            Text::of(made)
        }
    }
}

/// `lower()` and `upper()`: the bytes are paid, then a new string, whose ASCII letters are small or large.
pub fn call_case(
    machine: &mut Machine,
    case: Case,
    text: Value,
    call: &Call,
) -> Result<Value, EvalError>
    // It is long since it names each argument of the definition.
    ensures { Refines (spec.call_case call.now.line (in_case case)
        (bytes_of (content call.now.setting.now machine.old text)) call.now.given.now machine.old) result machine.new }
{
    call.no_value(machine)?;
    let made = cased(machine, call.setting, case, text)?;
    pay_for_bytes(machine, call.setting, call.line, text)?;
    machine.new_text(call.line, made)
}

/// One to three values. `Args` for none or more, and for a keyword argument.
fn one_to_three(
    machine: &Machine,
    call: &Call,
) -> Result<(Value, Option<Value>, Option<Value>), EvalError>
    // It is long since it names each argument of the definition.
    ensures { RefinesBy (λ r. record { what = r.0; from = r.1; to = r.2 })
        (and_then (positional call.now.line call.now.given.now machine.now) (spec.one_to_three call.now.line))
        result machine.now }
{
    match machine.positional(call.line, call.given)? {
        [what] => Ok((*what, None, None)),
        [what, from] => Ok((*what, Some(*from), None)),
        [what, from, to] => Ok((*what, Some(*from), Some(*to))),
        _ => Err(fault_at(FaultCode::Args, call.line)),
    }
}

/// An end of a search in `len` bytes: as in a slice, or `absent` if none is given.
fn end_of(len: usize, absent: usize, place: Option<i64>) -> usize
    requires { absent ≤ len }
    ensures value { result ≡ spec.end_of len (pos absent) place }
    ensures within { result ≤ len }
{
    bound_of(len, 0, len as i128, absent as i128, place).unsigned_abs() as usize
}

/// The least place of a string in another one, from one end to another, else -1.
#[tactic(auto, using(crate::proofs::Finds::place_within))]
fn place_or_none(text: &[u8], part: &[u8], from: usize, to: usize) -> i64
    requires { to ≤ length text.now }
    ensures { result ≡ spec.place_or_none (operators.place_between text.now part.now from to) }
{
    match place_between(text, part, from, to) {
        Some(at) => at as i64,
        None => -1,
    }
}

/// The least place of a string in another one, between two ends as in a slice, else -1.
fn place_in(
    machine: &Machine,
    setting: &Setting,
    text: Value,
    part: Value,
    from: Option<i64>,
    to: Option<i64>,
) -> i64
    ensures { result ≡ found_between (bytes_of (content setting.now machine.now text))
        (bytes_of (content setting.now machine.now part)) from to }
{
    let text = machine.bytes(setting, text);
    let len = text.len();
    let part = machine.bytes(setting, part);
    place_or_none(text, part, end_of(len, 0, from), end_of(len, len, to))
}

/// `find(t, [a, [b]])`: the least place of `t` between `a` and `b`, which are ends as in a slice, else -1. `BadType`
/// for arguments of other types.
pub fn call_find(machine: &mut Machine, text: Value, call: &Call) -> Result<Value, EvalError>
    // It is long since it names each argument of the definition.
    ensures { Refines (spec.call_find call.now.setting.now call.now.line
        (bytes_of (content call.now.setting.now machine.old text)) call.now.given.now machine.old) result machine.new }
{
    let (part, from, to) = one_to_three(machine, call)?;
    machine.check_text(call.setting, call.line, part)?;
    let from = want_part(machine, call.setting, call.line, from)?;
    let to = want_part(machine, call.setting, call.line, to)?;
    pay_for_bytes(machine, call.setting, call.line, text)?;
    Ok(Value::Int(place_in(machine, call.setting, text, part, from, to)))
}

/// The front or the end of a string.
#[derive(Clone, Copy, Debug, PartialEq, Eq)]
pub enum Edge {
    Front,
    End,
}

/// Whether the text begins or ends with a part, as `edge` says.
fn stands_at_edge(edge: Edge, text: &[u8], part: &[u8]) -> bool
    ensures { result ≡ at_edge edge text.now part.now }
{
    match edge {
        Edge::Front => text.starts_with(part),
        Edge::End => text.ends_with(part),
    }
}

/// Whether a string begins or ends with another one.
fn part_at_edge(machine: &Machine, setting: &Setting, edge: Edge, text: Value, part: Value) -> bool
    ensures { result ≡ at_edge edge (bytes_of (content setting.now machine.now text))
        (bytes_of (content setting.now machine.now part)) }
{
    let text = machine.bytes(setting, text);
    stands_at_edge(edge, text, machine.bytes(setting, part))
}

/// Whether a value is a string.
fn is_text(machine: &Machine, setting: &Setting, value: Value) -> bool
    ensures { result ≡ is_some (text_of (content setting.now machine.now value)) }
{
    match machine.content(setting, value) {
        Content::Held(Cell::Text(_)) => true,
        _ => false,
    }
}

/// Whether all values are strings.
#[tactic(auto, using(crate::proofs::Choices::some_more, crate::proofs::Choices::none_more))]
pub fn are_texts(machine: &Machine, setting: &Setting, values: &[Value]) -> bool
    ensures { result ≡ is_some (spec.texts_of setting.now machine.now values.now) }
{
    for value in values {
        if !is_text(machine, setting, *value) {
            return false;
        }
    }
    true
}

/// Whether a string begins or ends with one of some strings. If the same value comes several times in a row, only the
/// first is compared, since a long tuple may have one long string at each place.
fn one_at_edge(
    machine: &Machine,
    setting: &Setting,
    edge: Edge,
    text: Value,
    parts: &[Value],
) -> bool
    ensures { result ≡ list_any (at_edge edge (bytes_of (content setting.now machine.now text)))
        (bytes_each setting.now machine.now parts.now) }
{
    let mut before = None;
    for part in parts {
        if before != Some(*part) && part_at_edge(machine, setting, edge, text, *part) {
            return true;
        }
        before = Some(*part);
    }
    false
}

/// Whether a string begins or ends with one of some values. `BadType` if one of them is not a string.
#[tactic(auto, using(crate::proofs::Choices::texts_each, crate::proofs::Choices::no_texts))]
fn some_at_edge(
    machine: &Machine,
    setting: &Setting,
    line: usize,
    edge: Edge,
    text: Value,
    parts: &[Value],
) -> Result<bool, EvalError>
    ensures { Refines (any_at_edge setting.now line edge text (λ s. spec.texts_of setting.now s parts.now) machine.now)
        result machine.now }
{
    if !are_texts(machine, setting, parts) {
        return Err(fault_at(FaultCode::BadType, line));
    }
    Ok(one_at_edge(machine, setting, edge, text, parts))
}

/// Whether a string begins or ends with a string, or with one of a tuple of strings. `BadType` for other values.
fn choice_at_edge(
    machine: &Machine,
    setting: &Setting,
    line: usize,
    edge: Edge,
    text: Value,
    choices: Value,
) -> Result<bool, EvalError>
    ensures { Refines (any_at_edge setting.now line edge text
        (λ s. spec.choices_in setting.now s (content setting.now s choices)) machine.now) result machine.now }
{
    match machine.content(setting, choices) {
        Content::Held(Cell::Text(part)) => {
            let text = machine.bytes(setting, text);
            Ok(stands_at_edge(edge, text, part.as_str().as_bytes()))
        }
        Content::Held(Cell::Tuple(parts)) => {
            some_at_edge(machine, setting, line, edge, text, parts.as_slice())
        }
        _ => Err(fault_at(FaultCode::BadType, line)),
    }
}

/// `startswith(p)` and `endswith(p)`: whether the string begins or ends with `p`, or with one of a tuple of strings.
/// `BadType` for another `p`.
pub fn call_edge(
    machine: &mut Machine,
    edge: Edge,
    text: Value,
    call: &Call,
) -> Result<Value, EvalError>
    // It is long since it names each argument of the definition.
    ensures { Refines (spec.call_edge call.now.setting.now call.now.line (at_edge edge)
        (bytes_of (content call.now.setting.now machine.old text)) call.now.given.now machine.old) result machine.new }
{
    let choices = call.only_one(machine)?;
    let stands = choice_at_edge(machine, call.setting, call.line, edge, text, choices)?;
    pay_for_bytes(machine, call.setting, call.line, text)?;
    Ok(Value::Bool(stands))
}

/// The characters that `strip` takes off: blanks if none are given. `BadType` if the argument is not a string.
fn want_set(
    machine: &Machine,
    setting: &Setting,
    line: usize,
    characters: Option<Value>,
) -> Result<Set, EvalError>
    ensures { RefinesBy test_of (spec.want_set setting.now line characters machine.now) result machine.now }
{
    let Some(characters) = characters else {
        return Ok(Set::Blanks);
    };
    let text = machine.want_text(setting, line, characters)?;
    let text = text.share()?;
    Ok(Set::Of(text))
}

/// The rest of a string after `lstrip` or `strip` at its front.
fn front_stripped<'a>(text: &'a str, front: bool, set: &Lookup<'_>) -> &'a str
    ensures { characters result.now
        ≡ (if front then without_front (test_of set.now) else (λ cs. cs)) (characters text.now) }
{
    if front {
        return without_front(text, set);
    }
    text
}

/// The rest of a string after `rstrip` or `strip` at its end.
fn end_stripped<'a>(text: &'a str, end: bool, set: &Lookup<'_>) -> &'a str
    ensures { characters result.now
        ≡ (if end then without_end (test_of set.now) else (λ cs. cs)) (characters text.now) }
{
    if end {
        return without_end(text, set);
    }
    text
}

/// A copy of a string without the characters of a set at its front, at its end or at both.
#[tactic(auto, using(crate::proofs::OneByOne::joined_whole))]
fn stripped(
    machine: &Machine,
    setting: &Setting,
    text: Value,
    front: bool,
    end: bool,
    set: &Set,
) -> Result<Text, AllocError>
    ensures { IfOk result (λ t. t ≡ spec.stripped front end (test_of set.now)
        (bytes_of (content setting.now machine.now text))) }
{
    let text = machine.copied_text(setting, text)?;
    let set = Lookup::of(machine.alloc(), set, text.as_str().len())?;
    let kept = end_stripped(text.as_str(), end, &set);
    let kept = front_stripped(kept, front, &set);
    Text::new(machine.alloc(), kept)
}

/// `strip([c])`, `lstrip([c])` and `rstrip([c])`: takes the characters of `c`, or blanks, off the front, the end or
/// both. `BadType` if `c` is not a string.
pub fn call_strip(
    machine: &mut Machine,
    front: bool,
    end: bool,
    text: Value,
    call: &Call,
) -> Result<Value, EvalError>
    // It is long since it names each argument of the definition.
    ensures { Refines (spec.call_strip call.now.setting.now call.now.line front end
        (bytes_of (content call.now.setting.now machine.old text)) call.now.given.now machine.old) result machine.new }
{
    let set = call.none_or_one(machine)?;
    let set = want_set(machine, call.setting, call.line, set)?;
    let made = stripped(machine, call.setting, text, front, end, &set)?;
    pay_for_bytes(machine, call.setting, call.line, text)?;
    machine.new_text(call.line, made)
}

/// Puts strings after a draft, each after another string.
fn push_each(
    machine: &Machine,
    setting: &Setting,
    made: &mut Draft,
    by: &Text,
    texts: &[Value],
) -> Result<(), AllocError>
    ensures { OnOk result (made.new ≡ made.old
        ++ each_after by.now (bytes_each setting.now machine.now texts.now)) }
{
    for text in texts {
        let text = machine.copied_text(setting, *text)?;
        made.put(by)?;
        made.put(&text)?;
    }
    Ok(())
}

/// Strings with another one between them, as a draft in which no more long strings are copied than there are steps.
#[tactic(auto, using(crate::proofs::Joining::joined_is))]
fn joined_texts(
    machine: &Machine,
    setting: &Setting,
    by: &Text,
    texts: &[Value],
) -> Result<Draft, AllocError>
    ensures { IfOk result (λ t. t ≡ joined by.now (bytes_each setting.now machine.now texts.now)) }
{
    let Some((first, rest)) = texts.split_first() else {
        return Ok(Draft::new(machine.alloc(), 0));
    };
    let mut made = Draft::new(machine.alloc(), machine.steps_left() as usize);
    let text = machine.copied_text(setting, *first)?;
    made.put(&text)?;
    push_each(machine, setting, &mut made, by, rest)?;
    Ok(made)
}

/// The strings that values are, with another one between them. `BadType` if one of them is not a string.
#[tactic(auto, using(crate::proofs::Choices::texts_each, crate::proofs::Choices::no_texts))]
fn join_all(
    machine: &Machine,
    setting: &Setting,
    line: usize,
    by: &Text,
    texts: &[Value],
) -> Result<Draft, EvalError>
    ensures { Refines (joined_by setting.now line by.now texts.now machine.now) result machine.now }
{
    if !are_texts(machine, setting, texts) {
        return Err(fault_at(FaultCode::BadType, line));
    }
    Ok(joined_texts(machine, setting, by, texts)?)
}

/// `join(it)`: the bytes are paid, then all items are taken, then a new string of them, with this one between them.
/// `BadType` if `it` is not iterable, and if an item is not a string. The new string is built only if it can be paid.
pub fn call_join(machine: &mut Machine, text: Value, call: &Call) -> Result<Value, EvalError>
    // It is long since it names each argument of the definition.
    ensures { Refines (spec.call_join call.now.setting.now call.now.line
        (bytes_of (content call.now.setting.now machine.old text)) call.now.given.now machine.old) result machine.new }
{
    let items = call.only_one(machine)?;
    let count = machine.count_of(call.setting, call.line, items)?;
    let by = machine.copied_text(call.setting, text)?;
    pay_for_bytes(machine, call.setting, call.line, text)?;
    let taken = machine.take_items(call.setting, call.line, items, count)?;
    let made = join_all(machine, call.setting, call.line, &by, taken.as_slice())?;
    machine.new_draft(call.line, made)
}
