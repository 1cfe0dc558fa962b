//! The methods `split` and `replace` of strings.

ghost use Rattle.std.specs.Prelude.{◌≡◌, ◌<◌, IfOk, length};
ghost use Rattle.star_meaning.specs.Texts.{joined};
ghost use Rattle.star_machine.specs.Refines.{Refines, RefinesBy};
ghost use Rattle.star_machine.specs.Kinds.{bytes_of};
ghost use Rattle.star_meaning.specs.Arguments.{positional};
ghost use Rattle.star_meaning.specs.Run.{and_then, each};
ghost use Rattle.star_meaning.specs.TextMethods as spec;
ghost use Rattle.star_meaning.specs.Texts as texts;
ghost use Rattle.star_meaning.specs.Values.{content, new_text};
ghost use Rattle.star_method.specs.Cuts.{IsFirstCut};

use crate::texts::pay_for_bytes;
use star_machine::call::Call;
use star_machine::fault::{EvalError, fault_at};
use star_machine::machine::Machine;
use star_machine::setting::Setting;
use star_meaning::fault::FaultCode;
use star_store::values::{Value, Values};
use star_text::Text;
use star_visit::draft::Draft;
use std::alloc::{AllocError, Global};

/// Whether a cut may still be made; `None` is no limit.
fn may_cut(left: Option<u64>) -> bool
    ensures { result ≡ texts.may_cut left }
{
    match left {
        None => true,
        Some(count) => count != 0,
    }
}

/// The cuts that are left after one.
fn one_less(left: Option<u64>) -> Option<u64>
    ensures { result ≡ texts.one_less left }
{
    match left {
        None => None,
        Some(count) => Some(count.saturating_sub(1)),
    }
}

/// The first cut of a string: the text before the separator, and the text after it.
#[tactic(auto, using(crate::proofs::Cutting::no_more))]
fn next_cut<'a>(text: &'a str, by: &str, left: Option<u64>) -> Option<(&'a str, &'a str)>
    requires { 0 < length by.now }
    ensures { IsFirstCut text.now by.now left result }
{
    if !may_cut(left) {
        return None;
    }
    text.split_once(by)
}

/// A new string for each part between cuts: at most `cuts` of them, from the left.
fn new_parts(
    machine: &mut Machine,
    line: usize,
    text: &str,
    by: &str,
    cuts: Option<u64>,
) -> Result<Values, EvalError>
    requires { 0 < length by.now }
    ensures { Refines (each (new_text line) (texts.parts text.now by.now cuts) machine.old) result machine.new }
{
    let mut parts = Vec::new(machine.alloc());
    let mut rest = text;
    let mut left = cuts;
    while let Some((before, after)) = next_cut(rest, by, left) {
        let part = Text::new(machine.alloc(), before)?;
        parts.push(machine.new_text(line, part)?)?;
        rest = after;
        left = one_less(left);
    }
    let part = Text::new(machine.alloc(), rest)?;
    parts.push(machine.new_text(line, part)?)?;
    Ok(Values::new(parts))
}

/// The number of cuts: all if none is given or it is below 0. `BadType` if it is not an int.
fn want_cuts(
    machine: &Machine,
    setting: &Setting,
    line: usize,
    cuts: Option<Value>,
) -> Result<Option<u64>, EvalError>
    ensures { Refines (spec.want_cuts setting.now line cuts machine.now) result machine.now }
{
    let Some(cuts) = cuts else {
        return Ok(None);
    };
    let cuts = machine.want_int(setting, line, cuts)?;
    Ok(if cuts < 0 { None } else { Some(cuts as u64) })
}

/// `split(sep, [n])`: the bytes are paid; then new strings of the parts between cuts at `sep`, at most `n` of them, in
/// a new list. `BadType` for arguments of other types, `BadValue` for an empty `sep`.
pub fn call_split(machine: &mut Machine, text: Value, call: &Call) -> Result<Value, EvalError>
    // It is long since it names each argument of the definition.
    ensures { Refines (spec.call_split call.now.setting.now call.now.line
        (bytes_of (content call.now.setting.now machine.old text)) call.now.given.now machine.old) result machine.new }
{
    let (by, cuts) = call.one_or_two(machine)?;
    machine.check_text(call.setting, call.line, by)?;
    let cuts = want_cuts(machine, call.setting, call.line, cuts)?;
    let whole = machine.copied_text(call.setting, text)?;
    let by = machine.copied_text(call.setting, by)?;
    pay_for_bytes(machine, call.setting, call.line, text)?;
    if by.as_str().is_empty() {
        return Err(fault_at(FaultCode::BadValue, call.line));
    }
    let parts = new_parts(machine, call.line, whole.as_str(), by.as_str(), cuts)?;
    machine.new_list(call.line, parts)
}

/// A string with another one in the place of each separator: at most `cuts` times, from the left. It is a draft, in
/// which the other string is copied only if it is short or `room` is left.
#[tactic(auto, using(crate::proofs::Cutting::joined_next))]
fn replaced(
    alloc: Global,
    text: &str,
    old: &str,
    new: &Text,
    cuts: Option<u64>,
    room: usize,
) -> Result<Draft, AllocError>
    requires { 0 < length old.now }
    ensures { IfOk result (λ t. t ≡ joined new.now (texts.parts text.now old.now cuts)) }
{
    let mut made = Draft::new(alloc, room);
    let mut rest = text;
    let mut left = cuts;
    while let Some((before, after)) = next_cut(rest, old, left) {
        made.say(before)?;
        made.put(new)?;
        rest = after;
        left = one_less(left);
    }
    made.say(rest)?;
    Ok(made)
}

/// Two or three values. `Args` for fewer or more, and for a keyword argument.
fn two_or_three(machine: &Machine, call: &Call) -> Result<(Value, Value, Option<Value>), EvalError>
    // It is long since it names each argument of the definition.
    ensures { RefinesBy (λ r. record { old = r.0; new = r.1; cuts = r.2 })
        (and_then (positional call.now.line call.now.given.now machine.now) (spec.two_or_three call.now.line))
        result machine.now }
{
    match machine.positional(call.line, call.given)? {
        [old, new] => Ok((*old, *new, None)),
        [old, new, cuts] => Ok((*old, *new, Some(*cuts))),
        _ => Err(fault_at(FaultCode::Args, call.line)),
    }
}

/// `replace(old, new, [n])`: the bytes are paid, then a new string with `new` in the place of each `old`, of `n` at
/// most. `BadType` for arguments of other types, `BadValue` for an empty `old`. The new string is built only if it can
/// be paid.
pub fn call_replace(machine: &mut Machine, text: Value, call: &Call) -> Result<Value, EvalError>
    // It is long since it names each argument of the definition.
    ensures { Refines (spec.call_replace call.now.setting.now call.now.line
        (bytes_of (content call.now.setting.now machine.old text)) call.now.given.now machine.old) result machine.new }
{
    let (old, new, cuts) = two_or_three(machine, call)?;
    machine.check_text(call.setting, call.line, old)?;
    machine.check_text(call.setting, call.line, new)?;
    let cuts = want_cuts(machine, call.setting, call.line, cuts)?;
    let whole = machine.copied_text(call.setting, text)?;
    let old = machine.copied_text(call.setting, old)?;
    let new = machine.copied_text(call.setting, new)?;
    pay_for_bytes(machine, call.setting, call.line, text)?;
    if old.as_str().is_empty() {
        return Err(fault_at(FaultCode::BadValue, call.line));
    }
    let made = replaced(
        machine.alloc(),
        whole.as_str(),
        old.as_str(),
        &new,
        cuts,
        machine.steps_left() as usize,
    )?;
    machine.new_draft(call.line, made)
}
