//! The methods of strings in the table of `star_strings`, whatever the table has.

ghost use Rattle.std.specs.Prelude.{◌≡◌, ◌∷◌, [], IfOk, map};
ghost use Rattle.star_machine.specs.Refines.{Refines};
ghost use Rattle.star_machine.specs.Kinds.{bytes_of};
ghost use Rattle.star_meaning.specs.Run.{and_then, each, found};
ghost use Rattle.star_meaning.specs.TableMethods as spec;
ghost use Rattle.star_meaning.specs.Values.{content, new_text};
ghost use Rattle.star_meaning.specs.TextMethods.{texts_of, want_choices};
ghost use Rattle.star_meaning.specs.declared.fault.FaultCode.TheVariants as code;
ghost use Rattle.star_method.specs.Ends.{bytes_each};
ghost use Rattle.star_store.specs.declared.values.Value.TheVariants as value;
ghost use Rattle.star_strings.specs.Table.{named, shown};

use crate::texts::{are_texts, pay_for_bytes};
use sqlite_items::Items;
use star_machine::call::Call;
use star_machine::content::Content;
use star_machine::fault::{EvalError, fault_at};
use star_machine::machine::Machine;
use star_machine::setting::Setting;
use star_machine::slices::want_part;
use star_meaning::fault::FaultCode;
use star_store::values::{Cell, Value, Values};
use star_strings::table::{Answer, Argument, Entry, Kind, StringMethod};
use star_text::Text;
use std::alloc::AllocError;

/// Whether a method takes this many values.
fn takes(entry: &Entry, count: usize) -> bool
    ensures { result ≡ spec.takes (shown entry.now) count }
{
    !(count < entry.least) && !(entry.wants.len() < count)
}

/// A string or None. `BadType` for another value.
fn want_maybe_text(
    machine: &Machine,
    setting: &Setting,
    line: usize,
    value: Value,
) -> Result<Option<Text>, EvalError>
    ensures { Refines (spec.want_maybe_text setting.now line value machine.now) result machine.now }
{
    match machine.content(setting, value) {
        Content::Nothing => Ok(None),
        Content::Held(Cell::Text(text)) => Ok(Some(text.share()?)),
        _ => Err(fault_at(FaultCode::BadType, line)),
    }
}

/// The strings that values are.
fn texts_each(
    machine: &Machine,
    setting: &Setting,
    values: &[Value],
) -> Result<Items<Text>, AllocError>
    ensures { IfOk result (λ ts. ts ≡ bytes_each setting.now machine.now values.now) }
{
    let mut made = Items::new(machine.alloc());
    for value in values {
        made.push(machine.copied_text(setting, *value)?)?;
    }
    Ok(made)
}

/// The strings that values are. `BadType` if one of them is not a string.
#[tactic(auto, using(crate::proofs::Choices::texts_each, crate::proofs::Choices::no_texts))]
fn all_texts(
    machine: &Machine,
    setting: &Setting,
    line: usize,
    values: &[Value],
) -> Result<Items<Text>, EvalError>
    ensures { Refines (found code.BadType line (texts_of setting.now machine.now values.now) machine.now)
        result machine.now }
{
    if !are_texts(machine, setting, values) {
        return Err(fault_at(FaultCode::BadType, line));
    }
    Ok(texts_each(machine, setting, values)?)
}

/// One string.
fn one_text(machine: &Machine, text: &Text) -> Result<Items<Text>, AllocError>
    ensures { IfOk result (λ ts. ts ≡ text.now ∷ []) }
{
    let mut made = Items::new(machine.alloc());
    made.push(text.share()?)?;
    Ok(made)
}

/// A string, or those of a tuple of strings. `BadType` for another value.
fn want_texts(
    machine: &Machine,
    setting: &Setting,
    line: usize,
    value: Value,
) -> Result<Items<Text>, EvalError>
    ensures { Refines (want_choices setting.now line value machine.now) result machine.now }
{
    match machine.content(setting, value) {
        Content::Held(Cell::Text(text)) => Ok(one_text(machine, text)?),
        Content::Held(Cell::Tuple(parts)) => all_texts(machine, setting, line, parts.as_slice()),
        _ => Err(fault_at(FaultCode::BadType, line)),
    }
}

/// The argument that a value of a kind is. `BadType` for another value.
fn want_argument(
    machine: &Machine,
    setting: &Setting,
    line: usize,
    kind: Kind,
    value: Value,
) -> Result<Argument, EvalError>
    ensures { Refines (spec.want_argument setting.now line kind value machine.now) result machine.now }
{
    match kind {
        Kind::Text => {
            let text = machine.want_text(setting, line, value)?;
            Ok(Argument::Text(text.share()?))
        }
        Kind::MaybeText => {
            let text = want_maybe_text(machine, setting, line, value)?;
            Ok(Argument::MaybeText(text))
        }
        Kind::Texts => Ok(Argument::Texts(want_texts(machine, setting, line, value)?)),
        Kind::Int => Ok(Argument::Int(machine.want_int(setting, line, value)?)),
        Kind::Place => {
            let place = want_part(machine, setting, line, Some(value))?;
            Ok(Argument::Place(place))
        }
        Kind::Bool => Ok(Argument::Bool(machine.want_bool(setting, line, value)?)),
    }
}

/// The arguments that values are, each of the kind beside it. `BadType` for a value of another kind.
#[tactic(auto, using(crate::proofs::Given::front_more))]
fn want_arguments(
    machine: &Machine,
    setting: &Setting,
    line: usize,
    mut kinds: &[Kind],
    mut values: &[Value],
) -> Result<Items<Argument>, EvalError>
    ensures { Refines (spec.want_arguments setting.now line kinds.entry.now values.entry.now machine.now)
        result machine.now }
{
    let mut given = Items::new(machine.alloc());
    while let [value, other_values @ ..] = values {
        let [kind, other_kinds @ ..] = kinds else {
            return Ok(given);
        };
        given.push(want_argument(machine, setting, line, *kind, *value)?)?;
        values = other_values;
        kinds = other_kinds;
    }
    Ok(given)
}

/// A new string for each text.
pub fn new_texts(machine: &mut Machine, line: usize, texts: &[Text]) -> Result<Values, EvalError>
    ensures { Refines (each (new_text line) texts.now machine.old) result machine.new }
{
    let mut made = Vec::new(machine.alloc());
    let mut rest = texts;
    while let [text, others @ ..] = rest {
        made.push(machine.new_text(line, text.share()?)?)?;
        rest = others;
    }
    Ok(Values::new(made))
}

/// A value of each int.
fn int_values(machine: &Machine, numbers: &[i64]) -> Result<Values, AllocError>
    ensures { IfOk result (λ vs. vs ≡ map value.Int numbers.now) }
{
    let mut made = Vec::new(machine.alloc());
    for number in numbers {
        made.push(Value::Int(*number))?;
    }
    Ok(Values::new(made))
}

/// The value of an answer: each string in it is new, and so is a list or a tuple of them. `BadValue` for a refusal, `Cut`
/// where a character would be cut.
fn answered(machine: &mut Machine, line: usize, answer: Answer) -> Result<Value, EvalError>
    ensures { Refines (spec.answered line answer machine.old) result machine.new }
{
    match answer {
        Answer::Refused => Err(fault_at(FaultCode::BadValue, line)),
        Answer::Cut => Err(fault_at(FaultCode::Cut, line)),
        Answer::Truth(truth) => Ok(Value::Bool(truth)),
        Answer::Number(number) => Ok(Value::Int(number)),
        Answer::Text(text) => machine.new_text(line, text),
        Answer::List(texts) => {
            let made = new_texts(machine, line, texts.as_slice())?;
            machine.new_list(line, made)
        }
        Answer::Tuple(texts) => {
            let made = new_texts(machine, line, texts.as_slice())?;
            machine.new_tuple(line, made)
        }
        Answer::Numbers(numbers) => {
            let made = int_values(machine, numbers.as_slice())?;
            machine.new_list(line, made)
        }
    }
}

/// Calls the method of a row: the arguments are unpacked, the bytes are paid, then the answer is made.
fn call_row(
    machine: &mut Machine,
    method: StringMethod,
    entry: Entry,
    text: Value,
    call: &Call,
) -> Result<Value, EvalError>
    // It is long since it names each argument of the definition.
    ensures { Refines (spec.call_row call.now.setting.now call.now.line method
        (bytes_of (content call.now.setting.now machine.old text)) call.now.given.now (shown entry) machine.old)
        result machine.new }
{
    let values = machine.positional(call.line, call.given)?;
    if !takes(&entry, values.len()) {
        return Err(fault_at(FaultCode::Args, call.line));
    }
    let given = want_arguments(machine, call.setting, call.line, entry.wants, values)?;
    let whole = machine.copied_text(call.setting, text)?;
    pay_for_bytes(machine, call.setting, call.line, text)?;
    let answer = method.answer(machine.alloc(), whole.as_str(), given.as_slice())?;
    answered(machine, call.line, answer)
}

/// Calls a method of the table. `BadType` for one that the table does not have.
pub fn call_in_table(
    machine: &mut Machine,
    method: StringMethod,
    text: Value,
    call: &Call,
) -> Result<Value, EvalError>
    // It is long since it names each argument of the definition.
    ensures { Refines (spec.call_in_table call.now.setting.now call.now.line method
        (bytes_of (content call.now.setting.now machine.old text)) call.now.given.now machine.old) result machine.new }
{
    let Some(entry) = method.entry() else {
        return Err(fault_at(FaultCode::BadType, call.line));
    };
    call_row(machine, method, entry, text, call)
}

/// Calls the method of the table with a name. `BadType` if the table does not have it.
pub fn call_named(
    machine: &mut Machine,
    name: &str,
    text: Value,
    call: &Call,
) -> Result<Value, EvalError>
    // It is long since it names each argument of the definition.
    ensures { Refines (and_then (found code.BadType call.now.line (named name.now) machine.old)
        (λ m. spec.call_in_table call.now.setting.now call.now.line m
        (bytes_of (content call.now.setting.now machine.old text)) call.now.given.now)) result machine.new }
{
    let Some(method) = StringMethod::named(name) else {
        return Err(fault_at(FaultCode::BadType, call.line));
    };
    call_in_table(machine, method, text, call)
}
