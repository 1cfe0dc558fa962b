//! Calls of recorded functions, of the extended language.

ghost use Rattle.std.specs.Prelude.{◌≡◌, ◌++◌, IfOk, codes};
ghost use Rattle.json.specs.Print.{quoted};
ghost use Rattle.star_meaning.specs.Recorded as spec;
ghost use Rattle.star_meaning.specs.Run.{each};
ghost use Rattle.star_meaning.specs.Texts.{joined};
ghost use Rattle.star_machine.specs.Refines.{Refines, RefinesBy};
ghost use Rattle.star_store.specs.Names.{name_among};
ghost use Rattle.star_store.specs.declared.names.BuiltIn.TheVariants as built_in;

use crate::print::joined;
use crate::structs::{given_fields, in_order};
use star_machine::call::Call;
use star_machine::fault::EvalError;
use star_machine::machine::Machine;
use star_meaning::said::{RecordedCall, Said};
use star_store::layout::Layout;
use star_store::names::BuiltIn;
use star_store::values::Value;
use star_text::Text;
use star_visit::draft::Draft;
use std::alloc::{AllocError, Global};

/// How many bytes the text of a call has beside its inputs and its name: `{`, `,"name":"` and `"}`.
const AROUND: u64 = 12;

/// The JSON of each value, as drafts in which no more long strings are copied than there are steps.
fn json_of_each(
    machine: &mut Machine,
    call: &Call,
    values: &[Value],
) -> Result<Vec<Draft>, EvalError>
    ensures { RefinesBy (λ v. v.items)
        (each (spec.json_of call.now.setting.now call.now.levels call.now.line) values.now machine.old)
        result machine.new }
{
    let mut texts = Vec::new(machine.alloc());
    let mut room = machine.steps_left() as usize;
    for value in values {
        let (setting, levels, line) = (call.setting, call.levels, call.line);
        let text = machine.encoded(setting, levels, line, &Layout::Compact, *value, room)?;
        room = text.room();
        texts.push(text)?;
    }
    Ok(texts)
}

/// A name and JSON as a member of an object.
fn member_of(alloc: Global, name: &Text, json: Draft) -> Result<Draft, AllocError>
    ensures { IfOk result (λ made. made ≡ quoted name.now ++ (codes ":" ++ json)) }
{
    let mut made = Draft::new(alloc, json.room());
    made.put_json(name)?;
    made.say(":")?;
    made.put_draft(json)?;
    Ok(made)
}

/// A keyword argument as a member, in which at most about `room` bytes of long strings are copied.
fn json_member(
    machine: &mut Machine,
    call: &Call,
    field: &(Text, Value),
    room: usize,
) -> Result<Draft, EvalError>
    ensures { Refines (spec.json_member call.now.setting.now call.now.levels call.now.line field.now machine.old)
        result machine.new }
{
    let (setting, levels, line) = (call.setting, call.levels, call.line);
    let json = machine.encoded(setting, levels, line, &Layout::Compact, field.1, room)?;
    Ok(member_of(machine.alloc(), &field.0, json)?)
}

/// Each keyword argument as a member.
fn json_members(
    machine: &mut Machine,
    call: &Call,
    fields: &[(Text, Value)],
) -> Result<Vec<Draft>, EvalError>
    ensures { RefinesBy (λ v. v.items)
        (each (spec.json_member call.now.setting.now call.now.levels call.now.line) fields.now machine.old)
        result machine.new }
{
    let mut members = Vec::new(machine.alloc());
    let mut room = machine.steps_left() as usize;
    for field in fields {
        let member = json_member(machine, call, field, room)?;
        room = member.room();
        members.push(member)?;
    }
    Ok(members)
}

/// The members `args` and `kwargs` of a call.
fn inputs_text(alloc: Global, args: Vec<Draft>, kwargs: Vec<Draft>) -> Result<Draft, AllocError>
    ensures { IfOk result (λ made. made ≡ spec.inputs_text args.items kwargs.items) }
{
    let comma = Text::new(alloc, ",")?;
    let listed = joined(alloc, &comma, args)?;
    let named = joined(alloc, &comma, kwargs)?;
    let mut made = Draft::new(alloc, named.room());
    made.say("\"args\":[")?;
    made.put_draft(listed)?;
    made.say("],\"kwargs\":{")?;
    made.put_draft(named)?;
    made.say("}")?;
    Ok(made)
}

/// The members of what is given: the positional values in order, then the keyword ones in byte order of their names.
fn inputs_of(machine: &mut Machine, call: &Call) -> Result<Draft, EvalError>
    ensures { Refines (spec.inputs_of call.now.setting.now call.now.levels call.now.line call.now.given.now
        machine.old) result machine.new }
{
    let alloc = machine.alloc();
    let args = json_of_each(machine, call, call.given.positional.as_slice())?;
    let fields = in_order(given_fields(alloc, call.given.named.as_slice())?)?;
    let kwargs = json_members(machine, call, fields.as_slice())?;
    Ok(inputs_text(alloc, args, kwargs)?)
}

/// The name of a recorded function.
fn name_of(machine: &Machine, call: &Call, place: u32) -> Result<Text, AllocError>
    ensures { IfOk result (λ name.
        name ≡ name_among call.now.setting.now.language.recorded (built_in.Recorded place)) }
{
    let names = call.setting.language().recorded.names();
    Text::new(machine.alloc(), BuiltIn::Recorded(place).name_among(names))
}

/// A call of the recorded function with this place: 1 and the bytes of its JSON are paid, and it is added to what the
/// run has said. Any arguments will do. `BadType` for a value that has no JSON, `Deep` for one that holds itself.
#[tactic(auto, using(crate::proofs::RecordedCalls::call_length))]
pub fn call_recorded(machine: &mut Machine, call: &Call, place: u32) -> Result<Value, EvalError>
    ensures { Refines (spec.call_recorded call.now.setting.now call.now.levels call.now.line place call.now.given.now
        machine.old) result machine.new }
{
    let inputs = inputs_of(machine, call)?;
    let name = name_of(machine, call, place)?;
    let around = name.as_str().len() as u64 + AROUND;
    let inputs = machine.pay_for_more(call.line, inputs, around)?;
    machine.add_said(Said::Call(RecordedCall {
        name,
        inputs,
        line: call.line,
    }))?;
    Ok(Value::NoneValue)
}
