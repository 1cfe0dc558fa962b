//! `print`, `fail`, `repr`, `str` and `type`.

ghost use Rattle.std.specs.Prelude.{◌≡◌, ◌∷◌, IfOk, OnOk};
ghost use Rattle.star_meaning.specs.BuiltIns as spec;
ghost use Rattle.star_meaning.specs.Texts.{joined};
ghost use Rattle.star_machine.specs.Refines.{Refines, RefinesBy};
ghost use Rattle.star_meaning.specs.Run.{each};
ghost use Rattle.star_machine.specs.Shown.{shown};
ghost use Rattle.star_meaning.specs.Values.{str, type_name};
ghost use Rattle.star_builtin.specs.Forms.{call_text};
ghost use Rattle.star_builtin.specs.Parts as part;

use star_machine::call::Call;
use star_machine::content::Content;
use star_machine::fault::{EvalError, fault_at};
use star_machine::machine::Machine;
use star_machine::setting::Setting;
use star_meaning::fault::FaultCode;
use star_meaning::said::Said;
use star_store::values::{Cell, Value};
use star_text::Text;
use star_visit::draft::Draft;
use std::alloc::{AllocError, Global};

/// The `str` of each value, as drafts in which no more long strings are copied than there are steps.
fn texts(
    machine: &mut Machine,
    setting: &Setting,
    levels: u32,
    line: usize,
    values: &[Value],
) -> Result<Vec<Draft>, EvalError>
    ensures { RefinesBy (λ v. v.items) (each (str setting.now levels line) values.now machine.old) result machine.new }
{
    let mut texts = Vec::new(machine.alloc());
    let mut room = machine.steps_left() as usize;
    for value in values {
        let text = machine.str(setting, levels, line, *value, room)?;
        room = text.room();
        texts.push(text)?;
    }
    Ok(texts)
}

/// Puts drafts after a line, each after a text.
fn push_texts(line: &mut Draft, by: &Text, texts: Vec<Draft>) -> Result<(), AllocError>
    ensures { OnOk result (line.new ≡ joined by.now (line.old ∷ texts.items)) }
{
    for text in texts {
        line.put(by)?;
        line.put_draft(text)?;
    }
    Ok(())
}

/// Drafts in one, with a text between each and the next.
pub(crate) fn joined(alloc: Global, by: &Text, mut texts: Vec<Draft>) -> Result<Draft, AllocError>
    ensures { IfOk result (λ t. t ≡ joined by.now texts.items) }
{
    if texts.is_empty() {
        return Ok(Draft::new(alloc, 0));
    }
    let mut line = texts.remove(0);
    push_texts(&mut line, by, texts)?;
    Ok(line)
}

/// Adds a line of the `str` of each value, with a text between each and the next: 1 and the bytes of the line are paid
/// before it.
fn say(
    machine: &mut Machine,
    setting: &Setting,
    levels: u32,
    line: usize,
    by: &Text,
    values: &[Value],
) -> Result<(), EvalError>
    ensures { Refines (part.said setting.now levels line by.now values.now machine.old) result machine.new }
{
    let texts = texts(machine, setting, levels, line, values)?;
    let said = joined(machine.alloc(), by, texts)?;
    let said = machine.pay_for_draft(line, said)?;
    machine.add_said(Said::Line(said))
}

/// The name of the type of a content.
fn type_name(content: Content) -> &'static str
    ensures { result.now ≡ type_name (shown content.entry) }
{
    match content {
        Content::Nothing => "NoneType",
        Content::Truth(_) => "bool",
        Content::Number(_) => "int",
        Content::BuiltInFunction(function) => {
            if function.is_function() {
                "builtin_function_or_method"
            } else {
                "module"
            }
        }
        Content::Held(Cell::Text(_)) => "string",
        Content::Held(Cell::Range(_)) => "range",
        Content::Held(Cell::Tuple(_)) => "tuple",
        Content::Held(Cell::List(_)) => "list",
        Content::Held(Cell::Dict(_)) => "dict",
        Content::Held(Cell::Func(_)) => "function",
        Content::Held(Cell::Frame(_)) => "",
        Content::Held(Cell::Bound(_, _)) => "builtin_function_or_method",
        Content::Held(Cell::Struct(_)) => "struct",
        Content::Held(Cell::Set(_)) => "set",
        Content::Nowhere => "",
    }
}

/// The line of `print` and of `fail`: the `str` of each value, with the separator, a space without `sep`, between each
/// and the next. `Args` for a keyword argument but `sep`, `BadType` if the separator is not a string.
fn print_line(machine: &mut Machine, call: &Call) -> Result<(), EvalError>
    ensures { Refines (spec.print_line call.now.setting.now call.now.levels call.now.line call.now.given.now
        machine.old) result machine.new }
{
    let (values, separator) = machine.with_name(call.line, "sep", call.given)?;
    let by = match separator {
        Some(value) => {
            let text = machine.want_text(call.setting, call.line, value)?;
            text.share()?
        }
        None => Text::new(machine.alloc(), " ")?,
    };
    say(machine, call.setting, call.levels, call.line, &by, values)
}

/// `print(*x, sep=" ")`: adds a line. `Args` for a keyword argument but `sep`, `BadType` if the separator is not a
/// string.
pub fn call_print(machine: &mut Machine, call: &Call) -> Result<Value, EvalError>
    ensures { Refines (spec.call_print call.now.setting.now call.now.levels call.now.line call.now.given.now
        machine.old) result machine.new }
{
    print_line(machine, call)?;
    Ok(Value::NoneValue)
}

/// `fail(*x, sep=" ")`: adds a line, and is then the fault `Fail`. `Args` for a keyword argument but `sep`, `BadType`
/// if the separator is not a string.
pub fn call_fail(machine: &mut Machine, call: &Call) -> Result<Value, EvalError>
    ensures { Refines (spec.call_fail call.now.setting.now call.now.levels call.now.line call.now.given.now
        machine.old) result machine.new }
{
    print_line(machine, call)?;
    Err(fault_at(FaultCode::Fail, call.line))
}

/// The text of a value that `repr` answers, or the one that `str` answers: of a string the string itself.
#[derive(Clone, Copy, Debug, PartialEq, Eq)]
pub enum Form {
    Repr,
    Str,
}

/// `repr(x)` or `str(x)`: the text of a value, as a new string. `Args` for another number of values and for a keyword
/// argument.
pub fn call_text(machine: &mut Machine, form: Form, call: &Call) -> Result<Value, EvalError>
    ensures { Refines (call_text call.now.setting.now call.now.levels call.now.line form call.now.given.now
        machine.old) result machine.new }
{
    let value = call.only_one(machine)?;
    let room = machine.steps_left() as usize;
    let text = match form {
        Form::Repr => machine.repr(call.setting, call.levels, call.line, value, room)?,
        Form::Str => machine.str(call.setting, call.levels, call.line, value, room)?,
    };
    machine.new_draft(call.line, text)
}

/// `type(x)`: the name of the type of a value, as a new string. `Args` for another number of values and for a name.
pub fn call_type(machine: &mut Machine, call: &Call) -> Result<Value, EvalError>
    ensures { Refines (spec.call_type call.now.setting.now call.now.line call.now.given.now machine.old)
        result machine.new }
{
    let value = call.only_one(machine)?;
    let name = type_name(machine.content(call.setting, value));
    let text = Text::new(machine.alloc(), name)?;
    machine.new_text(call.line, text)
}
