//! `json.encode` and `json.encode_indent`, of the extended language.

ghost use Rattle.std.specs.Prelude.{◌≡◌};
ghost use Rattle.std.specs.List.{list_all};
ghost use Rattle.star_meaning.specs.Json as spec;
ghost use Rattle.star_machine.specs.Refines.{Refines};

use crate::orders::value_named;
use star_machine::call::Call;
use star_machine::fault::{EvalError, fault_at};
use star_machine::machine::Machine;
use star_meaning::fault::FaultCode;
use star_meaning::given::KeywordArgument;
use star_store::layout::Layout;
use star_store::values::Value;
use star_text::Text;

/// `json.encode(x)`: the JSON of a value without any space, as a new string. `Args` for another number of values and for
/// a keyword argument, `BadType` for a value that has no JSON, `Deep` for one that holds itself.
pub fn call_encode(machine: &mut Machine, call: &Call) -> Result<Value, EvalError>
    ensures { Refines (spec.call_encode call.now.setting.now call.now.levels call.now.line call.now.given.now
        machine.old) result machine.new }
{
    let value = call.only_one(machine)?;
    let (setting, levels, line) = (call.setting, call.levels, call.line);
    let room = machine.steps_left() as usize;
    let text = machine.encoded(setting, levels, line, &Layout::Compact, value, room)?;
    machine.new_draft(line, text)
}

/// Whether each name is `prefix` or `indent`.
fn are_of_lines(named: &[KeywordArgument]) -> bool
    ensures { result ≡ list_all spec.is_of_lines named.now }
{
    for value in named {
        let name = value.name.as_str();
        if name != "prefix" && name != "indent" {
            return false;
        }
    }
    true
}

/// A string that is given, or another text. `BadType` unless it is a string.
fn text_or(
    machine: &Machine,
    call: &Call,
    otherwise: &str,
    given: Option<Value>,
) -> Result<Text, EvalError>
    ensures { Refines (spec.text_or call.now.setting.now call.now.line otherwise.now given machine.now) result
        machine.now }
{
    match given {
        Some(value) => {
            let text = machine.want_text(call.setting, call.line, value)?;
            Ok(text.share()?)
        }
        None => Ok(Text::new(machine.alloc(), otherwise)?),
    }
}

/// `json.encode_indent(x, prefix="", indent="\t")`: the JSON of a value in lines, as a new string. `Args` for another
/// number of values and for another keyword argument, `BadType` if `prefix` or `indent` is not a string; then as
/// `json.encode`.
pub fn call_encode_indent(machine: &mut Machine, call: &Call) -> Result<Value, EvalError>
    ensures { Refines (spec.call_encode_indent call.now.setting.now call.now.levels call.now.line call.now.given.now
        machine.old) result machine.new }
{
    let named = call.given.named.as_slice();
    let (setting, levels, line) = (call.setting, call.levels, call.line);
    if !are_of_lines(named) {
        return Err(fault_at(FaultCode::Args, line));
    }
    let value = machine.only_one(line, call.given.positional.as_slice())?;
    let prefix = text_or(machine, call, "", value_named("prefix", named))?;
    let indent = text_or(machine, call, "\t", value_named("indent", named))?;
    let layout = Layout::Lines(prefix, indent);
    let room = machine.steps_left() as usize;
    let text = machine.encoded(setting, levels, line, &layout, value, room)?;
    machine.new_draft(line, text)
}
