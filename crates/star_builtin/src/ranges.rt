//! `range`.

ghost use Rattle.star_meaning.specs.BuiltIns as spec;
ghost use Rattle.star_machine.specs.Refines.{Refines};
ghost use Rattle.star_builtin.specs.Parts as part;

use star_machine::call::Call;
use star_machine::fault::{EvalError, fault_at};
use star_machine::machine::Machine;
use star_machine::setting::Setting;
use star_meaning::fault::FaultCode;
use star_store::range::Range;
use star_store::values::{Cell, Value};

/// A new range. `BadValue` for a step of 0, `Overflow` for more than 2^63 - 1 ints.
fn new_range(machine: &mut Machine, line: usize, range: Range) -> Result<Value, EvalError>
    ensures { Refines (spec.new_range line range machine.old) result machine.new }
{
    if range.step == 0 {
        return Err(fault_at(FaultCode::BadValue, line));
    }
    if range.len() > i64::MAX as u64 {
        return Err(fault_at(FaultCode::Overflow, line));
    }
    machine.build(line, 1, Cell::Range(range))
}

/// The range of a stop, of a start and a stop, or of these and a step. `Args` for another number of values, `BadType`
/// if one is not an int, `BadValue` for a step of 0, `Overflow` for more than 2^63 - 1 ints.
fn range_of(
    machine: &mut Machine,
    setting: &Setting,
    line: usize,
    values: &[Value],
) -> Result<Value, EvalError>
    ensures { Refines (part.range_from setting.now line values.now machine.old) result machine.new }
{
    match values {
        [stop] => {
            let stop = machine.want_int(setting, line, *stop)?;
            let range = Range {
                start: 0,
                stop,
                step: 1,
            };
            new_range(machine, line, range)
        }
        [start, stop] => {
            let start = machine.want_int(setting, line, *start)?;
            let stop = machine.want_int(setting, line, *stop)?;
            let range = Range {
                start,
                stop,
                step: 1,
            };
            new_range(machine, line, range)
        }
        [start, stop, step] => {
            let start = machine.want_int(setting, line, *start)?;
            let stop = machine.want_int(setting, line, *stop)?;
            let step = machine.want_int(setting, line, *step)?;
            new_range(machine, line, Range { start, stop, step })
        }
        _ => Err(fault_at(FaultCode::Args, line)),
    }
}

/// `range([start], stop, [step])`. `Args` for another number of values and for a keyword argument, `BadType` if one is
/// not an int, `BadValue` for a step of 0, `Overflow` for more than 2^63 - 1 ints.
pub fn call_range(machine: &mut Machine, call: &Call) -> Result<Value, EvalError>
    ensures { Refines (spec.call_range call.now.setting.now call.now.line call.now.given.now machine.old)
        result machine.new }
{
    let values = machine.positional(call.line, call.given)?;
    range_of(machine, call.setting, call.line, values)
}
