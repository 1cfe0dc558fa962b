//! `max` and `min` without `key`.

ghost use Rattle.std.specs.Prelude.{◌≡◌};
ghost use Rattle.star_meaning.specs.BuiltIns as spec;
ghost use Rattle.star_machine.specs.Refines.{Refines};
ghost use Rattle.star_builtin.specs.Best.{better, best_among};

use star_machine::call::Call;
use star_machine::fault::{EvalError, fault_at};
use star_machine::machine::Machine;
use star_machine::setting::Setting;
use star_meaning::fault::FaultCode;
use star_store::values::Value;
use std::cmp::Ordering;

/// Which of some values is the best.
#[derive(Clone, Copy, Debug, PartialEq, Eq)]
pub enum Best {
    Greatest,
    Least,
}

impl Best {
    /// Whether a value is better than the best so far, from their order.
    pub(crate) fn prefers(self, order: Ordering) -> bool
        ensures { result ≡ better self order }
    {
        match self {
            Best::Greatest => order.is_gt(),
            Best::Least => order.is_lt(),
        }
    }
}

/// The best of a value and those after it: the first of equals. `BadType` if two have no order.
fn best_of(
    machine: &mut Machine,
    setting: &Setting,
    levels: u32,
    line: usize,
    wanted: Best,
    first: Value,
    rest: &[Value],
) -> Result<Value, EvalError>
    ensures { Refines (spec.best_of setting.now levels line (better wanted) first rest.now machine.old)
        result machine.new }
{
    let mut best = first;
    for item in rest {
        let order = machine.compare(setting, levels, line, *item, best)?;
        if wanted.prefers(order) {
            best = *item;
        }
    }
    Ok(best)
}

/// The best of one value's items, or of several values: the first of equals. `Args` for no value, `BadType` if the one
/// value is not iterable and if two have no order, `BadValue` for no item.
fn best_among(
    machine: &mut Machine,
    setting: &Setting,
    levels: u32,
    line: usize,
    wanted: Best,
    values: &[Value],
) -> Result<Value, EvalError>
    ensures { Refines (best_among setting.now levels line (better wanted) values.now machine.old) result machine.new }
{
    match values {
        [] => Err(fault_at(FaultCode::Args, line)),
        [value] => {
            let items = machine.take_all(setting, line, *value)?;
            match items.as_slice() {
                [first, rest @ ..] => best_of(machine, setting, levels, line, wanted, *first, rest),
                [] => Err(fault_at(FaultCode::BadValue, line)),
            }
        }
        [first, rest @ ..] => best_of(machine, setting, levels, line, wanted, *first, rest),
    }
}

/// `max(x, ..)` or `min(x, ..)`: the best of the items of one value, or of several values, and the first of equals.
/// `Args` for no value and for a keyword argument, `BadType` if the one value is not iterable and if two have no order,
/// `BadValue` for no item.
pub fn call_best(machine: &mut Machine, wanted: Best, call: &Call) -> Result<Value, EvalError>
    ensures { Refines (spec.call_best call.now.setting.now call.now.levels call.now.line (better wanted)
        call.now.given.now machine.old) result machine.new }
{
    let values = machine.positional(call.line, call.given)?;
    best_among(
        machine,
        call.setting,
        call.levels,
        call.line,
        wanted,
        values,
    )
}
