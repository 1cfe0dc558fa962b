//! The place that an index means, counted from either end; and an entry that is put into a dictionary.

ghost use Rattle.std.specs.Prelude.{◌≡◌};
ghost use Rattle.star_machine.specs.Refines.{Refines};
ghost use Rattle.star_meaning.specs.Subscript as spec;

use crate::fault::EvalError;
use crate::machine::Machine;
use crate::setting::Setting;
use star_store::arena::write::Change;
use star_store::values::Value;

/// A place counted from the front or, below 0, from the end: none outside.
pub fn place_from(len: usize, int: i64) -> Option<usize>
    ensures { result ≡ spec.place_from len int }
{
    if int >= 0 {
        let at = int as usize;
        return if at < len { Some(at) } else { None };
    }
    let back = int.unsigned_abs() as usize;
    if back <= len { Some(len - back) } else { None }
}

/// Puts an entry into a dictionary: 1 is paid if its key is new.
#[tactic(auto, unfolding(star_meaning::specs::Subscript::put_entry))]
pub fn put_entry(
    machine: &mut Machine,
    setting: &Setting,
    line: usize,
    dict: Value,
    key: Value,
    value: Value,
) -> Result<(), EvalError>
    ensures { Refines (spec.put_entry setting.now line dict key value machine.old) result machine.new }
{
    if machine.place_in(setting, dict, key).is_none() {
        machine.pay(line, 1)?;
    }
    let _old = machine.change(setting, line, dict, Change::Put(key, value))?;
    Ok(())
}
