//! The parts of `x[a:b:c]` as ints, and the bounds that they set.

ghost use Rattle.std.specs.Prelude.{◌≡◌, ◌≤ℤ◌};
ghost use Rattle.std.specs.Int.{int_max, int_min};
ghost use Rattle.star_machine.specs.Refines.{Refines};
ghost use Rattle.star_meaning.specs.Subscript as spec;

use crate::content::Content;
use crate::fault::{EvalError, fault_at};
use crate::machine::Machine;
use crate::setting::Setting;
use star_meaning::fault::FaultCode;
use star_store::values::Value;

/// A bound of a slice: a place below 0 gets the length added, and is then clamped to two places. An absent one is at
/// its end.
pub fn bound_of(len: usize, low: i128, high: i128, absent: i128, place: Option<i64>) -> i128
    requires low { low ≤ℤ absent }
    requires high { absent ≤ℤ high }
    ensures value { result ≡ spec.bound_of len low high absent place }
    ensures above { low ≤ℤ result }
    ensures below { result ≤ℤ high }
{
    let Some(place) = place else {
        return absent;
    };
    clamped(low, high, from_end(len, place))
}

/// A place below 0 gets the length added.
fn from_end(len: usize, place: i64) -> i128
    ensures { result ≡ spec.from_end len place }
{
    if place < 0 {
        return place as i128 + len as i128;
    }
    place as i128
}

/// A place, moved to the nearer of two others if it is not between them.
fn clamped(low: i128, high: i128, place: i128) -> i128
    requires { low ≤ℤ high }
    ensures value { result ≡ int_min high (int_max low place) }
    ensures above { low ≤ℤ result }
    ensures below { result ≤ℤ high }
{
    let from_low = if place < low { low } else { place };
    if from_low < high { from_low } else { high }
}

/// A part of a slice: absent, or an int or None. `BadType` for another value.
pub fn want_part(
    machine: &Machine,
    setting: &Setting,
    line: usize,
    part: Option<Value>,
) -> Result<Option<i64>, EvalError>
    ensures { Refines (spec.want_part setting.now line part machine.now) result machine.now }
{
    let Some(value) = part else {
        return Ok(None);
    };
    match machine.content(setting, value) {
        Content::Nothing => Ok(None),
        Content::Number(int) => Ok(Some(int)),
        _ => Err(fault_at(FaultCode::BadType, line)),
    }
}
