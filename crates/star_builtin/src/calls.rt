//! The `match` over all built-in functions. To see one of them, follow its arm of `run_built_in`.

ghost use Rattle.star_meaning.specs.BuiltIns.{call_built_in};
ghost use Rattle.star_machine.specs.Refines.{Refines};

use crate::attributes::{call_dir, call_getattr, call_hasattr};
use crate::bases::call_int;
use crate::best::{Best, call_best};
use crate::characters::{call_chr, call_hash, call_ord};
use crate::decoding::call_decode;
use crate::dicts::call_dict;
use crate::encoding::{call_encode, call_encode_indent};
use crate::numbers::{call_abs, call_len};
use crate::print::{Form, call_fail, call_print, call_text, call_type};
use crate::ranges::call_range;
use crate::recorded::call_recorded;
use crate::rows::{Row, call_enumerate, call_reversed, call_row, call_zip};
use crate::sets::call_set;
use crate::sorted::call_sorted;
use crate::structs::call_struct;
use crate::truths::{call_all, call_any, call_bool};
use star_machine::call::Call;
use star_machine::fault::{EvalError, fault_at};
use star_machine::machine::Machine;
use star_machine::setting::Setting;
use star_meaning::fault::FaultCode;
use star_meaning::given::Arguments;
use star_store::names::BuiltIn;
use star_store::values::Value;

/// Runs a built-in function for a call of it. The faults are those of the function with that name. A module, which is no
/// callee, is `BadType`.
#[tactic(auto, unfolding(star_meaning::specs::BuiltIns::call_built_in))]
fn run_built_in(machine: &mut Machine, built_in: BuiltIn, call: &Call) -> Result<Value, EvalError>
    ensures { Refines (call_built_in call.now.setting.now call.now.levels call.now.line built_in call.now.given.now
        machine.old) result machine.new }
{
    match built_in {
        BuiltIn::Abs => call_abs(machine, call),
        BuiltIn::All => call_all(machine, call),
        BuiltIn::Any => call_any(machine, call),
        BuiltIn::Bool => call_bool(machine, call),
        BuiltIn::Dict => call_dict(machine, call),
        BuiltIn::Enumerate => call_enumerate(machine, call),
        BuiltIn::Fail => call_fail(machine, call),
        BuiltIn::Int => call_int(machine, call),
        BuiltIn::Len => call_len(machine, call),
        BuiltIn::List => call_row(machine, Row::List, call),
        BuiltIn::Max => call_best(machine, Best::Greatest, call),
        BuiltIn::Min => call_best(machine, Best::Least, call),
        BuiltIn::Print => call_print(machine, call),
        BuiltIn::Range => call_range(machine, call),
        BuiltIn::Repr => call_text(machine, Form::Repr, call),
        BuiltIn::Reversed => call_reversed(machine, call),
        BuiltIn::Sorted => call_sorted(machine, call),
        BuiltIn::Str => call_text(machine, Form::Str, call),
        BuiltIn::Tuple => call_row(machine, Row::Tuple, call),
        BuiltIn::Type => call_type(machine, call),
        BuiltIn::Zip => call_zip(machine, call),
        BuiltIn::Chr => call_chr(machine, call),
        BuiltIn::Dir => call_dir(machine, call),
        BuiltIn::Getattr => call_getattr(machine, call),
        BuiltIn::Hasattr => call_hasattr(machine, call),
        BuiltIn::Hash => call_hash(machine, call),
        BuiltIn::Json => Err(fault_at(FaultCode::BadType, call.line)),
        BuiltIn::Ord => call_ord(machine, call),
        BuiltIn::Set => call_set(machine, call),
        BuiltIn::Struct => call_struct(machine, call),
        BuiltIn::JsonDecode => call_decode(machine, call),
        BuiltIn::JsonEncode => call_encode(machine, call),
        BuiltIn::JsonEncodeIndent => call_encode_indent(machine, call),
        BuiltIn::Recorded(place) => call_recorded(machine, call, place),
    }
}

/// Calls a built-in function. `levels` bounds the depth of comparisons and of texts. The faults are those of the
/// function with that name.
pub fn call_built_in(
    machine: &mut Machine,
    setting: &Setting,
    levels: u32,
    line: usize,
    built_in: BuiltIn,
    given: &Arguments,
) -> Result<Value, EvalError>
    ensures { Refines (call_built_in setting.now levels line built_in given.now machine.old) result machine.new }
{
    let call = Call {
        setting,
        levels,
        line,
        given,
    };
    run_built_in(machine, built_in, &call)
}
