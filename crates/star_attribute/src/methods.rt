//! The `match` that calls a bound method.

ghost use Rattle.std.specs.Prelude.{codes, nat_eq};
ghost use Rattle.std.specs.List.{ends_with, starts_with};
ghost use Rattle.star_machine.specs.Refines.{Refines};
ghost use Rattle.star_machine.specs.Kinds.{bytes_of};
ghost use Rattle.star_meaning.specs.Methods as spec;
ghost use Rattle.star_meaning.specs.TableMethods.{call_wider};
ghost use Rattle.star_meaning.specs.TextMethods.{call_edge, call_split};
ghost use Rattle.star_meaning.specs.Run.{and_then};
ghost use Rattle.star_meaning.specs.Values.{content, want_text};

use crate::formats::call_format;
use star_dialect::Dialect;
use star_machine::call::Call;
use star_machine::fault::{EvalError, fault_at};
use star_machine::machine::Machine;
use star_machine::setting::Setting;
use star_meaning::fault::FaultCode;
use star_meaning::given::Arguments;
use star_method::dicts::{
    Keyed, Listed, call_get, call_keyed, call_listed, call_popitem, call_update,
};
use star_method::lists::{
    call_append, call_clear, call_extend, call_index, call_insert, call_pop, call_remove,
};
use star_method::sets::call_on_set;
use star_method::split::{call_replace, call_split};
use star_method::table::{call_in_table, call_named};
use star_method::texts::{Case, Edge, call_case, call_edge, call_find, call_join, call_strip};
use star_store::names::Method;
use star_store::values::Value;

/// `startswith`: the core's, or the table's in the extended language.
fn call_starts(machine: &mut Machine, text: Value, call: &Call) -> Result<Value, EvalError>
    // It is long since it names each argument of the definition.
    ensures { Refines (call_wider call.now.setting.now call.now.line (codes "startswith")
        (bytes_of (content call.now.setting.now machine.old text)) call.now.given.now
        (call_edge call.now.setting.now call.now.line (starts_with nat_eq)
        (bytes_of (content call.now.setting.now machine.old text)) call.now.given.now) machine.old) result machine.new }
{
    match call.setting.dialect() {
        Dialect::Core => call_edge(machine, Edge::Front, text, call),
        Dialect::Extended => call_named(machine, "startswith", text, call),
    }
}

/// `endswith`: the core's, or the table's in the extended language.
fn call_ends(machine: &mut Machine, text: Value, call: &Call) -> Result<Value, EvalError>
    // It is long since it names each argument of the definition.
    ensures { Refines (call_wider call.now.setting.now call.now.line (codes "endswith")
        (bytes_of (content call.now.setting.now machine.old text)) call.now.given.now
        (call_edge call.now.setting.now call.now.line (ends_with nat_eq)
        (bytes_of (content call.now.setting.now machine.old text)) call.now.given.now) machine.old) result machine.new }
{
    match call.setting.dialect() {
        Dialect::Core => call_edge(machine, Edge::End, text, call),
        Dialect::Extended => call_named(machine, "endswith", text, call),
    }
}

/// `split`: the core's, or the table's in the extended language.
fn call_splits(machine: &mut Machine, text: Value, call: &Call) -> Result<Value, EvalError>
    // It is long since it names each argument of the definition.
    ensures { Refines (call_wider call.now.setting.now call.now.line (codes "split")
        (bytes_of (content call.now.setting.now machine.old text)) call.now.given.now
        (call_split call.now.setting.now call.now.line
        (bytes_of (content call.now.setting.now machine.old text)) call.now.given.now) machine.old) result machine.new }
{
    match call.setting.dialect() {
        Dialect::Core => call_split(machine, text, call),
        Dialect::Extended => call_named(machine, "split", text, call),
    }
}

/// Calls a method of a string. `BadType` if the receiver is not a string, or the method is not one of strings.
fn call_on_text(
    machine: &mut Machine,
    method: Method,
    text: Value,
    call: &Call,
) -> Result<Value, EvalError>
    // It is long since it names each argument of the definition.
    ensures { Refines (and_then (want_text call.now.setting.now call.now.line text machine.old)
        (λ t. spec.on_text call.now.setting.now call.now.levels call.now.line method t call.now.given.now))
        result machine.new }
{
    machine.check_text(call.setting, call.line, text)?;
    match method {
        Method::StringEndswith => call_ends(machine, text, call),
        Method::StringFind => call_find(machine, text, call),
        Method::StringFormat => call_format(machine, text, call),
        Method::StringJoin => call_join(machine, text, call),
        Method::StringLower => call_case(machine, Case::Lower, text, call),
        Method::StringLstrip => call_strip(machine, true, false, text, call),
        Method::StringReplace => call_replace(machine, text, call),
        Method::StringRstrip => call_strip(machine, false, true, text, call),
        Method::StringSplit => call_splits(machine, text, call),
        Method::StringStartswith => call_starts(machine, text, call),
        Method::StringStrip => call_strip(machine, true, true, text, call),
        Method::StringUpper => call_case(machine, Case::Upper, text, call),
        Method::OfString(method) => call_in_table(machine, method, text, call),
        _ => Err(fault_at(FaultCode::BadType, call.line)),
    }
}

/// Runs a method on its receiver for a call of it. The faults are those of the method; `BadType` too if the receiver is
/// not of the method's type.
#[tactic(auto, unfolding(star_meaning::specs::Methods::call_method))]
fn run_method(
    machine: &mut Machine,
    method: Method,
    receiver: Value,
    call: &Call,
) -> Result<Value, EvalError>
    ensures { Refines (spec.call_method call.now.setting.now call.now.levels call.now.line method receiver
        call.now.given.now machine.old) result machine.new }
{
    match method {
        Method::ListAppend => call_append(machine, receiver, call),
        Method::ListClear => call_clear(machine, receiver, call),
        Method::ListExtend => call_extend(machine, receiver, call),
        Method::ListIndex => call_index(machine, receiver, call),
        Method::ListInsert => call_insert(machine, receiver, call),
        Method::ListPop => call_pop(machine, receiver, call),
        Method::ListRemove => call_remove(machine, receiver, call),
        Method::DictClear => call_clear(machine, receiver, call),
        Method::DictGet => call_get(machine, receiver, call),
        Method::DictItems => call_listed(machine, Listed::Items, receiver, call),
        Method::DictKeys => call_listed(machine, Listed::Keys, receiver, call),
        Method::DictPop => call_keyed(machine, Keyed::Pop, receiver, call),
        Method::DictPopitem => call_popitem(machine, receiver, call),
        Method::DictSetdefault => call_keyed(machine, Keyed::SetDefault, receiver, call),
        Method::DictUpdate => call_update(machine, receiver, call),
        Method::DictValues => call_listed(machine, Listed::Values, receiver, call),
        Method::OfSet(method) => call_on_set(machine, method, receiver, call),
        _ => call_on_text(machine, method, receiver, call),
    }
}

/// Calls a bound method on its receiver. `levels` bounds the depth of comparisons and of texts. The faults are those of
/// the method; `BadType` too if the receiver is not of the method's type.
pub fn call_method(
    machine: &mut Machine,
    setting: &Setting,
    levels: u32,
    line: usize,
    method: Method,
    receiver: Value,
    given: &Arguments,
) -> Result<Value, EvalError>
    ensures { Refines (spec.call_method setting.now levels line method receiver given.now machine.old)
        result machine.new }
{
    let call = Call {
        setting,
        levels,
        line,
        given,
    };
    run_method(machine, method, receiver, &call)
}
