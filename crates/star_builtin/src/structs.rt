//! `struct`, of the extended language.

ghost use Rattle.std.specs.Prelude.{◌≡◌, ◌<◌, ◌^◌, IfOk};
ghost use Rattle.star_store.specs.Sorting.{in_order};
ghost use Rattle.star_meaning.specs.Structs as spec;
ghost use Rattle.star_machine.specs.Refines.{Refines};
ghost use Rattle.star_store.specs.Fields.{is_before, names_of, risen, values_of};

use sqlite_items::Boxed;
use star_machine::call::Call;
use star_machine::fault::{EvalError, fault_at};
use star_machine::machine::Machine;
use star_meaning::fault::FaultCode;
use star_meaning::given::KeywordArgument;
use star_store::fields::Fields;
use star_store::values::{Cell, Value};
use star_text::Text;
use std::alloc::{AllocError, Global};

/// The names and the values of keyword arguments.
pub(crate) fn given_fields(
    alloc: Global,
    named: &[KeywordArgument],
) -> Result<Vec<(Text, Value)>, AllocError>
    ensures { IfOk result (λ fields. fields.items ≡ spec.given_fields named.now) }
{
    let mut fields = Vec::with_capacity(alloc, named.len())?;
    for argument in named {
        fields.push((argument.name.share()?, argument.value))?;
    }
    Ok(fields)
}

/// Fields in byte order of their names.
pub(crate) fn in_order(fields: Vec<(Text, Value)>) -> Result<Vec<(Text, Value)>, AllocError>
    ensures { IfOk result (λ sorted. sorted.items ≡ in_order is_before fields.items) }
{
    let mut fields = fields;
    fields.sort_by(|x, y| x.0.as_str().cmp(y.0.as_str()))?;
    Ok(fields)
}

/// What names cost: 1 and its bytes for each.
fn names_cost(names: &[Text]) -> u128
    ensures cost { result ≡ spec.names_cost names.now }
    ensures small { result < 2 ^ 127 }
{
    let mut cost: u128 = 0;
    for name in names {
        cost += 1 + name.as_str().len() as u128;
    }
    cost
}

/// Names apart from their values.
fn apart(alloc: Global, fields: &[(Text, Value)]) -> Result<(Vec<Text>, Vec<Value>), AllocError>
    ensures names { IfOk result (λ both. both.0.items ≡ names_of fields.now) }
    ensures values { IfOk result (λ both. both.1.items ≡ values_of fields.now) }
{
    let mut names = Vec::with_capacity(alloc, fields.len())?;
    let mut values = Vec::with_capacity(alloc, fields.len())?;
    for field in fields {
        names.push(field.0.share()?)?;
        values.push(field.1)?;
    }
    Ok((names, values))
}

/// The fields of keyword arguments, in byte order of their names; `None` if a name comes twice. The error: an allocation
/// failed.
#[tactic(auto, using(crate::proofs::Fields::names_beside))]
fn fields_of(alloc: Global, named: &[KeywordArgument]) -> Result<Option<Fields>, AllocError>
    ensures { IfOk result (λ made. made ≡ risen (in_order is_before (spec.given_fields named.now))) }
{
    let fields = in_order(given_fields(alloc, named)?)?;
    let (names, values) = apart(alloc, fields.as_slice())?;
    Fields::new(names, values)
}

/// `struct(**kw)`: a new struct with these fields: 1, 1 for each name and the bytes of all names are paid. `Args` for
/// any positional argument.
pub fn call_struct(machine: &mut Machine, call: &Call) -> Result<Value, EvalError>
    ensures { Refines (spec.call_struct call.now.line call.now.given.now machine.old) result machine.new }
{
    machine.no_value(call.line, call.given.positional.as_slice())?;
    let Some(fields) = fields_of(machine.alloc(), call.given.named.as_slice())? else {
        return Err(fault_at(FaultCode::Args, call.line));
    };
    let cost = 1 + names_cost(fields.names());
    let fields = Boxed::new(machine.alloc(), fields)?;
    machine.build(call.line, cost, Cell::Struct(fields))
}
