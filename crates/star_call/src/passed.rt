//! The arguments of a call, evaluated. The ones after `*` and `**` are unpacked among the others.
//!
//! The names of a `**` dictionary are copied before their steps are paid, since all keys are checked before any
//! payment.

ghost use Rattle.std.specs.Prelude.{◌≡◌, ◌++◌, IfOk, OnOk};
ghost use Rattle.std.specs.Option.{option_map};
ghost use Rattle.star_meaning.specs.Arguments as spec;
ghost use Rattle.star_machine.specs.Refines.{Refines, RefinesBy};
ghost use Rattle.star_meaning.specs.Values.{content, text_of};
ghost use Rattle.star_call.specs.EvaluatedArgument.{all_shown};

use crate::names::comes_twice;
use sqlite_items::Items;
use star_machine::content::Content;
use star_machine::fault::{EvalError, fault_at};
use star_machine::machine::Machine;
use star_machine::setting::Setting;
use star_meaning::fault::FaultCode;
use star_meaning::given::{Arguments, KeywordArgument};
use star_store::values::{Cell, Value, Values};
use star_text::Text;
use std::alloc::{AllocError, Global};

/// An argument with its value, in its form in the call.
#[derive(Clone, Copy)]
pub enum EvaluatedArgument<'a> {
    Plain(Value),
    Named(&'a str, Value),
    /// `*value`.
    Star(Value),
    /// `**value`.
    StarStar(Value),
}

/// The positional arguments.
fn positional_of(alloc: Global, passed: &[EvaluatedArgument]) -> Result<Vec<Value>, AllocError>
    ensures { IfOk result (λ v. v.items ≡ spec.positional_of (all_shown passed.now)) }
{
    let mut positional = Vec::new(alloc);
    for argument in passed {
        if let EvaluatedArgument::Plain(value) = argument {
            positional.push(*value)?;
        }
    }
    Ok(positional)
}

/// The keyword arguments.
fn named_of(alloc: Global, passed: &[EvaluatedArgument]) -> Result<Vec<KeywordArgument>, AllocError>
    ensures { IfOk result (λ v. v.items ≡ spec.named_of (all_shown passed.now)) }
{
    let mut named = Vec::new(alloc);
    for argument in passed {
        if let EvaluatedArgument::Named(name, value) = argument {
            let name = Text::new(alloc, *name)?;
            named.push(KeywordArgument {
                name,
                key: None,
                value: *value,
            })?;
        }
    }
    Ok(named)
}

/// The value after `*`.
fn star_of(passed: &[EvaluatedArgument]) -> Option<Value>
    ensures { result ≡ spec.star_of (all_shown passed.now) }
{
    for argument in passed {
        if let EvaluatedArgument::Star(value) = argument {
            return Some(*value);
        }
    }
    None
}

/// The value after `**`.
fn star_star_of(passed: &[EvaluatedArgument]) -> Option<Value>
    ensures { result ≡ spec.star_star_of (all_shown passed.now) }
{
    for argument in passed {
        if let EvaluatedArgument::StarStar(value) = argument {
            return Some(*value);
        }
    }
    None
}

/// The number of items after `*`. `BadType` if it is not iterable.
fn star_count(
    machine: &Machine,
    setting: &Setting,
    line: usize,
    star: Option<Value>,
) -> Result<usize, EvalError>
    ensures { Refines (spec.star_count setting.now line star machine.now) result machine.now }
{
    match star {
        Some(star) => machine.count_of(setting, line, star),
        None => Ok(0),
    }
}

/// Takes the items after `*`: 1 is paid before each.
fn take_star(
    machine: &mut Machine,
    setting: &Setting,
    line: usize,
    star: Option<Value>,
    count: usize,
) -> Result<Values, EvalError>
    ensures { Refines (spec.take_star setting.now line star count machine.old) result machine.new }
{
    match star {
        Some(star) => machine.take_items(setting, line, star, count),
        None => Ok(Values::new(Vec::new(machine.alloc()))),
    }
}

/// An entry of a dictionary as a keyword argument; `None` if its key is not a string.
fn named_entry(
    machine: &Machine,
    setting: &Setting,
    entry: (Value, Value),
) -> Result<Option<KeywordArgument>, AllocError>
    ensures { IfOk result (λ n. n ≡ spec.named_entry setting.now machine.now entry
        (text_of (content setting.now machine.now entry.0))) }
{
    let (key, value) = entry;
    match machine.content(setting, key) {
        Content::Held(Cell::Text(name)) => {
            let name = name.share()?;
            Ok(Some(KeywordArgument {
                name,
                key: Some(key),
                value,
            }))
        }
        _ => Ok(None),
    }
}

/// The entries of a dictionary as keyword arguments; `None` if a key is not a string.
fn named_entries(
    machine: &Machine,
    setting: &Setting,
    entries: &[(Value, Value)],
) -> Result<Option<Vec<KeywordArgument>>, AllocError>
    ensures { IfOk result (λ r. option_map (λ v. v.items) r ≡ spec.named_entries setting.now machine.now entries.now) }
{
    let mut names = Vec::new(machine.alloc());
    for entry in entries {
        match named_entry(machine, setting, *entry)? {
            Some(name) => names.push(name)?,
            None => return Ok(None),
        }
    }
    Ok(Some(names))
}

/// The entries of a dictionary as keyword arguments; `None` for another value, and if a key is not a string.
fn names_in(
    machine: &Machine,
    setting: &Setting,
    value: Value,
) -> Result<Option<Vec<KeywordArgument>>, AllocError>
    ensures { IfOk result (λ r. option_map (λ v. v.items) r
        ≡ spec.names_in setting.now machine.now (content setting.now machine.now value)) }
{
    match machine.content(setting, value) {
        Content::Held(Cell::Dict(entries)) => named_entries(machine, setting, entries.as_slice()),
        _ => Ok(None),
    }
}

/// The value after `**` as keyword arguments. `BadType` unless it is a dictionary whose keys are all strings.
fn star_star_names(
    machine: &Machine,
    setting: &Setting,
    line: usize,
    value: Option<Value>,
) -> Result<Vec<KeywordArgument>, EvalError>
    ensures { RefinesBy (λ v. v.items) (spec.star_star_names setting.now line value machine.now) result machine.now }
{
    let Some(value) = value else {
        return Ok(Vec::new(machine.alloc()));
    };
    match names_in(machine, setting, value)? {
        Some(names) => Ok(names),
        None => Err(fault_at(FaultCode::BadType, line)),
    }
}

/// Takes named values: 1 is paid before each.
fn take_names(
    machine: &mut Machine,
    line: usize,
    names: Vec<KeywordArgument>,
) -> Result<Vec<KeywordArgument>, EvalError>
    ensures { RefinesBy (λ v. v.items) (spec.take_names line names.items machine.old) result machine.new }
{
    for _name in &names {
        machine.pay(line, 1)?;
    }
    Ok(names)
}

/// The positional arguments, and after them these.
fn with_plain(
    alloc: Global,
    passed: &[EvaluatedArgument],
    items: &Values,
) -> Result<Values, AllocError>
    ensures { IfOk result (λ v. v ≡ spec.positional_of (all_shown passed.now) ++ items.now) }
{
    let mut positional = positional_of(alloc, passed)?;
    positional.extend_from_slice(items.as_slice())?;
    Ok(Values::new(positional))
}

/// The keyword arguments, and after them these.
fn with_named(
    alloc: Global,
    passed: &[EvaluatedArgument],
    names: Vec<KeywordArgument>,
) -> Result<Items<KeywordArgument>, AllocError>
    ensures { IfOk result (λ v. v ≡ spec.named_of (all_shown passed.now) ++ names.items) }
{
    let mut names = names;
    let mut named = named_of(alloc, passed)?;
    named.append(&mut names)?;
    Ok(Items::from_vec(named))
}

/// The arguments of a call. First the values after `*` and `**` are checked, then their items and entries are taken, 1
/// before each, and then no name may come twice. `BadType` if `*` has no iterable, or `**` no dictionary whose keys are
/// all strings; `Steps` if a payment is too large; `Args` if a name comes twice.
#[tactic(auto, unfolding(star_meaning::specs::Arguments::given))]
pub fn given(
    machine: &mut Machine,
    setting: &Setting,
    line: usize,
    passed: &[EvaluatedArgument],
) -> Result<Arguments, EvalError>
    ensures answer { Refines (spec.given setting.now line (all_shown passed.now) machine.old) result machine.new }
    ensures kept { OnOk result (machine.new.store ≡ machine.old.store) }
{
    let star = star_of(passed);
    let count = star_count(machine, setting, line, star)?;
    let names = star_star_names(machine, setting, line, star_star_of(passed))?;
    let items = take_star(machine, setting, line, star, count)?;
    let names = take_names(machine, line, names)?;
    let positional = with_plain(machine.alloc(), passed, &items)?;
    let named = with_named(machine.alloc(), passed, names)?;
    if comes_twice(machine.alloc(), named.as_slice())? {
        return Err(fault_at(FaultCode::Args, line));
    }
    Ok(Arguments { positional, named })
}
