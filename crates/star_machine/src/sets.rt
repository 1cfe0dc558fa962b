//! Sets: a set and others are merged, as a new set or as a write.
//!
//! The items of all others are taken and checked first. Then each other is a set of its own with an index, so no work
//! goes through one row for each element of another.

ghost use Rattle.std.specs.Prelude.{◌≡◌, [], IfOk};
ghost use Rattle.star_machine.specs.DictBuilder.{IsGathered};
ghost use Rattle.star_machine.specs.Refines.{Refines, RefinesBy};
ghost use Rattle.star_meaning.specs.Entries.{with_elements};
ghost use Rattle.star_meaning.specs.Run.{all_of, each};
ghost use Rattle.star_meaning.specs.Sets as spec;
ghost use Rattle.star_meaning.specs.Subscript.{entries_in};
ghost use Rattle.star_meaning.specs.Values.{check_key, content};

use crate::content::{Content, Kind};
use crate::fault::{EvalError, fault_at};
use crate::gathered::DictBuilder;
use crate::machine::Machine;
use crate::pairs::entries_of;
use crate::setting::Setting;
use crate::subscript::put_entry;
use star_meaning::fault::FaultCode;
use star_meaning::merge::{Merge, Relation};
use star_store::arena::write::Change;
use star_store::values::{Cell, Entries, Value, Values};
use std::alloc::{AllocError, Global};

/// A copy of the elements of a set.
fn elements_of(machine: &Machine, setting: &Setting, set: Value) -> Result<Entries, AllocError>
    ensures { IfOk result (λ es. es ≡ entries_in (content setting.now machine.now set)) }
{
    Ok(Entries::of(entries_of(machine, setting, set)?))
}

/// Elements with others put in, in order: one that is there stays in its place.
pub fn with_elements(
    machine: &Machine,
    setting: &Setting,
    elements: DictBuilder,
    items: &[Value],
) -> Result<DictBuilder, AllocError>
    requires { IsGathered setting.now machine.now.store elements }
    ensures put { IfOk result (λ g. g.entries ≡ with_elements setting.now machine.now elements.entries items.now) }
    ensures gathered { IfOk result (λ g. IsGathered setting.now machine.now.store g) }
{
    let mut gathered = elements;
    for item in items {
        gathered.put(machine, setting, (*item, Value::NoneValue))?;
    }
    Ok(gathered)
}

/// Items as the elements of a set.
fn gathered(
    machine: &Machine,
    setting: &Setting,
    items: &[Value],
) -> Result<DictBuilder, AllocError>
    ensures put { IfOk result (λ g. g.entries ≡ with_elements setting.now machine.now [] items.now) }
    ensures gathered { IfOk result (λ g. IsGathered setting.now machine.now.store g) }
{
    with_elements(machine, setting, DictBuilder::new(machine.alloc()), items)
}

/// The elements that another set has.
fn those_in(
    machine: &Machine,
    setting: &Setting,
    other: &DictBuilder,
    elements: &Entries,
) -> Result<Entries, AllocError>
    requires { IsGathered setting.now machine.now.store other.now }
    ensures { IfOk result (λ r. r ≡ spec.those_in setting.now machine.now other.now.entries elements.now) }
{
    let mut found = Entries::new(machine.alloc());
    for entry in elements.as_slice() {
        if other.has(machine, setting, entry.0) {
            found.push(entry.0, entry.1)?;
        }
    }
    Ok(found)
}

/// The elements that another set does not have.
fn those_out(
    machine: &Machine,
    setting: &Setting,
    other: &DictBuilder,
    elements: &Entries,
) -> Result<Entries, AllocError>
    requires { IsGathered setting.now machine.now.store other.now }
    ensures { IfOk result (λ r. r ≡ spec.those_out setting.now machine.now other.now.entries elements.now) }
{
    let mut found = Entries::new(machine.alloc());
    for entry in elements.as_slice() {
        if !other.has(machine, setting, entry.0) {
            found.push(entry.0, entry.1)?;
        }
    }
    Ok(found)
}

/// The items that a set does not have.
fn new_to(
    machine: &Machine,
    setting: &Setting,
    elements: &DictBuilder,
    items: &[Value],
) -> Result<Vec<Value>, AllocError>
    requires { IsGathered setting.now machine.now.store elements.now }
    ensures { IfOk result (λ r. r.items ≡ spec.new_to setting.now machine.now elements.now.entries items.now) }
{
    let mut found = Vec::new(machine.alloc());
    for item in items {
        if !elements.has(machine, setting, *item) {
            found.push(*item)?;
        }
    }
    Ok(found)
}

/// The elements of a set that each of some others has.
fn those_in_all(
    machine: &Machine,
    setting: &Setting,
    elements: Entries,
    others: &[Values],
) -> Result<Entries, AllocError>
    ensures { IfOk result (λ r. r ≡ spec.those_in_all setting.now machine.now elements others.now) }
{
    let mut kept = elements;
    for items in others {
        let other = gathered(machine, setting, items.as_slice())?;
        kept = those_in(machine, setting, &other, &kept)?;
    }
    Ok(kept)
}

/// The items of rows, in order.
fn all_items(alloc: Global, rows: &[Values]) -> Result<Vec<Value>, AllocError>
    ensures { IfOk result (λ r. r.items ≡ spec.all_items rows.now) }
{
    let mut items = Vec::new(alloc);
    for row in rows {
        items.extend_from_slice(row.as_slice())?;
    }
    Ok(items)
}

/// The elements of a set that stay if it is merged with others.
fn kept(
    machine: &Machine,
    setting: &Setting,
    merge: Merge,
    elements: Entries,
    others: &[Values],
) -> Result<Entries, AllocError>
    ensures { IfOk result (λ r. r ≡ spec.kept setting.now machine.now merge elements others.now) }
{
    match merge {
        Merge::Union => Ok(elements),
        Merge::Intersection => those_in_all(machine, setting, elements, others),
        Merge::Difference | Merge::SymmetricDifference => {
            let items = all_items(machine.alloc(), others)?;
            let other = gathered(machine, setting, &items)?;
            those_out(machine, setting, &other, &elements)
        }
    }
}

/// The items that are added to them.
fn added(
    machine: &Machine,
    setting: &Setting,
    merge: Merge,
    elements: &Entries,
    others: &[Values],
) -> Result<Vec<Value>, AllocError>
    ensures { IfOk result (λ r. r.items ≡ spec.added setting.now machine.now merge elements.now others.now) }
{
    match merge {
        Merge::Union => all_items(machine.alloc(), others),
        Merge::SymmetricDifference => {
            let items = all_items(machine.alloc(), others)?;
            let copy = Entries::of(Vec::from_slice(machine.alloc(), elements.as_slice())?);
            let set = DictBuilder::of(machine, setting, copy, items.len());
            new_to(machine, setting, &set, &items)
        }
        Merge::Intersection | Merge::Difference => Ok(Vec::new(machine.alloc())),
    }
}

/// The elements of a set that is merged with others.
fn merged(
    machine: &Machine,
    setting: &Setting,
    merge: Merge,
    elements: Entries,
    others: &[Values],
) -> Result<Entries, AllocError>
    ensures { IfOk result (λ r. r ≡ spec.merged setting.now machine.now merge elements others.now) }
{
    let more = added(machine, setting, merge, &elements, others)?;
    let kept = kept(machine, setting, merge, elements, others)?;
    let set = DictBuilder::of(machine, setting, kept, more.len());
    Ok(with_elements(machine, setting, set, &more)?.into_entries())
}

/// Checks that values are iterable. `BadType` if one is not.
fn check_others(
    machine: &Machine,
    setting: &Setting,
    line: usize,
    others: &[Value],
) -> Result<(), EvalError>
    ensures { Refines (spec.check_others setting.now line others.now machine.now) result machine.now }
{
    for other in others {
        let _count = machine.count_of(setting, line, *other)?;
    }
    Ok(())
}

/// Pays 1 for each element of a set, but not for a union.
fn pay_elements(
    machine: &mut Machine,
    setting: &Setting,
    line: usize,
    merge: Merge,
    set: Value,
) -> Result<(), EvalError>
    ensures { Refines (spec.pay_elements line merge (entries_in (content setting.now machine.old set)) machine.old)
        result machine.new }
{
    match merge {
        Merge::Union => Ok(()),
        _ => machine.pay(line, machine.entry_count(setting, set) as u128),
    }
}

/// Whether the items of a value are keys already: those of a dictionary or a set.
fn has_keys(machine: &Machine, setting: &Setting, value: Value) -> bool
    ensures { result ≡ spec.has_keys (content setting.now machine.now value) }
{
    matches!(
        machine.content(setting, value),
        Content::Held(Cell::Dict(_)) | Content::Held(Cell::Set(_))
    )
}

/// Checks that values are keys. `BadType` if one is not.
fn check_each(
    machine: &mut Machine,
    setting: &Setting,
    levels: u32,
    line: usize,
    items: &[Value],
) -> Result<(), EvalError>
    ensures { Refines (all_of (check_key setting.now levels line) items.now machine.old) result machine.new }
{
    for item in items {
        machine.check_key(setting, levels, line, *item)?;
    }
    Ok(())
}

/// All items of an iterable as elements of a set. `BadType` if it is not iterable, or if an item is not hashable.
#[tactic(auto, unfolding(star_meaning::specs::Sets::take_elements))]
pub fn take_elements(
    machine: &mut Machine,
    setting: &Setting,
    levels: u32,
    line: usize,
    value: Value,
) -> Result<Values, EvalError>
    ensures { Refines (spec.take_elements setting.now levels line value machine.old) result machine.new }
{
    let items = machine.take_all(setting, line, value)?;
    if !has_keys(machine, setting, value) {
        check_each(machine, setting, levels, line, items.as_slice())?;
    }
    Ok(items)
}

/// All items of each of some iterables.
fn take_each(
    machine: &mut Machine,
    setting: &Setting,
    levels: u32,
    line: usize,
    others: &[Value],
) -> Result<Vec<Values>, EvalError>
    ensures { RefinesBy (λ rows. rows.items) (each (spec.take_elements setting.now levels line) others.now machine.old)
        result machine.new }
{
    let mut rows = Vec::new(machine.alloc());
    for other in others {
        rows.push(take_elements(machine, setting, levels, line, *other)?)?;
    }
    Ok(rows)
}

/// A new set of a set that is merged with others: they are iterable (`BadType`), 1 for each element of the set, all items
/// of each other, then the new set is paid.
#[tactic(auto, unfolding(star_meaning::specs::Sets::merge_new))]
pub fn merge_new(
    machine: &mut Machine,
    setting: &Setting,
    levels: u32,
    line: usize,
    merge: Merge,
    set: Value,
    others: &[Value],
) -> Result<Value, EvalError>
    ensures { Refines (spec.merge_new setting.now levels line merge
        (entries_in (content setting.now machine.old set)) others.now machine.old) result machine.new }
{
    let elements = elements_of(machine, setting, set)?;
    check_others(machine, setting, line, others)?;
    pay_elements(machine, setting, line, merge, set)?;
    let rows = take_each(machine, setting, levels, line, others)?;
    let entries = merged(machine, setting, merge, elements, &rows)?;
    machine.new_set(line, entries)
}

/// Puts elements into a set: 1 is paid for each that is new.
fn put_elements(
    machine: &mut Machine,
    setting: &Setting,
    line: usize,
    set: Value,
    items: &[Value],
) -> Result<(), EvalError>
    ensures { Refines (all_of (spec.put_element setting.now line set) items.now machine.old) result machine.new }
{
    for item in items {
        put_entry(machine, setting, line, set, *item, Value::NoneValue)?;
    }
    Ok(())
}

/// Puts the elements that stay into a set that was emptied.
fn put_back(
    machine: &mut Machine,
    setting: &Setting,
    line: usize,
    set: Value,
    elements: &[(Value, Value)],
) -> Result<(), EvalError>
    ensures { Refines (all_of (spec.put_back setting.now line set) elements.now machine.old) result machine.new }
{
    for entry in elements {
        let _old = machine.change(setting, line, set, Change::Put(entry.0, entry.1))?;
    }
    Ok(())
}

/// Takes all elements out of a set but these.
fn reset(
    machine: &mut Machine,
    setting: &Setting,
    line: usize,
    set: Value,
    elements: &[(Value, Value)],
) -> Result<(), EvalError>
    ensures { Refines (spec.reset setting.now line set elements.now machine.old) result machine.new }
{
    let _old = machine.change(setting, line, set, Change::Clear)?;
    put_back(machine, setting, line, set, elements)
}

/// Writes a set that is merged with others. The elements of a union are not gone through.
fn write_merged(
    machine: &mut Machine,
    setting: &Setting,
    line: usize,
    merge: Merge,
    set: Value,
    others: &[Values],
) -> Result<(), EvalError>
    // It is long since it names the elements twice.
    ensures { Refines (spec.write_merged setting.now line set
        (spec.kept setting.now machine.old merge (entries_in (content setting.now machine.old set)) others.now)
        (spec.added setting.now machine.old merge (entries_in (content setting.now machine.old set)) others.now)
        merge machine.old) result machine.new }
{
    if merge == Merge::Union {
        let items = all_items(machine.alloc(), others)?;
        return put_elements(machine, setting, line, set, &items);
    }
    let elements = elements_of(machine, setting, set)?;
    let more = added(machine, setting, merge, &elements, others)?;
    let kept = kept(machine, setting, merge, elements, others)?;
    reset(machine, setting, line, set, kept.as_slice())?;
    put_elements(machine, setting, line, set, &more)
}

/// Merges a set with others as a write: they are iterable (`BadType`), the write guard, 1 for each element of the set,
/// all items of each other, then 1 for each new element.
#[tactic(auto, unfolding(star_meaning::specs::Sets::merge_into))]
pub fn merge_into(
    machine: &mut Machine,
    setting: &Setting,
    levels: u32,
    line: usize,
    merge: Merge,
    set: Value,
    others: &[Value],
) -> Result<(), EvalError>
    ensures { Refines (spec.merge_into setting.now levels line merge set others.now machine.old) result machine.new }
{
    check_others(machine, setting, line, others)?;
    machine.guard(setting, line, set)?;
    pay_elements(machine, setting, line, merge, set)?;
    let rows = take_each(machine, setting, levels, line, others)?;
    write_merged(machine, setting, line, merge, set, &rows)
}

/// The new value of an augmented assignment of a set: the set itself, which is written. `BadType` for another value than
/// a set.
pub fn augment_set(
    machine: &mut Machine,
    setting: &Setting,
    levels: u32,
    line: usize,
    merge: Merge,
    set: Value,
    other: Value,
) -> Result<Value, EvalError>
    ensures { Refines (spec.augment_set setting.now levels line merge set other machine.old) result machine.new }
{
    match machine.kind(setting, other) {
        Kind::Set => {
            merge_into(machine, setting, levels, line, merge, set, &[other])?;
            Ok(set)
        }
        _ => Err(fault_at(FaultCode::BadType, line)),
    }
}

/// Whether a relation holds between the elements of a set and the items of another value.
fn is_related(
    machine: &Machine,
    setting: &Setting,
    relation: Relation,
    elements: Entries,
    items: &[Value],
) -> Result<bool, AllocError>
    ensures { IfOk result (λ b. b ≡ spec.is_related setting.now machine.now relation elements items.now) }
{
    match relation {
        Relation::IsDisjoint => {
            let other = gathered(machine, setting, items)?;
            Ok(those_in(machine, setting, &other, &elements)?.len() == 0)
        }
        Relation::IsSubset => {
            let other = gathered(machine, setting, items)?;
            Ok(those_out(machine, setting, &other, &elements)?.len() == 0)
        }
        Relation::IsSuperset => {
            let set = DictBuilder::of(machine, setting, elements, items.len());
            Ok(new_to(machine, setting, &set, items)?.len() == 0)
        }
    }
}

/// Whether a relation holds between a set and another value, which is iterable (`BadType`): 1 for each element of the
/// set, then all items.
#[tactic(auto, unfolding(star_meaning::specs::Sets::relate))]
pub fn relate(
    machine: &mut Machine,
    setting: &Setting,
    levels: u32,
    line: usize,
    relation: Relation,
    set: Value,
    other: Value,
) -> Result<Value, EvalError>
    ensures { Refines (spec.relate setting.now levels line relation
        (entries_in (content setting.now machine.old set)) other machine.old) result machine.new }
{
    let elements = elements_of(machine, setting, set)?;
    let _count = machine.count_of(setting, line, other)?;
    machine.pay(line, elements.len() as u128)?;
    let items = take_elements(machine, setting, levels, line, other)?;
    let related = is_related(machine, setting, relation, elements, items.as_slice())?;
    Ok(Value::Bool(related))
}
