//! The entries of a dictionary display, and the new value of an augmented assignment.

ghost use Rattle.std.specs.Prelude.{◌≡◌, [], OnOk};
ghost use Rattle.star_builtin.specs.Dicts.{Puts};
ghost use Rattle.star_eval.specs.Merges.{merge_of};
ghost use Rattle.star_machine.specs.DictBuilder.{IsGathered};
ghost use Rattle.star_machine.specs.Refines.{Refines};
ghost use Rattle.star_meaning.specs.Expressions.{fresh_entries, fresh_entry};
ghost use Rattle.star_meaning.specs.Statements as spec;

use star_machine::content::Kind;
use star_machine::fault::{EvalError, fault_at};
use star_machine::gathered::DictBuilder;
use star_machine::machine::Machine;
use star_machine::pairs::update_with;
use star_machine::sets::augment_set;
use star_meaning::fault::FaultCode;
use star_meaning::merge::Merge;
use star_method::lists::extend;
use star_operators::operators::operate;
use star_store::values::{Entries, Value};
use star_tree::tree::BinaryOperator;
use star_world::world::World;

/// Puts one more entry in: its key is checked, and must not be there yet, or `Key`.
fn put_fresh(
    machine: &mut Machine,
    world: &World,
    levels: u32,
    line: usize,
    gathered: &mut DictBuilder,
    entry: (Value, Value),
) -> Result<(), EvalError>
    requires { IsGathered world.now.setting machine.old.store gathered.old }
    ensures put { Puts (fresh_entry world.now.setting levels line gathered.old.entries entry machine.old)
        result gathered.new.entries machine.new }
    ensures gathered { OnOk result (IsGathered world.now.setting machine.new.store gathered.new) }
{
    let setting = world.setting();
    machine.check_key(setting, levels, line, entry.0)?;
    let new = gathered.put_new(machine, setting, entry)?;
    if new {
        Ok(())
    } else {
        Err(fault_at(FaultCode::Key, line))
    }
}

/// The entries of a display. `BadType` for a value that is not a key, `Key` for a key that comes twice.
pub(crate) fn fresh_entries(
    machine: &mut Machine,
    world: &World,
    levels: u32,
    line: usize,
    found: &Entries,
) -> Result<Entries, EvalError>
    ensures { Refines (fresh_entries world.now.setting levels line [] found.now machine.old) result machine.new }
{
    let mut gathered = DictBuilder::with_capacity(machine.alloc(), found.len())?;
    for entry in found.as_slice() {
        put_fresh(machine, world, levels, line, &mut gathered, *entry)?;
    }
    Ok(gathered.into_entries())
}

/// How an operator writes a set in an augmented assignment; `None` if it does not.
fn merge_of(operator: BinaryOperator) -> Option<Merge>
    ensures { result ≡ merge_of operator }
{
    match operator {
        BinaryOperator::BitOr => Some(Merge::Union),
        BinaryOperator::BitAnd => Some(Merge::Intersection),
        BinaryOperator::Subtract => Some(Merge::Difference),
        BinaryOperator::BitXor => Some(Merge::SymmetricDifference),
        _ => None,
    }
}

/// The new value of an augmented assignment: `+=` on a list works as `extend`, `|=` on a dictionary as `update`, `|=`,
/// `&=`, `-=` and `^=` on a set as its methods that write; else as the operator.
#[tactic(auto, using(crate::proofs::Augmented::list_add, crate::proofs::Augmented::list_other, crate::proofs::Augmented::dict_or, crate::proofs::Augmented::dict_other, crate::proofs::Augmented::set_merged, crate::proofs::Augmented::set_other, crate::proofs::Augmented::otherwise))]
pub(crate) fn augmented(
    machine: &mut Machine,
    world: &World,
    levels: u32,
    line: usize,
    operator: BinaryOperator,
    x: Value,
    y: Value,
) -> Result<Value, EvalError>
    ensures { Refines (spec.augmented world.now.setting levels line operator x y machine.old) result machine.new }
{
    let setting = world.setting();
    match machine.kind(setting, x) {
        Kind::List => match operator {
            BinaryOperator::Add => {
                extend(machine, setting, line, x, y)?;
                Ok(x)
            }
            _ => operate(machine, setting, levels, line, operator, x, y),
        },
        Kind::Dict => match operator {
            BinaryOperator::BitOr => {
                update_with(machine, setting, levels, line, x, Some(y), &[])?;
                Ok(x)
            }
            _ => operate(machine, setting, levels, line, operator, x, y),
        },
        Kind::Set => match merge_of(operator) {
            Some(merge) => augment_set(machine, setting, levels, line, merge, x, y),
            None => operate(machine, setting, levels, line, operator, x, y),
        },
        _ => operate(machine, setting, levels, line, operator, x, y),
    }
}
