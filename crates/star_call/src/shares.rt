//! The arguments that parameters are bound to, and the new tuple and dictionary of `*name` and `**name`.
//!
//! A share borrows: `Rest` has the positional values that are left in place. Extra keyword values are kept once, beside
//! the shares.

ghost use Rattle.std.specs.Prelude.{◌≡◌, map};
ghost use Rattle.star_meaning.specs.Binding as spec;
ghost use Rattle.star_machine.specs.Refines.{Refines, RefinesBy};
ghost use Rattle.star_meaning.specs.Run.{each};
ghost use Rattle.star_call.specs.BoundArguments.{all_named, all_shown, bound_value, argument_of};

use star_machine::fault::EvalError;
use star_machine::machine::Machine;
use star_meaning::given::KeywordArgument;
use star_store::values::{Entries, Value, Values};
use star_tree::tree::Name;
use std::marker::Model;

/// The argument that a parameter is bound to.
#[derive(Clone, Copy)]
pub enum BoundArgument<'g> {
    /// A value.
    One(Value),
    /// The positional arguments that are left, for `*name`.
    Rest(&'g [Value]),
    /// The keyword arguments that name no parameter, for `**name`.
    Names,
}

/// The argument of each parameter, in their order, under its name.
#[derive(Drop)]
pub struct BoundArguments<'t, 'g> {
    shares: Vec<(&'t Name, BoundArgument<'g>)>,
    left: Vec<&'g KeywordArgument>,
}

impl<'t, 'g> Model for BoundArguments<'t, 'g> {
    ghost use Rattle.std.specs.Prelude.{List};
    ghost use Rattle.star_tree.specs.declared.tree.Name.{Name as AnyName};
    ghost use Rattle.star_meaning.specs.Binding.{BoundArgument as AnyBoundArgument};
    ghost use Rattle.star_call.specs.BoundArguments.{all_named, all_shown};

    ghost Value = { List (AnyName × AnyBoundArgument) };

    ghost view = { λ s. all_shown (all_named s.left.items) s.shares.items };
}

impl<'t, 'g> BoundArguments<'t, 'g> {
    /// These arguments, if `left` are the keyword arguments that name no parameter.
    pub(crate) fn new(
        shares: Vec<(&'t Name, BoundArgument<'g>)>,
        left: Vec<&'g KeywordArgument>,
    ) -> BoundArguments<'t, 'g>
        ensures { result ≡ all_shown (all_named left.entry.items) shares.entry.items }
    {
        BoundArguments { shares, left }
    }
}

/// The entries of `**name`: first the strings of the names, in order. No key is checked.
fn keys_and_values(
    machine: &mut Machine,
    line: usize,
    named: &[&KeywordArgument],
) -> Result<Entries, EvalError>
    ensures { Refines (each (spec.key_and_value line) (all_named named.now) machine.old) result machine.new }
{
    let mut entries = Entries::with_capacity(machine.alloc(), named.len())?;
    for value in named {
        let key = machine.key_for(line, *value)?;
        entries.push(key, value.value)?;
    }
    Ok(entries)
}

/// The value of a bound argument: `*name` is a new tuple, `**name` a new dictionary of the keyword arguments that are
/// left.
pub fn build_argument(
    machine: &mut Machine,
    line: usize,
    share: BoundArgument<'_>,
    left: &[&KeywordArgument],
) -> Result<Value, EvalError>
    ensures { Refines (spec.build_argument line (argument_of (all_named left.now) share.entry) machine.old)
        result machine.new }
{
    match share {
        BoundArgument::One(value) => Ok(value),
        BoundArgument::Rest(items) => {
            let items = Vec::from_slice(machine.alloc(), items)?;
            machine.new_tuple(line, Values::new(items))
        }
        BoundArgument::Names => {
            let entries = keys_and_values(machine, line, left)?;
            machine.new_dict(line, entries)
        }
    }
}

/// Each of these shares as a value, in order.
#[tactic(auto, unfolding(star_meaning::specs::Binding::build_arguments))]
fn build_each<'t>(
    machine: &mut Machine,
    line: usize,
    shares: &[(&'t Name, BoundArgument<'_>)],
    left: &[&KeywordArgument],
) -> Result<Vec<(&'t Name, Value)>, EvalError>
    ensures { RefinesBy (λ v. map bound_value v.items)
        (spec.build_arguments line (all_shown (all_named left.now) shares.now) machine.old) result machine.new }
{
    let mut values = Vec::new(machine.alloc());
    for (name, share) in shares {
        let value = build_argument(machine, line, *share, left)?;
        values.push((*name, value))?;
    }
    Ok(values)
}

/// Each share as a value, in order: `*name` is a new tuple, `**name` a new dictionary, whose keys are made first, in
/// order.
pub fn build_arguments<'t>(
    machine: &mut Machine,
    line: usize,
    shares: &BoundArguments<'t, '_>,
) -> Result<Vec<(&'t Name, Value)>, EvalError>
    ensures { RefinesBy (λ v. map bound_value v.items) (spec.build_arguments line shares.now machine.old)
        result machine.new }
{
    build_each(machine, line, &shares.shares, &shares.left)
}
