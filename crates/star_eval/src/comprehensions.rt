//! Comprehensions: their clauses run in two loops, without recursion, since a text can nest thousands of them.
//!
//! Each turn lowers twice the steps plus the open `for` clauses, which are a row on the heap, so the loop ends without
//! a bound that could be met.

ghost use Rattle.std.specs.Prelude.{◌+◌, ◌<◌, ◌≤◌, OnOk};
ghost use Rattle.star_machine.specs.Refines.{Refines};
ghost use Rattle.star_eval.specs.Steps.{Opens, after, filled, last, making_dict, making_list, next_turn, remaining_turns};

use crate::evaluate::{evaluate, evaluate_entry};
use crate::execute::assign_to;
use crate::open_clause::OpenClause;
use crate::output::Output;
use star_machine::fault::EvalError;
use star_machine::machine::Machine;
use star_machine::subscript::put_entry;
use star_meaning::site::Site;
use star_store::arena::write::Change;
use star_store::values::Value;
use star_tree::tree::{Clause, Clauses, Entry, Expression};
use star_world::construct::{enter, new_empty_dict, new_empty_list};
use star_world::world::World;

/// A list comprehension: the first iterable, its frame, the list, the clauses.
#[cycle(run)]
pub(crate) fn make_list(
    machine: &mut Machine,
    world: &World,
    levels: u32,
    site: &Site,
    token: usize,
    element: &Expression,
    clauses: &Clauses,
) -> Result<Value, EvalError>
    ensures { Refines (making_list world.now levels site.now token element.now clauses.now machine.old)
        result machine.new }
{
    let value = evaluate(machine, world, levels, site, clauses.iterable.get())?;
    let inside = enter(machine, world, site, token)?;
    let list = new_empty_list(machine, site.line)?;
    let output = Output::Element { element, list };
    fill(machine, world, levels, &inside, clauses, value, output)
}

/// A dictionary comprehension: the first iterable, its frame, the dictionary, the clauses.
#[cycle(run)]
pub(crate) fn make_dict(
    machine: &mut Machine,
    world: &World,
    levels: u32,
    site: &Site,
    token: usize,
    entry: &Entry,
    clauses: &Clauses,
) -> Result<Value, EvalError>
    ensures { Refines (making_dict world.now levels site.now token entry.now clauses.now machine.old)
        result machine.new }
{
    let value = evaluate(machine, world, levels, site, clauses.iterable.get())?;
    let inside = enter(machine, world, site, token)?;
    let dict = new_empty_dict(machine, site.line)?;
    let output = Output::Entry { entry, dict };
    fill(machine, world, levels, &inside, clauses, value, output)
}

/// All clauses over the first iterable; then the list or dictionary that they fill.
#[cycle(run)]
#[tactic(auto, using(crate::proofs::Clauses::just_opened))]
fn fill(
    machine: &mut Machine,
    world: &World,
    levels: u32,
    site: &Site,
    clauses: &Clauses,
    value: Value,
    output: Output<'_>,
) -> Result<Value, EvalError>
    ensures { Refines (filled world.now levels site.now clauses.now value output.entry machine.old) result machine.new }
{
    let count = machine.iterate(world.setting(), site.line, value)?;
    let first = OpenClause {
        target: &clauses.target,
        value,
        count,
        next: 0,
        more: clauses.more.as_slice(),
    };
    run_turns(machine, world, levels, site, first, output)?;
    Ok(output.container())
}

/// The turns of an open clause, with the turns of all clauses that are opened in them. Then the clause is left.
#[cycle(run)]
#[tactic(auto, using(crate::proofs::Clauses::none_around, crate::proofs::Spends::leave_spends))]
fn run_turns<'t>(
    machine: &mut Machine,
    world: &World,
    levels: u32,
    site: &Site,
    first: OpenClause<'t>,
    output: Output<'_>,
) -> Result<(), EvalError>
    ensures { Refines (remaining_turns world.now levels site.now output.entry first.entry machine.old) result machine.new }
{
    let mut outer = Vec::new(machine.alloc());
    let mut clause = first;
    'turns: loop {
        if clause.next >= clause.count {
            machine.leave(clause.value);
            let Some(around) = outer.pop() else {
                return Ok(());
            };
            clause = around;
            continue;
        }
        let opened = run_turn(machine, world, levels, site, clause, output)?;
        clause = clause.past_item();
        if let Some(inner) = opened {
            outer.push(clause)?;
            clause = inner;
        }
    }
}

/// The next turn of an open clause: the next item is taken and assigned, and the clauses after it run up to the next
/// `for`, which is opened.
#[cycle(run)]
#[tactic(auto, using(crate::proofs::Spends::item_pays, crate::proofs::Spends::target_spends))]
fn run_turn<'t>(
    machine: &mut Machine,
    world: &World,
    levels: u32,
    site: &Site,
    clause: OpenClause<'t>,
    output: Output<'_>,
) -> Result<Option<OpenClause<'t>>, EvalError>
    ensures turn { Opens world.now levels site.now output.entry
        (next_turn world.now levels site.now output.entry clause.entry machine.old) result machine.new }
    ensures paid { OnOk result (machine.new.steps < machine.old.steps) }
{
    let line = site.line;
    let item = machine.take_item(world.setting(), line, clause.value, clause.next)?;
    assign_to(machine, world, levels, site, clause.target, item)?;
    let opened = run_clauses(machine, world, levels, site, clause.more, output)?;
    Ok(opened)
}

/// The clauses in order up to the next `for`, which is opened, or up to the last, with the addition after it. Nothing
/// is opened after the last, nor if a condition is false.
#[cycle(run)]
#[tactic(auto, using(crate::proofs::Clauses::just_opened, crate::proofs::Spends::expression_spends, crate::proofs::Spends::iterate_spends, crate::proofs::Spends::last_spends))]
fn run_clauses<'t>(
    machine: &mut Machine,
    world: &World,
    levels: u32,
    site: &Site,
    clauses: &'t [Clause],
    output: Output<'_>,
) -> Result<Option<OpenClause<'t>>, EvalError>
    ensures run { Opens world.now levels site.now output.entry
        (after world.now levels site.now clauses.now output.entry machine.old) result machine.new }
    ensures spent { OnOk result (machine.new.steps ≤ machine.old.steps) }
{
    let mut rest = clauses;
    while let [clause, others @ ..] = rest {
        match clause {
            Clause::For { target, iterable } => {
                let value = evaluate(machine, world, levels, site, iterable)?;
                let count = machine.iterate(world.setting(), site.line, value)?;
                return Ok(Some(OpenClause {
                    target,
                    value,
                    count,
                    next: 0,
                    more: others,
                }));
            }
            Clause::If(condition) => {
                let value = evaluate(machine, world, levels, site, condition)?;
                if !machine.is_true(world.setting(), value) {
                    return Ok(None);
                }
            }
        }
        rest = others;
    }
    add(machine, world, levels, site, output)?;
    Ok(None)
}

/// Adds after the clauses: an element, then pays 1; or an entry, whose key is checked, then pays 1 if the key is new.
#[cycle(run)]
fn add(
    machine: &mut Machine,
    world: &World,
    levels: u32,
    site: &Site,
    output: Output<'_>,
) -> Result<(), EvalError>
    ensures { Refines (last world.now levels site.now output.entry machine.old) result machine.new }
{
    let line = site.line;
    match output {
        Output::Element { element, list } => {
            let value = evaluate(machine, world, levels, site, element)?;
            machine.pay(line, 1)?;
            let _old = machine.change(world.setting(), line, list, Change::Append(value))?;
            Ok(())
        }
        Output::Entry { entry, dict } => {
            let (key, value) = evaluate_entry(machine, world, levels, site, entry)?;
            machine.check_key(world.setting(), levels, line, key)?;
            put_entry(machine, world.setting(), line, dict, key, value)
        }
    }
}
