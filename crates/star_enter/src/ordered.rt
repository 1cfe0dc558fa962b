//! Calls of functions whose parameters have a layout. Their frames begin as the row of the defaults, and the time of a
//! call is in proportion to its arguments, however many parameters there are. Arguments that do not fit go through
//! `bound_to`, which says what is wrong with them.

ghost use Rattle.std.specs.Prelude.{◌≡◌, ℕ, [], drop, take, true, IfOk, IfSome, None, OnOk};
ghost use Rattle.std.specs.List.{list_all};
ghost use Rattle.star_machine.specs.Refines.{Refines};
ghost use Rattle.star_meaning.specs.Run.{give};
ghost use Rattle.star_call.specs.Callees.{IsDefined};
ghost use Rattle.star_call.specs.BoundArguments.{all_named, argument_of};
ghost use Rattle.star_enter.specs.Ordered.{AreBoundFor, AreTaken, AreExtraInOrder, IsBoundBy, entering_bound, is_set, keyword_slot, with_named, with_plain, with_share};

use star_call::callee::Called;
use star_call::shares::{BoundArgument, build_argument};
use star_machine::content::Content;
use star_machine::fault::EvalError;
use star_machine::machine::Machine;
use star_meaning::given::{Arguments, KeywordArgument};
use star_meaning::site::Site;
use star_store::defaults::Defaults;
use star_store::slots::Slots;
use star_store::values::{Cell, Value};
use star_world::layouts::Layout;
use star_world::orders::Order;
use star_world::variables::frame_with;
use star_world::world::World;
use std::alloc::{AllocError, Global};

/// The arguments of a call, bound to parameters that have a layout: the slots of the frame, except for the slots of
/// `*name` and `**name`. Also the arguments that are left for these two, if there are such parameters.
#[derive(Drop)]
pub struct Bound<'g> {
    slots: Slots,
    rest: Option<usize>,
    more: &'g [Value],
    names: Option<usize>,
    left: Vec<&'g KeywordArgument>,
}

/// The slot of a keyword argument; `None` if no parameter can be given under that keyword.
fn keyword_slot(order: &Order<'_, '_>, value: &KeywordArgument) -> Option<usize>
    ensures { result ≡ keyword_slot order.now.layout.now order.now.names.now value.now }
{
    match order.names.slot(value.name.as_str()) {
        Some(slot) if order.layout.takes_keyword(slot) => Some(slot),
        _ => None,
    }
}

/// Puts keyword arguments into their slots: of two with one name the first is taken. Returns whether each can be taken:
/// by its parameter, which has the slot `from` or a later one, or by `**name`.
#[tactic(auto, using(crate::proofs::OrderedRows::named_end, crate::proofs::OrderedRows::unnamed_end, crate::proofs::OrderedRows::taken_end, crate::proofs::OrderedRows::untaken_end))]
fn set_named(
    slots: &mut Slots,
    order: &Order<'_, '_>,
    named: &[KeywordArgument],
    from: usize,
) -> Result<bool, AllocError>
    ensures taken { IfOk result (λ all. all ≡ true → AreTaken order.now.layout.now order.now.names.now from named.now) }
    ensures set { IfOk result (λ all. all ≡ true → slots.new
        ≡ with_named order.now.layout.now order.now.names.now named.now slots.old) }
{
    let mut rest = named;
    while let Some((last, before)) = rest.split_last() {
        match keyword_slot(order, last) {
            Some(slot) => {
                if slot < from {
                    return Ok(false);
                }
                slots.set(slot, last.value)?;
            }
            None => {
                if order.layout.names().is_none() {
                    return Ok(false);
                }
            }
        }
        rest = before;
    }
    Ok(true)
}

/// Gives the first slots values, in order.
fn set_plain(slots: &mut Slots, values: &[Value]) -> Result<(), AllocError>
    ensures { OnOk result (slots.new ≡ with_plain 0 values.now slots.old) }
{
    for i in 0..values.len() {
        slots.set(i, values[i])?;
    }
    Ok(())
}

/// Whether a slot is bound.
fn is_set(slots: &Slots, slot: usize) -> bool
    ensures { result ≡ is_set slots.now slot }
{
    match slots.get(slot) {
        Some(Some(_)) => true,
        _ => false,
    }
}

/// Whether each of these slots is bound.
fn are_set(slots: &Slots, needed: &[usize]) -> bool
    ensures { result ≡ list_all (is_set slots.now) needed.now }
{
    for slot in needed {
        if !is_set(slots, *slot) {
            return false;
        }
    }
    true
}

/// The positional arguments that parameters get, each its own; and those that are left.
#[tactic(auto, using(crate::proofs::OrderedRows::all_placed))]
fn split_plain(values: &[Value], positional: usize) -> (&[Value], &[Value])
    ensures placed { result.0.now ≡ take positional values.now }
    ensures left { result.1.now ≡ drop positional values.now }
{
    match values.split_at_checked(positional) {
        Some(parts) => parts,
        None => (values, &[]),
    }
}

/// Whether no positional argument is left over.
fn are_all_placed(layout: &Layout, more: &[Value]) -> bool
    ensures { result ≡ true → layout.now.rest ≡ None → more.now ≡ [] }
{
    layout.rest().is_some() || more.is_empty()
}

/// The keyword arguments that name no parameter, in order.
fn all_extra_in_order<'g>(
    alloc: Global,
    order: &Order<'_, '_>,
    named: &'g [KeywordArgument],
) -> Result<Vec<&'g KeywordArgument>, AllocError>
    ensures { IfOk result (λ v. AreExtraInOrder order.now named.now v.items) }
{
    let mut left = Vec::new(alloc);
    for value in named {
        if keyword_slot(order, value).is_none() {
            left.push(value)?;
        }
    }
    Ok(left)
}

/// The keyword arguments that name no parameter, if each keyword argument can be taken. Without a `**name` there are
/// none.
#[tactic(auto, using(crate::proofs::OrderedShares::all_own))]
fn left_of<'g>(
    alloc: Global,
    order: &Order<'_, '_>,
    named: &'g [KeywordArgument],
) -> Result<Vec<&'g KeywordArgument>, AllocError>
    ensures { (from : ℕ) → AreTaken order.now.layout.now order.now.names.now from named.now
        → IfOk result (λ v. AreExtraInOrder order.now named.now v.items) }
{
    match order.layout.names() {
        Some(_) => all_extra_in_order(alloc, order, named),
        None => Ok(Vec::new(alloc)),
    }
}

/// The arguments of a call, bound to parameters with this layout. `None` if they do not fit.
#[tactic(auto, using(crate::proofs::OrderedRows::bound_slots, crate::proofs::OrderedRows::fits))]
fn bind_in_order<'g>(
    alloc: Global,
    order: &Order<'_, '_>,
    defaults: &Defaults,
    given: &'g Arguments,
) -> Result<Option<Bound<'g>>, AllocError>
    ensures { IfOk result (λ o. IfSome o (IsBoundBy order.now.layout.now order.now.names.now defaults.now given.now)) }
{
    let layout = order.layout;
    let (positional, more) = split_plain(given.positional.as_slice(), layout.positional());
    if !are_all_placed(layout, more) {
        return Ok(None);
    }
    if defaults.len() < layout.defaults() {
        return Ok(None);
    }
    let named = given.named.as_slice();
    let mut slots = Slots::over(alloc, order.names.len(), layout.ranks()?, defaults.share()?)?;
    if !set_named(&mut slots, order, named, positional.len())? {
        return Ok(None);
    }
    set_plain(&mut slots, positional)?;
    if !are_set(&slots, layout.needed()) {
        return Ok(None);
    }
    Ok(Some(Bound {
        slots,
        rest: layout.rest(),
        more,
        names: layout.names(),
        left: left_of(alloc, order, named)?,
    }))
}

/// The arguments of a call, bound to the function's parameters, if these have a layout and the arguments fit it; else
/// `None`.
pub fn bound_of<'g>(
    machine: &Machine,
    world: &World,
    called: &Called<'_>,
    given: &'g Arguments,
) -> Result<Option<Bound<'g>>, AllocError>
    requires { IsDefined world.now.setting called.now }
    ensures { IfOk result (λ o. IfSome o (AreBoundFor world.now machine.now called.now given.now)) }
{
    let Some(order) = world.order(called.file, called.number) else {
        return Ok(None);
    };
    match machine.content(world.setting(), called.value) {
        Content::Held(Cell::Func(function)) => bind_in_order(
            machine.alloc(),
            &order,
            &function.get().defaults,
            given,
        ),
        _ => Ok(None),
    }
}

/// Sets a slot to a bound argument, if there is such a slot: the argument's value is made first.
fn with_share(
    machine: &mut Machine,
    line: usize,
    slot: Option<usize>,
    share: BoundArgument<'_>,
    left: &[&KeywordArgument],
    slots: Slots,
) -> Result<Slots, EvalError>
    ensures { Refines (with_share line slot (argument_of (all_named left.now) share.entry) slots machine.old)
        result machine.new }
{
    let Some(slot) = slot else {
        return Ok(slots);
    };
    let value = build_argument(machine, line, share, left)?;
    let mut slots = slots;
    slots.set(slot, value)?;
    Ok(slots)
}

/// Enters a call whose arguments are bound: makes the tuple of `*name`, then the dictionary of `**name`, then the
/// frame, which pays 1; then the definition is active. Returns the place of the body.
#[tactic(auto, unfolding(crate::specs::Entering::begin))]
pub fn enter_bound(
    machine: &mut Machine,
    line: usize,
    called: Called<'_>,
    bound: Bound<'_>,
) -> Result<Site, EvalError>
    ensures { Refines (entering_bound line called.entry.file called.entry.number called.entry.frame bound.entry give
        machine.old) result machine.new }
{
    let Bound {
        slots,
        rest,
        more,
        names,
        left,
    } = bound;
    let slots = with_share(machine, line, rest, BoundArgument::Rest(more), &left, slots)?;
    let slots = with_share(machine, line, names, BoundArgument::Names, &left, slots)?;
    let block = 1 + called.number as usize;
    let frame = frame_with(machine, line, called.file, block, Some(called.frame), slots)?;
    machine.activate(called.file, called.number)?;
    Ok(Site {
        file: called.file,
        frame,
        line,
    })
}
