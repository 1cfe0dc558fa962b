//! Definitions whose parameters are the first slots of their frames, in order: a call of them is bound by layout.

ghost use Rattle.std.specs.Prelude.{◌≡◌, ◌↔◌, ◌+◌, IfOk, IfSome, IsTrue, Some, slice_get};
ghost use Rattle.std.specs.BTreeMap.{btree_map_len, get};
ghost use Rattle.std.specs.Option.{option_copied};
ghost use Rattle.std.specs.Ordering.{nat_cmp};
ghost use Rattle.star_outline.specs.Outlines.{names_in};
ghost use Rattle.star_scope.specs.Spots.{spot_at};
ghost use Rattle.star_outline.specs.Syntax as form;
ghost use Rattle.star_world.specs.Orders.{AreLaidOut, HasLayout, HaveLayouts, InOrder, IsSlot, MayEnd, MayStand, PlacesAreOver, PlacesEnd, StandsAt, takes_keyword, start};

use crate::layouts::{Cursor, Layout, Stage, is_at};
use crate::variables::own_spot;
use star_outline::blocks::BlockNames;
use star_scope::program::Program;
use star_tree::tree::{Name, Parameter};
use std::alloc::{AllocError, Global};
use std::collections::BTreeMap;

/// A definition with at most this many parameters gets its arguments one by one, without a layout.
const LAYOUT_ABOVE: usize = 16;

/// The layout of a definition's parameters, and the names of the slots.
#[derive(Clone, Copy)]
pub struct Order<'a, 't> {
    pub layout: &'a Layout,
    pub names: &'a BlockNames<'t>,
}

/// Whether a name has this slot of its frame.
fn is_slot(program: &Program<'_>, names: &BlockNames<'_>, slot: usize, name: &Name) -> bool
    ensures { IsTrue result → IsSlot (spot_at program.now.spots) names.now slot name.now }
{
    own_spot(program.spot(name.position.token)) == Some(slot)
        && names.slot(name.text.as_str()) == Some(slot)
}

/// Whether a parameter that gets one value may come at a cursor.
fn may_stand(layout: &Layout, cursor: Cursor) -> bool
    ensures { IsTrue result → MayStand layout.now cursor.stage cursor.slot }
{
    match cursor.stage {
        Stage::Positional => cursor.slot < layout.positional(),
        Stage::ByName => layout.positional() <= cursor.slot,
        Stage::Ended => false,
    }
}

/// Whether the positional parameters end at a cursor, and the positional arguments that are left go to this slot.
fn places_end(layout: &Layout, cursor: Cursor, rest: Option<usize>) -> bool
    ensures { IsTrue result → PlacesEnd layout.now cursor.stage cursor.slot rest }
{
    match cursor.stage {
        Stage::Positional => cursor.slot == layout.positional() && layout.rest() == rest,
        _ => false,
    }
}

/// Whether they end there, or ended before.
fn places_are_over(layout: &Layout, cursor: Cursor) -> bool
    ensures { IsTrue result → PlacesAreOver layout.now cursor.stage cursor.slot }
{
    match cursor.stage {
        Stage::Positional => cursor.slot == layout.positional() && layout.rest() == None,
        Stage::ByName => true,
        Stage::Ended => false,
    }
}

/// Whether no parameter is missing after the last.
fn may_end(layout: &Layout, cursor: Cursor) -> bool
    ensures { IsTrue result → MayEnd layout.now cursor.stage cursor.slot }
{
    match cursor.stage {
        Stage::Positional => {
            cursor.slot == layout.positional() && layout.rest() == None && layout.names() == None
        }
        Stage::ByName => layout.names() == None,
        Stage::Ended => true,
    }
}

/// Whether a name has the slot at a cursor, which gets one value.
fn has_own_slot(program: &Program<'_>, order: Order<'_, '_>, cursor: Cursor, name: &Name) -> bool
    ensures may_stand { IsTrue result → MayStand order.entry.layout.now cursor.stage cursor.slot }
    ensures slot { IsTrue result → IsSlot (spot_at program.now.spots) order.entry.names.now cursor.slot name.now }
    ensures own { IsTrue result → IsTrue (takes_keyword order.entry.layout.now cursor.slot) }
{
    may_stand(order.layout, cursor)
        && is_slot(program, order.names, cursor.slot, name)
        && order.layout.takes_keyword(cursor.slot)
}

/// Whether the slot at a cursor is the next that needs a value.
fn is_needed(layout: &Layout, cursor: Cursor) -> bool
    ensures { IsTrue result → slice_get layout.now.needed cursor.needed ≡ Some cursor.slot }
{
    layout.needed().get(cursor.needed).copied() == Some(cursor.slot)
}

/// Whether a parameter has the slot at a cursor.
fn stands_at(
    program: &Program<'_>,
    order: Order<'_, '_>,
    cursor: Cursor,
    parameter: &Parameter,
) -> bool
    ensures { IsTrue result → StandsAt (spot_at program.now.spots) order.entry.names.now order.entry.layout.now cursor
        (form.parameter parameter.now) }
{
    let Order { layout, names } = order;
    let slot = cursor.slot;
    match parameter {
        Parameter::Plain(name) => {
            has_own_slot(program, order, cursor, name)
                && layout.rank(slot) == Some(None)
                && is_needed(layout, cursor)
        }
        Parameter::Default { name, .. } => {
            has_own_slot(program, order, cursor, name)
                && layout.rank(slot) == Some(Some(cursor.rank))
                && cursor.rank < layout.defaults()
        }
        Parameter::Star(name) => {
            places_end(layout, cursor, Some(slot)) && is_slot(program, names, slot, name)
        }
        Parameter::BareStar => places_end(layout, cursor, None),
        Parameter::StarStar(name) => {
            places_are_over(layout, cursor)
                && is_slot(program, names, slot, name)
                && !is_at(layout.rest(), slot)
                && layout.names() == Some(slot)
        }
    }
}

/// Whether all parameters are in order.
#[tactic(auto, using(crate::proofs::InOrder::in_order_next, crate::proofs::InOrder::in_order_end))]
fn are_in_order(
    program: &Program<'_>,
    names: &BlockNames<'_>,
    layout: &Layout,
    parameters: &[Parameter],
) -> bool
    ensures { IsTrue result → InOrder (spot_at program.now.spots) names.now layout.now start parameters.now }
{
    let order = Order { layout, names };
    let mut cursor = Cursor::start();
    for parameter in parameters {
        if !stands_at(program, order, cursor, parameter) {
            return false;
        }
        let Some(next) = cursor.after(parameter) else {
            return false;
        };
        cursor = next;
    }
    cursor.slot == layout.count() && may_end(layout, cursor)
}

/// The names of the slots of the definition with a number.
pub(crate) fn slot_names<'a, 't>(
    program: &'a Program<'t>,
    number: usize,
) -> Option<&'a BlockNames<'t>>
    ensures { IfSome result (λ names. names.now ≡ names_in program.now.blocks (1 + number)) }
{
    program.blocks().names(number.checked_add(1)?)
}

/// The layout of the definition with a number, if its parameters are in order.
fn layout_of(
    alloc: Global,
    program: &Program<'_>,
    number: usize,
    parameters: &[Parameter],
) -> Result<Option<Layout>, AllocError>
    ensures { IfOk result (λ o. IfSome
        o (λ layout. AreLaidOut (spot_at program.now.spots) (names_in program.now.blocks (1 + number))
        layout parameters.now)) }
{
    let Some(names) = slot_names(program, number) else {
        return Ok(None);
    };
    let layout = Layout::of(alloc, parameters)?;
    if are_in_order(program, names, &layout, parameters) && layout.is_bounded() {
        Ok(Some(layout))
    } else {
        Ok(None)
    }
}

/// The layout of the definition of a program with a number, if it has many parameters that are in order.
#[tactic(auto, using(crate::proofs::InOrder::layout_there))]
fn layout_at(
    alloc: Global,
    program: &Program<'_>,
    number: usize,
) -> Result<Option<Layout>, AllocError>
    ensures { IfOk result (λ o. IfSome o (HasLayout program.now number)) }
{
    match program.definition(number) {
        Some(definition) if definition.parameters.len() > LAYOUT_ABOVE => layout_of(
            alloc,
            program,
            number,
            definition.parameters,
        ),
        _ => Ok(None),
    }
}

/// The layouts of a program's definitions with many parameters that are in order, by their numbers.
#[derive(Drop)]
pub struct Orders {
    layouts: BTreeMap<usize, Layout>,
}

impl Orders {
    /// The layouts of a program.
    pub(crate) fn of(alloc: Global, program: &Program<'_>) -> Result<Orders, AllocError>
        ensures { IfOk result (λ orders. HaveLayouts program.now orders.layouts) }
    {
        let mut layouts = BTreeMap::new(alloc);
        for definition in program.definitions() {
            let number = definition.number;
            if let Some(layout) = layout_at(alloc, program, number)? {
                layouts.insert(number, layout)?;
            }
        }
        Ok(Orders { layouts })
    }

    /// The layout of the definition with a number, if its parameters are in order.
    pub(crate) fn layout(&self, number: usize) -> Option<&Layout>
        ensures { option_copied result ≡ get nat_cmp self.now.layouts number }
    {
        self.layouts.get(&number)
    }

    /// Whether there are no such definitions.
    pub(crate) fn is_empty(&self) -> bool
        ensures { IsTrue result ↔ (btree_map_len self.now.layouts ≡ 0) }
    {
        self.layouts.is_empty()
    }
}
