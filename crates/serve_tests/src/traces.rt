//! A trace of refused loads, by its tokens and in order.

ghost use Rattle.star_outcome.specs.Refusals.{IsRefusal};

use star_checks::holds;
use star_host::{CyclicLoad, RunId, Trace};
use std::alloc::{AllocError, Global};
use std::marker::Brand;
use std::sync::Wait;
use std::test::Fail;

/// Two loads of a file that loads itself are pushed, and read back.
fn two_are_read<J: RunId, R: Wait>(rt: &R, alloc: Global) -> Result<bool, AllocError>
    requires first { IsRefusal J.plan (record { file = 0; index = 0; loaded = 0 }) }
    requires second { IsRefusal J.plan (record { file = 0; index = 1; loaded = 0 }) }
{
    let a = CyclicLoad {
        file: 0,
        index: 0,
        loaded: 0,
    };
    let b = CyclicLoad {
        file: 0,
        index: 1,
        loaded: 0,
    };
    let trace = Trace::<J>::new(alloc)?;
    let one = trace.push(rt, a)?;
    let other = trace.push(rt, b)?;
    let read = trace.read(&one) == a && trace.read(&other) == b;
    let in_order = trace.nth(0) == Some(a) && trace.nth(1) == Some(b);
    Ok(read && in_order && trace.nth(2).is_none())
}

/// The same, in the plan of one file that loads itself twice.
fn two_of_a_ring<R: Wait>(rt: &R, alloc: Global) -> Result<bool, AllocError> {
    two_are_read::<Brand, R>(rt, alloc)
}

#[test]
fn two_items_are_read_by_token_and_in_order(rt: HostRuntime) -> Result<(), Fail> {
    let in_order = two_of_a_ring(&rt, rt.alloc())?;
    holds!(&rt; in_order);
    Ok(())
}
