//! Tests of loaders that work at the same time.

use crate::meeting::{Counting, Meeting};
use crate::runs::{began, files_of, run_all, sums, three};
use star_checks::holds;
use std::test::Fail;

/// How often a body looks for others that come at the same time: for some seconds.
const LOOKS: u32 = 10_000_000;

#[test]
fn two_bodies_are_in_flight_at_once(rt: HostRuntime) -> Result<(), Fail> {
    let alloc = rt.alloc();
    let files = files_of(alloc, &[("//:a.star", "x = 1"), ("//:b.star", "x = 2")])?;
    let gate = Meeting::new([0b11, 0b11, 0, 0], LOOKS);
    let run = run_all(&rt, alloc, &files, 2, &gate)?;
    gate.has_held(&rt, 2, 0);
    began(&rt, &run, 2, &[1, 1]);
    Ok(())
}

#[test]
fn four_bodies_are_in_flight_at_once(rt: HostRuntime) -> Result<(), Fail> {
    let alloc = rt.alloc();
    let bundle = [
        ("//:a.star", "x = 1"),
        ("//:b.star", "x = 2"),
        ("//:c.star", "x = 3"),
        ("//:d.star", "x = 4"),
    ];
    let files = files_of(alloc, &bundle)?;
    let gate = Meeting::new([0b1111, 0b1111, 0b1111, 0b1111], LOOKS);
    let run = run_all(&rt, alloc, &files, 4, &gate)?;
    gate.has_held(&rt, 4, 0);
    began(&rt, &run, 4, &[1, 1, 1, 1]);
    Ok(())
}

// The body of a waits for the body of d. Before that the other loader reads the modules of b and c. That loader begins
// with c, whose body waits for the body of a.
#[test]
fn modules_are_read_while_a_body_is_held(rt: HostRuntime) -> Result<(), Fail> {
    let alloc = rt.alloc();
    let bundle = [
        ("//:a.star", "x = 1"),
        ("//:b.star", "load(\":c.star\", \"k\")\ny = [k]"),
        ("//:c.star", "k = (3,)"),
        (
            "//:d.star",
            "load(\":b.star\", \"y\")\nload(\":c.star\", \"k\")\nz = (y, k)",
        ),
    ];
    let files = files_of(alloc, &bundle)?;
    let gate = Meeting::new([0b1000, 0, 0b0001, 0], LOOKS);
    let run = run_all(&rt, alloc, &files, 2, &gate)?;
    let counts = run.per_loader();
    gate.has_held(&rt, 4, 0);
    holds!(&rt; (counts[0].min(counts[1]), counts[0].max(counts[1])) == (1, 3));
    Ok(())
}

// One loader never has two bodies in flight, so here the first body gives up.
#[test]
fn one_loader_runs_one_body_at_a_time(rt: HostRuntime) -> Result<(), Fail> {
    let alloc = rt.alloc();
    let files = files_of(alloc, &[("//:a.star", "x = 1"), ("//:b.star", "x = 2")])?;
    let gate = Meeting::new([0b11, 0b11, 0, 0], 1_000);
    let run = run_all(&rt, alloc, &files, 1, &gate)?;
    gate.has_held(&rt, 2, 1);
    began(&rt, &run, 2, &[2]);
    Ok(())
}

#[test]
fn each_body_runs_once(rt: HostRuntime) -> Result<(), Fail> {
    let alloc = rt.alloc();
    let files = sums(alloc, 30)?;
    for loaders in [1, 2, 3, 4, 64] {
        let gate = Meeting::new([0, 0, 0, 0], LOOKS);
        let run = run_all(&rt, alloc, &files, loaders, &gate)?;
        gate.has_held(&rt, 30, 0);
        began(&rt, &run, 30, &[]);
    }
    Ok(())
}

// Two files load a third, and one of them the other.
#[test]
fn each_of_three_bodies_runs_once(rt: HostRuntime) -> Result<(), Fail> {
    let alloc = rt.alloc();
    let files = files_of(alloc, &three())?;
    for _ in 0..20u32 {
        let gate = Counting::new();
        let run = run_all(&rt, alloc, &files, 4, &gate)?;
        holds!(&rt; gate.counts() == [1, 1, 1, 0]);
        began(&rt, &run, 3, &[]);
    }
    Ok(())
}
