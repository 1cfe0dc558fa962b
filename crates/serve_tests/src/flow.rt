//! Tests of the schedule: the file that a loader runs next.

use star_checks::holds;
use star_flow::{Flow, Graph, Importers, Schedule};
use std::alloc::Global;
use std::test::Fail;

/// Four files: the first loads the next two, which load the last.
fn diamond(alloc: Global) -> Result<Flow, Fail> {
    let mut graph = Graph::new(alloc, 5)?;
    for n in 0..4 {
        graph.add_file(n)?;
    }
    graph.add_load(0, 1)?;
    graph.add_load(0, 2)?;
    graph.add_load(1, 3)?;
    graph.add_load(2, 3)?;
    Ok(graph.into_flow(alloc)?)
}

#[test]
fn a_file_is_handed_out_when_its_loads_have_ended(rt: HostRuntime) -> Result<(), Fail> {
    let flow = diamond(rt.alloc())?;
    holds!(&rt; flow.take(&rt, None) == Some(3));
    holds!(&rt; flow.take(&rt, Some(3)) == Some(2));
    holds!(&rt; flow.take(&rt, Some(2)) == Some(1));
    holds!(&rt; flow.take(&rt, Some(1)) == Some(0));
    holds!(&rt; flow.take(&rt, Some(0)) == None);
    Ok(())
}

#[test]
fn files_on_a_cycle_are_left(rt: HostRuntime) -> Result<(), Fail> {
    let mut graph = Graph::new(rt.alloc(), 3)?;
    for n in 0..3 {
        graph.add_file(n)?;
    }
    graph.add_load(0, 1)?;
    graph.add_load(1, 0)?;
    let flow = graph.into_flow(rt.alloc())?;
    holds!(&rt; flow.take(&rt, None) == Some(2));
    holds!(&rt; flow.take(&rt, Some(2)) == None);
    Ok(())
}

#[test]
fn a_file_is_handed_out_once_it_is_found(rt: HostRuntime) -> Result<(), Fail> {
    let alloc = rt.alloc();
    let mut schedule = Schedule::new(vec![in alloc; 1; 3]?, Vec::new(alloc));
    schedule.ended(&[0]);
    let flow = Flow::new(Importers::new(alloc), schedule);
    holds!(&rt; flow.take_after(&rt, None) == Some(0));
    holds!(&rt; flow.take_after(&rt, Some(&[1, 2, 1])) == Some(2));
    holds!(&rt; flow.take_after(&rt, None) == Some(1));
    flow.leave(&rt);
    holds!(&rt; flow.take_after(&rt, Some(&[0])) == None);
    Ok(())
}
