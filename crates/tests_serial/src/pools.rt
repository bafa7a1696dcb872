//! Whole runs of the small graph on several lanes.

ghost use Rattle.std.specs.Prelude.{◌≡◌, ◌<◌, ◌^◌, IfOk, vec_len};
ghost use Rattle.std.specs.List.{All};
ghost use Rattle.nf_lane.specs.TableLane.{runs_of};

use crate::rules::{Small, small_tells_apart};
use crate::runs::small_graph;
use nf_flow::Flow;
use nf_keeper::MemKeeper;
use nf_lane::{Lane, Table, TableLane};
use nf_pool::{PoolEnd, run};
use nf_value::Mem;
use std::alloc::Global;
use std::sync::Wait;
use std::test::Fail;
use std::thread::Threads;

const LANES: usize = 4;

/// New lanes, each of whose jobs ends with status 127.
fn new_lanes(alloc: Global) -> Result<Vec<TableLane>, Mem>
    ensures lanes { IfOk result (λ v. vec_len v ≡ 4) }
    ensures runs { IfOk result (λ v. All (λ l. runs_of l < 2 ^ 62) v.items) }
{
    let mut lanes = Vec::new(alloc);
    for _ in 0..LANES {
        lanes.push(new_lane(alloc))?;
    }
    Ok(lanes)
}

fn new_lane(alloc: Global) -> TableLane
    ensures { runs_of result ≡ 0 }
{
    TableLane::new(Table::of(Vec::new(alloc)), Vec::new(alloc))
}

/// Runs the graph on new lanes.
fn run_on_all<T: Threads + Wait + Sync>(
    rt: &T,
    alloc: Global,
    keeper: MemKeeper,
    resume: bool,
) -> Result<PoolEnd<TableLane, MemKeeper>, Mem> {
    small_tells_apart();
    let flow = Flow::begin(alloc, small_graph(alloc)?)?;
    let lanes = new_lanes(alloc)?;
    Ok(run(rt, alloc, flow, lanes, keeper, &Small, resume))
}

/// How often all lanes ran.
fn runs_of_all(lanes: &[TableLane]) -> u64 {
    lanes
        .iter()
        .fold(0, |sum: u64, lane| sum.saturating_add(lane.runs()))
}

#[test]
fn a_graph_runs_on_several_lanes_and_is_resumed(rt: HostRuntime) -> Result<(), Fail> {
    let alloc = rt.alloc();
    let first = run_on_all(&rt, alloc, MemKeeper::new(alloc), false)?;
    assert!(rt; first.flow.ended_well());
    assert_eq!(rt; first.lanes.len(), 4);
    assert_eq!(rt; runs_of_all(&first.lanes), 2);
    assert_eq!(rt; first.kept.dones.len(), 2);
    let again = run_on_all(&rt, alloc, first.keeper, true)?;
    assert!(rt; again.flow.ended_well());
    assert_eq!(rt; runs_of_all(&again.lanes), 0);
    assert_eq!(rt; again.kept.seens.len(), 2);
    Ok(())
}
