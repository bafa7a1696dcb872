//! Whole runs of the small graph.

ghost use Rattle.std.specs.Prelude.{◌≡◌, ◌<◌, ◌^◌, IfOk, Ok, false, true};
ghost use Rattle.nf_core.specs.Opening.{IsLane};
ghost use Rattle.nf_flow.specs.Seen.{begun};
ghost use Rattle.tests_core.specs.Opened.{IsTried, Opens};
ghost use Rattle.tests_core.specs.Tried.{tried_nodes};

use crate::calls::{answer, go_on, halt, lose, reuse_once, run_once, start_once, take_at};
use crate::tried::graph;
use nf_core::{Fixed, RunState};
use nf_flight::Ticket;
use nf_flow::Flow;
use nf_keeper::{Keeper, MemKeeper};
use nf_lane::{Lane, Table, TableLane};
use nf_stored::laws::texts_tell_apart;
use nf_value::Mem;
use std::alloc::Global;
use std::marker::Brand;
use std::process::Abort;
use std::test::Fail;

/// The flow of the small graph.
fn begin(alloc: Global) -> Result<Flow, Mem>
    ensures { IfOk result (λ f. f ≡ begun tried_nodes) }
{
    let graph = graph(alloc)?;
    Flow::begin(alloc, graph)
}

/// A run before its first event.
fn open<L: Lane, K: Keeper, J: Fixed>(
    alloc: Global,
    flow: Flow,
    keeper: K,
    resume: bool,
) -> RunState<L, K, J>
    requires { Opens J.facts flow resume (K.held keeper) (K.faults keeper) }
    ensures { result ≡ flow }
{
    texts_tell_apart();
    RunState::new(alloc, flow, keeper, resume)
}

/// The ticket of a task that is tried again.
fn again(back: Option<Ticket>) -> Result<Ticket, Mem>
    ensures { IfOk result (λ t. back ≡ Some t) }
{
    back.ok_or(Mem)
}

/// That a task isn't tried again.
fn ended(back: &Option<Ticket>) -> Result<(), Mem> {
    if back.is_some() {
        return Err(Mem);
    }
    Ok(())
}

/// Two attempts at the task.
fn run_task<L: Lane, K: Keeper, J: Fixed>(
    run: &mut RunState<L, K, J>,
    lane: &mut L,
) -> Result<(), Mem>
    requires tried { IsTried J.facts }
    requires lane { IsLane J.facts (L.world lane.old) (L.store lane.old) }
    requires runs { L.runs lane.old < 2 ^ 62 }
{
    let task = take_at(run, 2)?;
    let first = run_once(run, lane, task)?;
    let next = again(first)?;
    let last = run_once(run, lane, next)?;
    ended(&last)
}

/// An item through the operator.
fn view_item<L: Lane, K: Keeper, J: Fixed>(run: &mut RunState<L, K, J>) -> Result<(), Mem>
    requires { IsTried J.facts }
{
    go_on(run)?;
    let item = take_at(run, 1)?;
    answer(run, item)
}

/// All of a run, to its end.
fn run_all<L: Lane + Drop, K: Keeper + Drop, J: Fixed, R: Abort>(
    rt: &R,
    alloc: Global,
    flow: Flow,
    keeper: K,
    mut lane: L,
) -> Result<K, Fail>
    requires opens { Opens J.facts flow false (K.held keeper) (K.faults keeper) }
    requires lane { IsLane J.facts (L.world lane) (L.store lane) }
    requires runs { L.runs lane < 2 ^ 62 }
{
    let mut run = open::<L, K, J>(alloc, flow, keeper, false);
    assert!(rt; view_item(&mut run).is_ok());
    assert!(rt; run_task(&mut run, &mut lane).is_ok());
    assert!(rt; go_on(&mut run).is_ok());
    assert!(rt; go_on(&mut run).is_ok());
    let (flow, kept, keeper) = run.into_parts();
    assert!(rt; flow.ended_well());
    assert_eq!(rt; flow.history().len(), 10);
    assert_eq!(rt; kept.dones.len(), 2);
    assert_eq!(rt; kept.seens.len(), 0);
    Ok(keeper)
}

/// The task's two attempts, whose records an earlier run left.
fn reuse_task<L: Lane, K: Keeper, J: Fixed>(
    run: &mut RunState<L, K, J>,
    lane: &mut L,
) -> Result<(), Mem>
    requires { IsTried J.facts }
{
    let task = take_at(run, 2)?;
    let first = reuse_once(run, lane, task)?;
    let next = again(first)?;
    let last = reuse_once(run, lane, next)?;
    ended(&last)
}

/// A run that resumes another one, with that one's keeper.
fn resume_task<L: Lane + Drop, K: Keeper + Drop, J: Fixed, R: Abort>(
    rt: &R,
    alloc: Global,
    flow: Flow,
    keeper: K,
    mut lane: L,
)
    requires { Opens J.facts flow true (K.held keeper) (K.faults keeper) }
{
    let mut run = open::<L, K, J>(alloc, flow, keeper, true);
    assert!(rt; reuse_task(&mut run, &mut lane).is_ok());
    let (flow, kept, _) = run.into_parts();
    assert_eq!(rt; flow.history().len(), 3);
    assert_eq!(rt; kept.dones.len(), 0);
    assert_eq!(rt; kept.seens.len(), 2);
}

#[test]
fn a_run_and_one_that_resumes_it(rt: HostRuntime) -> Result<(), Fail> {
    let alloc = rt.alloc();
    let first = begin(alloc)?;
    let second = begin(alloc)?;
    let lane = TableLane::new(Table::of(Vec::new(alloc)), Vec::new(alloc));
    let keeper = MemKeeper::new(alloc);
    let left = run_all::<TableLane, MemKeeper, Brand, _>(&rt, alloc, first, keeper, lane)?;
    let lane = TableLane::new(Table::of(Vec::new(alloc)), Vec::new(alloc));
    resume_task::<TableLane, MemKeeper, Brand, _>(&rt, alloc, second, left, lane);
    Ok(())
}

/// A started attempt that is given up.
fn start_and_lose<L: Lane, K: Keeper, J: Fixed>(run: &mut RunState<L, K, J>) -> Result<(), Mem>
    requires tried { IsTried J.facts }
    requires fresh { J.facts.resumed ≡ false }
{
    let task = take_at(run, 2)?;
    let started = start_once(run, task)?;
    lose(run, started);
    Ok(())
}

/// A run that stops for want of memory while a task runs.
fn lose_task<L: Lane + Drop, K: Keeper + Drop, J: Fixed, R: Abort>(
    rt: &R,
    alloc: Global,
    flow: Flow,
    keeper: K,
)
    requires { Opens J.facts flow false (K.held keeper) (K.faults keeper) }
{
    let mut run = open::<L, K, J>(alloc, flow, keeper, false);
    assert!(rt; start_and_lose(&mut run).is_ok());
    assert!(rt; run.flow().is_over());
    assert_eq!(rt; run.flow().history().len(), 3);
}

/// A run that stops before its first event.
fn halt_at_once<L: Lane + Drop, K: Keeper + Drop, J: Fixed, R: Abort>(
    rt: &R,
    alloc: Global,
    flow: Flow,
    keeper: K,
)
    requires { Opens J.facts flow false (K.held keeper) (K.faults keeper) }
{
    let mut run = open::<L, K, J>(alloc, flow, keeper, false);
    halt(&mut run);
    assert!(rt; run.flow().is_over());
    assert_eq!(rt; run.flow().history().len(), 1);
}

#[test]
fn runs_that_stop(rt: HostRuntime) -> Result<(), Fail> {
    let alloc = rt.alloc();
    let first = begin(alloc)?;
    let second = begin(alloc)?;
    lose_task::<TableLane, MemKeeper, Brand, _>(&rt, alloc, first, MemKeeper::new(alloc));
    halt_at_once::<TableLane, MemKeeper, Brand, _>(&rt, alloc, second, MemKeeper::new(alloc));
    Ok(())
}
