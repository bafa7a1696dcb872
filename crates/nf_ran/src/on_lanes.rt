//! `run_plan`: runs a plan on several lanes at once.

ghost use Rattle.std.specs.Prelude.{◌≡◌, ◌<◌, ◌≤◌, ◌^◌, List, [], IfOk, vec_capacity, vec_len};
ghost use Rattle.std.specs.List.{All};
ghost use Rattle.nf_graph.specs.declared.node.Node.{Node};
ghost use Rattle.nf_stored.specs.Attempts.{TellsApart};
ghost use Rattle.nf_tasks.specs.Memory.{Program, program};
ghost use Rattle.nf_bodies.specs.declared.body.NodeInfo.{NodeInfo};
ghost use Rattle.nf_bodies.specs.Bodies.{rules_of};
ghost use Rattle.nf_flow.specs.Seen.{begun};
ghost use Rattle.nf_core.specs.Told.{IsDoneOf, IsSeenOf};
ghost use Rattle.nf_pool.specs.Serial.{LaneNow};
ghost use Rattle.nf_pool.specs.Pool.{lanes_now};
ghost use Rattle.nf_ran.specs.Ran.{IsPlanned, RanPlan, begun_over, came_to, keeper_now, upshot};

use crate::options::RunOptions;
use crate::plan_run::PlanRun;
use crate::upshot::come_to;
use nf_bodies::{NodeInfo, NodeRules};
use nf_builtins::Natives;
use nf_ends::End;
use nf_flow::Flow;
use nf_graph::Graph;
use nf_keeper::Keeper;
use nf_lane::Lane;
use nf_plan::Plan;
use nf_pool::{PoolEnd, run};
use nf_value::Mem;
use std::alloc::Global;
use std::mem::replace;
use std::sync::Wait;
use std::thread::Threads;

/// Runs a plan on 1 to 16 lanes at once, with a worker for each, from its first event to its end (own). If the run
/// resumes an earlier one, the keeper is asked for the records of its jobs; if its trace is asked for, that is made,
/// too. The lanes come back in their order.
///
/// The run is lawful, each of its finished tasks was run by a lane, and what it comes to is owed by what the plan
/// means: its report and the files that it published, or the end that names why there are none. The lanes or the keeper
/// are blamed only if one of their counts of failures rose. Without memory for the first event the history is empty, and
/// the outcome `Mem`.
pub fn run_plan<L, K, N, T>(
    rt: &T,
    alloc: Global,
    plan: Plan,
    keeper: K,
    lanes: Vec<L>,
    natives: &N,
    options: RunOptions,
) -> PlanRun<L, K>
where
    L: Lane + Send + Drop,
    L::Done: Send,
    L::Seen: Send,
    K: Keeper + Send + Drop,
    N: Natives + Sync,
    T: Threads + Wait + Sync,
    requires natives { N.keeps natives.now }
    requires planned { IsPlanned plan.graph plan.infos.items }
    requires lanes { (0 < vec_len lanes) × (vec_len lanes ≤ 16) }
    requires runs { All (λ l. L.runs l < 2 ^ 62) lanes.items }
    ensures room { (vec_len result.lanes ≡ vec_len lanes) × (vec_capacity result.lanes ≡ vec_capacity lanes) }
    ensures ran { RanPlan (begun_over (program (N.titles natives.now) (N.answer natives.now))
        plan.graph plan.infos.items options (keeper_now (K.held keeper) (K.faults keeper))
        (lanes_now L.runs L.faults L.world L.store lanes.items))
        (IsDoneOf L.Done.genuine L.Done.job L.Done.told) (IsSeenOf L.Seen.genuine L.Seen.told)
        (came_to result.history.items result.kept.dones.items result.kept.seens.items
        (upshot result.outcome result.trace)
        (keeper_now (K.held result.keeper) (K.faults result.keeper))
        (lanes_now L.runs L.faults L.world L.store result.lanes.items)) }
{
    plans_tell_apart();
    nf_bodies::laws::nodes_are_rules();
    let mut plan = plan;
    match begin_flow(alloc, &mut plan) {
        Ok(flow) => run_flow(
            rt,
            alloc,
            flow,
            plan.infos.as_slice(),
            keeper,
            lanes,
            natives,
            options,
        ),
        Err(Mem) => PlanRun::idle(alloc, keeper, lanes, Err(End::Mem)),
    }
}

/// What a run of a plan comes to for which there is no memory, on whichever lanes: no event, and the outcome `Mem`.
pub fn without_memory<L: Lane, K: Keeper, N: Natives>(
    alloc: Global,
    plan: &Plan,
    keeper: K,
    lanes: Vec<L>,
    natives: &N,
    options: RunOptions,
) -> PlanRun<L, K>
    requires planned { IsPlanned plan.now.graph plan.now.infos.items }
    ensures lanes { result.lanes ≡ lanes }
    ensures ran { (some : List LaneNow) → RanPlan
        (begun_over (program (N.titles natives.now) (N.answer natives.now)) plan.now.graph plan.now.infos.items
        options (keeper_now (K.held keeper) (K.faults keeper)) some)
        (IsDoneOf L.Done.genuine L.Done.job L.Done.told) (IsSeenOf L.Seen.genuine L.Seen.told)
        (came_to result.history.items result.kept.dones.items result.kept.seens.items
        (upshot result.outcome result.trace)
        (keeper_now (K.held result.keeper) (K.faults result.keeper)) some) }
{
    plans_tell_apart();
    nf_bodies::laws::nodes_are_rules();
    PlanRun::idle(alloc, keeper, lanes, Err(End::Mem))
}

/// The flow of a plan before its first event. The graph moves there: a source holds all its items, which may be many.
fn begin_flow(alloc: Global, plan: &mut Plan) -> Result<Flow, Mem>
    ensures flow { IfOk result (λ f. f ≡ begun plan.old.graph) }
    ensures infos { plan.new.infos ≡ plan.old.infos }
{
    let no_nodes = Graph::new(Vec::new(alloc));
    let graph = replace(&mut plan.graph, no_nodes);
    Flow::begin(alloc, graph)
}

/// Runs a flow from its first event on, under the rules of its nodes.
fn run_flow<L, K, N, T>(
    rt: &T,
    alloc: Global,
    flow: Flow,
    infos: &[NodeInfo],
    keeper: K,
    lanes: Vec<L>,
    natives: &N,
    options: RunOptions,
) -> PlanRun<L, K>
where
    L: Lane + Send + Drop,
    L::Done: Send,
    L::Seen: Send,
    K: Keeper + Send + Drop,
    N: Natives + Sync,
    T: Threads + Wait + Sync,
    requires begun { flow.history ≡ [] }
    requires natives { N.keeps natives.now }
    requires planned { IsPlanned flow.graph infos.now }
    requires lanes { (0 < vec_len lanes) × (vec_len lanes ≤ 16) }
    requires runs { All (λ l. L.runs l < 2 ^ 62) lanes.items }
    ensures room { (vec_len result.lanes ≡ vec_len lanes) × (vec_capacity result.lanes ≡ vec_capacity lanes) }
    ensures ran { RanPlan (begun_over (program (N.titles natives.now) (N.answer natives.now)) flow.graph infos.now
        options (keeper_now (K.held keeper) (K.faults keeper))
        (lanes_now L.runs L.faults L.world L.store lanes.items))
        (IsDoneOf L.Done.genuine L.Done.job L.Done.told) (IsSeenOf L.Seen.genuine L.Seen.told)
        (came_to result.history.items result.kept.dones.items result.kept.seens.items
        (upshot result.outcome result.trace)
        (keeper_now (K.held result.keeper) (K.faults result.keeper))
        (lanes_now L.runs L.faults L.world L.store result.lanes.items)) }
{
    plans_tell_apart();
    let rules = NodeRules::new(infos, natives);
    let PoolEnd {
        flow,
        kept,
        lanes,
        keeper,
    } = run(rt, alloc, flow, lanes, keeper, &rules, options.resume);
    let (outcome, trace) = come_to(alloc, infos, natives, &flow, options.traced);
    PlanRun {
        history: flow.into_history(),
        kept,
        lanes,
        keeper,
        outcome,
        trace,
    }
}

/// The jobs of a plan's nodes tell the attempts of its run apart.
fn plans_tell_apart()
    ensures { (n : Program) (graph : List Node) (infos : List NodeInfo) → IsPlanned graph infos
        → TellsApart (rules_of n infos) }
{
    nf_plan::laws::jobs_are_named();
    nf_stored::laws::texts_tell_apart();
}
