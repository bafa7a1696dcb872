//! `run_first`: runs a plan on the first of some lanes.

ghost use Rattle.std.specs.Prelude.{◌≡◌, ◌<◌, ◌≤◌, ◌^◌, All, drop, take, vec_len};
ghost use Rattle.nf_tasks.specs.Memory.{program};
ghost use Rattle.nf_core.specs.Told.{IsDoneOf, IsSeenOf};
ghost use Rattle.nf_ran.specs.Pool.{lanes_now};
ghost use Rattle.nf_ran.specs.Ran.{IsPlanned, RanPlan, begun_over, came_to, keeper_now, upshot};

use nf_builtins::Natives;
use nf_keeper::Keeper;
use nf_lane::Lane;
use nf_plan::Plan;
use nf_ran::{PlanRun, RunOptions, run_plan, without_memory};
use std::alloc::Global;
use std::sync::Wait;
use std::thread::Threads;

/// Runs a plan on the first lanes. The others stand aside, which needs memory for a list of them.
pub(crate) fn run_first<L, K, N, T>(
    rt: &T,
    alloc: Global,
    plan: Plan,
    keeper: K,
    lanes: Vec<L>,
    queue: usize,
    natives: &N,
    options: RunOptions,
) -> PlanRun<L, K>
where
    L: Lane + Send + Drop,
    L::Done: Send,
    L::Seen: Send,
    K: Keeper + Send + Drop,
    N: Natives + Sync,
    T: Threads + Wait + Sync,
    requires natives { N.keeps natives.now }
    requires planned { IsPlanned plan.graph plan.infos.items }
    requires queue { (0 < queue) × (queue ≤ 16) × (queue ≤ vec_len lanes) }
    requires room { All (λ l. L.runs l < 2 ^ 62) lanes.items }
    ensures idle { drop queue result.lanes.items ≡ drop queue lanes.items }
    ensures ran { RanPlan (begun_over (program (N.titles natives.now) (N.answer natives.now))
        plan.graph plan.infos.items options (keeper_now (K.held keeper) (K.faults keeper))
        (lanes_now L.runs L.faults L.world L.store (take queue lanes.items)))
        (IsDoneOf L.Done.genuine L.Done.job L.Done.told) (IsSeenOf L.Seen.genuine L.Seen.told)
        (came_to result.history.items result.kept.dones.items result.kept.seens.items
        (upshot result.outcome result.trace)
        (keeper_now (K.held result.keeper) (K.faults result.keeper))
        (lanes_now L.runs L.faults L.world L.store (take queue result.lanes.items))) }
{
    let mut lanes = lanes;
    let Ok(mut idle) = lanes.split_off(queue) else {
        return without_memory(alloc, &plan, keeper, lanes, natives, options);
    };
    let PlanRun {
        history,
        kept,
        mut lanes,
        keeper,
        outcome,
        trace,
    } = run_plan(rt, alloc, plan, keeper, lanes, natives, options);
    // There is room for them, since the list is the one that they came from.
    let _is_joined = lanes.append(&mut idle);
    PlanRun {
        history,
        kept,
        lanes,
        keeper,
        outcome,
        trace,
    }
}
