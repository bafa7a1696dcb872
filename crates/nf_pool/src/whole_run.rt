//! `run`: a whole run on several lanes at once.

ghost use Rattle.std.specs.Prelude.{◌≡◌, ◌+◌, ◌<◌, ◌≤◌, ◌^◌, [], IfOk, length, map, true, vec_capacity, vec_len, ℕ};
ghost use Rattle.std.specs.List.{All, sum_by};
ghost use Rattle.nf_core.specs.Promises.{Keeps, Promises};
ghost use Rattle.nf_core.specs.Run.{IsRun};
ghost use Rattle.nf_core.specs.Told.{IsDoneOf, IsSeenOf};
ghost use Rattle.nf_flow.specs.Seen.{events_of, plain_of, state_of};
ghost use Rattle.nf_locked.specs.Locked.{failures_of, starts_of};
ghost use Rattle.nf_locked.specs.Out.{tallies};
ghost use Rattle.nf_machine.specs.History.{is_over};
ghost use Rattle.nf_pool.specs.Pool.{AnyRose, AreLater, HaveWorked, lanes_now, opening_of, told};
ghost use Rattle.nf_serial.specs.Serial.{IsIdle};
ghost use Rattle.nf_stored.specs.Attempts.{TellsApart};

use crate::end::PoolEnd;
use crate::fork::fork;
use crate::sweep::sweep;
use nf_core::{Fixed, RunState};
use nf_flight::Ticket;
use nf_flow::Flow;
use nf_keeper::Keeper;
use nf_lane::{Finished, Lane, Present};
use nf_locked::Locked;
use nf_serial::serial;
use nf_stored::Rules;
use nf_stored::laws::are_rules;
use nf_value::Mem;
use std::alloc::Global;
use std::marker::Brand;
use std::sync::ledger::{Blank, Ledger};
use std::sync::{Condvar, Mutex, Wait};
use std::thread::Threads;

/// Runs a graph on 1 to 16 lanes at once, from its first event to its end (own): a worker for each lane, and then what
/// they left on one thread. If the run resumes an earlier one, the keeper is asked for the records of its jobs. The
/// rules are to tell attempts apart by the texts of their jobs. The lanes and the keeper come back on every path.
///
/// The lanes ran once for each Start of the history. The keeper is blamed only if its count of faults rose, a lane only
/// if one of theirs did. That two workers work at once, that one that waits is woken, and that lanes run and closures
/// are evaluated outside of the lock, isn't part of this contract.
pub fn run<L, K, R, T>(
    rt: &T,
    alloc: Global,
    flow: Flow,
    lanes: Vec<L>,
    keeper: K,
    rules: &R,
    resume: bool,
) -> PoolEnd<L, K>
where
    L: Lane + Send + Drop,
    L::Done: Send,
    L::Seen: Send,
    K: Keeper + Send + Drop,
    R: Rules + Sync,
    T: Threads + Wait + Sync,
    requires begun { flow.history ≡ [] }
    requires lanes { (0 < vec_len lanes) × (vec_len lanes ≤ 16) }
    requires runs { All (λ l. L.runs l < 2 ^ 62) lanes.items }
    requires keeps { R.keeps rules.now }
    requires apart { TellsApart (R.meaning rules.now) }
    ensures over { is_over (plain_of result.flow) (state_of result.flow) ≡ true }
    ensures idle { IsIdle result.flow }
    ensures runs { sum_by L.runs result.lanes.items ≡ sum_by L.runs lanes.items + starts_of result.flow }
    ensures rose { 0 < failures_of result.flow → AnyRose (map L.faults lanes.items) (map L.faults result.lanes.items) }
    ensures room { (vec_len result.lanes ≡ vec_len lanes) × (vec_capacity result.lanes ≡ vec_capacity lanes) }
    // The lanes come back in their order. Each has the world that it had, and its store has lost nothing.
    ensures later { AreLater (lanes_now L.runs L.faults L.world L.store lanes.items)
        (lanes_now L.runs L.faults L.world L.store result.lanes.items) }
    ensures run { IsRun
        (opening_of flow.graph (R.meaning rules.now) resume (K.held keeper) (K.faults keeper)
        (map (λ l. told (L.world l) (L.store l)) lanes.items))
        (IsDoneOf L.Done.genuine L.Done.job L.Done.told (R.meaning rules.now)) (IsSeenOf L.Seen.genuine L.Seen.told)
        (record {
          flow = result.flow;
          dones = result.kept.dones.items;
          seens = result.kept.seens.items;
          resumed = resume;
          held = K.held result.keeper;
          faults = K.faults result.keeper;
        }) }
    ensures promises { Promises
        (opening_of flow.graph (R.meaning rules.now) resume (K.held keeper) (K.faults keeper)
        (map (λ l. told (L.world l) (L.store l)) lanes.items))
        (plain_of result.flow) (events_of result.flow) }
    ensures keeps { Keeps
        (opening_of flow.graph (R.meaning rules.now) resume (K.held keeper) (K.faults keeper)
        (map (λ l. told (L.world l) (L.store l)) lanes.items))
        (plain_of result.flow) (events_of result.flow) (K.held result.keeper) }
{
    let begun = Blank::new(lanes.len() as u64);
    let failed = Blank::new(lanes.len() as u64);
    run_as::<L, K, Brand, Brand, Brand, R, T>(
        rt, alloc, begun, failed, flow, lanes, keeper, rules, resume,
    )
}

// The same, with types for what is fixed from the opening on and for the two books.
fn run_as<L, K, J, B, F, R, T>(
    rt: &T,
    alloc: Global,
    begun: Blank,
    failed: Blank,
    flow: Flow,
    lanes: Vec<L>,
    keeper: K,
    rules: &R,
    resume: bool,
) -> PoolEnd<L, K>
where
    L: Lane + Send + Drop,
    L::Done: Send,
    L::Seen: Send,
    K: Keeper + Send + Drop,
    J: Fixed + Send + Sync,
    B: Ledger + Send + Sync,
    F: Ledger + Send + Sync,
    R: Rules + Sync,
    T: Threads + Wait + Sync,
    requires begun { (begun.name ≡ B.name) × (begun.parts ≡ B.parts) × (begun.parts ≡ vec_len lanes) }
    requires failed { (failed.name ≡ F.name) × (failed.parts ≡ F.parts) × (failed.parts ≡ vec_len lanes) }
    requires empty { flow.history ≡ [] }
    requires graph { flow.graph ≡ J.facts.graph }
    requires resumed { resume ≡ J.facts.resumed }
    requires held { K.held keeper ≡ J.facts.held }
    requires faults { K.faults keeper ≡ J.facts.faults }
    requires some { 0 < vec_len lanes }
    requires runs { All (λ l. L.runs l < 2 ^ 62) lanes.items }
    requires lanes { map (λ l. told (L.world l) (L.store l)) lanes.items ≡ J.facts.lanes }
    requires rules { R.meaning rules.now ≡ J.facts.rules }
    requires keeps { R.keeps rules.now }
    requires apart { TellsApart J.facts.rules }
    ensures over { is_over (plain_of result.flow) (state_of result.flow) ≡ true }
    ensures idle { IsIdle result.flow }
    ensures runs { sum_by L.runs result.lanes.items ≡ sum_by L.runs lanes.items + starts_of result.flow }
    ensures rose { 0 < failures_of result.flow → AnyRose (map L.faults lanes.items) (map L.faults result.lanes.items) }
    ensures room { (vec_len result.lanes ≡ vec_len lanes) × (vec_capacity result.lanes ≡ vec_capacity lanes) }
    ensures later { AreLater (lanes_now L.runs L.faults L.world L.store lanes.items)
        (lanes_now L.runs L.faults L.world L.store result.lanes.items) }
    ensures run { IsRun J.facts
        (IsDoneOf L.Done.genuine L.Done.job L.Done.told J.facts.rules) (IsSeenOf L.Seen.genuine L.Seen.told)
        (record {
          flow = result.flow;
          dones = result.kept.dones.items;
          seens = result.kept.seens.items;
          resumed = J.facts.resumed;
          held = K.held result.keeper;
          faults = K.faults result.keeper;
        }) }
    ensures promises { Promises J.facts (plain_of result.flow) (events_of result.flow) }
    ensures keeps { Keeps J.facts (plain_of result.flow) (events_of result.flow) (K.held result.keeper) }
{
    are_rules(rules);
    let run = RunState::<L, K, J>::new(alloc, flow, keeper, resume);
    let (mut run, mut lanes) = on_all::<L, K, J, B, F, R, T>(
        rt, alloc, begun, failed, run, lanes, rules,
    );
    let first = &mut lanes[0];
    serial(&mut run, first, rules);
    run.holds();
    let (flow, kept, keeper) = run.into_parts();
    PoolEnd {
        flow,
        kept,
        lanes,
        keeper,
    }
}

// An empty list for each lane.
fn lists(alloc: Global, lanes: usize) -> Result<Vec<Vec<Ticket>>, Mem>
    ensures lanes { IfOk result (λ v. length (map (λ w. w.items) v.items) ≡ lanes) }
    ensures empty { IfOk result (λ v. (n : ℕ) → tallies n (map (λ w. w.items) v.items) ≡ 0) }
{
    let mut out = Vec::with_capacity(alloc, lanes)?;
    for _ in 0..lanes {
        out.push(Vec::new(alloc))?;
    }
    Ok(out)
}

// What workers do, one on each lane; then what they left out is given up. Without the memory for the lists of tickets nothing is done.
fn on_all<L, K, J, B, F, R, T>(
    rt: &T,
    alloc: Global,
    begun: Blank,
    failed: Blank,
    run: RunState<L, K, J>,
    lanes: Vec<L>,
    rules: &R,
) -> (RunState<L, K, J>, Vec<L>)
where
    L: Lane + Send + Drop,
    L::Done: Send,
    L::Seen: Send,
    K: Keeper + Send + Drop,
    J: Fixed + Send + Sync,
    B: Ledger + Send + Sync,
    F: Ledger + Send + Sync,
    R: Rules + Sync,
    T: Threads + Wait + Sync,
    requires begun { (begun.name ≡ B.name) × (begun.parts ≡ B.parts) × (begun.parts ≡ vec_len lanes) }
    requires failed { (failed.name ≡ F.name) × (failed.parts ≡ F.parts) × (failed.parts ≡ vec_len lanes) }
    requires empty { run.history ≡ [] }
    requires runs { All (λ l. L.runs l < 2 ^ 62) lanes.items }
    requires lanes { map (λ l. told (L.world l) (L.store l)) lanes.items ≡ J.facts.lanes }
    requires rules { R.meaning rules.now ≡ J.facts.rules }
    requires keeps { R.keeps rules.now }
    ensures idle { IsIdle result.0 }
    ensures runs { sum_by L.runs result.1.items ≡ sum_by L.runs lanes.items + starts_of result.0 }
    ensures rose { 0 < failures_of result.0 → AnyRose (map L.faults lanes.items) (map L.faults result.1.items) }
    ensures worked { HaveWorked (lanes_now L.runs L.faults L.world L.store lanes.items)
        (lanes_now L.runs L.faults L.world L.store result.1.items) }
    ensures room { (vec_len result.1 ≡ vec_len lanes) × (vec_capacity result.1 ≡ vec_capacity lanes) }
{
    let Ok(out) = lists(alloc, lanes.len()) else {
        return (run, lanes);
    };
    let (begun, owed) = begun.open::<B>();
    let (failed, lost) = failed.open::<F>();
    let lock = Mutex::new(Locked::<L, K, J, B, F>::new(run, out, begun, failed));
    let idle = Condvar::new();
    let (lanes, mut owed, mut lost) = fork(rt, alloc, &lock, &idle, rules, owed, lost, lanes);
    let (mut run, out) = lock.into_inner().into_parts(&mut owed, &mut lost);
    sweep(&mut run, out);
    (run, lanes)
}
