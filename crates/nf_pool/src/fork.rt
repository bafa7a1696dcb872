//! A worker for each lane, forked by join.

ghost use Rattle.std.specs.Prelude.{◌≡◌, ◌+◌, ◌∷◌, ◌++◌, [], ◌<◌, ◌≤◌, ◌^◌, IfNone, IfSome, MatchOption, map, vec_capacity, vec_len};
ghost use Rattle.std.specs.List.{All, sum_by};
ghost use Rattle.std.specs.Thread.{IsSync};
ghost use Rattle.nf_pool.specs.Pool.{AnyRose, AreFirst, HaveWorked, IsLaneAt, WorksOn, lanes_now, told, worker_now};
ghost use Rattle.nf_serial.specs.Serial.{lane_now};

use crate::worker::work;
use nf_core::Fixed;
use nf_keeper::Keeper;
use nf_lane::Lane;
use nf_locked::Locked;
use nf_stored::Rules;
use std::alloc::Global;
use std::sync::ledger::{Ledger, Share};
use std::sync::{Condvar, Mutex, Wait};
use std::thread::{Threads, join};

// The last lane, with what it was at the opening.
fn pop_lane<L: Lane, J: Fixed>(lanes: &mut Vec<L>) -> Option<L>
    requires lanes { AreFirst (map (λ l. told (L.world l) (L.store l)) lanes.old.items) J.facts.lanes }
    ensures items { IfSome result (λ l. lanes.old.items ≡ lanes.new.items ++ l ∷ []) }
    ensures none { IfNone result ((lanes.old.items ≡ []) × (lanes.new.items ≡ [])) }
    ensures len { MatchOption result (vec_len lanes.new ≡ vec_len lanes.old)
        (λ _. vec_len lanes.new + 1 ≡ vec_len lanes.old) }
    ensures capacity { vec_capacity lanes.new ≡ vec_capacity lanes.old }
    ensures lane { IfSome result (λ l. IsLaneAt J.facts (vec_len lanes.new) (L.world l) (L.store l)
        × AreFirst (map (λ l. told (L.world l) (L.store l)) lanes.new.items) J.facts.lanes) }
{
    let Some(lane) = lanes.pop() else {
        return None;
    };
    Some(lane)
}

/// A worker for each lane, at once. The lanes come back in their order.
pub(crate) fn fork<L, K, J, B, F, R, T>(
    rt: &T,
    alloc: Global,
    lock: &Mutex<Locked<L, K, J, B, F>>,
    idle: &Condvar,
    rules: &R,
    mut owed: Share<B>,
    mut lost: Share<F>,
    mut lanes: Vec<L>,
) -> (Vec<L>, Share<B>, Share<F>)
where
    L: Lane + Send + Drop,
    L::Done: Send,
    L::Seen: Send,
    K: Keeper + Send,
    J: Fixed + Send + Sync,
    B: Ledger + Send + Sync,
    F: Ledger + Send + Sync,
    R: Rules + Sync,
    T: Threads + Wait + Sync,
    requires owed { (owed.parts ≡ vec_len lanes) × (owed.amount ≡ 0) }
    requires lost { (lost.parts ≡ vec_len lanes) × (lost.amount ≡ 0) }
    requires runs { All (λ l. L.runs l < 2 ^ 62) lanes.items }
    requires lanes { AreFirst (map (λ l. told (L.world l) (L.store l)) lanes.items) J.facts.lanes }
    requires rules { R.meaning rules.now ≡ J.facts.rules }
    requires keeps { R.keeps rules.now }
    ensures runs { sum_by L.runs result.0.items ≡ sum_by L.runs lanes.items + result.1.amount }
    ensures parts { (result.1.parts ≡ vec_len lanes) × (result.2.parts ≡ vec_len lanes) }
    ensures rose { 0 < result.2.amount → AnyRose (map L.faults lanes.items) (map L.faults result.0.items) }
    ensures worked { HaveWorked (lanes_now L.runs L.faults L.world L.store lanes.items)
        (lanes_now L.runs L.faults L.world L.store result.0.items) }
    ensures room { (vec_len result.0 ≡ vec_len lanes) × (vec_capacity result.0 ≡ vec_capacity lanes) }
{
    let Some(lane) = pop_lane::<L, J>(&mut lanes) else {
        return (lanes, owed, lost);
    };
    let index = lanes.len();
    let owed_left = owed.split_off(index as u64, 0);
    let lost_left = lost.split_off(index as u64, 0);
    let ((lane, mut owed, mut lost), (mut lanes, owed_left, lost_left)) = join(
        rt,
        move || -> (L, Share<B>, Share<F>)
            requires { (owed.parts ≡ 1) × (owed.amount ≡ 0) × (lost.parts ≡ 1) × (lost.amount ≡ 0)
                × (L.runs lane < 2 ^ 62)
                × IsLaneAt J.facts index (L.world lane) (L.store lane) × (R.meaning rules.now ≡ J.facts.rules)
                × R.keeps rules.now }
            ensures { (result.1.parts ≡ 1) × (result.2.parts ≡ 1)
                × WorksOn (worker_now (lane_now (L.runs lane) (L.faults lane) (L.world lane) (L.store lane)) 0 0)
                (worker_now (lane_now (L.runs result.0) (L.faults result.0) (L.world result.0) (L.store result.0))
                result.1.amount result.2.amount) }
        { work(rt, alloc, lock, idle, rules, index, owed, lost, lane) },
        move || -> (Vec<L>, Share<B>, Share<F>)
            requires { (owed_left.parts ≡ vec_len lanes) × (owed_left.amount ≡ 0) × (lost_left.parts ≡ vec_len lanes)
                × (lost_left.amount ≡ 0)
                × All (λ l. L.runs l < 2 ^ 62) lanes.items
                × AreFirst (map (λ l. told (L.world l) (L.store l)) lanes.items) J.facts.lanes
                × (R.meaning rules.now ≡ J.facts.rules) × R.keeps rules.now × IsSync T.row }
            ensures { (sum_by L.runs result.0.items ≡ sum_by L.runs lanes.items + result.1.amount)
                × (result.1.parts ≡ vec_len lanes)
                × (result.2.parts ≡ vec_len lanes)
                × (0 < result.2.amount → AnyRose (map L.faults lanes.items) (map L.faults result.0.items))
                × HaveWorked (lanes_now L.runs L.faults L.world L.store lanes.items)
                (lanes_now L.runs L.faults L.world L.store result.0.items)
                × (vec_len result.0 ≡ vec_len lanes) × (vec_capacity result.0 ≡ vec_capacity lanes) }
        { fork(rt, alloc, lock, idle, rules, owed_left, lost_left, lanes) },
    );
    owed.merge(owed_left);
    lost.merge(lost_left);
    lanes.push_reserved(lane);
    (lanes, owed, lost)
}
