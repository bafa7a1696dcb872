//! A worker: it takes what there is to do, until no more moves come.

ghost use Rattle.std.specs.Prelude.{◌≡◌, ◌+◌, ◌<◌, ◌≤◌, ◌^◌, length};
ghost use Rattle.nf_locked.specs.Locked.{IsItemOf};
ghost use Rattle.nf_pool.specs.Duty.{IsDuty};
ghost use Rattle.nf_pool.specs.Pool.{IsLaneAt, WorksOn, worker_now};
ghost use Rattle.nf_serial.specs.Serial.{lane_now};

use crate::duty::Duty;
use crate::items::{PAIRS, answer_items, more_items};
use crate::task::do_task;
use nf_core::Fixed;
use nf_flight::Ticket;
use nf_keeper::Keeper;
use nf_lane::Lane;
use nf_locked::{Locked, Work};
use nf_stored::Rules;
use nf_value::Mem;
use std::alloc::Global;
use std::sync::ledger::{Ledger, Share};
use std::sync::{Condvar, Mutex, Wait};

/// One worker: it works with its lane until no more moves come. Its lane ran once for each run that it owes, and is
/// blamed only if its count of faults rose.
pub(crate) fn work<L: Lane, K: Keeper, J: Fixed, B: Ledger, F: Ledger, R: Rules, T: Wait>(
    rt: &T,
    alloc: Global,
    lock: &Mutex<Locked<L, K, J, B, F>>,
    idle: &Condvar,
    rules: &R,
    index: usize,
    mut owed: Share<B>,
    mut lost: Share<F>,
    mut lane: L,
) -> (L, Share<B>, Share<F>)
    requires rules { R.meaning rules.now ≡ J.facts.rules }
    requires keeps { R.keeps rules.now }
    requires lane { IsLaneAt J.facts index (L.world lane) (L.store lane) }
    requires runs { L.runs lane < 2 ^ 62 }
    requires owed { (owed.parts ≡ 1) × (owed.amount ≡ 0) }
    requires lost { (lost.parts ≡ 1) × (lost.amount ≡ 0) }
    ensures works { WorksOn (worker_now (lane_now (L.runs lane) (L.faults lane) (L.world lane) (L.store lane)) 0 0)
        (worker_now (lane_now (L.runs result.0) (L.faults result.0) (L.world result.0) (L.store result.0))
        result.1.amount result.2.amount) }
    ensures parts { (result.1.parts ≡ 1) × (result.2.parts ≡ 1) }
{
    for _ in rt.forever() {
        let duty = next_duty(rt, alloc, lock, idle, index);
        if matches!(duty, Duty::Over) {
            break;
        }
        do_duty(
            rt, alloc, lock, rules, &mut owed, &mut lost, index, &mut lane, duty,
        );
        idle.notify_all();
    }
    idle.notify_all();
    (lane, owed, lost)
}

// Does what a holding left to do.
fn do_duty<L: Lane, K: Keeper, J: Fixed, B: Ledger, F: Ledger, R: Rules, T: Wait>(
    rt: &T,
    alloc: Global,
    lock: &Mutex<Locked<L, K, J, B, F>>,
    rules: &R,
    owed: &mut Share<B>,
    lost: &mut Share<F>,
    index: usize,
    lane: &mut L,
    duty: Duty,
)
    requires rules { R.meaning rules.now ≡ J.facts.rules }
    requires keeps { R.keeps rules.now }
    requires lane { IsLaneAt J.facts index (L.world lane.old) (L.store lane.old) }
    requires duty { IsDuty J.facts duty }
    requires runs { L.runs lane.old ≤ 2 ^ 62 + owed.old.amount }
    requires few { owed.old.amount < 2 ^ 34 }
    requires owed { 0 < owed.old.parts }
    requires lost { 0 < lost.old.parts }
    ensures works { WorksOn
        (worker_now (lane_now (L.runs lane.old) (L.faults lane.old) (L.world lane.old) (L.store lane.old))
        owed.old.amount lost.old.amount)
        (worker_now (lane_now (L.runs lane.new) (L.faults lane.new) (L.world lane.new) (L.store lane.new))
        owed.new.amount lost.new.amount) }
    ensures parts { (owed.new.parts ≡ owed.old.parts) × (lost.new.parts ≡ lost.old.parts) }
{
    match duty {
        Duty::Items { items } => answer_items(rt, alloc, lock, rules, index, items),
        Duty::Task { ticket } => do_task(rt, alloc, lock, rules, owed, lost, index, lane, ticket),
        Duty::Again => {}
        Duty::Over => {}
    }
}

// What there is to do next. A worker waits here while there is no move.
fn next_duty<L: Lane, K: Keeper, J: Fixed, B: Ledger, F: Ledger, T: Wait>(
    rt: &T,
    alloc: Global,
    lock: &Mutex<Locked<L, K, J, B, F>>,
    idle: &Condvar,
    index: usize,
) -> Duty
    requires { index < length J.facts.lanes }
    ensures { IsDuty J.facts result }
{
    let mut guard = idle.wait_while(rt, lock.lock(rt), |l| !l.is_ready() && !l.is_done());
    let locked = &mut *guard;
    if locked.is_done() {
        return Duty::Over;
    }
    moves(alloc, locked, index)
}

// Up to 64 moves, up to the first that leaves something to do outside of the lock.
fn moves<L: Lane, K: Keeper, J: Fixed, B: Ledger, F: Ledger>(
    alloc: Global,
    locked: &mut Locked<L, K, J, B, F>,
    index: usize,
) -> Duty
    requires { index < length J.facts.lanes }
    ensures { IsDuty J.facts result }
{
    for _ in 0..PAIRS {
        match locked.step(index) {
            Work::Item { ticket } => return items_of(alloc, locked, index, ticket),
            Work::Task { ticket } => return Duty::Task { ticket },
            Work::Moved => {}
            Work::Nothing => return Duty::Again,
        }
    }
    Duty::Again
}

// An item that was taken, and more of its operator. Without the memory for their list the run is stopped.
fn items_of<L: Lane, K: Keeper, J: Fixed, B: Ledger, F: Ledger>(
    alloc: Global,
    locked: &mut Locked<L, K, J, B, F>,
    index: usize,
    first: Ticket,
) -> Duty
    requires lane { index < length J.facts.lanes }
    requires first { IsItemOf J.facts first }
    ensures { IsDuty J.facts result }
{
    match more_items(alloc, locked, index, first) {
        Ok(items) => Duty::Items { items },
        Err(Mem) => {
            locked.halt();
            Duty::Over
        }
    }
}
