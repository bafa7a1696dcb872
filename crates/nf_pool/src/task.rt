//! A task of a worker: its attempts, up to the last.

ghost use Rattle.std.specs.Prelude.{◌≡◌, ◌+◌, ◌<◌, ◌≤◌, ◌^◌, true};
ghost use Rattle.nf_core.specs.Causes.{IsLeft};
ghost use Rattle.nf_core.specs.Told.{attempt_by};
ghost use Rattle.nf_flight.specs.Ticket.{next_attempt};
ghost use Rattle.nf_host.specs.Faults.{Rose};
ghost use Rattle.nf_locked.specs.Locked.{IsTaskOf, WasGone};
ghost use Rattle.nf_pool.specs.Pool.{IsLaneAt, WorksOn, worker_now};
ghost use Rattle.nf_serial.specs.Serial.{Later, lane_now};
ghost use Rattle.nf_stored.specs.Attempts.{IsJobOf};

use crate::holdings::{begin, finish, give_up, lose, reuse, start_gone};
use nf_core::Fixed;
use nf_flight::Ticket;
use nf_job::{Job, Report};
use nf_keeper::Keeper;
use nf_lane::{Lane, Look};
use nf_locked::{Begun, Locked};
use nf_stored::Rules;
use nf_value::Txt;
use nf_worker::{job_of, look_for, ran_by};
use std::alloc::Global;
use std::sync::ledger::{Ledger, Share};
use std::sync::{Mutex, Wait};

/// All attempts of a task, up to the last.
pub(crate) fn do_task<L: Lane, K: Keeper, J: Fixed, B: Ledger, F: Ledger, R: Rules, T: Wait>(
    rt: &T,
    alloc: Global,
    lock: &Mutex<Locked<L, K, J, B, F>>,
    rules: &R,
    owed: &mut Share<B>,
    lost: &mut Share<F>,
    index: usize,
    lane: &mut L,
    ticket: Ticket,
)
    requires rules { R.meaning rules.now ≡ J.facts.rules }
    requires keeps { R.keeps rules.now }
    requires lane { IsLaneAt J.facts index (L.world lane.old) (L.store lane.old) }
    requires task { IsTaskOf J.facts ticket }
    requires runs { L.runs lane.old ≤ 2 ^ 62 + owed.old.amount }
    requires few { owed.old.amount < 2 ^ 34 }
    requires owed { 0 < owed.old.parts }
    requires lost { 0 < lost.old.parts }
    ensures works { WorksOn
        (worker_now (lane_now (L.runs lane.old) (L.faults lane.old) (L.world lane.old) (L.store lane.old))
        owed.old.amount lost.old.amount)
        (worker_now (lane_now (L.runs lane.new) (L.faults lane.new) (L.world lane.new) (L.store lane.new))
        owed.new.amount lost.new.amount) }
    ensures parts { (owed.new.parts ≡ owed.old.parts) × (lost.new.parts ≡ lost.old.parts) }
{
    let mut ticket = ticket;
    while attempt(rt, alloc, lock, rules, owed, lost, index, lane, &ticket) {
        ticket = ticket.again();
    }
}

// One attempt of a task. Answers whether the task is tried again.
fn attempt<L: Lane, K: Keeper, J: Fixed, B: Ledger, F: Ledger, R: Rules, T: Wait>(
    rt: &T,
    alloc: Global,
    lock: &Mutex<Locked<L, K, J, B, F>>,
    rules: &R,
    owed: &mut Share<B>,
    lost: &mut Share<F>,
    index: usize,
    lane: &mut L,
    ticket: &Ticket,
) -> bool
    requires rules { R.meaning rules.now ≡ J.facts.rules }
    requires keeps { R.keeps rules.now }
    requires lane { IsLaneAt J.facts index (L.world lane.old) (L.store lane.old) }
    requires task { IsTaskOf J.facts ticket.now }
    requires runs { L.runs lane.old < 2 ^ 63 }
    requires few { owed.old.amount < 2 ^ 34 }
    requires owed { 0 < owed.old.parts }
    requires lost { 0 < lost.old.parts }
    ensures again { result ≡ true → IsTaskOf J.facts (next_attempt ticket.now) }
    ensures works { WorksOn
        (worker_now (lane_now (L.runs lane.old) (L.faults lane.old) (L.world lane.old) (L.store lane.old))
        owed.old.amount lost.old.amount)
        (worker_now (lane_now (L.runs lane.new) (L.faults lane.new) (L.world lane.new) (L.store lane.new))
        owed.new.amount lost.new.amount) }
    ensures parts { (owed.new.parts ≡ owed.old.parts) × (lost.new.parts ≡ lost.old.parts) }
{
    let job = match job_of::<J, R>(alloc, rules, ticket) {
        Ok(job) => job,
        Err(stop) => {
            give_up(rt, lock, index, ticket, stop);
            return false;
        }
    };
    match begin(rt, lock, owed, index, ticket, &job) {
        Begun::Run => run_job(rt, alloc, lock, rules, lost, index, lane, ticket, &job),
        Begun::Look { report } => look(
            rt, alloc, lock, rules, owed, lost, index, lane, ticket, &job, report,
        ),
        Begun::Over => false,
    }
}

// Runs the job of an attempt that is started, and ends the attempt.
fn run_job<L: Lane, K: Keeper, J: Fixed, B: Ledger, F: Ledger, R: Rules, T: Wait>(
    rt: &T,
    alloc: Global,
    lock: &Mutex<Locked<L, K, J, B, F>>,
    rules: &R,
    lost: &mut Share<F>,
    index: usize,
    lane: &mut L,
    ticket: &Ticket,
    job: &Job,
) -> bool
    requires rules { R.meaning rules.now ≡ J.facts.rules }
    requires keeps { R.keeps rules.now }
    requires lane { IsLaneAt J.facts index (L.world lane.old) (L.store lane.old) }
    requires task { IsTaskOf J.facts ticket.now }
    requires job { IsJobOf J.facts.rules (attempt_by ticket.now) job.now }
    requires runs { L.runs lane.old < 2 ^ 63 }
    requires lost { 0 < lost.old.parts }
    ensures again { result ≡ true → IsTaskOf J.facts (next_attempt ticket.now) }
    ensures once { L.runs lane.new ≡ L.runs lane.old + 1 }
    ensures later { Later (lane_now (L.runs lane.old) (L.faults lane.old) (L.world lane.old) (L.store lane.old))
        (lane_now (L.runs lane.new) (L.faults lane.new) (L.world lane.new) (L.store lane.new)) }
    ensures more { lost.old.amount ≤ lost.new.amount }
    ensures rose { lost.old.amount < lost.new.amount → Rose (L.faults lane.old) (L.faults lane.new) }
    ensures parts { lost.new.parts ≡ lost.old.parts }
{
    match ran_by::<L, J, R>(alloc, lane, rules, ticket, job) {
        Ok(ran) => finish(rt, lock, rules, index, ticket, job, ran),
        Err(stop) => {
            lose(rt, lock, lost, index, ticket, stop);
            false
        }
    }
}

// Looks for the files of the report that a record tells. If they are there the report is taken, and else the job is run.
fn look<L: Lane, K: Keeper, J: Fixed, B: Ledger, F: Ledger, R: Rules, T: Wait>(
    rt: &T,
    alloc: Global,
    lock: &Mutex<Locked<L, K, J, B, F>>,
    rules: &R,
    owed: &mut Share<B>,
    lost: &mut Share<F>,
    index: usize,
    lane: &mut L,
    ticket: &Ticket,
    job: &Job,
    report: Report,
) -> bool
    requires rules { R.meaning rules.now ≡ J.facts.rules }
    requires keeps { R.keeps rules.now }
    requires lane { IsLaneAt J.facts index (L.world lane.old) (L.store lane.old) }
    requires task { IsTaskOf J.facts ticket.now }
    requires job { IsJobOf J.facts.rules (attempt_by ticket.now) job.now }
    requires left { IsLeft J.facts job.now report }
    requires runs { L.runs lane.old < 2 ^ 63 }
    requires few { owed.old.amount < 2 ^ 34 }
    requires owed { 0 < owed.old.parts }
    requires lost { 0 < lost.old.parts }
    ensures again { result ≡ true → IsTaskOf J.facts (next_attempt ticket.now) }
    ensures works { WorksOn
        (worker_now (lane_now (L.runs lane.old) (L.faults lane.old) (L.world lane.old) (L.store lane.old))
        owed.old.amount lost.old.amount)
        (worker_now (lane_now (L.runs lane.new) (L.faults lane.new) (L.world lane.new) (L.store lane.new))
        owed.new.amount lost.new.amount) }
    ensures parts { (owed.new.parts ≡ owed.old.parts) × (lost.new.parts ≡ lost.old.parts) }
{
    let found = match look_for::<L, J>(alloc, lane, &report) {
        Ok(found) => found,
        Err(stop) => {
            lose(rt, lock, lost, index, ticket, stop);
            return false;
        }
    };
    match found {
        Look::There(seen) => reuse(rt, alloc, lock, rules, index, ticket, job, seen, report),
        Look::Gone { name } => run_anew(
            rt, alloc, lock, rules, owed, lost, index, lane, ticket, job, name,
        ),
    }
}

// Starts an attempt whose record has a file of this name that is gone, and runs its job.
fn run_anew<L: Lane, K: Keeper, J: Fixed, B: Ledger, F: Ledger, R: Rules, T: Wait>(
    rt: &T,
    alloc: Global,
    lock: &Mutex<Locked<L, K, J, B, F>>,
    rules: &R,
    owed: &mut Share<B>,
    lost: &mut Share<F>,
    index: usize,
    lane: &mut L,
    ticket: &Ticket,
    job: &Job,
    name: Txt,
) -> bool
    requires rules { R.meaning rules.now ≡ J.facts.rules }
    requires keeps { R.keeps rules.now }
    requires lane { IsLaneAt J.facts index (L.world lane.old) (L.store lane.old) }
    requires task { IsTaskOf J.facts ticket.now }
    requires job { IsJobOf J.facts.rules (attempt_by ticket.now) job.now }
    requires gone { WasGone J.facts job.now name }
    requires runs { L.runs lane.old < 2 ^ 63 }
    requires few { owed.old.amount < 2 ^ 34 }
    requires owed { 0 < owed.old.parts }
    requires lost { 0 < lost.old.parts }
    ensures again { result ≡ true → IsTaskOf J.facts (next_attempt ticket.now) }
    ensures works { WorksOn
        (worker_now (lane_now (L.runs lane.old) (L.faults lane.old) (L.world lane.old) (L.store lane.old))
        owed.old.amount lost.old.amount)
        (worker_now (lane_now (L.runs lane.new) (L.faults lane.new) (L.world lane.new) (L.store lane.new))
        owed.new.amount lost.new.amount) }
    ensures parts { (owed.new.parts ≡ owed.old.parts) × (lost.new.parts ≡ lost.old.parts) }
{
    if start_gone(rt, lock, owed, index, ticket, job, name) {
        return run_job(rt, alloc, lock, rules, lost, index, lane, ticket, job);
    }
    false
}
