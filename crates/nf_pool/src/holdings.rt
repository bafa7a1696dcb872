//! What a worker does with a task in one holding of the lock.

ghost use Rattle.std.specs.Prelude.{◌≡◌, ◌+◌, ◌<◌, ◌≤◌, ◌^◌, if◌then◌else◌, length, true};
ghost use Rattle.nf_core.specs.Calls.{IsEnteredBy};
ghost use Rattle.nf_core.specs.Causes.{IsLeft};
ghost use Rattle.nf_core.specs.Told.{attempt_by};
ghost use Rattle.nf_flight.specs.Ticket.{next_attempt};
ghost use Rattle.nf_locked.specs.Locked.{IsBegun, IsLoss, IsTaskOf, WasGone, owed_by};
ghost use Rattle.nf_machine.specs.declared.stop.Outside.TheVariants as o;
ghost use Rattle.nf_machine.specs.declared.stop.Stop.TheVariants as s;
ghost use Rattle.nf_stored.specs.Attempts.{IsJobOf};

use nf_core::{Fixed, Ran, outs_of};
use nf_flight::Ticket;
use nf_job::{Job, Report};
use nf_keeper::Keeper;
use nf_lane::Lane;
use nf_locked::{Begun, Locked};
use nf_machine::{Outside, Stop};
use nf_stored::Rules;
use nf_value::Txt;
use std::alloc::Global;
use std::sync::ledger::{Ledger, Share};
use std::sync::{Mutex, Wait};

/// The attempt begins.
pub(crate) fn begin<L: Lane, K: Keeper, J: Fixed, B: Ledger, F: Ledger, T: Wait>(
    rt: &T,
    lock: &Mutex<Locked<L, K, J, B, F>>,
    owed: &mut Share<B>,
    index: usize,
    ticket: &Ticket,
    job: &Job,
) -> Begun
    requires lane { index < length J.facts.lanes }
    requires task { IsTaskOf J.facts ticket.now }
    requires job { IsJobOf J.facts.rules (attempt_by ticket.now) job.now }
    requires parts { 0 < owed.old.parts }
    ensures next { IsBegun J.facts job.now result }
    ensures owed { owed.new.amount ≡ owed.old.amount + owed_by result }
    ensures few { owed.new.amount < 2 ^ 34 }
    ensures parts { owed.new.parts ≡ owed.old.parts }
{
    let mut guard = lock.lock(rt);
    let locked = &mut *guard;
    locked.begin(owed, index, ticket, job)
}

/// The attempt starts, since a file of its record is gone. Answers whether it did.
pub(crate) fn start_gone<L: Lane, K: Keeper, J: Fixed, B: Ledger, F: Ledger, T: Wait>(
    rt: &T,
    lock: &Mutex<Locked<L, K, J, B, F>>,
    owed: &mut Share<B>,
    index: usize,
    ticket: &Ticket,
    job: &Job,
    name: Txt,
) -> bool
    requires lane { index < length J.facts.lanes }
    requires task { IsTaskOf J.facts ticket.now }
    requires job { IsJobOf J.facts.rules (attempt_by ticket.now) job.now }
    requires gone { WasGone J.facts job.now name }
    requires parts { 0 < owed.old.parts }
    ensures owed { owed.new.amount ≡ owed.old.amount + (if result then 1 else 0) }
    ensures few { owed.new.amount < 2 ^ 34 }
    ensures parts { owed.new.parts ≡ owed.old.parts }
{
    let mut guard = lock.lock(rt);
    let locked = &mut *guard;
    locked.start_gone(owed, index, ticket, job, name)
}

/// The report that an earlier run left is taken. Answers whether the task is tried again.
pub(crate) fn reuse<L: Lane, K: Keeper, J: Fixed, B: Ledger, F: Ledger, R: Rules, T: Wait>(
    rt: &T,
    alloc: Global,
    lock: &Mutex<Locked<L, K, J, B, F>>,
    rules: &R,
    index: usize,
    ticket: &Ticket,
    job: &Job,
    seen: L::Seen,
    report: Report,
) -> bool
    requires rules { R.meaning rules.now ≡ J.facts.rules }
    requires keeps { R.keeps rules.now }
    requires lane { index < length J.facts.lanes }
    requires task { IsTaskOf J.facts ticket.now }
    requires job { IsJobOf J.facts.rules (attempt_by ticket.now) job.now }
    requires left { IsLeft J.facts job.now report }
    requires seen { L.Seen.genuine seen }
    requires told { L.Seen.told seen ≡ report }
    ensures again { result ≡ true → IsTaskOf J.facts (next_attempt ticket.now) }
{
    let Ok(outs) = outs_of(alloc, rules, ticket, &report) else {
        give_up(rt, lock, index, ticket, Stop::Mem);
        return false;
    };
    let mut guard = lock.lock(rt);
    let locked = &mut *guard;
    locked.reuse(index, rules, ticket, job, seen, report, outs)
}

/// The record is put, and the attempt ends. Answers whether the task is tried again.
pub(crate) fn finish<L: Lane, K: Keeper, J: Fixed, B: Ledger, F: Ledger, R: Rules, T: Wait>(
    rt: &T,
    lock: &Mutex<Locked<L, K, J, B, F>>,
    rules: &R,
    index: usize,
    ticket: &Ticket,
    job: &Job,
    ran: Ran<L::Done>,
) -> bool
    requires rules { R.meaning rules.now ≡ J.facts.rules }
    requires lane { index < length J.facts.lanes }
    requires task { IsTaskOf J.facts ticket.now }
    requires job { IsJobOf J.facts.rules (attempt_by ticket.now) job.now }
    requires ran { IsEnteredBy J.facts
        (record { genuine = L.Done.genuine; job = L.Done.job; told = L.Done.told }) ticket.now job.now ran }
    ensures again { result ≡ true → IsTaskOf J.facts (next_attempt ticket.now) }
{
    let mut guard = lock.lock(rt);
    let locked = &mut *guard;
    locked.finish(index, rules, ticket, job, ran)
}

/// The ticket is given up: its lane failed, or there is no memory.
pub(crate) fn lose<L: Lane, K: Keeper, J: Fixed, B: Ledger, F: Ledger, T: Wait>(
    rt: &T,
    lock: &Mutex<Locked<L, K, J, B, F>>,
    lost: &mut Share<F>,
    index: usize,
    ticket: &Ticket,
    stop: Stop,
)
    requires lane { index < length J.facts.lanes }
    requires task { IsTaskOf J.facts ticket.now }
    requires parts { 0 < lost.old.parts }
    ensures more { lost.old.amount ≤ lost.new.amount }
    ensures blamed { lost.old.amount < lost.new.amount → stop ≡ s.Outside o.Lane }
    ensures parts { lost.new.parts ≡ lost.old.parts }
{
    let mut guard = lock.lock(rt);
    let locked = &mut *guard;
    match stop {
        Stop::Outside(Outside::Lane) => {
            let _is_entered = locked.lose(lost, index, ticket);
        }
        _ => locked.give_up(index, ticket, Stop::Mem),
    }
}

/// The ticket is given up, for want of memory or since its attempt has no job.
pub(crate) fn give_up<L: Lane, K: Keeper, J: Fixed, B: Ledger, F: Ledger, T: Wait>(
    rt: &T,
    lock: &Mutex<Locked<L, K, J, B, F>>,
    index: usize,
    ticket: &Ticket,
    stop: Stop,
)
    requires lane { index < length J.facts.lanes }
    requires task { IsTaskOf J.facts ticket.now }
    requires stop { IsLoss J.facts ticket.now stop }
{
    let mut guard = lock.lock(rt);
    let locked = &mut *guard;
    locked.give_up(index, ticket, stop);
}
