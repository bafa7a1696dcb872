//! A task of a run on one lane: its attempts, up to the last.

ghost use Rattle.std.specs.Prelude.{◌≡◌, ◌<◌, Some, MatchResult};
ghost use Rattle.nf_flight.specs.Ticket.{number_of};
ghost use Rattle.nf_flow.specs.Seen.{events_of, grown, plain_of};
ghost use Rattle.nf_machine.specs.declared.event.Cause.TheVariants as cause;
ghost use Rattle.nf_machine.specs.declared.event.Event.TheVariants as e;
ghost use Rattle.nf_stored.specs.Attempts.{IsJobOf};
ghost use Rattle.nf_core.specs.Causes.{IsCaused, IsLeft};
ghost use Rattle.nf_core.specs.Records.{writes_by};
ghost use Rattle.nf_serial.specs.Serial.{CanServe, GoesAlone, HasTask, IsAlone, IsBack, IsIdle, IsJobless, IsStopOf, MayLose, Serves};
ghost use Rattle.nf_serial.specs.Serial.{lane_now, ran_once, work_of};
ghost use Rattle.nf_core.specs.Told.{attempt_by, told_in};

use crate::lane_calls::{look_for, ran_by};
use crate::measure::{falls, few_attempts};
use nf_core::{Fixed, Next, RunState, outs_of};
use nf_flight::Ticket;
use nf_job::{Job, Report, TaskRefusal};
use nf_keeper::Keeper;
use nf_lane::{Lane, Look};
use nf_machine::{Cause, Stop};
use nf_stored::Rules;
use nf_value::{Mem, Txt};

/// The attempts of a task, up to the last.
pub(crate) fn task<L: Lane, K: Keeper, J: Fixed, R: Rules>(
    run: &mut RunState<L, K, J>,
    lane: &mut L,
    rules: &R,
    ticket: Ticket,
)
    requires rules { R.meaning rules.now ≡ J.facts.rules }
    requires keeps { R.keeps rules.now }
    requires ticket { HasTask run.old ticket }
    requires lane { CanServe J.facts run.old
        (lane_now (L.runs lane.old) (L.faults lane.old) (L.world lane.old) (L.store lane.old)) }
    ensures idle { IsIdle run.new }
    ensures serves { Serves J.facts run.old run.new
        (lane_now (L.runs lane.old) (L.faults lane.old) (L.world lane.old) (L.store lane.old))
        (lane_now (L.runs lane.new) (L.faults lane.new) (L.world lane.new) (L.store lane.new)) }
{
    let mut next = Some(ticket);
    while let Some(ticket) = next {
        next = attempt(run, lane, rules, ticket);
    }
}

// One attempt of a task. The ticket comes back if the task is tried again.
fn attempt<L: Lane, K: Keeper, J: Fixed, R: Rules>(
    run: &mut RunState<L, K, J>,
    lane: &mut L,
    rules: &R,
    ticket: Ticket,
) -> Option<Ticket>
    requires rules { R.meaning rules.now ≡ J.facts.rules }
    requires keeps { R.keeps rules.now }
    requires ticket { HasTask run.old ticket }
    requires lane { CanServe J.facts run.old
        (lane_now (L.runs lane.old) (L.faults lane.old) (L.world lane.old) (L.store lane.old)) }
    ensures back { IsBack run.new result }
    ensures less { work_of run.new < work_of run.old }
    ensures serves { Serves J.facts run.old run.new
        (lane_now (L.runs lane.old) (L.faults lane.old) (L.world lane.old) (L.store lane.old))
        (lane_now (L.runs lane.new) (L.faults lane.new) (L.world lane.new) (L.store lane.new)) }
{
    let job = match job_of(run, rules, &ticket) {
        Ok(job) => job,
        Err(stop) => {
            lost(run, ticket, stop);
            return None;
        }
    };
    let next = run.begin(ticket, &job);
    falls(run);
    match next {
        Next::Run { ticket } => run_job(run, lane, rules, ticket, &job),
        Next::Look { ticket, report } => look(run, lane, rules, ticket, &job, report),
        Next::Over => None,
    }
}

// The job of a task's attempt.
//
// Errors: why the attempt has none, which is the stop of its run.
fn job_of<L: Lane, K: Keeper, J: Fixed, R: Rules>(
    run: &RunState<L, K, J>,
    rules: &R,
    ticket: &Ticket,
) -> Result<Job, Stop>
    requires rules { R.meaning rules.now ≡ J.facts.rules }
    requires keeps { R.keeps rules.now }
    requires ticket { HasTask run.now ticket.now }
    ensures { MatchResult result (IsJobOf J.facts.rules (attempt_by ticket.now))
        (IsJobless J.facts.rules run.now ticket.now) }
{
    few_attempts(run, ticket);
    match rules.job(
        run.alloc(),
        ticket.node(),
        ticket.inputs(),
        ticket.n(),
        ticket.attempt(),
    ) {
        Ok(job) => {
            let _parts = job.parts();
            Ok(job)
        }
        Err(refusal) => Err(stop_of(ticket, refusal)),
    }
}

// The stop of a ticket whose attempt has no job: the task's fault, or want of memory.
fn stop_of(ticket: &Ticket, refusal: TaskRefusal) -> Stop
    ensures { IsStopOf ticket.now refusal result }
{
    let TaskRefusal::Fault(fault) = refusal else {
        return Stop::Mem;
    };
    let Ok(inputs) = ticket.inputs().copy() else {
        return Stop::Mem;
    };
    Stop::Task {
        node: ticket.node(),
        inputs,
        n: ticket.n(),
        fault,
    }
}

// Runs the job of an attempt that is started, and ends the attempt.
fn run_job<L: Lane, K: Keeper, J: Fixed, R: Rules>(
    run: &mut RunState<L, K, J>,
    lane: &mut L,
    rules: &R,
    ticket: Ticket,
    job: &Job,
) -> Option<Ticket>
    requires rules { R.meaning rules.now ≡ J.facts.rules }
    requires keeps { R.keeps rules.now }
    requires ticket { HasTask run.old ticket }
    requires job { IsJobOf J.facts.rules (attempt_by ticket) job.now }
    requires lane { CanServe J.facts run.old
        (ran_once (lane_now (L.runs lane.old) (L.faults lane.old) (L.world lane.old) (L.store lane.old))) }
    ensures back { IsBack run.new result }
    ensures less { work_of run.new < work_of run.old }
    ensures serves { Serves J.facts run.old run.new
        (ran_once (lane_now (L.runs lane.old) (L.faults lane.old) (L.world lane.old) (L.store lane.old)))
        (lane_now (L.runs lane.new) (L.faults lane.new) (L.world lane.new) (L.store lane.new)) }
{
    match ran_by(run, lane, rules, &ticket, job) {
        Ok(ran) => {
            let back = run.finish(ticket, rules, job, ran);
            falls(run);
            back
        }
        Err(stop) => {
            lost(run, ticket, stop);
            None
        }
    }
}

// Looks for the files of the report that a record tells. If they are there the report is taken, and else the job is run.
fn look<L: Lane, K: Keeper, J: Fixed, R: Rules>(
    run: &mut RunState<L, K, J>,
    lane: &mut L,
    rules: &R,
    ticket: Ticket,
    job: &Job,
    report: Report,
) -> Option<Ticket>
    requires rules { R.meaning rules.now ≡ J.facts.rules }
    requires keeps { R.keeps rules.now }
    requires ticket { HasTask run.old ticket }
    requires job { IsJobOf J.facts.rules (attempt_by ticket) job.now }
    requires left { IsLeft J.facts job.now report }
    requires lane { CanServe J.facts run.old
        (lane_now (L.runs lane.old) (L.faults lane.old) (L.world lane.old) (L.store lane.old)) }
    ensures back { IsBack run.new result }
    ensures less { work_of run.new < work_of run.old }
    ensures serves { Serves J.facts run.old run.new
        (lane_now (L.runs lane.old) (L.faults lane.old) (L.world lane.old) (L.store lane.old))
        (lane_now (L.runs lane.new) (L.faults lane.new) (L.world lane.new) (L.store lane.new)) }
{
    let found = match look_for(run, lane, &report) {
        Ok(found) => found,
        Err(stop) => {
            lost(run, ticket, stop);
            return None;
        }
    };
    match found {
        Look::There(seen) => reuse(run, rules, ticket, job, report, seen),
        Look::Gone { name } => start_anew(run, lane, rules, ticket, job, name),
    }
}

// Takes the report that an earlier run left of the job, whose files were found.
fn reuse<L: Lane, K: Keeper, J: Fixed, R: Rules>(
    run: &mut RunState<L, K, J>,
    rules: &R,
    ticket: Ticket,
    job: &Job,
    report: Report,
    seen: L::Seen,
) -> Option<Ticket>
    requires rules { R.meaning rules.now ≡ J.facts.rules }
    requires keeps { R.keeps rules.now }
    requires ticket { HasTask run.old ticket }
    requires job { IsJobOf J.facts.rules (attempt_by ticket) job.now }
    requires left { IsLeft J.facts job.now report }
    requires seen { L.Seen.genuine seen }
    requires told { L.Seen.told seen ≡ report }
    ensures back { IsBack run.new result }
    ensures goes { GoesAlone run.old run.new }
{
    let Ok(outs) = outs_of(run.alloc(), rules, &ticket, &report) else {
        lost(run, ticket, Stop::Mem);
        return None;
    };
    let back = run.reuse(ticket, rules, job, seen, report, outs);
    falls(run);
    back
}

// Starts an attempt whose record has a file of this name that is gone, and runs its job.
fn start_anew<L: Lane, K: Keeper, J: Fixed, R: Rules>(
    run: &mut RunState<L, K, J>,
    lane: &mut L,
    rules: &R,
    ticket: Ticket,
    job: &Job,
    name: Txt,
) -> Option<Ticket>
    requires rules { R.meaning rules.now ≡ J.facts.rules }
    requires keeps { R.keeps rules.now }
    requires ticket { HasTask run.old ticket }
    requires job { IsJobOf J.facts.rules (attempt_by ticket) job.now }
    requires cause { IsCaused J.facts (told_in (writes_by J.facts.rules) (plain_of run.old) (events_of run.old)) job.now (cause.Gone name) }
    requires lane { CanServe J.facts run.old
        (lane_now (L.runs lane.old) (L.faults lane.old) (L.world lane.old) (L.store lane.old)) }
    ensures back { IsBack run.new result }
    ensures less { work_of run.new < work_of run.old }
    ensures serves { Serves J.facts run.old run.new
        (lane_now (L.runs lane.old) (L.faults lane.old) (L.world lane.old) (L.store lane.old))
        (lane_now (L.runs lane.new) (L.faults lane.new) (L.world lane.new) (L.store lane.new)) }
{
    let started = run.start(ticket, job, Cause::Gone { name });
    falls(run);
    let Some(ticket) = started else {
        return None;
    };
    run_job(run, lane, rules, ticket, job)
}

/// Gives the one ticket in flight up.
pub(crate) fn lost<L: Lane, K: Keeper, J: Fixed>(
    run: &mut RunState<L, K, J>,
    ticket: Ticket,
    cause: Stop,
)
    requires ticket { IsAlone run.old ticket }
    requires cause { MayLose J.facts.rules run.old ticket cause }
    ensures idle { IsIdle run.new }
    ensures event { run.new ≡ grown run.old (e.Abort (number_of ticket) (Some cause)) }
    ensures less { work_of run.new < work_of run.old }
{
    run.give_up(ticket, Some(cause));
    falls(run);
}
