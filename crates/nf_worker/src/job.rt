//! `job_of`: the job of a task's attempt.

ghost use Rattle.std.specs.Prelude.{◌≡◌, MatchResult};
ghost use Rattle.nf_core.specs.Told.{attempt_by};
ghost use Rattle.nf_locked.specs.Locked.{IsLoss, IsTaskOf};
ghost use Rattle.nf_locked.specs.Serial.{IsStopOf};
ghost use Rattle.nf_stored.specs.Attempts.{IsJobOf};

use nf_core::Fixed;
use nf_flight::Ticket;
use nf_job::{Job, TaskRefusal};
use nf_machine::Stop;
use nf_stored::Rules;
use std::alloc::Global;

/// The job of a task's attempt (own), made anew for each attempt.
///
/// # Errors
///
/// Why the attempt has none, which is the stop of its run: the fault of the task, or want of memory.
pub fn job_of<J: Fixed, R: Rules>(alloc: Global, rules: &R, ticket: &Ticket) -> Result<Job, Stop>
    requires rules { R.meaning rules.now ≡ J.facts.rules }
    requires keeps { R.keeps rules.now }
    requires task { IsTaskOf J.facts ticket.now }
    ensures { MatchResult result (IsJobOf J.facts.rules (attempt_by ticket.now)) (IsLoss J.facts ticket.now) }
{
    match rules.job(
        alloc,
        ticket.node(),
        ticket.inputs(),
        ticket.n(),
        ticket.attempt(),
    ) {
        Ok(job) => {
            let _parts = job.parts();
            Ok(job)
        }
        Err(refusal) => Err(stop_of(ticket, refusal)),
    }
}

// The stop of a ticket whose attempt has no job: the task's fault, or want of memory.
fn stop_of(ticket: &Ticket, refusal: TaskRefusal) -> Stop
    ensures { IsStopOf ticket.now refusal result }
{
    let TaskRefusal::Fault(fault) = refusal else {
        return Stop::Mem;
    };
    let Ok(inputs) = ticket.inputs().copy() else {
        return Stop::Mem;
    };
    Stop::Task {
        node: ticket.node(),
        inputs,
        n: ticket.n(),
        fault,
    }
}
