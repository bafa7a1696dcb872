//! What a lane is asked of a task's attempt: a run of its job, or a look for the files of a report that an earlier run left.

ghost use Rattle.std.specs.Prelude.{◌≡◌, ◌<◌, ◌+◌, ◌^◌, MatchResult};
ghost use Rattle.nf_core.specs.Calls.{IsEnteredBy};
ghost use Rattle.nf_core.specs.Opening.{IsLane};
ghost use Rattle.nf_locked.specs.Serial.{IsLaneStop, IsLookOf, Later, lane_now, lane_stop};

use nf_core::{Fixed, Ran};
use nf_flight::Ticket;
use nf_job::{Job, Report};
use nf_lane::{Lane, LaneRefusal, Look};
use nf_machine::{Outside, Stop};
use nf_stored::Rules;
use nf_value::Mem;
use std::alloc::Global;

/// Runs the job of a ticket's started attempt, once, and says what its report amounts to (own).
///
/// # Errors
///
/// Why the attempt is lost: the lane failed and counted that, or there is no memory. The job was run then, too.
pub fn ran_by<L: Lane, J: Fixed, R: Rules>(
    alloc: Global,
    lane: &mut L,
    rules: &R,
    ticket: &Ticket,
    job: &Job,
) -> Result<Ran<L::Done>, Stop>
    requires rules { R.meaning rules.now ≡ J.facts.rules }
    requires keeps { R.keeps rules.now }
    requires told { IsLane J.facts (L.world lane.old) (L.store lane.old) }
    requires few { L.runs lane.old < 2 ^ 63 }
    ensures once { L.runs lane.new ≡ L.runs lane.old + 1 }
    ensures later { Later (lane_now (L.runs lane.old) (L.faults lane.old) (L.world lane.old) (L.store lane.old))
        (lane_now (L.runs lane.new) (L.faults lane.new) (L.world lane.new) (L.store lane.new)) }
    ensures ran { MatchResult result (IsEnteredBy J.facts
        (record { genuine = L.Done.genuine; job = L.Done.job; told = L.Done.told }) ticket.now job.now)
        (IsLaneStop (L.faults lane.old) (L.faults lane.new)) }
{
    let done = match lane.run(alloc, job) {
        Ok(done) => done,
        Err(refusal) => return Err(lane_stop(refusal)),
    };
    match Ran::of(alloc, rules, ticket, job, done) {
        Ok(ran) => Ok(ran),
        Err(Mem) => Err(Stop::Mem),
    }
}

/// Looks for the files of a report that an earlier run left (own). Nothing is run.
///
/// # Errors
///
/// Why the attempt is lost: the lane failed and counted that, or there is no memory.
pub fn look_for<L: Lane, J: Fixed>(
    alloc: Global,
    lane: &mut L,
    report: &Report,
) -> Result<Look<L::Seen>, Stop>
    requires { IsLane J.facts (L.world lane.old) (L.store lane.old) }
    ensures no_run { L.runs lane.new ≡ L.runs lane.old }
    ensures later { Later (lane_now (L.runs lane.old) (L.faults lane.old) (L.world lane.old) (L.store lane.old))
        (lane_now (L.runs lane.new) (L.faults lane.new) (L.world lane.new) (L.store lane.new)) }
    ensures look { MatchResult result (IsLookOf J.facts L.Seen.genuine L.Seen.told report.now)
        (IsLaneStop (L.faults lane.old) (L.faults lane.new)) }
{
    match lane.look(alloc, report) {
        Ok(look) => Ok(look),
        Err(refusal) => Err(lane_stop(refusal)),
    }
}

// The stop of a lane that refused.
fn lane_stop(refusal: LaneRefusal) -> Stop
    ensures { result ≡ lane_stop refusal }
{
    match refusal {
        LaneRefusal::Failed => Stop::Outside(Outside::Lane),
        LaneRefusal::Mem => Stop::Mem,
    }
}
