//! Each call of a run once, over any lane and keeper.

ghost use Rattle.std.specs.Prelude.{◌≡◌, ◌<◌, ◌≤◌, ◌+◌, ◌^◌, IfOk, IfSome, false};
ghost use Rattle.nf_flight.specs.Ticket.{node_of};
ghost use Rattle.nf_flow.specs.Questions.{IsFlying};
ghost use Rattle.nf_stored.specs.Attempts.{IsJobOf};
ghost use Rattle.nf_core.specs.Opening.{IsLane};
ghost use Rattle.nf_core.specs.Told.{attempt_by};
ghost use Rattle.tests_core.specs.Opened.{IsTried};
ghost use Rattle.tests_core.specs.Tried.{tried_rules};

use crate::tried::Tried;
use nf_core::laws::started_stays;
use nf_core::{Fixed, Next, Ran, RunState, outs_of};
use nf_flight::Ticket;
use nf_job::Job;
use nf_keeper::Keeper;
use nf_lane::{Lane, Look};
use nf_machine::{Cause, Move, Stop};
use nf_stored::Rules;
use nf_value::{Mem, Value};
use std::alloc::Global;

/// The next Pass or Close.
pub(crate) fn go_on<L: Lane, K: Keeper, J: Fixed>(run: &mut RunState<L, K, J>) -> Result<(), Mem> {
    match run.flow().ready() {
        Some(Move::Pass { port }) => run.pass(port),
        Some(Move::Close { node }) => run.close(node),
        _ => Err(Mem),
    }
}

/// A Take of this node.
pub(crate) fn take_at<L: Lane, K: Keeper, J: Fixed>(
    run: &mut RunState<L, K, J>,
    node: u32,
) -> Result<Ticket, Mem>
    ensures { IfOk result (IsFlying run.new) }
{
    match run.flow().ready_at(node) {
        Some(Move::Take { node, port, place }) => run.take(node, port, place),
        _ => Err(Mem),
    }
}

/// The answer null to the operator's item.
pub(crate) fn answer<L: Lane, K: Keeper, J: Fixed>(
    run: &mut RunState<L, K, J>,
    ticket: Ticket,
) -> Result<(), Mem>
    requires tried { IsTried J.facts }
    requires ticket { IsFlying run.old ticket }
{
    run.holds();
    if ticket.node() != 1 {
        return Err(Mem);
    }
    run.give(ticket, &Tried, Ok(Value::Null));
    Ok(())
}

/// The job of the task's attempt.
fn job_of(alloc: Global, ticket: &Ticket) -> Result<Job, Mem>
    ensures job { IfOk result (IsJobOf tried_rules (attempt_by ticket.now)) }
    ensures node { IfOk result (λ _. node_of ticket.now ≡ 2) }
{
    let attempt = ticket.attempt();
    if ticket.node() != 2 || attempt == 0 || attempt > 101 {
        return Err(Mem);
    }
    let Ok(job) = Tried.job(alloc, ticket.node(), ticket.inputs(), ticket.n(), attempt) else {
        return Err(Mem);
    };
    let _parts = job.parts();
    Ok(job)
}

/// An attempt that starts, runs on the lane and finishes.
pub(crate) fn run_once<L: Lane, K: Keeper, J: Fixed>(
    run: &mut RunState<L, K, J>,
    lane: &mut L,
    ticket: Ticket,
) -> Result<Option<Ticket>, Mem>
    requires tried { IsTried J.facts }
    requires ticket { IsFlying run.old ticket }
    requires lane { IsLane J.facts (L.world lane.old) (L.store lane.old) }
    requires runs { L.runs lane.old < 2 ^ 63 }
    ensures flying { IfOk result (λ o. IfSome o (IsFlying run.new)) }
    ensures lane { IsLane J.facts (L.world lane.new) (L.store lane.new) }
    ensures runs { L.runs lane.new ≤ L.runs lane.old + 1 }
{
    run.holds();
    started_stays();
    let job = job_of(run.alloc(), &ticket)?;
    let Next::Run { ticket } = run.begin(ticket, &job) else {
        return Err(Mem);
    };
    let Ok(done) = lane.run(run.alloc(), &job) else {
        return Err(Mem);
    };
    let ran = Ran::of(run.alloc(), &Tried, &ticket, &job, done)?;
    Ok(run.finish(ticket, &Tried, &job, ran))
}

/// An attempt whose record is found, and taken in place of a run.
pub(crate) fn reuse_once<L: Lane, K: Keeper, J: Fixed>(
    run: &mut RunState<L, K, J>,
    lane: &mut L,
    ticket: Ticket,
) -> Result<Option<Ticket>, Mem>
    requires tried { IsTried J.facts }
    requires ticket { IsFlying run.old ticket }
    ensures { IfOk result (λ o. IfSome o (IsFlying run.new)) }
{
    run.holds();
    let job = job_of(run.alloc(), &ticket)?;
    let Next::Look { ticket, report } = run.begin(ticket, &job) else {
        return Err(Mem);
    };
    let Ok(Look::There(seen)) = lane.look(run.alloc(), &report) else {
        return Err(Mem);
    };
    let outs = outs_of(run.alloc(), &Tried, &ticket, &report)?;
    Ok(run.reuse(ticket, &Tried, &job, seen, report, outs))
}

/// An attempt that starts in a run that resumes no other.
pub(crate) fn start_once<L: Lane, K: Keeper, J: Fixed>(
    run: &mut RunState<L, K, J>,
    ticket: Ticket,
) -> Result<Ticket, Mem>
    requires tried { IsTried J.facts }
    requires fresh { J.facts.resumed ≡ false }
    requires ticket { IsFlying run.old ticket }
    ensures { IfOk result (IsFlying run.new) }
{
    run.holds();
    started_stays();
    let job = job_of(run.alloc(), &ticket)?;
    match run.start(ticket, &job, Cause::NotAsked) {
        Some(started) => Ok(started),
        None => Err(Mem),
    }
}

/// A ticket that is given up for want of memory.
pub(crate) fn lose<L: Lane, K: Keeper, J: Fixed>(run: &mut RunState<L, K, J>, ticket: Ticket)
    requires { IsFlying run.old ticket }
{
    run.give_up(ticket, Some(Stop::Mem));
}

/// A run that stops for want of memory, if it isn't stopped.
pub(crate) fn halt<L: Lane, K: Keeper, J: Fixed>(run: &mut RunState<L, K, J>) {
    if !run.flow().is_stopped() {
        run.halt_for_memory();
    }
}
