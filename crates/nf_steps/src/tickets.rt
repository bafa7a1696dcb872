//! What becomes of a ticket.

ghost use Rattle.std.specs.Prelude.{◌≡◌};
ghost use Rattle.nf_job.specs.declared.fault.TaskFault.{TaskFault};
ghost use Rattle.nf_machine.specs.declared.event.Event.TheVariants as e;
ghost use Rattle.nf_flight.specs.Ticket.{number_of};
ghost use Rattle.nf_flow.specs.Seen.{grown};
ghost use Rattle.nf_flow.specs.Questions.{IsFlying};
ghost use Rattle.nf_steps.specs.Run.{IsRun};
ghost use Rattle.nf_steps.specs.Steps.{Ends, HasJob, IsAbout, IsRefused, Starts, up_cause};

use crate::asking::{answer, judge, outcome};
use crate::leaves::{can_end, can_go_on, can_start, give_back};
use nf_flight::Ticket;
use nf_flow::Flow;
use nf_job::{Report, TaskFault, TaskRefusal};
use nf_machine::{Cause, Stop};
use nf_stored::Rules;
use std::alloc::Global;

/// Gives a ticket up: without a cause if the run is stopped, else for want of memory. Takes no memory.
pub fn give_up<R: Rules>(flow: &mut Flow, rules: &R, ticket: Ticket)
    requires run { IsRun (R.meaning rules.now) flow.old }
    requires ticket { IsFlying flow.old ticket }
    ensures run { IsRun (R.meaning rules.now) flow.new }
    ensures up { flow.new ≡ grown flow.old (e.Abort (number_of ticket) (up_cause flow.old)) }
{
    let _ = rules;
    give_back(flow, ticket);
}

/// Gives a task's ticket up for the fault that its attempt has in place of a job.
fn refuse<R: Rules>(flow: &mut Flow, rules: &R, ticket: Ticket, fault: TaskFault)
    requires run { IsRun (R.meaning rules.now) flow.old }
    requires ticket { IsFlying flow.old ticket }
    requires fault { IsRefused (R.meaning rules.now) flow.old ticket fault }
    ensures run { IsRun (R.meaning rules.now) flow.new }
    ensures about { IsAbout flow.old (number_of ticket) flow.new }
{
    let Ok(inputs) = ticket.inputs().copy() else {
        give_up(flow, rules, ticket);
        return;
    };
    let cause = Stop::Task {
        node: ticket.node(),
        inputs,
        n: ticket.n(),
        fault,
    };
    flow.abort(ticket, Some(cause));
}

/// Enters the answer of an operator's closure to the ticket's item. Where the run is stopped, the ticket isn't an operator's or there is no
/// memory, the ticket is given up.
pub fn give<R: Rules>(alloc: Global, flow: &mut Flow, rules: &R, ticket: Ticket)
    requires run { IsRun (R.meaning rules.now) flow.old }
    requires keeps { R.keeps rules.now }
    requires ticket { IsFlying flow.old ticket }
    ensures run { IsRun (R.meaning rules.now) flow.new }
    ensures about { IsAbout flow.old (number_of ticket) flow.new }
{
    nf_graph::laws::well_made();
    let Some(answer) = answer(alloc, flow, rules, &ticket) else {
        give_up(flow, rules, ticket);
        return;
    };
    if !can_go_on(flow) {
        give_up(flow, rules, ticket);
        return;
    }
    let _ = flow.give(ticket, rules, answer);
}

/// Starts the attempt of a task's ticket. If the attempt has a fault in place of a job, the ticket is given up for that fault; where the run is
/// stopped, the ticket isn't a task's, its attempt is started already or there is no memory, it is given up too.
pub fn start<R: Rules>(
    alloc: Global,
    flow: &mut Flow,
    rules: &R,
    ticket: Ticket,
    cause: Cause,
) -> Option<Ticket>
    requires run { IsRun (R.meaning rules.now) flow.old }
    requires keeps { R.keeps rules.now }
    requires ticket { IsFlying flow.old ticket }
    ensures run { IsRun (R.meaning rules.now) flow.new }
    ensures starts { Starts flow.old ticket cause result flow.new }
{
    match judge(alloc, flow, rules, &ticket) {
        Ok(()) => start_judged(flow, rules, ticket, cause),
        Err(TaskRefusal::Fault(fault)) => {
            refuse(flow, rules, ticket, fault);
            None
        }
        Err(TaskRefusal::Mem) => {
            give_up(flow, rules, ticket);
            None
        }
    }
}

/// Starts the attempt of a task's ticket that has a job.
fn start_judged<R: Rules>(
    flow: &mut Flow,
    rules: &R,
    ticket: Ticket,
    cause: Cause,
) -> Option<Ticket>
    requires run { IsRun (R.meaning rules.now) flow.old }
    requires ticket { IsFlying flow.old ticket }
    requires job { HasJob (R.meaning rules.now) flow.old ticket }
    ensures run { IsRun (R.meaning rules.now) flow.new }
    ensures starts { Starts flow.old ticket cause result flow.new }
{
    if !can_start(flow, &ticket) {
        give_up(flow, rules, ticket);
        return None;
    }
    flow.start(&ticket, cause);
    Some(ticket)
}

/// Takes a report in place of a start of a task's ticket. The ticket comes back if the task is tried again. Where the attempt has no job, the
/// run is stopped, the ticket isn't a task's, its attempt is started already or there is no memory, the ticket is given up.
pub fn reuse<R: Rules>(
    alloc: Global,
    flow: &mut Flow,
    rules: &R,
    ticket: Ticket,
    report: Report,
) -> Option<Ticket>
    requires run { IsRun (R.meaning rules.now) flow.old }
    requires keeps { R.keeps rules.now }
    requires ticket { IsFlying flow.old ticket }
    ensures run { IsRun (R.meaning rules.now) flow.new }
    ensures ends { Ends flow.old ticket result flow.new }
{
    let Ok(()) = judge(alloc, flow, rules, &ticket) else {
        give_up(flow, rules, ticket);
        return None;
    };
    let Some(outs) = outcome(alloc, flow, rules, &ticket, &report) else {
        give_up(flow, rules, ticket);
        return None;
    };
    if !can_start(flow, &ticket) {
        give_up(flow, rules, ticket);
        return None;
    }
    let Ok(back) = flow.reuse(ticket, rules, report, outs) else {
        return None;
    };
    back
}

/// Ends the attempt of a task's ticket with its report. The ticket comes back if the task is tried again. Where the ticket isn't a task's, its
/// attempt isn't started or there is no memory, the ticket is given up.
pub fn finish<R: Rules>(
    alloc: Global,
    flow: &mut Flow,
    rules: &R,
    ticket: Ticket,
    report: Report,
) -> Option<Ticket>
    requires run { IsRun (R.meaning rules.now) flow.old }
    requires keeps { R.keeps rules.now }
    requires ticket { IsFlying flow.old ticket }
    ensures run { IsRun (R.meaning rules.now) flow.new }
    ensures ends { Ends flow.old ticket result flow.new }
{
    let Some(outs) = outcome(alloc, flow, rules, &ticket, &report) else {
        give_up(flow, rules, ticket);
        return None;
    };
    if !can_end(flow, &ticket) {
        give_up(flow, rules, ticket);
        return None;
    }
    let Ok(back) = flow.finish(ticket, rules, report, outs) else {
        return None;
    };
    back
}
