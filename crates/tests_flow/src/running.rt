//! Runs of two small graphs, an event at a time.

ghost use Rattle.std.specs.Prelude.{IfOk};
ghost use Rattle.nf_flow.specs.Questions.{IsFlying};
ghost use Rattle.nf_steps.specs.Echo.{echo_rules};
ghost use Rattle.nf_steps.specs.Run.{IsRun};

use crate::stepping::{tasked, viewed};
use nf_flight::Ticket;
use nf_flow::Flow;
use nf_job::{Captured, Found, Report};
use nf_machine::{Cause, Move, Stop};
use nf_steps::{Echo, begin, finish, give, give_up, go, halt, is_task, next_move, reuse, start};
use nf_value::Mem;
use std::alloc::Global;
use std::test::Fail;

/// The report of an attempt that printed no text.
fn failed(alloc: Global) -> Report {
    Report {
        exit: 1,
        captured: Captured::None,
        found: Found::of(Vec::new(alloc)),
    }
}

/// Makes the next move, which gives no ticket.
fn advance(flow: &mut Flow) -> Result<(), Mem>
    requires { IsRun echo_rules flow.old }
    ensures { IsRun echo_rules flow.new }
{
    let Some(step) = next_move(flow) else {
        return Err(Mem);
    };
    match go(flow, &Echo, step)? {
        Some(_) => Err(Mem),
        None => Ok(()),
    }
}

/// Makes the next move, and gives its ticket.
fn taken(flow: &mut Flow) -> Result<Ticket, Mem>
    requires { IsRun echo_rules flow.old }
    ensures run { IsRun echo_rules flow.new }
    ensures flying { IfOk result (IsFlying flow.new) }
{
    let Some(step) = next_move(flow) else {
        return Err(Mem);
    };
    match go(flow, &Echo, step)? {
        Some(ticket) => Ok(ticket),
        None => Err(Mem),
    }
}

#[test]
fn a_run_passes_an_item_through_a_view(rt: HostRuntime) -> Result<(), Fail> {
    let alloc = rt.alloc();
    let mut flow = begin(alloc, viewed(alloc)?, &Echo)?;
    assert_eq!(rt; flow.ready(), Some(Move::Pass { port: 0 }));
    advance(&mut flow)?;
    let ticket = taken(&mut flow)?;
    assert!(rt; !is_task(&flow, &ticket));
    give(alloc, &mut flow, &Echo, ticket);
    assert_eq!(rt; flow.ready(), Some(Move::Close { node: 1 }));
    advance(&mut flow)?;
    assert!(rt; flow.is_over());
    assert!(rt; flow.ended_well());
    assert_eq!(rt; flow.into_history().len(), 4);
    Ok(())
}

#[test]
fn a_run_tries_a_task_again(rt: HostRuntime) -> Result<(), Fail> {
    let alloc = rt.alloc();
    let mut flow = begin(alloc, tasked(alloc)?, &Echo)?;
    let again = tried(alloc, &mut flow)?;
    assert_eq!(rt; again.attempt(), 2);
    assert!(rt; reuse(alloc, &mut flow, &Echo, again, failed(alloc)).is_none());
    advance(&mut flow)?;
    assert!(rt; !flow.is_over());
    halt(&mut flow, &Echo);
    assert_eq!(rt; flow.history().len(), 6);
    Ok(())
}

/// The next ticket, once its first attempt has failed.
fn tried(alloc: Global, flow: &mut Flow) -> Result<Ticket, Mem>
    requires { IsRun echo_rules flow.old }
    ensures run { IsRun echo_rules flow.new }
    ensures flying { IfOk result (IsFlying flow.new) }
{
    let ticket = taken(flow)?;
    let ticket = started(alloc, flow, ticket)?;
    finished(alloc, flow, ticket)
}

/// Starts the ticket's attempt.
fn started(alloc: Global, flow: &mut Flow, ticket: Ticket) -> Result<Ticket, Mem>
    requires run { IsRun echo_rules flow.old }
    requires flying { IsFlying flow.old ticket }
    ensures run { IsRun echo_rules flow.new }
    ensures flying { IfOk result (IsFlying flow.new) }
{
    match start(alloc, flow, &Echo, ticket, Cause::NotAsked) {
        Some(ticket) => Ok(ticket),
        None => Err(Mem),
    }
}

/// Ends the ticket's attempt, which failed. The ticket comes back for the next one.
fn finished(alloc: Global, flow: &mut Flow, ticket: Ticket) -> Result<Ticket, Mem>
    requires run { IsRun echo_rules flow.old }
    requires flying { IsFlying flow.old ticket }
    ensures run { IsRun echo_rules flow.new }
    ensures flying { IfOk result (IsFlying flow.new) }
{
    match finish(alloc, flow, &Echo, ticket, failed(alloc)) {
        Some(again) => Ok(again),
        None => Err(Mem),
    }
}

#[test]
fn a_run_gives_a_task_up(rt: HostRuntime) -> Result<(), Fail> {
    let alloc = rt.alloc();
    let mut flow = begin(alloc, tasked(alloc)?, &Echo)?;
    let ticket = taken(&mut flow)?;
    assert_eq!(rt; flow.in_flight(), 1);
    assert!(rt; !flow.is_started(&ticket));
    give_up(&mut flow, &Echo, ticket);
    assert!(rt; flow.is_stopped());
    assert!(rt; matches!(flow.stop(), Some(Stop::Mem)));
    assert_eq!(rt; flow.in_flight(), 0);
    Ok(())
}

#[test]
fn a_run_is_asked(rt: HostRuntime) -> Result<(), Fail> {
    let alloc = rt.alloc();
    let mut flow = begin(alloc, tasked(alloc)?, &Echo)?;
    assert_eq!(rt; flow.graph().nodes().len(), 2);
    assert_eq!(rt; flow.ready_at(1), None);
    assert!(rt; !flow.is_stopped());
    let _ticket = taken(&mut flow)?;
    assert!(rt; flow.inputs_of(1)?.is_some());
    Ok(())
}
