//! What each step does.

ghost use Rattle.std.specs.Prelude.{IfOk, OnOk};
ghost use Rattle.cases_schedules.specs.Held.{IsSound};
ghost use Rattle.cases_schedules.specs.Table.{table_rules};

use crate::cases::Case;
use crate::machine::{Choice, Machine};
use crate::outcomes::report_of;
use crate::tickets::{hold, put_back, take_out};
use anyhow::{Context, Result, bail};
use nf_flight::Ticket;
use nf_job::Report;
use nf_machine::{Cause, Move};
use nf_steps::begin;
use std::alloc::Global;

/// The run of a row before its first step.
pub(crate) fn opened(alloc: Global, case: &Case) -> Result<Machine>
    ensures { IfOk result (IsSound (table_rules case.now.rules)) }
{
    let graph = case.graph.graph()?;
    let flow = begin(alloc, graph, &case.rules)?;
    Ok(Machine {
        flow,
        tickets: Vec::new(alloc),
    })
}

/// Takes a step that may come next.
pub(crate) fn step(alloc: Global, case: &Case, machine: &mut Machine, choice: Choice) -> Result<()>
    requires { IsSound (table_rules case.now.rules) machine.old }
    ensures { OnOk result (IsSound (table_rules case.now.rules) machine.new) }
{
    match choice {
        Choice::Move(step) => go(case, machine, step),
        Choice::Give(place) => give(alloc, case, machine, place),
        Choice::Start(place) => start(alloc, case, machine, place),
        Choice::Reuse(place) => reuse(alloc, case, machine, place),
        Choice::Finish(place) => finish(alloc, case, machine, place),
        Choice::GiveUp(place) => give_up(case, machine, place),
    }
}

/// Refuses the memory for a step: the run is stopped for want of it, and the step's ticket is given up.
pub(crate) fn refuse(case: &Case, machine: &mut Machine, choice: Choice) -> Result<()>
    requires { IsSound (table_rules case.now.rules) machine.old }
    ensures { OnOk result (IsSound (table_rules case.now.rules) machine.new) }
{
    match choice {
        Choice::Move(_) => halt(case, machine),
        Choice::Give(place) => give_up(case, machine, place),
        Choice::Start(place) => give_up(case, machine, place),
        Choice::Reuse(place) => give_up(case, machine, place),
        Choice::Finish(place) => give_up(case, machine, place),
        Choice::GiveUp(place) => give_up(case, machine, place),
    }
}

fn halt(case: &Case, machine: &mut Machine) -> Result<()>
    requires { IsSound (table_rules case.now.rules) machine.old }
    ensures { OnOk result (IsSound (table_rules case.now.rules) machine.new) }
{
    nf_steps::halt(&mut machine.flow, &case.rules);
    Ok(())
}

/// A legal move. For want of memory the run is stopped.
fn go(case: &Case, machine: &mut Machine, step: Move) -> Result<()>
    requires { IsSound (table_rules case.now.rules) machine.old }
    ensures { OnOk result (IsSound (table_rules case.now.rules) machine.new) }
{
    if !machine.flow.is_legal(step) {
        bail!("no legal move");
    }
    let Ok(ticket) = nf_steps::go(&mut machine.flow, &case.rules, step) else {
        return Ok(());
    };
    match ticket {
        Some(ticket) => {
            hold(&mut machine.tickets, ticket)?;
            Ok(())
        }
        None => Ok(()),
    }
}

fn give(alloc: Global, case: &Case, machine: &mut Machine, place: usize) -> Result<()>
    requires { IsSound (table_rules case.now.rules) machine.old }
    ensures { OnOk result (IsSound (table_rules case.now.rules) machine.new) }
{
    let Some(ticket) = take_out(&mut machine.tickets, place) else {
        bail!("no such ticket");
    };
    nf_steps::give(alloc, &mut machine.flow, &case.rules, ticket);
    Ok(())
}

fn start(alloc: Global, case: &Case, machine: &mut Machine, place: usize) -> Result<()>
    requires { IsSound (table_rules case.now.rules) machine.old }
    ensures { OnOk result (IsSound (table_rules case.now.rules) machine.new) }
{
    let Some(ticket) = take_out(&mut machine.tickets, place) else {
        bail!("no such ticket");
    };
    let back = nf_steps::start(
        alloc,
        &mut machine.flow,
        &case.rules,
        ticket,
        Cause::NotAsked,
    );
    put_back(&mut machine.tickets, place, back);
    Ok(())
}

/// A record has the report that the attempt would have.
fn reuse(alloc: Global, case: &Case, machine: &mut Machine, place: usize) -> Result<()>
    requires { IsSound (table_rules case.now.rules) machine.old }
    ensures { OnOk result (IsSound (table_rules case.now.rules) machine.new) }
{
    let Some(ticket) = take_out(&mut machine.tickets, place) else {
        bail!("no such ticket");
    };
    let report = report_for(case, &ticket)?;
    let back = nf_steps::reuse(alloc, &mut machine.flow, &case.rules, ticket, report);
    put_back(&mut machine.tickets, place, back);
    Ok(())
}

fn finish(alloc: Global, case: &Case, machine: &mut Machine, place: usize) -> Result<()>
    requires { IsSound (table_rules case.now.rules) machine.old }
    ensures { OnOk result (IsSound (table_rules case.now.rules) machine.new) }
{
    let Some(ticket) = take_out(&mut machine.tickets, place) else {
        bail!("no such ticket");
    };
    let report = report_for(case, &ticket)?;
    let back = nf_steps::finish(alloc, &mut machine.flow, &case.rules, ticket, report);
    put_back(&mut machine.tickets, place, back);
    Ok(())
}

fn give_up(case: &Case, machine: &mut Machine, place: usize) -> Result<()>
    requires { IsSound (table_rules case.now.rules) machine.old }
    ensures { OnOk result (IsSound (table_rules case.now.rules) machine.new) }
{
    let Some(ticket) = take_out(&mut machine.tickets, place) else {
        bail!("no such ticket");
    };
    nf_steps::give_up(&mut machine.flow, &case.rules, ticket);
    Ok(())
}

/// The report of the ticket's attempt.
fn report_for(case: &Case, ticket: &Ticket) -> Result<Report> {
    let report = report_of(
        case.outcomes.as_slice(),
        ticket.node(),
        ticket.inputs(),
        ticket.n(),
        ticket.attempt(),
    );
    Ok(report.context("no report")?.copy()?)
}
