//! The steps that may come next.

ghost use Rattle.nf_flow.specs.Questions.{IsFlying};
ghost use Rattle.cases_schedules.specs.Held.{IsSound};
ghost use Rattle.cases_schedules.specs.Table.{table_rules};

use crate::cases::Case;
use crate::items::small;
use crate::machine::{Choice, Machine};
use anyhow::{Context, Result, bail};
use nf_flight::Ticket;
use nf_flow::Flow;
use nf_graph::Node;
use nf_machine::Move;
use std::alloc::Global;

/// The steps that may come next, as the flow tells them: none where the run is over.
pub(crate) fn choices(alloc: Global, case: &Case, machine: &Machine) -> Result<Vec<Choice>>
    requires { IsSound (table_rules case.now.rules) machine.now }
{
    let mut found = Vec::new(alloc);
    add_moves(&machine.flow, &mut found)?;
    if !is_ready(&machine.flow, &found) {
        bail!("another move is ready");
    }
    for place in 0..machine.tickets.len() {
        if let Some(ticket) = machine.ticket(place) {
            add_next(case, &machine.flow, place, ticket, &mut found)?;
        }
    }
    Ok(found)
}

/// Whether the flow is ready for one of these moves, or for none where there is none.
fn is_ready(flow: &Flow, moves: &[Choice]) -> bool {
    match flow.ready() {
        Some(step) => moves.iter().any(|choice| *choice == Choice::Move(step)),
        None => moves.is_empty(),
    }
}

/// Adds the Passes, and each node's Takes and Close.
fn add_moves(flow: &Flow, found: &mut Vec<Choice>) -> Result<()> {
    let nodes = flow.graph().nodes();
    let mut ports = 0u32;
    for node in nodes {
        let count = small(node.ports.items().len())?;
        ports = ports.checked_add(count).context("too many ports")?;
    }
    for port in 0..ports {
        add_legal(flow, Move::Pass { port }, found)?;
    }
    for (place, node) in nodes.iter().enumerate() {
        let place = small(place)?;
        add_takes(flow, place, node, found)?;
        add_legal(flow, Move::Close { node: place }, found)?;
    }
    Ok(())
}

/// Adds the Takes of a node. One without ports takes at port 0.
fn add_takes(flow: &Flow, node: u32, told: &Node, found: &mut Vec<Choice>) -> Result<()> {
    let ports = small(told.ports.items().len())?;
    for port in 0..ports.max(1) {
        for place in 0..u32::MAX {
            if !add_legal(flow, Move::Take { node, port, place }, found)? {
                break;
            }
        }
    }
    Ok(())
}

/// Adds a move if it is legal.
fn add_legal(flow: &Flow, step: Move, found: &mut Vec<Choice>) -> Result<bool> {
    let is_legal = flow.is_legal(step);
    if is_legal {
        found.push(Choice::Move(step))?;
    }
    Ok(is_legal)
}

/// Adds what may come next of a ticket. In a run that is stopped a started one may still come back.
fn add_next(
    case: &Case,
    flow: &Flow,
    place: usize,
    ticket: &Ticket,
    found: &mut Vec<Choice>,
) -> Result<()>
    requires { IsFlying flow.now ticket.now }
{
    let is_started = flow.is_started(ticket);
    if flow.is_stopped() {
        found.push(Choice::GiveUp(place))?;
    }
    if !nf_steps::is_task(flow, ticket) {
        if !flow.is_stopped() {
            found.push(Choice::Give(place))?;
        }
    } else if is_started {
        found.push(Choice::Finish(place))?;
    } else if !flow.is_stopped() {
        found.push(Choice::Start(place))?;
        if case.is_resumed && case.rules.has_job(ticket) {
            found.push(Choice::Reuse(place))?;
        }
    }
    Ok(())
}
