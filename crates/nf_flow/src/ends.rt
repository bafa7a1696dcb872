//! What Give, Finish, Reuse and Abort make of the state of a run.

ghost use Rattle.std.specs.Prelude.{◌≡◌, ◌<◌, ◌+◌, ◌^◌, None, Some, Ok, is_some, IfOk};
ghost use Rattle.std.specs.Option.{option_copied};
ghost use Rattle.nf_value.specs.View.{plain_of};
ghost use Rattle.nf_job.specs.declared.report.Report.{Report};
ghost use Rattle.nf_graph.specs.Rules.{fault_of, list_of};
ghost use Rattle.nf_graph.specs.WellMade.{plain_graph};
ghost use Rattle.nf_machine.specs.declared.stop.Stop.TheVariants as s;
ghost use Rattle.nf_machine.specs.Event.{finish, give};
ghost use Rattle.nf_machine.specs.State as machine;
ghost use Rattle.nf_machine.specs.Step.{ticket_at};
ghost use Rattle.nf_bounds.specs.Bounds.{IsBounded};
ghost use Rattle.nf_flight.specs.Ticket.{attempt_of, inputs_of, n_of, node_of, number_of};
ghost use Rattle.nf_flow.specs.Questions.{ComesBack, IsTicket, is_again};

use crate::parts::{Parts, named};
use nf_flight::Ticket;
use nf_graph::Node;
use nf_job::{Outputs, TaskFault};
use nf_machine::Stop;
use nf_value::{Mem, Value};

impl Parts {
    ghost use Rattle.nf_flow.specs.Parts.{Happens, IsItem, IsParts, StandsToEnd, StandsToGive, losing};

    /// An operator's take comes back: its item and the closure's answer are pushed, and what the operator emits for them is appended.
    /// Answers the stop if the operator fails.
    pub(crate) fn give(
        &mut self,
        nodes: &[Node],
        number: u32,
        node: u32,
        port: u32,
        item: Value,
        answer: Value,
    ) -> Result<Option<Stop>, Mem>
        requires { StandsToGive nodes.now self.old number node }
        ensures { (s : machine.State) (k : machine.Ticket) → IsParts nodes.now s self.old → IsBounded (plain_graph nodes.now) s
            → s.stop ≡ None → IsItem s number k node port (plain_of item)
            → Happens nodes.now s (give number (Ok (plain_of answer))) (losing number) result self.new }
    {
        self.flights.leave(number);
        let Err(fault) = self
            .nodes
            .give(nodes, &self.flights, node, port, item, answer)
        else {
            return Ok(None);
        };
        let fault = named(fault)?;
        Ok(Some(Stop::Op { node, fault }))
    }

    /// An attempt at a task comes back with its outputs. Its take stays in flight if the task is tried again. Answers the stop if the
    /// task failed and the run isn't stopped.
    pub(crate) fn end(
        &mut self,
        nodes: &[Node],
        ticket: &Ticket,
        outs: &Result<Outputs, TaskFault>,
        is_stopped: bool,
    ) -> Result<Option<Stop>, Mem>
        requires { StandsToEnd nodes.now self.old ticket.now is_stopped }
        ensures { (s : machine.State) (k : machine.Ticket) (report : Report) → IsParts nodes.now s self.old
            → IsBounded (plain_graph nodes.now) s → ticket_at (number_of ticket.now) s.tickets ≡ Some k → IsTicket ticket.now k
            → is_stopped ≡ is_some s.stop
            → Happens nodes.now s (finish (number_of ticket.now) report outs.now) (losing (number_of ticket.now)) result self.new }
    {
        nf_nodes::laws::tickets_change();
        let number = ticket.number();
        if is_tried_again(outs) {
            self.flights.again(number);
            return Ok(None);
        }
        self.flights.leave(number);
        if is_stopped {
            return Ok(None);
        }
        if let Some(fault) = fault_in(outs) {
            return Ok(Some(task_stop(ticket, fault)?));
        }
        let Ok(outputs) = outs else { unreachable!() };
        self.nodes
            .emit(nodes, &self.flights, ticket.node(), outputs)?;
        Ok(None)
    }
}

/// Whether the task is tried again.
fn is_tried_again(outs: &Result<Outputs, TaskFault>) -> bool
    ensures { result ≡ is_again outs.now }
{
    match outs {
        Ok(outputs) => is_another_try(outputs),
        Err(_) => false,
    }
}

fn is_another_try(outputs: &Outputs) -> bool
    ensures { result ≡ is_again (Ok outputs.now) }
{
    match outputs {
        Outputs::Emits(_) => false,
        Outputs::Ignored => false,
        Outputs::Failed(_) => false,
        Outputs::Again => true,
    }
}

/// The fault that ends the run.
fn fault_in(outs: &Result<Outputs, TaskFault>) -> Option<&TaskFault>
    ensures { list_of (option_copied result) ≡ fault_of outs.now }
{
    match outs {
        Ok(outputs) => failure(outputs),
        Err(fault) => Some(fault),
    }
}

fn failure(outputs: &Outputs) -> Option<&TaskFault>
    ensures { list_of (option_copied result) ≡ fault_of (Ok outputs.now) }
{
    match outputs {
        Outputs::Emits(_) => None,
        Outputs::Ignored => None,
        Outputs::Failed(fault) => Some(fault),
        Outputs::Again => None,
    }
}

/// The stop by the fault of the ticket's task.
fn task_stop(ticket: &Ticket, fault: &TaskFault) -> Result<Stop, Mem>
    ensures { IfOk result (λ stop. stop ≡ s.Task (node_of ticket.now) (inputs_of ticket.now) (n_of ticket.now) fault.now) }
{
    let inputs = ticket.inputs().copy()?;
    let fault = fault.copy()?;
    Ok(Stop::Task {
        node: ticket.node(),
        inputs,
        n: ticket.n(),
        fault,
    })
}

/// The ticket for the next attempt, if the task is tried again.
pub(crate) fn come_back(ticket: Ticket, outs: &Result<Outputs, TaskFault>) -> Option<Ticket>
    requires { attempt_of ticket + 1 < 2 ^ 32 }
    ensures { ComesBack ticket outs.now result }
{
    if !is_tried_again(outs) {
        return None;
    }
    Some(ticket.again())
}
