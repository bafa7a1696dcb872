//! What can be asked of a run.

ghost use Rattle.std.specs.Prelude.{◌≡◌, ◌↔◌, true, length, is_some, option_map, IfOk};
ghost use Rattle.std.specs.Option.{option_copied};
ghost use Rattle.nf_machine.specs.Event.{stop_of};
ghost use Rattle.nf_machine.specs.History.{ended_well, is_over};

use crate::flow::Flow;
use nf_flight::Ticket;
use nf_graph::Graph;
use nf_machine::{Event, Move, Stop};
use nf_value::{Mem, Vals};

impl Flow {
    ghost use Rattle.nf_flow.specs.Seen.{plain_of, state_of};
    ghost use Rattle.nf_nodes.specs.Ready.{IsLegalMove, IsReady, IsReadyAt};
    ghost use Rattle.nf_flow.specs.Questions.{IsFlying, IsStarted, inputs_in};
    ghost use Rattle.nf_flow.specs.Stopped.{IsNamedIfAny};

    /// A legal Pass if there is one, else a legal Take, else a legal Close. Takes no memory.
    pub fn ready(&self) -> Option<Move>
        ensures { IsReady self.now.graph (state_of self.now) result }
    {
        if self.is_stopped() {
            return None;
        }
        self.parts.nodes.ready(self.graph.nodes())
    }

    /// A legal Take of a node, if there is one. Takes no memory.
    pub fn ready_at(&self, node: u32) -> Option<Move>
        ensures { IsReadyAt self.now.graph (state_of self.now) node result }
    {
        let nodes = self.graph.nodes();
        if self.is_stopped() || node as usize >= nodes.len() {
            return None;
        }
        self.parts.nodes.ready_at(nodes, node)
    }

    /// Whether a move is legal. Takes no memory.
    pub fn is_legal(&self, step: Move) -> bool
        ensures { (result ≡ true) ↔ IsLegalMove self.now.graph (state_of self.now) step }
    {
        if self.is_stopped() {
            return false;
        }
        self.parts.nodes.is_legal(self.graph.nodes(), step)
    }

    /// Whether the ticket's attempt is started.
    pub fn is_started(&self, ticket: &Ticket) -> bool
        requires { IsFlying self.now ticket.now }
        ensures { IsStarted self.now ticket.now result }
    {
        self.parts.flights.is_started(ticket.number())
    }

    /// Whether the run is over: all nodes are closed, or it is stopped and nothing is in flight.
    pub fn is_over(&self) -> bool
        ensures { result ≡ is_over (plain_of self.now) (state_of self.now) }
    {
        self.parts.open_nodes == 0 || (self.is_stopped() && self.in_flight() == 0)
    }

    /// Whether all nodes are closed and the run isn't stopped.
    pub fn ended_well(&self) -> bool
        ensures { result ≡ ended_well (plain_of self.now) (state_of self.now) }
    {
        self.parts.open_nodes == 0 && !self.is_stopped()
    }

    /// How many takes are in flight.
    pub fn in_flight(&self) -> usize
        ensures { result ≡ length (state_of self.now).tickets }
    {
        self.parts.flights.in_flight()
    }

    /// Whether the run is stopped.
    pub fn is_stopped(&self) -> bool
        ensures { result ≡ is_some (state_of self.now).stop }
    {
        self.log.stop.is_stopped()
    }

    /// Why the run is stopped, if it is. An operator's want of memory is `Stop::Mem`, never `Stop::Op`.
    pub fn stop(&self) -> Option<&Stop>
        ensures stop { option_map stop_of (option_copied result) ≡ (state_of self.now).stop }
        ensures named { IsNamedIfAny (option_copied result) }
    {
        self.log.stop.stop(self.log.history.as_slice())
    }

    /// The inputs of the process's Take with the ticket of this number, also after that ticket left; nothing if there is no such Take.
    ///
    /// # Errors
    ///
    /// `Mem` if there is no memory for a copy.
    pub fn inputs_of(&self, ticket: u32) -> Result<Option<Vals>, Mem>
        ensures { IfOk result (λ o. o ≡ inputs_in self.now ticket) }
    {
        copy_inputs(self.log.inputs.of(ticket))
    }

    /// The events so far, in their order.
    pub fn history(&self) -> &[Event]
        ensures { result.now ≡ self.now.history }
    {
        self.log.history.as_slice()
    }

    /// The graph.
    pub fn graph(&self) -> &Graph
        ensures { result.now ≡ self.now.graph }
    {
        &self.graph
    }
}

/// A copy of the inputs.
fn copy_inputs(inputs: Option<&Vals>) -> Result<Option<Vals>, Mem>
    ensures { IfOk result (λ o. o ≡ option_copied inputs.entry) }
{
    match inputs {
        None => Ok(None),
        Some(inputs) => Ok(Some(inputs.copy()?)),
    }
}
