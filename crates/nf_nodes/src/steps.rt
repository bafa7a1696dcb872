//! What steps do to the nodes of a run.

ghost use Rattle.std.specs.Prelude.{◌≡◌, length, IfOk, OnOk};
ghost use Rattle.nf_value.specs.View.{plain_of};
ghost use Rattle.nf_graph.specs.WellMade.{node_in};
ghost use Rattle.nf_machine.specs.State.{State};
ghost use Rattle.nf_spot.specs.Spot.{IsTaken};
ghost use Rattle.nf_flight.specs.Flights.{nodes_of};
ghost use Rattle.nf_wiring.specs.Places.{place_in};

use crate::nodes::Nodes;
use nf_flight::Flights;
use nf_graph::Node;
use nf_spot::Taken;
use nf_value::{Mem, Value};
use std::alloc::Global;

impl Nodes {
    ghost use Rattle.nf_nodes.specs.Flying.{AreFlying};
    ghost use Rattle.nf_nodes.specs.Nodes.{AreNodes};
    ghost use Rattle.nf_nodes.specs.Steps.{CanReceive, CanTakeThere, MayTake, received, taken};

    /// An item passes to the port of a number, and waits there.
    ///
    /// # Errors
    ///
    /// `Mem` if there is no memory for it. The nodes then take no further call.
    pub fn receive(
        &mut self,
        nodes: &[Node],
        flights: &Flights,
        number: u32,
        item: Value,
    ) -> Result<(), Mem>
        requires may { CanReceive nodes.now self.old number }
        requires flights { nodes_of flights.now ≡ length nodes.now }
        ensures { (s : State) → AreNodes nodes.now s self.old → AreFlying nodes.now s flights.now
            → OnOk result (AreNodes nodes.now (received s (place_in nodes.now number) (plain_of item)) self.new) }
    {
        nf_wiring::laws::numbers();
        let place = self.wiring.place(number);
        self.states[place.node as usize].receive(place.port, item)?;
        self.note_port(nodes, number);
        self.note_node(nodes, flights, place.node);
        Ok(())
    }

    /// A node takes the item at a place of a port, or the inputs of an instance of its process. Gives what it took.
    ///
    /// # Errors
    ///
    /// `Mem` if there is no memory for it. The nodes then take no further call.
    pub fn take(
        &mut self,
        alloc: Global,
        nodes: &[Node],
        node: u32,
        port: u32,
        place: u32,
    ) -> Result<Taken, Mem>
        requires { CanTakeThere nodes.now self.old node port place }
        ensures taken { (s : State) → AreNodes nodes.now s self.old → MayTake nodes.now s node port place
            → IfOk result (IsTaken (node_in nodes.now node) (s.spots node) port place) }
        ensures after { (s : State) → AreNodes nodes.now s self.old → MayTake nodes.now s node port place
            → OnOk result (AreNodes nodes.now (taken nodes.now s node port place) self.new) }
    {
        nf_spot::laws::rooms();
        let at = node as usize;
        let taken = self.states[at].take(alloc, &nodes[at], port, place)?;
        let can_take = self.can_take(nodes, node);
        self.index.set_node(node, can_take, false);
        Ok(taken)
    }
}
