//! `Nodes`: the nodes of a run that isn't stopped.

ghost use Rattle.std.specs.Prelude.{◌≡◌, ◌<◌, ◌==◌, ◌&&◌, ◌↔◌, ℕ, List, Bool, true, not, length};
ghost use Rattle.nf_graph.specs.declared.node.Node.{Node};
ghost use Rattle.nf_graph.specs.WellMade.{node_in, plain_graph};
ghost use Rattle.nf_machine.specs.State.{State};
ghost use Rattle.nf_machine.specs.Legal.{CloseIsLegal};
ghost use Rattle.nf_wiring.specs.Places.{plain_place, port_there};
ghost use Rattle.nf_flight.specs.Flights.{nodes_of};
ghost use Rattle.nf_nodes.specs.Marks.{CanTake, all, fed, passed_there, producer_of, with_one};

use crate::index::Index;
use nf_flight::Flights;
use nf_graph::{Node, Port};
use nf_spot::NodeState;
use nf_wiring::{Place, Wiring};

/// The nodes of a run that isn't stopped (own): each node's part of the state, and the moves that are possible.
pub struct Nodes {
    pub(crate) states: Vec<NodeState>,
    pub(crate) closed: Vec<bool>,
    pub(crate) wiring: Wiring,
    pub(crate) index: Index,
}

impl Drop for Nodes {
    fn drop(self) {
        let Nodes {
            states: _,
            closed: _,
            wiring: _,
            index: _,
        } = self;
    }
}

impl Nodes {
    ghost use Rattle.nf_nodes.specs.Flying.{AreFlying};
    ghost use Rattle.nf_nodes.specs.Nodes.{HasNode, HasNumbered, HasPlace, KeepsStates, Marks, Shows};

    /// Marks the port of a number as the state has it.
    pub(crate) fn note_port(&mut self, nodes: &[Node], number: u32)
        requires { HasNumbered nodes.now self.old number }
        ensures marks { (s : State) (p q : ℕ → Bool) → Marks nodes.now s p q self.old → Marks nodes.now s (with_one number p) q self.new }
        ensures rest { KeepsStates nodes.now self.old self.new }
    {
        nf_wiring::laws::numbers();
        let place = self.wiring.place(number);
        let passed = self.passed(nodes, place);
        let emitted = self.fed(nodes, place);
        let is_closed = self.is_producer_closed(nodes, place);
        let stays_live = is_live(is_closed, passed, emitted);
        self.index
            .set_port(number, place, passed < emitted, stays_live);
    }

    /// How many items passed to a port.
    pub(crate) fn passed(&self, nodes: &[Node], place: Place) -> usize
        requires { HasPlace nodes.now self.now (plain_place place) }
        ensures { (s : State) → Shows nodes.now s self.now → result ≡ passed_there s (plain_place place) }
    {
        self.states[place.node as usize].passed(place.port)
    }

    /// How many items were emitted to a port.
    fn fed(&self, nodes: &[Node], place: Place) -> usize
        requires { HasPlace nodes.now self.now (plain_place place) }
        ensures { (s : State) → Shows nodes.now s self.now → result ≡ fed (plain_graph nodes.now) s (plain_place place) }
    {
        let port = port_at(nodes, place);
        self.states[port.from as usize].emitted(port.out)
    }

    /// Whether the node that a port reads is closed.
    fn is_producer_closed(&self, nodes: &[Node], place: Place) -> bool
        requires { HasPlace nodes.now self.now (plain_place place) }
        ensures { (s : State) → Shows nodes.now s self.now
            → result ≡ (s.spots (producer_of (plain_graph nodes.now) (plain_place place))).closed }
    {
        self.closed[port_at(nodes, place).from as usize]
    }

    /// Marks a node as the state has it.
    pub(crate) fn note_node(&mut self, nodes: &[Node], flights: &Flights, node: u32)
        requires node { HasNode nodes.now self.old node }
        requires flights { node < nodes_of flights.now }
        ensures marks { (s : State) (q : ℕ → Bool) → Marks nodes.now s all q self.old → AreFlying nodes.now s flights.now
            → Marks nodes.now s all (with_one node q) self.new }
        ensures rest { KeepsStates nodes.now self.old self.new }
    {
        let can_take = self.can_take(nodes, node);
        let can_close = self.can_close(nodes, flights, node);
        self.index.set_node(node, can_take, can_close);
    }

    /// Whether a node can take.
    pub(crate) fn can_take(&self, nodes: &[Node], node: u32) -> bool
        requires { HasNode nodes.now self.now node }
        ensures { (s : State) → Shows nodes.now s self.now → (result ≡ true) ↔ CanTake (plain_graph nodes.now) s node }
    {
        let at = node as usize;
        self.states[at].can_take(&nodes[at]).is_some()
    }

    /// Whether a node can close.
    fn can_close(&self, nodes: &[Node], flights: &Flights, node: u32) -> bool
        requires node { HasNode nodes.now self.now node }
        requires flights { node < nodes_of flights.now }
        ensures { (s : State) (q : ℕ → Bool) → Marks nodes.now s all q self.now → AreFlying nodes.now s flights.now
            → (result ≡ true) ↔ CloseIsLegal (plain_graph nodes.now) s node }
    {
        nf_wiring::laws::numbers();
        let at = node as usize;
        if self.closed[at] {
            return false;
        }
        if !self.index.is_ended(node) {
            return false;
        }
        if flights.of_node(node) != 0 {
            return false;
        }
        self.states[at].is_spent(&nodes[at])
    }
}

/// Whether an item may still pass to a port, by whether its producer is closed, how many items passed, and how many were emitted.
fn is_live(is_closed: bool, passed: usize, emitted: usize) -> bool
    ensures { result ≡ not (is_closed && (passed == emitted)) }
{
    !is_closed || passed != emitted
}

/// The port at a place.
pub(crate) fn port_at(nodes: &[Node], place: Place) -> Port
    requires node { place.node < length nodes.now }
    requires port { place.port < length (node_in nodes.now place.node).ports }
    ensures { result ≡ port_there nodes.now (plain_place place) }
{
    nodes[place.node as usize].ports.items()[place.port as usize]
}
