//! Marks of the ports and the nodes that read a node.

ghost use Rattle.std.specs.Prelude.{◌≡◌, ℕ, Bool, length};
ghost use Rattle.nf_machine.specs.State.{State};
ghost use Rattle.nf_flight.specs.Flights.{nodes_of};
ghost use Rattle.nf_nodes.specs.Marks.{all, unfed, unread};

use crate::nodes::Nodes;
use nf_flight::Flights;
use nf_graph::Node;

impl Nodes {
    ghost use Rattle.nf_nodes.specs.Flying.{AreFlying};
    ghost use Rattle.nf_nodes.specs.Nodes.{AreNodes, HasNode, Marks};

    /// Marks the ports that read a node as the state has them.
    pub(crate) fn note_readers(&mut self, nodes: &[Node], node: u32)
        requires { HasNode nodes.now self.old node }
        ensures { (s : State) (q : ℕ → Bool) → Marks nodes.now s (unread nodes.now node) q self.old
            → Marks nodes.now s all q self.new }
    {
        let count = self.wiring.readers(node).len();
        for at in 0..count {
            let number = self.wiring.readers(node)[at];
            self.note_port(nodes, number);
        }
    }

    /// Marks the nodes with a port that reads a node as the state has them.
    pub(crate) fn note_fed(&mut self, nodes: &[Node], flights: &Flights, node: u32)
        requires node { HasNode nodes.now self.old node }
        requires flights { nodes_of flights.now ≡ length nodes.now }
        ensures { (s : State) → Marks nodes.now s all (unfed nodes.now node) self.old → AreFlying nodes.now s flights.now
            → AreNodes nodes.now s self.new }
    {
        nf_wiring::laws::numbers();
        let count = self.wiring.readers(node).len();
        for at in 0..count {
            let number = self.wiring.readers(node)[at];
            let place = self.wiring.place(number);
            self.note_node(nodes, flights, place.node);
        }
    }
}
