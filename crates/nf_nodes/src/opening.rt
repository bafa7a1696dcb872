//! The nodes of a run before its first event.

ghost use Rattle.std.specs.Prelude.{◌≡◌, ◌<◌, ℕ, Bool, List, false, length, slice_index_or, IfOk};
ghost use Rattle.nf_graph.specs.declared.node.Node.{Node};
ghost use Rattle.nf_graph.specs.WellMade.{IsWellMade, node_in, plain_graph, plain_kind};
ghost use Rattle.nf_machine.specs.State.{State, opened, opening};
ghost use Rattle.nf_spot.specs.Spot.{IsNode};
ghost use Rattle.nf_spot.specs.declared.node_state.NodeState.{NodeState};
ghost use Rattle.nf_nodes.specs.Marks.{all, none};

use crate::index::Index;
use crate::nodes::Nodes;
use nf_flight::Flights;
use nf_graph::{Graph, Node, NodeKind};
use nf_spot::NodeState;
use nf_value::Mem;
use nf_wiring::Wiring;
use std::alloc::Global;

impl Nodes {
    ghost use Rattle.nf_nodes.specs.Flying.{AreFlying, HasMarked};
    ghost use Rattle.nf_nodes.specs.Nodes.{AreNodes, HasState, Marks, Shows};

    /// The nodes of a graph at the opening. Time: the graph's nodes and ports.
    ///
    /// # Errors
    ///
    /// `Mem` if there is no memory for it.
    pub fn begin(alloc: Global, graph: &Graph, flights: &Flights) -> Result<Nodes, Mem>
        requires { AreFlying graph.now (opening (plain_graph graph.now)) flights.now }
        ensures { IfOk result (AreNodes graph.now (opening (plain_graph graph.now))) }
    {
        nf_wiring::laws::numbers();
        let nodes = graph.nodes();
        let states = opened_states(alloc, nodes)?;
        let closed = closed_sources(alloc, nodes)?;
        let wiring = Wiring::of(alloc, graph)?;
        let index = Index::new(alloc, nodes, wiring.count())?;
        let mut whole = Nodes {
            states,
            closed,
            wiring,
            index,
        };
        whole.note_ports(nodes);
        whole.note_nodes(nodes, flights);
        Ok(whole)
    }

    /// Marks all ports as the state has them.
    fn note_ports(&mut self, nodes: &[Node])
        requires { HasState nodes.now self.old }
        ensures { (s : State) → Shows nodes.now s self.old → Marks nodes.now s all none self.new }
    {
        nf_wiring::laws::numbers();
        for number in 0..self.wiring.count() {
            self.note_port(nodes, number);
        }
    }

    /// Marks all nodes as the state has them, once all ports are.
    fn note_nodes(&mut self, nodes: &[Node], flights: &Flights)
        requires { HasMarked nodes.now self.old flights.now }
        ensures { (s : State) → Marks nodes.now s all none self.old → AreFlying nodes.now s flights.now → AreNodes nodes.now s self.new }
    {
        for node in 0..nodes.len() as u32 {
            self.note_node(nodes, flights, node);
        }
    }
}

/// The states of nodes at the opening.
fn opened_states(alloc: Global, nodes: &[Node]) -> Result<Vec<NodeState>, Mem>
    requires { IsWellMade nodes.now }
    ensures len { IfOk result (λ v. length v.items ≡ length nodes.now) }
    ensures each { IfOk result (λ v. (i : ℕ) (d : NodeState) → i < length nodes.now
        → IsNode (node_in nodes.now i) (opened (plain_kind (node_in nodes.now i).kind)) (slice_index_or v.items i d)) }
{
    let mut states = Vec::new(alloc);
    for node in nodes {
        states.push(NodeState::begin(alloc, node)?)?;
    }
    Ok(states)
}

/// Which nodes are closed at the opening: the sources.
fn closed_sources(alloc: Global, nodes: &[Node]) -> Result<Vec<bool>, Mem>
    ensures len { IfOk result (λ v. length v.items ≡ length nodes.now) }
    ensures each { IfOk result (λ v. (i : ℕ) → i < length nodes.now
        → slice_index_or v.items i false ≡ (opened (plain_kind (node_in nodes.now i).kind)).closed) }
{
    let mut closed = Vec::new(alloc);
    for node in nodes {
        closed.push(is_source(node))?;
    }
    Ok(closed)
}

/// Whether a node is a source.
fn is_source(node: &Node) -> bool
    ensures { result ≡ (opened (plain_kind node.now.kind)).closed }
{
    match &node.kind {
        NodeKind::Source { .. } => true,
        NodeKind::Op { .. } => false,
        NodeKind::Process { .. } => false,
    }
}
