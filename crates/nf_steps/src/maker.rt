//! `GraphMaker`: a graph, node by node.

ghost use Rattle.std.specs.Prelude.{◌≡◌, ◌+◌, ◌<◌, ◌≤◌, ◌++◌, ◌∷◌, [], length, true, IfOk, MatchBool};
ghost use Rattle.std.specs.List.{list_all};
ghost use Rattle.nf_graph.specs.declared.port.Port.{Port};
ghost use Rattle.nf_graph.specs.Node.{port_in};
ghost use Rattle.nf_graph.specs.WellMade.{FitsKind, IsValueSource, ReadsEarlier};
ghost use Rattle.nf_steps.specs.Making.{IsOnlyQueue, ReadEarlier};

use nf_graph::{Graph, Node, NodeKind, Port};
use nf_operator::{OutputKind, allows, output_kind, outs, takes_ports};
use nf_value::Mem;
use std::alloc::Global;
use std::marker::Model;

/// How many nodes and how many ports a graph may have.
const MOST: usize = 65_536;

/// A graph that is made node by node (own). Contracts see the list of its nodes.
#[derive(Drop)]
pub struct GraphMaker {
    nodes: Vec<Node>,
    /// How many ports the nodes have.
    ports: usize,
}

impl Model for GraphMaker {
    ghost use Rattle.std.specs.Prelude.{◌≡◌, List};
    ghost use Rattle.std.specs.Coded.{codes};
    ghost use Rattle.nf_graph.specs.declared.node.Node.{Node};
    ghost use Rattle.nf_graph.specs.contracts.node.Node as n;
    ghost use Rattle.nf_graph.specs.WellMade.{IsWellMade};
    ghost use Rattle.nf_wiring.specs.Places.{port_count};

    ghost Value = { List Node };

    ghost coded = { Prim.hlevel (codes, n.the_row.coded) };

    ghost view = { λ m. m.nodes.items };

    ghost invariant = { λ m. IsWellMade m.nodes.items × (m.ports ≡ port_count m.nodes.items) };
}

impl GraphMaker {
    /// No node yet. Takes no memory.
    pub fn new(alloc: Global) -> GraphMaker
        ensures { result ≡ [] }
    {
        GraphMaker {
            nodes: Vec::new(alloc),
            ports: 0,
        }
    }

    /// Adds a node behind the others, and answers whether it fits there: its ports read outputs of earlier nodes, value ports those of value
    /// channels, and it has the ports, the options and the outputs of its kind. A node that doesn't fit isn't added.
    ///
    /// # Errors
    ///
    /// `Mem` if there is no memory for it.
    pub fn add(&mut self, node: Node) -> Result<bool, Mem>
        ensures { IfOk result (λ b. MatchBool b (self.new ≡ self.old ++ node ∷ []) (self.new ≡ self.old)) }
    {
        let ports = node.ports.items();
        let count = ports.len();
        if !has_room(self.nodes.len(), self.ports, count) {
            return Ok(false);
        }
        if !fits_kind(&node, &node.kind) {
            return Ok(false);
        }
        if !read_earlier(&self.nodes, ports) {
            return Ok(false);
        }
        self.nodes.push(node)?;
        self.ports += count;
        Ok(true)
    }

    /// The node at a place, from 0.
    pub fn node(&self, place: u32) -> Option<&Node> {
        self.nodes.as_slice().get(place as usize)
    }

    /// A graph of copies of the nodes.
    ///
    /// # Errors
    ///
    /// `Mem` if there is no memory for it.
    pub fn graph(&self) -> Result<Graph, Mem>
        ensures { IfOk result (λ g. g ≡ self.now) }
    {
        Ok(Graph::new(copied(&self.nodes)?))
    }

    /// The graph.
    pub fn into_graph(self) -> Graph
        ensures { result ≡ self }
    {
        Graph::new(self.nodes)
    }
}

fn copied(nodes: &Vec<Node>) -> Result<Vec<Node>, Mem>
    ensures { IfOk result (λ v. v.items ≡ nodes.now.items) }
{
    let mut copies = Vec::new(*nodes.allocator());
    for node in nodes {
        copies.push(node.copy()?)?;
    }
    Ok(copies)
}

/// Whether there is room for a node of so many ports beside so many nodes and ports.
fn has_room(nodes: usize, ports: usize, more: usize) -> bool
    ensures nodes { result ≡ true → nodes + 1 ≤ 65536 }
    ensures ports { result ≡ true → ports + more ≤ 65536 }
{
    nodes < MOST && ports <= MOST && more <= MOST - ports
}

/// Whether a node has the ports, the options and the outputs of its kind.
fn fits_kind(node: &Node, kind: &NodeKind) -> bool
    ensures { result ≡ true → FitsKind node.now kind.now }
{
    let ports = node.ports.items();
    match kind {
        NodeKind::Source { .. } => ports.is_empty(),
        NodeKind::Op { row, opts } => {
            if !allows(*row, opts) {
                return false;
            }
            if !takes_ports(*row, ports.len()) {
                return false;
            }
            node.outs == outs(*row, opts)
        }
        NodeKind::Process { queue } => match queue {
            None => are_values(ports),
            Some(queue) => has_queue(ports, *queue),
        },
    }
}

fn port_at(ports: &[Port], at: usize) -> Port
    requires { at < length ports.now }
    ensures { result ≡ port_in ports.now at }
{
    ports[at]
}

/// Whether each of the ports is a value port.
fn are_values(ports: &[Port]) -> bool
    ensures { result ≡ list_all (λ (p : Port). p.value) ports.now }
{
    ports.iter().all(|port| port.value)
}

/// Whether the port at this place is the one port that isn't a value port.
fn has_queue(ports: &[Port], queue: u32) -> bool
    ensures { result ≡ true → IsOnlyQueue ports.now queue }
{
    let at = queue as usize;
    if at >= ports.len() {
        return false;
    }
    if port_at(ports, at).value {
        return false;
    }
    if !are_values(&ports[..at]) {
        return false;
    }
    are_values(&ports[at + 1..])
}

/// Whether each of the ports reads an output of one of the nodes, a value port one of a value channel.
fn read_earlier(nodes: &[Node], ports: &[Port]) -> bool
    ensures { result ≡ true → ReadEarlier nodes.now ports.now }
{
    for at in 0..ports.len() {
        if !reads_earlier(nodes, port_at(ports, at)) {
            return false;
        }
    }
    true
}

fn reads_earlier(nodes: &[Node], port: Port) -> bool
    ensures { result ≡ true → ReadsEarlier nodes.now (length nodes.now) port }
{
    match nodes.get(port.from as usize) {
        Some(node) => {
            if port.out >= node.outs {
                return false;
            }
            if !port.value {
                return true;
            }
            gives_values(node, &node.kind)
        }
        None => false,
    }
}

/// Whether the outputs of a node are value channels.
fn gives_values(node: &Node, kind: &NodeKind) -> bool
    ensures { result ≡ true → IsValueSource node.now kind.now }
{
    match kind {
        NodeKind::Source { items } => items.len() <= 1,
        NodeKind::Op { row, .. } => match output_kind(*row) {
            OutputKind::Value => true,
            OutputKind::Queue => false,
            OutputKind::AsInputs => are_values(node.ports.items()),
        },
        NodeKind::Process { queue } => match queue {
            None => true,
            Some(_) => false,
        },
    }
}
