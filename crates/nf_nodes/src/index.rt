//! `Index`: the moves that are possible.

ghost use Rattle.std.specs.Prelude.{◌≡◌, ◌<◌, ◌==◌, ◌&&◌, ◌↔◌, ℕ, List, false, true, length, slice_index_or, if◌then◌else◌, IfOk};
ghost use Rattle.nf_graph.specs.declared.node.Node.{Node};
ghost use Rattle.nf_graph.specs.WellMade.{IsWellMade, node_in};
ghost use Rattle.nf_spot.specs.Numbers.{has, limit_of};
ghost use Rattle.nf_spot.specs.declared.numbers.NumberSet.{NumberSet};
ghost use Rattle.nf_wiring.specs.Places.{plain_place, port_count};

use nf_graph::Node;
use nf_spot::NumberSet;
use nf_value::Mem;
use nf_wiring::Place;
use std::alloc::Global;

/// The moves that are possible: which ports can pass, and which nodes can take or close.
#[derive(Drop)]
pub(crate) struct Index {
    /// The numbers of the ports to which an item can pass.
    pub(crate) passable: NumberSet,
    /// For each node those of its ports to which an item may still pass, now or later.
    pub(crate) live: Vec<NumberSet>,
    /// The nodes that can take.
    pub(crate) takeable: NumberSet,
    /// The nodes that can close.
    pub(crate) closable: NumberSet,
}

impl Index {
    ghost use Rattle.nf_nodes.specs.Index.{IsSized, is_live, HasPort};

    /// The index of these nodes and so many ports, with no move in it.
    pub(crate) fn new(alloc: Global, nodes: &[Node], ports: u32) -> Result<Index, Mem>
        requires well_made { IsWellMade nodes.now }
        requires ports { ports ≡ port_count nodes.now }
        ensures { IfOk result (IsSized nodes.now) }
    {
        let passable = NumberSet::new(alloc, ports)?;
        let live = no_ports(alloc, nodes)?;
        let count = nodes.len() as u32;
        let takeable = NumberSet::new(alloc, count)?;
        let closable = NumberSet::new(alloc, count)?;
        Ok(Index {
            passable,
            live,
            takeable,
            closable,
        })
    }

    /// Notes whether an item can pass to the port of a number, and whether one may still pass later.
    pub(crate) fn set_port(&mut self, number: u32, place: Place, can_pass: bool, stays_live: bool)
        requires { HasPort self.old number (plain_place place) }
        ensures passes { (n : ℕ) → has self.new.passable n ≡ (if n == number then can_pass else has self.old.passable n) }
        ensures lives { (i k : ℕ) (d : NumberSet) → is_live self.new d (record { node = i; port = k })
            ≡ (if (i == place.node) && (k == place.port) then stays_live else is_live self.old d (record { node = i; port = k })) }
        ensures nodes { (self.new.takeable ≡ self.old.takeable) × (self.new.closable ≡ self.old.closable) }
        ensures sized { (nodes : List Node) → IsSized nodes self.old → IsSized nodes self.new }
    {
        self.passable.set(number, can_pass);
        self.live[place.node as usize].set(place.port, stays_live);
    }

    /// Notes whether a node can take, and whether it can close.
    pub(crate) fn set_node(&mut self, node: u32, can_take: bool, can_close: bool)
        requires take { node < limit_of self.old.takeable }
        requires close { node < limit_of self.old.closable }
        ensures takes { (i : ℕ) → has self.new.takeable i ≡ (if i == node then can_take else has self.old.takeable i) }
        ensures closes { (i : ℕ) → has self.new.closable i ≡ (if i == node then can_close else has self.old.closable i) }
        ensures ports { (self.new.passable ≡ self.old.passable) × (self.new.live ≡ self.old.live) }
        ensures sized { (nodes : List Node) → IsSized nodes self.old → IsSized nodes self.new }
    {
        self.takeable.set(node, can_take);
        self.closable.set(node, can_close);
    }

    /// Whether nothing more passes to any port of a node.
    pub(crate) fn is_ended(&self, node: u32) -> bool
        requires { node < length self.now.live.items }
        ensures { (result ≡ true) ↔ ((k : ℕ) (d : NumberSet) → is_live self.now d (record { node = node; port = k }) ≡ false) }
    {
        self.live[node as usize].any().is_none()
    }
}

/// For each node an empty set of ports.
fn no_ports(alloc: Global, nodes: &[Node]) -> Result<Vec<NumberSet>, Mem>
    requires { IsWellMade nodes.now }
    ensures len { IfOk result (λ v. length v.items ≡ length nodes.now) }
    ensures limits { IfOk result (λ v. (i : ℕ) (d : NumberSet) → i < length nodes.now
        → limit_of (slice_index_or v.items i d) ≡ length (node_in nodes.now i).ports) }
{
    let mut sets = Vec::new(alloc);
    for node in nodes {
        sets.push(NumberSet::new(alloc, node.ports.items().len() as u32)?)?;
    }
    Ok(sets)
}
