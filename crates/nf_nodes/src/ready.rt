//! Which move comes next.

ghost use Rattle.std.specs.Prelude.{◌≡◌, ◌↔◌, List, count_by, not, true};
ghost use Rattle.nf_value.specs.View.{plain_of};
ghost use Rattle.nf_graph.specs.declared.node.Node.{Node};
ghost use Rattle.nf_graph.specs.WellMade.{plain_graph};
ghost use Rattle.nf_machine.specs.Legal.{CloseIsLegal};
ghost use Rattle.nf_machine.specs.State.{State};

use crate::nodes::{Nodes, port_at};
use nf_graph::Node;
use nf_machine::Move;
use nf_value::Value;

impl Nodes {
    ghost use Rattle.nf_nodes.specs.Nodes.{AreNodes, HasNode, HasState};
    ghost use Rattle.nf_nodes.specs.Ready.{IsLegalMove, IsReady, IsReadyAt};
    ghost use Rattle.nf_nodes.specs.Steps.{HasNext, MayPass, MayTake, next_in, open_in};

    /// A legal Pass if there is one, else a legal Take, else a legal Close. Takes no memory, and no walk.
    pub fn ready(&self, nodes: &[Node]) -> Option<Move>
        requires { HasState nodes.now self.now }
        ensures { (s : State) → AreNodes nodes.now s self.now → IsReady nodes.now s result }
    {
        nf_wiring::laws::numbers();
        if let Some(port) = self.index.passable.any() {
            return Some(Move::Pass { port });
        }
        if let Some(node) = self.index.takeable.any() {
            return self.ready_at(nodes, node);
        }
        let node = self.index.closable.any()?;
        Some(Move::Close { node })
    }

    /// A legal Take of a node, if there is one. Takes no memory, and no walk.
    pub fn ready_at(&self, nodes: &[Node], node: u32) -> Option<Move>
        requires { HasNode nodes.now self.now node }
        ensures { (s : State) → AreNodes nodes.now s self.now → IsReadyAt nodes.now s node result }
    {
        let at = node as usize;
        let port = self.states[at].can_take(&nodes[at])?;
        Some(Move::Take {
            node,
            port,
            place: 0,
        })
    }

    /// Whether a move is legal. Takes no memory, and no walk.
    pub fn is_legal(&self, nodes: &[Node], step: Move) -> bool
        requires { HasState nodes.now self.now }
        ensures { (s : State) → AreNodes nodes.now s self.now → (result ≡ true) ↔ IsLegalMove nodes.now s step }
    {
        match step {
            Move::Pass { port } => self.may_pass(nodes, port),
            Move::Take { node, port, place } => self.may_take(nodes, node, port, place),
            Move::Close { node } => self.may_close(nodes, node),
        }
    }

    /// Whether an item may pass to the port of a number.
    fn may_pass(&self, nodes: &[Node], number: u32) -> bool
        requires { HasState nodes.now self.now }
        ensures { (s : State) → AreNodes nodes.now s self.now → (result ≡ true) ↔ MayPass nodes.now s number }
    {
        let _ = nodes;
        nf_wiring::laws::numbers();
        let count = self.wiring.count();
        if number >= count {
            return false;
        }
        self.index.passable.contains(number)
    }

    /// Whether a node may take the item at a place of a port.
    fn may_take(&self, nodes: &[Node], node: u32, port: u32, place: u32) -> bool
        requires { HasState nodes.now self.now }
        ensures { (s : State) → AreNodes nodes.now s self.now → (result ≡ true) ↔ MayTake nodes.now s node port place }
    {
        let at = node as usize;
        if at >= nodes.len() {
            return false;
        }
        self.states[at].may_take(&nodes[at], port, place)
    }

    /// Whether a node may close.
    fn may_close(&self, nodes: &[Node], node: u32) -> bool
        requires { HasState nodes.now self.now }
        ensures { (s : State) → AreNodes nodes.now s self.now → (result ≡ true) ↔ CloseIsLegal (plain_graph nodes.now) s node }
    {
        let at = node as usize;
        if at >= nodes.len() {
            return false;
        }
        self.index.closable.contains(node)
    }

    /// The item that passes next to the port of a number.
    pub fn next_item(&self, nodes: &[Node], number: u32) -> &Value
        requires { HasNext nodes.now self.now number }
        ensures { (s : State) → AreNodes nodes.now s self.now → plain_of result.now ≡ next_in nodes.now s number }
    {
        nf_wiring::laws::numbers();
        let place = self.wiring.place(number);
        let passed = self.passed(nodes, place);
        let port = port_at(nodes, place);
        self.states[port.from as usize].item(port.out, passed)
    }

    /// How many nodes aren't closed. Time: the nodes.
    pub fn open_nodes(&self) -> usize
        ensures { (nodes : List Node) (s : State) → AreNodes nodes s self.now → result ≡ open_in nodes s }
    {
        count_false(&self.closed)
    }
}

/// How many of these are false.
fn count_false(tests: &[bool]) -> usize
    ensures { result ≡ count_by not tests.now }
{
    tests.iter().filter(|test| !**test).count()
}
