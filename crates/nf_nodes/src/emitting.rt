//! Steps in which a node emits.

ghost use Rattle.std.specs.Prelude.{◌≡◌, ℕ, List, false, length, Ok, Some, OnOk};
ghost use Rattle.nf_value.specs.View.{plain_of};
ghost use Rattle.nf_opstream.specs.Promise.{emits_of};
ghost use Rattle.nf_opstream.specs.Push.{push_of};
ghost use Rattle.nf_machine.specs.State.{Ended, State, Ticket};
ghost use Rattle.nf_machine.specs.Step.{ends_at, ticket_at};
ghost use Rattle.nf_flight.specs.Flights.{nodes_of};
ghost use Rattle.nf_nodes.specs.Marks.{all, all_but};

use crate::nodes::Nodes;
use nf_bag::OpFault;
use nf_flight::Flights;
use nf_graph::Node;
use nf_job::Outputs;
use nf_value::{Mem, Value};
use std::alloc::Global;

impl Nodes {
    ghost use Rattle.nf_nodes.specs.Flying.{AreFlying};
    ghost use Rattle.nf_nodes.specs.Nodes.{AreNodes, HasNode, Marks};
    ghost use Rattle.nf_nodes.specs.Steps.{CanClose, CanEmit, CanGive, Ends, Gives, emits_at, left, outs_at};

    /// An operator gets an item of a port with the closure's answer on it, and emits what it gives for them. The item's take isn't among
    /// those in flight any more. Where nothing is emitted, no reader is looked at.
    ///
    /// # Errors
    ///
    /// The fault that the operator has on this item after those before, or `Mem` if there is no memory. The nodes then take no further
    /// call.
    pub fn give(
        &mut self,
        nodes: &[Node],
        flights: &Flights,
        node: u32,
        port: u32,
        item: Value,
        answer: Value,
    ) -> Result<(), OpFault>
        requires give { CanGive nodes.now self.old node }
        requires flights { nodes_of flights.now ≡ length nodes.now }
        ensures { (s : State) (t : ℕ) (k : Ticket) → AreNodes nodes.now s self.old → ticket_at t s.tickets ≡ Some k
            → k.node ≡ node → AreFlying nodes.now (left s t) flights.now
            → Gives nodes.now (left s t) node (push_of port (plain_of item) (plain_of answer)) result self.new }
    {
        nf_spot::laws::rooms();
        let emits = self.states[node as usize].push(port, item, answer)?;
        self.emit_values(nodes, node, emits)?;
        self.note_node(nodes, flights, node);
        Ok(())
    }

    /// A task of a process came back, and its node emits the values that it amounts to. Its take isn't among those in flight any more.
    ///
    /// # Errors
    ///
    /// `Mem` if there is no memory for it. The nodes then take no further call.
    pub fn emit(
        &mut self,
        nodes: &[Node],
        flights: &Flights,
        node: u32,
        outputs: &Outputs,
    ) -> Result<(), Mem>
        requires emit { CanEmit nodes.now self.old node }
        requires flights { nodes_of flights.now ≡ length nodes.now }
        ensures { (s : State) (t : ℕ) (k : Ticket) (e : Ended) → AreNodes nodes.now s self.old
            → ticket_at t s.tickets ≡ Some k → k.node ≡ node → e.outs ≡ Ok outputs.now
            → AreFlying nodes.now (left s t) flights.now
            → OnOk result (AreNodes nodes.now (ends_at (left s t) k e) self.new) }
    {
        nf_spot::laws::came_back();
        self.emit_outputs(nodes, node, outputs)?;
        self.note_node(nodes, flights, node);
        Ok(())
    }

    /// Nothing more comes to a node: it is closed, and an operator emits what it gives at its end.
    ///
    /// # Errors
    ///
    /// The fault that the operator has on its whole input, or `Mem` if there is no memory. The nodes then take no further call.
    pub fn close(
        &mut self,
        alloc: Global,
        nodes: &[Node],
        flights: &Flights,
        node: u32,
    ) -> Result<(), OpFault>
        requires close { CanClose nodes.now self.old node }
        requires flights { nodes_of flights.now ≡ length nodes.now }
        ensures { (s : State) → AreNodes nodes.now s self.old → AreFlying nodes.now s flights.now
            → Ends nodes.now s node result self.new }
    {
        nf_wiring::laws::numbers();
        let state = &mut self.states[node as usize];
        let emits = state.close(alloc)?;
        state.emit_all(emits)?;
        self.closed[node as usize] = true;
        self.note_readers(nodes, node);
        self.note_node(nodes, flights, node);
        self.note_fed(nodes, flights, node);
        Ok(())
    }

    /// A node that isn't closed emits values, each with the number of its output, and the ports that read it are marked. Without a value
    /// no reader is looked at.
    fn emit_values(
        &mut self,
        nodes: &[Node],
        node: u32,
        emits: Vec<(u32, Value)>,
    ) -> Result<(), Mem>
        requires { HasNode nodes.now self.old node }
        ensures { (s : State) → Marks nodes.now s all (all_but node) self.old → (s.spots node).closed ≡ false
            → OnOk result (Marks nodes.now (emits_at s node (emits_of emits.items)) all (all_but node) self.new) }
    {
        if emits.is_empty() {
            return Ok(());
        }
        self.states[node as usize].emit_all(emits)?;
        self.note_readers(nodes, node);
        Ok(())
    }

    /// A node that isn't closed emits what a task amounts to, and the ports that read it are marked.
    fn emit_outputs(&mut self, nodes: &[Node], node: u32, outputs: &Outputs) -> Result<(), Mem>
        requires { HasNode nodes.now self.old node }
        ensures { (s : State) → Marks nodes.now s all (all_but node) self.old → (s.spots node).closed ≡ false
            → OnOk result (Marks nodes.now (outs_at s node (Ok outputs.now)) all (all_but node) self.new) }
    {
        match outputs {
            Outputs::Emits(values) => {
                self.states[node as usize].emit_outputs(values)?;
                self.note_readers(nodes, node);
                Ok(())
            }
            _ => Ok(()),
        }
    }
}
