//! `NodeState`: a node's part of the state of a run.

ghost use Rattle.std.specs.Prelude.{◌≡◌, ◌+◌, ◌<◌, ◌^◌, ◌∷◌, ◌++◌, [], ℕ, List, false, true, nat_lt, map, length, remove, slice_index_or, slice_set, ◌==◌, ◌&&◌, ◌↔◌, if◌then◌else◌, Ok, IfOk, OnOk, MatchBool, MatchOption};
ghost use Rattle.nf_value.specs.Plain.{Plain, null};
ghost use Rattle.nf_value.specs.View.{plain_of};
ghost use Rattle.nf_job.specs.declared.emitted.Outputs.TheVariants.{Emits};
ghost use Rattle.nf_opstream.specs.Promise.{emits_of};
ghost use Rattle.nf_opstream.specs.Push.{push_of};
ghost use Rattle.nf_graph.specs.Rules.{emit_at};
ghost use Rattle.nf_graph.specs.WellMade.{plain_kind, FitsKind};
ghost use Rattle.nf_graph.specs.declared.node.Node.{Node};
ghost use Rattle.nf_graph.specs.declared.node.NodeKind.TheVariants as k;
ghost use Rattle.nf_machine.specs.State.{Take, Spot, opened};
ghost use Rattle.nf_spot.specs.Numbers.{limit_of};
ghost use Rattle.nf_spot.specs.Heads.{HasHeads, IsReady, head_of, inputs_at, no_inlet};

use crate::inlet::Inlet;
use crate::kept::Kept;
use crate::numbers::NumberSet;
use crate::outlet::Outlet;
use nf_bag::OpFault;
use nf_graph::{Node, NodeKind};
use nf_job::Emitted;
use nf_value::{Mem, Vals, Value};
use std::alloc::Global;

/// What a node takes at once (own).
#[derive(Drop)]
pub struct Taken {
    /// The inputs; of an operator its one item.
    pub inputs: Vals,
    /// How many takes of equal inputs came before it; 0 for an operator.
    pub n: u32,
}

/// A node's part of the state of a run (own): what it emitted, what waits at its ports, and what its operator or its process keeps.
pub struct NodeState {
    outlets: Vec<Outlet>,
    inlets: Vec<Inlet>,
    /// The ports at which something waits.
    filled: NumberSet,
    kept: Kept,
    ghost sized: { limit_of filled ≡ length inlets.items },
}

impl Drop for NodeState {
    fn drop(self) {
        let NodeState {
            outlets: _,
            inlets: _,
            filled: _,
            kept: _,
        } = self;
    }
}

impl NodeState {
    ghost use Rattle.nf_spot.specs.Spot.{AllowsKind, CanPush, Closes, HasTake, HasTakeRoom, IsNode, IsSpent, IsTaken, MayNotTake, MayTakeAt, Pushes, emits_all_on, emits_on, emitted_at, leaves_on, outs_of, outs_on, passed_at, ports_of, queue_leaves, takes_on, waiting_at, waits_on};

    /// The state of a node at the opening. A source has emitted its items.
    ///
    /// # Errors
    ///
    /// `Mem` if there is no memory for it.
    pub fn begin(alloc: Global, node: &Node) -> Result<NodeState, Mem>
        requires options { AllowsKind node.now.kind }
        requires ports { length node.now.ports < 2 ^ 32 }
        ensures { IfOk result (IsNode node.now (opened (plain_kind node.now.kind))) }
    {
        let count = node.ports.items().len() as u32;
        let outlets = outlets_of(alloc, node)?;
        let inlets = empty_inlets(alloc, count)?;
        let filled = NumberSet::new(alloc, count)?;
        let kept = Kept::begin(alloc, &node.kind)?;
        Ok(NodeState {
            outlets,
            inlets,
            filled,
            kept,
        })
    }

    /// How many items were emitted to an output.
    pub fn emitted(&self, out: u32) -> usize
        requires { out < outs_of self.now }
        ensures { result ≡ length (emitted_at self.now out) }
    {
        self.outlets[out as usize].len()
    }

    /// The item that was emitted to an output at a place, from 0.
    pub fn item(&self, out: u32, place: usize) -> &Value
        requires out { out < outs_of self.now }
        requires place { place < length (emitted_at self.now out) }
        ensures { plain_of result.now ≡ slice_index_or (emitted_at self.now out) place null }
    {
        self.outlets[out as usize].item(place)
    }

    /// How many items passed to a port.
    pub fn passed(&self, port: u32) -> usize
        requires { port < ports_of self.now }
        ensures { result ≡ passed_at self.now port }
    {
        self.inlets[port as usize].passed()
    }

    /// An item passes to a port, and waits there.
    ///
    /// # Errors
    ///
    /// `Mem` if there is no memory for it. The state then takes no further call.
    pub fn receive(&mut self, port: u32, item: Value) -> Result<(), Mem>
        requires port { port < ports_of self.old }
        requires passed { passed_at self.old port + 1 < 2 ^ 64 }
        ensures { (node : Node) (sp : Spot) → IsNode node sp self.old
            → OnOk result (IsNode node (waits_on sp port (plain_of item)) self.new) }
    {
        self.inlets[port as usize].receive(item)?;
        self.filled.set(port, true);
        Ok(())
    }

    /// The port of a take that the node may make of the item that waits there longest, if there is any. For a process without a queue
    /// port it is 0.
    pub fn can_take(&self, node: &Node) -> Option<u32>
        requires { FitsKind node.now node.now.kind }
        ensures { (sp : Spot) → IsNode node.now sp self.now
            → MatchOption result (MayNotTake node.now sp) (λ port. MayTakeAt node.now sp port 0) }
    {
        match &node.kind {
            NodeKind::Source { .. } => None,
            NodeKind::Op { .. } => self.filled.any(),
            NodeKind::Process { queue } => {
                if !self.filled.is_full() {
                    return None;
                }
                match queue {
                    Some(queue) => Some(*queue),
                    None => {
                        if self.kept.taken() == 0 {
                            Some(0)
                        } else {
                            None
                        }
                    }
                }
            }
        }
    }

    /// Whether the node may take the item at a place of a port. A process without a queue port takes at port 0 and place 0.
    pub fn may_take(&self, node: &Node, port: u32, place: u32) -> bool
        requires { FitsKind node.now node.now.kind }
        ensures { (sp : Spot) → IsNode node.now sp self.now → (result ≡ true) ↔ MayTakeAt node.now sp port place }
    {
        match &node.kind {
            NodeKind::Source { .. } => false,
            NodeKind::Op { .. } => self.has_item(port, place),
            NodeKind::Process { queue } => self.has_instance(*queue, port, place),
        }
    }

    /// Whether an item waits at a place of a port.
    fn has_item(&self, port: u32, place: u32) -> bool
        ensures { result ≡ nat_lt place (length (waiting_at self.now port)) }
    {
        match self.inlets.as_slice().get(port as usize) {
            Some(inlet) => (place as usize) < inlet.waits(),
            None => false,
        }
    }

    /// Whether a process may take the item at a place of its queue port, or once if it has none.
    fn has_instance(&self, queue: Option<u32>, port: u32, place: u32) -> bool
        ensures { (node : Node) (sp : Spot) → IsNode node sp self.now → node.kind ≡ k.Process queue → FitsKind node node.kind
            → (result ≡ true) ↔ MayTakeAt node sp port place }
    {
        if !self.filled.is_full() {
            return false;
        }
        match queue {
            Some(queue) => {
                let waits = self.has_item(port, place);
                is_queue_item(port, queue, waits)
            }
            None => {
                let taken = self.kept.taken();
                is_only_take(port, place, taken)
            }
        }
    }

    /// Whether nothing that waits at the node can be taken any more, if nothing more comes: at each port of an operator nothing waits; a
    /// process lacks an item at one of its ports, or has taken once if it has no queue port.
    pub fn is_spent(&self, node: &Node) -> bool
        requires { FitsKind node.now node.now.kind }
        ensures { (sp : Spot) → IsNode node.now sp self.now
            → MatchBool result (IsSpent node.now sp) (IsSpent node.now sp → ⊥) }
    {
        match &node.kind {
            NodeKind::Source { .. } => false,
            NodeKind::Op { .. } => self.filled.any().is_none(),
            NodeKind::Process { queue } => {
                if !self.filled.is_full() {
                    return true;
                }
                match queue {
                    Some(_) => false,
                    None => self.kept.taken() == 1,
                }
            }
        }
    }

    /// Takes the item at a place of a port, or the inputs of an instance of a process. Nobody else counts takes of equal inputs.
    ///
    /// # Errors
    ///
    /// `Mem` if there is no memory for it. The state then takes no further call.
    pub fn take(&mut self, alloc: Global, node: &Node, port: u32, place: u32) -> Result<Taken, Mem>
        requires fits { FitsKind node.now node.now.kind }
        requires may { HasTake node.now self.old port place }
        requires room { HasTakeRoom self.old }
        ensures taken { (sp : Spot) → IsNode node.now sp self.old → IfOk result (IsTaken node.now sp port place) }
        ensures after { (sp : Spot) → IsNode node.now sp self.old
            → OnOk result (IsNode node.now (takes_on node.now sp port place) self.new) }
    {
        match &node.kind {
            NodeKind::Source { .. } => unreachable!(),
            NodeKind::Op { .. } => self.take_item(alloc, port, place),
            NodeKind::Process { queue } => self.take_instance(alloc, node, *queue, port, place),
        }
    }

    /// Gives an operator an item of a port with the closure's answer on it, and answers what is emitted for it.
    ///
    /// # Errors
    ///
    /// The fault that the operator has on this item after those before, or `Mem` if there is no memory. The state then takes no further
    /// call.
    pub fn push(
        &mut self,
        port: u32,
        item: Value,
        answer: Value,
    ) -> Result<Vec<(u32, Value)>, OpFault>
        requires { CanPush self.old }
        ensures { (node : Node) (sp : Spot) → IsNode node sp self.old → sp.closed ≡ false
            → Pushes node sp (push_of port (plain_of item) (plain_of answer)) result self.new }
    {
        self.kept.push(port, item, answer)
    }

    /// Emits a value to an output. A value for an output that the node hasn't is dropped.
    ///
    /// # Errors
    ///
    /// `Mem` if there is no memory for it. The state then takes no further call.
    pub fn emit(&mut self, out: u32, value: Value) -> Result<(), Mem>
        ensures { (node : Node) (sp : Spot) → IsNode node sp self.old
            → OnOk result (IsNode node (emits_on sp out (plain_of value)) self.new) }
    {
        let out = out as usize;
        if out < self.outlets.len() {
            self.outlets[out].push(value)?;
        }
        Ok(())
    }

    /// Emits values, each with the number of its output, in their order. A value for an output that the node hasn't is dropped.
    ///
    /// # Errors
    ///
    /// `Mem` if there is no memory for it. The state then takes no further call.
    pub fn emit_all(&mut self, emits: Vec<(u32, Value)>) -> Result<(), Mem>
        ensures { (node : Node) (sp : Spot) → IsNode node sp self.old
            → OnOk result (IsNode node (emits_all_on sp (emits_of emits.items)) self.new) }
    {
        for (out, value) in emits {
            self.emit(out, value)?;
        }
        Ok(())
    }

    /// Emits the values of a task, each to its output. A value for an output that the node hasn't is dropped.
    ///
    /// # Errors
    ///
    /// `Mem` if there is no memory for it. The state then takes no further call.
    pub fn emit_outputs(&mut self, values: &Emitted) -> Result<(), Mem>
        ensures { (node : Node) (sp : Spot) → IsNode node sp self.old
            → OnOk result (IsNode node (outs_on sp (Ok (Emits values.now))) self.new) }
    {
        put_outputs(&mut self.outlets, values)
    }

    /// Ends the input of the node, and answers what an operator emits at its end.
    ///
    /// # Errors
    ///
    /// The fault that the operator has on its whole input, or `Mem` if there is no memory. The state then takes no further call.
    pub fn close(&mut self, alloc: Global) -> Result<Vec<(u32, Value)>, OpFault>
        ensures { (node : Node) (sp : Spot) → IsNode node sp self.old → sp.closed ≡ false
            → Closes node sp result self.new }
    {
        self.kept.close(alloc)
    }

    /// The item at a place of a port leaves it.
    fn remove(&mut self, port: u32, place: u32) -> Value
        requires { place < length (waiting_at self.old port) }
        ensures item { plain_of result ≡ slice_index_or (waiting_at self.old port) place null }
        ensures kept { self.new.kept ≡ self.old.kept }
        ensures inlets { self.new.inlets.items
            ≡ slice_set self.old.inlets.items port (passed_at self.old port, remove (waiting_at self.old port) place) }
        ensures after { (node : Node) (sp : Spot) → IsNode node sp self.old
            → IsNode node (leaves_on sp port place) self.new }
    {
        let inlet = &mut self.inlets[port as usize];
        let item = inlet.remove(place as usize);
        let is_filled = inlet.waits() > 0;
        self.filled.set(port, is_filled);
        item
    }

    /// An operator's take: the item at a place of a port.
    fn take_item(&mut self, alloc: Global, port: u32, place: u32) -> Result<Taken, Mem>
        requires { place < length (waiting_at self.old port) }
        ensures inputs { IfOk result (λ t. t.inputs ≡ slice_index_or (waiting_at self.old port) place null ∷ []) }
        ensures n { IfOk result (λ t. t.n ≡ 0) }
        ensures after { (node : Node) (sp : Spot) → IsNode node sp self.old
            → OnOk result (IsNode node (leaves_on sp port place) self.new) }
    {
        let mut inputs = Vec::with_capacity(alloc, 1)?;
        inputs.push(self.remove(port, place))?;
        Ok(Taken {
            inputs: Vals::of(inputs),
            n: 0,
        })
    }

    /// A process's take: the inputs of an instance, with the item at a place of its queue port if it has one.
    fn take_instance(
        &mut self,
        alloc: Global,
        node: &Node,
        queue: Option<u32>,
        port: u32,
        place: u32,
    ) -> Result<Taken, Mem>
        requires kind { node.now.kind ≡ k.Process queue }
        requires fits { FitsKind node.now node.now.kind }
        requires may { HasTake node.now self.old port place }
        requires room { HasTakeRoom self.old }
        ensures taken { (sp : Spot) → IsNode node.now sp self.old → IfOk result (IsTaken node.now sp port place) }
        ensures after { (sp : Spot) → IsNode node.now sp self.old
            → OnOk result (IsNode node.now (takes_on node.now sp port place) self.new) }
    {
        let inputs = self.take_inputs(alloc, queue, place)?;
        let n = self.kept.count(&inputs)?;
        Ok(Taken { inputs, n })
    }

    /// The inputs of an instance of a process, with the item at a place of its queue port if it has one.
    fn take_inputs(&mut self, alloc: Global, queue: Option<u32>, place: u32) -> Result<Vals, Mem>
        requires { IsReady self.old.inlets.items queue place }
        ensures inputs { IfOk result (λ v. v ≡ inputs_at self.old.inlets.items queue place) }
        ensures kept { OnOk result (self.new.kept ≡ self.old.kept) }
        ensures after { (node : Node) (sp : Spot) → IsNode node sp self.old
            → OnOk result (IsNode node (queue_leaves sp queue place) self.new) }
    {
        let mut inputs = Vec::new(alloc);
        let Some(port) = queue else {
            put_heads(&mut inputs, &self.inlets)?;
            return Ok(Vals::of(inputs));
        };
        let at = port as usize;
        put_heads(&mut inputs, &self.inlets[..at])?;
        inputs.push(self.remove(port, place))?;
        put_heads(&mut inputs, &self.inlets[at + 1..])?;
        Ok(Vals::of(inputs))
    }
}

/// Whether an item waits, and the port is the queue port.
fn is_queue_item(port: u32, queue: u32, waits: bool) -> bool
    ensures { result ≡ ((port == queue) && waits) }
{
    port == queue && waits
}

/// Whether this is where a process without a queue port takes, and it hasn't yet.
fn is_only_take(port: u32, place: u32, taken: u32) -> bool
    ensures { result ≡ ((port == 0) && ((place == 0) && (taken == 0))) }
{
    port == 0 && (place == 0 && taken == 0)
}

/// A list of empty outputs.
fn empty_outlets(alloc: Global, outs: u32) -> Result<Vec<Outlet>, Mem>
    ensures len { IfOk result (λ v. length v.items ≡ outs) }
    ensures each { IfOk result (λ v. (out : ℕ) → slice_index_or v.items out [] ≡ []) }
{
    let mut outlets = Vec::new(alloc);
    for _out in 0..outs {
        outlets.push(Outlet::of(Vec::new(alloc)))?;
    }
    Ok(outlets)
}

/// The outputs of a source, the first of which has its items.
fn source_outlets(alloc: Global, items: &Vals, outs: u32) -> Result<Vec<Outlet>, Mem>
    ensures len { IfOk result (λ v. length v.items ≡ outs) }
    ensures each { IfOk result (λ v. (out : ℕ) → out < outs
        → slice_index_or v.items out [] ≡ (if out == 0 then items.now else [])) }
{
    let mut outlets = empty_outlets(alloc, outs)?;
    if outs > 0 {
        let items = items.copy()?;
        outlets[0] = Outlet::of(items.into_items());
    }
    Ok(outlets)
}

/// The outputs of a node at the opening.
fn outlets_of(alloc: Global, node: &Node) -> Result<Vec<Outlet>, Mem>
    ensures len { IfOk result (λ v. length v.items ≡ node.now.outs) }
    ensures each { IfOk result (λ v. (out : ℕ) → out < node.now.outs
        → slice_index_or v.items out [] ≡ (opened (plain_kind node.now.kind)).emitted out) }
{
    match &node.kind {
        NodeKind::Source { items } => source_outlets(alloc, items, node.outs),
        _ => empty_outlets(alloc, node.outs),
    }
}

/// Emits values, each to its output.
fn put_outputs(outlets: &mut [Outlet], values: &Emitted) -> Result<(), Mem>
    ensures len { length outlets.new ≡ length outlets.old }
    ensures each { OnOk result ((out : ℕ) → out < length outlets.old
        → slice_index_or outlets.new out []
        ≡ slice_index_or outlets.old out [] ++ emit_at (Ok (Emits values.now)) out) }
{
    for out in 0..outlets.len() {
        put_output(&mut outlets[out], values, out)?;
    }
    Ok(())
}

/// Emits the value of an output, if there is one.
fn put_output(outlet: &mut Outlet, values: &Emitted, out: usize) -> Result<(), Mem>
    ensures { OnOk result (outlet.new ≡ outlet.old ++ emit_at (Ok (Emits values.now)) out) }
{
    match values.items().get(out) {
        Some(Some(value)) => outlet.push(value.copy()?),
        _ => Ok(()),
    }
}

/// A list of ports to which nothing passed.
fn empty_inlets(alloc: Global, count: u32) -> Result<Vec<Inlet>, Mem>
    ensures len { IfOk result (λ v. length v.items ≡ count) }
    ensures each { IfOk result (λ v. (port : ℕ) → slice_index_or v.items port no_inlet ≡ no_inlet) }
{
    let mut inlets = Vec::new(alloc);
    for _port in 0..count {
        inlets.push(Inlet::new(alloc))?;
    }
    Ok(inlets)
}

/// Adds a copy of the item that waits longest at each of these ports.
fn put_heads(inputs: &mut Vec<Value>, inlets: &[Inlet]) -> Result<(), Mem>
    requires { HasHeads inlets.now }
    ensures { OnOk result (map plain_of inputs.new.items ≡ map plain_of inputs.old.items ++ map head_of inlets.now) }
{
    for inlet in inlets {
        inputs.push(inlet.first().copy()?)?;
    }
    Ok(())
}
