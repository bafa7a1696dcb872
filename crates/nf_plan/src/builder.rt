//! `PlanBuilder`: a plan that is made node by node.

ghost use Rattle.std.specs.Prelude.{◌≡◌, ◌<◌, ◌++◌, ◌∷◌, [], length, vec_len, vec_capacity, IfOk, OnOk, OnErr};
ghost use Rattle.nf_meaning.specs.Walk.{State};
ghost use Rattle.nf_plan.specs.Plans.{Adds, FitsPlan, IsPlan, IsSamePlan, has_call_of, is_call_of, is_view, place_if};
ghost use Rattle.nf_plan.specs.Calls.{CanAddOperator, CanAddProcess, CanAddSource, PortsRead, are_values, next_port};
ghost use Rattle.nf_plan.specs.Calls.{operator_info, operator_node, operator_value, process_info, process_node, source_info, source_node};
ghost use Rattle.nf_plan.specs.Runs.{IsFirst, OperatorStands, PlanStands, ProcessStands, Run, SourceStands, WantStands};
ghost use Rattle.nf_plan.specs.Counts.{Counts};

use crate::calls::{OperatorCall, ProcessCall, SourceCall};
use crate::plan::Plan;
use crate::ports::{are_values, gives_value};
use crate::sizes::Sizes;
use crate::want::Want;
use nf_bag::Row;
use nf_bodies::laws::tasks;
use nf_bodies::{NodeBody, NodeInfo};
use nf_graph::laws::{added_later, well_made};
use nf_graph::{Graph, Node, NodeKind, Port};
use nf_meaning::LowerFault;
use nf_meaning::laws::outputs_stand;
use nf_value::{Mem, Place};
use std::alloc::Global;

/// A plan that is made node by node (own). Each node reads nodes before it.
pub struct PlanBuilder {
    pub(crate) nodes: Vec<Node>,
    pub(crate) infos: Vec<NodeInfo>,
    pub(crate) views: Vec<u32>,
    pub(crate) wants: Vec<Want>,
    pub(crate) sizes: Sizes,
}

impl Drop for PlanBuilder {
    fn drop(self) {
        let PlanBuilder {
            nodes: _,
            infos: _,
            views: _,
            wants: _,
            sizes: _,
        } = self;
    }
}

impl PlanBuilder {
    /// A plan of no nodes. Takes no memory.
    pub fn new(alloc: Global) -> PlanBuilder
        ensures plan { IsPlan result }
        ensures nodes { result.nodes.items ≡ [] }
        ensures infos { result.infos.items ≡ [] }
        ensures stands { (x : Run) → (s : State) → IsFirst s → PlanStands x result s }
    {
        PlanBuilder {
            nodes: Vec::new(alloc),
            infos: Vec::new(alloc),
            views: Vec::new(alloc),
            wants: Vec::new(alloc),
            sizes: Sizes { nodes: 0, ports: 0 },
        }
    }

    /// Counts a source or a call that reads so many channels. `place` is that of its name.
    ///
    /// # Errors
    ///
    /// `TooManyNodes` at the place exactly if there are then more than 65,536 sources and calls, or these read more than 65,536
    /// channels; the plan is then what it was.
    pub fn count(&mut self, place: Place, ports: usize) -> Result<(), LowerFault>
        requires { IsPlan self.old }
        ensures counts { Counts self.old place ports self.new result }
        ensures plan { IsPlan self.new }
    {
        let Some(sizes) = self.sizes.grown(ports) else {
            return Err(LowerFault::TooManyNodes { place });
        };
        self.sizes = sizes;
        Ok(())
    }

    /// Adds a path whose files a source reads.
    ///
    /// # Errors
    ///
    /// `Mem` for want of memory.
    pub fn want(&mut self, want: Want) -> Result<(), Mem>
        requires { IsPlan self.old }
        ensures plan { IsPlan self.new }
        ensures wants { OnOk result (self.new.wants.items ≡ self.old.wants.items ++ want ∷ []) }
        ensures nodes { self.new.nodes.items ≡ self.old.nodes.items }
        ensures infos { self.new.infos.items ≡ self.old.infos.items }
        ensures sizes { self.new.sizes ≡ self.old.sizes }
        ensures stands { OnOk result (WantStands self.old want self.new) }
    {
        self.wants.push(want)?;
        Ok(())
    }

    /// Whether a call of a process has this path.
    pub fn has_call_of(&self, path: &str) -> bool
        ensures { result ≡ has_call_of path.now self.now.infos.items }
    {
        self.infos.iter().any(|info| is_call_of(info, path))
    }

    /// Adds a source. The result is the port that reads it.
    ///
    /// # Errors
    ///
    /// `Mem` for want of memory; the plan is then what it was.
    pub fn add_source(&mut self, alloc: Global, source: SourceCall) -> Result<Port, Mem>
        requires plan { IsPlan self.old }
        requires fits { CanAddSource self.old source }
        ensures plan { IsPlan self.new }
        ensures port { IfOk result (λ port. port ≡ next_port self.old source.value 0) }
        ensures reads { OnOk result (PortsRead self.old self.new source.value 1) }
        ensures added { OnOk result (Adds self.old self.new (source_node source) (source_info source)) }
        ensures stands { OnOk result (SourceStands self.old source self.new) }
        ensures same { OnErr result (IsSamePlan self.old self.new) }
    {
        let value = source.value;
        let (node, info) = source.into_node(alloc);
        let from = self.push(node, info)?;
        added_later();
        well_made();
        outputs_stand();
        Ok(Port {
            from,
            out: 0,
            value,
        })
    }

    /// Adds the call of an operator. The result is the port that reads its first output; its other outputs are of the same node and kind.
    ///
    /// # Errors
    ///
    /// `Mem` for want of memory; the plan is then what it was.
    pub fn add_operator(&mut self, call: OperatorCall) -> Result<Port, Mem>
        requires plan { IsPlan self.old }
        requires fits { CanAddOperator self.old call }
        ensures plan { IsPlan self.new }
        ensures port { IfOk result (λ port. port ≡ next_port self.old (operator_value call) 0) }
        ensures reads { OnOk result (PortsRead self.old self.new (operator_value call) (operator_node call).outs) }
        ensures added { OnOk result (Adds self.old self.new (operator_node call) (operator_info call)) }
        ensures stands { OnOk result (OperatorStands self.old call self.new) }
        ensures same { OnErr result (IsSamePlan self.old self.new) }
    {
        let value = gives_value(call.row, call.ports.items());
        let (node, info) = call.into_node();
        let from = self.push(node, info)?;
        added_later();
        well_made();
        outputs_stand();
        Ok(Port {
            from,
            out: 0,
            value,
        })
    }

    /// Adds the call of a process. The result is the port that reads its first output; its other outputs are of the same node and kind:
    /// value channels if it reads no queue.
    ///
    /// # Errors
    ///
    /// `Mem` for want of memory; the plan is then what it was.
    pub fn add_process(&mut self, call: ProcessCall) -> Result<Port, Mem>
        requires plan { IsPlan self.old }
        requires fits { CanAddProcess self.old call }
        ensures plan { IsPlan self.new }
        ensures port { IfOk result (λ port. port ≡ next_port self.old (are_values call.ports) 0) }
        ensures reads { OnOk result (PortsRead self.old self.new (are_values call.ports) (process_node call).outs) }
        ensures added { OnOk result (Adds self.old self.new (process_node call) (process_info call)) }
        ensures stands { OnOk result (ProcessStands self.old call self.new) }
        ensures same { OnErr result (IsSamePlan self.old self.new) }
    {
        let value = are_values(call.ports.items());
        let (node, info) = call.into_node()?;
        let from = self.push(node, info)?;
        added_later();
        well_made();
        outputs_stand();
        tasks();
        Ok(Port {
            from,
            out: 0,
            value,
        })
    }

    /// Adds a node. The result is its place.
    fn push(&mut self, node: Node, info: NodeInfo) -> Result<u32, Mem>
        requires plan { IsPlan self.old }
        requires fits { FitsPlan self.old node info }
        ensures place { IfOk result (λ i. i ≡ length self.old.nodes.items) }
        ensures added { OnOk result (Adds self.old self.new node info) }
        ensures plan { IsPlan self.new }
        ensures same { OnErr result (IsSamePlan self.old self.new) }
    {
        let place = self.next_place();
        self.make_room()?;
        self.note_view(&node.kind, place);
        self.nodes.push_reserved(node);
        self.infos.push_reserved(info);
        Ok(place)
    }

    /// The place of the node that comes next.
    fn next_place(&self) -> u32
        requires { IsPlan self.now }
        ensures { result ≡ length self.now.nodes.items }
    {
        self.nodes.len() as u32
    }

    /// Makes room for one more node.
    fn make_room(&mut self) -> Result<(), Mem>
        ensures same { IsSamePlan self.old self.new }
        ensures nodes { OnOk result (vec_len self.new.nodes < vec_capacity self.new.nodes) }
        ensures infos { OnOk result (vec_len self.new.infos < vec_capacity self.new.infos) }
        ensures views { OnOk result (vec_len self.new.views < vec_capacity self.new.views) }
    {
        self.nodes.reserve(1)?;
        self.infos.reserve(1)?;
        self.views.reserve(1)?;
        Ok(())
    }

    /// Notes the place of a node that prints.
    fn note_view(&mut self, kind: &NodeKind, place: u32)
        requires { vec_len self.old.views < vec_capacity self.old.views }
        ensures views { self.new.views.items ≡ self.old.views.items ++ place_if (is_view kind.now) place }
        ensures others { self.new ≡ record self.old { views = self.new.views } }
    {
        if is_view(kind) {
            self.views.push_reserved(place);
        }
    }

    /// The plan.
    pub fn finish(self) -> Plan
        requires { IsPlan self }
        ensures graph { result.graph ≡ self.nodes.items }
        ensures infos { result.infos ≡ self.infos }
        ensures views { result.views ≡ self.views }
        ensures wants { result.wants ≡ self.wants }
    {
        let PlanBuilder {
            nodes,
            infos,
            views,
            wants,
            sizes: _,
        } = self;
        Plan {
            graph: Graph::new(nodes),
            infos,
            views,
            wants,
        }
    }
}

/// Whether this is the call of a process that has this path.
fn is_call_of(info: &NodeInfo, path: &str) -> bool
    ensures { result ≡ is_call_of path.now info.now }
{
    match info.body {
        NodeBody::Process(_) => info.name.as_str() == path,
        _ => false,
    }
}

/// Whether a node prints what comes to it.
fn is_view(kind: &NodeKind) -> bool
    ensures { result ≡ is_view kind.now }
{
    matches!(kind, NodeKind::Op { row: Row::View, .. })
}
