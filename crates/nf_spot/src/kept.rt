//! `Kept`: what a node keeps by its kind.

ghost use Rattle.std.specs.Prelude.{◌≡◌, ◌+◌, ◌<◌, ◌^◌, ◌∷◌, false, length, map, count_by, IfOk, OnOk};
ghost use Rattle.nf_value.specs.View.{plain_of};
ghost use Rattle.nf_opstream.specs.Push.{push_of};
ghost use Rattle.nf_graph.specs.Meaning.{same_inputs};
ghost use Rattle.nf_graph.specs.WellMade.{plain_kind};
ghost use Rattle.nf_machine.specs.State.{Take, Spot, opened};
ghost use Rattle.nf_graph.specs.declared.node.NodeKind.{NodeKind};
ghost use Rattle.nf_graph.specs.declared.node.NodeKind.TheVariants as k;

use crate::counts::Counts;
use nf_bag::OpFault;
use nf_graph::NodeKind;
use nf_operator::OpState;
use nf_value::{Mem, Vals, Value};
use std::alloc::Global;

/// What a node keeps by its kind: the state of its operator, or the counts of its process.
#[derive(Drop)]
pub(crate) enum Kept {
    Source,
    Operator(OpState),
    Process(Counts),
}

impl Kept {
    ghost use Rattle.nf_spot.specs.Spot.{AllowsKind, ClosesOn, HasCountRoom, HasPushRoom, IsKept, PushesOn, inputs_taken};

    /// What is kept before the first step.
    pub(crate) fn begin(alloc: Global, kind: &NodeKind) -> Result<Kept, Mem>
        requires { AllowsKind kind.now }
        ensures { IfOk result (IsKept kind.now (opened (plain_kind kind.now))) }
    {
        match kind {
            NodeKind::Source { .. } => Ok(Kept::Source),
            NodeKind::Op { row, opts } => {
                let state = OpState::begin(alloc, *row, opts)?;
                Ok(Kept::Operator(state))
            }
            NodeKind::Process { .. } => Ok(Kept::Process(Counts::new(alloc))),
        }
    }

    /// How often a process took.
    pub(crate) fn taken(&self) -> u32
        ensures { (queue : _) (sp : Spot) → IsKept (k.Process queue) sp self.now → result ≡ length sp.taken }
    {
        match self {
            Kept::Process(counts) => counts.total(),
            _ => 0,
        }
    }

    /// What an item with its answer gives.
    pub(crate) fn push(
        &mut self,
        port: u32,
        item: Value,
        answer: Value,
    ) -> Result<Vec<(u32, Value)>, OpFault>
        requires { HasPushRoom self.old }
        ensures { (kind : NodeKind) (sp : Spot) → IsKept kind sp self.old → sp.closed ≡ false
            → PushesOn kind sp (push_of port (plain_of item) (plain_of answer)) result self.new }
    {
        match self {
            Kept::Operator(state) => state.push(port, item, answer),
            _ => unreachable!(),
        }
    }

    /// What the end of the input gives.
    pub(crate) fn close(&mut self, alloc: Global) -> Result<Vec<(u32, Value)>, OpFault>
        ensures { (kind : NodeKind) (sp : Spot) → IsKept kind sp self.old → sp.closed ≡ false
            → ClosesOn kind sp result self.new }
    {
        match self {
            Kept::Operator(state) => state.close(),
            Kept::Source => Ok(Vec::new(alloc)),
            Kept::Process(_) => Ok(Vec::new(alloc)),
        }
    }

    /// Counts a take of a process, and gives how many takes of equal inputs came before.
    pub(crate) fn count(&mut self, inputs: &Vals) -> Result<u32, Mem>
        requires { HasCountRoom self.old }
        ensures number { (queue : _) (sp : Spot) → IsKept (k.Process queue) sp self.old
            → IfOk result (λ n. n ≡ count_by (same_inputs inputs.now) (inputs_taken sp)) }
        ensures after { (queue : _) (sp : Spot) (t : Take) → IsKept (k.Process queue) sp self.old
            → t.inputs ≡ inputs.now
            → OnOk result (IsKept (k.Process queue) (record sp { taken = t ∷ sp.taken }) self.new) }
    {
        match self {
            Kept::Process(counts) => counts.add(inputs),
            _ => unreachable!(),
        }
    }
}
