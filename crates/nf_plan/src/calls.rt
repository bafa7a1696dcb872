//! What is added to a plan: sources, and calls of operators and processes.

ghost use Rattle.std.specs.Prelude.{◌<◌, ◌^◌, length, IfOk};
ghost use Rattle.nf_plan.specs.Calls.{IsOperatorPart, IsProcessPart, IsSourcePart};

use crate::ports::queue_in;
use nf_bag::{OpOpts, Row};
use nf_bodies::{NodeBody, NodeInfo};
use nf_graph::{Node, NodeKind, Ports};
use nf_operator::outs;
use nf_tasks::ProcessSpec;
use nf_value::{Mem, Place, Txt, Vals};
use std::alloc::Global;

/// A source (Nextflow reference documentation, "Channel factories"), or a value that is given as a channel.
#[derive(Drop)]
pub struct SourceCall {
    /// The name of the source.
    pub name: Txt,
    /// The place of the name, or of the value.
    pub place: Place,
    /// The items of the channel.
    pub items: Vals,
    /// Whether it is a value channel.
    pub value: bool,
}

/// The call of an operator (Nextflow reference documentation, "Operators").
#[derive(Drop)]
pub struct OperatorCall {
    /// The name of the operator.
    pub name: Txt,
    /// The place of the name.
    pub place: Place,
    /// Which operator it is.
    pub row: Row,
    /// Its options.
    pub opts: OpOpts,
    /// The channels that it reads.
    pub ports: Ports,
    /// How it answers items.
    pub body: NodeBody,
}

/// The call of a process (Nextflow reference documentation, "Process").
#[derive(Drop)]
pub struct ProcessCall {
    /// The place of the process's name in the call.
    pub place: Place,
    /// The process as the call has it.
    pub spec: ProcessSpec,
    /// The channels that it reads.
    pub ports: Ports,
}

impl SourceCall {
    /// Its node, and what is known of it.
    pub(crate) fn into_node(self, alloc: Global) -> (Node, NodeInfo)
        ensures { IsSourcePart self result }
    {
        let SourceCall {
            name,
            place,
            items,
            ..
        } = self;
        let node = Node {
            kind: NodeKind::Source { items },
            ports: Ports::of(Vec::new(alloc)),
            outs: 1,
        };
        let body = NodeBody::Source;
        (node, NodeInfo { name, place, body })
    }
}

impl OperatorCall {
    /// Its node, and what is known of it.
    pub(crate) fn into_node(self) -> (Node, NodeInfo)
        ensures { IsOperatorPart self result }
    {
        let OperatorCall {
            name,
            place,
            row,
            opts,
            ports,
            body,
        } = self;
        let outs = outs(row, &opts);
        let node = Node {
            kind: NodeKind::Op { row, opts },
            ports,
            outs,
        };
        (node, NodeInfo { name, place, body })
    }
}

impl ProcessCall {
    /// Its node, and what is known of it.
    pub(crate) fn into_node(self) -> Result<(Node, NodeInfo), Mem>
        requires ports { length self.ports < 2 ^ 32 }
        requires outputs { length self.spec.outputs.items < 2 ^ 32 }
        ensures { IfOk result (IsProcessPart self) }
    {
        let ProcessCall { place, spec, ports } = self;
        let name = spec.name.copy()?;
        let queue = queue_in(ports.items());
        let outs = spec.outputs.len() as u32;
        let node = Node {
            kind: NodeKind::Process { queue },
            ports,
            outs,
        };
        let body = NodeBody::Process(spec);
        Ok((node, NodeInfo { name, place, body }))
    }
}
