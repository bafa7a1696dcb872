//! `Node`: a node of a graph.

ghost use Rattle.std.specs.Prelude.{◌≡◌, IfOk};

use crate::port::Ports;
use nf_bag::{OpOpts, Row};
use nf_value::{Mem, Vals};

/// What a node is (own).
pub enum NodeKind {
    /// A source of items (Nextflow reference documentation, "Channel factories"). It has no ports.
    Source {
        /// The items.
        items: Vals,
    },
    /// An operator (Nextflow reference documentation, "Operators").
    Op {
        /// Which one.
        row: Row,
        /// Its options.
        opts: OpOpts,
    },
    /// The call of a process (Nextflow reference documentation, "Process").
    Process {
        /// The place of the one port that isn't a value port, if there is one.
        queue: Option<u32>,
    },
}

impl Drop for NodeKind {
    fn drop(self) {
        match self {
            NodeKind::Source { items: _ }
            | NodeKind::Op { row: _, opts: _ }
            | NodeKind::Process { queue: _ } => {}
        }
    }
}

impl NodeKind {
    /// A copy of the kind.
    ///
    /// # Errors
    ///
    /// `Mem` if there is no memory for it.
    pub fn copy(&self) -> Result<NodeKind, Mem>
        ensures { IfOk result (λ k. k ≡ self.now) }
    {
        match self {
            NodeKind::Source { items } => Ok(NodeKind::Source {
                items: items.copy()?,
            }),
            NodeKind::Op { row, opts } => Ok(NodeKind::Op {
                row: *row,
                opts: opts.copy()?,
            }),
            NodeKind::Process { queue } => Ok(NodeKind::Process { queue: *queue }),
        }
    }
}

/// A node of a graph (own).
pub struct Node {
    /// What it is.
    pub kind: NodeKind,
    /// What it reads.
    pub ports: Ports,
    /// How many outputs it has.
    pub outs: u32,
}

impl Drop for Node {
    fn drop(self) {
        let Node {
            kind: _,
            ports: _,
            outs: _,
        } = self;
    }
}

impl Node {
    /// A copy of the node.
    ///
    /// # Errors
    ///
    /// `Mem` if there is no memory for it.
    pub fn copy(&self) -> Result<Node, Mem>
        ensures { IfOk result (λ n. n ≡ self.now) }
    {
        let kind = self.kind.copy()?;
        let ports = self.ports.copy()?;
        Ok(Node {
            kind,
            ports,
            outs: self.outs,
        })
    }
}
