//! `Plan`: what a run goes by.

use crate::want::Want;
use nf_bodies::NodeInfo;
use nf_graph::Graph;

/// The plan of a run (own).
pub struct Plan {
    /// Its sources, and its calls of operators and processes.
    pub graph: Graph,
    /// For each node of the graph its name, its place and what it does.
    pub infos: Vec<NodeInfo>,
    /// The nodes that print, in their order.
    pub views: Vec<u32>,
    /// The paths whose files its sources read, in the order of the script.
    pub wants: Vec<Want>,
}

impl Drop for Plan {
    fn drop(self) {
        let Plan {
            graph: _,
            infos: _,
            views: _,
            wants: _,
        } = self;
    }
}
