//! `Case`: a graph with its rules and its outcomes.

use crate::outcomes::Outcome;
use crate::rules::TableRules;
use nf_bag::Row;
use nf_graph::{Node, NodeKind};
use nf_steps::GraphMaker;
use std::alloc::Global;

/// In which orders a row is run.
#[derive(Debug, Clone, Copy, PartialEq, Eq, Drop)]
pub(crate) enum Orders {
    /// In all of them.
    All,
    /// In a thousand.
    Seeded,
    /// In twenty, each with the memory of each of its steps refused in turn.
    Refused,
}

/// A graph, its rules, and what its tasks report.
#[derive(Drop)]
pub(crate) struct Case {
    pub(crate) orders: Orders,
    pub(crate) graph: GraphMaker,
    pub(crate) rules: TableRules,
    pub(crate) outcomes: Vec<Outcome>,
    /// Whether an attempt may be reused.
    pub(crate) is_resumed: bool,
}

impl Case {
    /// A row of which nothing is told.
    pub(crate) fn new(alloc: Global) -> Case {
        Case {
            orders: Orders::All,
            graph: GraphMaker::new(alloc),
            rules: TableRules::new(alloc),
            outcomes: Vec::new(alloc),
            is_resumed: false,
        }
    }

    /// The node at a place, if there is one.
    pub(crate) fn node(&self, place: u32) -> Option<&Node> {
        self.graph.node(place)
    }

    /// Whether the node at a place is a `view`.
    pub(crate) fn is_view(&self, place: u32) -> bool {
        match self.node(place) {
            Some(node) => matches!(&node.kind, NodeKind::Op { row: Row::View, .. }),
            None => false,
        }
    }
}
