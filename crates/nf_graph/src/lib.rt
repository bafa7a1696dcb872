//! Graphs of sources, operators and processes, and what they mean.
#![tactic(auto)]

mod graph;
pub mod laws;
mod node;
mod port;

pub use graph::Graph;
pub use node::{Node, NodeKind};
pub use port::{Port, Ports};
