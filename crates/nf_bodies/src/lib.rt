//! What the nodes of a plan do: how an operator's node answers an item, and the tasks of a process's node.
#![tactic(auto)]

mod answers;
mod body;
mod labels;
pub mod laws;
mod rules;
mod tasks;

pub use body::{NodeBody, NodeInfo};
pub use rules::NodeRules;
