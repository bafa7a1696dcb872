//! A node's part of the state of a run, in memory: what it emitted, what waits at its ports, and what its operator or its process
//! keeps.
#![tactic(auto)]

mod counts;
mod inlet;
mod kept;
pub mod laws;
mod node_state;
mod numbers;
mod outlet;

pub use node_state::{NodeState, Taken};
pub use numbers::NumberSet;
