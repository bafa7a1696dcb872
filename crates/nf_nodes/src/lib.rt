//! The nodes of a run in memory, and the moves that are possible.
#![tactic(auto)]

mod emitting;
mod index;
pub mod laws;
mod nodes;
mod opening;
mod readers;
mod ready;
mod steps;

pub use nodes::Nodes;
