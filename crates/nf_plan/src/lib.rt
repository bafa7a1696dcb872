//! The plan of a run, made node by node: a graph, and for each node its name, its place and what it does.
#![tactic(auto)]

mod builder;
mod calls;
pub mod laws;
mod plan;
mod ports;
mod sizes;
mod want;

pub use builder::PlanBuilder;
pub use calls::{OperatorCall, ProcessCall, SourceCall};
pub use plan::Plan;
pub use sizes::Sizes;
pub use want::Want;
