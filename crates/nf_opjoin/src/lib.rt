//! Operators that pair and group items by keys. Each has a meaning over a whole input, and emits the same bag in any order of the items.
#![tactic(auto)]

mod columns;
mod combine;
mod gathered;
mod group;
mod join;
mod keyed;
pub mod laws;
mod leftovers;
mod meeting;
mod tuples;

pub use combine::CombineState;
pub use group::GroupState;
pub use join::JoinState;
