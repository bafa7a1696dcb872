//! Operators that emit as items come. Each has a meaning over a whole input, and emits the same bag in any order of the items.
#![tactic(auto)]

mod branch;
mod columns;
mod emits;
mod filter;
mod flat_map;
mod flatten;
pub mod laws;
mod map;
mod multi_map;
mod nested;
mod pass;
mod transpose;
mod unique;

pub use branch::BranchState;
pub use filter::FilterState;
pub use flat_map::FlatMapState;
pub use flatten::FlattenState;
pub use map::MapState;
pub use multi_map::MultiMapState;
pub use pass::PassState;
pub use transpose::TransposeState;
pub use unique::UniqueState;
