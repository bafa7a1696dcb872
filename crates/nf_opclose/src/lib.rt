//! Operators that answer when their input ends. Each has a meaning over a whole input, and emits the same bag in any order of the items.
#![tactic(auto)]

mod collect;
mod count;
mod emits;
mod extremes;
mod if_empty;
pub mod laws;
mod max;
mod min;
mod numbers;
mod reduce;
mod running;
mod sum;
mod to_list;
mod value;

pub use collect::CollectState;
pub use count::CountState;
pub use if_empty::IfEmptyState;
pub use max::MaxState;
pub use min::MinState;
pub use reduce::ReduceState;
pub use sum::SumState;
pub use to_list::ToListState;
pub use value::ValueState;
