//! The library of a script: its functions, each after those that it calls, and the patterns that stand in it.
#![tactic(auto)]

mod order;
mod places;
mod shelf;
mod texts;
mod waiting;

pub use shelf::Shelf;
