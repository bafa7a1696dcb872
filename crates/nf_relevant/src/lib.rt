//! What the value of an expression depends on: the names that stand in it.
#![tactic(auto)]

pub mod laws;
mod names;

pub use names::{names_in, names_in_closure};
