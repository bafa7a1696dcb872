//! The trace of a run, from its history.
#![tactic(auto)]

mod attempts;
mod taken;
mod tasks;

pub use tasks::{trace, traced};
