//! The step machine in code: a run's state, whose every method is one event of the machine.
#![tactic(auto)]

mod ends;
mod flow;
mod laws;
mod log;
mod moves;
mod parts;
mod questions;
mod returns;
mod stopped;

pub use flow::Flow;
