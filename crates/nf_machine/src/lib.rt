//! The step machine over a graph: what a step of a run is, and that every order of the steps gives what the graph means.
#![tactic(auto)]

mod event;
pub mod laws;
mod stop;

pub use event::{Cause, Event, Move};
pub use stop::{Outside, Stop};
