//! The wiring of a graph: where the port of a number stands, and which ports read a node.
#![tactic(auto)]

pub mod laws;
mod place;
mod readers;
mod wiring;

pub use place::Place;
pub use readers::Readers;
pub use wiring::Wiring;
