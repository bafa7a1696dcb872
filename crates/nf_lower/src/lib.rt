//! Lowers a script: makes the plan whose graph means what the script means, or gives the script's first fault.
#![tactic(auto)]

mod args;
mod body;
mod calls;
mod chains;
mod enters;
mod entry;
mod found;
mod members;
mod operators;
mod outside;
mod pipes;
mod script;
mod sets;
mod sources;
mod taking;
mod things;
mod workflows;

pub use outside::Outside;
pub use script::{lower, wanted};
