//! What the numbers of a run stay below, whatever the order of its events.
#![tactic(auto)]

pub mod laws;
