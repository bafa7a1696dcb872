//! What a step of lowering owes the walk through a script, how steps join, and what stays when a plan grows.
#![tactic(auto)]

pub mod laws;
