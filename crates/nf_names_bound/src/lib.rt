//! Finds the first thing that an expression uses and its environment doesn't bind.
#![tactic(auto)]

mod bound;

pub use bound::{unbound, unbound_closure};
