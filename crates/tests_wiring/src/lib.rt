//! What no program shows of the wiring of a graph.
#![tactic(auto)]

#[cfg(test)]
mod wired;
