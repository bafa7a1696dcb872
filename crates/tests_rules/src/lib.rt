//! A test of rules by three closures: those of a small graph, asked by two workers.
#![tactic(auto)]

#[cfg(test)]
mod small;
