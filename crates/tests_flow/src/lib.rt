//! Tests of what a run keeps in memory: a node's part of the state, and the takes in flight; and of whole runs, an event at a time.
#![tactic(auto)]

#[cfg(test)]
mod flights;
#[cfg(test)]
mod nodes;
#[cfg(test)]
mod running;
#[cfg(test)]
mod sets;
#[cfg(test)]
mod stepping;
