//! Tests of whole runs of a small graph, on one lane and on four, and of the same graph resumed.
#![tactic(auto)]

#[cfg(test)]
mod pools;
#[cfg(test)]
mod rules;
#[cfg(test)]
mod runs;
