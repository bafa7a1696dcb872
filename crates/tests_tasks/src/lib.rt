//! Tests of the lane that runs jobs as scripts of a shell: over a host in memory, whose calls fail in turn, and over the system.
#![tactic(auto)]

#[cfg(test)]
mod memory;
#[cfg(test)]
mod shell;
#[cfg(test)]
mod tasks;
