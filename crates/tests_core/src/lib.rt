//! Tests of what one holding of a run's lock does: each call once, with ample memory.
#![tactic(auto)]

#[cfg(test)]
mod calls;
#[cfg(test)]
mod runs;
#[cfg(test)]
mod tried;
