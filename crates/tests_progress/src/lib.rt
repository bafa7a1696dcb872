//! Tests of what a person sees while a run goes on.
#![tactic(auto)]

#[cfg(test)]
mod lines;
#[cfg(test)]
mod watched;
