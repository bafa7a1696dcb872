//! Tests of what order rules stand on.
#![tactic(auto)]

#[cfg(test)]
mod slips;
