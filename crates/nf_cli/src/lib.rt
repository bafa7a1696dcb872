//! The program as one function, `nf_main`: from the command line to what is written and the exit status.
#![tactic(auto)]

mod plans;
mod same;
mod top;

pub use top::{LANES, nf_main};
