//! What stands at the top of a script, read in the order of its text before its entry: each name once, and the script's
//! parameters.
#![tactic(auto)]

mod names;
mod read;
mod values;

pub use read::read_tops;
