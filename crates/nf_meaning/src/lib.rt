//! What a script means: the bags of its channels, its tasks and its faults, with no item in motion.
#![tactic(auto)]

mod fault;
pub mod laws;

pub use fault::LowerFault;
