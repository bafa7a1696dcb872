//! The methods of texts, and what all methods share: faults, the checks of receivers and arguments, the limits of values,
//! and the lengths of values' texts.
#![tactic(auto)]

pub mod args;
mod characters;
mod fault;
pub mod joining;
pub mod lengths;
pub mod limits;
mod replacing;
pub mod texts;
pub mod tokens;
mod trimming;

pub use fault::CallFault;
