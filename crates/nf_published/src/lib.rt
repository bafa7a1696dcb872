//! What a run published, by its history.
#![tactic(auto)]

pub mod laws;
mod reading;
mod reports;
mod told;

pub use told::published;
