//! What a run printed, by its history.
#![tactic(auto)]

pub mod laws;
mod per_view;
mod reading;

pub use per_view::views;
