//! Which total the closure of `reduce` stands for.
#![tactic(auto)]

mod marks;
mod totals;

pub use totals::total_of;
