//! What lies under a run's lock while several workers work on it: the run, the tickets that are out with them, and two books.
#![tactic(auto)]

mod ending;
mod found;
mod handed;
mod locked;
mod moves;
mod starting;
mod work;

pub use locked::Locked;
pub use work::{Begun, Work};
