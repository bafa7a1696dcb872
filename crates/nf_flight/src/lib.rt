//! Takes in flight: the tickets that a run hands out, and what it keeps of each by its number.
#![tactic(auto)]

mod flight;
mod flights;
mod inputs;
mod ticket;

pub use flight::Flight;
pub use flights::Flights;
pub use inputs::KeptInputs;
pub use ticket::Ticket;
