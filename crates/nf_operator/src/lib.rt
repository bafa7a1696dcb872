//! The operators of channels as one: what each row of the table is, and one state for all of them.
#![tactic(auto)]

mod by_answer;
mod by_item;
mod gathers;
mod joins;
mod kinds;
pub mod laws;
mod ports;
mod state;
mod totals;

pub use kinds::{OutputKind, output_kind};
pub use ports::{allows, outs, takes_ports};
pub use state::OpState;
