//! What one holding of a run's lock does, in one place for one thread and for many, and the rest of a run on one thread.
#![tactic(auto)]

mod asking;
mod fixed;
pub mod laws;
mod leaves;
mod moves;
mod next;
mod ran;
mod run_state;
mod tasks;

pub use fixed::Fixed;
pub use next::Next;
pub use ran::{Ran, outs_of};
pub use run_state::RunState;
