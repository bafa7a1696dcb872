//! A run of a flow under rules, a step at a time, for what drives flows to try them.
#![tactic(auto)]

mod asking;
mod echo;
pub mod laws;
mod leaves;
mod maker;
mod moves;
mod tickets;

pub use asking::is_task;
pub use echo::{Echo, echo_job};
pub use maker::GraphMaker;
pub use moves::{begin, go, halt, next_move};
pub use tickets::{finish, give, give_up, reuse, start};
