//! The names of a workflow's body while its graph is made: values, channels by the ports that read them, and outputs of
//! calls.
#![tactic(auto)]

mod names;
mod things;

pub use names::BodyNames;
pub use things::{CallOutput, Thing};
