//! Lowering: what the walk through a script has in memory, and the steps that go through no tree.
#![tactic(auto)]

mod calls;
mod channels;
mod copies;
mod names;
mod nodes;
mod state;
mod workflows;

pub use copies::copy_thing;
pub use state::Lowering;
pub use workflows::Outer;
