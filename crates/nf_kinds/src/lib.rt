//! What the names and expressions of a workflow's body may be before a run (plain values, value channels, queues), and
//! which of the order rules that a script breaks is the first.
#![tactic(auto)]

mod args;
mod bindings;
mod fault;
mod half_bound;
mod kinds;
mod scope;

pub use args::{ClosureFacts, Given, any_queue, any_unknown};
pub use fault::{Broken, OrderRule, earliest, note_if};
pub use kinds::{Key, Kinds, Output, Shape, output_in, some_output};
pub use scope::{BodyScope, given_kinds};
