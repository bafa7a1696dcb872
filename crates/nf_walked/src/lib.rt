//! What goes through the bodies of a script, and its steps that go into no tree: each is one of the walks by which the
//! meaning of scripts is defined.
#![tactic(auto)]

mod bindings;
mod nodes;
mod steps;
mod values;
mod walker;

pub use walker::{Walker, bad_option, begin, stands_alone};
