//! What workflows take and emit, as their bodies tell it: the names that they take, and the names of what they emit.
#![tactic(auto)]

mod emits;
mod tables;
mod takes;

pub use emits::{check_label, copy_name, emit_parts};
pub use tables::bound;
pub use takes::{check_taken, names_taken, stands_in};
