//! What operators and sources take of a call's arguments: how many, which options, and which values.
#![tactic(auto)]

mod arity;
mod options;
mod sources;
mod values;

pub use arity::{ports_of, takes};
pub use options::{has_option, no_options, with_option};
pub use sources::{PathKind, Source};
pub use values::{flag_in, list_wanted, text_wanted};
