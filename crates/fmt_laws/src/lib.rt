//! The laws of formatting: what `fmt` writes is read as the same script, and formatting it once more changes nothing.
#![tactic(auto)]

mod again;
pub mod laws;

pub use again::{Again, read_again};
