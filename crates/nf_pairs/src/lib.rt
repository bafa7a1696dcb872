//! Maps that are put together: a pair more, or the pairs of another map, which win.
#![tactic(auto)]

mod put;

pub use put::{has_key, merged, with_pair};
