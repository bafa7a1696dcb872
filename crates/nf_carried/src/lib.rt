//! What is left of a call once its words, files and script are read: a plan is run on lanes, its trace is written, the
//! files that it published are copied, and what that comes to is written.
#![tactic(auto)]

mod carry;
mod copied;
mod first;
mod noted;
mod work;

pub use carry::carry_out;
pub use work::{Shows, Way, Work};
