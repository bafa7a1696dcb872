//! What a command line asks for: a text that is written, or a script that is run; or why it is refused.
#![tactic(auto)]

mod answer;
mod folders;
mod line;
mod run;
mod tree;

pub use answer::{Asked, AskedRun};
pub use line::asked;
