//! What `gen` makes from two numbers: its script, `generated_script`, and the line that it writes of the run, `generated_line`.
#![tactic(auto)]

mod items;
mod line;
mod script;

pub use line::generated_line;
pub use script::generated_script;
