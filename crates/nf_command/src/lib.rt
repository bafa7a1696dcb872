//! Reads the command line: `read_words` gives the command, or the first wrong word.
#![tactic(auto)]

mod command;
mod fault;
mod numbers;
mod read;
mod run;
mod values;

pub use command::{Command, RunWords};
pub use fault::UsageFault;
pub use read::read_words;
