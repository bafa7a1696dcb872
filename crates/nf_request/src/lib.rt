//! What a command line asks for, step by step: its command, the script's text and tree, its parameters, and that it keeps the order rules.
#![tactic(auto)]

mod command;
mod order;
mod params;
mod text;
mod tree;

pub use command::command_of_words;
pub use order::accepted;
pub use params::{PARAMS_LIMIT, params_of_run};
pub use text::{SCRIPT_LIMIT, script_text};
pub use tree::script_of_text;
