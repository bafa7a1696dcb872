//! Parses whole scripts: processes, workflows, functions and what else stands at the top.
#![tactic(auto)]

mod definitions;
mod inputs;
pub mod laws;
mod outputs;
mod parser;
mod processes;
mod sections;
mod tops;
mod workflows;

pub use nf_exprs::ParseFault;
pub use parser::script;
