//! What a script defines at its top, by name, and what a name is where it is called.
#![tactic(auto)]

mod callee;
mod definitions;
mod functions;
mod tables;

pub use callee::Callee;
pub use definitions::Definitions;
pub use functions::DefinedFunction;
