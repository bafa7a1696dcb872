//! The definition of a process, as a call of it has it.
#![tactic(auto)]

mod directives;
mod formulas;
mod inputs;
mod leaves;
mod names;
mod options;
mod outputs;
mod process;
mod publishing;

pub use formulas::Formulas;
pub use inputs::inputs_of;
pub use process::called_process;
