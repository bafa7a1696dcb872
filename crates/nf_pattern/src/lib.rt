//! Patterns of file names, and regular expressions that match whole texts.
#![tactic(auto)]

mod alternatives;
mod fault;
mod globs;
pub mod laws;
mod literal;
mod parts;
mod plain;
mod whole;

pub use fault::PatternFault;
pub use globs::glob;
pub use literal::is_literal;
pub use whole::WholeRe;
