//! The rules of a graph as three closures: what an operator's closure gives, a task's job, and what its report amounts to.
#![tactic(auto)]

mod book;
pub mod laws;
mod rules;
mod stored;

pub use book::RuleBook;
pub use rules::Rules;
pub use stored::StoredRules;
