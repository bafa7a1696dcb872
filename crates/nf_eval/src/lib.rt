//! Evaluates expressions, and applies closures, in an environment of names, functions and patterns.
//!
//! `specs/Evaluation` says what each tree means; the functions here walk the nodes of `nf_ast` in memory and give exactly that.
#![tactic(auto)]

mod around;
mod blocks;
mod bodies;
mod calls;
mod chains;
mod closures;
mod conditionals;
mod environment;
mod evaluator;
mod flow;
mod functions;
mod levels;
mod library;
mod patterns;
mod reading;
mod scope;
mod shapes;
mod subjects;
mod turns;
mod value_calls;
mod values;

pub use closures::Closure;
pub use environment::Env;
pub use evaluator::{apply, eval};
pub use library::Library;
pub use scope::Scope;
