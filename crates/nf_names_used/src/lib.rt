//! Lists what an expression uses of its environment: names, functions, patterns, and what it may not do to them.
#![tactic(auto)]

mod again;
mod exprs;
mod leaves;
mod seen;
mod stmts;
mod uses;

pub use exprs::expr_uses;
pub use stmts::{closure_uses, stmts_uses};
pub use uses::{Use, UseKind};
