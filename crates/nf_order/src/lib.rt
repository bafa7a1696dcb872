//! Checks that no result of a script can depend on the order in which its tasks end and its items arrive.
#![tactic(auto)]

mod accepted;
mod around;
mod calls;
mod exprs;
mod fault;
mod natives;
mod parts;
mod pipes;
mod receiver;
mod stmts;
mod subject;
mod workflows;

pub use accepted::{Accepted, check};
pub use fault::OrderFault;
pub use nf_kinds::OrderRule;
