//! Parses expressions, closures and statements: gives the tree that tokens spell, or the one place where they go wrong.
#![tactic(auto)]

mod band;
pub mod closures;
pub mod expect;
pub mod exprs;
mod fault;
pub mod peek;
pub mod posts;
pub mod prims;
mod reading;
pub mod stmts;

pub use band::Band;
pub use expect::{MOST_OPEN, MOST_PARTS};
pub use fault::{Fault, ParseFault};
pub use reading::{expr, place_at};
