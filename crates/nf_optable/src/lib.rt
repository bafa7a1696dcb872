//! The table of the operators of channels, which all that reads a script's operators goes by.
#![tactic(auto)]

pub mod laws;
mod operator;
mod rows;

pub use nf_table::{Named, Table};
pub use operator::{Arrival, ArrivalOperator, Operator};
pub use rows::{Args, ClosureUse, Gives, OpRow, Options, operator_named, operators};
