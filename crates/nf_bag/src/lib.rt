//! Bags: lists of values up to order, their sorted lists, and the faults and options of operators.
#![tactic(auto)]

mod bag;
mod fault;
pub mod laws;
mod options;
mod rows;
mod sorting;

pub use bag::{count_of, same_bag};
pub use fault::OpFault;
pub use options::{OpOpts, Total};
pub use rows::Row;
pub use sorting::{distinct, sorted};
