//! A table whose rows are found by their names.
#![tactic(auto)]

mod table;

pub use table::{Named, Table};
