//! The values of calls, operators and parts of expressions, whose faults get the place where they stand in the text.
#![tactic(auto)]

mod blocks;
mod methods;
mod natives;
mod operators;
mod params;
mod parts;
mod places;
mod rows;

pub use blocks::{BlockMethod, block_method, math_block};
pub use methods::{math_value, method_value};
pub use natives::{native_block, native_value};
pub use operators::{infix_value, matches_value, prefix_value};
pub use params::{bound, paired, split};
pub use parts::{
    copy_value, gathered_value, index_value, list_value, map_value, property_value, text_value,
};
pub use places::{fault_at, placed};
