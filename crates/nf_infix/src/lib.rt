//! The values of infix and prefix operators, indexes, properties, lists, maps and templates, given the values of their
//! operands.
#![tactic(auto)]

mod comparisons;
mod gathered;
mod kinds;
mod literals;
mod pairs;
mod products;
mod properties;
mod ranges;
mod reading;
mod sums;
mod templates;

pub use comparisons::{at_least, at_most, differs, greater, is_in, less, matches, same};
pub use gathered::Gathered;
pub use literals::{new_list, new_map};
pub use products::{negative, remainder, times};
pub use properties::property;
pub use ranges::range;
pub use reading::index;
pub use sums::{minus, plus};
pub use templates::Written;
