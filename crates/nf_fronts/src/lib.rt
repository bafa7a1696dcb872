//! Expressions by what stands last in them, and their fronts: the first operands of a row, or the first parts of a chain.
#![tactic(auto)]

mod front;
mod last;
mod turns;

pub use front::Front;
pub use last::Last;
