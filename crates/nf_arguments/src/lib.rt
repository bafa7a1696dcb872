//! The arguments of a call in a workflow's body, in the order of the text: what stands before a pipe, those in brackets, and a closure behind them.
#![tactic(auto)]

mod args;
mod closures;
mod counts;
mod one;
mod written;

pub use args::{Args, Before};
pub use closures::closure_in;
pub use one::One;
pub use written::Written;
