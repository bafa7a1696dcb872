//! What a run publishes: the report of a run that ended well, and the copies of its published files.
#![tactic(auto)]

mod clash;
mod copies;
mod fault;
mod lines;
mod reports;

pub use copies::{copy_out, make_parent};
pub use fault::{Clash, CopyRefusal, PublishFault};
pub use reports::report;
