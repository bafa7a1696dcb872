//! `Lane`, the trait of what runs jobs and looks for their files: over child processes, and over a table for tests.
#![tactic(auto)]

mod child;
mod child_lane;
mod done;
mod lane;
mod refusal;
mod seen;
mod store;
mod table;
mod table_lane;

pub use child::OUTPUT_LIMIT;
pub use child_lane::ChildLane;
pub use done::Done;
pub use lane::{Finished, Kept, Lane, Look, Present};
pub use refusal::LaneRefusal;
pub use seen::Seen;
pub use table::Table;
pub use table_lane::TableLane;
