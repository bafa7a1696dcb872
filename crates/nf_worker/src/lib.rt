//! What a worker does between two holdings of a run's lock: it asks the rules and its lane. It needs no lock and no thread.
#![tactic(auto)]

mod items;
mod job;
mod lane_calls;

pub use items::{Answered, answers_of};
pub use job::job_of;
pub use lane_calls::{look_for, ran_by};
