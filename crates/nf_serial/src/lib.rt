//! The rest of a run on one lane, on one thread; and a whole run.
#![tactic(auto)]

mod lane_calls;
mod measure;
mod one_lane;
mod one_task;
mod whole_run;

pub use one_lane::serial;
pub use whole_run::run_alone;
