//! A plan that is run on several lanes, and what its run comes to.
#![tactic(auto)]

mod on_lanes;
mod options;
mod plan_run;
mod upshot;

pub use nf_owed as owed;
pub use on_lanes::{run_plan, without_memory};
pub use options::RunOptions;
pub use plan_run::PlanRun;
