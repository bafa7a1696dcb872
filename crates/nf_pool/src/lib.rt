//! A run on several lanes at once: workers under one lock, and what they left on one thread.
#![tactic(auto)]

mod duty;
mod end;
mod fork;
mod holdings;
mod items;
mod sweep;
mod task;
mod whole_run;
mod worker;

pub use end::PoolEnd;
pub use whole_run::run;
