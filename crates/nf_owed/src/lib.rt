//! What is owed of a finished run: its report, or the end that names why it stopped.
#![tactic(auto)]

mod finished;
pub mod laws;
mod run_end;

pub use finished::Finished;
pub use run_end::end_of_run;
