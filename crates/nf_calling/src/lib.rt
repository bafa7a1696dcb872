//! Where the walk through a script begins; calls of processes and workflows, but for their arguments and the bodies of workflows;
//! and what outputs of calls, and names at the head of a pipe, stand for.
#![tactic(auto)]

mod begins;
mod checks;
mod entry;
mod gives;
pub mod laws;
mod members;
mod pipes;
mod setting;
mod tasks;

pub use begins::{begin_process, begin_workflow};
pub use checks::{arg_count, check_process, check_workflow};
pub use entry::walker_of;
pub use gives::called_here;
pub use members::{name_member, output_of};
pub use pipes::{flowing, is_called_alone};
pub use setting::Setting;
pub use tasks::call_process;
