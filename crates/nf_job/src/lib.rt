//! A job, what one attempt at a task runs, and its report.
#![tactic(auto)]

mod emitted;
mod fault;
mod files;
mod found;
mod inputs;
mod job;
pub mod laws;
mod parts;
mod report;
mod texts;
mod work;

pub use emitted::{Emitted, Outputs};
pub use fault::{TaskFault, TaskRefusal};
pub use files::FileRefs;
pub use found::Found;
pub use inputs::inputs_code;
pub use job::{Job, OldJob, make_job};
pub use parts::JobParts;
pub use report::{Captured, Report};
pub use texts::Txts;
pub use work::work_name;
