//! The trace of a run: `trace_text` writes it, `read_trace` reads one.
#![tactic(auto)]

mod fault;
mod line;
mod read;
mod task;
mod write;

pub use fault::TraceFault;
pub use line::TraceLine;
pub use read::read_trace;
pub use task::{Attempt, Attempts, TaskStatus, TracedTask};
pub use write::trace_text;
