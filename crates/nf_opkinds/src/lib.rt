//! What calls of operators, sources and processes may give, and which order rules they break.
#![tactic(auto)]

mod calls;
mod closures;
mod operators;
mod results;

pub use calls::{is_queue_source, process_call, source_call};
pub use operators::member_call;
pub use results::{or_plain, shape_of};
