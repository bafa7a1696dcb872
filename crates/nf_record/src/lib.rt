//! Records: the bytes that keep what a task's job came to, and the look-up of a job in them.
#![tactic(auto)]

pub mod laws;
mod look;
mod read;
mod stored;
mod write;

pub use look::lookup;
pub use read::read_record;
pub use stored::{Form, Record};
pub use write::record_text;
