//! The tasks of any process: what each attempt runs, what its report amounts to,
//! and which files are published of it.
#![tactic(auto)]

mod clash;
mod emission;
mod failure;
mod formulas;
mod input_parts;
mod inputs;
mod jobs;
pub mod laws;
mod outputs;
mod prepared;
mod process;
mod publishing;
mod script;
mod taking;
mod target_list;
mod task;

pub use input_parts::{InputPart, InputParts};
pub use inputs::{Bound, Input, InputShape, bind, seen_names};
pub use jobs::{job, parts, staged, tag};
pub use outputs::{emit_of, targets};
pub use prepared::Prepared;
pub use process::{
    ErrorStrategy, Output, OutputPart, OutputShape, ProcessSpec, Publish, TaskScript,
};
pub use target_list::{Target, Targets};
