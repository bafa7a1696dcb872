//! What stands around a workflow's body while its graph is made, and what expressions and closures come to in it.
#![tactic(auto)]

mod closures;
mod everywhere;
mod forms;
mod labels;
mod lists;
mod options;
mod processes;
mod surroundings;
mod values;
mod view;
mod words;

pub use forms::closure_in;
pub use lists::list_made;
pub use options::flag_in;
pub use processes::ProcessFormulas;
pub use surroundings::Surroundings;
pub use words::word_of;
