//! The entry of a script, which is the workflow without a name; and how many workflows have a name.
#![tactic(auto)]

mod entry;

pub use entry::{check_entry, entry_of, named_workflows};
