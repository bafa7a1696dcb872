//! Which expressions of a workflow's body lead to channels or files, and what is wanted of what a name stands for.
#![tactic(auto)]

mod leading;
mod members;
mod names;
mod wanted;

pub use leading::{InBody, Leading};
pub use members::{member_of, output_at};
pub use names::is_channel_word;
pub use wanted::{has_no_file, value_wanted};
