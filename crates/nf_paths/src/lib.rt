//! Paths of the files that sources read, and pairs of files.
#![tactic(auto)]

mod groups;
mod keys;
mod pairs;
mod paths;
mod pattern;
mod texts;

pub use pairs::pairs_of;
pub use paths::{is_source_path, name_at};
pub use pattern::is_pair_path;
