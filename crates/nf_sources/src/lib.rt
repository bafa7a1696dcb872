//! The files of a script's sources: lists those that match a path, digests them, and stores them.
#![tactic(auto)]

mod fault;
mod literal;
mod matching;
mod storing;

pub use fault::SourceRefusal;
pub use literal::literal_file;
pub use matching::{folder_at, matching_files};
