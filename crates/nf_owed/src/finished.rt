//! `Finished`: what a run comes to that ended well.

use nf_ends::Output;
use nf_tasks::Targets;

/// What a run comes to that ended well (own).
#[derive(Drop)]
pub struct Finished {
    /// What is written of it: its report, and the line after it.
    pub output: Output,
    /// The files that it published, in the order of its history. They aren't copied out yet.
    pub targets: Targets,
}
