//! `RunOptions`: how a plan is run.

/// How a plan is run (own).
#[derive(Clone, Copy, Drop)]
pub struct RunOptions {
    /// Whether reports are taken from the records of an earlier run (Nextflow reference documentation, "Caching and
    /// resuming").
    pub resume: bool,
    /// Whether the trace is made.
    pub traced: bool,
}
