//! `TraceLine`: a line of a trace.

use nf_value::Txt;

/// A line of a trace, but for the first one, the header (own; the five columns are among those that the Nextflow documentation,
/// "Tracing & visualisation", "Trace file", lists). No column has a tab or a line end.
pub struct TraceLine {
    /// The task's number in its run, from 1, in decimal.
    pub task_id: Txt,
    /// Two hexadecimal digits of the job's key, a slash and six more; they name the work directory.
    pub hash: Txt,
    /// The process's name, and in parentheses the tag, if there is one.
    pub name: Txt,
    /// `COMPLETED`, `FAILED`, `CACHED` or `ABORTED`.
    pub status: Txt,
    /// The exit status in decimal, or `-`.
    pub exit: Txt,
}

impl Drop for TraceLine {
    fn drop(self) {
        let TraceLine {
            task_id: _,
            hash: _,
            name: _,
            status: _,
            exit: _,
        } = self;
    }
}
