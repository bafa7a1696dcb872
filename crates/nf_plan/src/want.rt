//! `Want`: a path whose files a source reads.

use nf_value::Txt;

/// A path whose files a source reads (Nextflow reference documentation, "Channel factories").
#[derive(Drop)]
pub struct Want {
    /// The path; its last component may be a pattern.
    pub path: Txt,
    /// Whether there must be a file.
    pub must: bool,
    /// Whether the files are read in pairs.
    pub pairs: bool,
}
