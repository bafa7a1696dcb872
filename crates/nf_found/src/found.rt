//! `Found`: what was found for the path of a source.

use nf_value::{FileRef, Txt};

/// The files that match the path of a source, in the order of their names (Nextflow reference documentation, "Channel
/// factories", "fromPath").
#[derive(Drop)]
pub struct Found {
    /// The path as the script has it.
    pub path: Txt,
    /// The files.
    pub files: Vec<FileRef>,
}
