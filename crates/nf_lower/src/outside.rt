//! `Outside`: what stands outside of a script.

use nf_found::Found;
use nf_value::Pairs;

/// What stands outside of a script (own).
#[derive(Drop, Clone, Copy)]
pub struct Outside<'a> {
    /// The parameters that are set from outside, which win over the script's.
    pub params: &'a Pairs,
    /// The folder of the script.
    pub folder: &'a str,
    /// The files that were found. Of two entries of one path the first counts.
    pub found: &'a [Found],
}
