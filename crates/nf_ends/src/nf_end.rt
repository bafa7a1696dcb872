//! `NfEnd`: what a call of the program gives back.

use crate::end::End;
use nf_lane::{Kept, Lane};
use nf_machine::Event;

/// What a call of the program gives back (own).
#[derive(Drop)]
pub struct NfEnd<L: Lane, K> {
    /// The exit status of the end.
    pub status: u8,
    /// How the call ended.
    pub end: End,
    /// The events of the run in their order. Empty if nothing was run.
    pub history: Vec<Event>,
    /// The jobs that were run, in the order of their Finish events, and the reports whose files were found, in that of their
    /// Reuse events.
    pub kept: Kept<L>,
    /// The lanes of the call, in their order.
    pub lanes: Vec<L>,
    /// The keeper of the call.
    pub keeper: K,
}
