//! `PoolEnd`: what a run on several lanes gives back.

use nf_flow::Flow;
use nf_keeper::Keeper;
use nf_lane::{Kept, Lane};

/// What a run on several lanes gives back, on every path (own).
#[derive(Drop)]
pub struct PoolEnd<L: Lane, K: Keeper> {
    /// The run, which is over.
    pub flow: Flow,
    /// The Dones of its Finish events and the Seens of its Reuse events, in their order.
    pub kept: Kept<L>,
    /// The lanes, in their order.
    pub lanes: Vec<L>,
    /// The keeper.
    pub keeper: K,
}
