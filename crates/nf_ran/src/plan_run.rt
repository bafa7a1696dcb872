//! `PlanRun`: a run that is over.

ghost use Rattle.std.specs.Prelude.{◌≡◌, [], None};

use nf_ends::End;
use nf_lane::{Kept, Lane};
use nf_machine::Event;
use nf_owed::Finished;
use nf_value::Txt;
use std::alloc::Global;

/// A run of a plan that is over (own).
#[derive(Drop)]
pub struct PlanRun<L: Lane, K> {
    /// Its events, in their order.
    pub history: Vec<Event>,
    /// The jobs that were run, and the reports whose files were found.
    pub kept: Kept<L>,
    /// The lanes of the run, in their order.
    pub lanes: Vec<L>,
    /// The keeper of the run.
    pub keeper: K,
    /// What is to be written and to be copied, or the end that names why nothing is.
    pub outcome: Result<Finished, End>,
    /// The trace of the run, if it was asked for and there was memory for it; it is there of a run that stopped, too.
    pub trace: Option<Txt>,
}

impl<L: Lane, K> PlanRun<L, K> {
    /// What a run comes to for whose first event there was no memory. Takes no memory.
    pub(crate) fn idle(
        alloc: Global,
        keeper: K,
        lanes: Vec<L>,
        outcome: Result<Finished, End>,
    ) -> PlanRun<L, K>
        ensures history { result.history.items ≡ [] }
        ensures dones { result.kept.dones.items ≡ [] }
        ensures seens { result.kept.seens.items ≡ [] }
        ensures lanes { result.lanes ≡ lanes }
        ensures keeper { result.keeper ≡ keeper }
        ensures outcome { result.outcome ≡ outcome }
        ensures trace { result.trace ≡ None }
    {
        let kept = Kept {
            dones: Vec::new(alloc),
            seens: Vec::new(alloc),
        };
        PlanRun {
            history: Vec::new(alloc),
            kept,
            lanes,
            keeper,
            outcome,
            trace: None,
        }
    }
}
