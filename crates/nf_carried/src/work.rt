//! `Work`: what is left to do of a call, and `WorkEnd`: what it came to.

ghost use Rattle.std.specs.Prelude.{◌≡◌, []};
ghost use Rattle.nf_carried.specs.Carried.{options_of};

use nf_ends::{End, Output};
use nf_lane::{Kept, Lane};
use nf_machine::Event;
use nf_plan::Plan;
use nf_ran::RunOptions;
use nf_value::{Bytes, Txt};
use std::alloc::Global;

/// What is left to do of a call (own).
#[derive(Drop)]
pub enum Work {
    /// This text is written: the canonical text of a script, or the line `accepted`.
    Write(Bytes),
    /// Nothing is run, and the call ends with this refusal.
    Refuse(End),
    /// A plan is run, its trace is written, the files that it published are copied, and its report is written.
    Run {
        /// The plan.
        plan: Plan,
        /// How it is run, and what is told of it.
        way: Way,
    },
}

/// How a plan is run, and what is told of it (own).
#[derive(Drop)]
pub struct Way {
    /// Whether reports are taken from the records of an earlier run (Nextflow reference documentation, "Caching and
    /// resuming").
    pub resume: bool,
    /// The work folder. The file store lies in it, from which published files are copied.
    pub folder: Txt,
    /// The file that the trace is written to, if that was asked for.
    pub trace: Option<Txt>,
    /// What is written of the run.
    pub shows: Shows,
}

impl Way {
    /// How the plan is run for that.
    pub(crate) fn options(&self) -> RunOptions
        ensures { result ≡ options_of self.now }
    {
        RunOptions {
            resume: self.resume,
            traced: self.trace.is_some(),
        }
    }
}

/// What is written of a run that went well, before the line that counts its tasks (own).
#[derive(Clone, Copy, Drop)]
pub enum Shows {
    /// Its report.
    Report,
    /// Of a script that was made from two numbers: one line with the numbers, and what the report's size and end are.
    Generated {
        /// How many items the script has.
        n: u32,
        /// The number from which they are made.
        start: u64,
    },
}

/// Work that is done (own).
#[derive(Drop)]
pub(crate) struct WorkEnd<L: Lane, K> {
    /// The events of the run, in their order.
    pub history: Vec<Event>,
    /// The jobs that were run, and the reports whose files were found.
    pub kept: Kept<L>,
    /// The lanes of the call, in their order.
    pub lanes: Vec<L>,
    /// The keeper of the call.
    pub keeper: K,
    /// What is to be written, or the end of a refusal.
    pub outcome: Result<Output, End>,
}

impl<L: Lane, K> WorkEnd<L, K> {
    /// What work comes to that ran nothing. Takes no memory.
    pub fn idle(
        alloc: Global,
        keeper: K,
        lanes: Vec<L>,
        outcome: Result<Output, End>,
    ) -> WorkEnd<L, K>
        ensures history { result.history.items ≡ [] }
        ensures dones { result.kept.dones.items ≡ [] }
        ensures seens { result.kept.seens.items ≡ [] }
        ensures lanes { result.lanes ≡ lanes }
        ensures keeper { result.keeper ≡ keeper }
        ensures outcome { result.outcome ≡ outcome }
    {
        let kept = Kept {
            dones: Vec::new(alloc),
            seens: Vec::new(alloc),
        };
        WorkEnd {
            history: Vec::new(alloc),
            kept,
            lanes,
            keeper,
            outcome,
        }
    }
}
