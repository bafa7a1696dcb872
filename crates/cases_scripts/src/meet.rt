//! `MeetLane`: a lane whose first run waits for the first run of another.

ghost use Rattle.std.specs.Prelude.{◌≡◌};

use crate::meeting::Meeting;
use nf_job::{Job, Report};
use nf_lane::{Lane, LaneRefusal, Look};
use std::alloc::Global;
use std::sync::Wait;

/// Runs its jobs on another lane, and holds its first run until a second lane's first run begins. Where none begins in all
/// turns of the meeting, it fails. It tells what the other lane tells (own).
#[derive(Drop)]
pub(crate) struct MeetLane<R, L> {
    inner: L,
    meeting: Meeting<R>,
    has_begun: bool,
    unmet: u64,
}

impl<R: Wait + Copy + Drop, L: Lane + Drop> MeetLane<R, L> {
    ghost use Rattle.cases_scripts.specs.MeetLane.{inner_of, unmet_of};

    /// A lane that runs its jobs on this one. All lanes of a call come to one meeting.
    pub(crate) fn new(inner: L, meeting: Meeting<R>) -> MeetLane<R, L>
        ensures inner { inner_of result ≡ inner }
        ensures unmet { unmet_of result ≡ 0 }
    {
        MeetLane {
            inner,
            meeting,
            has_begun: false,
            unmet: 0,
        }
    }

    // Holds the first run. `false` where no second lane's run began.
    fn hold(&mut self) -> bool
        ensures inner { inner_of self.new ≡ inner_of self.old }
        ensures unmet { unmet_of self.new ≡ unmet_of self.old }
    {
        if self.has_begun {
            return true;
        }
        self.has_begun = true;
        self.meeting.meet()
    }
}

impl<R: Wait + Copy + Drop, L: Lane + Drop> Lane for MeetLane<R, L> {
    ghost use Rattle.cases_scripts.specs.MeetLane.{inner_of, count_of, told_by};

    type Done = L::Done;

    type Seen = L::Seen;

    ghost runs = { told_by L.runs };

    ghost faults = { count_of L.faults };

    ghost world = { told_by L.world };

    ghost store = { told_by L.store };

    fn run(&mut self, alloc: Global, job: &Job) -> Result<L::Done, LaneRefusal> {
        let has_met = self.hold();
        let answer = self.inner.run(alloc, job);
        if !has_met {
            self.unmet = self.unmet.saturating_add(1);
            return Err(LaneRefusal::Failed);
        }
        answer
    }

    fn look(&mut self, alloc: Global, report: &Report) -> Result<Look<L::Seen>, LaneRefusal> {
        self.inner.look(alloc, report)
    }

    fn runs(&self) -> u64 {
        self.inner.runs()
    }

    fn faults(&self) -> u64 {
        self.inner.faults().saturating_add(self.unmet)
    }
}
