//! `WatchedLane`: a lane whose runs and looks are told to who watches.

ghost use Rattle.std.specs.Prelude.{◌≡◌};

use crate::watcher::Watcher;
use nf_job::{Job, Report};
use nf_lane::{Lane, LaneRefusal, Look};
use nf_progress::Step;
use std::alloc::Global;
use std::rt::Clock;
use std::sync::Wait;

/// Passes each call on to a lane, and tells who watches of the tasks (own). It reveals what that lane reveals.
#[derive(Drop)]
pub struct WatchedLane<L, R> {
    inner: L,
    watcher: Watcher<R>,
}

impl<L, R> WatchedLane<L, R> {
    ghost use Rattle.nf_watched.specs.WatchedLane.{inner_of};

    /// Passes the calls on to this lane. Takes no memory.
    pub fn new(inner: L, watcher: Watcher<R>) -> WatchedLane<L, R>
        ensures { inner_of result ≡ inner }
    {
        WatchedLane { inner, watcher }
    }
}

impl<L: Lane, R: Wait + Clock + Eprint + AllocGlobal> Lane for WatchedLane<L, R> {
    ghost use Rattle.nf_watched.specs.WatchedLane.{inner_of};

    type Done = L::Done;

    type Seen = L::Seen;

    ghost runs = { λ l. L.runs (inner_of l) };

    ghost faults = { λ l. L.faults (inner_of l) };

    ghost world = { λ l. L.world (inner_of l) };

    ghost store = { λ l. L.store (inner_of l) };

    fn run(&mut self, alloc: Global, job: &Job) -> Result<L::Done, LaneRefusal> {
        let process = &job.parts().process;
        self.watcher.told(process, Step::Begun);
        let answer = self.inner.run(alloc, job);
        self.watcher.told(process, Step::Done);
        answer
    }

    fn look(&mut self, alloc: Global, report: &Report) -> Result<Look<L::Seen>, LaneRefusal> {
        let answer = self.inner.look(alloc, report);
        if let Ok(look) = &answer {
            self.watcher.looked(report, matches!(look, Look::There(_)));
        }
        answer
    }

    fn runs(&self) -> u64 {
        self.inner.runs()
    }

    fn faults(&self) -> u64 {
        self.inner.faults()
    }
}
