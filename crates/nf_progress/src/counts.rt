//! `Counts`: how far the tasks of one process are.

ghost use Rattle.std.specs.Prelude.{◌≡◌};
ghost use Rattle.nf_progress.specs.Counts.{counts_after};

/// A step of one task (own).
#[derive(Debug, Clone, Copy, PartialEq, Eq, Drop)]
pub enum Step {
    /// A worker took it.
    Begun,
    /// It ran, and its run has ended.
    Done,
    /// The report of an earlier run was taken in its place.
    Cached,
    /// It was given up.
    Lost,
}

/// How many tasks of one process are done, cached and running (own). A count stands still at its type's end.
#[derive(Debug, Clone, Copy, PartialEq, Eq, Drop)]
pub struct Counts {
    /// Tasks that ran to their end.
    pub done: u32,
    /// Tasks in whose place the report of an earlier run was taken.
    pub cached: u32,
    /// Tasks that a worker has now.
    pub running: u32,
}

impl Counts {
    /// No task yet.
    pub const NONE: Counts = Counts {
        done: 0,
        cached: 0,
        running: 0,
    };

    /// The counts after a step of one of the tasks.
    pub fn after(self, step: Step) -> Counts
        ensures { result ≡ counts_after step self }
    {
        let Counts {
            done,
            cached,
            running,
        } = self;
        let ended = Counts {
            done,
            cached,
            running: running.saturating_sub(1),
        };
        match step {
            Step::Begun => Counts {
                done,
                cached,
                running: running.saturating_add(1),
            },
            Step::Done => Counts {
                done: done.saturating_add(1),
                ..ended
            },
            Step::Cached => Counts {
                cached: cached.saturating_add(1),
                ..ended
            },
            Step::Lost => ended,
        }
    }
}
