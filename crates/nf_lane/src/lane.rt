//! The trait `Lane`, which runs jobs and looks for the files of reports, and what it gives back.

ghost use Rattle.std.specs.Prelude.{◌≡◌, ◌+◌, ◌<◌, ◌≤◌, ◌^◌, ℕ, List, IfOk, IfSome, IsTrue};
ghost use Rattle.std.specs.declared.option.Option.{Option};
ghost use Rattle.sha2.specs.Sha256.{sha256};
ghost use Rattle.nf_host.specs.Faults.{Rose};
ghost use Rattle.nf_host.specs.Told.{Both};
ghost use Rattle.nf_job.specs.JobText.{job_text};
ghost use Rattle.nf_job.specs.declared.report.Report.{Report};
ghost use Rattle.nf_lane.specs.Faults.{OnFailed};
ghost use Rattle.nf_lane.specs.Store.{Store, Grows, IsLook, OnThere, OnGone, has_name};
ghost use Rattle.nf_lane.specs.World.{World, report_of};

use crate::refusal::LaneRefusal;
use nf_job::{Job, Report};
use nf_value::{Digest, Txt};
use std::alloc::Global;

/// A job that was run, with its report (own). It can't be cloned, so each value stands for one run.
pub trait Finished {
    /// What is known of every value that a lane's `run` gives.
    ghost genuine: { Self → Type 0 };

    /// The text of the job.
    ghost job: { Self → List ℕ };

    /// The job's report.
    ghost told: { Self → Report };

    /// The key of the job. Takes no memory.
    fn key(&self) -> &Digest
        ensures { result.now.0 ≡ sha256 (job self.now) };

    /// The job's report: how it ended. Takes no memory.
    fn report(&self) -> &Report
        ensures { result.now ≡ told self.now };
}

/// A report whose files a lane found (own). It can't be cloned, so each value stands for one look.
pub trait Present {
    /// What is known of every value that a lane's `look` gives.
    ghost genuine: { Self → Type 0 };

    /// The report.
    ghost told: { Self → Report };

    /// The report. Takes no memory.
    fn report(&self) -> &Report
        ensures { result.now ≡ told self.now };
}

/// What a look for the files of a report came to (own).
#[derive(Drop)]
pub enum Look<S> {
    /// All files of the report are in the file store.
    There(S),
    /// A file of the report isn't there, or other bytes are in its place.
    Gone {
        /// The name of that file.
        name: Txt,
    },
}

/// Runs jobs, one after another, and looks for the files of reports (own).
///
/// A lane may reveal its world, the report of every job. If it does, `run` gives exactly the report in it; otherwise nothing is
/// known of the report. It may reveal its store, too: the digests whose files stand whole in its file store.
pub trait Lane {
    /// A job that the lane ran.
    type Done: Finished + Drop;

    /// A report whose files the lane found.
    type Seen: Present + Drop;

    /// How many calls of `run` it has had.
    ghost runs: { Self → ℕ };

    /// How often the lane has failed. The count stops at 2^64 - 1.
    ghost faults: { Self → ℕ };

    /// The report of each job by its text, if the lane reveals it.
    ghost world: { Self → Option World };

    /// The digests whose files stand whole in the lane's file store, if the lane reveals them.
    ghost store: { Self → Option Store };

    /// Runs a job once, and gives the job with its report. The count of runs rises by one, also on an error.
    ///
    /// # Errors
    ///
    /// `Failed` if the lane failed in this call; it counted that. `Mem` if there is no memory for the answer.
    fn run(&mut self, alloc: Global, job: &Job) -> Result<Self::Done, LaneRefusal>
        requires { runs self.old < 2 ^ 63 }
        ensures rises { runs self.new ≡ runs self.old + 1 }
        ensures later { faults self.old ≤ faults self.new }
        ensures cause { OnFailed result (Rose (faults self.old) (faults self.new)) }
        ensures same { world self.new ≡ world self.old }
        ensures grows { Both (store self.old) (store self.new) Grows }

        // The answer is of this job, and its report is the world's.
        ensures genuine { IfOk result Self.Done.genuine }
        ensures of_the_job { IfOk result (λ d. Self.Done.job d ≡ job_text job.now) }
        ensures told { IfSome (world self.old) (λ w. IfOk result (λ d. Self.Done.told d ≡ report_of w (job_text job.now))) };

    /// Looks whether all files of a report stand whole in the file store. Neither the store nor the count of runs changes.
    ///
    /// If the lane reveals its store: `There` only if it has the digest of every file of the report, and `Gone` only with the
    /// name of a file whose digest it lacks.
    ///
    /// # Errors
    ///
    /// `Failed` if the lane failed in this call; it counted that. `Mem` if there is no memory for the answer.
    fn look(&mut self, alloc: Global, report: &Report) -> Result<Look<Self::Seen>, LaneRefusal>
        ensures later { faults self.old ≤ faults self.new }
        ensures cause { OnFailed result (Rose (faults self.old) (faults self.new)) }
        ensures no_run { runs self.new ≡ runs self.old }
        ensures same { world self.new ≡ world self.old }
        ensures same_store { store self.new ≡ store self.old }

        // The answer is of this report.
        ensures genuine { IfOk result (OnThere Self.Seen.genuine) }
        ensures of_the_report { IfOk result (OnThere (λ s. Self.Seen.told s ≡ report.now)) }
        ensures named { IfOk result (OnGone (λ name. IsTrue (has_name report.now.found name))) }
        ensures looked { IfSome (store self.old) (λ s. IfOk result (IsLook s report.now.found)) };

    /// How many calls of `run` it has had.
    fn runs(&self) -> u64
        ensures { result ≡ runs self.now };

    /// How often the lane has failed, at most 2^64 - 1.
    fn faults(&self) -> u64
        ensures { result ≡ faults self.now };
}

/// What a run of a script keeps from its lanes: the jobs that they ran, in the order of the history's Finish events, and the
/// reports that they looked for, in that of its Reuse events.
#[derive(Drop)]
pub struct Kept<L: Lane> {
    /// The jobs that were run.
    pub dones: Vec<L::Done>,
    /// The reports whose files were found.
    pub seens: Vec<L::Seen>,
}
