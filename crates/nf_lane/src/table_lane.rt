//! `TableLane`: answers from a table, for tests.

ghost use Rattle.std.specs.Prelude.{◌≡◌, ◌+◌, ◌-◌, ◌<◌, ◌≤◌, ◌^◌, ◌++◌, [], ◌∷◌, filter, min, if◌then◌else◌, Some, Err, IfOk, IfErr, OnOk, OnErr, IsTrue};
ghost use Rattle.std.specs.Bool.{OnTrue};
ghost use Rattle.nf_job.specs.JobText.{job_text};
ghost use Rattle.nf_host.specs.Faults.{Rose};
ghost use Rattle.nf_lane.specs.Faults.{OnFailed};
ghost use Rattle.nf_lane.specs.Store.{is_other};
ghost use Rattle.nf_lane.specs.World.{report_of};

use crate::done::Done;
use crate::lane::{Lane, Look};
use crate::refusal::LaneRefusal;
use crate::seen::Seen;
use crate::store::{digests_in, look_in};
use crate::table::Table;
use nf_job::{Job, Report};
use nf_value::{Digest, Mem};
use std::alloc::Global;

/// Answers from a table. It reveals the table as its world, and fails exactly at the runs that it was made to fail at. It
/// reveals its store, too: a run adds the files of its report, `store` adds a file, and `lose` takes one away (own).
pub struct TableLane {
    table: Table,
    failing: Vec<u64>,
    stored: Vec<Digest>,
    runs: u64,
    looks: u64,
    faults: u64,
}

impl Drop for TableLane {
    fn drop(self) {
        let TableLane {
            table: _,
            failing: _,
            stored: _,
            runs: _,
            looks: _,
            faults: _,
        } = self;
    }
}

impl TableLane {
    ghost use Rattle.nf_lane.specs.TableLane.{world_of, failing_of, stored_of, runs_of, faults_of};

    /// A lane over this table, with an empty store. It fails at the runs whose numbers, from 0, are in `failing`. Takes no
    /// memory.
    pub fn new(table: Table, failing: Vec<u64>) -> TableLane
        ensures world { world_of result ≡ table }
        ensures failing { failing_of result ≡ failing.items }
        ensures stored { stored_of result ≡ [] }
        ensures runs { runs_of result ≡ 0 }
        ensures faults { faults_of result ≡ 0 }
    {
        let stored = Vec::new(*failing.allocator());
        TableLane {
            table,
            failing,
            stored,
            runs: 0,
            looks: 0,
            faults: 0,
        }
    }

    /// Adds the file of a digest to the store.
    ///
    /// # Errors
    ///
    /// `Mem` if there is no memory for it. The lane is unchanged.
    pub fn store(&mut self, digest: Digest) -> Result<(), Mem>
        ensures ok { OnOk result (stored_of self.new ≡ stored_of self.old ++ digest ∷ []) }
        ensures err { OnErr result (stored_of self.new ≡ stored_of self.old) }
        ensures world { world_of self.new ≡ world_of self.old }
        ensures failing { failing_of self.new ≡ failing_of self.old }
        ensures runs { runs_of self.new ≡ runs_of self.old }
        ensures faults { faults_of self.new ≡ faults_of self.old }
    {
        self.stored.push(digest)?;
        Ok(())
    }

    /// Takes the file of a digest out of the store, if it is there. Takes no memory.
    pub fn lose(&mut self, digest: &Digest)
        ensures stored { stored_of self.new ≡ filter (is_other digest.now) (stored_of self.old) }
        ensures world { world_of self.new ≡ world_of self.old }
        ensures failing { failing_of self.new ≡ failing_of self.old }
        ensures runs { runs_of self.new ≡ runs_of self.old }
        ensures faults { faults_of self.new ≡ faults_of self.old }
    {
        self.stored.retain(|stored| is_other(digest, stored));
    }
}

/// Whether a digest isn't this one.
fn is_other(digest: &Digest, stored: &Digest) -> bool
    ensures { result ≡ is_other digest.now stored.now }
{
    stored.0 != digest.0
}

impl Lane for TableLane {
    ghost use Rattle.nf_lane.specs.TableLane.{world_of, failing_of, stored_of, runs_of, faults_of, is_next_failing};
    ghost use Rattle.nf_lane.specs.Done.{IsGenuine, text_of, report_of_done};
    ghost use Rattle.nf_lane.specs.Seen.{IsSeen, report_of_seen};
    ghost use Rattle.nf_lane.specs.Store.{Grows, IsLook, OnThere, OnGone, digests_in, has_name, holds};

    type Done = Done;

    type Seen = Seen;

    ghost runs = { runs_of };

    ghost faults = { faults_of };

    ghost world = { λ l. Some (world_of l) };

    ghost store = { λ l. Some (holds (stored_of l)) };

    #[tactic(auto, using(crate::proofs::Growing::grows_by, crate::proofs::Growing::grows_same))]
    fn run(&mut self, alloc: Global, job: &Job) -> Result<Done, LaneRefusal>
        requires { runs_of self.old < 2 ^ 63 }
        ensures rises { runs_of self.new ≡ runs_of self.old + 1 }
        ensures later { faults_of self.old ≤ faults_of self.new }
        ensures cause { OnFailed result (Rose (faults_of self.old) (faults_of self.new)) }
        ensures same { world_of self.new ≡ world_of self.old }
        ensures grows { Grows (holds (stored_of self.old)) (holds (stored_of self.new)) }
        ensures genuine { IfOk result IsGenuine }
        ensures of_the_job { IfOk result (λ d. text_of d ≡ job_text job.now) }
        ensures told { IfOk result (λ d. report_of_done d ≡ report_of (world_of self.old) (job_text job.now)) }

        // It fails exactly at the runs in `failing`.
        ensures fails { OnTrue (is_next_failing self.old) (result ≡ Err LaneRefusal.Failed) }
        ensures fails_only { OnFailed result (IsTrue (is_next_failing self.old)) }
        ensures counted { faults_of self.new ≡ (if is_next_failing self.old then min (faults_of self.old + 1) (2 ^ 64 - 1) else faults_of self.old) }
        ensures failing { failing_of self.new ≡ failing_of self.old }

        // The store has the files of the report then, and no others are added.
        ensures stored { IfOk result (λ d. stored_of self.new ≡ stored_of self.old ++ digests_in (report_of_done d).found) }
        ensures same_store { OnErr result (stored_of self.new ≡ stored_of self.old) }
    {
        let run = self.runs;
        self.runs = run + 1;
        if self.failing.contains(&run) {
            self.faults = self.faults.saturating_add(1);
            return Err(LaneRefusal::Failed);
        }
        let report = self.table.report(alloc, job.text())?;
        let mut digests = digests_in(alloc, report.found.items())?;
        let done = Done::of(job, report)?;
        self.stored.append(&mut digests)?;
        Ok(done)
    }

    fn look(&mut self, _alloc: Global, report: &Report) -> Result<Look<Seen>, LaneRefusal>
        ensures later { faults_of self.old ≤ faults_of self.new }
        ensures no_run { runs_of self.new ≡ runs_of self.old }
        ensures same { world_of self.new ≡ world_of self.old }
        ensures same_store { stored_of self.new ≡ stored_of self.old }
        ensures genuine { IfOk result (OnThere IsSeen) }
        ensures of_the_report { IfOk result (OnThere (λ s. report_of_seen s ≡ report.now)) }
        ensures named { IfOk result (OnGone (λ name. IsTrue (has_name report.now.found name))) }
        ensures looked { IfOk result (IsLook (holds (stored_of self.old)) report.now.found) }

        // It never fails.
        ensures mem { IfErr result (λ e. e ≡ LaneRefusal.Mem) }
        ensures counted { faults_of self.new ≡ faults_of self.old }
        ensures failing { failing_of self.new ≡ failing_of self.old }
    {
        self.looks = self.looks.saturating_add(1);
        Ok(look_in(&self.stored, report, self.looks)?)
    }

    fn runs(&self) -> u64 {
        self.runs
    }

    fn faults(&self) -> u64 {
        self.faults
    }
}
