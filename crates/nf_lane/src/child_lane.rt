//! `ChildLane`: runs jobs as child processes.

ghost use Rattle.std.specs.Prelude.{◌≡◌, ◌+◌, ◌<◌, ◌≤◌, ◌^◌, None, IfOk, OnOk};
ghost use Rattle.nf_host.specs.Faults.{Rose};
ghost use Rattle.nf_job.specs.JobText.{job_text};
ghost use Rattle.nf_lane.specs.Faults.{OnFailed};
ghost use Rattle.nf_lane.specs.Child.{IsChildReport};

use crate::child::run_script;
use crate::done::Done;
use crate::lane::{Lane, Look};
use crate::refusal::LaneRefusal;
use crate::seen::Seen;
use crate::store::look_in;
use nf_job::{Job, Report};
use std::alloc::Global;
use std::io::ErrorKind;
use std::process::Processes;

/// Runs each job's script by `sh -ue -c SCRIPT` in the program's working folder. The child has no input, and its standard
/// error is the program's. The lane doesn't reveal its world, and keeps no files, so it finds none (own).
#[derive(Drop)]
pub struct ChildLane<R> {
    rt: R,
    runs: u64,
    looks: u64,
    faults: u64,
}

impl<R: Processes> ChildLane<R> {
    ghost use Rattle.nf_lane.specs.ChildLane.{runs_of, faults_of};

    /// A lane over the system's processes. Takes no memory.
    pub fn new(rt: R) -> ChildLane<R>
        ensures runs { runs_of result ≡ 0 }
        ensures faults { faults_of result ≡ 0 }
    {
        ChildLane {
            rt,
            runs: 0,
            looks: 0,
            faults: 0,
        }
    }

    fn fail(&mut self) -> LaneRefusal
        ensures failed { result ≡ LaneRefusal.Failed }
        ensures later { faults_of self.old ≤ faults_of self.new }
        ensures rose { Rose (faults_of self.old) (faults_of self.new) }
        ensures runs { runs_of self.new ≡ runs_of self.old }
    {
        self.faults = self.faults.saturating_add(1);
        LaneRefusal::Failed
    }
}

impl<R: Processes> Lane for ChildLane<R> {
    ghost use Rattle.nf_lane.specs.ChildLane.{runs_of, faults_of};
    ghost use Rattle.nf_lane.specs.Done.{IsGenuine, text_of, report_of_done};

    type Done = Done;

    type Seen = Seen;

    ghost runs = { runs_of };

    ghost faults = { faults_of };

    ghost world = { λ _. None };

    ghost store = { λ _. None };

    fn run(&mut self, alloc: Global, job: &Job) -> Result<Done, LaneRefusal>
        requires { runs_of self.old < 2 ^ 63 }
        ensures rises { runs_of self.new ≡ runs_of self.old + 1 }
        ensures later { faults_of self.old ≤ faults_of self.new }
        ensures cause { OnFailed result (Rose (faults_of self.old) (faults_of self.new)) }
        ensures genuine { IfOk result IsGenuine }
        ensures of_the_job { IfOk result (λ d. text_of d ≡ job_text job.now) }

        // A run that gives a report counts no fault, and the report is one that a child can have.
        ensures counted { OnOk result (faults_of self.new ≡ faults_of self.old) }
        ensures reported { IfOk result (λ d. IsChildReport job.now.wants_stdout (report_of_done d)) }
    {
        self.runs += 1;
        let parts = job.parts();
        match run_script(&self.rt, alloc, parts.script.as_str(), parts.wants_stdout) {
            Ok(report) => Ok(Done::of(job, report)?),
            Err(error) if error.kind() == ErrorKind::OutOfMemory => Err(LaneRefusal::Mem),
            Err(_) => Err(self.fail()),
        }
    }

    fn look(&mut self, _alloc: Global, report: &Report) -> Result<Look<Seen>, LaneRefusal> {
        self.looks = self.looks.saturating_add(1);
        Ok(look_in(&[], report, self.looks)?)
    }

    fn runs(&self) -> u64 {
        self.runs
    }

    fn faults(&self) -> u64 {
        self.faults
    }
}
