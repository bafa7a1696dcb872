//! `ShellLane`: runs jobs as scripts of a shell over a host.

ghost use Rattle.std.specs.Prelude.{◌≡◌, ◌+◌, ◌-◌, ◌<◌, ◌≤◌, ◌^◌, ◌⊎◌, [], None, IfOk, OnOk, IfSome, IsTrue};
ghost use Rattle.nf_host.specs.Faults.{Rose};
ghost use Rattle.nf_host.specs.Told.{Both};
ghost use Rattle.nf_job.specs.JobText.{job_text};
ghost use Rattle.nf_lane.specs.Faults.{OnFailed};
ghost use Rattle.nf_lane.specs.Store.{Grows, IsLook, OnThere, OnGone, has_name};

use crate::damage::Damage;
use crate::done::ShellDone;
use crate::look::first_missing;
use crate::run::{Ran, run_job};
use crate::seen::ShellSeen;
use nf_host::Host;
use nf_job::{Job, Report};
use nf_lane::{Lane, LaneRefusal, Look};
use nf_value::Txt;
use std::alloc::Global;

/// Runs jobs as scripts of a shell, each in a folder of its own, over a host of its own (Nextflow's documentation, "Cache and
/// resume", on the task's work directory).
///
/// A job's folder is cleared first. It then holds `.command.sh` (the script and a line end), `.command.in` (the standard
/// input, or nothing) and the staged files, copied from the file store; the child adds `.command.out` and `.command.err`, and
/// the lane `.exitcode`. The files of the outputs are put into the file store.
///
/// Its count of failures is the host's and that of its damages together.
#[derive(Drop)]
pub struct ShellLane<H: Host> {
    host: H,
    work: Txt,
    runs: u64,
    looks: u64,
    damages: Vec<Damage>,
}

impl<H: Host + Drop> ShellLane<H> {
    ghost use Rattle.nf_shell.specs.ShellLane.{runs_of, damages_of, work_of, host_of};

    /// A lane over this host and this work folder. Takes no memory.
    pub fn new(alloc: Global, host: H, work: Txt) -> ShellLane<H>
        ensures host { host_of result ≡ host }
        ensures work { work_of result ≡ work }
        ensures runs { runs_of result ≡ 0 }
        ensures damages { damages_of result ≡ [] }
    {
        ShellLane {
            host,
            work,
            runs: 0,
            looks: 0,
            damages: Vec::new(alloc),
        }
    }

    /// The damaged files that its runs met, in their order. Takes no memory.
    pub fn damages(&self) -> &[Damage]
        ensures { result.now ≡ damages_of self.now }
    {
        self.damages.as_slice()
    }

    /// The host that it runs over. Takes no memory.
    pub fn host(&self) -> &H
        ensures { result.now ≡ host_of self.now }
    {
        &self.host
    }
}

impl<H: Host + Drop> Lane for ShellLane<H> {
    ghost use Rattle.nf_shell.specs.Damages.{AddsDamage, HasOneMore};
    ghost use Rattle.nf_shell.specs.Done.{IsGenuine, text_of, report_of_done};
    ghost use Rattle.nf_shell.specs.Over.{OkOver};
    ghost use Rattle.nf_shell.specs.Places.{StoresBeside};
    ghost use Rattle.nf_shell.specs.Runs.{IsReportBy, IsReportFor, StartsAtMostOne, StartsOne};
    ghost use Rattle.nf_shell.specs.Seen.{IsSeen, report_of_seen};
    ghost use Rattle.nf_shell.specs.ShellLane.{runs_of, faults_by, damages_of, work_of, store_by, told_by};

    type Done = ShellDone;

    type Seen = ShellSeen;

    ghost runs = { runs_of };

    ghost faults = { λ l. faults_by H.faults l };

    ghost world = { λ _. None };

    ghost store = { λ l. store_by H.files l };

    fn run(&mut self, alloc: Global, job: &Job) -> Result<ShellDone, LaneRefusal>
        requires { runs_of self.old < 2 ^ 63 }
        ensures rises { runs_of self.new ≡ runs_of self.old + 1 }
        ensures later { faults_by H.faults self.old ≤ faults_by H.faults self.new }
        ensures cause { OnFailed result (Rose (faults_by H.faults self.old) (faults_by H.faults self.new)) }
        ensures grows { Both (store_by H.files self.old) (store_by H.files self.new) Grows }
        ensures genuine { IfOk result IsGenuine }
        ensures of_the_job { IfOk result (λ d. text_of d ≡ job_text job.now) }

        // The work folder stays. Outside of the job's folder nothing changes, but for files that were stored whole.
        ensures place { work_of self.new ≡ work_of self.old }
        ensures kept { Both (told_by H.files self.old) (told_by H.files self.new)
            (StoresBeside (work_of self.old) job.now) }

        // One child ran in the job's folder, which was ready, and the report is of what it left. That still stands there
        // when the run returns.
        ensures started { OkOver (told_by H.files self.old) result (λ _ d.
            StartsOne (work_of self.old) job.now (report_of_done d) (told_by H.started self.old)
            (told_by H.started self.new)) }
        ensures reported { OkOver (told_by H.files self.new) result (λ g d.
            IsReportBy (work_of self.old) job.now g (report_of_done d)) }
        ensures formed { IfOk result (λ d. IsReportFor job.now (report_of_done d)) }

        // Whatever it answers, it started no other child.
        ensures starts { IfSome (told_by H.files self.old) (λ _. StartsAtMostOne (work_of self.old) job.now
            (told_by H.started self.old) (told_by H.started self.new)) }

        // It fails only if its host did, or if it found a damaged file among those that were to be staged.
        ensures blame { OnFailed result (
            Rose (told_by H.faults self.old) (told_by H.faults self.new) ⊎
            HasOneMore (damages_of self.old) (damages_of self.new)) }
        ensures damages { AddsDamage (work_of self.old) job.now.staged (told_by H.files self.new)
            (damages_of self.old) (damages_of self.new) }
        ensures sound { OnOk result (damages_of self.new ≡ damages_of self.old) }

        // If it finds a damaged file, it starts no child.
        ensures spared { IfSome (told_by H.files self.old) (λ _.
            HasOneMore (damages_of self.old) (damages_of self.new) →
            told_by H.started self.new ≡ told_by H.started self.old) }
    {
        self.runs += 1;
        match run_job(alloc, &mut self.host, self.work.as_str(), job)? {
            Ran::Ended(report) => Ok(ShellDone::of(job, report)?),
            Ran::Damaged(damage) => {
                self.damages.push(damage)?;
                Err(LaneRefusal::Failed)
            }
        }
    }

    fn look(&mut self, alloc: Global, report: &Report) -> Result<Look<ShellSeen>, LaneRefusal>
        ensures later { faults_by H.faults self.old ≤ faults_by H.faults self.new }
        ensures cause { OnFailed result (Rose (faults_by H.faults self.old) (faults_by H.faults self.new)) }
        ensures no_run { runs_of self.new ≡ runs_of self.old }
        ensures same_store { store_by H.files self.new ≡ store_by H.files self.old }
        ensures genuine { IfOk result (OnThere IsSeen) }
        ensures of_the_report { IfOk result (OnThere (λ s. report_of_seen s ≡ report.now)) }
        ensures named { IfOk result (OnGone (λ name. IsTrue (has_name report.now.found name))) }
        ensures looked { IfSome (store_by H.files self.old) (λ s. IfOk result (IsLook s report.now.found)) }

        // It fails only if its host did, and nothing else changes either.
        ensures blame { OnFailed result (Rose (told_by H.faults self.old) (told_by H.faults self.new)) }
        ensures place { work_of self.new ≡ work_of self.old }
        ensures damages { damages_of self.new ≡ damages_of self.old }
        ensures files { told_by H.files self.new ≡ told_by H.files self.old }
        ensures no_start { told_by H.started self.new ≡ told_by H.started self.old }
    {
        self.looks = self.looks.saturating_add(1);
        let work = self.work.as_str();
        match first_missing(alloc, &mut self.host, work, report.found.items())? {
            Some(name) => Ok(Look::Gone { name }),
            None => Ok(Look::There(ShellSeen::of(report, self.looks)?)),
        }
    }

    fn runs(&self) -> u64 {
        self.runs
    }

    fn faults(&self) -> u64 {
        self.host.faults().saturating_add(self.damages.len() as u64)
    }
}
